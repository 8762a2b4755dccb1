use calls::{Ending, Figures, Full, Handed, Ran, Reply, RunError};
use sheet::RefusalNumber;

pub(crate) fn show_figures(rt: &HostRuntime, figures: Figures) -> anyhow::Result<()> {
    println!(rt;
        "figures,{},{},{},{}",
        figures.lower, figures.upper, figures.handed, figures.waiting
    )?;
    Ok(())
}

// A line for a refused call: its number, 0 for one without a number.
fn show_refused<E: RefusalNumber>(rt: &HostRuntime, call: &str, error: E) -> anyhow::Result<()> {
    println!(rt; "{call},refused,{}", error.number().unwrap_or(0))?;
    Ok(())
}

pub(crate) fn show_next(
    rt: &HostRuntime,
    answer: Result<Option<Handed>, Full>,
) -> anyhow::Result<()> {
    match answer {
        Ok(Some(handed)) => println!(rt; "next,{},{}", handed.state.number(), handed.verdict)?,
        Ok(None) => println!(rt; "next,finished")?,
        Err(full) => show_refused(rt, "next", full)?,
    }
    Ok(())
}

pub(crate) fn show_run(rt: &HostRuntime, answer: Result<Ran, RunError>) -> anyhow::Result<()> {
    match answer {
        Ok(ran) => println!(rt; "run,{},{}", ran.ending, ran.count)?,
        Err(refused) => show_refused(rt, "run", refused)?,
    }
    Ok(())
}

pub(crate) fn show_reply(rt: &HostRuntime, reply: Reply) -> anyhow::Result<()> {
    match reply {
        Reply::Next(answer) => show_next(rt, answer),
        Reply::Run(answer) => show_run(rt, answer),
        Reply::Figures(figures) => show_figures(rt, figures),
    }
}
