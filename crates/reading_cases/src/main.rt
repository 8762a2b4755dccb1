// Reads each text of a table, and prints what it holds or the fault that it was refused with.
#![tactic(auto)]

mod case;
mod show;

use case::Case;
use show::show;

// A text that is as long as a text may be, and one that is longer by one byte.
fn long_texts(rt: &HostRuntime) -> anyhow::Result<()> {
    for length in [65_536, 65_537] {
        let text = vec![in rt.alloc(); b'x'; length]?;
        show(rt, &text, 0)?;
    }
    Ok(())
}

fn run(rt: &HostRuntime) -> anyhow::Result<()> {
    for line in rt.lines(rt.alloc()) {
        let line = line?;
        let case = Case::parse(rt.alloc(), line.as_str())?;
        show(rt, &case.text, case.entries)?;
    }
    long_texts(rt)
}

fn main(rt: HostRuntime) -> anyhow::Result<()> {
    run(&rt)
}
