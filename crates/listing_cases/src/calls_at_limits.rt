use crate::by_number::ByNumber;
use crate::many::list_all;
use crate::outcome::{show_figures, show_next, show_reply, show_run};
use crate::sheets::{sheet_of, standby};
use anyhow::Context;
use calls::Call;
use listing::Listing;
use rankings::Exact;
use replaying::replay;
use structures::{PathList, Quorum};

// Targets and budgets: nothing is asked, too much is asked, some, and all.
pub(crate) fn runs(rt: &HostRuntime) -> anyhow::Result<()> {
    println!(rt; "runs")?;
    let sheet = sheet_of(rt.alloc(), &[7, 7, 17])?;
    let mut listing = Listing::open(rt.alloc(), &sheet, Quorum::new(2, 0b111), Exact)
        .ok()
        .context("no memory")?;
    show_run(rt, listing.run(0, 5))?;
    show_run(rt, listing.run(1_000_001, 5))?;
    show_run(rt, listing.run(1_000_000, 0))?;
    show_run(rt, listing.run(890_000, 5))?;
    show_run(rt, listing.run(1_000_000, 1))?;
    show_figures(rt, listing.figures())?;
    show_run(rt, listing.run(1_000_000, 100))?;
    show_next(rt, listing.next())?;
    show_figures(rt, listing.figures())
}

pub(crate) fn empty_path_list(rt: &HostRuntime) -> anyhow::Result<()> {
    println!(rt; "empty path list")?;
    let sheet = sheet_of(rt.alloc(), &[7, 7, 17])?;
    let none = PathList::new(rt.alloc(), &[])
        .ok()
        .context("the paths were refused")?;
    let mut listing = Listing::open(rt.alloc(), &sheet, none, Exact)
        .ok()
        .context("no memory")?;
    show_next(rt, listing.next())?;
    show_figures(rt, listing.figures())?;
    show_next(rt, listing.next())
}

pub(crate) fn no_parts(rt: &HostRuntime) -> anyhow::Result<()> {
    println!(rt; "no parts")?;
    let sheet = sheet_of(rt.alloc(), &[])?;
    let mut listing = Listing::open(rt.alloc(), &sheet, Quorum::new(0, 0), Exact)
        .ok()
        .context("no memory")?;
    show_next(rt, listing.next())?;
    show_next(rt, listing.next())?;
    show_figures(rt, listing.figures())
}

// Twenty equal parts, of which ten must serve: too many states would wait. The refusal changes nothing.
pub(crate) fn full_listing(rt: &HostRuntime) -> anyhow::Result<()> {
    println!(rt; "full")?;
    let sheet = sheet_of(rt.alloc(), &[10; 20])?;
    let mut listing = Listing::open(rt.alloc(), &sheet, Quorum::new(10, 0xf_ffff), Exact)
        .ok()
        .context("no memory")?;
    show_run(rt, listing.run(1_000_000, 1_000_000))?;
    let before = listing.figures();
    show_next(rt, listing.next())?;
    show_next(rt, listing.next())?;
    let unchanged = before == listing.figures();
    show_figures(rt, listing.figures())?;
    println!(rt; "unchanged,{unchanged}")?;
    Ok(())
}

// A listing that is stopped gives its pile and ranking back, for another that answers the same.
pub(crate) fn stopped(rt: &HostRuntime) -> anyhow::Result<()> {
    println!(rt; "stopped")?;
    let sheet = sheet_of(rt.alloc(), &[2, 8, 8, 30])?;
    let standby = standby()?;
    let mut listing = Listing::open(rt.alloc(), &sheet, standby, ByNumber)
        .ok()
        .context("no memory")?;
    show_run(rt, listing.run(1_000_000, 3))?;
    let stopped = listing.stop();
    show_figures(rt, stopped.figures)?;
    list_all(rt, "opened again", &sheet, stopped.pile, stopped.ranking)?;
    Ok(())
}

fn run(target: u32, budget: u64) -> Call {
    Call::Run { target, budget }
}

pub(crate) fn replayed(rt: &HostRuntime) -> anyhow::Result<()> {
    println!(rt; "replayed")?;
    let sheet = sheet_of(rt.alloc(), &[2, 8, 8, 30])?;
    let standby = standby()?;
    let calls = [
        Call::Figures,
        Call::Next,
        run(0, 9),
        run(1_000_001, 9),
        run(1_000_000, 4),
        Call::Next,
        run(900_000, 9),
        run(1_000_000, 99),
        Call::Next,
        Call::Figures,
    ];
    let answers = replay(rt.alloc(), &sheet, standby, ByNumber, &calls)
        .ok()
        .context("no memory")?;
    for answer in &answers.replies {
        show_reply(rt, answer.reply)?;
        show_figures(rt, answer.figures)?;
    }
    list_all(rt, "opened again", &sheet, answers.pile, answers.ranking)?;
    Ok(())
}
