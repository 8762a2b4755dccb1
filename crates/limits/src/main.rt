// Tries every limit of sheets, path lists and networks from both sides, and prints what was accepted and what was refused with
// which number.
#![tactic(auto)]

mod cases;
mod outcome;

use cases::{feed_off_the_sheet, link_limits, part_limits, part_number_limits, path_limits};

fn run(rt: &HostRuntime) -> anyhow::Result<()> {
    part_number_limits(rt)?;
    part_limits(rt)?;
    path_limits(rt)?;
    link_limits(rt)?;
    feed_off_the_sheet(rt)
}

fn main(rt: HostRuntime) -> anyhow::Result<()> {
    run(&rt)
}
