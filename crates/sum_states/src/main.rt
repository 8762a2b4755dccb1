// Sums two stations over all their states and prints what it did: a small one state by state, and a cabinet of nine parts.
#![tactic(auto)]

mod show;
mod stations;

use show::{print_sheet, print_states, print_sums};
use stations::{cabinet, small_station};

fn run(rt: &HostRuntime) -> anyhow::Result<()> {
    let (sheet, pile) = small_station(rt.alloc())?;
    println!(rt; "small station")?;
    print_sheet(rt, &sheet)?;
    print_states(rt, &sheet, &pile)?;
    print_sums(rt, &sheet, &pile)?;
    let (sheet, pile) = cabinet(rt.alloc())?;
    println!(rt; "cabinet")?;
    print_sheet(rt, &sheet)?;
    print_sums(rt, &sheet, &pile)
}

fn main(rt: HostRuntime) -> anyhow::Result<()> {
    run(&rt)
}
