// Lists sheets that lie in its folder, and prints the name of each, how many states may be listed, and the listing or the fault.
#![tactic(auto)]

use listing_text::list_text;
use std::fs;

// How many states are listed at most.
const MOST_STATES: u64 = 4_096;

const SHEETS: [&str; 12] = [
    "cabinet.txt",
    "faulty_count.txt",
    "faulty_end.txt",
    "faulty_grade.txt",
    "faulty_number.txt",
    "faulty_order.txt",
    "faulty_part.txt",
    "faulty_turn.txt",
    "faulty_word.txt",
    "mast.txt",
    "no_feed.txt",
    "worked.txt",
];

// Sheets that are listed once more, with fewer states.
const LIMITED: [(&str, u64); 4] = [
    ("worked.txt", 7),
    ("worked.txt", 6),
    ("worked.txt", 0),
    ("cabinet.txt", 10),
];

fn show(rt: &HostRuntime, name: &str, most: u64) -> anyhow::Result<()> {
    let text = fs::read(rt, name)?;
    let listing = list_text(rt.alloc(), &text, most)?;
    print!(rt; "{name},{most}\n{listing}")?;
    Ok(())
}

fn run(rt: &HostRuntime) -> anyhow::Result<()> {
    for name in SHEETS {
        show(rt, name, MOST_STATES)?;
    }
    for (name, most) in LIMITED {
        show(rt, name, most)?;
    }
    Ok(())
}

fn main(rt: HostRuntime) -> anyhow::Result<()> {
    run(&rt)
}
