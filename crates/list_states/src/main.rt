// Reads a sheet's text on standard input, and writes the listing of its station, or the text's fault, on standard output.
#![tactic(auto)]

use listing_text::list_text;
use std::io;
use std::io::{Read, Write};

// How many bytes of a text are read: one past the limit shows that it is too long.
const MOST_BYTES: u64 = 65_536 + 1;

// How many states are listed at most.
const MOST_STATES: u64 = 4_096;

fn run(rt: &HostRuntime) -> anyhow::Result<()> {
    let heap = rt.alloc();
    let mut text = Vec::new(heap);
    rt.reader().take(MOST_BYTES).read_to_end(&mut text)?;
    let listing = list_text(heap, &text, MOST_STATES)?;
    io::writer(rt).write_all(listing.as_bytes())?;
    Ok(())
}

fn main(rt: HostRuntime) -> anyhow::Result<()> {
    run(&rt)
}
