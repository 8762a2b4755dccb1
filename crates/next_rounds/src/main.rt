// Reads a sheet's text on standard input, lists its station as often as its argument says, and prints how many states next handed
// out in all, and the figures of the last listing. It writes nothing else, so that the time of next alone can be measured.
#![tactic(auto)]

use anyhow::Context;
use calls::Figures;
use listing::Listing;
use rankings::Exact;
use sheet::{Draft, Sheet};
use sheet_reading::read;
use std::alloc::Global;
use std::env;
use std::io::Read;
use structures::{Feed, Layer, PathList};

type Pile = Layer<Feed, PathList>;

// How many states a listing hands out at most.
const MOST_STATES: u64 = 16_384;

fn station(heap: Global, text: &[u8]) -> anyhow::Result<(Sheet, Pile)> {
    let mut draft = Draft::new(heap);
    let mut paths = [0; PathList::MOST];
    let found = read(heap, text, &mut draft, &mut paths)?;
    let list = PathList::new(heap, &paths[..found.path_count])?;
    Ok((draft.seal(), Layer::new(found.feed, Feed, list)))
}

// Calls next until it hands out no state, or has handed out as many as it may.
fn hand_out(listing: &mut Listing<'_, Pile, Exact>) -> Figures {
    for _ in 0..MOST_STATES {
        if !matches!(listing.next(), Ok(Some(_))) {
            break;
        }
    }
    listing.figures()
}

fn run(rt: &HostRuntime) -> anyhow::Result<()> {
    let heap = rt.alloc();
    let rounds = env::args(rt)?.nth(1).context("how many rounds")?;
    let rounds = rounds.parse::<u32>()?;
    let mut text = Vec::new(heap);
    rt.reader().read_to_end(&mut text)?;
    let (sheet, mut pile) = station(heap, &text)?;
    let (mut handed, mut lower, mut upper) = (0_u64, 0, 1_000_000_000);
    for _ in 0..rounds {
        let mut listing = Listing::open(heap, &sheet, pile, Exact)?;
        let figures = hand_out(&mut listing);
        handed = handed.saturating_add(figures.handed);
        (lower, upper) = (figures.lower, figures.upper);
        pile = listing.stop().pile;
    }
    println!(rt; "handed,{handed},{lower},{upper}")?;
    Ok(())
}

fn main(rt: HostRuntime) -> anyhow::Result<()> {
    run(&rt)
}
