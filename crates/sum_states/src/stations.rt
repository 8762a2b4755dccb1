use anyhow::Context;
use sheet::{Draft, PartNumber, Sheet};
use std::alloc::Global;
use structures::{Feed, Layer, PathList};

// A sheet of parts, and paths behind a power feed over them.
type Station = (Sheet, Layer<Feed, PathList>);

// A station of this feed over these paths, on a sheet of parts with these grades and prices.
fn station(heap: Global, parts: &[(u8, u32)], paths: &[u64], feed: u8) -> anyhow::Result<Station> {
    let mut draft = Draft::new(heap);
    for &(grade, cents) in parts {
        draft.add(grade, cents).ok().context("a part was refused")?;
    }
    let feed = PartNumber::try_from(feed)?;
    let list = PathList::new(heap, paths)
        .ok()
        .context("the paths were refused")?;
    Ok((draft.seal(), Layer::new(feed, Feed, list)))
}

// Two radios, either of which serves, behind one power feed.
pub(crate) fn small_station(heap: Global) -> anyhow::Result<Station> {
    let parts = [(7, 64_000), (7, 64_000), (17, 9_500)];
    station(heap, &parts, &[0b001, 0b010], 3)
}

// Two radios (parts 1 and 2), each with an amplifier of its own (3 and 4) and the spare amplifier (5) for either, two fans
// (6 and 7) of which one must run, a controller (8) that every path needs, and the power feed (9).
pub(crate) fn cabinet(heap: Global) -> anyhow::Result<Station> {
    let parts = [
        (5, 182_000),
        (5, 182_000),
        (8, 74_000),
        (8, 74_000),
        (11, 74_000),
        (12, 3_900),
        (12, 3_900),
        (16, 41_500),
        (20, 26_000),
    ];
    let paths = [
        0b0_1010_0101,
        0b0_1011_0001,
        0b0_1010_1010,
        0b0_1011_0010,
        0b0_1100_0101,
        0b0_1101_0001,
        0b0_1100_1010,
        0b0_1101_0010,
    ];
    station(heap, &parts, &paths, 9)
}
