use crate::outcome::show;
use anyhow::Context;
use networks::{Link, Network};
use sheet::{Draft, PartNumber};
use structures::{Feed, Layer, PathList};
use summation::sum_states;

pub(crate) fn part_number_limits(rt: &HostRuntime) -> anyhow::Result<()> {
    show(rt, "part number 0", PartNumber::try_from(0))?;
    show(rt, "part number 1", PartNumber::try_from(1))?;
    show(rt, "part number 40", PartNumber::try_from(40))?;
    show(rt, "part number 41", PartNumber::try_from(41))
}

pub(crate) fn part_limits(rt: &HostRuntime) -> anyhow::Result<()> {
    let mut draft = Draft::new(rt.alloc());
    show(rt, "grade 40", draft.add(40, 0))?;
    show(
        rt,
        "grade 40 at 100000000 cents",
        draft.add(40, 100_000_000),
    )?;
    show(
        rt,
        "grade 38 at 100000000 cents",
        draft.add(38, 100_000_000),
    )?;
    show(rt, "grade 38 at 99999999 cents", draft.add(38, 99_999_999))?;
    show(rt, "grade 37 after 38", draft.add(37, 0))?;
    show(
        rt,
        "grade 37 after 38 at 100000000 cents",
        draft.add(37, 100_000_000),
    )?;
    show(rt, "grade 39 after 38", draft.add(39, 0))?;
    for _ in 0..37 {
        // No `?`: where memory is wanting, the cases below are tried all the same.
        let _ = draft.add(39, 1);
    }
    show(rt, "part 40", draft.add(39, 1))?;
    show(rt, "part 41", draft.add(39, 1))?;
    show(rt, "part 41 of grade 40", draft.add(40, 1))
}

pub(crate) fn path_limits(rt: &HostRuntime) -> anyhow::Result<()> {
    let heap = rt.alloc();
    let mut paths = [1u64; 257];
    show(rt, "0 paths", PathList::new(heap, &paths[0..0]))?;
    show(rt, "256 paths", PathList::new(heap, &paths[0..256]))?;
    show(rt, "257 paths", PathList::new(heap, &paths))?;
    paths[3] = (1 << 40) - 1;
    show(
        rt,
        "path of parts 1 to 40",
        PathList::new(heap, &paths[0..4]),
    )?;
    paths[3] = 1 << 40;
    show(rt, "path of part 41", PathList::new(heap, &paths[0..4]))?;
    show(rt, "257 paths, one of part 41", PathList::new(heap, &paths))
}

pub(crate) fn link_limits(rt: &HostRuntime) -> anyhow::Result<()> {
    let heap = rt.alloc();
    let good = Link::new(0, 15, 40);
    let links = [good; 65];
    let far = [Link::new(0, 1, 0), Link::new(16, 1, 1)];
    let zero = [good, Link::new(0, 1, 0)];
    let high = [good, Link::new(0, 1, 41)];
    show(rt, "64 links", Network::new(heap, 0, 15, &links[0..64]))?;
    show(rt, "65 links", Network::new(heap, 0, 15, &links))?;
    show(
        rt,
        "65 links, terminal 16",
        Network::new(heap, 16, 0, &links),
    )?;
    show(rt, "terminal 16", Network::new(heap, 0, 16, &links[0..1]))?;
    show(
        rt,
        "link part 0, later link end 16",
        Network::new(heap, 0, 1, &far),
    )?;
    show(rt, "link part 0", Network::new(heap, 0, 1, &zero))?;
    show(rt, "link part 41", Network::new(heap, 0, 1, &high))
}

// Two radios, either of which serves, with a feed that is not on the sheet, and so counts as sound.
pub(crate) fn feed_off_the_sheet(rt: &HostRuntime) -> anyhow::Result<()> {
    let heap = rt.alloc();
    let mut draft = Draft::new(heap);
    show(rt, "first radio", draft.add(7, 64_000))?;
    show(rt, "second radio", draft.add(7, 64_000))?;
    let sheet = draft.seal();
    let feed = PartNumber::try_from(3)?;
    let paths = PathList::new(heap, &[1, 2]).ok().context("no memory")?;
    let sums = sum_states(&sheet, &Layer::new(feed, Feed, paths))?;
    println!(rt; "feed off the sheet,reliability,{}", sums.reliability())?;
    Ok(())
}
