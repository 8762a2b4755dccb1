use crate::by_number::ByNumber;
use crate::sheets::{part, sheet_of, standby};
use anyhow::Context;
use calls::Figures;
use listing::Listing;
use networks::{Link, Network};
use rankings::{Exact, Points, Ranking};
use sheet::Sheet;
use structures::{Bypass, Condition, Feed, Layer, PathList, Quorum, Structure};
use summation::{Sums, sum_states};

// Whether finished figures are what the sum over all states gives.
fn against(figures: Figures, sums: Sums) -> &'static str {
    if figures.lower != sums.reliability() {
        return "lower differs";
    }
    if figures.upper != sums.working.div_ceil(1_000_000_000) {
        return "upper differs";
    }
    "agrees"
}

// Calls next until it hands out no more, and prints how many states came, a number made of them in their order, and the last
// figures beside the sum over all states. The pile is handed back.
pub(crate) fn list_all<S: Structure + Drop, R: Ranking + Drop>(
    rt: &HostRuntime,
    name: &str,
    sheet: &Sheet,
    pile: S,
    ranking: R,
) -> anyhow::Result<S> {
    let sums = sum_states(sheet, &pile)?;
    let mut listing = Listing::open(rt.alloc(), sheet, pile, ranking)
        .ok()
        .context("no memory")?;
    let mut order = 0u64;
    for _ in 0..4097 {
        let Ok(Some(handed)) = listing.next() else {
            break;
        };
        order = order.wrapping_mul(31).wrapping_add(handed.state.number());
    }
    let stopped = listing.stop();
    let figures = stopped.figures;
    println!(rt;
        "{name},{},{order},{},{},{}",
        figures.handed,
        figures.lower,
        figures.upper,
        against(figures, sums)
    )?;
    Ok(stopped.pile)
}

// The same by both rankings.
fn list_by_both<S: Structure + Drop>(
    rt: &HostRuntime,
    name: &str,
    sheet: &Sheet,
    pile: S,
) -> anyhow::Result<()> {
    let pile = list_all(rt, name, sheet, pile, Exact)?;
    list_all(rt, name, sheet, pile, Points)?;
    Ok(())
}

// A feed over a path list.
fn fed(rt: &HostRuntime, name: &str, grades: &[u8], paths: &[u64], feed: u8) -> anyhow::Result<()> {
    let sheet = sheet_of(rt.alloc(), grades)?;
    let list = PathList::new(rt.alloc(), paths)
        .ok()
        .context("the paths were refused")?;
    list_by_both(rt, name, &sheet, Layer::new(part(feed)?, Feed, list))
}

pub(crate) fn path_lists(rt: &HostRuntime) -> anyhow::Result<()> {
    fed(rt, "two radios", &[7, 7, 17], &[0b001, 0b010], 3)?;
    fed(rt, "equal grades", &[3, 3, 6], &[0b011, 0b100], 1)?;
    fed(rt, "even odds", &[0, 0, 0, 0], &[0b0110, 0b1001], 4)?;
    fed(
        rt,
        "feed off the sheet",
        &[5, 9, 9, 20],
        &[0b0011, 0b1101],
        7,
    )?;
    let nine = [5, 5, 8, 8, 11, 12, 12, 16, 20];
    let paths = [0b0_1010_0101, 0b0_1011_0001, 0b0_1010_1010, 0b0_1100_1010];
    fed(rt, "nine parts", &nine, &paths, 9)
}

// A quorum with one part given, bypassed by another.
fn piled(
    rt: &HostRuntime,
    name: &str,
    grades: &[u8],
    count: u64,
    condition: Condition,
) -> anyhow::Result<()> {
    let sheet = sheet_of(rt.alloc(), grades)?;
    let given = Layer::new(part(2)?, condition, Quorum::new(count, 0b1_1111));
    list_by_both(rt, name, &sheet, Layer::new(part(6)?, Bypass, given))
}

pub(crate) fn layered(rt: &HostRuntime) -> anyhow::Result<()> {
    let grades = [1, 4, 4, 10, 15, 22, 39];
    piled(
        rt,
        "three of five given sound",
        &grades,
        3,
        Condition::Sound,
    )?;
    piled(
        rt,
        "three of five given failed",
        &grades,
        3,
        Condition::Failed,
    )?;
    piled(rt, "six of five", &grades, 6, Condition::Sound)
}

// A square of masts with one diagonal.
pub(crate) fn networked(rt: &HostRuntime) -> anyhow::Result<()> {
    let sheet = sheet_of(rt.alloc(), &[6, 6, 9, 9, 13])?;
    let links = [
        Link::new(0, 1, 1),
        Link::new(1, 2, 2),
        Link::new(2, 3, 3),
        Link::new(3, 0, 4),
        Link::new(1, 3, 5),
    ];
    let network = Network::new(rt.alloc(), 0, 2, &links)
        .ok()
        .context("the network was refused")?;
    list_all(rt, "square network", &sheet, network, Exact)?;
    let network = Network::new(rt.alloc(), 1, 1, &links)
        .ok()
        .context("the network was refused")?;
    list_all(rt, "equal terminals", &sheet, network, Points)?;
    Ok(())
}

// This program's own structure and ranking, also under a layer of the library's.
pub(crate) fn foreign(rt: &HostRuntime) -> anyhow::Result<()> {
    let sheet = sheet_of(rt.alloc(), &[2, 8, 8, 30])?;
    let standby = list_all(rt, "standby", &sheet, standby()?, ByNumber)?;
    let standby = list_all(rt, "standby by mass", &sheet, standby, Exact)?;
    let fed = Layer::new(part(4)?, Feed, standby);
    list_all(rt, "standby behind a feed", &sheet, fed, ByNumber)?;
    Ok(())
}
