// Listings of many small stations, which a rule of this program's own makes, compared with the sum over all states.
#![tactic(auto)]

mod compare;
mod draws;
mod plans;
mod tally;

use compare::compare;
use draws::Draws;
use plans::{Networks, Over, PathLists, Plan, Quorums};
use rankings::{Exact, Points, Ranking};
use structures::{Bypass, Condition, Feed};
use tally::Tally;

// Compares the stations of one kind of pile: of 0 to 12 parts, more of the smaller ones, and of steep and flat grades. Where
// `steps` is 1 all grades are 0, so all states tie.
fn tallied<P: Plan, R: Ranking + Copy + Drop>(
    rt: &HostRuntime,
    plan: &P,
    ranking: R,
) -> anyhow::Result<Tally> {
    let mut tally = Tally::new();
    for count in 0..13 {
        for steps in 1..14 - count {
            let mut draws = Draws::new(count, steps);
            let sheet = draws.sheet(rt.alloc(), count, steps)?;
            let pile = plan.pile(rt.alloc(), &sheet, &mut draws)?;
            compare(rt.alloc(), &sheet, pile, ranking, &mut tally)?;
        }
    }
    Ok(tally)
}

// A line for a kind of pile, named by its structure and its layer, and a ranking.
fn show(
    rt: &HostRuntime,
    structure: &str,
    layer: &str,
    ranking: &str,
    tally: Tally,
) -> anyhow::Result<()> {
    let Tally {
        stations,
        full,
        handed,
        working,
        cuts,
        order,
        comparisons,
        differences: _,
    } = tally;
    print!(rt; "{structure},{layer},{ranking},{stations},{full},{handed},{working},{cuts},")?;
    println!(rt; "{order},{comparisons},{}", tally.outcome())?;
    Ok(())
}

// The same stations by both rankings.
fn by_both<P: Plan>(
    rt: &HostRuntime,
    structure: &str,
    layer: &str,
    plan: &P,
) -> anyhow::Result<()> {
    show(rt, structure, layer, "exact", tallied(rt, plan, Exact)?)?;
    show(rt, structure, layer, "points", tallied(rt, plan, Points)?)
}

// Piles of a structure alone, and under each layer.
fn layered<P: Plan + Copy>(rt: &HostRuntime, structure: &str, plan: P) -> anyhow::Result<()> {
    let sound = Condition::Sound;
    let failed = Condition::Failed;
    by_both(rt, structure, "none", &plan)?;
    by_both(rt, structure, "feed", &Over(Feed, plan))?;
    by_both(rt, structure, "bypass", &Over(Bypass, plan))?;
    by_both(rt, structure, "given sound", &Over(sound, plan))?;
    by_both(rt, structure, "given failed", &Over(failed, plan))
}

fn run(rt: &HostRuntime) -> anyhow::Result<()> {
    print!(rt; "structure,layer,ranking,stations,full,handed,working,cuts,")?;
    println!(rt; "order,comparisons,result")?;
    layered(rt, "path list", PathLists)?;
    layered(rt, "quorum", Quorums)?;
    layered(rt, "network", Networks)
}

fn main(rt: HostRuntime) -> anyhow::Result<()> {
    run(&rt)
}
