ghost use Rattle.std.specs.Prelude.{◌≡◌, ◌+◌, ◌^◌, ◌≤◌};
ghost use Rattle.sheet.specs.Parts.{figures_of, count_of};
ghost use Rattle.states.specs.Masses.{total, mass as mass_of};
ghost use Rattle.states.specs.Sums.{sum_of};
ghost use Rattle.states.specs.Trees.{tree_sum};
ghost use Rattle.listing.specs.Queues.{waiting_in};

use crate::queue::Queue;
use rankings::Ranking;
use structures::Structure;

mod ending;
mod handing;
mod opening;
mod running;

// A listing under way. It is moved, never copied.
#[derive(Drop)]
pub struct Listing<'a, S: Structure, R: Ranking> {
    pile: S,
    queue: Queue<'a, R>,
    up: u64,
    down: u64,
    handed: u64,
    ghost sums: { up + down + sum_of (tree_sum (count_of queue.sheet.now) (mass_of (figures_of queue.sheet.now))) (waiting_in queue) ≡ total },
    ghost count: { handed + sum_of (tree_sum (count_of queue.sheet.now) (λ x. 1)) (waiting_in queue) ≤ 2 ^ count_of queue.sheet.now },
}
