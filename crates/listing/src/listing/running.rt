ghost use Rattle.std.specs.Prelude.{◌≡◌, ◌*◌, ◌+◌, ◌^◌, ◌≤◌, if◌then◌else◌, Some, None, MatchOption, OnErr, nat_le};
ghost use Rattle.calls.specs.Calls.{GoesOn, Ends};
ghost use Rattle.calls.specs.Replies.{run_answer};
ghost use Rattle.listing.specs.Listings.{memory_of, station_of, SameStation, RanOn, Called};

use super::Listing;
use crate::aim::Aim;
use calls::{Call, Ending, Ran, RunError};
use rankings::Ranking;
use structures::Structure;

// How a run ends before its next state, by what was tested, in this order; none where it goes on. It stands apart so that the
// order is promised: of a listing's own sums and a target of at most the whole, nothing waits only where the target is reached.
fn first_ending(reached: bool, finished: bool, spent: bool) -> Option<Ending>
    ensures { result ≡ (if reached then Some Ending.Reached else (if finished then Some Ending.Finished else (if spent then Some Ending.Spent else None))) }
{
    if reached {
        return Some(Ending::Reached);
    }
    if finished {
        return Some(Ending::Finished);
    }
    if spent {
        return Some(Ending::Spent);
    }
    None
}

// What a run answers that ends so after so many states.
fn ran(ending: Ending, count: u64) -> Ran
    ensures { result ≡ record { ending = ending; count = count } }
{
    Ran { ending, count }
}

impl<'a, S: Structure, R: Ranking> Listing<'a, S, R> {
    // Whether the sums reach the target.
    fn has_reached(&self, aim: Aim) -> bool
        ensures { result ≡ nat_le (aim.target * 10 ^ 12) (self.now.up + self.now.down) }
    {
        u64::from(aim.target) * 1_000_000_000_000 <= self.up + self.down
    }

    // How a run that has handed out so many states ends here; none where it goes on.
    fn ended(&self, aim: Aim, count: u64) -> Option<Ending>
        requires { count ≤ aim.budget }
        ensures { MatchOption result (GoesOn aim.target aim.budget count (memory_of self.now)) (Ends (station_of self.now) aim.target aim.budget count (memory_of self.now)) }
    {
        first_ending(
            self.has_reached(aim),
            self.queue.is_empty(),
            count == aim.budget,
        )
    }

    // Hands out states until the run ends.
    fn go_on(&mut self, aim: Aim) -> Ran
        ensures station { SameStation self.old self.new }
        ensures ran { RanOn aim.target aim.budget result self.old self.new }
    {
        // No `for` over the budget: what ends a run is tested first, and after the last state again.
        let mut count = 0;
        loop {
            if let Some(ending) = self.ended(aim, count) {
                return ran(ending, count);
            }
            if self.advance().is_err() {
                return ran(Ending::Full, count);
            }
            count += 1;
        }
    }

    // Hands out states until the sums reach the target, in parts per million, or nothing waits, or this call has handed out its
    // budget, or next refuses. A target above 1,000,000 is refused, and nothing is changed.
    pub fn run(&mut self, target: u32, budget: u64) -> Result<Ran, RunError>
        ensures station { SameStation self.old self.new }
        ensures unchanged { OnErr result (self.new ≡ self.old) }
        ensures called { Called (Call.Run target budget) (run_answer result) self.old self.new }
    {
        Ok(self.go_on(Aim::new(target, budget)?))
    }
}
