ghost use Rattle.std.specs.Prelude.{◌≡◌, ◌+◌, ◌^◌, ◌<◌, ◌≤◌, if◌then◌else◌, MatchOption, nat_lt};
ghost use Rattle.states.specs.Steps.{top, add_step, move_step, Parent};

use super::{State, power};

// A state as a sheet of so many parts reads it: its number, and the greatest of these parts that is in it. That is 0 where none
// is, and no `Option`, since a share counts the parts up to it.
#[derive(Clone, Copy)]
pub(super) struct Reading {
    pub(super) number: u64,
    pub(super) count: usize,
    pub(super) greatest: usize,
    ghost few: { count ≤ 40 },
    ghost on_sheet: { number < 2 ^ count },
    ghost is_greatest: { greatest ≡ top count number },
}

impl Reading {
    ghost use Rattle.states.specs.Answers.{numbers};

    // The state with the part after its greatest as well; none where the sheet has no such part.
    #[tactic(auto, using(crate::proofs::Steps::add_gives, crate::proofs::Steps::add_fits))]
    pub(super) fn add_step(self) -> Option<State>
        ensures { numbers result ≡ add_step self.count self.number }
    {
        if self.greatest >= self.count {
            return None;
        }
        Some(State {
            number: self.number + power(self.greatest),
        })
    }

    // The state with its greatest part replaced by the one after it; none where there are no such parts.
    #[tactic(auto, using(crate::proofs::Steps::move_gives, crate::proofs::Steps::move_fits))]
    pub(super) fn move_step(self) -> Option<State>
        ensures { numbers result ≡ move_step self.count self.number }
    {
        if self.greatest == 0 || self.greatest >= self.count {
            return None;
        }
        Some(State {
            number: self.number + power(self.greatest - 1),
        })
    }

    // The one state of the sheet from which this one comes by a step; none for the empty state.
    #[tactic(auto, using(crate::proofs::Steps::top_le, crate::proofs::Steps::holds_greatest, crate::proofs::Steps::no_part, crate::proofs::Steps::parent_is, crate::proofs::Steps::parent_fits))]
    pub(super) fn parent(self) -> Option<State>
        ensures { MatchOption result (self.number ≡ 0) (λ p. Parent self.count self.number p.number) }
    {
        if self.greatest == 0 {
            return None;
        }
        let place = power(self.greatest - 1);
        Some(State {
            number: lower(self.number - place, place / 2),
        })
    }
}

// `rest`, with `half` as well where it does not reach that.
fn lower(rest: u64, half: u64) -> u64
    requires { rest + half < 2 ^ 64 }
    ensures { result ≡ (if nat_lt rest half then rest + half else rest) }
{
    if rest < half { rest + half } else { rest }
}
