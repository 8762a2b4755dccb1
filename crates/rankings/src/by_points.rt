ghost use Rattle.std.specs.Prelude.{◌≡◌, ◌+◌, ◌≤◌, if◌then◌else◌};
ghost use Rattle.sheet.specs.Parts.{grades_of, count_of};
ghost use Rattle.states.specs.Steps.{low};
ghost use Rattle.rankings.specs.Points.{points, fewer};
ghost use Rattle.rankings.specs.Counting.{add_law, move_law};
ghost use Rattle.std.proofs.Common.{rules};

use crate::ranking::Ranking;
use sheet::Sheet;
use states::{State, Weighed};
use std::cmp::Ordering;

// The state of the smaller sum of grades over its failed parts outranks.
#[derive(Clone, Copy)]
pub struct Points;

// The sum of the grades of the sheet's parts that have failed in the state.
#[tactic(auto, using(crate::specs::Counting::counted))]
fn points_of(sheet: &Sheet, state: State) -> u32
    ensures value { result ≡ points (grades_of sheet.now) state.number }
    ensures as_read { result ≡ points (grades_of sheet.now) (low (count_of sheet.now) state.number) }
{
    let mut sum = 0;
    // No `filter`, `map` and `sum`: three closures for this `if`.
    for (place, part) in sheet.parts().iter().enumerate() {
        if (state.number() >> place) % 2 == 1 {
            sum += u32::from(part.grade.number());
        }
    }
    sum
}

impl Ranking for Points {
    type Key = u32;

    ghost outranks = { λ _ s. fewer (grades_of s) };

    ghost keyed = { λ _ s. points (grades_of s) };

    ghost one_way = { Prim.search rules };

    ghost through = { Prim.search rules };

    ghost add_follows = { λ r s x y h step. add_law s x y h step };

    ghost move_follows = { λ r s x y h step. move_law s x y h step };

    fn key(&self, weighed: Weighed<'_>) -> u32 {
        points_of(weighed.sheet(), weighed.state())
    }

    fn compare(&self, _sheet: &Sheet, first: u32, second: u32) -> Ordering {
        first.cmp(&second)
    }
}
