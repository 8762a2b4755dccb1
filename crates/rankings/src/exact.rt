ghost use Rattle.sheet.specs.Parts.{figures_of};
ghost use Rattle.states.specs.Masses.{mass};
ghost use Rattle.rankings.specs.Exact.{heavier};
ghost use Rattle.rankings.specs.Exactly.{add_law, move_law};
ghost use Rattle.std.proofs.Common.{rules};

use crate::ranking::Ranking;
use sheet::Sheet;
use states::Weighed;
use std::cmp::Ordering;

// The state of the greater mass outranks.
#[derive(Clone, Copy)]
pub struct Exact;

impl Ranking for Exact {
    type Key = u64;

    ghost outranks = { λ _ s. heavier (figures_of s) };

    ghost keyed = { λ _ s. mass (figures_of s) };

    ghost one_way = { Prim.search rules };

    ghost through = { Prim.search rules };

    ghost add_follows = { λ r s x y h step. add_law s x y h step };

    ghost move_follows = { λ r s x y h step. move_law s x y h step };

    fn key(&self, weighed: Weighed<'_>) -> u64 {
        weighed.mass()
    }

    fn compare(&self, _sheet: &Sheet, first: u64, second: u64) -> Ordering {
        second.cmp(&first)
    }
}
