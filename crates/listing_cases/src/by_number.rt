ghost use Rattle.std.specs.Prelude.{nat_lt};
ghost use Rattle.std.proofs.Common.{inl, inr, arith, le-ltb, rules};
ghost use Rattle.states.proofs.Trees.{steps_grow};

use rankings::Ranking;
use sheet::Sheet;
use states::Weighed;
use std::cmp::Ordering;

// The state of the smaller number outranks.
#[derive(Clone, Copy)]
pub struct ByNumber;

impl Ranking for ByNumber {
    type Key = u64;

    ghost outranks = { λ _ _ x y. nat_lt x y };

    ghost keyed = { λ _ _ x. x };

    ghost one_way = { Prim.search rules };

    ghost through = { Prim.search rules };

    ghost add_follows = { λ r s x y h step. le-ltb y x (omega (arith, steps_grow _ x h y (inl step))) };

    ghost move_follows = { λ r s x y h step. le-ltb y x (omega (arith, steps_grow _ x h y (inr step))) };

    fn key(&self, weighed: Weighed<'_>) -> u64 {
        weighed.state().on_sheet(weighed.sheet()).number()
    }

    fn compare(&self, _sheet: &Sheet, first: u64, second: u64) -> Ordering {
        first.cmp(&second)
    }
}
