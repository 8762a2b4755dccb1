ghost use Rattle.std.specs.Prelude.{◌≡◌, ◌^◌, ◌<◌};
ghost use Rattle.std.specs.Ordering.{nat_cmp};
ghost use Rattle.std.specs.declared.cmp.Ordering.{Ordering};
ghost use Rattle.sheet.specs.Parts.{count_of};
ghost use Rattle.sheet.specs.declared.sealed.Sheet.{Sheet};
ghost use Rattle.rankings.specs.Orders.{ahead, ahead_by_keys, ComparedAsRanked};
ghost use Rattle.std.proofs.Common.{rules};

use crate::by_points::Points;
use crate::exact::Exact;
use crate::ranking::Ranking;
use sheet::Sheet;
use states::State;
use std::cmp::Ordering;

// A ranking that says what comparing any two keys answers, also where one is no state's.
pub trait KeyRanking: Ranking {
    // What comparing two keys on a sheet answers.
    ghost compared: { Self → Sheet → Self.Key → Self.Key → Ordering };

    // Compares two keys. Those of two states of the sheet compare as the states rank, by the law `by_keys`.
    fn compare_keys(&self, sheet: &Sheet, first: Self::Key, second: Self::Key) -> Ordering
        ensures { result ≡ compared self.now sheet.now first second };

    ghost by_keys: { (r : Self) (s : Sheet) → ComparedAsRanked (count_of s) (Self.outranks r s) (Self.keyed r s) (compared r s) };
}

// Whether the first of two states is ahead of the second, by the keys that are given for them, and where these tie by their
// numbers; `ahead` where they are of the sheet and the keys their own.
pub fn is_ahead_by_keys<R: KeyRanking>(
    ranking: &R,
    sheet: &Sheet,
    first: (State, R::Key),
    second: (State, R::Key),
) -> bool
    ensures value { result ≡ ahead_by_keys (R.KeyRanking.compared ranking.now sheet.now) first.0.number first.1 second.0.number second.1 }
    ensures ahead { first.0.number < 2 ^ count_of sheet.now → second.0.number < 2 ^ count_of sheet.now → first.1 ≡ R.Ranking.keyed ranking.now sheet.now first.0.number → second.1 ≡ R.Ranking.keyed ranking.now sheet.now second.0.number → result ≡ ahead (R.Ranking.outranks ranking.now sheet.now) first.0.number second.0.number }
{
    ranking
        .compare_keys(sheet, first.1, second.1)
        .then(first.0.cmp(&second.0))
        .is_lt()
}

impl KeyRanking for Exact {
    ghost compared = { λ _ _ first second. nat_cmp second first };

    ghost by_keys = { Prim.search rules };

    fn compare_keys(&self, _sheet: &Sheet, first: u64, second: u64) -> Ordering {
        second.cmp(&first)
    }
}

impl KeyRanking for Points {
    ghost compared = { λ _ _ first second. nat_cmp first second };

    ghost by_keys = { Prim.search rules };

    fn compare_keys(&self, _sheet: &Sheet, first: u32, second: u32) -> Ordering {
        first.cmp(&second)
    }
}
