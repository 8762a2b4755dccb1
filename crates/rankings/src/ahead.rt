ghost use Rattle.std.specs.Prelude.{◌≡◌, ◌^◌, ◌<◌};
ghost use Rattle.sheet.specs.Parts.{count_of};
ghost use Rattle.states.specs.Steps.{low};
ghost use Rattle.rankings.specs.Orders.{ahead, StrictOrder};

use crate::ranking::Ranking;
use sheet::Sheet;
use states::{State, Weighed};

// Whether the first of two states of the sheet is ahead of the second, by their own keys: it outranks it, or they tie and it has
// the smaller number.
pub fn is_ahead_by_own_keys<R: Ranking>(
    ranking: &R,
    sheet: &Sheet,
    first: (State, R::Key),
    second: (State, R::Key),
) -> bool
    ensures { first.0.number < 2 ^ count_of sheet.now → second.0.number < 2 ^ count_of sheet.now → first.1 ≡ R.Ranking.keyed ranking.now sheet.now first.0.number → second.1 ≡ R.Ranking.keyed ranking.now sheet.now second.0.number → result ≡ ahead (R.Ranking.outranks ranking.now sheet.now) first.0.number second.0.number }
{
    ranking
        .compare(sheet, first.1, second.1)
        .then(first.0.cmp(&second.0))
        .is_lt()
}

// Whether the first state is ahead of the second, both as the sheet reads them. This is a strict total order on the states of
// the sheet.
pub fn is_ahead<R: Ranking>(ranking: &R, sheet: &Sheet, first: State, second: State) -> bool
    ensures value { result ≡ ahead (R.Ranking.outranks ranking.now sheet.now) (low (count_of sheet.now) first.number) (low (count_of sheet.now) second.number) }
    ensures order { StrictOrder (count_of sheet.now) (ahead (R.Ranking.outranks ranking.now sheet.now)) }
{
    let one = (
        first.on_sheet(sheet),
        ranking.key(Weighed::new(sheet, first)),
    );
    let other = (
        second.on_sheet(sheet),
        ranking.key(Weighed::new(sheet, second)),
    );
    is_ahead_by_own_keys(ranking, sheet, one, other)
}
