ghost use Rattle.std.specs.Prelude.{◌≡◌, ◌^◌, ◌≤◌, true, map, vec_len, vec_capacity};
ghost use Rattle.sheet.specs.Parts.{figures_of, count_of};
ghost use Rattle.states.specs.Masses.{mass as mass_of};
ghost use Rattle.rankings.specs.Orders.{ahead};
ghost use Rattle.listing.specs.Waiters.{states_of, masses_of, all_below, Keyed, InOrder, InOrder-prop};

use crate::waiting::Waiting;
use rankings::Ranking;
use sheet::Sheet;

mod methods;

// The states of a sheet that wait, at most 1,024, each with its mass and its key. None is ahead of a later one, so the last is
// the foremost. Room for all is taken at first.
#[derive(Drop)]
pub(crate) struct Queue<'a, R: Ranking> {
    pub(crate) sheet: &'a Sheet,
    ranking: R,
    entries: Vec<Waiting<R::Key>>,
    ghost room: { 1024 ≤ vec_capacity entries },
    ghost few: { vec_len entries ≤ 1024 },
    ghost on_sheet: { all_below (2 ^ count_of sheet.now) (states_of entries.items) ≡ true },
    ghost weighed: { masses_of entries.items ≡ map (mass_of (figures_of sheet.now)) (states_of entries.items) },
    ghost keyed: { ∥ Keyed (R.Ranking.keyed ranking sheet.now) entries.items ∥₁ },
    ghost in_order: { InOrder (ahead (R.Ranking.outranks ranking sheet.now)) (states_of entries.items) } by { InOrder-prop _ _ },
}
