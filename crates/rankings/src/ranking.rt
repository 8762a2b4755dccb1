ghost use Rattle.std.specs.Prelude.{◌≡◌, ℕ, Bool};
ghost use Rattle.sheet.specs.Parts.{count_of};
ghost use Rattle.sheet.specs.declared.sealed.Sheet.{Sheet};
ghost use Rattle.states.specs.Steps.{low};
ghost use Rattle.rankings.specs.Orders.{OneWay, Through, AddFollows, MoveFollows, ranked, RankedByKeys};

use sheet::Sheet;
use states::{State, Weighed};
use std::cmp::Ordering;

// What says which of two states outranks the other, or that they tie. Asking changes nothing. It answers as a comparison for a
// sort does: `Less` where the first state comes first, which outranks the second, `Greater` where the second outranks the first,
// `Equal` where they tie.
pub trait Ranking {
    // What is kept of a state to compare it by.
    type Key: Copy;

    // Its meaning: on a sheet, whether the first state outranks the second. For each sheet it is a total order of the sheet's
    // states with ties, by the first two laws below.
    ghost outranks: { Self → Sheet → ℕ → ℕ → Bool };

    // The key of a state on a sheet.
    ghost keyed: { Self → Sheet → ℕ → Self.Key };

    // The key of a weighed state, as its sheet reads it.
    fn key(&self, weighed: Weighed<'_>) -> Self::Key
        ensures { result ≡ keyed self.now weighed.entry.sheet.now (low (count_of weighed.entry.sheet.now) weighed.entry.state.number) };

    // Compares two states of the sheet by their keys. Nothing is asked of it where a key is no state's.
    fn compare(&self, sheet: &Sheet, first: Self::Key, second: Self::Key) -> Ordering
        ensures { RankedByKeys (count_of sheet.now) (outranks self.now sheet.now) (keyed self.now sheet.now) first second result };

    // How the first state ranks against the second, both as the sheet reads them.
    fn rank(&self, sheet: &Sheet, first: State, second: State) -> Ordering
        ensures { result ≡ ranked (outranks self.now sheet.now) (low (count_of sheet.now) first.number) (low (count_of sheet.now) second.number) }
    {
        let one = self.key(Weighed::new(sheet, first));
        let other = self.key(Weighed::new(sheet, second));
        self.compare(sheet, one, other)
    }

    ghost one_way: { (r : Self) (s : Sheet) → OneWay (count_of s) (outranks r s) };

    ghost through: { (r : Self) (s : Sheet) → Through (count_of s) (outranks r s) };

    ghost add_follows: { (r : Self) (s : Sheet) → AddFollows (count_of s) (outranks r s) };

    ghost move_follows: { (r : Self) (s : Sheet) → MoveFollows (count_of s) (outranks r s) };
}
