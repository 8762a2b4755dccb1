ghost use Rattle.std.specs.Prelude.{◌≡◌, ◌^◌, ◌<◌, ◌≤◌, MatchOption};
ghost use Rattle.sheet.specs.Parts.{figures_of, count_of};
ghost use Rattle.states.specs.Answers.{numbers};
ghost use Rattle.states.specs.Masses.{total, mass};
ghost use Rattle.states.specs.Steps.{low, top, add_step, move_step, share, agreeing_masses, Parent};

use super::reading::Reading;
use super::{State, power};
use sheet::Sheet;

impl State {
    // The state as the sheet reads it: its parts that are on the sheet.
    pub fn on_sheet(self, sheet: &Sheet) -> State
        ensures value { result.number ≡ low (count_of sheet.now) self.number }
        ensures within { result.number < 2 ^ count_of sheet.now }
    {
        State {
            number: self.number % power(sheet.count()),
        }
    }

    // The same, with the greatest part of the sheet that is in it.
    #[tactic(auto, using(crate::proofs::Steps::top_leading, crate::proofs::Steps::top_low))]
    fn read_by(self, sheet: &Sheet) -> Reading
        ensures number { result.number ≡ low (count_of sheet.now) self.number }
        ensures count { result.count ≡ count_of sheet.now }
        ensures greatest { result.greatest ≡ top (count_of sheet.now) self.number }
    {
        let number = self.on_sheet(sheet).number;
        Reading {
            number,
            count: sheet.count(),
            greatest: 64 - number.leading_zeros() as usize,
        }
    }

    // The state's mass on the sheet: its probability, out of the total of 10^18, rounded part by part.
    #[tactic(auto, using(crate::proofs::Sheets::count_is, crate::proofs::Masses::mass_read))]
    pub fn mass(self, sheet: &Sheet) -> u64
        ensures value { result ≡ mass (figures_of sheet.now) self.number }
        ensures as_read { result ≡ mass (figures_of sheet.now) (low (count_of sheet.now) self.number) }
        ensures bound { result ≤ total }
    {
        self.left_after(sheet, sheet.count())
    }

    // The state's share: the masses of it and of all states of the sheet that agree with it up to its greatest part.
    #[tactic(auto, using(crate::proofs::Sheets::count_is, crate::proofs::Steps::top_le, crate::proofs::Steps::left_on_sheet))]
    pub fn share(self, sheet: &Sheet) -> u64
        ensures value { result ≡ share (figures_of sheet.now) self.number }
        ensures masses { result ≡ agreeing_masses (figures_of sheet.now) (top (count_of sheet.now) self.number) self.number }
        ensures bound { result ≤ total }
    {
        self.left_after(sheet, self.read_by(sheet).greatest)
    }

    // The state with the part after its greatest as well; none where the sheet has no such part.
    #[tactic(auto, using(crate::proofs::Steps::top_low, crate::proofs::Steps::low_low))]
    pub fn add_step(self, sheet: &Sheet) -> Option<State>
        ensures { numbers result ≡ add_step (count_of sheet.now) self.number }
    {
        self.read_by(sheet).add_step()
    }

    // The state with its greatest part replaced by the one after it; none where there are no such parts.
    #[tactic(auto, using(crate::proofs::Steps::top_low, crate::proofs::Steps::low_low))]
    pub fn move_step(self, sheet: &Sheet) -> Option<State>
        ensures { numbers result ≡ move_step (count_of sheet.now) self.number }
    {
        self.read_by(sheet).move_step()
    }

    // The one state of the sheet from which this one comes by a step; none for the empty state.
    pub fn parent(self, sheet: &Sheet) -> Option<State>
        ensures { MatchOption result (low (count_of sheet.now) self.number ≡ 0) (λ p. Parent (count_of sheet.now) (low (count_of sheet.now) self.number) p.number) }
    {
        self.read_by(sheet).parent()
    }
}
