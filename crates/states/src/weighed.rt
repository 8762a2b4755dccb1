ghost use Rattle.std.specs.Prelude.{◌≡◌};
ghost use Rattle.sheet.specs.Parts.{figures_of, count_of};
ghost use Rattle.states.specs.Masses.{mass as mass_of};
ghost use Rattle.states.specs.Steps.{low};

use crate::state::State;
use sheet::Sheet;

// A state weighed on a sheet: its mass is worked out once and kept.
#[derive(Clone, Copy)]
pub struct Weighed<'a> {
    sheet: &'a Sheet,
    state: State,
    mass: u64,
    ghost exact: { mass ≡ mass_of (figures_of sheet.now) state.number },
    ghost as_read: { mass ≡ mass_of (figures_of sheet.now) (low (count_of sheet.now) state.number) },
}

impl<'a> Weighed<'a> {
    // The state, weighed on the sheet.
    pub fn new(sheet: &'a Sheet, state: State) -> Weighed<'a>
        ensures sheet { result.sheet.now ≡ sheet.now }
        ensures state { result.state ≡ state }
    {
        Weighed {
            sheet,
            state,
            mass: state.mass(sheet),
        }
    }

    pub fn sheet(self) -> &'a Sheet
        ensures { result.now ≡ self.entry.sheet.now }
    {
        self.sheet
    }

    pub fn state(self) -> State
        ensures { result ≡ self.entry.state }
    {
        self.state
    }

    // The state's mass on the sheet.
    pub fn mass(self) -> u64
        ensures value { result ≡ mass_of (figures_of self.entry.sheet.now) self.entry.state.number }
        ensures as_read { result ≡ mass_of (figures_of self.entry.sheet.now) (low (count_of self.entry.sheet.now) self.entry.state.number) }
    {
        self.mass
    }
}
