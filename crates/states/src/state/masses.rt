ghost use Rattle.std.specs.Prelude.{◌≡◌, ◌^◌, ◌≤◌};
ghost use Rattle.sheet.specs.Parts.{figures_of, count_of};
ghost use Rattle.states.specs.Masses.{total, fall, goes_on, after, mass};
ghost use Rattle.states.specs.Sums.{sum_below};

use super::State;
use sheet::Sheet;

// Masses are plain numbers and no type of their own with this bound: they are summed, compared as keys, and printed.
const TOTAL: u64 = 1_000_000_000_000_000_000;

// Of what is left, what falls to the failure of a part with this figure. The quotient and the remainder by a million are
// multiplied apart, so that 64 bits hold everything.
#[tactic(auto, using(crate::proofs::Masses::fall_apart, crate::proofs::Masses::fall_le, crate::proofs::Masses::part_le))]
fn falling(ppm: u32, left: u64) -> u64
    requires ppm { ppm ≤ 1_000_000 }
    requires left { left ≤ total }
    ensures value { result ≡ fall ppm left }
    ensures bound { result ≤ left }
{
    let figure = u64::from(ppm);
    left / 1_000_000 * figure + left % 1_000_000 * figure / 1_000_000
}

// What is left after a part with this figure, which has failed or is sound.
fn remaining(ppm: u32, left: u64, failed: bool) -> u64
    requires ppm { ppm ≤ 1_000_000 }
    requires left { left ≤ total }
    ensures value { result ≡ goes_on ppm left failed }
    ensures bound { result ≤ left }
{
    let fallen = falling(ppm, left);
    if failed { fallen } else { left - fallen }
}

// The masses of all states of the sheet together, which is what there is before any part: the same total on every sheet.
#[tactic(auto, using(crate::proofs::Masses::after_none, crate::proofs::Masses::all_masses))]
pub fn total_mass(sheet: &Sheet) -> u64
    ensures value { result ≡ total }
    ensures all_states { result ≡ sum_below (2 ^ count_of sheet.now) (mass (figures_of sheet.now)) }
{
    State::new(0).left_after(sheet, 0)
}

impl State {
    // What is left of the total after the first parts, as many as `count`.
    #[tactic(auto, using(crate::proofs::Masses::after_none))]
    pub(super) fn left_after(self, sheet: &Sheet, count: usize) -> u64
        requires { count ≤ count_of sheet.now }
        ensures value { result ≡ after (figures_of sheet.now) count self.number }
        ensures bound { result ≤ total }
    {
        let mut left = TOTAL;
        // No `fold`: its closure would owe at each part what this loop keeps once.
        for (place, part) in sheet.parts()[..count].iter().enumerate() {
            let failed = (self.number >> place) % 2 == 1;
            left = remaining(part.failure_ppm(), left, failed);
        }
        left
    }
}
