ghost use Rattle.std.specs.Prelude.{◌≡◌, ◌≤◌, ◌^◌, length};
ghost use Rattle.sheet.specs.Parts.{count_of, figures_of};
ghost use Rattle.summation.specs.Summed.{SumsOf, Summed};

use crate::sums::{SumError, Sums};
use sheet::Sheet;
use states::State;
use structures::Structure;

// How many states the sheet has.
#[tactic(auto, using(crate::proofs::Totals::all_numbers))]
fn state_count(sheet: &Sheet) -> u64
    requires { count_of sheet.now ≤ 20 }
    ensures { result ≡ 2 ^ length (figures_of sheet.now) }
{
    1 << sheet.count()
}

// All states of the sheet, one after the other.
#[tactic(auto, using(states::proofs::Sums::sum_none, crate::proofs::Totals::so_far, crate::proofs::Totals::working_more, crate::proofs::Totals::failing_more, crate::proofs::Totals::in_all))]
fn all_states<S: Structure>(sheet: &Sheet, pile: &S) -> Sums
    requires { count_of sheet.now ≤ 20 }
    ensures { SumsOf (S.Structure.works pile.now) sheet.now result }
{
    let mut sums = Sums {
        working: 0,
        failing: 0,
    };
    // No `fold`: tried, and its closure would owe that no sum overflows.
    for number in 0..state_count(sheet) {
        let state = State::new(number);
        sums = sums.with(state.mass(sheet), pile.works_in(state));
    }
    sums
}

// The masses of all working states of the sheet, and of all failing ones. Sheets of at most 20 parts are summed.
pub fn sum_states<S: Structure>(sheet: &Sheet, pile: &S) -> Result<Sums, SumError>
    ensures { Summed (S.Structure.works pile.now) sheet.now result }
{
    if sheet.count() > 20 {
        return Err(SumError::TooManyParts);
    }
    Ok(all_states(sheet, pile))
}
