ghost use Rattle.std.specs.Prelude.{◌≤◌, length};
ghost use Rattle.sheet_reading.specs.Paths.{PathMade};

use sheet_lines::{Fault, Refusal};

// The set of parts with these numbers, which must rise and be on a sheet of so many parts; else the fault of the first that is
// wrong, where the first number is field 2.
#[tactic(auto, using(crate::proofs::PathSteps::not_rising, crate::proofs::PathSteps::not_on_sheet, crate::proofs::PathSteps::on_sheet, crate::proofs::PathSteps::place_is, crate::proofs::PathSteps::set_grows))]
pub(crate) fn path_of(numbers: &[u32], parts: usize, line: usize) -> Result<u64, Fault>
    requires parts { parts ≤ 40 }
    requires few { length numbers.now ≤ 40 }
    ensures { PathMade parts numbers.now line result }
{
    // A sum and no `State::with`: that is what the number of a set is.
    let mut set = 0;
    let mut last = 0;
    for (place, number) in numbers.iter().enumerate() {
        if *number <= last || *number as usize > parts {
            return Err(Refusal::BadPart.at(line, place + 2));
        }
        set += 1 << (*number - 1);
        last = *number;
    }
    Ok(set)
}
