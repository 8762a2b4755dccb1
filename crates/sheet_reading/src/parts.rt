ghost use Rattle.std.specs.Prelude.{◌≡◌, ◌≤◌, true, false, ◌&&◌, leb, if◌then◌else◌, MatchOption, nat_le};
ghost use Rattle.sheet_reading.specs.Books.{add_field};

use sheet::{AddError, PartNumber};
use sheet_lines::{Fault, Refusal};

// The part of this number on a sheet of so many parts.
pub(crate) fn part_on_sheet(number: u32, parts: usize) -> Option<PartNumber>
    requires { parts ≤ 40 }
    ensures { MatchOption result ((nat_le 1 number && nat_le number parts) ≡ false) (λ p. ((nat_le 1 number && nat_le number parts) ≡ true) × (p.number ≡ number)) }
{
    let part = PartNumber::try_from(u8::try_from(number).ok()?).ok()?;
    (usize::from(part.number()) <= parts).then_some(part)
}

// A grade as a draft takes it: what is above 255 is refused as 255 is.
pub(crate) fn grade_of(number: u32) -> u8
    ensures { result ≡ (if leb number 255 then number else 255) }
{
    u8::try_from(number).unwrap_or(u8::MAX)
}

// The fault of a part that a draft refused.
pub(crate) fn fault_of_part(error: AddError, line: usize) -> Fault
    ensures { result ≡ record { refusal = Refusal.Draft error; line = line; field = add_field error } }
{
    let field = match error {
        AddError::SheetFull => 2,
        AddError::GradeTooHigh | AddError::GradeFalls => 3,
        AddError::PriceTooHigh => 4,
        AddError::OutOfMemory => 0,
    };
    Refusal::Draft(error).at(line, field)
}
