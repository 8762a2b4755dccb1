ghost use Rattle.std.specs.Prelude.{◌≡◌, ℕ, ◌∷◌, MatchResult};
ghost use Rattle.sheet_lines.specs.Numbers.{Writes};
ghost use Rattle.sheet_reading.specs.Numbers.{Written, NumberFault};

use sheet_lines::{Fault, FieldReader, Refusal, number_in};
use std::alloc::Global;

// The number in a field, of which the fault says its line and its place.
pub(crate) fn number_at(bytes: &[u8], line: usize, field: usize) -> Result<u32, Fault>
    ensures { MatchResult result (Writes bytes.now) (λ f. ((n : ℕ) → Writes bytes.now n → ⊥) × (f ≡ record { refusal = Refusal.BadNumber; line = line; field = field })) }
{
    number_in(bytes).ok_or(Refusal::BadNumber.at(line, field))
}

// The numbers of a path's fields.
#[tactic(auto, using(crate::proofs::NumberSteps::one_number, crate::proofs::NumberSteps::bad_number, crate::proofs::NumberSteps::all_read))]
pub(crate) fn path_numbers(heap: Global, fields: &[u8], line: usize) -> Result<Vec<u32>, Fault>
    ensures { MatchResult result (λ v. Written (44 ∷ fields.now) v.items) (NumberFault (44 ∷ fields.now) line) }
{
    let mut numbers = Vec::new(heap);
    // no `try_collect`: want of memory is told with its line, which a conversion of errors does not know
    for field in FieldReader::new(fields) {
        let number = number_at(field, line, numbers.len() + 2)?;
        numbers
            .push(number)
            .map_err(|_refused| Refusal::OutOfMemory.at(line, 0))?;
    }
    Ok(numbers)
}
