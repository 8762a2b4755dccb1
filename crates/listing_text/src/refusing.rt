ghost use Rattle.std.specs.Prelude.{IfOk, string_bytes};
ghost use Rattle.listing_text.specs.Refusals.{RefusalLine};

use sheet::RefusalNumber;
use sheet_lines::Fault;
use std::alloc::{AllocError, Global};

// The line of a fault. One without a number is want of memory.
pub(crate) fn refusal_line(heap: Global, fault: Fault) -> Result<String, AllocError>
    ensures { IfOk result (λ out. RefusalLine fault (string_bytes out)) }
{
    let number = fault.refusal.number().ok_or(AllocError)?;
    let layer = fault.refusal.layer();
    let Fault { line, field, .. } = fault;
    format!(in heap; "refused,{number},{layer},{line},{field}\n")
}
