ghost use Rattle.std.specs.Prelude.{◌≡◌, ◌++◌, IfOk, OnOk, string_bytes};
ghost use Rattle.listing_text.specs.Rows.{header, row_line, end_line};

use crate::step::Step;
use calls::{Ending, Figures};
use std::alloc::{AllocError, Global};

// A text that begins with the line that names the fields.
pub(crate) fn headed(heap: Global) -> Result<String, AllocError>
    ensures { IfOk result (λ out. string_bytes out ≡ header) }
{
    String::from_str(heap, "step,state,verdict,lower,upper\n")
}

// Writes the line of a step: how many states it makes, the state and its verdict, and the figures after it.
pub(crate) fn write_row(out: &mut String, step: Step) -> Result<(), AllocError>
    ensures { OnOk result (string_bytes out.new ≡ string_bytes out.old ++ row_line step.figures.handed step.handed.state.number step.handed.verdict step.figures.lower step.figures.upper) }
{
    let Step { handed, figures } = step;
    let count = figures.handed;
    let state = handed.state.number();
    let verdict = handed.verdict;
    let Figures { lower, upper, .. } = figures;
    writeln!(out, "{count},{state},{verdict},{lower},{upper}")
}

// Writes the last line.
pub(crate) fn write_end(out: &mut String, ending: Ending) -> Result<(), AllocError>
    ensures { OnOk result (string_bytes out.new ≡ string_bytes out.old ++ end_line ending) }
{
    writeln!(out, "end,{ending}")
}
