ghost use Rattle.std.specs.Prelude.{◌≡◌};
ghost use Rattle.sheet_lines.specs.Lines.{line_fault};

use crate::fault::{Fault, Refusal};

// Why a line is no token.
#[derive(Clone, Copy, Debug, PartialEq, Eq)]
pub enum LineError {
    UnknownWord,
    WrongFieldCount,
}

impl LineError {
    // Its fault, in the line with this number.
    pub(crate) fn at(self, line: usize) -> Fault
        ensures { result ≡ line_fault self line }
    {
        match self {
            LineError::UnknownWord => Refusal::UnknownWord.at(line, 1),
            LineError::WrongFieldCount => Refusal::WrongFieldCount.at(line, 0),
        }
    }
}
