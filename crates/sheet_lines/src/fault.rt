ghost use Rattle.std.specs.Prelude.{◌≡◌, Some};

use sheet::{AddError, RefusalNumber};
use std::fmt;
use thiserror::Error;

// Why a text was refused.
#[derive(Clone, Copy, Debug, PartialEq, Eq, Error)]
pub enum Refusal {
    #[error("the text is too long")]
    TextTooLong,
    #[error("the line does not end")]
    NoLineEnd,
    #[error("the line begins with no known word")]
    UnknownWord,
    #[error("the line has too few or too many fields")]
    WrongFieldCount,
    #[error("the field is no number")]
    BadNumber,
    #[error("the line is out of turn")]
    OutOfTurn,
    #[error("the field is no part in its place")]
    BadPart,
    #[error("there are too many paths")]
    TooManyPaths,
    #[error("{0}")]
    Draft(AddError),
    #[error("out of memory")]
    OutOfMemory,
}

// What a fault came from: the text, one line of it, or the draft that a part was added to.
#[derive(Clone, Copy, Debug, PartialEq, Eq)]
pub enum Layer {
    Text,
    Line,
    Draft,
}

// Its word, as a program prints it.
impl fmt::Display for Layer {
    ghost use Rattle.sheet_lines.specs.Faults.{layer_word};

    ghost output = { λ layer. Some (layer_word layer) };

    fn fmt<W: fmt::Write>(&self, f: &mut fmt::Formatter<W>) -> fmt::Result {
        f.write_str(match self {
            Layer::Text => "text",
            Layer::Line => "line",
            Layer::Draft => "draft",
        })
    }
}

// A fault in a text: why it was refused, and at which line and field, each counted from 1; 0 for none, as a program prints it.
#[derive(Clone, Copy, Debug, PartialEq, Eq, Error)]
#[error("line {line}, field {field}: {refusal}")]
pub struct Fault {
    pub refusal: Refusal,
    pub line: usize,
    pub field: usize,
}

impl RefusalNumber for Refusal {
    ghost use Rattle.sheet_lines.specs.Faults.{refusal_number};

    ghost values = { refusal_number };

    fn number(self) -> Option<u8> {
        match self {
            Refusal::TextTooLong => Some(13),
            Refusal::NoLineEnd => Some(14),
            Refusal::UnknownWord => Some(15),
            Refusal::WrongFieldCount => Some(16),
            Refusal::BadNumber => Some(17),
            Refusal::OutOfTurn => Some(18),
            Refusal::BadPart => Some(19),
            Refusal::TooManyPaths => Some(20),
            Refusal::Draft(error) => error.number(),
            Refusal::OutOfMemory => None,
        }
    }
}

impl Refusal {
    ghost use Rattle.sheet_lines.specs.Faults.{refusal_layer};

    // The layer it came from.
    pub fn layer(self) -> Layer
        ensures { result ≡ refusal_layer self }
    {
        match self {
            Refusal::TextTooLong | Refusal::NoLineEnd => Layer::Text,
            Refusal::Draft(_) => Layer::Draft,
            _ => Layer::Line,
        }
    }

    // The fault of this refusal at a line and a field.
    pub fn at(self, line: usize, field: usize) -> Fault
        ensures { result ≡ record { refusal = self; line = line; field = field } }
    {
        Fault {
            refusal: self,
            line,
            field,
        }
    }
}
