use sheet::RefusalNumber;
use thiserror::Error;

// Why a text was not written.
#[derive(Clone, Copy, Debug, PartialEq, Eq, Error)]
pub enum WriteError {
    #[error("there are too many paths, or a path or the feed is not on the sheet")]
    NotOnSheet,
    #[error("the text takes {0} bytes")]
    BufferTooShort(usize),
}

impl RefusalNumber for WriteError {
    ghost use Rattle.sheet_writing.specs.Refusals.{write_refusal};

    ghost values = { write_refusal };

    fn number(self) -> Option<u8> {
        match self {
            WriteError::NotOnSheet => Some(21),
            WriteError::BufferTooShort(_) => Some(22),
        }
    }
}
