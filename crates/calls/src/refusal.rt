ghost use Rattle.calls.specs.Refusals.{full_refusal, run_refusal};

use sheet::RefusalNumber;
use thiserror::Error;

// Why next refused.
#[derive(Clone, Copy, Debug, PartialEq, Eq, Error)]
pub enum Full {
    #[error("more than 1,024 states would wait")]
    TooManyWait,
}

impl RefusalNumber for Full {
    ghost values = { full_refusal };

    fn number(self) -> Option<u8> {
        match self {
            Full::TooManyWait => Some(11),
        }
    }
}

// Why a run was refused.
#[derive(Clone, Copy, Debug, PartialEq, Eq, Error)]
pub enum RunError {
    #[error("the target is above 1,000,000 parts per million")]
    TargetTooHigh,
}

impl RefusalNumber for RunError {
    ghost values = { run_refusal };

    fn number(self) -> Option<u8> {
        match self {
            RunError::TargetTooHigh => Some(12),
        }
    }
}
