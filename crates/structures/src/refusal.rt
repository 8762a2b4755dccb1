ghost use Rattle.std.specs.Prelude.{◌≡◌};
ghost use Rattle.structures.specs.declared.refusal.PathListError.TheVariants.{OutOfMemory};

use sheet::RefusalNumber;
use std::alloc::AllocError;
use thiserror::Error;

// Why a list of numbers is no path list.
#[derive(Clone, Copy, Debug, PartialEq, Eq, Error)]
pub enum PathListError {
    #[error("more than 256 paths")]
    TooManyPaths,
    // The path at this place, counted from 0, has a part above 40.
    #[error("the path at place {0} has a part above 40")]
    PartTooHigh(usize),
    #[error("out of memory")]
    OutOfMemory,
}

impl RefusalNumber for PathListError {
    ghost use Rattle.structures.specs.Refusals.{path_list_refusal};

    ghost values = { path_list_refusal };

    fn number(self) -> Option<u8> {
        match self {
            PathListError::TooManyPaths => Some(6),
            PathListError::PartTooHigh(_) => Some(7),
            PathListError::OutOfMemory => None,
        }
    }
}

impl From<AllocError> for PathListError {
    ghost from_gives = { λ _ e. e ≡ OutOfMemory };

    fn from(_error: AllocError) -> PathListError {
        PathListError::OutOfMemory
    }
}
