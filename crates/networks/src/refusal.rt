ghost use Rattle.std.specs.Prelude.{◌≡◌};
ghost use Rattle.networks.specs.declared.refusal.NetworkError.TheVariants.{MastTooHigh, OutOfMemory};

use crate::mast::MastTooHigh;
use sheet::RefusalNumber;
use std::alloc::AllocError;
use thiserror::Error;

// Why terminals and links are no network.
#[derive(Clone, Copy, Debug, PartialEq, Eq, Error)]
pub enum NetworkError {
    #[error("more than 64 links")]
    TooManyLinks,
    // A terminal or an end of a link is above 15.
    #[error("a mast is above 15")]
    MastTooHigh,
    // A link's part is not 1 to 40.
    #[error("a link's part is not 1 to 40")]
    NotAPart,
    #[error("out of memory")]
    OutOfMemory,
}

impl RefusalNumber for NetworkError {
    ghost use Rattle.networks.specs.Refusals.{network_refusal};

    ghost values = { network_refusal };

    fn number(self) -> Option<u8> {
        match self {
            NetworkError::TooManyLinks => Some(8),
            NetworkError::MastTooHigh => Some(9),
            NetworkError::NotAPart => Some(10),
            NetworkError::OutOfMemory => None,
        }
    }
}

impl From<MastTooHigh> for NetworkError {
    ghost from_gives = { λ _ e. e ≡ MastTooHigh };

    fn from(_refused: MastTooHigh) -> NetworkError {
        NetworkError::MastTooHigh
    }
}

impl From<AllocError> for NetworkError {
    ghost from_gives = { λ _ e. e ≡ OutOfMemory };

    fn from(_error: AllocError) -> NetworkError {
        NetworkError::OutOfMemory
    }
}
