ghost use Rattle.std.specs.Prelude.{◌≡◌};
ghost use Rattle.sheet.specs.declared.refusal.AddError.TheVariants.{GradeTooHigh, OutOfMemory};

use crate::grade::GradeTooHigh;
use crate::refusal_number::RefusalNumber;
use std::alloc::AllocFailed;
use thiserror::Error;

// Why a number is no part number.
#[derive(Clone, Copy, Debug, PartialEq, Eq, Error)]
pub enum PartNumberError {
    #[error("a part's number is 1 to 40")]
    OutOfRange,
}

impl RefusalNumber for PartNumberError {
    ghost use Rattle.sheet.specs.Refusals.{part_number_refusal};

    ghost values = { part_number_refusal };

    fn number(self) -> Option<u8> {
        match self {
            PartNumberError::OutOfRange => Some(1),
        }
    }
}

// Why a part was not added to a draft.
#[derive(Clone, Copy, Debug, PartialEq, Eq, Error)]
pub enum AddError {
    #[error("the grade is above 39")]
    GradeTooHigh,
    #[error("the price is above 99,999,999 cents")]
    PriceTooHigh,
    #[error("the grade is below that of the part before")]
    GradeFalls,
    #[error("the sheet has 40 parts already")]
    SheetFull,
    #[error("out of memory")]
    OutOfMemory,
}

impl RefusalNumber for AddError {
    ghost use Rattle.sheet.specs.Refusals.{add_refusal};

    ghost values = { add_refusal };

    fn number(self) -> Option<u8> {
        match self {
            AddError::GradeTooHigh => Some(2),
            AddError::PriceTooHigh => Some(3),
            AddError::GradeFalls => Some(4),
            AddError::SheetFull => Some(5),
            AddError::OutOfMemory => None,
        }
    }
}

impl From<GradeTooHigh> for AddError {
    ghost from_gives = { λ _ e. e ≡ GradeTooHigh };

    fn from(_refused: GradeTooHigh) -> AddError {
        AddError::GradeTooHigh
    }
}

impl<T: Drop> From<AllocFailed<T>> for AddError {
    ghost from_gives = { λ _ e. e ≡ OutOfMemory };

    fn from(_refused: AllocFailed<T>) -> AddError {
        AddError::OutOfMemory
    }
}
