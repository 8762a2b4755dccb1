ghost use Rattle.std.specs.Prelude.{◌≡◌};
ghost use Rattle.round_trips.specs.declared.trip_error.TripError.TheVariants.{Writing, Reading};

use sheet_lines::Fault;
use sheet_writing::WriteError;
use thiserror::Error;

// Why a sheet or a text did not come back.
#[derive(Clone, Copy, Debug, PartialEq, Eq, Error)]
pub enum TripError {
    #[error("not written: {0}")]
    Writing(WriteError),
    #[error("not read: {0}")]
    Reading(Fault),
}

impl From<WriteError> for TripError {
    ghost from_gives = { λ refused e. e ≡ Writing refused };

    fn from(refused: WriteError) -> TripError {
        TripError::Writing(refused)
    }
}

impl From<Fault> for TripError {
    ghost from_gives = { λ fault e. e ≡ Reading fault };

    fn from(fault: Fault) -> TripError {
        TripError::Reading(fault)
    }
}
