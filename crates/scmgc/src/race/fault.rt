//! Why a race has no outcome.
ghost use Rattle.std.specs.Prelude.{◌≡◌};
ghost use Rattle.scmgc.specs.declared.race.fault.RaceFault.TheVariants.{Failed, Memory};
ghost use Rattle.scmgc.specs.Race.Faults.{of_call, of_drive, of_open};

use af_layer::{CallError, CloseError, CloseFault, DriveError, DriveFault, OpenError};
use std::alloc::{AllocError, AllocFailed};
use thiserror::Error;

/// Why a race has no outcome.
#[derive(Clone, Copy, Debug, Drop, Error)]
pub enum RaceFault {
    /// Memory was refused.
    #[error("no memory")]
    Memory,
    /// Another fault: a call that was refused, an unexpected answer, or a fault that the audit
    /// found.
    #[error("race failed")]
    Failed,
}

impl From<AllocError> for RaceFault {
    ghost from_gives = { λ _ fault. fault ≡ Memory };

    fn from(_error: AllocError) -> RaceFault {
        RaceFault::Memory
    }
}

impl<T: Drop> From<AllocFailed<T>> for RaceFault {
    ghost from_gives = { λ _ fault. fault ≡ Memory };

    fn from(_error: AllocFailed<T>) -> RaceFault {
        RaceFault::Memory
    }
}

impl From<OpenError> for RaceFault {
    ghost from_gives = { λ error fault. fault ≡ of_open error };

    fn from(error: OpenError) -> RaceFault {
        match error {
            OpenError::NoRoom => RaceFault::Memory,
            OpenError::BadCount => RaceFault::Failed,
        }
    }
}

impl From<CallError> for RaceFault {
    ghost from_gives = { λ error fault. fault ≡ of_call error };

    fn from(error: CallError) -> RaceFault {
        match error {
            CallError::NoRoom => RaceFault::Memory,
            CallError::NoSeat | CallError::LogFull => RaceFault::Failed,
        }
    }
}

impl From<DriveError> for RaceFault {
    ghost from_gives = { λ error fault. fault ≡ of_drive error.fault };

    fn from(error: DriveError) -> RaceFault {
        match error.fault {
            DriveFault::NoRoom => RaceFault::Memory,
            DriveFault::TooFewSeats => RaceFault::Failed,
            DriveFault::Call(_, fault) => fault.into(),
        }
    }
}

impl From<CloseError> for RaceFault {
    ghost from_gives = { λ _ fault. fault ≡ Failed };

    fn from(error: CloseError) -> RaceFault {
        // Dropped by a call: as a parameter each part would be dropped, and proved, by itself.
        drop(error);
        RaceFault::Failed
    }
}

impl From<CloseFault> for RaceFault {
    ghost from_gives = { λ _ fault. fault ≡ Failed };

    fn from(_fault: CloseFault) -> RaceFault {
        RaceFault::Failed
    }
}
