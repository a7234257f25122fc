//! Why a run stops.
ghost use Rattle.std.specs.Prelude.{◌≡◌};
ghost use Rattle.scm_run.specs.declared.fault.RunFault.TheVariants.{Memory, Write};

use crate::writes::WriteFailed;
use std::alloc::{AllocError, AllocFailed};
use thiserror::Error;

/// Why a run stopped before the end of its script.
#[derive(Debug, PartialEq, Eq, Drop, Error)]
pub enum RunFault {
    /// The line of this number, counted from 1, cannot be read.
    #[error("line {0} cannot be read")]
    Unreadable(u64),
    /// A read failed.
    #[error("reading failed")]
    Read,
    /// A write failed, or took no byte of some.
    #[error("writing failed")]
    Write,
    /// Memory ran out, or a count of lines or reads came to the end of `u64`.
    #[error("no memory")]
    Memory,
}

impl From<AllocError> for RunFault {
    ghost from_gives = { λ _ fault. fault ≡ Memory };

    fn from(_error: AllocError) -> RunFault {
        RunFault::Memory
    }
}

impl<T: Drop> From<AllocFailed<T>> for RunFault {
    ghost from_gives = { λ _ fault. fault ≡ Memory };

    fn from(_error: AllocFailed<T>) -> RunFault {
        RunFault::Memory
    }
}

impl From<WriteFailed> for RunFault {
    ghost from_gives = { λ _ fault. fault ≡ Write };

    fn from(_error: WriteFailed) -> RunFault {
        RunFault::Write
    }
}
