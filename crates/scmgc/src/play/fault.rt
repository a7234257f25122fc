//! Why playing stops.
use std::alloc::{AllocError, AllocFailed};
use std::io;
use std::io::ErrorKind;
use thiserror::Error;

/// Why playing stopped before the end of its input.
#[derive(Debug, Drop, Error)]
pub enum PlayFault {
    /// A read failed, for the system's reason.
    #[error("reading failed: {0}")]
    Read(io::Error),
    /// A write failed, for the system's reason.
    #[error("writing failed: {0}")]
    Write(io::Error),
    /// Memory ran out, or the count of lines came to the end of `u64`.
    #[error("no memory")]
    Memory,
}

impl PlayFault {
    /// Makes the fault of a failed read: `Memory` if memory was refused for a line, else `Read`.
    pub fn of_read(error: io::Error) -> PlayFault {
        if error.kind() == ErrorKind::OutOfMemory {
            return PlayFault::Memory;
        }
        PlayFault::Read(error)
    }
}

impl From<AllocError> for PlayFault {
    fn from(_error: AllocError) -> PlayFault {
        PlayFault::Memory
    }
}

impl<T: Drop> From<AllocFailed<T>> for PlayFault {
    fn from(_error: AllocFailed<T>) -> PlayFault {
        PlayFault::Memory
    }
}
