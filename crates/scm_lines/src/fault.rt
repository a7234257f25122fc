//! Why a line was not read.
ghost use Rattle.std.specs.Prelude.{◌≡◌};
ghost use Rattle.scm_lines.specs.declared.fault.LineFault.TheVariants.{Memory};

use std::alloc::{AllocError, AllocFailed};

/// Why a line was not read.
#[derive(Clone, Copy)]
pub enum LineFault {
    /// The line is not of the language, or not one that its script may have there.
    Unreadable,
    /// Memory for the line's bytes, descriptors or name was refused. Whether the line can be read
    /// stays open.
    Memory,
}

impl From<AllocError> for LineFault {
    ghost from_gives = { λ _ fault. fault ≡ Memory };

    fn from(_error: AllocError) -> LineFault {
        LineFault::Memory
    }
}

impl<T: Drop> From<AllocFailed<T>> for LineFault {
    ghost from_gives = { λ _ fault. fault ≡ Memory };

    fn from(_error: AllocFailed<T>) -> LineFault {
        LineFault::Memory
    }
}
