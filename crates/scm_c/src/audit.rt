//! An independent recount of an engine.
ghost use Rattle.std.specs.Prelude.{◌≡◌};
ghost use Rattle.scm_c.specs.Calls.{Asks};
ghost use Rattle.scm_c.specs.Texts.{IsCheckWritten};

use crate::answers::{NO_ENGINE, refusal};
use crate::handle::Handle;
use af_base::errno::Errno;
use af_report::count;
use std::alloc::Global;

/// A kept number is not its recount: proved never to be answered.
const DIFFERS: i64 = -101;

/// The counts of a check.
#[repr(C)]
#[derive(Clone, Copy)]
pub struct CChecked {
    /// How many files are live.
    pub live: u64,
    /// How many of them no chain of queues and backlogs reaches from any table.
    pub garbage: u64,
}

/// Counts all places anew, compares each number that the engine keeps with that count, and writes
/// how many files are live and how many of them are garbage. Answers 0.
///
/// Errors: JW_ENOMEM.
#[must_use]
#[unsafe(no_mangle)]
pub extern "C" fn jw_check(alloc: Global, engine: &mut Handle, out: &mut CChecked) -> i64
    ensures same { engine.new.shown ≡ engine.old.shown }
    ensures value { Asks engine.old.shown
        (λ m r c. IsCheckWritten m.world out.old r c) out.old result out.new }
{
    let Some(inside) = engine.as_mut() else {
        return NO_ENGINE;
    };
    let Ok(found) = count(alloc, inside) else {
        return refusal(Errno::ENOMEM);
    };
    let Some(checked) = found else {
        return DIFFERS;
    };
    *out = CChecked {
        live: checked.live() as u64,
        garbage: checked.garbage() as u64,
    };
    0
}
