//! Passes of the collector.
ghost use Rattle.std.specs.Prelude.{◌≡◌};
ghost use Rattle.scm_c.specs.Calls.{DoesAndWrites};
ghost use Rattle.scm_c.specs.Written.{begun_written, finished_written};

use crate::answers::{NO_ENGINE, code};
use crate::engine::reply_to;
use crate::handle::Handle;
use af_base::events::{Event, Reply};
use af_steps::Call;
use af_steps::calls::{Begin, Pass, Slice};
use std::alloc::Global;

/// A pass of the collector that is over.
#[repr(C)]
#[derive(Clone, Copy)]
pub struct CFinished {
    /// The number of the pass, from 1 on.
    pub pass: u64,
    /// How many sockets were garbage when it began.
    pub reclaimed: u64,
}

/// Begins a pass of the collector, and writes its number. It costs the same with few files and with
/// many, except once in 2^32 passes. Answers 0.
///
/// Errors: JW_EBUSY.
#[must_use]
#[unsafe(no_mangle)]
pub extern "C" fn jw_begin(alloc: Global, engine: &mut Handle, pass: &mut u64) -> i64
    ensures { DoesAndWrites engine.old.shown Event.Begin begun_written pass.old result pass.new
        engine.new.shown }
{
    let Some(reply) = reply_to(engine, Begin) else {
        return NO_ENGINE;
    };
    if let Reply::Started(number) = &reply {
        *pass = *number;
    }
    code(&reply)
}

/// Continues the pass by at most `budget` units, 1 to 65536; a unit visits, scans or sweeps one
/// file. Answers 1 while the pass runs. Answers 0 when it is over, and writes what jw_pass writes.
///
/// Errors: JW_EIDLE, JW_EINVAL.
#[must_use]
#[unsafe(no_mangle)]
pub extern "C" fn jw_slice(
    alloc: Global,
    engine: &mut Handle,
    budget: u32,
    out: &mut CFinished,
) -> i64
    ensures { DoesAndWrites engine.old.shown
        (Event.Slice budget) finished_written out.old result out.new engine.new.shown }
{
    collect(engine, Slice(budget), out)
}

/// Does a whole pass at once: reclaims what no process can reach. Writes the number of the pass,
/// and how many sockets were garbage. Answers 0.
///
/// Errors: JW_EBUSY.
#[must_use]
#[unsafe(no_mangle)]
pub extern "C" fn jw_pass(alloc: Global, engine: &mut Handle, out: &mut CFinished) -> i64
    ensures { DoesAndWrites engine.old.shown Event.Pass finished_written out.old result out.new
        engine.new.shown }
{
    collect(engine, Pass, out)
}

/// Does this call of the collector, and writes what it says of a pass that is over.
fn collect<C: Call + Drop>(engine: &mut Handle, call: C, out: &mut CFinished) -> i64
    ensures { DoesAndWrites engine.old.shown (C.event call) finished_written out.old result out.new
        engine.new.shown }
{
    let Some(reply) = reply_to(engine, call) else {
        return NO_ENGINE;
    };
    write_finished(&reply, out);
    code(&reply)
}

/// Writes what the reply says of a pass that is over, if it is.
fn write_finished(reply: &Reply, out: &mut CFinished)
    ensures { out.new ≡ finished_written reply.now out.old }
{
    if let Reply::Done { pass, reclaimed } = reply {
        *out = CFinished {
            pass: *pass,
            reclaimed: *reclaimed,
        };
    }
}
