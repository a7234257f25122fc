//! Processes and their tables.
ghost use Rattle.scm_c.specs.Calls.{DoesEvent};

use crate::engine::call;
use crate::handle::Handle;
use af_base::events::{Event, Step};
use af_base::ids::{Fd, Pid, Uid};
use af_steps::calls::{Close, Dup, Dup2, Exit, Fork, Limit, Open, Spawn};
use std::alloc::Global;

/// Starts a process of this user, as after fork(2) and setuid(2), with an empty table and a limit
/// on its descriptors (RLIMIT_NOFILE, getrlimit(2)). A privileged process is not held to its user's
/// share of descriptors in flight (unix(7), CAP_SYS_RESOURCE). Answers its pid.
///
/// Errors: JW_ERANGE, JW_EAGAIN, JW_ENOMEM.
#[must_use]
#[unsafe(no_mangle)]
pub extern "C" fn jw_spawn(
    alloc: Global,
    engine: &mut Handle,
    uid: u32,
    nofile: u32,
    privileged: bool,
) -> i64
    ensures { DoesEvent engine.old.shown (Event.Spawn uid nofile privileged) result
        engine.new.shown }
{
    call(engine, Spawn(Uid(uid), nofile, privileged))
}

/// Opens a plain file (open(2)). Answers its descriptor, the lowest that is free.
///
/// Errors: JW_ESRCH, JW_EMFILE, JW_ENFILE, JW_ENOMEM.
#[must_use]
#[unsafe(no_mangle)]
pub extern "C" fn jw_open(alloc: Global, engine: &mut Handle, pid: u32) -> i64
    ensures { DoesEvent engine.old.shown (Event.Proc pid Step.Open) result engine.new.shown }
{
    call(engine, Open(Pid(pid)))
}

/// Duplicates a descriptor (dup(2)). Answers the new descriptor, the lowest that is free. Needs no
/// memory where a higher one is open.
///
/// Errors: JW_ESRCH, JW_EBADF, JW_EMFILE, JW_ENOMEM.
#[must_use]
#[unsafe(no_mangle)]
pub extern "C" fn jw_dup(alloc: Global, engine: &mut Handle, pid: u32, fd: u32) -> i64
    ensures { DoesEvent engine.old.shown (Event.Proc pid (Step.Dup fd)) result engine.new.shown }
{
    call(engine, Dup(Pid(pid), Fd(fd)))
}

/// Duplicates a descriptor at a given number, in place of what that number had (dup2(2)). Answers
/// that number. Needs no memory where it or a higher one is open: so one such call reserves room
/// for all below.
///
/// Errors: JW_ESRCH, JW_EBADF, JW_ENOMEM.
#[must_use]
#[unsafe(no_mangle)]
pub extern "C" fn jw_dup2(alloc: Global, engine: &mut Handle, pid: u32, from: u32, to: u32) -> i64
    ensures { DoesEvent engine.old.shown (Event.Proc pid (Step.Dup2 from to)) result
        engine.new.shown }
{
    call(engine, Dup2(Pid(pid), Fd(from), Fd(to)))
}

/// Closes a descriptor (close(2)). Answers 0.
///
/// Errors: JW_ESRCH, JW_EBADF.
#[unsafe(no_mangle)]
pub extern "C" fn jw_close(alloc: Global, engine: &mut Handle, pid: u32, fd: u32) -> i64
    ensures { DoesEvent engine.old.shown (Event.Proc pid (Step.Close fd)) result engine.new.shown }
{
    call(engine, Close(Pid(pid), Fd(fd)))
}

/// Makes a child of the process, with a copy of its table (fork(2)). Answers the child's pid.
///
/// Errors: JW_ESRCH, JW_EAGAIN, JW_ENOMEM.
#[must_use]
#[unsafe(no_mangle)]
pub extern "C" fn jw_fork(alloc: Global, engine: &mut Handle, pid: u32) -> i64
    ensures { DoesEvent engine.old.shown (Event.Proc pid Step.Fork) result engine.new.shown }
{
    call(engine, Fork(Pid(pid)))
}

/// Changes the limit on the process's descriptors, to a lower or a higher one (setrlimit(2),
/// RLIMIT_NOFILE). There is no hard limit. Open descriptors stay open, also at or above the limit.
/// Answers 0.
///
/// Errors: JW_ESRCH, JW_ERANGE.
#[must_use]
#[unsafe(no_mangle)]
pub extern "C" fn jw_limit(alloc: Global, engine: &mut Handle, pid: u32, nofile: u32) -> i64
    ensures { DoesEvent engine.old.shown (Event.Proc pid (Step.Limit nofile)) result
        engine.new.shown }
{
    call(engine, Limit(Pid(pid), nofile))
}

/// Ends the process and closes its descriptors (_exit(2)). Answers 0.
///
/// Errors: JW_ESRCH.
#[unsafe(no_mangle)]
pub extern "C" fn jw_exit(alloc: Global, engine: &mut Handle, pid: u32) -> i64
    ensures { DoesEvent engine.old.shown (Event.Proc pid Step.Exit) result engine.new.shown }
{
    call(engine, Exit(Pid(pid)))
}
