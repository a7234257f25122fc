//! Which file a descriptor refers to, and what it is ready for. None of these changes the engine,
//! or takes memory.
ghost use Rattle.std.specs.Prelude.{◌≡◌, unwrap_or};
ghost use Rattle.af_base.specs.Places.{table_at};
ghost use Rattle.scm_c.specs.Calls.{Asks, Tells};
ghost use Rattle.scm_c.specs.Tables.{IsNextOpen, IsPolled};

use crate::answers::{NO_ENGINE, refusal};
use crate::handle::Handle;
use af_base::errno::Errno;
use af_base::ids::{Fd, Pid};
use std::alloc::Global;

/// Writes the inode number of the file that a descriptor refers to, or 0 where the descriptor is
/// not open or there is no such process. Answers 0.
#[unsafe(no_mangle)]
pub extern "C" fn jw_ino(
    alloc: Global,
    engine: &mut Handle,
    pid: u32,
    fd: u32,
    ino: &mut u64,
) -> i64
    ensures same { engine.new.shown ≡ engine.old.shown }
    ensures value { Tells engine.old.shown
        (λ m n. n ≡ unwrap_or (table_at m.world pid fd) 0) ino.old result ino.new }
{
    let Some(inside) = engine.as_mut() else {
        return NO_ENGINE;
    };
    *ino = match inside.ino_at(Pid(pid), Fd(fd)) {
        Some(file) => file.0,
        None => 0,
    };
    0
}

/// Answers the lowest open descriptor of a process that is not below `from`, and writes the inode
/// number of its file. A walk over a table asks again from the next number.
///
/// Errors: JW_EBADF; no descriptor is open from there on, or there is no such process.
#[must_use]
#[unsafe(no_mangle)]
pub extern "C" fn jw_next_fd(
    alloc: Global,
    engine: &mut Handle,
    pid: u32,
    from: u32,
    ino: &mut u64,
) -> i64
    ensures same { engine.new.shown ≡ engine.old.shown }
    ensures value { Asks engine.old.shown
        (λ m r n. IsNextOpen m.world pid from ino.old r n) ino.old result ino.new }
{
    let Some(inside) = engine.as_mut() else {
        return NO_ENGINE;
    };
    match inside.next_open(Pid(pid), Fd(from)) {
        Some((fd, file)) => {
            *ino = file.ino().0;
            i64::from(fd.0)
        }
        None => refusal(Errno::EBADF),
    }
}

/// The readiness of a descriptor.
#[repr(C)]
#[derive(Clone, Copy)]
pub struct CReady {
    /// Whether a receive of a byte, or an accept, has something to give, or the end to tell
    /// (POLLIN).
    pub readable: bool,
    /// Whether a send of a byte without descriptors has room (POLLOUT).
    pub writable: bool,
    /// Whether the peer is gone, or both ends of the socket are closed (POLLHUP).
    pub hung_up: bool,
}

/// Writes what a descriptor is ready for (poll(2)): what its next receive, accept or send finds. So
/// an idle or hung-up socket is not writable, unlike in Linux. A datagram socket is writable where
/// a send would not be JW_EAGAIN. A plain file is always readable and writable. Answers 0.
///
/// Errors: JW_ESRCH, JW_EBADF.
#[must_use]
#[unsafe(no_mangle)]
pub extern "C" fn jw_poll(
    alloc: Global,
    engine: &mut Handle,
    pid: u32,
    fd: u32,
    out: &mut CReady,
) -> i64
    ensures same { engine.new.shown ≡ engine.old.shown }
    ensures value { Asks engine.old.shown
        (λ m r y. IsPolled m.world pid fd out.old r y) out.old result out.new }
{
    let Some(inside) = engine.as_mut() else {
        return NO_ENGINE;
    };
    match inside.poll(Pid(pid), Fd(fd)) {
        Ok(ready) => {
            *out = CReady {
                readable: ready.readable,
                writable: ready.writable,
                hung_up: ready.hung_up,
            };
            0
        }
        Err(error) => refusal(error),
    }
}
