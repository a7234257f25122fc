//! Sockets: made, named, connected and accepted.
ghost use Rattle.std.specs.Prelude.{◌≡◌, IfNone, IfSome};
ghost use Rattle.scm_c.specs.Calls.{DoesEvent, DoesAndWrites, RefusesFirst};
ghost use Rattle.scm_c.specs.Codes.{how_named, type_named};
ghost use Rattle.scm_c.specs.Written.{pair_written};

use crate::answers::{NO_ENGINE, code, refusal};
use crate::engine::{call, reply_to};
use crate::handle::Handle;
use af_base::errno::Errno;
use af_base::events::{Event, Reply, Shutdown, SockType, Step};
use af_base::ids::{Fd, Pid};
use af_steps::calls::{self, Accept, Bind, Connect, Listen, Pair, Socket, Unconnect};
use std::alloc::Global;

/// The descriptors of two connected sockets.
#[repr(C)]
#[derive(Clone, Copy)]
pub struct CPair {
    /// The lower descriptor.
    pub first: u32,
    /// The higher descriptor.
    pub second: u32,
}

/// Makes two connected sockets of type JW_STREAM, JW_SEQPACKET or JW_DGRAM (socketpair(2)), and
/// writes their descriptors. Answers 0.
///
/// Errors: JW_EINVAL for another type, before all else; JW_ESRCH, JW_EMFILE, JW_ENFILE,
/// JW_ENOMEM.
#[must_use]
#[unsafe(no_mangle)]
pub extern "C" fn jw_pair(
    alloc: Global,
    engine: &mut Handle,
    pid: u32,
    kind: u32,
    out: &mut CPair,
) -> i64
    ensures made { IfSome (type_named kind) (λ k. DoesAndWrites engine.old.shown
        (Event.Proc pid (Step.Pair k)) pair_written out.old result out.new engine.new.shown) }
    ensures invalid { IfNone (type_named kind)
        (RefusesFirst engine.old.shown Errno.EINVAL result engine.new.shown) }
    ensures unwritten { IfNone (type_named kind) (out.new ≡ out.old) }
{
    let Some(kind) = type_named(kind) else {
        return refusal(Errno::EINVAL);
    };
    let Some(reply) = reply_to(engine, Pair(Pid(pid), kind)) else {
        return NO_ENGINE;
    };
    write_pair(&reply, out);
    code(&reply)
}

/// Writes the descriptors of a pair.
fn write_pair(reply: &Reply, out: &mut CPair)
    ensures { out.new ≡ pair_written reply.now out.old }
{
    if let Reply::Fds(first, second) = reply {
        *out = CPair {
            first: first.0,
            second: second.0,
        };
    }
}

/// Returns the type that C names by this number.
fn type_named(kind: u32) -> Option<SockType>
    ensures { result ≡ type_named kind }
{
    match kind {
        1 => Some(SockType::Stream),
        2 => Some(SockType::Seqpacket),
        4 => Some(SockType::Dgram),
        _ => None,
    }
}

/// Makes a socket of type JW_STREAM, JW_SEQPACKET or JW_DGRAM (socket(2)). Answers its descriptor.
///
/// Errors: JW_EINVAL for another type, before all else; JW_ESRCH, JW_EMFILE, JW_ENFILE,
/// JW_ENOMEM.
#[must_use]
#[unsafe(no_mangle)]
pub extern "C" fn jw_socket(alloc: Global, engine: &mut Handle, pid: u32, kind: u32) -> i64
    ensures made { IfSome (type_named kind) (λ k.
        DoesEvent engine.old.shown (Event.Proc pid (Step.Socket k)) result engine.new.shown) }
    ensures invalid { IfNone (type_named kind)
        (RefusesFirst engine.old.shown Errno.EINVAL result engine.new.shown) }
{
    match type_named(kind) {
        Some(kind) => call(engine, Socket(Pid(pid), kind)),
        None => refusal(Errno::EINVAL),
    }
}

/// Gives a socket an abstract name (bind(2), unix(7)): 1 to 107 letters, digits, '-', '.' and '_'.
/// Answers 0.
///
/// Errors: JW_ESRCH, JW_EBADF, JW_ENOTSOCK, JW_EINVAL, JW_EADDRINUSE, JW_ENOMEM.
#[must_use]
#[unsafe(no_mangle)]
pub extern "C" fn jw_bind(alloc: Global, engine: &mut Handle, pid: u32, fd: u32, name: &[u8]) -> i64
    ensures { DoesEvent engine.old.shown (Event.Proc pid (Step.Bind fd name.now)) result
        engine.new.shown }
{
    call(engine, Bind(Pid(pid), Fd(fd), name))
}

/// Lets a socket with a name wait for connections, with room for 1 to 128 (listen(2)). Answers 0.
///
/// Errors: JW_ESRCH, JW_EBADF, JW_ENOTSOCK, JW_EOPNOTSUPP for a datagram socket, JW_EINVAL,
/// JW_ENOMEM.
#[must_use]
#[unsafe(no_mangle)]
pub extern "C" fn jw_listen(
    alloc: Global,
    engine: &mut Handle,
    pid: u32,
    fd: u32,
    backlog: u32,
) -> i64
    ensures { DoesEvent engine.old.shown
        (Event.Proc pid (Step.Listen fd backlog)) result engine.new.shown }
{
    call(engine, Listen(Pid(pid), Fd(fd), backlog))
}

/// Closes an end of a socket, or both (shutdown(2)): its input for JW_SHUT_RD, its output for
/// JW_SHUT_WR, both for JW_SHUT_RDWR; and with them the peer's output or input, but not a
/// target's. What waits can still be received. An end is never opened again. Answers 0.
///
/// Errors: JW_EINVAL for another number, before all else; JW_ESRCH, JW_EBADF, JW_ENOTSOCK.
#[must_use]
#[unsafe(no_mangle)]
pub extern "C" fn jw_shutdown(
    alloc: Global,
    engine: &mut Handle,
    pid: u32,
    fd: u32,
    how: u32,
) -> i64
    ensures done { IfSome (how_named how) (λ h. DoesEvent engine.old.shown
        (Event.Proc pid (Step.Shutdown fd h)) result engine.new.shown) }
    ensures invalid { IfNone (how_named how)
        (RefusesFirst engine.old.shown Errno.EINVAL result engine.new.shown) }
{
    match how_named(how) {
        Some(how) => call(engine, calls::Shutdown(Pid(pid), Fd(fd), how)),
        None => refusal(Errno::EINVAL),
    }
}

/// Returns what C means by this number of shutdown(2).
fn how_named(how: u32) -> Option<Shutdown>
    ensures { result ≡ how_named how }
{
    match how {
        0 => Some(Shutdown::Read),
        1 => Some(Shutdown::Write),
        2 => Some(Shutdown::Both),
        _ => None,
    }
}

/// Leaves a datagram socket without a target (connect(2) to AF_UNSPEC). If it had one, what waits
/// there is lost. Answers 0.
///
/// Errors: JW_ESRCH, JW_EBADF, JW_ENOTSOCK, JW_EINVAL for a socket of another type.
#[must_use]
#[unsafe(no_mangle)]
pub extern "C" fn jw_unconnect(alloc: Global, engine: &mut Handle, pid: u32, fd: u32) -> i64
    ensures { DoesEvent engine.old.shown
        (Event.Proc pid (Step.Unconnect fd)) result engine.new.shown }
{
    call(engine, Unconnect(Pid(pid), Fd(fd)))
}

/// Connects a socket to the listener of this name, without waiting (connect(2)). The socket is
/// connected immediately, and the other end waits to be accepted. Answers 0.
///
/// A datagram socket sends to the one of this name from now on, its target. If it sent to another,
/// what waits at it is lost.
///
/// Errors: JW_ESRCH, JW_EBADF, JW_ENOTSOCK, JW_EINVAL, JW_EISCONN; for a datagram socket
/// JW_ECONNREFUSED, and JW_EPERM where the target sends to another; for others JW_ECONNREFUSED,
/// JW_EPROTOTYPE, JW_EAGAIN, JW_ENFILE, JW_ENOMEM.
#[must_use]
#[unsafe(no_mangle)]
pub extern "C" fn jw_connect(
    alloc: Global,
    engine: &mut Handle,
    pid: u32,
    fd: u32,
    name: &[u8],
) -> i64
    ensures { DoesEvent engine.old.shown (Event.Proc pid (Step.Connect fd name.now)) result
        engine.new.shown }
{
    call(engine, Connect(Pid(pid), Fd(fd), name))
}

/// Accepts the connection that waits longest at a listener (accept(2)). Answers the new socket's
/// descriptor, the lowest that is free. Needs no memory where a higher one is open.
///
/// Errors: JW_ESRCH, JW_EBADF, JW_ENOTSOCK, JW_EOPNOTSUPP for a datagram socket, JW_EINVAL,
/// JW_EAGAIN, JW_EMFILE, JW_ENOMEM.
#[must_use]
#[unsafe(no_mangle)]
pub extern "C" fn jw_accept(alloc: Global, engine: &mut Handle, pid: u32, fd: u32) -> i64
    ensures { DoesEvent engine.old.shown (Event.Proc pid (Step.Accept fd)) result engine.new.shown }
{
    call(engine, Accept(Pid(pid), Fd(fd)))
}
