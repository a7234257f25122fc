//! Messages: sent, received and peeked at.
ghost use Rattle.std.specs.Prelude.{◌≡◌, [], length, take};
ghost use Rattle.scm_c.specs.Calls.{DoesEvent, DoesAndWrites};
ghost use Rattle.scm_c.specs.Written.{as_u32, over, received_written, room};

use crate::answers::{NO_ENGINE, code};
use crate::engine::{call, reply_to};
use crate::handle::Handle;
use af_base::events::{Event, Reply, Step};
use af_base::ids::{Fd, Pid};
use af_base::limits::{MAX_BYTES, SCM_MAX_FD};
use af_steps::Call;
use af_steps::calls::{Peek, Recv, Send};
use arrayvec::ArrayVec;
use std::alloc::Global;

/// As many descriptors as a message may have, and one more: with that many it is refused.
const MOST: usize = SCM_MAX_FD + 1;

/// The outcome of a receive or a peek, beside its bytes and descriptors.
#[repr(C)]
#[derive(Clone, Copy)]
pub struct CReceived {
    /// How many descriptors were installed.
    pub fds: usize,
    /// Whether bytes of the packet did not fit (recvmsg(2), MSG_TRUNC).
    pub trunc: bool,
    /// Whether descriptors did not fit and were not installed (recvmsg(2), MSG_CTRUNC).
    pub ctrunc: bool,
}

/// Sends 1 to 65536 bytes, and with them the files of at most 253 descriptors (sendmsg(2) with
/// SCM_RIGHTS; unix(7), cmsg(3)). The bytes are copied once. Memory is requested after all other
/// tests. Answers how many bytes were sent, which is all of them.
///
/// Errors: JW_ESRCH, JW_EBADF, JW_ENOTSOCK, JW_EINVAL, JW_EMSGSIZE, JW_EBADF for one of
/// `fds`, JW_ENOTCONN, JW_EPIPE where the peer is gone or the socket's output is closed; for a
/// datagram socket JW_ENOTCONN without a target, JW_ECONNREFUSED where it is gone, JW_EPERM where
/// it sends to another; JW_ETOOMANYREFS, JW_ENOBUFS, JW_EPIPE where the peer's input is closed,
/// JW_EAGAIN, JW_ENOMEM.
#[must_use]
#[unsafe(no_mangle)]
pub extern "C" fn jw_send(
    alloc: Global,
    engine: &mut Handle,
    pid: u32,
    fd: u32,
    bytes: &[u8],
    fds: &[u32],
) -> i64
    ensures { DoesEvent engine.old.shown
        (Event.Proc pid (Step.Send fd bytes.now fds.now)) result engine.new.shown }
{
    let mut first = ArrayVec::new();
    push_first(fds, &mut first);
    call(engine, Send(Pid(pid), Fd(fd), bytes, first.as_slice()))
}

/// Puts the first of these descriptors into an empty list: as many as a message may have, and one
/// more.
fn push_first(fds: &[u32], first: &mut ArrayVec<Fd, MOST>)
    requires { first.old.items ≡ [] }
    ensures { first.new.items ≡ take MOST fds.now }
{
    for fd in &fds[..MOST.min(fds.len())] {
        first.push(Fd(*fd));
    }
}

/// Receives at most `len` bytes, 1 or more, and at most `nfds` descriptors (recvmsg(2) with
/// SCM_RIGHTS). More room than 65536 bytes is taken for 65536. Writes the bytes and the new
/// descriptors, and to `out` how many descriptors there are and what did not fit. Answers how many
/// bytes it wrote, or 0 where nothing is left, and the peer is gone or the socket's input closed.
///
/// A packet's bytes beyond `len` are dropped; a stream's wait for the next receive. Descriptors
/// beyond `nfds` or beyond the free ones are closed. Needs no memory for a packet that brings no
/// descriptors, or up to 4 where the highest below the process's limit is open.
///
/// Errors: JW_ESRCH, JW_EBADF, JW_ENOTSOCK, JW_EINVAL, JW_ENOTCONN, JW_EAGAIN, JW_ENOMEM.
#[must_use]
#[unsafe(no_mangle)]
pub extern "C" fn jw_recv(
    alloc: Global,
    engine: &mut Handle,
    pid: u32,
    fd: u32,
    bytes: &mut [u8],
    fds: &mut [u32],
    out: &mut CReceived,
) -> i64
    ensures { DoesAndWrites engine.old.shown (Event.Proc pid
        (Step.Recv fd (room (length bytes.old)) (as_u32 (length fds.old)))) received_written
        (bytes.old, fds.old, out.old) result (bytes.new, fds.new, out.new) engine.new.shown }
{
    let call = Recv(Pid(pid), Fd(fd), room(bytes.len()), as_u32(fds.len()));
    receive(engine, call, bytes, fds, out)
}

/// Writes and answers what jw_recv would, but takes nothing from the queue (recvmsg(2), MSG_PEEK).
///
/// The descriptors are installed and also stay in the queue, where they are still charged. A second
/// peek installs them again. Bytes and descriptors that do not fit stay in the queue too.
///
/// Errors: JW_ESRCH, JW_EBADF, JW_ENOTSOCK, JW_EINVAL, JW_ENOTCONN, JW_EAGAIN, JW_ENOMEM.
#[must_use]
#[unsafe(no_mangle)]
pub extern "C" fn jw_peek(
    alloc: Global,
    engine: &mut Handle,
    pid: u32,
    fd: u32,
    bytes: &mut [u8],
    fds: &mut [u32],
    out: &mut CReceived,
) -> i64
    ensures { DoesAndWrites engine.old.shown (Event.Proc pid
        (Step.Peek fd (room (length bytes.old)) (as_u32 (length fds.old)))) received_written
        (bytes.old, fds.old, out.old) result (bytes.new, fds.new, out.new) engine.new.shown }
{
    let call = Peek(Pid(pid), Fd(fd), room(bytes.len()), as_u32(fds.len()));
    receive(engine, call, bytes, fds, out)
}

/// Does this receive or peek, and writes what it got.
fn receive<C: Call + Drop>(
    engine: &mut Handle,
    call: C,
    bytes: &mut [u8],
    fds: &mut [u32],
    out: &mut CReceived,
) -> i64
    ensures { DoesAndWrites engine.old.shown (C.event call) received_written
        (bytes.old, fds.old, out.old) result (bytes.new, fds.new, out.new) engine.new.shown }
{
    let Some(reply) = reply_to(engine, call) else {
        return NO_ENGINE;
    };
    write_received(&reply, bytes, fds, out);
    code(&reply)
}

/// Returns how many bytes to ask for with this much room: at most what a message can have.
fn room(length: usize) -> u32
    ensures { result ≡ room length }
{
    length.min(MAX_BYTES) as u32
}

/// Returns a length as a number of 32 bits; the largest is for all above it.
fn as_u32(length: usize) -> u32
    ensures { result ≡ as_u32 length }
{
    length.min(u32::MAX as usize) as u32
}

/// Writes what a receive or a peek got.
fn write_received(reply: &Reply, bytes: &mut [u8], fds: &mut [u32], out: &mut CReceived)
    ensures { (bytes.new, fds.new, out.new)
        ≡ received_written reply.now (bytes.old, fds.old, out.old) }
{
    match reply {
        Reply::Got {
            bytes: got,
            fds: installed,
            trunc,
            ctrunc,
        } => {
            write_bytes(got.as_slice(), bytes);
            write_numbers(installed.as_slice(), fds);
            *out = CReceived {
                fds: installed.len(),
                trunc: *trunc,
                ctrunc: *ctrunc,
            };
        }
        Reply::End => {
            *out = CReceived {
                fds: 0,
                trunc: false,
                ctrunc: false,
            };
        }
        _ => {}
    }
}

/// Writes these bytes over the beginning of the place, as many as fit.
pub(crate) fn write_bytes(from: &[u8], to: &mut [u8])
    ensures { to.new ≡ over from.now to.old }
{
    let count = from.len().min(to.len());
    to[..count].copy_from_slice(&from[..count]);
}

/// Writes these descriptors over the beginning of the place, as many as fit.
fn write_numbers(from: &[Fd], to: &mut [u32])
    ensures { to.new ≡ over from.now to.old }
{
    let count = from.len().min(to.len());
    for i in 0..count {
        let fd = &from[i];
        to[i] = fd.0;
    }
}
