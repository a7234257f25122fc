//! The readiness of files (poll(2)).
ghost use Rattle.std.specs.Prelude.{◌≡◌, ◌++◌, ◌&&◌, ℕ, None, OnOk, Some, IfErr, IfOk, false, not};
ghost use Rattle.std.specs.Prelude.{IfSome, true};
ghost use Rattle.std.specs.FinMap as map;
ghost use Rattle.af_base.specs.Places.{table_at};
ghost use Rattle.af_base.specs.Ready.{has_room, is_cut_off, reaches, reads, ready, writes};
ghost use Rattle.af_base.specs.Refusals.{first_fit, ino_on, on_number, on_process, peer_of};
ghost use Rattle.af_base.specs.Refusals.{socket_at};
ghost use Rattle.af_base.specs.Whole.{IsWhole, fits_type};
ghost use Rattle.af_base.specs.World.{IsLive};
ghost use Rattle.af_steps.specs.Found.{IsSocketOf};
ghost use Rattle.af_steps.specs.MessageRoom.{target_row};

use crate::engine::Engine;
use crate::lookups::file_on;
use crate::messages::{check_receive, target_of};
use crate::sockets::check_accept;
use af_base::errno::Errno;
use af_base::events::State;
use af_base::ids::{Fd, FileRef, Pid};
use af_base::limits::MAX_MESSAGES;
use af_base::ready::Ready;
use af_collect::Store;
use af_desc::Socket;

impl Engine {
    /// Returns what a descriptor of a process is ready for (poll(2)): what its next receive, accept
    /// or send finds. A plain file is always readable and writable. Refused, in this order: ESRCH,
    /// EBADF. Takes no memory.
    pub fn poll(&self, pid: Pid, fd: Fd) -> Result<Ready, Errno>
        ensures ready { IfOk result (λ r.
            ready self.now.world (ino_on self.now.world pid fd) ≡ Some r) }
        ensures refused { IfErr result (λ e.
            first_fit (on_process (map.get self.now.world.processes pid)
            ++ on_number (table_at self.now.world pid fd)) ≡ Some e) }
    {
        let (_, file) = file_on(&self.store, pid, fd)?;
        Ok(self.ready_at(&file))
    }

    /// Returns what `file`, which is live, is ready for (poll(2)). No search.
    pub fn ready_at(&self, file: &FileRef) -> Ready
        requires { IsLive self.now.world file.now }
        ensures { ready self.now.world file.now ≡ Some result }
    {
        let Some(socket) = self.store.holdings().files().socket(file) else {
            return Ready {
                readable: true,
                writable: true,
                hung_up: false,
            };
        };
        Ready {
            readable: is_readable(&socket),
            writable: is_writable(&self.store, file, &socket),
            hung_up: is_cut_off(&socket),
        }
    }
}

/// Returns whether a receive of a byte from the socket, or an accept at it, is not refused.
fn is_readable(socket: &Socket) -> bool
    requires { fits_type socket.now.kind socket.now.state ≡ true }
    ensures { result ≡ reads socket.now }
{
    check_receive(socket, 1).is_ok() || check_accept(socket).is_ok()
}

/// Returns whether the socket's output is open, and it has a peer that takes a message; of a
/// datagram socket, whether a send does not wait.
fn is_writable(store: &Store, file: &FileRef, socket: &Socket) -> bool
    requires { IsSocketOf store.now.world file.now socket.now }
    ensures { result ≡ writes file.now socket.now
        (socket_at store.now.world (peer_of socket.now.state)) }
{
    match socket.peer() {
        Some(peer) => !socket.ends().no_output && check_target(store, &peer).is_ok(),
        None => socket.is_datagram() && !is_target_full(store, &file.duplicate()),
    }
}

/// Returns whether a send from a datagram socket waits for room at its target. Stands apart, since
/// most sockets have a peer.
#[inline(never)]
fn is_target_full(store: &Store, file: &FileRef) -> bool
    requires whole { IsWhole store.now.world }
    requires alone { IfSome (socket_at store.now.world file.now) (λ s.
        (peer : ℕ) → ¬ (s.state ≡ State.Connected peer)) }
    ensures { IfSome (socket_at store.now.world file.now) (λ s. result ≡ (
        reaches file.now s (socket_at store.now.world (peer_of s.state))
        && not (has_room (socket_at store.now.world (peer_of s.state))))) }
{
    let Ok(target) = target_of(store, file) else {
        return false;
    };
    let Some(there) = store.holdings().socket(&target) else {
        return false;
    };
    !there.ends().no_input && there.queue().len() >= MAX_MESSAGES
}

/// Returns whether a socket takes one message more, or why not; any other file does.
#[inline(always)]
pub(crate) fn check_target(store: &Store, file: &FileRef) -> Result<(), Errno>
    ensures ok { OnOk result (first_fit (target_row store.now.world file.now) ≡ None) }
    ensures err { IfErr result (λ e. first_fit (target_row store.now.world file.now) ≡ Some e) }
{
    let Some(socket) = store.holdings().socket(file) else {
        return Ok(());
    };
    let is_deaf = socket.ends().no_input;
    if is_deaf || socket.queue().len() >= MAX_MESSAGES {
        return Err(why_not(is_deaf));
    }
    Ok(())
}

/// Returns why a socket that takes no message does not. Stands apart, since few sends need it.
#[cold]
#[inline(never)]
fn why_not(is_deaf: bool) -> Errno
    ensures deaf { is_deaf ≡ true → result ≡ Errno.EPIPE }
    ensures full { is_deaf ≡ false → result ≡ Errno.EAGAIN }
{
    if is_deaf { Errno::EPIPE } else { Errno::EAGAIN }
}

/// Returns whether the peer of the socket was freed, or both its ends are closed.
fn is_cut_off(socket: &Socket) -> bool
    ensures { result ≡ is_cut_off socket.now }
{
    let ends = socket.ends();
    matches!(socket.state(), State::HungUp) || (ends.no_input && ends.no_output)
}
