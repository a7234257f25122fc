//! Steps that send and receive.
ghost use Rattle.std.specs.Prelude.{◌≡◌, ◌≤◌, ◌<◌, [], Some, None, IfOk, IfErr, OnOk, length};
ghost use Rattle.std.specs.Prelude.{◌-◌, IfNone, IfSome, IsOk, false, filter_map, nat_le, nat_lt};
ghost use Rattle.std.specs.Prelude.{not};
ghost use Rattle.std.specs.Prelude.{◌&&◌, true, ℕ};
ghost use Rattle.std.specs.FinMap as map;
ghost use Rattle.af_base.specs.Changes.{push_message};
ghost use Rattle.af_base.specs.Pass.{SamePass};
ghost use Rattle.af_base.specs.Refusals.{first_fit, is_connected, on_parts, on_receive, peer_of};
ghost use Rattle.af_base.specs.Refusals.{is_datagram, process_at, refusal, socket_at};
ghost use Rattle.af_base.specs.Steps.{effect};
ghost use Rattle.af_base.specs.Unheld.{Settles};
ghost use Rattle.af_base.specs.Whole.{IsWhole};
ghost use Rattle.af_collect.specs.Receiving.{CanReceive};
ghost use Rattle.af_collect.specs.StoreView.{room_at};
ghost use Rattle.af_steps.specs.Found.{HasEnd, HasMessage, IsSocketOf};
ghost use Rattle.af_steps.specs.Outcome.{Does, Refuses, got_reply, step_error};
ghost use Rattle.af_steps.specs.MessageRoom.{HasRoomForMessage, goal_row, message_in, room_row};
ghost use Rattle.af_steps.specs.Rooms.{CannotFail};
ghost use Rattle.af_table.specs.Rooms.{IsOpenFrom};

use crate::engine::Engine;
use crate::lookups::socket_on;
use crate::ready::check_target;
use crate::sockets::check_takes;
use af_base::errno::Errno;
use af_base::events::{Reply, State, Step};
use af_base::ids::{Fd, FileRef, Pid, Uid};
use af_base::items::{Bytes, Fds, Items};
use af_base::limits::{MAX_BYTES, SCM_MAX_FD};
use af_collect::Store;
use af_desc::Socket;
use af_queue::{Attached, Msg, Taken};
use af_table::{FreeFds, Process};
use smallvec::SmallVec;
use std::alloc::AllocError;

/// The result of a receive or a peek (recvmsg(2)).
#[derive(Debug, PartialEq, Eq, Drop)]
pub enum Received {
    /// Bytes, and the numbers at which descriptors were installed.
    Got {
        bytes: Bytes,
        fds: Fds,
        /// Bytes of the message were dropped (MSG_TRUNC).
        trunc: bool,
        /// Descriptors of the message were not installed (MSG_CTRUNC).
        ctrunc: bool,
    },
    /// Nothing is left to receive, and the peer was freed or the input is closed: recvmsg(2)
    /// answers 0.
    End,
}

impl From<Received> for Reply {
    ghost from_gives = { λ received r. r ≡ got_reply received };

    #[inline(always)]
    fn from(received: Received) -> Reply {
        match received {
            Received::Got {
                bytes,
                fds,
                trunc,
                ctrunc,
            } => Reply::Got {
                bytes,
                fds,
                trunc,
                ctrunc,
            },
            Received::End => Reply::End,
        }
    }
}

/// A message without its bytes, and the socket whose queue it joins.
#[derive(Drop)]
struct Envelope {
    peer: FileRef,
    attached: Attached,
    user: Uid,
}

/// The socket that a receive takes from, and whether the process has room for each descriptor
/// below its limit.
#[derive(Drop)]
struct ReceivingSocket {
    file: FileRef,
    has_room: bool,
}

impl Engine {
    /// Sends bytes from a process, with the files of the descriptors `attach` (sendmsg(2)): the
    /// step `Send`, for a caller that keeps the bytes and descriptors. They are copied once.
    /// Returns how many bytes were sent. Refused, in this order: ESRCH, EBADF, ENOTSOCK, EINVAL (no
    /// byte, or over 253 descriptors), EMSGSIZE (over 65,536 bytes), EBADF of an attached
    /// descriptor, ENOTCONN, EPIPE (the peer is gone, or the output is closed), ENOTCONN (a
    /// datagram socket without a target), ECONNREFUSED (its target was freed), EPERM (that sends to
    /// another), ETOOMANYREFS, ENOBUFS, EPIPE (the input of the peer or target is closed), EAGAIN,
    /// ENOMEM.
    pub fn send(&mut self, pid: Pid, on: Fd, bytes: &[u8], attach: &[Fd]) -> Result<u32, Errno>
        ensures done { IfOk result (λ count.
            Does self.old pid (Step.Send on bytes.now attach.now) (Reply.Sent count) self.new) }
        ensures refused { IfErr result (λ e.
            Refuses self.old pid (Step.Send on bytes.now attach.now) e self.new) }
    {
        let envelope = self.prepare_send(pid, on, bytes, attach)?;
        let bytes = Items::of_small(SmallVec::from_slice(self.alloc, bytes)?);
        self.commit_send(envelope, bytes)
    }

    /// Sends likewise bytes that the caller gives away: they are not copied, and the message keeps
    /// their memory, with its spare room. A refusal drops them. The refusals are those of `send`.
    pub fn send_owned(
        &mut self,
        pid: Pid,
        on: Fd,
        bytes: Bytes,
        attach: &[Fd],
    ) -> Result<u32, Errno>
        ensures done { IfOk result (λ count.
            Does self.old pid (Step.Send on bytes attach.now) (Reply.Sent count) self.new) }
        ensures refused { IfErr result (λ e.
            Refuses self.old pid (Step.Send on bytes attach.now) e self.new) }
    {
        let envelope = self.prepare_send(pid, on, bytes.as_slice(), attach)?;
        self.commit_send(envelope, bytes)
    }

    /// Returns the queue, the files and the charge of the message, or why it cannot be sent.
    #[inline(always)]
    fn prepare_send(&self, pid: Pid, on: Fd, bytes: &[u8], attach: &[Fd]) -> Result<Envelope, Errno>
        ensures fits { OnOk result
            (refusal self.now.world pid (Step.Send on bytes.now attach.now) ≡ None) }
        ensures leads { IfOk result (λ e.
            effect self.now.world pid (Step.Send on bytes.now attach.now)
            ≡ push_message self.now.world e.peer (message_in e bytes.now)) }
        ensures room { IfOk result (λ e.
            HasRoomForMessage self.now.world e.peer (message_in e bytes.now)) }
        ensures refused { IfErr result (λ e.
            Refuses self.now pid (Step.Send on bytes.now attach.now) e self.now) }
    {
        let (process, file, socket) = socket_on(&self.store, pid, on)?;
        let mut attached = SmallVec::new(self.alloc);
        check_parts(process, bytes, attach, &mut attached)?;
        let peer = peer_of(&self.store, &file, &socket)?;
        let user = check_room(&self.store, process, &peer, attach.len())?;
        // The list is short where memory for it was refused.
        if attached.len() < attach.len() {
            return Err(Errno::ENOMEM);
        }
        Ok(Envelope {
            peer,
            attached,
            user,
        })
    }

    /// Appends the bytes to the queue that the envelope names, and returns how many they are. If
    /// memory is refused, nothing has changed.
    #[inline(always)]
    fn commit_send(&mut self, envelope: Envelope, bytes: Bytes) -> Result<u32, Errno>
        requires { HasRoomForMessage self.old.world envelope.peer (message_in envelope bytes) }
        ensures count { IfOk result (λ count. count ≡ length bytes) }
        ensures settles { OnOk result (Settles (push_message self.old.world envelope.peer
            (message_in envelope bytes)) self.new.world) }
        ensures pass { OnOk result (SamePass self.old self.new) }
        ensures err { IfErr result (λ e. (e ≡ Errno.ENOMEM) × (self.new ≡ self.old)) }
    {
        let count = bytes.len() as u32;
        // A file in a table is no garbage of a running pass.
        self.store.lemma_is_spared();
        self.store.room_for_message()?;
        let message = Msg::new(bytes, envelope.attached, envelope.user);
        self.store.put_msg(&envelope.peer, message);
        self.store.release();
        Ok(count)
    }

    /// Receives at most `max_bytes` bytes and `max_fds` descriptors (recvmsg(2)). A packet's bytes
    /// beyond `max_bytes` are dropped (recvmsg(2), MSG_TRUNC); a stream's wait for the next
    /// receive. Descriptors beyond `max_fds` or the free numbers are closed (unix(7), SCM_RIGHTS;
    /// MSG_CTRUNC). Needs no memory for a packet that brings no descriptors, or up to 4 where the
    /// highest below the process's limit is open. Refused, in this order: ESRCH, EBADF, ENOTSOCK,
    /// EINVAL (`max_bytes` is not 1 to 65,536), ENOTCONN, EAGAIN, ENOMEM.
    // Kept apart: DECISIONS.md, "Answers are zeroed".
    #[inline(never)]
    pub fn recv(
        &mut self,
        pid: Pid,
        on: Fd,
        max_bytes: u32,
        max_fds: u32,
    ) -> Result<Received, Errno>
        ensures done { IfOk result (λ got.
            Does self.old pid (Step.Recv on max_bytes max_fds) (got_reply got) self.new) }
        ensures refused { IfErr result (λ e.
            Refuses self.old pid (Step.Recv on max_bytes max_fds) e self.new) }
        ensures succeeds { CannotFail self.old.world pid (Step.Recv on max_bytes max_fds)
            → IsOk result }
    {
        let mut fds = FreeFds::new(self.alloc);
        let mut taken = Taken::nothing(self.alloc);
        let Some(file) = prepare_receive(&mut self.store, pid, on, max_bytes, max_fds, &mut fds)?
        else {
            return Ok(Received::End);
        };
        let max = max_bytes as usize;
        self.store
            .take_msg(&file, max, pid, fds.as_slice(), &mut taken)?;
        self.store.release();
        Ok(receive_answer(taken, fds))
    }

    /// Returns what a receive would take, which stays in the queue (recvmsg(2), MSG_PEEK). The
    /// files of installed descriptors are then in a table and in the queue, other files in the
    /// queue alone. A second peek sees the same. Refused, in this order: ESRCH, EBADF, ENOTSOCK,
    /// EINVAL (`max_bytes` is not 1 to 65,536), ENOTCONN, EAGAIN, ENOMEM.
    // Kept apart: DECISIONS.md, "Answers are zeroed".
    #[inline(never)]
    pub fn peek(
        &mut self,
        pid: Pid,
        on: Fd,
        max_bytes: u32,
        max_fds: u32,
    ) -> Result<Received, Errno>
        ensures done { IfOk result (λ got.
            Does self.old pid (Step.Peek on max_bytes max_fds) (got_reply got) self.new) }
        ensures refused { IfErr result (λ e.
            Refuses self.old pid (Step.Peek on max_bytes max_fds) e self.new) }
    {
        let mut fds = FreeFds::new(self.alloc);
        let Some(file) = prepare_receive(&mut self.store, pid, on, max_bytes, max_fds, &mut fds)?
        else {
            return Ok(Received::End);
        };
        let max = max_bytes as usize;
        let seen = self.store.peek_msg(&file, max, pid, fds.as_slice())?;
        self.store.release();
        Ok(receive_answer(seen, fds))
    }
}

/// Returns whether a process may send `bytes` with the descriptors `attach`, or why not. Appends
/// their files to an empty list, or none if memory is refused.
#[inline(always)]
fn check_parts(
    process: &Process,
    bytes: &[u8],
    attach: &[Fd],
    files: &mut Attached,
) -> Result<(), Errno>
    requires empty { files.old.items ≡ [] }
    ensures ok { OnOk result
        (first_fit (on_parts (map.get process.now.process.table) bytes.now attach.now) ≡ None) }
    ensures files { OnOk result (length attach.now ≤ length files.new.items
        → files.new.items ≡ filter_map (map.get process.now.process.table) attach.now) }
    ensures err { IfErr result (λ e.
        first_fit (on_parts (map.get process.now.process.table) bytes.now attach.now) ≡ Some e) }
{
    if bytes.is_empty() || attach.len() > SCM_MAX_FD {
        return Err(Errno::EINVAL);
    }
    if bytes.len() > MAX_BYTES {
        return Err(Errno::EMSGSIZE);
    }
    let has_room = reserve_files(files, attach.len()).is_ok();
    for fd in attach {
        let Some(file) = process.lookup(*fd) else {
            return Err(Errno::EBADF);
        };
        if has_room {
            files.push_reserved(file);
        }
    }
    Ok(())
}

/// Reserves room for `count` files in an empty list. Two files need no memory.
#[inline(always)]
fn reserve_files(files: &mut Attached, count: usize) -> Result<(), AllocError>
    requires empty { files.old.items ≡ [] }
    ensures empty { files.new.items ≡ [] }
    ensures room { OnOk result (count ≤ files.new.capacity) }
{
    if count > files.capacity() {
        *files = SmallVec::from_vec(Vec::with_capacity(*files.allocator(), count)?);
    }
    Ok(())
}

/// Returns the peer or target that a socket sends to, or why it cannot.
fn peer_of(store: &Store, file: &FileRef, socket: &Socket) -> Result<FileRef, Errno>
    requires { IsSocketOf store.now.world file.now socket.now }
    ensures ok { OnOk result
        (first_fit (goal_row store.now.world file.now socket.now) ≡ None) }
    ensures peer { IfOk result (λ peer. peer ≡ peer_of socket.now.state) }
    ensures err { IfErr result (λ e.
        first_fit (goal_row store.now.world file.now socket.now) ≡ Some e) }
{
    if let Some(peer) = socket.peer() {
        if socket.ends().no_output {
            return Err(Errno::EPIPE);
        }
        return Ok(peer);
    }
    // A copy, so that few sends have to keep it in memory.
    let file = file.duplicate();
    target_of(store, &file)
}

/// Returns the target that a socket without a peer sends to, or why it cannot. Stands apart, since
/// most sends go to a peer.
#[inline(never)]
pub(crate) fn target_of(store: &Store, file: &FileRef) -> Result<FileRef, Errno>
    requires whole { IsWhole store.now.world }
    requires alone { IfSome (socket_at store.now.world file.now) (λ s.
        (peer : ℕ) → ¬ (s.state ≡ State.Connected peer)) }
    ensures ok { OnOk result (IfSome (socket_at store.now.world file.now) (λ s.
        first_fit (goal_row store.now.world file.now s) ≡ None)) }
    ensures target { IfOk result (λ target. IfSome (socket_at store.now.world file.now) (λ s.
        target ≡ peer_of s.state)) }
    ensures err { IfErr result (λ e. IfSome (socket_at store.now.world file.now) (λ s.
        first_fit (goal_row store.now.world file.now s) ≡ Some e)) }
{
    let Some(socket) = store.holdings().socket(file) else {
        return Err(Errno::ENOTCONN);
    };
    if let State::HungUp = socket.state() {
        return Err(Errno::EPIPE);
    }
    if !socket.is_datagram() {
        return Err(Errno::ENOTCONN);
    }
    if socket.ends().no_output {
        return Err(Errno::EPIPE);
    }
    let target = socket.target().ok_or(Errno::ENOTCONN)?;
    check_takes(store, file, &target)?;
    Ok(target)
}

/// Returns the user of a process, who is charged for `count` descriptors; or why they may not be in
/// flight, or why the peer takes no message.
#[inline(always)]
fn check_room(store: &Store, process: &Process, peer: &FileRef, count: usize) -> Result<Uid, Errno>
    ensures user { IfOk result (λ user. user ≡ process.now.process.user) }
    ensures ok { OnOk result
        (first_fit (room_row store.now.world process.now.process peer.now count) ≡ None) }
    ensures err { IfErr result (λ e.
        first_fit (room_row store.now.world process.now.process peer.now count) ≡ Some e) }
{
    let (user, limit, privileged) = process.who();
    store.holdings().may_send(user, limit, privileged, count)?;
    check_target(store, peer)?;
    Ok(user)
}

/// Returns the socket that a receive or a peek takes from, fills an empty list with the free
/// descriptors at which it installs files, and reserves room for these; `None` where nothing is
/// left to receive, and nothing can come. The refusals are those of `recv`. No process can see a
/// change, also on an error.
#[inline(always)]
fn prepare_receive(
    store: &mut Store,
    pid: Pid,
    on: Fd,
    max_bytes: u32,
    max_fds: u32,
    fds: &mut FreeFds,
) -> Result<Option<FileRef>, Errno>
    requires { fds.old.items ≡ [] }
    ensures world { store.new.world ≡ store.old.world }
    ensures pass { store.new.pass ≡ store.old.pass }
    ensures since { store.new.since ≡ store.old.since }
    ensures fits { OnOk result
        (refusal store.old.world pid (Step.Recv on max_bytes max_fds) ≡ None) }
    ensures message { IfOk result (λ found. IfSome found (λ file.
        HasMessage store.old.world pid on max_bytes max_fds file fds.new.items)) }
    ensures can { IfOk result (λ found. IfSome found (λ file.
        CanReceive store.new file max_bytes pid fds.new.items)) }
    ensures ended { IfOk result (λ found. IfNone found
        (HasEnd store.old.world pid on max_bytes max_fds)) }
    ensures refused { IfErr result (λ e.
        step_error store.old.world pid (Step.Recv on max_bytes max_fds) ≡ Some e) }
    ensures succeeds { CannotFail store.old.world pid (Step.Recv on max_bytes max_fds)
        → IsOk result }
{
    let Some(source) = find_message(store, pid, on, max_bytes, max_fds, fds)? else {
        return Ok(None);
    };
    // A file in a table is no garbage of a running pass.
    store.lemma_is_spared();
    make_room(store, &source, pid, fds)?;
    Ok(Some(source.file))
}

/// Returns the socket that a receive or a peek takes from, and fills an empty list with the free
/// descriptors at which it installs files; `None` where nothing is left to receive, and the peer
/// was freed. The refusals are those of `recv`.
#[inline(always)]
fn find_message(
    store: &Store,
    pid: Pid,
    on: Fd,
    max_bytes: u32,
    max_fds: u32,
    fds: &mut FreeFds,
) -> Result<Option<ReceivingSocket>, Errno>
    requires { fds.old.items ≡ [] }
    ensures fits { OnOk result
        (refusal store.now.world pid (Step.Recv on max_bytes max_fds) ≡ None) }
    ensures message { IfOk result (λ found. IfSome found (λ s.
        HasMessage store.now.world pid on max_bytes max_fds s.file fds.new.items)) }
    ensures room { IfOk result (λ found. IfSome found (λ s. s.has_room
        ≡ nat_le (process_at store.now.world pid).limit (room_at store.now pid))) }
    ensures open { IfOk result (λ found. IfSome found (λ s.
        IsOpenFrom (process_at store.now.world pid).table
        ((process_at store.now.world pid).limit - 1) → s.has_room ≡ true)) }
    ensures ended { IfOk result (λ found. IfNone found
        (HasEnd store.now.world pid on max_bytes max_fds)) }
    ensures refused { IfErr result (λ e.
        step_error store.now.world pid (Step.Recv on max_bytes max_fds) ≡ Some e) }
    ensures succeeds { CannotFail store.now.world pid (Step.Recv on max_bytes max_fds)
        → IsOk result }
{
    let (process, file, socket) = socket_on(store, pid, on)?;
    check_receive(&socket, max_bytes)?;
    if socket.queue().len() == 0 {
        return Ok(None);
    }
    let files = socket
        .queue()
        .files_in_receive(socket.kind(), max_bytes as usize);
    process.lowest_free(files.min(max_fds as usize), fds)?;
    Ok(Some(ReceivingSocket {
        file,
        has_room: process.has_room(),
    }))
}

/// Reserves room to install these descriptors of the process that receives, if there is none. No
/// process can see a change, also on an error.
#[inline(always)]
fn make_room(
    store: &mut Store,
    source: &ReceivingSocket,
    pid: Pid,
    fds: &FreeFds,
) -> Result<(), AllocError>
    requires { source.now.has_room
        ≡ nat_le (process_at store.old.world pid).limit (room_at store.old pid) }
    ensures world { store.new.world ≡ store.old.world }
    ensures pass { store.new.pass ≡ store.old.pass }
    ensures since { store.new.since ≡ store.old.since }
    ensures row { OnOk result (0 < length fds.now.items
        → (process_at store.old.world pid).limit ≤ room_at store.new pid) }
    ensures succeeds { (0 < length fds.now.items → source.now.has_room ≡ true) → IsOk result }
{
    if source.has_room || fds.is_empty() {
        return Ok(());
    }
    store.room_for(pid, fds.len())
}

/// Returns whether `max_bytes` bytes can be received from the socket, or why not.
#[inline(always)]
pub(crate) fn check_receive(socket: &Socket, max_bytes: u32) -> Result<(), Errno>
    ensures ok { OnOk result (first_fit (on_receive socket.now max_bytes) ≡ None) }
    ensures err { IfErr result (λ e. first_fit (on_receive socket.now max_bytes) ≡ Some e) }
{
    if max_bytes == 0 || max_bytes as usize > MAX_BYTES {
        return Err(Errno::EINVAL);
    }
    match socket.state() {
        State::Connected(_) if socket.queue().len() == 0 && !is_at_end(socket) => {
            Err(Errno::EAGAIN)
        }
        State::Connected(_) | State::HungUp => Ok(()),
        State::Idle | State::Listening(_) | State::Sends(_) => check_datagrams(socket),
    }
}

/// Returns whether the input of the socket is closed, and an empty receive tells it: a datagram
/// socket has no end.
#[inline(always)]
fn is_at_end(socket: &Socket) -> bool
    ensures { result ≡ (socket.now.ends.no_input && not (is_datagram socket.now.kind)) }
{
    socket.ends().no_input && !socket.is_datagram()
}

/// Returns whether a datagram waits at a socket without a peer, or why none is received.
#[inline(always)]
fn check_datagrams(socket: &Socket) -> Result<(), Errno>
    requires { is_connected socket.now.state ≡ false }
    ensures ok { OnOk result (first_fit (on_receive socket.now 1) ≡ None) }
    ensures err { IfErr result (λ e. first_fit (on_receive socket.now 1) ≡ Some e) }
{
    if !socket.is_datagram() {
        return Err(Errno::ENOTCONN);
    }
    if socket.queue().len() == 0 {
        return Err(Errno::EAGAIN);
    }
    Ok(())
}

/// Returns the answer to a receive or a peek, whose first files were installed at the descriptors
/// `fds`.
#[inline(always)]
fn receive_answer(taken: Taken, fds: FreeFds) -> Received
    ensures { result ≡ Received.Got taken.message.bytes fds.items taken.trunc
        (nat_lt (length fds.items) (length taken.message.attached)) }
{
    let trunc = taken.trunc();
    let ctrunc = taken.attached().len() > fds.len();
    Received::Got {
        bytes: taken.into_bytes(),
        fds: Fds::of_small(fds),
        trunc,
        ctrunc,
    }
}
