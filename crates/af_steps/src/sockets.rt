//! Steps that make sockets, name them and connect them.
ghost use Rattle.std.specs.Prelude.{◌≡◌, ◌++◌, ◌||◌, None, Some, IfErr, IfNone, IfOk, IfSome, IsOk};
ghost use Rattle.std.specs.Prelude.{OnOk, false, not, true};
ghost use Rattle.std.specs.List.{list_all};
ghost use Rattle.af_base.specs.Changes.{sends_elsewhere};
ghost use Rattle.af_base.specs.Names.{is_name, is_name_byte, named, set_of};
ghost use Rattle.af_base.specs.Refusals.{first_fit, is_connected, is_listening, on_accept};
ghost use Rattle.af_base.specs.Refusals.{on_bind, on_client, on_files, on_listen, on_listener};
ghost use Rattle.af_base.specs.Refusals.{on_target, refusal, socket_at, socket_named};
ghost use Rattle.af_base.specs.Refusals.{is_datagram, socket_on, target_named};
ghost use Rattle.af_base.specs.Whole.{IsWhole, fits_type};
ghost use Rattle.af_steps.specs.Found.{HasListener, HasTarget};
ghost use Rattle.af_steps.specs.Outcome.{Does, Refuses};
ghost use Rattle.af_steps.specs.Rooms.{CannotFail};

use crate::engine::Engine;
use crate::lookups::{descriptor_for_file, descriptors_for_pair, make_room_at, socket_on};
use af_base::errno::Errno;
use af_base::events::{Reply, Shutdown, SockType, State, Step};
use af_base::ids::{Fd, FileRef, Pid};
use af_base::limits::{MAX_BACKLOG, MAX_NAME};
use af_collect::Store;
use af_desc::Socket;

impl Engine {
    /// Makes two sockets that are connected to each other, or datagram sockets that send to each
    /// other (socketpair(2)). Returns their descriptors, the process's two lowest free ones,
    /// rising. Refused, in this order: ESRCH, EMFILE, ENFILE, ENOMEM.
    pub fn pair(&mut self, pid: Pid, kind: SockType) -> Result<(Fd, Fd), Errno>
        ensures done { IfOk result (λ fds.
            Does self.old pid (Step.Pair kind) (Reply.Fds fds.0 fds.1) self.new) }
        ensures refused { IfErr result (λ e. Refuses self.old pid (Step.Pair kind) e self.new) }
    {
        let (lower, higher) = descriptors_for_pair(&self.store, pid)?;
        self.store.pair_at(kind, pid, lower, higher)?;
        self.store.release();
        Ok((lower, higher))
    }

    /// Makes a socket (socket(2)). Returns its descriptor, the process's lowest free one. Refused,
    /// in this order: ESRCH, EMFILE, ENFILE, ENOMEM.
    pub fn socket(&mut self, pid: Pid, kind: SockType) -> Result<Fd, Errno>
        ensures done { IfOk result (λ fd.
            Does self.old pid (Step.Socket kind) (Reply.Fd fd) self.new) }
        ensures refused { IfErr result (λ e. Refuses self.old pid (Step.Socket kind) e self.new) }
    {
        let fd = descriptor_for_file(&self.store, pid)?;
        self.store.socket_at(kind, pid, fd)?;
        self.store.release();
        Ok(fd)
    }

    /// Gives a socket an abstract name (bind(2); unix(7)). Refused, in this order: ESRCH, EBADF,
    /// ENOTSOCK, EINVAL, EADDRINUSE, ENOMEM.
    pub fn bind(&mut self, pid: Pid, on: Fd, name: &[u8]) -> Result<(), Errno>
        ensures done { OnOk result (Does self.old pid (Step.Bind on name.now) Reply.Ok self.new) }
        ensures refused { IfErr result (λ e.
            Refuses self.old pid (Step.Bind on name.now) e self.new) }
    {
        let (_, file, socket) = socket_on(&self.store, pid, on)?;
        check_bind(&socket, name)?;
        if self
            .store
            .holdings()
            .files()
            .find_name(socket.kind(), name)
            .is_some()
        {
            return Err(Errno::EADDRINUSE);
        }
        self.store.bind(&file, name)?;
        self.store.release();
        Ok(())
    }

    /// Makes a socket a listener for at most `backlog` embryos (listen(2)). Refused, in this order:
    /// ESRCH, EBADF, ENOTSOCK, EOPNOTSUPP (a datagram socket), EINVAL (also where `backlog` is not
    /// 1 to 128), ENOMEM.
    pub fn listen(&mut self, pid: Pid, on: Fd, backlog: u32) -> Result<(), Errno>
        ensures done { OnOk result (Does self.old pid (Step.Listen on backlog) Reply.Ok self.new) }
        ensures refused { IfErr result (λ e.
            Refuses self.old pid (Step.Listen on backlog) e self.new) }
    {
        let (_, file, socket) = socket_on(&self.store, pid, on)?;
        check_listen(&socket, backlog)?;
        self.store.listen(&file, backlog)?;
        self.store.release();
        Ok(())
    }

    /// Connects a socket to the listener with the name `name`: to an embryo, which waits there to
    /// be accepted (connect(2)). A datagram socket sends to the one of this name from now on, which
    /// is its target. If it sent to another before, what waits to be received is lost. It needs no
    /// memory.
    ///
    /// Refused, in this order: ESRCH, EBADF, ENOTSOCK, EINVAL, EISCONN; of a datagram socket
    /// ECONNREFUSED, and EPERM (the target sends to another); of others ECONNREFUSED, EPROTOTYPE,
    /// EAGAIN, ENFILE, ENOMEM.
    pub fn connect(&mut self, pid: Pid, on: Fd, name: &[u8]) -> Result<(), Errno>
        ensures done { OnOk result
            (Does self.old pid (Step.Connect on name.now) Reply.Ok self.new) }
        ensures refused { IfErr result (λ e.
            Refuses self.old pid (Step.Connect on name.now) e self.new) }
    {
        let Some((client, listener, kind)) = find_listener(&self.store, pid, on, name)? else {
            return self.connect_datagrams(pid, on, name);
        };
        self.store.make_embryo(kind, &client, &listener)?;
        self.store.release();
        Ok(())
    }

    /// Connects a datagram socket, as `connect`.
    // Few events come here. Inlined, it would cost the others registers.
    #[cold]
    #[inline(never)]
    fn connect_datagrams(&mut self, pid: Pid, on: Fd, name: &[u8]) -> Result<(), Errno>
        requires { (socket_on self.old.world pid on).kind ≡ SockType.Dgram }
        ensures done { OnOk result
            (Does self.old pid (Step.Connect on name.now) Reply.Ok self.new) }
        ensures refused { IfErr result (λ e.
            Refuses self.old pid (Step.Connect on name.now) e self.new) }
    {
        let (socket, target, loses) = find_target(&self.store, pid, on, name)?;
        // A file in a table is no garbage of a running pass.
        self.store.lemma_is_spared();
        self.store.aim(&socket, Some(&target), loses);
        self.store.release();
        Ok(())
    }

    /// Leaves a datagram socket no target (connect(2) to AF_UNSPEC). If it had one, what waits to
    /// be received is lost. Needs no memory. Refused, in this order: ESRCH, EBADF, ENOTSOCK, EINVAL
    /// (no datagram socket).
    pub fn unconnect(&mut self, pid: Pid, on: Fd) -> Result<(), Errno>
        ensures done { OnOk result (Does self.old pid (Step.Unconnect on) Reply.Ok self.new) }
        ensures refused { IfErr result (λ e. Refuses self.old pid (Step.Unconnect on) e self.new) }
    {
        let (_, file, socket) = socket_on(&self.store, pid, on)?;
        if !socket.is_datagram() {
            return Err(Errno::EINVAL);
        }
        let loses = socket.target().is_some();
        // A file in a table is no garbage of a running pass.
        self.store.lemma_is_spared();
        self.store.aim(&file, None, loses);
        self.store.release();
        Ok(())
    }

    /// Closes the input of a socket, its output, or both, and with them the output or input of its
    /// peer (shutdown(2)); a datagram socket has none, and its target's ends stay. What waits in a
    /// queue can still be received. An end that is closed is never opened again. Needs no memory.
    /// Refused, in this order: ESRCH, EBADF, ENOTSOCK.
    pub fn shutdown(&mut self, pid: Pid, on: Fd, how: Shutdown) -> Result<(), Errno>
        ensures done { OnOk result (Does self.old pid (Step.Shutdown on how) Reply.Ok self.new) }
        ensures refused { IfErr result (λ e.
            Refuses self.old pid (Step.Shutdown on how) e self.new) }
    {
        let (_, file, socket) = socket_on(&self.store, pid, on)?;
        let peer = socket.peer();
        let (input, output) = (how.closes_input(), how.closes_output());
        self.store.shut(&file, input, output);
        if let Some(peer) = peer {
            self.store.shut(&peer, output, input);
        }
        self.store.release();
        Ok(())
    }

    /// Accepts the embryo that waits longest at a listener (accept(2)). Returns the embryo's new
    /// descriptor, the process's lowest free one. Needs no memory where a higher one is open.
    /// Refused, in this order: ESRCH, EBADF, ENOTSOCK, EOPNOTSUPP (a datagram socket), EINVAL,
    /// EAGAIN, EMFILE, ENOMEM.
    pub fn accept(&mut self, pid: Pid, on: Fd) -> Result<Fd, Errno>
        ensures done { IfOk result (λ fd.
            Does self.old pid (Step.Accept on) (Reply.Fd fd) self.new) }
        ensures refused { IfErr result (λ e. Refuses self.old pid (Step.Accept on) e self.new) }
        ensures succeeds { CannotFail self.old.world pid (Step.Accept on) → IsOk result }
    {
        let (process, file, socket) = socket_on(&self.store, pid, on)?;
        check_accept(&socket)?;
        let fd = process.lowest().ok_or(Errno::EMFILE)?;
        let has_room = process.has_room_at(fd);
        // A file in a table is no garbage of a running pass.
        self.store.lemma_is_spared();
        make_room_at(&mut self.store, pid, fd, has_room)?;
        self.store.take_embryo(&file, pid, fd);
        self.store.release();
        Ok(fd)
    }
}

/// Returns the socket that connects, the listener of `name`, and their type; or why the socket
/// cannot connect. `None` for a datagram socket.
#[inline(always)]
fn find_listener(
    store: &Store,
    pid: Pid,
    on: Fd,
    name: &[u8],
) -> Result<Option<(FileRef, FileRef, SockType)>, Errno>
    requires { IsWhole store.now.world }
    ensures fits { IfOk result (λ found. IfSome found (λ _.
        refusal store.now.world pid (Step.Connect on name.now) ≡ None)) }
    ensures found { IfOk result (λ found. IfSome found (λ found.
        HasListener store.now.world pid on name.now found.0 found.1 found.2)) }
    ensures datagrams { IfOk result (λ found. IfNone found
        ((socket_on store.now.world pid on).kind ≡ SockType.Dgram)) }
    ensures refused { IfErr result (λ e.
        refusal store.now.world pid (Step.Connect on name.now) ≡ Some e) }
{
    let (_, socket, client) = socket_on(store, pid, on)?;
    check_client(&client)?;
    if client.is_datagram() {
        return Ok(None);
    }
    let kind = client.kind();
    let listener = named_listener(store, kind, name)?;
    Ok(Some((socket, listener, kind)))
}

/// Returns the listener of `name`, with room for an embryo of type `kind`; or why there is none.
#[inline(always)]
fn named_listener(store: &Store, kind: SockType, name: &[u8]) -> Result<FileRef, Errno>
    ensures fits { OnOk result (first_fit (on_listener (socket_named store.now.world kind name.now)
        kind ++ on_files store.now.world 1) ≡ None) }
    ensures found { IfOk result (λ f.
        named store.now.world.files (set_of kind) name.now ≡ Some f) }
    ensures refused { IfErr result (λ e. first_fit (on_listener
        (socket_named store.now.world kind name.now) kind ++ on_files store.now.world 1)
        ≡ Some e) }
{
    let holdings = store.holdings();
    let listener = holdings
        .files()
        .find_name(kind, name)
        .ok_or(Errno::ECONNREFUSED)?;
    check_listener(&holdings.socket(&listener).unwrap(), kind)?;
    if holdings.files().is_full(1) {
        return Err(Errno::ENFILE);
    }
    Ok(listener)
}

/// Returns the datagram socket that connects, its target of `name`, and whether it sent to another;
/// or why the socket cannot connect.
fn find_target(
    store: &Store,
    pid: Pid,
    on: Fd,
    name: &[u8],
) -> Result<(FileRef, FileRef, bool), Errno>
    requires { (socket_on store.now.world pid on).kind ≡ SockType.Dgram }
    ensures fits { OnOk result
        (refusal store.now.world pid (Step.Connect on name.now) ≡ None) }
    ensures found { IfOk result (λ found.
        HasTarget store.now.world pid on name.now found.0 found.1 found.2) }
    ensures refused { IfErr result (λ e.
        refusal store.now.world pid (Step.Connect on name.now) ≡ Some e) }
{
    let (_, socket, client) = socket_on(store, pid, on)?;
    check_client(&client)?;
    let target = named_target(store, &socket, name)?;
    let loses = sends_elsewhere(&client, &target);
    Ok((socket, target, loses))
}

/// Returns the datagram socket of `name`, which takes from `socket`; or why there is none.
fn named_target(store: &Store, socket: &FileRef, name: &[u8]) -> Result<FileRef, Errno>
    ensures fits { OnOk result (first_fit (on_target socket.now
        (target_named store.now.world SockType.Dgram name.now)) ≡ None) }
    ensures found { IfOk result (λ f.
        named store.now.world.files (set_of SockType.Dgram) name.now ≡ Some f) }
    ensures refused { IfErr result (λ e. first_fit (on_target socket.now
        (target_named store.now.world SockType.Dgram name.now)) ≡ Some e) }
{
    let target = store
        .holdings()
        .files()
        .find_name(SockType::Dgram, name)
        .ok_or(Errno::ECONNREFUSED)?;
    check_takes(store, socket, &target)?;
    Ok(target)
}

/// Returns whether the socket `target` is live and takes from `socket`, or why not: a datagram
/// socket that sends to another takes from that one alone.
pub(crate) fn check_takes(store: &Store, socket: &FileRef, target: &FileRef) -> Result<(), Errno>
    ensures ok { OnOk result (first_fit
        (on_target socket.now (socket_at store.now.world target.now)) ≡ None) }
    ensures err { IfErr result (λ e. first_fit
        (on_target socket.now (socket_at store.now.world target.now)) ≡ Some e) }
{
    let there = store.holdings().socket(target).ok_or(Errno::ECONNREFUSED)?;
    if sends_elsewhere(&there, socket) {
        return Err(Errno::EPERM);
    }
    Ok(())
}

/// Returns whether the socket sends to another than `target`.
fn sends_elsewhere(socket: &Socket, target: &FileRef) -> bool
    ensures { result ≡ sends_elsewhere target.now socket.now.state }
{
    match socket.target() {
        Some(other) => other.ino() != target.ino(),
        None => false,
    }
}

/// Returns whether the socket can have the name `name`, or why not.
fn check_bind(socket: &Socket, name: &[u8]) -> Result<(), Errno>
    ensures ok { OnOk result (first_fit (on_bind socket.now name.now) ≡ None) }
    ensures err { IfErr result (λ e. first_fit (on_bind socket.now name.now) ≡ Some e) }
{
    if socket.name().is_some() || !is_new(socket) || !is_name(name) {
        return Err(Errno::EINVAL);
    }
    Ok(())
}

/// Returns whether the socket can become a listener for `backlog` embryos, or why not.
fn check_listen(socket: &Socket, backlog: u32) -> Result<(), Errno>
    ensures ok { OnOk result (first_fit (on_listen socket.now backlog) ≡ None) }
    ensures err { IfErr result (λ e. first_fit (on_listen socket.now backlog) ≡ Some e) }
{
    if socket.is_datagram() {
        return Err(Errno::EOPNOTSUPP);
    }
    if socket.name().is_none() || !is_new(socket) || backlog == 0 || backlog > MAX_BACKLOG {
        return Err(Errno::EINVAL);
    }
    Ok(())
}

/// Returns whether the socket can connect, or why not.
fn check_client(socket: &Socket) -> Result<(), Errno>
    ensures ok { OnOk result (first_fit (on_client socket.now.state) ≡ None) }
    ensures err { IfErr result (λ e. first_fit (on_client socket.now.state) ≡ Some e) }
{
    match socket.state() {
        State::Idle | State::Sends(_) => Ok(()),
        State::Listening(_) => Err(Errno::EINVAL),
        State::Connected(_) | State::HungUp => Err(Errno::EISCONN),
    }
}

/// Returns whether a socket of type `kind` can connect to `socket`, or why not.
fn check_listener(socket: &Socket, kind: SockType) -> Result<(), Errno>
    ensures ok { OnOk result (first_fit (on_listener socket.now kind) ≡ None) }
    ensures err { IfErr result (λ e. first_fit (on_listener socket.now kind) ≡ Some e) }
{
    let State::Listening(most) = socket.state() else {
        return Err(Errno::ECONNREFUSED);
    };
    if socket.ends().no_input {
        return Err(Errno::ECONNREFUSED);
    }
    if socket.kind() != kind {
        return Err(Errno::EPROTOTYPE);
    }
    if socket.embryos() >= most as usize {
        return Err(Errno::EAGAIN);
    }
    Ok(())
}

/// Returns whether an embryo waits at the socket to be accepted, or why not.
pub(crate) fn check_accept(socket: &Socket) -> Result<(), Errno>
    requires { fits_type socket.now.kind socket.now.state ≡ true }
    ensures ok { OnOk result (first_fit (on_accept socket.now) ≡ None) }
    ensures err { IfErr result (λ e. first_fit (on_accept socket.now) ≡ Some e) }
{
    let State::Listening(_) = socket.state() else {
        return Err(why_no_accept(socket));
    };
    if socket.embryos() == 0 {
        return Err(Errno::EAGAIN);
    }
    Ok(())
}

/// Returns why no embryo can be accepted at a socket that does not listen.
#[inline(always)]
fn why_no_accept(socket: &Socket) -> Errno
    ensures datagrams { is_datagram socket.now.kind ≡ true → result ≡ Errno.EOPNOTSUPP }
    ensures connections { is_datagram socket.now.kind ≡ false → result ≡ Errno.EINVAL }
{
    if socket.is_datagram() {
        Errno::EOPNOTSUPP
    } else {
        Errno::EINVAL
    }
}

/// Returns whether the socket was never connected to a peer and does not listen.
fn is_new(socket: &Socket) -> bool
    ensures { result ≡ not (is_connected socket.now.state || is_listening socket.now.state) }
{
    matches!(socket.state(), State::Idle | State::Sends(_))
}

/// Returns whether `bytes` are a name: 1 to 107 digits, letters, `-`, `.` and `_` (unix(7),
/// sun_path).
fn is_name(bytes: &[u8]) -> bool
    ensures { result ≡ is_name bytes.now }
{
    !bytes.is_empty() && bytes.len() <= MAX_NAME && are_name_bytes(bytes)
}

/// Returns whether a name may have each of `bytes`.
fn are_name_bytes(bytes: &[u8]) -> bool
    ensures { result ≡ list_all is_name_byte bytes.now }
{
    bytes.iter().all(|byte| is_name_byte(*byte))
}

/// Returns whether a name may have `byte`.
fn is_name_byte(byte: u8) -> bool
    ensures { result ≡ is_name_byte byte }
{
    byte.is_ascii_alphanumeric() || matches!(byte, b'-' | b'.' | b'_')
}
