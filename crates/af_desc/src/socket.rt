//! The kind of a file, without a queue, and a socket as a whole, lent for reading.
ghost use Rattle.std.specs.Prelude.{◌≡◌, ℕ, ◌∷◌, [], ◌<◌, OnOk, OnErr, IfSome, IfNone, None, false};
ghost use Rattle.std.specs.Prelude.{Some, true, drop, is_none, is_some, length, option_copied};
ghost use Rattle.std.specs.Prelude.{option_map, unwrap_or};
ghost use Rattle.std.specs.Option.{option_and_then, option_map_or};
ghost use Rattle.af_base.specs.Changes.{connected, dequeued, listening, queued, sending_to};
ghost use Rattle.af_base.specs.Changes.{shut, with_name};
ghost use Rattle.af_base.specs.Refusals.{is_datagram, room_of};
ghost use Rattle.af_base.specs.Steps.{connected_socket, idle_socket, paired_socket, paired_state};
ghost use Rattle.af_desc.specs.FilesView.{hung_up, paired_with, turned};
ghost use Rattle.af_desc.specs.Form.{embryos_of, kind_of, shown, state_of};
ghost use Rattle.af_desc.specs.FileTableView.{refilled};

use af_base::events::{Ends, SockType, State};
use af_base::ids::FileRef;
use af_base::items::Bytes;
use af_listen::Backlog;
use af_queue::Queue;
use std::alloc::{AllocError, Global};
use std::marker::Model;

/// The kind of a file: plain, or a socket without its queue. A contract sees a socket with an empty
/// queue, and `None` for a plain file.
#[derive(Drop)]
pub struct FileKind {
    form: Form,
}

/// A plain file, or the form of a socket, with its type and with what shutdown(2) has closed. Most
/// sockets have no name, and take no memory of their own.
#[derive(Drop)]
enum Form {
    /// Is no socket.
    Plain,
    /// Has no name, and was never connected.
    Idle(SockType, Ends),
    /// Has no name, and is connected to a live peer.
    Connected(SockType, Ends, FileRef),
    /// Has no name, and sends to this target, live or freed.
    Sends(SockType, Ends, FileRef),
    /// Has no name, and was connected; the peer was freed.
    HungUp(SockType, Ends),
    /// Has a name.
    Named(SockType, Ends, Box<NamedSocket>),
}

/// A socket with a name, and the embryos that wait there: none, until it listens.
#[derive(Drop)]
struct NamedSocket {
    link: Link,
    name: Bytes,
    backlog: Backlog,
}

/// A connection state, which finds the peer as a file. A contract sees it as a `State`.
#[derive(Drop)]
enum Link {
    /// Never connected, and not listening.
    Idle,
    /// Waits for connections, at most this many at a time.
    Listening(u32),
    /// Connected to a live peer.
    Connected(FileRef),
    /// Was connected; the peer was freed.
    HungUp,
    /// Sends to this target, live or freed.
    Sends(FileRef),
}

impl Model for FileKind {
    ghost use Rattle.std.specs.Prelude.{◌≤◌, Option};
    ghost use Rattle.af_base.specs.Refusals.{room_of};
    ghost use Rattle.af_base.specs.World as world;
    ghost use Rattle.af_desc.specs.Form.{kind_of, most_of, shown};

    ghost Value = { Option world.Socket };

    ghost view = { λ a. kind_of a.form };

    ghost invariant = { λ a. room_of (shown a.form).state ≤ most_of a.form };
}

impl FileKind {
    /// Makes the kind of a plain file.
    #[inline(always)]
    pub fn plain() -> FileKind
        ensures { result ≡ None }
    {
        FileKind { form: Form::Plain }
    }

    /// Makes a new socket that was never connected.
    pub fn new_idle(kind: SockType) -> FileKind
        ensures { result ≡ Some (idle_socket kind) }
    {
        FileKind {
            form: Form::Idle(kind, Ends::open()),
        }
    }

    /// Makes a new socket that is connected to that one.
    pub fn new_connected(kind: SockType, peer: &FileRef) -> FileKind
        ensures { result ≡ Some (connected_socket kind peer.now) }
    {
        FileKind {
            form: Form::Connected(kind, Ends::open(), peer.duplicate()),
        }
    }

    /// Makes a new socket of a pair with that one: connected to it, or a datagram socket that sends
    /// there.
    pub fn new_paired(kind: SockType, other: &FileRef) -> FileKind
        ensures { result ≡ Some (paired_socket kind other.now) }
    {
        FileKind {
            form: Form::paired(kind, Ends::open(), other),
        }
    }

    /// Does nothing at run time. Shows that the queue here is empty.
    pub fn lemma_is_silent(&self)
        ensures { IfSome self.now (λ s. s.queue ≡ []) }
    {
        // Each form says it.
        match &self.form {
            Form::Plain
            | Form::Idle(_, _)
            | Form::Connected(_, _, _)
            | Form::HungUp(_, _)
            | Form::Sends(_, _, _)
            | Form::Named(_, _, _) => {}
        }
    }

    /// Returns whether the file is a socket.
    #[inline(always)]
    pub fn is_socket(&self) -> bool
        ensures { result ≡ is_some self.now }
    {
        !matches!(&self.form, Form::Plain)
    }

    /// Returns the form of a socket; `None` for a plain file.
    #[inline(always)]
    fn socket_form(&self) -> Option<&Form>
        ensures { option_map (λ f. shown f.now) result ≡ self.now }
    {
        match &self.form {
            Form::Plain => None,
            Form::Idle(_, _)
            | Form::Connected(_, _, _)
            | Form::HungUp(_, _)
            | Form::Sends(_, _, _)
            | Form::Named(_, _, _) => Some(&self.form),
        }
    }

    /// Lends the socket, with its queue; `None` for a plain file.
    #[inline(always)]
    pub fn socket<'a>(&'a self, queue: Queue<'a>) -> Option<Socket<'a>>
        ensures { result ≡ option_map (refilled queue.entry) self.now }
    {
        let form = self.socket_form()?;
        Some(Socket { form, queue })
    }

    /// Returns the live peer of a connected socket.
    #[inline(always)]
    pub fn peer(&self) -> Option<FileRef>
        ensures some { IfSome result (λ peer.
            option_map (λ s. s.state) self.now ≡ Some (State.Connected peer)) }
        ensures none { IfNone result
            ((peer : ℕ) → ¬ (option_map (λ s. s.state) self.now ≡ Some (State.Connected peer))) }
    {
        self.socket_form()?.peer()
    }

    /// Returns the socket's type; of a plain file, that of streams.
    #[inline(always)]
    pub fn kind(&self) -> SockType
        ensures { IfSome self.now (λ s. result ≡ s.kind) }
    {
        self.form.kind()
    }

    /// Returns the abstract name, if there is one (unix(7)).
    #[inline(always)]
    pub fn name(&self) -> Option<&Bytes>
        ensures { option_copied result ≡ option_and_then (λ s. s.name) self.now }
    {
        let socket = self.socket_form()?.named()?;
        Some(&socket.name)
    }

    /// Sets the name of a socket. On an error nothing has changed.
    pub fn bind(&mut self, alloc: Global, name: Bytes) -> Result<(), AllocError>
        requires { IfSome self.old (λ s. s.name ≡ None) }
        ensures ok { OnOk result (self.new ≡ option_map (with_name name) self.old) }
        ensures err { OnErr result (self.new ≡ self.old) }
    {
        let Some(form) = self.socket_form() else {
            return Ok(());
        };
        let socket = NamedSocket {
            link: form.link(),
            name,
            backlog: Backlog::none(alloc),
        };
        self.form = Form::Named(form.kind(), form.ends(), Box::new(alloc, socket)?);
        Ok(())
    }

    /// Makes a socket, which has a name and no embryos, a listener for at most `most` embryos. On
    /// an error nothing has changed.
    pub fn listen(&mut self, alloc: Global, most: u32) -> Result<(), AllocError>
        requires named { IfSome self.old (λ s. is_none s.name ≡ false) }
        requires nobody { IfSome self.old (λ s. s.backlog ≡ []) }
        ensures ok { OnOk result (self.new ≡ option_map (listening most) self.old) }
        ensures err { OnErr result (self.new ≡ self.old) }
    {
        let backlog = Backlog::new(alloc, most)?;
        if let Form::Named(_, _, socket) = &mut self.form {
            socket.backlog = backlog;
            socket.link = Link::Listening(most);
        }
        Ok(())
    }

    /// Connects a socket to that one. Takes no memory.
    pub fn connect(&mut self, peer: &FileRef)
        ensures { self.new ≡ option_map (connected peer.now) self.old }
    {
        match &mut self.form {
            Form::Plain => {}
            Form::Named(_, _, socket) => socket.link = Link::Connected(peer.duplicate()),
            _ => {
                let form = &self.form;
                self.form = Form::Connected(form.kind(), form.ends(), peer.duplicate());
            }
        }
    }

    /// Makes a socket the other one of a pair with that one. Takes no memory.
    pub fn pair_with(&mut self, other: &FileRef)
        ensures { self.new ≡ option_map (paired_with other.now) self.old }
    {
        match &mut self.form {
            Form::Plain => {}
            Form::Named(kind, _, socket) => socket.link = Link::paired(*kind, other),
            _ => {
                let form = &self.form;
                self.form = Form::paired(form.kind(), form.ends(), other);
            }
        }
    }

    /// Lets a datagram socket send to `target`, or leaves it no target (connect(2)). Takes no
    /// memory.
    pub fn aim(&mut self, target: Option<&FileRef>)
        requires { IfSome (option_copied target) (λ to. 0 < to) }
        ensures { self.new
            ≡ option_map (turned (unwrap_or (option_copied target.entry) 0)) self.old }
    {
        match &mut self.form {
            Form::Plain => {}
            Form::Named(_, _, socket) => socket.link = Link::sending_to(target),
            _ => {
                let form = &self.form;
                self.form = Form::sending_to(form.kind(), form.ends(), target);
            }
        }
    }

    /// Appends an embryo to the backlog of a socket. Takes no memory.
    pub fn enqueue(&mut self, embryo: FileRef)
        requires { IfSome self.old (λ s. length s.backlog < room_of s.state) }
        ensures { self.new ≡ option_map (queued embryo) self.old }
    {
        if let Form::Named(_, _, socket) = &mut self.form {
            socket.backlog.enqueue(embryo);
        }
    }

    /// Removes the first embryo of a socket, if there is one. Takes no memory.
    #[inline(always)]
    pub fn dequeue(&mut self) -> Option<FileRef>
        ensures some { IfSome result (λ f. embryos_of self.old ≡ f ∷ drop 1 (embryos_of self.old)) }
        ensures none { IfNone result (embryos_of self.old ≡ []) }
        ensures rest { self.new ≡ option_map dequeued self.old }
    {
        match &mut self.form {
            Form::Named(_, _, socket) => socket.backlog.dequeue(),
            _ => None,
        }
    }

    /// Closes the input of a socket if `input` says so, and its output if `output` does
    /// (shutdown(2)). Takes no memory.
    pub fn shut(&mut self, input: bool, output: bool)
        ensures { self.new ≡ option_map (shut input output) self.old }
    {
        match &mut self.form {
            Form::Plain => {}
            Form::Idle(_, ends) => ends.close(input, output),
            Form::Connected(_, ends, _) => ends.close(input, output),
            Form::HungUp(_, ends) => ends.close(input, output),
            Form::Sends(_, ends, _) => ends.close(input, output),
            Form::Named(_, ends, _) => ends.close(input, output),
        }
    }

    /// Records that the peer of a socket was freed.
    pub fn hang_up(&mut self)
        ensures { self.new ≡ option_map hung_up self.old }
    {
        match &mut self.form {
            Form::Plain => {}
            Form::Named(_, _, socket) => socket.link = Link::HungUp,
            _ => self.form = Form::HungUp(self.form.kind(), self.form.ends()),
        }
    }
}

impl Form {
    /// Returns the form of a nameless socket of a pair with that one.
    #[inline(always)]
    fn paired(kind: SockType, ends: Ends, other: &FileRef) -> Form
        ensures { kind_of result ≡ Some (record (paired_socket kind other.now) { ends = ends }) }
    {
        match kind {
            SockType::Stream | SockType::Seqpacket => {
                Form::Connected(kind, ends, other.duplicate())
            }
            SockType::Dgram => Form::Sends(kind, ends, other.duplicate()),
        }
    }

    /// Returns the form of a nameless socket that sends to `target`, or has none.
    fn sending_to(kind: SockType, ends: Ends, target: Option<&FileRef>) -> Form
        requires { IfSome (option_copied target) (λ to. 0 < to) }
        ensures { kind_of result ≡ Some (record (idle_socket kind) {
          state = sending_to (unwrap_or (option_copied target.entry) 0);
          ends = ends;
        }) }
    {
        match target {
            Some(target) => Form::Sends(kind, ends, target.duplicate()),
            None => Form::Idle(kind, ends),
        }
    }

    /// Returns the socket's type.
    #[inline(always)]
    fn kind(&self) -> SockType
        ensures { result ≡ (shown self.now).kind }
    {
        match self {
            Form::Plain => SockType::Stream,
            Form::Idle(kind, _)
            | Form::Connected(kind, _, _)
            | Form::HungUp(kind, _)
            | Form::Sends(kind, _, _)
            | Form::Named(kind, _, _) => *kind,
        }
    }

    /// Returns what shutdown(2) has closed.
    #[inline(always)]
    fn ends(&self) -> Ends
        ensures { result ≡ (shown self.now).ends }
    {
        match self {
            Form::Plain => Ends::open(),
            Form::Idle(_, ends)
            | Form::Connected(_, ends, _)
            | Form::HungUp(_, ends)
            | Form::Sends(_, ends, _)
            | Form::Named(_, ends, _) => *ends,
        }
    }

    /// Returns the socket's connection state.
    #[inline(always)]
    fn state(&self) -> State
        ensures { result ≡ (shown self.now).state }
    {
        match self {
            Form::Plain | Form::Idle(_, _) => State::Idle,
            Form::Connected(_, _, peer) => State::Connected(peer.ino()),
            Form::HungUp(_, _) => State::HungUp,
            Form::Sends(_, _, target) => State::Sends(target.ino()),
            Form::Named(_, _, socket) => socket.link.state(),
        }
    }

    /// Returns a copy of the connection state, which finds the peer as a file.
    fn link(&self) -> Link
        ensures { state_of result ≡ (shown self.now).state }
    {
        match self {
            Form::Plain | Form::Idle(_, _) => Link::Idle,
            Form::Connected(_, _, peer) => Link::Connected(peer.duplicate()),
            Form::HungUp(_, _) => Link::HungUp,
            Form::Sends(_, _, target) => Link::Sends(target.duplicate()),
            Form::Named(_, _, socket) => socket.link.duplicate(),
        }
    }

    /// Returns the live peer, if there is one.
    #[inline(always)]
    fn peer(&self) -> Option<FileRef>
        ensures some { IfSome result (λ peer. (shown self.now).state ≡ State.Connected peer) }
        ensures none { IfNone result
            ((peer : ℕ) → ¬ ((shown self.now).state ≡ State.Connected peer)) }
    {
        match self {
            Form::Connected(_, _, peer) => Some(peer.duplicate()),
            Form::Plain | Form::Idle(_, _) | Form::HungUp(_, _) | Form::Sends(_, _, _) => None,
            Form::Named(_, _, socket) => socket.link.peer(),
        }
    }

    /// Returns the target of a datagram socket, live or freed, if it has one.
    fn target(&self) -> Option<FileRef>
        ensures some { IfSome result (λ to. (shown self.now).state ≡ State.Sends to) }
        ensures none { IfNone result ((to : ℕ) → ¬ ((shown self.now).state ≡ State.Sends to)) }
    {
        match self {
            Form::Sends(_, _, target) => Some(target.duplicate()),
            Form::Plain | Form::Idle(_, _) | Form::HungUp(_, _) | Form::Connected(_, _, _) => None,
            Form::Named(_, _, socket) => socket.link.target(),
        }
    }

    /// Returns the parts of a socket with a name.
    #[inline(always)]
    fn named(&self) -> Option<&NamedSocket>
        ensures name { option_map (λ s. s.now.name) result ≡ (shown self.now).name }
        ensures backlog { option_map_or (λ s. s.now.backlog.waiting) result []
            ≡ (shown self.now).backlog }
    {
        match self {
            Form::Named(_, _, socket) => Some(socket),
            Form::Plain
            | Form::Idle(_, _)
            | Form::Connected(_, _, _)
            | Form::HungUp(_, _)
            | Form::Sends(_, _, _) => None,
        }
    }
}

impl Link {
    /// Returns the state of a socket of a pair with that one.
    fn paired(kind: SockType, other: &FileRef) -> Link
        ensures { state_of result ≡ paired_state kind other.now }
    {
        match kind {
            SockType::Stream | SockType::Seqpacket => Link::Connected(other.duplicate()),
            SockType::Dgram => Link::Sends(other.duplicate()),
        }
    }

    /// Returns the state of a socket that sends to `target`, or has none.
    fn sending_to(target: Option<&FileRef>) -> Link
        requires { IfSome (option_copied target) (λ to. 0 < to) }
        ensures { state_of result ≡ sending_to (unwrap_or (option_copied target.entry) 0) }
    {
        match target {
            Some(target) => Link::Sends(target.duplicate()),
            None => Link::Idle,
        }
    }

    /// Returns a copy of this state.
    fn duplicate(&self) -> Link
        ensures { result ≡ self.now }
    {
        match self {
            Link::Idle => Link::Idle,
            Link::Listening(most) => Link::Listening(*most),
            Link::Connected(peer) => Link::Connected(peer.duplicate()),
            Link::HungUp => Link::HungUp,
            Link::Sends(target) => Link::Sends(target.duplicate()),
        }
    }

    /// Returns the state without the hint.
    #[inline(always)]
    fn state(&self) -> State
        ensures { result ≡ state_of self.now }
    {
        match self {
            Link::Idle => State::Idle,
            Link::Listening(most) => State::Listening(*most),
            Link::Connected(peer) => State::Connected(peer.ino()),
            Link::HungUp => State::HungUp,
            Link::Sends(target) => State::Sends(target.ino()),
        }
    }

    /// Returns the live peer of a connection.
    #[inline(always)]
    fn peer(&self) -> Option<FileRef>
        ensures some { IfSome result (λ peer. state_of self.now ≡ State.Connected peer) }
        ensures none { IfNone result ((peer : ℕ) → ¬ (state_of self.now ≡ State.Connected peer)) }
    {
        match self {
            Link::Connected(peer) => Some(peer.duplicate()),
            Link::Idle | Link::Listening(_) | Link::HungUp | Link::Sends(_) => None,
        }
    }

    /// Returns the target of a datagram socket, live or freed, if it has one.
    fn target(&self) -> Option<FileRef>
        ensures some { IfSome result (λ to. state_of self.now ≡ State.Sends to) }
        ensures none { IfNone result ((to : ℕ) → ¬ (state_of self.now ≡ State.Sends to)) }
    {
        match self {
            Link::Sends(target) => Some(target.duplicate()),
            Link::Idle | Link::Listening(_) | Link::HungUp | Link::Connected(_) => None,
        }
    }
}

/// A socket, lent for reading: what it is, and what it can receive.
#[derive(Drop)]
pub struct Socket<'a> {
    form: &'a Form,
    queue: Queue<'a>,
}

impl<'a> Model for Socket<'a> {
    ghost use Rattle.af_base.specs.World as world;
    ghost use Rattle.af_desc.specs.Form.{shown};

    ghost Value = { world.Socket };

    ghost view = { λ a. record (shown a.form.now) { queue = a.queue } };
}

impl<'a> Socket<'a> {
    /// Returns the socket's type.
    #[inline(always)]
    pub fn kind(&self) -> SockType
        ensures { result ≡ self.now.kind }
    {
        self.form.kind()
    }

    /// Returns the socket's connection state.
    #[inline(always)]
    pub fn state(&self) -> State
        ensures { result ≡ self.now.state }
    {
        self.form.state()
    }

    /// Returns the live peer, as [`FileKind::peer`].
    #[inline(always)]
    pub fn peer(&self) -> Option<FileRef>
        ensures some { IfSome result (λ peer. self.now.state ≡ State.Connected peer) }
        ensures none { IfNone result ((peer : ℕ) → ¬ (self.now.state ≡ State.Connected peer)) }
    {
        self.form.peer()
    }

    /// Returns the target of a datagram socket, live or freed, if it has one (connect(2)).
    pub fn target(&self) -> Option<FileRef>
        ensures some { IfSome result (λ to. self.now.state ≡ State.Sends to) }
        ensures none { IfNone result ((to : ℕ) → ¬ (self.now.state ≡ State.Sends to)) }
    {
        self.form.target()
    }

    /// Returns whether it is a datagram socket.
    #[inline(always)]
    pub fn is_datagram(&self) -> bool
        ensures { result ≡ is_datagram self.now.kind }
    {
        matches!(self.kind(), SockType::Dgram)
    }

    /// Returns what shutdown(2) has closed.
    #[inline(always)]
    pub fn ends(&self) -> Ends
        ensures { result ≡ self.now.ends }
    {
        self.form.ends()
    }

    /// Returns the queue.
    #[inline(always)]
    pub fn queue(&self) -> &Queue<'a>
        ensures { result.now ≡ self.now.queue }
    {
        &self.queue
    }

    /// Returns the abstract name, if there is one (unix(7)).
    #[inline(always)]
    pub fn name(&self) -> Option<&'a Bytes>
        ensures { option_copied result ≡ self.now.name }
    {
        let socket = self.form.named()?;
        Some(&socket.name)
    }

    /// Returns whether the socket has no name. If so, no embryo waits in its backlog.
    #[inline(always)]
    pub fn is_nameless(&self) -> bool
        ensures name { result ≡ is_none self.now.name }
        ensures backlog { result ≡ true → self.now.backlog ≡ [] }
    {
        !matches!(self.form, Form::Named(_, _, _))
    }

    /// Returns the backlog, if the socket has a name; without one it has none.
    #[inline(always)]
    pub fn backlog(&self) -> Option<&'a Backlog>
        ensures some { IfSome result (λ b. b.now.waiting ≡ self.now.backlog) }
        ensures none { IfNone result (self.now.backlog ≡ []) }
    {
        let socket = self.form.named()?;
        Some(&socket.backlog)
    }

    /// Returns how many embryos wait to be accepted.
    #[inline(always)]
    pub fn embryos(&self) -> usize
        ensures { result ≡ length self.now.backlog }
    {
        match self.backlog() {
            Some(backlog) => backlog.len(),
            None => 0,
        }
    }
}
