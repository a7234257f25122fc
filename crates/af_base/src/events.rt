//! Events and their replies.
ghost use Rattle.std.specs.Prelude.{◌≡◌};
ghost use Rattle.af_base.specs.Changes.{closed};
ghost use Rattle.af_base.specs.Steps.{closes_input, closes_output};
ghost use Rattle.af_base.specs.World.{open_ends};

use crate::errno::Errno;
use crate::ids::{Fd, Ino, Pid, Uid};
use crate::items::{Bytes, Fds};

/// A socket's type: how it keeps the borders between messages (unix(7)).
#[derive(Clone, Copy, Debug, PartialEq, Eq)]
pub enum SockType {
    /// SOCK_STREAM: connection-oriented, bytes in order, with no borders between messages.
    Stream,
    /// SOCK_SEQPACKET: connection-oriented, keeps message boundaries, delivers in order.
    Seqpacket,
    /// SOCK_DGRAM: without connections, keeps message boundaries, delivers in order.
    Dgram,
}

/// A socket's connection state.
#[derive(Clone, Copy, Debug, PartialEq, Eq)]
pub enum State {
    /// Never connected, and not listening.
    Idle,
    /// Waits for connections. Holds its backlog: the most embryos (server ends that nobody has
    /// accepted) that may wait at it.
    Listening(u32),
    /// Connected to a live peer.
    Connected(Ino),
    /// Was connected; the peer was freed.
    HungUp,
    /// Is a datagram socket that sends to this target, live or freed.
    Sends(Ino),
}

/// Which ends of a socket shutdown(2) has closed: at first none, and an end is never opened again.
#[derive(Clone, Copy, Debug, PartialEq, Eq)]
pub struct Ends {
    /// The input is closed: nothing more can be sent here.
    pub no_input: bool,
    /// The output is closed: nothing more can be sent from here.
    pub no_output: bool,
}

impl Ends {
    /// Returns those of a new socket: both are open.
    pub fn open() -> Ends
        ensures { result ≡ open_ends }
    {
        Ends {
            no_input: false,
            no_output: false,
        }
    }

    /// Closes the input if `input` says so, and the output if `output` does.
    pub fn close(&mut self, input: bool, output: bool)
        ensures { self.new ≡ closed input output self.old }
    {
        self.no_input |= input;
        self.no_output |= output;
    }
}

/// The ends of a socket that shutdown(2) closes.
#[derive(Clone, Copy, Debug, PartialEq, Eq)]
pub enum Shutdown {
    /// SHUT_RD: the input.
    Read,
    /// SHUT_WR: the output.
    Write,
    /// SHUT_RDWR: the input and the output.
    Both,
}

impl Shutdown {
    /// Returns whether the input is closed.
    pub fn closes_input(self) -> bool
        ensures { result ≡ closes_input self }
    {
        matches!(self, Shutdown::Read | Shutdown::Both)
    }

    /// Returns whether the output is closed.
    pub fn closes_output(self) -> bool
        ensures { result ≡ closes_output self }
    {
        matches!(self, Shutdown::Write | Shutdown::Both)
    }
}

/// A step of a process.
#[derive(Clone, Debug, PartialEq, Eq, Drop)]
pub enum Step {
    /// open(2) of a plain file.
    Open,
    /// dup(2) of a descriptor.
    Dup(Fd),
    /// dup2(2): the second descriptor refers to the first one's file, in place of its own.
    Dup2(Fd, Fd),
    /// close(2) of a descriptor.
    Close(Fd),
    /// fork(2): a child with a copy of the table.
    Fork,
    /// The process ends (_exit(2)), and all its descriptors are closed.
    Exit,
    /// socketpair(2): two sockets connected to each other, or datagram sockets that send to each
    /// other.
    Pair(SockType),
    /// socket(2): a socket that was never connected.
    Socket(SockType),
    /// bind(2) of a socket to an abstract name (unix(7)).
    Bind {
        on: Fd,
        name: Bytes,
    },
    /// listen(2), with this backlog.
    Listen {
        on: Fd,
        backlog: u32,
    },
    /// connect(2) to the listener of this abstract name, or of a datagram socket to the target of
    /// this name.
    Connect {
        on: Fd,
        name: Bytes,
    },
    /// accept(2) of the first embryo of a listener.
    Accept(Fd),
    /// sendmsg(2) with SCM_RIGHTS: bytes, and the descriptors whose files are attached.
    Send {
        on: Fd,
        bytes: Bytes,
        attach: Fds,
    },
    /// recvmsg(2), with room for this many bytes and descriptors.
    Recv {
        on: Fd,
        max_bytes: u32,
        max_fds: u32,
    },
    /// recvmsg(2) with MSG_PEEK: what a receive would take is copied, and the queue stays as it is.
    Peek {
        on: Fd,
        max_bytes: u32,
        max_fds: u32,
    },
    /// setrlimit(2) of the limit on descriptors (RLIMIT_NOFILE): from now on it is this. There is
    /// no hard limit, and what is open stays open.
    Limit(u32),
    /// shutdown(2): the input or output of a socket is closed, or both, and so is its peer's output
    /// or input.
    Shutdown {
        on: Fd,
        how: Shutdown,
    },
    /// connect(2) of a datagram socket to AF_UNSPEC: it has no target any longer, and what waits
    /// there is lost.
    Unconnect(Fd),
}

/// An event.
#[derive(Clone, Debug, PartialEq, Eq, Drop)]
pub enum Event {
    /// A process of this user starts, with a limit on its descriptors (RLIMIT_NOFILE). A privileged
    /// one is not held to its user's share of descriptors in flight (unix(7), CAP_SYS_RESOURCE).
    Spawn {
        uid: Uid,
        nofile: u32,
        privileged: bool,
    },
    /// A process makes a step.
    Proc(Pid, Step),
    /// The collector begins a pass, which slices continue.
    Begin,
    /// The collector continues the running pass, by at most this many units.
    Slice(u32),
    /// The collector makes a whole pass.
    Pass,
}

/// The reply to an event.
#[derive(Clone, Debug, PartialEq, Eq, Drop)]
pub enum Reply {
    /// A process was made.
    Pid(Pid),
    /// A descriptor was opened.
    Fd(Fd),
    /// Two descriptors were opened.
    Fds(Fd, Fd),
    /// The event was done, and has no other answer.
    Ok,
    /// This many bytes were sent.
    Sent(u32),
    /// The bytes and descriptors of a receive or peek, and where they were installed.
    Got {
        bytes: Bytes,
        fds: Fds,
        /// Bytes of the message were dropped (MSG_TRUNC).
        trunc: bool,
        /// Descriptors of the message were not installed (MSG_CTRUNC).
        ctrunc: bool,
    },
    /// Nothing is left to receive, and the peer was freed: recvmsg(2) answers 0.
    End,
    /// A pass of the collector began: its number.
    Started(u64),
    /// The pass has work left.
    Working,
    /// The pass is done, and has reclaimed this many sockets.
    Done {
        pass: u64,
        reclaimed: u64,
    },
    /// The event was refused with this error, and nothing changed.
    Refused(Errno),
}

// The answers of an engine's calls, each as its reply.

impl From<Pid> for Reply {
    ghost use Rattle.af_base.specs.declared.events.Reply.TheVariants as reply;

    ghost from_gives = { λ pid r. r ≡ reply.Pid pid };

    fn from(pid: Pid) -> Reply {
        Reply::Pid(pid)
    }
}

impl From<Fd> for Reply {
    ghost use Rattle.af_base.specs.declared.events.Reply.TheVariants as reply;

    ghost from_gives = { λ fd r. r ≡ reply.Fd fd };

    fn from(fd: Fd) -> Reply {
        Reply::Fd(fd)
    }
}

impl From<(Fd, Fd)> for Reply {
    ghost use Rattle.af_base.specs.declared.events.Reply.TheVariants as reply;

    ghost from_gives = { λ fds r. r ≡ reply.Fds fds.0 fds.1 };

    fn from(fds: (Fd, Fd)) -> Reply {
        Reply::Fds(fds.0, fds.1)
    }
}

impl From<()> for Reply {
    ghost use Rattle.af_base.specs.declared.events.Reply.TheVariants as reply;

    ghost from_gives = { λ _ r. r ≡ reply.Ok };

    fn from(_: ()) -> Reply {
        Reply::Ok
    }
}
