//! Why a call was refused.
ghost use Rattle.std.specs.Prelude.{◌≡◌};
ghost use Rattle.af_base.specs.Errno.{number_of, name_of};

use std::alloc::AllocError;
use std::error::Error;
use std::fmt;

/// An error's name, with the number that this project gives it.
#[derive(Clone, Copy, Debug, PartialEq, Eq)]
pub enum Errno {
    /// The descriptor is not open, or the new one of a dup2(2) is not below the limit.
    EBADF = 1,
    /// The file is no socket.
    ENOTSOCK,
    /// An argument is out of range, or does not fit the socket's state.
    EINVAL,
    /// The table of the process is full.
    EMFILE,
    /// There are too many files, or no inode number is left.
    ENFILE,
    /// Not now: a queue or a backlog is full or empty, or no further process may start.
    EAGAIN,
    /// The message has too many bytes.
    EMSGSIZE,
    /// The user has too many descriptors in flight (unix(7)).
    ETOOMANYREFS,
    /// All users together have too many descriptors in flight.
    ENOBUFS,
    /// The socket was never connected.
    ENOTCONN,
    /// The peer is gone, or its input or the socket's output is closed.
    EPIPE,
    /// The socket is connected, or was.
    EISCONN,
    /// A live socket has this name.
    EADDRINUSE,
    /// No live socket of this name listens, or its input is closed.
    ECONNREFUSED,
    /// The listener is of the other type.
    EPROTOTYPE,
    /// No such process.
    ESRCH,
    /// Memory ran out.
    ENOMEM,
    /// A pass runs.
    EBUSY,
    /// No pass runs.
    EIDLE,
    /// The limit on descriptors is too large.
    ERANGE,
    /// The datagram socket sends to another one, and takes from that one alone.
    EPERM,
    /// Sockets of this type cannot do that.
    EOPNOTSUPP,
}

impl Errno {
    /// Returns the error's number in this project, from 1.
    pub fn number(self) -> u8
        ensures { result ≡ number_of self }
    {
        self as u8
    }

    /// Returns the error's name in capitals, as in errno(3); EIDLE is this project's own.
    pub fn name(self) -> &'static str
        ensures { result.now ≡ name_of self }
    {
        match self {
            Errno::EBADF => "EBADF",
            Errno::ENOTSOCK => "ENOTSOCK",
            Errno::EINVAL => "EINVAL",
            Errno::EMFILE => "EMFILE",
            Errno::ENFILE => "ENFILE",
            Errno::EAGAIN => "EAGAIN",
            Errno::EMSGSIZE => "EMSGSIZE",
            Errno::ETOOMANYREFS => "ETOOMANYREFS",
            Errno::ENOBUFS => "ENOBUFS",
            Errno::ENOTCONN => "ENOTCONN",
            Errno::EPIPE => "EPIPE",
            Errno::EISCONN => "EISCONN",
            Errno::EADDRINUSE => "EADDRINUSE",
            Errno::ECONNREFUSED => "ECONNREFUSED",
            Errno::EPROTOTYPE => "EPROTOTYPE",
            Errno::ESRCH => "ESRCH",
            Errno::ENOMEM => "ENOMEM",
            Errno::EBUSY => "EBUSY",
            Errno::EIDLE => "EIDLE",
            Errno::ERANGE => "ERANGE",
            Errno::EPERM => "EPERM",
            Errno::EOPNOTSUPP => "EOPNOTSUPP",
        }
    }
}

impl From<AllocError> for Errno {
    ghost use Rattle.af_base.specs.declared.errno.Errno.TheVariants.{ENOMEM};

    ghost from_gives = { λ _ e. e ≡ ENOMEM };

    fn from(_: AllocError) -> Errno {
        Errno::ENOMEM
    }
}

impl fmt::Display for Errno {
    ghost use Rattle.std.specs.Prelude.{Some};
    ghost use Rattle.af_base.specs.Errno.{name_of};

    ghost output = { λ e. Some (name_of e) };

    fn fmt<W: fmt::Write>(&self, f: &mut fmt::Formatter<W>) -> fmt::Result {
        let name = self.name();
        write!(f, "{name}")
    }
}

impl Error for Errno {}
