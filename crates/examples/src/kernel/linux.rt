//! Linux's numbers: of its calls on x86-64, of types of sockets, and of errors.
ghost use Rattle.std.specs.Prelude.{◌≡◌, pos};
ghost use Rattle.examples.specs.Calls.{answer_of, negative, error_number, type_numbered};

use jaywardrobe::{Errno, SockType};

/// The only domain that there is (unix(7)).
pub const AF_UNIX: u32 = 1;

/// The number of close(2).
pub const CLOSE: u32 = 3;

/// The number of dup2(2).
pub const DUP2: u32 = 33;

/// The number of sendmsg(2).
pub const SENDMSG: u32 = 46;

/// The number of recvmsg(2).
pub const RECVMSG: u32 = 47;

/// The number of socketpair(2).
pub const SOCKETPAIR: u32 = 53;

/// The number of fork(2).
pub const FORK: u32 = 57;

/// The number of _exit(2).
pub const EXIT: u32 = 60;

/// The number is no call (errno(3)).
pub const ENOSYS: i64 = 38;

/// There is no such domain (socket(2)).
pub const EAFNOSUPPORT: i64 = 97;

/// There is no such type of socket (errno(3)).
pub const ESOCKTNOSUPPORT: i64 = 94;

/// Returns the type of this number (socket(2): SOCK_STREAM, SOCK_DGRAM, SOCK_SEQPACKET).
pub fn type_numbered(number: u32) -> Option<SockType>
    ensures { result ≡ type_numbered number }
{
    match number {
        1 => Some(SockType::Stream),
        2 => Some(SockType::Dgram),
        5 => Some(SockType::Seqpacket),
        _ => None,
    }
}

/// Returns the answer of a call: its number, or the negative of the error's (syscall(2)).
pub fn answer_of(outcome: Result<i64, Errno>) -> i64
    ensures { result ≡ answer_of outcome }
{
    match outcome {
        Ok(value) => value,
        Err(error) => refusal(error),
    }
}

/// Returns the answer of a refused call (syscall(2)).
pub fn refusal(error: Errno) -> i64
    ensures { result ≡ negative (error_number error) }
{
    -error_number(error)
}

/// Returns the error's number (errno(3)). EIDLE is no error of a process, and no call answers it.
fn error_number(error: Errno) -> i64
    ensures { result ≡ pos (error_number error) }
{
    match error {
        Errno::EPERM => 1,
        Errno::ESRCH => 3,
        Errno::EBADF => 9,
        Errno::EAGAIN => 11,
        Errno::ENOMEM => 12,
        Errno::EBUSY => 16,
        Errno::EINVAL | Errno::EIDLE => 22,
        Errno::ENFILE => 23,
        Errno::EMFILE => 24,
        Errno::EPIPE => 32,
        Errno::ERANGE => 34,
        Errno::ENOTSOCK => 88,
        Errno::EMSGSIZE => 90,
        Errno::EPROTOTYPE => 91,
        Errno::EOPNOTSUPP => 95,
        Errno::EADDRINUSE => 98,
        Errno::ENOBUFS => 105,
        Errno::EISCONN => 106,
        Errno::ENOTCONN => 107,
        Errno::ETOOMANYREFS => 109,
        Errno::ECONNREFUSED => 111,
    }
}
