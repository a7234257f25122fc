//! The table of system calls.
ghost use Rattle.examples.specs.Calls.{AnswersCall, asked, pair_asked, recv_asked, send_asked};

use crate::kernel::linux;
use crate::kernel::linux::{answer_of, refusal};
use jaywardrobe::{Bytes, Engine, Fd, Fds, Items, Pid, Received};
use std::alloc::{AllocError, Global};

/// The registers of a process when it calls (syscall(2)): the number of the call, and its first
/// three arguments. The room for a receive is there too, where Linux reads a `msghdr`.
#[derive(Clone, Copy)]
pub struct Registers {
    pub number: u32,
    pub first: u32,
    pub second: u32,
    pub third: u32,
}

/// The objects that the pointers of a call refer to, in the memory of the process.
#[derive(Drop)]
pub struct Memory {
    /// The bytes of a message: a send reads them, and a receive writes them (`msg_iov`).
    pub bytes: Bytes,
    /// Its descriptors (`msg_control`; cmsg(3), SCM_RIGHTS).
    pub fds: Fds,
    /// The two numbers that a socketpair(2) writes (`sv`).
    pub pair: (Fd, Fd),
}

impl Memory {
    /// Makes a memory with this message.
    pub fn of(alloc: Global, bytes: &[u8], fds: &[Fd]) -> Result<Memory, AllocError> {
        let bytes = Vec::from_slice(alloc, bytes)?;
        let fds = Vec::from_slice(alloc, fds)?;
        Ok(Memory {
            bytes: Items::of(bytes),
            fds: Items::of(fds),
            pair: (Fd(0), Fd(0)),
        })
    }
}

/// Makes the call that the registers ask for. It is one step of the machine, and answers its
/// number, or 0 where it has none; or it is refused, answers the negative of the error's number,
/// and nothing has changed. A number that is no call is refused by ENOSYS.
pub fn system_call(engine: &mut Engine, pid: Pid, registers: Registers, memory: &mut Memory) -> i64
    ensures { AnswersCall engine.old pid
        (asked registers memory.old) memory.old result engine.new memory.new }
{
    let on = Fd(registers.first);
    match registers.number {
        linux::CLOSE => answer_of(engine.close(pid, on).map(|()| 0)),
        linux::DUP2 => answer_of(
            engine
                .dup2(pid, on, Fd(registers.second))
                .map(|fd| i64::from(fd.0)),
        ),
        linux::SENDMSG => sendmsg(engine, pid, registers, memory),
        linux::RECVMSG => recvmsg(engine, pid, registers, memory),
        linux::SOCKETPAIR => socketpair(engine, pid, registers, memory),
        linux::FORK => answer_of(engine.fork(pid).map(|child| i64::from(child.0))),
        linux::EXIT => answer_of(engine.exit(pid).map(|()| 0)),
        _ => -linux::ENOSYS,
    }
}

/// Does socketpair(2): makes two sockets that are connected to each other.
fn socketpair(engine: &mut Engine, pid: Pid, registers: Registers, memory: &mut Memory) -> i64
    ensures { AnswersCall engine.old pid
        (pair_asked registers) memory.old result engine.new memory.new }
{
    if registers.first != linux::AF_UNIX {
        return -linux::EAFNOSUPPORT;
    }
    let Some(kind) = linux::type_numbered(registers.second) else {
        return -linux::ESOCKTNOSUPPORT;
    };
    match engine.pair(pid, kind) {
        Ok(pair) => {
            memory.pair = pair;
            0
        }
        Err(error) => refusal(error),
    }
}

/// Does sendmsg(2) with the bytes in memory.
fn sendmsg(engine: &mut Engine, pid: Pid, registers: Registers, memory: &Memory) -> i64
    ensures { AnswersCall engine.old pid
        (send_asked registers memory.now) memory.now result engine.new memory.now }
{
    let bytes = memory.bytes.as_slice();
    let fds = memory.fds.as_slice();
    match engine.send(pid, Fd(registers.first), bytes, fds) {
        Ok(count) => i64::from(count),
        Err(error) => refusal(error),
    }
}

/// Does recvmsg(2), and writes the result to memory.
fn recvmsg(engine: &mut Engine, pid: Pid, registers: Registers, memory: &mut Memory) -> i64
    ensures { AnswersCall engine.old pid
        (recv_asked registers) memory.old result engine.new memory.new }
{
    match engine.recv(pid, Fd(registers.first), registers.second, registers.third) {
        Ok(Received::Got { bytes, fds, .. }) => {
            let count = bytes.len() as i64;
            memory.bytes = bytes;
            memory.fds = fds;
            count
        }
        Ok(Received::End) => 0,
        Err(error) => refusal(error),
    }
}
