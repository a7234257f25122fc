//! A tiny kernel: what two processes call, by number over registers, and what each call answers.

mod calls;
mod linux;

use crate::kernel::calls::{Memory, Registers, system_call};
use crate::kernel::linux::{AF_UNIX, CLOSE, DUP2, EXIT, FORK, RECVMSG, SENDMSG, SOCKETPAIR};
use jaywardrobe::{Engine, Fd, Pid, Uid};
use std::io;
use std::io::Error;

/// The calls of the session: who calls, the number, and three arguments. A parent sends its end of
/// a connection to its child; then come refusals, and the end of both.
const SESSION: [(u32, [u32; 4]); 16] = [
    (1, [SOCKETPAIR, AF_UNIX, 5, 0]),
    (1, [FORK, 0, 0, 0]),
    (1, [SENDMSG, 0, 0, 0]),
    (2, [RECVMSG, 1, 1_024, 4]),
    (2, [DUP2, 2, 9, 0]),
    (2, [CLOSE, 2, 0, 0]),
    (2, [CLOSE, 2, 0, 0]),
    (2, [RECVMSG, 1, 1_024, 4]),
    (1, [SOCKETPAIR, AF_UNIX, 3, 0]),
    (1, [SOCKETPAIR, 2, 5, 0]),
    (1, [1_000, 0, 0, 0]),
    (1, [EXIT, 0, 0, 0]),
    (1, [FORK, 0, 0, 0]),
    (2, [CLOSE, 0, 0, 0]),
    (2, [CLOSE, 9, 0, 0]),
    (2, [RECVMSG, 1, 1_024, 4]),
];

/// Makes the calls of a session on a new kernel.
pub fn run(rt: &HostRuntime) -> io::Result<()> {
    let mut engine = Engine::new(rt.alloc())?;
    boot(rt, &mut engine)
}

/// Starts the first process, and makes all calls of the session over one memory.
fn boot(rt: &HostRuntime, engine: &mut Engine) -> io::Result<()> {
    if engine.spawn(Uid(1_000), 16, false).is_err() {
        return Err(Error::other("the first process did not start"));
    }
    let mut memory = Memory::of(rt.alloc(), b"take this", &[Fd(0)])?;
    make_calls(rt, engine, &mut memory)
}

/// Makes all calls of the session.
fn make_calls(rt: &HostRuntime, engine: &mut Engine, memory: &mut Memory) -> io::Result<()> {
    for (pid, [number, first, second, third]) in SESSION {
        let registers = Registers {
            number,
            first,
            second,
            third,
        };
        trace(rt, engine, Pid(pid), registers, memory)?;
    }
    Ok(())
}

/// Makes one call, and prints it with its answer.
fn trace(
    rt: &HostRuntime,
    engine: &mut Engine,
    pid: Pid,
    registers: Registers,
    memory: &mut Memory,
) -> io::Result<()> {
    let answer = system_call(engine, pid, registers, memory);
    let Registers {
        number,
        first,
        second,
        third,
    } = registers;
    println!(rt; "{pid}: {number}({first}, {second}, {third}) = {answer}")
}
