//! The delivery of a descriptor through a connection.
ghost use Rattle.std.specs.Prelude.{◌≡◌, IfErr, IfOk, OnOk};
ghost use Rattle.examples.specs.Delivery.{Delivers, IsIdle, Takes, descriptor_value};

use crate::broker::host::HostFile;
use jaywardrobe::{Errno, Fd, Owned, Pid, Received, calls};
use std::fmt;

/// The bytes sent with a descriptor: a message has a byte at least (unix(7)).
const PAYLOAD: &[u8] = b".";

/// An end of a connection: a process, and the number that it has there.
#[derive(Clone, Copy)]
pub struct End {
    pub pid: Pid,
    pub fd: Fd,
}

/// Why a descriptor was not delivered.
#[derive(Clone, Copy)]
pub enum Undelivered {
    /// Something else waits to be received.
    Busy,
    /// The receiver had no free descriptor for it, and it was closed.
    Closed,
    /// A call was refused. Where it was the receive, the descriptor is in flight.
    Refused(Errno),
}

impl fmt::Display for Undelivered {
    fn fmt<W: fmt::Write>(&self, f: &mut fmt::Formatter<W>) -> fmt::Result {
        match self {
            Undelivered::Busy => write!(f, "something else waits"),
            Undelivered::Closed => write!(f, "no number is free"),
            Undelivered::Refused(error) => write!(f, "{error}"),
        }
    }
}

/// Sends a descriptor from one end of a connection, and receives it at the other. Answers the
/// receiver's descriptor, which refers to the sender's file, with the same host file behind it.
/// Fails with `Busy` only if something else waits at the receiver's end.
pub fn deliver(
    engine: &mut Owned<HostFile>,
    from: &End,
    fd: Fd,
    to: &End,
) -> Result<Fd, Undelivered>
    ensures delivered { IfOk result (λ got.
        Delivers engine.old.machine.world from.now.pid fd engine.new.machine.world to.now.pid got) }
    ensures carried { IfOk result (λ got.
        descriptor_value engine.new to.now.pid got ≡ descriptor_value engine.old from.now.pid fd) }
    ensures busy { IfErr result (λ error.
        error ≡ Undelivered.Busy → ¬ (IsIdle engine.old.machine.world to.now.pid to.now.fd)) }
{
    check_idle(engine, to)?;
    match engine.call(calls::Send(from.pid, from.fd, PAYLOAD, &[fd])) {
        Ok(_) => receive(engine, to),
        Err(error) => Err(Undelivered::Refused(error)),
    }
}

/// Tests that nothing waits to be received at this end of a connection. Where the other end is
/// closed the error is EPIPE.
fn check_idle(engine: &mut Owned<HostFile>, end: &End) -> Result<(), Undelivered>
    ensures idle { OnOk result (IsIdle engine.old.machine.world end.now.pid end.now.fd) }
    ensures same { OnOk result (engine.new ≡ engine.old) }
    ensures busy { IfErr result (λ error.
        error ≡ Undelivered.Busy → ¬ (IsIdle engine.old.machine.world end.now.pid end.now.fd)) }
{
    match engine.call(calls::Peek(end.pid, end.fd, 1, 0)) {
        Ok(Received::Got { .. }) => Err(Undelivered::Busy),
        Ok(Received::End) => Err(Undelivered::Refused(Errno::EPIPE)),
        Err(Errno::EAGAIN) => Ok(()),
        Err(error) => Err(Undelivered::Refused(error)),
    }
}

/// Receives one descriptor, and answers its number.
fn receive(engine: &mut Owned<HostFile>, end: &End) -> Result<Fd, Undelivered>
    ensures taken { IfOk result (λ got.
        Takes engine.old.machine end.now.pid end.now.fd got engine.new.machine) }
    ensures values { engine.new.values ≡ engine.old.values }
    ensures not_busy { IfErr result (λ error. ¬ (error ≡ Undelivered.Busy)) }
{
    match engine.call(calls::Recv(end.pid, end.fd, 1, 1)) {
        Ok(Received::Got { fds, .. }) => match fds.as_slice() {
            [fd] => Ok(*fd),
            _ => Err(Undelivered::Closed),
        },
        Ok(Received::End) => Err(Undelivered::Refused(Errno::EPIPE)),
        Err(error) => Err(Undelivered::Refused(error)),
    }
}
