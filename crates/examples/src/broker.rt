//! A broker: it delivers a client's files to a worker, and lets the collector free the cycles that
//! the client leaves, a slice for each delivery. Behind each file is one of the host, which the
//! broker closes once no descriptor, message or backlog refers to the file.

mod delivery;
mod host;
mod reclaim;

use crate::broker::delivery::{End, deliver};
use crate::broker::host::{HostFile, close_released};
use crate::broker::reclaim::reclaim;
use jaywardrobe::limits::MAX_BUDGET;
use jaywardrobe::{Errno, Fd, Finished, Owned, Pid, Progress, SockType, Uid, calls};
use std::io;

/// How many descriptors the client hands over.
const ROUNDS: usize = 6;

/// Serves a client and a worker, and prints how many files are left.
pub fn run(rt: &HostRuntime) -> io::Result<()> {
    let mut engine = Owned::new(rt.alloc())?;
    serve(rt, &mut engine)?;
    println!(rt; "files left: {}", engine.engine().live())
}

/// Connects a client to a worker, delivers what the client opens, and ends both.
fn serve(rt: &HostRuntime, engine: &mut Owned<HostFile>) -> io::Result<()> {
    match connect(engine) {
        Ok((client, worker)) => {
            deliver_all(rt, engine, &client, &worker)?;
            shut_down(rt, engine, &[client.pid, worker.pid])
        }
        Err(error) => println!(rt; "no connection: {error}"),
    }
}

/// Makes a client with a worker as its child, and returns the ends of the connection between them.
fn connect(engine: &mut Owned<HostFile>) -> Result<(End, End), Errno> {
    let client = engine.call(calls::Spawn(Uid(1_000), 16, false))?;
    let (here, there) = engine.call(calls::Pair(client, SockType::Seqpacket))?;
    let worker = engine.call(calls::Fork(client))?;
    Ok((
        End {
            pid: client,
            fd: here,
        },
        End {
            pid: worker,
            fd: there,
        },
    ))
}

/// Delivers a file in each round, with a slice of the collector behind it.
fn deliver_all(
    rt: &HostRuntime,
    engine: &mut Owned<HostFile>,
    client: &End,
    worker: &End,
) -> io::Result<()> {
    for round in 1..=ROUNDS {
        let report = HostFile::open(rt.alloc(), "report", round)?;
        let draft = HostFile::open(rt.alloc(), "draft", round)?;
        match request(engine, client.pid, report, draft) {
            Ok(fd) => hand_over(rt, engine, client, fd, worker)?,
            Err(error) => println!(rt; "no request: {error}")?,
        }
        if let Some(finished) = reclaim(engine) {
            show_pass(rt, &finished)?;
        }
        close_released(rt, engine)?;
    }
    Ok(())
}

/// Delivers what the client asks for, and prints what came of it.
fn hand_over(
    rt: &HostRuntime,
    engine: &mut Owned<HostFile>,
    client: &End,
    fd: Fd,
    worker: &End,
) -> io::Result<()> {
    match deliver(engine, client, fd, worker) {
        Ok(got) => println!(rt;
            "delivered: {fd} of client {} is {got} of worker {}",
            client.pid, worker.pid
        ),
        Err(fault) => println!(rt; "not delivered: {fault}"),
    }
}

/// Ends these processes, and collects what they leave.
fn shut_down(rt: &HostRuntime, engine: &mut Owned<HostFile>, pids: &[Pid]) -> io::Result<()> {
    for pid in pids {
        let _ = engine.call(calls::Exit(*pid));
    }
    close_released(rt, engine)?;
    // A pass that runs began too early to find all. With so few files one slice ends it.
    if let Ok(Progress::Done(finished)) = engine.call(calls::Slice(MAX_BUDGET)) {
        show_pass(rt, &finished)?;
    }
    if let Ok(finished) = engine.call(calls::Pass) {
        show_pass(rt, &finished)?;
    }
    close_released(rt, engine)
}

/// Prints a pass that is over.
fn show_pass(rt: &HostRuntime, finished: &Finished) -> io::Result<()> {
    println!(rt; "pass {} reclaimed {}", finished.pass, finished.reclaimed)
}

/// Opens two files of a client, which is careless with one: it sends it with an end of a connection
/// into that end's own queue, and closes all three. A refused open closes its host file.
fn request(
    engine: &mut Owned<HostFile>,
    client: Pid,
    report: HostFile,
    draft: HostFile,
) -> Result<Fd, Errno> {
    let file = engine.open(client, report).map_err(|refused| refused.0)?;
    let lost = engine.open(client, draft).map_err(|refused| refused.0)?;
    let (left, right) = engine.call(calls::Pair(client, SockType::Stream))?;
    engine.call(calls::Send(client, left, b"lost", &[right, lost]))?;
    for fd in [left, right, lost] {
        engine.call(calls::Close(client, fd))?;
    }
    Ok(file)
}
