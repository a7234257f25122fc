//! An audit: who holds whom, in words and as a picture, before and after a pass of the collector.

mod places;

use crate::audit::places::{Reference, places_of};
use jaywardrobe::report::graph;
use jaywardrobe::{Engine, Errno, Fd, Pid, SockType, Uid};
use std::io;
use std::io::Write;

/// Audits a small world.
pub fn run(rt: &HostRuntime) -> io::Result<()> {
    let mut engine = Engine::new(rt.alloc())?;
    audit(rt, &mut engine)
}

/// Builds a small world, and prints who holds whom there.
fn audit(rt: &HostRuntime, engine: &mut Engine) -> io::Result<()> {
    match build(engine) {
        Ok(()) => show(rt, engine),
        Err(error) => println!(rt; "the world was not built: {error}"),
    }
}

/// Prints who holds whom, and its picture; then, after a pass of the collector, what is left.
fn show(rt: &HostRuntime, engine: &mut Engine) -> io::Result<()> {
    print(rt, engine)?;
    draw(rt, engine)?;
    collect(rt, engine)?;
    print(rt, engine)
}

/// Runs a whole pass of the collector, and prints how many sockets it reclaimed.
fn collect(rt: &HostRuntime, engine: &mut Engine) -> io::Result<()> {
    match engine.pass() {
        Ok(finished) => println!(rt; "pass {} reclaimed {}", finished.pass, finished.reclaimed),
        Err(error) => println!(rt; "no pass: {error}"),
    }
}

/// Prints each place on a line of its own, by rising file.
fn print(rt: &HostRuntime, engine: &Engine) -> io::Result<()> {
    let (files, in_flight) = (engine.live(), engine.total());
    println!(rt; "{files} files, {in_flight} descriptors in flight")?;
    let places = places_of(rt.alloc(), engine)?;
    print_places(rt, places.as_slice())
}

/// Prints these places.
fn print_places(rt: &HostRuntime, places: &[Reference]) -> io::Result<()> {
    for place in places {
        println!(rt; "{place}")?;
    }
    Ok(())
}

/// Prints the picture of who holds whom, for Graphviz (`dot -Tsvg`).
fn draw(rt: &HostRuntime, engine: &Engine) -> io::Result<()> {
    let text = graph(rt.alloc(), engine)?;
    rt.stdout().write_all(text.as_slice())
}

/// Builds two processes with a connection and descriptors in flight, a client that waits at a
/// listener, and a cycle that no process can reach.
fn build(engine: &mut Engine) -> Result<(), Errno> {
    let parent = engine.spawn(Uid(1_000), 16, false)?;
    let (here, _) = engine.pair(parent, SockType::Seqpacket)?;
    engine.fork(parent)?;
    let file = engine.open(parent)?;
    engine.send(parent, here, b"twice", &[file, file])?;
    wait_at(engine, parent, b"door")?;
    lose_cycle(engine, parent, file)?;
    engine.close(parent, file)
}

/// Connects a client to a listener of this name, which does not accept it.
fn wait_at(engine: &mut Engine, pid: Pid, name: &[u8]) -> Result<(), Errno> {
    let listener = engine.socket(pid, SockType::Stream)?;
    engine.bind(pid, listener, name)?;
    engine.listen(pid, listener, 4)?;
    let client = engine.socket(pid, SockType::Stream)?;
    engine.connect(pid, client, name)
}

/// Sends a socket into its own queue, with a file, and closes it.
fn lose_cycle(engine: &mut Engine, pid: Pid, file: Fd) -> Result<(), Errno> {
    let (left, right) = engine.pair(pid, SockType::Stream)?;
    engine.send(pid, left, b"itself", &[right, file])?;
    engine.close(pid, left)?;
    engine.close(pid, right)
}
