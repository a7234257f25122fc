//! A run of a list: one reply for each event. One allocation is refused, the Nth: `tools/stress`
//! refuses each in turn.
use af_base::errno::Errno;
use af_base::events::{Event, Reply, Step};
use af_base::ids::{Fd, Pid, Uid};
use af_steps::{Engine, RunStopped};
use std::alloc::{AllocError, Global};
use std::process::Abort;

/// A process starts, and opens and closes a descriptor 50,000 times.
fn rounds(alloc: Global) -> Result<Vec<Event>, AllocError> {
    let mut events = Vec::new(alloc);
    events.push(Event::Spawn {
        uid: Uid(1000),
        nofile: 1,
        privileged: false,
    })?;
    for _ in 0..50_000 {
        events.push(Event::Proc(Pid(1), Step::Open))?;
        events.push(Event::Proc(Pid(1), Step::Close(Fd(0))))?;
    }
    Ok(events)
}

/// Returns how many of the events were refused memory.
fn refusals(replies: &[Reply]) -> usize {
    let mut refusals = 0usize;
    for reply in replies {
        if *reply == Reply::Refused(Errno::ENOMEM) {
            refusals = refusals.saturating_add(1);
        }
    }
    refusals
}

/// Runs the events. Returns how many were done, and how often memory was refused for an event or
/// for its reply: where it was for a reply, the run stops.
fn run(engine: &mut Engine, events: &[Event]) -> (usize, usize) {
    match engine.run(events) {
        Ok(replies) => (replies.len(), refusals(&replies)),
        Err(RunStopped { done }) => (done.len(), refusals(&done).saturating_add(1)),
    }
}

/// Runs all events, for which memory is refused once at most. Where a run stops, another one
/// continues behind it.
fn run_all(rt: &impl Abort, engine: &mut Engine, events: &[Event]) {
    let (done, first) = run(engine, events);
    let (more, second) = run(engine, events.get(done..).unwrap_or(&[]));
    assert!(rt; done.saturating_add(more) == events.len());
    assert!(rt; first.saturating_add(second) <= 1);
}

/// All rounds are run. Where the refused allocation is of the list of events, nothing is.
#[test]
fn one_reply_for_each_event(rt: HostRuntime) -> Result<(), AllocError> {
    let mut engine = Engine::new(rt.alloc())?;
    if let Ok(events) = rounds(rt.alloc()) {
        run_all(&rt, &mut engine, &events);
    }
    Ok(())
}
