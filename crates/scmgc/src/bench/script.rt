//! Measures the events of a script.
//!
//! Each line of the script is an event. The first lines are only done. The rest is done over and
//! over: a run continues where the one before it stopped, and the first line of the rest follows
//! the last.

use crate::bench::runs::{Runs, print_times, refusal, time_since};
use af_base::events::{Event, Reply};
use af_steps::Engine;
use scm_lines::{Line, LineFault, line_of};
use std::alloc::{AllocError, Global};
use std::io::{self, Print, Read};
use std::str::Lines;
use std::time::{Clock, Instant};

/// Measures the script that a reader gives, without its first `setup` lines.
pub fn measure_input<R: Clock + Print, I: Read + Drop>(
    rt: &R,
    alloc: Global,
    input: I,
    setup: usize,
    runs: Runs,
) -> io::Result<()> {
    let script = io::read_to_string(alloc, input)?;
    measure_script(rt, alloc, script.as_str(), setup, runs)
}

/// Measures a script, without its first `setup` lines.
fn measure_script<R: Clock + Print>(
    rt: &R,
    alloc: Global,
    script: &str,
    setup: usize,
    runs: Runs,
) -> io::Result<()> {
    let mut engine = Engine::new(alloc)?;
    let mut lines = script.lines();
    let events = events_after(alloc, &mut engine, &mut lines, setup)?;
    measure(rt, alloc, &mut engine, events.as_slice(), runs)
}

/// Does the first lines, and returns the events of the rest.
fn events_after(
    alloc: Global,
    engine: &mut Engine,
    lines: &mut Lines<'_>,
    setup: usize,
) -> io::Result<Vec<Event>> {
    for line in lines.take(setup) {
        do_line(alloc, engine, line)?;
    }
    let mut events = Vec::new(alloc);
    for line in lines {
        events.push(event_of(alloc, line)?)?;
    }
    Ok(events)
}

/// Does the event of a line.
fn do_line(alloc: Global, engine: &mut Engine, line: &str) -> io::Result<()> {
    let event = event_of(alloc, line)?;
    if is_done(engine, &event) {
        Ok(())
    } else {
        Err(refusal())
    }
}

/// Returns the event of a line. Fails where the line has none, and if memory is refused.
fn event_of(alloc: Global, line: &str) -> io::Result<Event> {
    match line_of(alloc, line.as_bytes()) {
        Ok(Line::Event(event)) => Ok(event),
        Err(LineFault::Memory) => Err(AllocError.into()),
        _ => Err(io::Error::other("a line is no event")),
    }
}

/// Does the event, and says whether it was not refused.
#[inline(always)]
fn is_done(engine: &mut Engine, event: &Event) -> bool {
    !matches!(engine.step(event), Reply::Refused(_))
}

/// Does `events` over and over, and prints what each run took.
fn measure<R: Clock + Print>(
    rt: &R,
    alloc: Global,
    engine: &mut Engine,
    events: &[Event],
    runs: Runs,
) -> io::Result<()> {
    let Some(rounds) = runs.rounds(events.len()) else {
        return Err(io::Error::other("runs and events do not come out even"));
    };
    let mut times = Vec::new(alloc);
    for events in events.chunks_exact(rounds.events).cycle().take(runs.count) {
        let start = Instant::now(rt)?;
        let is_done = are_done(engine, events, rounds.count);
        times.push(time_since(rt, start, is_done)?)?;
    }
    print_times(rt, times.as_slice())
}

/// Does `events`, `rounds` times over, and returns whether none was refused. Stops at the first
/// that is.
// Kept apart, so that the loop has all registers.
#[inline(never)]
fn are_done(engine: &mut Engine, events: &[Event], rounds: usize) -> bool {
    for _ in 0..rounds {
        for event in events {
            if !is_done(engine, event) {
                return false;
            }
        }
    }
    true
}
