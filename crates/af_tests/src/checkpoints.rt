//! A layer that stays in use while its log is taken in turn.
use af_base::events::{Event, Reply};
use af_base::ids::{Pid, Uid};
use af_layer::{AtCheckpoint, Entry, Layer, OpenError, Origin, Seat};
use std::sync::Wait;

/// Starts a process from the first seat. Returns whether the call was made.
fn start<R: Wait, O: Origin>(rt: &R, layer: &Layer<O>, seats: &mut [Seat]) -> bool {
    let event = Event::Spawn {
        uid: Uid(7),
        nofile: 4,
        privileged: false,
    };
    match seats.first_mut() {
        Some(seat) => layer.call(rt, seat, event).is_ok(),
        None => false,
    }
}

/// Returns whether a log is this many starts, answered by the pids from the first one on.
fn are_starts(log: &[Entry], first: u32, count: usize) -> bool {
    let mut next = first;
    for entry in log {
        if *entry.reply() != Reply::Pid(Pid(next)) {
            return false;
        }
        next = next.saturating_add(1);
    }
    log.len() == count
}

/// Takes the log at a checkpoint. Returns whether it is these starts.
fn takes<R: Wait>(
    rt: &R,
    layer: &Layer<AtCheckpoint>,
    seats: &mut [Seat],
    first: u32,
    count: usize,
) -> bool {
    let done = layer.lock(rt).checkpoint(seats);
    match done {
        Ok(log) => are_starts(&log, first, count),
        Err(_) => false,
    }
}

/// Takes three logs, the last without an entry. One process was started before.
fn takes_all<R: Wait>(rt: &R, layer: &Layer<AtCheckpoint>, seats: &mut [Seat]) -> bool {
    start(rt, layer, seats)
        && takes(rt, layer, seats, 1, 2)
        && start(rt, layer, seats)
        && takes(rt, layer, seats, 3, 1)
        && takes(rt, layer, seats, 4, 0)
}

/// Shows that a layer keeps its engine and its log where it allows checkpoints, and that each log
/// begins where the one before ended.
#[test]
fn logs_meet(rt: HostRuntime) -> Result<(), OpenError> {
    let (layer, mut seats) = Layer::open(rt.alloc(), 1)?;
    assert!(rt; start(&rt, &layer, &mut seats));
    let layer = layer.allow_checkpoints();
    assert!(rt; takes_all(&rt, &layer, &mut seats));
    Ok(())
}
