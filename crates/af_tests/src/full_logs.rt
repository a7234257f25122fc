//! A layer whose log is full.
use af_base::events::Event;
use af_base::limits::MAX_LOG;
use af_layer::{CallError, DriveFault, Layer, OpenError, OpenGate, Seat, drive};
use std::alloc::{AllocError, Global};
use std::sync::Wait;
use std::thread::Threads;

/// Fills the log from this seat, by an event that is refused each time.
fn fill<R: Wait>(rt: &R, layer: &Layer, seat: &mut Seat) {
    let mut book = layer.lock(rt);
    for _ in 0..MAX_LOG {
        let _done = book.call(seat, Event::Slice(1));
    }
}

/// Returns one script, of one event.
fn scripts(alloc: Global) -> Result<Vec<Vec<Event>>, AllocError> {
    let mut script = Vec::new(alloc);
    script.push(Event::Begin)?;
    let mut scripts = Vec::new(alloc);
    scripts.push(script)?;
    Ok(scripts)
}

/// Returns the fault of a drive of one event from the only seat, behind a full log.
fn fault_behind<R: Threads + Wait + Sync>(
    rt: &R,
    alloc: Global,
    layer: &Layer,
    seats: Vec<Seat>,
) -> Option<DriveFault> {
    let scripts = scripts(alloc).ok()?;
    let stopped = drive(rt, layer, seats, scripts, None, &OpenGate).err()?;
    Some(stopped.fault)
}

/// A drive says why a call was refused: the log is full.
#[test]
fn a_full_log_stops_a_drive(rt: HostRuntime) -> Result<(), OpenError> {
    let (layer, mut seats) = Layer::open(rt.alloc(), 1)?;
    if let Some(seat) = seats.first_mut() {
        fill(&rt, &layer, seat);
    }
    let wanted = DriveFault::Call(1, CallError::LogFull);
    assert!(rt; fault_behind(&rt, rt.alloc(), &layer, seats) == Some(wanted));
    Ok(())
}
