//! Measures calls of a layer, from threads beside each other.
//!
//! Each run is over a fresh layer, with room for all that it logs. In each thread a process of its
//! own opens a plain file and closes it, by turns.

use crate::bench::runs::{refusal, time_since};
use af_base::events::{Event, Step};
use af_base::ids::{Fd, Pid, Uid};
use af_layer::{Layer, Seat};
use std::alloc::Global;
use std::io;
use std::sync::Wait;
use std::thread::{self, Threads};
use std::time::{Clock, Instant};

/// A process starts.
const SPAWN: Event = Event::Spawn {
    uid: Uid(1_000),
    nofile: 32,
    privileged: false,
};

/// How the calls of a thread take the lock.
#[derive(Clone, Copy)]
pub enum Locking {
    /// Each call takes it.
    Calls,
    /// It is taken once for this many calls.
    Batches(usize),
}

/// A thread's seat and process, and whether no call of it was refused.
#[derive(Drop)]
struct SeatCaller {
    seat: Seat,
    pid: Pid,
    is_done: bool,
}

/// Returns how long a run takes, in nanoseconds: this many events in each of these threads.
pub fn time_of_run<R: Threads + Wait + Clock + Sync>(
    rt: &R,
    alloc: Global,
    threads: u32,
    locking: Locking,
    events: usize,
) -> io::Result<u128> {
    let Ok((layer, seats)) = Layer::open(alloc, threads) else {
        return Err(io::Error::other("no layer was opened"));
    };
    let pairs = events.saturating_add(1);
    layer
        .lock(rt)
        .reserve(pairs.saturating_mul(threads as usize))?;
    let mut callers = Vec::new(alloc);
    for seat in seats {
        callers.push(caller_of(rt, &layer, seat, pairs)?)?;
    }
    let start = Instant::now(rt)?;
    let is_done = are_made(rt, &layer, callers.as_mut_slice(), locking, events);
    time_since(rt, start, is_done)
}

/// Starts a process from a seat, which gets room for this many pairs.
fn caller_of<R: Wait>(
    rt: &R,
    layer: &Layer,
    mut seat: Seat,
    pairs: usize,
) -> io::Result<SeatCaller> {
    seat.reserve(pairs)?;
    if layer.call(rt, &mut seat, SPAWN).is_err() {
        return Err(refusal());
    }
    let pid = Pid(seat.number());
    Ok(SeatCaller {
        seat,
        pid,
        is_done: false,
    })
}

/// Makes these calls from each caller in a thread of its own, and returns whether none was refused.
fn are_made<R: Threads + Wait + Sync>(
    rt: &R,
    layer: &Layer,
    callers: &mut [SeatCaller],
    locking: Locking,
    events: usize,
) -> bool {
    let count = callers.len();
    if count == 0 {
        return true;
    }
    thread::for_each_mut(
        rt,
        callers,
        count,
        &|_, caller: &mut SeatCaller| {
            caller.is_done = match locking {
                Locking::Calls => calls(rt, layer, caller, events),
                Locking::Batches(size) => batches(rt, layer, caller, events, size),
            };
        },
    );
    callers.iter().all(|caller| caller.is_done)
}

/// Makes these calls from a seat, and returns whether none was refused.
fn calls<R: Wait>(rt: &R, layer: &Layer, caller: &mut SeatCaller, events: usize) -> bool {
    for turn in 0..events {
        let event = open_or_close(caller.pid, turn);
        if layer.call(rt, &mut caller.seat, event).is_err() {
            return false;
        }
    }
    true
}

/// Makes these calls, `size` under each lock without the rest, and returns whether none failed.
fn batches<R: Wait>(
    rt: &R,
    layer: &Layer,
    caller: &mut SeatCaller,
    events: usize,
    size: usize,
) -> bool {
    for _ in 0..events.checked_div(size).unwrap_or(0) {
        let mut layer = layer.lock(rt);
        for turn in 0..size {
            let event = open_or_close(caller.pid, turn);
            if layer.call(&mut caller.seat, event).is_err() {
                return false;
            }
        }
    }
    true
}

/// Returns the event of a process at this turn.
fn open_or_close(pid: Pid, turn: usize) -> Event {
    if turn % 2 == 0 {
        Event::Proc(pid, Step::Open)
    } else {
        Event::Proc(pid, Step::Close(Fd(0)))
    }
}
