//! A gate at which the first seat calls before all others, and then waits for them.
use af_base::events::Event;
use af_base::ids::Uid;
use af_layer::{Entry, Gate, Layer, Seat, Turns, drive};
use std::alloc::{AllocError, Global};
use std::process::Abort;
use std::sync::Wait;
use std::sync::atomic::{AtomicU64, Ordering};
use std::thread;
use std::thread::Threads;

/// The most seats that a layer may have. The collector calls from the last one.
const SEATS: u32 = 64;

/// How many seats wait for the first one.
const OTHERS: u64 = 63;

/// The collector's calls, as many as each script has.
const TURNS: Turns = Turns {
    turns: 2,
    budget: 8,
};

/// Counts of a gate at which seat 1 calls first.
#[derive(Drop)]
struct Turnstile {
    /// Whether the first call from seat 1 has returned: 1 then.
    returned: AtomicU64,
    /// How many other seats have made a call behind it.
    followed: AtomicU64,
    failures: AtomicU64,
}

impl Turnstile {
    fn new() -> Turnstile {
        Turnstile {
            returned: AtomicU64::new(0),
            followed: AtomicU64::new(0),
            failures: AtomicU64::new(0),
        }
    }

    /// Waits until the count is this one, and no longer than it takes to look so often.
    fn wait(&self, count: &AtomicU64, wanted: u64) {
        for _ in 0..20_000_000u32 {
            if count.load(Ordering::SeqCst) == wanted {
                return;
            }
            thread::yield_now();
        }
        self.failures.fetch_add(1, Ordering::SeqCst);
    }
}

impl Gate for Turnstile {
    fn before(&self, seat: u32, nth: u32) {
        match (seat, nth) {
            (1, _) => {}
            (_, 1) => self.wait(&self.returned, 1),
            _ => {
                self.followed.fetch_add(1, Ordering::SeqCst);
            }
        }
    }

    fn after(&self, seat: u32, nth: u32) {
        if seat == 1 && nth == 1 {
            self.returned.store(1, Ordering::SeqCst);
            // Were this before the call, the others' first calls would come before it.
            self.wait(&self.followed, OTHERS);
        }
    }
}

/// Returns a script of two starts.
fn script(alloc: Global) -> Result<Vec<Event>, AllocError> {
    let mut events = Vec::new(alloc);
    for _ in 0..2 {
        events.push(Event::Spawn {
            uid: Uid(1_000),
            nofile: 32,
            privileged: false,
        })?;
    }
    Ok(events)
}

/// Returns a script for each seat but the collector's.
fn scripts(alloc: Global) -> Result<Vec<Vec<Event>>, AllocError> {
    let mut scripts = Vec::new(alloc);
    for _ in 1..SEATS {
        scripts.push(script(alloc)?)?;
    }
    Ok(scripts)
}

/// Drives all scripts and the collector through the gate. Returns whether that could be done.
fn is_driven<R: Threads + Wait + Sync>(
    rt: &R,
    alloc: Global,
    layer: &Layer,
    seats: Vec<Seat>,
    turnstile: &Turnstile,
) -> bool {
    match scripts(alloc) {
        Ok(scripts) => drive(rt, layer, seats, scripts, Some(TURNS), turnstile).is_ok(),
        Err(_) => false,
    }
}

/// Returns how many entries the log of a driven layer has, and which seat made the first one.
fn log_behind<R: Threads + Wait + Sync>(
    rt: &R,
    alloc: Global,
    turnstile: &Turnstile,
) -> Option<(usize, Option<u32>)> {
    let (layer, seats) = Layer::open(alloc, SEATS).ok()?;
    if !is_driven(rt, alloc, &layer, seats, turnstile) {
        return None;
    }
    let book = layer.into_book();
    let log = book.log();
    Some((log.len(), log.first().map(Entry::seat)))
}

/// All seats are inside at once, no lock is held between two calls, and a gate hears of a call
/// after it was made. The log has two calls of each seat.
#[test]
fn seats_call_beside_each_other(rt: HostRuntime) {
    let turnstile = Turnstile::new();
    assert!(rt; log_behind(&rt, rt.alloc(), &turnstile) == Some((128, Some(1))));
    assert!(rt; turnstile.failures.load(Ordering::SeqCst) == 0);
}
