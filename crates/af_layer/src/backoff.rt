//! A lock from which a thread that finds it taken stays away.
//!
//! A call holds the lock for some tens of nanoseconds. A thread that looks at it again immediately,
//! or is woken for it, takes the engine's cache lines from the thread that works. So it stays away:
//! for longer after each of the first looks, and then for the time of a nap.
use std::hint::spin_loop;
use std::sync::atomic::AtomicU64;
use std::sync::{Mutex, MutexGuard, Wait};
use std::time::Duration;

/// The pauses of the processor before a thread looks at the lock for the second time.
const FIRST_PAUSES: u32 = 64;

/// How often a thread looks again, each time after four times as many pauses, before it naps.
const LOOKS: u32 = 4;

/// How long a nap is, in microseconds. The system adds some fifty.
const NAP: u64 = 200;

/// How often a thread naps and looks, before it sleeps until it is woken.
const NAPS: u32 = 50;

/// Waits for the lock, as [`Mutex::lock`] does.
#[inline(always)]
pub fn lock<'a, T, R: Wait>(mutex: &'a Mutex<T>, rt: &R) -> MutexGuard<'a, T> {
    match mutex.try_lock() {
        Some(guard) => guard,
        None => lock_later(mutex, rt),
    }
}

/// Waits for the lock, which another thread had at the first look.
#[cold]
#[inline(never)]
fn lock_later<'a, T, R: Wait>(mutex: &'a Mutex<T>, rt: &R) -> MutexGuard<'a, T> {
    let mut pauses = FIRST_PAUSES;
    for _ in 0..LOOKS {
        for _ in 0..pauses {
            spin_loop();
        }
        if let Some(guard) = mutex.try_lock() {
            return guard;
        }
        pauses = pauses.saturating_mul(4);
    }
    for _ in 0..NAPS {
        nap(rt);
        if let Some(guard) = mutex.try_lock() {
            return guard;
        }
    }
    mutex.lock(rt)
}

/// Leaves the processor to others for the time of a nap. Nobody wakes the thread, since a wake-up
/// costs the one that works a call of the system.
fn nap<R: Wait>(rt: &R) {
    AtomicU64::new(0).park_timeout(rt, 0, Duration::from_micros(NAP));
}
