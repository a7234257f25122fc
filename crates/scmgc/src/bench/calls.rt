//! Measures typed calls by an engine alone and by one behind a lock, that lock alone, and calls of
//! a layer.
//!
//! A process opens a plain file and closes it, by turns; behind a lock, one in each thread. Each
//! run is over a fresh engine.

use crate::bench::layer::{self, Locking};
use crate::bench::runs::{Runs, print_times, refusal, time_since};
use af_base::ids::{Fd, Pid, Uid};
use af_layer::Shared;
use af_steps::Engine;
use std::alloc::Global;
use std::io::{self, Print};
use std::sync::{Mutex, Wait};
use std::thread::{self, Threads};
use std::time::{Clock, Instant};

/// The user of all processes.
const USER: Uid = Uid(1_000);

/// How many descriptors a process may have.
const NOFILE: u32 = 32;

/// A thread's process, and whether no call of it was refused.
#[derive(Clone, Copy)]
struct Caller {
    pid: Pid,
    is_done: bool,
}

/// The calls that a run makes.
#[derive(Clone, Copy)]
pub enum Calls {
    /// Calls of a layer from this many threads.
    Layer(u32, Locking),
    /// Calls of an engine behind a lock from this many threads.
    Shared(u32),
    /// Calls of an engine alone.
    Engine,
    /// The lock alone is taken and released.
    Lock,
}

impl Calls {
    /// Measures all runs, and prints what each took.
    pub fn measure<R: Threads + Wait + Clock + Print + Sync>(
        self,
        rt: &R,
        alloc: Global,
        runs: Runs,
    ) -> io::Result<()> {
        let mut times = Vec::new(alloc);
        for _ in 0..runs.count {
            times.push(self.time(rt, alloc, runs.events)?)?;
        }
        print_times(rt, times.as_slice())
    }

    /// Returns how long a run takes, in nanoseconds.
    fn time<R: Threads + Wait + Clock + Sync>(
        self,
        rt: &R,
        alloc: Global,
        events: usize,
    ) -> io::Result<u128> {
        match self {
            Calls::Layer(threads, locking) => {
                layer::time_of_run(rt, alloc, threads, locking, events)
            }
            Calls::Shared(threads) => time_of_shared(rt, alloc, threads, events),
            Calls::Engine => time_of_engine(rt, alloc, events),
            Calls::Lock => time_of_lock(rt, events),
        }
    }
}

/// Returns how long a run over a new engine takes, in nanoseconds.
fn time_of_engine<R: Clock>(rt: &R, alloc: Global, events: usize) -> io::Result<u128> {
    let mut engine = Engine::new(alloc)?;
    time_of_calls(rt, &mut engine, events)
}

/// Starts a process, and returns how long its calls take, in nanoseconds.
fn time_of_calls<R: Clock>(rt: &R, engine: &mut Engine, events: usize) -> io::Result<u128> {
    let Ok(pid) = engine.spawn(USER, NOFILE, false) else {
        return Err(refusal());
    };
    let start = Instant::now(rt)?;
    let is_done = calls_engine(engine, pid, events);
    time_since(rt, start, is_done)
}

/// Makes these calls of an engine, and returns whether none was refused.
fn calls_engine(engine: &mut Engine, pid: Pid, events: usize) -> bool {
    for turn in 0..events {
        let is_done = if turn % 2 == 0 {
            engine.open(pid).is_ok()
        } else {
            engine.close(pid, Fd(0)).is_ok()
        };
        if !is_done {
            return false;
        }
    }
    true
}

/// Returns how long a run from this many threads takes, in nanoseconds.
fn time_of_shared<R: Threads + Wait + Clock + Sync>(
    rt: &R,
    alloc: Global,
    threads: u32,
    events: usize,
) -> io::Result<u128> {
    let shared = Shared::of(Engine::new(alloc)?);
    let mut callers = start_callers(rt, alloc, &shared, threads)?;
    let start = Instant::now(rt)?;
    let is_done = call_beside(rt, &shared, callers.as_mut_slice(), events);
    time_since(rt, start, is_done)
}

/// Starts a process for each thread.
fn start_callers<R: Wait>(
    rt: &R,
    alloc: Global,
    shared: &Shared<Engine>,
    threads: u32,
) -> io::Result<Vec<Caller>> {
    let mut callers = Vec::new(alloc);
    for _ in 0..threads {
        let Ok(pid) = shared.lock(rt).spawn(USER, NOFILE, false) else {
            return Err(refusal());
        };
        callers.push(Caller {
            pid,
            is_done: false,
        })?;
    }
    Ok(callers)
}

/// Makes these calls from each caller in a thread of its own, and returns whether none was refused.
fn call_beside<R: Threads + Wait + Sync>(
    rt: &R,
    shared: &Shared<Engine>,
    callers: &mut [Caller],
    events: usize,
) -> bool {
    let count = callers.len();
    if count == 0 {
        return true;
    }
    thread::for_each_mut(
        rt,
        callers,
        count,
        &|_, caller: &mut Caller| {
            caller.is_done = calls_shared(rt, shared, caller.pid, events);
        },
    );
    are_all_done(callers)
}

/// Returns whether all callers did their calls.
fn are_all_done(callers: &[Caller]) -> bool {
    for caller in callers {
        if !caller.is_done {
            return false;
        }
    }
    true
}

/// Makes these calls of an engine behind a lock, and returns whether none was refused.
fn calls_shared<R: Wait>(rt: &R, shared: &Shared<Engine>, pid: Pid, events: usize) -> bool {
    for turn in 0..events {
        let is_done = if turn % 2 == 0 {
            shared.lock(rt).open(pid).is_ok()
        } else {
            shared.lock(rt).close(pid, Fd(0)).is_ok()
        };
        if !is_done {
            return false;
        }
    }
    true
}

/// Returns how long a lock with a number under it is taken and released, in nanoseconds.
fn time_of_lock<R: Wait + Clock>(rt: &R, events: usize) -> io::Result<u128> {
    let mutex = Mutex::new(0u64);
    let start = Instant::now(rt)?;
    lock_often(rt, &mutex, events);
    time_since(rt, start, true)
}

/// Takes the lock and releases it this many times.
fn lock_often<R: Wait>(rt: &R, mutex: &Mutex<u64>, events: usize) {
    for _ in 0..events {
        let mut count = mutex.lock(rt);
        *count = count.wrapping_add(1);
    }
}
