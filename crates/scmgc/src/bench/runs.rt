//! Runs, and how long they take.
ghost use Rattle.std.specs.Prelude.{◌≡◌, ◌<◌, ◌*◌, ◌%◌, IfNone, IfSome, min};

use std::io::{self, Print};
use std::time::{Clock, Instant};

/// How many runs are made, and of how many events each.
#[derive(Clone, Copy)]
pub struct Runs {
    pub events: usize,
    pub count: usize,
}

/// How many events are done in a round, and how many rounds make a run.
#[derive(Clone, Copy)]
pub struct Rounds {
    pub events: usize,
    pub count: usize,
}

impl Runs {
    /// Returns the runs that the words `events` and `count` name.
    pub fn of(events: &str, count: &str) -> Option<Runs> {
        Some(Runs {
            events: events.parse().ok()?,
            count: count.parse().ok()?,
        })
    }

    /// Returns the rounds of a run over `events` events. A run does a short list over and over, and
    /// the next part of a long one. Returns `None` where that does not come out even.
    pub fn rounds(&self, events: usize) -> Option<Rounds>
        ensures some { IfSome result (λ rounds. 0 < rounds.events) }
        ensures round { IfSome result (λ rounds. rounds.events ≡ min self.now.events events) }
        ensures run { IfSome result (λ rounds. rounds.events * rounds.count ≡ self.now.events) }
        ensures list { IfSome result (λ rounds. events % rounds.events ≡ 0) }
        ensures none { let round = min self.now.events events in IfNone result
            (0 < round → self.now.events % round ≡ 0 → ¬ (events % round ≡ 0)) }
    {
        let round = self.events.min(events);
        if round == 0 || self.events % round != 0 || events % round != 0 {
            return None;
        }
        Some(Rounds {
            events: round,
            count: self.events / round,
        })
    }
}

/// Returns how long a run took that began at `start`, in nanoseconds. Fails if an event of the run
/// was refused.
pub fn time_since<R: Clock>(rt: &R, start: Instant, is_done: bool) -> io::Result<u128> {
    if !is_done {
        return Err(refusal());
    }
    Ok(start.elapsed(rt)?.as_nanos())
}

/// Prints the times of all runs, which are over: no printing comes between two of them.
pub fn print_times<R: Print>(rt: &R, times: &[u128]) -> io::Result<()> {
    for time in times {
        println!(rt; "{time}")?;
    }
    Ok(())
}

/// Returns the fault of an event that is refused.
pub fn refusal() -> io::Error {
    io::Error::other("an event was refused")
}
