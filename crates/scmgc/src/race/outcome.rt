//! The outcome of a race.
ghost use Rattle.std.specs.Prelude.{◌≡◌, IfOk, string_bytes};
ghost use Rattle.std.specs.FinMap as map;
ghost use Rattle.scmgc.specs.Race.{race_lines, worker_steps};

use af_layer::{Book, Closed, Entry};
use std::alloc::{AllocError, Global};

/// The outcome of a race: its layer, which was closed without a fault.
///
/// The log of the closed book has all events of the race. The report of a race is counted in this
/// book.
#[derive(Drop)]
pub struct RaceOutcome {
    /// How many workers there were. Their seats are those from 1 to this number.
    pub workers: u32,
    /// The engine and the log, as the audit left them.
    pub closed: Closed,
}

/// The outcome of a race with checkpoints: each audit ended well.
///
/// The logs are gone. Put together they were one legal log, which led to the engine of the book.
#[derive(Drop)]
pub struct LongOutcome {
    /// The engine as the last audit left it.
    pub book: Book,
    /// How many events the workers did, counted in the logs.
    pub steps: u64,
}

/// The totals of a race. Each audit ended well.
#[derive(Clone, Copy)]
pub struct RaceTotals {
    /// How many events the workers did, counted in the log or logs.
    pub steps: u64,
    /// How many files are live at the end.
    pub left: usize,
}

/// Returns how many entries of a log are of the seats from 1 to this number.
pub fn steps_up_to(log: &[Entry], workers: u32) -> usize
    ensures { result ≡ worker_steps workers log.now }
{
    log.iter().filter(|entry| entry.seat() <= workers).count()
}

impl RaceOutcome {
    /// Counts the events that the workers did, and the files that are live at the end.
    pub fn totals(&self) -> RaceTotals
        ensures steps { result.steps ≡ worker_steps self.now.workers self.now.closed.book.log }
        ensures left { result.left ≡ map.len self.now.closed.book.machine.world.files }
    {
        RaceTotals {
            steps: steps_up_to(self.closed.book.log(), self.workers) as u64,
            left: self.closed.book.engine().live(),
        }
    }
}

impl LongOutcome {
    /// Returns the events that the workers did, and counts the files that are live at the end.
    pub fn totals(&self) -> RaceTotals
        ensures steps { result.steps ≡ self.now.steps }
        ensures left { result.left ≡ map.len self.now.book.machine.world.files }
    {
        RaceTotals {
            steps: self.steps,
            left: self.book.engine().live(),
        }
    }
}

impl RaceTotals {
    /// Writes the three lines that tell the race. The error says that memory was refused.
    pub fn text(&self, alloc: Global) -> Result<String, AllocError>
        ensures { IfOk result (λ text.
            string_bytes text ≡ race_lines self.now.steps self.now.left) }
    {
        let steps = self.steps;
        let left = self.left;
        format!(in alloc; "steps {steps}\naudit ok\nleft {left}\n")
    }
}
