//! A race of any length: its log is taken at checkpoints.
ghost use Rattle.std.specs.Prelude.{◌≡◌, ◌≤◌, ◌+◌, ◌-◌, ◌*◌, ℕ, List, IfOk, length};
ghost use Rattle.af_layer.specs.Log.{Entry};
ghost use Rattle.scmgc.specs.Race.Parts.{AreFresh, AreLeft, Continues, RacedInParts, share_of};
ghost use Rattle.scmgc.specs.Race.Parts.{with_log};
ghost use Rattle.scmgc.specs.Race.{worker_steps};
ghost use Rattle.scmgc.specs.declared.race.workload.script.TheConstants.{MIN_STEPS};
ghost use Rattle.scmgc.specs.declared.race.workload.table.TheConstants.{MAX_WORKERS};

use crate::race::fault::RaceFault;
use crate::race::outcome::LongOutcome;
use crate::race::part::{Field, last_part, open_field, race_part};
use crate::race::start::{next_parts, sources};
use crate::race::whole::Race;
use crate::race::workload::Source;
use af_layer::Turns;
use std::alloc::Global;
use std::marker::Brand;
use std::sync::Wait;
use std::thread::Threads;

/// The most events of the workers between two checkpoints. With as many turns of the collector and
/// the exits of as many children they fit into a log.
pub const MAX_CHECKPOINT: u32 = 250_000;

/// The most events of each worker of a long race.
pub const MAX_LONG_STEPS: u32 = 100_000_000;

/// A race that stops at checkpoints. Its memory does not grow with its length.
#[derive(Clone, Copy)]
pub struct LongRace {
    /// The settings of the race. Each worker may do up to 100,000,000 events.
    pub race: Race,
    /// How many events the workers do from one checkpoint to the next, 1 to 250,000: each does its
    /// share, and one at least.
    pub checkpoint: u32,
}

impl LongRace {
    /// Races from checkpoint to checkpoint, and audits each log.
    ///
    /// It is a race as that of [`Race::run`]. But at a checkpoint all workers and the collector are
    /// back, and the log is audited against all lists; then log and lists are empty. Before that
    /// the children exit that the workers forked, and the pass that runs is ended. All logs put
    /// together are one legal log, with all scripts whole, that leads to the engine handed out.
    ///
    /// `Memory` says that memory was refused, `Failed` is any other fault, as in [`Race::run`].
    pub fn run<R: Threads + Wait + Sync>(
        self,
        rt: &R,
        alloc: Global,
    ) -> Result<LongOutcome, RaceFault>
        requires workers { (1 ≤ self.race.workers) × (self.race.workers ≤ MAX_WORKERS) }
        requires steps { (MIN_STEPS ≤ self.race.steps) × (self.race.steps ≤ MAX_LONG_STEPS) }
        ensures raced { let race = self.race in IfOk result (λ outcome. (log : List Entry)
            × RacedInParts race.workers race.steps race.seed race.budget self.checkpoint
            (with_log outcome.book log)
            × (outcome.steps ≡ worker_steps race.workers log)) }
        ensures steps { IfOk result (λ outcome.
            outcome.steps ≡ self.race.workers * self.race.steps) }
    {
        let Race {
            workers,
            steps,
            seed,
            ..
        } = self.race;
        let mut sources = sources(alloc, workers, steps, seed)?;
        let mut field = open_field(rt, alloc, workers)?;
        let mut done = 0;
        let mut counted = 0;
        while done < steps {
            let turns = self.share(steps - done);
            let (next, more) = self.next_part(rt, alloc, field, sources.as_mut_slice(), turns)?;
            field = next;
            counted += more as u64;
            done += turns;
        }
        let book = last_part::<Brand, R>(rt, field, workers)?;
        Ok(LongOutcome {
            book,
            steps: counted,
        })
    }

    /// Returns how many events each worker does up to the next checkpoint, where this many are
    /// left.
    fn share(self, left: u32) -> u32
        requires { 1 ≤ self.race.workers }
        ensures { result ≡ share_of self.race.workers self.checkpoint left }
    {
        (self.checkpoint / self.race.workers).max(1).min(left)
    }

    /// Races to the next checkpoint, with this many events of each worker.
    fn next_part<R: Threads + Wait + Sync>(
        self,
        rt: &R,
        alloc: Global,
        field: Field,
        sources: &mut [Source],
        count: u32,
    ) -> Result<(Field, usize), RaceFault>
        requires workers { (1 ≤ self.race.workers) × (self.race.workers ≤ MAX_WORKERS) }
        requires steps { MIN_STEPS ≤ self.race.steps }
        requires fresh { AreFresh (self.race.workers + 2) field.seats.items }
        requires sources { length sources.old ≡ self.race.workers }
        ensures fresh { let race = self.race in
            IfOk result (λ raced. AreFresh (race.workers + 2) raced.0.seats.items) }
        ensures more { let race = self.race in let most = self.checkpoint in
            let goes_on = Continues race.workers race.steps race.seed race.budget most in
            let are_left = AreLeft race.workers race.steps race.seed in
            IfOk result (λ raced. (done : ℕ)
            → done + count ≤ race.steps → count ≡ share_of race.workers most (race.steps - done)
            → goes_on done field.book → are_left done sources.old
            → goes_on (done + count) raced.0.book × are_left (done + count) sources.new
            × (raced.1 ≡ race.workers * count)) }
    {
        let scripts = next_parts(alloc, sources, count)?;
        let turns = Turns {
            turns: count,
            budget: self.race.budget,
        };
        race_part::<Brand, R>(rt, field, scripts, turns)
    }
}
