//! A race on one layer, whose log is kept whole.
ghost use Rattle.std.specs.Prelude.{◌≡◌, ◌≤◌, ◌+◌, ◌*◌, IfOk, OnOk};
ghost use Rattle.af_layer.specs.Audit.{IsWholeBook};
ghost use Rattle.af_layer.specs.Drive.{Driven, Made};
ghost use Rattle.af_layer.specs.Log.{BookView, IsLegal};
ghost use Rattle.scmgc.specs.Race.Parts.{AreFresh};
ghost use Rattle.scmgc.specs.Race.{ChildrenExit, Finishes, Raced, all_exits_of, worker_steps};
ghost use Rattle.scmgc.specs.Race.{works_of_race};
ghost use Rattle.scmgc.specs.declared.race.workload.script.TheConstants.{MIN_STEPS, MAX_STEPS};
ghost use Rattle.scmgc.specs.declared.race.workload.table.TheConstants.{MAX_WORKERS};

use crate::race::fault::RaceFault;
use crate::race::finish::{end_children, end_pass, last_pass};
use crate::race::outcome::RaceOutcome;
use crate::race::start::{scripts, start_processes};
use af_layer::{Layer, OpenGate, Seat, Turns, drive};
use std::alloc::Global;
use std::sync::Wait;
use std::thread::Threads;

/// The settings of a race.
#[derive(Clone, Copy)]
pub struct Race {
    /// How many workers there are, 1 to 32.
    pub workers: u32,
    /// How many events each worker does, 5 to 20,000, and how many turns the collector makes.
    pub steps: u32,
    /// The number that the events are drawn from.
    pub seed: u32,
    /// The budget of the collector's slices, 1 to 65,536.
    pub budget: u32,
}

/// Lets all children exit that the workers forked, ends the pass that runs, and makes a last one.
fn finish<R: Wait>(rt: &R, layer: &Layer, main: &mut Seat, seats: &[Seat]) -> Result<(), RaceFault>
    ensures number { main.new.number ≡ main.old.number }
    ensures done { OnOk result (Finishes (all_exits_of seats.now) main.old.list main.new.list) }
{
    end_children(rt, layer, main, seats)?;
    end_pass(rt, layer, main)?;
    last_pass(rt, layer, main)
}

impl Race {
    /// Runs the race, and audits its log.
    ///
    /// Each worker has a seat, a process and a script of its own, and the collector has the seat
    /// after them. The last seat is the calling thread's: from it the processes are started, the
    /// children that the workers forked exit, and the last pass is made when all are back. Then the
    /// layer is closed and handed out: its log has all that was done.
    ///
    /// `Memory` says that memory was refused. `Failed` is any other fault: a call that was refused,
    /// a process with another pid, a last pass that was not done, or what the audit found.
    pub fn run<R: Threads + Wait + Sync>(
        self,
        rt: &R,
        alloc: Global,
    ) -> Result<RaceOutcome, RaceFault>
        requires workers { (1 ≤ self.workers) × (self.workers ≤ MAX_WORKERS) }
        requires steps { (MIN_STEPS ≤ self.steps) × (self.steps ≤ MAX_STEPS) }
        ensures raced { IfOk result (λ outcome.
            Raced self.workers self.steps self.seed self.budget outcome.closed.book) }
        ensures exits { IfOk result (λ outcome. ChildrenExit self.workers outcome.closed.book.log) }
        ensures workers { IfOk result (λ outcome. outcome.workers ≡ self.workers) }
        ensures steps { IfOk result (λ outcome.
            worker_steps self.workers outcome.closed.book.log ≡ self.workers * self.steps) }
    {
        let (layer, seats) = Layer::open(alloc, self.workers + 2)?;
        let seats = self.play(rt, alloc, &layer, seats)?;
        let closed = layer.close(seats)?;
        Ok(RaceOutcome {
            workers: self.workers,
            closed,
        })
    }

    /// Plays the whole race on a layer that was just opened, and gives its seats back.
    ///
    /// The layer is lent, so that no early end here drops an engine.
    fn play<R: Threads + Wait + Sync>(
        self,
        rt: &R,
        alloc: Global,
        layer: &Layer,
        mut seats: Vec<Seat>,
    ) -> Result<Vec<Seat>, RaceFault>
        requires workers { (1 ≤ self.workers) × (self.workers ≤ MAX_WORKERS) }
        requires steps { (MIN_STEPS ≤ self.steps) × (self.steps ≤ MAX_STEPS) }
        requires fresh { AreFresh (self.workers + 2) seats.items }
        ensures raced { IfOk result (λ after. (b : BookView) → IsLegal b.seats b.machine b.log
            → IsWholeBook b after.items → Raced self.workers self.steps self.seed self.budget b) }
        ensures exits { IfOk result (λ after. (b : BookView)
            → IsWholeBook b after.items → ChildrenExit self.workers b.log) }
    {
        let mut main = seats.pop().unwrap();
        start_processes(rt, layer, &mut main, self.workers)?;
        let mut seats = self.work(rt, alloc, layer, seats)?;
        finish(rt, layer, &mut main, seats.as_slice())?;
        seats.push(main)?;
        Ok(seats)
    }

    /// Lets the workers and the collector work, each in a thread of its own, and waits for them.
    fn work<R: Threads + Wait + Sync>(
        self,
        rt: &R,
        alloc: Global,
        layer: &Layer,
        seats: Vec<Seat>,
    ) -> Result<Vec<Seat>, RaceFault>
        requires workers { self.workers ≤ MAX_WORKERS }
        requires steps { (MIN_STEPS ≤ self.steps) × (self.steps ≤ MAX_STEPS) }
        ensures { let works = works_of_race self.workers self.steps self.seed self.budget in
            IfOk result (λ after. Driven Made seats.items works after.items) }
    {
        let scripts = scripts(alloc, self.workers, self.steps, self.seed)?;
        let turns = Turns {
            turns: self.steps,
            budget: self.budget,
        };
        Ok(drive(rt, layer, seats, scripts, Some(turns), &OpenGate)?)
    }
}
