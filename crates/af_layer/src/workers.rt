//! Workers: each has a seat, and does a script or a collector's turns from it.
ghost use Rattle.std.specs.Prelude.{◌≡◌, OnErr, OnOk, Some, length, vec_len};
ghost use Rattle.af_base.specs.declared.events.Reply.{Reply as Answer};
ghost use Rattle.af_layer.specs.Drive.{Collects, Made, Script, Short, next_turn};
ghost use Rattle.af_layer.specs.Seats.{grown};
ghost use Rattle.af_layer.specs.Workers.{AllWorked, Worked};

use crate::book::CallError;
use crate::layer::Layer;
use crate::origin::Origin;
use crate::seat::Seat;
use af_base::events::{Event, Reply};
use std::marker::Model;
use std::sync::Wait;
use std::thread;
use std::thread::Threads;

/// A hook around each call of a drive: with the seat's number, and the number of the seat's call in
/// this drive, from 1. It runs without the lock.
pub trait Gate {
    /// Runs before a call, which is not made before this returns.
    fn before(&self, seat: u32, nth: u32);

    /// Runs after a call has returned, done or refused.
    fn after(&self, seat: u32, nth: u32);
}

/// A gate that is always open.
#[derive(Clone, Copy, Debug, PartialEq, Eq)]
pub struct OpenGate;

impl Gate for OpenGate {
    fn before(&self, _seat: u32, _nth: u32) {}

    fn after(&self, _seat: u32, _nth: u32) {}
}

/// How often the collector calls in a drive, and the budget of its slices.
#[derive(Clone, Copy, Debug, PartialEq, Eq)]
pub struct Turns {
    /// How many calls the collector makes.
    pub turns: u32,
    /// The budget of each slice, in units.
    pub budget: u32,
}

/// The work of a seat.
#[derive(Drop)]
pub enum Work {
    /// The events of a script, in order.
    Script(Vec<Event>),
    /// Turns of a collector.
    Collect(Turns),
}

/// A seat with its work, if it has any, and the error that stopped it.
#[derive(Drop)]
pub struct Worker {
    pub seat: Seat,
    pub work: Option<Work>,
    pub fault: Option<CallError>,
}

impl Model for Worker {
    ghost use Rattle.std.specs.Prelude.{option_map};
    ghost use Rattle.af_layer.specs.Workers.{WorkerView, work_of};

    ghost Value = { WorkerView };

    ghost view = { λ w. record {
      seat = w.seat;
      work = option_map work_of w.work;
      fault = w.fault;
    } };
}

/// Makes one call, with the gate before and after it.
fn call_through<R: Wait, O: Origin, G: Gate>(
    rt: &R,
    layer: &Layer<O>,
    seat: &mut Seat,
    event: Event,
    gate: &G,
    nth: u32,
) -> Result<(), CallError>
    ensures done { OnOk result ((reply : Answer) × (seat.new ≡ grown seat.old event reply)) }
    ensures same { OnErr result (seat.new ≡ seat.old) }
{
    let number = seat.number();
    gate.before(number, nth);
    let done = layer.call(rt, seat, event);
    gate.after(number, nth);
    done
}

/// Does a script from `seat`, up to the first call that is refused.
fn play<R: Wait, O: Origin, G: Gate>(
    rt: &R,
    layer: &Layer<O>,
    seat: &mut Seat,
    script: Vec<Event>,
    gate: &G,
) -> Result<(), CallError>
    ensures number { seat.new.number ≡ seat.old.number }
    ensures made { OnOk result (Made (Some (Script script.items)) seat.old.list seat.new.list) }
    ensures short { OnErr result (Short (Some (Script script.items)) seat.old.list seat.new.list) }
{
    // A refusal of this room shows at the call that needs it.
    let _room = seat.reserve(script.len());
    // A log is full long before this count could stop rising.
    let mut nth = 0u32;
    for event in script {
        nth = nth.saturating_add(1);
        call_through(rt, layer, seat, event, gate, nth)?;
    }
    Ok(())
}

/// Returns the collector's next event from this seat: it continues a pass that it began.
fn next_event(seat: &Seat, budget: u32) -> Event
    ensures { result ≡ next_turn budget seat.now.list }
{
    let Some(last) = seat.list().last() else {
        return Event::Begin;
    };
    match *last.reply() {
        Reply::Started(_) | Reply::Working => Event::Slice(budget),
        _ => Event::Begin,
    }
}

/// Makes the collector's turns from this seat, up to the first call that is refused.
fn collect<R: Wait, O: Origin, G: Gate>(
    rt: &R,
    layer: &Layer<O>,
    seat: &mut Seat,
    turns: Turns,
    gate: &G,
) -> Result<(), CallError>
    ensures number { seat.new.number ≡ seat.old.number }
    ensures made { OnOk result
        (Made (Some (Collects turns.turns turns.budget)) seat.old.list seat.new.list) }
    ensures short { OnErr result
        (Short (Some (Collects turns.turns turns.budget)) seat.old.list seat.new.list) }
{
    for turn in 0..turns.turns {
        let event = next_event(seat, turns.budget);
        call_through(rt, layer, seat, event, gate, turn + 1)?;
    }
    Ok(())
}

impl Worker {
    /// Does the work, up to the first call that is refused.
    fn do_work<R: Wait, O: Origin, G: Gate>(&mut self, rt: &R, layer: &Layer<O>, gate: &G)
        ensures { Worked self.old self.new }
    {
        let done = match self.work.take() {
            Some(Work::Script(script)) => play(rt, layer, &mut self.seat, script, gate),
            Some(Work::Collect(turns)) => collect(rt, layer, &mut self.seat, turns, gate),
            None => Ok(()),
        };
        self.fault = done.err();
    }

    /// Returns the seat.
    pub fn into_seat(self) -> Seat
        ensures { result ≡ self.seat }
    {
        let Worker { seat, .. } = self;
        seat
    }
}

/// Lets each worker work in a thread of its own.
fn work_all<R: Threads + Wait + Sync, O: Origin + Send, G: Gate + Sync>(
    rt: &R,
    layer: &Layer<O>,
    workers: &mut [Worker],
    gate: &G,
)
    ensures { AllWorked workers.old workers.new }
{
    let count = workers.len();
    if count == 0 {
        return;
    }
    thread::for_each_mut(
        rt,
        workers,
        count,
        &|_, worker: &mut Worker| { worker.do_work(rt, layer, gate) },
    );
}

/// Runs the workers, and returns them when all have worked.
pub fn run<R: Threads + Wait + Sync, O: Origin + Send, G: Gate + Sync>(
    rt: &R,
    layer: &Layer<O>,
    mut workers: Vec<Worker>,
    gate: &G,
) -> Vec<Worker>
    ensures worked { AllWorked workers.items result.items }
    ensures len { vec_len result ≡ vec_len workers }
    ensures count { length result.items ≡ length workers.items }
{
    work_all(rt, layer, workers.as_mut_slice(), gate);
    workers
}
