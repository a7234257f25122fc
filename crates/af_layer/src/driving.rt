//! A drive: scripts, and a collector beside them, each from a seat of its own.
ghost use Rattle.std.specs.Prelude.{◌≡◌, ◌<◌, ◌≤◌, ◌↔◌, [], IfErr, IfOk, IsTrue, OnOk, length};
ghost use Rattle.std.specs.Prelude.{vec_capacity, vec_len};
ghost use Rattle.af_layer.specs.Drive.{AtFault, Driven, Made, Part, works_of};
ghost use Rattle.af_layer.specs.Workers.{LeastBelow, seats_of, workers_of};

use crate::book::CallError;
use crate::layer::Layer;
use crate::origin::Origin;
use crate::seat::Seat;
use crate::workers::{Gate, Turns, Work, Worker, run};
use af_base::events::Event;
use std::alloc::{AllocError, Global};
use std::sync::Wait;
use std::thread::Threads;
use thiserror::Error;

/// Why a drive did not do all its scripts and turns.
#[derive(Clone, Copy, Debug, PartialEq, Eq, Drop, Error)]
pub enum DriveFault {
    /// There are fewer seats than scripts, the collector counted as one more; nothing was started.
    #[error("fewer seats than scripts")]
    TooFewSeats,
    /// Memory was refused; nothing was started.
    #[error("no memory for the workers")]
    NoRoom,
    /// A call was refused: the least number of a seat where one was, and why.
    #[error("a call from seat {0} was refused")]
    Call(u32, CallError),
}

/// A drive that did not do all its scripts and turns, with the seats in their order.
#[derive(Drop)]
pub struct DriveError {
    /// Why.
    pub fault: DriveFault,
    /// All seats that were handed in.
    pub seats: Vec<Seat>,
}

/// Returns whether each script has a seat, and the collector another one.
#[tactic(auto, using(crate::proofs::Drives::works_count))]
fn are_enough(seats: &[Seat], scripts: &[Vec<Event>], collector: Option<Turns>) -> bool
    ensures { IsTrue result ↔ (length (works_of scripts.now collector) ≤ length seats.now) }
{
    match collector {
        Some(_) => scripts.len() < seats.len(),
        None => scripts.len() <= seats.len(),
    }
}

/// Reserves room for `count` workers, and for as many seats.
fn rooms(alloc: Global, count: usize) -> Result<(Vec<Worker>, Vec<Seat>), AllocError>
    ensures empty { IfOk result (λ rooms. (rooms.0.items ≡ []) × (rooms.1.items ≡ [])) }
    ensures room { IfOk result (λ rooms.
        (count ≤ vec_capacity rooms.0) × (count ≤ vec_capacity rooms.1)) }
{
    Ok((
        Vec::with_capacity(alloc, count)?,
        Vec::with_capacity(alloc, count)?,
    ))
}

/// Returns how many events the scripts have.
fn events_in(scripts: &[Vec<Event>]) -> usize {
    let mut events = 0usize;
    for script in scripts {
        events = events.saturating_add(script.len());
    }
    events
}

/// Gives script i to the i-th seat, the collector's turns to the next, and nothing to the others.
fn hand_out(
    mut workers: Vec<Worker>,
    seats: Vec<Seat>,
    scripts: Vec<Vec<Event>>,
    collector: Option<Turns>,
) -> Vec<Worker>
    requires empty { workers.items ≡ [] }
    requires room { vec_len seats ≤ vec_capacity workers }
    ensures workers { result.items ≡ workers_of seats.items (works_of scripts.items collector) }
    ensures len { vec_len result ≡ vec_len seats }
{
    let mut scripts = scripts.into_iter();
    let mut collector = collector;
    for seat in seats {
        let work = match scripts.next() {
            Some(script) => Some(Work::Script(script)),
            None => collector.take().map(Work::Collect),
        };
        workers.push_reserved(Worker {
            seat,
            work,
            fault: None,
        });
    }
    workers
}

/// Returns the fault of the least seat that stopped.
fn least_fault(workers: &[Worker]) -> Option<(u32, CallError)>
    ensures { LeastBelow workers.now (length workers.now) result }
{
    let mut least: Option<(u32, CallError)> = None;
    for i in 0..workers.len() {
        let worker = &workers[i];
        let number = worker.seat.number();
        if let Some(fault) = worker.fault {
            least = match least {
                Some((before, first)) if before <= number => Some((before, first)),
                _ => Some((number, fault)),
            };
        }
    }
    least
}

/// Returns the seats of the workers, in order.
fn take_back(mut seats: Vec<Seat>, workers: Vec<Worker>) -> Vec<Seat>
    requires empty { seats.items ≡ [] }
    requires room { vec_len workers ≤ vec_capacity seats }
    ensures { result.items ≡ seats_of workers.items }
{
    for worker in workers {
        seats.push_reserved(worker.into_seat());
    }
    seats
}

/// Does script i from the i-th seat, each in a thread of its own, and in the calling thread where
/// the system gives none. With a collector the seat after these makes its turns: a begin where the
/// seat's list is empty or ends in a reply other than `Started` and `Working`, and else a slice.
/// The other seats come back untouched.
///
/// A worker stops at the first call that is refused; the others continue to their ends. All seats
/// come back either way, in their order.
pub fn drive<R: Threads + Wait + Sync, O: Origin + Send, G: Gate + Sync>(
    rt: &R,
    layer: &Layer<O>,
    seats: Vec<Seat>,
    scripts: Vec<Vec<Event>>,
    collector: Option<Turns>,
    gate: &G,
) -> Result<Vec<Seat>, DriveError>
    ensures done { IfOk result (λ v.
        Driven Made seats.items (works_of scripts.items collector) v.items) }
    ensures part { IfErr result (λ e.
        Driven Part seats.items (works_of scripts.items collector) e.seats.items) }
    ensures enough { OnOk result (length (works_of scripts.items collector) ≤ vec_len seats) }
    ensures few { IfErr result (λ e. (e.fault ≡ DriveFault.TooFewSeats)
        ↔ (vec_len seats < length (works_of scripts.items collector))) }
    ensures fault { IfErr result (λ e.
        AtFault seats.items (works_of scripts.items collector) e.fault e.seats.items) }
{
    if !are_enough(seats.as_slice(), scripts.as_slice(), collector) {
        return Err(DriveError {
            fault: DriveFault::TooFewSeats,
            seats,
        });
    }
    let Ok((workers, back)) = rooms(*seats.allocator(), seats.len()) else {
        return Err(DriveError {
            fault: DriveFault::NoRoom,
            seats,
        });
    };
    // A refusal of this room shows at the call that needs it.
    let _room = layer.lock(rt).reserve(events_in(scripts.as_slice()));
    let workers = hand_out(workers, seats, scripts, collector);
    let workers = run(rt, layer, workers, gate);
    let fault = least_fault(workers.as_slice());
    let seats = take_back(back, workers);
    match fault {
        None => Ok(seats),
        Some((number, fault)) => Err(DriveError {
            fault: DriveFault::Call(number, fault),
            seats,
        }),
    }
}
