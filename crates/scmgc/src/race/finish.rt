//! The end of a race, when all workers are back: the children exit, and the collector is done.
ghost use Rattle.std.specs.Prelude.{◌≡◌, ◌↔◌, ◌++◌, ◌∷◌, [], ℕ, IfErr, IsTrue, List, OnOk};
ghost use Rattle.af_base.specs.declared.events.Event.{Event as Asked};
ghost use Rattle.af_base.specs.declared.events.Reply.{Reply as Answer};
ghost use Rattle.af_layer.specs.Drive.{WentOn};
ghost use Rattle.af_layer.specs.Log.{Pair};
ghost use Rattle.af_layer.specs.Seats.{grown};
ghost use Rattle.scmgc.specs.Race.{EndsInSlice, all_exits_of, child_of, exits_of};

use crate::race::fault::RaceFault;
use af_base::events::{Event, Reply, Step};
use af_base::ids::Pid;
use af_base::limits::MAX_BUDGET;
use af_layer::{EventReply, Layer, Origin, Seat};
use std::sync::Wait;

/// A pass is done after at most `MOST_SLICES` slices of the largest budget: it works on only while
/// all its budgets are within three times the files of its begin.
const MOST_SLICES: u32 = 4;

/// Returns the child of a fork, if the event is one and was done.
fn child_of_fork(event: &Event, reply: &Reply) -> Option<Pid>
    ensures { result ≡ child_of (event.now, reply.now) }
{
    match (event, reply) {
        (Event::Proc(_, Step::Fork), Reply::Pid(child)) => Some(*child),
        _ => None,
    }
}

/// Returns the child of an answered fork, if `pair` is one.
fn child_of(pair: &EventReply) -> Option<Pid>
    ensures { result ≡ child_of pair.now }
{
    child_of_fork(&pair.event(), &pair.reply())
}

/// Lets the children exit that were forked by the calls in `list`.
fn end_children_of<R: Wait, O: Origin>(
    rt: &R,
    layer: &Layer<O>,
    main: &mut Seat,
    list: &[EventReply],
) -> Result<(), RaceFault>
    ensures number { main.new.number ≡ main.old.number }
    ensures exits { OnOk result (WentOn main.old.list (exits_of list.now) main.new.list) }
{
    for pair in list {
        if let Some(child) = child_of(pair) {
            layer.call(rt, main, Event::Proc(child, Step::Exit))?;
        }
    }
    Ok(())
}

/// Lets all children exit that were forked from `seats`.
pub fn end_children<R: Wait, O: Origin>(
    rt: &R,
    layer: &Layer<O>,
    main: &mut Seat,
    seats: &[Seat],
) -> Result<(), RaceFault>
    ensures number { main.new.number ≡ main.old.number }
    ensures exits { OnOk result (WentOn main.old.list (all_exits_of seats.now) main.new.list) }
{
    for seat in seats {
        end_children_of(rt, layer, main, seat.list())?;
    }
    Ok(())
}

/// Returns whether the last call from `seat` continued a pass that is not done.
fn is_working(seat: &Seat) -> bool
    ensures { (before : List Pair) (event : Asked) (reply : Answer)
        → seat.now.list ≡ before ++ (event, reply) ∷ []
        → IsTrue result ↔ (reply ≡ Answer.Working) }
{
    match seat.list().last() {
        Some(last) => matches!(*last.reply(), Reply::Working),
        None => false,
    }
}

/// Continues the pass that the collector began, if one runs, until it is done. `Failed` also says
/// that it is still not done after as many slices as each pass takes at most.
pub fn end_pass<R: Wait, O: Origin>(
    rt: &R,
    layer: &Layer<O>,
    main: &mut Seat,
) -> Result<(), RaceFault>
    ensures number { main.new.number ≡ main.old.number }
    ensures list { (more : List Pair) × (main.new.list ≡ main.old.list ++ more) }
    ensures ended { OnOk result (EndsInSlice main.old.list main.new.list) }
{
    'slices: for _ in 0..MOST_SLICES {
        layer.call(rt, main, Event::Slice(MAX_BUDGET))?;
        if !is_working(main) {
            return Ok(());
        }
    }
    Err(RaceFault::Failed)
}

/// Makes a whole pass, which has to be done.
pub fn last_pass<R: Wait, O: Origin>(
    rt: &R,
    layer: &Layer<O>,
    main: &mut Seat,
) -> Result<(), RaceFault>
    ensures number { main.new.number ≡ main.old.number }
    ensures done { OnOk result ((pass reclaimed : ℕ)
        × (main.new ≡ grown main.old Asked.Pass (Answer.Done pass reclaimed))) }

    // A pass needs no memory, so a fault after its reply is not one of memory.
    ensures answered { IfErr result (λ fault. (reply : Answer)
        → main.new ≡ grown main.old Asked.Pass reply → fault ≡ RaceFault.Failed) }
{
    layer.call(rt, main, Event::Pass)?;
    let Some(last) = main.list().last() else {
        return Err(RaceFault::Failed);
    };
    match *last.reply() {
        Reply::Done { .. } => Ok(()),
        _ => Err(RaceFault::Failed),
    }
}
