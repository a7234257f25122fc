//! The parts of a long race: each begins and ends at a checkpoint.
ghost use Rattle.std.specs.Prelude.{◌≡◌, ◌≤◌, ◌+◌, ℕ, [], IfOk, map, take, vec_len};
ghost use Rattle.af_layer.specs.Audit.{AreEmptied, IsWholeBook, list_at};
ghost use Rattle.af_layer.specs.Log.{BookView, IsLegalFrom};
ghost use Rattle.scmgc.specs.Race.Parts.{AreFresh, ChildrenExitInPart, Continues, EndsPart};
ghost use Rattle.scmgc.specs.Race.Parts.{IsOfEnd};
ghost use Rattle.scmgc.specs.Race.Parts.{IsOfPart, IsOfStart, IsPart, SeatsHave, taken};
ghost use Rattle.scmgc.specs.Race.{all_exits_of, worker_steps};
ghost use Rattle.scmgc.specs.declared.race.workload.table.TheConstants.{MAX_WORKERS};

use crate::race::fault::RaceFault;
use crate::race::finish::{end_children, end_pass, last_pass};
use crate::race::outcome::steps_up_to;
use crate::race::start::start_processes;
use af_base::events::Event;
use af_layer::{Book, Entry, Layer, OpenGate, Origin, Seat, Turns, drive};
use std::alloc::Global;
use std::sync::Wait;
use std::thread::Threads;

/// A race at a checkpoint: its book, with an empty log, and its seats, with empty lists. The last
/// seat is the main thread's.
#[derive(Drop)]
pub struct Field {
    pub book: Book,
    pub seats: Vec<Seat>,
}

/// Starts the processes of the workers from the last of the seats.
fn start<R: Wait, O: Origin>(
    rt: &R,
    layer: &Layer<O>,
    mut seats: Vec<Seat>,
    workers: u32,
) -> Result<Vec<Seat>, RaceFault>
    requires workers { workers ≤ MAX_WORKERS }
    requires fresh { AreFresh (workers + 2) seats.items }
    ensures { IfOk result (λ after. SeatsHave (workers + 2) (IsOfStart workers) after.items) }
{
    let mut main = seats.pop().unwrap();
    start_processes(rt, layer, &mut main, workers)?;
    seats.push(main)?;
    Ok(seats)
}

/// Lets the workers do these scripts beside the collector, each in a thread of its own. Then the
/// children exit that they forked, and the pass that runs is ended.
fn play<R: Threads + Wait + Sync, O: Origin + Send>(
    rt: &R,
    layer: &Layer<O>,
    mut seats: Vec<Seat>,
    scripts: Vec<Vec<Event>>,
    turns: Turns,
) -> Result<Vec<Seat>, RaceFault>
    requires fresh { AreFresh (vec_len scripts + 2) seats.items }
    ensures lists { let steps = map (λ script. script.items) scripts.items in
        IfOk result (λ after.
        SeatsHave (vec_len scripts + 2) (IsOfPart steps turns.turns turns.budget) after.items) }
    ensures exits { let n = vec_len scripts + 1 in IfOk result (λ after.
        EndsPart (all_exits_of (take n after.items)) [] (list_at after.items n)) }
{
    let mut main = seats.pop().unwrap();
    let mut seats = drive(rt, layer, seats, scripts, Some(turns), &OpenGate)?;
    end_children(rt, layer, &mut main, seats.as_slice())?;
    end_pass(rt, layer, &mut main)?;
    seats.push(main)?;
    Ok(seats)
}

/// Makes a last pass from the last of the seats.
fn finish<R: Wait, O: Origin>(
    rt: &R,
    layer: &Layer<O>,
    mut seats: Vec<Seat>,
    workers: u32,
) -> Result<Vec<Seat>, RaceFault>
    requires fresh { AreFresh (workers + 2) seats.items }
    ensures { IfOk result (λ after. SeatsHave (workers + 2) (IsOfEnd workers) after.items) }
{
    let mut main = seats.pop().unwrap();
    last_pass(rt, layer, &mut main)?;
    seats.push(main)?;
    Ok(seats)
}

/// Ends a part with an audit, and takes its log.
fn end_part<O: Origin>(
    layer: Layer<O>,
    mut seats: Vec<Seat>,
) -> Result<(Field, Vec<Entry>), RaceFault>
    ensures { IfOk result (λ ended. (book : BookView)
        × O.begins book.seats book.start
        × IsLegalFrom book.start book.seats book.machine book.log
        × IsWholeBook book seats.items
        × AreEmptied seats.items ended.0.seats.items
        × (ended.0.book ≡ taken book)
        × (ended.1.items ≡ book.log)) }
{
    let mut book = layer.into_book();
    match book.checkpoint(seats.as_mut_slice()) {
        Ok(log) => Ok((Field { book, seats }, log)),
        Err(fault) => Err(fault.into()),
    }
}

/// Opens a race of this many workers, and starts their processes.
pub fn open_field<R: Wait>(rt: &R, alloc: Global, workers: u32) -> Result<Field, RaceFault>
    requires { (1 ≤ workers) × (workers ≤ MAX_WORKERS) }
    ensures fresh { IfOk result (λ field. AreFresh (workers + 2) field.seats.items) }
    ensures begun { IfOk result (λ field. (steps seed budget checkpoint : ℕ)
        → Continues workers steps seed budget checkpoint 0 field.book) }
{
    let (layer, seats) = Layer::open(alloc, workers + 2)?;
    let seats = start(rt, &layer, seats, workers)?;
    let (field, _) = end_part(layer, seats)?;
    Ok(field)
}

/// Races from one checkpoint to the next, and counts the steps of the workers in the log.
pub fn race_part<O: Origin + Send, R: Threads + Wait + Sync>(
    rt: &R,
    field: Field,
    scripts: Vec<Vec<Event>>,
    turns: Turns,
) -> Result<(Field, usize), RaceFault>
    requires workers { vec_len scripts ≤ MAX_WORKERS }
    requires origin { O.begins field.book.seats field.book.start }
    requires fresh { AreFresh (vec_len scripts + 2) field.seats.items }
    ensures fresh { IfOk result (λ raced. AreFresh (vec_len scripts + 2) raced.0.seats.items) }
    ensures part { let steps = map (λ script. script.items) scripts.items in
        let P = IsOfPart steps turns.turns turns.budget in
        IfOk result (λ raced. (book : BookView)
        × IsPart O.begins (vec_len scripts + 2) P book
        × ChildrenExitInPart (vec_len scripts) book.log
        × (raced.0.book ≡ taken book)
        × (raced.1 ≡ worker_steps (vec_len scripts) book.log)) }
{
    let workers = scripts.len() as u32;
    let Field { book, seats } = field;
    let layer = Layer::<O>::of(book);
    let seats = play(rt, &layer, seats, scripts, turns)?;
    let (field, log) = end_part(layer, seats)?;
    let steps = steps_up_to(log.as_slice(), workers);
    Ok((field, steps))
}

/// Makes a last pass, and returns the book after it.
pub fn last_part<O: Origin, R: Wait>(rt: &R, field: Field, workers: u32) -> Result<Book, RaceFault>
    requires workers { workers ≤ MAX_WORKERS }
    requires origin { O.begins field.book.seats field.book.start }
    requires fresh { AreFresh (workers + 2) field.seats.items }
    ensures { IfOk result (λ last. (book : BookView)
        × IsPart O.begins (workers + 2) (IsOfEnd workers) book
        × (last ≡ taken book)) }
{
    let Field { book, seats } = field;
    let layer = Layer::<O>::of(book);
    let seats = finish(rt, &layer, seats, workers)?;
    let (Field { book, .. }, _) = end_part(layer, seats)?;
    Ok(book)
}
