//! The audit: each seat's list is its part of the log. It takes no memory, and reads the log once.
ghost use Rattle.std.specs.Prelude.{◌≡◌, ◌≢◌, ◌<◌, ◌≤◌, ◌+◌, ◌∷◌, ℕ, All, List};
ghost use Rattle.std.specs.Prelude.{MatchBool, MatchOption, drop, length, slice_index};
ghost use Rattle.af_layer.specs.Log.{Entry as LogEntry};
ghost use Rattle.af_layer.specs.Audit.{HasFault, IsAudited, IsMissing, IsStranger, IsWholeBook};
ghost use Rattle.af_layer.specs.Audit.{IsWrong, NoStranger, NoneMissing, number_at};
ghost use Rattle.af_layer.specs.Walk.{AllTrack, ArePositions, Tracks};

use crate::book::Book;
use crate::entry::{Entry, EventReply};
use crate::seat::Seat;
use af_base::limits::MAX_SEATS;

/// The fault that an audit finds, in the order in which it looks.
#[derive(Clone, Copy, Debug, PartialEq, Eq)]
pub enum CloseFault {
    /// The number of the first seat that the layer does not have, or that came before in the list.
    Stranger(u32),
    /// The least number without a seat.
    Missing(u32),
    /// The least number of a seat whose list is not its part of the log.
    Audit(u32),
}

/// One more than the largest number of a seat.
const NUMBERS: usize = MAX_SEATS as usize + 1;

/// Returns whether one of the seats before this position has the number.
fn is_before(seats: &[Seat], end: usize, number: u32) -> bool
    requires { end ≤ length seats.now }
    ensures { MatchBool result
        ((j : ℕ) × (j < end) × (number_at seats.now j ≡ number))
        ((j : ℕ) → j < end → number_at seats.now j ≢ number) }
{
    for j in 0..end {
        let seat = &seats[j];
        if seat.number() == number {
            return true;
        }
    }
    false
}

/// Returns the number of the first seat that is out of range or came before.
fn first_stranger(seats: &[Seat], count: u32) -> Option<u32>
    ensures { MatchOption result (NoStranger count seats.now) (IsStranger count seats.now) }
{
    for i in 0..seats.len() {
        let seat = &seats[i];
        let number = seat.number();
        if number == 0 || number > count || is_before(seats, i, number) {
            return Some(number);
        }
    }
    None
}

/// Returns the least number without a seat.
fn first_missing(seats: &[Seat], count: u32) -> Option<u32>
    ensures { MatchOption result (NoneMissing count seats.now) (IsMissing count seats.now) }
{
    for before in 0..count {
        let number = before + 1;
        if !is_before(seats, seats.len(), number) {
            return Some(number);
        }
    }
    None
}

/// Returns the position of the seat of each number in the list.
fn positions(seats: &[Seat], count: u32) -> [usize; NUMBERS]
    requires range { (1 ≤ count) × (count ≤ MAX_SEATS) }
    requires known { NoStranger count seats.now }
    requires all_there { NoneMissing count seats.now }
    ensures { ArePositions count seats.now result }
{
    let mut positions = [0; NUMBERS];
    for i in 0..seats.len() {
        let seat = &seats[i];
        positions[seat.number() as usize] = i;
    }
    positions
}

/// Returns how much of a list was in the log, after one entry more of its seat; `None` if the list
/// differs.
fn advance(list: &[EventReply], cursor: Option<usize>, entry: &Entry) -> Option<usize>
    ensures { (log : List LogEntry) (i : ℕ) → drop i log ≡ entry.now ∷ drop (i + 1) log
        → Tracks log list.now entry.now.seat i cursor
        → Tracks log list.now entry.now.seat (i + 1) result }
{
    let cursor = cursor?;
    let pair = list.get(cursor)?;
    if pair.is_of(entry) {
        Some(cursor + 1)
    } else {
        None
    }
}

/// Reads the log once, and moves for each entry the cursor of its seat.
fn walk(log: &[Entry], seats: &[Seat], positions: &[usize], cursors: &mut [Option<usize>])
    requires cursors { length cursors.old ≡ length positions.now }
    requires positions { (k : ℕ) → k < length positions.now
        → slice_index positions.now k < length seats.now }
    requires log { All (λ e. e.seat < length positions.now) log.now }
    requires start { AllTrack log.now seats.now positions.now 0 cursors.old }
    ensures { AllTrack log.now seats.now positions.now (length log.now) cursors.new }
{
    for entry in log {
        let number = entry.seat() as usize;
        let seat = &seats[positions[number]];
        cursors[number] = advance(seat.list(), cursors[number], entry);
    }
}

/// Returns the least number of a seat whose list is not its part of the log.
fn first_wrong(log: &[Entry], seats: &[Seat], count: u32) -> Option<u32>
    requires range { (1 ≤ count) × (count ≤ MAX_SEATS) }
    requires log { All (λ e. (1 ≤ e.seat) × (e.seat ≤ count)) log.now }
    requires known { NoStranger count seats.now }
    requires all_there { NoneMissing count seats.now }
    ensures { MatchOption result
        ((k : ℕ) → 1 ≤ k → k ≤ count → IsAudited log.now seats.now k)
        (λ k. (1 ≤ k) × (k ≤ count) × IsWrong log.now seats.now k) }
{
    let positions = positions(seats, count);
    let mut cursors = [Some(0); NUMBERS];
    walk(log, seats, &positions, &mut cursors);
    for before in 0..count {
        let number = before + 1;
        let seat = &seats[positions[number as usize]];
        if cursors[number as usize] != Some(seat.list().len()) {
            return Some(number);
        }
    }
    None
}

/// Returns the fault in the seats of a book, if there is one.
pub fn audit(book: &Book, seats: &[Seat]) -> Option<CloseFault>
    ensures { MatchOption result (IsWholeBook book.now seats.now) (HasFault book.now seats.now) }
{
    let count = book.seats();
    if let Some(number) = first_stranger(seats, count) {
        return Some(CloseFault::Stranger(number));
    }
    if let Some(number) = first_missing(seats, count) {
        return Some(CloseFault::Missing(number));
    }
    let number = first_wrong(book.log(), seats, count)?;
    Some(CloseFault::Audit(number))
}
