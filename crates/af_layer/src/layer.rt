//! The layer: its lock, and the audit that closes it.
ghost use Rattle.std.specs.Prelude.{◌≡◌, ◌+◌, ◌<◌, ℕ, [], Err, IfErr, IfOk, MatchBool, OnErr, OnOk};
ghost use Rattle.std.specs.Prelude.{slice_index_or, vec_len};
ghost use Rattle.af_base.specs.declared.events.Reply.{Reply as Answer};
ghost use Rattle.af_layer.specs.Audit.{HasFault, IsWholeBook};
ghost use Rattle.af_layer.specs.Calls.{is_seat};
ghost use Rattle.af_layer.specs.Log.{IsLegal, IsLegalFrom};
ghost use Rattle.af_layer.specs.Seats.{SeatView, grown};

use crate::audit::{CloseFault, audit};
use crate::backoff;
use crate::book::{Book, CallError};
use crate::origin::{AtCheckpoint, BookFrom, Fresh, Origin};
use crate::seat::Seat;
use crate::short::ShortEvent;
use af_base::events::Event;
use af_base::limits::MAX_SEATS;
use std::alloc::Global;
use std::sync::{Mutex, MutexGuard, Wait};
use thiserror::Error;

/// A book that threads share: one lock, and under it one call at a time.
///
/// Its parameter says where its log begins. With `Fresh` it has all that was ever done; with
/// `AtCheckpoint` it can be taken ([`BookFrom::checkpoint`]).
pub struct Layer<O: Origin = Fresh> {
    book: Mutex<BookFrom<O>>,
}

/// It is written out, and not derived: so an owner's proof has one call where it drops a layer.
impl<O: Origin> Drop for Layer<O> {
    fn drop(self) {
        let Layer { book: _ } = self;
    }
}

/// Why no layer was opened.
#[derive(Clone, Copy, Debug, PartialEq, Eq, Drop, Error)]
pub enum OpenError {
    /// The number of seats is not 1 to 64.
    #[error("a layer has 1 to 64 seats")]
    BadCount,
    /// Memory was refused.
    #[error("no memory for the seats")]
    NoRoom,
}

/// A layer that was closed: the list of each seat was its part of the log.
#[derive(Drop)]
pub struct Closed {
    /// The engine and the log.
    pub book: Book,
}

/// A layer that was closed with a fault, and all that it had.
#[derive(Drop)]
pub struct CloseError {
    /// The fault that the audit found.
    pub fault: CloseFault,
    /// The engine and the log.
    pub book: Book,
    /// The seats, as they were handed in.
    pub seats: Vec<Seat>,
}

impl Layer {
    /// Opens an empty layer with `seats` seats, numbered from 1.
    ///
    /// Fails with `BadCount` if the number is not 1 to 64, else only if memory is refused.
    pub fn open(alloc: Global, seats: u32) -> Result<(Layer, Vec<Seat>), OpenError>
        ensures count { IfOk result (λ opened. vec_len opened.1 ≡ seats) }
        ensures seats { IfOk result (λ opened. (i : ℕ) (other : SeatView) → i < seats
            → slice_index_or opened.1.items i other ≡ record { number = i + 1; list = [] }) }
        ensures refused { MatchBool (is_seat MAX_SEATS seats)
            (IfErr result (λ e. e ≡ OpenError.NoRoom))
            (result ≡ Err OpenError.BadCount) }
    {
        if seats == 0 || seats > MAX_SEATS {
            return Err(OpenError::BadCount);
        }
        let Ok(mut list) = Vec::with_capacity(alloc, seats as usize) else {
            return Err(OpenError::NoRoom);
        };
        let Ok(book) = Book::new(alloc, seats) else {
            return Err(OpenError::NoRoom);
        };
        for before in 0..seats {
            list.push_reserved(Seat::new(alloc, before + 1));
        }
        Ok((Layer::of(book), list))
    }

    /// Ends the layer with an audit: each number has one seat, and its list is its part of the log,
    /// which is one run from the fresh machine to the engine.
    ///
    /// The error has the fault that the audit found, and all that was handed in. It waits for
    /// nobody and takes no memory. Its cost is linear in the log and in the lists.
    pub fn close(self, seats: Vec<Seat>) -> Result<Closed, CloseError>
        ensures whole { IfOk result (λ closed. IsWholeBook closed.book seats.items) }
        ensures legal { IfOk result (λ closed.
            IsLegal closed.book.seats closed.book.machine closed.book.log) }
        ensures fault { IfErr result (λ e. HasFault e.book seats.items e.fault) }
        ensures seats { IfErr result (λ e. e.seats.items ≡ seats.items) }
        ensures untaken { IfErr result (λ e. IsLegal e.book.seats e.book.machine e.book.log) }
    {
        let book = self.into_book();
        match audit(&book, seats.as_slice()) {
            None => Ok(Closed { book }),
            Some(fault) => Err(CloseError { fault, book, seats }),
        }
    }
}

impl<O: Origin> Layer<O> {
    /// Makes a layer around `book`.
    pub fn of(book: Book) -> Layer<O>
        requires { O.begins book.seats book.start }
    {
        Layer {
            book: Mutex::new(BookFrom::of(book)),
        }
    }

    /// Waits for the lock, and does `event` from `seat`. No other work is done under the lock.
    ///
    /// The errors are those of [`Seat::call_in`]. Of the log nothing can be said here, since other
    /// threads call too: [`Layer::close`] does.
    #[inline(always)]
    pub fn call<R: Wait>(&self, rt: &R, seat: &mut Seat, event: Event) -> Result<(), CallError>
        ensures done { OnOk result ((reply : Answer) × (seat.new ≡ grown seat.old event reply)) }
        ensures same { OnErr result (seat.new ≡ seat.old) }
    {
        match ShortEvent::of(event) {
            Ok(short) => seat.call_locked(rt, &self.book, &short),
            Err(event) => backoff::lock(&self.book, rt).call_whole_from(seat, event),
        }
    }

    /// Waits for the lock, and lends the book until the guard is dropped: for calls that belong
    /// together, or several for the price of one lock. A call on the guard ensures what it does on
    /// the book.
    pub fn lock<R: Wait>(&self, rt: &R) -> MutexGuard<'_, BookFrom<O>> {
        backoff::lock(&self.book, rt)
    }

    /// Ends the layer without an audit, and gives its book back. It waits for nobody.
    pub fn into_book(self) -> Book
        ensures origin { O.begins result.seats result.start }
        ensures legal { IsLegalFrom result.start result.seats result.machine result.log }
    {
        let Layer { book } = self;
        let book = book.into_inner().into_book();
        // The invariant of the book, which says where its log begins and ends.
        book.log();
        book
    }
}

impl Layer {
    /// Turns the layer into one whose log can be taken, by [`BookFrom::checkpoint`].
    pub fn allow_checkpoints(self) -> Layer<AtCheckpoint> {
        Layer::of(self.into_book())
    }
}
