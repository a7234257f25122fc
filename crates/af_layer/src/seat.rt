//! A seat: from it a thread calls, and it lists what was answered.
ghost use Rattle.std.specs.Prelude.{◌≡◌, ◌<◌, ◌⊎◌, ◌++◌, ◌∷◌, [], IfErr, IfOk, IsSome, None, OnErr};
ghost use Rattle.std.specs.Prelude.{OnOk, Some, vec_capacity, vec_len};
ghost use Rattle.af_base.specs.declared.events.Reply.{Reply as Answer};
ghost use Rattle.af_layer.specs.Calls.{Calls, call_refusal};
ghost use Rattle.af_layer.specs.Seats.{grown};
ghost use Rattle.af_layer.specs.Short.{event_of, reply_of};

use crate::backoff;
use crate::book::{Book, CallError};
use crate::entry::{Entry, EventReply, Pair, fill};
use crate::origin::{BookFrom, Origin};
use crate::room::reserve_touched;
use crate::short::{ShortEvent, ShortReply};
use af_base::events::{Event, Reply};
use std::alloc::{AllocError, Global};
use std::marker::Model;
use std::sync::{Mutex, Wait};

/// A caller, with its events and their replies since its list was emptied last.
pub struct Seat {
    number: u32,
    list: List,
    /// The box for the next pair that needs one.
    spare: Option<Pair>,
}

/// The list of a seat. It is not `Drop`: so no call keeps its answer in a list of its own, and lets
/// that go.
pub(crate) struct List {
    pairs: Vec<EventReply>,
}

/// It is written out, and not derived: so an owner's proof has one call where it drops a seat.
impl Drop for Seat {
    fn drop(self) {
        let Seat {
            number: _,
            list: List { pairs: _ },
            spare: _,
        } = self;
    }
}

impl Model for Seat {
    ghost use Rattle.af_layer.specs.Seats.{SeatView};

    ghost Value = { SeatView };

    ghost view = { λ s. record { number = s.number; list = s.list.pairs.items } };
}

impl Seat {
    /// Makes the seat numbered `number`, with an empty list.
    pub(crate) fn new(alloc: Global, number: u32) -> Seat
        ensures { result ≡ record { number = number; list = [] } }
    {
        Seat {
            number,
            list: List {
                pairs: Vec::new(alloc),
            },
            spare: None,
        }
    }

    /// Returns its number, from 1.
    pub fn number(&self) -> u32
        ensures { result ≡ self.now.number }
    {
        self.number
    }

    /// Returns the events that were done from this seat since its list was emptied last, in order,
    /// each with its reply.
    pub fn list(&self) -> &[EventReply]
        ensures { result.now ≡ self.now.list }
    {
        self.list.pairs.as_slice()
    }

    /// Reserves room in the list for `pairs` more pairs, and writes to each page of it. Until they
    /// are there, no call takes memory for the list, or is the first to touch a page of it.
    pub fn reserve(&mut self, pairs: usize) -> Result<(), AllocError>
        ensures { self.new ≡ self.old }
    {
        reserve_touched(
            &mut self.list.pairs,
            pairs,
            || EventReply::of(Entry::blank()),
        )
    }

    /// Empties the list. Its room stays.
    pub(crate) fn empty_list(&mut self)
        ensures { self.new ≡ record self.old { list = [] } }
    {
        self.list.pairs.clear();
    }

    /// Does `event` on `book`, under this seat's number, and keeps it with its reply.
    ///
    /// Room for the pair is reserved first; if it is refused, the error is `NoRoom`. The other
    /// errors are those of [`Book::call`]. After an error the book and the seat are as they were,
    /// and the event is dropped.
    #[inline(always)]
    pub fn call_in(&mut self, book: &mut Book, event: Event) -> Result<(), CallError>
        ensures done { OnOk result ((reply : Answer) × (self.new ≡ grown self.old event reply)
            × Calls book.old self.old.number event reply book.new) }
        ensures open { OnOk result (call_refusal book.old self.old.number ≡ None) }
        ensures refused { IfErr result (λ e.
            (e ≡ CallError.NoRoom) ⊎ (call_refusal book.old self.old.number ≡ Some e)) }
        ensures seat { OnErr result (self.new ≡ self.old) }
        ensures book { OnErr result (book.new ≡ book.old) }
    {
        match ShortEvent::of(event) {
            Ok(short) => self.call_short(book, &short),
            Err(event) => self.call_whole(book, event),
        }
    }

    /// Does an event that has no bytes, and whose reply has none.
    #[inline(always)]
    fn call_short(&mut self, book: &mut Book, event: &ShortEvent) -> Result<(), CallError>
        ensures done { OnOk result ((reply : Answer)
            × (self.new ≡ grown self.old (event_of event.now) reply)
            × Calls book.old self.old.number (event_of event.now) reply book.new) }
        ensures open { OnOk result (call_refusal book.old self.old.number ≡ None) }
        ensures refused { IfErr result (λ e.
            (e ≡ CallError.NoRoom) ⊎ (call_refusal book.old self.old.number ≡ Some e)) }
        ensures seat { OnErr result (self.new ≡ self.old) }
        ensures book { OnErr result (book.new ≡ book.old) }
    {
        self.list.reserve_one()?;
        let reply = book.call_short(self.number, event)?;
        self.list.keep_short(event, &reply);
        Ok(())
    }

    /// Does an event that has no bytes, and whose reply has none, on a book behind a lock. Only the
    /// step and its entry in the log are under the lock, and not the work on the list.
    #[inline(always)]
    pub(crate) fn call_locked<R: Wait, O: Origin>(
        &mut self,
        rt: &R,
        book: &Mutex<BookFrom<O>>,
        event: &ShortEvent,
    ) -> Result<(), CallError>
        ensures done { OnOk result ((reply : Answer)
            × (self.new ≡ grown self.old (event_of event.now) reply)) }
        ensures same { OnErr result (self.new ≡ self.old) }
    {
        self.list.reserve_one()?;
        let reply = backoff::lock(book, rt).call_short(self.number, event)?;
        reply.keep(&mut self.list, event);
        Ok(())
    }

    /// Does any event. Reserves room for a copy of the event before.
    #[inline(never)]
    pub(crate) fn call_whole(&mut self, book: &mut Book, event: Event) -> Result<(), CallError>
        ensures done { OnOk result ((reply : Answer) × (self.new ≡ grown self.old event reply)
            × Calls book.old self.old.number event reply book.new) }
        ensures open { OnOk result (call_refusal book.old self.old.number ≡ None) }
        ensures refused { IfErr result (λ e.
            (e ≡ CallError.NoRoom) ⊎ (call_refusal book.old self.old.number ≡ Some e)) }
        ensures seat { OnErr result (self.new ≡ self.old) }
        ensures book { OnErr result (book.new ≡ book.old) }
    {
        self.list.reserve_one()?;
        let alloc = *self.list.pairs.allocator();
        if fill(alloc, &mut self.spare).is_err() {
            return Err(CallError::NoRoom);
        }
        let Ok(kept) = copy_of(&event) else {
            return Err(CallError::NoRoom);
        };
        let reply = book.call_whole(self.number, event)?;
        self.list.keep_whole(&mut self.spare, kept, reply);
        Ok(())
    }
}

impl List {
    /// Reserves room for one pair more. The list is unchanged.
    #[inline(always)]
    fn reserve_one(&mut self) -> Result<(), CallError>
        ensures room { OnOk result (vec_len self.new.pairs < vec_capacity self.new.pairs) }
        ensures err { IfErr result (λ e. e ≡ CallError.NoRoom) }
        ensures list { self.new.pairs.items ≡ self.old.pairs.items }
    {
        self.pairs.reserve(1).map_err(|_| CallError::NoRoom)
    }

    /// Keeps an event and its reply, in few words.
    #[inline(always)]
    pub(crate) fn keep_short(&mut self, event: &ShortEvent, reply: &ShortReply)
        requires { vec_len self.old.pairs < vec_capacity self.old.pairs }
        ensures { self.new.pairs.items
            ≡ self.old.pairs.items ++ (event_of event.now, reply_of reply.now) ∷ [] }
    {
        let entry = Entry::short(0, event, reply);
        self.pairs.push_reserved(EventReply::of(entry));
    }

    /// Keeps an event and its reply, in the box if they need one.
    fn keep_whole(&mut self, spare: &mut Option<Pair>, event: Event, reply: Reply)
        requires room { vec_len self.old.pairs < vec_capacity self.old.pairs }
        requires spare { IsSome spare.old }
        ensures { self.new.pairs.items ≡ self.old.pairs.items ++ (event, reply) ∷ [] }
    {
        let entry = Entry::of(0, event, reply, spare);
        self.pairs.push_reserved(EventReply::of(entry));
    }
}

/// Copies an event.
fn copy_of(event: &Event) -> Result<Event, AllocError>
    ensures { IfOk result (λ copy. copy ≡ event.now) }
{
    event.clone()
}
