//! Where the log of a layer begins.
ghost use Rattle.std.specs.Prelude.{◌≡◌, ◌<◌, ◌≤◌, ◌-◌, ◌⊎◌, ◌++◌, ◌∷◌, ℕ, [], IfErr, IfOk, None};
ghost use Rattle.std.specs.Prelude.{OnErr, OnOk, Some, length, min, vec_capacity, vec_len};
ghost use Rattle.af_base.specs.declared.limits.TheConstants.{MAX_LOG};
ghost use Rattle.af_base.specs.declared.events.Reply.{Reply as Answer};
ghost use Rattle.af_base.specs.Pass.{Machine};
ghost use Rattle.af_base.specs.Run.{fresh};
ghost use Rattle.af_layer.specs.Audit.{AreEmptied, HasFault, IsWholeBook};
ghost use Rattle.af_layer.specs.Calls.{Calls, RefusedBy, call_refusal};
ghost use Rattle.af_layer.specs.Log.{HasLegalLog, IsReached};
ghost use Rattle.af_layer.specs.Seats.{grown};
ghost use Rattle.af_layer.specs.Short.{event_of};

use crate::audit::CloseFault;
use crate::book::{Book, CallError};
use crate::entry::Entry;
use crate::seat::{List, Seat};
use crate::short::{ShortEvent, ShortReply};
use af_base::events::Event;
use std::alloc::AllocError;
use std::marker::{Brand, Model, PhantomData};

/// Where the log of a layer begins, as a type says it.
///
/// A contract knows of a locked value only what its type says. So the type of a layer says what
/// holds of the machine at which its log begins.
pub trait Origin {
    /// Relates the number of seats to the machine at which the log begins.
    ghost begins: { ℕ → Machine → Type 0 };
}

/// The log begins at the fresh machine: it has all that was ever done.
#[derive(Clone, Copy, Debug, PartialEq, Eq)]
pub struct Fresh;

impl Origin for Fresh {
    ghost begins = { λ seats machine. machine ≡ fresh };
}

/// The log begins at some machine that a legal log leads to from the fresh one. So it may be taken
/// at any time.
#[derive(Clone, Copy, Debug, PartialEq, Eq)]
pub struct AtCheckpoint;

impl Origin for AtCheckpoint {
    ghost begins = { IsReached };
}

/// For a call that picks the origin in its proof, as `LongRace` of `scmgc` does. Without a pick
/// it is that of `Fresh`.
impl Origin for Brand {
    ghost begins = { λ seats machine. machine ≡ fresh };
}

/// The reply to a step of a locked book, until its seat keeps it. It is not `Drop`, and no other
/// module can take it apart. So each step under the lock comes into the list of a seat.
pub(crate) struct Unkept {
    reply: ShortReply,
}

impl Model for Unkept {
    ghost use Rattle.af_base.specs.declared.events.Reply.{Reply};
    ghost use Rattle.af_layer.specs.Short.{reply_of};

    ghost Value = { Reply };

    ghost view = { λ u. reply_of u.reply };
}

impl Unkept {
    /// Keeps `event` with this reply in a seat's `list`.
    #[inline(always)]
    pub(crate) fn keep(self, list: &mut List, event: &ShortEvent)
        requires { vec_len list.old.pairs < vec_capacity list.old.pairs }
        ensures { list.new.pairs.items
            ≡ list.old.pairs.items ++ (event_of event.now, self) ∷ [] }
    {
        let Unkept { reply } = self;
        list.keep_short(event, &reply);
    }
}

/// A book whose log begins where its origin says. A [`Layer`](crate::Layer) lends it.
#[derive(Drop)]
pub struct BookFrom<O: Origin> {
    book: Book,
    origin: PhantomData<O>,
}

impl<O: Origin> Model for BookFrom<O> {
    ghost use Rattle.std.specs.FinMap as map;
    ghost use Rattle.std.specs.Coded.{codes};
    ghost use Rattle.af_layer.specs.Log.{BookView};

    ghost Value = { BookView };

    ghost coded = { Prim.hlevel (codes, map.code) };

    ghost view = { λ b. b.book };

    ghost invariant = { λ b. O.begins b.book.seats b.book.start };
}

impl<O: Origin> BookFrom<O> {
    /// Makes one of `book`, whose log begins so.
    pub(crate) fn of(book: Book) -> BookFrom<O>
        requires { O.begins book.seats book.start }
        ensures { result ≡ book }
    {
        BookFrom {
            book,
            origin: PhantomData,
        }
    }

    /// Gives the book back.
    pub(crate) fn into_book(self) -> Book
        ensures value { result ≡ self }
        ensures origin { O.begins result.seats result.start }
    {
        let BookFrom { book, origin: _ } = self;
        book
    }

    /// Does `event` for the seat numbered `seat`. Neither the event nor its reply has bytes.
    #[inline(always)]
    pub(crate) fn call_short(&mut self, seat: u32, event: &ShortEvent) -> Result<Unkept, CallError>
        ensures done { IfOk result (λ reply.
            Calls self.old seat (event_of event.now) reply self.new) }
        ensures refused { RefusedBy (call_refusal self.old seat) result }
        ensures same { OnErr result (self.new ≡ self.old) }
    {
        let reply = self.book.call_short(seat, event)?;
        Ok(Unkept { reply })
    }

    /// Does `event` from `seat`, in a way that fits any event: [`BookFrom::call`].
    #[inline(never)]
    pub(crate) fn call_whole_from(&mut self, seat: &mut Seat, event: Event) -> Result<(), CallError>
        ensures done { OnOk result ((reply : Answer) × (seat.new ≡ grown seat.old event reply)
            × Calls self.old seat.old.number event reply self.new) }
        ensures refused { IfErr result (λ e.
            (e ≡ CallError.NoRoom) ⊎ (call_refusal self.old seat.old.number ≡ Some e)) }
        ensures seat { OnErr result (seat.new ≡ seat.old) }
        ensures book { OnErr result (self.new ≡ self.old) }
    {
        seat.call_whole(&mut self.book, event)
    }

    /// Does `event` from `seat`: [`Seat::call_in`].
    #[inline(always)]
    pub fn call(&mut self, seat: &mut Seat, event: Event) -> Result<(), CallError>
        ensures done { OnOk result ((reply : Answer) × (seat.new ≡ grown seat.old event reply)
            × Calls self.old seat.old.number event reply self.new) }
        ensures open { OnOk result (call_refusal self.old seat.old.number ≡ None) }
        ensures refused { IfErr result (λ e.
            (e ≡ CallError.NoRoom) ⊎ (call_refusal self.old seat.old.number ≡ Some e)) }
        ensures seat { OnErr result (seat.new ≡ seat.old) }
        ensures book { OnErr result (self.new ≡ self.old) }
    {
        seat.call_in(&mut self.book, event)
    }

    /// Reserves room in the log: [`Book::reserve`].
    pub fn reserve(&mut self, entries: usize) -> Result<(), AllocError>
        ensures room { OnOk result
            (min entries (MAX_LOG - length self.old.log) ≤ self.new.room) }
        ensures kept { self.old.room ≤ self.new.room }
        ensures same { self.new ≡ record self.old { room = self.new.room } }
    {
        self.book.reserve(entries)
    }
}

impl BookFrom<AtCheckpoint> {
    /// Audits the seats, hands over the log and empties the lists: [`Book::checkpoint`]. The next
    /// log begins at a machine that is reached too.
    pub fn checkpoint(&mut self, seats: &mut [Seat]) -> Result<Vec<Entry>, CloseFault>
        ensures legal { HasLegalLog self.old }
        ensures log { IfOk result (λ log. log.items ≡ self.old.log) }
        ensures whole { OnOk result (IsWholeBook self.old seats.old) }
        ensures book { OnOk result
            (self.new ≡ record self.old { start = self.old.machine; log = []; room = 0 }) }
        ensures seats { OnOk result (AreEmptied seats.old seats.new) }
        ensures fault { IfErr result (HasFault self.old seats.old) }
        ensures same { OnErr result ((self.new ≡ self.old) × (seats.new ≡ seats.old)) }
    {
        // The invariant of the book, which says where its log begins and ends.
        self.book.log();
        self.book.checkpoint(seats)
    }
}
