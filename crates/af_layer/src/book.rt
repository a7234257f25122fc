//! The engine, and the log of all that it did.
ghost use Rattle.std.specs.Prelude.{◌≡◌, ◌≤◌, ◌-◌, [], IfErr, IfOk, IsOk, IsTrue, None, OnErr};
ghost use Rattle.std.specs.Prelude.{OnOk, Some, length, min};
ghost use Rattle.af_base.specs.Pass.{Machine};
ghost use Rattle.af_base.specs.Run.{fresh};
ghost use Rattle.af_layer.specs.Calls.{Calls, RefusedBy, call_refusal};
ghost use Rattle.af_layer.specs.Log.{IsLegalFrom};
ghost use Rattle.af_layer.specs.Short.{event_of, is_short, reply_of};

use crate::entry::{Entry, Pair, fill};
use crate::room::{ReplyRoom, reserve_touched};
use crate::short::{ShortEvent, ShortReply};
use af_base::events::{Event, Reply};
use af_base::limits::{MAX_LOG, MAX_SEATS};
use af_steps::Engine;
use std::alloc::{AllocError, Global};
use std::marker::Model;
use std::mem;
use std::snapshot::Snapshot;
use thiserror::Error;

/// Why a call did nothing. It comes before the step: the engine, the log and the seat are as they
/// were, and the event is dropped.
#[derive(Clone, Copy, Debug, PartialEq, Eq, Drop, Error)]
pub enum CallError {
    /// There is no seat of that number.
    #[error("no such seat")]
    NoSeat,
    /// The log has 1,048,576 entries, as many as it may have until it is taken.
    #[error("the log is full")]
    LogFull,
    /// Memory for the entry, or for the copies that are kept, was refused.
    #[error("no memory for an entry")]
    NoRoom,
}

/// An engine, and the log of all that it did since the log was taken last.
///
/// The log is legal: each entry is of one of the seats. Its events with their replies lead to the
/// machine that the engine shows, from that at the last [`Book::take_log`], or the fresh one.
pub struct Book {
    alloc: Global,
    seats: u32,
    /// The engine when the log was taken last: for contracts alone.
    start: Snapshot<Engine>,
    engine: Engine,
    log: Vec<Entry>,
    /// The box for the next entry that needs one.
    spare: Option<Pair>,
}

/// It is written out, and not derived: so an owner's proof has one call where it drops a book.
impl Drop for Book {
    fn drop(self) {
        let Book {
            alloc: _,
            seats: _,
            start: _,
            engine: _,
            log: _,
            spare: _,
        } = self;
    }
}

impl Model for Book {
    ghost use Rattle.std.specs.FinMap as map;
    ghost use Rattle.std.specs.Coded.{codes};
    ghost use Rattle.std.specs.Prelude.{◌-◌, vec_capacity, vec_len};
    ghost use Rattle.af_layer.specs.Log.{BookView, IsLegalFrom};

    ghost Value = { BookView };

    ghost coded = { Prim.hlevel (codes, map.code) };

    ghost view = { λ b. record {
      seats = b.seats;
      start = b.start.value;
      machine = b.engine;
      log = b.log.items;
      room = vec_capacity b.log - vec_len b.log;
    } };

    ghost invariant = { λ b. IsLegalFrom b.start.value b.seats b.engine b.log.items };
}

impl Book {
    /// Makes an empty book for `seats` seats, 1 to 64. Fails only if memory is refused.
    pub fn new(alloc: Global, seats: u32) -> Result<Book, AllocError>
        requires { (1 ≤ seats) × (seats ≤ MAX_SEATS) }
        ensures { IfOk result (λ book.
            book ≡ record { seats = seats; start = fresh; machine = fresh; log = []; room = 0 }) }
    {
        let engine = Engine::new(alloc)?;
        let start = Snapshot::of(&engine);
        Ok(Book {
            alloc,
            seats,
            start,
            engine,
            log: Vec::new(alloc),
            spare: None,
        })
    }

    /// Returns how many seats there are, 1 to 64. They are numbered from 1.
    pub fn seats(&self) -> u32
        ensures value { result ≡ self.now.seats }
        ensures range { (1 ≤ result) × (result ≤ MAX_SEATS) }
    {
        self.seats
    }

    /// Returns all that was done since the log was taken last, in order: a run from the machine
    /// then to the engine as it is. Where it was never taken, that is the fresh machine.
    pub fn log(&self) -> &[Entry]
        ensures value { result.now ≡ self.now.log }
        ensures legal { IsLegalFrom self.now.start self.now.seats self.now.machine self.now.log }
    {
        self.log.as_slice()
    }

    /// Hands over all entries and empties the log, which runs from the engine as it is then. It
    /// takes no memory.
    ///
    /// Logs that were taken one after the other are one run: [`taken_logs_are_one`].
    ///
    /// [`taken_logs_are_one`]: crate::taken_logs_are_one
    pub fn take_log(&mut self) -> Vec<Entry>
        ensures log { result.items ≡ self.old.log }
        ensures legal { IsLegalFrom self.old.start self.old.seats self.old.machine result.items }
        ensures book { self.new
            ≡ record self.old { start = self.old.machine; log = []; room = 0 } }
    {
        self.start = Snapshot::of(&self.engine);
        mem::replace(&mut self.log, Vec::new(self.alloc))
    }

    /// Reserves room in the log for `entries` more entries, as far as it may grow, and writes to
    /// each page of it. Until they are there, no call takes memory for the log, or is the first to
    /// touch a page of it.
    pub fn reserve(&mut self, entries: usize) -> Result<(), AllocError>
        ensures room { OnOk result
            (min entries (MAX_LOG - length self.old.log) ≤ self.new.room) }
        ensures kept { self.old.room ≤ self.new.room }
        ensures same { self.new ≡ record self.old { room = self.new.room } }
    {
        let most = MAX_LOG.saturating_sub(self.log.len());
        reserve_touched(&mut self.log, entries.min(most), Entry::blank)
    }

    /// Lends the engine.
    pub fn engine(&self) -> &Engine
        ensures { result.now ≡ self.now.machine }
    {
        &self.engine
    }

    /// Does `event` for the seat numbered `seat`, and puts it with its reply into the log.
    ///
    /// Room for the entry is reserved before the step, so that each step is logged. Out of memory
    /// in the step itself is a reply, and is logged. An event of a process needs no other memory to
    /// be logged, unless it or its reply may have bytes.
    pub fn call(&mut self, seat: u32, event: Event) -> Result<Reply, CallError>
        ensures done { IfOk result (λ reply. Calls self.old seat event reply self.new) }
        ensures refused { RefusedBy (call_refusal self.old seat) result }
        ensures succeeds { IsTrue (is_short event) → call_refusal self.old seat ≡ None
            → 1 ≤ self.old.room → IsOk result }
        ensures same { OnErr result (self.new ≡ self.old) }
    {
        match ShortEvent::of(event) {
            Ok(short) => self.call_short(seat, &short).map(ShortReply::reply),
            Err(event) => self.call_whole(seat, event),
        }
    }

    /// Does an event that has no bytes, and whose reply has none.
    #[inline(always)]
    pub(crate) fn call_short(
        &mut self,
        seat: u32,
        event: &ShortEvent,
    ) -> Result<ShortReply, CallError>
        ensures done { IfOk result (λ reply.
            Calls self.old seat (event_of event.now) (reply_of reply) self.new) }
        ensures refused { RefusedBy (call_refusal self.old seat) result }
        ensures succeeds { call_refusal self.old seat ≡ None → 1 ≤ self.old.room → IsOk result }
        ensures same { OnErr result (self.new ≡ self.old) }
    {
        self.check(seat)?;
        if self.log.reserve(1).is_err() {
            return Err(CallError::NoRoom);
        }
        let reply = event.step(&mut self.engine);
        self.log
            .push_reserved(Entry::short(seat as u8, event, &reply));
        Ok(reply)
    }

    /// Does any event. Reserves room for a copy of the reply before.
    pub(crate) fn call_whole(&mut self, seat: u32, event: Event) -> Result<Reply, CallError>
        ensures done { IfOk result (λ reply. Calls self.old seat event reply self.new) }
        ensures refused { RefusedBy (call_refusal self.old seat) result }
        ensures same { OnErr result (self.new ≡ self.old) }
    {
        self.check(seat)?;
        if fill(self.alloc, &mut self.spare).is_err() {
            return Err(CallError::NoRoom);
        }
        let Ok(room) = ReplyRoom::for_event(self.alloc, &event) else {
            return Err(CallError::NoRoom);
        };
        if self.log.reserve(1).is_err() {
            return Err(CallError::NoRoom);
        }
        // The reply of a sound world fits in the room.
        self.engine.lemma_is_sound();
        let reply = self.engine.step(&event);
        let logged = room.copy(&reply);
        let entry = Entry::of(seat as u8, event, logged, &mut self.spare);
        self.log.push_reserved(entry);
        Ok(reply)
    }

    /// Refuses a call of a seat that is not there, or on a full log.
    #[inline(always)]
    fn check(&self, seat: u32) -> Result<(), CallError>
        ensures open { OnOk result (call_refusal self.now seat ≡ None) }
        ensures seat { OnOk result ((1 ≤ seat) × (seat ≤ self.now.seats)) }
        ensures err { IfErr result (λ e. call_refusal self.now seat ≡ Some e) }
    {
        if seat == 0 || seat > self.seats {
            return Err(CallError::NoSeat);
        }
        if self.log.len() >= MAX_LOG {
            return Err(CallError::LogFull);
        }
        Ok(())
    }
}
