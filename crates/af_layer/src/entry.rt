//! The entries of a log, and of the lists of seats. Each takes 32 bytes.
//!
//! Where neither an event nor its reply may have bytes, an entry has them in few words. Else they
//! are in a box, which is allocated before the step, so that no step is done that cannot be logged.
ghost use Rattle.std.specs.Prelude.{◌≡◌, ◌↔◌, IfSome, IsSome, IsTrue, OnOk};
ghost use Rattle.std.specs.Cow.{cow_value};
ghost use Rattle.af_layer.specs.Log.{pair_of};
ghost use Rattle.af_layer.specs.Short.{entry_of, event_of, reply_of};

use crate::short::{ShortEvent, ShortReply, TurnReply};
use af_base::equality::{events_equal, replies_equal};
use af_base::events::{Event, Reply};
use std::alloc::{AllocError, Global};
use std::borrow::Cow;
use std::marker::Model;

/// A box for an event and its reply.
pub type Pair = Box<(Event, Reply)>;

/// How an entry is kept, after the number of its seat.
#[derive(Drop)]
pub enum KeptAs {
    /// A process started or made a step.
    Step(u8, ShortEvent, ShortReply),
    /// The collector began a pass.
    Begin(u8, TurnReply),
    /// It continued the pass, with this budget.
    Slice(u8, u32, TurnReply),
    /// It made a whole pass.
    Pass(u8, TurnReply),
    /// In a box.
    Whole(u8, Pair),
}

impl KeptAs {
    /// Keeps an event of the collector in few words; `None` if it is a process's.
    fn of_turn(seat: u8, event: &Event, reply: &Reply) -> Option<KeptAs>
        ensures { IfSome result (λ kept. entry_of kept
            ≡ record { seat = seat; event = event.now; reply = reply.now }) }
    {
        let reply = TurnReply::of(reply)?;
        match event {
            Event::Begin => Some(KeptAs::Begin(seat, reply)),
            Event::Slice(budget) => Some(KeptAs::Slice(seat, *budget, reply)),
            Event::Pass => Some(KeptAs::Pass(seat, reply)),
            _ => None,
        }
    }

    /// Keeps an event in the box that is there, and leaves none.
    fn whole(seat: u8, event: Event, reply: Reply, spare: &mut Option<Pair>) -> KeptAs
        requires { IsSome spare.old }
        ensures { entry_of result ≡ record { seat = seat; event = event; reply = reply } }
    {
        let mut pair = spare.take().unwrap();
        *pair = (event, reply);
        KeptAs::Whole(seat, pair)
    }
}

/// An event that was done, the seat that it was done from, and what was answered.
#[derive(Drop)]
pub struct Entry {
    kept: KeptAs,
}

impl Model for Entry {
    ghost use Rattle.af_layer.specs.Log.{Entry};
    ghost use Rattle.af_layer.specs.Short.{entry_of};

    ghost Value = { Entry };

    ghost view = { λ e. entry_of e.kept };
}

impl Entry {
    /// Makes an entry that is to be dropped unread.
    pub(crate) fn blank() -> Entry {
        Entry {
            kept: KeptAs::Pass(0, TurnReply::Working),
        }
    }

    /// Makes an entry in few words.
    #[inline(always)]
    pub(crate) fn short(seat: u8, event: &ShortEvent, reply: &ShortReply) -> Entry
        ensures { result
            ≡ record { seat = seat; event = event_of event.now; reply = reply_of reply.now } }
    {
        Entry {
            kept: KeptAs::Step(seat, *event, *reply),
        }
    }

    /// Makes an entry: in few words if the event is the collector's, else in the box that is there.
    pub(crate) fn of(seat: u8, event: Event, reply: Reply, spare: &mut Option<Pair>) -> Entry
        requires { IsSome spare.old }
        ensures { result ≡ record { seat = seat; event = event; reply = reply } }
    {
        let kept = match KeptAs::of_turn(seat, &event, &reply) {
            Some(kept) => kept,
            None => KeptAs::whole(seat, event, reply, spare),
        };
        Entry { kept }
    }

    /// Returns the number of the seat, from 1.
    pub fn seat(&self) -> u32
        ensures { result ≡ self.now.seat }
    {
        match &self.kept {
            KeptAs::Step(seat, _, _)
            | KeptAs::Begin(seat, _)
            | KeptAs::Slice(seat, _, _)
            | KeptAs::Pass(seat, _)
            | KeptAs::Whole(seat, _) => u32::from(*seat),
        }
    }

    /// Returns the event. Takes no memory.
    pub fn event(&self) -> Cow<'_, Event>
        ensures { cow_value result ≡ self.now.event }
    {
        match &self.kept {
            KeptAs::Step(_, event, _) => Cow::Owned(event.event()),
            KeptAs::Begin(_, _) => Cow::Owned(Event::Begin),
            KeptAs::Slice(_, budget, _) => Cow::Owned(Event::Slice(*budget)),
            KeptAs::Pass(_, _) => Cow::Owned(Event::Pass),
            KeptAs::Whole(_, pair) => Cow::Borrowed(&pair.0),
        }
    }

    /// Returns the reply. Takes no memory.
    pub fn reply(&self) -> Cow<'_, Reply>
        ensures { cow_value result ≡ self.now.reply }
    {
        match &self.kept {
            KeptAs::Step(_, _, reply) => Cow::Owned(reply.reply()),
            KeptAs::Begin(_, reply) | KeptAs::Slice(_, _, reply) | KeptAs::Pass(_, reply) => {
                Cow::Owned(reply.reply())
            }
            KeptAs::Whole(_, pair) => Cow::Borrowed(&pair.1),
        }
    }
}

/// An event that was done from a seat, and what was answered.
#[derive(Drop)]
pub struct EventReply {
    entry: Entry,
}

impl Model for EventReply {
    ghost use Rattle.af_layer.specs.Log.{Pair, pair_of};

    ghost Value = { Pair };

    ghost view = { λ e. pair_of e.entry };
}

impl EventReply {
    /// Makes the event and the reply of an entry.
    #[inline(always)]
    pub(crate) fn of(entry: Entry) -> EventReply
        ensures { result ≡ pair_of entry }
    {
        EventReply { entry }
    }

    /// Returns the event. Takes no memory.
    pub fn event(&self) -> Cow<'_, Event>
        ensures { cow_value result ≡ self.now.0 }
    {
        self.entry.event()
    }

    /// Returns the reply. Takes no memory.
    pub fn reply(&self) -> Cow<'_, Reply>
        ensures { cow_value result ≡ self.now.1 }
    {
        self.entry.reply()
    }

    /// Returns whether the entry has this event and this reply.
    pub(crate) fn is_of(&self, entry: &Entry) -> bool
        ensures { IsTrue result ↔ (self.now ≡ pair_of entry.now) }
    {
        let event = self.event();
        let reply = self.reply();
        events_equal(&event, &entry.event()) && replies_equal(&reply, &entry.reply())
    }
}

/// Allocates a box, unless there is one.
pub fn fill(alloc: Global, spare: &mut Option<Pair>) -> Result<(), AllocError>
    ensures { OnOk result (IsSome spare.new) }
{
    if spare.is_none() {
        *spare = Some(Box::new(alloc, (Event::Begin, Reply::Ok))?);
    }
    Ok(())
}
