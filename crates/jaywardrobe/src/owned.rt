//! An engine in which each plain file carries a value that the caller handed in when it was
//! opened: a host descriptor, a buffer, an object.
//!
//! A value stays behind its file for as long as a table, a queue or a backlog holds the file. Once
//! the file is freed, by a close, an exit, a receive that drops descriptors, or the collector, its
//! value is handed back, exactly once.
ghost use Rattle.std.specs.Prelude.{◌≡◌, ◌<◌, ℕ, false, true, IfErr, IfNone, IfOk, IfSome, IsOk};
ghost use Rattle.std.specs.Prelude.{IsTrue, OnErr, OnOk, option_copied};
ghost use Rattle.std.specs.Borrow.{sem};
ghost use Rattle.std.specs.Option.{OnSome, option_and_then, option_copied_mut};
ghost use Rattle.std.specs.FinMap as map;
ghost use Rattle.af_base.specs.Counts.{count_in};
ghost use Rattle.af_base.specs.Pass.{IsInTime};
ghost use Rattle.af_base.specs.Places.{table_at};
ghost use Rattle.af_base.specs.Run.{fresh};
ghost use Rattle.af_base.specs.Told.{AreSocketsOnce, TellsChanged};
ghost use Rattle.af_base.specs.Whole.{IsSound};
ghost use Rattle.af_base.specs.World.{IsLive, is_live};
ghost use Rattle.af_steps.specs.Called.{DoesEvent, EventCannotFail, RefusesEvent};
ghost use Rattle.af_steps.specs.Outcome.{Does, Refuses};
ghost use Rattle.jaywardrobe.specs.OwnedView.{AreCarried, HandsBack, opens};

use af_base::errno::Errno;
use af_base::events::{Reply, Step};
use af_base::ids::{Fd, FileRef, Ino, Pid};
use af_steps::{Call, Engine, ToldList};
use ordered_slab::OrderedSlab;
use std::alloc::{AllocError, Global};
use std::marker::Model;

/// An engine, and a value behind each plain file. Dropping it drops the values that were not
/// handed back.
pub struct Owned<T> {
    engine: Engine,
    values: OrderedSlab<T>,
    /// The position where the search for a freed file with a value continues. It is a hint.
    next: usize,
}

/// It is written out, and not derived: so an owner's proof has one call where it drops the engine
/// and the values.
impl<T: Drop> Drop for Owned<T> {
    fn drop(self) {
        let Owned {
            engine: _,
            values: _,
            next: _,
        } = self;
    }
}

impl<T> Model for Owned<T> {
    ghost use Rattle.std.specs.Coded.{codes};
    ghost use Rattle.std.specs.FinMap as map;
    ghost use Rattle.jaywardrobe.specs.OwnedView.{AreOwned, OwnedView};

    ghost Value = { OwnedView T };

    ghost coded = { Prim.hlevel (codes, map.code, T.code) };

    ghost view = { λ a. record { machine = a.engine; values = a.values.values } };

    ghost invariant = { λ a. AreOwned a.engine a.values.values a.values.last };
}

impl<T> Owned<T> {
    ghost use Rattle.jaywardrobe.specs.Lending.{lends_value_at};

    /// Creates an engine to which nothing has happened, and that has no value.
    pub fn new(alloc: Global) -> Result<Owned<T>, AllocError>
        ensures machine { IfOk result (λ o.
            o.machine ≡ record fresh { since = o.machine.since }) }
        ensures untold { IfOk result (λ o. o.machine.since.changed ≡ false) }
        ensures emptied { IfOk result (λ o.
            (o.machine.since.files ≡ map.empty) × (o.machine.since.next ≡ 1)) }
        ensures values { IfOk result (λ o. o.values ≡ map.empty) }
    {
        let mut engine = Engine::new(alloc)?;
        engine.tell(ToldList::Released)?;
        Ok(Owned {
            engine,
            values: OrderedSlab::new(alloc),
            next: 0,
        })
    }

    /// Creates an engine without values that also lists the sockets whose readiness may have
    /// changed (`changed_sockets`). An event that makes a file then needs memory for it in that
    /// list too.
    pub fn with_readiness(alloc: Global) -> Result<Owned<T>, AllocError>
        ensures machine { IfOk result (λ o.
            o.machine ≡ record fresh { since = o.machine.since }) }
        ensures told { IfOk result (λ o. o.machine.since.changed ≡ true) }
        ensures emptied { IfOk result (λ o.
            (o.machine.since.files ≡ map.empty) × (o.machine.since.next ≡ 1)) }
        ensures values { IfOk result (λ o. o.values ≡ map.empty) }
    {
        let mut engine = Engine::new(alloc)?;
        engine.tell(ToldList::Released)?;
        engine.tell(ToldList::Changed)?;
        Ok(Owned {
            engine,
            values: OrderedSlab::new(alloc),
            next: 0,
        })
    }

    /// Returns the engine, for its views.
    #[inline(always)]
    pub fn engine(&self) -> &Engine
        ensures { result.now ≡ self.now.machine }
    {
        &self.engine
    }

    /// Does nothing at run time. Shows that the world is sound, that a running pass is in time,
    /// that each live plain file carries a value, and that no live socket does.
    pub fn lemma_is_sound(&self)
        ensures sound { IsSound self.now.machine.world }
        ensures in_time { IsInTime self.now.machine.pass }
        ensures carried { AreCarried self.now.machine.world self.now.values }
    {
        self.engine.lemma_is_sound();
    }

    /// Opens a plain file, which carries `value` (open(2)). Returns its descriptor, the lowest free
    /// one of the process. A refusal hands the value back, and changes nothing. Refused, in
    /// this order: ESRCH, EMFILE, ENFILE, ENOMEM.
    pub fn open(&mut self, pid: Pid, value: T) -> Result<Fd, (Errno, T)>
        ensures done { IfOk result (λ fd.
            Does self.old.machine pid Step.Open (Reply.Fd fd) self.new.machine) }
        ensures carries { OnOk result
            (self.new.values ≡ map.insert self.old.values self.old.machine.world.next_ino value) }
        ensures fresh { OnOk result
            (map.contains_key self.old.values self.old.machine.world.next_ino ≡ false) }
        ensures refused { IfErr result (λ e.
            Refuses self.old.machine pid Step.Open e.0 self.new.machine) }
        ensures back { IfErr result (λ e. e.1 ≡ value) }
        ensures err { OnErr result (self.new ≡ self.old) }
    {
        // Room is asked for last, as in the engine, so that ENOMEM hides no other refusal.
        if let Err(error) = self.engine.check_open(pid) {
            return Err((error, value));
        }
        if self.values.reserve(1).is_err() {
            return Err((Errno::ENOMEM, value));
        }
        let ino = self.engine.next_ino();
        let fd = match self.engine.open(pid) {
            Ok(fd) => fd,
            Err(error) => return Err((error, value)),
        };
        // The number is in bounds, since the world is within its limits.
        self.engine.lemma_is_sound();
        self.values.push(ino, value);
        Ok(fd)
    }

    /// Does the event of this call, any but an open: `files.call(calls::Dup(pid, fd))` for
    /// `Engine::dup`. The values stay as they are.
    #[inline(always)]
    pub fn call<C: Call>(&mut self, call: C) -> Result<C::Answer, Errno>
        requires { opens (C.event call) ≡ false }
        ensures done { IfOk result (λ answer.
            DoesEvent self.old.machine (C.event call) (C.Answer.told answer) self.new.machine) }
        ensures refused { IfErr result (λ e.
            RefusesEvent self.old.machine (C.event call) e self.new.machine) }
        ensures succeeds { EventCannotFail self.old.machine.world (C.event call) → IsOk result }
        ensures values { self.new.values ≡ self.old.values }
    {
        call.call(&mut self.engine)
    }

    /// Returns the value of the file that a descriptor refers to; `None` where the descriptor is
    /// not open or refers to a socket, or there is no such process. No search.
    pub fn get(&self, pid: Pid, fd: Fd) -> Option<&T>
        ensures { option_copied result
            ≡ option_and_then (map.get self.now.values) (table_at self.now.machine.world pid fd) }
    {
        let file = self.engine.file_on(pid, fd)?;
        self.values.get(&file)
    }

    /// Lends the value of the file that a descriptor refers to, to write to; `None` where the
    /// descriptor is not open or refers to a socket, or there is no such process. No search.
    pub fn get_mut(&mut self, pid: Pid, fd: Fd) -> Option<&mut T>
        ensures* writes_back { sem 𝓛 (lends_value_at T.row self.entry pid fd result) }
        ensures value { option_copied_mut result
            ≡ option_and_then (map.get self.old.values) (table_at self.old.machine.world pid fd) }
    {
        let file = self.engine.file_on(pid, fd)?;
        // A socket carries nothing, and nothing is written for it.
        let value = self.values.get_mut(&file)?;
        Some(value)
    }

    /// Returns the sockets whose readiness may have changed since `take_released` last returned
    /// `None`, each once, if that list is kept. If neither a socket nor its peer is listed, `poll`
    /// answers as it did then. No search.
    pub fn changed_sockets(&self) -> &[FileRef]
        ensures once { AreSocketsOnce self.now.machine.world.files result.now }
        ensures changed { TellsChanged self.now.machine.world self.now.machine.since result.now }
    {
        self.engine.changed_sockets()
    }

    /// Hands back the value of a file that was freed; `None` where each was handed back. It needs
    /// no memory. Call it after an event until it returns `None`: that call also empties the lists
    /// of freed files and of changed readiness, so read `changed_sockets` before. The values come
    /// in no promised order.
    pub fn take_released(&mut self) -> Option<T>
        ensures some { IfSome result (λ value. HandsBack self.old value self.new) }
        ensures fewer { OnSome result (map.len self.new.values < map.len self.old.values) }
        ensures none { IfNone result ((f : ℕ) → IsTrue (map.contains_key self.new.values f)
            → IsLive self.new.machine.world f) }
        ensures values { IfNone result (self.new.values ≡ self.old.values) }
        ensures cleared { IfNone result (self.new.machine.since ≡ record self.old.machine.since {
          files = self.old.machine.world.files;
          next = self.old.machine.world.next_ino;
        }) }
        ensures rest { self.new.machine
            ≡ record self.old.machine { since = self.new.machine.since } }
    {
        let Some((at, file)) = self.next_released() else {
            self.engine.clear_told();
            self.next = 0;
            return None;
        };
        self.next = at;
        self.values.remove(&file)
    }

    /// Returns a freed file that carries a value, and its position in the list of freed files.
    fn next_released(&self) -> Option<(usize, FileRef)>
        ensures some { IfSome result (λ found. IsTrue (map.contains_key self.now.values found.1)
            × (is_live self.now.machine.world found.1 ≡ false)) }
        ensures none { IfNone result ((f : ℕ) → IsTrue (map.contains_key self.now.values f)
            → IsLive self.now.machine.world f) }
    {
        first_from(&self.values, self.engine.released_files(), self.next)
    }
}

/// Returns one of `files` that carries a value, and its position: the first from `place` on, or
/// else the first of all.
fn first_from<T>(values: &OrderedSlab<T>, files: &[Ino], place: usize) -> Option<(usize, FileRef)>
    ensures some { IfSome result (λ found. IsTrue (map.contains_key values.now.values found.1)) }
    ensures listed { IfSome result (λ found. 0 < count_in found.1 files.now) }
    ensures none { IfNone result
        ((f : ℕ) → IsTrue (map.contains_key values.now.values f) → count_in f files.now ≡ 0) }
{
    let from = place.min(files.len());
    let (before, after) = files.split_at(from);
    if let Some((at, file)) = first_with(values, after) {
        return Some((from.saturating_add(at), file));
    }
    first_with(values, before)
}

/// Returns the first of `files` that carries a value, and its position.
fn first_with<T>(values: &OrderedSlab<T>, files: &[Ino]) -> Option<(usize, FileRef)>
    ensures some { IfSome result (λ found. IsTrue (map.contains_key values.now.values found.1)) }
    ensures listed { IfSome result (λ found. 0 < count_in found.1 files.now) }
    ensures none { IfNone result
        ((f : ℕ) → IsTrue (map.contains_key values.now.values f) → count_in f files.now ≡ 0) }
{
    let mut at = 0usize;
    for ino in files {
        if let Some(file) = values.find(*ino) {
            return Some((at, file));
        }
        at = at.saturating_add(1);
    }
    None
}
