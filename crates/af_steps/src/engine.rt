//! The engine: events in, replies out.
ghost use Rattle.std.specs.Prelude.{◌≡◌, ◌<◌, IfOk, IfErr, length};
ghost use Rattle.std.specs.List.{zip};
ghost use Rattle.af_base.specs.Run.{fresh, Run, Step};
ghost use Rattle.af_steps.specs.Outcome.{Answers};
ghost use Rattle.af_steps.specs.Rooms.{EventSucceeds, Succeeds};

use crate::calls::{self, Answer, Call};
use af_base::events;
use af_base::events::{Event, Reply};
use af_base::ids::Pid;
use af_collect::Store;
use std::alloc::{AllocError, Global};
use std::marker::Model;
use thiserror::Error;

/// An engine that does one event after another and answers each.
pub struct Engine {
    pub(crate) alloc: Global,
    pub(crate) store: Store,
    /// The number of the last pass, 0 before the first.
    pub(crate) last_pass: u64,
}

/// It is written out, and not derived: so an owner's proof has one call where it drops an engine.
impl Drop for Engine {
    fn drop(self) {
        let Engine {
            alloc: _,
            store: _,
            last_pass: _,
        } = self;
    }
}

impl Model for Engine {
    ghost use Rattle.std.specs.FinMap as map;
    ghost use Rattle.std.specs.Coded.{codes};
    ghost use Rattle.std.specs.Prelude.{◌≤◌};
    ghost use Rattle.af_base.specs.Pass.{Machine};
    ghost use Rattle.af_base.specs.Whole.{IsSound};
    ghost use Rattle.af_base.specs.declared.limits.TheConstants.{MAX_PASS};

    ghost Value = { Machine };

    ghost coded = { Prim.hlevel (codes, map.code) };

    ghost view = { λ e. record {
      world = e.store.world;
      pass = e.store.pass;
      last_pass = e.last_pass;
      since = e.store.since;
    } };

    ghost invariant = { λ e. IsSound e.store.world × (e.last_pass ≤ MAX_PASS) };
}

/// A run that ended early, since memory for one more reply was refused.
#[derive(Debug, Drop, Error)]
#[error("no memory for a reply")]
pub struct RunStopped {
    /// The replies of the events that were done.
    pub done: Vec<Reply>,
}

impl Engine {
    ghost use Rattle.af_base.specs.Pass.{IsInTime};
    ghost use Rattle.af_base.specs.Whole.{IsSound};

    /// Makes an engine to which nothing has happened: the fresh machine.
    pub fn new(alloc: Global) -> Result<Engine, AllocError>
        ensures { IfOk result (λ e. e ≡ fresh) }
    {
        Ok(Engine {
            alloc,
            store: Store::new(alloc),
            last_pass: 0,
        })
    }

    /// Does one event. It is refused by the first test of its row that fits (`Refusals` in
    /// `af_base/specs`), and with ENOMEM where none fits and memory is refused; after any refusal
    /// the engine is as it was. With room there is no ENOMEM (`Rooms` in `specs`).
    #[inline(always)]
    pub fn step(&mut self, event: &Event) -> Reply
        ensures does { Step self.old event.now result self.new }
        ensures succeeds { EventSucceeds self.old.world event.now result }
    {
        match event {
            Event::Spawn {
                uid,
                nofile,
                privileged,
            } => self.reply_to(calls::Spawn(*uid, *nofile, *privileged)),
            Event::Proc(pid, step) => self.step_of(*pid, step),
            Event::Begin => self.reply_to(calls::Begin),
            Event::Slice(budget) => self.reply_to(calls::Slice(*budget)),
            Event::Pass => self.reply_to(calls::Pass),
        }
    }

    /// Does one event as `step`, and consumes it: the bytes of a send are moved into the message,
    /// and not copied.
    pub fn step_owned(&mut self, event: Event) -> Reply
        ensures does { Step self.old event result self.new }
        ensures succeeds { EventSucceeds self.old.world event result }
    {
        match event {
            Event::Proc(pid, step) => self.step_of_owned(pid, step),
            other => self.step(&other),
        }
    }

    /// Does a step of a process.
    #[inline(always)]
    fn step_of(&mut self, pid: Pid, step: &events::Step) -> Reply
        ensures answers { Answers self.old pid step.now result self.new }
        ensures succeeds { Succeeds self.old.world pid step.now result }
    {
        match step {
            events::Step::Open => self.reply_to(calls::Open(pid)),
            events::Step::Dup(from) => self.reply_to(calls::Dup(pid, *from)),
            events::Step::Dup2(from, to) => self.reply_to(calls::Dup2(pid, *from, *to)),
            events::Step::Close(fd) => self.reply_to(calls::Close(pid, *fd)),
            events::Step::Fork => self.reply_to(calls::Fork(pid)),
            events::Step::Exit => self.reply_to(calls::Exit(pid)),
            events::Step::Pair(kind) => self.reply_to(calls::Pair(pid, *kind)),
            events::Step::Socket(kind) => self.reply_to(calls::Socket(pid, *kind)),
            events::Step::Bind { on, name } => {
                self.reply_to(calls::Bind(pid, *on, name.as_slice()))
            }
            events::Step::Listen { on, backlog } => {
                self.reply_to(calls::Listen(pid, *on, *backlog))
            }
            events::Step::Connect { on, name } => {
                self.reply_to(calls::Connect(pid, *on, name.as_slice()))
            }
            events::Step::Accept(on) => self.reply_to(calls::Accept(pid, *on)),
            events::Step::Send { on, bytes, attach } => {
                self.reply_to(calls::Send(pid, *on, bytes.as_slice(), attach.as_slice()))
            }
            events::Step::Recv {
                on,
                max_bytes,
                max_fds,
            } => self.reply_to(calls::Recv(pid, *on, *max_bytes, *max_fds)),
            events::Step::Peek {
                on,
                max_bytes,
                max_fds,
            } => self.reply_to(calls::Peek(pid, *on, *max_bytes, *max_fds)),
            events::Step::Limit(nofile) => self.reply_to(calls::Limit(pid, *nofile)),
            events::Step::Unconnect(on) => self.reply_to(calls::Unconnect(pid, *on)),
            events::Step::Shutdown { on, how } => { self.reply_to(calls::Shutdown(pid, *on, *how)) }
        }
    }

    /// Does a step of a process, and consumes it.
    #[inline(always)]
    fn step_of_owned(&mut self, pid: Pid, step: events::Step) -> Reply
        ensures answers { Answers self.old pid step result self.new }
        ensures succeeds { Succeeds self.old.world pid step result }
    {
        match step {
            events::Step::Send { on, bytes, attach } => {
                self.reply_to(calls::SendOwned(pid, on, bytes, attach.as_slice()))
            }
            other => self.step_of(pid, &other),
        }
    }

    /// Does the event of this call, and returns its reply.
    #[inline(always)]
    pub fn reply_to<C: Call>(&mut self, call: C) -> Reply
        ensures does { Step self.old (C.event call) result self.new }
        ensures succeeds { EventSucceeds self.old.world (C.event call) result }
    {
        match call.call(self) {
            Ok(answer) => answer.reply(),
            Err(error) => Reply::Refused(error),
        }
    }

    /// Does `events` in order, and returns their replies. If memory for one more reply is refused,
    /// the error has the replies of the events that were done.
    pub fn run(&mut self, events: &[Event]) -> Result<Vec<Reply>, RunStopped>
        ensures whole { IfOk result (λ replies. length replies.items ≡ length events.now) }
        ensures run { IfOk result (λ replies.
            Run self.old (zip events.now replies.items) self.new) }
        ensures fewer { IfErr result (λ stopped. length stopped.done.items < length events.now) }
        ensures stopped { IfErr result (λ stopped.
            Run self.old (zip events.now stopped.done.items) self.new) }
    {
        let mut done = Vec::new(self.alloc);
        for event in events {
            if done.reserve(1).is_err() {
                return Err(RunStopped { done });
            }
            let reply = self.step(event);
            done.push_reserved(reply);
        }
        Ok(done)
    }

    /// Does nothing at run time. Shows that the engine's world is well-formed, within all limits,
    /// and settled, whatever happened before. Shows that a pass that runs has spent at most three
    /// units for each file of its begin.
    pub fn lemma_is_sound(&self)
        ensures sound { IsSound self.now.world }
        ensures in_time { IsInTime self.now.pass }
    {
        // The invariants of the engine and of its store say it.
        self.store.lemma_pass();
    }
}
