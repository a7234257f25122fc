//! The calls of `Engine` that do an event, as values with the same parameters in the same order.
ghost use Rattle.std.specs.Prelude.{◌≡◌, IfErr, IfOk, IsOk};
ghost use Rattle.af_base.specs.declared.events.Event.{Event};
ghost use Rattle.af_base.specs.declared.events.Event.TheVariants as event;
ghost use Rattle.af_base.specs.declared.events.Reply.{Reply};
ghost use Rattle.af_base.specs.declared.events.Reply.TheVariants as reply;
ghost use Rattle.af_base.specs.declared.events.Step.TheVariants as step;
ghost use Rattle.af_steps.specs.Called.{DoesEvent, EventCannotFail, RefusesEvent};
ghost use Rattle.af_steps.specs.Outcome.{finished_reply, got_reply, progress_reply};

use crate::engine::Engine;
use crate::messages::Received;
use crate::passes::{Finished, Progress};
use af_base::errno::Errno;
use af_base::events::{self, Reply, SockType};
use af_base::ids::{Fd, Pid, Uid};
use af_base::items::Bytes;

/// The answer of a call.
pub trait Answer {
    /// The reply that says it.
    ghost told: { Self → Reply };

    /// Returns that reply.
    fn reply(self) -> Reply
        ensures { result ≡ told self };
}

/// A call that does one event.
pub trait Call {
    /// The type of its answer.
    type Answer: Answer;

    /// The event that it does.
    ghost event: { Self → Event };

    /// Does it.
    fn call(self, engine: &mut Engine) -> Result<Self::Answer, Errno>
        ensures done { IfOk result (λ answer.
            DoesEvent engine.old (event self) (Self.Answer.told answer) engine.new) }
        ensures refused { IfErr result (λ e.
            RefusesEvent engine.old (event self) e engine.new) }
        ensures succeeds { EventCannotFail engine.old.world (event self) → IsOk result };
}

impl Answer for () {
    ghost told = { λ _. reply.Ok };

    #[inline(always)]
    fn reply(self) -> Reply {
        Reply::Ok
    }
}

impl Answer for Pid {
    ghost told = { λ pid. reply.Pid pid };

    #[inline(always)]
    fn reply(self) -> Reply {
        Reply::Pid(self)
    }
}

impl Answer for Fd {
    ghost told = { λ fd. reply.Fd fd };

    #[inline(always)]
    fn reply(self) -> Reply {
        Reply::Fd(self)
    }
}

impl Answer for (Fd, Fd) {
    ghost told = { λ fds. reply.Fds fds.0 fds.1 };

    #[inline(always)]
    fn reply(self) -> Reply {
        Reply::Fds(self.0, self.1)
    }
}

impl Answer for u32 {
    ghost told = { λ count. reply.Sent count };

    #[inline(always)]
    fn reply(self) -> Reply {
        Reply::Sent(self)
    }
}

impl Answer for Received {
    ghost told = { λ received. got_reply received };

    #[inline(always)]
    fn reply(self) -> Reply {
        self.into()
    }
}

impl Answer for u64 {
    ghost told = { λ number. reply.Started number };

    #[inline(always)]
    fn reply(self) -> Reply {
        Reply::Started(self)
    }
}

impl Answer for Progress {
    ghost told = { λ progress. progress_reply progress };

    #[inline(always)]
    fn reply(self) -> Reply {
        self.into()
    }
}

impl Answer for Finished {
    ghost told = { λ finished. finished_reply finished };

    #[inline(always)]
    fn reply(self) -> Reply {
        self.into()
    }
}

/// Calls [`Engine::spawn`].
#[derive(Clone, Copy)]
pub struct Spawn(pub Uid, pub u32, pub bool);

impl Call for Spawn {
    type Answer = Pid;

    ghost event = { λ c. event.Spawn c.0 c.1 c.2 };

    #[inline(always)]
    fn call(self, engine: &mut Engine) -> Result<Pid, Errno> {
        engine.spawn(self.0, self.1, self.2)
    }
}

/// Calls [`Engine::open`].
#[derive(Clone, Copy)]
pub struct Open(pub Pid);

impl Call for Open {
    type Answer = Fd;

    ghost event = { λ c. event.Proc c.0 step.Open };

    #[inline(always)]
    fn call(self, engine: &mut Engine) -> Result<Fd, Errno> {
        engine.open(self.0)
    }
}

/// Calls [`Engine::dup`].
#[derive(Clone, Copy)]
pub struct Dup(pub Pid, pub Fd);

impl Call for Dup {
    type Answer = Fd;

    ghost event = { λ c. event.Proc c.0 (step.Dup c.1) };

    #[inline(always)]
    fn call(self, engine: &mut Engine) -> Result<Fd, Errno> {
        engine.dup(self.0, self.1)
    }
}

/// Calls [`Engine::dup2`].
#[derive(Clone, Copy)]
pub struct Dup2(pub Pid, pub Fd, pub Fd);

impl Call for Dup2 {
    type Answer = Fd;

    ghost event = { λ c. event.Proc c.0 (step.Dup2 c.1 c.2) };

    #[inline(always)]
    fn call(self, engine: &mut Engine) -> Result<Fd, Errno> {
        engine.dup2(self.0, self.1, self.2)
    }
}

/// Calls [`Engine::close`].
#[derive(Clone, Copy)]
pub struct Close(pub Pid, pub Fd);

impl Call for Close {
    type Answer = ();

    ghost event = { λ c. event.Proc c.0 (step.Close c.1) };

    #[inline(always)]
    fn call(self, engine: &mut Engine) -> Result<(), Errno> {
        engine.close(self.0, self.1)
    }
}

/// Calls [`Engine::fork`].
#[derive(Clone, Copy)]
pub struct Fork(pub Pid);

impl Call for Fork {
    type Answer = Pid;

    ghost event = { λ c. event.Proc c.0 step.Fork };

    #[inline(always)]
    fn call(self, engine: &mut Engine) -> Result<Pid, Errno> {
        engine.fork(self.0)
    }
}

/// Calls [`Engine::limit`].
#[derive(Clone, Copy)]
pub struct Limit(pub Pid, pub u32);

impl Call for Limit {
    type Answer = ();

    ghost event = { λ c. event.Proc c.0 (step.Limit c.1) };

    #[inline(always)]
    fn call(self, engine: &mut Engine) -> Result<(), Errno> {
        engine.limit(self.0, self.1)
    }
}

/// Calls [`Engine::exit`].
#[derive(Clone, Copy)]
pub struct Exit(pub Pid);

impl Call for Exit {
    type Answer = ();

    ghost event = { λ c. event.Proc c.0 step.Exit };

    #[inline(always)]
    fn call(self, engine: &mut Engine) -> Result<(), Errno> {
        engine.exit(self.0)
    }
}

/// Calls [`Engine::pair`].
#[derive(Clone, Copy)]
pub struct Pair(pub Pid, pub SockType);

impl Call for Pair {
    type Answer = (Fd, Fd);

    ghost event = { λ c. event.Proc c.0 (step.Pair c.1) };

    #[inline(always)]
    fn call(self, engine: &mut Engine) -> Result<(Fd, Fd), Errno> {
        engine.pair(self.0, self.1)
    }
}

/// Calls [`Engine::socket`].
#[derive(Clone, Copy)]
pub struct Socket(pub Pid, pub SockType);

impl Call for Socket {
    type Answer = Fd;

    ghost event = { λ c. event.Proc c.0 (step.Socket c.1) };

    #[inline(always)]
    fn call(self, engine: &mut Engine) -> Result<Fd, Errno> {
        engine.socket(self.0, self.1)
    }
}

/// Calls [`Engine::bind`].
#[derive(Clone, Copy)]
pub struct Bind<'a>(pub Pid, pub Fd, pub &'a [u8]);

impl<'a> Call for Bind<'a> {
    type Answer = ();

    ghost event = { λ c. event.Proc c.0 (step.Bind c.1 c.2.now) };

    #[inline(always)]
    fn call(self, engine: &mut Engine) -> Result<(), Errno> {
        engine.bind(self.0, self.1, self.2)
    }
}

/// Calls [`Engine::listen`].
#[derive(Clone, Copy)]
pub struct Listen(pub Pid, pub Fd, pub u32);

impl Call for Listen {
    type Answer = ();

    ghost event = { λ c. event.Proc c.0 (step.Listen c.1 c.2) };

    #[inline(always)]
    fn call(self, engine: &mut Engine) -> Result<(), Errno> {
        engine.listen(self.0, self.1, self.2)
    }
}

/// Calls [`Engine::shutdown`].
#[derive(Clone, Copy)]
pub struct Shutdown(pub Pid, pub Fd, pub events::Shutdown);

impl Call for Shutdown {
    type Answer = ();

    ghost event = { λ c. event.Proc c.0 (step.Shutdown c.1 c.2) };

    #[inline(always)]
    fn call(self, engine: &mut Engine) -> Result<(), Errno> {
        engine.shutdown(self.0, self.1, self.2)
    }
}

/// Calls [`Engine::unconnect`].
#[derive(Clone, Copy)]
pub struct Unconnect(pub Pid, pub Fd);

impl Call for Unconnect {
    type Answer = ();

    ghost event = { λ c. event.Proc c.0 (step.Unconnect c.1) };

    #[inline(always)]
    fn call(self, engine: &mut Engine) -> Result<(), Errno> {
        engine.unconnect(self.0, self.1)
    }
}

/// Calls [`Engine::connect`].
#[derive(Clone, Copy)]
pub struct Connect<'a>(pub Pid, pub Fd, pub &'a [u8]);

impl<'a> Call for Connect<'a> {
    type Answer = ();

    ghost event = { λ c. event.Proc c.0 (step.Connect c.1 c.2.now) };

    #[inline(always)]
    fn call(self, engine: &mut Engine) -> Result<(), Errno> {
        engine.connect(self.0, self.1, self.2)
    }
}

/// Calls [`Engine::accept`].
#[derive(Clone, Copy)]
pub struct Accept(pub Pid, pub Fd);

impl Call for Accept {
    type Answer = Fd;

    ghost event = { λ c. event.Proc c.0 (step.Accept c.1) };

    #[inline(always)]
    fn call(self, engine: &mut Engine) -> Result<Fd, Errno> {
        engine.accept(self.0, self.1)
    }
}

/// Calls [`Engine::send`].
#[derive(Clone, Copy)]
pub struct Send<'a>(pub Pid, pub Fd, pub &'a [u8], pub &'a [Fd]);

impl<'a> Call for Send<'a> {
    type Answer = u32;

    ghost event = { λ c. event.Proc c.0 (step.Send c.1 c.2.now c.3.now) };

    #[inline(always)]
    fn call(self, engine: &mut Engine) -> Result<u32, Errno> {
        engine.send(self.0, self.1, self.2, self.3)
    }
}

/// Calls [`Engine::send_owned`].
#[derive(Drop)]
pub struct SendOwned<'a>(pub Pid, pub Fd, pub Bytes, pub &'a [Fd]);

impl<'a> Call for SendOwned<'a> {
    type Answer = u32;

    ghost event = { λ c. event.Proc c.0 (step.Send c.1 c.2 c.3.now) };

    #[inline(always)]
    fn call(self, engine: &mut Engine) -> Result<u32, Errno> {
        let SendOwned(pid, on, bytes, attach) = self;
        engine.send_owned(pid, on, bytes, attach)
    }
}

/// Calls [`Engine::recv`].
#[derive(Clone, Copy)]
pub struct Recv(pub Pid, pub Fd, pub u32, pub u32);

impl Call for Recv {
    type Answer = Received;

    ghost event = { λ c. event.Proc c.0 (step.Recv c.1 c.2 c.3) };

    #[inline(always)]
    fn call(self, engine: &mut Engine) -> Result<Received, Errno> {
        engine.recv(self.0, self.1, self.2, self.3)
    }
}

/// Calls [`Engine::peek`].
#[derive(Clone, Copy)]
pub struct Peek(pub Pid, pub Fd, pub u32, pub u32);

impl Call for Peek {
    type Answer = Received;

    ghost event = { λ c. event.Proc c.0 (step.Peek c.1 c.2 c.3) };

    #[inline(always)]
    fn call(self, engine: &mut Engine) -> Result<Received, Errno> {
        engine.peek(self.0, self.1, self.2, self.3)
    }
}

/// Calls [`Engine::begin`].
#[derive(Clone, Copy)]
pub struct Begin;

impl Call for Begin {
    type Answer = u64;

    ghost event = { λ _. event.Begin };

    #[inline(always)]
    fn call(self, engine: &mut Engine) -> Result<u64, Errno> {
        engine.begin()
    }
}

/// Calls [`Engine::slice`].
#[derive(Clone, Copy)]
pub struct Slice(pub u32);

impl Call for Slice {
    type Answer = Progress;

    ghost event = { λ c. event.Slice c.0 };

    #[inline(always)]
    fn call(self, engine: &mut Engine) -> Result<Progress, Errno> {
        engine.slice(self.0)
    }
}

/// Calls [`Engine::pass`].
#[derive(Clone, Copy)]
pub struct Pass;

impl Call for Pass {
    type Answer = Finished;

    ghost event = { λ _. event.Pass };

    #[inline(always)]
    fn call(self, engine: &mut Engine) -> Result<Finished, Errno> {
        engine.pass()
    }
}
