//! Events without bytes and their replies, in few words.
//!
//! An event is matched once, and does its typed call. So no event is made from few words before it
//! is done, and no reply is taken apart into them after.
ghost use Rattle.std.specs.Prelude.{◌≡◌, IfErr, IfOk, IfSome, IsOk, IsTrue};
ghost use Rattle.af_base.specs.Run as run;
ghost use Rattle.af_layer.specs.Short.{event_of, is_short, reply_of, turn_reply_of};

use af_base::errno::Errno;
use af_base::events::{Event, Reply, Shutdown, SockType, Step};
use af_base::ids::{Fd, Pid, Uid};
use af_steps::Engine;

/// An event of a process that has no bytes, and whose reply has none, in 16 bytes. Fields smaller
/// than a word come first, beside the tag.
#[derive(Clone, Copy)]
pub enum ShortEvent {
    Spawn(bool, Uid, u32),
    Open(Pid),
    Dup(Pid, Fd),
    Dup2(Pid, Fd, Fd),
    Close(Pid, Fd),
    Fork(Pid),
    Exit(Pid),
    Pair(SockType, Pid),
    Socket(SockType, Pid),
    Listen(Pid, Fd, u32),
    Accept(Pid, Fd),
    Limit(Pid, u32),
    Shutdown(Shutdown, Pid, Fd),
    Unconnect(Pid, Fd),
}

/// A reply to such an event, in 12 bytes.
#[derive(Clone, Copy)]
pub enum ShortReply {
    Pid(Pid),
    Fd(Fd),
    Fds(Fd, Fd),
    Ok,
    Refused(Errno),
}

/// A reply to an event of the collector, in 24 bytes.
#[derive(Clone, Copy)]
pub enum TurnReply {
    Started(u64),
    Working,
    /// The number of the pass, and how much it has reclaimed.
    Done(u64, u64),
    Refused(Errno),
}

impl ShortEvent {
    /// Returns the event in few words. The error is the event, which is the collector's, or may
    /// have bytes or a reply with bytes.
    #[inline(always)]
    pub fn of(event: Event) -> Result<ShortEvent, Event>
        ensures short { IfOk result (λ short. event_of short ≡ event) }
        ensures other { IfErr result (λ other. other ≡ event) }
        ensures succeeds { IsTrue (is_short event) → IsOk result }
    {
        match event {
            Event::Spawn {
                uid,
                nofile,
                privileged,
            } => Ok(ShortEvent::Spawn(privileged, uid, nofile)),
            Event::Proc(pid, step) => match ShortEvent::of_step(pid, step) {
                Ok(short) => Ok(short),
                Err(step) => Err(Event::Proc(pid, step)),
            },
            other => Err(other),
        }
    }

    /// Returns a step of a process in few words. The error is the step.
    #[inline(always)]
    fn of_step(pid: Pid, step: Step) -> Result<ShortEvent, Step>
        ensures short { IfOk result (λ short. event_of short ≡ Event.Proc pid step) }
        ensures other { IfErr result (λ other. other ≡ step) }
        ensures succeeds { IsTrue (is_short (Event.Proc pid step)) → IsOk result }
    {
        Ok(match step {
            Step::Open => ShortEvent::Open(pid),
            Step::Dup(from) => ShortEvent::Dup(pid, from),
            Step::Dup2(from, to) => ShortEvent::Dup2(pid, from, to),
            Step::Close(fd) => ShortEvent::Close(pid, fd),
            Step::Fork => ShortEvent::Fork(pid),
            Step::Exit => ShortEvent::Exit(pid),
            Step::Pair(kind) => ShortEvent::Pair(kind, pid),
            Step::Socket(kind) => ShortEvent::Socket(kind, pid),
            Step::Listen { on, backlog } => ShortEvent::Listen(pid, on, backlog),
            Step::Accept(on) => ShortEvent::Accept(pid, on),
            Step::Limit(nofile) => ShortEvent::Limit(pid, nofile),
            Step::Shutdown { on, how } => ShortEvent::Shutdown(how, pid, on),
            Step::Unconnect(on) => ShortEvent::Unconnect(pid, on),
            other => return Err(other),
        })
    }

    /// Does the event by its typed call.
    #[inline(always)]
    pub fn step(&self, engine: &mut Engine) -> ShortReply
        ensures { run.Step engine.old (event_of self.now) (reply_of result) engine.new }
    {
        match *self {
            ShortEvent::Spawn(privileged, uid, nofile) => {
                short_reply(engine.spawn(uid, nofile, privileged))
            }
            ShortEvent::Open(pid) => short_reply(engine.open(pid)),
            ShortEvent::Dup(pid, from) => short_reply(engine.dup(pid, from)),
            ShortEvent::Dup2(pid, from, to) => short_reply(engine.dup2(pid, from, to)),
            ShortEvent::Close(pid, fd) => short_reply(engine.close(pid, fd)),
            ShortEvent::Fork(pid) => short_reply(engine.fork(pid)),
            ShortEvent::Exit(pid) => short_reply(engine.exit(pid)),
            ShortEvent::Pair(kind, pid) => short_reply(engine.pair(pid, kind)),
            ShortEvent::Socket(kind, pid) => short_reply(engine.socket(pid, kind)),
            ShortEvent::Listen(pid, on, backlog) => short_reply(engine.listen(pid, on, backlog)),
            ShortEvent::Accept(pid, on) => short_reply(engine.accept(pid, on)),
            ShortEvent::Limit(pid, nofile) => short_reply(engine.limit(pid, nofile)),
            ShortEvent::Shutdown(how, pid, on) => short_reply(engine.shutdown(pid, on, how)),
            ShortEvent::Unconnect(pid, on) => short_reply(engine.unconnect(pid, on)),
        }
    }

    /// Returns the event.
    pub fn event(self) -> Event
        ensures { result ≡ event_of self }
    {
        match self {
            ShortEvent::Spawn(privileged, uid, nofile) => Event::Spawn {
                uid,
                nofile,
                privileged,
            },
            ShortEvent::Open(pid) => Event::Proc(pid, Step::Open),
            ShortEvent::Dup(pid, from) => Event::Proc(pid, Step::Dup(from)),
            ShortEvent::Dup2(pid, from, to) => Event::Proc(pid, Step::Dup2(from, to)),
            ShortEvent::Close(pid, fd) => Event::Proc(pid, Step::Close(fd)),
            ShortEvent::Fork(pid) => Event::Proc(pid, Step::Fork),
            ShortEvent::Exit(pid) => Event::Proc(pid, Step::Exit),
            ShortEvent::Pair(kind, pid) => Event::Proc(pid, Step::Pair(kind)),
            ShortEvent::Socket(kind, pid) => Event::Proc(pid, Step::Socket(kind)),
            ShortEvent::Listen(pid, on, backlog) => Event::Proc(pid, Step::Listen { on, backlog }),
            ShortEvent::Accept(pid, on) => Event::Proc(pid, Step::Accept(on)),
            ShortEvent::Limit(pid, nofile) => Event::Proc(pid, Step::Limit(nofile)),
            ShortEvent::Shutdown(how, pid, on) => Event::Proc(pid, Step::Shutdown { on, how }),
            ShortEvent::Unconnect(pid, on) => Event::Proc(pid, Step::Unconnect(on)),
        }
    }
}

/// Returns the reply of a call's answer, or its error as a refusal.
#[inline(always)]
fn short_reply<T: Into<ShortReply>>(outcome: Result<T, Errno>) -> ShortReply
    ensures ok { IfOk outcome (λ answer. T.converts answer result) }
    ensures err { IfErr outcome (λ error. result ≡ ShortReply.Refused error) }
{
    match outcome {
        Ok(answer) => answer.into(),
        Err(error) => ShortReply::Refused(error),
    }
}

impl ShortReply {
    /// Returns the reply.
    pub fn reply(self) -> Reply
        ensures { result ≡ reply_of self }
    {
        match self {
            ShortReply::Pid(pid) => Reply::Pid(pid),
            ShortReply::Fd(fd) => Reply::Fd(fd),
            ShortReply::Fds(first, second) => Reply::Fds(first, second),
            ShortReply::Ok => Reply::Ok,
            ShortReply::Refused(error) => Reply::Refused(error),
        }
    }
}

// The answers of an engine's calls, each as its reply.

impl From<Pid> for ShortReply {
    ghost use Rattle.af_layer.specs.declared.short.ShortReply.TheVariants as answered;

    ghost from_gives = { λ pid r. r ≡ answered.Pid pid };

    #[inline(always)]
    fn from(pid: Pid) -> ShortReply {
        ShortReply::Pid(pid)
    }
}

impl From<Fd> for ShortReply {
    ghost use Rattle.af_layer.specs.declared.short.ShortReply.TheVariants as answered;

    ghost from_gives = { λ fd r. r ≡ answered.Fd fd };

    #[inline(always)]
    fn from(fd: Fd) -> ShortReply {
        ShortReply::Fd(fd)
    }
}

impl From<(Fd, Fd)> for ShortReply {
    ghost use Rattle.af_layer.specs.declared.short.ShortReply.TheVariants as answered;

    ghost from_gives = { λ fds r. r ≡ answered.Fds fds.0 fds.1 };

    #[inline(always)]
    fn from(fds: (Fd, Fd)) -> ShortReply {
        ShortReply::Fds(fds.0, fds.1)
    }
}

impl From<()> for ShortReply {
    ghost use Rattle.af_layer.specs.declared.short.ShortReply.TheVariants as answered;

    ghost from_gives = { λ _ r. r ≡ answered.Ok };

    #[inline(always)]
    fn from(_: ()) -> ShortReply {
        ShortReply::Ok
    }
}

impl TurnReply {
    /// Returns the reply in few words; `None` if the collector does not reply so.
    pub fn of(reply: &Reply) -> Option<TurnReply>
        ensures { IfSome result (λ short. turn_reply_of short ≡ reply.now) }
    {
        match reply {
            Reply::Started(pass) => Some(TurnReply::Started(*pass)),
            Reply::Working => Some(TurnReply::Working),
            Reply::Done { pass, reclaimed } => Some(TurnReply::Done(*pass, *reclaimed)),
            Reply::Refused(error) => Some(TurnReply::Refused(*error)),
            _ => None,
        }
    }

    /// Returns the reply.
    pub fn reply(self) -> Reply
        ensures { result ≡ turn_reply_of self }
    {
        match self {
            TurnReply::Started(pass) => Reply::Started(pass),
            TurnReply::Working => Reply::Working,
            TurnReply::Done(pass, reclaimed) => Reply::Done { pass, reclaimed },
            TurnReply::Refused(error) => Reply::Refused(error),
        }
    }
}
