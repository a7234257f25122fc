//! The lines of events, each read, done by its typed call and answered: no `Event` is made of them.
ghost use Rattle.std.specs.Prelude.{◌≡◌, ◌≤◌, ◌+◌, IfOk, false, vec_capacity, vec_len};
ghost use Rattle.scm_lines.specs.declared.keywords.Verb.TheVariants as verb;
ghost use Rattle.scm_run.specs.Line.{EventDone, StepDone};
ghost use Rattle.scm_run.specs.declared.text.TheConstants.{MAX_REPLY_LINE};

use crate::outcome::{
    push_done, push_fd, push_fds, push_finished, push_pid, push_progress, push_received, push_sent,
    push_started,
};
use af_base::ids::Pid;
use af_steps::Engine;
use scm_lines::{Keyword, LineFault, Verb, forms, is_end, keyword_in};
use std::alloc::Global;

/// Reads the words of a call by the form of its name, does the call, and appends the line of its
/// answer. Words that do not fit end the function.
macro_rules! call {
    ($push:ident($text:ident), $engine:ident.$call:ident($($pid:ident)?), $rest:ident) => {{
        if !is_end($rest) {
            return Err(LineFault::Unreadable);
        }
        $push($text, $engine.$call($($pid)?));
    }};
    (
        $push:ident($text:ident),
        $engine:ident.$call:ident($($pid:ident)?; $($word:ident),+),
        $rest:ident
    ) => {{
        let Some(words) = forms::$call($rest) else {
            return Err(LineFault::Unreadable);
        };
        let ($($word),+) = words;
        $push($text, $engine.$call($($pid,)? $($word),+));
    }};
}

/// Does the step of this verb and the words behind it, and appends the line of its reply.
#[inline(always)]
pub fn do_step(
    alloc: Global,
    engine: &mut Engine,
    pid: Pid,
    verb: Verb,
    rest: &[u8],
    text: &mut Vec<u8>,
) -> Result<(), LineFault>
    requires { vec_len text.old + MAX_REPLY_LINE ≤ vec_capacity text.old }
    ensures { StepDone verb engine.old pid rest.now
        text.old.items result text.new.items engine.new }
{
    match verb {
        Verb::Open => call!(push_fd(text), engine.open(pid), rest),
        Verb::Dup => call!(push_fd(text), engine.dup(pid; from), rest),
        Verb::Dup2 => call!(push_fd(text), engine.dup2(pid; from, to), rest),
        Verb::Close => call!(push_done(text), engine.close(pid; fd), rest),
        Verb::Fork => call!(push_pid(text), engine.fork(pid), rest),
        Verb::Exit => call!(push_done(text), engine.exit(pid), rest),
        Verb::Pair => call!(push_fds(text), engine.pair(pid; kind), rest),
        Verb::Socket => call!(push_fd(text), engine.socket(pid; kind), rest),
        Verb::Bind => call!(push_done(text), engine.bind(pid; on, name), rest),
        Verb::Listen => call!(push_done(text), engine.listen(pid; on, backlog), rest),
        Verb::Connect => call!(push_done(text), engine.connect(pid; on, name), rest),
        Verb::Accept => call!(push_fd(text), engine.accept(pid; on), rest),
        Verb::Send => return send(alloc, engine, pid, rest, text),
        Verb::Recv => return recv(engine, pid, rest, text),
        Verb::Peek => return peek(engine, pid, rest, text),
        Verb::Limit => call!(push_done(text), engine.limit(pid; nofile), rest),
        Verb::Shutdown => call!(push_done(text), engine.shutdown(pid; on, how), rest),
        Verb::Unconnect => call!(push_done(text), engine.unconnect(pid; on), rest),
    }
    Ok(())
}

/// Does `P send N BYTES ITEMS..`. Reading its words may take memory, unlike those of `call!`.
#[inline(always)]
fn send(
    alloc: Global,
    engine: &mut Engine,
    pid: Pid,
    rest: &[u8],
    text: &mut Vec<u8>,
) -> Result<(), LineFault>
    requires { vec_len text.old + MAX_REPLY_LINE ≤ vec_capacity text.old }
    ensures { StepDone verb.Send engine.old pid rest.now
        text.old.items result text.new.items engine.new }
{
    let (on, bytes, attach) = forms::send(alloc, rest)?;
    push_sent(text, engine.send_owned(pid, on, bytes, attach.as_slice()));
    Ok(())
}

// A receive and a peek are kept apart: DECISIONS.md, "Answers are zeroed".

/// Does `P recv N N N`.
#[inline(always)]
fn recv(engine: &mut Engine, pid: Pid, rest: &[u8], text: &mut Vec<u8>) -> Result<(), LineFault>
    requires { vec_len text.old + MAX_REPLY_LINE ≤ vec_capacity text.old }
    ensures { StepDone verb.Recv engine.old pid rest.now
        text.old.items result text.new.items engine.new }
{
    // The reply of a sound world is short.
    engine.lemma_is_sound();
    call!(push_received(text), engine.recv(pid; on, max_bytes, max_fds), rest);
    Ok(())
}

/// Does `P peek N N N`.
#[inline(always)]
fn peek(engine: &mut Engine, pid: Pid, rest: &[u8], text: &mut Vec<u8>) -> Result<(), LineFault>
    requires { vec_len text.old + MAX_REPLY_LINE ≤ vec_capacity text.old }
    ensures { StepDone verb.Peek engine.old pid rest.now
        text.old.items result text.new.items engine.new }
{
    // The reply of a sound world is short.
    engine.lemma_is_sound();
    call!(push_received(text), engine.peek(pid; on, max_bytes, max_fds), rest);
    Ok(())
}

/// Does the event of a line, if the line begins with the keyword of an event, and appends the line
/// of its reply. Returns whether it does.
#[inline(always)]
pub fn do_event(engine: &mut Engine, bytes: &[u8], text: &mut Vec<u8>) -> Result<bool, LineFault>
    requires { vec_len text.old + MAX_REPLY_LINE ≤ vec_capacity text.old }
    ensures done { EventDone engine.old bytes.now
        text.old.items result text.new.items engine.new }
    ensures unchanged { IfOk result (λ is_event. is_event ≡ false → text.new ≡ text.old) }
{
    match keyword_in(bytes) {
        Some((Keyword::Spawn, rest)) => {
            call!(push_pid(text), engine.spawn(; uid, nofile, privileged), rest);
        }
        Some((Keyword::Begin, rest)) => call!(push_started(text), engine.begin(), rest),
        Some((Keyword::Slice, rest)) => call!(push_progress(text), engine.slice(; budget), rest),
        Some((Keyword::Pass, rest)) => call!(push_finished(text), engine.pass(), rest),
        _ => return Ok(false),
    }
    Ok(true)
}
