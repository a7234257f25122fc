//! The forms of a line, by its keyword. `specs/Forms.antt` has them as a table, row by row.
//!
//! A form that has words is a function that reads its row, and answers nothing where the words do
//! not fit. [`step`] and [`line`] make a fault of that.
ghost use Rattle.std.specs.Prelude.{◌≡◌, IfErr, IfOk, None, Some, true};
ghost use Rattle.af_base.specs.declared.events.Event.TheVariants as event;
ghost use Rattle.af_base.specs.declared.events.Step.TheVariants as step;
ghost use Rattle.std.specs.Option.{option_map};
ghost use Rattle.scm_lines.specs.Fault.{Reads};
ghost use Rattle.scm_lines.specs.Words.{word_in, words_of};
ghost use Rattle.scm_lines.specs.Keywords.{privilege_of};
ghost use Rattle.scm_lines.specs.Forms.{how, line_row, name, number, read_form, sockets};
ghost use Rattle.scm_lines.specs.Forms.{value_in, verb_row, version, word_value};
ghost use Rattle.scm_lines.specs.Meaning.{form_of, step_of, step_takes_memory, takes_memory};
ghost use Rattle.scm_lines.specs.declared.fault.LineFault.TheVariants as fault;
ghost use Rattle.scm_lines.specs.declared.keywords.Keyword.TheVariants as keyword;
ghost use Rattle.scm_lines.specs.declared.keywords.Verb.TheVariants as verb;
ghost use Rattle.scm_lines.specs.declared.line.Line.TheVariants as line;

use crate::attached::{Descriptors, attached};
use crate::fault::LineFault;
use crate::keywords::{
    Keyword, Verb, how_named, keyword_named, type_named, verb_named, version_named,
};
use crate::line::{Line, Report};
use crate::numbers::{number, number_in};
use crate::payload::payload;
use crate::words::{all_printable, first_word, is_end};
use af_base::events::{Event, Shutdown, SockType, Step};
use af_base::ids::{Fd, Pid, Uid};
use af_base::items::{Bytes, Items};
use smallvec::SmallVec;
use std::alloc::Global;

// ---- words

/// Reads a type of sockets, and returns the bytes after it.
fn socket_type(bytes: &[u8]) -> Option<(SockType, &[u8])>
    ensures { option_map (λ found. (found.0, words_of found.1.now)) result
        ≡ value_in sockets (words_of bytes.now) }
{
    let (word, rest) = first_word(bytes)?;
    Some((type_named(word)?, rest))
}

/// Reads a name, and returns the bytes after it. Any printable word is read as a name: the step
/// refuses a bad one.
fn name_in(bytes: &[u8]) -> Option<(&[u8], &[u8])>
    ensures { option_map (λ found. (found.0.now, words_of found.1.now)) result
        ≡ value_in name (words_of bytes.now) }
{
    let (word, rest) = first_word(bytes)?;
    all_printable(word).then_some((word, rest))
}

/// Reads which ends to close, and returns the bytes after it.
fn how_in(bytes: &[u8]) -> Option<(Shutdown, &[u8])>
    ensures { option_map (λ found. (found.0, words_of found.1.now)) result
        ≡ value_in how (words_of bytes.now) }
{
    let (word, rest) = first_word(bytes)?;
    Some((how_named(word)?, rest))
}

/// Returns `true` if `priv` is the only word left, and `false` if none is.
fn privilege(bytes: &[u8]) -> Option<bool>
    ensures { result ≡ privilege_of (words_of bytes.now) }
{
    match first_word(bytes) {
        None => Some(false),
        Some((b"priv", rest)) => is_end(rest).then_some(true),
        Some(_) => None,
    }
}

// ---- steps

/// Reads `P dup N`.
#[inline(always)]
pub fn dup(rest: &[u8]) -> Option<Fd>
    ensures { option_map step.Dup result ≡ read_form (verb_row verb.Dup).1 (words_of rest.now) }
{
    let (fd, rest) = number_in(rest)?;
    is_end(rest).then_some(Fd(fd))
}

/// Reads `P dup2 N N`.
#[inline(always)]
pub fn dup2(rest: &[u8]) -> Option<(Fd, Fd)>
    ensures { option_map (λ found. step.Dup2 found.0 found.1) result
        ≡ read_form (verb_row verb.Dup2).1 (words_of rest.now) }
{
    let (from, rest) = number_in(rest)?;
    let (to, rest) = number_in(rest)?;
    is_end(rest).then_some((Fd(from), Fd(to)))
}

/// Reads `P close N`.
#[inline(always)]
pub fn close(rest: &[u8]) -> Option<Fd>
    ensures { option_map step.Close result ≡ read_form (verb_row verb.Close).1 (words_of rest.now) }
{
    let (fd, rest) = number_in(rest)?;
    is_end(rest).then_some(Fd(fd))
}

/// Reads `P pair TYPE`.
#[inline(always)]
pub fn pair(rest: &[u8]) -> Option<SockType>
    ensures { option_map step.Pair result ≡ read_form (verb_row verb.Pair).1 (words_of rest.now) }
{
    let (sockets, rest) = socket_type(rest)?;
    is_end(rest).then_some(sockets)
}

/// Reads `P socket TYPE`.
#[inline(always)]
pub fn socket(rest: &[u8]) -> Option<SockType>
    ensures { option_map step.Socket result
        ≡ read_form (verb_row verb.Socket).1 (words_of rest.now) }
{
    let (sockets, rest) = socket_type(rest)?;
    is_end(rest).then_some(sockets)
}

/// Reads `P bind N NAME`.
#[inline(always)]
pub fn bind(rest: &[u8]) -> Option<(Fd, &[u8])>
    ensures { option_map (λ found. step.Bind found.0 found.1.now) result
        ≡ read_form (verb_row verb.Bind).1 (words_of rest.now) }
{
    let (on, rest) = number_in(rest)?;
    let (name, rest) = name_in(rest)?;
    is_end(rest).then_some((Fd(on), name))
}

/// Reads `P listen N N`.
#[inline(always)]
pub fn listen(rest: &[u8]) -> Option<(Fd, u32)>
    ensures { option_map (λ found. step.Listen found.0 found.1) result
        ≡ read_form (verb_row verb.Listen).1 (words_of rest.now) }
{
    let (on, rest) = number_in(rest)?;
    let (backlog, rest) = number_in(rest)?;
    is_end(rest).then_some((Fd(on), backlog))
}

/// Reads `P connect N NAME`.
#[inline(always)]
pub fn connect(rest: &[u8]) -> Option<(Fd, &[u8])>
    ensures { option_map (λ found. step.Connect found.0 found.1.now) result
        ≡ read_form (verb_row verb.Connect).1 (words_of rest.now) }
{
    let (on, rest) = number_in(rest)?;
    let (name, rest) = name_in(rest)?;
    is_end(rest).then_some((Fd(on), name))
}

/// Reads `P accept N`.
#[inline(always)]
pub fn accept(rest: &[u8]) -> Option<Fd>
    ensures { option_map step.Accept result
        ≡ read_form (verb_row verb.Accept).1 (words_of rest.now) }
{
    let (fd, rest) = number_in(rest)?;
    is_end(rest).then_some(Fd(fd))
}

/// Reads `P send N BYTES ITEMS..`.
#[inline(always)]
pub fn send(alloc: Global, rest: &[u8]) -> Result<(Fd, Bytes, Descriptors), LineFault>
    ensures ok { IfOk result (λ found. read_form (verb_row verb.Send).1 (words_of rest.now)
        ≡ Some (step.Send found.0 found.1 found.2.items)) }
    ensures err { IfErr result (λ f. f ≡ fault.Unreadable
        → read_form (verb_row verb.Send).1 (words_of rest.now) ≡ None) }
{
    let (on, rest) = number_in(rest).ok_or(LineFault::Unreadable)?;
    let (word, rest) = first_word(rest).ok_or(LineFault::Unreadable)?;
    let bytes = payload(alloc, word)?;
    let attach = attached(alloc, rest)?;
    Ok((Fd(on), bytes, attach))
}

/// Reads `P recv N N N`.
#[inline(always)]
pub fn recv(rest: &[u8]) -> Option<(Fd, u32, u32)>
    ensures { option_map (λ found. step.Recv found.0 found.1 found.2) result
        ≡ read_form (verb_row verb.Recv).1 (words_of rest.now) }
{
    let (on, rest) = number_in(rest)?;
    let (max_bytes, rest) = number_in(rest)?;
    let (max_fds, rest) = number_in(rest)?;
    is_end(rest).then_some((Fd(on), max_bytes, max_fds))
}

/// Reads `P peek N N N`.
#[inline(always)]
pub fn peek(rest: &[u8]) -> Option<(Fd, u32, u32)>
    ensures { option_map (λ found. step.Peek found.0 found.1 found.2) result
        ≡ read_form (verb_row verb.Peek).1 (words_of rest.now) }
{
    let (on, rest) = number_in(rest)?;
    let (max_bytes, rest) = number_in(rest)?;
    let (max_fds, rest) = number_in(rest)?;
    is_end(rest).then_some((Fd(on), max_bytes, max_fds))
}

/// Reads `P limit N`.
#[inline(always)]
pub fn limit(rest: &[u8]) -> Option<u32>
    ensures { option_map step.Limit result ≡ read_form (verb_row verb.Limit).1 (words_of rest.now) }
{
    let (nofile, rest) = number_in(rest)?;
    is_end(rest).then_some(nofile)
}

/// Reads `P shutdown N HOW`.
#[inline(always)]
pub fn shutdown(rest: &[u8]) -> Option<(Fd, Shutdown)>
    ensures { option_map (λ found. step.Shutdown found.0 found.1) result
        ≡ read_form (verb_row verb.Shutdown).1 (words_of rest.now) }
{
    let (on, rest) = number_in(rest)?;
    let (how, rest) = how_in(rest)?;
    is_end(rest).then_some((Fd(on), how))
}

/// Reads `P unconnect N`.
#[inline(always)]
pub fn unconnect(rest: &[u8]) -> Option<Fd>
    ensures { option_map step.Unconnect result
        ≡ read_form (verb_row verb.Unconnect).1 (words_of rest.now) }
{
    let (on, rest) = number_in(rest)?;
    is_end(rest).then_some(Fd(on))
}

// ---- a step as a value

/// Reads the step `bind`, and copies the name.
fn bind_step(alloc: Global, rest: &[u8]) -> Result<Step, LineFault>
    ensures { Reads (read_form (verb_row verb.Bind).1 (words_of rest.now)) result }
{
    let Some((on, name)) = bind(rest) else {
        return Err(LineFault::Unreadable);
    };
    let name = Items::of_small(SmallVec::from_slice(alloc, name)?);
    Ok(Step::Bind { on, name })
}

/// Reads the step `connect`, and copies the name.
fn connect_step(alloc: Global, rest: &[u8]) -> Result<Step, LineFault>
    ensures { Reads (read_form (verb_row verb.Connect).1 (words_of rest.now)) result }
{
    let Some((on, name)) = connect(rest) else {
        return Err(LineFault::Unreadable);
    };
    let name = Items::of_small(SmallVec::from_slice(alloc, name)?);
    Ok(Step::Connect { on, name })
}

/// Reads the step `send`.
fn send_step(alloc: Global, rest: &[u8]) -> Result<Step, LineFault>
    ensures { Reads (read_form (verb_row verb.Send).1 (words_of rest.now)) result }
{
    let (on, bytes, attach) = send(alloc, rest)?;
    let attach = Items::of_small(attach);
    Ok(Step::Send { on, bytes, attach })
}

/// Reads the step `recv`.
fn recv_step(rest: &[u8]) -> Option<Step>
    ensures { result ≡ read_form (verb_row verb.Recv).1 (words_of rest.now) }
{
    let (on, max_bytes, max_fds) = recv(rest)?;
    Some(Step::Recv {
        on,
        max_bytes,
        max_fds,
    })
}

/// Reads the step `peek`.
fn peek_step(rest: &[u8]) -> Option<Step>
    ensures { result ≡ read_form (verb_row verb.Peek).1 (words_of rest.now) }
{
    let (on, max_bytes, max_fds) = peek(rest)?;
    Some(Step::Peek {
        on,
        max_bytes,
        max_fds,
    })
}

/// Reads the step of `verb`.
fn step(alloc: Global, verb: Verb, rest: &[u8]) -> Result<Step, LineFault>
    ensures read { Reads (read_form (verb_row verb).1 (words_of rest.now)) result }
    ensures memory { IfErr result
        (λ f. f ≡ fault.Memory → takes_memory (Some verb) ≡ true) }
{
    let read = match verb {
        Verb::Open => is_end(rest).then_some(Step::Open),
        Verb::Dup => dup(rest).map(Step::Dup),
        Verb::Dup2 => dup2(rest).map(|(from, to)| Step::Dup2(from, to)),
        Verb::Close => close(rest).map(Step::Close),
        Verb::Fork => is_end(rest).then_some(Step::Fork),
        Verb::Exit => is_end(rest).then_some(Step::Exit),
        Verb::Pair => pair(rest).map(Step::Pair),
        Verb::Socket => socket(rest).map(Step::Socket),
        Verb::Bind => return bind_step(alloc, rest),
        Verb::Listen => listen(rest).map(|(on, backlog)| Step::Listen { on, backlog }),
        Verb::Connect => return connect_step(alloc, rest),
        Verb::Accept => accept(rest).map(Step::Accept),
        Verb::Send => return send_step(alloc, rest),
        Verb::Recv => recv_step(rest),
        Verb::Peek => peek_step(rest),
        Verb::Limit => limit(rest).map(Step::Limit),
        Verb::Shutdown => shutdown(rest).map(|(on, how)| Step::Shutdown { on, how }),
        Verb::Unconnect => unconnect(rest).map(Step::Unconnect),
    };
    read.ok_or(LineFault::Unreadable)
}

/// Reads the step of a process.
#[tactic(auto, unfolding(crate::specs::Meaning::step_of))]
fn process(alloc: Global, bytes: &[u8]) -> Result<Step, LineFault>
    ensures read { Reads (step_of (words_of bytes.now)) result }
    ensures memory { IfErr result
        (λ f. f ≡ fault.Memory → step_takes_memory (words_of bytes.now) ≡ true) }
{
    let (word, rest) = first_word(bytes).ok_or(LineFault::Unreadable)?;
    let verb = verb_named(word).ok_or(LineFault::Unreadable)?;
    step(alloc, verb, rest)
}

// ---- lines that begin with a keyword

/// Reads `spawn N N` and `spawn N N priv`.
pub fn spawn(rest: &[u8]) -> Option<(Uid, u32, bool)>
    ensures { option_map (λ found. line.Event (event.Spawn found.0 found.1 found.2)) result
        ≡ read_form (line_row keyword.Spawn).1 (words_of rest.now) }
{
    let (uid, rest) = number_in(rest)?;
    let (nofile, rest) = number_in(rest)?;
    let privileged = privilege(rest)?;
    Some((Uid(uid), nofile, privileged))
}

/// Reads `slice N`.
pub fn slice(rest: &[u8]) -> Option<u32>
    ensures { option_map (λ budget. line.Event (event.Slice budget)) result
        ≡ read_form (line_row keyword.Slice).1 (words_of rest.now) }
{
    let (budget, rest) = number_in(rest)?;
    is_end(rest).then_some(budget)
}

/// Reads the line `spawn`.
fn spawn_line(rest: &[u8]) -> Option<Line>
    ensures { result ≡ read_form (line_row keyword.Spawn).1 (words_of rest.now) }
{
    let (uid, nofile, privileged) = spawn(rest)?;
    Some(Line::Event(Event::Spawn {
        uid,
        nofile,
        privileged,
    }))
}

/// Reads `version 2` or `version 3`: no other version may be named.
fn version(rest: &[u8]) -> Option<Line>
    ensures { result ≡ read_form (line_row keyword.Version).1 (words_of rest.now) }
{
    let (word, rest) = first_word(rest)?;
    let named = version_named(word)?;
    is_end(rest).then_some(Line::Version(named))
}

/// Reads a line that begins with `keyword`.
fn line(keyword: Keyword, rest: &[u8]) -> Result<Line, LineFault>
    ensures read { Reads (read_form (line_row keyword).1 (words_of rest.now)) result }
    ensures no_memory { IfErr result (λ f. f ≡ fault.Unreadable) }
{
    let read = match keyword {
        Keyword::Spawn => spawn_line(rest),
        Keyword::Begin => is_end(rest).then_some(Line::Event(Event::Begin)),
        Keyword::Slice => slice(rest).map(|budget| Line::Event(Event::Slice(budget))),
        Keyword::Pass => is_end(rest).then_some(Line::Event(Event::Pass)),
        Keyword::Table => is_end(rest).then_some(Line::Report(Report::Table)),
        Keyword::Totals => is_end(rest).then_some(Line::Report(Report::Totals)),
        Keyword::Check => is_end(rest).then_some(Line::Report(Report::Check)),
        Keyword::Version => version(rest),
    };
    read.ok_or(LineFault::Unreadable)
}

/// Reads a line that begins with `word`.
#[tactic(auto, unfolding(crate::specs::Meaning::form_of))]
pub(crate) fn form(alloc: Global, word: &[u8], rest: &[u8]) -> Result<Line, LineFault>
    ensures read { Reads (form_of word.now (words_of rest.now)) result }
    ensures memory { IfErr result
        (λ f. f ≡ fault.Memory → step_takes_memory (words_of rest.now) ≡ true) }
{
    // Most lines begin with a process's number, so that is tried first.
    if let Some(pid) = number(word) {
        return Ok(Line::Event(Event::Proc(Pid(pid), process(alloc, rest)?)));
    }
    let keyword = keyword_named(word).ok_or(LineFault::Unreadable)?;
    line(keyword, rest)
}
