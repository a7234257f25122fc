//! The versions of the language.
//!
//! A script is of version 2 or 3 where its first line that is not silent is `version 2` or
//! `version 3`, else of version 1. A version has all events of those before it. Version 2 adds
//! `peek` and `limit`, version 3 `shutdown`, `unconnect` and sockets of the type `dgram`.
ghost use Rattle.std.specs.Prelude.{◌≡◌, IfErr, IfSome, if◌then◌else◌, true};
ghost use Rattle.std.specs.Option.{option_map};
ghost use Rattle.af_base.specs.declared.events.Event.TheVariants as event;
ghost use Rattle.scm_lines.specs.Fault.{Reads};
ghost use Rattle.scm_lines.specs.Fitting.{first_number_of_verb, has_type_at, has_types, has_verb};
ghost use Rattle.scm_lines.specs.Forms.{line_row, read_form, verb_row};
ghost use Rattle.scm_lines.specs.Meaning.{line_takes_memory};
ghost use Rattle.scm_lines.specs.Versions.{allowed_in, first_number_of, first_number_of_type};
ghost use Rattle.scm_lines.specs.Versions.{has_line, has_type, is_unknown};
ghost use Rattle.scm_lines.specs.Versions.{number_of, read_in, version_after};
ghost use Rattle.scm_lines.specs.Words.{words_of};
ghost use Rattle.scm_lines.specs.declared.fault.LineFault.TheVariants as fault;
ghost use Rattle.scm_lines.specs.declared.line.Line.TheVariants as line;
ghost use Rattle.scm_lines.specs.declared.version.Version.TheVariants as version;

use crate::fault::LineFault;
use crate::keywords::{Keyword, Verb, event_at, type_named, verb_named};
use crate::line::{Line, MAX_LINE, line_of};
use crate::numbers::number_in;
use crate::words::{ends_word, first_word};
use af_base::events::{Event, SockType, Step};
use af_base::ids::Pid;
use std::alloc::Global;

/// The version of a script, by its lines so far.
#[derive(Clone, Copy, PartialEq, Eq)]
pub enum Version {
    /// All lines were silent, so the script may be of any version.
    Unknown,
    /// The script is of version 1.
    First,
    /// The script is of version 2.
    Second,
    /// The script is of version 3.
    Third,
}

impl Version {
    /// Returns the number of the version by which the next line is read.
    fn number(self) -> u32
        ensures { result ≡ number_of self }
    {
        match self {
            Version::Unknown | Version::First => 1,
            Version::Second => 2,
            Version::Third => 3,
        }
    }

    /// Returns whether a script of this version may have `line` next.
    fn has(self, line: &Line) -> bool
        ensures { result ≡ has_line self line.now }
    {
        match line {
            Line::Version(_) => self == Version::Unknown,
            Line::Event(Event::Proc(_, step)) => first_number(step) <= self.number(),
            _ => true,
        }
    }

    /// Returns the version after `line`.
    pub fn after(self, line: &Line) -> Version
        ensures { result ≡ version_after self line.now }
    {
        match line {
            Line::Silence => self,
            Line::Version(named) => *named,
            _ => self.after_event(),
        }
    }

    /// Returns the version after an event or a report.
    pub fn after_event(self) -> Version
        ensures { result ≡ (if is_unknown self then version.First else self) }
    {
        match self {
            Version::Unknown => Version::First,
            _ => self,
        }
    }
}

/// Returns the number of the first version that has the step.
fn first_number(step: &Step) -> u32
    ensures { result ≡ first_number_of step.now }
{
    match step {
        Step::Peek { .. } | Step::Limit(_) => 2,
        Step::Shutdown { .. } | Step::Unconnect(_) => 3,
        Step::Pair(kind) | Step::Socket(kind) => first_number_of_type(*kind),
        _ => 1,
    }
}

/// Returns the number of the first version that has sockets of this type.
fn first_number_of_type(kind: SockType) -> u32
    ensures { result ≡ first_number_of_type kind }
{
    match kind {
        SockType::Dgram => 3,
        _ => 1,
    }
}

/// Returns whether a script of `version` may have sockets of this type.
pub fn has_type(version: Version, kind: SockType) -> bool
    ensures { result ≡ has_type version kind }
{
    first_number_of_type(kind) <= version.number()
}

/// Returns whether a script of `version` has the type of sockets that the words begin with, if they
/// begin with one.
fn has_type_at(version: Version, bytes: &[u8]) -> bool
    ensures { result ≡ has_type_at version (words_of bytes.now) }
{
    let Some((word, _)) = first_word(bytes) else {
        return true;
    };
    match type_named(word) {
        Some(kind) => has_type(version, kind),
        None => true,
    }
}

/// Returns the number of the first version that has the verb.
pub fn first_number_of_verb(verb: Verb) -> u32
    ensures { result ≡ first_number_of_verb verb }
{
    match verb {
        Verb::Peek | Verb::Limit => 2,
        Verb::Shutdown | Verb::Unconnect => 3,
        _ => 1,
    }
}

/// Returns whether a script of `version` may have steps of `verb`.
pub fn has_verb(version: Version, verb: Verb) -> bool
    ensures { result ≡ has_verb version verb }
{
    first_number_of_verb(verb) <= version.number()
}

/// Returns whether a script of `version` has the type of sockets that the words behind `verb` name,
/// if they name one.
fn has_types(version: Version, verb: Verb, bytes: &[u8]) -> bool
    ensures { result ≡ has_types version verb (words_of bytes.now) }
{
    match verb {
        Verb::Pair | Verb::Socket => has_type_at(version, bytes),
        _ => true,
    }
}

/// Returns the process and the verb that a process's line begins with, and the bytes after them.
/// `None` says that [`read_in`] has to read the line.
#[inline(always)]
pub fn verb_in(version: Version, bytes: &[u8]) -> Option<(Pid, Verb, &[u8])>
    ensures { IfSome result (λ found. read_in version bytes.now
        ≡ option_map (λ does. line.Event (event.Proc found.0 does))
        (read_form (verb_row found.1).1 (words_of found.2.now))) }
{
    // A line that begins with no digit is a keyword's, as a rule.
    if bytes.len() > MAX_LINE || !matches!(bytes, [b'0'..=b'9', ..]) {
        return None;
    }
    let (pid, rest) = number_in(bytes)?;
    let (word, rest) = first_word(rest)?;
    let verb = verb_named(word)?;
    if has_verb(version, verb) && has_types(version, verb, rest) {
        Some((Pid(pid), verb, rest))
    } else {
        None
    }
}

/// Returns the keyword of the event that a line begins with, and the bytes after it. `None` says
/// that [`read_in`] has to read the line.
pub fn keyword_in(bytes: &[u8]) -> Option<(Keyword, &[u8])>
    ensures { IfSome result (λ found. (v : Version) → read_in v bytes.now
        ≡ allowed_in v (read_form (line_row found.0).1 (words_of found.1.now))) }
{
    if bytes.len() > MAX_LINE {
        return None;
    }
    let (keyword, rest) = event_at(bytes)?;
    if ends_word(rest) {
        Some((keyword, rest))
    } else {
        None
    }
}

/// Reads the next line of a script of `version`. [`LineFault::Unreadable`]: [`line_of`] cannot
/// read it, or the script may not have it there. [`LineFault::Memory`]: as of [`line_of`].
pub fn read_in(alloc: Global, version: Version, bytes: &[u8]) -> Result<Line, LineFault>
    ensures read { Reads (read_in version bytes.now) result }
    ensures memory { IfErr result
        (λ f. f ≡ fault.Memory → line_takes_memory (words_of bytes.now) ≡ true) }
{
    let line = line_of(alloc, bytes)?;
    if version.has(&line) {
        Ok(line)
    } else {
        Err(LineFault::Unreadable)
    }
}
