//! One line of a script: read, done, and its text gathered.
ghost use Rattle.std.specs.Prelude.{◌≡◌, ◌≤◌, ◌+◌, ◌++◌, ◌⊎◌, List, ℕ, IfOk, IfErr, vec_capacity};
ghost use Rattle.std.specs.Prelude.{vec_len, false};
ghost use Rattle.af_base.specs.declared.errno.Errno.TheVariants.{ENOMEM};
ghost use Rattle.af_base.specs.declared.events.Reply.TheVariants as reply;
ghost use Rattle.scm_run.specs.Report.{IsReportText};
ghost use Rattle.scm_run.specs.Text.{reply_line};
ghost use Rattle.scm_run.specs.Script.{LineEffect, is_read_fault, is_write_fault, point_of};
ghost use Rattle.scm_run.specs.Line.{LineDone, LineRead, LineStops};
ghost use Rattle.scm_run.specs.declared.text.TheConstants.{MAX_REPLY_LINE};

use crate::fault::RunFault;
use crate::gather::make_room;
use crate::steps::{do_event, do_step};
use crate::text::push_reply;
use crate::watched::Watched;
use af_base::errno::Errno;
use af_base::events::Reply;
use af_report::{check, table, totals};
use af_steps::Engine;
use scm_lines::{Line, LineFault, Report, Version, read_in, verb_in};
use std::alloc::{AllocError, Global};
use std::io::Write;

/// Writes the text of a report.
fn report_text(alloc: Global, engine: &Engine, report: Report) -> Result<Vec<u8>, AllocError>
    ensures { IfOk result (λ text. IsReportText engine.now.world report text.items) }
{
    match report {
        Report::Table => table(alloc, engine),
        Report::Totals => totals(alloc, engine),
        Report::Check => check(alloc, engine),
    }
}

/// Appends the whole text of a report, or the line `ENOMEM` where memory for it was refused.
fn answer_report(alloc: Global, engine: &Engine, report: Report, text: &mut Vec<u8>)
    requires { vec_len text.old + MAX_REPLY_LINE ≤ vec_capacity text.old }
    ensures { (line : List ℕ) × (text.new.items ≡ text.old.items ++ line)
        × (IsReportText engine.now.world report line ⊎ (line ≡ reply_line (reply.Refused ENOMEM))) }
{
    if let Ok(whole) = report_text(alloc, engine, report)
        && text.extend_from_slice(whole.as_slice()).is_ok()
    {
        return;
    }
    push_reply(text, &Reply::Refused(Errno::ENOMEM));
}

/// Does what a line says, appends its text, and returns how many events it did.
///
/// There is room for the text of any reply before the step, so a step that was done has its text.
pub fn answer(alloc: Global, engine: &mut Engine, says: Line, text: &mut Vec<u8>) -> u64
    requires { vec_len text.old + MAX_REPLY_LINE ≤ vec_capacity text.old }
    ensures does { (line : List ℕ) × (text.new.items ≡ text.old.items ++ line)
        × LineEffect engine.old says result line engine.new }
    ensures few { result ≤ 1 }
{
    match says {
        Line::Silence | Line::Version(_) => 0,
        Line::Event(event) => {
            // The reply of a sound world is short.
            engine.lemma_is_sound();
            push_reply(text, &engine.step_owned(event));
            1
        }
        Line::Report(report) => {
            answer_report(alloc, engine, report, text);
            0
        }
    }
}

/// Reads a line of any form, does what it says, and appends its text.
// Kept apart: DECISIONS.md, "Answers are zeroed".
#[inline(never)]
fn do_any(
    alloc: Global,
    engine: &mut Engine,
    version: &mut Version,
    bytes: &[u8],
    text: &mut Vec<u8>,
) -> Result<u64, LineFault>
    requires { vec_len text.old + MAX_REPLY_LINE ≤ vec_capacity text.old }
    ensures read { LineRead (point_of engine.old version.old) bytes.now
        text.old.items result text.new.items (point_of engine.new version.new) }
    ensures few { IfOk result (λ events. events ≤ 1) }
{
    let says = read_in(alloc, *version, bytes)?;
    *version = version.after(&says);
    Ok(answer(alloc, engine, says, text))
}

/// Reads a line that begins with no process, does what it says, and appends its text.
// Kept apart: DECISIONS.md, "Answers are zeroed".
#[inline(never)]
fn do_keyword(
    alloc: Global,
    engine: &mut Engine,
    version: &mut Version,
    bytes: &[u8],
    text: &mut Vec<u8>,
) -> Result<u64, LineFault>
    requires { vec_len text.old + MAX_REPLY_LINE ≤ vec_capacity text.old }
    ensures read { LineRead (point_of engine.old version.old) bytes.now
        text.old.items result text.new.items (point_of engine.new version.new) }
    ensures few { IfOk result (λ events. events ≤ 1) }
{
    if do_event(engine, bytes, text)? {
        *version = version.after_event();
        return Ok(1);
    }
    do_any(alloc, engine, version, bytes, text)
}

/// Reads a line, does what it says, and appends its text. Returns how many events it did.
#[tactic(auto, using(crate::proofs::StepLemmas::line_by_step, crate::proofs::StepLemmas::line_by_none))]
fn do_bytes(
    alloc: Global,
    engine: &mut Engine,
    version: &mut Version,
    bytes: &[u8],
    text: &mut Vec<u8>,
) -> Result<u64, LineFault>
    requires { vec_len text.old + MAX_REPLY_LINE ≤ vec_capacity text.old }
    ensures read { LineRead (point_of engine.old version.old) bytes.now
        text.old.items result text.new.items (point_of engine.new version.new) }
    ensures few { IfOk result (λ events. events ≤ 1) }
{
    let Some((pid, verb, rest)) = verb_in(*version, bytes) else {
        return do_keyword(alloc, engine, version, bytes, text);
    };
    match do_step(alloc, engine, pid, verb, rest, text) {
        Ok(()) => {
            *version = version.after_event();
            Ok(1)
        }
        Err(fault) => Err(fault),
    }
}

/// Does the line numbered `number`, appends its text to the gathered text, and returns how many
/// events it did. Whether it can be read depends on the version that the lines before it set, and
/// it may set one.
#[tactic(auto, using(crate::proofs::StepLemmas::line_done, crate::proofs::StepLemmas::line_stops, crate::proofs::StepLemmas::line_starves))]
pub fn do_line<W: Write>(
    alloc: Global,
    engine: &mut Engine,
    version: &mut Version,
    text: &mut Vec<u8>,
    number: u64,
    bytes: &[u8],
    writer: &mut Watched<W>,
) -> Result<u64, RunFault>
    requires { writer.old.has_failed ≡ false }
    ensures ok { IfOk result (λ events.
        LineDone (point_of engine.old version.old) bytes.now text.old.items text.new.items
        (W.contents writer.old.inner) (W.contents writer.new.inner) events
        (point_of engine.new version.new)) }
    ensures err { IfErr result (LineStops version.old bytes.now number text.old.items text.new.items
        (W.contents writer.old.inner) (W.contents writer.new.inner)) }
    ensures few { IfOk result (λ events. events ≤ 1) }
    ensures write { writer.new.has_failed ≡ is_write_fault result }
    ensures no_read { is_read_fault result ≡ false }
{
    make_room(text, writer)?;
    match do_bytes(alloc, engine, version, bytes, text) {
        Ok(events) => Ok(events),
        Err(LineFault::Unreadable) => Err(RunFault::Unreadable(number)),
        Err(LineFault::Memory) => Err(RunFault::Memory),
    }
}
