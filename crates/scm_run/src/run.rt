//! The run of a script, from a reader to a writer.
ghost use Rattle.std.specs.Prelude.{◌≡◌, ◌<◌, ℕ, List, [], ◌++◌, Option, length, OnOk, IfOk, IfErr};
ghost use Rattle.std.specs.Prelude.{false};
ghost use Rattle.std.specs.Str.Lines.{lines, strip_carriage_return};
ghost use Rattle.scm_run.specs.Progress.{FaultIn, Halts, Ran, RanAll, Stopped, TooLong, Took};
ghost use Rattle.scm_run.specs.Progress.{may_fit, nothing_read};
ghost use Rattle.scm_run.specs.Script.{FaultAt, NoFeed, RanToEnd, StopsBy, Wrote, ended_by_feed};
ghost use Rattle.scm_run.specs.Script.{is_read_fault, is_write_fault};

use crate::fault::RunFault;
use crate::gather::{write_before_fault, write_out};
use crate::line::do_line;
use crate::watched::Watched;
use af_steps::Engine;
use memchr::memchr;
use scm_lines::{MAX_LINE, Version};
use std::alloc::{AllocError, Global};
use std::io::{Read, Write};
use std::marker::Model;

/// How many bytes one read has room for.
const CHUNK: usize = 8192;

/// A run of a script, as far as it has come.
#[derive(Drop)]
struct ScriptRun {
    engine: Engine,
    /// The script's version, by the lines that were done.
    version: Version,
    /// The bytes after the last line feed that was read.
    pending: Vec<u8>,
    /// The text of lines that were done, as far as it is not written yet.
    text: Vec<u8>,
    events: u64,
    /// How many lines were done.
    done: u64,
}

impl Model for ScriptRun {
    ghost use Rattle.std.specs.Prelude.{◌≤◌};
    ghost use Rattle.std.specs.FinMap as map;
    ghost use Rattle.std.specs.Coded.{codes};
    ghost use Rattle.scm_run.specs.Progress.{RunProgress, Stopped, Took};

    ghost Value = { RunProgress };

    ghost coded = { Prim.hlevel (codes, map.code) };

    ghost view = { λ r. record {
      point = record { machine = r.engine; version = r.version };
      pending = r.pending.items;
      gathered = r.text.items;
      events = r.events;
      done = r.done;
    } };

    ghost invariant = { λ r. r.events ≤ r.done };
}

/// Returns the bytes without the one carriage return at their end.
pub fn without_return(bytes: &[u8]) -> &[u8]
    ensures { result.now ≡ strip_carriage_return bytes.now }
{
    match bytes {
        [front @ .., b'\r'] => front,
        _ => bytes,
    }
}

/// Appends bytes to a line of which some bytes were kept. Leaves an empty one empty.
fn append_to_pending(line: &mut Vec<u8>, bytes: &[u8]) -> Result<(), AllocError>
    ensures begun { OnOk result
        (0 < length line.old.items → line.new.items ≡ line.old.items ++ bytes.now) }
    ensures empty { line.old.items ≡ [] → line.new.items ≡ [] }
{
    if line.is_empty() {
        return Ok(());
    }
    line.extend_from_slice(bytes)
}

/// Returns the first of two, or the second if the first is empty.
fn unless_empty<'a>(first: &'a [u8], second: &'a [u8]) -> &'a [u8]
    ensures some { 0 < length first.now → result.now ≡ first.now }
    ensures none { first.now ≡ [] → result.now ≡ second.now }
{
    if first.is_empty() { second } else { first }
}

/// Returns whether a line that begins with `bytes` may be short enough.
///
/// A carriage return may still belong to the line's end.
fn may_fit(bytes: &[u8]) -> bool
    ensures { result ≡ may_fit bytes.now }
{
    without_return(bytes).len() <= MAX_LINE
}

impl ScriptRun {
    /// Makes a run that has read nothing.
    fn new(alloc: Global) -> Result<Self, AllocError>
        ensures { IfOk result (λ r. r ≡ nothing_read) }
    {
        Ok(ScriptRun {
            engine: Engine::new(alloc)?,
            version: Version::Unknown,
            pending: Vec::new(alloc),
            text: Vec::new(alloc),
            events: 0,
            done: 0,
        })
    }

    /// Does the line that the pending bytes begin and `back` ends. Its line feed comes next.
    fn end_line<W: Write>(
        &mut self,
        alloc: Global,
        back: &[u8],
        writer: &mut Watched<W>,
    ) -> Result<(), RunFault>
        requires failed { writer.old.has_failed ≡ false }
        requires feed { NoFeed back.now }
        ensures ok { OnOk result (Took (ended_by_feed back.now)
            (W.contents writer.old.inner) self.old (W.contents writer.new.inner) self.new) }
        ensures err { IfErr result (Stopped (ended_by_feed back.now)
            (W.contents writer.old.inner) self.old (W.contents writer.new.inner) self.new) }
        ensures write { writer.new.has_failed ≡ is_write_fault result }
        ensures no_read { is_read_fault result ≡ false }
    {
        let number = self.done.checked_add(1).ok_or(RunFault::Memory)?;
        append_to_pending(&mut self.pending, back)?;
        let line = unless_empty(self.pending.as_slice(), back);
        let events = do_line(
            alloc,
            &mut self.engine,
            &mut self.version,
            &mut self.text,
            number,
            without_return(line),
            writer,
        )?;
        self.events += events;
        self.done = number;
        self.pending.clear();
        Ok(())
    }

    /// Keeps bytes whose line feed was not read yet, unless their line is too long already.
    fn keep(&mut self, bytes: &[u8]) -> Result<(), RunFault>
        requires { NoFeed bytes.now }
        ensures ok { OnOk result ((taken : List ℕ) (before after : Option (List ℕ))
            → Ran taken before after self.old → Ran (taken ++ bytes.now) before after self.new) }
        ensures err { IfErr result (λ f.
            (taken : List ℕ) (before after : Option (List ℕ)) → Ran taken before after self.old
            → Halts (FaultIn (taken ++ bytes.now) before) before after self.new.gathered f) }
        ensures no_write { is_write_fault result ≡ false }
        ensures no_read { is_read_fault result ≡ false }
    {
        self.pending.extend_from_slice(bytes)?;
        if may_fit(self.pending.as_slice()) {
            Ok(())
        } else {
            Err(self.too_long())
        }
    }

    /// Makes the fault of a line that is too long.
    fn too_long(&self) -> RunFault
        ensures { TooLong self.now.done result }
    {
        match self.done.checked_add(1) {
            Some(number) => RunFault::Unreadable(number),
            None => RunFault::Memory,
        }
    }

    /// Does each line whose line feed is in `bytes`, the next ones of the script, and keeps the
    /// bytes after the last one.
    fn do_lines<W: Write>(
        &mut self,
        alloc: Global,
        bytes: &[u8],
        writer: &mut Watched<W>,
    ) -> Result<(), RunFault>
        requires { writer.old.has_failed ≡ false }
        ensures ok { OnOk result (Took bytes.now (W.contents writer.old.inner) self.old
            (W.contents writer.new.inner) self.new) }
        ensures err { IfErr result (Stopped bytes.now (W.contents writer.old.inner) self.old
            (W.contents writer.new.inner) self.new) }
        ensures write { writer.new.has_failed ≡ is_write_fault result }
        ensures no_read { is_read_fault result ≡ false }
    {
        let mut rest = bytes;
        while let Some(at) = memchr(b'\n', rest) {
            let (line, _) = rest.split_at(at);
            let (_, others) = rest.split_at(at + 1);
            self.end_line(alloc, line, writer)?;
            rest = others;
        }
        self.keep(rest)
    }

    /// Does the last line, where it has no line feed.
    fn do_last_line<W: Write>(
        &mut self,
        alloc: Global,
        writer: &mut Watched<W>,
    ) -> Result<(), RunFault>
        requires { writer.old.has_failed ≡ false }
        ensures ok { OnOk result ((taken : List ℕ) (before : Option (List ℕ))
            → Ran taken before (W.contents writer.old.inner) self.old
            → RanAll taken before (W.contents writer.new.inner) self.new) }
        ensures err { IfErr result (λ f. (taken : List ℕ) (before : Option (List ℕ))
            → Ran taken before (W.contents writer.old.inner) self.old
            → Halts (FaultAt taken before) before (W.contents writer.new.inner)
            self.new.gathered f) }
        ensures write { writer.new.has_failed ≡ is_write_fault result }
        ensures no_read { is_read_fault result ≡ false }
    {
        if self.pending.is_empty() {
            return Ok(());
        }
        let number = self.done.checked_add(1).ok_or(RunFault::Memory)?;
        let events = do_line(
            alloc,
            &mut self.engine,
            &mut self.version,
            &mut self.text,
            number,
            self.pending.as_slice(),
            writer,
        )?;
        self.events += events;
        self.done = number;
        Ok(())
    }

    /// Takes the next bytes of the script, and writes the text of the lines that end in them.
    fn feed<W: Write>(
        &mut self,
        alloc: Global,
        chunk: &[u8],
        writer: &mut Watched<W>,
    ) -> Result<(), RunFault>
        requires { writer.old.has_failed ≡ false }
        ensures ok { OnOk result (Took chunk.now (W.contents writer.old.inner) self.old
            (W.contents writer.new.inner) self.new) }
        ensures out { OnOk result (self.new.gathered ≡ []) }
        ensures err { IfErr result (λ f. (taken : List ℕ) (before : Option (List ℕ))
            → Ran taken before (W.contents writer.old.inner) self.old
            → FaultIn (taken ++ chunk.now) before (W.contents writer.new.inner) f) }
        ensures write { writer.new.has_failed ≡ is_write_fault result }
        ensures no_read { is_read_fault result ≡ false }
    {
        match self.do_lines(alloc, chunk, writer) {
            Ok(()) => Ok(write_out(&mut self.text, writer)?),
            Err(fault) => Err(write_before_fault(&mut self.text, fault, writer)),
        }
    }

    /// Does and writes the last line, where it has no line feed, and returns how many events were
    /// done in all.
    fn finish<W: Write>(&mut self, alloc: Global, writer: &mut Watched<W>) -> Result<u64, RunFault>
        requires { writer.old.has_failed ≡ false }
        ensures ok { IfOk result (λ n. (taken : List ℕ) (before : Option (List ℕ))
            → Ran taken before (W.contents writer.old.inner) self.old
            → Wrote (lines taken) n before (W.contents writer.new.inner)) }
        ensures err { IfErr result (λ f. (taken : List ℕ) (before : Option (List ℕ))
            → Ran taken before (W.contents writer.old.inner) self.old
            → FaultAt taken before (W.contents writer.new.inner) f) }
        ensures write { writer.new.has_failed ≡ is_write_fault result }
        ensures no_read { is_read_fault result ≡ false }
    {
        match self.do_last_line(alloc, writer) {
            Ok(()) => {
                write_out(&mut self.text, writer)?;
                Ok(self.events)
            }
            Err(fault) => Err(write_before_fault(&mut self.text, fault, writer)),
        }
    }

    /// Reads the script to its end, does its lines, and writes their text. Nothing was read of it
    /// before.
    ///
    /// The run is lent, so that no early end here drops an engine.
    fn run_to_end<R: Read, W: Write>(
        &mut self,
        alloc: Global,
        reader: &mut Watched<R>,
        writer: &mut Watched<W>,
    ) -> Result<u64, RunFault>
        requires fresh { self.old ≡ nothing_read }
        requires reader { reader.old.has_failed ≡ false }
        requires writer { writer.old.has_failed ≡ false }
        ensures done { IfOk result
            (RanToEnd (R.remaining reader.old.inner) (R.remaining reader.new.inner)
            (W.contents writer.old.inner) (W.contents writer.new.inner)) }
        ensures stopped { IfErr result
            (StopsBy (R.remaining reader.old.inner) (R.remaining reader.new.inner)
            (W.contents writer.old.inner) (W.contents writer.new.inner)) }
        ensures read { reader.new.has_failed ≡ is_read_fault result }
        ensures write { writer.new.has_failed ≡ is_write_fault result }
    {
        let mut chunk = [0; CHUNK];
        // The bound is never met: no run reads as often.
        for _ in 0..u64::MAX {
            let Ok(count) = reader.read(&mut chunk) else {
                return Err(RunFault::Read);
            };
            if count == 0 {
                return self.finish(alloc, writer);
            }
            self.feed(alloc, &chunk[..count], writer)?;
        }
        Err(RunFault::Memory)
    }
}

/// Runs a script from the fresh machine: does each line as soon as its end was read, writes the
/// line of its reply or its report, and returns how many events were done. The first line that is
/// not silent gives the script's version.
///
/// Neither stream may have failed before. Lines are cut as by `str::lines`: a last line needs no
/// line feed. Memory does not grow with the length of the script: a line that is too long is
/// refused as soon as that is known. After a fault nothing more is read or written; a read or write
/// that was interrupted is a failed one. The reader may have been read past a bad line, by any
/// amount.
pub fn run_script<R: Read, W: Write>(
    alloc: Global,
    reader: &mut Watched<R>,
    writer: &mut Watched<W>,
) -> Result<u64, RunFault>
    requires reader { reader.old.has_failed ≡ false }
    requires writer { writer.old.has_failed ≡ false }

    // The script was read to its end, every line can be read, and what was written is the text of
    // a run of its lines.
    ensures done { IfOk result
        (RanToEnd (R.remaining reader.old.inner) (R.remaining reader.new.inner)
        (W.contents writer.old.inner) (W.contents writer.new.inner)) }

    // Otherwise it is the text of the lines before the fault, or a beginning of it where writing
    // failed.
    ensures stopped { IfErr result
        (StopsBy (R.remaining reader.old.inner) (R.remaining reader.new.inner)
        (W.contents writer.old.inner) (W.contents writer.new.inner)) }

    // Each stream's fault is answered exactly where it has failed then.
    ensures read { reader.new.has_failed ≡ is_read_fault result }
    ensures write { writer.new.has_failed ≡ is_write_fault result }
{
    let mut run = ScriptRun::new(alloc)?;
    let outcome = run.run_to_end(alloc, reader, writer);
    // Dropped by a call: at the end of the block each part would be dropped, and proved, by itself.
    drop(run);
    outcome
}
