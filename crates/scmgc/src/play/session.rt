//! The loop over the lines of a script that is played.
ghost use Rattle.std.specs.Prelude.{◌≡◌, ◌++◌, ℕ, List, [], false, true, IfOk, OnOk, Some};
ghost use Rattle.std.specs.Io.BufRead.{drop_through, take_through};
ghost use Rattle.std.specs.Io.KnownBytes.{Appends, IsAtEnd};
ghost use Rattle.scmgc.specs.Played.{AnswersLine, Played};
ghost use Rattle.scmgc.specs.Display.{entry_text, prompt_text};
ghost use Rattle.scmgc.specs.Cut.{line_in};
ghost use Rattle.scmgc.specs.Progress.{IsOver, Goes};

use crate::play::answers::answer_line;
use crate::play::fault::PlayFault;
use crate::play::show::{Style, entry, prompt};
use af_steps::Engine;
use scm_lines::Version;
use scm_run::without_return;
use std::alloc::{AllocError, Global};
use std::io::{BufRead, Write};

/// Returns the line in `bytes`, without its end: one line feed, and one carriage return before it.
fn line_in(bytes: &[u8]) -> &[u8]
    ensures { result.now ≡ line_in bytes.now }
{
    match bytes {
        [front @ .., b'\n'] => without_return(front),
        _ => bytes,
    }
}

/// Writes all of the bytes, and flushes.
fn write_out<W: Write>(writer: &mut W, bytes: &[u8]) -> Result<(), PlayFault>
    ensures { OnOk result (Appends (W.contents writer.old) (W.contents writer.new) bytes.now) }
{
    writer.write_all(bytes).map_err(PlayFault::Write)?;
    writer.flush().map_err(PlayFault::Write)
}

/// Reads the next line with its end; none is left where it is empty.
fn read_line<R: BufRead>(alloc: Global, reader: &mut R) -> Result<Vec<u8>, PlayFault>
    ensures line { IfOk result (λ line. (input : List ℕ) → R.remaining reader.old ≡ Some input
        → line.items ≡ take_through 10 input) }
    ensures rest { OnOk result ((input : List ℕ) → R.remaining reader.old ≡ Some input
        → R.remaining reader.new ≡ Some (drop_through 10 input)) }
{
    let mut line = Vec::new(alloc);
    match reader.read_until(b'\n', &mut line) {
        Ok(_) => Ok(line),
        Err(error) => Err(PlayFault::of_read(error)),
    }
}

/// Shows the prompt for line `number`.
fn write_prompt<W: Write>(
    alloc: Global,
    style: Style,
    number: u64,
    writer: &mut W,
) -> Result<(), PlayFault>
    ensures { OnOk result
        (Appends (W.contents writer.old) (W.contents writer.new) (prompt_text style number)) }
{
    let text = prompt(alloc, style, number)?;
    write_out(writer, text.as_bytes())
}

/// Does a line, and makes what is shown of it.
fn shown_line(
    alloc: Global,
    style: Style,
    number: u64,
    engine: &mut Engine,
    version: &mut Version,
    line: &[u8],
) -> Result<Vec<u8>, AllocError>
    ensures { IfOk result (λ shown.
        (answer : List ℕ) × (shown.items ≡ entry_text style number line.now answer)
        × AnswersLine (record { machine = engine.old; version = version.old }) line.now answer
        (record { machine = engine.new; version = version.new })) }
{
    let mut answer = Vec::new(alloc);
    answer_line(alloc, engine, version, line, &mut answer)?;
    entry(alloc, style, number, line, answer.as_slice())
}

/// Plays a line that was read with its end.
fn play_read<W: Write>(
    alloc: Global,
    style: Style,
    number: u64,
    engine: &mut Engine,
    version: &mut Version,
    read: &[u8],
    writer: &mut W,
) -> Result<(), PlayFault>
    ensures { OnOk result ((answer : List ℕ)
        × AnswersLine (record { machine = engine.old; version = version.old }) (line_in read.now)
        answer (record { machine = engine.new; version = version.new })
        × Appends (W.contents writer.old) (W.contents writer.new)
        (entry_text style number (line_in read.now) answer)) }
{
    let shown = shown_line(alloc, style, number, engine, version, line_in(read))?;
    write_out(writer, shown.as_slice())
}

/// Plays the next line, and returns whether there was one.
fn play_line<R: BufRead, W: Write>(
    alloc: Global,
    style: Style,
    number: u64,
    engine: &mut Engine,
    version: &mut Version,
    reader: &mut R,
    writer: &mut W,
) -> Result<bool, PlayFault>
    ensures more { IfOk result (λ more.
        more ≡ true → (input : List ℕ) → R.remaining reader.old ≡ Some input
        → Goes style number input (R.remaining reader.new) (W.contents writer.old)
        (W.contents writer.new) (record { machine = engine.old; version = version.old })
        (record { machine = engine.new; version = version.new })) }
    ensures over { IfOk result (λ more. more ≡ false
        → (input : List ℕ) → R.remaining reader.old ≡ Some input → IsOver style number input
        (R.remaining reader.new) (W.contents writer.old) (W.contents writer.new)) }
{
    write_prompt(alloc, style, number, writer)?;
    let read = read_line(alloc, reader)?;
    if read.is_empty() {
        return Ok(false);
    }
    play_read(
        alloc,
        style,
        number,
        engine,
        version,
        read.as_slice(),
        writer,
    )?;
    Ok(true)
}

/// Plays a script from the fresh machine to the end of the input: does each line as soon as it was
/// read, and writes it with its answer. A line that cannot be read changes nothing, and is answered
/// with the reason; a question (`who`, `graph`, `help`) changes nothing either.
///
/// Lines are cut as by a run of the script, which answers the same to the lines that can be read.
/// After an error it is not said how much was written.
pub fn play<R: BufRead, W: Write>(
    alloc: Global,
    style: Style,
    reader: &mut R,
    writer: &mut W,
) -> Result<(), PlayFault>
    // The input was played to its end, and what was written is what is shown of its lines.
    ensures done { OnOk result ((input : List ℕ) → R.remaining reader.old ≡ Some input
        → Played style input (W.contents writer.old) (W.contents writer.new)) }
    ensures ended { OnOk result ((input : List ℕ) → R.remaining reader.old ≡ Some input
        → R.remaining reader.new ≡ Some []) }
{
    let mut engine = Engine::new(alloc)?;
    let mut version = Version::Unknown;
    for number in 1..u64::MAX {
        if !play_line(
            alloc,
            style,
            number,
            &mut engine,
            &mut version,
            reader,
            writer,
        )? {
            return Ok(());
        }
    }
    Err(PlayFault::Memory)
}
