//! The answer to one line.
ghost use Rattle.std.specs.Prelude.{◌≡◌, ◌++◌, ℕ, List, IfOk, None, OnOk, OnErr};
ghost use Rattle.scm_lines.specs.Versions.{read_in};
ghost use Rattle.scmgc.specs.Played.{AnswersLine, IsTold};

use crate::play::own::{answer_to, question_of};
use af_steps::Engine;
use scm_lines::{LineFault, Version, read_in, why};
use scm_run::{MAX_REPLY_LINE, answer};
use std::alloc::{AllocError, Global};

/// Makes the line that says why a line cannot be read.
fn reason(alloc: Global, version: Version, bytes: &[u8]) -> Result<Vec<u8>, AllocError>
    requires { read_in version bytes.now ≡ None }
{
    let unreadable = why(version, bytes).unwrap();
    let line = format!(in alloc; "cannot be read, {unreadable}\n")?;
    Ok(line.into_bytes())
}

/// Makes the answer to a line that cannot be read: to the question that it asks, or why it cannot
/// be read.
fn answer_unreadable(
    alloc: Global,
    engine: &Engine,
    version: Version,
    bytes: &[u8],
) -> Result<Vec<u8>, AllocError>
    requires { read_in version bytes.now ≡ None }
    ensures { IfOk result (λ text. IsTold engine.now.world bytes.now text.items) }
{
    match question_of(bytes) {
        Some(question) => answer_to(alloc, engine, question),
        None => reason(alloc, version, bytes),
    }
}

/// Does a line that can be read, and appends its answer. Any other line changes nothing: appends
/// the answer to the question that it asks, or why it cannot be read.
pub fn answer_line(
    alloc: Global,
    engine: &mut Engine,
    version: &mut Version,
    bytes: &[u8],
    text: &mut Vec<u8>,
) -> Result<(), AllocError>
    ensures ok { OnOk result ((line : List ℕ) × (text.new.items ≡ text.old.items ++ line)
        × AnswersLine (record { machine = engine.old; version = version.old }) bytes.now line
        (record { machine = engine.new; version = version.new })) }
    ensures err { OnErr result ((engine.new ≡ engine.old) × (version.new ≡ version.old)) }
{
    match read_in(alloc, *version, bytes) {
        Ok(says) => {
            text.reserve(MAX_REPLY_LINE)?;
            *version = version.after(&says);
            answer(alloc, engine, says, text);
            Ok(())
        }
        Err(LineFault::Memory) => Err(AllocError),
        Err(LineFault::Unreadable) => {
            let line = answer_unreadable(alloc, engine, *version, bytes)?;
            text.extend_from_slice(line.as_slice())
        }
    }
}
