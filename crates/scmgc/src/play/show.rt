//! The layout of lines and their answers.
ghost use Rattle.std.specs.Prelude.{◌≡◌, ◌-◌, ◌<◌, ◌==◌, ◌++◌, IfOk, IfSome, OnOk, position, codes};
ghost use Rattle.std.specs.Prelude.{length, map, replicate, string_bytes};
ghost use Rattle.scmgc.specs.Display.{beside, entry_text, is_one_line, number_text, prompt_text};
ghost use Rattle.scmgc.specs.Display.{shown_byte};

use std::alloc::{AllocError, Global};

/// Where lines come from, and so what is shown beside their answers.
#[derive(Clone, Copy)]
pub enum Style {
    /// A script: each line is shown with its number, and its answer beside it.
    Script,
    /// A terminal, which shows what is typed: there is a prompt with the number of the next line.
    Terminal,
}

/// The column where answers begin, unless their line is longer.
const ANSWER_COLUMN: usize = 40;

/// How many columns a number has, unless it is longer.
const NUMBER_WIDTH: usize = 4;

/// How many spaces there are behind a number, and at least between a line and its answer.
const GAP: usize = 2;

/// Appends spaces.
fn push_spaces(shown: &mut Vec<u8>, count: usize) -> Result<(), AllocError>
    ensures { OnOk result (shown.new.items ≡ shown.old.items ++ replicate count 32) }
{
    for _ in 0..count {
        shown.push(b' ')?;
    }
    Ok(())
}

/// Appends the prefix of line `number`.
fn push_number(alloc: Global, shown: &mut Vec<u8>, number: u64) -> Result<(), AllocError>
    ensures { OnOk result (shown.new.items ≡ shown.old.items ++ number_text number) }
{
    let digits = format!(in alloc; "{number}")?;
    push_spaces(shown, NUMBER_WIDTH.saturating_sub(digits.len()))?;
    shown.extend_from_slice(digits.as_bytes())?;
    push_spaces(shown, GAP)
}

/// Returns the byte that is shown for a byte of a line.
fn shown_byte(byte: u8) -> u8
    ensures { result ≡ shown_byte byte }
{
    if byte.is_ascii_control() { b' ' } else { byte }
}

/// Appends a line in one row: a tab or another control character is a space.
fn push_line(shown: &mut Vec<u8>, bytes: &[u8]) -> Result<(), AllocError>
    ensures { OnOk result (shown.new.items ≡ shown.old.items ++ map shown_byte bytes.now) }
{
    for byte in bytes {
        shown.push(shown_byte(*byte))?;
    }
    Ok(())
}

/// Returns the position of the first line feed.
fn first_feed(answer: &[u8]) -> Option<usize>
    ensures value { result ≡ position (λ b. b == 10) answer.now }
    ensures within { IfSome result (λ i. i < length answer.now) }
{
    answer.iter().position(|b| *b == b'\n')
}

/// Returns whether the answer is one line, with its line feed at its end alone.
fn is_one_line(answer: &[u8]) -> bool
    ensures { result ≡ is_one_line answer.now }
{
    match first_feed(answer) {
        Some(at) => at + 1 == answer.len(),
        None => false,
    }
}

/// Appends an answer beside a line, or below it where it has more lines than one.
fn push_beside(shown: &mut Vec<u8>, answer: &[u8]) -> Result<(), AllocError>
    ensures { OnOk result (shown.new.items ≡ beside shown.old.items answer.now) }
{
    if is_one_line(answer) {
        let gap = ANSWER_COLUMN.saturating_sub(shown.len()).max(GAP);
        push_spaces(shown, gap)?;
    } else {
        shown.push(b'\n')?;
    }
    shown.extend_from_slice(answer)
}

/// Makes the text of a line with its number and its answer.
pub fn entry(
    alloc: Global,
    style: Style,
    number: u64,
    bytes: &[u8],
    answer: &[u8],
) -> Result<Vec<u8>, AllocError>
    ensures { IfOk result (λ text. text.items ≡ entry_text style number bytes.now answer.now) }
{
    let mut shown = Vec::new(alloc);
    match style {
        Style::Script => {
            push_number(alloc, &mut shown, number)?;
            push_line(&mut shown, bytes)?;
            push_beside(&mut shown, answer)?;
        }
        Style::Terminal => shown.extend_from_slice(answer)?,
    }
    Ok(shown)
}

/// Makes the prompt before line `number`.
pub fn prompt(alloc: Global, style: Style, number: u64) -> Result<String, AllocError>
    ensures { IfOk result (λ text. string_bytes text ≡ prompt_text style number) }
{
    match style {
        Style::Script => Ok(String::new(alloc)),
        Style::Terminal => format!(in alloc; "{number}> "),
    }
}
