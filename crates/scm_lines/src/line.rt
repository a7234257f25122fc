//! One line of a script.
ghost use Rattle.std.specs.Prelude.{◌≡◌, IfErr, true};
ghost use Rattle.scm_lines.specs.Fault.{Reads};
ghost use Rattle.scm_lines.specs.Meaning.{line_of, line_takes_memory};
ghost use Rattle.scm_lines.specs.Words.{begins_comment, words_of};
ghost use Rattle.scm_lines.specs.declared.fault.LineFault.TheVariants as fault;

use crate::fault::LineFault;
use crate::forms::form;
use crate::version::Version;
use crate::words::first_word;
use af_base::events::Event;
use std::alloc::Global;

/// The most bytes of a line, without its end.
pub const MAX_LINE: usize = 262_144;

/// A report about the state at a line. It is no event, and changes nothing.
#[derive(Clone, Copy)]
pub enum Report {
    /// Each live file: its counts, kind and state, how much waits at it, its peer and its name.
    Table,
    /// How many descriptors of each user are in flight.
    Totals,
    /// How many files are live, how many of them are garbage, and whether all counts that are kept
    /// are the recounts.
    Check,
}

/// The meaning of a line.
#[derive(Drop)]
pub enum Line {
    /// Nothing: it has no words, or is a comment.
    Silence,
    /// `version 2` or `version 3`: the script is of that version. It is no event, and unanswered.
    Version(Version),
    /// An event.
    Event(Event),
    /// A report is wanted.
    Report(Report),
}

/// Returns whether a line whose first word is `word` is a comment.
pub fn begins_comment(word: &[u8]) -> bool
    ensures { result ≡ begins_comment word.now }
{
    matches!(word, [b'#', ..])
}

/// Reads a line of any version; [`crate::version::read_in`] checks the version too.
///
/// `bytes` is the line without its end: the caller removes the LF, and one CR before it. Answers
/// [`LineFault::Unreadable`] for a line of no form, and for one of more than [`MAX_LINE`] bytes,
/// even a comment. Only `send` takes memory, for its bytes and its descriptors, and `bind` and
/// `connect`, for a name; if it is refused, the answer is [`LineFault::Memory`].
#[tactic(auto, using(crate::proofs::LineLemmas::line_by_words))]
pub fn line_of(alloc: Global, bytes: &[u8]) -> Result<Line, LineFault>
    ensures read { Reads (line_of bytes.now) result }
    ensures memory { IfErr result
        (λ f. f ≡ fault.Memory → line_takes_memory (words_of bytes.now) ≡ true) }
{
    if bytes.len() > MAX_LINE {
        return Err(LineFault::Unreadable);
    }
    let Some((word, rest)) = first_word(bytes) else {
        return Ok(Line::Silence);
    };
    if begins_comment(word) {
        return Ok(Line::Silence);
    }
    // Each word that is read is printable, and so are blanks.
    form(alloc, word, rest)
}
