//! The search for the first word that does not fit in a line that cannot be read.
ghost use Rattle.std.specs.Prelude.{◌≡◌, ◌≤◌, ◌<◌, ◌+◌, ◌-◌, ◌^◌, ◌||◌, IfSome, Some, false};
ghost use Rattle.std.specs.Prelude.{is_none, is_some, length, not};
ghost use Rattle.scm_lines.specs.Fitting.{fits_last, fits_word, fits_words, form_in};
ghost use Rattle.scm_lines.specs.Fitting.{has_keyword, has_types, has_verb, step_in};
ghost use Rattle.scm_lines.specs.Forms.{line_row, read_form, verb_row};
ghost use Rattle.scm_lines.specs.Keywords.{privilege_of};
ghost use Rattle.scm_lines.specs.Versions.{read_in};
ghost use Rattle.scm_lines.specs.Words.{all_printable, no_words, unprintable_at, words_of};
ghost use Rattle.scm_lines.specs.declared.line.TheConstants.{MAX_LINE};
ghost use Rattle.scm_lines.specs.declared.reason.Reason.TheVariants as reason;

use crate::keywords::{Keyword, Verb, keyword_named, verb_named};
use crate::line::{MAX_LINE, begins_comment};
use crate::misfit::{
    Misfit, first_unprintable, number_misfit, why_attached, why_how, why_number, why_payload,
    why_type, why_version,
};
use crate::numbers::number;
use crate::reason::{Reason, Unreadable};
use crate::version::{Version, first_number_of_verb, has_verb};
use crate::words::first_word;

/// The kind that a word has to be.
#[derive(Clone, Copy)]
enum Wanted {
    Number,
    /// A type that a script of this version has.
    Type(Version),
    Name,
    Bytes,
    How,
    Version,
}

/// The kind that the last words of a line have to be.
#[derive(Clone, Copy)]
enum Last {
    /// No word.
    Nothing,
    /// `priv`, or no word.
    Privilege,
    /// Items.
    Items,
}

/// Returns why `word` is not of the wanted kind; `None` if it is.
fn why_word(wanted: Wanted, word: &[u8]) -> Option<Misfit>
    ensures exact { is_some result ≡ not (fits_word wanted word.now) }
    ensures within { IfSome result (λ m. m.left ≤ length word.now) }
{
    match wanted {
        Wanted::Number => why_number(word),
        Wanted::Type(version) => why_type(version, word),
        Wanted::Name => first_unprintable(word),
        Wanted::Bytes => why_payload(word),
        Wanted::How => why_how(word),
        Wanted::Version => why_version(word),
    }
}

/// Returns the first word that is left over, if there is one.
fn why_end(bytes: &[u8]) -> Option<Misfit>
    ensures exact { is_some result ≡ not (no_words (words_of bytes.now)) }
    ensures within { IfSome result (λ m. m.left ≤ length bytes.now) }
{
    let (word, rest) = first_word(bytes)?;
    Some(Misfit::at(Reason::WordTooMany, word).before(rest))
}

/// Returns why the words that are left are not `priv` alone, if there are any.
fn why_privilege(bytes: &[u8]) -> Option<Misfit>
    ensures exact { is_some result ≡ is_none (privilege_of (words_of bytes.now)) }
    ensures within { IfSome result (λ m. m.left ≤ length bytes.now) }
{
    match first_word(bytes)? {
        (b"priv", rest) => why_end(rest),
        (word, rest) => Some(Misfit::at(Reason::NotPriv, word).before(rest)),
    }
}

/// Returns why a line's last words are not of the kind `last`; `None` if they are.
fn why_last(last: Last, bytes: &[u8]) -> Option<Misfit>
    ensures exact { is_some result ≡ not (fits_last last (words_of bytes.now)) }
    ensures within { IfSome result (λ m. m.left ≤ length bytes.now) }
{
    match last {
        Last::Nothing => why_end(bytes),
        Last::Privilege => why_privilege(bytes),
        Last::Items => why_attached(bytes),
    }
}

/// Makes the reason of a word that is missing at the end of a line.
fn missing_word() -> Misfit
    ensures reason { result.reason ≡ reason.WordMissing }
    ensures left { result.left ≡ 0 }
{
    Misfit::at(Reason::WordMissing, b"")
}

/// Returns why words are not of the form of `wanted` and `last`; `None` if they are.
fn why_words(wanted: &[Wanted], last: Last, bytes: &[u8]) -> Option<Misfit>
    ensures exact { is_some result ≡ not (fits_words wanted.now last (words_of bytes.now)) }
    ensures within { IfSome result (λ m. m.left ≤ length bytes.now) }
{
    let mut left = wanted;
    let mut rest = bytes;
    while let [first, others @ ..] = left {
        let Some((word, tail)) = first_word(rest) else {
            return Some(missing_word());
        };
        if let Some(misfit) = why_word(*first, word) {
            return Some(misfit.before(tail));
        }
        left = others;
        rest = tail;
    }
    why_last(last, rest)
}

/// Returns why the words behind `verb` are not of its form, or a script of `version` does not have
/// the type of sockets that they name; `None` if they are, and it has.
fn why_step(version: Version, verb: Verb, bytes: &[u8]) -> Option<Misfit>
    ensures exact { is_some result ≡ (not (has_types version verb (words_of bytes.now))
        || is_none (read_form (verb_row verb).1 (words_of bytes.now))) }
    ensures within { IfSome result (λ m. m.left ≤ length bytes.now) }
{
    use Wanted::{Bytes, How, Name, Number, Type};
    match verb {
        Verb::Open | Verb::Fork | Verb::Exit => why_words(&[], Last::Nothing, bytes),
        Verb::Dup | Verb::Close | Verb::Accept | Verb::Limit | Verb::Unconnect => {
            why_words(&[Number], Last::Nothing, bytes)
        }
        Verb::Dup2 | Verb::Listen => why_words(&[Number, Number], Last::Nothing, bytes),
        Verb::Pair | Verb::Socket => why_words(&[Type(version)], Last::Nothing, bytes),
        Verb::Bind | Verb::Connect => why_words(&[Number, Name], Last::Nothing, bytes),
        Verb::Send => why_words(&[Number, Bytes], Last::Items, bytes),
        Verb::Recv | Verb::Peek => { why_words(&[Number, Number, Number], Last::Nothing, bytes) }
        Verb::Shutdown => why_words(&[Number, How], Last::Nothing, bytes),
    }
}

/// Makes the misfit of a verb that only a later version has.
fn late_verb(verb: Verb, word: &[u8]) -> Misfit
    ensures { result.left ≡ length word.now }
{
    match first_number_of_verb(verb) {
        3 => Misfit::at(Reason::NeedsVersion3, word),
        _ => Misfit::at(Reason::NeedsVersion2, word),
    }
}

/// Returns why the words behind a process's number are none of its events; `None` if they are one.
#[tactic(auto, using(crate::proofs::VersionsFit::step_in_none, crate::proofs::VersionsFit::step_in_other))]
fn why_process(version: Version, bytes: &[u8]) -> Option<Misfit>
    ensures exact { is_some result ≡ is_none (step_in version (words_of bytes.now)) }
    ensures within { IfSome result (λ m. m.left ≤ length bytes.now) }
{
    let Some((word, rest)) = first_word(bytes) else {
        return Some(missing_word());
    };
    let Some(verb) = verb_named(word) else {
        return Some(Misfit::at(Reason::UnknownVerb, word).before(rest));
    };
    let misfit = why_step(version, verb, rest);
    if misfit.is_some() || has_verb(version, verb) {
        return misfit;
    }
    Some(late_verb(verb, word).before(rest))
}

/// Returns why the words behind `keyword` are not of its form; `None` if they are.
fn why_keyword(keyword: Keyword, bytes: &[u8]) -> Option<Misfit>
    ensures exact { is_some result ≡ is_none (read_form (line_row keyword).1 (words_of bytes.now)) }
    ensures within { IfSome result (λ m. m.left ≤ length bytes.now) }
{
    match keyword {
        Keyword::Spawn => why_words(&[Wanted::Number, Wanted::Number], Last::Privilege, bytes),
        Keyword::Slice => why_words(&[Wanted::Number], Last::Nothing, bytes),
        Keyword::Version => why_words(&[Wanted::Version], Last::Nothing, bytes),
        Keyword::Begin | Keyword::Pass | Keyword::Table | Keyword::Totals | Keyword::Check => {
            why_words(&[], Last::Nothing, bytes)
        }
    }
}

/// Returns whether a line with `keyword` can come after the lines so far.
fn has_keyword(version: Version, keyword: Keyword) -> bool
    ensures { result ≡ has_keyword version keyword }
{
    keyword != Keyword::Version || version == Version::Unknown
}

/// Returns why a word is neither a process's number nor a keyword.
fn first_misfit(word: &[u8]) -> Misfit
    ensures { result.left ≤ length word.now }
{
    match word {
        [b'0'..=b'9', ..] => number_misfit(word),
        _ => Misfit::at(Reason::UnknownKeyword, word),
    }
}

/// Returns why a line that begins with `word` is of no form; `None` if it has one.
#[tactic(auto, using(crate::proofs::VersionsFit::form_in_process, crate::proofs::VersionsFit::form_in_other))]
fn why_form(version: Version, word: &[u8], rest: &[u8]) -> Option<Misfit>
    requires { length word.now + length rest.now < 2 ^ 63 }
    ensures exact { is_some result ≡ is_none (form_in version word.now (words_of rest.now)) }
    ensures within { IfSome result (λ m. m.left ≤ length word.now + length rest.now) }
{
    if number(word).is_some() {
        return why_process(version, rest);
    }
    let Some(keyword) = keyword_named(word) else {
        return Some(first_misfit(word).before(rest));
    };
    let misfit = why_keyword(keyword, rest);
    if misfit.is_some() || has_keyword(version, keyword) {
        return misfit;
    }
    Some(Misfit::at(Reason::VersionTooLate, word).before(rest))
}

/// Returns why the words of a line do not fit; `None` if they do.
#[tactic(auto, using(crate::proofs::LinesFit::silent, crate::proofs::LinesFit::comment, crate::proofs::LinesFit::by_form))]
fn why_line(version: Version, bytes: &[u8]) -> Option<Misfit>
    requires { length bytes.now ≤ MAX_LINE }
    ensures exact { is_some result ≡ is_none (read_in version bytes.now) }
    ensures not_printable { IfSome result (λ m.
        all_printable bytes.now ≡ false → m.reason ≡ reason.NotPrintable) }
    ensures at { IfSome result (λ m. all_printable bytes.now ≡ false
        → unprintable_at bytes.now ≡ Some (length bytes.now - m.left)) }
    ensures within { IfSome result (λ m. m.left ≤ length bytes.now) }
{
    let (word, rest) = first_word(bytes)?;
    if begins_comment(word) {
        return None;
    }
    if let Some(misfit) = first_unprintable(bytes) {
        return Some(misfit);
    }
    why_form(version, word, rest)
}

/// Returns why the next line of a script of `version` cannot be read, and at which column.
///
/// `bytes` is the line without its end. A line that can be read has no reason. A line of too many
/// bytes comes first, then a byte that is not printable, then the first word that does not fit, and
/// last an event that the script's version does not have. Takes no memory.
#[tactic(auto, using(crate::proofs::LinesFit::too_long))]
pub fn why(version: Version, bytes: &[u8]) -> Option<Unreadable>
    ensures exact { is_some result ≡ is_none (read_in version bytes.now) }
    ensures column { IfSome result (λ u. (1 ≤ u.column) × (u.column ≤ length bytes.now + 1)) }
    ensures too_long { IfSome result (λ u.
        MAX_LINE < length bytes.now → u.reason ≡ reason.LineTooLong) }
    ensures not_printable { IfSome result (λ u. length bytes.now ≤ MAX_LINE
        → all_printable bytes.now ≡ false → u.reason ≡ reason.NotPrintable) }
    ensures end { IfSome result (λ u. MAX_LINE < length bytes.now → u.column ≡ MAX_LINE + 1) }
    ensures at { IfSome result (λ u. length bytes.now ≤ MAX_LINE
        → all_printable bytes.now ≡ false → unprintable_at bytes.now ≡ Some (u.column - 1)) }
{
    if bytes.len() > MAX_LINE {
        return Some(Unreadable {
            column: MAX_LINE + 1,
            reason: Reason::LineTooLong,
        });
    }
    let Misfit { reason, left } = why_line(version, bytes)?;
    Some(Unreadable {
        column: bytes.len() - left + 1,
        reason,
    })
}
