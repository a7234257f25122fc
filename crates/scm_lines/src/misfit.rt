//! The reasons why words cannot be read.
ghost use Rattle.std.specs.Prelude.{◌≡◌, ◌≤◌, ◌<◌, ◌+◌, ◌-◌, ◌^◌, ◌∷◌, IfSome, length, not};
ghost use Rattle.std.specs.Prelude.{Some, is_none, is_some, position};
ghost use Rattle.scm_lines.specs.Attached.{attached_of};
ghost use Rattle.scm_lines.specs.Fitting.{digits_reason, fits_type, number_reason};
ghost use Rattle.scm_lines.specs.Keywords.{how_of, version_of};
ghost use Rattle.scm_lines.specs.Numbers.{is_digit, word_number};
ghost use Rattle.scm_lines.specs.Payload.{at_most, payload_of, unescape};
ghost use Rattle.scm_lines.specs.declared.reason.Reason.TheVariants as reason;
ghost use Rattle.scm_lines.specs.Words.{all_printable, unprintable_at, words_of};

use crate::attached::{MAX_ATTACHED, item, star_at};
use crate::keywords::{how_named, type_named, version_named};
use crate::numbers::number;
use crate::payload::{MAX_PAYLOAD, first_byte};
use crate::reason::Reason;
use crate::version::{Version, has_type};
use crate::words::{first_word, is_printable};

/// The first byte of a text that does not fit, and why.
#[derive(Clone, Copy)]
pub struct Misfit {
    /// The reason.
    pub reason: Reason,
    /// How many bytes are left from the first that does not fit, to the end of the text.
    pub left: usize,
}

impl Misfit {
    /// Makes a misfit at the first byte of `bytes`.
    pub fn at(reason: Reason, bytes: &[u8]) -> Misfit
        ensures reason { result.reason ≡ reason }
        ensures left { result.left ≡ length bytes.now }
    {
        Misfit {
            reason,
            left: bytes.len(),
        }
    }

    /// Returns the misfit as one of a longer text: `rest` follows the bytes looked at.
    pub fn before(self, rest: &[u8]) -> Misfit
        requires { self.left + length rest.now < 2 ^ 64 }
        ensures reason { result.reason ≡ self.reason }
        ensures left { result.left ≡ self.left + length rest.now }
    {
        Misfit {
            reason: self.reason,
            left: self.left + rest.len(),
        }
    }
}

/// Returns the position of the first byte that is not printable.
fn unprintable_at(bytes: &[u8]) -> Option<usize>
    ensures value { result ≡ unprintable_at bytes.now }
    ensures within { IfSome result (λ i. i < length bytes.now) }
{
    bytes.iter().position(|b| !is_printable(*b))
}

/// Returns the first byte that is not printable, if there is one.
pub fn first_unprintable(bytes: &[u8]) -> Option<Misfit>
    ensures reason { IfSome result (λ m. m.reason ≡ reason.NotPrintable) }
    ensures exact { is_some result ≡ not (all_printable bytes.now) }
    ensures at { IfSome result (λ m. unprintable_at bytes.now ≡ Some (length bytes.now - m.left)) }
    ensures within { IfSome result (λ m. m.left ≤ length bytes.now) }
{
    let at = unprintable_at(bytes)?;
    let (_, rest) = bytes.split_at(at);
    Some(Misfit::at(Reason::NotPrintable, rest))
}

/// Returns the position of the first byte that is no digit.
fn other_at(word: &[u8]) -> Option<usize>
    ensures value { result ≡ position (λ b. not (is_digit b)) word.now }
    ensures within { IfSome result (λ i. i < length word.now) }
{
    word.iter().position(|b| !b.is_ascii_digit())
}

/// Returns why digits are no number.
fn digits_reason(digits: &[u8]) -> Reason
    ensures { result ≡ digits_reason digits.now }
{
    match digits {
        [] => Reason::NotANumber,
        [b'0', _, ..] => Reason::LeadingZero,
        _ => Reason::NumberTooLarge,
    }
}

/// Returns why a word is no number.
pub fn number_misfit(word: &[u8]) -> Misfit
    ensures reason { result.reason ≡ number_reason word.now }
    ensures within { result.left ≤ length word.now }
{
    if let Some(at) = other_at(word) {
        let (_, rest) = word.split_at(at);
        return Misfit::at(Reason::NotANumber, rest);
    }
    Misfit::at(digits_reason(word), word)
}

/// Returns why `word` is not read as a number; `None` if it is.
pub fn why_number(word: &[u8]) -> Option<Misfit>
    ensures exact { is_some result ≡ is_none (word_number word.now) }
    ensures reason { IfSome result (λ m. m.reason ≡ number_reason word.now) }
    ensures within { IfSome result (λ m. m.left ≤ length word.now) }
{
    match number(word) {
        Some(_) => None,
        None => Some(number_misfit(word)),
    }
}

/// Returns why `word` is no type of sockets in a script of `version`; `None` if it is.
pub fn why_type(version: Version, word: &[u8]) -> Option<Misfit>
    ensures exact { is_some result ≡ not (fits_type version word.now) }
    ensures within { IfSome result (λ m. m.left ≤ length word.now) }
{
    let reason = match version {
        Version::Third => Reason::UnknownType,
        _ => Reason::UnknownOldType,
    };
    match type_named(word) {
        Some(kind) if has_type(version, kind) => None,
        _ => Some(Misfit::at(reason, word)),
    }
}

/// Returns why `word` does not say which ends to close; `None` if it does.
pub fn why_how(word: &[u8]) -> Option<Misfit>
    ensures exact { is_some result ≡ is_none (how_of word.now) }
    ensures within { IfSome result (λ m. m.left ≤ length word.now) }
{
    match how_named(word) {
        Some(_) => None,
        None => Some(Misfit::at(Reason::UnknownHow, word)),
    }
}

/// Returns why `word` names no version; `None` if it names one.
pub fn why_version(word: &[u8]) -> Option<Misfit>
    ensures exact { is_some result ≡ is_none (version_of word.now) }
    ensures within { IfSome result (λ m. m.left ≤ length word.now) }
{
    match version_named(word) {
        Some(_) => None,
        None => Some(Misfit::at(Reason::UnknownVersion, word)),
    }
}

/// Returns why `digits`, behind a `*`, are no count of letters; `None` if they are.
fn why_letters(digits: &[u8]) -> Option<Misfit>
    ensures exact { is_some result ≡ is_none (payload_of (42 ∷ digits.now)) }
    ensures within { IfSome result (λ m. m.left ≤ length digits.now) }
{
    match number(digits) {
        None => Some(number_misfit(digits)),
        Some(count) if count as usize > MAX_PAYLOAD => {
            Some(Misfit::at(Reason::BytesTooLong, digits))
        }
        Some(_) => None,
    }
}

/// Returns why no byte is spelled at the front of a word.
fn byte_misfit(word: &[u8]) -> Misfit
    ensures { result.left ≡ length word.now }
{
    match word {
        [b'%', ..] => Misfit::at(Reason::NotHexadecimal, word),
        _ => Misfit::at(Reason::NotInBytes, word),
    }
}

/// Returns why `word` spells no bytes of a message; `None` if it does.
#[tactic(auto, using(crate::proofs::FittingLemmas::counted_byte))]
fn why_spelled(word: &[u8]) -> Option<Misfit>
    ensures exact { is_some result ≡ is_none (at_most 65537 (unescape word.now)) }
    ensures within { IfSome result (λ m. m.left ≤ length word.now) }
{
    let mut rest = word;
    let mut count = 0;
    while !rest.is_empty() {
        let Some((_, tail)) = first_byte(rest) else {
            return Some(byte_misfit(rest));
        };
        count += 1;
        rest = tail;
    }
    if count > MAX_PAYLOAD {
        return Some(Misfit::at(Reason::BytesTooLong, word));
    }
    None
}

/// Returns why `word` has no bytes of a message; `None` if it has.
pub fn why_payload(word: &[u8]) -> Option<Misfit>
    ensures exact { is_some result ≡ is_none (payload_of word.now) }
    ensures within { IfSome result (λ m. m.left ≤ length word.now) }
{
    match word {
        [] => Some(Misfit::at(Reason::WordMissing, word)),
        [b'*', digits @ ..] => why_letters(digits),
        _ => why_spelled(word),
    }
}

/// Returns why a word is no item.
fn item_misfit(word: &[u8]) -> Misfit
    ensures { result.left ≤ length word.now }
{
    let Some(at) = star_at(word) else {
        return number_misfit(word);
    };
    let (front, rest) = word.split_at(at);
    let (_, back) = word.split_at(at + 1);
    if number(front).is_none() {
        return number_misfit(front).before(rest);
    }
    match number(back) {
        None => number_misfit(back),
        Some(_) => Misfit::at(Reason::CountOutOfRange, back),
    }
}

/// Returns why the words that are left are no items; `None` if they are.
#[tactic(auto, using(crate::proofs::FittingLemmas::counted_item, crate::proofs::FittingLemmas::counted_over))]
pub fn why_attached(bytes: &[u8]) -> Option<Misfit>
    ensures exact { is_some result ≡ is_none (attached_of (words_of bytes.now)) }
    ensures within { IfSome result (λ m. m.left ≤ length bytes.now) }
{
    let mut rest = bytes;
    let mut count = 0;
    while let Some((word, tail)) = first_word(rest) {
        let Some((_, copies)) = item(word) else {
            return Some(item_misfit(word).before(tail));
        };
        if count + copies > MAX_ATTACHED {
            return Some(Misfit::at(Reason::TooManyDescriptors, word).before(tail));
        }
        count += copies;
        rest = tail;
    }
    None
}
