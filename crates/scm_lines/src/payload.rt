//! The bytes of a message, as a word spells them.
ghost use Rattle.std.specs.Prelude.{◌≡◌, ◌<◌, ◌∷◌, length, IfSome, IfNone, Some, None};
ghost use Rattle.scm_lines.specs.Fault.{Reads};
ghost use Rattle.scm_lines.specs.Payload.{is_plain, hex_value, unescape};
ghost use Rattle.scm_lines.specs.Payload.{byte_before, payload_of};

use crate::fault::LineFault;
use crate::numbers::number;
use af_base::items::{Bytes, Items};
use smallvec::SmallVec;
use std::alloc::Global;

/// The most bytes of a word: one more than a message may have, so that a script can ask for a
/// message that is too long.
pub const MAX_PAYLOAD: usize = 65_537;

/// Returns whether the character spells itself: a letter, a digit, `_`, `-` or `.`.
fn is_plain(b: u8) -> bool
    ensures { result ≡ is_plain b }
{
    b.is_ascii_alphanumeric() || matches!(b, b'_' | b'-' | b'.')
}

/// Returns the value of a hexadecimal digit, in either case.
fn hex_value(b: u8) -> Option<u8>
    ensures { result ≡ hex_value b }
{
    match b {
        b'0'..=b'9' => Some(b - b'0'),
        b'A'..=b'F' => Some(b - b'A' + 10),
        b'a'..=b'f' => Some(b - b'a' + 10),
        _ => None,
    }
}

/// Reads the first byte of a word, and returns the characters after those that spell it.
#[inline(always)]
pub fn first_byte(word: &[u8]) -> Option<(u8, &[u8])>
    ensures some { IfSome result (λ found.
        unescape word.now ≡ byte_before (Some found.0) (unescape found.1.now)) }
    ensures shorter { IfSome result (λ found. length found.1.now < length word.now) }
    ensures none { IfNone result (0 < length word.now → unescape word.now ≡ None) }
{
    match word {
        [b'%', high, low, rest @ ..] => {
            let high = hex_value(*high)?;
            let low = hex_value(*low)?;
            Some((16 * high + low, rest))
        }
        [first, rest @ ..] if is_plain(*first) => Some((*first, rest)),
        _ => None,
    }
}

/// Reads the bytes of a word's characters, into a list with room for as many bytes as the word has
/// characters.
#[inline(always)]
#[tactic(auto, using(crate::proofs::PayloadLemmas::bytes_before_more))]
fn unescape_word(alloc: Global, word: &[u8]) -> Result<Bytes, LineFault>
    ensures { Reads (unescape word.now) result }
{
    let mut bytes = SmallVec::with_capacity(alloc, word.len())?;
    let mut rest = word;
    while !rest.is_empty() {
        let Some((byte, tail)) = first_byte(rest) else {
            return Err(LineFault::Unreadable);
        };
        bytes.push_reserved(byte);
        rest = tail;
    }
    Ok(Items::of_small(bytes))
}

/// Makes as many letters `x` as the digits behind a `*` say.
fn letters(alloc: Global, digits: &[u8]) -> Result<Bytes, LineFault>
    ensures { Reads (payload_of (42 ∷ digits.now)) result }
{
    let count = number(digits).ok_or(LineFault::Unreadable)? as usize;
    if count > MAX_PAYLOAD {
        return Err(LineFault::Unreadable);
    }
    Ok(Items::of(vec![in alloc; b'x'; count]?))
}

/// Reads the bytes of a word: `*` and how many letters `x`, or the characters that spell them.
#[inline(always)]
pub fn payload(alloc: Global, word: &[u8]) -> Result<Bytes, LineFault>
    ensures { Reads (payload_of word.now) result }
{
    let bytes = match word {
        [] => return Err(LineFault::Unreadable),
        [b'*', digits @ ..] => return letters(alloc, digits),
        _ => unescape_word(alloc, word)?,
    };
    if bytes.len() > MAX_PAYLOAD {
        return Err(LineFault::Unreadable);
    }
    Ok(bytes)
}
