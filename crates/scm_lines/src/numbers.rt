//! Numbers in decimal digits.
ghost use Rattle.std.specs.Prelude.{◌≡◌, Some, IfSome};
ghost use Rattle.std.specs.Option.{option_map};
ghost use Rattle.scm_lines.specs.Numbers.{word_number, first_number};
ghost use Rattle.scm_lines.specs.Words.{words_of};

use crate::words::{ends_word, first_word, without_space};

/// The most digits of a number.
const MAX_DIGITS: usize = 10;

/// A number of at most `FEW_DIGITS` digits fits in a `u32`.
const FEW_DIGITS: usize = 9;

/// Reads the number of a word.
pub fn number(word: &[u8]) -> Option<u32>
    ensures { result ≡ word_number word.now }
{
    // Most numbers have one digit.
    if let [digit @ b'0'..=b'9'] = word {
        return Some(u32::from(*digit - b'0'));
    }
    if word.is_empty() || word.len() > MAX_DIGITS || (word[0] == b'0' && word.len() > 1) {
        return None;
    }
    let mut value: u64 = 0;
    for b in word {
        if !b.is_ascii_digit() {
            return None;
        }
        value = value * 10 + u64::from(*b - b'0');
    }
    u32::try_from(value).ok()
}

/// Reads the first word as a number, and returns the bytes after it.
#[inline(always)]
pub fn number_in(bytes: &[u8]) -> Option<(u32, &[u8])>
    ensures { option_map (λ found. (found.0, words_of found.1.now)) result
        ≡ first_number (words_of bytes.now) }
{
    // Most are one digit, behind one space or at the front.
    if let [digit @ b'0'..=b'9', rest @ ..] = without_space(bytes)
        && ends_word(rest)
    {
        return Some((u32::from(*digit - b'0'), rest));
    }
    any_number_in(bytes)
}

/// Reads the first word as a number of any length, and returns the bytes after it. A function of
/// its own, so that a number of one digit costs little.
#[inline(never)]
fn any_number_in(bytes: &[u8]) -> Option<(u32, &[u8])>
    ensures { option_map (λ found. (found.0, words_of found.1.now)) result
        ≡ first_number (words_of bytes.now) }
{
    if let Some(found) = short_number_in(bytes) {
        return Some(found);
    }
    let (word, rest) = first_word(bytes)?;
    Some((number(word)?, rest))
}

/// Reads the first word as a number of at most nine digits that begins with no 0, in one pass, and
/// returns the bytes after it. `None` does not mean that the word is no number: the caller tries
/// `number`.
#[inline(always)]
fn short_number_in(bytes: &[u8]) -> Option<(u32, &[u8])>
    ensures { IfSome result (λ found.
        first_number (words_of bytes.now) ≡ Some (found.0, words_of found.1.now)) }
{
    let start = without_space(bytes);
    let [first @ b'1'..=b'9', ..] = start else {
        return None;
    };
    let mut value = u32::from(*first - b'0');
    let mut end = 1;
    while end < start.len() && end < FEW_DIGITS && start[end].is_ascii_digit() {
        value = value * 10 + u32::from(start[end] - b'0');
        end += 1;
    }
    let (_, rest) = start.split_at(end);
    ends_word(rest).then_some((value, rest))
}
