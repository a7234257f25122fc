//! The words of a line, which spaces and tabs part.
ghost use Rattle.std.specs.Prelude.{◌≡◌, ◌∷◌, ◌≤◌, ◌<◌, ◌+◌, [], IfSome, IfNone, length, false};
ghost use Rattle.std.specs.Option.{option_map};
ghost use Rattle.scm_lines.specs.Words.{all_printable, is_blank, is_printable, words_of};
ghost use Rattle.scm_lines.specs.Words.{ends_word, no_words, only_of, StartsWord};

/// Returns whether the byte is a space or a tab.
#[inline(always)]
fn is_blank(b: u8) -> bool
    ensures { result ≡ is_blank b }
{
    b == b' ' || b == b'\t'
}

/// Returns the bytes behind one space, or all of them if they begin with no space.
#[inline(always)]
pub fn without_space(bytes: &[u8]) -> &[u8]
    ensures { words_of result.now ≡ words_of bytes.now }
{
    match bytes {
        [b' ', tail @ ..] => tail,
        _ => bytes,
    }
}

/// Returns the bytes from the first that is no blank.
#[inline(always)]
fn without_blanks(bytes: &[u8]) -> &[u8]
    ensures words { words_of result.now ≡ words_of bytes.now }
    ensures starts { StartsWord result.now }
    ensures shorter { length result.now ≤ length bytes.now }
{
    let mut rest = bytes;
    while let [first, tail @ ..] = rest {
        if !is_blank(*first) {
            return rest;
        }
        rest = tail;
    }
    rest
}

/// Cuts off the first word of bytes that begin with one, and returns the bytes after it.
#[inline(always)]
fn cut_word(bytes: &[u8]) -> (&[u8], &[u8])
    requires { ends_word bytes.now ≡ false }
    ensures word { words_of bytes.now ≡ result.0.now ∷ words_of result.1.now }
    ensures shorter { length result.1.now < length bytes.now }
    ensures within { length result.0.now + length result.1.now ≡ length bytes.now }
{
    let mut end = 1;
    while end < bytes.len() && !is_blank(bytes[end]) {
        end += 1;
    }
    bytes.split_at(end)
}

/// Returns the first word, if there is one, and the bytes after it.
pub fn first_word(bytes: &[u8]) -> Option<(&[u8], &[u8])>
    ensures some { IfSome result (λ found.
        words_of bytes.now ≡ found.0.now ∷ words_of found.1.now) }
    ensures none { IfNone result (words_of bytes.now ≡ []) }
    ensures shorter { IfSome result (λ found. length found.1.now < length bytes.now) }
    ensures within { IfSome result (λ found.
        length found.0.now + length found.1.now ≤ length bytes.now) }
{
    let start = without_blanks(bytes);
    if start.is_empty() {
        None
    } else {
        Some(cut_word(start))
    }
}

/// Returns whether a word ends before `bytes`.
#[inline(always)]
pub fn ends_word(bytes: &[u8]) -> bool
    ensures { result ≡ ends_word bytes.now }
{
    match bytes {
        [] => true,
        [next, ..] => is_blank(*next),
    }
}

/// Returns the word of a line that has just one.
pub fn only_word(bytes: &[u8]) -> Option<&[u8]>
    ensures { option_map (λ word. word.now) result ≡ only_of (words_of bytes.now) }
{
    let (word, rest) = first_word(bytes)?;
    is_end(rest).then_some(word)
}

/// Returns whether no word is left.
#[inline(always)]
pub fn is_end(bytes: &[u8]) -> bool
    ensures { result ≡ no_words (words_of bytes.now) }
{
    bytes.is_empty() || first_word(bytes).is_none()
}

/// Returns whether the byte is a printable ASCII character, a space or a tab.
pub fn is_printable(b: u8) -> bool
    ensures { result ≡ is_printable b }
{
    matches!(b, b' '..=b'~' | b'\t')
}

/// Returns whether each byte is a printable ASCII character, a space or a tab.
pub fn all_printable(bytes: &[u8]) -> bool
    ensures { result ≡ all_printable bytes.now }
{
    // Nearly all names are printable, and a loop without an early end tests many bytes at once.
    let mut all = true;
    for b in bytes {
        all &= is_printable(*b);
    }
    all
}
