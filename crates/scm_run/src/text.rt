//! The text of replies.
ghost use Rattle.std.specs.Prelude.{◌≡◌, ◌<◌, ◌≤◌, ◌+◌, ◌*◌, ◌++◌, decimal, length};
ghost use Rattle.std.specs.Prelude.{vec_capacity, vec_len};
ghost use Rattle.std.specs.List.{flat_map};
ghost use Rattle.af_report.specs.Texts.{escaped};
ghost use Rattle.scm_run.specs.Text.{IsShort, all_plain, spaced};
ghost use Rattle.scm_run.specs.Text.{fds_text, flag_text, got_text, reply_line, reply_text};

use af_base::events::Reply;
use af_base::ids::Fd;
use af_base::limits::{MAX_BYTES, SCM_MAX_FD};
use af_report::escape::{hex_digit, is_name_byte};
use itoa::Buffer;

/// Room for the line of any reply: three characters for each byte that a receive takes, a space and
/// twenty digits for each descriptor, and the words.
pub const MAX_REPLY_LINE: usize = 3 * MAX_BYTES + 21 * SCM_MAX_FD + 64;

/// How many bytes of a message are appended at once.
const BLOCK: usize = 256;

/// From how many bytes on it pays to look at all of them before any is appended.
const MANY: usize = 8;

// Each call below has room for the most that it may append. Room is never lost.

/// Appends a word.
#[inline(always)]
fn push_word(text: &mut Vec<u8>, word: &str)
    requires { vec_len text.old + length word.now ≤ vec_capacity text.old }
    ensures bytes { text.new.items ≡ text.old.items ++ word.now }
    ensures most { vec_len text.new ≤ vec_len text.old + length word.now }
    ensures room { vec_capacity text.old ≤ vec_capacity text.new }
{
    // Byte by byte: most words are so short that a copy of memory costs more.
    for byte in word.as_bytes() {
        text.push_reserved(*byte);
    }
}

/// Appends a byte as itself, or % and its two hexadecimal digits.
fn push_escaped(text: &mut Vec<u8>, byte: u8)
    requires { vec_len text.old + 3 ≤ vec_capacity text.old }
    ensures bytes { text.new.items ≡ text.old.items ++ escaped byte }
    ensures most { vec_len text.new ≤ vec_len text.old + 3 }
    ensures room { vec_capacity text.old ≤ vec_capacity text.new }
{
    if is_name_byte(byte) {
        text.push_reserved(byte);
        return;
    }
    text.push_reserved(b'%');
    text.push_reserved(hex_digit(byte / 16));
    text.push_reserved(hex_digit(byte % 16));
}

/// Returns whether each byte is printed as itself.
///
/// The loop has no early end, so that many bytes are tested at once.
fn all_plain(bytes: &[u8]) -> bool
    ensures { result ≡ all_plain bytes.now }
{
    let mut plain = true;
    for byte in bytes {
        plain &= is_name_byte(*byte);
    }
    plain
}

/// Appends some bytes, each as itself or by its digits.
fn push_each(text: &mut Vec<u8>, bytes: &[u8])
    requires { vec_len text.old + 3 * length bytes.now ≤ vec_capacity text.old }
    ensures bytes { text.new.items ≡ text.old.items ++ flat_map escaped bytes.now }
    ensures most { vec_len text.new ≤ vec_len text.old + 3 * length bytes.now }
    ensures room { vec_capacity text.old ≤ vec_capacity text.new }
{
    for byte in bytes {
        push_escaped(text, *byte);
    }
}

/// Appends a few bytes, each as itself or by its digits; at once where each is printed as itself.
fn push_block(text: &mut Vec<u8>, bytes: &[u8])
    requires { vec_len text.old + 3 * length bytes.now ≤ vec_capacity text.old }
    ensures bytes { text.new.items ≡ text.old.items ++ flat_map escaped bytes.now }
    ensures most { vec_len text.new ≤ vec_len text.old + 3 * length bytes.now }
    ensures room { vec_capacity text.old ≤ vec_capacity text.new }
{
    if bytes.len() >= MANY && all_plain(bytes) {
        text.extend_from_slice(bytes).unwrap();
        return;
    }
    push_each(text, bytes);
}

/// Appends bytes, each as itself or by its digits, a block at a time.
fn push_bytes(text: &mut Vec<u8>, bytes: &[u8])
    requires { vec_len text.old + 3 * length bytes.now ≤ vec_capacity text.old }
    ensures bytes { text.new.items ≡ text.old.items ++ flat_map escaped bytes.now }
    ensures most { vec_len text.new ≤ vec_len text.old + 3 * length bytes.now }
    ensures room { vec_capacity text.old ≤ vec_capacity text.new }
{
    let mut rest = bytes;
    while rest.len() > BLOCK {
        let (block, others) = rest.split_at(BLOCK);
        push_block(text, block);
        rest = others;
    }
    push_block(text, rest);
}

/// Appends a word, and a number behind it.
#[inline(always)]
#[tactic(auto, using(std::proofs::lemmas::Fmt::decimal_digit))]
fn push_named(text: &mut Vec<u8>, word: &str, number: u64)
    requires { vec_len text.old + length word.now + 20 ≤ vec_capacity text.old }
    ensures bytes { text.new.items ≡ text.old.items ++ word.now ++ decimal number }
    ensures most { vec_len text.new ≤ vec_len text.old + (length word.now + 20) }
    ensures room { vec_capacity text.old ≤ vec_capacity text.new }
{
    push_word(text, word);
    // Most numbers have one digit.
    if number < 10 {
        text.push_reserved(b'0' + number as u8);
    } else {
        push_digits(text, number);
    }
}

/// Appends the digits of a number. It is a function of its own, so that a number of one digit costs
/// little.
#[inline(never)]
fn push_digits(text: &mut Vec<u8>, number: u64)
    requires { vec_len text.old + 20 ≤ vec_capacity text.old }
    ensures bytes { text.new.items ≡ text.old.items ++ decimal number }
    ensures most { vec_len text.new ≤ vec_len text.old + 20 }
    ensures room { vec_capacity text.old ≤ vec_capacity text.new }
{
    let mut buffer = Buffer::new();
    push_word(text, buffer.format(number));
}

/// Appends numbers, each behind a space.
fn push_numbers(text: &mut Vec<u8>, fds: &[Fd])
    requires { vec_len text.old + 21 * length fds.now ≤ vec_capacity text.old }
    ensures bytes { text.new.items ≡ text.old.items ++ flat_map spaced fds.now }
    ensures most { vec_len text.new ≤ vec_len text.old + 21 * length fds.now }
    ensures room { vec_capacity text.old ≤ vec_capacity text.new }
{
    for fd in fds {
        push_named(text, " ", u64::from(fd.0));
    }
}

/// Appends ` fds` and the descriptors; nothing where there is none.
fn push_fds(text: &mut Vec<u8>, fds: &[Fd])
    requires { vec_len text.old + (4 + 21 * length fds.now) ≤ vec_capacity text.old }
    ensures bytes { text.new.items ≡ text.old.items ++ fds_text fds.now }
    ensures most { vec_len text.new ≤ vec_len text.old + (4 + 21 * length fds.now) }
    ensures room { vec_capacity text.old ≤ vec_capacity text.new }
{
    if !fds.is_empty() {
        push_word(text, " fds");
        push_numbers(text, fds);
    }
}

/// Appends a word, if its flag is set.
fn push_flag(text: &mut Vec<u8>, flag: bool, word: &str)
    requires { vec_len text.old + length word.now ≤ vec_capacity text.old }
    ensures bytes { text.new.items ≡ text.old.items ++ flag_text flag word.now }
    ensures most { vec_len text.new ≤ vec_len text.old + length word.now }
    ensures room { vec_capacity text.old ≤ vec_capacity text.new }
{
    if flag {
        push_word(text, word);
    }
}

/// Appends what a receive took, without the end of its line.
#[inline(never)]
fn push_got(text: &mut Vec<u8>, bytes: &[u8], fds: &[Fd], trunc: bool, ctrunc: bool)
    requires { vec_len text.old + (3 * length bytes.now + 21 * length fds.now + 21)
        ≤ vec_capacity text.old }
    ensures bytes { text.new.items
        ≡ text.old.items ++ got_text bytes.now fds.now trunc ctrunc }
    ensures most { vec_len text.new
        ≤ vec_len text.old + (3 * length bytes.now + 21 * length fds.now + 21) }
    ensures room { vec_capacity text.old ≤ vec_capacity text.new }
{
    push_word(text, "got ");
    push_bytes(text, bytes);
    push_fds(text, fds);
    push_flag(text, trunc, " trunc");
    push_flag(text, ctrunc, " ctrunc");
}

/// Appends a reply, without the end of its line.
#[inline(always)]
fn push_text(text: &mut Vec<u8>, reply: &Reply)
    requires room { vec_len text.old + MAX_REPLY_LINE ≤ vec_capacity text.old }
    requires short { IsShort reply.now }
    ensures bytes { text.new.items ≡ text.old.items ++ reply_text reply.now }
    ensures room { vec_len text.new < vec_capacity text.new }
{
    match reply {
        Reply::Pid(pid) => push_named(text, "pid ", u64::from(pid.0)),
        Reply::Fd(fd) => push_named(text, "fd ", u64::from(fd.0)),
        Reply::Fds(first, second) => {
            push_named(text, "fds ", u64::from(first.0));
            push_named(text, " ", u64::from(second.0));
        }
        Reply::Ok => push_word(text, "ok"),
        Reply::Sent(count) => push_named(text, "sent ", u64::from(*count)),
        Reply::Got {
            bytes,
            fds,
            trunc,
            ctrunc,
        } => push_got(text, bytes.as_slice(), fds.as_slice(), *trunc, *ctrunc),
        Reply::End => push_word(text, "end"),
        Reply::Started(pass) => push_named(text, "started ", *pass),
        Reply::Working => push_word(text, "working"),
        Reply::Done { pass, reclaimed } => {
            push_named(text, "pass ", *pass);
            push_named(text, " reclaimed ", *reclaimed);
        }
        Reply::Refused(error) => push_word(text, error.name()),
    }
}

/// Appends the line of a reply, with its line feed. There is room for the line of any reply that a
/// step may give.
#[inline(always)]
#[tactic(auto, unfolding(crate::specs::Text::reply_line))]
pub fn push_reply(text: &mut Vec<u8>, reply: &Reply)
    requires room { vec_len text.old + MAX_REPLY_LINE ≤ vec_capacity text.old }
    requires short { IsShort reply.now }
    ensures { text.new.items ≡ text.old.items ++ reply_line reply.now }
{
    push_text(text, reply);
    text.push_reserved(b'\n');
}
