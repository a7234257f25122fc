//! The words that say which form a line has.
ghost use Rattle.std.specs.Prelude.{◌≡◌, ◌++◌, IfSome, map};
ghost use Rattle.scm_lines.specs.Keywords.{how_of, meaning, type_of, version_of};
ghost use Rattle.scm_lines.specs.Forms.{keywords, line_row, row_named, verb_row, verbs};

use crate::version::Version;
use af_base::events::{Shutdown, SockType};

/// The first word of a line that does not begin with a process's number.
#[derive(Clone, Copy, PartialEq, Eq)]
pub enum Keyword {
    /// `spawn`
    Spawn,
    /// `begin`
    Begin,
    /// `slice`
    Slice,
    /// `pass`
    Pass,
    /// `table`
    Table,
    /// `totals`
    Totals,
    /// `check`
    Check,
    /// `version`
    Version,
}

/// The step of a process, by the word after its number.
#[derive(Clone, Copy)]
pub enum Verb {
    /// `open`
    Open,
    /// `dup`
    Dup,
    /// `dup2`
    Dup2,
    /// `close`
    Close,
    /// `fork`
    Fork,
    /// `exit`
    Exit,
    /// `pair`
    Pair,
    /// `socket`
    Socket,
    /// `bind`
    Bind,
    /// `listen`
    Listen,
    /// `connect`
    Connect,
    /// `accept`
    Accept,
    /// `send`
    Send,
    /// `recv`
    Recv,
    /// `peek`, of version 2
    Peek,
    /// `limit`, of version 2
    Limit,
    /// `shutdown`, of version 3
    Shutdown,
    /// `unconnect`, of version 3
    Unconnect,
}

/// Each keyword, with its word.
const KEYWORDS: [(&[u8], Keyword); 8] = [
    (b"spawn", Keyword::Spawn),
    (b"begin", Keyword::Begin),
    (b"slice", Keyword::Slice),
    (b"pass", Keyword::Pass),
    (b"table", Keyword::Table),
    (b"totals", Keyword::Totals),
    (b"check", Keyword::Check),
    (b"version", Keyword::Version),
];

/// Each type of sockets, with its word.
const TYPES: [(&[u8], SockType); 3] = [
    (b"stream", SockType::Stream),
    (b"seqpacket", SockType::Seqpacket),
    (b"dgram", SockType::Dgram),
];

/// Which ends shutdown(2) closes, each with its word.
const HOWS: [(&[u8], Shutdown); 3] = [
    (b"read", Shutdown::Read),
    (b"write", Shutdown::Write),
    (b"both", Shutdown::Both),
];

/// Each version that a script can name, with its word.
const VERSIONS: [(&[u8], Version); 2] = [(b"2", Version::Second), (b"3", Version::Third)];

/// Returns the value that a table has for a word.
fn meaning<V: Copy>(mut table: &[(&[u8], V)], word: &[u8]) -> Option<V>
    ensures { result ≡ meaning (map (λ entry. (entry.0.now, entry.1)) table.entry.now) word.now }
{
    while let [entry, rest @ ..] = table {
        if entry.0 == word {
            return Some(entry.1);
        }
        table = rest;
    }
    None
}

/// Returns the keyword that a line's first word names, if it names one.
pub fn keyword_named(word: &[u8]) -> Option<Keyword>
    ensures { result ≡ row_named line_row keywords word.now }
{
    meaning(&KEYWORDS, word)
}

/// Returns the keyword of an event at the front of the bytes, and the bytes after it. These may go
/// on with the word: to look for its end first would cost more.
#[inline(always)]
pub fn event_at(bytes: &[u8]) -> Option<(Keyword, &[u8])>
    ensures { IfSome result (λ found. bytes.now ≡ (line_row found.0).0 ++ found.1.now) }
{
    match bytes {
        [b'b', b'e', b'g', b'i', b'n', rest @ ..] => Some((Keyword::Begin, rest)),
        [b's', b'l', b'i', b'c', b'e', rest @ ..] => Some((Keyword::Slice, rest)),
        [b'p', b'a', b's', b's', rest @ ..] => Some((Keyword::Pass, rest)),
        [b's', b'p', b'a', b'w', b'n', rest @ ..] => Some((Keyword::Spawn, rest)),
        _ => None,
    }
}

/// Returns the verb that `word`, after a process's number, names, if it names one. The verbs that
/// scripts use most are tried first.
pub fn verb_named(word: &[u8]) -> Option<Verb>
    ensures { result ≡ row_named verb_row verbs word.now }
{
    Some(match word {
        b"send" => Verb::Send,
        b"recv" => Verb::Recv,
        b"open" => Verb::Open,
        b"close" => Verb::Close,
        b"dup" => Verb::Dup,
        b"dup2" => Verb::Dup2,
        b"connect" => Verb::Connect,
        b"accept" => Verb::Accept,
        b"socket" => Verb::Socket,
        b"pair" => Verb::Pair,
        b"fork" => Verb::Fork,
        b"exit" => Verb::Exit,
        b"bind" => Verb::Bind,
        b"listen" => Verb::Listen,
        b"peek" => Verb::Peek,
        b"limit" => Verb::Limit,
        b"shutdown" => Verb::Shutdown,
        b"unconnect" => Verb::Unconnect,
        _ => return None,
    })
}

/// Returns the type of sockets that a word names.
pub fn type_named(word: &[u8]) -> Option<SockType>
    ensures { result ≡ type_of word.now }
{
    meaning(&TYPES, word)
}

/// Returns the ends that a word says to close.
pub fn how_named(word: &[u8]) -> Option<Shutdown>
    ensures { result ≡ how_of word.now }
{
    meaning(&HOWS, word)
}

/// Returns the version that a word names.
pub fn version_named(word: &[u8]) -> Option<Version>
    ensures { result ≡ version_of word.now }
{
    meaning(&VERSIONS, word)
}
