//! The columns of a table. Each has a space behind it, but for the last one, the name.
ghost use Rattle.std.specs.Prelude.{◌≡◌, ◌<◌, ◌++◌, ◌∷◌, [], Some, OnOk, length, option_copied};
ghost use Rattle.af_base.specs.Places.{backlog_of, queue_of};
ghost use Rattle.std.specs.FinMap as map;
ghost use Rattle.af_base.specs.World.{File, IsLive};
ghost use Rattle.af_report.specs.Table.{joined_cells, kind_cell, left, name_text, peer_cell};
ghost use Rattle.af_report.specs.Table.{peer_number, right, state_cell, state_word, type_word};
ghost use Rattle.af_report.specs.Texts.{AppendsText};

use af_base::events::{SockType, State};
use af_base::ids::{FileRef, Ino};
use af_steps::{Engine, FileInfo};
use std::alloc::AllocError;

/// Appends a number at the right of its column.
fn push_number(text: &mut String, width: usize, number: u64) -> Result<(), AllocError>
    requires { 0 < width }
    ensures { OnOk result (AppendsText text.old text.new (right width number ++ 32 ∷ [])) }
{
    write!(text, "{number:>width$} ")
}

/// Appends a word at the left of its column.
fn push_word(text: &mut String, width: usize, word: &str) -> Result<(), AllocError>
    requires { 0 < width }
    ensures { OnOk result (AppendsText text.old text.new (left width word.now ++ 32 ∷ [])) }
{
    write!(text, "{word:<width$} ")
}

/// Appends a file's number and its two counts.
pub fn push_counts(text: &mut String, ino: Ino, refs: u64, inflight: u64) -> Result<(), AllocError>
    ensures { OnOk result (AppendsText text.old text.new
        (joined_cells (right 8 ino ∷ right 7 refs ∷ right 7 inflight ∷ [] ∷ []))) }
{
    push_number(text, 8, ino.0)?;
    push_number(text, 7, refs)?;
    push_number(text, 7, inflight)?;
    Ok(())
}

/// Returns the word for a type of sockets (socket(2)).
pub fn type_word(kind: SockType) -> &'static str
    ensures { result.now ≡ type_word kind }
{
    match kind {
        SockType::Stream => "stream",
        SockType::Seqpacket => "seqpacket",
        SockType::Dgram => "dgram",
    }
}

/// Returns the word for the state of a socket. A datagram socket with a target is connected.
pub fn state_word(state: &State) -> &'static str
    ensures { result.now ≡ state_word state.now }
{
    match state {
        State::Idle => "idle",
        State::Listening(_) => "listening",
        State::Connected(_) | State::Sends(_) => "connected",
        State::HungUp => "hungup",
    }
}

/// Returns the number of a socket's live peer, or of a datagram socket's target, or 0.
fn peer_number(state: &State) -> u64
    ensures { result ≡ peer_number state.now }
{
    match state {
        State::Connected(peer) | State::Sends(peer) => peer.0,
        State::Idle | State::Listening(_) | State::HungUp => 0,
    }
}

/// Appends the kind and the state of a file.
fn push_kind(text: &mut String, kind: &str, state: &str) -> Result<(), AllocError>
    ensures { OnOk result (AppendsText text.old text.new
        (joined_cells (left 9 kind.now ∷ left 9 state.now ∷ [] ∷ []))) }
{
    push_word(text, 9, kind)?;
    push_word(text, 9, state)?;
    Ok(())
}

/// Appends how many messages and embryos wait at a file, and its peer.
fn push_waiting(
    text: &mut String,
    messages: usize,
    embryos: usize,
    peer: u64,
) -> Result<(), AllocError>
    ensures { OnOk result (AppendsText text.old text.new
        (joined_cells (right 4 messages ∷ right 4 embryos ∷ right 8 peer ∷ [] ∷ []))) }
{
    push_number(text, 4, messages as u64)?;
    push_number(text, 4, embryos as u64)?;
    push_number(text, 8, peer)?;
    Ok(())
}

/// Appends a live file's kind and state, how many messages and embryos wait at it, and its peer.
pub fn push_file(text: &mut String, engine: &Engine, file: &FileRef) -> Result<(), AllocError>
    requires { IsLive engine.now.world file.now }
    ensures { (x : File) → map.get engine.now.world.files file.now ≡ Some x
        → OnOk result (AppendsText text.old text.new
        (joined_cells (left 9 (kind_cell x) ∷ left 9 (state_cell x) ∷ right 4 (length (queue_of x))
        ∷ right 4 (length (backlog_of x)) ∷ right 8 (peer_cell x) ∷ [] ∷ []))) }
{
    match engine.file_at(file) {
        FileInfo::Plain => {
            push_kind(text, "plain", "-")?;
            push_waiting(text, 0, 0, 0)
        }
        FileInfo::Socket {
            kind,
            state,
            messages,
            embryos,
        } => {
            push_kind(text, type_word(kind), state_word(&state))?;
            push_waiting(text, messages, embryos, peer_number(&state))
        }
    }
}

/// Appends `@` and a name, or `-` where there is none.
pub fn push_name(text: &mut Vec<u8>, name: Option<&[u8]>) -> Result<(), AllocError>
    ensures { OnOk result
        (text.new.items ≡ text.old.items ++ name_text (option_copied name.entry)) }
{
    let Some(name) = name else {
        text.push(b'-')?;
        return Ok(());
    };
    text.push(b'@')?;
    text.extend_from_slice(name)
}
