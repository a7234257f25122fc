//! The views of an engine. None of these changes it, or takes memory.
ghost use Rattle.std.specs.Prelude.{◌≡◌, Some, pos};
ghost use Rattle.std.specs.FinMap as map;
ghost use Rattle.af_base.specs.Counts.{charged, inflight, refs, total};
ghost use Rattle.af_report.specs.Table.{peer_number};
ghost use Rattle.af_steps.specs.FileInfo.{shown_of};
ghost use Rattle.scm_c.specs.Calls.{Tells, TellsNumber};
ghost use Rattle.scm_c.specs.Written.{IsNextLive, c_file, state_number, type_number};

use crate::answers::NO_ENGINE;
use crate::handle::Handle;
use af_base::events::{SockType, State};
use af_base::ids::{Ino, Uid};
use af_steps::FileInfo;
use std::alloc::Global;

/// Writes how many places in tables, queues and backlogs hold the file: its reference count. Writes
/// 0 for an unknown file. Answers 0.
#[unsafe(no_mangle)]
pub extern "C" fn jw_refs(alloc: Global, engine: &mut Handle, ino: u64, count: &mut u64) -> i64
    ensures same { engine.new.shown ≡ engine.old.shown }
    ensures value { Tells engine.old.shown
        (λ m n. n ≡ refs m.world ino) count.old result count.new }
{
    let Some(inside) = engine.as_mut() else {
        return NO_ENGINE;
    };
    *count = inside.refs(Ino(ino));
    0
}

/// Writes how often the file is in flight, repeats included (unix(7), SCM_RIGHTS). Writes 0 for an
/// unknown file. Answers 0.
#[unsafe(no_mangle)]
pub extern "C" fn jw_inflight(alloc: Global, engine: &mut Handle, ino: u64, count: &mut u64) -> i64
    ensures same { engine.new.shown ≡ engine.old.shown }
    ensures value { Tells engine.old.shown
        (λ m n. n ≡ inflight m.world ino) count.old result count.new }
{
    let Some(inside) = engine.as_mut() else {
        return NO_ENGINE;
    };
    *count = inside.inflight(Ino(ino));
    0
}

/// Writes how many descriptors in flight are charged to the user (unix(7), ETOOMANYREFS). Writes 0
/// for an unknown user. Answers 0.
#[unsafe(no_mangle)]
pub extern "C" fn jw_charged(alloc: Global, engine: &mut Handle, uid: u32, count: &mut u64) -> i64
    ensures same { engine.new.shown ≡ engine.old.shown }
    ensures value { Tells engine.old.shown
        (λ m n. n ≡ charged m.world uid) count.old result count.new }
{
    let Some(inside) = engine.as_mut() else {
        return NO_ENGINE;
    };
    *count = inside.charged(Uid(uid));
    0
}

/// Writes how many descriptors are in flight. Answers 0.
#[unsafe(no_mangle)]
pub extern "C" fn jw_total(alloc: Global, engine: &mut Handle, count: &mut u64) -> i64
    ensures same { engine.new.shown ≡ engine.old.shown }
    ensures value { Tells engine.old.shown (λ m n. n ≡ total m.world) count.old result count.new }
{
    let Some(inside) = engine.as_mut() else {
        return NO_ENGINE;
    };
    *count = inside.total();
    0
}

/// Writes how many files are live. Answers 0.
#[unsafe(no_mangle)]
pub extern "C" fn jw_live(alloc: Global, engine: &mut Handle, count: &mut u64) -> i64
    ensures same { engine.new.shown ≡ engine.old.shown }
    ensures value { Tells engine.old.shown
        (λ m n. n ≡ map.len m.world.files) count.old result count.new }
{
    let Some(inside) = engine.as_mut() else {
        return NO_ENGINE;
    };
    *count = inside.live() as u64;
    0
}

/// Writes the least live file above `ino`, or 0 where there is none. A walk from 0 on comes to
/// every live file. Answers 0.
#[unsafe(no_mangle)]
pub extern "C" fn jw_next_after(alloc: Global, engine: &mut Handle, ino: u64, next: &mut u64) -> i64
    ensures same { engine.new.shown ≡ engine.old.shown }
    ensures value { Tells engine.old.shown
        (λ m n. IsNextLive m.world ino n) next.old result next.new }
{
    let Some(inside) = engine.as_mut() else {
        return NO_ENGINE;
    };
    *next = match inside.next_after(Ino(ino)) {
        Some(found) => found.0,
        None => 0,
    };
    0
}

/// Answers the pid that the next process gets.
#[must_use]
#[unsafe(no_mangle)]
pub extern "C" fn jw_next_pid(alloc: Global, engine: &mut Handle) -> i64
    ensures same { engine.new.shown ≡ engine.old.shown }
    ensures value { TellsNumber engine.old.shown (λ m. pos m.world.next_pid) result }
{
    let Some(inside) = engine.as_mut() else {
        return NO_ENGINE;
    };
    i64::from(inside.next_pid().0)
}

/// A file. All fields but the kind are 0 where it is no socket.
#[repr(C)]
#[derive(Clone, Copy)]
pub struct CFile {
    /// The kind of the file (enum jw_kind).
    pub kind: u32,
    /// The state of the socket (enum jw_state).
    pub state: u32,
    /// The inode number of the peer of a connected socket, or of the target, live or freed, of a
    /// datagram socket; else 0.
    pub peer: u64,
    /// How many messages the socket can receive.
    pub messages: u64,
    /// How many connections wait to be accepted at the listener.
    pub embryos: u64,
}

/// Writes what the file is. Writes JW_NO_FILE as the kind of an unknown file. Answers 0.
#[unsafe(no_mangle)]
pub extern "C" fn jw_file(alloc: Global, engine: &mut Handle, ino: u64, out: &mut CFile) -> i64
    ensures same { engine.new.shown ≡ engine.old.shown }
    ensures value { Tells engine.old.shown
        (λ m f. f ≡ c_file (shown_of (map.get m.world.files ino))) out.old result out.new }
{
    let Some(inside) = engine.as_mut() else {
        return NO_ENGINE;
    };
    *out = match inside.file(Ino(ino)) {
        Some(info) => file_of(&info),
        None => file_of_kind(0),
    };
    0
}

/// Returns a live file as C sees it.
fn file_of(info: &FileInfo) -> CFile
    ensures { result ≡ c_file (Some info.now) }
{
    match info {
        FileInfo::Plain => file_of_kind(3),
        FileInfo::Socket {
            kind,
            state,
            messages,
            embryos,
        } => CFile {
            kind: type_number(*kind),
            state: state_number(*state),
            peer: peer_number(*state),
            messages: *messages as u64,
            embryos: *embryos as u64,
        },
    }
}

/// Makes a file of this kind, without other parts.
fn file_of_kind(kind: u32) -> CFile
    ensures { result ≡ record { kind = kind; state = 0; peer = 0; messages = 0; embryos = 0 } }
{
    CFile {
        kind,
        state: 0,
        peer: 0,
        messages: 0,
        embryos: 0,
    }
}

/// Returns the number of a socket's type.
fn type_number(kind: SockType) -> u32
    ensures { result ≡ type_number kind }
{
    match kind {
        SockType::Stream => 1,
        SockType::Seqpacket => 2,
        SockType::Dgram => 4,
    }
}

/// Returns the number of a socket's state. A datagram socket with a target is connected.
fn state_number(state: State) -> u32
    ensures { result ≡ state_number state }
{
    match state {
        State::Idle => 0,
        State::Listening(_) => 1,
        State::Connected(_) => 2,
        State::Sends(_) => 2,
        State::HungUp => 3,
    }
}

/// Returns the peer or the target that a socket of this state has, or 0.
fn peer_number(state: State) -> u64
    ensures { result ≡ peer_number state }
{
    match state {
        State::Connected(peer) | State::Sends(peer) => peer.0,
        State::Idle | State::Listening(_) | State::HungUp => 0,
    }
}
