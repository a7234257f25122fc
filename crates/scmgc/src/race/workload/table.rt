//! The table that turns a word of the generator into an event.
ghost use Rattle.std.specs.Prelude.{◌≡◌, ◌<◌, ◌≤◌, IfOk};
ghost use Rattle.scmgc.specs.Race.Table.{drawn_attached, drawn_type, event_of_word, listener_name};
ghost use Rattle.scmgc.specs.Race.Table.{step_of_word, word_part};

use af_base::events::{Event, SockType, Step};
use af_base::ids::{Fd, Pid};
use af_base::items::{Bytes, Fds, Items};
use std::alloc::{AllocError, Global};

/// The most workers of a race.
pub const MAX_WORKERS: u32 = 32;

/// The number at which each worker has its listener.
pub const LISTENER: Fd = Fd(0);

/// Descriptors are drawn below `DRAWN_FDS`. A worker often has fewer, so some are not open.
const DRAWN_FDS: u32 = 12;

/// How many bytes a receive takes at most.
const RECEIVED_BYTES: u32 = 16;

/// How many descriptors a receive takes at most.
const RECEIVED_FDS: u32 = 4;

/// Returns the part of a word that begins at `bit`, as a number below `below`.
fn part(word: u64, bit: u32, below: u32) -> u32
    requires bit { bit < 64 }
    requires below { 0 < below }
    ensures { result ≡ word_part word bit below }
{
    ((word >> bit) % u64::from(below)) as u32
}

/// Returns the socket type of a number: a stream if it is even.
fn type_of(number: u32) -> SockType
    ensures { result ≡ drawn_type number }
{
    if number % 2 == 0 {
        SockType::Stream
    } else {
        SockType::Seqpacket
    }
}

/// Makes the abstract name of a worker's listener (unix(7)): `w` and the worker's number.
pub fn listener_name(alloc: Global, worker: u32) -> Result<Bytes, AllocError>
    ensures { IfOk result (λ name. name ≡ listener_name worker) }
{
    Ok(Items::of(format!(in alloc; "w{worker}")?.into_bytes()))
}

/// Makes the list of a message's descriptors.
fn attached(alloc: Global, extra: u32, first: Fd, second: Fd) -> Result<Fds, AllocError>
    ensures { IfOk result (λ fds. fds ≡ drawn_attached extra first second) }
{
    let fds = match extra {
        0..=3 => vec![in alloc; first]?,
        4 | 5 => vec![in alloc; first, second]?,
        _ => Vec::new(alloc),
    };
    Ok(Items::of(fds))
}

/// Returns the step of a word.
fn step_of_word(alloc: Global, workers: u32, word: u64) -> Result<Step, AllocError>
    requires { (1 ≤ workers) × (workers ≤ MAX_WORKERS) }
    ensures { IfOk result (λ step. step ≡ step_of_word workers word) }
{
    let on = Fd(part(word, 8, DRAWN_FDS));
    let second = Fd(part(word, 16, DRAWN_FDS));
    let third = Fd(part(word, 24, DRAWN_FDS));
    let extra = part(word, 40, 8);
    let step = match part(word, 0, 32) {
        0 | 1 => Step::Open,
        2 | 3 => Step::Dup(on),
        4 => Step::Dup2(on, second),
        5..=8 => Step::Close(on),
        9 if extra == 0 => Step::Fork,
        9 => Step::Close(on),
        10 | 11 => Step::Pair(type_of(extra)),
        12 => Step::Socket(type_of(extra)),
        13..=15 => Step::Connect {
            on,
            name: listener_name(alloc, part(word, 32, workers) + 1)?,
        },
        16 => Step::Accept(LISTENER),
        17 => Step::Accept(on),
        18..=24 => Step::Send {
            on,
            bytes: Items::of(vec![in alloc; b'x'; extra as usize + 1]?),
            attach: attached(alloc, extra, second, third)?,
        },
        _ => Step::Recv {
            on,
            max_bytes: RECEIVED_BYTES,
            max_fds: RECEIVED_FDS,
        },
    };
    Ok(step)
}

/// Makes the event of a word, for worker number `worker` of `workers`. The process of a worker has
/// its number. Fails only if memory is refused.
pub fn event_of_word(
    alloc: Global,
    worker: u32,
    workers: u32,
    word: u64,
) -> Result<Event, AllocError>
    requires workers { workers ≤ MAX_WORKERS }
    requires worker { (1 ≤ worker) × (worker ≤ workers) }
    ensures { IfOk result (λ event. event ≡ event_of_word worker workers word) }
{
    let step = step_of_word(alloc, workers, word)?;
    Ok(Event::Proc(Pid(worker), step))
}
