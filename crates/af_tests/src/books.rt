//! Calls on a book without a lock, and from a seat. One allocation is refused, the Nth:
//! `tools/stress` refuses each in turn.
use af_base::errno::Errno;
use af_base::events::{Event, Reply, SockType, Step};
use af_base::ids::{Fd, Pid, Uid};
use af_base::items::Items;
use af_layer::{Book, CallError, Layer, Seat};
use std::alloc::{AllocError, Global};
use std::process::Abort;

/// Sends two bytes and a descriptor.
fn send(alloc: Global) -> Result<Step, AllocError> {
    Ok(Step::Send {
        on: Fd(0),
        bytes: Items::of(b"hi".to_vec(alloc)?),
        attach: Items::of(vec![in alloc; Fd(1)]?),
    })
}

/// Returns the nth event: a process starts, and by turns sends an end of a pair to the other, looks
/// at it, receives it, and closes both.
fn nth_event(alloc: Global, nth: u32) -> Result<Event, AllocError> {
    if nth == 0 {
        return Ok(Event::Spawn {
            uid: Uid(1_000),
            nofile: 32,
            privileged: false,
        });
    }
    let step = match nth % 6 {
        1 => Step::Pair(SockType::Seqpacket),
        2 => send(alloc)?,
        3 => Step::Peek {
            on: Fd(1),
            max_bytes: 9,
            max_fds: 4,
        },
        4 => Step::Recv {
            on: Fd(1),
            max_bytes: 9,
            max_fds: 4,
        },
        5 => Step::Close(Fd(0)),
        _ => Step::Close(Fd(1)),
    };
    Ok(Event::Proc(Pid(1), step))
}

/// Makes this call from the seat where the number is even, else under another seat's number.
fn call(book: &mut Book, seat: &mut Seat, nth: u32, event: Event) -> Result<(), CallError> {
    if nth % 2 == 0 {
        return seat.call_in(book, event);
    }
    book.call(2, event)?;
    Ok(())
}

/// Makes calls of both kinds by turns, up to an event that cannot be made. Returns how many were
/// refused, and not logged.
fn refusals(alloc: Global, book: &mut Book, seat: &mut Seat) -> usize {
    let mut refusals = 0usize;
    for nth in 0..60 {
        let Ok(event) = nth_event(alloc, nth) else {
            break;
        };
        if call(book, seat, nth, event).is_err() {
            refusals = refusals.saturating_add(1);
        }
    }
    refusals
}

/// Returns how many events of the log were refused memory.
fn logged_refusals(book: &Book) -> usize {
    let mut refusals = 0usize;
    for entry in book.log() {
        if *entry.reply() == Reply::Refused(Errno::ENOMEM) {
            refusals = refusals.saturating_add(1);
        }
    }
    refusals
}

/// Memory is refused once at most, and the refusal is an error or an answer.
fn calls(rt: &impl Abort, alloc: Global, book: &mut Book, seats: &mut [Seat]) {
    if let Some(seat) = seats.first_mut() {
        let refusals = refusals(alloc, book, seat);
        assert!(rt; refusals.saturating_add(logged_refusals(book)) <= 1);
    }
}

/// Where the refused allocation is of the seats, nothing is called.
#[test]
fn one_growth_refused(rt: HostRuntime) {
    if let Ok((layer, mut seats)) = Layer::open(rt.alloc(), 2) {
        let mut book = layer.into_book();
        calls(&rt, rt.alloc(), &mut book, &mut seats);
    }
}
