//! The smallest cycle by a run of a list, and the plain recount of it.
use af_base::events::{Event, Reply, SockType, Step};
use af_base::ids::{Fd, Ino, Pid, Uid};
use af_base::items::Items;
use af_base::listing::Listing;
use af_plain::{garbage, reached};
use af_steps::Engine;
use std::alloc::{AllocError, Global};

/// Sends descriptor 0 with two bytes.
fn send(alloc: Global) -> Result<Step, AllocError> {
    Ok(Step::Send {
        on: Fd(1),
        bytes: Items::of(b"hi".to_vec(alloc)?),
        attach: Items::of(vec![in alloc; Fd(0)]?),
    })
}

/// Returns the events of the smallest cycle: file 1, a socket, is in its own queue alone.
fn cycle(alloc: Global) -> Result<Vec<Event>, AllocError> {
    let send = send(alloc)?;
    let events = vec![in alloc;
        Event::Spawn {
            uid: Uid(1_000),
            nofile: 16,
            privileged: false,
        },
        Event::Proc(Pid(1), Step::Pair(SockType::Seqpacket)),
        Event::Proc(Pid(1), send),
        Event::Proc(Pid(1), Step::Close(Fd(0))),
    ]?;
    Ok(events)
}

/// Returns whether these are the replies to the cycle.
fn are_right(replies: &[Reply]) -> bool {
    let wanted = [
        Reply::Pid(Pid(1)),
        Reply::Fds(Fd(0), Fd(1)),
        Reply::Sent(2),
        Reply::Ok,
    ];
    replies == wanted.as_slice()
}

/// Runs the cycle. Returns whether each event is answered by its success.
fn runs(engine: &mut Engine, events: &[Event]) -> bool {
    match engine.run(events) {
        Ok(replies) => are_right(&replies),
        Err(_) => false,
    }
}

/// Returns whether file 2 alone is reached.
fn reaches_one(alloc: Global, listing: &Listing) -> Result<bool, AllocError> {
    Ok(reached(alloc, listing)?.as_slice() == [Ino(2)].as_slice())
}

/// Returns whether file 1 alone is garbage.
fn loses_one(alloc: Global, listing: &Listing) -> Result<bool, AllocError> {
    Ok(garbage(alloc, listing)?.as_slice() == [Ino(1)].as_slice())
}

/// Makes the cycle, and returns whether the files that the engine lists are told apart.
fn tells_apart(alloc: Global, engine: &mut Engine) -> Result<bool, AllocError> {
    if !runs(engine, &cycle(alloc)?) {
        return Ok(false);
    }
    let listing = engine.listing()?;
    Ok(reaches_one(alloc, &listing)? && loses_one(alloc, &listing)?)
}

/// Where memory is ample, a run, a listing and its plain recount succeed.
#[test]
fn run_and_reached(rt: HostRuntime) -> Result<(), AllocError> {
    let mut engine = Engine::new(rt.alloc())?;
    assert!(rt; tells_apart(rt.alloc(), &mut engine)?);
    Ok(())
}
