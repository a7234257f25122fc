//! Room that is reserved before the step that needs it: for a copy of its reply, or for entries.
ghost use Rattle.std.specs.Prelude.{◌≡◌, ◌≤◌, ◌+◌, IfOk, OnOk, vec_capacity, vec_len};
ghost use Rattle.af_layer.specs.Room.{HasRoomFor, most_bytes, most_fds};

use af_base::events::{Event, Reply, Step};
use af_base::ids::Fd;
use af_base::items::Items;
use af_base::limits::{MAX_BYTES, SCM_MAX_FD};
use std::alloc::{AllocError, Global};
use std::marker::Model;

/// Empty room for this many bytes and descriptors.
#[derive(Drop)]
pub struct ReplyRoom {
    bytes: Vec<u8>,
    fds: Vec<Fd>,
}

impl Model for ReplyRoom {
    ghost use Rattle.std.specs.Prelude.{◌≡◌, [], vec_capacity};
    ghost use Rattle.af_layer.specs.Room.{ReplyRoomView};

    ghost Value = { ReplyRoomView };

    ghost view = { λ r. record { bytes = vec_capacity r.bytes; fds = vec_capacity r.fds } };

    ghost invariant = { λ r. (r.bytes.items ≡ []) × (r.fds.items ≡ []) };
}

/// Returns the most bytes and descriptors of the reply to an event.
fn most_of(event: &Event) -> (usize, usize)
    ensures bytes { result.0 ≡ most_bytes event.now }
    ensures fds { result.1 ≡ most_fds event.now }
{
    match event {
        Event::Proc(
            _,
            Step::Recv {
                max_bytes,
                max_fds,
                ..
            }
            | Step::Peek {
                max_bytes,
                max_fds,
                ..
            },
        ) => (
            MAX_BYTES.min(*max_bytes as usize),
            SCM_MAX_FD.min(*max_fds as usize),
        ),
        _ => (0, 0),
    }
}

impl ReplyRoom {
    /// Reserves room for the reply to an event, whichever it will be, and for no other.
    pub fn for_event(alloc: Global, event: &Event) -> Result<ReplyRoom, AllocError>
        ensures bytes { IfOk result (λ room. room.bytes ≡ most_bytes event.now) }
        ensures fds { IfOk result (λ room. room.fds ≡ most_fds event.now) }
    {
        let (bytes, fds) = most_of(event);
        Ok(ReplyRoom {
            bytes: Vec::with_capacity(alloc, bytes)?,
            fds: Vec::with_capacity(alloc, fds)?,
        })
    }

    /// Copies a reply for which there is room. Takes no memory.
    pub fn copy(self, reply: &Reply) -> Reply
        requires { HasRoomFor self reply.now }
        ensures { result ≡ reply.now }
    {
        let ReplyRoom { mut bytes, mut fds } = self;
        match reply {
            Reply::Pid(pid) => Reply::Pid(*pid),
            Reply::Fd(fd) => Reply::Fd(*fd),
            Reply::Fds(first, second) => Reply::Fds(*first, *second),
            Reply::Ok => Reply::Ok,
            Reply::Sent(count) => Reply::Sent(*count),
            Reply::Got {
                bytes: took,
                fds: installed,
                trunc,
                ctrunc,
            } => {
                bytes.extend_from_slice(took.as_slice()).unwrap();
                fds.extend_from_slice(installed.as_slice()).unwrap();
                Reply::Got {
                    bytes: Items::of(bytes),
                    fds: Items::of(fds),
                    trunc: *trunc,
                    ctrunc: *ctrunc,
                }
            }
            Reply::End => Reply::End,
            Reply::Started(pass) => Reply::Started(*pass),
            Reply::Working => Reply::Working,
            Reply::Done { pass, reclaimed } => Reply::Done {
                pass: *pass,
                reclaimed: *reclaimed,
            },
            Reply::Refused(error) => Reply::Refused(*error),
        }
    }
}

/// Reserves room for `more` more values, and writes a blank into all room that is new, so that no
/// page of it is touched for the first time later. The list is unchanged.
pub fn reserve_touched<T: Drop, F: Fn() -> T>(
    list: &mut Vec<T>,
    more: usize,
    blank: F,
) -> Result<(), AllocError>
    requires { F.IsAlwaysCallable blank }
    ensures same { list.new.items ≡ list.old.items }
    ensures room { OnOk result (vec_len list.old + more ≤ vec_capacity list.new) }
    ensures capacity { vec_capacity list.old ≤ vec_capacity list.new }
{
    let len = list.len();
    if list.capacity() - len >= more {
        return Ok(());
    }
    list.reserve(more)?;
    let capacity = list.capacity();
    for _ in len..capacity {
        list.push_reserved(blank());
    }
    list.truncate(len);
    Ok(())
}
