//! The messages of one queue, lent for reading.
ghost use Rattle.std.specs.Prelude.{◌≡◌, ◌≤◌, ◌<◌, ◌*◌, ◌-◌, ◌∷◌, ◌++◌, [], IfSome, IfNone};
ghost use Rattle.std.specs.Prelude.{IfOk, drop, length, take, slice_get, option_copied};
ghost use Rattle.std.specs.Option.{option_map_or};
ghost use Rattle.af_base.specs.Places.{attached_in};
ghost use Rattle.af_base.specs.Take.{joined, take_from};
ghost use Rattle.af_queue.specs.Chains.{messages_of, IsChain};
ghost use Rattle.af_queue.specs.Queued.{AreWithin};
ghost use Rattle.af_queue.specs.TakenView.{message_at, received};
ghost use Rattle.af_queue.specs.Streams.{files_in, stream_cut};

use crate::chain::{Chain, Node};
use crate::message::Msg;
use crate::taken::Taken;
use af_base::events::SockType;
use af_base::ids::{FileRef, Uid};
use af_base::items::Items;
use af_base::limits::{MAX_MESSAGES, SCM_MAX_FD};
use arrayvec::ArrayVec;
use slab::Slab;
use smallvec::SmallVec;
use std::alloc::{AllocError, Global};
use std::marker::Model;

/// How many files `Queue::attached_from` returns at most.
pub const BATCH: usize = 16;

/// The messages that a socket can receive, lent for reading. A contract sees them as a list.
#[derive(Drop)]
pub struct Queue<'a> {
    nodes: &'a Slab<Node>,
    first: u32,
    len: u8,
}

impl<'a> Model for Queue<'a> {
    ghost use Rattle.std.specs.Prelude.{◌≡◌, ◌≤◌, List, length};
    ghost use Rattle.af_base.specs.World.{Message};
    ghost use Rattle.af_base.specs.declared.limits.TheConstants.{MAX_MESSAGES};
    ghost use Rattle.af_queue.specs.Chains.{messages_from};
    ghost use Rattle.af_queue.specs.Queued.{AreWithin};

    ghost Value = { List Message };

    ghost view = { λ a. messages_from a.nodes.now a.first a.len };

    ghost invariant = { λ a. (length (messages_from a.nodes.now a.first a.len) ≡ a.len)
        × (a.len ≤ MAX_MESSAGES) × AreWithin (messages_from a.nodes.now a.first a.len) };
}

impl<'a> Queue<'a> {
    /// Lends the messages of `chain`.
    #[inline(always)]
    pub fn of(nodes: &'a Slab<Node>, chain: &Chain) -> Queue<'a>
        requires chain { IsChain nodes.now chain.now }
        ensures { result ≡ messages_of nodes.now chain.now }
    {
        Queue {
            nodes,
            first: chain.first,
            len: chain.len,
        }
    }

    /// Returns how many messages the queue has.
    #[inline(always)]
    pub fn len(&self) -> usize
        ensures value { result ≡ length self.now }
        ensures bound { result ≤ MAX_MESSAGES }
    {
        self.len as usize
    }

    /// Returns another view of the same queue.
    #[inline(always)]
    pub fn duplicate(&self) -> Queue<'a>
        ensures { result ≡ self.now }
    {
        Queue {
            nodes: self.nodes,
            first: self.first,
            len: self.len,
        }
    }

    /// Returns the first message, if there is one, and the rest of the queue.
    #[inline(always)]
    pub fn split_first(&self) -> Option<(&'a Msg, Queue<'a>)>
        ensures some { IfSome result (λ r. self.now ≡ r.0.now ∷ r.1) }
        ensures none { IfNone result (self.now ≡ []) }
    {
        if self.len == 0 {
            return None;
        }
        let node = self.nodes.get(self.first as usize)?;
        let rest = Queue {
            nodes: self.nodes,
            first: node.next,
            len: self.len - 1,
        };
        Some((&node.message, rest))
    }

    /// Returns the first message, if there is one.
    #[inline(always)]
    pub fn first(&self) -> Option<&'a Msg>
        ensures { option_copied result ≡ slice_get self.now 0 }
    {
        let (message, _) = self.split_first()?;
        Some(message)
    }

    /// Returns at most 16 of the files attached to the messages, from the position `from` on, for a
    /// caller that cannot keep the queue while it looks at them. Takes no memory.
    pub fn attached_from(&self, from: usize) -> ArrayVec<FileRef, BATCH>
        ensures files { result.items ≡ take BATCH (drop from (attached_in self.now)) }
        ensures few { length (attached_in self.now) ≤ MAX_MESSAGES * SCM_MAX_FD }
    {
        // Messages are few, with few files each, by the invariant: reading a field gives it to the
        // prover.
        let _len = self.len;
        let mut files = ArrayVec::new();
        let mut skip = from;
        let mut queue = self.duplicate();
        while let Some((message, rest)) = queue.split_first() {
            let attached = message.attached();
            if skip < attached.len() {
                fill(&mut files, &attached[skip..]);
                skip = 0;
            } else {
                skip -= attached.len();
            }
            if files.is_full() {
                return files;
            }
            queue = rest;
        }
        files
    }

    /// Returns how many files a receive of at most `max` bytes takes: those of one message at most.
    /// Looks only at messages that the receive takes bytes of.
    #[inline(always)]
    pub fn files_in_receive(&self, kind: SockType, max: usize) -> usize
        requires { 0 < max }
        ensures value { result ≡ length (take_from kind self.now max).attached }
        ensures bound { result ≤ SCM_MAX_FD }
    {
        match kind {
            SockType::Stream => self.stream_cut(max).1,
            SockType::Seqpacket | SockType::Dgram => self.front_files(),
        }
    }

    /// Copies what a receive of at most `max` bytes would take (recvmsg(2), MSG_PEEK); the queue
    /// stays as it is. Takes memory for the copy alone.
    pub fn peek(&self, alloc: Global, kind: SockType, max: usize) -> Result<Taken, AllocError>
        requires { 0 < max }
        ensures { IfOk result (λ t. t ≡ received kind self.now max) }
    {
        match kind {
            SockType::Stream => self.peek_stream(alloc, max),
            SockType::Seqpacket | SockType::Dgram => self.peek_packet(alloc, max),
        }
    }

    /// Copies the first message, cut to `max` bytes.
    fn peek_packet(&self, alloc: Global, max: usize) -> Result<Taken, AllocError>
        ensures { IfOk result (λ t. t ≡ received SockType.Seqpacket self.now max) }
    {
        match self.first() {
            Some(message) => message.peek(alloc, max),
            None => Ok(Taken::nothing(alloc)),
        }
    }

    /// Copies the bytes that a receive takes of a stream, and the files that come with the last.
    fn peek_stream(&self, alloc: Global, max: usize) -> Result<Taken, AllocError>
        requires { 0 < max }
        ensures { IfOk result (λ t. t ≡ received SockType.Stream self.now max) }
    {
        let (count, _) = self.stream_cut(max);
        let bytes = self.copy(alloc, count)?;
        let (attached, user) = match self.message_with(count) {
            Some(last) => (last.copy_attached(alloc)?, last.user()),
            None => (SmallVec::new(alloc), Uid(0)),
        };
        Ok(Taken::new(Items::of(bytes), attached, user, false))
    }

    /// Returns the message that has the byte `byte`, counted from 1.
    fn message_with(&self, byte: usize) -> Option<&'a Msg>
        ensures { option_copied result ≡ message_at byte self.now }
    {
        let mut left = byte;
        let mut queue = self.duplicate();
        while let Some((message, rest)) = queue.split_first() {
            if left <= message.len() {
                return Some(message);
            }
            left -= message.len();
            queue = rest;
        }
        None
    }

    /// Returns how many bytes the first message has; 0 without a message.
    pub(crate) fn front_len(&self) -> usize
        ensures { result ≡ option_map_or (λ m. length m.bytes) (slice_get self.now 0) 0 }
    {
        match self.first() {
            Some(message) => message.len(),
            None => 0,
        }
    }

    /// Returns how many files the first message has.
    #[inline(always)]
    fn front_files(&self) -> usize
        ensures value { result ≡ option_map_or (λ m. length m.attached) (slice_get self.now 0) 0 }
        ensures bound { result ≤ SCM_MAX_FD }
    {
        match self.first() {
            Some(message) => message.attached().len(),
            None => 0,
        }
    }

    /// Returns how many bytes a receive of at most `max` takes of a stream, and how many files come
    /// with the last of them.
    pub(crate) fn stream_cut(&self, max: usize) -> (usize, usize)
        ensures bytes { result.0 ≡ stream_cut max self.now }
        ensures within { AreWithin self.now }
        ensures files { result.1 ≡ length (files_in max self.now) }
        ensures bound { result.1 ≤ SCM_MAX_FD }
    {
        let mut bytes = 0;
        let mut queue = self.duplicate();
        while let Some((message, rest)) = queue.split_first() {
            let left = max - bytes;
            let files = message.attached().len();
            if files > 0 || left <= message.len() {
                return (bytes + left.min(message.len()), files);
            }
            bytes += message.len();
            queue = rest;
        }
        (bytes, 0)
    }

    /// Copies the first `count` bytes.
    #[inline(always)]
    pub(crate) fn copy(&self, alloc: Global, count: usize) -> Result<Vec<u8>, AllocError>
        ensures { IfOk result (λ v. v.items ≡ take count (joined self.now)) }
    {
        let mut bytes = Vec::with_capacity(alloc, count)?;
        let mut queue = self.duplicate();
        while bytes.len() < count
            && let Some((message, rest)) = queue.split_first()
        {
            let left = count - bytes.len();
            bytes.extend_from_slice(&message.bytes()[..left.min(message.len())])?;
            queue = rest;
        }
        Ok(bytes)
    }
}

/// Appends as many of `attached` as fit.
fn fill(files: &mut ArrayVec<FileRef, BATCH>, attached: &[FileRef])
    requires { length files.old.items ≤ BATCH }
    ensures fits { length files.new.items ≤ BATCH }
    ensures items { files.new.items
        ≡ files.old.items ++ take (BATCH - length files.old.items) attached.now }
{
    for file in attached {
        if files.is_full() {
            return;
        }
        files.push(file.duplicate());
    }
}
