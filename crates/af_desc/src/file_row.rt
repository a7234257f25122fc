//! The row of one file.
ghost use Rattle.std.specs.Prelude.{◌≡◌, ◌<◌, [], IfSome, IfNone, IfOk, OnOk, OnErr};
ghost use Rattle.std.specs.Prelude.{None, false, is_none, length, true, IsOk};
ghost use Rattle.af_base.specs.Changes.{file_with, pushed};
ghost use Rattle.af_base.specs.Places.{backlog_of, contents, queue_of};
ghost use Rattle.af_base.specs.Refusals.{socket_of};
ghost use Rattle.af_base.specs.Take.{keeps_borders};
ghost use Rattle.af_base.specs.Whole.{IsMessageWithin};
ghost use Rattle.af_queue.specs.Chains.{has_room, messages_of, IsChain, SameElsewhere};
ghost use Rattle.af_queue.specs.TakenView.{nothing_received};
ghost use Rattle.af_desc.specs.FilesView.{IsFirst, name_of, popped, received_from, received_of};
ghost use Rattle.af_desc.specs.Holding.{IsContents, IsPopped, without_popped};
ghost use Rattle.af_desc.specs.FileTableView.{file_in, socket_of_row};

use crate::contents::{Contents, Popped};
use crate::dirty_mark::DirtyMark;
use crate::socket::{FileKind, Socket};
use af_base::ids::Uid;
use af_base::limits::MAX_MESSAGES;
use af_ledger::Count;
use af_mark::Mark;
use af_queue::{Attached, Chain, Msg, Node, Queue, Taken, pool};
use slab::Slab;
use std::alloc::{AllocError, Global};

/// The row of one file: what it is, its queue, its count, its mark, and whether it is dirty. The
/// close of a plain file reads the first two fields alone: they lie side by side.
#[derive(Drop)]
pub struct FileRow {
    /// How many places hold it.
    pub count: Count,
    /// Its kind: a plain file, or a socket without its queue.
    pub kind: FileKind,
    /// The messages of its queue.
    pub chain: Chain,
    /// Whether it is in the list of sockets whose readiness may have changed.
    pub dirty: DirtyMark,
    /// Its colour in a pass of the collector.
    pub mark: Mark,
}

impl FileRow {
    /// Lends the socket; `None` for a plain file.
    #[inline(always)]
    pub fn socket<'a>(&'a self, nodes: &'a Slab<Node>) -> Option<Socket<'a>>
        requires chain { IsChain nodes.now self.now.chain }
        ensures socket { result ≡ socket_of_row nodes.now self.now }
        ensures queue { IfSome result (λ s. s.queue ≡ messages_of nodes.now self.now.chain) }
    {
        self.kind.socket(Queue::of(nodes, &self.chain))
    }

    /// Returns what the file holds, as far as one look tells.
    #[inline(always)]
    pub fn contents(&self, nodes: &Slab<Node>) -> Contents
        requires chain { IsChain nodes.now self.now.chain }
        ensures { IsContents result (contents (file_in nodes.now self.now)) }
    {
        let Some(socket) = self.socket(nodes) else {
            return Contents::Nothing;
        };
        if !socket.is_nameless() {
            return Contents::Several;
        }
        if !self.chain.has_files {
            return Contents::Nothing;
        }
        let Some((message, rest)) = socket.queue().split_first() else {
            return Contents::Nothing;
        };
        match message.attached() {
            [] if rest.len() == 0 => Contents::Nothing,
            [file] if rest.len() == 0 => Contents::One(file.duplicate()),
            _ => Contents::Several,
        }
    }

    /// Returns whether the file has no name and an empty queue: then it holds nothing.
    #[inline(always)]
    pub fn is_bare(&self, nodes: &Slab<Node>) -> bool
        requires chain { IsChain nodes.now self.now.chain }
        ensures nameless { result ≡ true → name_of (file_in nodes.now self.now) ≡ None }
        ensures silent { result ≡ true → queue_of (file_in nodes.now self.now) ≡ [] }
        ensures bare { result ≡ true → contents (file_in nodes.now self.now) ≡ [] }
        ensures found { name_of (file_in nodes.now self.now) ≡ None
            → queue_of (file_in nodes.now self.now) ≡ [] → result ≡ true }
    {
        match self.socket(nodes) {
            Some(socket) => socket.is_nameless() && socket.queue().len() == 0,
            None => true,
        }
    }

    /// Appends a message to the queue of a socket, which is not full. Cannot fail, since there is
    /// room.
    #[inline(always)]
    pub fn push(&mut self, nodes: &mut Slab<Node>, message: Msg)
        requires socket { is_none (socket_of (file_in nodes.old self.old)) ≡ false }
        requires chain { IsChain nodes.old self.old.chain }
        requires few { length (queue_of (file_in nodes.old self.old)) < MAX_MESSAGES }
        requires within { IsMessageWithin message }
        requires room { has_room nodes.old ≡ true }
        ensures file { file_in nodes.new self.new
            ≡ file_with (pushed message) (file_in nodes.old self.old) }
        ensures chain { IsChain nodes.new self.new.chain }
        ensures others { SameElsewhere nodes.old self.old.chain nodes.new self.new.chain }
        ensures rest { self.new ≡ record self.old { chain = self.new.chain } }
    {
        pool::push(nodes, &mut self.chain, message);
    }

    /// Removes the queue's first message, if there is one. Moves its files into `attached`, which
    /// is empty, and returns the user who is charged for them. Takes no memory.
    #[inline(always)]
    fn pop_message(&mut self, nodes: &mut Slab<Node>, attached: &mut Attached) -> Option<Uid>
        requires empty { attached.old.items ≡ [] }
        requires chain { IsChain nodes.old self.old.chain }
        ensures some { IfSome result (λ user.
            IsFirst attached.new.items user (queue_of (file_in nodes.old self.old))) }
        ensures none { IfNone result (queue_of (file_in nodes.old self.old) ≡ []) }
        ensures file { file_in nodes.new self.new ≡ file_with popped (file_in nodes.old self.old) }
        ensures chain { IsChain nodes.new self.new.chain }
        ensures others { SameElsewhere nodes.old self.old.chain nodes.new self.new.chain }
        ensures rest { self.new ≡ record self.old { chain = self.new.chain } }
    {
        if !self.kind.is_socket() {
            return None;
        }
        let mut message = pool::pop(nodes, &mut self.chain)?;
        message.swap_attached(attached);
        Some(message.user())
    }

    /// Removes the first message, whose files it moves into `attached`, which is empty, or else the
    /// first embryo. Takes no memory.
    #[inline(always)]
    pub fn pop(&mut self, nodes: &mut Slab<Node>, attached: &mut Attached) -> Option<Popped>
        requires empty { attached.old.items ≡ [] }
        requires chain { IsChain nodes.old self.old.chain }
        ensures popped { IsPopped result attached.new.items
            (queue_of (file_in nodes.old self.old)) (backlog_of (file_in nodes.old self.old)) }
        ensures file { file_in nodes.new self.new
            ≡ file_with (without_popped result) (file_in nodes.old self.old) }
        ensures chain { IsChain nodes.new self.new.chain }
        ensures others { SameElsewhere nodes.old self.old.chain nodes.new self.new.chain }
        ensures rest { self.new
            ≡ record self.old { kind = self.new.kind; chain = self.new.chain } }
    {
        if let Some(user) = self.pop_message(nodes, attached) {
            return Some(Popped::Message(user));
        }
        let embryo = self.kind.dequeue()?;
        Some(Popped::Embryo(embryo))
    }

    /// Moves what a receive of at most `max` bytes gives (recvmsg(2)) from the queue to `taken`;
    /// nothing for a plain file. On an error nothing has changed.
    #[inline(always)]
    pub fn take(
        &mut self,
        nodes: &mut Slab<Node>,
        alloc: Global,
        max: usize,
        taken: &mut Taken,
    ) -> Result<(), AllocError>
        requires chain { IsChain nodes.old self.old.chain }
        requires some { 0 < max }
        requires empty { taken.old ≡ nothing_received }
        ensures taken { OnOk result
            (taken.new ≡ received_of (socket_of (file_in nodes.old self.old)) max) }
        ensures file { OnOk result (file_in nodes.new self.new
            ≡ file_with (received_from max) (file_in nodes.old self.old)) }
        ensures err { OnErr result (file_in nodes.new self.new ≡ file_in nodes.old self.old) }
        ensures unchanged { OnErr result (nodes.new ≡ nodes.old) }
        ensures chain { IsChain nodes.new self.new.chain }
        ensures others { SameElsewhere nodes.old self.old.chain nodes.new self.new.chain }
        ensures rest { self.new ≡ record self.old { chain = self.new.chain } }
        ensures succeeds { IfSome (socket_of (file_in nodes.old self.old)) (λ s.
            keeps_borders s.kind ≡ true) → IsOk result }
    {
        let Some(socket) = self.socket(nodes) else {
            return Ok(());
        };
        let kind = socket.kind();
        pool::take(nodes, &mut self.chain, alloc, kind, max, taken)
    }
}
