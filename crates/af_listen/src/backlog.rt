//! A backlog.
ghost use Rattle.std.specs.Prelude.{◌≡◌, ◌≤◌, ◌<◌, ◌++◌, ◌∷◌, [], IfSome, IfNone, IfOk, Some};
ghost use Rattle.std.specs.Prelude.{length, drop, slice_get};

use af_base::ids::FileRef;
use std::alloc::{AllocError, Global};
use std::collections::VecDeque;
use std::marker::Model;

/// The embryos that wait at a listener, first come, first accepted, with room for as many as it was
/// made for.
#[derive(Drop)]
pub struct Backlog {
    waiting: VecDeque<FileRef>,
    most: u32,
}

impl Model for Backlog {
    ghost use Rattle.std.specs.Prelude.{◌≤◌};
    ghost use Rattle.std.specs.VecDeque.{deque_len, deque_capacity};
    ghost use Rattle.af_listen.specs.BacklogView.{BacklogView};

    ghost Value = { BacklogView };

    ghost view = { λ a. record { waiting = a.waiting.items; most = a.most } };

    ghost invariant = { λ a. (deque_len a.waiting ≤ a.most) × (a.most ≤ deque_capacity a.waiting) };
}

impl Backlog {
    /// Makes an empty backlog for at most `most` embryos (listen(2)). Takes all the memory that it
    /// ever needs.
    pub fn new(alloc: Global, most: u32) -> Result<Backlog, AllocError>
        ensures { IfOk result (λ b. b ≡ record { waiting = []; most = most }) }
    {
        let waiting = VecDeque::with_capacity(alloc, most as usize)?;
        Ok(Backlog { waiting, most })
    }

    /// Makes a backlog of 0. Takes no memory.
    pub fn none(alloc: Global) -> Backlog
        ensures { result ≡ record { waiting = []; most = 0 } }
    {
        Backlog {
            waiting: VecDeque::new(alloc),
            most: 0,
        }
    }

    /// Returns how many embryos wait.
    pub fn len(&self) -> usize
        ensures value { result ≡ length self.now.waiting }
        ensures bound { result ≤ self.now.most }
    {
        self.waiting.len()
    }

    /// Returns how many embryos may wait.
    pub fn most(&self) -> u32
        ensures { result ≡ self.now.most }
    {
        self.most
    }

    /// Returns all embryos, in order.
    pub fn files(&self) -> &VecDeque<FileRef>
        ensures value { result.now.items ≡ self.now.waiting }
        ensures bound { length result.now.items ≤ self.now.most }
    {
        &self.waiting
    }

    /// Returns the embryo that waits longest.
    pub fn first(&self) -> Option<&FileRef>
        ensures some { IfSome result (λ f. slice_get self.now.waiting 0 ≡ Some f.now) }
        ensures none { IfNone result (self.now.waiting ≡ []) }
    {
        self.waiting.front()
    }

    /// Appends an embryo. Takes no memory.
    pub fn enqueue(&mut self, file: FileRef)
        requires room { length self.old.waiting < self.old.most }
        ensures waiting { self.new.waiting ≡ self.old.waiting ++ file ∷ [] }
        ensures most { self.new.most ≡ self.old.most }
    {
        self.waiting.push_back_reserved(file);
    }

    /// Removes the embryo that waits longest, if there is one. Takes no memory, and leaves room for
    /// another.
    pub fn dequeue(&mut self) -> Option<FileRef>
        ensures some { IfSome result (λ f. self.old.waiting ≡ f ∷ drop 1 self.old.waiting) }
        ensures none { IfNone result (self.old.waiting ≡ []) }
        ensures rest { self.new.waiting ≡ drop 1 self.old.waiting }
        ensures most { self.new.most ≡ self.old.most }
    {
        self.waiting.pop_front()
    }
}
