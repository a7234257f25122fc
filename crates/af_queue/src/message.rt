//! A message in a queue.
ghost use Rattle.std.specs.Prelude.{◌≡◌, ◌≤◌, ◌<◌, [], IfOk, length, drop, take, nat_lt};
ghost use Rattle.smallvec.specs.SmallVec.{small_vec_len};
ghost use Rattle.af_base.specs.Take.{has_files};
ghost use Rattle.af_queue.specs.TakenView.{nothing_received};

use crate::taken::Taken;
use af_base::ids::{FileRef, Uid};
use af_base::items::{Bytes, Items};
use af_base::limits::{MAX_BYTES, SCM_MAX_FD};
use smallvec::SmallVec;
use std::alloc::{AllocError, Global};
use std::marker::Model;
use std::mem;

/// The attached files of a message. Two need no allocation.
pub type Attached = SmallVec<FileRef, 2>;

/// A message in a queue: its bytes, its attached files, and the user who is charged for them.
#[derive(Drop)]
pub struct Msg {
    bytes: Bytes,
    /// How many of the first bytes were received before.
    begin: u32,
    user: Uid,
    attached: Attached,
}

impl Model for Msg {
    ghost use Rattle.std.specs.Prelude.{◌≤◌, drop, length};
    ghost use Rattle.smallvec.specs.SmallVec.{small_vec_len};
    ghost use Rattle.af_base.specs.World as world;
    ghost use Rattle.af_base.specs.declared.limits.TheConstants.{MAX_BYTES, SCM_MAX_FD};

    ghost Value = { world.Message };

    ghost view = { λ a. record {
      bytes = drop a.begin a.bytes;
      attached = a.attached.items;
      user = a.user;
    } };

    ghost invariant = { λ a. (a.begin ≤ length a.bytes) × (length a.bytes ≤ MAX_BYTES)
        × (small_vec_len a.attached ≤ SCM_MAX_FD) };
}

impl Msg {
    /// Makes a message of at most 65,536 bytes and 253 files. Takes no memory.
    #[inline(always)]
    pub fn new(bytes: Bytes, attached: Attached, user: Uid) -> Msg
        requires long { length bytes ≤ MAX_BYTES }
        requires few { small_vec_len attached ≤ SCM_MAX_FD }
        ensures { result ≡ record { bytes = bytes; attached = attached.items; user = user } }
    {
        Msg {
            bytes,
            begin: 0,
            user,
            attached,
        }
    }

    /// Returns the bytes that were not received yet.
    #[inline(always)]
    pub fn bytes(&self) -> &[u8]
        ensures { result.now ≡ self.now.bytes }
    {
        &self.bytes.as_slice()[self.begin as usize..]
    }

    /// Returns how many bytes were not received yet.
    #[inline(always)]
    pub fn len(&self) -> usize
        ensures { result ≡ length self.now.bytes }
    {
        self.bytes.len() - self.begin as usize
    }

    /// Returns the attached files.
    #[inline(always)]
    pub fn attached(&self) -> &[FileRef]
        ensures value { result.now ≡ self.now.attached }
        ensures bound { length result.now ≤ SCM_MAX_FD }
    {
        self.attached.as_slice()
    }

    /// Returns whether the message has attached files.
    #[inline(always)]
    pub fn has_files(&self) -> bool
        ensures { result ≡ has_files self.now }
    {
        !self.attached.is_empty()
    }

    /// Returns the user who is charged for the attached files.
    #[inline(always)]
    pub fn user(&self) -> Uid
        ensures { result ≡ self.now.user }
    {
        self.user
    }

    /// Removes the first `bytes` bytes. Takes no memory.
    #[inline(always)]
    pub(crate) fn drop_front(&mut self, bytes: usize)
        requires { bytes ≤ length self.old.bytes }
        ensures { self.new ≡ record self.old { bytes = drop bytes self.old.bytes } }
    {
        let begin = self.begin as usize + bytes;
        self.begin = begin as u32;
    }

    /// Exchanges the attached files for `files`. Takes no memory.
    #[inline(always)]
    pub fn swap_attached(&mut self, files: &mut Attached)
        requires few { small_vec_len files.old ≤ SCM_MAX_FD }
        ensures files { files.new.items ≡ self.old.attached }
        ensures bound { small_vec_len files.new ≤ SCM_MAX_FD }
        ensures rest { self.new ≡ record self.old { attached = files.old.items } }
    {
        mem::swap(&mut self.attached, files);
    }

    /// Copies the first `count` bytes, or all if there are fewer.
    fn copy_front(&self, alloc: Global, count: usize) -> Result<Bytes, AllocError>
        ensures { IfOk result (λ front. front ≡ take count self.now.bytes) }
    {
        let front = &self.bytes()[..count.min(self.len())];
        Ok(Items::of_small(SmallVec::from_slice(alloc, front)?))
    }

    /// Copies the attached files. Two need no memory.
    pub(crate) fn copy_attached(&self, alloc: Global) -> Result<Attached, AllocError>
        ensures value { IfOk result (λ files. files.items ≡ self.now.attached) }
        ensures bound { IfOk result (λ files. small_vec_len files ≤ SCM_MAX_FD) }
    {
        let mut files = SmallVec::with_capacity(alloc, self.attached().len())?;
        for file in self.attached() {
            files.push(file.duplicate())?;
        }
        Ok(files)
    }

    /// Copies what a receive of at most `max` bytes takes of a packet.
    pub(crate) fn peek(&self, alloc: Global, max: usize) -> Result<Taken, AllocError>
        ensures { IfOk result (λ t. t ≡ record {
          message = record self.now { bytes = take max self.now.bytes };
          trunc = nat_lt max (length self.now.bytes);
        }) }
    {
        let bytes = self.copy_front(alloc, max)?;
        let attached = self.copy_attached(alloc)?;
        Ok(Taken::new(bytes, attached, self.user(), self.len() > max))
    }

    /// Moves what a receive of at most `max` bytes takes of a packet to `taken`. Takes no memory.
    #[inline(always)]
    pub(crate) fn give(self, max: usize, taken: &mut Taken)
        requires empty { taken.old ≡ nothing_received }
        ensures { taken.new ≡ record {
          message = record self { bytes = take max self.bytes };
          trunc = nat_lt max (length self.bytes);
        } }
    {
        let len = self.len();
        let Msg {
            bytes,
            begin,
            user,
            attached,
        } = self;
        // A list without files stays where it is. The test also has the compiler move it by words.
        if !attached.is_empty() {
            taken.put_files(attached);
        }
        taken.put_bytes(bytes, user, len > max);
        taken.keep_bytes(begin as usize, len.min(max));
    }
}
