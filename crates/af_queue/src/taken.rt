//! The result of a receive.
ghost use Rattle.std.specs.Prelude.{◌≡◌, ◌≤◌, ◌+◌, ◌++◌, OnErr, OnOk, [], drop, length, take};
ghost use Rattle.smallvec.specs.SmallVec.{small_vec_len};
ghost use Rattle.af_queue.specs.TakenView.{nothing_received, with_files_of};

use crate::message::{Attached, Msg};
use af_base::ids::{FileRef, Uid};
use af_base::items::{Bytes, Items};
use af_base::limits::SCM_MAX_FD;
use smallvec::SmallVec;
use std::alloc::{AllocError, Global};
use std::marker::Model;
use std::mem;

/// The result of a receive: a message of its own, and whether bytes were dropped.
#[derive(Drop)]
pub struct Taken {
    bytes: Bytes,
    attached: Attached,
    user: Uid,
    trunc: bool,
}

impl Model for Taken {
    ghost use Rattle.std.specs.Prelude.{◌≤◌};
    ghost use Rattle.smallvec.specs.SmallVec.{small_vec_len};
    ghost use Rattle.af_queue.specs.TakenView.{TakenView};
    ghost use Rattle.af_base.specs.declared.limits.TheConstants.{SCM_MAX_FD};

    ghost Value = { TakenView };

    ghost view = { λ a. record {
      message = record { bytes = a.bytes; attached = a.attached.items; user = a.user };
      trunc = a.trunc;
    } };

    ghost invariant = { λ a. small_vec_len a.attached ≤ SCM_MAX_FD };
}

impl Taken {
    /// Makes a result of its parts.
    #[inline(always)]
    pub(crate) fn new(bytes: Bytes, attached: Attached, user: Uid, trunc: bool) -> Taken
        requires few { small_vec_len attached ≤ SCM_MAX_FD }
        ensures { result ≡ record {
          message = record { bytes = bytes; attached = attached.items; user = user };
          trunc = trunc;
        } }
    {
        Taken {
            bytes,
            attached,
            user,
            trunc,
        }
    }

    /// Makes an empty result. Takes no memory.
    pub fn nothing(alloc: Global) -> Taken
        ensures { result ≡ nothing_received }
    {
        let bytes = Items::of_small(SmallVec::new(alloc));
        Taken::new(bytes, SmallVec::new(alloc), Uid(0), false)
    }

    /// Appends copies of `bytes`. On an error nothing has changed.
    #[inline(always)]
    pub(crate) fn copy_bytes(&mut self, bytes: &[u8]) -> Result<(), AllocError>
        ensures ok { OnOk result (self.new ≡ record self.old {
          message = record self.old.message { bytes = self.old.message.bytes ++ bytes.now };
        }) }
        ensures err { OnErr result (self.new ≡ self.old) }
    {
        self.bytes.extend_from_slice(bytes)
    }

    /// Keeps `count` bytes from the position `from` on, and drops the others. Takes no memory.
    #[inline(always)]
    pub(crate) fn keep_bytes(&mut self, from: usize, count: usize)
        requires { from + count ≤ length self.old.message.bytes }
        ensures { self.new ≡ record self.old {
          message = record self.old.message {
            bytes = take count (drop from self.old.message.bytes);
          };
        } }
    {
        self.bytes.keep(from, count);
    }

    /// Sets the bytes of a result without any, their sender, and whether others were dropped.
    #[inline(always)]
    pub(crate) fn put_bytes(&mut self, bytes: Bytes, user: Uid, trunc: bool)
        requires { self.old.message.bytes ≡ [] }
        ensures { self.new ≡ record {
          message = record self.old.message { bytes = bytes; user = user };
          trunc = trunc;
        } }
    {
        // To drop an empty list would test whether it has memory.
        mem::forget(mem::replace(&mut self.bytes, bytes));
        self.user = user;
        self.trunc = trunc;
    }

    /// Sets the files of a result without any.
    #[inline(always)]
    pub(crate) fn put_files(&mut self, attached: Attached)
        requires none { self.old.message.attached ≡ [] }
        requires few { small_vec_len attached ≤ SCM_MAX_FD }
        ensures { self.new ≡ record self.old {
          message = record self.old.message { attached = attached.items };
        } }
    {
        // As for the bytes.
        mem::forget(mem::replace(&mut self.attached, attached));
    }

    /// Sets the bytes.
    #[inline(always)]
    pub(crate) fn set_bytes(&mut self, bytes: Bytes)
        ensures { self.new
            ≡ record self.old { message = record self.old.message { bytes = bytes } } }
    {
        self.bytes = bytes;
    }

    /// Takes files and sender of `message`; the result has no files before. Takes no memory.
    #[inline(always)]
    pub(crate) fn take_files(&mut self, message: &mut Msg)
        requires { self.old.message.attached ≡ [] }
        ensures taken { self.new ≡ with_files_of message.old self.old }
        ensures rest { message.new ≡ record message.old { attached = [] } }
    {
        self.user = message.user();
        // Few pieces of a stream bring files.
        if message.has_files() {
            message.swap_attached(&mut self.attached);
        }
    }

    /// Returns the received files.
    #[inline(always)]
    pub fn attached(&self) -> &[FileRef]
        ensures value { result.now ≡ self.now.message.attached }
        ensures bound { length result.now ≤ SCM_MAX_FD }
    {
        self.attached.as_slice()
    }

    /// Returns the user who was charged for the files.
    #[inline(always)]
    pub fn user(&self) -> Uid
        ensures { result ≡ self.now.message.user }
    {
        self.user
    }

    /// Returns whether bytes were dropped (recvmsg(2), MSG_TRUNC).
    #[inline(always)]
    pub fn trunc(&self) -> bool
        ensures { result ≡ self.now.trunc }
    {
        self.trunc
    }

    /// Returns the received bytes.
    #[inline(always)]
    pub fn into_bytes(self) -> Bytes
        ensures { result ≡ self.message.bytes }
    {
        self.bytes
    }
}
