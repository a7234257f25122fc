//! The parts, lent for reading, and the counts that are kept. None takes memory.
ghost use Rattle.std.specs.Prelude.{◌≡◌, ℕ, IfErr, None, OnOk, Some, length, slice_get, true};
ghost use Rattle.af_base.specs.Counts.{charged, inflight, refs, tabled, total};
ghost use Rattle.af_base.specs.Refusals.{first_fit, on_charge, socket_at};
ghost use Rattle.af_base.specs.Places.{InTable};
ghost use Rattle.af_base.specs.Whole.{IsSound, IsWhole, IsWithin};
ghost use Rattle.af_base.specs.World.{IsLive};

use crate::holdings::Holdings;
use af_base::errno::Errno;
use af_base::ids::{FileRef, Ino, Uid};
use af_desc::{Files, Socket};
use af_table::Procs;

impl Holdings {
    /// Returns the processes with their tables.
    #[inline(always)]
    pub fn procs(&self) -> &Procs
        ensures processes { result.now.processes ≡ self.now.world.processes }
        ensures next { result.now.next_pid ≡ self.now.world.next_pid }
        ensures rows { result.now.rows ≡ self.now.rows }
    {
        &self.procs
    }

    /// Returns the files.
    #[inline(always)]
    pub fn files(&self) -> &Files
        ensures files { result.now.files ≡ self.now.world.files }
        ensures next { result.now.next ≡ self.now.world.next_ino }
        ensures marks { result.now.marks ≡ self.now.marks }
        ensures since { result.now.since ≡ self.now.since }
    {
        &self.files
    }

    /// Returns the socket that a file is; `None` for a plain or unknown file.
    #[inline(always)]
    pub fn socket(&self, file: &FileRef) -> Option<Socket<'_>>
        ensures { result ≡ socket_at self.now.world file.now }
    {
        self.files.socket(file)
    }

    /// Does nothing at run time. Shows that at every moment, between any two calls, the world is
    /// well-formed and within the limits.
    pub(crate) fn lemma_is_whole(&self)
        ensures whole { IsWhole self.now.world }
        ensures within { IsWithin self.now.world }
    {
        // The invariant says it: reading a field gives it to the prover.
        let _ledger = &self.ledger;
    }

    /// Returns how many places hold the file; 0 for an unknown one.
    pub fn refs(&self, ino: Ino) -> u64
        ensures { result ≡ refs self.now.world ino }
    {
        self.files.refs(ino)
    }

    /// Returns how many places hold `file`; 0 for an unknown one.
    pub fn refs_at(&self, file: &FileRef) -> u64
        ensures { result ≡ refs self.now.world file.now }
    {
        self.files.refs_at(file)
    }

    /// Returns how many descriptors refer to the file.
    pub(crate) fn tabled(&self, file: &FileRef) -> u64
        ensures { result ≡ tabled self.now.world file.now }
    {
        self.files.tabled(file)
    }

    /// Returns how many places in queues hold the file.
    pub fn inflight(&self, ino: Ino) -> u64
        ensures { result ≡ inflight self.now.world ino }
    {
        self.files.inflight(ino)
    }

    /// Returns how many places in queues hold `file`.
    pub fn inflight_at(&self, file: &FileRef) -> u64
        ensures { result ≡ inflight self.now.world file.now }
    {
        self.files.inflight_at(file)
    }

    /// Returns how many places in queues are charged to the user.
    pub fn charged(&self, user: Uid) -> u64
        ensures { result ≡ charged self.now.world user }
    {
        self.ledger.charged(user)
    }

    /// Returns how many places in queues there are.
    pub fn total(&self) -> u64
        ensures { result ≡ total self.now.world }
    {
        self.ledger.total()
    }

    /// Returns whether nothing is in flight and no embryo waits. If so, a table holds each live
    /// file.
    #[inline(always)]
    pub(crate) fn is_calm(&self) -> bool
        requires sound { IsSound self.now.world }
        ensures { result ≡ true → (f : ℕ) → IsLive self.now.world f → InTable self.now.world f }
    {
        self.ledger.total() == 0 && !self.files.has_embryos()
    }

    /// Returns how many users there are: a user stays after its last process ended.
    pub fn users(&self) -> usize
        ensures { result ≡ length self.now.world.users }
    {
        self.ledger.users()
    }

    /// Returns the i-th user, from 0, in the order of their first process, if there is one.
    pub fn user_at(&self, i: usize) -> Option<Uid>
        ensures { result ≡ slice_get self.now.world.users i }
    {
        self.ledger.user_at(i)
    }

    /// Returns whether a user may send `files` more files, by a process with this limit and
    /// privilege, or why not (unix(7), ETOOMANYREFS).
    #[inline(always)]
    pub fn may_send(
        &self,
        uid: Uid,
        limit: u32,
        privileged: bool,
        files: usize,
    ) -> Result<(), Errno>
        ensures ok { OnOk result (first_fit (on_charge (charged self.now.world uid)
            (total self.now.world) limit privileged files) ≡ None) }
        ensures err { IfErr result (λ e. first_fit (on_charge (charged self.now.world uid)
            (total self.now.world) limit privileged files) ≡ Some e) }
    {
        self.ledger.may_send(uid, limit, privileged, files)
    }
}
