//! Steps that start and end processes, and those that change only tables.
ghost use Rattle.std.specs.Prelude.{IfErr, IfOk, IsOk, OnOk};
ghost use Rattle.af_steps.specs.Outcome.{Does, Refuses, RefusesStart, Starts};
ghost use Rattle.af_steps.specs.Rooms.{CannotFail};

use crate::engine::Engine;
use crate::lookups::{descriptor_for_file, file_on, make_room_at};
use af_base::errno::Errno;
use af_base::events::{Reply, Step};
use af_base::ids::{Fd, Pid, Uid};
use af_base::limits::MAX_NOFILE;

impl Engine {
    /// Starts a process, as after fork(2) and setuid(2), with an empty table and `nofile` as its
    /// limit on descriptors (RLIMIT_NOFILE). A privileged one is not held to its user's share of
    /// descriptors in flight (unix(7), CAP_SYS_RESOURCE). Returns its pid. Refused, in this order:
    /// ERANGE (the limit is over 1,024), EAGAIN, ENOMEM.
    pub fn spawn(&mut self, uid: Uid, nofile: u32, privileged: bool) -> Result<Pid, Errno>
        ensures done { IfOk result (λ pid. Starts self.old uid nofile privileged pid self.new) }
        ensures refused { IfErr result (λ e. RefusesStart self.old nofile e self.new) }
    {
        if nofile > MAX_NOFILE {
            return Err(Errno::ERANGE);
        }
        if self.store.holdings().is_at_process_limit() {
            return Err(Errno::EAGAIN);
        }
        let pid = self.store.spawn(uid, nofile, privileged)?;
        self.store.release();
        Ok(pid)
    }

    /// Opens a plain file (open(2)). Returns its descriptor, the process's lowest free one.
    /// Refused, in this order: ESRCH, EMFILE, ENFILE, ENOMEM.
    pub fn open(&mut self, pid: Pid) -> Result<Fd, Errno>
        ensures done { IfOk result (λ fd. Does self.old pid Step.Open (Reply.Fd fd) self.new) }
        ensures refused { IfErr result (λ e. Refuses self.old pid Step.Open e self.new) }
    {
        let fd = descriptor_for_file(&self.store, pid)?;
        self.store.open_at(pid, fd)?;
        self.store.release();
        Ok(fd)
    }

    /// Duplicates a descriptor (dup(2)). Returns the new one, the process's lowest free one. Needs
    /// no memory where a higher one is open. Refused, in this order: ESRCH, EBADF, EMFILE, ENOMEM.
    pub fn dup(&mut self, pid: Pid, from: Fd) -> Result<Fd, Errno>
        ensures done { IfOk result (λ fd.
            Does self.old pid (Step.Dup from) (Reply.Fd fd) self.new) }
        ensures refused { IfErr result (λ e. Refuses self.old pid (Step.Dup from) e self.new) }
        ensures succeeds { CannotFail self.old.world pid (Step.Dup from) → IsOk result }
    {
        let (process, file) = file_on(&self.store, pid, from)?;
        let fd = process.lowest().ok_or(Errno::EMFILE)?;
        let has_room = process.has_room_at(fd);
        // A file in a table is no garbage of a running pass.
        self.store.lemma_is_spared();
        make_room_at(&mut self.store, pid, fd, has_room)?;
        self.store.table_in(pid, fd, file);
        self.store.release();
        Ok(fd)
    }

    /// Makes the descriptor `to` refer to the file of `from` (dup2(2)). If `to` is open, it is
    /// closed first. Where both are one, nothing changes. Returns `to`. Needs no memory where `to`
    /// or a higher descriptor is open, or both are one. Refused, in this order: ESRCH, EBADF,
    /// ENOMEM.
    pub fn dup2(&mut self, pid: Pid, from: Fd, to: Fd) -> Result<Fd, Errno>
        ensures done { IfOk result (λ fd.
            Does self.old pid (Step.Dup2 from to) (Reply.Fd fd) self.new) }
        ensures refused { IfErr result (λ e. Refuses self.old pid (Step.Dup2 from to) e self.new) }
        ensures succeeds { CannotFail self.old.world pid (Step.Dup2 from to) → IsOk result }
    {
        let (process, file) = file_on(&self.store, pid, from)?;
        if to == from {
            return Ok(to);
        }
        if to.0 >= process.limit() {
            return Err(Errno::EBADF);
        }
        let has_room = process.has_room_at(to);
        // A file in a table is no garbage of a running pass.
        self.store.lemma_is_spared();
        make_room_at(&mut self.store, pid, to, has_room)?;
        self.store.replace(pid, to, file);
        self.store.release();
        Ok(to)
    }

    /// Closes a descriptor of a process (close(2)). Takes no memory. Refused, in this order: ESRCH,
    /// EBADF.
    pub fn close(&mut self, pid: Pid, fd: Fd) -> Result<(), Errno>
        ensures done { OnOk result (Does self.old pid (Step.Close fd) Reply.Ok self.new) }
        ensures refused { IfErr result (λ e. Refuses self.old pid (Step.Close fd) e self.new) }
    {
        // One look finds process and file. Tests for a refusal follow only if nothing was closed.
        if !self.store.close(pid, fd) {
            self.store.holdings().procs().find(pid).ok_or(Errno::ESRCH)?;
            return Err(Errno::EBADF);
        }
        Ok(())
    }

    /// Makes a child with a copy of the process's table (fork(2)). Returns the child's pid.
    /// Refused, in this order: ESRCH, EAGAIN, ENOMEM.
    pub fn fork(&mut self, pid: Pid) -> Result<Pid, Errno>
        ensures done { IfOk result (λ child.
            Does self.old pid Step.Fork (Reply.Pid child) self.new) }
        ensures refused { IfErr result (λ e. Refuses self.old pid Step.Fork e self.new) }
    {
        self.store.holdings().procs().find(pid).ok_or(Errno::ESRCH)?;
        if self.store.holdings().is_at_process_limit() {
            return Err(Errno::EAGAIN);
        }
        let child = self.store.copy_for_fork(pid)?;
        self.store.release();
        Ok(child)
    }

    /// Sets the process's limit on descriptors (setrlimit(2), RLIMIT_NOFILE). Open descriptors stay
    /// open, also at or above the limit. Takes no memory. Refused, in this order: ESRCH, ERANGE
    /// (the limit is over 1,024).
    pub fn limit(&mut self, pid: Pid, nofile: u32) -> Result<(), Errno>
        ensures done { OnOk result (Does self.old pid (Step.Limit nofile) Reply.Ok self.new) }
        ensures refused { IfErr result (λ e. Refuses self.old pid (Step.Limit nofile) e self.new) }
    {
        self.store.holdings().procs().find(pid).ok_or(Errno::ESRCH)?;
        if nofile > MAX_NOFILE {
            return Err(Errno::ERANGE);
        }
        self.store.set_limit(pid, nofile);
        self.store.release();
        Ok(())
    }

    /// Ends a process, and closes all its descriptors (_exit(2)). Takes no memory. Refused with
    /// ESRCH alone.
    pub fn exit(&mut self, pid: Pid) -> Result<(), Errno>
        ensures done { OnOk result (Does self.old pid Step.Exit Reply.Ok self.new) }
        ensures refused { IfErr result (λ e. Refuses self.old pid Step.Exit e self.new) }
    {
        self.store.holdings().procs().find(pid).ok_or(Errno::ESRCH)?;
        self.store.remove_process(pid);
        self.store.release();
        Ok(())
    }
}
