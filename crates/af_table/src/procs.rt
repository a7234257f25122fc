//! The processes by pid.
ghost use Rattle.std.specs.Prelude.{◌≡◌, ℕ, ◌+◌, ◌≤◌, ◌<◌, IsTrue, IfSome, IfNone, IfOk, OnOk};
ghost use Rattle.std.specs.Prelude.{◌≢◌, OnErr, IsOk};
ghost use Rattle.std.specs.FinMap as map;
ghost use Rattle.af_base.specs.Changes.{change_at, installed, limited, taken_out};
ghost use Rattle.af_base.specs.Places.{number_in};
ghost use Rattle.af_base.specs.Refusals.{process_in};
ghost use Rattle.af_table.specs.Procs.{lowest_in, row_in, started, who_in};

use crate::hints::Hints;
use crate::process::Process;
use af_base::ids::{Fd, FileRef, Pid, Uid};
use af_base::limits::{MAX_NOFILE, MAX_PID};
use indexmap::IndexMap;
use std::alloc::{AllocError, Global};
use std::marker::Model;
use std::mem;

/// The processes with their tables.
#[derive(Drop)]
pub struct Procs {
    pub(crate) processes: IndexMap<Pid, Process>,
    hints: Hints,
    next_pid: u32,
    /// The slots of a process that ended: memory for the next fork.
    spare_row: Vec<FileRef>,
    pub(crate) alloc: Global,
}

impl Model for Procs {
    ghost use Rattle.std.specs.FinMap as map;
    ghost use Rattle.std.specs.HashMap.{spare};
    ghost use Rattle.std.specs.Coded.{codes};
    ghost use Rattle.af_table.specs.Procs as procs;
    ghost use Rattle.af_table.specs.Procs.{processes_of, rows_of};

    ghost Value = { procs.Procs };

    ghost coded = { Prim.hlevel (codes, map.code) };

    ghost view = { λ a. record {
      processes = processes_of a.processes.entries;
      rows = rows_of a.processes.entries;
      next_pid = a.next_pid;
      room = spare a.processes;
    } };
}

impl Procs {
    ghost use Rattle.std.specs.Borrow.{sem};
    ghost use Rattle.af_table.specs.Lending.{lends_process, lends_with_room};

    /// Makes an empty table of processes; pids begin at 1. Takes no memory.
    #[tactic(auto, using(crate::proofs::Parts::part_changes))]
    pub fn new(alloc: Global) -> Procs
        ensures processes { result.processes ≡ map.empty }
        ensures rows { result.rows ≡ map.empty }
        ensures next { result.next_pid ≡ 1 }
    {
        Procs {
            processes: IndexMap::new(alloc),
            hints: Hints::new(),
            next_pid: 1,
            spare_row: Vec::new(alloc),
            alloc,
        }
    }

    /// Returns how many processes there are.
    #[tactic(auto, using(crate::proofs::Parts::part_len))]
    pub fn count(&self) -> usize
        ensures { result ≡ map.len self.now.processes }
    {
        self.processes.len()
    }

    /// Returns the pid that the next process gets.
    pub fn next_pid(&self) -> Pid
        ensures { result ≡ self.now.next_pid }
    {
        Pid(self.next_pid)
    }

    /// Returns the process of `pid`, if it is known.
    #[inline(always)]
    #[tactic(auto, using(crate::proofs::Parts::part_changes))]
    pub fn find(&self, pid: Pid) -> Option<&Process>
        ensures there { IfSome result (λ p. map.get self.now.processes pid ≡ Some p.now.process) }
        ensures row { IfSome result (λ p. map.get self.now.rows pid ≡ Some p.now.row) }
        ensures none { IfNone result (map.get self.now.processes pid ≡ None) }
    {
        self.hints.get(&self.processes, pid)
    }

    /// Lends the process of `pid` to write to, if it is known.
    #[inline(always)]
    #[tactic(auto, using(crate::proofs::Parts::part_changes))]
    pub fn find_mut(&mut self, pid: Pid) -> Option<&mut Process>
        ensures* writes_back { sem 𝓛 (lends_process self.entry pid result) }
        ensures there { IfSome result (λ p. map.get self.old.processes pid ≡ Some p.now.process) }
        ensures row { IfSome result (λ p. map.get self.old.rows pid ≡ Some p.now.row) }
        ensures none { IfNone result (map.get self.old.processes pid ≡ None) }
    {
        let index = self.hints.find(&self.processes, pid)?;
        let (_, process) = self.processes.pair_mut(index);
        Some(process)
    }

    /// Lends a known process to write to, with room for each descriptor below its limit. On an
    /// error nothing has changed.
    #[inline(always)]
    #[tactic(auto, using(crate::proofs::Parts::part_changes))]
    pub fn find_with_room(&mut self, pid: Pid) -> Result<&mut Process, AllocError>
        requires { IsTrue (map.contains_key self.old.processes pid) }
        ensures* writes_back { sem 𝓛 (lends_with_room self.entry pid result) }
        ensures there { IfOk result (λ p. map.get self.old.processes pid ≡ Some p.now.process) }
        ensures room { IfOk result (λ p. p.now.process.limit ≤ p.now.row) }
        ensures ready { (process_in self.old.processes pid).limit ≤ row_in self.old.rows pid
            → IsOk result }
    {
        let process = self.find_mut(pid).unwrap();
        process.make_room()?;
        Ok(process)
    }

    /// Returns the user of the process, its limit on descriptors, and whether it is privileged, so
    /// exempt from the bound on its user's descriptors in flight (unix(7), CAP_SYS_RESOURCE).
    /// Returns `None` where there is no such process.
    pub fn who(&self, pid: Pid) -> Option<(Uid, u32, bool)>
        ensures { result ≡ who_in self.now.processes pid }
    {
        Some(self.find(pid)?.who())
    }

    /// Returns the lowest free descriptor of the process (open(2)). Returns `None` where all
    /// descriptors below its limit are open, and where there is no such process.
    pub fn lowest(&self, pid: Pid) -> Option<Fd>
        ensures { result ≡ lowest_in self.now.processes pid }
    {
        self.find(pid)?.lowest()
    }

    /// Returns the file of the process's descriptor, if the process is known and the descriptor is
    /// open.
    #[inline(always)]
    pub fn lookup(&self, pid: Pid, fd: Fd) -> Option<FileRef>
        ensures { result ≡ number_in self.now.processes pid fd }
    {
        self.find(pid)?.lookup(fd)
    }

    /// Returns the least open descriptor of the process from `from` on, with its file, if there is
    /// one; an unknown process has none. A walk continues behind each answer.
    pub fn next_open(&self, pid: Pid, from: Fd) -> Option<(Fd, FileRef)>
        ensures open { IfSome result (λ e. number_in self.now.processes pid e.0 ≡ Some e.1) }
        ensures low { IfSome result (λ e. e.0 < MAX_NOFILE) }
        ensures reached { IfSome result (λ e. from ≤ e.0) }
        ensures least { IfSome result (λ e.
            (q : ℕ) → from ≤ q → q < e.0 → number_in self.now.processes pid q ≡ None) }
        ensures none { IfNone result
            ((q : ℕ) → from ≤ q → number_in self.now.processes pid q ≡ None) }
    {
        self.find(pid)?.next_open(from)
    }

    /// Reserves room for one process more, so that `spawn` needs no memory. Nothing else changes,
    /// also on an error.
    #[tactic(auto, using(crate::proofs::Parts::part_changes))]
    pub fn room_to_spawn(&mut self) -> Result<(), AllocError>
        ensures processes { self.new.processes ≡ self.old.processes }
        ensures rows { self.new.rows ≡ self.old.rows }
        ensures next { self.new.next_pid ≡ self.old.next_pid }
        ensures ok { OnOk result (0 < self.new.room) }
        ensures room { self.old.room ≤ self.new.room }
        ensures succeeds { 0 < self.old.room → IsOk result }
    {
        self.processes.reserve(1)
    }

    /// Adds the process under the next pid. On an error no process changes.
    #[inline(always)]
    #[tactic(auto, using(crate::proofs::Parts::part_changes))]
    fn add(&mut self, process: Process) -> Result<(), AllocError>
        requires { self.old.next_pid ≤ MAX_PID }
        ensures next { OnOk result (self.new.next_pid ≡ self.old.next_pid + 1) }
        ensures processes { OnOk result (self.new.processes
            ≡ map.insert self.old.processes self.old.next_pid process.process) }
        ensures rows { OnOk result
            (self.new.rows ≡ map.insert self.old.rows self.old.next_pid process.row) }
        ensures room { self.old.room ≤ self.new.room + 1 }
        ensures err { OnErr result (self.new ≡ record self.old { room = self.new.room }) }
        ensures succeeds { 0 < self.old.room → IsOk result }
    {
        let (pid, index) = (self.next_pid(), self.count());
        self.processes.insert(pid, process)?;
        self.next_pid += 1;
        self.hints.set(pid, index);
        Ok(())
    }

    /// Starts a process, for which there is room. Its table is empty, with no room in it:
    /// descriptors need `room_for` first. Takes no memory.
    pub fn spawn(&mut self, user: Uid, limit: u32, privileged: bool) -> Pid
        requires room { 0 < self.old.room }
        requires limit { limit ≤ MAX_NOFILE }
        requires next { self.old.next_pid ≤ MAX_PID }
        ensures pid { result ≡ self.old.next_pid }
        ensures next { self.new.next_pid ≡ self.old.next_pid + 1 }
        ensures processes { self.new.processes
            ≡ map.insert self.old.processes self.old.next_pid (started user limit privileged) }
        ensures rows { self.new.rows ≡ map.insert self.old.rows self.old.next_pid 0 }
        ensures room { self.old.room ≤ self.new.room + 1 }
    {
        let pid = self.next_pid();
        let process = Process::new(self.alloc, user, limit, privileged);
        self.add(process).unwrap();
        pid
    }

    /// Starts a process by a fork: of the same user, with the same limit and privilege, and with
    /// the same open descriptors. Returns its pid. Room for further descriptors is not reserved. On
    /// an error no process changes.
    #[tactic(auto, using(af_base::proofs::Trees::changes))]
    pub fn copy_for_fork(&mut self, pid: Pid) -> Result<Pid, AllocError>
        requires there { IsTrue (map.contains_key self.old.processes pid) }
        requires next { self.old.next_pid ≤ MAX_PID }
        ensures pid { IfOk result (λ child. child ≡ self.old.next_pid) }
        ensures next { OnOk result (self.new.next_pid ≡ self.old.next_pid + 1) }
        ensures processes { OnOk result (self.new.processes
            ≡ map.insert self.old.processes self.old.next_pid
            (process_in self.old.processes pid)) }
        ensures rows { OnOk result ((q : ℕ) → q ≢ self.old.next_pid
            → row_in self.new.rows q ≡ row_in self.old.rows q) }
        ensures row { IfOk result (λ child.
            row_in self.new.rows child ≤ row_in self.old.rows pid) }
        ensures room { self.old.room ≤ self.new.room + 1 }
        ensures err { OnErr result (self.new ≡ record self.old { room = self.new.room }) }
    {
        let row = mem::replace(&mut self.spare_row, Vec::new(self.alloc));
        let parent = self.find_mut(pid).unwrap();
        let process = parent.copy(row)?;
        let child = self.next_pid();
        self.add(process)?;
        Ok(child)
    }

    /// Reserves room to install at every descriptor of the process below its limit, unless `count`
    /// is 0; ignores an unknown process. Changes no process, and on an error nothing.
    #[inline(always)]
    #[tactic(auto, using(af_base::proofs::Trees::changes))]
    pub fn room_for(&mut self, pid: Pid, count: usize) -> Result<(), AllocError>
        ensures processes { self.new.processes ≡ self.old.processes }
        ensures next { self.new.next_pid ≡ self.old.next_pid }
        ensures room { self.new.room ≡ self.old.room }
        ensures ok { OnOk result
            (0 < count → (process_in self.old.processes pid).limit ≤ row_in self.new.rows pid) }
        ensures rows { (q : ℕ) → row_in self.old.rows q ≤ row_in self.new.rows q }
        ensures others { (q : ℕ) → q ≢ pid → row_in self.new.rows q ≡ row_in self.old.rows q }
        ensures err { OnErr result (self.new.rows ≡ self.old.rows) }
        ensures none { count ≡ 0 → IsOk result }
        ensures unchanged { count ≡ 0 → self.new.rows ≡ self.old.rows }
        ensures ready { (process_in self.old.processes pid).limit ≤ row_in self.old.rows pid
            → IsOk result }
    {
        if count == 0 {
            return Ok(());
        }
        let Some(process) = self.find_mut(pid) else {
            return Ok(());
        };
        process.make_room()
    }

    /// Sets the process's limit on descriptors (setrlimit(2), RLIMIT_NOFILE): free descriptors are
    /// below it. A lower limit closes nothing. Takes no memory.
    #[inline]
    #[tactic(auto, using(af_base::proofs::Trees::changes))]
    pub fn set_limit(&mut self, pid: Pid, limit: u32)
        requires { limit ≤ MAX_NOFILE }
        ensures processes { self.new.processes ≡ change_at (limited limit) self.old.processes pid }
        ensures rows { self.new.rows ≡ self.old.rows }
        ensures next { self.new.next_pid ≡ self.old.next_pid }
        ensures room { self.new.room ≡ self.old.room }
    {
        let Some(process) = self.find_mut(pid) else {
            return;
        };
        process.set_limit(limit);
    }

    /// Sets the process's descriptor, for which there is room, to the file, whether it was open or
    /// free. Takes no memory.
    #[inline(always)]
    #[tactic(auto, using(af_base::proofs::Trees::changes))]
    pub fn install(&mut self, pid: Pid, fd: Fd, file: FileRef)
        requires { fd < row_in self.old.rows pid }
        ensures processes { self.new.processes
            ≡ change_at (installed fd file) self.old.processes pid }
        ensures rows { self.new.rows ≡ self.old.rows }
        ensures next { self.new.next_pid ≡ self.old.next_pid }
        ensures room { self.new.room ≡ self.old.room }
    {
        let Some(process) = self.find_mut(pid) else {
            return;
        };
        process.install(fd, file);
    }

    /// Installs the file at a descriptor of the process for which there is room. Returns the file
    /// that it referred to before; `None` if it was free. Takes no memory.
    #[inline(always)]
    #[tactic(auto, using(af_base::proofs::Trees::changes))]
    pub fn replace(&mut self, pid: Pid, fd: Fd, file: FileRef) -> Option<FileRef>
        requires { fd < row_in self.old.rows pid }
        ensures value { result ≡ number_in self.old.processes pid fd }
        ensures processes { self.new.processes
            ≡ change_at (installed fd file) self.old.processes pid }
        ensures rows { self.new.rows ≡ self.old.rows }
        ensures next { self.new.next_pid ≡ self.old.next_pid }
        ensures room { self.new.room ≡ self.old.room }
    {
        self.find_mut(pid)?.replace(fd, file)
    }

    /// Frees the process's descriptor, and returns its file; `None` if it was free already, or the
    /// process is unknown. Takes no memory.
    #[inline(always)]
    #[tactic(auto, using(af_base::proofs::Trees::changes))]
    pub fn take_out(&mut self, pid: Pid, fd: Fd) -> Option<FileRef>
        ensures value { result ≡ number_in self.old.processes pid fd }
        ensures processes { self.new.processes ≡ change_at (taken_out fd) self.old.processes pid }
        ensures rows { self.new.rows ≡ self.old.rows }
        ensures next { self.new.next_pid ≡ self.old.next_pid }
        ensures room { self.new.room ≡ self.old.room }
    {
        self.find_mut(pid)?.take_out(fd)
    }

    /// Removes the process, whose pid is never used again. Returns whether it was known. The caller
    /// drops the references of its open descriptors before. Takes no memory, and keeps that of its
    /// slots for the next fork.
    #[tactic(auto, using(crate::proofs::Parts::part_changes))]
    pub fn remove(&mut self, pid: Pid) -> bool
        ensures known { result ≡ map.contains_key self.old.processes pid }
        ensures processes { self.new.processes ≡ map.remove self.old.processes pid }
        ensures rows { self.new.rows ≡ map.remove self.old.rows pid }
        ensures next { self.new.next_pid ≡ self.old.next_pid }
        ensures room { self.old.room ≤ self.new.room }
    {
        let Some(index) = self.hints.find(&self.processes, pid) else {
            return false;
        };
        // The last process takes its index.
        let last = self.processes.len() - 1;
        let (moved, _) = self.processes.get_index(last).unwrap();
        self.hints.set(*moved, index);
        let (_, gone) = self.processes.swap_remove_index(index).unwrap();
        self.keep_row(gone.slots);
        true
    }

    /// Keeps `row` for the next fork, if it has more room than the one that is kept.
    #[inline(always)]
    fn keep_row(&mut self, row: Vec<FileRef>)
        ensures { self.new ≡ self.old }
    {
        if row.capacity() > self.spare_row.capacity() {
            self.spare_row = row;
        }
    }
}
