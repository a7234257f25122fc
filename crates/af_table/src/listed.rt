//! Plain lists of the processes and of their open descriptors, for a recount.
ghost use Rattle.std.specs.Prelude.{◌≡◌, ◌≤◌, IfOk, length};
ghost use Rattle.std.specs.List.Sorted.{IsStrictlyIncreasing};
ghost use Rattle.std.specs.FinMap as map;
ghost use Rattle.af_base.specs.Bare.{bare_process};
ghost use Rattle.af_base.specs.Listing.{process_of, IsRisingTable};
ghost use Rattle.af_base.specs.Refusals.{process_in};

use crate::process::Process;
use crate::procs::Procs;
use af_base::ids::{Fd, Pid};
use af_base::limits::MAX_NOFILE;
use af_base::listing::{ListedNumber, ListedTable};
use std::alloc::{AllocError, Global};

impl Process {
    /// Returns the open descriptors as a plain list, under `pid`.
    pub(crate) fn list_table(&self, alloc: Global, pid: Pid) -> Result<ListedTable, AllocError>
        ensures pid { IfOk result (λ t. t.pid ≡ pid) }
        ensures shown { IfOk result (λ t. process_of t ≡ bare_process self.now.process) }
        ensures rising { IfOk result IsRisingTable }
        ensures few { IfOk result (λ t. length t.numbers.items ≤ MAX_NOFILE) }
    {
        let mut numbers = Vec::new(alloc);
        for (number, slot) in self.slots.iter().enumerate() {
            let fd = Fd(number as u32);
            if self.taken.has(fd.0) {
                let ino = slot.ino();
                numbers.push(ListedNumber { fd, ino })?;
            }
        }
        Ok(ListedTable { pid, numbers })
    }
}

impl Procs {
    /// Returns the pids of all processes, rising. Takes memory for the list alone.
    pub fn pids(&self) -> Result<Vec<Pid>, AllocError>
        ensures all { IfOk result (λ pids. pids.items ≡ map.keys self.now.processes) }
        ensures rising { IfOk result (λ pids. IsStrictlyIncreasing pids.items) }
    {
        let mut pids: Vec<Pid> = self.processes.keys().copied().collect(self.alloc)?;
        pids.sort_unstable();
        Ok(pids)
    }

    /// Returns the open descriptors of the process with their files, as a plain list; an unknown
    /// process has none. Takes memory for the list alone.
    pub fn list_table(&self, pid: Pid) -> Result<ListedTable, AllocError>
        ensures pid { IfOk result (λ t. t.pid ≡ pid) }
        ensures shown { IfOk result (λ t.
            process_of t ≡ bare_process (process_in self.now.processes pid)) }
        ensures rising { IfOk result IsRisingTable }
        ensures few { IfOk result (λ t. length t.numbers.items ≤ MAX_NOFILE) }
    {
        let Some(process) = self.find(pid) else {
            let numbers = Vec::new(self.alloc);
            return Ok(ListedTable { pid, numbers });
        };
        process.list_table(self.alloc, pid)
    }
}
