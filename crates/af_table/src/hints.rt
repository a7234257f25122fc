//! The likely index of a process, by its pid.
ghost use Rattle.std.specs.Prelude.{◌≡◌, nat_eq, slice_get, Some, None, IfSome, IfNone};
ghost use Rattle.std.specs.Prelude.{option_copied};
ghost use Rattle.indexmap.specs.IndexMap.{keys, get};

use crate::process::Process;
use af_base::ids::Pid;
use indexmap::IndexMap;

/// How many hints there are: all pids with the same remainder share one.
const HINTS: usize = 256;

/// For each remainder of a pid, the index of the process that was set last. It is only a hint:
/// each use compares the pid at that index, and asks the map if it is another. So a stale hint
/// costs time, and no clause speaks of one.
#[derive(Drop)]
pub struct Hints {
    indices: [usize; HINTS],
}

impl Hints {
    /// Makes hints that all name the first index.
    pub fn new() -> Hints {
        Hints {
            indices: [0; HINTS],
        }
    }

    /// Sets the hint for `pid` to `index`.
    #[inline(always)]
    pub fn set(&mut self, pid: Pid, index: usize) {
        self.indices[pid.0 as usize % HINTS] = index;
    }

    /// Returns the process of `pid`, if it is known. Asks the map only if another process is at the
    /// hint.
    #[inline(always)]
    pub fn get<'a>(&self, processes: &'a IndexMap<Pid, Process>, pid: Pid) -> Option<&'a Process>
        ensures { option_copied result ≡ get nat_eq processes.now pid }
    {
        match processes.get_index(self.indices[pid.0 as usize % HINTS]) {
            Some((there, process)) if *there == pid => Some(process),
            // The answer of a search is taken apart here, so that a right hint needs no test of it.
            _ => Some(search(processes, pid)?),
        }
    }

    /// Returns the index of the process of `pid`, if it is known. Asks the map only if another
    /// process is at the hint, and keeps the map's answer as the hint.
    #[inline(always)]
    pub fn find(&mut self, processes: &IndexMap<Pid, Process>, pid: Pid) -> Option<usize>
        ensures there { IfSome result (λ i. slice_get (keys processes.now) i ≡ Some pid) }
        ensures none { IfNone result (get nat_eq processes.now pid ≡ None) }
    {
        let hint = self.indices[pid.0 as usize % HINTS];
        match processes.get_index(hint) {
            Some((there, _)) if *there == pid => Some(hint),
            _ => {
                let index = search_index(processes, pid)?;
                self.set(pid, index);
                Some(index)
            }
        }
    }
}

/// Asks the map for the process of `pid`, if it is known. Few look-ups come here.
#[cold]
#[inline(never)]
fn search(processes: &IndexMap<Pid, Process>, pid: Pid) -> Option<&Process>
    ensures { option_copied result ≡ get nat_eq processes.now pid }
{
    processes.get(&pid)
}

/// Asks the map for the index of the process of `pid`, if it is known.
#[cold]
#[inline(never)]
fn search_index(processes: &IndexMap<Pid, Process>, pid: Pid) -> Option<usize>
    ensures there { IfSome result (λ i. slice_get (keys processes.now) i ≡ Some pid) }
    ensures none { IfNone result (get nat_eq processes.now pid ≡ None) }
{
    processes.get_index_of(&pid)
}
