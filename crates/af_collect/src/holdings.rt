//! The processes, the files, and the counts that are kept of them, always in step.
ghost use Rattle.std.specs.Prelude.{◌≡◌};
ghost use Rattle.std.specs.FinMap as map;
ghost use Rattle.af_base.specs.World.{empty_world, untold};
ghost use Rattle.af_base.specs.Refusals.{is_at_process_limit};

use af_base::limits::{MAX_PID, MAX_PROCESSES};
use af_desc::Files;
use af_ledger::Ledger;
use af_table::Procs;
use std::alloc::Global;
use std::marker::Model;

/// The processes with their tables, the files with how many places hold each, and what users are
/// charged.
pub struct Holdings {
    pub(crate) alloc: Global,
    pub(crate) files: Files,
    pub(crate) ledger: Ledger,
    /// They have 2 KiB of hints, so they come last: the fields before them have short offsets.
    pub(crate) procs: Procs,
}

/// It is written out, and not derived: so an owner's proof has one call where it drops holdings,
/// and not the drop of each of their parts.
impl Drop for Holdings {
    fn drop(self) {
        let Holdings {
            alloc: _,
            procs: _,
            files: _,
            ledger: _,
        } = self;
    }
}

impl Model for Holdings {
    ghost use Rattle.std.specs.FinMap as map;
    ghost use Rattle.std.specs.Coded.{codes};
    ghost use Rattle.af_collect.specs.HoldingsView.{AreExact, HoldingsView, world_of};

    ghost Value = { HoldingsView };

    ghost coded = { Prim.hlevel (codes, map.code) };

    ghost view = { λ a. record {
      world = world_of a.procs a.files a.ledger;
      rows = a.procs.rows;
      message_room = a.files.message_room;
      marks = a.files.marks;
      since = a.files.since;
    } };

    ghost invariant = { λ a. AreExact a.procs a.files a.ledger };
}

impl Holdings {
    /// Makes empty holdings. Takes no memory.
    pub(crate) fn new(alloc: Global) -> Holdings
        ensures world { result.world ≡ empty_world }
        ensures marks { result.marks.colors ≡ map.empty }
        ensures since { result.since ≡ untold }
    {
        Holdings {
            alloc,
            procs: Procs::new(alloc),
            files: Files::new(alloc),
            ledger: Ledger::new(alloc),
        }
    }

    /// Returns whether there can be no further process.
    pub fn is_at_process_limit(&self) -> bool
        ensures { result ≡ is_at_process_limit self.now.world }
    {
        self.procs.count() >= MAX_PROCESSES || self.procs.next_pid().0 > MAX_PID
    }
}
