//! A pass of the collector: it begins, proceeds by slices, and is done; or runs whole.
ghost use Rattle.std.specs.Prelude.{◌≡◌, ◌≤◌, ◌+◌, ℕ, IfSome, false, true};
ghost use Rattle.af_base.specs.World.{World};
ghost use Rattle.af_base.specs.Pass.{Idle, IsInTime, Running, Slices};
ghost use Rattle.af_base.specs.Unheld.{Settles};
ghost use Rattle.af_base.specs.Whole.{IsSound};
ghost use Rattle.af_mark.specs.MarksView.{is_marked, is_unmarked};
ghost use Rattle.af_collect.specs.Keeping.{PassInvariant, is_marking, pass_of, runs};
ghost use Rattle.af_collect.specs.Looks.{MarksByLooks};
ghost use Rattle.af_collect.specs.Collecting.{Collects};
ghost use Rattle.af_collect.specs.StoreView.{slice_reply};

use crate::progress::{PassProgress, Stage};
use crate::store::Store;
use af_base::limits::MAX_BUDGET;
use std::snapshot::Snapshot;

impl Store {
    /// Returns whether a pass runs.
    pub fn is_passing(&self) -> bool
        ensures { result ≡ runs self.now.pass }
    {
        !matches!(self.progress.stage, Stage::Resting)
    }

    /// Returns how many files the pass has visited, scanned and swept since it began. It is 0 after
    /// a begin, and only a slice or a whole pass changes it.
    pub fn looked(&self) -> u64
        ensures { result ≡ self.now.progress.looked }
    {
        self.progress.looked
    }

    /// Does nothing at run time. Shows what a running pass keeps between any two calls: of its
    /// marks, of how far it is, and that it is in time.
    pub fn lemma_pass(&self)
        ensures kept { (begun : World) (spent : ℕ) → self.now.pass ≡ Running begun spent
            → PassInvariant self.now.world begun self.now.marks self.now.progress }
        ensures in_time { IsInTime self.now.pass }
    {
        // The invariant says it: reading a field gives it to the prover.
        let _progress = &self.progress;
    }

    /// Does nothing at run time. Shows that the pass that a caller sees is that of the progress.
    fn lemma_progress(&self)
        ensures { self.now.pass
            ≡ pass_of self.now.progress.stage self.now.begun self.now.progress.looked }
    {
        // The view says it: reading a field gives it to the prover.
        let _progress = &self.progress;
    }

    /// Begins a pass over the world: no file is marked yet, and none was looked at. Costs the same
    /// for any number of files, except once in 2^32 passes.
    pub fn begin(&mut self)
        requires idle { runs self.old.pass ≡ false }
        requires sound { IsSound self.old.world }
        ensures world { self.new.world ≡ self.old.world }
        ensures rows { self.new.rows ≡ self.old.rows }
        ensures since { self.new.since ≡ self.old.since }
        ensures pass { self.new.pass ≡ Running self.old.world 0 }
        ensures unmarked { (f : ℕ) → is_marked self.new.marks f ≡ false }
        ensures looked { self.new.progress.looked ≡ 0 }
    {
        self.begun = Snapshot::of(&self.holdings);
        self.holdings.start_epoch();
        self.order_hint = 0;
        self.progress = PassProgress {
            stage: Stage::Marking,
            visited: 0,
            swept: 0,
            looked: 0,
            reclaimed: 0,
        };
    }

    /// Does at most `budget` units, each of which visits, scans or sweeps one file. If the pass is
    /// done, returns how many sockets were garbage when it began.
    pub fn slice(&mut self, budget: u32) -> Option<u64>
        requires running { runs self.old.pass ≡ true }
        requires sound { IsSound self.old.world }
        ensures does { (begun : World) (spent pass : ℕ) → self.old.pass ≡ Running begun spent
            → Slices begun self.old.world spent budget pass
            (slice_reply pass result) self.new.world self.new.pass }
        ensures sound { IsSound self.new.world }
        ensures since { self.new.since ≡ self.old.since }
        ensures marks { is_marking self.new.progress.stage ≡ true
            → MarksByLooks self.old.world budget self.old.marks self.new.marks }
        ensures looked { self.new.progress.looked ≤ self.old.progress.looked + budget }
        ensures rises { self.old.progress.looked ≤ self.new.progress.looked }
        ensures none_due { IfSome result (λ _. (f : ℕ) → is_unmarked self.new.marks f ≡ false) }
    {
        self.lemma_progress();
        if !self.do_units(budget) {
            self.lemma_progress();
            self.lemma_pass();
            return None;
        }
        self.progress.stage = Stage::Resting;
        self.holdings.end_pass();
        Some(self.progress.reclaimed)
    }

    /// Runs a whole pass. Returns how many sockets were garbage.
    pub fn collect(&mut self) -> u64
        requires idle { runs self.old.pass ≡ false }
        requires sound { IsSound self.old.world }
        ensures collects { Collects self.old.world result self.new.world }
        ensures sound { IsSound self.new.world }
        ensures since { self.new.since ≡ self.old.since }
        ensures pass { self.new.pass ≡ Idle }
        ensures none_due { (f : ℕ) → is_unmarked self.new.marks f ≡ false }
    {
        self.begin();
        self.lemma_progress();
        while !self.do_units(MAX_BUDGET) {
            self.lemma_progress();
            self.lemma_pass();
        }
        self.progress.stage = Stage::Resting;
        self.holdings.end_pass();
        self.progress.reclaimed
    }

    /// Frees the unreferenced files, one after another. Drops all references that such a file
    /// holds, and hangs up its peer; files that lose their last reference by that follow in turn.
    #[inline(always)]
    pub fn release(&mut self)
        ensures settles { Settles self.old.world self.new.world }
        ensures sound { IsSound self.new.world }
        ensures rows { self.new.rows ≡ self.old.rows }
        ensures since { self.new.since ≡ self.old.since }
        ensures pass { self.new.pass ≡ self.old.pass }
        ensures progress { self.new.progress
            ≡ record self.old.progress { reclaimed = self.new.progress.reclaimed } }
    {
        // Most steps leave nothing unreferenced, and then nothing is called.
        let Some(_) = self.holdings.next_unreferenced() else {
            return;
        };
        self.free_unreferenced();
    }
}
