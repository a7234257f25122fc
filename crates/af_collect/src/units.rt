//! A pass, unit by unit: a file is visited, scanned or swept.
ghost use Rattle.std.specs.Prelude.{◌≡◌, ◌<◌, ◌≤◌, ◌+◌, ℕ, true, false, IfSome, IfNone};
ghost use Rattle.af_base.specs.Reached.{IsGarbageCount};
ghost use Rattle.af_base.specs.Whole.{IsSound};
ghost use Rattle.af_mark.specs.MarksView.{is_grey};
ghost use Rattle.af_collect.specs.declared.progress.Stage.TheVariants as stage;
ghost use Rattle.af_collect.specs.Keeping.{is_running};
ghost use Rattle.af_collect.specs.Looks.{MarksByLooks, OnlyMarks};
ghost use Rattle.af_collect.specs.Purged.{ArePurged};
ghost use Rattle.af_collect.specs.Collecting.{IsFirstFrom, NoneLeft, NoneLive};

use crate::progress::Stage;
use crate::store::Store;
use af_base::ids::{FileRef, Ino};

impl Store {
    /// Does at most as many units as the budget has. Returns whether the pass is over: then no
    /// garbage of its begin is left, and the number of reclaimed sockets is the number of those
    /// that were garbage.
    pub(crate) fn do_units(&mut self, budget: u32) -> bool
        requires running { is_running self.old.progress.stage ≡ true }
        requires sound { IsSound self.old.world }
        ensures running { is_running self.new.progress.stage ≡ true }
        ensures sound { IsSound self.new.world }
        ensures rows { self.new.rows ≡ self.old.rows }
        ensures since { self.new.since ≡ self.old.since }
        ensures begun { self.new.begun ≡ self.old.begun }
        ensures purged { ArePurged self.old.begun self.old.world self.new.world budget }
        ensures marks { OnlyMarks budget self.old self.new }
        ensures looked { self.new.progress.looked ≤ self.old.progress.looked + budget }
        ensures rises { self.old.progress.looked ≤ self.new.progress.looked }
        ensures working { result ≡ false
            → self.new.progress.looked ≡ self.old.progress.looked + budget }
        ensures gone { result ≡ true → NoneLeft self.old.begun self.new.world }
        ensures counted { result ≡ true
            → IsGarbageCount self.old.begun self.new.progress.reclaimed }
    {
        // If nothing is in flight and no embryo waits, a table holds each file: nothing is garbage.
        if self.holdings.is_calm() {
            return true;
        }
        let mut left = budget;
        while left > 0 {
            let units = self.do_unit(left);
            if units == 0 {
                return true;
            }
            left -= units;
        }
        false
    }

    /// Does one unit, or two where a file is visited and scanned in one look and two are left.
    /// Returns how many, 0 where the pass is over.
    #[inline(always)]
    fn do_unit(&mut self, left: u32) -> u32
        requires running { is_running self.old.progress.stage ≡ true }
        requires sound { IsSound self.old.world }
        requires some { 0 < left }
        ensures running { is_running self.new.progress.stage ≡ true }
        ensures sound { IsSound self.new.world }
        ensures rows { self.new.rows ≡ self.old.rows }
        ensures since { self.new.since ≡ self.old.since }
        ensures begun { self.new.begun ≡ self.old.begun }
        ensures few { result ≤ left }
        ensures purged { ArePurged self.old.begun self.old.world self.new.world result }
        ensures marks { OnlyMarks result self.old self.new }
        ensures looked { self.new.progress.looked ≡ self.old.progress.looked + result }
        ensures gone { result ≡ 0 → NoneLeft self.old.begun self.new.world }
        ensures counted { result ≡ 0
            → IsGarbageCount self.old.begun self.new.progress.reclaimed }
    {
        // If each live file of the begin is marked, none of its garbage is live.
        if self.holdings.files().are_marked() {
            return 0;
        }
        if self.is_marking() {
            let units = self.mark_unit(left);
            if units > 0 {
                return units;
            }
        }
        self.sweep_unit()
    }

    /// Does one unit of marking, or two. Returns how many, 0 where nothing is left to visit or
    /// scan: then sweeping begins.
    #[inline(always)]
    fn mark_unit(&mut self, left: u32) -> u32
        requires marking { self.old.progress.stage ≡ stage.Marking }
        requires sound { IsSound self.old.world }
        requires some { 0 < left }
        ensures frame { self.new ≡ record self.old {
          marks = self.new.marks;
          pass = self.new.pass;
          progress = self.new.progress;
        } }
        ensures marks { MarksByLooks self.old.world result self.old.marks self.new.marks }
        ensures few { result ≤ left }
        ensures looked { self.new.progress.looked ≡ self.old.progress.looked + result }
        ensures went { 0 < result → self.new.progress.stage ≡ stage.Marking }
        ensures over { result ≡ 0 → self.new.progress.stage ≡ stage.Sweeping }
    {
        if let Some((file, at)) = self.next_from(self.progress.visited) {
            self.order_hint = at;
            return self.visit(&file, left);
        }
        if self.scan() {
            return 1;
        }
        self.order_hint = 0;
        self.progress.visited = self.holdings.files().bound().0;
        self.progress.stage = Stage::Sweeping;
        0
    }

    /// Does one unit of sweeping. Returns how many it did, 0 where all is swept.
    fn sweep_unit(&mut self) -> u32
        requires sweeping { self.old.progress.stage ≡ stage.Sweeping }
        requires sound { IsSound self.old.world }
        ensures sound { IsSound self.new.world }
        ensures rows { self.new.rows ≡ self.old.rows }
        ensures since { self.new.since ≡ self.old.since }
        ensures begun { self.new.begun ≡ self.old.begun }
        ensures stage { self.new.progress.stage ≡ stage.Sweeping }
        ensures few { result ≤ 1 }
        ensures purged { ArePurged self.old.begun self.old.world self.new.world result }
        ensures looked { self.new.progress.looked ≡ self.old.progress.looked + result }
        ensures gone { result ≡ 0 → NoneLeft self.old.begun self.new.world }
        ensures counted { result ≡ 0
            → IsGarbageCount self.old.begun self.new.progress.reclaimed }
    {
        let Some((file, at)) = self.next_from(self.progress.swept) else {
            return 0;
        };
        self.order_hint = at;
        self.sweep(&file);
        1
    }

    /// Returns the live file with the least number from this one on, among those of the pass, and
    /// the position behind it in the order.
    #[inline(always)]
    fn next_from(&self, from: u64) -> Option<(FileRef, usize)>
        ensures some { IfSome result (λ f. IsFirstFrom from self.now.world self.now.marks f.0) }
        ensures none { IfNone result
            (NoneLive self.now.world from self.now.marks.bound) }
    {
        let bound = self.holdings.files().bound();
        if from >= bound.0 {
            return None;
        }
        let before = Ino(from.saturating_sub(1));
        let (file, at) = self.holdings.files().next_after(before, self.order_hint)?;
        if file.ino() >= bound {
            return None;
        }
        Some((file, at))
    }

    /// Visits a file: marks it if a table holds it, and scans it by the same look at its row if two
    /// units are left. Returns how many units that was.
    #[inline(always)]
    fn visit(&mut self, file: &FileRef, left: u32) -> u32
        requires marking { self.old.progress.stage ≡ stage.Marking }
        requires some { 0 < left }
        requires first { IsFirstFrom
            self.old.progress.visited self.old.world self.old.marks file.now }
        ensures frame { self.new ≡ record self.old {
          marks = self.new.marks;
          pass = self.new.pass;
          progress = record self.old.progress {
            visited = file.now + 1;
            looked = self.old.progress.looked + result;
          };
        } }
        ensures marks { MarksByLooks self.old.world 1 self.old.marks self.new.marks }
        ensures units { (0 < result) × (result ≤ left) }
    {
        // Files' numbers are below the next one: that is what a whole world says of them.
        self.holdings.lemma_is_whole();
        let scanned = self.holdings.visit(file, left > 1);
        let units = if scanned { 2 } else { 1 };
        self.progress.visited = file.ino().0 + 1;
        self.progress.looked += u64::from(units);
        units
    }

    /// Scans a marked file, if one is to be scanned. Returns whether there was one.
    #[inline(always)]
    fn scan(&mut self) -> bool
        requires marking { self.old.progress.stage ≡ stage.Marking }
        ensures scans { result ≡ true → self.new ≡ record self.old {
          marks = self.new.marks;
          pass = self.new.pass;
          progress = record self.old.progress { looked = self.old.progress.looked + 1 };
        } }
        ensures marks { MarksByLooks self.old.world 1 self.old.marks self.new.marks }
        ensures none { result ≡ false → (self.new ≡ self.old)
            × ((f : ℕ) → is_grey self.old.marks f ≡ false) }
    {
        // A held file is live, as in each well-formed world.
        self.holdings.lemma_is_whole();
        let Some(_) = self.holdings.scan_next() else {
            return false;
        };
        self.progress.looked += 1;
        true
    }

    /// Sweeps a file: if it is not marked, empties its queue and its backlog, and frees the files
    /// that are then unreferenced.
    fn sweep(&mut self, file: &FileRef)
        requires sweeping { self.old.progress.stage ≡ stage.Sweeping }
        requires sound { IsSound self.old.world }
        requires first { IsFirstFrom
            self.old.progress.swept self.old.world self.old.marks file.now }
        ensures sound { IsSound self.new.world }
        ensures rows { self.new.rows ≡ self.old.rows }
        ensures since { self.new.since ≡ self.old.since }
        ensures begun { self.new.begun ≡ self.old.begun }
        ensures stage { self.new.progress.stage ≡ stage.Sweeping }
        ensures looked { self.new.progress.looked ≡ self.old.progress.looked + 1 }
        ensures purged { ArePurged self.old.begun self.old.world self.new.world 1 }
    {
        self.progress.swept = file.ino().0 + 1;
        self.progress.looked += 1;
        if self.holdings.files().is_marked(file) {
            return;
        }
        self.holdings.empty(file);
        self.free_unreferenced();
    }
}
