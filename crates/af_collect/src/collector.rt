//! The duties of a running pass at each loss: lost files are marked, and freed garbage is counted.
ghost use Rattle.std.specs.Prelude.{◌≡◌, ◌&&◌, ◌+◌, ◌<◌, ◌≤◌, ℕ, Some, [], if◌then◌else◌, true};
ghost use Rattle.std.specs.Prelude.{IsTrue, false, nat_eq, slice_get};
ghost use Rattle.af_base.specs.declared.limits.TheConstants.{MAX_FILES};
ghost use Rattle.af_base.specs.World.{IsLive};
ghost use Rattle.af_base.specs.Counts.{refs};
ghost use Rattle.af_base.specs.Places.{Holds, backlog_at, held_by, queue_at, table_at};
ghost use Rattle.af_base.specs.Unheld.{Settles, without};
ghost use Rattle.af_base.specs.Whole.{IsSound};
ghost use Rattle.af_collect.specs.Losing.{places_at, without_place};
ghost use Rattle.af_collect.specs.Keeping.{NotBegunGarbage, first_held, is_marking, is_sweeping};
ghost use Rattle.af_collect.specs.Keeping.{shaded_all};
ghost use Rattle.af_mark.specs.MarksView.{forgotten};
ghost use Rattle.af_collect.specs.StoreView.{MarksAll};

use crate::progress::{PassProgress, Stage};
use crate::shading::{shade_embryo, shade_first, shade_held};
use crate::store::Store;
use af_base::ids::{Fd, FileRef, Pid};

impl Store {
    /// Returns whether a pass marks.
    #[inline(always)]
    pub(crate) fn is_marking(&self) -> bool
        ensures { result ≡ is_marking self.now.progress.stage }
    {
        matches!(self.progress.stage, Stage::Marking)
    }

    /// Frees the unreferenced files, one after another. While marking, it first marks the files
    /// that each one holds; while sweeping, it counts the freed sockets that were garbage.
    #[inline(never)]
    pub(crate) fn free_unreferenced(&mut self)
        ensures settles { Settles self.old.world self.new.world }
        ensures sound { IsSound self.new.world }
        ensures frame { self.new ≡ record self.old {
          world = self.new.world;
          marks = self.new.marks;
          message_room = self.new.message_room;
          progress = record self.old.progress { reclaimed = self.new.progress.reclaimed };
        } }
    {
        while let Some(file) = self.holdings.next_unreferenced() {
            // One look takes what a file holds first, or tells that it holds nothing.
            if !self.drop_place(&file) {
                self.free_bare(&file);
            }
        }
    }

    /// Drops the first message or embryo that an unreferenced file holds. Returns whether there was
    /// one. While marking, it first marks the files there.
    #[inline(always)]
    fn drop_place(&mut self, file: &FileRef) -> bool
        requires live { IsLive self.old.world file.now }
        requires unheld { refs self.old.world file.now ≡ 0 }
        ensures some { IsTrue result → 0 < places_at self.old.world file.now }
        ensures none { result ≡ false → places_at self.old.world file.now ≡ 0 }
        ensures drops { self.new ≡ record self.old {
          world = without_place self.old.world file.now;
          marks = self.new.marks;
          message_room = self.new.message_room;
        } }
    {
        // A held file is live, as in each well-formed world.
        self.holdings.lemma_is_whole();
        self.shade_first(file);
        self.holdings.drop_place(file)
    }

    /// Marks the files that a process is about to lose, while marking.
    pub(crate) fn shade_table(&mut self, pid: Pid)
        ensures frame { self.new ≡ record self.old { marks = self.new.marks } }
        ensures marked { MarksAll
            (λ f. (n : ℕ) × (table_at self.old.world pid n ≡ Some f)) self.old self.new }
    {
        if !self.is_marking() {
            return;
        }
        // Tables hold live files: that is what a whole world says of them.
        self.holdings.lemma_is_whole();
        let mut next = Fd(0);
        while let Some((fd, file)) = self.holdings.procs().next_open(pid, next) {
            self.holdings.shade(&file);
            next = Fd(fd.0 + 1);
        }
    }

    /// Marks the embryo that a listener is about to lose, while marking.
    pub(crate) fn shade_embryo(&mut self, listener: &FileRef)
        requires spared { NotBegunGarbage self.old.pass listener.now }
        ensures frame { self.new ≡ record self.old { marks = self.new.marks } }
        ensures marked { MarksAll
            (λ f. slice_get (backlog_at self.old.world listener.now) 0 ≡ Some f)
            self.old self.new }
    {
        if self.is_marking() {
            // Backlogs hold live files: that is what a whole world says of them.
            self.holdings.lemma_is_whole();
            shade_embryo(&mut self.holdings, listener, 0);
        }
    }

    /// Marks the files that a socket is about to lose, which are all that it holds, while marking.
    pub(crate) fn shade_held(&mut self, socket: &FileRef)
        requires spared { NotBegunGarbage self.old.pass socket.now }
        ensures frame { self.new ≡ record self.old { marks = self.new.marks } }
        ensures marked { MarksAll (Holds self.old.world socket.now) self.old self.new }
    {
        if self.is_marking() {
            // A held file is live, as in each well-formed world.
            self.holdings.lemma_is_whole();
            shade_held(&mut self.holdings, socket);
        }
    }

    /// Marks the files that an unreferenced file is about to lose, while marking.
    fn shade_first(&mut self, file: &FileRef)
        requires live { IsLive self.old.world file.now }
        requires unheld { refs self.old.world file.now ≡ 0 }
        ensures frame { self.new ≡ record self.old { marks = self.new.marks } }
        ensures marked { is_marking self.old.progress.stage ≡ true → self.new.marks
            ≡ shaded_all (first_held self.old.world file.now) self.old.marks }
    {
        if self.is_marking() {
            // A held file is live, as in each well-formed world.
            self.holdings.lemma_is_whole();
            shade_first(&mut self.holdings, file);
        }
    }

    /// Frees an unreferenced file that holds nothing.
    fn free_bare(&mut self, file: &FileRef)
        requires live { IsLive self.old.world file.now }
        requires unheld { refs self.old.world file.now ≡ 0 }
        requires bare { held_by self.old.world file.now ≡ [] }
        requires silent { queue_at self.old.world file.now ≡ [] }
        ensures frees { self.new ≡ record self.old {
          world = without (nat_eq file.now) self.old.world;
          marks = forgotten file.now self.old.marks;
          progress = record self.old.progress { reclaimed = self.new.progress.reclaimed };
        } }
    {
        let unmarked = self.holdings.free_bare(file);
        tally(&mut self.progress, unmarked);
    }
}

/// Counts a freed socket as reclaimed, if the pass sweeps and had still to mark it.
#[inline(always)]
fn tally(progress: &mut PassProgress, unmarked: bool)
    requires { is_sweeping progress.old.stage ≡ true → progress.old.reclaimed ≤ MAX_FILES }
    ensures { progress.new ≡ record progress.old {
      reclaimed = progress.old.reclaimed
          + (if unmarked && is_sweeping progress.old.stage then 1 else 0);
    } }
{
    if unmarked && matches!(progress.stage, Stage::Sweeping) {
        progress.reclaimed += 1;
    }
}
