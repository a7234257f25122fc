//! The marks of a pass of the collector. No call takes memory.
ghost use Rattle.std.specs.Prelude.{◌≡◌, ℕ, IfSome, IfNone, false, true};
ghost use Rattle.af_base.specs.Counts.{tabled};
ghost use Rattle.af_base.specs.Places.{held_by};
ghost use Rattle.af_mark.specs.MarksView.{blackened, is_grey, is_marked, is_unmarked, knows};
ghost use Rattle.af_mark.specs.MarksView.{shaded, visited};
ghost use Rattle.af_collect.specs.Keeping.{after_visit, is_due, shaded_all};

use crate::holdings::Holdings;
use crate::shading::shade_contents;
use af_base::ids::FileRef;

impl Holdings {
    /// Begins a pass over the present files: none is marked. Costs the same for any number of
    /// files, except once in 2^32 epochs, when it clears each mark.
    pub(crate) fn start_epoch(&mut self)
        ensures unmarked { (f : ℕ) → is_marked self.new.marks f ≡ false }
        ensures known { (f : ℕ) → knows self.new.marks f ≡ knows self.old.marks f }
        ensures bound { self.new.marks.bound ≡ self.old.world.next_ino }
        ensures rest { self.new ≡ record self.old { marks = self.new.marks } }
    {
        self.files.start_epoch();
    }

    /// Ends a pass: no file is marked, and none is to be marked.
    pub(crate) fn end_pass(&mut self)
        ensures unmarked { (f : ℕ) → is_marked self.new.marks f ≡ false }
        ensures none_due { (f : ℕ) → is_unmarked self.new.marks f ≡ false }
        ensures known { (f : ℕ) → knows self.new.marks f ≡ knows self.old.marks f }
        ensures rest { self.new ≡ record self.old { marks = self.new.marks } }
    {
        self.files.end_pass();
    }

    /// Marks a file grey, if it was there when the pass began and is not marked.
    #[inline(always)]
    pub(crate) fn shade(&mut self, file: &FileRef)
        ensures { self.new ≡ record self.old { marks = shaded file.now self.old.marks } }
    {
        self.files.shade(file);
    }

    /// Marks a file if a table holds it, it was there when the pass began, and it is not marked. If
    /// it may be scanned, it is, by the same look at its row: all that it holds is marked too. Else
    /// it is to be scanned. Returns whether it was scanned.
    #[inline(always)]
    pub(crate) fn visit(&mut self, file: &FileRef, may_scan: bool) -> bool
        ensures marks { self.new ≡ record self.old {
          marks = after_visit result (held_by self.old.world file.now)
              (tabled self.old.world file.now) file.now self.old.marks;
        } }
        ensures scanned { result ≡ true → is_due self.old.world self.old.marks file.now ≡ true }
        ensures asked { result ≡ true → may_scan ≡ true }
    {
        if !may_scan {
            self.shade_tabled(file);
            return false;
        }
        let Some(held) = self.files.visit(file) else {
            return false;
        };
        shade_contents(self, file, &held);
        true
    }

    /// Marks a file grey if a table holds it, it was there when the pass began, and it is not
    /// marked.
    #[inline(never)]
    fn shade_tabled(&mut self, file: &FileRef)
        ensures { self.new ≡ record self.old {
          marks = visited false (tabled self.old.world file.now) file.now self.old.marks;
        } }
    {
        if self.files.tabled(file) > 0 {
            self.files.shade(file);
        }
    }

    /// Scans a grey file, if there is one: makes it black, and marks all that it holds. Returns the
    /// file.
    #[inline(always)]
    pub(crate) fn scan_next(&mut self) -> Option<FileRef>
        ensures some { IfSome result (λ f. (is_grey self.old.marks f ≡ true)
            × (self.new ≡ record self.old {
              marks = shaded_all (held_by self.old.world f) (blackened f self.old.marks);
            })) }
        ensures none { IfNone result
            ((self.new ≡ self.old) × ((f : ℕ) → is_grey self.old.marks f ≡ false)) }
    {
        let (file, held) = self.files.scan_next()?;
        shade_contents(self, &file, &held);
        Some(file)
    }
}
