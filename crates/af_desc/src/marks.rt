//! Which files a pass of the collector has marked, and which of these it has still to scan. No call
//! takes memory.
ghost use Rattle.std.specs.Prelude.{◌≡◌, ◌<◌, ◌-◌, ◌^◌, ◌&&◌, ℕ, IfSome, IfNone, cond, is_some};
ghost use Rattle.std.specs.Prelude.{false, nat_eq, nat_lt, option_map, true, vec_capacity};
ghost use Rattle.std.specs.FinMap as map;
ghost use Rattle.af_base.specs.Counts.{count_in};
ghost use Rattle.af_base.specs.Places.{held_in};
ghost use Rattle.af_ledger.specs.Tally.{count_in_map};
ghost use Rattle.af_mark.specs.Grey.{AreUpTo, colors_in};
ghost use Rattle.af_desc.specs.Holding.{IsContents};
ghost use Rattle.af_mark.specs.MarksView.{blackened, is_grey, is_marked, is_unmarked, knows};
ghost use Rattle.af_mark.specs.MarksView.{shaded, visited};
ghost use Rattle.af_mark.specs.declared.color.Color.TheVariants.{Black, Grey, White};

use crate::contents::Contents;
use crate::file_table::FileTable;
use crate::files::Files;
use af_base::file_list::swap_remove_file;
use af_base::ids::{FileRef, Ino};
use af_mark::{Color, Mark};

impl Files {
    /// Begins a pass over the present files: none is marked. Costs the same for any number of
    /// files, except once in 2^32 epochs, when it clears each mark.
    pub fn start_epoch(&mut self)
        ensures unmarked { (f : ℕ) → is_marked self.new.marks f ≡ false }
        ensures known { (f : ℕ) → knows self.new.marks f ≡ knows self.old.marks f }
        ensures bound { self.new.marks.bound ≡ self.old.next }
        ensures rest { self.new ≡ record self.old { marks = self.new.marks } }
    {
        self.epoch = next_epoch(&mut self.rows, self.epoch);
        self.grey.clear();
        self.bound = self.next;
        self.white = self.rows.len();
    }

    /// Ends a pass: no file is marked, and none is to be marked.
    pub fn end_pass(&mut self)
        ensures unmarked { (f : ℕ) → is_marked self.new.marks f ≡ false }
        ensures none_due { (f : ℕ) → is_unmarked self.new.marks f ≡ false }
        ensures known { (f : ℕ) → knows self.new.marks f ≡ knows self.old.marks f }
        ensures rest { self.new ≡ record self.old { marks = self.new.marks } }
    {
        self.epoch = next_epoch(&mut self.rows, self.epoch);
        self.grey.clear();
        self.bound = 0;
        self.white = 0;
    }

    /// Returns whether the pass has marked each file that was there when it began and is still
    /// live.
    #[inline(always)]
    pub fn are_marked(&self) -> bool
        ensures { result ≡ true → (f : ℕ) → knows self.now.marks f ≡ true → f < self.now.marks.bound
            → is_marked self.now.marks f ≡ true }
    {
        self.white == 0
    }

    /// Returns the bound of the pass: files from that number on were made since it began.
    pub fn bound(&self) -> Ino
        ensures { result ≡ self.now.marks.bound }
    {
        Ino(self.bound)
    }

    /// Marks a file grey, if it was there when the pass began and is not marked.
    #[inline(always)]
    pub fn shade(&mut self, file: &FileRef)
        ensures { self.new ≡ record self.old { marks = shaded file.now self.old.marks } }
    {
        if file.ino().0 >= self.bound {
            return;
        }
        if self.rows.mark_grey(file, self.epoch, self.grey.len()) {
            self.white -= 1;
            self.grey.push_reserved(file.duplicate());
        }
    }

    /// Marks a file black if a table holds it, it was there when the pass began, and it is not
    /// marked. Returns what it holds, which is to be marked next; `None` if this call did not mark
    /// it.
    #[inline(always)]
    pub fn visit(&mut self, file: &FileRef) -> Option<Contents>
        ensures marks { self.new ≡ record self.old {
          marks = visited true
              (count_in_map self.old.counts file.now).tabled file.now self.old.marks;
        } }
        ensures due { is_some result ≡ (nat_lt 0 (count_in_map self.old.counts file.now).tabled
            && is_unmarked self.old.marks file.now) }
        ensures held { IfSome result (λ held. IsContents held (held_in self.old.files file.now)) }
    {
        if file.ino().0 >= self.bound {
            return None;
        }
        let held = self.rows.mark_tabled(file, self.epoch)?;
        self.white -= 1;
        Some(held)
    }

    /// Makes a grey file black, if there is one. Returns it with what it holds, which is to be
    /// marked next.
    #[inline(always)]
    pub fn scan_next(&mut self) -> Option<(FileRef, Contents)>
        ensures some { IfSome result (λ scanned. (is_grey self.old.marks scanned.0 ≡ true)
            × IsContents scanned.1 (held_in self.old.files scanned.0)
            × (self.new ≡ record self.old { marks = blackened scanned.0 self.old.marks })) }
        ensures none { IfNone result
            ((self.new ≡ self.old) × ((f : ℕ) → is_grey self.old.marks f ≡ false)) }
    {
        let file = self.grey.pop()?;
        let held = self.rows.mark_black(&file, self.epoch);
        Some((file, held))
    }

    /// Returns a grey file, if there is one. It stays grey until `blacken`.
    #[inline(always)]
    pub fn next_grey(&self) -> Option<FileRef>
        ensures some { IfSome result (λ f. is_grey self.now.marks f ≡ true) }
        ensures none { IfNone result ((f : ℕ) → is_grey self.now.marks f ≡ false) }
    {
        let file = self.grey.last()?;
        Some(file.duplicate())
    }

    /// Makes a grey file black.
    #[inline(always)]
    pub fn blacken(&mut self, file: &FileRef)
        ensures { self.new ≡ record self.old { marks = blackened file.now self.old.marks } }
    {
        // While no pass marks nothing is grey, and there is nothing to look up.
        let Some(_) = self.next_grey() else {
            return;
        };
        let Some(mark) = self.rows.mark(file) else {
            return;
        };
        if mark.is_grey_in(self.epoch) {
            let at = mark.position();
            self.take_grey(file, at);
        }
    }

    /// Makes a grey file black. Its position in the list is a hint.
    #[inline(always)]
    fn take_grey(&mut self, file: &FileRef, at: usize)
        requires { is_grey self.old.marks file.now ≡ true }
        ensures colors { self.new.marks
            ≡ record self.old.marks { colors = map.insert self.old.marks.colors file.now Black } }
        ensures rest { self.new ≡ record self.old { marks = self.new.marks } }
    {
        self.rows.set_mark(file, Mark::black(self.epoch));
        remove_listed(&mut self.rows, &mut self.grey, file.ino(), at);
    }

    /// Returns the colour of a file, if it is known.
    #[inline(always)]
    fn color(&self, file: &FileRef) -> Option<Color>
        ensures { result ≡ map.get self.now.marks.colors file.now }
    {
        let mark = self.rows.mark(file)?;
        Some(mark.color_in(self.epoch))
    }

    /// Returns whether a file is marked; an unknown one is not.
    #[inline(always)]
    pub fn is_marked(&self, file: &FileRef) -> bool
        ensures { result ≡ is_marked self.now.marks file.now }
    {
        match self.color(file) {
            Some(Color::Grey | Color::Black) => true,
            Some(Color::White) | None => false,
        }
    }
}

/// Removes the file from the list of grey files, if it is there. The last file takes its position,
/// and the mark of that file keeps it as a hint.
#[inline(always)]
fn remove_listed(rows: &mut FileTable, grey: &mut Vec<FileRef>, ino: Ino, at: usize)
    ensures each { (f : ℕ) → count_in f grey.new.items
        ≡ count_in f grey.old.items - cond (nat_eq f ino) 1 0 }
    ensures capacity { vec_capacity grey.new ≡ vec_capacity grey.old }
    ensures rows { rows.new ≡ rows.old }
{
    if let Some(at) = swap_remove_file(grey, ino, at)
        && let Some(moved) = grey.get(at)
    {
        rows.set_position(moved, at);
    }
}

/// Returns the epoch after `epoch`: no mark of an earlier epoch counts in it. Changes no row,
/// except once in 2^32 epochs.
fn next_epoch(rows: &mut FileTable, epoch: u32) -> u32
    requires upto { AreUpTo epoch rows.old.marks }
    requires begins { map.contains_key rows.old.files 0 ≡ false }
    ensures white { (f : ℕ) → map.get (colors_in result rows.new.marks) f
        ≡ option_map (λ x. White) (map.get rows.new.marks f) }
    ensures marks { AreUpTo result rows.new.marks }
    ensures known { (f : ℕ) → map.contains_key rows.new.marks f
        ≡ map.contains_key rows.old.marks f }
    ensures len { map.len rows.new.marks ≡ map.len rows.old.marks }
    ensures untouched { epoch < 2 ^ 32 - 1 → rows.new ≡ rows.old }
    ensures rest { rows.new ≡ record rows.old { marks = rows.new.marks } }
{
    if epoch < u32::MAX {
        return epoch + 1;
    }
    // Once in 2^32 epochs.
    clear_all_marks(rows);
    1
}

/// Clears the marks of all files.
#[cold]
fn clear_all_marks(rows: &mut FileTable)
    requires begins { map.contains_key rows.old.files 0 ≡ false }
    ensures marks { AreUpTo 0 rows.new.marks }
    ensures known { (f : ℕ) → map.contains_key rows.new.marks f
        ≡ map.contains_key rows.old.marks f }
    ensures len { map.len rows.new.marks ≡ map.len rows.old.marks }
    ensures rest { rows.new ≡ record rows.old { marks = rows.new.marks } }
{
    let mut last = Ino(0);
    let mut order_hint = 0;
    while let Some((file, at)) = rows.next_after(last, order_hint) {
        // Each file has a mark.
        rows.lemma_are_one();
        rows.set_mark(&file, Mark::none());
        last = file.ino();
        order_hint = at;
    }
    // No other number has a mark.
    rows.lemma_are_one();
}
