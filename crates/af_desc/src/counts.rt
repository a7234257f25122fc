//! How many places hold each file, and which files are unreferenced.
ghost use Rattle.std.specs.Prelude.{◌≡◌, ◌<◌, ℕ, [], false, true, IfSome, IfNone, IsTrue};
ghost use Rattle.std.specs.FinMap as map;
ghost use Rattle.af_base.specs.Places.{held_in, queue_in};
ghost use Rattle.af_ledger.specs.Counted.{places_in, IsCountable, IsCounted};
ghost use Rattle.af_ledger.specs.Tally.{count_in_map, is_unreferenced};
ghost use Rattle.af_ledger.specs.declared.place.Place.TheVariants.{Table};
ghost use Rattle.af_desc.specs.FilesView.{fewer_embryos, freed, more_embryos, with_file_ref};
ghost use Rattle.af_desc.specs.FilesView.{with_moved_ref, without_file_ref};
ghost use Rattle.af_mark.specs.MarksView.{is_unmarked};

use crate::files::Files;
use af_base::file_list::swap_remove_file;
use af_base::ids::{FileRef, Ino};
use af_ledger::{Count, Place};

impl Files {
    /// Returns the counts of a file; all are 0 if no place holds it.
    #[inline(always)]
    fn count_at(&self, file: &FileRef) -> Count
        ensures { result ≡ count_in_map self.now.counts file.now }
    {
        match self.rows.count(file) {
            Some(count) => count.duplicate(),
            None => Count::none(),
        }
    }

    /// Returns the counts of the file numbered `ino`, by a binary search; all are 0 for an unknown
    /// one.
    fn count(&self, ino: Ino) -> Count
        ensures { result ≡ count_in_map self.now.counts ino }
    {
        match self.rows.find(ino) {
            Some(file) => self.count_at(&file),
            None => Count::none(),
        }
    }

    /// Returns how many places hold a file; 0 for an unknown one.
    pub fn refs(&self, ino: Ino) -> u64
        ensures { result ≡ places_in (count_in_map self.now.counts ino) }
    {
        self.count(ino).places()
    }

    /// Returns how many places hold `file`; 0 for an unknown one.
    pub fn refs_at(&self, file: &FileRef) -> u64
        ensures { result ≡ places_in (count_in_map self.now.counts file.now) }
    {
        self.count_at(file).places()
    }

    /// Returns how many descriptors refer to a file.
    #[inline(always)]
    pub fn tabled(&self, file: &FileRef) -> u64
        ensures { result ≡ (count_in_map self.now.counts file.now).tabled }
    {
        self.count_at(file).tabled()
    }

    /// Returns how many places in queues hold a file.
    pub fn inflight(&self, ino: Ino) -> u64
        ensures { result ≡ (count_in_map self.now.counts ino).inflight }
    {
        self.count(ino).inflight()
    }

    /// Returns how many places in queues hold `file`.
    pub fn inflight_at(&self, file: &FileRef) -> u64
        ensures { result ≡ (count_in_map self.now.counts file.now).inflight }
    {
        self.count_at(file).inflight()
    }

    /// Returns whether an embryo may wait to be accepted. If not, none does.
    #[inline(always)]
    pub fn has_embryos(&self) -> bool
        ensures { result ≡ false → (f : ℕ) → (count_in_map self.now.counts f).waiting ≡ 0 }
    {
        self.embryos > 0
    }

    /// Returns a file that no place holds, if there is one.
    #[inline(always)]
    pub fn next_unreferenced(&self) -> Option<FileRef>
        ensures some { IfSome result (λ f. is_unreferenced self.now.counts f ≡ true) }
        ensures none { IfNone result ((f : ℕ) → is_unreferenced self.now.counts f ≡ false) }
    {
        // The first stays first until it is freed: so a release empties one file before the next.
        let file = self.unreferenced.first()?;
        Some(file.duplicate())
    }

    /// Adds one place that holds a file, which is known. The file is no longer unreferenced. Takes
    /// no memory.
    #[inline(always)]
    pub fn hold(&mut self, place: &Place, file: &FileRef)
        requires known { IsTrue (map.contains_key self.old.counts file.now) }
        requires countable { IsCountable place.now (count_in_map self.old.counts file.now) }
        ensures { self.new ≡ with_file_ref place.now file.now self.old }
    {
        let first = self.rows.add_ref(place, file);
        self.embryos = more_embryos(self.embryos, place);
        if first {
            // Of several unreferenced files, mostly the first gains a reference.
            swap_remove_file(&mut self.unreferenced, file.ino(), 0);
        }
    }

    /// Adds one place that holds a file, which another place holds already. Takes no memory.
    #[inline(always)]
    pub fn hold_again(&mut self, place: &Place, file: &FileRef)
        requires held { 0 < places_in (count_in_map self.old.counts file.now) }
        requires countable { IsCountable place.now (count_in_map self.old.counts file.now) }
        ensures { self.new ≡ with_file_ref place.now file.now self.old }
    {
        self.rows.add_ref(place, file);
        self.embryos = more_embryos(self.embryos, place);
    }

    /// Drops one place of a file, which has it. Without another, the file becomes unreferenced.
    /// Takes no memory.
    #[inline(always)]
    pub fn drop_one(&mut self, place: &Place, file: &FileRef)
        requires { IsCounted place.now (count_in_map self.old.counts file.now) }
        ensures { self.new ≡ without_file_ref place.now file.now self.old }
    {
        let last = self.rows.drop_ref(place, file);
        self.embryos = fewer_embryos(self.embryos, place);
        if last {
            self.unreferenced.push_reserved(file.duplicate());
        }
    }

    /// Moves a place of a file, which has it, to a table (accept(2), recvmsg(2)). Takes no memory.
    #[inline(always)]
    pub fn move_to_table(&mut self, from: &Place, file: &FileRef)
        requires counted { IsCounted from.now (count_in_map self.old.counts file.now) }
        requires countable { IsCountable Table (count_in_map self.old.counts file.now) }
        ensures { self.new ≡ with_moved_ref from.now file.now self.old }
    {
        self.rows.move_to_table(from, file);
        self.embryos = fewer_embryos(self.embryos, from);
    }

    /// Drops the reference of a descriptor to a file, which has one. A file without another
    /// reference becomes unreferenced. Or it is removed immediately, and its peer hung up, if it
    /// has no name, holds nothing, and no running pass may have to mark it. Returns whether it was
    /// removed. Takes no memory.
    #[inline(always)]
    pub fn drop_descriptor(&mut self, file: &FileRef) -> bool
        requires { IsCounted Table (count_in_map self.old.counts file.now) }
        ensures removed { result ≡ true
            → self.new ≡ freed file.now (without_file_ref Table file.now self.old) }
        ensures silent { result ≡ true → queue_in self.old.files file.now ≡ [] }
        ensures bare { result ≡ true → held_in self.old.files file.now ≡ [] }
        ensures unmarked { result ≡ true → is_unmarked self.old.marks file.now ≡ false }
        ensures last { result ≡ true → places_in (count_in_map self.old.counts file.now) ≡ 1 }
        ensures kept { result ≡ false → self.new ≡ without_file_ref Table file.now self.old }
    {
        let Some(bare) = self.rows.drop_descriptor_ref(file) else {
            return false;
        };
        // The pass counts the files below its bound that it has still to mark, and lists the grey.
        if bare && file.ino().0 >= self.bound && self.grey.is_empty() {
            let (kind, _) = self.rows.remove(file, self.epoch);
            self.hang_up_peer(&kind);
            return true;
        }
        self.unreferenced.push_reserved(file.duplicate());
        false
    }
}

/// Returns `embryos` after one more place like `place`: one more for a backlog, unless it is at its
/// largest.
#[inline(always)]
pub fn more_embryos(embryos: u64, place: &Place) -> u64
    ensures { result ≡ more_embryos place.now embryos }
{
    match place {
        Place::Backlog if embryos < u64::MAX => embryos + 1,
        _ => embryos,
    }
}

/// Returns `embryos` after one place like `place` less: one less for a backlog, unless it is at its
/// largest, where the true number may be larger.
#[inline(always)]
fn fewer_embryos(embryos: u64, place: &Place) -> u64
    ensures { result ≡ fewer_embryos place.now embryos }
{
    match place {
        Place::Backlog if embryos < u64::MAX => embryos.saturating_sub(1),
        _ => embryos,
    }
}
