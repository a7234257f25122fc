//! A process with its table.
ghost use Rattle.std.specs.Prelude.{◌≡◌, ℕ, ◌+◌, ◌-◌, ◌≤◌, ◌<◌, [], ◌∷◌, length, slice_get, IfSome};
ghost use Rattle.std.specs.Prelude.{IsTrue, IfNone, IfOk, OnOk, OnErr, IsOk, None, false, nat_le};
ghost use Rattle.std.specs.Prelude.{◌++◌, nat_lt, true};
ghost use Rattle.std.specs.FinMap as map;
ghost use Rattle.af_base.specs.Changes.{installed, limited, taken_out};
ghost use Rattle.af_base.specs.Table.{free_numbers, lowest_free};
ghost use Rattle.af_table.specs.Bits.{is_taken};
ghost use Rattle.af_table.specs.Free.{free_from};
ghost use Rattle.af_table.specs.Rooms.{IsOpenFrom};

use crate::bits::Bits;
use af_base::ids::{Fd, FileRef, Ino, Uid};
use af_base::limits::MAX_NOFILE;
use smallvec::SmallVec;
use std::alloc::{AllocError, Global};
use std::marker::Model;
use std::mem;

/// Free descriptors of a process, rising: up to 4 lie in the value.
pub type FreeFds = SmallVec<Fd, 4>;

/// A process: bit n says whether descriptor n is open, and slot n has its file if it is. The slot
/// of a free descriptor is blank: its number is 0, which is no file's. So most look-ups need no
/// bit. Only `make_room` adds slots, so an install takes no memory.
#[derive(Drop)]
pub struct Process {
    user: Uid,
    limit: u32,
    privileged: bool,
    pub(crate) slots: Vec<FileRef>,
    pub(crate) taken: Bits,
}

impl Model for Process {
    ghost use Rattle.std.specs.Prelude.{◌≤◌, vec_len};
    ghost use Rattle.std.specs.FinMap as map;
    ghost use Rattle.std.specs.Coded.{codes};
    ghost use Rattle.af_base.specs.declared.limits.TheConstants.{MAX_NOFILE};
    ghost use Rattle.af_table.specs.Slots.{ProcessView, table_of, AreBlank, NoneFrom};

    ghost Value = { ProcessView };

    ghost coded = { Prim.hlevel (codes, map.code) };

    ghost view = { λ a. record {
      process = record {
        user = a.user;
        limit = a.limit;
        privileged = a.privileged;
        table = table_of a.taken.words a.slots.items;
      };
      row = vec_len a.slots;
    } };

    ghost invariant = { λ a. (vec_len a.slots ≤ MAX_NOFILE) × (a.limit ≤ MAX_NOFILE)
        × NoneFrom (vec_len a.slots) a.taken.words × AreBlank a.taken.words a.slots.items };
}

impl Process {
    /// Makes a process with an empty table, and no room in it.
    #[tactic(auto, using(crate::proofs::Tables::table_cuts))]
    pub(crate) fn new(alloc: Global, user: Uid, limit: u32, privileged: bool) -> Process
        requires { limit ≤ MAX_NOFILE }
        ensures { result ≡ record {
          process = record {
            user = user;
            limit = limit;
            privileged = privileged;
            table = map.empty;
          };
          row = 0;
        } }
    {
        Process {
            user,
            limit,
            privileged,
            slots: Vec::new(alloc),
            taken: Bits::new(),
        }
    }

    /// Copies the process, with all its open descriptors. Uses the memory of `row`, which may have
    /// files of another process, for the slots; they end behind the last open one.
    #[tactic(auto, using(crate::proofs::Tables::table_cuts))]
    pub(crate) fn copy(&self, row: Vec<FileRef>) -> Result<Process, AllocError>
        ensures process { IfOk result (λ p. p.process ≡ self.now.process) }
        ensures row { IfOk result (λ p. p.row ≤ self.now.row) }
        ensures last { IfOk result (λ p. 0 < p.row
            → map.contains_key self.now.process.table (p.row - 1) ≡ true) }
    {
        let end = self.taken.end_below(self.slots.len() as u32);
        let used = self.slots.len().min(end as usize);
        Ok(Process {
            user: self.user,
            limit: self.limit,
            privileged: self.privileged,
            slots: copy_files(row, &self.slots[..used])?,
            taken: self.taken,
        })
    }

    /// Returns the process's user.
    pub fn user(&self) -> Uid
        ensures { result ≡ self.now.process.user }
    {
        self.user
    }

    /// Returns the limit on descriptors.
    pub fn limit(&self) -> u32
        ensures value { result ≡ self.now.process.limit }
        ensures bound { result ≤ MAX_NOFILE }
    {
        self.limit
    }

    /// Returns the process's user, its limit on descriptors, and whether it is privileged, so
    /// exempt from the bound on its user's descriptors in flight (unix(7), CAP_SYS_RESOURCE).
    pub fn who(&self) -> (Uid, u32, bool)
        ensures user { result.0 ≡ self.now.process.user }
        ensures limit { result.1 ≡ self.now.process.limit }
        ensures privileged { result.2 ≡ self.now.process.privileged }
    {
        (self.user, self.limit, self.privileged)
    }

    /// Returns the file of the descriptor, if it is open.
    #[inline(always)]
    #[tactic(auto, using(crate::proofs::Tables::table_reads))]
    pub fn lookup(&self, fd: Fd) -> Option<FileRef>
        ensures { result ≡ map.get self.now.process.table fd }
    {
        let slot = self.slots.get(fd.0 as usize)?;
        if !is_open(&self.taken, fd, slot) {
            return None;
        }
        Some(slot.duplicate())
    }

    /// Returns whether it has room for each descriptor below the limit.
    #[inline(always)]
    pub fn has_room(&self) -> bool
        ensures value { result ≡ nat_le self.now.process.limit self.now.row }
        ensures open { IsOpenFrom self.now.process.table (self.now.process.limit - 1)
            → result ≡ true }
    {
        self.slots.len() >= self.limit as usize
    }

    /// Returns whether there is room for `fd`: so for each open descriptor, and each below one.
    #[inline(always)]
    pub fn has_room_at(&self, fd: Fd) -> bool
        ensures value { result ≡ nat_lt fd self.now.row }
        ensures open { IsOpenFrom self.now.process.table fd → result ≡ true }
    {
        self.slots.len() > fd.0 as usize
    }

    /// Makes room for each descriptor below the limit, and adds none above it.
    #[inline(always)]
    pub fn make_room(&mut self) -> Result<(), AllocError>
        ensures process { self.new.process ≡ self.old.process }
        ensures ok { OnOk result (self.old.process.limit ≤ self.new.row) }
        ensures rows { self.old.row ≤ self.new.row }
        ensures err { OnErr result (self.new ≡ self.old) }
        ensures succeeds { self.old.process.limit ≤ self.old.row → IsOk result }
        ensures most { self.old.row < self.new.row → self.new.row ≤ self.old.process.limit }
    {
        if self.has_room() {
            return Ok(());
        }
        self.lengthen()
    }

    /// Adds slots up to the limit, which is more than there were. Few events come here.
    #[cold]
    #[inline(never)]
    #[tactic(auto, using(crate::proofs::Tables::table_cuts))]
    fn lengthen(&mut self) -> Result<(), AllocError>
        requires { self.old.row ≤ self.old.process.limit }
        ensures process { self.new.process ≡ self.old.process }
        ensures ok { OnOk result (self.new.row ≡ self.old.process.limit) }
        ensures err { OnErr result (self.new ≡ self.old) }
    {
        self.slots.resize_with(self.limit as usize, blank)
    }

    /// Sets the limit. Open descriptors stay open, also at or above it.
    #[inline]
    pub(crate) fn set_limit(&mut self, limit: u32)
        requires { limit ≤ MAX_NOFILE }
        ensures { self.new ≡ record self.old { process = limited limit self.old.process } }
    {
        self.limit = limit;
    }

    /// Sets the descriptor, for which there is room, to the file.
    #[inline(always)]
    #[tactic(auto, using(crate::proofs::Tables::table_installs))]
    pub fn install(&mut self, fd: Fd, file: FileRef)
        requires { fd < self.old.row }
        ensures { self.new ≡ record self.old { process = installed fd file self.old.process } }
    {
        self.slots[fd.0 as usize] = file;
        self.taken.set(fd.0);
    }

    /// Installs the file at a descriptor for which there is room. Returns the file that it referred
    /// to before, if any.
    #[inline(always)]
    #[tactic(auto, using(crate::proofs::Tables::table_reads, crate::proofs::Tables::table_installs))]
    pub fn replace(&mut self, fd: Fd, file: FileRef) -> Option<FileRef>
        requires { fd < self.old.row }
        ensures value { result ≡ map.get self.old.process.table fd }
        ensures installed { self.new
            ≡ record self.old { process = installed fd file self.old.process } }
    {
        let was = mem::replace(&mut self.slots[fd.0 as usize], file);
        if is_open(&self.taken, fd, &was) {
            return Some(was);
        }
        self.taken.set(fd.0);
        None
    }

    /// Frees the descriptor, and returns its file.
    #[inline(always)]
    #[tactic(auto, using(crate::proofs::Tables::table_reads, crate::proofs::Tables::table_frees))]
    pub(crate) fn take_out(&mut self, fd: Fd) -> Option<FileRef>
        ensures value { result ≡ map.get self.old.process.table fd }
        ensures taken { self.new ≡ record self.old { process = taken_out fd self.old.process } }
    {
        let was = self.lookup(fd)?;
        self.slots[fd.0 as usize] = blank();
        self.taken.clear(fd.0);
        Some(was)
    }

    /// Returns the least free descriptor from `from` on.
    #[inline(always)]
    #[tactic(auto, using(crate::proofs::FreeNumbers::free_changes))]
    pub(crate) fn next_free(&self, from: u32) -> Option<Fd>
        ensures some { IfSome result (λ n.
            free_from from self.now.process ≡ n ∷ free_from (n + 1) self.now.process) }
        ensures none { IfNone result (free_from from self.now.process ≡ []) }
        ensures low { IfSome result (λ n. n < MAX_NOFILE) }
    {
        let n = self.taken.next(from, self.limit, false)?;
        Some(Fd(n))
    }

    /// Returns the lowest free descriptor, if one below the limit is free (open(2)).
    #[inline(always)]
    pub fn lowest(&self) -> Option<Fd>
        ensures { result ≡ slice_get (free_numbers self.now.process) 0 }
    {
        let n = self.taken.first_zero(self.limit)?;
        Some(Fd(n))
    }

    /// Returns the two lowest free descriptors, rising, if there are two.
    #[tactic(auto, using(crate::proofs::FreeNumbers::free_lists))]
    pub fn lowest_two(&self) -> Option<(Fd, Fd)>
        ensures two { IfSome result (λ t. lowest_free 2 self.now.process ≡ t.0 ∷ t.1 ∷ []) }
        ensures none { IfNone result (length (free_numbers self.now.process) < 2) }
    {
        let first = self.next_free(0)?;
        let second = self.next_free(first.0 + 1)?;
        Some((first, second))
    }

    /// Fills an empty list with the `count` lowest free descriptors, rising, or all if there are
    /// fewer. Takes memory only for more than fit in the value.
    #[inline(always)]
    #[tactic(auto, using(crate::proofs::FreeNumbers::free_lists))]
    pub fn lowest_free(&self, count: usize, fds: &mut FreeFds) -> Result<(), AllocError>
        requires empty { fds.old.items ≡ [] }
        ensures value { OnOk result (fds.new.items ≡ lowest_free count self.now.process) }
        ensures succeeds { length (lowest_free count self.now.process) ≤ 4 → IsOk result }
    {
        // Most messages bring one file.
        if count == 1 {
            if let Some(fd) = self.lowest() {
                push_fd(fds, fd)?;
            }
            return Ok(());
        }
        let mut from = 0;
        for _ in 0..count {
            let Some(fd) = self.next_free(from) else {
                return Ok(());
            };
            push_fd(fds, fd)?;
            from = fd.0 + 1;
        }
        Ok(())
    }

    /// Returns the least open descriptor from `from` on, with its file, if there is one. A walk
    /// continues behind each answer.
    #[inline]
    #[tactic(auto, using(crate::proofs::Tables::table_reads))]
    pub fn next_open(&self, from: Fd) -> Option<(Fd, FileRef)>
        ensures open { IfSome result (λ e. map.get self.now.process.table e.0 ≡ Some e.1) }
        ensures low { IfSome result (λ e. e.0 < MAX_NOFILE) }
        ensures reached { IfSome result (λ e. from ≤ e.0) }
        ensures least { IfSome result (λ e.
            (q : ℕ) → from ≤ q → q < e.0 → map.get self.now.process.table q ≡ None) }
        ensures none { IfNone result
            ((q : ℕ) → from ≤ q → map.get self.now.process.table q ≡ None) }
    {
        let n = self.taken.next(from.0, self.slots.len() as u32, true)?;
        let file = self.slots[n as usize].duplicate();
        Some((Fd(n), file))
    }

    /// Returns the files of `fd` and of the descriptors right behind it, up to the first that is
    /// not open.
    #[inline(always)]
    #[tactic(auto, using(crate::proofs::Tables::table_reads))]
    pub fn run_from(&self, fd: Fd) -> &[FileRef]
        ensures open { (i : ℕ) → i < length result.now
            → map.get self.now.process.table (fd + i) ≡ slice_get result.now i }
        ensures ends { map.get self.now.process.table (fd + length result.now) ≡ None }
        ensures some { IsTrue (map.contains_key self.now.process.table fd) → 0 < length result.now }
        ensures low { fd ≤ MAX_NOFILE → fd + length result.now ≤ MAX_NOFILE }
    {
        let end = self.slots.len() as u32;
        let first = fd.0.min(end);
        let behind = self.taken.next(first, end, false).unwrap_or(end);
        &self.slots[first as usize..behind as usize]
    }
}

/// Appends a descriptor. Takes memory only if it does not fit.
#[inline(always)]
fn push_fd(fds: &mut FreeFds, fd: Fd) -> Result<(), AllocError>
    ensures ok { OnOk result (fds.new.items ≡ fds.old.items ++ fd ∷ []) }
    ensures succeeds { length fds.old.items < 4 → IsOk result }
{
    if fds.len() == fds.capacity() {
        fds.reserve(1)?;
    }
    fds.push_reserved(fd);
    Ok(())
}

/// Returns a blank slot.
#[inline(always)]
fn blank() -> FileRef
    ensures { result ≡ 0 }
{
    FileRef::new(Ino(0), 0)
}

/// Returns whether the descriptor `fd`, whose slot is `slot`, is open.
#[inline(always)]
fn is_open(taken: &Bits, fd: Fd, slot: &FileRef) -> bool
    requires { is_taken taken.now.words fd ≡ false → slot.now ≡ 0 }
    ensures { result ≡ is_taken taken.now.words fd }
{
    slot.ino().0 != 0 || taken.has(fd.0)
}

/// Returns the row with copies of `files` in place of what it had.
fn copy_files(mut row: Vec<FileRef>, files: &[FileRef]) -> Result<Vec<FileRef>, AllocError>
    ensures { IfOk result (λ copies. copies.items ≡ files.now) }
{
    row.clear();
    row.reserve_exact(files.len())?;
    for file in files {
        row.push_reserved(file.duplicate());
    }
    Ok(row)
}
