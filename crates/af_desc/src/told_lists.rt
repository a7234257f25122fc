//! The lists of the files that were freed and of the sockets whose readiness may have changed.
ghost use Rattle.std.specs.Prelude.{◌≡◌, ◌+◌, ◌≤◌, ◌<◌, ◌∷◌, ◌++◌, ◌&&◌, [], true, false};
ghost use Rattle.std.specs.Prelude.{◌||◌, Some, IfOk, OnOk, OnErr, if◌then◌else◌, is_some, length};
ghost use Rattle.std.specs.Prelude.{vec_capacity};
ghost use Rattle.std.specs.FinMap as map;
ghost use Rattle.af_base.specs.World.{Map};
ghost use Rattle.af_desc.specs.declared.file_row.FileRow.{FileRow};
ghost use Rattle.af_desc.specs.Told.{cleaned, is_changed, is_listed, is_released, IsDirtyList};

use crate::dirty_mark::DirtyMark;
use crate::file_row::FileRow;
use crate::socket::FileKind;
use af_base::file_list::swap_remove_file;
use af_base::ids::{FileRef, Ino};
use af_mark::clamp_index;
use ordered_slab::OrderedSlab;
use std::alloc::{AllocError, Global};
use std::marker::Model;

/// One of the two lists that a program can ask for.
#[derive(Clone, Copy, Debug, PartialEq, Eq)]
pub enum ToldList {
    /// The sockets whose readiness may have changed.
    Changed,
    /// The files that were freed.
    Released,
}

/// The list of sockets whose readiness may have changed, and that of files that were freed, each if
/// a program asks for it. A list that is kept has room for all live files, up to `space` of them.
#[derive(Drop)]
pub struct ToldLists {
    /// Whether one of the two lists is kept.
    is_asked: bool,
    /// Whether the list of changed sockets is kept.
    tells_changed: bool,
    /// The files that are dirty.
    changed: Vec<FileRef>,
    /// Whether the list of freed files is kept.
    tells_released: bool,
    /// The numbers of those that were freed.
    released: Vec<Ino>,
    /// For how many files in all there is room in each list of files that is kept, here and in
    /// `Files`.
    space: usize,
}

impl Model for ToldLists {
    ghost use Rattle.std.specs.Prelude.{◌≡◌, ◌≤◌, ◌+◌, [], true, false, length, vec_capacity};
    ghost use Rattle.af_desc.specs.Told.{ToldListsView};

    ghost Value = { ToldListsView };

    ghost view = { λ a. record {
      tells_changed = a.tells_changed;
      tells_released = a.tells_released;
      changed = a.changed.items;
      released = a.released.items;
      space = a.space;
    } };

    ghost invariant = { λ a.
        (a.is_asked ≡ false → (a.tells_changed ≡ false) × (a.tells_released ≡ false))
        × (a.tells_changed ≡ false → a.changed.items ≡ [])
        × (a.tells_changed ≡ true → a.space ≤ vec_capacity a.changed)
        × (a.tells_released ≡ true → length a.released.items + a.space ≤ vec_capacity a.released) };
}

impl ToldLists {
    /// Makes two empty lists, and keeps neither. Takes no memory.
    pub fn new(alloc: Global) -> ToldLists
        ensures { result ≡ record {
          tells_changed = false;
          tells_released = false;
          changed = [];
          released = [];
          space = 0;
        } }
    {
        ToldLists {
            is_asked: false,
            tells_changed: false,
            changed: Vec::new(alloc),
            tells_released: false,
            released: Vec::new(alloc),
            space: 0,
        }
    }

    /// Returns for how many files in all each list of files has room.
    #[inline(always)]
    pub fn space(&self) -> usize
        ensures { result ≡ self.now.space }
    {
        self.space
    }

    /// Returns the dirty files.
    #[inline(always)]
    pub fn changed(&self) -> &[FileRef]
        ensures { result.now ≡ self.now.changed }
    {
        self.changed.as_slice()
    }

    /// Returns the numbers of the freed files.
    #[inline(always)]
    pub fn released(&self) -> &[Ino]
        ensures { result.now ≡ self.now.released }
    {
        self.released.as_slice()
    }

    /// Reserves room for `all` files in both lists, so far as they are kept. The other lists of
    /// files have room for `most`. Nothing else changes, also on an error.
    pub fn widen(&mut self, all: usize, most: usize) -> Result<(), AllocError>
        requires most { all ≤ most }
        requires more { self.old.space ≤ all }
        ensures same { self.new ≡ record self.old { space = self.new.space } }
        ensures ok { OnOk result (all ≤ self.new.space) }
        ensures most { OnOk result (self.new.space ≤ most) }
        ensures err { OnErr result (self.new.space ≡ self.old.space) }
    {
        let mut space = most;
        if self.tells_changed {
            widen(&mut self.changed, all)?;
            space = space.min(self.changed.capacity());
        }
        if self.tells_released {
            let freed = self.released.len();
            widen(&mut self.released, all.saturating_add(freed))?;
            space = space.min(self.released.capacity() - freed);
        }
        self.space = space;
        Ok(())
    }

    /// Begins to keep that list, with room for `live` files, and empties it if it is that of freed
    /// files. On an error nothing has changed.
    pub fn tell(&mut self, list: ToldList, live: usize) -> Result<(), AllocError>
        requires { live ≤ self.old.space }
        ensures ok { OnOk result (self.new ≡ record self.old {
          tells_changed = is_changed list || self.old.tells_changed;
          tells_released = is_released list || self.old.tells_released;
          released = if is_released list then [] else self.old.released;
          space = self.new.space;
        }) }
        ensures room { live ≤ self.new.space }
        ensures space { self.new.space ≤ self.old.space }
        ensures err { OnErr result (self.new ≡ self.old) }
    {
        match list {
            ToldList::Changed => {
                widen(&mut self.changed, live)?;
                self.tells_changed = true;
                self.space = self.space.min(self.changed.capacity());
            }
            ToldList::Released => {
                widen(&mut self.released, live)?;
                self.released.clear();
                self.tells_released = true;
                self.space = self.space.min(self.released.capacity());
            }
        }
        self.is_asked = true;
        Ok(())
    }

    /// Returns the mark of a file that is new: a socket is dirty if changed ones are listed, and
    /// `add_new` lists it. A plain file is always ready, and never listed.
    #[inline(always)]
    pub fn mark_of_new(&self, kind: &FileKind) -> DirtyMark
        ensures { result ≡ (self.now.tells_changed && is_some kind.now) }
    {
        if self.tells_changed && kind.is_socket() {
            DirtyMark::listed(clamp_index(self.changed.len()))
        } else {
            DirtyMark::clean()
        }
    }

    /// Adds a new file to the list of changed sockets, if it is dirty. Takes no memory.
    #[inline(always)]
    pub fn add_new(&mut self, is_dirty: bool, file: &FileRef)
        requires kept { is_dirty ≡ true → self.old.tells_changed ≡ true }
        requires room { length self.old.changed < self.old.space }
        ensures { self.new ≡ record self.old {
          changed = if is_dirty then self.old.changed ++ file.now ∷ [] else self.old.changed;
        } }
    {
        if is_dirty {
            self.changed.push_reserved(file.duplicate());
        }
    }

    /// Adds a socket that is not dirty to the list of changed ones, if that list is kept; it has
    /// room. Takes no memory.
    #[inline(always)]
    pub fn add_changed(&mut self, row: &mut FileRow, file: &FileRef)
        requires { self.old.tells_changed ≡ true → row.old.dirty ≡ false
            → length self.old.changed < self.old.space }
        ensures dirty { self.old.tells_changed ≡ true → is_some row.old.kind ≡ true
            → row.new.dirty ≡ true }
        ensures listed { (rows : Map FileRow) (x : FileRow) → map.get rows file.now ≡ Some x
            → is_listed x ≡ is_listed row.old → IsDirtyList rows self.old.changed
            → IsDirtyList (map.insert rows file.now row.new) self.new.changed }
        ensures row { row.new ≡ record row.old { dirty = row.new.dirty } }
        ensures rest { self.new ≡ record self.old { changed = self.new.changed } }
    {
        if !self.tells_changed || row.dirty.is_dirty() || !row.kind.is_socket() {
            return;
        }
        row.dirty = DirtyMark::listed(clamp_index(self.changed.len()));
        self.changed.push_reserved(file.duplicate());
    }

    /// Adds a file, whose row was removed, to the list of freed ones, if that list is kept, and
    /// removes it from the other. There is room then for fewer live files. Takes no memory.
    #[inline(always)]
    pub fn add_released(
        &mut self,
        rows: &mut OrderedSlab<FileRow>,
        dirty: DirtyMark,
        file: &FileRef,
    )
        requires room { 0 < self.old.space }
        ensures changed { (old : Map FileRow) (x : FileRow) → map.get old file.now ≡ Some x
            → x.dirty ≡ dirty → IsDirtyList old self.old.changed
            → IsDirtyList (map.remove old file.now) self.new.changed }
        ensures released { self.old.tells_released ≡ true
            → self.new.released ≡ self.old.released ++ file.now ∷ [] }
        ensures rows { rows.new ≡ rows.old }
        ensures room { self.old.space ≤ self.new.space + 1 }
        ensures space { self.new.space ≤ self.old.space }
        ensures rest { self.new ≡ record self.old {
          changed = self.new.changed;
          released = self.new.released;
          space = self.new.space;
        } }
    {
        // Mostly nobody asks for a list, and one test tells.
        if !self.is_asked {
            return;
        }
        self.push_released(file.ino());
        self.remove_changed(rows, dirty, file);
    }

    /// Adds a number to the list of freed files, if that list is kept.
    #[cold]
    #[inline(never)]
    fn push_released(&mut self, ino: Ino)
        requires room { 0 < self.old.space }
        ensures released { self.old.tells_released ≡ true
            → self.new.released ≡ self.old.released ++ ino ∷ [] }
        ensures room { self.old.space ≤ self.new.space + 1 }
        ensures space { self.new.space ≤ self.old.space }
        ensures rest { self.new ≡ record self.old {
          released = self.new.released;
          space = self.new.space;
        } }
    {
        if !self.tells_released {
            return;
        }
        self.released.push_reserved(ino);
        self.space = self
            .space
            .min(self.released.capacity() - self.released.len());
    }

    /// Removes a freed file from the list of dirty ones, if it is there. The last takes its place.
    #[cold]
    #[inline(never)]
    fn remove_changed(&mut self, rows: &mut OrderedSlab<FileRow>, dirty: DirtyMark, file: &FileRef)
        ensures changed { (old : Map FileRow) (x : FileRow) → map.get old file.now ≡ Some x
            → x.dirty ≡ dirty → IsDirtyList old self.old.changed
            → IsDirtyList (map.remove old file.now) self.new.changed }
        ensures rows { rows.new ≡ rows.old }
        ensures rest { self.new ≡ record self.old { changed = self.new.changed } }
    {
        if !self.tells_changed {
            return;
        }
        if !dirty.is_dirty() {
            return;
        }
        let at = swap_remove_file(&mut self.changed, file.ino(), dirty.index());
        update_moved_index(rows, self.changed.as_slice(), at);
    }

    /// Empties both lists: no file is dirty then.
    pub fn clear(&mut self, rows: &mut OrderedSlab<FileRow>)
        requires listed { IsDirtyList rows.old.values self.old.changed }
        ensures listed { IsDirtyList rows.new.values self.new.changed }
        ensures rest { cleaned rows.new.values ≡ cleaned rows.old.values }
        ensures rows { rows.new ≡ record rows.old { values = rows.new.values } }
        ensures empty { self.new ≡ record self.old { changed = []; released = [] } }
    {
        clear_dirty(rows, &mut self.changed);
        self.released.clear();
    }
}

/// Sets the position of the file that is now at `at` in the list: a hint.
#[tactic(auto, using(ordered_slab::proofs::Values::lent))]
fn update_moved_index(rows: &mut OrderedSlab<FileRow>, changed: &[FileRef], at: Option<usize>)
    ensures { rows.new ≡ rows.old }
{
    if let Some(at) = at
        && let Some(moved) = changed.get(at)
        && let Some(row) = rows.get_mut(moved)
    {
        row.dirty.set_index(clamp_index(at));
    }
}

/// Empties the list: no file is dirty then.
fn clear_dirty(rows: &mut OrderedSlab<FileRow>, changed: &mut Vec<FileRef>)
    requires listed { IsDirtyList rows.old.values changed.old.items }
    ensures listed { IsDirtyList rows.new.values changed.new.items }
    ensures rest { cleaned rows.new.values ≡ cleaned rows.old.values }
    ensures rows { rows.new ≡ record rows.old { values = rows.new.values } }
    ensures empty { changed.new.items ≡ [] }
    ensures capacity { vec_capacity changed.new ≡ vec_capacity changed.old }
{
    while let Some(file) = changed.pop() {
        let row = rows.get_mut(&file).unwrap();
        row.dirty = DirtyMark::clean();
    }
}

/// Reserves room for `files` files in a list. Nothing else changes, also on an error.
#[inline(always)]
pub(crate) fn widen<T>(list: &mut Vec<T>, files: usize) -> Result<(), AllocError>
    ensures items { list.new.items ≡ list.old.items }
    ensures ok { OnOk result (files ≤ vec_capacity list.new) }
    ensures capacity { vec_capacity list.old ≤ vec_capacity list.new }
{
    if files <= list.capacity() {
        return Ok(());
    }
    list.reserve(files - list.len())
}
