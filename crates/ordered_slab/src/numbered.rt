//! Values under numbers that only rise.
ghost use Rattle.std.specs.Prelude.{◌≡◌, ℕ, ◌+◌, ◌≤◌, ◌<◌, false, IsTrue, IsOk, IfSome, IfNone};
ghost use Rattle.std.specs.Prelude.{OnOk, option_copied};
ghost use Rattle.std.specs.FinMap as map;
ghost use Rattle.std.specs.Option.{option_copied_mut};
ghost use Rattle.std.specs.Borrow.{sem};

use crate::changes::{put, reserve, take};
use crate::numbered_value::{NumberedValue, stands_at};
use crate::order::Order;
use af_base::ids::{FileRef, Ino};
use af_base::limits::MAX_INO;
use slab::Slab;
use std::alloc::{AllocError, Global};
use std::marker::Model;

/// A value under each of some numbers. Each new number is above all earlier ones, and is never used
/// again. A `FileRef` has a hint of its value's key.
#[derive(Drop)]
pub struct OrderedSlab<T> {
    order: Order,
    slab: Slab<NumberedValue<T>>,
}

impl<T> Model for OrderedSlab<T> {
    ghost use Rattle.std.specs.Prelude.{◌-◌, ◌≤◌, min};
    ghost use Rattle.slab.specs.Slab.{slab_len};
    ghost use Rattle.ordered_slab.specs.Rows.{AreListed};
    ghost use Rattle.ordered_slab.specs.SlabValues.{AreInPlace, keys_of, values_of};
    ghost use Rattle.ordered_slab.specs.OrderedSlabView.{OrderedSlabView, numbered_code};

    ghost Value = { OrderedSlabView T };

    ghost coded = { numbered_code T.code };

    ghost view = { λ a. record {
      values = values_of (keys_of a.slab) a.slab;
      last = a.order.last;
      room = min a.order.room (a.slab.capacity - slab_len a.slab);
    } };

    ghost invariant = { λ a. AreInPlace (keys_of a.slab) a.slab
        × AreListed a.order.rows (keys_of a.slab) × (slab_len a.slab ≤ a.slab.capacity) };
}

impl<T> OrderedSlab<T> {
    ghost use Rattle.ordered_slab.specs.Lending.{lends_at};

    /// Makes an empty table. Takes no memory.
    #[tactic(auto, using(crate::proofs::SlabValues::comes_and_goes))]
    pub fn new(alloc: Global) -> Self
        ensures values { result.values ≡ map.empty }
        ensures last { result.last ≡ 0 }
    {
        OrderedSlab {
            order: Order::new(alloc),
            slab: Slab::new(alloc),
        }
    }

    /// Returns how many values there are.
    #[inline(always)]
    pub fn len(&self) -> usize
        ensures { result ≡ map.len self.now.values }
    {
        self.slab.len()
    }

    /// Returns how many more values there is room for.
    pub fn room(&self) -> usize
        ensures { result ≡ self.now.room }
    {
        self.order
            .room()
            .min(self.slab.capacity() - self.slab.len())
    }

    /// Reserves room for `values` more values: then `push` needs no memory for them, and no other
    /// call ever does. Nothing else changes, also on an error.
    #[inline(always)]
    #[tactic(auto, using(crate::proofs::SlabValues::comes_and_goes))]
    pub fn reserve(&mut self, values: usize) -> Result<(), AllocError>
        ensures same { self.new ≡ record self.old { room = self.new.room } }
        ensures ok { OnOk result (values ≤ self.new.room) }
        ensures room { self.old.room ≤ self.new.room }
        ensures succeeds { values ≤ self.old.room → IsOk result }
    {
        reserve(&mut self.order, &mut self.slab, values)
    }

    /// Adds a value, under a number above all earlier ones. There is room for it.
    #[inline(always)]
    #[tactic(auto, using(crate::proofs::SlabValues::comes_and_goes))]
    pub fn push(&mut self, ino: Ino, value: T) -> FileRef
        requires room { 0 < self.old.room }
        requires above { self.old.last < ino }
        requires number { ino ≤ MAX_INO }
        ensures file { result ≡ ino }
        ensures pushed { self.new ≡ record self.old {
          values = map.insert self.old.values ino value;
          last = ino;
          room = self.new.room;
        } }
        ensures new { map.contains_key self.old.values ino ≡ false }
        ensures room { self.old.room ≤ self.new.room + 1 }
    {
        put(&mut self.order, &mut self.slab, ino, value)
    }

    /// Removes the value under the number of `file`, and returns it, if there is one. Takes no
    /// memory.
    #[inline(always)]
    #[tactic(auto, using(crate::proofs::SlabValues::comes_and_goes))]
    pub fn remove(&mut self, file: &FileRef) -> Option<T>
        ensures value { result ≡ map.get self.old.values file.now }
        ensures removed { self.new ≡ record self.old {
          values = map.remove self.old.values file.now;
          room = self.new.room;
        } }
        ensures room { self.old.room ≤ self.new.room }
    {
        take(&mut self.order, &mut self.slab, file)
    }

    /// Returns the value under the number of `file`, if there is one.
    #[inline(always)]
    #[tactic(auto, using(crate::proofs::SlabValues::finds))]
    pub fn get(&self, file: &FileRef) -> Option<&T>
        ensures { option_copied result ≡ map.get self.now.values file.now }
    {
        if let Some(entry) = self.slab.get(file.key())
            && entry.file.is_same(file)
        {
            return Some(&entry.value);
        }
        let key = self.order.key_of(&self.slab, file.ino())?;
        let entry = self.slab.get(key)?;
        Some(&entry.value)
    }

    /// Lends the value under the number of `file` to write to, if there is one.
    #[inline(always)]
    #[tactic(auto, using(crate::proofs::SlabValues::finds))]
    pub fn get_mut(&mut self, file: &FileRef) -> Option<&mut T>
        ensures* writes_back { sem 𝓛 (lends_at T.row self.entry file.now result) }
        ensures value { option_copied_mut result ≡ map.get self.old.values file.now }
    {
        let key = file.key();
        // Returns early, so that a right hint costs one look at the entry.
        if stands_at(&self.slab, key, file) {
            return Some(&mut self.slab[key].value);
        }
        let key = self.order.key_of(&self.slab, file.ino())?;
        Some(&mut self.slab[key].value)
    }

    /// Returns a reference to the value of `ino`, if there is one, by a search. A look-up by
    /// `FileRef` needs none if its hint is right.
    #[tactic(auto, using(crate::proofs::SlabValues::finds))]
    pub fn find(&self, ino: Ino) -> Option<FileRef>
        ensures there { IfSome result (λ f.
            (f ≡ ino) × IsTrue (map.contains_key self.now.values ino)) }
        ensures none { IfNone result (map.contains_key self.now.values ino ≡ false) }
    {
        let key = self.order.key_of(&self.slab, ino)?;
        Some(FileRef::new(ino, key))
    }

    /// Returns the least number above `ino` that has a value, if there is one, and the position
    /// behind it in the order. `ino` need not have a value. A walk passes the last answer, and
    /// needs no search; the position `at` is a hint.
    #[inline(always)]
    #[tactic(auto, using(crate::proofs::SlabValues::finds))]
    pub fn next_after(&self, ino: Ino, at: usize) -> Option<(FileRef, usize)>
        ensures above { IfSome result (λ n. ino < n.0) }
        ensures there { IfSome result (λ n. IsTrue (map.contains_key self.now.values n.0)) }
        ensures least { IfSome result (λ n.
            (q : ℕ) → ino < q → q < n.0 → map.contains_key self.now.values q ≡ false) }
        ensures none { IfNone result
            ((q : ℕ) → ino < q → map.contains_key self.now.values q ≡ false) }
    {
        self.order.next_after(&self.slab, ino, at)
    }
}
