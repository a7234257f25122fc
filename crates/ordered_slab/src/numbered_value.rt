//! Values under keys, each with its number beside it.
ghost use Rattle.std.specs.Prelude.{◌≡◌, Some, IsTrue, false};
ghost use Rattle.std.specs.Option.{option_map};
ghost use Rattle.std.specs.FinMap as map;
ghost use Rattle.slab.specs.Slab as slots;
ghost use Rattle.ordered_slab.specs.SlabValues.{AreInPlace, keys_of};

use crate::row::OrderRow;
use af_base::ids::FileRef;
use slab::Slab;

/// A value with its number. The number tells whose value it is: a slab uses keys again.
#[derive(Drop)]
pub struct NumberedValue<T> {
    /// Its number, with its key.
    pub file: FileRef,
    /// The value of the number.
    pub value: T,
}

/// Returns whether the entry at `key` is that of `file`.
#[inline(always)]
pub fn stands_at<T>(slab: &Slab<NumberedValue<T>>, key: usize, file: &FileRef) -> bool
    ensures { IsTrue result → option_map (λ x. x.file) (slots.get slab.now key) ≡ Some file.now }
{
    match slab.get(key) {
        Some(entry) => entry.file.is_same(file),
        None => false,
    }
}

/// Returns whether the row's number has a value: whether the entry at the row's key is of that
/// number.
#[inline(always)]
#[tactic(auto, using(crate::proofs::SlabValues::finds))]
pub fn is_live<T>(slab: &Slab<NumberedValue<T>>, row: &OrderRow) -> bool
    requires { AreInPlace (keys_of slab.now) slab.now }
    ensures live { IsTrue result → map.get (keys_of slab.now) row.now.ino ≡ Some row.now.key }
    ensures dead { map.get (keys_of slab.now) row.now.ino ≡ Some row.now.key → IsTrue result }
{
    match slab.get(row.key()) {
        Some(entry) => entry.file.ino() == row.number(),
        None => false,
    }
}
