//! Values that come and go, and the order of their numbers.
ghost use Rattle.std.specs.Prelude.{◌≡◌, ◌+◌, ◌≤◌, ◌<◌, false, IsOk, OnOk};
ghost use Rattle.std.specs.FinMap as map;
ghost use Rattle.slab.specs.Slab.{HasRoomFor, slab_len};
ghost use Rattle.ordered_slab.specs.Rows.{AreListed};
ghost use Rattle.ordered_slab.specs.SlabValues.{AreInPlace, keys_of, values_of};

use crate::numbered_value::{NumberedValue, stands_at};
use crate::order::Order;
use af_base::ids::{FileRef, Ino};
use af_base::limits::MAX_INO;
use slab::Slab;
use std::alloc::AllocError;

/// Reserves room for `values` more values: then `put` needs no memory for them. Changes no value,
/// also on an error.
#[inline(always)]
pub fn reserve<T>(
    order: &mut Order,
    slab: &mut Slab<NumberedValue<T>>,
    values: usize,
) -> Result<(), AllocError>
    ensures order { order.new ≡ record order.old { room = order.new.room } }
    ensures slab { slab.new ≡ record slab.old { capacity = slab.new.capacity } }
    ensures room { OnOk result (values ≤ order.new.room) }
    ensures slots { OnOk result (HasRoomFor slab.new values) }
    ensures more { order.old.room ≤ order.new.room }
    ensures capacity { slab.old.capacity ≤ slab.new.capacity }
    ensures succeeds { values ≤ order.old.room → HasRoomFor slab.old values → IsOk result }
{
    order.reserve(values)?;
    slab.reserve(values)
}

/// Adds a value, under a number above all earlier ones. There is room for it.
#[inline(always)]
#[tactic(auto, using(crate::proofs::SlabValues::comes_and_goes))]
pub fn put<T>(order: &mut Order, slab: &mut Slab<NumberedValue<T>>, ino: Ino, value: T) -> FileRef
    requires place { AreInPlace (keys_of slab.old) slab.old }
    requires listed { AreListed order.old.rows (keys_of slab.old) }
    requires room { 0 < order.old.room }
    requires slots { HasRoomFor slab.old 1 }
    requires above { order.old.last < ino }
    requires number { ino ≤ MAX_INO }
    ensures file { result ≡ ino }
    ensures values { values_of (keys_of slab.new) slab.new
        ≡ map.insert (values_of (keys_of slab.old) slab.old) ino value }
    ensures new { map.contains_key (values_of (keys_of slab.old) slab.old) ino ≡ false }
    ensures place { AreInPlace (keys_of slab.new) slab.new }
    ensures listed { AreListed order.new.rows (keys_of slab.new) }
    ensures last { order.new.last ≡ ino }
    ensures room { order.old.room ≤ order.new.room + 1 }
    ensures len { slab_len slab.new ≡ slab_len slab.old + 1 }
    ensures capacity { slab.new.capacity ≡ slab.old.capacity }
{
    order.pack(slab);
    let file = FileRef::new(ino, slab.vacant_key());
    let key = slab.insert_reserved(NumberedValue {
        file: file.duplicate(),
        value,
    });
    order.push(ino, key);
    file
}

/// Removes the value under the number of `file`, and returns it, if there is one. Takes no memory.
#[inline(always)]
#[tactic(auto, using(crate::proofs::SlabValues::comes_and_goes))]
pub fn take<T>(order: &mut Order, slab: &mut Slab<NumberedValue<T>>, file: &FileRef) -> Option<T>
    requires place { AreInPlace (keys_of slab.old) slab.old }
    requires listed { AreListed order.old.rows (keys_of slab.old) }
    ensures value { result ≡ map.get (values_of (keys_of slab.old) slab.old) file.now }
    ensures values { values_of (keys_of slab.new) slab.new
        ≡ map.remove (values_of (keys_of slab.old) slab.old) file.now }
    ensures place { AreInPlace (keys_of slab.new) slab.new }
    ensures listed { AreListed order.new.rows (keys_of slab.new) }
    ensures last { order.new.last ≡ order.old.last }
    ensures room { order.old.room ≤ order.new.room }
    ensures len { slab_len slab.new ≤ slab_len slab.old }
    ensures capacity { slab.new.capacity ≡ slab.old.capacity }
{
    let mut key = file.key();
    // Returns early, so that a right hint costs one look at the entry.
    if !stands_at(slab, key, file) {
        key = order.key_of(slab, file.ino())?;
    }
    let entry = slab.remove(key);
    order.trim(slab, file);
    Some(entry.value)
}
