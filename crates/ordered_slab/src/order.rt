//! The order of numbers that only rise.
//!
//! A removal leaves the number's row, dead. A packing reads the rows from the front, and moves each
//! live one down over the dead ones. Between the packed rows and those not read yet lie old rows,
//! which are cut off once all are read.
ghost use Rattle.std.specs.Prelude.{◌≡◌, ℕ, ◌+◌, ◌^◌, ◌≤◌, ◌<◌, ◌++◌, ◌∷◌, [], length, true};
ghost use Rattle.std.specs.Prelude.{Some, IsTrue, IsSome, IfSome, IfNone, IsOk, OnOk, None};
ghost use Rattle.std.specs.FinMap as map;
ghost use Rattle.ordered_slab.specs.Rows.{row_at, Rise, HasRow, AreListed, KeepsLive};
ghost use Rattle.ordered_slab.specs.SlabValues.{AreInPlace, keys_of};

use crate::numbered_value::{NumberedValue, is_live, stands_at};
use crate::row::OrderRow;
use af_base::ids::{FileRef, Ino};
use af_base::limits::MAX_INO;
use slab::Slab;
use std::alloc::{AllocError, Global};
use std::marker::Model;
use std::mem;
use std::snapshot::Snapshot;

/// Packing begins if half of all rows are over `LEAST_DEAD` more than the live ones.
const LEAST_DEAD: usize = 32;

/// How many rows a packing reads for each new number: more than one, so that it comes to an end.
const PACKED_AT_ONCE: usize = 16;

/// Numbers in order, each with its key. A number whose value is removed leaves a dead row; the live
/// ones are packed a few at a time, so that each event has a bounded cost.
#[derive(Drop)]
pub struct Order {
    /// How many rows a packing has packed. Not beside `read`, or one store writes both, and the
    /// next row is read only when it is known whether the last one is live.
    packed: usize,
    /// All rows, rising, but for those from `packed` to `read`.
    rows: Vec<OrderRow>,
    /// How many rows a packing has read.
    read: usize,
    /// The last number that was pushed, 0 before the first: for contracts alone.
    last: Snapshot<Ino>,
}

impl Model for Order {
    ghost use Rattle.std.specs.Prelude.{◌-◌, ◌≤◌, ◌++◌, take, drop, vec_capacity, length};
    ghost use Rattle.ordered_slab.specs.OrderView.{OrderView};
    ghost use Rattle.ordered_slab.specs.Rows.{AllUpTo, Rise};

    ghost Value = { OrderView };

    ghost view = { λ a. record {
      rows = take a.packed a.rows.items ++ drop a.read a.rows.items;
      last = a.last.value;
      room = vec_capacity a.rows - length a.rows.items;
    } };

    ghost invariant = { λ a. Rise (take a.packed a.rows.items ++ drop a.read a.rows.items)
        × AllUpTo a.last.value (take a.packed a.rows.items ++ drop a.read a.rows.items)
        × (a.packed ≤ a.read) × (a.read ≤ length a.rows.items) };
}

impl Order {
    /// Makes an empty order. Takes no memory.
    pub fn new(alloc: Global) -> Order
        ensures rows { result.rows ≡ [] }
        ensures last { result.last ≡ 0 }
    {
        Order {
            packed: 0,
            rows: Vec::new(alloc),
            read: 0,
            last: Snapshot::of(&Ino(0)),
        }
    }

    /// Reserves room for `numbers` more numbers: then `push` needs no memory for them. Nothing else
    /// changes, also on an error.
    pub fn reserve(&mut self, numbers: usize) -> Result<(), AllocError>
        ensures same { self.new ≡ record self.old { room = self.new.room } }
        ensures ok { OnOk result (numbers ≤ self.new.room) }
        ensures room { self.old.room ≤ self.new.room }
        ensures succeeds { numbers ≤ self.old.room → IsOk result }
    {
        self.rows.reserve(numbers)
    }

    /// Returns how many more numbers there is room for.
    pub fn room(&self) -> usize
        ensures { result ≡ self.now.room }
    {
        self.rows.capacity() - self.rows.len()
    }

    /// Adds a number, above all earlier ones, with its key. There is room for it.
    #[inline(always)]
    pub fn push(&mut self, ino: Ino, key: usize)
        requires room { 0 < self.old.room }
        requires above { self.old.last < ino }
        requires number { ino ≤ MAX_INO }
        ensures rows { self.new.rows ≡ self.old.rows ++ record { ino = ino; key = key } ∷ [] }
        ensures new { (k : ℕ) → HasRow self.old.rows ino k → ⊥ }
        ensures last { self.new.last ≡ ino }
        ensures room { self.old.room ≤ self.new.room + 1 }
    {
        self.rows.push_reserved(OrderRow::new(ino, key));
        self.last = Snapshot::of(&ino);
    }

    /// Removes the last row if it is that of `file`, whose value was removed, and the one before
    /// it, if that is dead. So numbers that come and go in turn leave no rows.
    #[inline(always)]
    pub fn trim<T>(&mut self, slab: &Slab<NumberedValue<T>>, file: &FileRef)
        requires place { AreInPlace (keys_of slab.now) slab.now }
        requires gone { map.get (keys_of slab.now) file.now ≡ None }
        ensures kept { KeepsLive (keys_of slab.now) self.old.rows self.new.rows }
        ensures last { self.new.last ≡ self.old.last }
        ensures room { self.old.room ≤ self.new.room }
    {
        if self.read < self.rows.len() && self.rows[self.rows.len() - 1].number() == file.ino() {
            self.rows.take_last();
            self.pop_dead(slab);
        }
    }

    /// Removes the last row, if it is dead and no packing has read it.
    #[inline(always)]
    fn pop_dead<T>(&mut self, slab: &Slab<NumberedValue<T>>)
        requires place { AreInPlace (keys_of slab.now) slab.now }
        ensures kept { KeepsLive (keys_of slab.now) self.old.rows self.new.rows }
        ensures last { self.new.last ≡ self.old.last }
        ensures room { self.old.room ≤ self.new.room }
    {
        // Mostly no row is dead.
        if self.rows.len() > slab.len()
            && self.read < self.rows.len()
            && !is_live(slab, &self.rows[self.rows.len() - 1])
        {
            self.rows.take_last();
        }
    }

    /// Returns the key of `ino`, if it has a value, by a binary search.
    #[cold]
    #[inline(never)]
    pub fn key_of<T>(&self, slab: &Slab<NumberedValue<T>>, ino: Ino) -> Option<usize>
        requires place { AreInPlace (keys_of slab.now) slab.now }
        requires listed { AreListed self.now.rows (keys_of slab.now) }
        ensures key { result ≡ map.get (keys_of slab.now) ino }
        ensures number { IsSome result → ino ≤ MAX_INO }
    {
        match key_in(slab, &self.rows[..self.packed], ino) {
            Some(key) => Some(key),
            None => key_in(slab, &self.rows[self.read..], ino),
        }
    }

    /// Returns the least number above `ino` that has a value, if there is one, with its key as a
    /// hint, and the position behind it for the next call. `ino` need not be known. The position
    /// `at` is a hint.
    #[inline(always)]
    pub fn next_after<T>(
        &self,
        slab: &Slab<NumberedValue<T>>,
        ino: Ino,
        at: usize,
    ) -> Option<(FileRef, usize)>
        requires place { AreInPlace (keys_of slab.now) slab.now }
        requires listed { AreListed self.now.rows (keys_of slab.now) }
        ensures above { IfSome result (λ n. ino < n.0) }
        ensures there { IfSome result (λ n. IsTrue (map.contains_key (keys_of slab.now) n.0)) }
        ensures least { IfSome result (λ n.
            (q : ℕ) → ino < q → q < n.0 → map.get (keys_of slab.now) q ≡ None) }
        ensures none { IfNone result ((q : ℕ) → ino < q → map.get (keys_of slab.now) q ≡ None) }
    {
        // Mostly the position is right and the row there live: then one look is enough.
        if let Some(row) = self.next_at(ino, at)
            && stands_at(slab, row.file().key(), row.file())
        {
            return Some((row.file().duplicate(), at + 1));
        }
        match self.next_but_one(slab, ino, at) {
            Some(next) => Some(next),
            None => self.search_next(slab, ino, at),
        }
    }

    /// Returns the answer of `next_after` where the row at `at` is of the next number and dead, and
    /// the row behind it live: two sockets of a pair are often freed together.
    #[inline(always)]
    fn next_but_one<T>(
        &self,
        slab: &Slab<NumberedValue<T>>,
        ino: Ino,
        at: usize,
    ) -> Option<(FileRef, usize)>
        requires place { AreInPlace (keys_of slab.now) slab.now }
        requires listed { AreListed self.now.rows (keys_of slab.now) }
        ensures above { IfSome result (λ n. ino < n.0) }
        ensures there { IfSome result (λ n. IsTrue (map.contains_key (keys_of slab.now) n.0)) }
        ensures least { IfSome result (λ n.
            (q : ℕ) → ino < q → q < n.0 → map.get (keys_of slab.now) q ≡ None) }
    {
        if self.read > 0 || at >= self.rows.len().saturating_sub(1) {
            return None;
        }
        let (dead, next) = (&self.rows[at], &self.rows[at + 1]);
        if dead.number().0 - 1 != ino.0 || is_live(slab, dead) || !is_live(slab, next) {
            return None;
        }
        Some((next.file().duplicate(), at + 2))
    }

    /// Returns the first row above `ino`, if it is at the position `at`.
    #[inline(always)]
    fn next_at(&self, ino: Ino, at: usize) -> Option<&OrderRow>
        ensures above { IfSome result (λ row. ino < row.now.ino) }
        ensures least { IfSome result (λ row.
            (q k : ℕ) → HasRow self.now.rows q k → ino < q → row.now.ino ≤ q) }
        ensures position { IsSome result → at + 1 < 2 ^ 64 }
    {
        let row = self.rows.get(at)?;
        // Most numbers are consecutive.
        if row.number().0 - 1 == ino.0 || self.read == 0 && is_between(&self.rows, ino, at) {
            Some(row)
        } else {
            None
        }
    }

    /// Returns the answer of `next_after` by a search.
    #[inline(never)]
    fn search_next<T>(
        &self,
        slab: &Slab<NumberedValue<T>>,
        ino: Ino,
        at: usize,
    ) -> Option<(FileRef, usize)>
        requires place { AreInPlace (keys_of slab.now) slab.now }
        requires listed { AreListed self.now.rows (keys_of slab.now) }
        ensures above { IfSome result (λ n. ino < n.0) }
        ensures there { IfSome result (λ n. IsTrue (map.contains_key (keys_of slab.now) n.0)) }
        ensures least { IfSome result (λ n.
            (q : ℕ) → ino < q → q < n.0 → map.get (keys_of slab.now) q ≡ None) }
        ensures none { IfNone result ((q : ℕ) → ino < q → map.get (keys_of slab.now) q ≡ None) }
    {
        if let Some(next) = next_in(slab, &self.rows[..self.packed], ino, at) {
            return Some(next);
        }
        let at = at.saturating_sub(self.read);
        let (file, at) = next_in(slab, &self.rows[self.read..], ino, at)?;
        Some((file, at.saturating_add(self.read)))
    }

    /// Reads some rows for a packing, if one is due: dead rows leave, live ones stay. Takes no
    /// memory.
    #[inline(always)]
    pub fn pack<T>(&mut self, slab: &Slab<NumberedValue<T>>)
        requires place { AreInPlace (keys_of slab.now) slab.now }
        ensures kept { KeepsLive (keys_of slab.now) self.old.rows self.new.rows }
        ensures last { self.new.last ≡ self.old.last }
        ensures room { self.old.room ≤ self.new.room }
    {
        if self.read > 0 || self.rows.len() / 2 > slab.len().saturating_add(LEAST_DEAD) {
            self.pack_some(slab);
        }
    }

    /// Begins or continues a packing.
    #[inline(never)]
    fn pack_some<T>(&mut self, slab: &Slab<NumberedValue<T>>)
        requires place { AreInPlace (keys_of slab.now) slab.now }
        ensures kept { KeepsLive (keys_of slab.now) self.old.rows self.new.rows }
        ensures last { self.new.last ≡ self.old.last }
        ensures room { self.old.room ≤ self.new.room }
    {
        for _ in 0..PACKED_AT_ONCE {
            self.pack_row(slab);
        }
        if self.read == self.rows.len() {
            self.rows.truncate(self.packed);
            self.packed = 0;
            self.read = 0;
        }
    }

    /// Reads a row, if one is left: it moves a live one behind the packed ones, and drops a dead
    /// one.
    #[inline(always)]
    fn pack_row<T>(&mut self, slab: &Slab<NumberedValue<T>>)
        requires place { AreInPlace (keys_of slab.now) slab.now }
        ensures kept { KeepsLive (keys_of slab.now) self.old.rows self.new.rows }
        ensures last { self.new.last ≡ self.old.last }
        ensures room { self.old.room ≤ self.new.room }
    {
        let Some(row) = self.rows.get(self.read) else {
            return;
        };
        // No processor can guess whether it is live: a dead one is written too, the next one over
        // it.
        let live = is_live(slab, row);
        self.rows[self.packed] = row.duplicate();
        self.packed += usize::from(live);
        self.read += 1;
    }
}

/// Returns the key of `ino`, if it has a value and a row in `rows`.
fn key_in<T>(slab: &Slab<NumberedValue<T>>, rows: &[OrderRow], ino: Ino) -> Option<usize>
    requires place { AreInPlace (keys_of slab.now) slab.now }
    requires rise { Rise rows.now }
    ensures key { IfSome result (λ k. map.get (keys_of slab.now) ino ≡ Some k) }
    ensures none { IfNone result
        ((k : ℕ) → map.get (keys_of slab.now) ino ≡ Some k → HasRow rows.now ino k → ⊥) }
    ensures number { IsSome result → ino ≤ MAX_INO }
{
    match rows.binary_search_by_key(&ino.0, |row| row.number().0) {
        Ok(at) => {
            if is_live(slab, &rows[at]) {
                Some(rows[at].key())
            } else {
                None
            }
        }
        Err(_) => None,
    }
}

/// Returns the position of the first live row from `from` to `end`, or `end`.
#[inline(always)]
fn first_live<T>(slab: &Slab<NumberedValue<T>>, rows: &[OrderRow], from: usize, end: usize) -> usize
    requires place { AreInPlace (keys_of slab.now) slab.now }
    requires from { from ≤ end }
    requires end { end ≤ length rows.now }
    ensures from { from ≤ result }
    ensures end { result ≤ end }
    ensures dead { (j q k : ℕ) → from ≤ j → j < result
        → row_at rows.now j ≡ record { ino = q; key = k }
        → map.get (keys_of slab.now) q ≡ Some k → ⊥ }
    ensures live { result < end → map.get (keys_of slab.now) (row_at rows.now result).ino
        ≡ Some (row_at rows.now result).key }
{
    for at in from..end {
        if is_live(slab, &rows[at]) {
            return at;
        }
    }
    end
}

/// Returns the least number above `ino` that has a value and a row in `rows`, and the position
/// behind it. The position `at` is a hint.
#[inline(always)]
fn next_in<T>(
    slab: &Slab<NumberedValue<T>>,
    rows: &[OrderRow],
    ino: Ino,
    at: usize,
) -> Option<(FileRef, usize)>
    requires place { AreInPlace (keys_of slab.now) slab.now }
    requires rise { Rise rows.now }
    ensures above { IfSome result (λ n. ino < n.0) }
    ensures live { IfSome result (λ n. (k : ℕ) × (map.get (keys_of slab.now) n.0 ≡ Some k)
        × HasRow rows.now n.0 k) }
    ensures least { IfSome result (λ n. (q k : ℕ) → ino < q → q < n.0
        → map.get (keys_of slab.now) q ≡ Some k → HasRow rows.now q k → ⊥) }
    ensures none { IfNone result ((q k : ℕ) → ino < q
        → map.get (keys_of slab.now) q ≡ Some k → HasRow rows.now q k → ⊥) }
{
    // Mostly nothing is being packed.
    if rows.is_empty() {
        return None;
    }
    let from = rows_up_to(rows, ino, at);
    let at = first_live(slab, rows, from, rows.len());
    if at == rows.len() {
        return None;
    }
    Some((rows[at].file().duplicate(), at + 1))
}

/// Returns how many rows have a number up to `ino`. Tries the position `at` first. Most numbers are
/// consecutive, so next it computes the position from the number of the last row.
fn rows_up_to(rows: &[OrderRow], ino: Ino, at: usize) -> usize
    requires { Rise rows.now }
    ensures bound { result ≤ length rows.now }
    ensures up_to { (i : ℕ) → i < result → (row_at rows.now i).ino ≤ ino }
    ensures beyond { (i : ℕ) → result ≤ i → i < length rows.now → ino < (row_at rows.now i).ino }
{
    if is_between(rows, ino, at) {
        return at;
    }
    let number = ino.0;
    if let Some(last) = rows.last() {
        let above = last.number().0.saturating_sub(number);
        let until = rows.len().saturating_sub(above as usize);
        if is_between(rows, ino, until) {
            return until;
        }
    }
    rows.partition_point(|row| row.number().0 <= number)
}

/// Returns whether the row before the position `at` has a number up to `ino`, and the row at it one
/// above, as far as there are such rows.
#[inline(always)]
fn is_between(rows: &[OrderRow], ino: Ino, at: usize) -> bool
    requires { Rise rows.now }
    ensures bound { result ≡ true → at ≤ length rows.now }
    ensures up_to { result ≡ true → (i : ℕ) → i < at → (row_at rows.now i).ino ≤ ino }
    ensures beyond { result ≡ true
        → (i : ℕ) → at ≤ i → i < length rows.now → ino < (row_at rows.now i).ino }
{
    if at > rows.len() {
        return false;
    }
    if at > 0 && ino < rows[at - 1].number() {
        return false;
    }
    at == rows.len() || ino < rows[at].number()
}
