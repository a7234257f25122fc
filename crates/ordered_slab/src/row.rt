//! Rows of the order.
ghost use Rattle.std.specs.Prelude.{◌≡◌, ◌≤◌, ◌<◌};

use af_base::ids::{FileRef, Ino};
use af_base::limits::MAX_INO;
use std::marker::Model;

/// A number and the key of its value. A row is dead once its number has no value.
#[derive(Drop)]
pub struct OrderRow {
    /// The number, with the key as a hint, as a walk returns it.
    file: FileRef,
    /// The key, whole: the reference has only its low bits.
    key: usize,
}

impl Model for OrderRow {
    ghost use Rattle.std.specs.Prelude.{◌≤◌, ◌<◌};
    ghost use Rattle.af_base.specs.declared.limits.TheConstants.{MAX_INO};
    ghost use Rattle.ordered_slab.specs.OrderView.{OrderRowView};

    ghost Value = { OrderRowView };

    ghost view = { λ a. record { ino = a.file; key = a.key } };

    ghost invariant = { λ a. (0 < a.file) × (a.file ≤ MAX_INO) };
}

impl OrderRow {
    /// Makes the row of a number.
    #[inline(always)]
    pub fn new(ino: Ino, key: usize) -> OrderRow
        requires some { 0 < ino }
        requires number { ino ≤ MAX_INO }
        ensures { result ≡ record { ino = ino; key = key } }
    {
        let file = FileRef::new(ino, key);
        OrderRow { file, key }
    }

    /// Returns its number, which is not 0.
    #[inline(always)]
    pub fn number(&self) -> Ino
        ensures number { result ≡ self.now.ino }
        ensures some { 0 < result }
    {
        self.file.ino()
    }

    /// Returns its key.
    #[inline(always)]
    pub fn key(&self) -> usize
        ensures key { result ≡ self.now.key }
        ensures number { self.now.ino ≤ MAX_INO }
    {
        self.key
    }

    /// Returns a reference to its number, with its key as a hint.
    #[inline(always)]
    pub fn file(&self) -> &FileRef
        ensures { result.now ≡ self.now.ino }
    {
        &self.file
    }

    /// Returns a copy of this row.
    #[inline(always)]
    pub fn duplicate(&self) -> OrderRow
        ensures { result ≡ self.now }
    {
        OrderRow {
            file: self.file.duplicate(),
            key: self.key,
        }
    }
}
