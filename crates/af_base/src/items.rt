//! A list of which a few items lie in the value. A contract sees the list of its items.
ghost use Rattle.std.specs.Prelude.{◌≡◌, ◌↔◌, ◌+◌, ◌≤◌, ◌∷◌, ◌++◌, [], drop, length, take};
ghost use Rattle.std.specs.Prelude.{IfOk, IsTrue, OnErr, OnOk};

use crate::ids::Fd;
use smallvec::SmallVec;
use std::alloc::{AllocError, Global};
use std::default::MadeWith;
use std::marker::Model;

/// The bytes of a message or of a name: up to 16 lie in the value.
pub type Bytes = Items<u8, 16>;

/// The descriptors that go with a message: up to 4 lie in the value.
pub type Fds = Items<Fd, 4>;

/// Items in order. Up to `N` lie in the value, and more in an allocation.
#[derive(Debug)]
pub struct Items<T, const N: usize> {
    items: SmallVec<T, N>,
}

/// It is written out, and not derived: so an owner's proof has one call where it drops a list, and
/// no case for each place where items may lie.
impl<T: Drop, const N: usize> Drop for Items<T, N> {
    #[inline(always)]
    fn drop(self) {
        let Items { items: _ } = self;
    }
}

impl<T, const N: usize> Model for Items<T, N> {
    ghost use Rattle.std.specs.Prelude.{List};

    ghost Value = { List T };

    ghost view = { λ a. a.items.items };
}

impl<T, const N: usize> Items<T, N> {
    /// Makes a list of `items`. Takes no memory.
    #[inline(always)]
    pub fn of_small(items: SmallVec<T, N>) -> Items<T, N>
        ensures { result ≡ items.items }
    {
        Items { items }
    }

    /// Returns all items, in order.
    #[inline(always)]
    pub fn as_slice(&self) -> &[T]
        ensures { result.now ≡ self.now }
    {
        self.items.as_slice()
    }

    /// Returns how many items there are.
    #[inline(always)]
    pub fn len(&self) -> usize
        ensures { result ≡ length self.now }
    {
        self.items.len()
    }

    /// Returns whether there is no item.
    pub fn is_empty(&self) -> bool
        ensures { IsTrue result ↔ (self.now ≡ []) }
    {
        self.items.is_empty()
    }
}

impl<T: MadeWith<Global> + Copy, const N: usize> Items<T, N> {
    /// Makes a list of `items`. Takes no memory.
    pub fn of(items: Vec<T>) -> Items<T, N>
        ensures { result ≡ items.items }
    {
        Items {
            items: SmallVec::from_vec(items),
        }
    }

    /// Returns the items as a vector. Takes memory only if they lie in the value.
    pub fn into_vec(self) -> Result<Vec<T>, AllocError>
        ensures { IfOk result (λ v. v.items ≡ self) }
    {
        let Items { items } = self;
        items.into_vec().map_err(|_| AllocError)
    }

    /// Makes an empty list. Takes no memory.
    #[inline(always)]
    pub fn new(alloc: Global) -> Items<T, N>
        ensures { result ≡ [] }
    {
        Items {
            items: SmallVec::new(alloc),
        }
    }

    /// Appends an item. Takes memory only if it does not fit.
    #[inline(always)]
    pub fn push(&mut self, item: T) -> Result<(), AllocError>
        ensures ok { OnOk result (self.new ≡ self.old ++ item ∷ []) }
        ensures err { OnErr result (self.new ≡ self.old) }
    {
        if self.items.len() == self.items.capacity() {
            self.items.reserve(1)?;
        }
        self.items.push_reserved(item);
        Ok(())
    }

    /// Appends copies of `items`. Takes memory only if they do not fit.
    #[inline(always)]
    pub fn extend_from_slice(&mut self, items: &[T]) -> Result<(), AllocError>
        ensures ok { OnOk result (self.new ≡ self.old ++ items.now) }
        ensures err { OnErr result (self.new ≡ self.old) }
    {
        self.items.extend_from_slice(items)
    }

    /// Keeps `count` items from the position `from` on, and drops the others. Takes no memory.
    #[inline(always)]
    pub fn keep(&mut self, from: usize, count: usize)
        requires { from + count ≤ length self.old }
        ensures { self.new ≡ take count (drop from self.old) }
    {
        if count < self.len() {
            self.items.as_mut_slice().copy_within(from..from + count, 0);
            self.items.truncate(count);
        }
    }
}

impl<T: PartialEq, const N: usize> PartialEq for Items<T, N> {
    ghost use Rattle.std.specs.Cmp.Lexicographic.{pointwise, lists_per};

    ghost eq = { λ x y. pointwise T.eq x y };

    ghost laws = { lists_per T.laws };

    fn eq(&self, other: &Self) -> bool {
        self.as_slice() == other.as_slice()
    }
}

impl<T: Eq, const N: usize> Eq for Items<T, N> {
    ghost use Rattle.std.specs.Cmp.Lexicographic.{lists_equiv};

    ghost laws = { lists_equiv T.Eq.laws };
}

/// A copy has the same items. It takes no memory if they fit in the value.
impl<T: MadeWith<Global> + Copy, const N: usize> Clone for Items<T, N> {
    ghost is_clone = { λ x y. y ≡ x };

    fn clone(&self) -> Result<Items<T, N>, AllocError> {
        let items = SmallVec::from_slice(*self.items.allocator(), self.as_slice())?;
        Ok(Items { items })
    }
}
