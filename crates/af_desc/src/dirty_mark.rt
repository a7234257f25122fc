//! Whether a file is in the list of changed sockets.
ghost use Rattle.std.specs.Prelude.{◌≡◌, false, true};

use std::marker::Model;

/// Whether a file is dirty: in the list of sockets whose readiness may have changed. A contract
/// sees this alone.
#[derive(Drop)]
pub struct DirtyMark {
    /// Its position in that list, counted from 1: a hint. It is 0 where the file is not there.
    at: u32,
}

impl Model for DirtyMark {
    ghost use Rattle.std.specs.Prelude.{Bool, nat_lt};

    ghost Value = { Bool };

    ghost view = { λ a. nat_lt 0 a.at };
}

impl DirtyMark {
    /// Returns the mark of a file that is not dirty.
    #[inline(always)]
    pub fn clean() -> DirtyMark
        ensures { result ≡ false }
    {
        DirtyMark { at: 0 }
    }

    /// Returns the mark of a dirty file, with its position in the list: a hint.
    #[inline(always)]
    pub fn listed(index: u32) -> DirtyMark
        ensures { result ≡ true }
    {
        DirtyMark {
            at: index.saturating_add(1),
        }
    }

    /// Returns whether the file is dirty.
    #[inline(always)]
    pub fn is_dirty(&self) -> bool
        ensures { result ≡ self.now }
    {
        self.at > 0
    }

    /// Returns the file's position in the list: a hint.
    #[inline(always)]
    pub fn index(&self) -> usize {
        self.at.saturating_sub(1) as usize
    }

    /// Sets the file's position in the list, if it is dirty.
    #[inline(always)]
    pub fn set_index(&mut self, index: u32)
        ensures { self.new ≡ self.old }
    {
        if self.at > 0 {
            self.at = index.saturating_add(1);
        }
    }
}
