//! Numbers with types of their own. A contract sees each as its number.
ghost use Rattle.std.specs.Prelude.{◌≡◌, ◌≤◌, IsTrue};

use crate::limits::MAX_INO;
use std::fmt;
use std::marker::Model;

/// The inode number of an open file description. It is never used again.
#[derive(Clone, Copy, Debug, Default, PartialEq, Eq, PartialOrd, Ord, Hash)]
pub struct Ino(pub u64);

impl Model for Ino {
    ghost use Rattle.std.specs.Prelude.{ℕ};

    ghost Value = { ℕ };

    ghost view = { λ a. a.0 };

    ghost inverse = { λ n. record { 0 = n } };
}

impl fmt::Display for Ino {
    ghost use Rattle.std.specs.Prelude.{Some};
    ghost use Rattle.std.specs.Prelude.{decimal};

    ghost output = { λ x. Some (decimal x) };

    fn fmt<W: fmt::Write>(&self, f: &mut fmt::Formatter<W>) -> fmt::Result {
        let number = self.0;
        write!(f, "{number}")
    }
}

/// The number of keys that a `FileRef` tells apart.
const KEYS: u64 = 1 << 16;

/// A file, and the key under which its row was found. A contract sees the number alone: the key is
/// a hint, and each use of it compares the number.
#[derive(Debug, Default, Drop)]
pub struct FileRef {
    /// The number times `KEYS`, plus the key: tables and messages have one word for each file.
    word: u64,
}

impl Model for FileRef {
    ghost use Rattle.std.specs.Prelude.{ℕ, ◌/◌};
    ghost use Rattle.af_base.specs.declared.ids.TheConstants.{KEYS};

    ghost Value = { ℕ };

    ghost view = { λ a. a.word / KEYS };
}

impl FileRef {
    /// Makes a reference to the file numbered `ino`, whose row has the key `key`. A key of `KEYS`
    /// or more is cut, and leads to a search.
    #[inline(always)]
    pub fn new(ino: Ino, key: usize) -> FileRef
        requires { ino ≤ MAX_INO }
        ensures { result ≡ ino }
    {
        FileRef {
            word: ino.0 * KEYS + key as u64 % KEYS,
        }
    }

    /// Returns its number.
    #[inline(always)]
    pub fn ino(&self) -> Ino
        ensures { result ≡ self.now }
    {
        Ino(self.word / KEYS)
    }

    /// Returns the key under which the row was found. No contract rests on it.
    #[inline(always)]
    pub fn key(&self) -> usize {
        (self.word % KEYS) as usize
    }

    /// Returns whether both have the same number and key, by one comparison.
    #[inline(always)]
    pub fn is_same(&self, other: &FileRef) -> bool
        ensures { IsTrue result → self.now ≡ other.now }
    {
        self.word == other.word
    }

    /// Returns another reference to the same file.
    #[inline(always)]
    pub fn duplicate(&self) -> FileRef
        ensures { result ≡ self.now }
    {
        FileRef { word: self.word }
    }
}

/// The number of a process.
#[derive(Clone, Copy, Debug, Default, PartialEq, Eq, PartialOrd, Ord, Hash)]
pub struct Pid(pub u32);

impl Model for Pid {
    ghost use Rattle.std.specs.Prelude.{ℕ};

    ghost Value = { ℕ };

    ghost view = { λ a. a.0 };

    ghost inverse = { λ n. record { 0 = n } };
}

impl fmt::Display for Pid {
    ghost use Rattle.std.specs.Prelude.{Some};
    ghost use Rattle.std.specs.Prelude.{decimal};

    ghost output = { λ x. Some (decimal x) };

    fn fmt<W: fmt::Write>(&self, f: &mut fmt::Formatter<W>) -> fmt::Result {
        let number = self.0;
        write!(f, "{number}")
    }
}

/// The number of a user.
#[derive(Clone, Copy, Debug, Default, PartialEq, Eq, PartialOrd, Ord, Hash)]
pub struct Uid(pub u32);

impl Model for Uid {
    ghost use Rattle.std.specs.Prelude.{ℕ};

    ghost Value = { ℕ };

    ghost view = { λ a. a.0 };

    ghost inverse = { λ n. record { 0 = n } };
}

impl fmt::Display for Uid {
    ghost use Rattle.std.specs.Prelude.{Some};
    ghost use Rattle.std.specs.Prelude.{decimal};

    ghost output = { λ x. Some (decimal x) };

    fn fmt<W: fmt::Write>(&self, f: &mut fmt::Formatter<W>) -> fmt::Result {
        let number = self.0;
        write!(f, "{number}")
    }
}

/// A descriptor: a number in the table of a process.
#[derive(Clone, Copy, Debug, Default, PartialEq, Eq, PartialOrd, Ord, Hash)]
pub struct Fd(pub u32);

impl Model for Fd {
    ghost use Rattle.std.specs.Prelude.{ℕ};

    ghost Value = { ℕ };

    ghost view = { λ a. a.0 };

    ghost inverse = { λ n. record { 0 = n } };
}

impl fmt::Display for Fd {
    ghost use Rattle.std.specs.Prelude.{Some};
    ghost use Rattle.std.specs.Prelude.{decimal};

    ghost output = { λ x. Some (decimal x) };

    fn fmt<W: fmt::Write>(&self, f: &mut fmt::Formatter<W>) -> fmt::Result {
        let number = self.0;
        write!(f, "{number}")
    }
}
