//! Plain lists of tables, queues and backlogs, for a recount.
ghost use Rattle.std.specs.Prelude.{◌≡◌, ℕ, IfOk, length};
ghost use Rattle.std.specs.List.Sorted.{IsNonDecreasing};
ghost use Rattle.af_base.specs.Counts.{charged, count_in, inflight, refs, total};
ghost use Rattle.af_base.specs.Listing.{AreTables, AreFiles, processes_of, files_of, listed};

use crate::gathering;
use crate::ids::{Fd, Ino, Pid, Uid};
use std::alloc::{AllocError, Global};
use std::marker::Model;

/// An open descriptor of a process, and its file.
#[derive(Clone, Copy, Debug, PartialEq, Eq)]
pub struct ListedNumber {
    /// The descriptor.
    pub fd: Fd,
    /// The file.
    pub ino: Ino,
}

/// The table of a process.
#[derive(Debug, Drop)]
pub struct ListedTable {
    /// The process.
    pub pid: Pid,
    /// Its open descriptors, rising.
    pub numbers: Vec<ListedNumber>,
}

/// The attached files of a message, and the user whom it is charged to.
#[derive(Debug, Drop)]
pub struct ListedMessage {
    /// The user who sent it.
    pub user: Uid,
    /// Its attached files, in order, repeats included.
    pub attached: Vec<Ino>,
}

/// The files that a socket holds.
#[derive(Debug, Drop)]
pub struct ListedSocket {
    /// The messages that it can receive, in order.
    pub queue: Vec<ListedMessage>,
    /// The embryos that wait to be accepted, in order.
    pub backlog: Vec<Ino>,
}

/// A live file.
#[derive(Debug, Drop)]
pub struct ListedFile {
    /// Its inode number.
    pub ino: Ino,
    /// The contents of a socket; a plain file has none.
    pub socket: Option<ListedSocket>,
}

/// The tables of all processes and all live files, at one moment. A contract sees it as a bare
/// world. Its places are kept sorted beside them, so that a count is a binary search.
#[derive(Debug, Drop)]
pub struct Listing {
    tables: Vec<ListedTable>,
    files: Vec<ListedFile>,
    held_files: Vec<Ino>,
    queued_files: Vec<Ino>,
    payers: Vec<Uid>,
}

impl Model for Listing {
    ghost use Rattle.std.specs.FinMap as map;
    ghost use Rattle.std.specs.Coded.{codes};
    ghost use Rattle.af_base.specs.World.{World};

    ghost Value = { World };

    ghost coded = { Prim.hlevel (codes, map.code) };

    ghost use Rattle.af_base.specs.Listing.{IsListing, listed};

    ghost view = { λ a. listed a.tables.items a.files.items };

    ghost invariant = { λ a. IsListing a.tables.items a.files.items a.held_files.items
        a.queued_files.items a.payers.items };
}

impl Listing {
    /// Lists `tables`, by rising pid, and `files`, by rising inode number. Takes memory for three
    /// lists of places, each sorted once.
    pub fn of(
        alloc: Global,
        tables: Vec<ListedTable>,
        files: Vec<ListedFile>,
    ) -> Result<Listing, AllocError>
        requires tables { AreTables tables.items }
        requires files { AreFiles files.items }
        ensures { IfOk result (λ l. l ≡ listed tables.items files.items) }
    {
        let held_files = gathering::held_files(alloc, tables.as_slice(), files.as_slice())?;
        let queued_files = gathering::queued_files(alloc, files.as_slice())?;
        let payers = gathering::payers(alloc, files.as_slice())?;
        Ok(Listing {
            tables,
            files,
            held_files,
            queued_files,
            payers,
        })
    }

    /// Returns the tables, by rising pid.
    pub fn tables(&self) -> &[ListedTable]
        ensures value { self.now.processes ≡ processes_of result.now }
        ensures ordered { AreTables result.now }
    {
        self.tables.as_slice()
    }

    /// Returns the live files, by rising inode number.
    pub fn files(&self) -> &[ListedFile]
        ensures value { self.now.files ≡ files_of result.now }
        ensures ordered { AreFiles result.now }
    {
        self.files.as_slice()
    }

    /// Returns the file of each place, in tables, queues and backlogs, rising: a file occurs once
    /// for each place that holds it.
    pub fn held_files(&self) -> &[Ino]
        ensures rising { IsNonDecreasing result.now }
        ensures each { (f : ℕ) → count_in f result.now ≡ refs self.now f }
    {
        self.held_files.as_slice()
    }

    /// Returns the file of each place in a queue, rising: a file occurs once for each such place.
    pub fn queued_files(&self) -> &[Ino]
        ensures rising { IsNonDecreasing result.now }
        ensures each { (f : ℕ) → count_in f result.now ≡ inflight self.now f }
        ensures all { length result.now ≡ total self.now }
    {
        self.queued_files.as_slice()
    }

    /// Returns the user whom each place in a queue is charged to, rising: a user occurs once for
    /// each file attached to a message of theirs.
    pub fn payers(&self) -> &[Uid]
        ensures rising { IsNonDecreasing result.now }
        ensures each { (u : ℕ) → count_in u result.now ≡ charged self.now u }
    {
        self.payers.as_slice()
    }
}
