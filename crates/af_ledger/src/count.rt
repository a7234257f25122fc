//! The counts of one file.
ghost use Rattle.std.specs.Prelude.{◌≡◌, ◌+◌, ◌<◌, ◌^◌, nat_eq};
ghost use Rattle.af_ledger.specs.Counted.{uncounted, more, fewer, places_in, IsCountable};
ghost use Rattle.af_ledger.specs.Counted.{IsCounted};

use crate::place::Place;
use std::marker::Model;

/// One place in a queue, as it is counted. The bits below it count descriptors.
const IN_QUEUE: u64 = 1 << 21;

/// One place in a backlog, as it is counted.
const IN_BACKLOG: u64 = 1 << 42;

/// How many places hold a file: descriptors, places in queues, and places in backlogs. Each kind
/// has fewer than 2^21, so one word has all, and one comparison tells that there is none.
#[derive(Drop)]
pub struct Count {
    word: u64,
}

impl Model for Count {
    ghost use Rattle.std.specs.Prelude.{◌/◌, ◌%◌, ◌^◌};
    ghost use Rattle.af_ledger.specs.Counted.{CountView};

    ghost Value = { CountView };

    ghost view = { λ a. record {
      tabled = a.word % 2 ^ 21;
      inflight = a.word / 2 ^ 21 % 2 ^ 21;
      waiting = a.word / 2 ^ 42;
    } };
}

impl Count {
    /// Returns the counts of a file without places.
    #[inline(always)]
    pub fn none() -> Count
        ensures { result ≡ uncounted }
    {
        Count { word: 0 }
    }

    /// Returns a copy of the counts.
    #[inline(always)]
    pub fn duplicate(&self) -> Count
        ensures { result ≡ self.now }
    {
        Count { word: self.word }
    }

    /// Returns the number of descriptors that refer to the file.
    #[inline(always)]
    pub fn tabled(&self) -> u64
        ensures value { result ≡ self.now.tabled }
        ensures few { result < 2 ^ 21 }
    {
        self.word % IN_QUEUE
    }

    /// Returns the number of places in queues that hold the file.
    #[inline(always)]
    pub fn inflight(&self) -> u64
        ensures value { result ≡ self.now.inflight }
        ensures few { result < 2 ^ 21 }
    {
        self.word / IN_QUEUE % IN_QUEUE
    }

    /// Returns the number of all places.
    #[inline(always)]
    pub fn places(&self) -> u64
        ensures { result ≡ places_in self.now }
    {
        self.tabled() + self.inflight() + self.word / IN_BACKLOG
    }

    /// Returns whether there is no place.
    #[inline(always)]
    pub fn is_none(&self) -> bool
        ensures { result ≡ nat_eq (places_in self.now) 0 }
    {
        self.word == 0
    }

    /// Adds one place.
    #[inline(always)]
    pub fn add(&mut self, place: &Place)
        requires { IsCountable place.now self.old }
        ensures { self.new ≡ more place.now self.old }
    {
        match place {
            Place::Table => self.word += 1,
            Place::Queue(_) => self.word += IN_QUEUE,
            Place::Backlog => self.word += IN_BACKLOG,
        }
    }

    /// Removes one place.
    #[inline(always)]
    pub fn sub(&mut self, place: &Place)
        requires { IsCounted place.now self.old }
        ensures { self.new ≡ fewer place.now self.old }
    {
        match place {
            Place::Table => self.word -= 1,
            Place::Queue(_) => self.word -= IN_QUEUE,
            Place::Backlog => self.word -= IN_BACKLOG,
        }
    }
}
