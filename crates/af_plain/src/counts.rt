//! The recounts over a whole listing, each by a binary search in its sorted places. None takes
//! memory, and an unknown number is counted 0 times.
ghost use Rattle.std.specs.Prelude.{◌≡◌};
ghost use Rattle.std.specs.List.Sorted.{IsNonDecreasing};
ghost use Rattle.af_base.specs.Counts.{refs, inflight, charged, total, count_in};

use af_base::ids::{Ino, Uid};
use af_base::listing::Listing;

/// Returns how often the file is in the list, which rises.
fn times(sorted: &[Ino], ino: Ino) -> u64
    requires { IsNonDecreasing sorted.now }
    ensures { result ≡ count_in ino sorted.now }
{
    let number = ino.0;
    let from = sorted.partition_point(|other| other.0 < number);
    let to = sorted.partition_point(|other| other.0 <= number);
    (to - from) as u64
}

/// Returns how often the user is in the list, which rises.
fn times_charged(sorted: &[Uid], user: Uid) -> u64
    requires { IsNonDecreasing sorted.now }
    ensures { result ≡ count_in user sorted.now }
{
    let number = user.0;
    let from = sorted.partition_point(|other| other.0 < number);
    let to = sorted.partition_point(|other| other.0 <= number);
    (to - from) as u64
}

/// Returns how many places hold the file, in tables, queues and backlogs: its reference count.
pub fn recount_refs(listing: &Listing, ino: Ino) -> u64
    ensures { result ≡ refs listing.now ino }
{
    times(listing.held_files(), ino)
}

/// Returns how many places of all queues hold the file: its in-flight count.
pub fn recount_inflight(listing: &Listing, ino: Ino) -> u64
    ensures { result ≡ inflight listing.now ino }
{
    times(listing.queued_files(), ino)
}

/// Returns how many places of all queues are in messages of the user: its charge.
pub fn recount_user(listing: &Listing, user: Uid) -> u64
    ensures { result ≡ charged listing.now user }
{
    times_charged(listing.payers(), user)
}

/// Returns how many places all queues have: the charge of all users together.
pub fn recount_total(listing: &Listing) -> u64
    ensures { result ≡ total listing.now }
{
    listing.queued_files().len() as u64
}
