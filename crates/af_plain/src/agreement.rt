//! Whether numbers that were kept are the recounts.
ghost use Rattle.std.specs.Prelude.{◌↔◌, IsTrue};
ghost use Rattle.std.specs.List.{All};
ghost use Rattle.af_plain.specs.Agreement.{AreRecounts, IsFileRecount, IsUserRecount};

use crate::counts::{recount_inflight, recount_refs, recount_total, recount_user};
use af_base::ids::{Ino, Uid};
use af_base::listing::Listing;

/// The numbers that are kept of a file.
#[derive(Clone, Copy)]
pub struct KeptFile {
    /// Its inode number.
    pub ino: Ino,
    /// How many places hold it.
    pub refs: u64,
    /// How many places of queues hold it.
    pub inflight: u64,
}

/// The number that is kept of a user.
#[derive(Clone, Copy)]
pub struct KeptUser {
    /// The user.
    pub user: Uid,
    /// How many places of queues are charged to it.
    pub charged: u64,
}

/// All numbers that are kept.
#[derive(Drop)]
pub struct Kept {
    /// Those of files, in any order.
    pub files: Vec<KeptFile>,
    /// Those of users, in any order.
    pub users: Vec<KeptUser>,
    /// How many places all queues have.
    pub total: u64,
}

/// Returns whether the numbers that are kept of the file are its recounts.
fn file_agrees(listing: &Listing, kept: &KeptFile) -> bool
    ensures { IsTrue result ↔ IsFileRecount listing.now kept.now }
{
    recount_refs(listing, kept.ino) == kept.refs
        && recount_inflight(listing, kept.ino) == kept.inflight
}

/// Returns whether the number that is kept of the user is its recount.
fn user_agrees(listing: &Listing, kept: &KeptUser) -> bool
    ensures { IsTrue result ↔ IsUserRecount listing.now kept.now }
{
    recount_user(listing, kept.user) == kept.charged
}

/// Returns whether all numbers that are kept of files are their recounts.
fn files_agree(listing: &Listing, kept: &[KeptFile]) -> bool
    ensures { IsTrue result ↔ All (IsFileRecount listing.now) kept.now }
{
    for file in kept {
        if !file_agrees(listing, file) {
            return false;
        }
    }
    true
}

/// Returns whether all numbers that are kept of users are their recounts.
fn users_agree(listing: &Listing, kept: &[KeptUser]) -> bool
    ensures { IsTrue result ↔ All (IsUserRecount listing.now) kept.now }
{
    for user in kept {
        if !user_agrees(listing, user) {
            return false;
        }
    }
    true
}

/// Returns whether each kept count is its recount over the listing. Takes no memory.
pub fn agrees(listing: &Listing, kept: &Kept) -> bool
    ensures { IsTrue result ↔ AreRecounts listing.now kept.now }
{
    files_agree(listing, kept.files.as_slice())
        && users_agree(listing, kept.users.as_slice())
        && recount_total(listing) == kept.total
}
