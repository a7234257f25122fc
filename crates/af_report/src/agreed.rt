//! Numbers that were compared with a recount.
ghost use Rattle.std.specs.Prelude.{◌≡◌, ◌↔◌, ℕ, IfSome, IsSome, length};
ghost use Rattle.af_plain.specs.Agreement.{AreRecounts};

use af_base::listing::Listing;
use af_plain::{Kept, agrees};
use std::marker::Model;

/// That all numbers handed to [`Agreed::of`] are the recounts: nothing else makes one, so what
/// takes it cannot be called where the comparison was left out. A contract sees it as the number of
/// files that were compared.
#[derive(Drop)]
pub struct Agreed {
    files: usize,
}

impl Model for Agreed {
    ghost Value = { ℕ };

    ghost view = { λ a. a.files };
}

impl Agreed {
    /// Compares the numbers with the recounts over the listing; `None` where one differs.
    pub fn of(listing: &Listing, kept: &Kept) -> Option<Agreed>
        ensures agree { IsSome result ↔ AreRecounts listing.now kept.now }
        ensures files { IfSome result (λ a. a ≡ length kept.now.files.items) }
    {
        if !agrees(listing, kept) {
            return None;
        }
        Some(Agreed {
            files: kept.files.len(),
        })
    }

    /// Returns how many files were compared.
    pub fn files(&self) -> usize
        ensures { result ≡ self.now }
    {
        self.files
    }
}
