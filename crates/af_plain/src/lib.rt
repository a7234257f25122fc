//! A second, independent count: each number is counted in the sorted places of a listing, and each
//! reach is found by a walk over its lists. It shares no walk and no count with the engine, so that
//! to compare the two compares two independent results.
#![tactic(auto)]

mod agreement;
mod counts;
pub mod laws;
mod reach;

pub use agreement::{Kept, KeptFile, KeptUser, agrees};
pub use counts::{recount_inflight, recount_refs, recount_total, recount_user};
pub use reach::{garbage, reached};
