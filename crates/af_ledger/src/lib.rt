//! How many places hold a file, and what each user is charged.
#![tactic(auto)]

mod count;
mod ledger;
mod place;

pub use count::Count;
pub use ledger::Ledger;
pub use place::Place;
