//! Names and backlogs of listeners: which socket has which name, and the embryos to be accepted
//! (unix(7), listen(2)).
#![tactic(auto)]

mod backlog;
mod name_sets;
mod names;

pub use backlog::Backlog;
pub use name_sets::NameSets;
pub use names::Names;
