//! The types that the crates of the layer share, the limits, and in `specs/` the plain machine
//! that everything is proved against.
#![tactic(auto)]

pub mod equality;
pub mod errno;
pub mod events;
pub mod file_list;
mod gathering;
pub mod ids;
pub mod items;
pub mod limits;
pub mod listing;
pub mod ready;
