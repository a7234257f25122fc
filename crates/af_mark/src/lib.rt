//! The mark of each file in a pass of the collector, and whether marks agree with the list of files
//! that are marked and still to be scanned.
#![tactic(auto)]

mod color;
mod mark;

pub use color::Color;
pub use mark::{Mark, clamp_index};
