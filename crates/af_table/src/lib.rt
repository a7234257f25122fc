//! The processes, and the files of their descriptors.
#![tactic(auto)]

mod bits;
mod hints;
mod listed;
mod process;
mod procs;

pub use process::{FreeFds, Process};
pub use procs::Procs;
