//! A race: workers on one layer, each with a script of its own, and a collector beside them.
//!
//! A caller wants [`Race::run`], or [`LongRace::run`] where the log is taken at checkpoints. Each
//! starts a process for each worker, and lets all threads work. Then the children exit that the
//! workers forked, the pass that runs is ended, a last one is made over all that is left, and an
//! audit follows.

mod fault;
mod finish;
mod long;
mod outcome;
mod part;
mod start;
mod whole;
pub mod workload;

pub use fault::RaceFault;
pub use long::{LongRace, MAX_CHECKPOINT, MAX_LONG_STEPS};
pub use whole::Race;
