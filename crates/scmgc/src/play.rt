//! A script that is played line by line, for its author to see: each line with its number and its
//! answer beside it, and of a line that cannot be read why.
//!
//! A caller wants [`play`], [`Style`] and [`PlayFault`]. Each line is read and done as in a run
//! (`scm_run`). `own` has the lines that only a played script has, `who` the answer
//! to one, and `show` the layout.

mod answers;
mod fault;
mod help;
mod holders;
pub mod laws;
mod own;
mod session;
mod show;
mod who;

pub use fault::PlayFault;
pub use session::play;
pub use show::Style;
