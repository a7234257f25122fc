//! The run of a script: its lines are read, done and answered, one after another.
//!
//! A caller wants [`run_script`] and [`RunFault`]. Each line is read by `scm_lines`,
//! done by an engine of `af_steps` (`line`), and its text, of a reply (`text`) or of a report
//! (`af_report`), is made whole and gathered: it is written before the next read (`gather`).
//! An event is read, done by a typed call, and answered as text (`steps`, `outcome`).
//! A [`Watched`] stream remembers whether it failed, so a fault says which one did (`watched`).
#![tactic(auto)]

mod fault;
mod gather;
mod line;
mod outcome;
mod run;
mod steps;
mod text;
mod watched;
mod writes;

pub use fault::RunFault;
pub use line::answer;
pub use run::{run_script, without_return};
pub use text::MAX_REPLY_LINE;
pub use watched::Watched;
pub use writes::{WriteFailed, write_whole};
