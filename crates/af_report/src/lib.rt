//! The text of reports: the files of an engine, the charges of its users, a recount of it, and a
//! picture of it in the language of Graphviz.
//!
//! A report is made whole, of the engine at the call; `count` gives the numbers of a check without
//! a text. Each fails only if memory is refused.
#![tactic(auto)]

mod agreed;
mod columns;
pub mod escape;
mod file_lines;
pub mod laws;
mod picture;
mod recount;
mod user_lines;

pub use columns::{state_word, type_word};
pub use file_lines::table;
pub use picture::graph;
pub use recount::{Checked, check, count};
pub use user_lines::totals;
