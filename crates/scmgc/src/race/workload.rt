//! The workload of a race: what each worker asks of the layer, drawn from a seed.
//!
//! A caller wants [`make_script`], or a [`Source`], which makes it in parts. The script has an
//! opening, which makes a listener and a pair of sockets. Then come an event for each word of a
//! generator, by the table of `event_of_word` (`table`), and the worker's exit.

mod script;
mod source;
mod table;

pub use script::{MAX_STEPS, MIN_STEPS, make_script};
pub use source::Source;
pub use table::MAX_WORKERS;
