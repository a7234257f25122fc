//! The store: processes, files and their counts, and the collector beside them.
//!
//! Only calls of `Store` add or remove references. The engine makes these:
//!
//! - for new files: `open_at`, `socket_at`, `pair_at`, `make_embryo`
//! - for descriptors: `table_in`, `replace`, `take_embryo`, `close`
//! - for messages: `put_msg`, `take_msg`, `peek_msg`; `aim`, where what waits is lost
//! - for processes: `copy_for_fork`, `remove_process`
//! - for what is unreferenced, or garbage: `release`, `slice`, `collect`
//!
//! These are kept for callers of the crate alone: `make_plain`, `make_sock` and `make_two`, after
//! `room_for`; `put_embryo`; `close_at` and `table_out`, before `release`. So is the view `looked`.
#![tactic(auto)]

mod charges;
mod collector;
mod holdings;
mod listings;
mod marks;
mod passes;
mod places;
mod progress;
mod reads;
mod release;
mod shading;
mod sockets;
mod store;
mod tables;
mod units;
mod views;

pub use holdings::Holdings;
pub use store::Store;
