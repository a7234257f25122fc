//! One lock around an engine, a log of all that was done, and seats that each keep their part.
//!
//! A [`Layer`] is opened with a number of seats. Each thread takes a [`Seat`] and makes calls
//! through the layer: a call waits for the lock, does one event, and puts it with its reply into
//! the log ([`Book`]) and into the seat's own list. [`Layer::close`] compares all lists with the
//! log. [`drive`] runs scripts, and a collector beside them, each from a seat and in a thread of
//! its own. A [`Shared`] is any value behind the same lock, without log and seats.
#![tactic(auto)]

mod audit;
mod backoff;
mod book;
mod checkpoint;
mod driving;
mod entry;
mod layer;
mod origin;
mod room;
mod seat;
mod shared;
mod short;
mod taken;
mod workers;

pub use audit::CloseFault;
pub use book::{Book, CallError};
pub use driving::{DriveError, DriveFault, drive};
pub use entry::{Entry, EventReply};
pub use layer::{CloseError, Closed, Layer, OpenError};
pub use origin::{AtCheckpoint, BookFrom, Fresh, Origin};
pub use seat::Seat;
pub use shared::Shared;
pub use taken::{taken_logs_are_one, taken_parts_are_one};
pub use workers::{Gate, OpenGate, Turns};
