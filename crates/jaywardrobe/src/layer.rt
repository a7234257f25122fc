//! An engine with a log of all calls: threads call from seats, each of which lists what it was
//! answered, and an audit compares these lists with the log.
//!
//! ```text
//! /// Opens two files from two threads, and returns the engine after its audit.
//! fn open_twice<R: Threads + Wait + Sync>(rt: &R, alloc: Global) -> Option<Book> {
//!     let (layer, mut seats) = Layer::open(alloc, 2).ok()?;
//!     let spawn = Event::Spawn { uid: Uid(1_000), nofile: 16, privileged: false };
//!     layer.call(rt, seats.first_mut()?, spawn).ok()?;
//!     let mut scripts = Vec::new(alloc);
//!     for _ in 0..2 {
//!         scripts.push(vec![in alloc; Event::Proc(Pid(1), Step::Open)].ok()?).ok()?;
//!     }
//!     let seats = drive(rt, &layer, seats, scripts, None, &OpenGate).ok()?;
//!     let closed = layer.close(seats).ok()?;
//!     Some(closed.book)
//! }
//! ```
pub use af_layer::{
    AtCheckpoint, Book, BookFrom, CallError, CloseError, CloseFault, Closed, DriveError,
    DriveFault, Entry, EventReply, Fresh, Gate, Layer, OpenError, OpenGate, Origin, Seat, Turns,
    drive, taken_logs_are_one, taken_parts_are_one,
};
