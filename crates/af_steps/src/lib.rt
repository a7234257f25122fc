//! The engine: one event after another, each with its reply.
//!
//! The state is in a store (`af_collect`), whose calls keep all counts; the events are here. Each
//! looks up, is refused in order, makes room, changes references, releases, and answers. Where no
//! file is unreferenced, a release is one look.
#![tactic(auto)]

pub mod calls;
mod engine;
mod lookups;
mod messages;
mod passes;
mod ready;
mod sockets;
mod tables;
mod told;
mod views;

pub use af_desc::ToldList;
pub use calls::{Answer, Call};
pub use engine::{Engine, RunStopped};
pub use messages::Received;
pub use passes::{Finished, Progress};
pub use views::FileInfo;
