//! Messages in a queue, and what a receive takes from it (unix(7), recvmsg(2)).
#![tactic(auto)]

mod chain;
mod message;
pub mod pool;
mod queue;
mod taken;

pub use chain::{Chain, Node};
pub use message::{Attached, Msg};
pub use queue::{BATCH, Queue};
pub use taken::Taken;
