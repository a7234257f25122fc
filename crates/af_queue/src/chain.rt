//! A message in a table of messages, and the chain of one queue.
ghost use Rattle.std.specs.Prelude.{◌≡◌};

use crate::message::Msg;

/// A message, and the key of the next message of its queue.
#[derive(Drop)]
pub struct Node {
    pub message: Msg,
    pub next: u32,
}

/// The messages of one queue: the keys of the first and the last, and their number.
#[derive(Clone, Copy)]
pub struct Chain {
    pub first: u32,
    pub last: u32,
    pub len: u8,
    /// Whether a message may have attached files. If not, a search for files skips the queue.
    pub has_files: bool,
}

impl Chain {
    /// Makes the chain of an empty queue.
    pub fn empty() -> Chain
        ensures { result.len ≡ 0 }
    {
        Chain {
            first: 0,
            last: 0,
            len: 0,
            has_files: false,
        }
    }
}
