//! The contents of a file, by one look at its row.
use af_base::ids::{FileRef, Uid};

/// The contents of a file, as far as one look at its row tells.
#[derive(Drop)]
pub enum Contents {
    /// No file.
    Nothing,
    /// This file alone.
    One(FileRef),
    /// Perhaps several files: it has a name, several messages of which one may have files, or one
    /// message with several files.
    Several,
}

/// What `Files::pop` removed.
#[derive(Drop)]
pub enum Popped {
    /// A message, for whose files this user was charged.
    Message(Uid),
    /// An embryo.
    Embryo(FileRef),
}
