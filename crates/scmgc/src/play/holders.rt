//! The places that hold files.

use af_base::ids::{Fd, Ino, Pid};
use af_base::listing::{ListedFile, ListedTable};
use std::alloc::{AllocError, Global};

/// A place that holds a file.
#[derive(Clone, Copy)]
pub enum Holder {
    /// An open descriptor of a process.
    Descriptor(Pid, Fd),
    /// The queue of a socket: the file is attached to a message there.
    Queue(Ino),
    /// The backlog of a listener: the file is an embryo that waits there.
    Backlog(Ino),
}

/// A file, and a place that holds it.
#[derive(Clone, Copy)]
pub struct HeldFile {
    /// The file.
    pub ino: Ino,
    /// The place.
    pub by: Holder,
}

/// Appends the descriptors of a process.
fn push_table(list: &mut Vec<HeldFile>, table: &ListedTable) -> Result<(), AllocError> {
    for number in &table.numbers {
        list.push(HeldFile {
            ino: number.ino,
            by: Holder::Descriptor(table.pid, number.fd),
        })?;
    }
    Ok(())
}

/// Appends the files that wait at a file: in its queue, and in its backlog.
fn push_waiting(list: &mut Vec<HeldFile>, file: &ListedFile) -> Result<(), AllocError> {
    let Some(socket) = &file.socket else {
        return Ok(());
    };
    for message in &socket.queue {
        for ino in &message.attached {
            list.push(HeldFile {
                ino: *ino,
                by: Holder::Queue(file.ino),
            })?;
        }
    }
    for ino in &socket.backlog {
        list.push(HeldFile {
            ino: *ino,
            by: Holder::Backlog(file.ino),
        })?;
    }
    Ok(())
}

/// Appends the places in the tables, then those in the queues and backlogs.
fn push_places(
    list: &mut Vec<HeldFile>,
    tables: &[ListedTable],
    files: &[ListedFile],
) -> Result<(), AllocError> {
    for table in tables {
        push_table(list, table)?;
    }
    for file in files {
        push_waiting(list, file)?;
    }
    Ok(())
}

/// Returns all places, by the number of the file that they hold. Of one file, descriptors come
/// first, then queues and backlogs, each by rising numbers. An embryo has one place, a backlog.
pub fn places_of(
    alloc: Global,
    tables: &[ListedTable],
    files: &[ListedFile],
) -> Result<Vec<HeldFile>, AllocError> {
    let mut list = Vec::new(alloc);
    push_places(&mut list, tables, files)?;
    list.sort_by_key(|held| held.ino.0)?;
    Ok(list)
}
