//! The places of plain lists, gathered and sorted: in such a list a binary search counts.
ghost use Rattle.std.specs.Prelude.{◌≡◌, ◌++◌, [], IfOk, OnOk, length};
ghost use Rattle.std.specs.List.{flat_map};
ghost use Rattle.af_base.specs.Counts.{refs, inflight, charged, total};
ghost use Rattle.af_base.specs.Listing.{AreFiles, AreTables, IsTally, file_of, inos_of, listed};
ghost use Rattle.af_base.specs.Listing.{message_of, payers_of};
ghost use Rattle.af_base.specs.Places.{attached_in, contents, queue_of};

use crate::ids::{Ino, Uid};
use crate::listing::{ListedFile, ListedMessage, ListedTable};
use std::alloc::{AllocError, Global};

/// Appends the files that the table's descriptors refer to.
fn push_inos(inos: &mut Vec<Ino>, table: &ListedTable) -> Result<(), AllocError>
    ensures { OnOk result (inos.new.items ≡ inos.old.items ++ inos_of table.now) }
{
    for number in &table.numbers {
        inos.push(number.ino)?;
    }
    Ok(())
}

/// Appends the files attached to the messages of the file's queue.
fn push_queued(inos: &mut Vec<Ino>, file: &ListedFile) -> Result<(), AllocError>
    ensures { OnOk result
        (inos.new.items ≡ inos.old.items ++ attached_in (queue_of (file_of file.now))) }
{
    let Some(socket) = &file.socket else {
        return Ok(());
    };
    for message in &socket.queue {
        inos.extend_from_slice(message.attached.as_slice())?;
    }
    Ok(())
}

/// Appends the files that the file holds.
fn push_contents(inos: &mut Vec<Ino>, file: &ListedFile) -> Result<(), AllocError>
    ensures { OnOk result (inos.new.items ≡ inos.old.items ++ contents (file_of file.now)) }
{
    push_queued(inos, file)?;
    let Some(socket) = &file.socket else {
        return Ok(());
    };
    inos.extend_from_slice(socket.backlog.as_slice())
}

/// Appends the user whom the message is charged to, once for each attached file.
fn push_payer(payers: &mut Vec<Uid>, message: &ListedMessage) -> Result<(), AllocError>
    ensures { OnOk result
        (payers.new.items ≡ payers.old.items ++ payers_of (message_of message.now)) }
{
    for _ino in &message.attached {
        payers.push(message.user)?;
    }
    Ok(())
}

/// Appends the users whom the queue of the file is charged to, once for each place.
fn push_payers(payers: &mut Vec<Uid>, file: &ListedFile) -> Result<(), AllocError>
    ensures { OnOk result
        (payers.new.items ≡ payers.old.items ++ flat_map payers_of (queue_of (file_of file.now))) }
{
    let Some(socket) = &file.socket else {
        return Ok(());
    };
    for message in &socket.queue {
        push_payer(payers, message)?;
    }
    Ok(())
}

/// Returns the file of each place, rising.
pub fn held_files(
    alloc: Global,
    tables: &[ListedTable],
    files: &[ListedFile],
) -> Result<Vec<Ino>, AllocError>
    requires tables { AreTables tables.now }
    requires files { AreFiles files.now }
    ensures { IfOk result (λ xs. IsTally (refs (listed tables.now files.now)) xs.items) }
{
    let mut held_files = Vec::new(alloc);
    for table in tables {
        push_inos(&mut held_files, table)?;
    }
    for file in files {
        push_contents(&mut held_files, file)?;
    }
    held_files.sort_unstable();
    Ok(held_files)
}

/// Returns the file of each place in a queue, rising.
pub fn queued_files(alloc: Global, files: &[ListedFile]) -> Result<Vec<Ino>, AllocError>
    requires { AreFiles files.now }
    ensures each { IfOk result (λ xs. IsTally (inflight (listed [] files.now)) xs.items) }
    ensures all { IfOk result (λ xs. length xs.items ≡ total (listed [] files.now)) }
{
    let mut queued_files = Vec::new(alloc);
    for file in files {
        push_queued(&mut queued_files, file)?;
    }
    queued_files.sort_unstable();
    Ok(queued_files)
}

/// Returns the user whom each place in a queue is charged to, rising.
pub fn payers(alloc: Global, files: &[ListedFile]) -> Result<Vec<Uid>, AllocError>
    requires { AreFiles files.now }
    ensures { IfOk result (λ xs. IsTally (charged (listed [] files.now)) xs.items) }
{
    let mut payers = Vec::new(alloc);
    for file in files {
        push_payers(&mut payers, file)?;
    }
    payers.sort_unstable();
    Ok(payers)
}
