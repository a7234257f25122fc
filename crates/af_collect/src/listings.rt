//! Plain lists of all that holds a file, for a recount that shares no walk with the engine.
ghost use Rattle.std.specs.Prelude.{◌≡◌, ◌≤◌, ◌*◌, ◌+◌, Some, IfOk, length, map, option_map};
ghost use Rattle.std.specs.List.{sum_by};
ghost use Rattle.std.specs.FinMap as finmap;
ghost use Rattle.af_base.specs.World as world;
ghost use Rattle.af_base.specs.Places.{contents};
ghost use Rattle.af_base.specs.Bare.{bare, bare_file, bare_message, bare_socket};
ghost use Rattle.af_base.specs.Listing.{processes_of, files_of, file_of, message_of, socket_of};
ghost use Rattle.af_base.specs.Listing.{AreTables, AreFiles};

use crate::holdings::Holdings;
use af_base::ids::{FileRef, Ino};
use af_base::limits::{MAX_BACKLOG, MAX_MESSAGES, SCM_MAX_FD};
use af_base::listing::{ListedFile, ListedMessage, ListedSocket, ListedTable, Listing};
use af_desc::Socket;
use af_queue::Queue;
use std::alloc::{AllocError, Global};

impl Holdings {
    /// Returns plain lists of the tables, queues and backlogs, and the user charged for each
    /// message; no bytes, states, names or limits. Fails only if memory is refused.
    pub fn listing(&self) -> Result<Listing, AllocError>
        ensures { IfOk result (λ l. l ≡ bare self.now.world) }
    {
        let tables = self.listed_tables()?;
        let files = self.listed_files()?;
        Listing::of(self.alloc, tables, files)
    }

    /// Returns the tables, by rising pid.
    fn listed_tables(&self) -> Result<Vec<ListedTable>, AllocError>
        ensures shown { IfOk result (λ tables.
            processes_of tables.items ≡ (bare self.now.world).processes) }
        ensures ordered { IfOk result (λ tables. AreTables tables.items) }
    {
        let mut tables = Vec::new(self.alloc);
        for pid in &self.procs.pids()? {
            tables.push(self.procs.list_table(*pid)?)?;
        }
        Ok(tables)
    }

    /// Returns the live files, by rising inode number.
    fn listed_files(&self) -> Result<Vec<ListedFile>, AllocError>
        ensures shown { IfOk result (λ files. files_of files.items ≡ (bare self.now.world).files) }
        ensures ordered { IfOk result (λ files. AreFiles files.items) }
    {
        let mut files = Vec::new(self.alloc);
        let mut last = Ino(0);
        let mut order_hint = 0;
        while let Some((file, at)) = self.files.next_after(last, order_hint) {
            files.push(self.listed_file(&file)?)?;
            last = file.ino();
            order_hint = at;
        }
        Ok(files)
    }

    /// Lists a live file, with its messages and embryos.
    fn listed_file(&self, file: &FileRef) -> Result<ListedFile, AllocError>
        requires { world.IsLive self.now.world file.now }
        ensures ino { IfOk result (λ x. x.ino ≡ file.now) }
        ensures shown { IfOk result (λ x.
            Some (file_of x) ≡ option_map bare_file (finmap.get self.now.world.files file.now)) }
        ensures few { IfOk result (λ x.
            length (contents (file_of x)) ≤ MAX_MESSAGES * SCM_MAX_FD + MAX_BACKLOG) }
    {
        let socket = match self.files.socket(file) {
            Some(socket) => Some(listed_socket(self.alloc, &socket)?),
            None => None,
        };
        Ok(ListedFile {
            ino: file.ino(),
            socket,
        })
    }
}

/// Lists a socket's messages and embryos.
fn listed_socket(alloc: Global, socket: &Socket) -> Result<ListedSocket, AllocError>
    requires { length socket.now.backlog ≤ MAX_BACKLOG }
    ensures shown { IfOk result (λ s. socket_of s ≡ bare_socket socket.now) }
    ensures few { IfOk result (λ s. length (contents (world.AsSocket (socket_of s)))
        ≤ MAX_MESSAGES * SCM_MAX_FD + MAX_BACKLOG) }
{
    Ok(ListedSocket {
        queue: listed_messages(alloc, socket.queue())?,
        backlog: numbers_waiting(alloc, socket)?,
    })
}

/// Lists the files attached to the messages of a queue, and the user charged for each, in order.
fn listed_messages(alloc: Global, queue: &Queue) -> Result<Vec<ListedMessage>, AllocError>
    ensures shown { IfOk result (λ messages.
        map message_of messages.items ≡ map bare_message queue.now) }
    ensures few { IfOk result (λ messages.
        sum_by (λ m. length m.attached.items) messages.items ≤ MAX_MESSAGES * SCM_MAX_FD) }
{
    let mut messages = Vec::with_capacity(alloc, queue.len())?;
    let mut left = queue.duplicate();
    while let Some((message, rest)) = left.split_first() {
        messages.push(ListedMessage {
            attached: numbers_of(alloc, message.attached())?,
            user: message.user(),
        })?;
        left = rest;
    }
    Ok(messages)
}

/// Returns the numbers of the embryos that wait at a socket.
fn numbers_waiting(alloc: Global, socket: &Socket) -> Result<Vec<Ino>, AllocError>
    ensures { IfOk result (λ inos. inos.items ≡ socket.now.backlog) }
{
    let Some(backlog) = socket.backlog() else {
        return Ok(Vec::new(alloc));
    };
    backlog.files().iter().map(|file| file.ino()).collect(alloc)
}

/// Returns the numbers of these files.
fn numbers_of(alloc: Global, files: &[FileRef]) -> Result<Vec<Ino>, AllocError>
    ensures { IfOk result (λ inos. inos.items ≡ files.now) }
{
    files.iter().map(|file| file.ino()).collect(alloc)
}
