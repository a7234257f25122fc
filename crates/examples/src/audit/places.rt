//! The holders of files: each place of each file.
ghost use Rattle.std.specs.Prelude.{◌≡◌, ◌++◌, IfOk, OnOk};
ghost use Rattle.jaywardrobe.specs.Listing.{AreFiles, AreTables, file_of, inos_of, listed};
ghost use Rattle.jaywardrobe.specs.Places.{contents};
ghost use Rattle.examples.specs.Places.{ListsAll, referred_files};

use jaywardrobe::{Engine, Fd, Ino, ListedFile, ListedTable, Pid};
use std::alloc::{AllocError, Global};
use std::fmt;

/// The holder of a file.
#[derive(Clone, Copy)]
pub enum Location {
    /// A number of a process (open(2)).
    Number(Pid, Fd),
    /// A message in the queue of a socket (unix(7), SCM_RIGHTS).
    Queue(Ino),
    /// The backlog of a listener (listen(2)).
    Backlog(Ino),
}

/// A place: a file and what holds it there.
#[derive(Clone, Copy)]
pub struct Reference {
    pub file: Ino,
    pub holder: Location,
}

impl fmt::Display for Reference {
    fn fmt<W: fmt::Write>(&self, f: &mut fmt::Formatter<W>) -> fmt::Result {
        let file = self.file;
        match self.holder {
            Location::Number(pid, fd) => write!(f, "{file}: number {fd} of process {pid}"),
            Location::Queue(socket) => write!(f, "{file}: the queue of {socket}"),
            Location::Backlog(listener) => write!(f, "{file}: the backlog of {listener}"),
        }
    }
}

/// Returns all places that hold a file, by rising file: a file occurs as often as its reference
/// count says.
pub fn places_of(alloc: Global, engine: &Engine) -> Result<Vec<Reference>, AllocError>
    ensures { IfOk result (λ ps. ListsAll engine.now.world ps.items) }
{
    let listing = engine.listing()?;
    gather(alloc, listing.tables(), listing.files())
}

/// Returns the places of these tables and files, by rising file.
fn gather(
    alloc: Global,
    tables: &[ListedTable],
    files: &[ListedFile],
) -> Result<Vec<Reference>, AllocError>
    requires tables { AreTables tables.now }
    requires files { AreFiles files.now }
    ensures { IfOk result (λ ps. ListsAll (listed tables.now files.now) ps.items) }
{
    let mut places = Vec::new(alloc);
    for table in tables {
        push_table(&mut places, table)?;
    }
    for file in files {
        push_contents(&mut places, file)?;
    }
    places.sort_by_key(|place| place.file)?;
    Ok(places)
}

/// Appends the places of the table's descriptors.
fn push_table(places: &mut Vec<Reference>, table: &ListedTable) -> Result<(), AllocError>
    ensures { OnOk result
        (referred_files places.new.items ≡ referred_files places.old.items ++ inos_of table.now) }
{
    for number in &table.numbers {
        places.push(Reference {
            file: number.ino,
            holder: Location::Number(table.pid, number.fd),
        })?;
    }
    Ok(())
}

/// Appends the places in the file's queue and backlog.
fn push_contents(places: &mut Vec<Reference>, file: &ListedFile) -> Result<(), AllocError>
    ensures { OnOk result (referred_files places.new.items
        ≡ referred_files places.old.items ++ contents (file_of file.now)) }
{
    let Some(socket) = &file.socket else {
        return Ok(());
    };
    for message in &socket.queue {
        push_all(
            places,
            message.attached.as_slice(),
            &Location::Queue(file.ino),
        )?;
    }
    push_all(
        places,
        socket.backlog.as_slice(),
        &Location::Backlog(file.ino),
    )
}

/// Appends these files, each held so.
fn push_all(places: &mut Vec<Reference>, files: &[Ino], holder: &Location) -> Result<(), AllocError>
    ensures { OnOk result
        (referred_files places.new.items ≡ referred_files places.old.items ++ files.now) }
{
    for file in files {
        places.push(Reference {
            file: *file,
            holder: *holder,
        })?;
    }
    Ok(())
}
