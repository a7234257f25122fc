//! The text of who holds what.

use crate::play::holders::{HeldFile, Holder, places_of};
use af_base::ids::Ino;
use af_base::listing::{ListedFile, ListedTable};
use af_plain::reached;
use af_steps::Engine;
use std::alloc::{AllocError, Global};

/// Appends a place that holds a file.
fn push_holder(text: &mut String, by: Holder) -> Result<(), AllocError> {
    match by {
        Holder::Descriptor(pid, fd) => write!(text, " pid {pid} fd {fd}"),
        Holder::Queue(ino) => write!(text, " queue of {ino}"),
        Holder::Backlog(ino) => write!(text, " backlog of {ino}"),
    }
}

/// Appends the places that hold a file, with commas between them, and returns those of other files
/// behind them.
fn push_holders<'a>(
    text: &mut String,
    ino: Ino,
    places: &'a [HeldFile],
) -> Result<&'a [HeldFile], AllocError> {
    let mut rest = places;
    let mut comma = "";
    while let [first, others @ ..] = rest
        && first.ino == ino
    {
        text.push_str(comma)?;
        push_holder(text, first.by)?;
        comma = ",";
        rest = others;
    }
    Ok(rest)
}

/// Appends the number of a file, and whether it is garbage.
fn push_file(text: &mut String, ino: Ino, reached: &[Ino]) -> Result<(), AllocError> {
    let mark = match reached.binary_search(&ino) {
        Ok(_) => "",
        Err(_) => " (garbage)",
    };
    write!(text, "file {ino}{mark}:")
}

/// Appends a line for each file, with its places; the places are by rising file.
fn push_files(
    text: &mut String,
    files: &[ListedFile],
    reached: &[Ino],
    places: &[HeldFile],
) -> Result<(), AllocError> {
    let mut rest = places;
    for file in files {
        push_file(text, file.ino, reached)?;
        rest = push_holders(text, file.ino, rest)?;
        text.push_str("\n")?;
    }
    Ok(())
}

/// Makes the lines of these files, with the places in these tables and files.
fn text_of(
    alloc: Global,
    tables: &[ListedTable],
    files: &[ListedFile],
    reached: &[Ino],
) -> Result<Vec<u8>, AllocError> {
    let places = places_of(alloc, tables, files)?;
    let mut text = String::new(alloc);
    push_files(&mut text, files, reached, places.as_slice())?;
    Ok(text.into_bytes())
}

/// Lists the files of the engine's world by rising number, a line for each: its number, whether it
/// is garbage, which no process can reach, and each place that holds it.
///
/// A place is a descriptor of a process, the queue of a socket that carries the file, or the
/// backlog of a listener, if the file is an embryo. A file is listed once for each place. Fails
/// only if memory for the text is refused.
pub fn holders(alloc: Global, engine: &Engine) -> Result<Vec<u8>, AllocError> {
    let listing = engine.listing()?;
    let found = reached(alloc, &listing)?;
    text_of(alloc, listing.tables(), listing.files(), found.as_slice())
}
