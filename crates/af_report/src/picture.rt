//! A picture of an engine: its processes, its files, and who holds which.
ghost use Rattle.std.specs.Prelude.{◌≡◌, IfOk, OnOk};
ghost use Rattle.std.specs.List.Sorted.{IsStrictlyIncreasing};
ghost use Rattle.af_base.specs.Bare.{bare};
ghost use Rattle.af_report.specs.Texts.{AppendsText};
ghost use Rattle.af_report.specs.Graph.{graph_text, IsGraph};

mod contents;
mod files;
mod names;
mod processes;

use crate::picture::contents::push_all_waiting;
use crate::picture::files::push_files;
use crate::picture::processes::push_processes;
use af_base::ids::Ino;
use af_base::listing::Listing;
use af_plain::garbage;
use af_steps::Engine;
use std::alloc::{AllocError, Global};

/// Draws the engine's world in the language of Graphviz (`dot -Tsvg`): processes are boxes, with an
/// edge for each open descriptor; files are ellipses with their number, their kind and state, their
/// two counts and their abstract name (unix(7)). A socket has a dotted edge to its peer, a dashed
/// one to each embryo, and a blue one, with the user who is charged, to each file attached to a
/// message in its queue. Garbage, which no process can reach, is filled pink.
pub fn graph(alloc: Global, engine: &Engine) -> Result<Vec<u8>, AllocError>
    ensures { IfOk result (λ text. IsGraph engine.now.world text.items) }
{
    let listing = engine.listing()?;
    let garbage = garbage(alloc, &listing)?;
    let mut text = String::new(alloc);
    push_world(&mut text, engine, &listing, garbage.as_slice())?;
    Ok(text.into_bytes())
}

/// Appends the picture of the engine's world, whose listing this is. The garbage, in rising
/// order, has a colour of its own.
fn push_world(
    text: &mut String,
    engine: &Engine,
    listing: &Listing,
    garbage: &[Ino],
) -> Result<(), AllocError>
    requires listed { listing.now ≡ bare engine.now.world }
    requires rises { IsStrictlyIncreasing garbage.now }
    ensures { OnOk result
        (AppendsText text.old text.new (graph_text engine.now.world garbage.now)) }
{
    text.push_str("digraph world {\nrankdir=LR\n")?;
    push_processes(text, listing.tables())?;
    push_files(text, engine, garbage)?;
    push_all_waiting(text, listing.files())?;
    text.push_str("}\n")?;
    Ok(())
}
