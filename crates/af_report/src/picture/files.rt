//! Files, and their peers.
ghost use Rattle.std.specs.Prelude.{◌≡◌, Some, OnOk};
ghost use Rattle.std.specs.List.Sorted.{IsStrictlyIncreasing};
ghost use Rattle.std.specs.FinMap as map;
ghost use Rattle.af_base.specs.World.{File, IsLive};
ghost use Rattle.af_report.specs.Texts.{AppendsText};
ghost use Rattle.af_report.specs.Graph.{colour, counts_text, files_text, is_in, kind_text};
ghost use Rattle.af_report.specs.Graph.{node_text, peer_edge, peer_text};

use crate::columns::{state_word, type_word};
use crate::picture::names::push_name;
use af_base::events::State;
use af_base::ids::{FileRef, Ino};
use af_steps::{Engine, FileInfo};
use std::alloc::AllocError;

/// Appends the kind of a live file, and its state, if it is a socket.
fn push_kind(text: &mut String, engine: &Engine, file: &FileRef) -> Result<(), AllocError>
    requires { IsLive engine.now.world file.now }
    ensures { (x : File) → map.get engine.now.world.files file.now ≡ Some x
        → OnOk result (AppendsText text.old text.new (kind_text x)) }
{
    match engine.file_at(file) {
        FileInfo::Plain => text.push_str("plain"),
        FileInfo::Socket { kind, state, .. } => {
            let kind = type_word(kind);
            let state = state_word(&state);
            write!(text, "{kind} {state}")
        }
    }
}

/// Appends the two counts of a file on a line of their own.
fn push_counts(text: &mut String, refs: u64, inflight: u64) -> Result<(), AllocError>
    ensures { OnOk result (AppendsText text.old text.new (counts_text refs inflight)) }
{
    write!(text, "\\nrefs {refs} inflight {inflight}")
}

/// Appends the colour of garbage, where the file is garbage.
fn push_colour(text: &mut String, is_garbage: bool) -> Result<(), AllocError>
    ensures { OnOk result (AppendsText text.old text.new (colour is_garbage)) }
{
    if !is_garbage {
        return Ok(());
    }
    text.push_str(", style=filled, fillcolor=pink")
}

/// Appends an edge to the peer of a connected socket; a target has none.
fn push_state(text: &mut String, ino: Ino, state: &State) -> Result<(), AllocError>
    ensures { OnOk result (AppendsText text.old text.new (peer_text ino state.now)) }
{
    match state {
        State::Connected(peer) => writeln!(text, "f{ino} -> f{peer} [style=dotted]"),
        State::Idle | State::Listening(_) | State::HungUp | State::Sends(_) => Ok(()),
    }
}

/// Appends an edge to the peer of a live file, if it has one.
fn push_peer(text: &mut String, engine: &Engine, file: &FileRef) -> Result<(), AllocError>
    requires { IsLive engine.now.world file.now }
    ensures { (x : File) → map.get engine.now.world.files file.now ≡ Some x
        → OnOk result (AppendsText text.old text.new (peer_edge file.now x)) }
{
    match engine.file_at(file) {
        FileInfo::Plain => Ok(()),
        FileInfo::Socket { state, .. } => push_state(text, file.ino(), &state),
    }
}

/// Appends a live file.
fn push_node(
    text: &mut String,
    engine: &Engine,
    file: &FileRef,
    is_garbage: bool,
) -> Result<(), AllocError>
    requires { IsLive engine.now.world file.now }
    ensures { (x : File) → map.get engine.now.world.files file.now ≡ Some x
        → OnOk result
        (AppendsText text.old text.new (node_text engine.now.world is_garbage file.now x)) }
{
    let ino = file.ino();
    write!(text, "f{ino} [label=\"{ino} ")?;
    push_kind(text, engine, file)?;
    push_counts(text, engine.refs_at(file), engine.inflight_at(file))?;
    push_name(text, engine.name_at(file))?;
    text.push_str("\"")?;
    push_colour(text, is_garbage)?;
    text.push_str("]\n")?;
    Ok(())
}

/// Returns whether the file is in the list, which rises.
fn is_in(inos: &[Ino], ino: Ino) -> bool
    requires { IsStrictlyIncreasing inos.now }
    ensures { result ≡ is_in inos.now ino }
{
    inos.binary_search(&ino).is_ok()
}

/// Appends all live files and edges to their peers, by rising number. The garbage, in a list that
/// rises, has a colour of its own.
pub fn push_files(text: &mut String, engine: &Engine, garbage: &[Ino]) -> Result<(), AllocError>
    requires { IsStrictlyIncreasing garbage.now }
    ensures { OnOk result
        (AppendsText text.old text.new (files_text engine.now.world garbage.now)) }
{
    // No file has the number 0: that is what a sound world says of it.
    engine.lemma_is_sound();
    let mut last = Ino(0);
    let mut order_hint = 0;
    while let Some((file, at)) = engine.next_file(last, order_hint) {
        push_node(text, engine, &file, is_in(garbage, file.ino()))?;
        push_peer(text, engine, &file)?;
        last = file.ino();
        order_hint = at;
    }
    Ok(())
}
