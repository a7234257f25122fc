//! A line for each live file.
ghost use Rattle.std.specs.Prelude.{◌≡◌, ◌++◌, Some, IfOk, OnOk};
ghost use Rattle.std.specs.FinMap as map;
ghost use Rattle.af_base.specs.World.{File, IsLive};
ghost use Rattle.af_report.specs.Table.{file_line, table_text};

use crate::columns::{push_counts, push_file, push_name};
use af_base::ids::{FileRef, Ino};
use af_steps::Engine;
use std::alloc::{AllocError, Global};

/// The line above all others.
const HEADER: &[u8] = b"   inode    refs     fly kind      state     msgs wait     peer name\n";

/// Appends the line of a live file. Replaces the text in `columns`.
fn push_line(
    text: &mut Vec<u8>,
    columns: &mut String,
    engine: &Engine,
    file: &FileRef,
) -> Result<(), AllocError>
    requires { IsLive engine.now.world file.now }
    ensures { (x : File) → map.get engine.now.world.files file.now ≡ Some x
        → OnOk result (text.new.items ≡ text.old.items ++ file_line engine.now.world file.now x) }
{
    columns.clear();
    let (refs, inflight) = (engine.refs_at(file), engine.inflight_at(file));
    push_counts(columns, file.ino(), refs, inflight)?;
    push_file(columns, engine, file)?;
    text.extend_from_slice(columns.as_bytes())?;
    push_name(text, engine.name_at(file))?;
    text.push(b'\n')?;
    Ok(())
}

/// Writes the table: a header, and a line for each live file by rising inode number. A line has how
/// many places hold the file, and how many of these are in queues; its kind and state; how many
/// messages and embryos wait at it; its live peer; and its abstract name (unix(7)).
pub fn table(alloc: Global, engine: &Engine) -> Result<Vec<u8>, AllocError>
    ensures { IfOk result (λ text. text.items ≡ table_text engine.now.world) }
{
    // No file has the number 0: that is what a sound world says of it.
    engine.lemma_is_sound();
    let mut text = HEADER.to_vec(alloc)?;
    let mut columns = String::new(alloc);
    let mut last = Ino(0);
    let mut order_hint = 0;
    while let Some((file, at)) = engine.next_file(last, order_hint) {
        push_line(&mut text, &mut columns, engine, &file)?;
        last = file.ino();
        order_hint = at;
    }
    Ok(text)
}
