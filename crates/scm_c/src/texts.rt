//! Names and pictures. Neither call changes the engine.
ghost use Rattle.std.specs.Prelude.{◌≡◌};
ghost use Rattle.scm_c.specs.Calls.{Asks};
ghost use Rattle.scm_c.specs.Texts.{IsNameWritten, IsPictureWritten};

use crate::answers::{NO_ENGINE, refusal};
use crate::handle::Handle;
use crate::messages::write_bytes;
use af_base::errno::Errno;
use af_base::ids::Ino;
use af_report::graph;
use std::alloc::Global;

/// Writes the abstract name of a socket (unix(7)), as many bytes as there is room for. Answers how
/// many bytes the name has: 0 where the file has none, or is unknown. It needs no memory.
#[must_use]
#[unsafe(no_mangle)]
pub extern "C" fn jw_name(alloc: Global, engine: &mut Handle, ino: u64, name: &mut [u8]) -> i64
    ensures same { engine.new.shown ≡ engine.old.shown }
    ensures value { Asks engine.old.shown
        (λ m r y. IsNameWritten m.world ino name.old r y) name.old result name.new }
{
    let Some(inside) = engine.as_mut() else {
        return NO_ENGINE;
    };
    match inside.name(Ino(ino)) {
        Some(found) => {
            write_bytes(found, name);
            found.len() as i64
        }
        None => 0,
    }
}

/// Writes a picture of all files, with what refers to each, in the language of Graphviz; garbage is
/// pink. Writes as many bytes as there is room for. Answers how many bytes the picture has.
///
/// Errors: JW_ENOMEM.
#[must_use]
#[unsafe(no_mangle)]
pub extern "C" fn jw_graph(alloc: Global, engine: &mut Handle, text: &mut [u8]) -> i64
    ensures same { engine.new.shown ≡ engine.old.shown }
    ensures value { Asks engine.old.shown
        (λ m r y. IsPictureWritten m.world text.old r y) text.old result text.new }
{
    let Some(inside) = engine.as_mut() else {
        return NO_ENGINE;
    };
    let Ok(drawn) = graph(alloc, inside) else {
        return refusal(Errno::ENOMEM);
    };
    write_bytes(drawn.as_slice(), text);
    drawn.len() as i64
}
