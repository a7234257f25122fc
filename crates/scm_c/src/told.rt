//! The lists of the files that were freed, and of the sockets whose readiness may have changed.
ghost use Rattle.std.specs.Prelude.{◌≡◌};
ghost use Rattle.af_steps.specs.Told.{Changed, Released, telling};
ghost use Rattle.scm_c.specs.Calls.{Asks};
ghost use Rattle.scm_c.specs.Told.{Alters, MayAlter, IsChangedWritten, IsReleasedWritten, cleared};
ghost use Rattle.scm_c.specs.Written.{over};

use crate::answers::{NO_ENGINE, refusal};
use crate::handle::Handle;
use af_base::errno::Errno;
use af_base::ids::{FileRef, Ino};
use af_steps::ToldList;
use std::alloc::Global;

/// Asks for the list of freed files, which jw_released writes, and empties both lists. A call that
/// makes a file reserves room in the list from now on, so a call that frees files needs no memory.
/// Answers 0.
///
/// Errors: JW_ENOMEM.
#[must_use]
#[unsafe(no_mangle)]
pub extern "C" fn jw_tell_released(alloc: Global, engine: &mut Handle) -> i64
    ensures { MayAlter engine.old.shown (telling Released) result engine.new.shown }
{
    tell(engine, ToldList::Released)
}

/// Asks for the list of sockets whose readiness may have changed (poll(2)), which jw_changed
/// writes, and empties both lists. A call that makes a file reserves room in the list from now on,
/// so no other call needs memory for it. Answers 0.
///
/// Errors: JW_ENOMEM.
#[must_use]
#[unsafe(no_mangle)]
pub extern "C" fn jw_tell_changed(alloc: Global, engine: &mut Handle) -> i64
    ensures { MayAlter engine.old.shown (telling Changed) result engine.new.shown }
{
    tell(engine, ToldList::Changed)
}

/// Writes the inode numbers of the files that were freed since the lists were emptied last, each
/// once, as many as there is room for. Answers the length of the list, which is 0 before
/// jw_tell_released. It needs no memory.
#[must_use]
#[unsafe(no_mangle)]
pub extern "C" fn jw_released(alloc: Global, engine: &mut Handle, inos: &mut [u64]) -> i64
    ensures same { engine.new.shown ≡ engine.old.shown }
    ensures value { Asks engine.old.shown
        (λ m r y. IsReleasedWritten m.world m.since inos.old r y) inos.old result inos.new }
{
    let Some(inside) = engine.as_mut() else {
        return NO_ENGINE;
    };
    let told = inside.released_files();
    write_inos(told, inos);
    told.len() as i64
}

/// Writes the inode numbers of the live sockets whose readiness may have changed since the lists
/// were emptied last, each once, as many as there is room for. Answers the length of the list,
/// which is 0 before jw_tell_changed. It needs no memory.
///
/// For a socket that is not in the list, and whose peer or target is not, jw_poll writes what it
/// did then; but not where its target was freed since, which jw_released tells.
#[must_use]
#[unsafe(no_mangle)]
pub extern "C" fn jw_changed(alloc: Global, engine: &mut Handle, inos: &mut [u64]) -> i64
    ensures same { engine.new.shown ≡ engine.old.shown }
    ensures value { Asks engine.old.shown
        (λ m r y. IsChangedWritten m.world m.since inos.old r y) inos.old result inos.new }
{
    let Some(inside) = engine.as_mut() else {
        return NO_ENGINE;
    };
    let told = inside.changed_sockets();
    write_files(told, inos);
    told.len() as i64
}

/// Empties both lists. It needs no memory. Answers 0.
#[unsafe(no_mangle)]
pub extern "C" fn jw_clear_told(alloc: Global, engine: &mut Handle) -> i64
    ensures { Alters engine.old.shown cleared result engine.new.shown }
{
    let Some(inside) = engine.as_mut() else {
        return NO_ENGINE;
    };
    inside.clear_told();
    0
}

/// Asks for that list, and empties both. Answers 0, or ENOMEM.
fn tell(engine: &mut Handle, list: ToldList) -> i64
    ensures { MayAlter engine.old.shown (telling list) result engine.new.shown }
{
    let Some(inside) = engine.as_mut() else {
        return NO_ENGINE;
    };
    match inside.tell(list) {
        Ok(()) => 0,
        Err(_) => refusal(Errno::ENOMEM),
    }
}

/// Writes these inode numbers over the beginning of the place, as many as fit.
fn write_inos(from: &[Ino], to: &mut [u64])
    ensures { to.new ≡ over from.now to.old }
{
    let count = from.len().min(to.len());
    for i in 0..count {
        let ino = &from[i];
        to[i] = ino.0;
    }
}

/// Writes the inode numbers of these files over the beginning of the place, as many as fit.
fn write_files(from: &[FileRef], to: &mut [u64])
    ensures { to.new ≡ over from.now to.old }
{
    let count = from.len().min(to.len());
    for i in 0..count {
        let file = &from[i];
        to[i] = file.ino().0;
    }
}
