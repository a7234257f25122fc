//! The host's files behind the engine's.
ghost use Rattle.std.specs.Prelude.{ℕ, IsTrue, OnOk};
ghost use Rattle.std.specs.FinMap as map;
ghost use Rattle.jaywardrobe.specs.World.{IsLive};

use jaywardrobe::Owned;
use std::alloc::{AllocError, Global};
use std::io;

/// A file of the host: here a name, in a sandbox a descriptor. Whoever has it closes it.
#[derive(Drop)]
pub struct HostFile {
    name: String,
}

impl HostFile {
    /// Opens a file of the host.
    pub fn open(alloc: Global, what: &str, round: usize) -> Result<HostFile, AllocError> {
        Ok(HostFile {
            name: format!(in alloc; "{what} {round}")?,
        })
    }
}

/// Closes the host files whose files were freed: a host file that is left is behind a live file.
pub fn close_released(rt: &HostRuntime, engine: &mut Owned<HostFile>) -> io::Result<()>
    ensures { OnOk result ((f : ℕ) → IsTrue (map.contains_key engine.new.values f)
        → IsLive engine.new.machine.world f) }
{
    while let Some(file) = engine.take_released() {
        println!(rt; "closed: {}", file.name)?;
    }
    Ok(())
}
