//! The lists of freed files, and of sockets whose readiness may have changed.
ghost use Rattle.std.specs.Prelude.{◌≡◌, OnErr, OnOk};
ghost use Rattle.af_base.specs.Told.{AreSocketsOnce, TellsChanged, TellsReleased};
ghost use Rattle.af_steps.specs.Told.{telling};

use crate::engine::Engine;
use af_base::ids::{FileRef, Ino};
use af_desc::ToldList;
use std::alloc::AllocError;

impl Engine {
    /// Begins to keep that list (`released_files` or `changed_sockets`), and empties both. Later an
    /// event that makes a file also needs memory for it in the list; no other call does. On an
    /// error nothing has changed.
    pub fn tell(&mut self, list: ToldList) -> Result<(), AllocError>
        ensures ok { OnOk result (self.new ≡ telling list self.old) }
        ensures err { OnErr result (self.new ≡ self.old) }
    {
        self.store.tell(list)
    }

    /// Returns the inode numbers of the files that were freed since the lists were last emptied,
    /// each once, if that list is kept. The program can drop what it keeps for such a file. No
    /// search.
    pub fn released_files(&self) -> &[Ino]
        ensures { TellsReleased self.now.world self.now.since result.now }
    {
        self.store.released_files()
    }

    /// Returns the sockets whose readiness may have changed since the lists were last emptied, each
    /// once, if that list is kept. If neither a socket nor its peer or target is listed, `poll`
    /// answers as it did then; but not where its target was freed since, which `released_files`
    /// tells. A plain file is never listed: it is always ready. No search.
    pub fn changed_sockets(&self) -> &[FileRef]
        ensures once { AreSocketsOnce self.now.world.files result.now }
        ensures changed { TellsChanged self.now.world self.now.since result.now }
    {
        self.store.changed_sockets()
    }

    /// Empties both lists. It needs no memory.
    pub fn clear_told(&mut self)
        ensures { self.new ≡ record self.old {
          since = record self.old.since {
            files = self.old.world.files;
            next = self.old.world.next_ino;
          };
        } }
    {
        self.store.clear_told();
    }
}
