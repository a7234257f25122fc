//! Abstract names.
ghost use Rattle.std.specs.Prelude.{◌≡◌, None, OnOk, OnErr};
ghost use Rattle.std.specs.FinMap as map;

use af_base::ids::FileRef;
use indexmap::IndexMap;
use std::alloc::{AllocError, Global};
use std::marker::Model;

/// Which file has which name.
#[derive(Drop)]
pub struct Names {
    files: IndexMap<Vec<u8>, FileRef>,
}

impl Model for Names {
    ghost use Rattle.std.specs.FinMap as map;
    ghost use Rattle.std.specs.Coded.{codes};
    ghost use Rattle.af_listen.specs.NamesView.{NamesView, names_of};

    ghost Value = { NamesView };

    ghost coded = { Prim.hlevel (codes, map.code) };

    ghost view = { λ a. names_of a.files.entries };
}

impl Names {
    /// Makes an empty set of names. Takes no memory.
    pub fn new(alloc: Global) -> Names
        ensures { result ≡ map.empty }
    {
        Names {
            files: IndexMap::new(alloc),
        }
    }

    /// Returns the file that has the name, if there is one.
    #[inline(always)]
    #[tactic(auto, using(crate::proofs::NameMaps::name_changes))]
    pub fn find(&self, name: &[u8]) -> Option<FileRef>
        ensures { result ≡ map.get self.now name.now }
    {
        let file = self.files.get(name)?;
        Some(file.duplicate())
    }

    /// Gives the file the name, which is free. On an error nothing has changed.
    #[inline(always)]
    #[tactic(auto, using(crate::proofs::NameMaps::name_changes))]
    pub fn bind(&mut self, name: Vec<u8>, file: FileRef) -> Result<(), AllocError>
        requires free { map.get self.old name.items ≡ None }
        ensures ok { OnOk result (self.new ≡ map.insert self.old name.items file) }
        ensures err { OnErr result (self.new ≡ self.old) }
    {
        self.files.insert(name, file)?;
        Ok(())
    }

    /// Frees `name`; nothing changes if it is free. Takes no memory.
    #[tactic(auto, using(crate::proofs::NameMaps::name_changes))]
    pub fn unbind(&mut self, name: &[u8])
        ensures { self.new ≡ map.remove self.old name.now }
    {
        self.files.swap_remove(name);
    }
}
