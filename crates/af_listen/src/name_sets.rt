//! The sets of abstract names: types of sockets that are in different ones may share a name.
ghost use Rattle.std.specs.Prelude.{◌≡◌, None, OnOk, OnErr};
ghost use Rattle.std.specs.FinMap as map;
ghost use Rattle.af_listen.specs.NameSets.{names_in, no_names, with_names};

use crate::names::Names;
use af_base::events::SockType;
use af_base::ids::FileRef;
use std::alloc::{AllocError, Global};

/// Which file has which name, in the set of its type.
#[derive(Drop)]
pub struct NameSets {
    /// The names of streams and packets.
    pub connections: Names,
    /// The names of datagram sockets.
    pub datagrams: Names,
}

impl NameSets {
    /// Makes sets without names. Takes no memory.
    pub fn new(alloc: Global) -> NameSets
        ensures { result ≡ no_names }
    {
        NameSets {
            connections: Names::new(alloc),
            datagrams: Names::new(alloc),
        }
    }

    /// Returns the file that has the name in the set of this type, if there is one.
    #[inline(always)]
    pub fn find(&self, kind: SockType, name: &[u8]) -> Option<FileRef>
        ensures { result ≡ map.get (names_in self.now kind) name.now }
    {
        match kind {
            SockType::Stream | SockType::Seqpacket => self.connections.find(name),
            SockType::Dgram => self.datagrams.find(name),
        }
    }

    /// Gives the file the name, which is free in the set of this type. On an error nothing has
    /// changed.
    pub fn bind(&mut self, kind: SockType, name: Vec<u8>, file: FileRef) -> Result<(), AllocError>
        requires free { map.get (names_in self.old kind) name.items ≡ None }
        ensures ok { OnOk result (self.new ≡ with_names kind
            (map.insert (names_in self.old kind) name.items file) self.old) }
        ensures err { OnErr result (self.new ≡ self.old) }
    {
        match kind {
            SockType::Stream | SockType::Seqpacket => self.connections.bind(name, file),
            SockType::Dgram => self.datagrams.bind(name, file),
        }
    }

    /// Frees `name` in the set of this type; nothing changes if it is free. Takes no memory.
    pub fn unbind(&mut self, kind: SockType, name: &[u8])
        ensures { self.new
            ≡ with_names kind (map.remove (names_in self.old kind) name.now) self.old }
    {
        match kind {
            SockType::Stream | SockType::Seqpacket => self.connections.unbind(name),
            SockType::Dgram => self.datagrams.unbind(name),
        }
    }
}
