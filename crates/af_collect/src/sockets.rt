//! Sockets that are made, named, made to listen, connected and aimed at others, and the embryos
//! that wait to be accepted. Each call is one change of the world, and keeps the counts in step
//! with it.
ghost use Rattle.std.specs.Prelude.{◌≡◌, ◌<◌, ◌≤◌, ℕ, None, Some, IsTrue, IfSome, OnOk, OnErr};
ghost use Rattle.std.specs.Prelude.{length, false, is_none, nat_eq, option_copied, slice_get};
ghost use Rattle.std.specs.Prelude.{true, unwrap_or};
ghost use Rattle.std.specs.FinMap as finmap;
ghost use Rattle.af_base.specs.World as world;
ghost use Rattle.af_base.specs.Names.{is_name, named, set_of};
ghost use Rattle.af_base.specs.Counts.{waiting};
ghost use Rattle.af_base.specs.Places.{backlog_at, table_at};
ghost use Rattle.af_base.specs.Changes.{add_file, aimed, dequeued, install, listening, queued};
ghost use Rattle.af_base.specs.Changes.{sends_elsewhere, shut, with_name, with_socket};
ghost use Rattle.af_base.specs.Pass.{emptied};
ghost use Rattle.af_base.specs.Refusals.{is_datagram, is_full, room_of, socket_at};
ghost use Rattle.af_base.specs.Steps.{idle_socket, with_embryo};
ghost use Rattle.af_collect.specs.Limits.{IsBelowLimit};
ghost use Rattle.af_collect.specs.Keeping.{NotBegunGarbage};
ghost use Rattle.af_collect.specs.StoreView.{room_at};

use crate::store::Store;
use af_base::events::{SockType, State};
use af_base::ids::{Fd, FileRef, Pid};
use af_base::limits::MAX_BACKLOG;
use af_ledger::Place;
use std::alloc::AllocError;

impl Store {
    /// Makes a socket that was never connected, at a free descriptor for which there is room
    /// (socket(2)). On an error nothing has changed.
    pub fn make_sock(&mut self, kind: SockType, pid: Pid, fd: Fd) -> Result<(), AllocError>
        requires full { is_full self.old.world 1 ≡ false }
        requires there { IsTrue (finmap.contains_key self.old.world.processes pid) }
        requires row { fd < room_at self.old pid }
        requires limit { IsBelowLimit self.old.world pid fd }
        requires free { table_at self.old.world pid fd ≡ None }
        ensures ok { OnOk result (self.new ≡ record self.old {
          world = install (add_file self.old.world (world.AsSocket (idle_socket kind))) pid fd
              self.old.world.next_ino;
          marks = self.new.marks;
        }) }
        ensures err { OnErr result (self.new ≡ self.old) }
    {
        let holdings = &mut self.holdings;
        let file = holdings.files.make_sock(kind, &Place::Table)?;
        holdings.procs.install(pid, fd, file);
        Ok(())
    }

    /// Makes a socket that was never connected, at a free descriptor below the limit (socket(2)):
    /// `room_for` and `make_sock` by one look at the process. On an error no process can see a
    /// change.
    #[inline(always)]
    pub fn socket_at(&mut self, kind: SockType, pid: Pid, fd: Fd) -> Result<(), AllocError>
        requires full { is_full self.old.world 1 ≡ false }
        requires there { IsTrue (finmap.contains_key self.old.world.processes pid) }
        requires limit { IsBelowLimit self.old.world pid fd }
        requires free { table_at self.old.world pid fd ≡ None }
        ensures ok { OnOk result (self.new ≡ record self.old {
          world = install (add_file self.old.world (world.AsSocket (idle_socket kind))) pid fd
              self.old.world.next_ino;
          rows = self.new.rows;
          marks = self.new.marks;
        }) }
        ensures err { OnErr result (self.new ≡ record self.old { rows = self.new.rows }) }
    {
        let holdings = &mut self.holdings;
        let process = holdings.procs.find_with_room(pid)?;
        let file = holdings.files.make_sock(kind, &Place::Table)?;
        process.install(fd, file);
        Ok(())
    }

    /// Gives a nameless socket this name, which is valid, and free in the set of the socket's type
    /// (bind(2)). On an error nothing has changed.
    pub fn bind(&mut self, socket: &FileRef, name: &[u8]) -> Result<(), AllocError>
        requires nameless { IfSome (socket_at self.old.world socket.now) (λ s. s.name ≡ None) }
        requires name { is_name name.now ≡ true }
        requires free { IfSome (socket_at self.old.world socket.now) (λ s.
            named self.old.world.files (set_of s.kind) name.now ≡ None) }
        ensures ok { OnOk result (self.new ≡ record self.old {
          world = with_socket self.old.world socket.now (with_name name.now);
        }) }
        ensures err { OnErr result (self.new ≡ self.old) }
    {
        let holdings = &mut self.holdings;
        holdings.files.bind(socket, name)
    }

    /// Makes an idle socket that has a name, and is no datagram socket, wait for connections
    /// (listen(2)). At most `most` embryos wait at it, from 1 to `MAX_BACKLOG`. On an error nothing
    /// has changed.
    pub fn listen(&mut self, socket: &FileRef, most: u32) -> Result<(), AllocError>
        requires connections { IfSome (socket_at self.old.world socket.now) (λ s.
            is_datagram s.kind ≡ false) }
        requires named { IfSome (socket_at self.old.world socket.now) (λ s.
            is_none s.name ≡ false) }
        requires idle { IfSome (socket_at self.old.world socket.now) (λ s. s.state ≡ State.Idle) }
        requires some { 1 ≤ most }
        requires few { most ≤ MAX_BACKLOG }
        ensures ok { OnOk result (self.new
            ≡ record self.old { world = with_socket self.old.world socket.now (listening most) }) }
        ensures err { OnErr result (self.new ≡ self.old) }
    {
        let holdings = &mut self.holdings;
        holdings.files.listen(socket, most)
    }

    /// Lets a datagram socket send to `target`, which is live, or leaves it no target (connect(2)).
    /// What waits there is lost where `loses` says that it sent to another. Takes no memory.
    pub fn aim(&mut self, socket: &FileRef, target: Option<&FileRef>, loses: bool)
        requires socket { is_none (socket_at self.old.world socket.now) ≡ false }
        requires datagrams { IfSome (socket_at self.old.world socket.now) (λ s.
            is_datagram s.kind ≡ true) }
        requires target { IfSome (option_copied target) (λ to. world.IsLive self.old.world to) }
        requires loses { IfSome (socket_at self.old.world socket.now) (λ s.
            loses ≡ sends_elsewhere (unwrap_or (option_copied target) 0) s.state) }
        requires spared { NotBegunGarbage self.old.pass socket.now }
        ensures { self.new ≡ record self.old {
          world = with_socket self.old.world socket.now
              (aimed (unwrap_or (option_copied target.entry) 0));
          marks = self.new.marks;
          message_room = self.new.message_room;
        } }
    {
        if loses {
            // No embryo waits at a datagram socket, as in each well-formed world.
            self.holdings.lemma_is_whole();
            self.drain(socket);
        }
        let holdings = &mut self.holdings;
        holdings.files.aim(socket, target);
    }

    /// Drops all that waits at a socket. While marking, it first marks the files there. Takes no
    /// memory.
    // Few events come here. Inlined, it would cost the others registers.
    #[cold]
    #[inline(never)]
    fn drain(&mut self, socket: &FileRef)
        requires spared { NotBegunGarbage self.old.pass socket.now }
        ensures { self.new ≡ record self.old {
          world = emptied (nat_eq socket.now) self.old.world;
          marks = self.new.marks;
          message_room = self.new.message_room;
        } }
    {
        self.shade_held(socket);
        self.holdings.empty(socket);
    }

    /// Closes the input of a socket if `input` says so, and its output if `output` does
    /// (shutdown(2)). Takes no memory.
    pub fn shut(&mut self, socket: &FileRef, input: bool, output: bool)
        ensures { self.new ≡ record self.old {
          world = with_socket self.old.world socket.now (shut input output);
        } }
    {
        let holdings = &mut self.holdings;
        holdings.files.shut(socket, input, output);
    }

    /// Makes an embryo: a socket that is connected to `client`, which is idle, and the client to
    /// it. Neither is a datagram socket. Appends it to the backlog of a listener that has room for
    /// it (connect(2)). On an error nothing has changed.
    pub fn make_embryo(
        &mut self,
        kind: SockType,
        client: &FileRef,
        listener: &FileRef,
    ) -> Result<(), AllocError>
        requires full { is_full self.old.world 1 ≡ false }
        requires client { is_none (socket_at self.old.world client.now) ≡ false }
        requires kind { is_datagram kind ≡ false }
        requires connections { IfSome (socket_at self.old.world client.now) (λ s.
            is_datagram s.kind ≡ false) }
        requires idle { IfSome (socket_at self.old.world client.now) (λ s. s.state ≡ State.Idle) }
        requires listener { is_none (socket_at self.old.world listener.now) ≡ false }
        requires room { IfSome (socket_at self.old.world listener.now) (λ s.
            length s.backlog < room_of s.state) }
        ensures ok { OnOk result (self.new ≡ record self.old {
          world = with_embryo self.old.world client.now listener.now kind;
          marks = self.new.marks;
        }) }
        ensures err { OnErr result (self.new ≡ self.old) }
    {
        let holdings = &mut self.holdings;
        let embryo = holdings.files.make_embryo(kind, client, &Place::Backlog)?;
        holdings.files.enqueue(listener, embryo);
        Ok(())
    }

    /// Appends an embryo to the backlog of a listener that has room for it. Takes no memory.
    pub fn put_embryo(&mut self, listener: &FileRef, embryo: FileRef)
        requires live { world.IsLive self.old.world embryo }
        requires spared { NotBegunGarbage self.old.pass embryo }
        requires new { waiting self.old.world embryo ≡ 0 }
        requires room { IfSome (socket_at self.old.world listener.now) (λ s.
            length s.backlog < room_of s.state) }
        requires socket { is_none (socket_at self.old.world listener.now) ≡ false }
        ensures { self.new
            ≡ record self.old { world = with_socket self.old.world listener.now (queued embryo) } }
    {
        let holdings = &mut self.holdings;
        holdings.files.hold(&Place::Backlog, &embryo);
        holdings.files.enqueue(listener, embryo);
    }

    /// Moves the first embryo of a listener out of its backlog and into a table, at a free
    /// descriptor for which there is room (accept(2)). Takes no memory.
    #[inline(always)]
    pub fn take_embryo(&mut self, listener: &FileRef, pid: Pid, fd: Fd)
        requires there { IsTrue (finmap.contains_key self.old.world.processes pid) }
        requires row { fd < room_at self.old pid }
        requires limit { IsBelowLimit self.old.world pid fd }
        requires free { table_at self.old.world pid fd ≡ None }
        requires some { 0 < length (backlog_at self.old.world listener.now) }
        requires spared { NotBegunGarbage self.old.pass listener.now }
        ensures { (embryo : ℕ) → slice_get (backlog_at self.old.world listener.now) 0 ≡ Some embryo
            → self.new ≡ record self.old {
              world = install (with_socket self.old.world listener.now dequeued) pid fd embryo;
              marks = self.new.marks;
            } }
    {
        self.shade_embryo(listener);
        let holdings = &mut self.holdings;
        let embryo = holdings.files.dequeue(listener).unwrap();
        holdings.files.move_to_table(&Place::Backlog, &embryo);
        holdings.procs.install(pid, fd, embryo);
    }
}
