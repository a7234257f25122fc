//! The store: processes, files and their counts, and beside them the pass that runs.
ghost use Rattle.std.specs.Prelude.{◌≡◌, ◌<◌, ◌≤◌, ◌+◌, ◌∷◌, [], false, None, Some, IsTrue, IsOk};
ghost use Rattle.std.specs.Prelude.{IfOk, OnOk, OnErr, true};
ghost use Rattle.std.specs.FinMap as map;
ghost use Rattle.af_base.specs.World.{Plain, empty_world, untold};
ghost use Rattle.af_base.specs.Changes.{add_file, add_process, install, remove_process, set_limit};
ghost use Rattle.af_base.specs.Pass.{Idle};
ghost use Rattle.af_base.specs.Places.{table_at};
ghost use Rattle.af_base.specs.Refusals.{is_full, is_at_process_limit, process_at};
ghost use Rattle.af_base.specs.Steps.{spawned, with_pair};
ghost use Rattle.af_base.specs.Table.{lowest_free};
ghost use Rattle.af_base.specs.Told.{AreChanged, AreSocketsOnce, TellsReleased};
ghost use Rattle.af_collect.specs.Limits.{IsBelowLimit};
ghost use Rattle.af_collect.specs.StoreView.{room_at};
ghost use Rattle.af_desc.specs.Told.{since_telling};

use crate::holdings::Holdings;
use crate::progress::{PassProgress, Stage};
use crate::tables::{ref_table, unref_table};
use af_base::events::SockType;
use af_base::ids::{Fd, FileRef, Ino, Pid, Uid};
use af_base::limits::MAX_NOFILE;
use af_desc::ToldList;
use af_ledger::Place;
use std::alloc::{AllocError, Global};
use std::marker::Model;
use std::snapshot::Snapshot;

/// The processes with their tables, the files, how many places hold each file, and the pass of the
/// collector, if one runs.
pub struct Store {
    pub(crate) holdings: Holdings,
    /// The holdings when the pass began: for contracts alone.
    pub(crate) begun: Snapshot<Holdings>,
    pub(crate) progress: PassProgress,
    /// The position in the order behind the file that a pass visited or swept last: a hint.
    pub(crate) order_hint: usize,
}

/// It is written out, and not derived: so an owner's proof has one call where it drops a store.
impl Drop for Store {
    fn drop(self) {
        let Store {
            holdings: _,
            begun: _,
            progress: _,
            order_hint: _,
        } = self;
    }
}

impl Model for Store {
    ghost use Rattle.std.specs.FinMap as map;
    ghost use Rattle.std.specs.Coded.{codes};
    ghost use Rattle.af_collect.specs.Keeping.{PassInvariant, pass_of};
    ghost use Rattle.af_collect.specs.StoreView.{StoreView};

    ghost Value = { StoreView };

    ghost coded = { Prim.hlevel (codes, map.code) };

    ghost view = { λ s. record {
      world = s.holdings.world;
      rows = s.holdings.rows;
      message_room = s.holdings.message_room;
      begun = s.begun.value.world;
      pass = pass_of s.progress.stage s.begun.value.world s.progress.looked;
      marks = s.holdings.marks;
      progress = s.progress;
      since = s.holdings.since;
    } };

    ghost invariant = { λ s.
        PassInvariant s.holdings.world s.begun.value.world s.holdings.marks s.progress };
}

impl Store {
    /// Makes an empty store. Takes no memory.
    pub fn new(alloc: Global) -> Store
        ensures world { result.world ≡ empty_world }
        ensures since { result.since ≡ untold }
        ensures pass { result.pass ≡ Idle }
    {
        let holdings = Holdings::new(alloc);
        let begun = Snapshot::of(&holdings);
        Store {
            holdings,
            begun,
            progress: PassProgress {
                stage: Stage::Resting,
                visited: 0,
                swept: 0,
                looked: 0,
                reclaimed: 0,
            },
            order_hint: 0,
        }
    }

    /// Starts a process with an empty table. On an error nothing has changed.
    pub fn spawn(&mut self, uid: Uid, limit: u32, privileged: bool) -> Result<Pid, AllocError>
        requires limit { limit ≤ MAX_NOFILE }
        requires room { is_at_process_limit self.old.world ≡ false }
        ensures ok { OnOk result (self.new.world ≡ spawned self.old.world uid limit privileged) }
        ensures pass { self.new.pass ≡ self.old.pass }
        ensures since { self.new.since ≡ self.old.since }
        ensures progress { self.new.progress ≡ self.old.progress }
        ensures marks { self.new.marks ≡ self.old.marks }
        ensures pid { IfOk result (λ pid. pid ≡ self.old.world.next_pid) }
        ensures err { OnErr result (self.new ≡ self.old) }
    {
        let holdings = &mut self.holdings;
        holdings.procs.room_to_spawn()?;
        holdings.ledger.add_user(uid)?;
        Ok(holdings.procs.spawn(uid, limit, privileged))
    }

    /// Sets a process's limit on descriptors (setrlimit(2), RLIMIT_NOFILE); none is closed. Takes
    /// no memory.
    pub fn set_limit(&mut self, pid: Pid, limit: u32)
        requires { limit ≤ MAX_NOFILE }
        ensures { self.new ≡ record self.old { world = set_limit self.old.world pid limit } }
    {
        let holdings = &mut self.holdings;
        holdings.procs.set_limit(pid, limit);
    }

    /// Reserves room to install `count` descriptors of the process. No process can see a change,
    /// also on an error. Needs no memory if the table is as long as the limit, or `count` is 0.
    // Few events come here. Inlined, it would cost the others registers.
    #[cold]
    #[inline(never)]
    pub fn room_for(&mut self, pid: Pid, count: usize) -> Result<(), AllocError>
        ensures world { self.new.world ≡ self.old.world }
        ensures pass { self.new.pass ≡ self.old.pass }
        ensures since { self.new.since ≡ self.old.since }
        ensures progress { self.new.progress ≡ self.old.progress }
        ensures marks { self.new.marks ≡ self.old.marks }
        ensures row { OnOk result
            (0 < count → (process_at self.old.world pid).limit ≤ room_at self.new pid) }
        ensures none { count ≡ 0 → IsOk result }
        ensures ready { (process_at self.old.world pid).limit ≤ room_at self.old pid → IsOk result }
    {
        let holdings = &mut self.holdings;
        holdings.procs.room_for(pid, count)
    }

    /// Makes room for one message more, so that the next `put_msg` cannot fail. On an error nothing
    /// that a process can see has changed.
    pub fn room_for_message(&mut self) -> Result<(), AllocError>
        ensures ok { OnOk result (self.new.message_room ≡ true) }
        ensures succeeds { self.old.message_room ≡ true → IsOk result }
        ensures rest { self.new ≡ record self.old { message_room = self.new.message_room } }
    {
        let holdings = &mut self.holdings;
        holdings.files.room_for_message()
    }

    /// Begins to keep that list, and empties both. On an error nothing has changed.
    pub fn tell(&mut self, list: ToldList) -> Result<(), AllocError>
        ensures ok { OnOk result (self.new ≡ record self.old {
          since = since_telling list self.old.since self.old.world.files self.old.world.next_ino;
        }) }
        ensures err { OnErr result (self.new ≡ self.old) }
    {
        let holdings = &mut self.holdings;
        holdings.files.tell(list)
    }

    /// Returns the numbers of the files that were freed since the lists were last emptied, each
    /// once, if that list is kept.
    pub fn released_files(&self) -> &[Ino]
        ensures { TellsReleased self.now.world self.now.since result.now }
    {
        self.holdings.files().released_files()
    }

    /// Returns the sockets whose readiness may have changed since the lists were last emptied, each
    /// once, if that list is kept.
    pub fn changed_sockets(&self) -> &[FileRef]
        ensures once { AreSocketsOnce self.now.world.files result.now }
        ensures changed { self.now.since.changed ≡ true
            → AreChanged self.now.world.files self.now.since result.now }
    {
        self.holdings.files().changed_sockets()
    }

    /// Empties both lists. Takes no memory.
    pub fn clear_told(&mut self)
        ensures { self.new ≡ record self.old {
          since = record self.old.since {
            files = self.old.world.files;
            next = self.old.world.next_ino;
          };
        } }
    {
        let holdings = &mut self.holdings;
        holdings.files.clear_told();
    }

    /// Makes a plain file, at a free descriptor for which there is room (open(2)). On an error
    /// nothing has changed.
    pub fn make_plain(&mut self, pid: Pid, fd: Fd) -> Result<(), AllocError>
        requires full { is_full self.old.world 1 ≡ false }
        requires there { IsTrue (map.contains_key self.old.world.processes pid) }
        requires row { fd < room_at self.old pid }
        requires limit { IsBelowLimit self.old.world pid fd }
        requires free { table_at self.old.world pid fd ≡ None }
        ensures ok { OnOk result (self.new ≡ record self.old {
          world = install (add_file self.old.world Plain) pid fd self.old.world.next_ino;
          marks = self.new.marks;
        }) }
        ensures err { OnErr result (self.new ≡ self.old) }
    {
        let holdings = &mut self.holdings;
        let file = holdings.files.make_plain(&Place::Table)?;
        holdings.procs.install(pid, fd, file);
        Ok(())
    }

    /// Makes a plain file, at a free descriptor below the limit (open(2)): `room_for` and
    /// `make_plain` by one look at the process. On an error no process can see a change.
    #[inline(always)]
    pub fn open_at(&mut self, pid: Pid, fd: Fd) -> Result<(), AllocError>
        requires full { is_full self.old.world 1 ≡ false }
        requires there { IsTrue (map.contains_key self.old.world.processes pid) }
        requires limit { IsBelowLimit self.old.world pid fd }
        requires free { table_at self.old.world pid fd ≡ None }
        ensures ok { OnOk result (self.new ≡ record self.old {
          world = install (add_file self.old.world Plain) pid fd self.old.world.next_ino;
          rows = self.new.rows;
          marks = self.new.marks;
        }) }
        ensures err { OnErr result (self.new ≡ record self.old { rows = self.new.rows }) }
    {
        let holdings = &mut self.holdings;
        let process = holdings.procs.find_with_room(pid)?;
        let file = holdings.files.make_plain(&Place::Table)?;
        process.install(fd, file);
        Ok(())
    }

    /// Makes two sockets that are connected to each other, or datagram sockets that send to each
    /// other, at the two lowest free descriptors, for which there is room (socketpair(2)). On an
    /// error it makes none, and nothing has changed.
    pub fn make_two(
        &mut self,
        kind: SockType,
        pid: Pid,
        lower: Fd,
        higher: Fd,
    ) -> Result<(), AllocError>
        requires full { is_full self.old.world 2 ≡ false }
        requires there { IsTrue (map.contains_key self.old.world.processes pid) }
        requires lowest { lower ∷ higher ∷ [] ≡ lowest_free 2 (process_at self.old.world pid) }
        requires row { (lower < room_at self.old pid) × (higher < room_at self.old pid) }
        ensures ok { OnOk result (self.new ≡ record self.old {
          world = install
              (install (with_pair self.old.world kind) pid lower self.old.world.next_ino) pid higher
              (self.old.world.next_ino + 1);
          marks = self.new.marks;
        }) }
        ensures err { OnErr result (self.new ≡ self.old) }
    {
        let holdings = &mut self.holdings;
        let (first, second) = holdings.files.make_two(kind, &Place::Table)?;
        holdings.procs.install(pid, lower, first);
        holdings.procs.install(pid, higher, second);
        Ok(())
    }

    /// Makes two sockets that are connected to each other, or datagram sockets that send to each
    /// other, at the two lowest free descriptors (socketpair(2)): `room_for` and `make_two` by one
    /// look at the process. On an error it makes none, and no process can see a change.
    #[inline(always)]
    pub fn pair_at(
        &mut self,
        kind: SockType,
        pid: Pid,
        lower: Fd,
        higher: Fd,
    ) -> Result<(), AllocError>
        requires full { is_full self.old.world 2 ≡ false }
        requires there { IsTrue (map.contains_key self.old.world.processes pid) }
        requires lowest { lower ∷ higher ∷ [] ≡ lowest_free 2 (process_at self.old.world pid) }
        ensures ok { OnOk result (self.new ≡ record self.old {
          world = install
              (install (with_pair self.old.world kind) pid lower self.old.world.next_ino) pid higher
              (self.old.world.next_ino + 1);
          rows = self.new.rows;
          marks = self.new.marks;
        }) }
        ensures err { OnErr result (self.new ≡ record self.old { rows = self.new.rows }) }
    {
        let holdings = &mut self.holdings;
        let process = holdings.procs.find_with_room(pid)?;
        let (first, second) = holdings.files.make_two(kind, &Place::Table)?;
        process.install(lower, first);
        process.install(higher, second);
        Ok(())
    }

    /// Starts a process by a fork: of the same user, with the same limit and privilege, and the
    /// same open descriptors. On an error nothing has changed.
    pub fn copy_for_fork(&mut self, pid: Pid) -> Result<Pid, AllocError>
        requires there { IsTrue (map.contains_key self.old.world.processes pid) }
        requires room { is_at_process_limit self.old.world ≡ false }
        ensures ok { OnOk result
            (self.new.world ≡ add_process self.old.world (process_at self.old.world pid)) }
        ensures pass { self.new.pass ≡ self.old.pass }
        ensures since { self.new.since ≡ self.old.since }
        ensures progress { self.new.progress ≡ self.old.progress }
        ensures marks { self.new.marks ≡ self.old.marks }
        ensures pid { IfOk result (λ child. child ≡ self.old.world.next_pid) }
        ensures err { OnErr result (self.new ≡ self.old) }
    {
        let holdings = &mut self.holdings;
        let child = holdings.procs.copy_for_fork(pid)?;
        let process = holdings.procs.find(child).unwrap();
        ref_table(&mut holdings.files, process);
        Ok(child)
    }

    /// Ends a process, and closes all its descriptors (_exit(2)). Ignores an unknown process. Takes
    /// no memory.
    pub fn remove_process(&mut self, pid: Pid)
        ensures world { self.new.world ≡ remove_process self.old.world pid }
        ensures pass { self.new.pass ≡ self.old.pass }
        ensures since { self.new.since ≡ self.old.since }
        ensures progress { self.new.progress ≡ self.old.progress }
    {
        self.shade_table(pid);
        let holdings = &mut self.holdings;
        let Some(process) = holdings.procs.find(pid) else {
            return;
        };
        // The references go before the process, since its removal moves the table.
        unref_table(&mut holdings.files, process);
        holdings.procs.remove(pid);
    }
}
