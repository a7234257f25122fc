//! Changes of the references of single descriptors and messages. Each is one change of the world,
//! and keeps the counts in step with it. An unreferenced file stays, with all that it holds, until
//! `release` frees it; only `close` may remove one immediately, if it holds nothing.
ghost use Rattle.std.specs.Prelude.{◌≡◌, ◌<◌, ◌≤◌, ◌+◌, ℕ, None, IsTrue, IfOk};
ghost use Rattle.std.specs.Prelude.{IfSome, OnOk, OnErr, length, false, is_none, is_some};
ghost use Rattle.std.specs.Prelude.{[], true, IsOk};
ghost use Rattle.std.specs.List.{zip, Contains};
ghost use Rattle.std.specs.FinMap as finmap;
ghost use Rattle.af_base.specs.World as world;
ghost use Rattle.af_base.specs.World.{World};
ghost use Rattle.af_base.specs.Places.{held_in, queue_at, queue_in, table_at};
ghost use Rattle.af_base.specs.Changes.{install, install_all, push_message, uninstall, with_queue};
ghost use Rattle.af_base.specs.Counts.{total};
ghost use Rattle.af_base.specs.Refusals.{socket_at};
ghost use Rattle.af_base.specs.Unheld.{Settles};
ghost use Rattle.af_base.specs.Whole.{IsMessageWithin, IsSound};
ghost use Rattle.af_base.specs.Take.{keeps_borders};
ghost use Rattle.af_collect.specs.Limits.{IsBelowLimit, IsOfProcess};
ghost use Rattle.af_collect.specs.Receiving.{CanReceive, taken_at};
ghost use Rattle.af_collect.specs.Keeping.{NotBegunGarbage};
ghost use Rattle.af_collect.specs.Losing.{vacated, without_descriptor};
ghost use Rattle.af_collect.specs.StoreView.{room_at};
ghost use Rattle.af_desc.specs.FilesView.{freed, received_of};
ghost use Rattle.af_ledger.specs.Counted.{places_in, IsCounted};
ghost use Rattle.af_ledger.specs.Tally.{count_in_map};
ghost use Rattle.af_ledger.specs.declared.place.Place.TheVariants.{Table};
ghost use Rattle.af_mark.specs.MarksView.{is_unmarked};
ghost use Rattle.af_queue.specs.TakenView.{nothing_received};

use crate::charges::charge_message;
use crate::progress::{PassProgress, Stage};
use crate::shading::shade_taken;
use crate::store::Store;
use crate::tables::{receive_all, table_in_all};
use af_base::ids::{Fd, FileRef, Pid};
use af_base::limits::{MAX_INFLIGHT, MAX_MESSAGES};
use af_desc::Files;
use af_ledger::Place;
use af_queue::{Msg, Taken};
use std::alloc::AllocError;

impl Store {
    /// Installs a live file at a free descriptor for which there is room. Takes no memory.
    #[inline(always)]
    pub fn table_in(&mut self, pid: Pid, fd: Fd, file: FileRef)
        requires there { IsTrue (finmap.contains_key self.old.world.processes pid) }
        requires row { fd < room_at self.old pid }
        requires limit { IsBelowLimit self.old.world pid fd }
        requires free { table_at self.old.world pid fd ≡ None }
        requires live { world.IsLive self.old.world file }
        requires spared { NotBegunGarbage self.old.pass file }
        ensures { self.new ≡ record self.old { world = install self.old.world pid fd file } }
    {
        let holdings = &mut self.holdings;
        holdings.files.hold(&Place::Table, &file);
        holdings.procs.install(pid, fd, file);
    }

    /// Installs a live file at a descriptor for which there is room, in place of the file that it
    /// referred to, if any (dup2(2)). Takes no memory.
    #[inline(always)]
    pub fn replace(&mut self, pid: Pid, fd: Fd, file: FileRef)
        requires there { IsTrue (finmap.contains_key self.old.world.processes pid) }
        requires row { fd < room_at self.old pid }
        requires limit { IsBelowLimit self.old.world pid fd }
        requires live { world.IsLive self.old.world file }
        requires spared { NotBegunGarbage self.old.pass file }
        ensures { self.new ≡ record self.old {
          world = install self.old.world pid fd file;
          marks = self.new.marks;
        } }
    {
        let holdings = &mut self.holdings;
        let was = holdings.procs.replace(pid, fd, file.duplicate());
        drop_replaced(&self.progress, &mut holdings.files, was);
        holdings.files.hold(&Place::Table, &file);
    }

    /// Closes a descriptor of a process, if it is open. Returns whether it was. Takes no memory.
    #[inline(always)]
    pub fn close_at(&mut self, pid: Pid, fd: Fd) -> bool
        ensures open { result ≡ is_some (table_at self.old.world pid fd) }
        ensures closed { result ≡ true → self.new ≡ record self.old {
          world = uninstall self.old.world pid fd;
          marks = self.new.marks;
        } }
        ensures unchanged { result ≡ false → self.new ≡ self.old }
    {
        let holdings = &mut self.holdings;
        let Some(file) = holdings.procs.take_out(pid, fd) else {
            return false;
        };
        drop_descriptor(&self.progress, &mut holdings.files, &file);
        true
    }

    /// Closes a descriptor of a process, if it is open, and frees the files that are unreferenced
    /// then (close(2)): `close_at` and `release`, by one look at a file that holds nothing and
    /// is closed for the last time. Returns whether the descriptor was open. Takes no memory.
    #[inline(always)]
    pub fn close(&mut self, pid: Pid, fd: Fd) -> bool
        ensures open { result ≡ is_some (table_at self.old.world pid fd) }
        ensures settles { result ≡ true
            → Settles (uninstall self.old.world pid fd) self.new.world }
        ensures sound { result ≡ true → IsSound self.new.world }
        ensures rows { self.new.rows ≡ self.old.rows }
        ensures since { self.new.since ≡ self.old.since }
        ensures pass { self.new.pass ≡ self.old.pass }
        ensures progress { self.new.progress
            ≡ record self.old.progress { reclaimed = self.new.progress.reclaimed } }
        ensures unchanged { result ≡ false → self.new ≡ self.old }
    {
        if !self.close_and_free(pid, fd) {
            return false;
        }
        self.release();
        true
    }

    /// Closes a descriptor of a process, if it is open, and may remove its file immediately, if
    /// that holds nothing. Returns whether the descriptor was open. Takes no memory.
    #[inline(always)]
    fn close_and_free(&mut self, pid: Pid, fd: Fd) -> bool
        ensures open { result ≡ is_some (table_at self.old.world pid fd) }
        ensures settles { result ≡ true → (end : World) → Settles self.new.world end
            → Settles (uninstall self.old.world pid fd) end }
        ensures rest { self.new ≡ record self.old {
          world = self.new.world;
          marks = self.new.marks;
        } }
        ensures unchanged { result ≡ false → self.new ≡ self.old }
    {
        let holdings = &mut self.holdings;
        let Some(file) = holdings.procs.take_out(pid, fd) else {
            return false;
        };
        drop_and_free(&self.progress, &mut holdings.files, &file);
        true
    }

    /// Closes an open descriptor of a process. Takes no memory.
    #[inline(always)]
    pub fn table_out(&mut self, pid: Pid, fd: Fd)
        requires { is_none (table_at self.old.world pid fd) ≡ false }
        ensures { self.new ≡ record self.old {
          world = uninstall self.old.world pid fd;
          marks = self.new.marks;
        } }
    {
        let _was_open = self.close_at(pid, fd);
    }

    /// Appends a message, whose files are live, to the queue of a socket, and charges each file to
    /// its user, who is the user of a process. Cannot fail, since there is room.
    #[inline(always)]
    pub fn put_msg(&mut self, socket: &FileRef, message: Msg)
        requires live { (f : ℕ) → Contains message.attached f → world.IsLive self.old.world f }
        requires spared { (f : ℕ) → Contains message.attached f → NotBegunGarbage self.old.pass f }
        requires user { IsOfProcess self.old.world message.user }
        requires within { IsMessageWithin message }
        requires flying { total self.old.world + length message.attached ≤ MAX_INFLIGHT }
        requires socket { is_none (socket_at self.old.world socket.now) ≡ false }
        requires queue { length (queue_at self.old.world socket.now) < MAX_MESSAGES }
        requires room { self.old.message_room ≡ true }
        ensures { self.new ≡ record self.old {
          world = push_message self.old.world socket.now message;
          message_room = self.new.message_room;
        } }
    {
        let holdings = &mut self.holdings;
        charge_message(
            &mut holdings.files,
            &mut holdings.ledger,
            message.user(),
            message.attached(),
        );
        holdings.files.push(socket, message);
    }

    /// Takes from a queue, into an empty result, what a receive of at most `max` bytes gives
    /// (recvmsg(2)): installs its first files at these descriptors, the lowest free ones, and drops
    /// all its places in the queue. Takes memory before any change: on an error nothing has
    /// changed.
    pub fn take_msg(
        &mut self,
        socket: &FileRef,
        max: usize,
        pid: Pid,
        fds: &[Fd],
        taken: &mut Taken,
    ) -> Result<(), AllocError>
        requires can { CanReceive self.old socket.now max pid fds.now }
        requires empty { taken.old ≡ nothing_received }
        ensures taken { OnOk result
            (taken.new ≡ received_of (socket_at self.old.world socket.now) max) }
        ensures world { OnOk result (self.new ≡ record self.old {
          world = install_all
              (with_queue self.old.world socket.now (taken_at self.old.world socket.now max).rest)
              pid (zip fds.now (taken_at self.old.world socket.now max).attached);
          marks = self.new.marks;
          message_room = self.new.message_room;
        }) }
        ensures err { OnErr result (self.new ≡ self.old) }
        ensures succeeds { IfSome (socket_at self.old.world socket.now) (λ s.
            keeps_borders s.kind ≡ true) → IsOk result }
    {
        let holdings = &mut self.holdings;
        holdings.files.take(socket, max, taken)?;
        let attached = taken.attached();
        receive_all(
            &mut holdings.procs,
            &mut holdings.files,
            &mut holdings.ledger,
            pid,
            fds,
            taken.user(),
            attached,
        );
        shade_taken(&self.progress, &mut holdings.files, attached);
        Ok(())
    }

    /// Copies what a receive of at most `max` bytes would take from a queue, which stays as it is
    /// (recvmsg(2), MSG_PEEK): installs its first files at these descriptors, the lowest free ones.
    /// Takes memory before any change: on an error nothing has changed.
    pub fn peek_msg(
        &mut self,
        socket: &FileRef,
        max: usize,
        pid: Pid,
        fds: &[Fd],
    ) -> Result<Taken, AllocError>
        requires { CanReceive self.old socket.now max pid fds.now }
        ensures seen { IfOk result (λ t.
            t ≡ received_of (socket_at self.old.world socket.now) max) }
        ensures world { OnOk result (self.new ≡ record self.old {
          world = install_all self.old.world pid
              (zip fds.now (taken_at self.old.world socket.now max).attached);
        }) }
        ensures err { OnErr result (self.new ≡ self.old) }
    {
        let holdings = &mut self.holdings;
        let seen = holdings.files.peek(socket, max)?;
        // Nothing leaves a place, so nothing is to be marked.
        table_in_all(
            &mut holdings.procs,
            &mut holdings.files,
            pid,
            fds,
            seen.attached(),
        );
        Ok(seen)
    }
}

/// Drops the reference of a descriptor to a file, which is marked first, while marking. Takes no
/// memory.
#[inline(always)]
fn drop_descriptor(progress: &PassProgress, files: &mut Files, file: &FileRef)
    requires { IsCounted Table (count_in_map files.old.counts file.now) }
    ensures { files.new ≡ without_descriptor progress.now.stage file.now files.old }
{
    if matches!(progress.stage, Stage::Marking) {
        files.shade(file);
    }
    files.drop_one(&Place::Table, file);
}

/// Drops the reference of a descriptor to the file that was replaced there, if any. The file is
/// marked first, while marking. Takes no memory.
#[inline(always)]
fn drop_replaced(progress: &PassProgress, files: &mut Files, was: Option<FileRef>)
    requires { IfSome was (λ f. IsCounted Table (count_in_map files.old.counts f)) }
    ensures { files.new ≡ vacated progress.now.stage was files.old }
{
    if let Some(was) = was {
        drop_descriptor(progress, files, &was);
    }
}

/// Drops the reference of a descriptor to a file, which is marked first, while marking. A file
/// without another reference that holds nothing may be removed immediately. Returns whether it was.
/// Takes no memory.
#[inline(always)]
fn drop_and_free(progress: &PassProgress, files: &mut Files, file: &FileRef) -> bool
    requires { IsCounted Table (count_in_map files.old.counts file.now) }
    ensures removed { result ≡ true → files.new
        ≡ freed file.now (without_descriptor progress.now.stage file.now files.old) }
    ensures silent { result ≡ true → queue_in files.old.files file.now ≡ [] }
    ensures bare { result ≡ true → held_in files.old.files file.now ≡ [] }
    ensures unmarked { result ≡ true → is_unmarked
        (without_descriptor progress.now.stage file.now files.old).marks file.now ≡ false }
    ensures last { result ≡ true → places_in (count_in_map files.old.counts file.now) ≡ 1 }
    ensures kept { result ≡ false
        → files.new ≡ without_descriptor progress.now.stage file.now files.old }
{
    if matches!(progress.stage, Stage::Marking) {
        files.shade(file);
    }
    files.drop_descriptor(file)
}
