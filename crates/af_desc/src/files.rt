//! The files, by their numbers.
ghost use Rattle.std.specs.Prelude.{◌≡◌, ℕ, ◌+◌, ◌<◌, ◌∷◌, ◌≤◌, [], false, None, IsTrue, IsOk};
ghost use Rattle.std.specs.Prelude.{IfSome, IfNone, IfErr, IfOk, OnOk, OnErr, is_none, length};
ghost use Rattle.std.specs.Prelude.{drop, option_copied, true, unwrap_or, vec_capacity};
ghost use Rattle.std.specs.FinMap as map;
ghost use Rattle.af_base.specs.World as world;
ghost use Rattle.af_base.specs.Places.{backlog_in, queue_in};
ghost use Rattle.af_base.specs.Names.{named, set_of};
ghost use Rattle.af_base.specs.Changes.{connected, dequeued, listening, pushed, queued, shut};
ghost use Rattle.af_base.specs.Changes.{with_name};
ghost use Rattle.af_base.specs.Refusals.{room_of};
ghost use Rattle.af_base.specs.Steps.{connected_socket, idle_socket};
ghost use Rattle.af_base.specs.Take.{keeps_borders};
ghost use Rattle.af_base.specs.Told.{AreChanged, AreReleased, AreSocketsOnce};
ghost use Rattle.af_base.specs.Whole.{IsMessageWithin};
ghost use Rattle.af_base.specs.World.{untold};
ghost use Rattle.af_mark.specs.MarksView.{is_grey, is_unmarked};
ghost use Rattle.af_desc.specs.FileTableView.{file_of};
ghost use Rattle.af_desc.specs.FilesView.{AreNamed, after_end, changed, changed_queue, entered};
ghost use Rattle.af_desc.specs.FilesView.{freed, is_full, is_live, is_unmarked_socket, name_of};
ghost use Rattle.af_desc.specs.FilesView.{paired, received_from, received_of, socket_in, turned};
ghost use Rattle.af_desc.specs.FilesView.{without};
ghost use Rattle.af_desc.specs.Holding.{IsPopped, without_popped};
ghost use Rattle.af_desc.specs.Told.{since_telling};
ghost use Rattle.af_queue.specs.TakenView.{nothing_received};

use crate::contents::Popped;
use crate::counts::more_embryos;
use crate::file_table::FileTable;
use crate::socket::{FileKind, Socket};
use crate::told_lists::{ToldList, widen};
use af_base::events::SockType;
use af_base::file_list::swap_remove_file;
use af_base::ids::{FileRef, Ino, Uid};
use af_base::items::Items;
use af_base::limits::{MAX_FILES, MAX_INO, MAX_MESSAGES};
use af_ledger::Place;
use af_listen::NameSets;
use af_queue::{Attached, Msg, Taken};
use std::alloc::{AllocError, Global};
use std::marker::Model;

/// Room is reserved for at least this many files at once, so that most of them compare one number.
const RESERVED_AT_ONCE: usize = 64;

/// The files, each under a number that is never used again, with its count, its mark in a pass, and
/// its name, if it has one. A `FileRef` has a hint of the key of its row.
pub struct Files {
    pub(crate) alloc: Global,
    pub(crate) rows: FileTable,
    /// The unreferenced files.
    pub(crate) unreferenced: Vec<FileRef>,
    /// The grey files: marked, and not scanned.
    pub(crate) grey: Vec<FileRef>,
    /// The present epoch: no mark of an earlier one counts. A pass's begin and its end each take
    /// the next one.
    pub(crate) epoch: u32,
    /// Files from this number on were made since the pass began.
    pub(crate) bound: u64,
    pub(crate) next: u64,
    /// The names, in the sets of the types of sockets.
    pub(crate) names: NameSets,
    /// At least the number of embryos: at the largest `u64` it no longer changes.
    pub(crate) embryos: u64,
    /// At least the number of files below the bound that are not marked.
    pub(crate) white: usize,
}

/// It is written out, and not derived: so an owner's proof has one call where it drops the files.
impl Drop for Files {
    fn drop(self) {
        let Files {
            alloc: _,
            rows: _,
            unreferenced: _,
            grey: _,
            epoch: _,
            bound: _,
            next: _,
            names: _,
            embryos: _,
            white: _,
        } = self;
    }
}

impl Model for Files {
    ghost use Rattle.std.specs.FinMap as map;
    ghost use Rattle.std.specs.Coded.{codes};
    ghost use Rattle.std.specs.Prelude.{vec_capacity};
    ghost use Rattle.af_mark.specs.Grey.{colors_in};
    ghost use Rattle.af_desc.specs.FilesView.{FilesInvariant, FilesView};

    ghost Value = { FilesView };

    ghost coded = { Prim.hlevel (codes, map.code) };

    ghost view = { λ a. record {
      files = a.rows.files;
      counts = a.rows.counts;
      marks = record { colors = colors_in a.epoch a.rows.marks; bound = a.bound };
      since = a.rows.since;
      next = a.next;
      message_room = a.rows.message_room;
    } };

    ghost invariant = { λ a. FilesInvariant a.rows
        a.unreferenced.items (vec_capacity a.unreferenced) a.names a.next a.epoch
        a.grey.items (vec_capacity a.grey) a.embryos a.bound a.white };
}

impl Files {
    /// Makes an empty table of files; numbers begin at 1. Takes no memory.
    #[tactic(auto, using(crate::proofs::FirstNumber::begun))]
    pub fn new(alloc: Global) -> Files
        ensures files { result.files ≡ map.empty }
        ensures counts { result.counts ≡ map.empty }
        ensures marks { result.marks ≡ record { colors = map.empty; bound = 0 } }
        ensures since { result.since ≡ untold }
        ensures next { result.next ≡ 1 }
    {
        Files {
            alloc,
            rows: FileTable::new(alloc),
            unreferenced: Vec::new(alloc),
            grey: Vec::new(alloc),
            epoch: 0,
            bound: 0,
            next: 1,
            names: NameSets::new(alloc),
            embryos: 0,
            white: 0,
        }
    }

    /// Returns how many files there are.
    #[inline(always)]
    pub fn live(&self) -> usize
        ensures { result ≡ map.len self.now.files }
    {
        self.rows.len()
    }

    /// Returns the number that the next file gets.
    pub fn next_ino(&self) -> Ino
        ensures { result ≡ self.now.next }
    {
        Ino(self.next)
    }

    /// Returns whether `more` further files are too many, or have no numbers left (ENFILE,
    /// open(2)).
    #[inline(always)]
    pub fn is_full(&self, more: usize) -> bool
        ensures { result ≡ is_full self.now more }
    {
        self.live().saturating_add(more) > MAX_FILES
            || self.next.saturating_add(more as u64) > MAX_INO + 1
    }

    /// Returns the file numbered `ino`, if it is known, by a search. A look-up by `FileRef` needs
    /// none if its hint is right.
    pub fn find(&self, ino: Ino) -> Option<FileRef>
        ensures there { IfSome result (λ f. (f ≡ ino) × IsTrue (is_live self.now ino)) }
        ensures none { IfNone result (is_live self.now ino ≡ false) }
    {
        self.rows.find(ino)
    }

    /// Returns the socket that the file is; `None` for a plain or unknown file.
    #[inline(always)]
    pub fn socket(&self, file: &FileRef) -> Option<Socket<'_>>
        ensures { result ≡ socket_in self.now.files file.now }
    {
        self.rows.socket(file)
    }

    /// Returns the socket with the abstract name `name` in the set of the sockets of this type, if
    /// there is one (unix(7)): one look-up, for any number of names.
    #[inline(always)]
    pub fn find_name(&self, kind: SockType, name: &[u8]) -> Option<FileRef>
        ensures { result ≡ named self.now.files (set_of kind) name.now }
    {
        self.names.find(kind, name)
    }

    /// Returns the file with the least number above `ino`, if there is one, and the position behind
    /// it in the order; from 0 on, the least of all. `ino` need not be a file's. A walk passes the
    /// last answer, and needs no search; the position `at` is a hint.
    #[inline(always)]
    pub fn next_after(&self, ino: Ino, at: usize) -> Option<(FileRef, usize)>
        ensures above { IfSome result (λ n. ino < n.0) }
        ensures live { IfSome result (λ n. IsTrue (is_live self.now n.0)) }
        ensures least { IfSome result (λ n.
            (q : ℕ) → ino < q → q < n.0 → is_live self.now q ≡ false) }
        ensures none { IfNone result ((q : ℕ) → ino < q → is_live self.now q ≡ false) }
        ensures begins { is_live self.now 0 ≡ false }
    {
        self.rows.next_after(ino, at)
    }

    /// Makes a file, under the next number, with `place` as its first reference. Reserves room
    /// first, so that on an error nothing has changed.
    #[inline(always)]
    #[tactic(auto, using(crate::proofs::FirstNumber::begun))]
    fn make(&mut self, kind: FileKind, place: &Place) -> Result<FileRef, AllocError>
        requires number { self.old.next < MAX_INO + 1 }
        requires nameless { name_of (file_of kind) ≡ None }
        ensures ino { IfOk result (λ ino. ino ≡ self.old.next) }
        ensures ok { OnOk result (self.new ≡ entered place.now (file_of kind) self.old) }
        ensures err { OnErr result (self.new ≡ self.old) }
    {
        reserve(&mut self.rows, &mut self.unreferenced, &mut self.grey, 1)?;
        let file = self.rows.push(Ino(self.next), kind, place);
        self.embryos = more_embryos(self.embryos, place);
        self.next += 1;
        Ok(file)
    }

    /// Makes a plain file, under the next number, with `place` as its first reference, if
    /// `is_full(1)` is false. On an error nothing has changed.
    pub fn make_plain(&mut self, place: &Place) -> Result<FileRef, AllocError>
        requires room { is_full self.old 1 ≡ false }
        ensures ino { IfOk result (λ ino. ino ≡ self.old.next) }
        ensures ok { OnOk result (self.new ≡ entered place.now world.Plain self.old) }
        ensures err { OnErr result (self.new ≡ self.old) }
    {
        self.make(FileKind::plain(), place)
    }

    /// Makes a socket that was never connected, under the next number, with `place` as its first
    /// reference, if `is_full(1)` is false. On an error nothing has changed.
    pub fn make_sock(&mut self, kind: SockType, place: &Place) -> Result<FileRef, AllocError>
        requires room { is_full self.old 1 ≡ false }
        ensures ino { IfOk result (λ ino. ino ≡ self.old.next) }
        ensures ok { OnOk result
            (self.new ≡ entered place.now (world.AsSocket (idle_socket kind)) self.old) }
        ensures err { OnErr result (self.new ≡ self.old) }
    {
        self.make(FileKind::new_idle(kind), place)
    }

    /// Makes two sockets that are connected to each other, or datagram sockets that send to each
    /// other (socketpair(2)), under the next two numbers, each with `place` as its first reference,
    /// if `is_full(2)` is false. On an error nothing has changed.
    #[tactic(auto, using(crate::proofs::FirstNumber::begun))]
    pub fn make_two(
        &mut self,
        kind: SockType,
        place: &Place,
    ) -> Result<(FileRef, FileRef), AllocError>
        requires room { is_full self.old 2 ≡ false }
        ensures first { IfOk result (λ inos. inos.0 ≡ self.old.next) }
        ensures second { IfOk result (λ inos. inos.1 ≡ self.old.next + 1) }
        ensures ok { OnOk result (self.new ≡ paired place.now kind self.old) }
        ensures err { OnErr result (self.new ≡ self.old) }
    {
        reserve(&mut self.rows, &mut self.unreferenced, &mut self.grey, 2)?;
        let idle = FileKind::new_idle(kind);
        let first = self.rows.push(Ino(self.next), idle, place);
        self.embryos = more_embryos(self.embryos, place);
        let paired = FileKind::new_paired(kind, &first);
        let second = self.rows.push(Ino(self.next + 1), paired, place);
        self.embryos = more_embryos(self.embryos, place);
        self.rows.pair_with(&first, &second);
        self.next += 2;
        Ok((first, second))
    }

    /// Removes a file whose queue is empty, and hangs up its peer; ignores an unknown file. Its
    /// number is never used again, and its name is free. Returns whether it was a socket that the
    /// pass had still to mark. Takes no memory.
    #[inline(always)]
    #[tactic(auto, using(af_mark::proofs::GreyList::gone))]
    pub fn remove(&mut self, file: &FileRef) -> bool
        requires silent { queue_in self.old.files file.now ≡ [] }
        ensures unmarked { result ≡ is_unmarked_socket self.old.files self.old.marks file.now }
        ensures gone { self.new ≡ freed file.now self.old }
    {
        self.blacken(file);
        let (kind, unmarked) = self.remove_row(file);
        self.hang_up_peer(&kind);
        kind.is_socket() && unmarked
    }

    /// Removes a file that is not grey, and returns what it was, and whether the pass had still to
    /// mark it.
    #[inline(always)]
    #[tactic(auto, using(crate::proofs::FirstNumber::begun))]
    fn remove_row(&mut self, file: &FileRef) -> (FileKind, bool)
        requires white { is_grey self.old.marks file.now ≡ false }
        requires silent { queue_in self.old.files file.now ≡ [] }
        ensures socket { result.0 ≡ socket_in self.old.files file.now }
        ensures unmarked { result.1 ≡ is_unmarked self.old.marks file.now }
        ensures gone { self.new ≡ without file.now self.old }
    {
        let (kind, white) = self.rows.remove(file, self.epoch);
        let unmarked = (file.ino().0 < self.bound) & white;
        self.white -= usize::from(unmarked);
        swap_remove_file(&mut self.unreferenced, file.ino(), 0);
        free_name(&mut self.names, &kind);
        (kind, unmarked)
    }

    /// Hangs up the peer of a file that was removed, if it had one. Takes no memory.
    #[inline(always)]
    pub(crate) fn hang_up_peer(&mut self, gone: &FileKind)
        ensures { self.new ≡ record self.old { files = after_end gone.now self.old.files } }
    {
        if let Some(peer) = gone.peer() {
            self.rows.hang_up(&peer);
        }
    }

    /// Makes room for one message more, so that the next `push` cannot fail. On an error no file
    /// has changed.
    pub fn room_for_message(&mut self) -> Result<(), AllocError>
        ensures ok { OnOk result (self.new.message_room ≡ true) }
        ensures succeeds { self.old.message_room ≡ true → IsOk result }
        ensures rest { self.new ≡ record self.old { message_room = self.new.message_room } }
    {
        self.rows.room_for_message()
    }

    /// Appends a message to the queue of that socket, which is not full. Cannot fail, since there
    /// is room.
    #[inline(always)]
    pub fn push(&mut self, file: &FileRef, message: Msg)
        requires socket { is_none (socket_in self.old.files file.now) ≡ false }
        requires few { length (queue_in self.old.files file.now) < MAX_MESSAGES }
        requires within { IsMessageWithin message }
        requires room { self.old.message_room ≡ true }
        ensures { self.new
            ≡ changed_queue (pushed message) file.now self.new.message_room self.old }
    {
        self.rows.push_message(file, message);
    }

    /// Copies what a receive of at most `max` bytes would take from a socket's queue (recvmsg(2),
    /// MSG_PEEK); nothing for a plain or unknown file.
    pub fn peek(&self, file: &FileRef, max: usize) -> Result<Taken, AllocError>
        requires { 0 < max }
        ensures { IfOk result (λ t. t ≡ received_of (socket_in self.now.files file.now) max) }
    {
        match self.socket(file) {
            Some(socket) => socket.queue().peek(self.alloc, socket.kind(), max),
            None => Ok(Taken::nothing(self.alloc)),
        }
    }

    /// Moves what a receive of at most `max` bytes gives (recvmsg(2)) from a socket's queue to
    /// `taken`; nothing for a plain or unknown file. On an error nothing has changed.
    #[inline(always)]
    pub fn take(&mut self, file: &FileRef, max: usize, taken: &mut Taken) -> Result<(), AllocError>
        requires some { 0 < max }
        requires empty { taken.old ≡ nothing_received }
        ensures taken { OnOk result
            (taken.new ≡ received_of (socket_in self.old.files file.now) max) }
        ensures ok { OnOk result
            (self.new ≡ changed_queue (received_from max) file.now self.new.message_room self.old) }
        ensures err { OnErr result (self.new ≡ self.old) }
        ensures succeeds { IfSome (socket_in self.old.files file.now) (λ s.
            keeps_borders s.kind ≡ true) → IsOk result }
    {
        self.rows.take(file, self.alloc, max, taken)
    }

    /// Removes a file's first message, whose files it moves into `attached`, which is empty, or
    /// else its first embryo. Takes no memory.
    #[inline(always)]
    pub fn pop(&mut self, file: &FileRef, attached: &mut Attached) -> Option<Popped>
        requires { attached.old.items ≡ [] }
        ensures popped { IsPopped result attached.new.items
            (queue_in self.old.files file.now) (backlog_in self.old.files file.now) }
        ensures rest { self.new
            ≡ changed_queue (without_popped result) file.now self.new.message_room self.old }
    {
        self.rows.pop(file, attached)
    }

    /// Makes an embryo: a socket that is connected to `client`, and the client to it, under the
    /// next number, with `place` as its first reference, if `is_full(1)` is false. On an error
    /// nothing has changed.
    #[tactic(auto, using(crate::proofs::FirstNumber::begun))]
    pub fn make_embryo(
        &mut self,
        kind: SockType,
        client: &FileRef,
        place: &Place,
    ) -> Result<FileRef, AllocError>
        requires room { is_full self.old 1 ≡ false }
        ensures ino { IfOk result (λ ino. ino ≡ self.old.next) }
        ensures ok { OnOk result (self.new ≡ changed (connected self.old.next) client.now
            (entered place.now (world.AsSocket (connected_socket kind client.now)) self.old)) }
        ensures err { OnErr result (self.new ≡ self.old) }
    {
        let embryo = self.make(FileKind::new_connected(kind, client), place)?;
        self.connect(client, &embryo);
        Ok(embryo)
    }

    /// Connects the socket `file` to `peer`. Ignores a plain or unknown file. Takes no memory.
    fn connect(&mut self, file: &FileRef, peer: &FileRef)
        ensures { self.new ≡ changed (connected peer.now) file.now self.old }
    {
        self.rows.connect(file, peer);
    }

    /// Lets a datagram socket send to `target`, or leaves it no target (connect(2)); its queue
    /// stays. Ignores a plain or unknown file. Takes no memory.
    pub fn aim(&mut self, file: &FileRef, target: Option<&FileRef>)
        requires { IfSome (option_copied target) (λ to. 0 < to) }
        ensures { self.new
            ≡ changed (turned (unwrap_or (option_copied target.entry) 0)) file.now self.old }
    {
        self.rows.aim(file, target);
    }

    /// Closes the input of a socket if `input` says so, and its output if `output` does
    /// (shutdown(2)). Ignores a plain or unknown file. Takes no memory.
    pub fn shut(&mut self, file: &FileRef, input: bool, output: bool)
        ensures { self.new ≡ changed (shut input output) file.now self.old }
    {
        self.rows.shut(file, input, output);
    }

    /// Gives a nameless socket this name, which is free in the set of its type (bind(2)). Ignores a
    /// plain or unknown file. On an error nothing has changed.
    pub fn bind(&mut self, file: &FileRef, name: &[u8]) -> Result<(), AllocError>
        requires nameless { IfSome (socket_in self.old.files file.now) (λ s. s.name ≡ None) }
        requires free { IfSome (socket_in self.old.files file.now) (λ s.
            named self.old.files (set_of s.kind) name.now ≡ None) }
        ensures ok { OnOk result (self.new ≡ changed (with_name name.now) file.now self.old) }
        ensures err { OnErr result (self.new ≡ self.old) }
    {
        let Some(socket) = self.socket(file) else {
            return Ok(());
        };
        let kind = socket.kind();
        let own = Items::of(name.to_vec(self.alloc)?);
        let listed = name.to_vec(self.alloc)?;
        self.names.bind(kind, listed, file.duplicate())?;
        if let Err(refused) = self.rows.bind(file, self.alloc, own) {
            self.names.unbind(kind, name);
            return Err(refused);
        }
        Ok(())
    }

    /// Makes a socket, which has a name and no embryos, a listener for at most `most` embryos
    /// (listen(2)). Ignores a plain or unknown file. On an error nothing has changed.
    pub fn listen(&mut self, file: &FileRef, most: u32) -> Result<(), AllocError>
        requires named { IfSome (socket_in self.old.files file.now) (λ s. is_none s.name ≡ false) }
        requires nobody { IfSome (socket_in self.old.files file.now) (λ s. s.backlog ≡ []) }
        ensures ok { OnOk result (self.new ≡ changed (listening most) file.now self.old) }
        ensures err { OnErr result (self.new ≡ self.old) }
    {
        self.rows.listen(file, self.alloc, most)
    }

    /// Appends an embryo to the backlog of the listener `file`, which has room for it. Ignores a
    /// plain or unknown file. Takes no memory.
    pub fn enqueue(&mut self, file: &FileRef, embryo: FileRef)
        requires { IfSome (socket_in self.old.files file.now) (λ s.
            length s.backlog < room_of s.state) }
        ensures { self.new ≡ changed (queued embryo) file.now self.old }
    {
        self.rows.enqueue(file, embryo);
    }

    /// Removes the first embryo of that listener, if there is one. Takes no memory.
    #[inline(always)]
    pub fn dequeue(&mut self, file: &FileRef) -> Option<FileRef>
        ensures some { IfSome result (λ f.
            backlog_in self.old.files file.now ≡ f ∷ drop 1 (backlog_in self.old.files file.now)) }
        ensures none { IfNone result (backlog_in self.old.files file.now ≡ []) }
        ensures rest { self.new ≡ changed dequeued file.now self.old }
    {
        self.rows.dequeue(file)
    }
}

impl Files {
    /// Begins to keep that list, and empties both. On an error nothing has changed.
    pub fn tell(&mut self, list: ToldList) -> Result<(), AllocError>
        ensures ok { OnOk result (self.new ≡ record self.old {
          since = since_telling list self.old.since self.old.files self.old.next;
        }) }
        ensures err { OnErr result (self.new ≡ self.old) }
    {
        self.rows.tell(list)
    }

    /// Returns the numbers of the files that were freed since the lists were last emptied, each
    /// once, if that list is kept.
    pub fn released_files(&self) -> &[Ino]
        ensures { self.now.since.released ≡ true
            → AreReleased self.now.files self.now.next self.now.since result.now }
    {
        self.rows.released_files()
    }

    /// Returns the sockets whose readiness may have changed since the lists were last emptied, each
    /// once, if that list is kept.
    pub fn changed_sockets(&self) -> &[FileRef]
        ensures once { AreSocketsOnce self.now.files result.now }
        ensures changed { self.now.since.changed ≡ true
            → AreChanged self.now.files self.now.since result.now }
    {
        self.rows.changed_sockets()
    }

    /// Empties both lists. Takes no memory.
    pub fn clear_told(&mut self)
        ensures { self.new ≡ record self.old {
          since = record self.old.since { files = self.old.files; next = self.old.next };
        } }
    {
        self.rows.clear_told();
    }
}

/// Reserves room for `files` further files, and for all files in each list of files at once.
/// Nothing else changes, also on an error.
#[inline(always)]
fn reserve(
    rows: &mut FileTable,
    unreferenced: &mut Vec<FileRef>,
    grey: &mut Vec<FileRef>,
    files: usize,
) -> Result<(), AllocError>
    requires unreferenced { rows.old.space ≤ vec_capacity unreferenced.old }
    requires grey { rows.old.space ≤ vec_capacity grey.old }
    ensures rows { rows.new ≡ record rows.old { room = rows.new.room; space = rows.new.space } }
    ensures unreferenced { unreferenced.new.items ≡ unreferenced.old.items }
    ensures grey { grey.new.items ≡ grey.old.items }
    ensures room { OnOk result (files ≤ rows.new.room) }
    ensures counts { OnOk result (map.len rows.old.counts + files ≤ rows.new.space) }
    ensures marks { OnOk result (map.len rows.old.marks + files ≤ rows.new.space) }
    ensures fits { rows.new.space ≤ vec_capacity unreferenced.new }
    ensures grey_fits { rows.new.space ≤ vec_capacity grey.new }
    ensures capacity { vec_capacity unreferenced.old ≤ vec_capacity unreferenced.new }
    ensures greys { vec_capacity grey.old ≤ vec_capacity grey.new }
{
    if files <= rows.room() {
        return Ok(());
    }
    let many = files.max(RESERVED_AT_ONCE);
    if reserve_anew(rows, unreferenced, grey, many).is_ok() {
        return Ok(());
    }
    // Where memory is short there may be room for these alone.
    reserve_anew(rows, unreferenced, grey, files)
}

/// Reserves as `reserve` does, where there is not enough room: grows each list that is too short.
#[cold]
#[inline(never)]
fn reserve_anew(
    rows: &mut FileTable,
    unreferenced: &mut Vec<FileRef>,
    grey: &mut Vec<FileRef>,
    files: usize,
) -> Result<(), AllocError>
    requires unreferenced { rows.old.space ≤ vec_capacity unreferenced.old }
    requires grey { rows.old.space ≤ vec_capacity grey.old }
    ensures rows { rows.new ≡ record rows.old { room = rows.new.room; space = rows.new.space } }
    ensures unreferenced { unreferenced.new.items ≡ unreferenced.old.items }
    ensures grey { grey.new.items ≡ grey.old.items }
    ensures room { OnOk result (files ≤ rows.new.room) }
    ensures counts { OnOk result (map.len rows.old.counts + files ≤ rows.new.space) }
    ensures marks { OnOk result (map.len rows.old.marks + files ≤ rows.new.space) }
    ensures fits { rows.new.space ≤ vec_capacity unreferenced.new }
    ensures grey_fits { rows.new.space ≤ vec_capacity grey.new }
    ensures capacity { vec_capacity unreferenced.old ≤ vec_capacity unreferenced.new }
    ensures greys { vec_capacity grey.old ≤ vec_capacity grey.new }
{
    let all = rows.len().saturating_add(files);
    if all > rows.space() {
        widen(unreferenced, all)?;
        widen(grey, all)?;
        rows.widen_lists(all, unreferenced.capacity().min(grey.capacity()))?;
    }
    rows.reserve(files)
}

/// Frees the name of a file that was removed, if it had one.
#[inline(always)]
fn free_name(names: &mut NameSets, gone: &FileKind)
    ensures { (files : world.Map world.File) (f : ℕ) → AreNamed names.old files
        → gone.now ≡ socket_in files f → AreNamed names.new (map.remove files f) }
{
    if let Some(name) = gone.name() {
        names.unbind(gone.kind(), name.as_slice());
    }
}
