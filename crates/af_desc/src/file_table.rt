//! The rows of all files, with the lists of freed files and changed sockets.
ghost use Rattle.std.specs.Prelude.{◌≡◌, ℕ, ◌+◌, ◌≤◌, ◌<◌, ◌∷◌, [], true, false, None, IsTrue};
ghost use Rattle.std.specs.Prelude.{IsOk, IfSome, IfNone, IfErr, IfOk, OnOk, OnErr, drop, is_none};
ghost use Rattle.std.specs.Prelude.{if◌then◌else◌, is_some, length, nat_eq, option_copied, Some};
ghost use Rattle.std.specs.Prelude.{unwrap_or};
ghost use Rattle.std.specs.FinMap as map;
ghost use Rattle.af_base.specs.Changes.{connected, dequeued, listening, pushed, queued, shut};
ghost use Rattle.af_base.specs.Changes.{with_name};
ghost use Rattle.af_base.specs.Places.{backlog_in, held_in, queue_in};
ghost use Rattle.af_base.specs.Refusals.{room_of};
ghost use Rattle.af_base.specs.Take.{keeps_borders};
ghost use Rattle.af_base.specs.Told.{AreChanged, AreReleased, AreSocketsOnce};
ghost use Rattle.af_base.specs.Whole.{IsMessageWithin};
ghost use Rattle.af_base.specs.World.{untold};
ghost use Rattle.af_ledger.specs.Counted.{fewer, more, places_in, IsCountable, IsCounted};
ghost use Rattle.af_ledger.specs.Tally.{count_in_map};
ghost use Rattle.af_ledger.specs.declared.place.Place.TheVariants.{Table};
ghost use Rattle.af_desc.specs.FilesView.{hung_up, name_in, paired_with, received_from};
ghost use Rattle.af_desc.specs.FilesView.{received_of, socket_in, turned};
ghost use Rattle.af_desc.specs.FileTableView.{file_of, is_due_row, is_white_in, with_row};
ghost use Rattle.af_desc.specs.FileTableView.{with_socket, with_socket_and_room, without_row};
ghost use Rattle.af_desc.specs.Holding.{IsContents, IsPopped, without_popped};
ghost use Rattle.af_desc.specs.Told.{since_telling};
ghost use Rattle.af_mark.specs.Grey.{black_mark, grey_mark};
ghost use Rattle.af_queue.specs.TakenView.{nothing_received};

use crate::contents::{Contents, Popped};
use crate::file_row::FileRow;
use crate::socket::{FileKind, Socket};
use crate::told_lists::{ToldList, ToldLists};
use af_base::ids::{FileRef, Ino, Uid};
use af_base::items::Bytes;
use af_base::limits::{MAX_INO, MAX_MESSAGES};
use af_ledger::{Count, Place};
use af_mark::{Color, Mark};
use af_queue::{Attached, Chain, Msg, Node, Taken, pool};
use ordered_slab::OrderedSlab;
use slab::Slab;
use std::alloc::{AllocError, Global};
use std::marker::Model;
use std::snapshot::Snapshot;

/// A row for each file: what it is, its queue, its count, its mark, and whether it is dirty. All
/// rows are in one table, and all messages in another. Where a program asks for them, the freed
/// files and the changed sockets are listed. A contract sees the rows as three maps, and the files
/// when the lists were emptied last in place of the lists.
#[derive(Drop)]
pub struct FileTable {
    rows: OrderedSlab<FileRow>,
    /// The messages of all queues.
    nodes: Slab<Node>,
    /// The lists of freed files and changed sockets.
    told: ToldLists,
    /// For how many files more there is room, in the rows and in each list of files that is kept.
    /// It falls with each file that is made, and to 0 where a list is asked for; `reserve` counts
    /// it anew.
    room: usize,
    /// The rows and the messages when the lists were emptied last: for contracts alone.
    since_rows: Snapshot<OrderedSlab<FileRow>>,
    since_nodes: Snapshot<Slab<Node>>,
}

impl Model for FileTable {
    ghost use Rattle.std.specs.FinMap as map;
    ghost use Rattle.std.specs.Coded.{codes};
    ghost use Rattle.std.specs.Prelude.{◌+◌};
    ghost use Rattle.af_queue.specs.Chains.{has_room};
    ghost use Rattle.af_desc.specs.FileTableView.{FileTableView, counts_of, files_of, marks_of};
    ghost use Rattle.af_desc.specs.Told.{since_of, FileTableInvariant};

    ghost Value = { FileTableView };

    ghost coded = { Prim.hlevel (codes, map.code) };

    ghost view = { λ a. record {
      files = files_of a.nodes a.rows.values;
      counts = counts_of a.rows.values;
      marks = marks_of a.rows.values;
      since = since_of a.told (files_of a.since_nodes.value a.since_rows.value.values)
          (a.since_rows.value.last + 1);
      last = a.rows.last;
      room = a.room;
      space = a.told.space;
      message_room = has_room a.nodes;
    } };

    ghost invariant = { λ a. FileTableInvariant a.nodes a.rows a.told
        (files_of a.since_nodes.value a.since_rows.value.values) (a.since_rows.value.last + 1)
        a.room };
}

impl FileTable {
    /// Makes an empty table. Takes no memory.
    #[tactic(auto, using(crate::proofs::FileTableView::chains, ordered_slab::proofs::Parts::parts))]
    pub fn new(alloc: Global) -> FileTable
        ensures files { result.files ≡ map.empty }
        ensures counts { result.counts ≡ map.empty }
        ensures marks { result.marks ≡ map.empty }
        ensures since { result.since ≡ untold }
        ensures last { result.last ≡ 0 }
        ensures space { result.space ≡ 0 }
    {
        let rows = OrderedSlab::new(alloc);
        let nodes = Slab::new(alloc);
        FileTable {
            since_rows: Snapshot::of(&rows),
            since_nodes: Snapshot::of(&nodes),
            rows,
            nodes,
            told: ToldLists::new(alloc),
            room: 0,
        }
    }

    /// Returns how many rows there are.
    #[inline(always)]
    #[tactic(auto, using(crate::proofs::FileTableView::chains, ordered_slab::proofs::Parts::parts))]
    pub fn len(&self) -> usize
        ensures files { result ≡ map.len self.now.files }
        ensures counts { result ≡ map.len self.now.counts }
        ensures marks { result ≡ map.len self.now.marks }
    {
        self.rows.len()
    }

    /// Returns for how many files in all each list of files has room.
    #[inline(always)]
    pub fn space(&self) -> usize
        ensures { result ≡ self.now.space }
    {
        self.told.space()
    }

    /// Returns for how many files more there is room, in the table and in each list of files.
    #[inline(always)]
    #[tactic(auto, using(ordered_slab::proofs::Parts::parts))]
    pub fn room(&self) -> usize
        ensures room { result ≡ self.now.room }
        ensures counts { map.len self.now.counts + result ≤ self.now.space }
        ensures marks { map.len self.now.marks + result ≤ self.now.space }
    {
        self.room
    }

    /// Reserves room for `rows` more rows, for which each list of files has room. Nothing else
    /// changes, also on an error.
    #[tactic(auto, using(ordered_slab::proofs::Parts::parts))]
    pub fn reserve(&mut self, rows: usize) -> Result<(), AllocError>
        requires { map.len self.old.counts + rows ≤ self.old.space }
        ensures same { self.new ≡ record self.old { room = self.new.room } }
        ensures ok { OnOk result (rows ≤ self.new.room) }
        ensures room { self.old.room ≤ self.new.room }
        ensures succeeds { rows ≤ self.old.room → IsOk result }
    {
        self.rows.reserve(rows)?;
        self.room = self.rows.room().min(self.told.space() - self.rows.len());
        Ok(())
    }

    /// Reserves room for `all` files in both lists, so far as they are kept. The other lists of
    /// files have room for `most`. Nothing else changes, also on an error.
    pub fn widen_lists(&mut self, all: usize, most: usize) -> Result<(), AllocError>
        requires most { all ≤ most }
        requires more { self.old.space ≤ all }
        ensures same { self.new ≡ record self.old { space = self.new.space } }
        ensures ok { OnOk result (all ≤ self.new.space) }
        ensures most { OnOk result (self.new.space ≤ most) }
        ensures err { OnErr result (self.new.space ≡ self.old.space) }
    {
        self.told.widen(all, most)
    }

    /// Adds a file, under the number after the last, with an empty queue, unmarked, and with
    /// `place` as its first reference. There is room for it, also in the lists.
    #[inline(always)]
    #[tactic(auto, using(crate::proofs::FileTableView::chains, ordered_slab::proofs::Parts::parts))]
    pub fn push(&mut self, ino: Ino, kind: FileKind, place: &Place) -> FileRef
        requires room { 0 < self.old.room }
        requires next { ino ≡ self.old.last + 1 }
        requires number { ino ≤ MAX_INO }
        ensures file { result ≡ ino }
        ensures pushed { self.new
            ≡ with_row ino (file_of kind) place.now self.new.room self.old }
        ensures new { map.contains_key self.old.files ino ≡ false }
        ensures uncounted { map.contains_key self.old.counts ino ≡ false }
        ensures unmarked { map.contains_key self.old.marks ino ≡ false }
        ensures room { self.old.room ≤ self.new.room + 1 }
    {
        kind.lemma_is_silent();
        let mut count = Count::none();
        count.add(place);
        let dirty = self.told.mark_of_new(&kind);
        let is_dirty = dirty.is_dirty();
        let row = FileRow {
            kind,
            chain: Chain::empty(),
            dirty,
            count,
            mark: Mark::none(),
        };
        let file = self.rows.push(ino, row);
        self.room -= 1;
        self.told.add_new(is_dirty, &file);
        file
    }

    /// Removes a file whose queue is empty, and returns what it was: a plain file, if it is
    /// unknown. Returns also whether it was known, and unmarked in this pass. Takes no memory.
    #[inline(always)]
    #[tactic(auto, using(crate::proofs::FileTableView::chains, ordered_slab::proofs::Parts::parts))]
    pub fn remove(&mut self, file: &FileRef, epoch: u32) -> (FileKind, bool)
        requires silent { queue_in self.old.files file.now ≡ [] }
        ensures socket { result.0 ≡ socket_in self.old.files file.now }
        ensures white { result.1 ≡ is_white_in epoch self.old.marks file.now }
        ensures removed { self.new ≡ without_row file.now self.new.room self.new.space self.old }
        ensures room { self.old.room ≤ self.new.room }
        ensures space { self.new.space ≤ self.old.space }
    {
        let Some(row) = self.rows.remove(file) else {
            return (FileKind::plain(), false);
        };
        row.kind.lemma_is_silent();
        self.told.add_released(&mut self.rows, row.dirty, file);
        let white = matches!(row.mark.color_in(epoch), Color::White);
        (row.kind, white)
    }

    /// Returns the socket that a file is; `None` for a plain or unknown file.
    #[inline(always)]
    pub fn socket(&self, file: &FileRef) -> Option<Socket<'_>>
        ensures { result ≡ socket_in self.now.files file.now }
    {
        let row = self.rows.get(file)?;
        row.socket(&self.nodes)
    }

    /// Returns the counts of a file, if it is known.
    #[inline(always)]
    #[tactic(auto, using(crate::proofs::FileTableView::chains, ordered_slab::proofs::Parts::parts))]
    pub fn count(&self, file: &FileRef) -> Option<&Count>
        ensures { option_copied result ≡ map.get self.now.counts file.now }
    {
        let row = self.rows.get(file)?;
        Some(&row.count)
    }

    /// Hangs up that socket, whose peer is freed.
    #[inline(always)]
    #[tactic(auto, using(crate::proofs::FileTableView::rows, ordered_slab::proofs::Parts::parts))]
    pub fn hang_up(&mut self, file: &FileRef)
        ensures { self.new ≡ with_socket self.old file.now hung_up }
    {
        let Some(row) = self.rows.get_mut(file) else {
            return;
        };
        row.kind.hang_up();
        self.told.add_changed(row, file);
    }

    /// Connects the socket `file` to `peer`.
    #[inline(always)]
    #[tactic(auto, using(crate::proofs::FileTableView::rows, ordered_slab::proofs::Parts::parts))]
    pub fn connect(&mut self, file: &FileRef, peer: &FileRef)
        ensures { self.new ≡ with_socket self.old file.now (connected peer.now) }
    {
        let Some(row) = self.rows.get_mut(file) else {
            return;
        };
        row.kind.connect(peer);
        self.told.add_changed(row, file);
    }

    /// Makes the socket `file` the other one of a pair with `other`.
    #[inline(always)]
    #[tactic(auto, using(crate::proofs::FileTableView::rows, ordered_slab::proofs::Parts::parts))]
    pub fn pair_with(&mut self, file: &FileRef, other: &FileRef)
        ensures { self.new ≡ with_socket self.old file.now (paired_with other.now) }
    {
        let Some(row) = self.rows.get_mut(file) else {
            return;
        };
        row.kind.pair_with(other);
        self.told.add_changed(row, file);
    }

    /// Lets a datagram socket send to `target`, or leaves it no target (connect(2)).
    #[tactic(auto, using(crate::proofs::FileTableView::rows, ordered_slab::proofs::Parts::parts))]
    pub fn aim(&mut self, file: &FileRef, target: Option<&FileRef>)
        requires { IfSome (option_copied target) (λ to. 0 < to) }
        ensures { self.new
            ≡ with_socket self.old file.now (turned (unwrap_or (option_copied target.entry) 0)) }
    {
        let Some(row) = self.rows.get_mut(file) else {
            return;
        };
        row.kind.aim(target);
        self.told.add_changed(row, file);
    }

    /// Closes the input of a socket if `input` says so, and its output if `output` does
    /// (shutdown(2)).
    #[tactic(auto, using(crate::proofs::FileTableView::rows, ordered_slab::proofs::Parts::parts))]
    pub fn shut(&mut self, file: &FileRef, input: bool, output: bool)
        ensures { self.new ≡ with_socket self.old file.now (shut input output) }
    {
        let Some(row) = self.rows.get_mut(file) else {
            return;
        };
        row.kind.shut(input, output);
        self.told.add_changed(row, file);
    }

    /// Gives a nameless socket this name. On an error nothing has changed.
    #[inline(always)]
    #[tactic(auto, using(crate::proofs::FileTableView::rows, ordered_slab::proofs::Parts::parts))]
    pub fn bind(&mut self, file: &FileRef, alloc: Global, name: Bytes) -> Result<(), AllocError>
        requires { IfSome (socket_in self.old.files file.now) (λ s. s.name ≡ None) }
        ensures ok { OnOk result (self.new ≡ with_socket self.old file.now (with_name name)) }
        ensures err { OnErr result (self.new ≡ self.old) }
    {
        let Some(row) = self.rows.get_mut(file) else {
            return Ok(());
        };
        row.kind.bind(alloc, name)
    }

    /// Makes a socket, which has a name and no embryos, a listener for at most `most` embryos. On
    /// an error nothing has changed.
    #[inline(always)]
    #[tactic(auto, using(crate::proofs::FileTableView::rows, ordered_slab::proofs::Parts::parts))]
    pub fn listen(&mut self, file: &FileRef, alloc: Global, most: u32) -> Result<(), AllocError>
        requires named { IfSome (socket_in self.old.files file.now) (λ s. is_none s.name ≡ false) }
        requires nobody { IfSome (socket_in self.old.files file.now) (λ s. s.backlog ≡ []) }
        ensures ok { OnOk result (self.new ≡ with_socket self.old file.now (listening most)) }
        ensures err { OnErr result (self.new ≡ self.old) }
    {
        let Some(row) = self.rows.get_mut(file) else {
            return Ok(());
        };
        row.kind.listen(alloc, most)?;
        self.told.add_changed(row, file);
        Ok(())
    }

    /// Appends an embryo to the backlog of the listener `file`, which has room for it.
    #[inline(always)]
    #[tactic(auto, using(crate::proofs::FileTableView::rows, ordered_slab::proofs::Parts::parts))]
    pub fn enqueue(&mut self, file: &FileRef, embryo: FileRef)
        requires { IfSome (socket_in self.old.files file.now) (λ s.
            length s.backlog < room_of s.state) }
        ensures { self.new ≡ with_socket self.old file.now (queued embryo) }
    {
        let Some(row) = self.rows.get_mut(file) else {
            return;
        };
        row.kind.enqueue(embryo);
        self.told.add_changed(row, file);
    }

    /// Removes the first embryo of that listener, if there is one.
    #[inline(always)]
    #[tactic(auto, using(crate::proofs::FileTableView::rows, ordered_slab::proofs::Parts::parts))]
    pub fn dequeue(&mut self, file: &FileRef) -> Option<FileRef>
        ensures some { IfSome result (λ f.
            backlog_in self.old.files file.now ≡ f ∷ drop 1 (backlog_in self.old.files file.now)) }
        ensures none { IfNone result (backlog_in self.old.files file.now ≡ []) }
        ensures rest { self.new ≡ with_socket self.old file.now dequeued }
    {
        let row = self.rows.get_mut(file)?;
        self.told.add_changed(row, file);
        row.kind.dequeue()
    }

    /// Makes room for one message more, so that the next `push_message` cannot fail.
    pub fn room_for_message(&mut self) -> Result<(), AllocError>
        ensures ok { OnOk result (self.new.message_room ≡ true) }
        ensures succeeds { self.old.message_room ≡ true → IsOk result }
        ensures rest { self.new ≡ record self.old { message_room = self.new.message_room } }
    {
        pool::room(&mut self.nodes)
    }

    /// Appends a message to the queue of that socket, which is not full. Cannot fail, since there
    /// is room.
    #[inline(always)]
    #[tactic(auto, using(crate::proofs::FileTableView::messages, ordered_slab::proofs::Parts::parts))]
    pub fn push_message(&mut self, file: &FileRef, message: Msg)
        requires socket { is_none (socket_in self.old.files file.now) ≡ false }
        requires few { length (queue_in self.old.files file.now) < MAX_MESSAGES }
        requires within { IsMessageWithin message }
        requires room { self.old.message_room ≡ true }
        ensures { self.new
            ≡ with_socket_and_room self.old file.now (pushed message) self.new.message_room }
    {
        let row = self.rows.get_mut(file).unwrap();
        row.push(&mut self.nodes, message);
        self.told.add_changed(row, file);
    }

    /// Removes a file's first message, whose files it moves into `attached`, which is empty, or
    /// else its first embryo. Takes no memory.
    #[inline(always)]
    #[tactic(auto, using(crate::proofs::FileTableView::messages, ordered_slab::proofs::Parts::parts))]
    pub fn pop(&mut self, file: &FileRef, attached: &mut Attached) -> Option<Popped>
        requires { attached.old.items ≡ [] }
        ensures popped { IsPopped result attached.new.items
            (queue_in self.old.files file.now) (backlog_in self.old.files file.now) }
        ensures rest { self.new ≡ with_socket_and_room self.old file.now
            (without_popped result) self.new.message_room }
    {
        let row = self.rows.get_mut(file)?;
        let popped = row.pop(&mut self.nodes, attached)?;
        self.told.add_changed(row, file);
        Some(popped)
    }

    /// Moves what a receive of at most `max` bytes gives (recvmsg(2)) from a socket's queue to
    /// `taken`; nothing for a plain or unknown file. On an error nothing has changed.
    #[inline(always)]
    #[tactic(auto, using(crate::proofs::FileTableView::messages, ordered_slab::proofs::Parts::parts))]
    pub fn take(
        &mut self,
        file: &FileRef,
        alloc: Global,
        max: usize,
        taken: &mut Taken,
    ) -> Result<(), AllocError>
        requires some { 0 < max }
        requires empty { taken.old ≡ nothing_received }
        ensures taken { OnOk result
            (taken.new ≡ received_of (socket_in self.old.files file.now) max) }
        ensures rest { OnOk result (self.new
            ≡ with_socket_and_room self.old file.now (received_from max) self.new.message_room) }
        ensures err { OnErr result (self.new ≡ self.old) }
        ensures succeeds { IfSome (socket_in self.old.files file.now) (λ s.
            keeps_borders s.kind ≡ true) → IsOk result }
    {
        let Some(row) = self.rows.get_mut(file) else {
            return Ok(());
        };
        row.take(&mut self.nodes, alloc, max, taken)?;
        self.told.add_changed(row, file);
        Ok(())
    }

    /// Adds one place of a file, which is known. Returns whether it had none. Takes no memory.
    #[inline(always)]
    #[tactic(auto, using(crate::proofs::FileTableView::chains, ordered_slab::proofs::Parts::parts, ordered_slab::proofs::Values::lent, af_ledger::proofs::Unreferenced::counted))]
    pub fn add_ref(&mut self, place: &Place, file: &FileRef) -> bool
        requires known { IsTrue (map.contains_key self.old.counts file.now) }
        requires countable { IsCountable place.now (count_in_map self.old.counts file.now) }
        ensures counts { self.new ≡ record self.old {
          counts = map.insert self.old.counts file.now
              (more place.now (count_in_map self.old.counts file.now));
        } }
        ensures len { map.len self.new.counts ≡ map.len self.old.counts }
        ensures first { result ≡ nat_eq (places_in (count_in_map self.old.counts file.now)) 0 }
    {
        let row = self.rows.get_mut(file).unwrap();
        let first = row.count.is_none();
        row.count.add(place);
        first
    }

    /// Drops one place of a file, which has one. Returns whether it was the last. Takes no memory.
    #[inline(always)]
    #[tactic(auto, using(crate::proofs::FileTableView::chains, ordered_slab::proofs::Parts::parts, ordered_slab::proofs::Values::lent, af_ledger::proofs::Unreferenced::counted))]
    pub fn drop_ref(&mut self, place: &Place, file: &FileRef) -> bool
        requires { IsCounted place.now (count_in_map self.old.counts file.now) }
        ensures counts { self.new ≡ record self.old {
          counts = map.insert self.old.counts file.now
              (fewer place.now (count_in_map self.old.counts file.now));
        } }
        ensures len { map.len self.new.counts ≡ map.len self.old.counts }
        ensures last { result ≡ nat_eq (places_in (count_in_map self.old.counts file.now)) 1 }
    {
        let row = self.rows.get_mut(file).unwrap();
        row.count.sub(place);
        row.count.is_none()
    }

    /// Moves a place of a file, which has it, to a table (accept(2), recvmsg(2)). Takes no memory.
    #[inline(always)]
    #[tactic(auto, using(crate::proofs::FileTableView::chains, ordered_slab::proofs::Parts::parts, ordered_slab::proofs::Values::lent, af_ledger::proofs::Unreferenced::counted))]
    pub fn move_to_table(&mut self, from: &Place, file: &FileRef)
        requires counted { IsCounted from.now (count_in_map self.old.counts file.now) }
        requires countable { IsCountable Table (count_in_map self.old.counts file.now) }
        ensures counts { self.new ≡ record self.old {
          counts = map.insert self.old.counts file.now
              (fewer from.now (more Table (count_in_map self.old.counts file.now)));
        } }
        ensures len { map.len self.new.counts ≡ map.len self.old.counts }
    {
        let row = self.rows.get_mut(file).unwrap();
        row.count.add(&Place::Table);
        row.count.sub(from);
    }

    /// Drops the place of one descriptor of a file, which has one. If that was its last place,
    /// returns whether the file has no name and holds nothing. Takes no memory.
    #[inline(always)]
    #[tactic(auto, using(crate::proofs::FileTableView::chains, ordered_slab::proofs::Parts::parts, ordered_slab::proofs::Values::lent, af_ledger::proofs::Unreferenced::counted))]
    pub fn drop_descriptor_ref(&mut self, file: &FileRef) -> Option<bool>
        requires { IsCounted Table (count_in_map self.old.counts file.now) }
        ensures counts { self.new ≡ record self.old {
          counts = map.insert self.old.counts file.now
              (fewer Table (count_in_map self.old.counts file.now));
        } }
        ensures len { map.len self.new.counts ≡ map.len self.old.counts }
        ensures last { is_some result
            ≡ nat_eq (places_in (count_in_map self.old.counts file.now)) 1 }
        ensures nameless { result ≡ Some true → name_in self.old.files file.now ≡ None }
        ensures silent { result ≡ Some true → queue_in self.old.files file.now ≡ [] }
        ensures bare { result ≡ Some true → held_in self.old.files file.now ≡ [] }
        ensures found { IfSome result (λ bare. name_in self.old.files file.now ≡ None
            → queue_in self.old.files file.now ≡ [] → bare ≡ true) }
    {
        let row = self.rows.get_mut(file).unwrap();
        row.count.sub(&Place::Table);
        if !row.count.is_none() {
            return None;
        }
        Some(row.is_bare(&self.nodes))
    }

    /// Returns the mark of a file, if it is known.
    #[inline(always)]
    #[tactic(auto, using(crate::proofs::FileTableView::chains, ordered_slab::proofs::Parts::parts))]
    pub fn mark(&self, file: &FileRef) -> Option<&Mark>
        ensures { option_copied result ≡ map.get self.now.marks file.now }
    {
        let row = self.rows.get(file)?;
        Some(&row.mark)
    }

    /// Sets the mark of a file, which is known. Takes no memory.
    #[inline(always)]
    #[tactic(auto, using(crate::proofs::FileTableView::chains, ordered_slab::proofs::Parts::parts, ordered_slab::proofs::Values::lent))]
    pub fn set_mark(&mut self, file: &FileRef, mark: Mark)
        requires { IsTrue (map.contains_key self.old.marks file.now) }
        ensures set { self.new
            ≡ record self.old { marks = map.insert self.old.marks file.now mark } }
        ensures len { map.len self.new.marks ≡ map.len self.old.marks }
    {
        let row = self.rows.get_mut(file).unwrap();
        row.mark = mark;
    }

    /// Sets the position of a file in the list of grey ones: a hint, which no contract sees.
    #[inline(always)]
    #[tactic(auto, using(crate::proofs::FileTableView::rows, ordered_slab::proofs::Parts::parts))]
    pub fn set_position(&mut self, file: &FileRef, at: usize)
        ensures { self.new ≡ self.old }
    {
        let Some(row) = self.rows.get_mut(file) else {
            return;
        };
        row.mark.set_position(at);
    }

    /// Marks a file grey, at the position `at` of the list, if it is not marked in this pass.
    /// Returns whether this call marked it.
    #[inline(always)]
    #[tactic(auto, using(crate::proofs::FileTableView::chains, ordered_slab::proofs::Parts::parts, ordered_slab::proofs::Values::lent))]
    pub fn mark_grey(&mut self, file: &FileRef, epoch: u32, at: usize) -> bool
        ensures white { result ≡ is_white_in epoch self.old.marks file.now }
        ensures marked { self.new ≡ record self.old {
          marks = if result then map.insert self.old.marks file.now (grey_mark epoch)
              else self.old.marks;
        } }
        ensures len { map.len self.new.marks ≡ map.len self.old.marks }
    {
        let Some(row) = self.rows.get_mut(file) else {
            return false;
        };
        if !matches!(row.mark.color_in(epoch), Color::White) {
            return false;
        }
        row.mark = Mark::grey(epoch, at);
        true
    }

    /// Marks a file black that a table holds, if it is not marked in this pass. Returns what it
    /// holds, by the same look at its row; `None` if this call did not mark it.
    #[inline(always)]
    #[tactic(auto, using(crate::proofs::FileTableView::chains, ordered_slab::proofs::Parts::parts, ordered_slab::proofs::Values::lent))]
    pub fn mark_tabled(&mut self, file: &FileRef, epoch: u32) -> Option<Contents>
        ensures due { is_some result ≡ is_due_row epoch self.old.counts self.old.marks file.now }
        ensures marked { is_some result ≡ true → self.new ≡ record self.old {
          marks = map.insert self.old.marks file.now (black_mark epoch);
        } }
        ensures len { map.len self.new.marks ≡ map.len self.old.marks }
        ensures held { IfSome result (λ held. IsContents held (held_in self.old.files file.now)) }
        ensures none { IfNone result (self.new ≡ self.old) }
    {
        let row = self.rows.get_mut(file)?;
        if row.count.tabled() == 0 || !matches!(row.mark.color_in(epoch), Color::White) {
            return None;
        }
        row.mark = Mark::black(epoch);
        Some(row.contents(&self.nodes))
    }

    /// Marks a file black, which is known. Returns what it holds, by the same look at its row.
    #[inline(always)]
    #[tactic(auto, using(crate::proofs::FileTableView::chains, ordered_slab::proofs::Parts::parts, ordered_slab::proofs::Values::lent))]
    pub fn mark_black(&mut self, file: &FileRef, epoch: u32) -> Contents
        requires { IsTrue (map.contains_key self.old.marks file.now) }
        ensures set { self.new ≡ record self.old {
          marks = map.insert self.old.marks file.now (black_mark epoch);
        } }
        ensures len { map.len self.new.marks ≡ map.len self.old.marks }
        ensures held { IsContents result (held_in self.old.files file.now) }
    {
        let row = self.rows.get_mut(file).unwrap();
        row.mark = Mark::black(epoch);
        row.contents(&self.nodes)
    }

    /// Does nothing at run time. Shows that all parts of a file come and go together.
    #[tactic(auto, using(crate::proofs::FileTableView::chains, ordered_slab::proofs::Parts::parts))]
    pub fn lemma_are_one(&self)
        ensures marks { (f : ℕ) → map.contains_key self.now.marks f
            ≡ map.contains_key self.now.files f }
        ensures counts { (f : ℕ) → map.contains_key self.now.counts f
            ≡ map.contains_key self.now.files f }
        ensures as_many { map.len self.now.marks ≡ map.len self.now.counts }
    {
        // The view says it: reading a field gives it to the prover.
        let _rows = &self.rows;
    }

    /// Returns a reference to the row of `ino`, if there is one, by a search. A look-up by
    /// `FileRef` needs none if its hint is right.
    #[tactic(auto, using(crate::proofs::FileTableView::chains, ordered_slab::proofs::Parts::parts))]
    pub fn find(&self, ino: Ino) -> Option<FileRef>
        ensures there { IfSome result (λ f.
            (f ≡ ino) × IsTrue (map.contains_key self.now.files ino)) }
        ensures none { IfNone result (map.contains_key self.now.files ino ≡ false) }
        ensures uncounted { IfNone result (map.contains_key self.now.counts ino ≡ false) }
    {
        self.rows.find(ino)
    }

    /// Returns the least number above `ino` that has a row, if there is one, and the position
    /// behind it in the order. `ino` need not have a row. From the last answer on, no search is
    /// needed.
    #[inline(always)]
    #[tactic(auto, using(crate::proofs::FileTableView::chains, ordered_slab::proofs::Parts::parts))]
    pub fn next_after(&self, ino: Ino, at: usize) -> Option<(FileRef, usize)>
        ensures above { IfSome result (λ n. ino < n.0) }
        ensures there { IfSome result (λ n. IsTrue (map.contains_key self.now.files n.0)) }
        ensures least { IfSome result (λ n.
            (q : ℕ) → ino < q → q < n.0 → map.contains_key self.now.files q ≡ false) }
        ensures none { IfNone result
            ((q : ℕ) → ino < q → map.contains_key self.now.files q ≡ false) }
    {
        self.rows.next_after(ino, at)
    }

    /// Begins to keep that list, and empties both. On an error nothing has changed.
    #[tactic(auto, using(crate::proofs::FileTableInvariant::cleaned_rows))]
    pub fn tell(&mut self, list: ToldList) -> Result<(), AllocError>
        ensures ok { OnOk result (self.new ≡ record self.old {
          since = since_telling list self.old.since self.old.files (self.old.last + 1);
          room = self.new.room;
          space = self.new.space;
        }) }
        ensures space { self.new.space ≤ self.old.space }
        ensures err { OnErr result (self.new ≡ self.old) }
    {
        self.told.tell(list, self.rows.len())?;
        self.room = 0;
        self.told.clear(&mut self.rows);
        self.since_rows = Snapshot::of(&self.rows);
        self.since_nodes = Snapshot::of(&self.nodes);
        Ok(())
    }

    /// Returns the numbers of the files that were freed since the lists were last emptied, each
    /// once, if that list is kept.
    pub fn released_files(&self) -> &[Ino]
        ensures { self.now.since.released ≡ true
            → AreReleased self.now.files (self.now.last + 1) self.now.since result.now }
    {
        self.told.released()
    }

    /// Returns the sockets whose readiness may have changed since the lists were last emptied, each
    /// once, if that list is kept.
    pub fn changed_sockets(&self) -> &[FileRef]
        ensures once { AreSocketsOnce self.now.files result.now }
        ensures changed { self.now.since.changed ≡ true
            → AreChanged self.now.files self.now.since result.now }
    {
        self.told.changed()
    }

    /// Empties both lists. Takes no memory.
    #[tactic(auto, using(crate::proofs::FileTableInvariant::cleaned_rows))]
    pub fn clear_told(&mut self)
        ensures { self.new ≡ record self.old {
          since = record self.old.since { files = self.old.files; next = self.old.last + 1 };
        } }
    {
        self.told.clear(&mut self.rows);
        self.since_rows = Snapshot::of(&self.rows);
        self.since_nodes = Snapshot::of(&self.nodes);
    }
}
