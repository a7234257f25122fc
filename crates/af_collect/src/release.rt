//! The freeing of unreferenced files, one file and one place at a time, without memory.
ghost use Rattle.std.specs.Prelude.{◌≡◌, ◌<◌, [], IfSome, IfNone, IsTrue, false};
ghost use Rattle.std.specs.Prelude.{nat_eq, true};
ghost use Rattle.af_base.specs.World.{IsLive};
ghost use Rattle.af_base.specs.Counts.{refs};
ghost use Rattle.af_base.specs.Places.{held_by, queue_at};
ghost use Rattle.af_base.specs.Pass.{emptied};
ghost use Rattle.af_base.specs.Unheld.{without};
ghost use Rattle.af_desc.specs.FilesView as desc;
ghost use Rattle.af_base.specs.Whole.{IsSound};
ghost use Rattle.af_collect.specs.Losing.{places_at, without_place};
ghost use Rattle.af_mark.specs.MarksView.{forgotten};

use crate::charges::uncharge_message;
use crate::holdings::Holdings;
use af_base::ids::FileRef;
use af_desc::Popped;
use af_ledger::Place;
use af_queue::Attached;

impl Holdings {
    /// Removes the first message of a file, or else its first embryo, and their places. Returns
    /// whether there was one. Takes no memory.
    #[inline(always)]
    pub(crate) fn drop_place(&mut self, file: &FileRef) -> bool
        ensures world { self.new ≡ record self.old {
          world = without_place self.old.world file.now;
          message_room = self.new.message_room;
        } }
        ensures some { IsTrue result → 0 < places_at self.old.world file.now }
        ensures none { result ≡ false → places_at self.old.world file.now ≡ 0 }
    {
        let mut attached = Attached::new(self.alloc);
        let Some(popped) = self.files.pop(file, &mut attached) else {
            return false;
        };
        match popped {
            Popped::Message(user) => {
                let files = attached.as_slice();
                uncharge_message(&mut self.files, &mut self.ledger, user, files);
            }
            Popped::Embryo(embryo) => self.files.drop_one(&Place::Backlog, &embryo),
        }
        true
    }

    /// Drops all places that a file holds. Takes no memory.
    #[inline(always)]
    pub(crate) fn empty(&mut self, file: &FileRef)
        ensures { self.new ≡ record self.old {
          world = emptied (nat_eq file.now) self.old.world;
          message_room = self.new.message_room;
        } }
    {
        while self.drop_place(file) {}
    }

    /// Returns an unreferenced file, if there is one.
    pub(crate) fn next_unreferenced(&self) -> Option<FileRef>
        ensures live { IfSome result (λ f. IsLive self.now.world f) }
        ensures unheld { IfSome result (λ f. refs self.now.world f ≡ 0) }
        ensures none { IfNone result (IsSound self.now.world) }
    {
        self.files.next_unreferenced()
    }

    /// Frees an unreferenced file that holds nothing, and hangs up its peer. Returns whether it was
    /// a socket that the pass had still to mark. Takes no memory.
    pub(crate) fn free_bare(&mut self, file: &FileRef) -> bool
        requires live { IsLive self.old.world file.now }
        requires unheld { refs self.old.world file.now ≡ 0 }
        requires bare { held_by self.old.world file.now ≡ [] }
        requires silent { queue_at self.old.world file.now ≡ [] }
        ensures gone { self.new ≡ record self.old {
          world = without (nat_eq file.now) self.old.world;
          marks = forgotten file.now self.old.marks;
        } }
        ensures unmarked { result
            ≡ desc.is_unmarked_socket self.old.world.files self.old.marks file.now }
    {
        self.files.remove(file)
    }
}
