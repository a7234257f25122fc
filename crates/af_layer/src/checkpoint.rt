//! A checkpoint: an audit of a book that stays in use.
ghost use Rattle.std.specs.Prelude.{◌≡◌, [], IfErr, IfOk, OnErr, OnOk};
ghost use Rattle.af_layer.specs.Audit.{AreEmptied, HasFault, IsWholeBook};

use crate::audit::{CloseFault, audit};
use crate::book::Book;
use crate::entry::Entry;
use crate::seat::Seat;

impl Book {
    /// Audits the seats as [`Layer::close`](crate::Layer::close) does, hands over the log as
    /// [`Book::take_log`] does, and empties the list of each seat.
    ///
    /// The error is what the audit found, and nothing has changed then. It takes no memory. Its
    /// cost is linear in the log and in the lists.
    pub fn checkpoint(&mut self, seats: &mut [Seat]) -> Result<Vec<Entry>, CloseFault>
        ensures whole { OnOk result (IsWholeBook self.old seats.old) }
        ensures log { IfOk result (λ log. log.items ≡ self.old.log) }
        ensures book { OnOk result
            (self.new ≡ record self.old { start = self.old.machine; log = []; room = 0 }) }
        ensures seats { OnOk result (AreEmptied seats.old seats.new) }
        ensures fault { IfErr result (HasFault self.old seats.old) }
        ensures same { OnErr result ((self.new ≡ self.old) × (seats.new ≡ seats.old)) }
    {
        if let Some(fault) = audit(self, seats) {
            return Err(fault);
        }
        empty_lists(seats);
        Ok(self.take_log())
    }
}

/// Empties the list of each seat.
fn empty_lists(seats: &mut [Seat])
    ensures { AreEmptied seats.old seats.new }
{
    for seat in seats.iter_mut() {
        seat.empty_list();
    }
}
