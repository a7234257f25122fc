//! `==` of events and of replies is equality of values.
ghost use Rattle.std.specs.Prelude.{◌≡◌, ◌↔◌, IsTrue};

use crate::events::{Event, Reply};

/// Returns whether two events are the same.
pub fn events_equal(event: &Event, other: &Event) -> bool
    ensures { IsTrue result ↔ (event.now ≡ other.now) }
{
    event == other
}

/// Returns whether two replies are the same.
pub fn replies_equal(reply: &Reply, other: &Reply) -> bool
    ensures { IsTrue result ↔ (reply.now ≡ other.now) }
{
    reply == other
}
