//! Laws of reach: what a chain of places that begins in a table leads to.
ghost use Rattle.af_laws.specs.Reaching.{PlacesKeepReached, GroupsOfTheirOwnAreGarbage};
ghost use Rattle.af_laws.specs.Reaching.{InstallKeepsReached, SendKeepsReached, ReachedIsHeld};
ghost use Rattle.af_laws.specs.Reaching.{NothingInFlightIsNoGarbage};
ghost use Rattle.af_laws.specs.Reaching.{SettlingKeepsReached, PurgingKeepsReached};
ghost use Rattle.af_laws.specs.Reaching.{SpawnReachesNoGarbage, StepReachesNoGarbage};
ghost use Rattle.af_laws.specs.Reaching.{GarbageStaysOutOfReach, GarbageIsNeverReached};

/// A reachable file stays reachable if no place is lost.
pub fn places_keep_reached()
    ensures { PlacesKeepReached }
{}

/// A reached file stays reached where a free descriptor is opened.
pub fn install_keeps_reached()
    ensures { InstallKeepsReached }
{}

/// A reached file stays reached where a message is sent.
pub fn send_keeps_reached()
    ensures { SendKeepsReached }
{}

/// A reachable file is never unheld.
pub fn reached_is_held()
    ensures { ReachedIsHeld }
{}

/// Live files that no table holds, and that only they themselves hold, are garbage. An example is a
/// listener in the queue of its own embryo, with the embryo in its backlog (net/unix/garbage.c).
pub fn groups_of_their_own_are_garbage()
    ensures { GroupsOfTheirOwnAreGarbage }
{}

/// A settled world with nothing in flight, and no embryo in a backlog, has no garbage: a table
/// holds each live file.
pub fn nothing_in_flight_is_no_garbage()
    ensures { NothingInFlightIsNoGarbage }
{}

/// The same files are reached before and after settling.
pub fn settling_keeps_reached()
    ensures { SettlingKeepsReached }
{}

/// The same files are reached before and after garbage is purged.
pub fn purging_keeps_reached()
    ensures { PurgingKeepsReached }
{}

/// A process that starts reaches nothing of what was live, but what was reached before.
pub fn spawn_reaches_no_garbage()
    ensures { SpawnReachesNoGarbage }
{}

/// No step of a process reaches any of what was live, but what was reached before.
pub fn step_reaches_no_garbage()
    ensures { StepReachesNoGarbage }
{}

/// Garbage is out of reach after any event, whatever the answer.
pub fn garbage_stays_out_of_reach()
    ensures { GarbageStaysOutOfReach }
{}

/// No run reaches a file that was garbage at its beginning, whatever files are freed or made.
pub fn garbage_is_never_reached()
    ensures { GarbageIsNeverReached }
{}
