//! Laws of steps and of runs.
ghost use Rattle.af_laws.specs.Running.{EventsHaveReplies, RepliesDetermine, LogDetermines};
ghost use Rattle.af_laws.specs.Running.{RefusedChangesNothing, RunsJoin};
ghost use Rattle.af_laws.specs.Running.{FreshIsSound, EventsKeepSound, RunsAreSound};
ghost use Rattle.af_laws.specs.Running.{RunsAreInTime};

/// From every machine whose world is sound each event, but a slice whose budgets are spent, has a
/// reply and leads somewhere.
pub fn events_have_replies()
    ensures { EventsHaveReplies }
{}

/// An event that leaves nothing to choose leads, with its reply, to one machine.
pub fn replies_determine()
    ensures { RepliesDetermine }
{}

/// A log of events that leave nothing to choose leads, with its replies, to one machine.
pub fn log_determines()
    ensures { LogDetermines }
{}

/// A refused event changes nothing.
pub fn refused_changes_nothing()
    ensures { RefusedChangesNothing }
{}

/// A run of two lists joined is a run of the first, and then one of the second.
pub fn runs_join()
    ensures { RunsJoin }
{}

/// The empty world is sound: whole, within all limits, and settled.
pub fn fresh_is_sound()
    ensures { FreshIsSound }
{}

/// Each event leaves a sound world sound, whatever the answer.
pub fn events_keep_sound()
    ensures { EventsKeepSound }
{}

/// Every run from the beginning leads to a sound world.
pub fn runs_are_sound()
    ensures { RunsAreSound }
{}

/// On every run from the beginning, a pass that still runs has spent at most three units for each
/// file of its begin.
pub fn runs_are_in_time()
    ensures { RunsAreInTime }
{}
