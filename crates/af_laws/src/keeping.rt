//! Laws of old worlds, to which only the events of the specification led.
ghost use Rattle.af_laws.specs.Keeping.{FreshIsOld, OldWorldsStayOld};
ghost use Rattle.af_laws.specs.Keeping.{OldWorldsReadAsThen, OldRunsAreRunsThen};

/// The machine before anything has happened is old.
pub fn fresh_is_old()
    ensures { FreshIsOld }
{}

/// A run of old events from an old machine leads to an old one.
pub fn old_worlds_stay_old()
    ensures { OldWorldsStayOld }
{}

/// In an old world that is whole each definition reads as it did before the project added events of
/// its own.
pub fn old_worlds_read_as_then()
    ensures { OldWorldsReadAsThen }
{}

/// Old events have the same runs from an old machine whose world is sound, by the definitions as
/// they are and as they were.
pub fn old_runs_are_runs_then()
    ensures { OldRunsAreRunsThen }
{}
