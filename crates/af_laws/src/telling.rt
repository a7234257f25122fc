//! Laws of the lists of freed files.
ghost use Rattle.af_laws.specs.Telling.{PeriodsJoin};

/// Two periods of a list, one after the other, join to one. Each number live at the begin of the
/// first, or given out since, was listed once or is live at the end of the second.
pub fn periods_join()
    ensures { PeriodsJoin }
{}
