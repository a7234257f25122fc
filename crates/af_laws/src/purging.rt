//! Laws of purging: queues are emptied, and then files are freed.
ghost use Rattle.af_laws.specs.Purging.{PurgesBoth, PurgesInAnyOrder, PassSparesTheReached};
ghost use Rattle.af_laws.specs.Purging.{PassLeavesNoGarbage, PassReleasesItsGarbage};
ghost use Rattle.af_laws.specs.Purging.{PassHasOneOutcome, PassWithoutProcessesLeavesNothing};
ghost use Rattle.af_laws.specs.Purging.{SlicesAreAPass, PassIsOneSlice, SlicesSpareTheReached};
ghost use Rattle.af_laws.specs.Purging.{BegunGarbageIsNeverReached};

/// To purge some files and then others is to purge all of them at once.
pub fn purges_both()
    ensures { PurgesBoth }
{}

/// The order of two purges does not matter.
pub fn purges_in_any_order()
    ensures { PurgesInAnyOrder }
{}

/// A whole pass changes no table, and no queue or backlog of what is reached, whatever the answer.
pub fn pass_spares_the_reached()
    ensures { PassSparesTheReached }
{}

/// A whole pass that is done leaves no garbage.
pub fn pass_leaves_no_garbage()
    ensures { PassLeavesNoGarbage }
{}

/// A whole pass that is done has released all that was garbage at its beginning: none of it is
/// live.
pub fn pass_releases_its_garbage()
    ensures { PassReleasesItsGarbage }
{}

/// A whole pass that is done on a world without processes leaves no file.
pub fn pass_without_processes_leaves_nothing()
    ensures { PassWithoutProcessesLeavesNothing }
{}

/// A whole pass has one outcome: one reply, and one machine.
pub fn pass_has_one_outcome()
    ensures { PassHasOneOutcome }
{}

/// A begin, and slices with no steps between them, the last of them done, are a whole pass, however
/// they are cut. It may have the same reply, and lead to the same machine.
pub fn slices_are_a_pass()
    ensures { SlicesAreAPass }
{}

/// A whole pass that is done is a begin and one slice of the largest budget.
pub fn pass_is_one_slice()
    ensures { PassIsOneSlice }
{}

/// While no garbage of the begin is reached, a slice changes no table, and no queue or backlog of
/// what is reached, whatever the answer.
pub fn slices_spare_the_reached()
    ensures { SlicesSpareTheReached }
{}

/// While a pass runs, no garbage of its begin is reached, whatever processes do between its slices.
pub fn begun_garbage_is_never_reached()
    ensures { BegunGarbageIsNeverReached }
{}
