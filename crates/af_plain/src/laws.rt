//! Laws of bare worlds: what is left out changes no count and no reach, so that a listing that
//! shows a world bare has the counts and the reach of the whole one.
ghost use Rattle.af_plain.specs.Laws.{KeepsRefs, KeepsInflight, KeepsCharged, KeepsTotal};
ghost use Rattle.af_plain.specs.Laws.{KeepsLiveFiles, KeepsReached, KeepsGarbage};

/// A bare world has the reference counts of the whole one.
pub fn bare_keeps_refs()
    ensures { KeepsRefs }
{}

/// A bare world has the in-flight counts of the whole one.
pub fn bare_keeps_inflight()
    ensures { KeepsInflight }
{}

/// A bare world charges each user what the whole one does.
pub fn bare_keeps_charged()
    ensures { KeepsCharged }
{}

/// A bare world charges all users together what the whole one does.
pub fn bare_keeps_total()
    ensures { KeepsTotal }
{}

/// A bare world has the live files of the whole one.
pub fn bare_keeps_live()
    ensures { KeepsLiveFiles }
{}

/// The same files are reached in a bare world.
pub fn bare_keeps_reached()
    ensures { KeepsReached }
{}

/// The same files are garbage in a bare world.
pub fn bare_keeps_garbage()
    ensures { KeepsGarbage }
{}
