//! Laws of settling: unheld files are freed (`Unheld` in `af_base/specs`).
ghost use Rattle.af_laws.specs.Settling.{SettlesToOne, SettlesToSome, SettledStays};
ghost use Rattle.af_laws.specs.Settling.{SettlingSettles, SettlingTwiceIsOnce};
ghost use Rattle.af_laws.specs.Settling.{HeldWorldIsSettled, CyclesStay, UnplacedIsUnheld};
ghost use Rattle.af_laws.specs.Settling.{UnplacedGoesFirst};

/// Settling has at most one outcome.
pub fn settles_to_one()
    ensures { SettlesToOne }
{}

/// Settling has an outcome.
pub fn settles_to_some()
    ensures { SettlesToSome }
{}

/// A settled world settles to itself, and to nothing else.
pub fn settled_stays()
    ensures { SettledStays }
{}

/// The settled world is settled.
pub fn settling_settles()
    ensures { SettlingSettles }
{}

/// To settle twice is to settle once.
pub fn settling_twice_is_once()
    ensures { SettlingTwiceIsOnce }
{}

/// Where some place holds each live file, nothing is to be freed.
pub fn held_world_is_settled()
    ensures { HeldWorldIsSettled }
{}

/// Settling never frees files that hold one another: of any files of which each is held by one of
/// them, none is unheld.
pub fn cycles_stay()
    ensures { CyclesStay }
{}

/// A live file that no place holds is unheld.
pub fn unplaced_is_unheld()
    ensures { UnplacedIsUnheld }
{}

/// To free first a live file that no place holds leaves the outcome of settling as it was.
pub fn unplaced_goes_first()
    ensures { UnplacedGoesFirst }
{}
