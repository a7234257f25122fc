//! The places of a whole message: in the counts of each file, and in what its user is charged. None
//! takes memory.
ghost use Rattle.std.specs.Prelude.{◌≡◌};
ghost use Rattle.af_ledger.specs.Tally.{CanDropAll, CanHoldAll, kept_of, with_refs, without_refs};
ghost use Rattle.af_ledger.specs.declared.place.Place.TheVariants.{Queue};

use af_base::ids::{FileRef, Uid};
use af_desc::Files;
use af_ledger::{Ledger, Place};

/// Adds one place in a queue for each of `attached`, and charges the user.
#[inline(always)]
pub fn charge_message(files: &mut Files, ledger: &mut Ledger, user: Uid, attached: &[FileRef])
    requires { CanHoldAll user attached.now (kept_of files.old.counts ledger.old) }
    ensures kept { kept_of files.new.counts ledger.new
        ≡ with_refs (Queue user) attached.now (kept_of files.old.counts ledger.old) }
    ensures rest { files.new ≡ record files.old { counts = files.new.counts } }
{
    if attached.is_empty() {
        return;
    }
    ledger.charge(user, attached.len() as u64);
    for file in attached {
        files.hold(&Place::Queue(user), file);
    }
}

/// Drops one place in a queue for each of `attached`, and the user's charge.
#[inline(always)]
pub fn uncharge_message(files: &mut Files, ledger: &mut Ledger, user: Uid, attached: &[FileRef])
    requires { CanDropAll user attached.now (kept_of files.old.counts ledger.old) }
    ensures kept { kept_of files.new.counts ledger.new
        ≡ without_refs (Queue user) attached.now (kept_of files.old.counts ledger.old) }
    ensures rest { files.new ≡ record files.old { counts = files.new.counts } }
{
    if attached.is_empty() {
        return;
    }
    ledger.uncharge(user, attached.len() as u64);
    for file in attached {
        files.drop_one(&Place::Queue(user), file);
    }
}
