//! The collector's share of the broker's work.
ghost use Rattle.examples.specs.Reclaim.{Reclaims};

use crate::broker::host::HostFile;
use jaywardrobe::{Finished, Owned, Progress, calls};

/// How many files a slice looks at.
const BUDGET: u32 = 4;

/// Continues the running pass by a slice, or begins the next one. Answers a pass that is over.
pub fn reclaim(engine: &mut Owned<HostFile>) -> Option<Finished>
    ensures { Reclaims engine.old.machine.pass engine.old.machine result engine.new.machine }
{
    match engine.call(calls::Slice(BUDGET)) {
        Ok(Progress::Done(finished)) => Some(finished),
        Ok(Progress::Working) => None,
        Err(_) => {
            let _ = engine.call(calls::Begin);
            None
        }
    }
}
