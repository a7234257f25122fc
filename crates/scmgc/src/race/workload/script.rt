//! The script of a worker.
ghost use Rattle.std.specs.Prelude.{◌≡◌, ◌≤◌, All, IfOk, vec_len};
ghost use Rattle.scmgc.specs.Race.Scripts.{IsStepOf, generator_of, script_of};

use crate::race::workload::source::Source;
use crate::race::workload::table::MAX_WORKERS;
use af_base::events::Event;
use rand_xoshiro::Xoshiro256PlusPlus;
use rand_xoshiro::rand_core::SeedableRng;
use std::alloc::{AllocError, Global};

/// The fewest steps of a script: its opening and the exit.
pub const MIN_STEPS: u32 = 5;

/// The most steps of a script that is made whole.
pub const MAX_STEPS: u32 = 20_000;

/// Makes the generator of a worker: that of the seed, jumped as often as the worker's number, so
/// that no two workers draw the same words.
pub fn generator(worker: u32, seed: u32) -> Xoshiro256PlusPlus
    ensures { result ≡ generator_of worker seed }
{
    let mut rng = Xoshiro256PlusPlus::seed_from_u64(u64::from(seed));
    'jumps: for _ in 0..worker {
        rng.jump();
    }
    rng
}

/// Makes the whole script of a worker ([`Source`]): `steps` events, all of the process with the
/// worker's number. Fails only if memory is refused.
pub fn make_script(
    alloc: Global,
    worker: u32,
    workers: u32,
    steps: u32,
    seed: u32,
) -> Result<Vec<Event>, AllocError>
    requires workers { workers ≤ MAX_WORKERS }
    requires worker { (1 ≤ worker) × (worker ≤ workers) }
    requires steps { (MIN_STEPS ≤ steps) × (steps ≤ MAX_STEPS) }
    ensures events { IfOk result (λ script. script.items ≡ script_of worker workers steps seed) }
    ensures count { IfOk result (λ script. vec_len script ≡ steps) }
    ensures own { IfOk result (λ script. All (IsStepOf worker) script.items) }
{
    let mut source = Source::new(worker, workers, steps, seed);
    source.part(alloc, steps)
}
