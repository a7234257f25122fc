//! Measures what events cost, of an engine alone or from threads.
//!
//! `program` has no part in it: it needs a clock, and no statement tells what one shows.
ghost use Rattle.std.specs.Prelude.{◌≤◌};

mod calls;
mod layer;
mod runs;
mod script;

use crate::bench::calls::Calls;
use crate::bench::layer::Locking;
use crate::bench::runs::Runs;
use std::alloc::Global;
use std::io::{self, Print, Read, Write};
use std::sync::Wait;
use std::thread::Threads;
use std::time::Clock;

/// How many calls of a batch are made under one lock.
const BATCH: usize = 16;

/// The forms of a command line that names a benchmark.
const USAGE: &str = "usage: scmgc bench script SETUP EVENTS RUNS
       scmgc bench layer|batches|shared THREADS EVENTS RUNS
       scmgc bench engine|lock EVENTS RUNS";

/// The work that a command line asks for.
#[derive(Clone, Copy)]
enum Benchmark {
    /// Measures a script, without its first lines, this many.
    Script(usize, Runs),
    /// Measures these calls.
    Calls(Calls, Runs),
}

impl Benchmark {
    /// Returns the benchmark that `words` name.
    fn of(words: &[String]) -> Option<Benchmark> {
        let [form, first @ .., events, count] = words else {
            return None;
        };
        let runs = Runs::of(events, count)?;
        let first = match first {
            [] => None,
            [word] => Some(word.parse::<u32>().ok()?),
            _ => return None,
        };
        let calls = match (form.as_str(), first) {
            ("script", Some(setup)) => return Some(Benchmark::Script(setup as usize, runs)),
            ("layer", Some(threads)) => Calls::Layer(threads, Locking::Calls),
            ("batches", Some(threads)) => Calls::Layer(threads, Locking::Batches(BATCH)),
            ("shared", Some(threads)) => Calls::Shared(threads),
            ("engine", None) => Calls::Engine,
            ("lock", None) => Calls::Lock,
            _ => return None,
        };
        Some(Benchmark::Calls(calls, runs))
    }

    /// Measures all runs, and prints how many nanoseconds each took.
    fn measure<R: Threads + Wait + Clock + Print + Sync, I: Read + Drop>(
        self,
        rt: &R,
        alloc: Global,
        input: I,
    ) -> io::Result<()> {
        match self {
            Benchmark::Script(setup, runs) => {
                script::measure_input(rt, alloc, input, setup, runs)
            }
            Benchmark::Calls(calls, runs) => calls.measure(rt, alloc, runs),
        }
    }
}

/// Measures what the words after `scmgc bench` name, and answers the exit status: 0, or 1 for a
/// failed run, or 2 where they name no benchmark.
///
/// `script SETUP EVENTS RUNS` does a script from the input over and over on one engine. `layer` and
/// `shared` make calls of an engine behind a lock, with a log or without one; `batches` makes 16
/// calls of a layer under each lock. `engine` makes the calls of an engine alone, and `lock` takes
/// the lock alone. A line on standard output for each run says how many nanoseconds it took.
pub fn bench<R: Threads + Wait + Clock + Print + Sync, I: Read + Drop, E: Write>(
    rt: &R,
    alloc: Global,
    words: &[String],
    input: I,
    errors: &mut E,
) -> u8
    ensures { result ≤ 2 }
{
    let Some(benchmark) = Benchmark::of(words) else {
        let _ = writeln!(errors, "{USAGE}");
        return 2;
    };
    match benchmark.measure(rt, alloc, input) {
        Ok(()) => 0,
        Err(error) => {
            let _ = writeln!(errors, "scmgc: {error}");
            1
        }
    }
}
