//! The whole program, over any streams.
ghost use Rattle.std.specs.Prelude.{◌≡◌, ◌≢◌, ◌≤◌, ◌⊎◌, ℕ, List, IfOk, Some, false, true, map};
ghost use Rattle.std.specs.Prelude.{string_bytes};
ghost use Rattle.clap.specs.Words.{kind_of};
ghost use Rattle.clap.specs.declared.error.kind.ErrorKind.TheVariants.{OutOfMemory};
ghost use Rattle.scmgc.specs.Program.{Did, RanRace, RanScript, TextOf, WroteNoRace};
ghost use Rattle.scmgc.specs.Program.{fault_status};
ghost use Rattle.scmgc.specs.Task.{IsInRange, Names, fits};
ghost use Rattle.scmgc.specs.declared.task.Task.{Task as Asked};
ghost use Rattle.scmgc.specs.declared.task.Task.TheVariants as task;
ghost use Rattle.scmgc.specs.Played.{Played};
ghost use Rattle.scmgc.specs.Race.Parts.{LongRaceText};
ghost use Rattle.scmgc.specs.Race.{RaceText};

use crate::play::{PlayFault, Style, play};
use crate::race::{LongRace, Race, RaceFault};
use crate::task::{Task, task_of};
use clap::error::ErrorKind;
use scm_run::{RunFault, Watched, run_script, write_whole};
use std::alloc::Global;
use std::convert::AsStr;
use std::fmt::Display;
use std::fs;
use std::io::{BufReader, Read, Write};
use std::rt::Files;
use std::sync::Wait;
use std::thread::Threads;

/// The exit status of a failed run or race.
const FAILED: u8 = 1;

/// The exit status of a command line or a script that cannot be read.
const UNREADABLE: u8 = 2;

/// Says on the error stream what failed.
fn say<E: Write, F: Display>(errors: &mut E, fault: &F) {
    // Where this line cannot be written either, the status still tells.
    let _ = writeln!(errors, "scmgc: {fault}");
}

/// Says on the error stream why a run stopped, and answers the exit status.
fn complain<E: Write>(errors: &mut E, fault: &RunFault) -> u8
    ensures { result ≡ fault_status fault.now }
{
    say(errors, fault);
    match fault {
        RunFault::Unreadable(_) => UNREADABLE,
        RunFault::Read | RunFault::Write | RunFault::Memory => FAILED,
    }
}

/// Says on the error stream what is wrong with the command line, and answers the exit status.
fn refuse<E: Write>(errors: &mut E, error: &clap::Error) -> u8
    ensures memory { kind_of error.now ≡ OutOfMemory → result ≡ 1 }
    ensures other { kind_of error.now ≢ OutOfMemory → result ≡ 2 }
    ensures few { (1 ≤ result) × (result ≤ 2) }
{
    if error.kind() == ErrorKind::OutOfMemory {
        return complain(errors, &RunFault::Memory);
    }
    let _ = write!(errors, "{error}");
    UNREADABLE
}

/// Lets workers race, and makes the lines that tell the book of that race.
fn race_text<H: Threads + Wait + Sync>(
    rt: &H,
    alloc: Global,
    race: Race,
) -> Result<String, RaceFault>
    requires { IsInRange (task.Race race.workers race.steps race.seed race.budget 0) }
    ensures { IfOk result (λ text.
        RaceText race.workers race.steps race.seed race.budget (string_bytes text)) }
{
    let outcome = race.run(rt, alloc)?;
    let totals = outcome.totals();
    // Dropped by a call: at the end of the block each part would be dropped, and proved, by itself.
    drop(outcome);
    Ok(totals.text(alloc)?)
}

/// Runs a race with checkpoints, and returns its text.
fn long_race_text<H: Threads + Wait + Sync>(
    rt: &H,
    alloc: Global,
    long: LongRace,
) -> Result<String, RaceFault>
    requires { let race = long.race in
        IsInRange (task.Race race.workers race.steps race.seed race.budget 1) }
    ensures { let race = long.race in IfOk result (λ text.
        LongRaceText race.workers race.steps race.seed race.budget long.checkpoint
        (string_bytes text)) }
{
    let outcome = long.run(rt, alloc)?;
    let totals = outcome.totals();
    // Dropped by a call: at the end of the block each part would be dropped, and proved, by itself.
    drop(outcome);
    Ok(totals.text(alloc)?)
}

/// Lets workers race, with checkpoints if there are any, and makes the lines.
fn race_lines<H: Threads + Wait + Sync>(
    rt: &H,
    alloc: Global,
    race: Race,
    checkpoint: u32,
) -> Result<String, RaceFault>
    requires { IsInRange (task.Race race.workers race.steps race.seed race.budget checkpoint) }
    ensures { IfOk result (λ text.
        TextOf race.workers race.steps race.seed race.budget checkpoint (string_bytes text)) }
{
    if checkpoint == 0 {
        race_text(rt, alloc, race)
    } else {
        long_race_text(rt, alloc, LongRace { race, checkpoint })
    }
}

/// Lets workers race, writes what that came to, and answers the exit status.
///
/// Nothing is written to the output where there is no outcome.
fn run_race<H: Threads + Wait + Sync, W: Write, E: Write>(
    rt: &H,
    alloc: Global,
    race: Race,
    checkpoint: u32,
    output: &mut Watched<W>,
    errors: &mut E,
) -> u8
    requires race { IsInRange (task.Race race.workers race.steps race.seed race.budget checkpoint) }
    requires output { output.old.has_failed ≡ false }
    ensures done { result ≡ 0 → RanRace race.workers race.steps race.seed race.budget checkpoint
        (W.contents output.old.inner) (W.contents output.new.inner) }
    ensures failed { result ≢ 0 → WroteNoRace output.old.has_failed (W.contents output.old.inner)
        output.new.has_failed (W.contents output.new.inner) }
    ensures few { result ≤ 1 }
{
    let text = match race_lines(rt, alloc, race, checkpoint) {
        Ok(text) => text,
        Err(fault) => {
            say(errors, &fault);
            return FAILED;
        }
    };
    match write_whole(output, text.as_bytes()) {
        Ok(()) => 0,
        Err(fault) => {
            say(errors, &fault);
            FAILED
        }
    }
}

/// Plays the script that a reader gives, and answers the exit status.
fn play_script<R: Read + Drop, W: Write, E: Write>(
    alloc: Global,
    style: Style,
    input: R,
    output: &mut W,
    errors: &mut E,
) -> u8
    ensures done { result ≡ 0 → (script : List ℕ) → R.remaining input ≡ Some script
        → Played style script (W.contents output.old) (W.contents output.new) }
    ensures few { result ≤ 1 }
{
    let played = match BufReader::new(alloc, input) {
        Ok(mut reader) => play(alloc, style, &mut reader, output),
        Err(error) => Err(PlayFault::of_read(error)),
    };
    match played {
        Ok(()) => 0,
        Err(fault) => {
            say(errors, &fault);
            FAILED
        }
    }
}

/// Plays the script in the file of this path, and answers the exit status.
fn play_file<H: Files, W: Write, E: Write>(
    rt: &H,
    alloc: Global,
    path: &str,
    output: &mut W,
    errors: &mut E,
) -> u8
    ensures { result ≤ 1 }
{
    match fs::open(rt, path) {
        Ok(file) => play_script(alloc, Style::Script, file, output, errors),
        Err(error) => {
            let _ = writeln!(errors, "scmgc: {path}: {error}");
            FAILED
        }
    }
}

/// Does the task that these words name, over these streams, and answers the exit status. It is 0;
/// or 1 for a failed run, play or race, or without memory to read the command line; or 2 for a line
/// of a run or a command line that cannot be read.
///
/// The first word is the program's name. A fault is one line on the error stream. The style is that
/// of a script that is played from the input.
pub fn program<H: Threads + Wait + Sync + Files, S: AsStr, R: Read, W: Write, E: Write>(
    rt: &H,
    alloc: Global,
    words: &[S],
    style: Style,
    input: &mut Watched<R>,
    output: &mut Watched<W>,
    errors: &mut E,
) -> u8
    requires input { input.old.has_failed ≡ false }
    requires output { output.old.has_failed ≡ false }

    // The status is 0 only where the words name a task, and it was done to its end.
    ensures done { (result ≡ 0) → (asked : Asked) × Names (map S.text words.now) asked
        × Did style asked (R.remaining input.old.inner) (R.remaining input.new.inner)
        (W.contents output.old.inner) (W.contents output.new.inner) }

    // Where the words ask for a run, there is one, unless there is no memory to read the words.
    ensures run { fits (map S.text words.now) ≡ true → Names (map S.text words.now) task.Run
        → ((result ≡ 1) × (input.new ≡ input.old) × (output.new ≡ output.old))
        ⊎ RanScript (R.remaining input.old.inner) (R.remaining input.new.inner)
        (W.contents output.old.inner) (W.contents output.new.inner)
        input.new.has_failed output.new.has_failed result }

    // Where they ask for a race, nothing is read, and the status is 0 or 1: with 1 nothing was
    // written to the output, unless a write failed.
    ensures race { fits (map S.text words.now) ≡ true → (workers steps seed budget checkpoint : ℕ)
        → Names (map S.text words.now) (task.Race workers steps seed budget checkpoint)
        → (input.new ≡ input.old) × (result ≤ 1)
        × (result ≢ 0 → WroteNoRace output.old.has_failed (W.contents output.old.inner)
        output.new.has_failed (W.contents output.new.inner)) }

    // Where they do not fit the command, or name no task, nothing is read or written but the
    // complaint: the status is 1 or 2.
    ensures unfit { fits (map S.text words.now) ≡ false
        → (1 ≤ result) × (input.new ≡ input.old) × (output.new ≡ output.old) }
    ensures refused { ((asked : Asked) → ¬ (Names (map S.text words.now) asked))
        → (1 ≤ result) × (input.new ≡ input.old) × (output.new ≡ output.old) }
    ensures few { result ≤ 2 }
{
    match task_of(alloc, words) {
        Ok(Task::Run) => match run_script(alloc, input, output) {
            Ok(_) => 0,
            Err(fault) => complain(errors, &fault),
        },
        Ok(Task::Play { file: None }) => play_script(alloc, style, input, output, errors),
        Ok(Task::Play { file: Some(path) }) => play_file(rt, alloc, path, output, errors),
        Ok(
            Task::Race {
                workers,
                steps,
                seed,
                budget,
                checkpoint,
            },
        ) => {
            let race = Race {
                workers,
                steps,
                seed,
                budget,
            };
            run_race(rt, alloc, race, checkpoint, output, errors)
        }
        Err(error) => refuse(errors, &error),
    }
}
