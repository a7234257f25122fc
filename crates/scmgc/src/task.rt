//! The command line.
ghost use Rattle.std.specs.Prelude.{◌≡◌, ℕ, List, Option, IfNone, IfOk, IfErr, IfSome, codes};
ghost use Rattle.std.specs.Prelude.{false, true, map};
ghost use Rattle.std.specs.Borrow.{Bor};
ghost use Rattle.std.specs.Option.{option_map};
ghost use Rattle.clap.specs.Words.{app_of, first_of, found_of, kind_of, rows_of, rule_of};
ghost use Rattle.clap.specs.Words.{subcommand_rows_of};
ghost use Rattle.clap.specs.declared.builder.command.Command.TheViews.{out-Command};
ghost use Rattle.clap.specs.declared.error.kind.ErrorKind.TheVariants.{OutOfMemory};
ghost use Rattle.scmgc.specs.Task.{HasNumber, IsInRange, IsRace, Names, StandsFor, bare_app};
ghost use Rattle.scmgc.specs.Task.{checkpoint_rule, fits, most_steps, number_rule, race_app};
ghost use Rattle.scmgc.specs.Task.{play_app, run_app, whole_app, with_numbers};
ghost use Rattle.scmgc.specs.declared.task.Task.{Task as Asked};

use crate::race::workload::{MAX_STEPS, MAX_WORKERS, MIN_STEPS};
use crate::race::{MAX_CHECKPOINT, MAX_LONG_STEPS};
use af_base::limits::MAX_BUDGET;
use clap::builder::ValueParser;
use clap::error::ErrorKind;
use clap::{Arg, ArgMatches, Command, Error};
use std::alloc::{AllocError, Global};
use std::convert::AsStr;

/// The task of the program.
#[derive(Clone, Copy)]
pub enum Task<'a> {
    /// Run the script on standard input.
    Run,
    /// Play a script for its author to see.
    Play {
        /// The path of the script, or none for standard input.
        file: Option<&'a str>,
    },
    /// Let workers and a collector race on one layer.
    Race {
        /// How many workers there are, 1 to 32.
        workers: u32,
        /// How many events each worker does, 5 to 20,000, or with checkpoints to 100,000,000.
        steps: u32,
        /// The number that the events are drawn from.
        seed: u32,
        /// The budget of the collector's slices, 1 to 65,536.
        budget: u32,
        /// How many events of the workers lie between two checkpoints, 1 to 250,000, or 0 for none.
        checkpoint: u32,
    },
}

/// The help on scripts.
const OF_SCRIPTS: &str =
    "A script has one event or one report on each line, as 'spawn 1000 16' or 'check'.
One whose first line is 'version 2' or 'version 3' may also have
  P peek N N N      process P sees what it may receive: socket, most bytes, most descriptors
  P limit N         process P has another limit on its descriptors
and one whose first line is 'version 3', where a TYPE may also be dgram,
  P shutdown N HOW  process P closes ends of a socket: read, write or both
  P unconnect N     process P lets a datagram socket send to none";

/// The help on playing.
const OF_PLAYING: &str =
    "The world goes on as it was after a line that cannot be read. Besides the lines
of a script there are
  who     which descriptors, queues and backlogs hold each file, and what is garbage
  graph   the world in the language of Graphviz
  help    all lines";

/// The help on benchmarks, which `main` does before it asks for a task.
const OF_BENCHMARKS: &str =
    "scmgc bench measures what events cost, and without more words lists its forms";

/// Makes the subcommand that runs a script.
fn run_command<'a>(alloc: Global) -> Command<'a>
    ensures shape { app_of result ≡ run_app }
    ensures local { (out-Command result).has_globals ≡ false }
{
    Command::new(alloc, "run")
        .about("Runs the script on standard input and writes the line of each reply")
        .after_help(OF_SCRIPTS)
}

/// Makes the subcommand that plays a script.
fn play_command<'a>(alloc: Global) -> Result<Command<'a>, AllocError>
    ensures shape { IfOk result (λ c. app_of c ≡ play_app) }
    ensures local { IfOk result (λ c. (out-Command c).has_globals ≡ false) }
{
    Command::new(alloc, "play")
        .about("Plays a script: shows each line with its answer, or why it cannot be read")
        .after_help(OF_PLAYING)
        .arg(Arg::new(alloc, "FILE").help("The script to play, or standard input without it"))
}

/// An option that takes a number in a range.
struct NumberOption {
    name: &'static str,
    least: u32,
    most: u32,
    help: &'static str,
}

/// The options of a race that must be given.
const NUMBERS: [NumberOption; 4] = [
    NumberOption {
        name: "workers",
        least: 1,
        most: MAX_WORKERS,
        help: "How many workers, 1 to 32",
    },
    NumberOption {
        name: "steps",
        least: MIN_STEPS,
        most: MAX_LONG_STEPS,
        help: "How many events each worker does, 5 to 20000, with checkpoints up to 100000000",
    },
    NumberOption {
        name: "seed",
        least: 0,
        most: u32::MAX,
        help: "The number that the events are drawn from, up to 4294967295",
    },
    NumberOption {
        name: "budget",
        least: 1,
        most: MAX_BUDGET,
        help: "The budget of the collector's slices, 1 to 65536",
    },
];

/// The option for the events between two checkpoints.
const CHECKPOINT: NumberOption = NumberOption {
    name: "checkpoint",
    least: 0,
    most: MAX_CHECKPOINT,
    help: "Audits and empties the log after so many events of the workers, up to 250000; else 0",
};

impl NumberOption {
    /// Makes the option as an argument, which must be given.
    fn argument<'a>(&self, alloc: Global) -> Arg<'a>
        ensures shape { rule_of result
            ≡ number_rule self.now.name.now self.now.least self.now.most }
        ensures local { result.global ≡ false }
    {
        Arg::new(alloc, self.name)
            .long(self.name)
            .value_name("NUMBER")
            .help(self.help)
            .required(true)
            .value_parser(ValueParser::signed(i64::from(self.least), i64::from(self.most)))
    }
}

/// Makes the option for the events between two checkpoints, which may be left out.
fn checkpoint_option<'a>(alloc: Global) -> Arg<'a>
    ensures shape { rule_of result ≡ checkpoint_rule }
    ensures local { result.global ≡ false }
{
    CHECKPOINT
        .argument(alloc)
        .required(false)
        .default_value("0")
}

/// Adds `options` to the command.
fn with_numbers<'a>(
    alloc: Global,
    mut command: Command<'a>,
    options: &[NumberOption],
) -> Result<Command<'a>, AllocError>
    requires { (out-Command command).has_globals ≡ false }
    ensures shape { IfOk result (λ c.
        app_of c ≡ with_numbers options.now (app_of command.entry)) }
    ensures local { IfOk result (λ c. (out-Command c).has_globals ≡ false) }
{
    for option in options {
        command = command.arg(option.argument(alloc))?;
    }
    Ok(command)
}

/// Makes the subcommand that lets workers race.
fn race_command<'a>(alloc: Global) -> Result<Command<'a>, AllocError>
    ensures shape { IfOk result (λ c. app_of c ≡ race_app) }
    ensures local { IfOk result (λ c. (out-Command c).has_globals ≡ false) }
{
    let command = Command::new(alloc, "race").about(
        "Lets workers and a collector race on one layer, and audits its log",
    );
    let command = with_numbers(alloc, command, &NUMBERS)?;
    command.arg(checkpoint_option(alloc))
}

/// Makes the command without its subcommands.
fn bare_command<'a>(alloc: Global) -> Command<'a>
    ensures shape { app_of result ≡ bare_app }
    ensures local { (out-Command result).has_globals ≡ false }
{
    Command::new(alloc, "scmgc")
        .version("0.2.0")
        .about("An in-memory AF_UNIX layer that keeps account of descriptors in flight")
        .after_help(OF_BENCHMARKS)
        .arg_required_else_help(true)
        .subcommand_required(true)
}

/// Makes the whole command.
fn whole_command<'a>(alloc: Global) -> Result<Command<'a>, AllocError>
    ensures shape { IfOk result (λ c. app_of c ≡ whole_app) }
{
    bare_command(alloc)
        .subcommand(run_command(alloc))?
        .subcommand(play_command(alloc)?)?
        .subcommand(race_command(alloc)?)
}

/// Returns the number of an option, where it has one from `least` to `most`.
fn number(matches: &ArgMatches<'_>, name: &str, least: u32, most: u32) -> Option<u32>
    ensures some { IfSome result (HasNumber (rows_of (found_of matches.now)) name.now least most) }
    ensures none { IfNone result
        ((n : ℕ) → ¬ (HasNumber (rows_of (found_of matches.now)) name.now least most n)) }
{
    // `clap` has refused what is out of range.
    match matches.get_one::<u32>(name) {
        Some(number) if least <= number && number <= most => Some(number),
        _ => None,
    }
}

/// Returns how many events each worker does at most: without checkpoints all fit into one log.
fn most_steps(checkpoint: u32) -> u32
    ensures { result ≡ most_steps checkpoint }
{
    if checkpoint == 0 {
        MAX_STEPS
    } else {
        MAX_LONG_STEPS
    }
}

/// Returns the race that the options ask for.
fn race_of<'a>(matches: &ArgMatches<'a>) -> Option<Task<'a>>
    ensures some { IfSome result (λ task. (workers steps seed budget checkpoint : ℕ)
        × (task ≡ Asked.Race workers steps seed budget checkpoint)
        × IsRace (rows_of (found_of matches.now)) workers steps seed budget checkpoint) }
    ensures none { IfNone result ((workers steps seed budget checkpoint : ℕ)
        → ¬ (IsRace (rows_of (found_of matches.now)) workers steps seed budget checkpoint)) }
{
    let checkpoint = number(matches, "checkpoint", 0, MAX_CHECKPOINT)?;
    Some(Task::Race {
        workers: number(matches, "workers", 1, MAX_WORKERS)?,
        steps: number(matches, "steps", MIN_STEPS, most_steps(checkpoint))?,
        seed: number(matches, "seed", 0, u32::MAX)?,
        budget: number(matches, "budget", 1, MAX_BUDGET)?,
        checkpoint,
    })
}

/// Returns the script that the options ask to play.
fn play_of<'a>(matches: &ArgMatches<'a>) -> Task<'a>
    ensures { (file : Option (Bor (List ℕ))) × (result ≡ Asked.Play file)
        × (option_map (λ path. path.now) file
        ≡ first_of (codes "FILE") (rows_of (found_of matches.now))) }
{
    Task::Play {
        file: matches.get_str("FILE"),
    }
}

/// Returns the task of the matches' subcommand.
fn chosen_task<'a>(matches: &ArgMatches<'a>) -> Option<Task<'a>>
    ensures some { IfSome result (StandsFor (subcommand_rows_of matches.now)) }
    ensures none { IfNone result
        ((task : Asked) → ¬ (StandsFor (subcommand_rows_of matches.now) task)) }
{
    match matches.subcommand()? {
        ("run", _) => Some(Task::Run),
        ("play", options) => Some(play_of(options)),
        ("race", options) => race_of(options),
        _ => None,
    }
}

/// Returns the task that a command line names, by the whole command.
#[tactic(auto, unfolding(crate::specs::Task::fits, crate::specs::Task::Names))]
fn task_by<'a, S: AsStr>(command: &mut Command<'a>, words: &'a [S]) -> Result<Task<'a>, Error>
    requires { app_of command.old ≡ whole_app }
    ensures ok { IfOk result (Names (map S.text words.entry.now)) }
    ensures ranges { IfOk result IsInRange }
    ensures fit { IfOk result (λ _. fits (map S.text words.entry.now) ≡ true) }
    ensures err { IfErr result (λ error. (task : Asked) → fits (map S.text words.entry.now) ≡ true
        → Names (map S.text words.entry.now) task → kind_of error ≡ OutOfMemory) }
{
    let matches = command.try_get_matches_from_mut(words)?;
    let chosen = chosen_task(&matches);
    // Dropped by a call: at the end of the block each part would be dropped, and proved, by itself.
    drop(matches);
    match chosen {
        Some(task) => Ok(task),
        // `clap` has refused all else.
        None => Err(command.error(
            ErrorKind::ValueValidation,
            "more than 20000 steps need --checkpoint",
        )?),
    }
}

/// Reads the task that a command line names. Its first word is the program's name.
///
/// A call for help or for the version is an error too, with that text.
pub fn task_of<'a, S: AsStr>(alloc: Global, words: &'a [S]) -> Result<Task<'a>, Error>
    ensures ok { IfOk result (Names (map S.text words.entry.now)) }
    ensures ranges { IfOk result IsInRange }
    ensures fit { IfOk result (λ _. fits (map S.text words.entry.now) ≡ true) }

    // Where the words fit the command and name a task, only refused memory is an error.
    ensures err { IfErr result (λ error. (task : Asked) → fits (map S.text words.entry.now) ≡ true
        → Names (map S.text words.entry.now) task → kind_of error ≡ OutOfMemory) }
{
    let mut command = whole_command(alloc)?;
    let task = task_by(&mut command, words);
    // Dropped by a call: at the end of the block each part would be dropped, and proved, by itself.
    drop(command);
    task
}
