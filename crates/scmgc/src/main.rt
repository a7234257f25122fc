//! Runs scripts of events against the layer, from standard input to standard output, lets workers
//! race on it, and measures it.
//!
//! `task` reads the command line, and `program` does what it asks for over any streams. `play`
//! shows a script to its author. `main` has the streams and threads of the system. `bench` measures
//! what events cost, by the system's clock.
#![tactic(auto)]

mod bench;
mod play;
mod program;
mod race;
mod task;

use crate::bench::bench;
use crate::play::Style;
use crate::program::program;
use scm_run::{RunFault, Watched};
use std::alloc::AllocError;
use std::env;
use std::io::{ErrorKind, IsTerminal};
use std::process::ExitCode;

fn main(rt: HostRuntime) -> ExitCode {
    let alloc = rt.alloc();
    let style = match rt.stdin().is_terminal() {
        true => Style::Terminal,
        false => Style::Script,
    };
    let mut input = Watched::new(rt.stdin());
    let mut output = Watched::new(rt.stdout());
    let mut errors = rt.stderr();
    let words = match env::args(&rt) {
        Ok(words) => words.collect::<Vec<String>>(alloc),
        Err(error) if error.kind() == ErrorKind::OutOfMemory => Err(AllocError),
        Err(_) => {
            let _ = eprintln!(rt; "error: invalid UTF-8 was detected in one or more arguments");
            return ExitCode::from(2);
        }
    };
    let Ok(words) = words else {
        let _ = eprintln!(rt; "scmgc: {}", RunFault::Memory);
        return ExitCode::from(1);
    };
    if let [_, command, asked @ ..] = words.as_slice()
        && command.as_str() == "bench"
    {
        return ExitCode::from(bench(&rt, alloc, asked, rt.stdin(), &mut errors));
    }
    ExitCode::from(program(
        &rt,
        alloc,
        words.as_slice(),
        style,
        &mut input,
        &mut output,
        &mut errors,
    ))
}
