//! The start of a race: the processes, and the scripts.
ghost use Rattle.std.specs.Prelude.{◌≡◌, ◌≤◌, ◌++◌, ◌∷◌, [], IfErr, IfOk, OnOk, map};
ghost use Rattle.af_base.specs.declared.events.Reply.{Reply as Answer};
ghost use Rattle.af_base.specs.declared.events.Reply.TheVariants as answer;
ghost use Rattle.scmgc.specs.Race.Faults.{of_spawn};
ghost use Rattle.scmgc.specs.Race.Parts.{AreNext};
ghost use Rattle.scmgc.specs.Race.{scripts_of, spawn_of, spawned};
ghost use Rattle.scmgc.specs.declared.race.workload.script.TheConstants.{MIN_STEPS, MAX_STEPS};
ghost use Rattle.scmgc.specs.declared.race.workload.table.TheConstants.{MAX_WORKERS};

use crate::race::fault::RaceFault;
use crate::race::workload::{Source, make_script};
use af_base::errno::Errno;
use af_base::events::{Event, Reply};
use af_base::ids::{Pid, Uid};
use af_layer::{EventReply, Layer, Origin, Seat};
use std::alloc::{AllocError, Global};
use std::sync::Wait;

/// The first of the two users whose processes race.
const FIRST_USER: u32 = 1_000;

/// How many descriptors a process of a worker may have (RLIMIT_NOFILE).
const NOFILE: u32 = 32;

/// Makes the event that starts a worker's process.
fn spawn_of(worker: u32) -> Event
    ensures { result ≡ spawn_of worker }
{
    Event::Spawn {
        uid: Uid(FIRST_USER + worker % 2),
        nofile: NOFILE,
        privileged: false,
    }
}

/// Returns whether the worker's process has started, or which fault it is, by the reply.
fn check_start(start: &EventReply, worker: u32) -> Result<(), RaceFault>
    ensures started { OnOk result (start.now.1 ≡ answer.Pid worker) }
    ensures fault { IfErr result (λ fault. fault ≡ of_spawn start.now.1) }
{
    match *start.reply() {
        Reply::Pid(pid) if pid == Pid(worker) => Ok(()),
        Reply::Refused(Errno::ENOMEM) => Err(RaceFault::Memory),
        _ => Err(RaceFault::Failed),
    }
}

/// Starts the process of `worker`, which gets the worker's number as its pid.
fn start_process<R: Wait, O: Origin>(
    rt: &R,
    layer: &Layer<O>,
    main: &mut Seat,
    worker: u32,
) -> Result<(), RaceFault>
    ensures number { main.new.number ≡ main.old.number }
    ensures started { OnOk result
        (main.new.list ≡ main.old.list ++ (spawn_of worker, answer.Pid worker) ∷ []) }

    // Where the start was answered, the answer says which fault it is.
    ensures answered { IfErr result (λ fault. (reply : Answer)
        → main.new.list ≡ main.old.list ++ (spawn_of worker, reply) ∷ [] → fault ≡ of_spawn reply) }
{
    layer.call(rt, main, spawn_of(worker))?;
    let Some(last) = main.list().last() else {
        return Err(RaceFault::Failed);
    };
    check_start(last, worker)
}

/// Starts a process for each worker, from the first worker on.
pub fn start_processes<R: Wait, O: Origin>(
    rt: &R,
    layer: &Layer<O>,
    main: &mut Seat,
    workers: u32,
) -> Result<(), RaceFault>
    requires { workers ≤ MAX_WORKERS }
    ensures number { main.new.number ≡ main.old.number }
    ensures started { OnOk result (main.new.list ≡ main.old.list ++ spawned workers) }
{
    for before in 0..workers {
        start_process(rt, layer, main, before + 1)?;
    }
    Ok(())
}

/// Makes the scripts of all workers, in order.
pub fn scripts(
    alloc: Global,
    workers: u32,
    steps: u32,
    seed: u32,
) -> Result<Vec<Vec<Event>>, AllocError>
    requires workers { workers ≤ MAX_WORKERS }
    requires steps { (MIN_STEPS ≤ steps) × (steps ≤ MAX_STEPS) }
    ensures { IfOk result (λ v.
        map (λ script. script.items) v.items ≡ scripts_of workers workers steps seed) }
{
    let mut scripts = Vec::with_capacity(alloc, workers as usize)?;
    for before in 0..workers {
        scripts.push(make_script(alloc, before + 1, workers, steps, seed)?)?;
    }
    Ok(scripts)
}

/// Makes the sources of all workers' scripts, in order.
pub fn sources(
    alloc: Global,
    workers: u32,
    steps: u32,
    seed: u32,
) -> Result<Vec<Source>, AllocError>
    requires workers { workers ≤ MAX_WORKERS }
    requires steps { MIN_STEPS ≤ steps }
    ensures { IfOk result (λ sources. sources.items ≡ scripts_of workers workers steps seed) }
{
    let mut sources = Vec::with_capacity(alloc, workers as usize)?;
    for before in 0..workers {
        sources.push(Source::new(before + 1, workers, steps, seed))?;
    }
    Ok(sources)
}

/// Makes the next events of all workers, `count` of each.
pub fn next_parts(
    alloc: Global,
    sources: &mut [Source],
    count: u32,
) -> Result<Vec<Vec<Event>>, AllocError>
    ensures { IfOk result (λ parts.
        AreNext count sources.old (map (λ part. part.items) parts.items) sources.new) }
{
    let mut parts = Vec::with_capacity(alloc, sources.len())?;
    for source in sources.iter_mut() {
        parts.push(source.part(alloc, count)?)?;
    }
    Ok(parts)
}
