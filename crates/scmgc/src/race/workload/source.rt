//! A script that is made in parts.
ghost use Rattle.std.specs.Prelude.{◌≡◌, ◌<◌, ◌≤◌, ◌∷◌, ℕ, [], IfOk, MatchOption, Some, drop};
ghost use Rattle.std.specs.Prelude.{slice_get, take};
ghost use Rattle.af_base.specs.declared.events.Event.{Event as Asked};
ghost use Rattle.scmgc.specs.Race.Scripts.{listener_type, opening_steps, script_of};
ghost use Rattle.scmgc.specs.declared.race.workload.table.TheConstants.{MAX_WORKERS};

use crate::race::workload::script::{MIN_STEPS, generator};
use crate::race::workload::table::{LISTENER, event_of_word, listener_name};
use af_base::events::{Event, SockType, Step};
use af_base::ids::Pid;
use rand_xoshiro::Xoshiro256PlusPlus;
use rand_xoshiro::rand_core::Rng;
use std::alloc::{AllocError, Global};
use std::marker::Model;

/// How many connections wait at a worker's listener at most.
const BACKLOG: u32 = 8;

/// How many events each script begins with.
const OPENING: u32 = 4;

/// The rest of a worker's script. Events are made when they are asked for, so a long script takes
/// no more memory than a short one.
#[derive(Drop)]
pub struct Source {
    worker: u32,
    workers: u32,
    /// How many events of the opening were made.
    opened: u32,
    /// How many words are still to be drawn.
    words: u32,
    /// Whether the exit was made.
    ended: bool,
    rng: Xoshiro256PlusPlus,
}

impl Model for Source {
    ghost use Rattle.std.specs.Prelude.{◌≤◌, List};
    ghost use Rattle.af_base.specs.declared.events.Event.{Event as Asked};
    ghost use Rattle.rand_core.specs.Steps.{steps_u64_high, stream_of};
    ghost use Rattle.rand_xoshiro.specs.Xoshiro256.{plus_plus};
    ghost use Rattle.scmgc.specs.Race.Source.{rest_of};

    ghost Value = { List Asked };

    ghost view = { λ s. rest_of s.worker s.workers s.opened s.words s.ended
        (stream_of (steps_u64_high plus_plus) s.rng) };

    ghost invariant = { λ s. (1 ≤ s.worker) × (s.worker ≤ s.workers) × (s.workers ≤ 32)
        × (s.opened ≤ 4) };
}

/// Returns the type of a worker's listener: a stream if the worker's number is odd.
fn listener_type(worker: u32) -> SockType
    ensures { result ≡ listener_type worker }
{
    if worker % 2 == 1 {
        SockType::Stream
    } else {
        SockType::Seqpacket
    }
}

/// Makes the event at `place` of those that each script begins with: a listener at 0, and a pair.
fn opening_step(alloc: Global, worker: u32, place: u32) -> Result<Step, AllocError>
    requires { place < OPENING }
    ensures { IfOk result (λ step. slice_get (opening_steps worker) place ≡ Some step) }
{
    let step = match place {
        0 => Step::Socket(listener_type(worker)),
        1 => Step::Bind {
            on: LISTENER,
            name: listener_name(alloc, worker)?,
        },
        2 => Step::Listen {
            on: LISTENER,
            backlog: BACKLOG,
        },
        _ => Step::Pair(SockType::Seqpacket),
    };
    Ok(step)
}

impl Source {
    /// Makes the source of a worker's whole script. No event of it is made yet.
    ///
    /// The worker makes a listener at 0, a stream where its number is odd and of packets where it
    /// is even, and a pair of sockets. Then come the events of the next words of its generator, and
    /// at the end its exit. The generator is xoshiro256++ from the seed, jumped as often as the
    /// worker's number.
    pub fn new(worker: u32, workers: u32, steps: u32, seed: u32) -> Source
        requires workers { workers ≤ MAX_WORKERS }
        requires worker { (1 ≤ worker) × (worker ≤ workers) }
        requires steps { MIN_STEPS ≤ steps }
        ensures { result ≡ script_of worker workers steps seed }
    {
        Source {
            worker,
            workers,
            opened: 0,
            words: steps - MIN_STEPS,
            ended: false,
            rng: generator(worker, seed),
        }
    }

    /// Makes the next event, if one is left.
    fn next(&mut self, alloc: Global) -> Result<Option<Event>, AllocError>
        ensures { IfOk result (λ made. MatchOption made
            ((self.old ≡ []) × (self.new ≡ []))
            (λ event. self.old ≡ event ∷ self.new)) }
    {
        if self.opened < OPENING {
            let step = opening_step(alloc, self.worker, self.opened)?;
            self.opened += 1;
            return Ok(Some(Event::Proc(Pid(self.worker), step)));
        }
        if self.words > 0 {
            let event = event_of_word(alloc, self.worker, self.workers, self.rng.next_u64())?;
            self.words -= 1;
            return Ok(Some(event));
        }
        if self.ended {
            return Ok(None);
        }
        self.ended = true;
        Ok(Some(Event::Proc(Pid(self.worker), Step::Exit)))
    }

    /// Makes the next `count` events, or all that are left. Fails only if memory is refused.
    pub fn part(&mut self, alloc: Global, count: u32) -> Result<Vec<Event>, AllocError>
        ensures made { IfOk result (λ part. part.items ≡ take count self.old) }
        ensures left { IfOk result (λ part. self.new ≡ drop count self.old) }
    {
        let mut part = Vec::with_capacity(alloc, count as usize)?;
        'events: for _ in 0..count {
            if let Some(event) = self.next(alloc)? {
                part.push(event)?;
            }
        }
        Ok(part)
    }
}
