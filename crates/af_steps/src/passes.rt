//! Passes of the collector.
ghost use Rattle.std.specs.Prelude.{◌≡◌, ◌≤◌, IfErr, IfOk};
ghost use Rattle.af_base.specs.Pass.{Begins, GoesOn, PassesWhole, next_pass};
ghost use Rattle.af_steps.specs.Outcome.{finished_reply, progress_reply};

use crate::engine::Engine;
use af_base::errno::Errno;
use af_base::events::Reply;
use af_base::limits::{MAX_BUDGET, MAX_PASS};

/// A pass that is over.
#[derive(Clone, Copy, Debug, PartialEq, Eq)]
pub struct Finished {
    /// The number of the pass, from 1 on.
    pub pass: u64,
    /// How many sockets were garbage when it began.
    pub reclaimed: u64,
}

/// Where a pass is after a slice.
#[derive(Clone, Copy, Debug, PartialEq, Eq)]
pub enum Progress {
    /// The pass has work left.
    Working,
    /// It is over.
    Done(Finished),
}

impl From<Finished> for Reply {
    ghost from_gives = { λ finished r. r ≡ finished_reply finished };

    fn from(finished: Finished) -> Reply {
        Reply::Done {
            pass: finished.pass,
            reclaimed: finished.reclaimed,
        }
    }
}

impl From<Progress> for Reply {
    ghost from_gives = { λ progress r. r ≡ progress_reply progress };

    fn from(progress: Progress) -> Reply {
        match progress {
            Progress::Working => Reply::Working,
            Progress::Done(finished) => finished.into(),
        }
    }
}

impl Engine {
    /// Begins a pass over the present files. Costs the same for any number of files, except once in
    /// 2^32 passes. Returns its number. Refused with EBUSY while a pass runs.
    pub fn begin(&mut self) -> Result<u64, Errno>
        ensures done { IfOk result (λ number.
            Begins self.old.pass self.old (Reply.Started number) self.new) }
        ensures refused { IfErr result (λ e.
            Begins self.old.pass self.old (Reply.Refused e) self.new) }
    {
        if self.store.is_passing() {
            return Err(Errno::EBUSY);
        }
        self.store.begin();
        self.last_pass = next_pass(self.last_pass);
        Ok(self.last_pass)
    }

    /// Continues the running pass by at most `budget` units: each visits, scans or sweeps one
    /// file. Refused with EIDLE where none runs, and else with EINVAL where the budget is not 1 to
    /// 65,536.
    pub fn slice(&mut self, budget: u32) -> Result<Progress, Errno>
        ensures done { IfOk result (λ progress.
            GoesOn self.old.pass self.old budget (progress_reply progress) self.new) }
        ensures refused { IfErr result (λ e.
            GoesOn self.old.pass self.old budget (Reply.Refused e) self.new) }
    {
        if !self.store.is_passing() {
            return Err(Errno::EIDLE);
        }
        if budget == 0 || budget > MAX_BUDGET {
            return Err(Errno::EINVAL);
        }
        Ok(match self.store.slice(budget) {
            None => Progress::Working,
            Some(reclaimed) => Progress::Done(Finished {
                pass: self.last_pass,
                reclaimed,
            }),
        })
    }

    /// Runs a whole pass, which frees all garbage. Refused with EBUSY while a pass runs.
    pub fn pass(&mut self) -> Result<Finished, Errno>
        ensures done { IfOk result (λ finished.
            PassesWhole self.old.pass self.old (finished_reply finished) self.new) }
        ensures refused { IfErr result (λ e.
            PassesWhole self.old.pass self.old (Reply.Refused e) self.new) }
    {
        if self.store.is_passing() {
            return Err(Errno::EBUSY);
        }
        let reclaimed = self.store.collect();
        self.last_pass = next_pass(self.last_pass);
        Ok(Finished {
            pass: self.last_pass,
            reclaimed,
        })
    }
}

/// Returns the number of the next pass: one more than the last one's, up to the largest, which
/// stays.
fn next_pass(last: u64) -> u64
    requires { last ≤ MAX_PASS }
    ensures { result ≡ next_pass last }
{
    (last + 1).min(MAX_PASS)
}
