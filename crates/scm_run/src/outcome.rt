//! The lines of the answers to typed calls.
//!
//! Each is the line of the reply that has the answer, or of the error in its place. The reply's
//! variant is known here, so the compiler keeps only that variant's part of `push_reply`.
ghost use Rattle.std.specs.Prelude.{◌≡◌, ◌≤◌, ◌+◌, ◌++◌, IfOk, vec_capacity, vec_len};
ghost use Rattle.af_base.specs.declared.events.Reply.TheVariants as reply;
ghost use Rattle.af_steps.specs.Outcome.{finished_reply, got_reply, progress_reply};
ghost use Rattle.scm_run.specs.Text.{IsShort, reply_line, outcome_reply};
ghost use Rattle.scm_run.specs.declared.text.TheConstants.{MAX_REPLY_LINE};

use crate::text::push_reply;
use af_base::errno::Errno;
use af_base::events::Reply;
use af_base::ids::{Fd, Pid};
use af_steps::{Finished, Progress, Received};

/// Appends the line of a refusal. It is a function of its own, since few steps are refused.
#[inline(never)]
fn push_refusal(text: &mut Vec<u8>, error: Errno)
    requires { vec_len text.old + MAX_REPLY_LINE ≤ vec_capacity text.old }
    ensures { text.new.items ≡ text.old.items ++ reply_line (reply.Refused error) }
{
    push_reply(text, &Reply::Refused(error));
}

/// Appends the line of a call that answers a descriptor.
#[inline(always)]
pub fn push_fd(text: &mut Vec<u8>, outcome: Result<Fd, Errno>)
    requires { vec_len text.old + MAX_REPLY_LINE ≤ vec_capacity text.old }
    ensures { text.new.items ≡ text.old.items ++ reply_line (outcome_reply reply.Fd outcome) }
{
    match outcome {
        Ok(fd) => push_reply(text, &Reply::Fd(fd)),
        Err(error) => push_refusal(text, error),
    }
}

/// Appends the line of a call that answers two descriptors.
#[inline(always)]
pub fn push_fds(text: &mut Vec<u8>, outcome: Result<(Fd, Fd), Errno>)
    requires { vec_len text.old + MAX_REPLY_LINE ≤ vec_capacity text.old }
    ensures { text.new.items
        ≡ text.old.items ++ reply_line (outcome_reply (λ fds. reply.Fds fds.0 fds.1) outcome) }
{
    match outcome {
        Ok((first, second)) => push_reply(text, &Reply::Fds(first, second)),
        Err(error) => push_refusal(text, error),
    }
}

/// Appends the line of a call that answers a process.
#[inline(always)]
pub fn push_pid(text: &mut Vec<u8>, outcome: Result<Pid, Errno>)
    requires { vec_len text.old + MAX_REPLY_LINE ≤ vec_capacity text.old }
    ensures { text.new.items ≡ text.old.items ++ reply_line (outcome_reply reply.Pid outcome) }
{
    match outcome {
        Ok(pid) => push_reply(text, &Reply::Pid(pid)),
        Err(error) => push_refusal(text, error),
    }
}

/// Appends the line of a call that answers nothing.
#[inline(always)]
pub fn push_done(text: &mut Vec<u8>, outcome: Result<(), Errno>)
    requires { vec_len text.old + MAX_REPLY_LINE ≤ vec_capacity text.old }
    ensures { text.new.items
        ≡ text.old.items ++ reply_line (outcome_reply (λ _. reply.Ok) outcome) }
{
    match outcome {
        Ok(()) => push_reply(text, &Reply::Ok),
        Err(error) => push_refusal(text, error),
    }
}

/// Appends the line of a call that answers how many bytes were sent.
#[inline(always)]
pub fn push_sent(text: &mut Vec<u8>, outcome: Result<u32, Errno>)
    requires { vec_len text.old + MAX_REPLY_LINE ≤ vec_capacity text.old }
    ensures { text.new.items ≡ text.old.items ++ reply_line (outcome_reply reply.Sent outcome) }
{
    match outcome {
        Ok(count) => push_reply(text, &Reply::Sent(count)),
        Err(error) => push_refusal(text, error),
    }
}

/// Appends the line of a receive or a peek.
#[inline(always)]
pub fn push_received(text: &mut Vec<u8>, outcome: Result<Received, Errno>)
    requires room { vec_len text.old + MAX_REPLY_LINE ≤ vec_capacity text.old }
    requires short { IfOk outcome (λ received. IsShort (got_reply received)) }
    ensures { text.new.items ≡ text.old.items ++ reply_line (outcome_reply got_reply outcome) }
{
    match outcome {
        Ok(received) => push_reply(text, &received.into()),
        Err(error) => push_refusal(text, error),
    }
}

/// Appends the line of a begin.
#[inline(always)]
pub fn push_started(text: &mut Vec<u8>, outcome: Result<u64, Errno>)
    requires { vec_len text.old + MAX_REPLY_LINE ≤ vec_capacity text.old }
    ensures { text.new.items ≡ text.old.items ++ reply_line (outcome_reply reply.Started outcome) }
{
    match outcome {
        Ok(pass) => push_reply(text, &Reply::Started(pass)),
        Err(error) => push_refusal(text, error),
    }
}

/// Appends the line of a slice.
#[inline(always)]
pub fn push_progress(text: &mut Vec<u8>, outcome: Result<Progress, Errno>)
    requires { vec_len text.old + MAX_REPLY_LINE ≤ vec_capacity text.old }
    ensures { text.new.items ≡ text.old.items ++ reply_line (outcome_reply progress_reply outcome) }
{
    match outcome {
        Ok(Progress::Working) => push_reply(text, &Reply::Working),
        Ok(Progress::Done(finished)) => push_finished(text, Ok(finished)),
        Err(error) => push_refusal(text, error),
    }
}

/// Appends the line of a whole pass.
#[inline(always)]
pub fn push_finished(text: &mut Vec<u8>, outcome: Result<Finished, Errno>)
    requires { vec_len text.old + MAX_REPLY_LINE ≤ vec_capacity text.old }
    ensures { text.new.items ≡ text.old.items ++ reply_line (outcome_reply finished_reply outcome) }
{
    match outcome {
        Ok(Finished { pass, reclaimed }) => push_reply(text, &Reply::Done { pass, reclaimed }),
        Err(error) => push_refusal(text, error),
    }
}
