//! How an engine is made and freed, and how it does one event.
ghost use Rattle.std.specs.Prelude.{◌≡◌, None, IfNone, IfSome};
ghost use Rattle.scm_c.specs.Calls.{DoesEvent, EngineDoes, Makes};

use crate::answers::{NO_ENGINE, code, refusal};
use crate::handle::Handle;
use af_base::errno::Errno;
use af_base::events::Reply;
use af_steps::{Call, Engine};
use std::alloc::Global;

/// Makes an engine to which nothing has happened. An engine that was in the handle is freed, also
/// where the new one is refused. Answers 0.
///
/// Errors: JW_ENOMEM; the handle has no engine then.
#[must_use]
#[unsafe(no_mangle)]
pub extern "C" fn jw_engine_new(alloc: Global, engine: &mut Handle) -> i64
    ensures { Makes result engine.new.shown }
{
    *engine = Handle::none(alloc);
    let Ok(made) = Engine::new(alloc) else {
        return refusal(Errno::ENOMEM);
    };
    match Box::new(alloc, made) {
        Ok(boxed) => {
            *engine = Handle::of(boxed);
            0
        }
        Err(refused) => {
            // Dropped by a call: at the end of the block each part would be dropped, and proved, by
            // itself.
            drop(refused);
            refusal(Errno::ENOMEM)
        }
    }
}

/// Frees the engine, if there is one. The handle has no engine then.
#[unsafe(no_mangle)]
pub extern "C" fn jw_engine_free(alloc: Global, engine: &mut Handle)
    ensures { engine.new.shown ≡ None }
{
    *engine = Handle::none(alloc);
}

/// Does the event of this call, if there is an engine.
#[inline(always)]
pub(crate) fn reply_to<C: Call + Drop>(engine: &mut Handle, call: C) -> Option<Reply>
    ensures done { IfSome result (λ r.
        EngineDoes engine.old.shown (C.event call) r engine.new.shown) }
    ensures none { IfNone result (engine.old.shown ≡ None) }
    ensures still { IfNone result (engine.new.shown ≡ None) }
{
    Some(engine.as_mut()?.reply_to(call))
}

/// Does the event of this call, and answers the number of its reply.
#[inline(always)]
pub(crate) fn call<C: Call + Drop>(engine: &mut Handle, call: C) -> i64
    ensures { DoesEvent engine.old.shown (C.event call) result engine.new.shown }
{
    match reply_to(engine, call) {
        Some(reply) => code(&reply),
        None => NO_ENGINE,
    }
}
