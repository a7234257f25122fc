//! How a handle lends its engine.
ghost use Rattle.std.specs.Prelude.{◌≡◌};
ghost use Rattle.std.specs.Borrow.{sem};
ghost use Rattle.std.specs.Option.{option_copied_mut};
ghost use Rattle.scm_c.specs.Lends.{lends_engine};

use crate::handle::Handle;
use af_steps::Engine;

impl Handle {
    /// Returns the engine, if there is one.
    pub(crate) fn as_mut(&mut self) -> Option<&mut Engine>
        ensures* writes_back { sem 𝓛 (lends_engine self.entry result) }
        ensures value { option_copied_mut result ≡ self.old.shown }
    {
        let at = self.at;
        if at.is_null() {
            return None;
        }
        Some(unsafe { &mut *(at as *mut Engine) })
    }
}
