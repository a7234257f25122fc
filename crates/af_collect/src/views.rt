//! Parts of the store, lent for reading.
ghost use Rattle.std.specs.Prelude.{◌≡◌, ℕ};
ghost use Rattle.af_base.specs.Places.{InTable};
ghost use Rattle.af_collect.specs.Keeping.{NotBegunGarbage};

use crate::holdings::Holdings;
use crate::store::Store;

impl Store {
    /// Lends the processes, the files, and their counts.
    #[inline(always)]
    pub fn holdings(&self) -> &Holdings
        ensures world { result.now.world ≡ self.now.world }
        ensures rows { result.now.rows ≡ self.now.rows }
        ensures marks { result.now.marks ≡ self.now.marks }
        ensures since { result.now.since ≡ self.now.since }
    {
        &self.holdings
    }

    /// Does nothing at run time. Shows that a file in a table is no garbage of the begin of a
    /// running pass.
    pub fn lemma_is_spared(&self)
        ensures { (f : ℕ) → InTable self.now.world f → NotBegunGarbage self.now.pass f }
    {
        // The invariant says it: reading a field gives it to the prover.
        let _progress = &self.progress;
    }
}
