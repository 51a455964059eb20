//! How a performed job is recorded as done.
ghost use Rattle.std.specs.Prelude.{◌≡◌};
ghost use Rattle.amo_words.specs.Faces.{machine};
ghost use Rattle.amo_claims.specs.States.{HoldsJob};
ghost use Rattle.amo_claims.specs.Calls.{Files, FilesOn};

use crate::states::{After, Gone, Performed, Ready};
use amo_words::{Filed, Floor};

impl<P, Out> Performed<P, Out> {
    /// Returns how many steps the worker has taken. The count stops at 18446744073709551615.
    pub fn steps(&self) -> u64
        ensures steps { result ≡ (machine self.now.worker).state.steps }
    {
        self.worker.steps()
    }
}

impl<P: Drop, Out> Performed<P, Out> {
    /// Records the job in the worker's hand as done, by one store, and returns the answer. The
    /// state is `Over` exactly if the worker has ended with this step. It doesn't block, and takes
    /// no memory. The floor must be the worker's own.
    pub fn file(self, floor: &Floor<P>) -> (After<P>, Out)
        requires table { self.worker.table_id ≡ floor.now.table_id }
        ensures files { Files self.worker result.0 }
        ensures plainly { FilesOn self.worker self.job result.0 }
        ensures holds { HoldsJob self.worker self.job }
        ensures out { result.1 ≡ self.out }
    {
        let Performed {
            mut worker,
            job: _,
            out,
        } = self;
        match worker.file(floor) {
            Filed::More => (After::More(Ready { worker }), out),
            Filed::Ended => (After::Over(Gone { worker }), out),
        }
    }
}
