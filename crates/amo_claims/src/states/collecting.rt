//! A worker that takes no further step.
ghost use Rattle.std.specs.Prelude.{◌≡◌};
ghost use Rattle.amo_words.specs.Faces.{machine};
ghost use Rattle.amo_words.specs.Hiring.{HasCollected};

use crate::states::Gone;
use amo_words::{Book, Floor};

impl<P> Gone<P> {
    /// Returns how many steps the worker has taken, a leave included. The count stops at
    /// 18446744073709551615.
    pub fn steps(&self) -> u64
        ensures steps { result ≡ (machine self.now).state.steps }
    {
        self.worker.steps()
    }
}

impl<P: Drop> Gone<P> {
    /// Gives the worker back to the registry, with its state machine as it is. It doesn't block,
    /// and takes no memory. Worker, registry and floor must belong together.
    pub fn collect(self, floor: &Floor<P>, book: &mut Book<P>)
        requires book_table { book.old.table_id ≡ floor.now.table_id }
        requires worker_table { self.table_id ≡ floor.now.table_id }
        ensures collected { HasCollected book.old self book.new }
    {
        let Gone { worker } = self;
        book.collect(floor, worker);
    }
}
