//! How the states begin, and the steps of a ready worker.
ghost use Rattle.std.specs.Prelude.{◌≡◌, []};
ghost use Rattle.amo_kk.specs.Record.{jobs_in_hand};
ghost use Rattle.amo_words.specs.Faces.{machine};
ghost use Rattle.amo_claims.specs.States.{IsReady};
ghost use Rattle.amo_claims.specs.Calls.{state_of, Goes, GoesOn, HasGone};

use crate::states::{After, Go, Gone, Held, Ready};
use amo_words::{Floor, Step, Worker};

/// Returns the state of a worker that has nothing in its hand: `More`, unless it has ended or left.
/// The worker stays as it is. A worker that `Book::hire` of `amo_words` has just returned meets
/// `empty`.
pub fn begin<P>(worker: Worker<P>) -> After<P>
    requires empty { jobs_in_hand (machine worker).state.phase ≡ [] }
    ensures state { result ≡ state_of worker }
{
    if worker.ended() || worker.has_left() {
        After::Over(Gone { worker })
    } else {
        After::More(Ready { worker })
    }
}

impl<P> Ready<P> {
    /// Returns how many steps the worker has taken. The count stops at 18446744073709551615.
    pub fn steps(&self) -> u64
        ensures steps { result ≡ (machine self.now).state.steps }
    {
        self.worker.steps()
    }

    /// Halts the worker, which makes no access for it. The job that it had announced, if any, stays
    /// announced, so no other worker takes it. To free it, call `leave`.
    ///
    /// # Examples
    ///
    /// ```
    /// use amo_claims::{After, begin};
    /// use amo_kk::Givens;
    /// use amo_words::{Floor, Place};
    ///
    /// let givens = Givens::try_new(3, 2, 2)?;
    /// let letters = "abc".chars().collect(rt.alloc())?;
    /// let (floor, mut book) = Floor::try_new(rt.alloc(), givens, letters)?;
    /// let After::More(first) = begin(book.hire(rt.alloc(), &floor, 1)?) else {
    ///     panic!(rt; "three jobs are open to it")
    /// };
    /// let After::More(second) = begin(book.hire(rt.alloc(), &floor, 2)?) else {
    ///     panic!(rt; "three jobs are open to it")
    /// };
    /// assert_eq!(rt; first.steps(), 0);
    /// first.leave(&floor).collect(&floor, &mut book);
    /// second.halt().collect(&floor, &mut book);
    /// assert!(rt; book.steps_of(1) == 1 && book.steps_of(2) == 0);
    /// assert!(rt; book.place_of(2) == Place::Back);
    /// ```
    pub fn halt(self) -> Gone<P>
        ensures same { result ≡ self }
        ensures ready { IsReady self }
    {
        let Ready { worker } = self;
        Gone { worker }
    }
}

impl<P: Drop> Ready<P> {
    /// Takes one step of the worker: its one load or store. The result is `Got` exactly if the step
    /// claims a job, and `Over` exactly if the worker has ended with it. It doesn't block, and
    /// takes no memory. Threads may share the floor, which must be the worker's own.
    pub fn go(self, floor: &Floor<P>) -> Go<P>
        requires table { self.table_id ≡ floor.now.table_id }
        ensures goes { Goes self result }
        ensures plainly { GoesOn self result }
    {
        let Ready { mut worker } = self;
        match worker.step(floor) {
            Step::Moved => Go::More(Ready { worker }),
            Step::Claimed(job, payload) => Go::Got(Held {
                worker,
                job,
                payload,
            }),
            Step::Ended => Go::Over(Gone { worker }),
            Step::Idle => unreachable!(),
        }
    }

    /// Takes the last step of the worker: it takes back its announcement by one store, so that the
    /// job which it had announced is free to others. It takes no memory. The floor must be the
    /// worker's own.
    pub fn leave(self, floor: &Floor<P>) -> Gone<P>
        requires table { self.table_id ≡ floor.now.table_id }
        ensures left { HasGone self result }
    {
        let Ready { mut worker } = self;
        worker.leave(floor);
        Gone { worker }
    }
}
