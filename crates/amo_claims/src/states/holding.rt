//! The states of a claimed job.
ghost use Rattle.std.specs.Prelude.{◌≡◌, ◌<◌, length};
ghost use Rattle.amo_words.specs.Faces.{machine};
ghost use Rattle.amo_claims.specs.States.{Holds};

use crate::states::{Gone, Held, Performed};
use crate::work::Work;

impl<P> Held<P> {
    /// Returns the job in the worker's hand, from 1.
    pub fn job(&self) -> u32
        ensures job { result ≡ self.now.job }
        ensures holds { Holds self.now.worker self.now.job self.now.payload }
    {
        self.job
    }

    /// Returns how many steps the worker has taken. The count stops at 18446744073709551615.
    pub fn steps(&self) -> u64
        ensures steps { result ≡ (machine self.now.worker).state.steps }
    {
        self.worker.steps()
    }

    /// Performs the job in the worker's hand, on its payload. That is no step of the worker. The
    /// answer is related to the worker, the job and the payload as the work states.
    pub fn perform<W: Work<P>>(self, work: &W) -> Performed<P, W::Out>
        ensures same { (result.worker ≡ self.worker) × (result.job ≡ self.job) }
        ensures holds { Holds self.worker self.job self.payload }
        ensures room { length (machine self.worker).state.dones < self.worker.view.givens.jobs }
        ensures related { W.related work.now (machine self.worker).number self.job self.payload result.out }
    {
        let Held {
            worker,
            job,
            payload,
        } = self;
        let out = work.perform(worker.number(), job, payload);
        Performed { worker, job, out }
    }

    /// Halts the worker, which makes no access for it, and returns the payload. The job stays
    /// claimed and isn't done: it is in doubt for everyone but the caller, who knows that it wasn't
    /// performed.
    ///
    /// # Examples
    ///
    /// ```
    /// use amo_claims::{After, Go, begin};
    /// use amo_kk::Givens;
    /// use amo_words::Floor;
    ///
    /// let givens = Givens::try_new(1, 1, 1)?;
    /// let letters = vec![in rt.alloc(); 'a']?;
    /// let (floor, mut book) = Floor::try_new(rt.alloc(), givens, letters)?;
    /// let After::More(ready) = begin(book.hire(rt.alloc(), &floor, 1)?) else {
    ///     panic!(rt; "job 1 is open to it")
    /// };
    /// let Go::More(ready) = ready.go(&floor) else {
    ///     panic!(rt; "it announces job 1")
    /// };
    /// let Go::Got(held) = ready.go(&floor) else {
    ///     panic!(rt; "it claims job 1")
    /// };
    /// assert!(rt; held.job() == 1 && held.steps() == 2);
    /// let (gone, letter) = held.halt();
    /// assert_eq!(rt; letter, 'a');
    /// gone.collect(&floor, &mut book);
    /// assert!(rt; book.claims_of(1) == [1].as_slice() && book.dones_of(1).is_empty());
    /// ```
    pub fn halt(self) -> (Gone<P>, P)
        ensures same { (result.0 ≡ self.worker) × (result.1 ≡ self.payload) }
        ensures holds { Holds self.worker self.job self.payload }
    {
        let Held {
            worker,
            job: _,
            payload,
        } = self;
        (Gone { worker }, payload)
    }
}
