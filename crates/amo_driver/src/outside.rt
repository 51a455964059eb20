//! The outside of a process: the registers, its journal, and a partner that performs jobs.
ghost use Rattle.std.specs.Prelude.{ℕ, IfOk, OnOk, OnErr};
ghost use Rattle.amo_driver.specs.declared.model.Deed.TheVariants.{Loaded, Stored, Found, Intended, Cleared, Performed, Noted, Fell};
ghost use Rattle.amo_driver.specs.declared.model.Try.TheVariants.{Load, Store, Find, Intend, Clear, Perform, Note};
ghost use Rattle.amo_driver.specs.Stage.{Stage};
ghost use Rattle.amo_driver.specs.Standing.{MayCall, Moves, Counts};

use crate::answer::{JobResult, Reply};

/// Something outside has failed.
#[derive(Clone, Copy, Debug, PartialEq, Eq)]
pub struct Failed;

/// The words, the journal and the partner of one process. After a call has failed no other is made.
pub trait Outside {
    /// The process may be at this stage, by all that it has done. If nothing records that, it may
    /// be at any stage.
    ghost stands: { Self → Stage → Type 0 };
    /// It may have done so many deeds, those that failed included.
    ghost has_done: { Self → ℕ → Type 0 };

    /// Loads a shared word.
    fn load(&mut self, word: u64) -> Result<u64, Failed>
        requires { MayCall (stands self.old) (Load word) }
        ensures done { IfOk result (λ v. Moves (stands self.old) (stands self.new) (Loaded word v)) }
        ensures fails { OnErr result (Moves (stands self.old) (stands self.new) (Fell (Load word))) }
        ensures counts { Counts (has_done self.old) (has_done self.new) };

    /// Stores to a shared word.
    fn store(&mut self, word: u64, value: u64) -> Result<(), Failed>
        requires { MayCall (stands self.old) (Store word value) }
        ensures done { OnOk result (Moves (stands self.old) (stands self.new) (Stored word value)) }
        ensures fails { OnErr result (Moves (stands self.old) (stands self.new) (Fell (Store word value))) }
        ensures counts { Counts (has_done self.old) (has_done self.new) };

    /// Takes the report that the worker's own words show this job claimed and not filed. It is
    /// filed next, and never performed.
    fn found(&mut self, job: u32) -> Result<(), Failed>
        requires { MayCall (stands self.old) (Find job) }
        ensures done { OnOk result (Moves (stands self.old) (stands self.new) (Found job)) }
        ensures fails { OnErr result (Moves (stands self.old) (stands self.new) (Fell (Find job))) }
        ensures counts { Counts (has_done self.old) (has_done self.new) };

    /// Puts into the journal that this job is about to be performed, so that every crash from now
    /// on leaves it there.
    fn intend(&mut self, serial: u64, job: u32) -> Result<(), Failed>
        requires { MayCall (stands self.old) (Intend serial job) }
        ensures done { OnOk result (Moves (stands self.old) (stands self.new) (Intended serial job)) }
        ensures fails { OnErr result (Moves (stands self.old) (stands self.new) (Fell (Intend serial job))) }
        ensures counts { Counts (has_done self.old) (has_done self.new) };

    /// Returns true if this job may be handed over. The driver asks only after the intent is in the
    /// journal. If it returns false, the job is taken: the partner never performs it by this
    /// intent, and the intent is noted as not begun.
    fn clear(&mut self, serial: u64, job: u32) -> Result<bool, Failed>
        requires { MayCall (stands self.old) (Clear serial job) }
        ensures done { IfOk result (λ clear. Moves (stands self.old) (stands self.new) (Cleared serial job clear)) }
        ensures fails { OnErr result (Moves (stands self.old) (stands self.new) (Fell (Clear serial job))) }
        ensures counts { Counts (has_done self.old) (has_done self.new) };

    /// Has the partner perform this job, and waits for the reply.
    fn perform(&mut self, serial: u64, job: u32) -> Result<Reply, Failed>
        requires { MayCall (stands self.old) (Perform serial job) }
        ensures done { IfOk result (λ reply. Moves (stands self.old) (stands self.new) (Performed serial job reply)) }
        ensures fails { OnErr result (Moves (stands self.old) (stands self.new) (Fell (Perform serial job))) }
        ensures counts { Counts (has_done self.old) (has_done self.new) };

    /// Hands the journal what became of an intent. It is recorded, so that every crash leaves it
    /// there, at the latest once the next intent is, or when the process ends its work. A crash
    /// before that leaves the intent without an answer, though the job is recorded as done.
    fn note(&mut self, serial: u64, answer: JobResult) -> Result<(), Failed>
        requires { MayCall (stands self.old) (Note serial answer) }
        ensures done { OnOk result (Moves (stands self.old) (stands self.new) (Noted serial answer)) }
        ensures fails { OnErr result (Moves (stands self.old) (stands self.new) (Fell (Note serial answer))) }
        ensures counts { Counts (has_done self.old) (has_done self.new) };
}
