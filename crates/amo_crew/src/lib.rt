//! Jobs executed in threads, each at most once.
//!
//! Start at [`execute`]. It starts a thread for each worker, runs each worker through the typed
//! states of `amo_claims` until it has ended or its step budget is used up, and does the final
//! accounting. The [`Outcome`] has a place for each job: done with its answer, in doubt, or free.
//! The outputs come through the queue of `amo_mailbox`. Only `execute` may wait. The module `laws`
//! has the theorems for your own clauses.
//!
//! | here | in the glossary |
//! |---|---|
//! | p | a worker |
//! | j | a job |
//!
//! # A proved caller
//!
//! The contract of `double_all` states that no job has two answers, and that each job has a place.
//! To use a theorem of the module `laws`, call it before `execute`: the prover then has its clauses
//! for the outcome of `Ok`. If you leave out the call of `each_job_is_answered_once`, the prover
//! rejects the clause `once`. The outcomes of `ThreadRefused` and of `settle` after `Unsettled` need
//! an answer each in a file of proofs, by `Refuses` or `settled_later`. The field `run.outputs_are`
//! of `IsOutcome` states that each answer is right for its payload.
//! The prover accepted this file without a file of proofs (`rattle check`, 2026-11-30). Its crate
//! stands on `amo_crew`, `amo_mailbox`, `amo_claims`, `amo_words`, `amo_params` and `amo_sets`.
//!
//! ```rust
//! #![tactic(auto)]
//! //! Doubles numbers in threads, each at most once.
//!
//! ghost use Rattle.std.specs.Prelude.{◌≡◌, ℕ, IfOk};
//! ghost use Rattle.amo_sets.specs.Sets.{AreDistinct};
//! ghost use Rattle.amo_params.specs.Givens.{IsJob};
//! ghost use Rattle.amo_crew.specs.Outcomes.{HasAPlace, answered};
//!
//! use amo_crew::laws::{each_job_has_a_place, each_job_is_answered_once};
//! use amo_crew::{ExecFault, Outcome, StopPlan, Work, execute};
//! use amo_params::Givens;
//! use std::alloc::Global;
//! use std::sync::Wait;
//! use std::thread::Threads;
//!
//! /// The work: a number is doubled.
//! #[derive(Clone, Copy)]
//! pub struct Doubling;
//!
//! impl Work<u32> for Doubling {
//!     ghost use Rattle.std.specs.Prelude.{◌≡◌, ◌*◌};
//!
//!     type Out = u64;
//!
//!     ghost related = { λ _ _ _ number out. out ≡ 2 * number };
//!
//!     fn perform(&self, _worker: u32, _job: u32, number: u32) -> u64 {
//!         2 * u64::from(number)
//!     }
//! }
//!
//! /// Doubles the numbers in threads. In the outcome no job has two answers, and each job is
//! /// answered, in a hand, or free.
//! pub fn double_all<R: Threads + Wait + Sync>(
//!     rt: &R,
//!     alloc: Global,
//!     givens: Givens,
//!     numbers: Vec<u32>,
//!     plan: &StopPlan,
//! ) -> Result<Outcome<u32, u64>, ExecFault<u32, u64>>
//!     requires { plan.now.givens ≡ givens }
//!     ensures once { IfOk result (λ o. AreDistinct (answered o)) }
//!     ensures placed { IfOk result (λ o. (j : ℕ) → IsJob givens j → HasAPlace o j) }
//! {
//!     let work = Doubling;
//!     each_job_is_answered_once::<u32, Doubling>(&work);
//!     each_job_has_a_place::<u32, Doubling>(&work);
//!     match execute(rt, alloc, givens, numbers, &work, plan) {
//!         Ok(outcome) => Ok(outcome),
//!         Err(fault) => Err(fault),
//!     }
//! }
//! ```
#![tactic(auto)]

mod executing;
mod fault;
mod kit;
pub mod laws;
mod outcome;
mod plan;
mod run;
mod settle;

pub use amo_claims::Work;
pub use amo_mailbox::{Inlet, Outlet, Output, Queue, outlets};
pub use amo_words::{Settlement, WorkerEnd};
pub use executing::execute;
pub use fault::ExecFault;
pub use outcome::{End, Outcome};
pub use plan::{StopFault, StopPlan};
pub use settle::Unsettled;
