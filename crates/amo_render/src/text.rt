//! The texts of a plan.
ghost use Rattle.std.specs.Prelude.{◌≡◌, ℕ, List, Result, Ok, IfOk, IfErr, string_bytes};
ghost use Rattle.amo_plan.specs.Plan.{PlanSeen};
ghost use Rattle.amo_plan.specs.PlanSeen.{plan_seen};
ghost use Rattle.amo_plan.specs.declared.fault.PlanFault.{PlanFault};
ghost use Rattle.amo_render.specs.Written.{IsNotMade};

use crate::writing::ReplayFault;
use amo_plan::Plan;
use std::alloc::Global;

/// A text that is made of a plan.
pub trait PlanText {
    /// Its numbers are within their ranges.
    ghost fits: { Self → Type 0 };

    /// The text of a plan, or the fault for which the plan has none.
    ghost made: { Self → PlanSeen → Result (List ℕ) PlanFault };

    /// Returns the text of this plan.
    ///
    /// # Errors
    ///
    /// `Plan(f)` exactly if the plan has no text for the fault f. `NoMemory` if there was no
    /// memory.
    fn make(&self, alloc: Global, plan: &Plan) -> Result<String, ReplayFault>
        requires { fits self.now }
        ensures text { IfOk result (λ s. made self.now (plan_seen plan.now) ≡ Ok (string_bytes s)) }
        ensures refused { IfErr result (λ e. IsNotMade e (made self.now (plan_seen plan.now))) };
}
