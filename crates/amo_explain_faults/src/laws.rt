//! The theorem over the definitions. Nothing here runs.
ghost use Rattle.std.specs.Prelude.{◌↔◌, ℕ, List, codes, IsOk};
ghost use Rattle.amo_plan.specs.Plan.{plan_of};
ghost use Rattle.amo_explain_faults.specs.Heading.{BeginsWith, explanation_head};

/// States that a text that begins as the explanation does begins with the line `taken` exactly if
/// the bytes are a plan.
pub fn taken_is_a_plan()
    ensures { (bytes text : List ℕ) → BeginsWith (explanation_head (plan_of bytes)) text
        → BeginsWith (codes "taken\n") text ↔ IsOk (plan_of bytes) }
{}
