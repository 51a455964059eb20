//! The theorems over the definitions of the explorer and of stops. Nothing here runs: each
//! function's contract is a theorem.
ghost use Rattle.std.specs.Prelude.{◌≡◌, ◌≤◌, ◌+◌, ◌*◌, ℕ, suc, true, false, List, length};
ghost use Rattle.amo_params.specs.Givens.{lone_bound};
ghost use Rattle.amo_kk.specs.Alone.{IsFirstToClaimOrEnd};
ghost use Rattle.amo_kk.specs.Lawful.{IsLawful};
ghost use Rattle.amo_kk.specs.World.{process, world_of};
ghost use Rattle.amo_params.specs.declared.moves.Move.{Move};
ghost use Rattle.amo_params.specs.declared.givens.Givens.{Givens};
ghost use Rattle.amo_kk.specs.declared.model.World.{World};
ghost use Rattle.amo_world.specs.Answer.{verdict};
ghost use Rattle.amo_world.specs.declared.answer.Verdict.TheVariants.{Lawful};
ghost use Rattle.amo_plan.specs.Plan.{PlanSeen};
ghost use Rattle.amo_report.specs.declared.stops.TheConstants.{MOST_STOPS};
ghost use Rattle.amo_report.specs.Stops.{lone_turns, stopped, stopped_verdict};

use amo_kk::laws::{first_bad_is_the_first, history_is_a_run};

/// States that after any moves from the opening world, the judge finds the history lawful.
pub fn histories_are_lawful()
    ensures { (g : Givens) (moves : List Move) → verdict g (world_of g moves).history ≡ Lawful }
{
    history_is_a_run();
    first_bad_is_the_first();
}

/// States that the counted turns of a worker that goes on alone, and isn't gone, are those up to
/// the first that claims a job or ends it.
pub fn lone_turns_are_counted()
    ensures { (g : Givens) (w : World) (p : ℕ) → IsLawful g w → (process w p).gone ≡ false
        → (i : ℕ) × IsFirstToClaimOrEnd g w p i × (lone_turns g p (lone_bound g) w ≡ suc i) }
{}

/// States that all workers are gone in the end, if a schedule of at most `MOST_STOPS` moves is cut
/// off anywhere. No worker takes more than `6 * workers + jobs` turns in one go. The judge finds
/// the history lawful.
pub fn stops_run_out()
    ensures most { (plan : PlanSeen) (p count : ℕ) → length plan.moves ≤ MOST_STOPS → (stopped plan p count).most ≤ 6 * plan.givens.workers + plan.givens.jobs }
    ensures gone { (plan : PlanSeen) (p count q : ℕ) → length plan.moves ≤ MOST_STOPS → (process (stopped plan p count).world q).gone ≡ true }
    ensures lawful { (plan : PlanSeen) (p count : ℕ) → length plan.moves ≤ MOST_STOPS → stopped_verdict plan p count ≡ Lawful }
{}
