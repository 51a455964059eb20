//! The theorems over the plan that is written. Nothing here runs: each function's contract is a
//! law.
ghost use Rattle.std.specs.Prelude.{◌≡◌, ◌<◌, ◌≤◌, ◌^◌, ◌==◌, ℕ, List, Ok, Some, length, true};
ghost use Rattle.std.specs.List.{list_all};
ghost use Rattle.std.specs.Str.{IsUtf8};
ghost use Rattle.toml.specs.Parse.{parse_document};
ghost use Rattle.amo_params.specs.declared.givens.Givens.{Givens};
ghost use Rattle.amo_plan.specs.Plan.{PlanSeen, plan_of};
ghost use Rattle.amo_plan.specs.Schedule.{read_schedule};
ghost use Rattle.amo_plan.specs.declared.limits.TheConstants.{MOST_MOVES};
ghost use Rattle.amo_bounds.specs.Fewest.{IsWorst};
ghost use Rattle.amo_bounds.specs.Worst.{worst_moves};
ghost use Rattle.amo_worst_case.specs.Answer.{IsSmall, worst_plan};
ghost use Rattle.amo_worst_case.specs.Schedule.{worst_schedule};
ghost use Rattle.amo_worst_case.specs.Text.{plan_text};
ghost use Rattle.amo_worst_case.specs.Tree.{are_integers, tree_of};

use amo_bounds::laws::worst_moves_are_worst;

/// States that the moves of the plan that is written come to an end at which just the fewest jobs
/// are performed. All workers are gone then, and each that wasn't stopped has ended.
/// `effectiveness_is_fewest` of `amo_bounds` states that no moves leave fewer, if all workers are
/// gone after them, none has left and not every worker was stopped.
pub fn written_moves_are_worst()
    ensures { (p : PlanSeen) → IsWorst p.givens (worst_plan p).moves }
{
    worst_moves_are_worst();
}

/// States that the schedule that is written is read as the worst moves, in both versions, if it has
/// no more moves than a plan may have.
pub fn schedules_say_the_worst_moves()
    ensures { (version : ℕ) (g : Givens) → length (worst_moves g) ≤ MOST_MOVES
        → read_schedule version g.workers (worst_schedule g) ≡ Ok (worst_moves g) }
{}

/// States that the text is a TOML document of the tree that the definition names. It assumes that
/// each number that a job adds is an integer of TOML, as in each plan that was read.
pub fn written_texts_are_of_their_trees()
    ensures { (p : PlanSeen) → p.version < 2 ^ 63 → p.block < 2 ^ 63 → list_all are_integers p.tasks ≡ true
        → parse_document (plan_text p) ≡ Some (tree_of (p.version == 1) p) }
{}

/// States that the text that is written of a plan that was read is read as that plan with the worst
/// moves, without rounds and with the usual budgets. It assumes that the text is no larger than a
/// plan may be. The text is UTF-8, as all texts of the program.
pub fn written_plans_are_read()
    ensures { (bytes : List ℕ) (p : PlanSeen) → plan_of bytes ≡ Ok p → list_all are_integers p.tasks ≡ true → IsSmall p
        → IsUtf8 (plan_text p) → plan_of (plan_text p) ≡ Ok (worst_plan p) }
{}
