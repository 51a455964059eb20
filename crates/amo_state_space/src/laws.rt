//! The theorem over the runs that are shown. Nothing here runs: the function's contract is a law.
ghost use Rattle.std.specs.Prelude.{◌≡◌, ◌≤◌, ℕ, List, Ok, length, map};
ghost use Rattle.amo_params.specs.declared.givens.Givens.{Givens};
ghost use Rattle.amo_params.specs.declared.moves.Move.TheVariants.{Turn};
ghost use Rattle.amo_plan.specs.Schedule.{read_schedule};
ghost use Rattle.amo_plan.specs.declared.limits.TheConstants.{MOST_MOVES};
ghost use Rattle.amo_state_space.specs.Answer.{turn_words};
ghost use Rattle.amo_state_space.specs.Runs.{IsWholeRun};

/// States that the schedule of a run that is shown is read as that run, in both versions, if it has
/// no more turns than a plan may have moves.
pub fn shown_runs_are_read()
    ensures { (version : ℕ) (g : Givens) (turns : List ℕ) → IsWholeRun g (map Turn turns) → length turns ≤ MOST_MOVES
        → read_schedule version g.workers (turn_words turns) ≡ Ok (map Turn turns) }
{}
