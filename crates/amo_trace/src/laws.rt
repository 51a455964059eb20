//! The theorem over the transitions of a run. Nothing here runs: the function's contract is a law.
ghost use Rattle.std.specs.Prelude.{◌≡◌, true, false, List, [], ◌∷◌, ◌++◌};
ghost use Rattle.amo_kk.specs.World.{opening_world};
ghost use Rattle.amo_params.specs.declared.moves.Move.{Move};
ghost use Rattle.amo_params.specs.declared.givens.Givens.{Givens};
ghost use Rattle.amo_trace.specs.Attempts.{has_met, looks_on};
ghost use Rattle.amo_trace.specs.Transitions.{loads, fails, transitions};
ghost use Rattle.amo_trace.specs.declared.transition.Transition.{Transition};

/// States that with the last load of an attempt it fails exactly if the worker has loaded its own
/// job in it, from an announcement or from a row. It holds for all moves from the opening world on.
pub fn attempts_fail_by_their_own_job()
    ensures { (g : Givens) (moves : List Move) (before after : List Transition) (s : Transition)
        → transitions g (opening_world g) 1 moves ≡ before ++ s ∷ after → loads s.act ≡ true → looks_on s.after ≡ false
        → fails s ≡ has_met s.worker (before ++ s ∷ []) }
{}
