//! The fewest jobs that are done, and the moves after which no more are done.
ghost use Rattle.std.specs.Prelude.{◌≡◌, length};
ghost use Rattle.amo_bounds.specs.Fewest.{fewest};
ghost use Rattle.amo_bounds.specs.Worst.{lone_turns, worst_moves};

use amo_params::Givens;

/// Returns the fewest jobs that are done once a worker has ended. It is 0 if there are fewer jobs
/// than the threshold, else the bound, but at least 1.
pub fn fewest(givens: Givens) -> u32
    ensures { result ≡ fewest givens }
{
    if givens.jobs < givens.beta {
        return 0;
    }
    let bound = givens.bound();
    if bound == 0 { 1 } else { bound }
}

/// Returns how many turns worker 1 takes beside the others, once they are halted: at most 135,168.
#[tactic(auto, using(crate::proofs::Lengths::few_turns))]
pub(crate) fn lone_turns(givens: Givens) -> u32
    ensures { result ≡ lone_turns givens }
{
    fewest(givens) * (2 * givens.workers + 1)
}

/// Returns how many moves the worst schedule has.
#[tactic(auto, using(crate::proofs::Lengths::few_turns, crate::proofs::Lengths::worst_length))]
pub(crate) fn count_moves(givens: Givens) -> u32
    ensures { result ≡ length (worst_moves givens) }
{
    if givens.jobs < givens.beta {
        return 0;
    }
    2 * (givens.workers - 1) + lone_turns(givens)
}
