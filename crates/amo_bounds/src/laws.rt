//! The theorems over the definitions of `amo_kk`. Nothing here runs: each function's contract is a
//! theorem. Start at `everyone_rests`.
//!
//! The moves are any turns, halts and leaves, in any order, unless a theorem says which.
ghost use Rattle.std.specs.Prelude.{◌≡◌, ◌≢◌, ◌<◌, ◌≤◌, ◌+◌, ℕ, true, false, List, ◌∷◌};
ghost use Rattle.amo_sets.specs.Sets.{has};
ghost use Rattle.amo_params.specs.Givens.{IsWorker};
ghost use Rattle.amo_kk.specs.Record.{is_over};
ghost use Rattle.amo_kk.specs.World.{process, world_after_moves, opening_world, world_of, rounds};
ghost use Rattle.amo_kk.specs.Lawful.{IsLawful};
ghost use Rattle.amo_kk.specs.declared.phase.Phase.{Phase};
ghost use Rattle.amo_params.specs.declared.givens.Givens.{Givens};
ghost use Rattle.amo_params.specs.declared.moves.Move.{Move};
ghost use Rattle.amo_params.specs.declared.moves.Move.TheVariants.{Turn};
ghost use Rattle.amo_kk.specs.declared.model.World.{World};
ghost use Rattle.amo_bounds.specs.Fewest.{fewest, jobs_done, stopped, leavers, IsWorst, IsEffectiveness};
ghost use Rattle.amo_bounds.specs.Rest.{turns_taken, turns_of, AreAlike};
ghost use Rattle.amo_bounds.specs.Turns.{width, most_turns};
ghost use Rattle.amo_bounds.specs.Worst.{worst_moves};

/// States that at least `fewest` jobs are done once a worker has ended by its own choice, after any
/// turns, halts and leaves. The number is 0 if there are fewer jobs than the threshold. Otherwise
/// it is the bound, but at least 1.
pub fn fewest_are_done()
    ensures { (g : Givens) (ms : List Move) (p : ℕ) → IsWorker g p → is_over (process (world_of g ms) p).local.phase ≡ true
        → fewest g ≤ jobs_done g ms }
{}

/// States that some turns and halts leave no more jobs done than `fewest`, for all givens. The
/// halts are fewer than the workers. After these moves all workers are gone, and each that wasn't
/// halted has ended. So no more can be promised.
pub fn fewest_are_met()
    ensures { (g : Givens) → (ms : List Move) × IsWorst g ms }
{}

/// States that after the moves `worst_moves` all workers are gone, each that wasn't halted has
/// ended, and no more jobs are done than `fewest`. Each worker but 1 announces its first choice and
/// is halted. Worker 1 takes 2 m + 1 turns for each of the fewest jobs. The list is empty if there
/// are fewer jobs than the threshold.
pub fn worst_moves_are_worst()
    ensures { (g : Givens) → IsWorst g (worst_moves g) }
{}

/// States that `fewest` is exactly the effectiveness: the least number of jobs done over all turns,
/// with fewer halts than workers, after which all are gone.
pub fn effectiveness_is_fewest()
    ensures { (g : Givens) → IsEffectiveness g (fewest g) }
{}

/// States that a worker that keeps getting turns ends by its own choice, whatever the others do, if
/// it isn't halted and doesn't leave. That holds for a worker, too, that was asked to leave and
/// stayed. For all givens there is a number such that in no list of moves more turns are taken by
/// workers that aren't gone. And there is one such that a worker that is given more turns is gone.
pub fn everyone_rests()
    ensures all { (g : Givens) → (k : ℕ) × ((ms : List Move) → turns_taken g (opening_world g) ms ≤ k) }
    ensures each { (g : Givens) → (k : ℕ) × ((ms : List Move) (p : ℕ) → k < turns_of p ms → (process (world_of g ms) p).gone ≡ true) }
    ensures ends { (g : Givens) → (k : ℕ) × ((ms : List Move) (p : ℕ) → IsWorker g p → k < turns_of p ms
        → has (stopped ms) p ≡ false → has (leavers ms) p ≡ false → is_over (process (world_of g ms) p).local.phase ≡ true) }
    ensures stayed { (g : Givens) → (k : ℕ) × ((ms : List Move) (p : ℕ) → IsWorker g p → k < turns_of p ms
        → has (stopped ms) p ≡ false → (process (world_of g ms) p).local.phase ≢ Phase.Left → is_over (process (world_of g ms) p).local.phase ≡ true) }
{}

/// States that for all givens there is a number of rounds after which each worker has ended by its
/// own choice.
pub fn rounds_come_to_an_end()
    ensures { (g : Givens) → (k : ℕ) × ((p : ℕ) → IsWorker g p → is_over (process (world_of g (rounds g.workers k)) p).local.phase ≡ true) }
{}

/// States that no turn is undone: moves that begin with a turn of a worker that isn't gone lead
/// from a lawful world to another one. Counts of steps and histories may be left out of the
/// comparison.
pub fn no_turn_is_undone()
    ensures { (g : Givens) (w : World) (p : ℕ) (ms : List Move) → IsLawful g w → (process w p).gone ≡ false
        → AreAlike (world_after_moves g w (Turn p ∷ ms)) w → ⊥ }
{}

/// States that few turns are taken: for n jobs and m workers at most n (9 m m + 2 m + 1) + 2 m m +
/// m. It holds for all moves if the threshold is at least m m + m - 1. With any threshold it holds
/// as long as so many jobs aren't done. If the threshold is so high, a worker that is given more
/// turns is gone. Each worker has ended after one round more than that.
pub fn turns_are_few()
    ensures all { (g : Givens) (ms : List Move) → width g ≤ g.beta → turns_taken g (opening_world g) ms ≤ most_turns g }
    ensures free { (g : Givens) (ms : List Move) → width g + jobs_done g ms ≤ g.jobs → turns_taken g (opening_world g) ms ≤ most_turns g }
    ensures each { (g : Givens) (ms : List Move) (p : ℕ) → width g ≤ g.beta → most_turns g < turns_of p ms
        → (process (world_of g ms) p).gone ≡ true }
    ensures rounds { (g : Givens) (p : ℕ) → width g ≤ g.beta → IsWorker g p
        → is_over (process (world_of g (rounds g.workers (most_turns g + 1))) p).local.phase ≡ true }
{}
