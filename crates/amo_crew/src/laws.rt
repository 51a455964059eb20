//! The theorems for callers of `execute`. Nothing here runs: each function's contract is a theorem.
//! Call one to use it in your own clauses.
ghost use Rattle.std.specs.Prelude.{◌≡◌, ◌⊎◌, ℕ, true, false, List, All};
ghost use Rattle.amo_sets.specs.Sets.{has, AreDistinct};
ghost use Rattle.amo_params.specs.Givens.{IsJob, IsWorker};
ghost use Rattle.amo_params.specs.declared.givens.Givens.{Givens};
ghost use Rattle.amo_words.specs.Settling.{settled_dones};
ghost use Rattle.amo_crew.specs.declared.outcome.Outcome.{Outcome};
ghost use Rattle.amo_mailbox.specs.declared.output.Output.{Output};
ghost use Rattle.amo_crew.specs.Fitting.{FitsGivens};
ghost use Rattle.amo_crew.specs.Outcomes.{IsOutcome, AllStarted, HasAPlace, HasStarted, IsOfNoThread, answered, in_hand, free_jobs, jobs_of};
ghost use Rattle.amo_mailbox.specs.Mailbox.{of};
ghost use Rattle.amo_crew.specs.Unsettling.{UnsettledView, IsUnsettled, IsSettledOf};

use amo_claims::Work;

/// States that a later final accounting of what `execute` left is an outcome of that run.
pub fn settled_later<P, W: Work<P>>(_work: &W)
    ensures { (g : Givens) (payloads : List P) (budgets : List ℕ) (u : UnsettledView P W.Out) (o : Outcome P W.Out)
        → IsUnsettled (W.related _work.now) g payloads budgets u → IsSettledOf u o → IsOutcome (W.related _work.now) g payloads budgets o }
{}

/// States that each outcome has lists and ends for each worker, and that its lists and outputs name
/// only jobs and workers of the givens.
pub fn outcome_fits<P, W: Work<P>>(_work: &W)
    ensures fits { (g : Givens) (payloads : List P) (budgets : List ℕ) (o : Outcome P W.Out)
        → IsOutcome (W.related _work.now) g payloads budgets o → FitsGivens g o }
    ensures workers { (g : Givens) (payloads : List P) (budgets : List ℕ) (o : Outcome P W.Out)
        → IsOutcome (W.related _work.now) g payloads budgets o → All (λ (x : Output W.Out). IsWorker g x.worker) o.outputs.items }
{}

/// States that in each outcome no job has two answers. No job with an answer is in a hand or free,
/// and no job in a hand is free.
pub fn each_job_is_answered_once<P, W: Work<P>>(_work: &W)
    ensures once { (g : Givens) (payloads : List P) (budgets : List ℕ) (o : Outcome P W.Out)
        → IsOutcome (W.related _work.now) g payloads budgets o → AreDistinct (answered o) }
    ensures hand { (g : Givens) (payloads : List P) (budgets : List ℕ) (o : Outcome P W.Out) (j : ℕ)
        → IsOutcome (W.related _work.now) g payloads budgets o → has (answered o) j ≡ true → has (in_hand o) j ≡ false }
    ensures free { (g : Givens) (payloads : List P) (budgets : List ℕ) (o : Outcome P W.Out) (j : ℕ)
        → IsOutcome (W.related _work.now) g payloads budgets o → has (answered o) j ≡ true → has (free_jobs o) j ≡ false }
    ensures kept { (g : Givens) (payloads : List P) (budgets : List ℕ) (o : Outcome P W.Out) (j : ℕ)
        → IsOutcome (W.related _work.now) g payloads budgets o → has (in_hand o) j ≡ true → has (free_jobs o) j ≡ false }
{}

/// States that no job vanishes: each one is answered, in a hand, free, or was claimed by a worker
/// whose thread could not be started. If each thread was started, it is one of the first three. In
/// each outcome no job is in two hands, and none is free twice. The jobs of a started worker's
/// outputs are its done jobs in the final accounting, in order.
pub fn each_job_has_a_place<P, W: Work<P>>(_work: &W)
    ensures place { (g : Givens) (payloads : List P) (budgets : List ℕ) (o : Outcome P W.Out) (j : ℕ)
        → IsOutcome (W.related _work.now) g payloads budgets o → AllStarted o.ends.items → IsJob g j → HasAPlace o j }
    ensures unstarted { (g : Givens) (payloads : List P) (budgets : List ℕ) (o : Outcome P W.Out) (j : ℕ)
        → IsOutcome (W.related _work.now) g payloads budgets o → IsJob g j → HasAPlace o j ⊎ IsOfNoThread o j }
    ensures hands { (g : Givens) (payloads : List P) (budgets : List ℕ) (o : Outcome P W.Out)
        → IsOutcome (W.related _work.now) g payloads budgets o → AreDistinct (in_hand o) }
    ensures free { (g : Givens) (payloads : List P) (budgets : List ℕ) (o : Outcome P W.Out)
        → IsOutcome (W.related _work.now) g payloads budgets o → AreDistinct (free_jobs o) }
    ensures told { (g : Givens) (payloads : List P) (budgets : List ℕ) (o : Outcome P W.Out) (p : ℕ)
        → IsOutcome (W.related _work.now) g payloads budgets o → HasStarted o p → jobs_of (of p o.outputs.items) ≡ settled_dones o.settlement p }
{}
