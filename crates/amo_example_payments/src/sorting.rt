//! The payments of a run, sorted by what is certain of each.
ghost use Rattle.std.specs.Prelude.{◌≡◌, ◌==◌, ◌<◌, ◌≤◌, ◌+◌, ◌||◌, not, ℕ, List, [], ◌∷◌, ◌++◌, length, filter, vec_len, vec_capacity, IfOk, IfErr, OnOk};
ghost use Rattle.std.specs.BTreeSet.{contains};
ghost use Rattle.std.specs.List.{enumerate_from};
ghost use Rattle.std.specs.Ordering.{nat_cmp};
ghost use Rattle.amo_params.specs.declared.givens.Givens.{Givens as GivensView};
ghost use Rattle.amo_crew.specs.Outcomes.{IsOutcome};
ghost use Rattle.amo_example_payments.specs.Payments.{Answers};
ghost use Rattle.amo_example_payments.specs.Sorting.{is_paid, has_receipt_of, has_job, ids_of, IsSorted, IsSortingOf};
ghost use Rattle.amo_example_payments.specs.declared.day.payment.Payment.{Payment as PaymentView};
ghost use Rattle.amo_params.specs.declared.limits.TheConstants.{MAX_JOBS};

use crate::bank::BankReply;
use crate::day::Payment;
use amo_crew::{Outcome, Output};
use std::alloc::{AllocError, Global};
use std::collections::BTreeSet;

/// The jobs of a run, sorted by what is certain of their payments. Each job has a receipt among the
/// answers, or is free, or is in doubt, and just one of these.
#[derive(Drop)]
pub(crate) struct Sorted {
    /// The answers to the jobs that were performed. A receipt means that the payment was made, and
    /// nothing is left to do.
    pub(crate) answers: Vec<Output<BankReply>>,
    /// The jobs that nobody began, each with its payment. They may be handed to a new floor.
    pub(crate) free: Vec<(u32, Payment)>,
    /// All others, each with its payment's number, to be shown to a person. They must not be made
    /// again.
    pub(crate) in_doubt: Vec<(u32, u64)>,
    /// The payments that came back of those in doubt, with worker and job.
    pub(crate) in_hand: Vec<(u32, u32, Payment)>,
}

/// Returns true if the answer is a receipt.
fn is_paid(answer: &BankReply) -> bool
    ensures { result ≡ is_paid answer.now }
{
    matches!(answer, BankReply::Paid(_))
}

/// Returns the jobs that have a receipt among the answers.
fn paid_in(alloc: Global, answers: &[Output<BankReply>]) -> Result<BTreeSet<u32>, AllocError>
    ensures { IfOk result (λ s. (j : ℕ) → contains nat_cmp s j ≡ has_receipt_of answers.now j) }
{
    let mut paid = BTreeSet::new(alloc);
    for output in answers {
        if is_paid(&output.out) {
            paid.insert(output.job)?;
        }
    }
    Ok(paid)
}

/// Adds a free job.
fn add_free(jobs: &mut BTreeSet<u32>, entry: &(u32, Payment)) -> Result<(), AllocError>
    ensures { OnOk result ((j : ℕ) → contains nat_cmp jobs.new j ≡ (contains nat_cmp jobs.old j || entry.now.0 == j)) }
{
    jobs.insert(entry.0)?;
    Ok(())
}

/// Returns the free jobs.
fn free_in(alloc: Global, free: &[(u32, Payment)]) -> Result<BTreeSet<u32>, AllocError>
    ensures { IfOk result (λ s. (j : ℕ) → contains nat_cmp s j ≡ has_job free.now j) }
{
    let mut jobs = BTreeSet::new(alloc);
    for entry in free {
        add_free(&mut jobs, entry)?;
    }
    Ok(jobs)
}

/// Lists the job with its payment's number if it is neither paid nor free.
#[tactic(auto, using(crate::proofs::Filters::passed, crate::proofs::Filters::skipped))]
fn add_unsure(
    job: (u32, u64),
    paid: &BTreeSet<u32>,
    free: &BTreeSet<u32>,
    unsure: &mut Vec<(u32, u64)>,
)
    requires room { vec_len unsure.old < vec_capacity unsure.old }
    ensures listed { (jobs : List (ℕ × ℕ)) → unsure.old.items ≡ filter (λ t. not (contains nat_cmp paid.now t.0 || contains nat_cmp free.now t.0)) jobs
        → unsure.new.items ≡ filter (λ t. not (contains nat_cmp paid.now t.0 || contains nat_cmp free.now t.0)) (jobs ++ job ∷ []) }
    ensures len { vec_len unsure.new ≤ vec_len unsure.old + 1 }
    ensures capacity { vec_capacity unsure.new ≡ vec_capacity unsure.old }
{
    if !(paid.contains(&job.0) || free.contains(&job.0)) {
        unsure.push_reserved(job);
    }
}

/// Lists the jobs, from 1, of payments with these numbers, that are neither paid nor free.
fn list_unsure(
    ids: &[u64],
    paid: &BTreeSet<u32>,
    free: &BTreeSet<u32>,
    unsure: &mut Vec<(u32, u64)>,
)
    requires empty { unsure.old.items ≡ [] }
    requires room { (vec_len unsure.old ≡ 0) × (length ids.now ≤ vec_capacity unsure.old) }
    requires small { length ids.now ≤ MAX_JOBS }
    ensures { unsure.new.items ≡ filter (λ t. not (contains nat_cmp paid.now t.0 || contains nat_cmp free.now t.0)) (enumerate_from 1 ids.now) }
{
    for before in 0..ids.len() {
        add_unsure((before as u32 + 1, ids[before]), paid, free, unsure);
    }
}

/// Sorts the jobs of a run of payments with these numbers, at most 4096, by what is certain of
/// each. It goes through the answers and the free jobs once. If memory is refused, the outcome
/// comes back as it was.
pub(crate) fn sort_out(
    alloc: Global,
    ids: &[u64],
    outcome: Outcome<Payment, BankReply>,
) -> Result<Sorted, Outcome<Payment, BankReply>>
    requires few { length ids.now ≤ MAX_JOBS }
    ensures lists { IfOk result (IsSortingOf ids.now outcome) }
    ensures sorted { IfOk result (λ s. (givens : GivensView) (payloads : List PaymentView) (budgets : List ℕ)
        → IsOutcome Answers givens payloads budgets outcome → ids.now ≡ ids_of payloads → IsSorted payloads s) }
    ensures refused { IfErr result (λ o. o ≡ outcome) }
{
    let Ok(mut in_doubt) = Vec::with_capacity(alloc, ids.len()) else {
        return Err(outcome);
    };
    let Ok(paid_jobs) = paid_in(alloc, &outcome.outputs) else {
        return Err(outcome);
    };
    let Ok(free_jobs) = free_in(alloc, &outcome.settlement.free) else {
        return Err(outcome);
    };
    let Outcome {
        settlement,
        ends: _,
        outputs: answers,
        in_hand,
    } = outcome;
    let free = settlement.free;
    list_unsure(ids, &paid_jobs, &free_jobs, &mut in_doubt);
    Ok(Sorted {
        answers,
        free,
        in_doubt,
        in_hand,
    })
}
