//! Rounds of payments, since a floor has at most 4096 jobs.
ghost use Rattle.std.specs.Prelude.{◌≡◌, ◌≤◌, ◌++◌, ℕ, List, Ok, length, min, map, replicate, vec_len, IfOk, IfErr, IfSome, OnOk, OnErr};
ghost use Rattle.amo_params.specs.Givens.{givens_of};
ghost use Rattle.amo_params.specs.declared.givens.Givens.{Givens as GivensView};
ghost use Rattle.amo_crew.specs.Outcomes.{IsOutcome};
ghost use Rattle.amo_crew.specs.Unsettling.{IsUnsettled};
ghost use Rattle.amo_example_payments.specs.declared.day.payment.Payment.{Payment as PaymentView};
ghost use Rattle.amo_example_payments.specs.Payments.{Answers};
ghost use Rattle.amo_example_payments.specs.Sorting.{ids_of, IsSorted, IsSortingOf};
ghost use Rattle.amo_example_payments.specs.Rounds.{is_fit, IsRound, IsRunFault, IsRoundFault};
ghost use Rattle.amo_example_payments.specs.declared.rounds.RoundFault.TheVariants.{Unsettled as UnsettledRound, Unsorted};
ghost use Rattle.amo_params.specs.declared.limits.TheConstants.{MAX_JOBS};

use crate::bank::{Bank, BankReply};
use crate::day::Payment;
use crate::sorting::{Sorted, sort_out};
use amo_crew::laws::settled_later;
use amo_crew::{ExecFault, Outcome, StopPlan, Unsettled, execute};
use amo_journal::Device;
use amo_params::{Givens, MAX_JOBS, MAX_STEPS, MAX_WORKERS};
use std::alloc::{AllocError, Global};
use std::io::Write;
use std::mem;
use std::sync::Wait;
use std::thread::Threads;
use std::time::Clock;

/// How many workers pay, and after how many steps each is halted, in each round.
#[derive(Clone, Copy, Debug, PartialEq, Eq)]
pub(crate) struct Crew {
    /// From 1 to 16.
    pub(crate) workers: u64,
    /// At most 10,000,000.
    pub(crate) steps: u64,
}

impl Crew {
    /// Returns true if both numbers are within their ranges.
    pub(crate) fn is_fit(self) -> bool
        ensures { result ≡ is_fit self }
    {
        1 <= self.workers && self.workers <= MAX_WORKERS as u64 && self.steps <= MAX_STEPS
    }
}

/// The reason that a round gave no sorted jobs.
#[derive(Drop)]
pub(crate) enum RoundFault {
    /// Nothing was paid, and the payments come back in their order: there was no memory, or the
    /// crew is outside its ranges.
    Unpaid(Vec<Payment>),
    /// Memory was refused twice when the round was to be settled. Its rest can be settled later.
    Unsettled(Unsettled<Payment, BankReply>),
    /// Memory was refused twice when the outcome of the round was to be sorted. It can be sorted
    /// later.
    Unsorted(Outcome<Payment, BankReply>),
}

/// Takes the next round off the payments: their first 4096, or all. If memory is refused, they stay
/// as they are.
pub(crate) fn next_round(payments: &mut Vec<Payment>) -> Result<Vec<Payment>, AllocError>
    ensures round { IfOk result (λ round. payments.old.items ≡ round.items ++ payments.new.items) }
    ensures size { IfOk result (λ round. vec_len round ≡ min (vec_len payments.old) MAX_JOBS) }
    ensures refused { OnErr result (payments.new.items ≡ payments.old.items) }
{
    let count = payments.len().min(MAX_JOBS as usize);
    let rest = payments.split_off(count)?;
    Ok(mem::replace(payments, rest))
}

/// Returns a plan for so many jobs that halts each worker after the crew's steps. Returns `None` if
/// the crew is outside its ranges or memory is refused.
fn plan_of(alloc: Global, jobs: usize, crew: Crew) -> Option<StopPlan>
    ensures count { IfSome result (λ plan. plan.givens.jobs ≡ jobs) }
    ensures givens { IfSome result (λ plan. givens_of jobs crew.workers crew.workers ≡ Ok plan.givens) }
    ensures budgets { IfSome result (λ plan. plan.budgets ≡ replicate crew.workers crew.steps) }
{
    let givens = Givens::try_new(jobs as u64, crew.workers, crew.workers).ok()?;
    let budgets = Vec::from_elem(alloc, crew.steps, givens.workers as usize).ok()?;
    StopPlan::try_new(alloc, givens, &budgets).ok()
}

/// Returns the numbers of these payments.
fn ids_of(alloc: Global, payments: &[Payment]) -> Result<Vec<u64>, AllocError>
    ensures { IfOk result (λ ids. ids.items ≡ ids_of payments.now) }
{
    payments
        .iter()
        .map(
            |payment| -> u64
                ensures { result ≡ payment.now.id }
            { payment.id() },
        )
        .collect(alloc)
}

/// Sorts the outcome of a round. If memory is refused, it asks once more.
fn sort_twice(
    alloc: Global,
    ids: &[u64],
    outcome: Outcome<Payment, BankReply>,
) -> Result<Sorted, RoundFault>
    requires few { length ids.now ≤ MAX_JOBS }
    ensures lists { IfOk result (IsSortingOf ids.now outcome) }
    ensures sorted { IfOk result (λ s. (givens : GivensView) (payloads : List PaymentView) (budgets : List ℕ)
        → IsOutcome Answers givens payloads budgets outcome → ids.now ≡ ids_of payloads → IsSorted payloads s) }
    ensures fault { IfErr result (λ f. f ≡ Unsorted outcome) }
{
    match sort_out(alloc, ids, outcome) {
        Ok(sorted) => Ok(sorted),
        Err(outcome) => match sort_out(alloc, ids, outcome) {
            Ok(sorted) => Ok(sorted),
            Err(outcome) => Err(RoundFault::Unsorted(outcome)),
        },
    }
}

/// Settles the rest of a run whose settling wanted memory.
fn settle_again<D: Device + Drop, S: Write + Drop, R: Wait + Clock>(
    alloc: Global,
    bank: &Bank<'_, D, S, R>,
    rest: Unsettled<Payment, BankReply>,
) -> Result<Outcome<Payment, BankReply>, RoundFault>
    ensures outcome { IfOk result (λ o. (g : GivensView) (payloads : List PaymentView) (budgets : List ℕ)
        → IsUnsettled Answers g payloads budgets rest → IsOutcome Answers g payloads budgets o) }
    ensures fault { IfErr result (λ f. f ≡ UnsettledRound rest) }
{
    settled_later(bank);
    match rest.settle(alloc) {
        Ok(outcome) => Ok(outcome),
        Err(rest) => Err(RoundFault::Unsettled(rest)),
    }
}

/// Executes one round. If a thread could not be started, the others have paid. If memory was
/// refused at the settling, it is settled again, once.
fn run_round<D: Device + Drop + Send, S: Write + Drop + Send, R: Threads + Wait + Clock + Sync>(
    rt: &R,
    alloc: Global,
    bank: &Bank<'_, D, S, R>,
    plan: &StopPlan,
    payments: Vec<Payment>,
) -> Result<Outcome<Payment, BankReply>, RoundFault>
    ensures outcome { IfOk result (IsOutcome Answers plan.now.givens payments.items plan.now.budgets) }
    ensures fault { IfErr result (IsRunFault plan.now.givens payments.items plan.now.budgets) }
{
    match execute(rt, alloc, plan.givens(), payments, bank, plan) {
        Ok(outcome) | Err(ExecFault::ThreadRefused(outcome)) => Ok(outcome),
        Err(ExecFault::WrongCount(payments)) | Err(ExecFault::NoMemory(payments)) => {
            Err(RoundFault::Unpaid(payments))
        }
        Err(ExecFault::Unsettled(rest)) => settle_again(alloc, bank, rest),
    }
}

/// Pays one round, and sorts its outcome. The caller must give at most 4096 payments. It may wait.
pub(crate) fn pay_round<
    D: Device + Drop + Send,
    S: Write + Drop + Send,
    R: Threads + Wait + Clock + Sync,
>(
    rt: &R,
    alloc: Global,
    bank: &Bank<'_, D, S, R>,
    crew: Crew,
    payments: Vec<Payment>,
) -> Result<Sorted, RoundFault>
    requires few { vec_len payments ≤ MAX_JOBS }
    ensures sorted { IfOk result (IsRound crew payments.items) }
    ensures fault { IfErr result (IsRoundFault crew payments.items) }
{
    let Some(plan) = plan_of(alloc, payments.len(), crew) else {
        return Err(RoundFault::Unpaid(payments));
    };
    let Ok(ids) = ids_of(alloc, &payments) else {
        return Err(RoundFault::Unpaid(payments));
    };
    match run_round(rt, alloc, bank, &plan, payments) {
        Ok(outcome) => sort_twice(alloc, &ids, outcome),
        Err(fault) => Err(fault),
    }
}

/// Adds the payments that nobody began, in their order, for a new floor. A payment that was in a
/// worker's hand is not among them. If memory is refused, they are dropped, and the journal has no
/// entry of them.
pub(crate) fn add_free(free: Vec<(u32, Payment)>, list: &mut Vec<Payment>) -> Result<(), AllocError>
    ensures { OnOk result (list.new.items ≡ list.old.items ++ map (λ t. t.1) free.items) }
{
    for (_, payment) in free {
        list.push(payment)?;
    }
    Ok(())
}
