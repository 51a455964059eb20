//! The payments that are left to make after earlier runs of the day.
ghost use Rattle.std.specs.Prelude.{◌≡◌, ◌||◌, ◌==◌, true, ℕ, List, [], ◌∷◌, ◌++◌, Some, IfOk, OnOk};
ghost use Rattle.std.specs.BTreeSet.{contains};
ghost use Rattle.std.specs.Ordering.{nat_cmp};
ghost use Rattle.amo_run_log.specs.declared.journal.Attempt.{Attempt as AttemptView};
ghost use Rattle.amo_run_log.specs.Journals.{noted};
ghost use Rattle.amo_example_payments.specs.declared.day.payment.Payment.{Payment as PaymentView};
ghost use Rattle.amo_example_payments.specs.Restarts.{has_intent, has_receipt, is_made, is_receipt, stands, IsParted};

use crate::day::Payment;
use amo_run_log::{Attempt, Entry, Outcome, opens, reopens};
use std::alloc::{AllocError, Global};
use std::collections::BTreeSet;

/// The payments of a day after earlier runs of it. Each is in one of the three.
#[derive(Drop)]
pub(crate) struct Restart {
    /// The payments with a receipt. They were made.
    pub(crate) made: Vec<Payment>,
    /// The payments with an intent and no receipt. Nobody knows whether they were made, so a person
    /// has to ask the bank.
    pub(crate) in_doubt: Vec<Payment>,
    /// The payments that the journal doesn't name. They were not made, since an intent is written
    /// first.
    pub(crate) untried: Vec<Payment>,
}

/// Returns true if it is known that a payment was made.
fn is_made(answer: Option<Outcome>) -> bool
    ensures { result ≡ is_made answer }
{
    matches!(answer, Some(Outcome::Done { code: 0, .. }))
}

/// The numbers of the payments that a journal names.
#[derive(Drop)]
pub(crate) struct Earlier {
    /// The payments with an intent that stands.
    pub(crate) intents: BTreeSet<u64>,
    /// The payments with a receipt.
    receipts: BTreeSet<u64>,
}

impl Earlier {
    /// Adds one intent with its outcome.
    fn add(&mut self, attempt: &Attempt) -> Result<(), AllocError>
        ensures intents { OnOk result ((id : ℕ) → contains nat_cmp self.new.intents id ≡ (contains nat_cmp self.old.intents id || stands id attempt.now)) }
        ensures receipts { OnOk result ((id : ℕ) → contains nat_cmp self.new.receipts id ≡ (contains nat_cmp self.old.receipts id || is_receipt id attempt.now)) }
    {
        if !reopens(attempt.answer) {
            self.intents.insert(attempt.line)?;
        }
        if is_made(attempt.answer) {
            self.receipts.insert(attempt.line)?;
        }
        Ok(())
    }

    /// Returns what this journal says.
    pub(crate) fn of(alloc: Global, journal: &[Attempt]) -> Result<Earlier, AllocError>
        ensures intents { IfOk result (λ e. (id : ℕ) → contains nat_cmp e.intents id ≡ has_intent journal.now id) }
        ensures receipts { IfOk result (λ e. (id : ℕ) → contains nat_cmp e.receipts id ≡ has_receipt journal.now id) }
    {
        let mut earlier = Earlier {
            intents: BTreeSet::new(alloc),
            receipts: BTreeSet::new(alloc),
        };
        for attempt in journal {
            earlier.add(attempt)?;
        }
        Ok(earlier)
    }
}

/// Adds a payment's number.
fn add(numbers: &mut BTreeSet<u64>, id: u64) -> Result<(), AllocError>
    ensures { OnOk result ((j : ℕ) → contains nat_cmp numbers.new j ≡ (contains nat_cmp numbers.old j || id == j)) }
{
    numbers.insert(id)?;
    Ok(())
}

/// Makes the set follow an entry that the journal is given. The set has the payments whose intents
/// stand. Returns false if memory is refused, or if the entry is an outcome by which its payment
/// was not begun. A day puts no such outcome.
pub(crate) fn follow(intents: &mut BTreeSet<u64>, entry: Entry) -> bool
    ensures { result ≡ true → (lines : ℕ) (old new : List AttemptView) → noted lines old entry ≡ Some new
        → ((id : ℕ) → contains nat_cmp intents.old id ≡ has_intent old id) → (id : ℕ) → contains nat_cmp intents.new id ≡ has_intent new id }
{
    match entry {
        Entry::Intent { line, .. } => add(intents, line).is_ok(),
        Entry::Answer { answer, .. } => !opens(answer),
    }
}

impl Restart {
    /// Puts one payment more into its list.
    #[tactic(auto, using(crate::proofs::Filters::passed, crate::proofs::Filters::skipped))]
    fn add(&mut self, earlier: &Earlier, payment: Payment) -> Result<(), AllocError>
        ensures parted { OnOk result ((payments : List PaymentView) (journal : List AttemptView)
            → ((id : ℕ) → contains nat_cmp earlier.now.intents id ≡ has_intent journal id)
            → ((id : ℕ) → contains nat_cmp earlier.now.receipts id ≡ has_receipt journal id)
            → IsParted journal payments self.old → IsParted journal (payments ++ payment ∷ []) self.new) }
    {
        if earlier.receipts.contains(&payment.id()) {
            self.made.push(payment)?;
        } else if earlier.intents.contains(&payment.id()) {
            self.in_doubt.push(payment)?;
        } else {
            self.untried.push(payment)?;
        }
        Ok(())
    }
}

/// Parts the payments by what the journal says of them. Nothing else is known of earlier runs. It
/// goes through the journal once.
///
/// # Errors
///
/// `AllocError` if memory is refused. The payments are dropped then: nothing was paid, and the day
/// has to end.
pub(crate) fn part(
    alloc: Global,
    payments: Vec<Payment>,
    journal: &[Attempt],
) -> Result<Restart, AllocError>
    ensures { IfOk result (IsParted journal.now payments.items) }
{
    let earlier = Earlier::of(alloc, journal)?;
    let mut parts = Restart {
        made: Vec::new(alloc),
        in_doubt: Vec::new(alloc),
        untried: Vec::new(alloc),
    };
    for payment in payments {
        parts.add(&earlier, payment)?;
    }
    Ok(parts)
}
