//! The work: making payments.
ghost use Rattle.std.specs.Prelude.{◌≡◌, IfOk, IfErr};
ghost use Rattle.amo_example_payments.specs.Payments.{IsReceiptOf, Answers};

use crate::day::Payment;
use crate::ledger::{Given, IntentToken, Ledger, Receipt};
use amo_crew::Work;
use amo_journal::Device;
use std::alloc::Global;
use std::io::Write;
use std::sync::atomic::{AtomicBool, AtomicU64, Ordering};
use std::sync::{Mutex, Wait};
use std::time::{Clock, SystemTime, UNIX_EPOCH};

/// The result of performing a payment.
#[derive(Debug, PartialEq, Drop)]
pub(crate) enum BankReply {
    /// The payment was made, and its receipt stands in the journal.
    Paid(Receipt),
    /// The payment has no receipt. Either its intent could not be put, and it was not made. Or
    /// nobody knows whether the bank has it. Or it was made, and its receipt could not be put.
    Unpaid(Payment),
}

/// The work of this example: it makes payments, and keeps their journal. Threads share it by
/// reference.
#[derive(Drop)]
pub(crate) struct Bank<'a, D: Device + Drop, S: Drop, R> {
    pub(crate) rt: &'a R,
    pub(crate) alloc: Global,
    ledger: Mutex<Ledger<D>>,
    orders: Mutex<S>,
    limit: u64,
    made: AtomicU64,
    pub(crate) stop: &'a AtomicBool,
}

/// Returns the time in seconds since 1970, or 0 if the clock can't be read. It is noted for persons
/// and decides nothing.
fn now<R: Clock>(rt: &R) -> u64 {
    match SystemTime::now(rt) {
        Ok(time) => match time.duration_since(UNIX_EPOCH) {
            Ok(since) => since.as_secs(),
            Err(_) => 0,
        },
        Err(_) => 0,
    }
}

impl<'a, D: Device + Drop, S: Write + Drop, R: Wait + Clock> Bank<'a, D, S, R> {
    /// Returns a bank with this journal. It writes its orders to the writer, and sets the flag once
    /// so many payments were made.
    pub(crate) fn new(
        rt: &'a R,
        alloc: Global,
        ledger: Ledger<D>,
        orders: S,
        limit: u64,
        stop: &'a AtomicBool,
    ) -> Bank<'a, D, S, R>
        ensures limit { result.limit ≡ limit }
    {
        Bank {
            rt,
            alloc,
            ledger: Mutex::new(ledger),
            orders: Mutex::new(orders),
            limit,
            made: AtomicU64::new(0),
            stop,
        }
    }

    /// Returns the file of the journal, once all have paid.
    pub(crate) fn into_device(self) -> D {
        self.ledger.into_inner().into_device()
    }

    /// Makes a payment whose intent is put, and counts it. The lock is that of the writer which
    /// stands for a bank: a real bank's call takes none.
    fn pay(&self, intent: IntentToken) -> Result<Given, Payment>
        ensures given { IfOk result (λ g. g.payment ≡ intent.payment) }
        ensures back { IfErr result (λ p. p ≡ intent.payment) }
    {
        let given = intent.give(self.alloc, &mut *self.orders.lock(self.rt))?;
        let before = self.made.fetch_add(1, Ordering::SeqCst);
        if before.saturating_add(1) >= self.limit {
            self.stop.store(true, Ordering::SeqCst);
        }
        Ok(given)
    }

    /// Puts the intent, makes the payment, and puts its receipt. No other thread waits for the
    /// journal while a payment is made.
    fn make(&self, job: u32, payment: Payment) -> Result<Receipt, Payment>
        ensures receipt { IfOk result (IsReceiptOf job payment) }
        ensures back { IfErr result (λ p. p ≡ payment) }
    {
        let begun = now(self.rt);
        let intent = self.ledger.lock(self.rt).intend(payment, begun)?;
        let given = self.pay(intent)?;
        let ended = now(self.rt);
        self.ledger.lock(self.rt).note(given, job, ended)
    }
}

impl<'a, D: Device + Drop, S: Write + Drop, R: Wait + Clock> Work<Payment> for Bank<'a, D, S, R> {
    type Out = BankReply;

    ghost related = { λ _. Answers };

    /// Makes the payment. It sets the flag if the payment gets no receipt.
    fn perform(&self, _worker: u32, job: u32, payment: Payment) -> BankReply {
        match self.make(job, payment) {
            Ok(receipt) => BankReply::Paid(receipt),
            Err(payment) => {
                self.stop.store(true, Ordering::SeqCst);
                BankReply::Unpaid(payment)
            }
        }
    }
}
