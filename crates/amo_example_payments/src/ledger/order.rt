//! The three states of a payment: its intent is in the journal, it is given to the bank, and it has
//! its receipt.
ghost use Rattle.std.specs.Prelude.{◌≡◌, IfOk, IfErr, OnOk, OnErr};
ghost use Rattle.std.specs.Io.KnownBytes.{Appends};
ghost use Rattle.amo_io.specs.Streams.{AppendsFront};
ghost use Rattle.amo_example_payments.specs.Payments.{IsReceiptOf, order_line};

use crate::day::Payment;
use crate::writing::write_text;
use std::alloc::Global;
use std::io::Write;

/// A payment whose intent is in the journal, on the disk. Only such a payment can be given to the
/// bank.
#[derive(Drop)]
pub(crate) struct IntentToken {
    payment: Payment,
    serial: u64,
}

/// A payment that was given to the bank. Only such a payment gets a receipt.
#[derive(Drop)]
pub(crate) struct Given {
    payment: Payment,
    serial: u64,
}

/// The proof that a payment was made: its receipt is in the journal, on the disk.
#[derive(Debug, PartialEq, Drop)]
pub(crate) struct Receipt {
    job: u32,
    id: u64,
    account: u64,
    cents: u64,
}

impl IntentToken {
    /// Returns the token of the payment whose intent has this serial number in the journal.
    pub(super) fn new(payment: Payment, serial: u64) -> IntentToken
        ensures { result ≡ record { payment = payment; serial = serial } }
    {
        IntentToken { payment, serial }
    }

    /// Gives the payment to the bank. A real bank's call stands here: it sends the order, and
    /// returns once the bank has taken it. Here a line goes to a writer instead.
    ///
    /// # Errors
    ///
    /// The payment, if the writer fails. Nobody knows then whether the bank has all of it, and the
    /// payment must never be given again.
    pub(crate) fn give<S: Write>(self, alloc: Global, bank: &mut S) -> Result<Given, Payment>
        ensures whole { OnOk result (Appends (S.contents bank.old) (S.contents bank.new) (order_line self.payment)) }
        ensures front { OnErr result (AppendsFront (S.contents bank.old) (S.contents bank.new) (order_line self.payment)) }
        ensures given { IfOk result (λ g. (g.payment ≡ self.payment) × (g.serial ≡ self.serial)) }
        ensures back { IfErr result (λ p. p ≡ self.payment) }
    {
        let IntentToken { payment, serial } = self;
        let (id, account, cents) = (payment.id(), payment.account(), payment.cents());
        let Ok(order) = format!(in alloc; "paid {id} {account} {cents}\n") else {
            return Err(payment);
        };
        if !write_text(bank, order.as_str()) {
            return Err(payment);
        }
        Ok(Given { payment, serial })
    }
}

impl Given {
    /// Returns the serial number of its intent.
    pub(super) fn serial(&self) -> u64
        ensures { result ≡ self.now.serial }
    {
        self.serial
    }

    /// Returns the payment, which has no receipt.
    pub(super) fn back(self) -> Payment
        ensures { result ≡ self.payment }
    {
        self.payment
    }

    /// Returns the receipt of the payment, which was made as this job.
    pub(super) fn receipt(self, job: u32) -> Receipt
        ensures { IsReceiptOf job self.payment result }
    {
        Receipt {
            job,
            id: self.payment.id(),
            account: self.payment.account(),
            cents: self.payment.cents(),
        }
    }
}

impl Receipt {
    /// Returns the number of the payment.
    pub(crate) fn id(&self) -> u64
        ensures { result ≡ self.now.id }
    {
        self.id
    }
}
