//! The journal of a day, in a file: an intent before each payment, and a receipt after it.
ghost use Rattle.std.specs.Prelude.{◌≡◌, ℕ, true, false, Some, map, IfOk, IfErr, OnOk};
ghost use Rattle.std.specs.BTreeSet.{contains};
ghost use Rattle.std.specs.Ordering.{nat_cmp};
ghost use Rattle.std.proofs.Props.{props};
ghost use Rattle.amo_journal.specs.Appends.{records_in};
ghost use Rattle.amo_journal.specs.Journal.{IsRecovered, MayRecover};
ghost use Rattle.amo_example_payments.specs.Faults.{is_of_recovery};
ghost use Rattle.amo_example_payments.specs.Restarts.{has_intent, journal_in};

use crate::day::Payment;
use crate::fault::Fault;
use crate::restarting::{Earlier, follow};
use amo_journal::{Checksum, Device, Journal};
use amo_run_log::{
    Append, Attempt, Entry, Outcome, append_entries, journal_of, note, read_entries,
};
use std::alloc::Global;
use std::collections::BTreeSet;

/// The bytes with which the checksums of a day's journal begin.
const JOURNAL_ID: &[u8] = b"amo_payments";

const JOURNAL_NAME: &[u8] = b"journal";

mod order;

pub(crate) use order::{Given, IntentToken, Receipt};

/// The journal of a day, over a file that was recovered. After an entry that could not be put it
/// puts no more.
#[derive(Drop)]
pub(crate) struct Ledger<D: Device> {
    alloc: Global,
    journal: Journal<D>,
    /// How many payments the day has. Payment 1 is line 1, and so on.
    lines: u64,
    /// The attempts in the journal.
    attempts: Vec<Attempt>,
    /// The numbers of the payments that have an intent there which stands.
    intents: BTreeSet<u64>,
    broken: bool,
    ghost settled: { broken ≡ false → IsRecovered D.seen D.may_leave D.stale journal } by { Prim.hlevel props },
    ghost known: { broken ≡ false → ∥ journal_in lines (D.seen journal.device) ≡ Some attempts.items ∥₁ },
    ghost intended: { broken ≡ false → ∥ ((id : ℕ) → contains nat_cmp intents id ≡ has_intent attempts.items id) ∥₁ },
}

impl<D: Device + Drop> Ledger<D> {
    ghost use Rattle.std.specs.Prelude.{◌+◌, ◌++◌, ◌∷◌, [], List, length, Err, OnErr};
    ghost use Rattle.amo_journal.specs.Device.{LeavesOnly};
    ghost use Rattle.amo_run_log.specs.declared.entry.Outcome.TheVariants.{Done};
    ghost use Rattle.amo_run_log.specs.declared.entry.Entry.{Entry as EntryView};
    ghost use Rattle.amo_run_log.specs.declared.entry.Entry.TheVariants.{Intent as IntentEntry, Answer as AnswerEntry};
    ghost use Rattle.amo_run_log.specs.Journals.{noted};
    ghost use Rattle.amo_run_log.specs.Puts.{entries_of, StandsForMoreOrNot};
    ghost use Rattle.amo_example_payments.specs.declared.fault.Fault.TheVariants.{Entry as NoEntry};
    ghost use Rattle.amo_example_payments.specs.Faults.{IsOfOpening, IsRefusedIn};
    ghost use Rattle.amo_example_payments.specs.Ledgers.{AreKept};
    ghost use Rattle.amo_example_payments.specs.Payments.{IsReceiptOf};

    /// Recovers the journal in a file, an empty one too, and reads it as that of a day of so many
    /// payments.
    ///
    /// # Errors
    ///
    /// `Journal` if the disk failed. `Damaged` if the file is damaged. `Entry` if an entry can't be
    /// of such a day. `Memory` if memory was refused.
    pub(crate) fn open(alloc: Global, device: D, lines: u64) -> Result<Ledger<D>, Fault>
        requires { MayRecover D.seen D.may_leave D.stale device }
        ensures known { IfOk result (λ l. journal_in lines (D.seen device) ≡ Some l.attempts.items) }
        ensures begun { IfOk result (λ l. (l.broken ≡ false) × (l.lines ≡ lines)) }
        ensures refused { (n : ℕ) → result ≡ Err (NoEntry n) → IsRefusedIn lines (D.seen device) n }
        ensures fault { IfErr result IsOfOpening }
    {
        let mut journal = Journal::new(device, Checksum::first(JOURNAL_ID, JOURNAL_NAME));
        let records = recovered(alloc, &mut journal)?;
        let entries = read_entries(alloc, &records)?;
        let attempts = journal_of(alloc, lines, &entries)?;
        let earlier = Earlier::of(alloc, &attempts)?;
        Ok(Ledger {
            alloc,
            journal,
            lines,
            attempts,
            intents: earlier.intents,
            broken: false,
        })
    }

    /// Returns the attempts in the journal: its intents, each with its outcome.
    pub(crate) fn attempts(&self) -> &[Attempt]
        ensures { result.now ≡ self.now.attempts.items }
    {
        &self.attempts
    }

    /// Puts an entry that may follow those in the journal. If it may not, or the put fails, no more
    /// is put. Returns true if it was put.
    fn put(&mut self, entry: Entry) -> bool
        ensures kept { (entries : List EntryView) → entries_of (D.seen self.old.journal.device) ≡ Some entries
            → result ≡ true → AreKept D.seen D.may_leave self.new.journal.device (entries ++ entry ∷ []) }
        ensures read { (entries : List EntryView) → entries_of (D.seen self.old.journal.device) ≡ Some entries
            → StandsForMoreOrNot entries (entry ∷ []) (D.seen self.new.journal.device) }
        ensures any_moment { (entries : List EntryView) → self.old.broken ≡ false → entries_of (D.seen self.old.journal.device) ≡ Some entries
            → LeavesOnly D.moment D.left_since self.old.journal.device self.new.journal.device (StandsForMoreOrNot entries (entry ∷ [])) }
        ensures noted { result ≡ true → noted self.old.lines self.old.attempts.items entry ≡ Some self.new.attempts.items }
        ensures whole { result ≡ true → (self.old.broken ≡ false) × (self.new.broken ≡ false) }
        ensures broken { result ≡ false → self.new.broken ≡ true }
        ensures shut { self.old.broken ≡ true → (result ≡ false) × (self.new.journal ≡ self.old.journal) }
    {
        if self.broken {
            return false;
        }
        self.broken = true;
        let Ok(may_follow) = note(self.lines, &mut self.attempts, entry) else {
            return false;
        };
        if !may_follow {
            return false;
        }
        if !follow(&mut self.intents, entry) {
            return false;
        }
        match append_entries(&mut self.journal, self.alloc, Append::One(entry)) {
            Ok(()) => {
                self.broken = false;
                true
            }
            Err(_) => false,
        }
    }

    /// Puts the intent of the payment. Once it returns the token, each crash leaves the intent.
    ///
    /// # Errors
    ///
    /// The payment, if its intent can't be put, or an intent of it stands in the journal already.
    /// The payment must not be made then, since its intent may be in the journal now.
    pub(crate) fn intend(&mut self, payment: Payment, time: u64) -> Result<IntentToken, Payment>
        // The journal had no intent of the payment that stands.
        ensures once { OnOk result (has_intent self.old.attempts.items payment.id ≡ false) }
        ensures shut { OnOk result (self.old.broken ≡ false) }
        ensures intent { IfOk result (λ i. (i.payment ≡ payment) × (i.serial ≡ length self.old.attempts.items + 1)) }
        ensures back { IfErr result (λ p. p ≡ payment) }

        // Now it has one, and keeps it.
        ensures kept { (entries : List EntryView) → entries_of (D.seen self.old.journal.device) ≡ Some entries
            → IfOk result (λ i. AreKept D.seen D.may_leave self.new.journal.device (entries ++ IntentEntry i.serial payment.id time ∷ [])) }

        // A kill, or a crash at any moment of the call, leaves the entries from before it, with the
        // intent or without.
        ensures read { (entries : List EntryView) → entries_of (D.seen self.old.journal.device) ≡ Some entries
            → StandsForMoreOrNot entries (IntentEntry (length self.old.attempts.items + 1) payment.id time ∷ []) (D.seen self.new.journal.device) }
        ensures any_moment { (entries : List EntryView) → self.old.broken ≡ false → entries_of (D.seen self.old.journal.device) ≡ Some entries
            → LeavesOnly D.moment D.left_since self.old.journal.device self.new.journal.device
            (StandsForMoreOrNot entries (IntentEntry (length self.old.attempts.items + 1) payment.id time ∷ [])) }
    {
        let line = payment.id();
        let serial = self.attempts.len() as u64 + 1;
        if self.intents.contains(&line) {
            return Err(payment);
        }
        if self.put(Entry::Intent { serial, line, time }) {
            Ok(IntentToken::new(payment, serial))
        } else {
            Err(payment)
        }
    }

    /// Puts the receipt of a payment that was given to the bank, and returns it.
    ///
    /// # Errors
    ///
    /// The payment, if that fails. It was made, and is in doubt, unless the receipt is in the
    /// journal now.
    pub(crate) fn note(&mut self, given: Given, job: u32, time: u64) -> Result<Receipt, Payment>
        ensures receipt { IfOk result (IsReceiptOf job given.payment) }
        ensures back { IfErr result (λ p. p ≡ given.payment) }
        ensures kept { (entries : List EntryView) → entries_of (D.seen self.old.journal.device) ≡ Some entries
            → OnOk result (AreKept D.seen D.may_leave self.new.journal.device (entries ++ AnswerEntry given.serial (Done 0 time) ∷ [])) }
        ensures read { (entries : List EntryView) → entries_of (D.seen self.old.journal.device) ≡ Some entries
            → StandsForMoreOrNot entries (AnswerEntry given.serial (Done 0 time) ∷ []) (D.seen self.new.journal.device) }
        ensures any_moment { (entries : List EntryView) → self.old.broken ≡ false → entries_of (D.seen self.old.journal.device) ≡ Some entries
            → LeavesOnly D.moment D.left_since self.old.journal.device self.new.journal.device
            (StandsForMoreOrNot entries (AnswerEntry given.serial (Done 0 time) ∷ [])) }
    {
        let serial = given.serial();
        let answer = Outcome::Done { code: 0, time };
        if self.put(Entry::Answer { serial, answer }) {
            Ok(given.receipt(job))
        } else {
            Err(given.back())
        }
    }

    /// Returns the file, whether the journal is broken or not.
    pub(crate) fn into_device(self) -> D
        ensures { result ≡ self.journal.device }
    {
        self.journal.device
    }
}

/// Recovers a journal, and returns the records of each append.
fn recovered<D: Device>(alloc: Global, journal: &mut Journal<D>) -> Result<Vec<Vec<u8>>, Fault>
    requires { MayRecover D.seen D.may_leave D.stale journal.old.device }
    ensures records { IfOk result (λ all. map (λ records. records.items) all.items ≡ records_in (D.seen journal.old.device)) }
    ensures recovered { OnOk result (IsRecovered D.seen D.may_leave D.stale journal.new) }
    ensures same { records_in (D.seen journal.new.device) ≡ records_in (D.seen journal.old.device) }
    ensures fault { IfErr result (λ fault. is_of_recovery fault ≡ true) }
{
    let log = journal.recover(alloc)?;
    Ok(log.records)
}
