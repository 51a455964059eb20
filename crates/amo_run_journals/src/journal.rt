//! A journal that was recovered, so that records may be appended, and what is owed to it.
ghost use Rattle.std.specs.Prelude.{◌≡◌, ◌++◌, ◌∷◌, [], List, Some, None, IfOk, IfErr, OnErr};
ghost use Rattle.amo_journal.specs.Appends.{records_in, IsLog};
ghost use Rattle.amo_journal.specs.Device.{LeavesOnly};
ghost use Rattle.amo_journal.specs.Faults.{IsCause};
ghost use Rattle.amo_journal.specs.Journal.{MayRecover};
ghost use Rattle.amo_journal.specs.Logs.{records_of};
ghost use Rattle.amo_run_journals.specs.Owed.{owed_entries};
ghost use Rattle.amo_run_log.specs.Entries.{entries_of_append};
ghost use Rattle.amo_run_log.specs.Puts.{entries_of, findings_of, StandsForMoreOrNot, SaysOneMoreOrNot};
ghost use Rattle.std.proofs.Props.{props};
ghost use Rattle.amo_run_log.specs.declared.entry.Entry.{Entry as EntryView};
ghost use Rattle.amo_run_log.specs.declared.finding.Finding.{Finding as FindingView};

use amo_journal::{AppendError, Checksum, Device, Journal, RecoverError};
use amo_run_log::{Append, Entry, Finding, append_entries, append_finding};
use std::alloc::Global;

/// A journal that was recovered, and the entry that its next append takes along. If an append
/// fails, the journal is gone, so that nothing is appended after a fault.
#[derive(Drop)]
pub struct OpenJournal<D: Device> {
    pub journal: Journal<D>,
    /// The outcome of the last attempt, if it isn't appended yet. No crash leaves it.
    pub owed: Option<Entry>,
    ghost recovered: { Rattle.amo_journal.specs.Journal.IsRecovered D.seen D.may_leave D.stale journal } by { Prim.hlevel props },
}

impl<D: Device + Drop> OpenJournal<D> {
    /// Recovers the journal on a device, and returns the records of each append. `first` is the
    /// checksum that stands before the first one.
    ///
    /// # Errors
    /// `Damaged` if the file is damaged, `Device` if the device fails.
    pub fn recover(
        alloc: Global,
        device: D,
        first: Checksum,
    ) -> Result<(OpenJournal<D>, Vec<Vec<u8>>), RecoverError>
        requires { MayRecover D.seen D.may_leave D.stale device }
        ensures log { IfOk result (λ r. IsLog first.digits (records_of r.1.items) (D.seen device)) }
        ensures same { IfOk result (λ r. records_in (D.seen r.0.journal.device) ≡ records_in (D.seen device)) }
        ensures nothing_owed { IfOk result (λ r. r.0.owed ≡ None) }
        ensures refused { IfErr result (λ error. IsCause error first.digits (D.seen device)) }
    {
        let mut journal = Journal::new(device, first);
        let log = journal.recover(alloc)?;
        let owed = None;
        Ok((OpenJournal { journal, owed }, log.records))
    }

    /// Appends an entry, in one append with what is owed: a crash at any moment leaves both or
    /// none.
    ///
    /// # Errors
    /// `Device` if the device failed, or if there was no memory, `TooLong` if the file is too long.
    pub fn put(self, alloc: Global, entry: Entry) -> Result<OpenJournal<D>, AppendError>
        ensures acknowledged { (entries : List EntryView) → entries_of (D.seen self.journal.device) ≡ Some entries
            → IfOk result (λ s. entries_of (D.seen s.journal.device) ≡ Some (entries ++ (owed_entries self.owed ++ entry ∷ []))) }
        ensures any_moment { (entries : List EntryView) → entries_of (D.seen self.journal.device) ≡ Some entries
            → IfOk result (λ s. LeavesOnly D.moment D.left_since self.journal.device s.journal.device (StandsForMoreOrNot entries (owed_entries self.owed ++ entry ∷ []))) }
        ensures nothing_owed { IfOk result (λ s. s.owed ≡ None) }
    {
        match self.owed {
            Some(owed) => self.append(alloc, Append::Two(owed, entry)),
            None => self.append(alloc, Append::One(entry)),
        }
    }

    /// Owes an entry, which the next append takes along. The device isn't called, unless an entry
    /// is owed already: that one is appended first.
    ///
    /// # Errors
    /// As [`OpenJournal::pay`].
    pub fn owe(self, alloc: Global, entry: Entry) -> Result<OpenJournal<D>, AppendError>
        ensures kept { (entries : List EntryView) → entries_of (D.seen self.journal.device) ≡ Some entries
            → IfOk result (λ s. entries_of (D.seen s.journal.device) ≡ Some (entries ++ owed_entries self.owed)) }
        ensures owed { IfOk result (λ s. s.owed ≡ Some entry) }
        ensures no_call { self.owed ≡ None → IfOk result (λ s. s.journal ≡ self.journal) × OnErr result ⊥ }
    {
        let open = self.pay(alloc)?;
        let journal = open.journal;
        let owed = Some(entry);
        Ok(OpenJournal { journal, owed })
    }

    /// Appends what is owed, if something is. Otherwise the device isn't called.
    ///
    /// # Errors
    /// `Device` if the device failed, or if there was no memory, `TooLong` if the file is too long.
    pub fn pay(self, alloc: Global) -> Result<OpenJournal<D>, AppendError>
        ensures acknowledged { (entries : List EntryView) → entries_of (D.seen self.journal.device) ≡ Some entries
            → IfOk result (λ s. entries_of (D.seen s.journal.device) ≡ Some (entries ++ owed_entries self.owed)) }
        ensures nothing_owed { IfOk result (λ s. s.owed ≡ None) }
        ensures no_call { self.owed ≡ None → IfOk result (λ s. s.journal ≡ self.journal) × OnErr result ⊥ }
    {
        match self.owed {
            Some(entry) => self.append(alloc, Append::One(entry)),
            None => Ok(self),
        }
    }

    /// Appends these entries alone.
    fn append(self, alloc: Global, append: Append) -> Result<OpenJournal<D>, AppendError>
        ensures acknowledged { (entries : List EntryView) → entries_of (D.seen self.journal.device) ≡ Some entries
            → IfOk result (λ s. entries_of (D.seen s.journal.device) ≡ Some (entries ++ entries_of_append append)) }
        ensures any_moment { (entries : List EntryView) → entries_of (D.seen self.journal.device) ≡ Some entries
            → IfOk result (λ s. LeavesOnly D.moment D.left_since self.journal.device s.journal.device (StandsForMoreOrNot entries (entries_of_append append))) }
        ensures nothing_owed { IfOk result (λ s. s.owed ≡ None) }
    {
        let mut journal = self.journal;
        append_entries(&mut journal, alloc, append)?;
        let owed = None;
        Ok(OpenJournal { journal, owed })
    }

    /// Appends a finding. An entry that is owed stays owed.
    ///
    /// # Errors
    /// `Device` if the device failed, or if there was no memory, `TooLong` if the file is too long.
    pub fn put_finding(self, alloc: Global, finding: Finding) -> Result<OpenJournal<D>, AppendError>
        ensures acknowledged { (findings : List FindingView) → findings_of (D.seen self.journal.device) ≡ Some findings
            → IfOk result (λ s. findings_of (D.seen s.journal.device) ≡ Some (findings ++ finding ∷ [])) }
        ensures any_moment { (findings : List FindingView) → findings_of (D.seen self.journal.device) ≡ Some findings
            → IfOk result (λ s. LeavesOnly D.moment D.left_since self.journal.device s.journal.device (SaysOneMoreOrNot findings finding)) }
        ensures owed { IfOk result (λ s. s.owed ≡ self.owed) }
    {
        let owed = self.owed;
        let mut journal = self.journal;
        append_finding(&mut journal, alloc, finding)?;
        Ok(OpenJournal { journal, owed })
    }
}
