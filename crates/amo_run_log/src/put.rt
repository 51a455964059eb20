//! Appending of entries and findings to the journal of a file.
ghost use Rattle.std.specs.Prelude.{◌≡◌, ◌⊎◌, ◌+◌, ◌<◌, ◌≤◌, ◌^◌, ◌++◌, [], ◌∷◌, ℕ, false, List, Some, length, OnOk, OnErr, IsErrOf};
ghost use Rattle.amo_journal.specs.Appends.{longest, records_in};
ghost use Rattle.amo_journal.specs.Device.{LeavesOnly};
ghost use Rattle.amo_journal.specs.Journal.{HasOneMoreOrNot, IsRecovered, MayRecover};
ghost use Rattle.amo_run_log.specs.declared.entry.Entry.{Entry as EntryView};
ghost use Rattle.amo_run_log.specs.declared.finding.Finding.{Finding as FindingView};
ghost use Rattle.amo_run_log.specs.declared.journal.Attempt.{Attempt as AttemptView};
ghost use Rattle.amo_run_log.specs.Entries.{entries_of_append, text_of_append};
ghost use Rattle.amo_run_log.specs.Findings.{is_undone, text_of_finding};
ghost use Rattle.amo_run_log.specs.Open.{HasIntent, NoneOpens};
ghost use Rattle.amo_run_log.specs.Puts.{entries_of, findings_of, StandsForMoreOrNot, SaysOneMoreOrNot, IsClosedIn};

use crate::append::Append;
use crate::finding::Finding;
use amo_journal::{AppendError, Device, DeviceError, Journal};
use std::alloc::Global;

/// Adds one or two entries to a journal that was recovered, in one append. At `Ok` they are
/// acknowledged: from then on each crash leaves a file that has them.
///
/// # Errors
///
/// `TooLong` if the journal or the append is too long; then nothing changed. `Device` if the device
/// failed, or if there was no memory. Then the journal must be recovered before anything else is
/// put. Until then all of the entries are there, or none of them.
pub fn append_entries<D: Device>(
    journal: &mut Journal<D>,
    alloc: Global,
    append: Append,
) -> Result<(), AppendError>
    requires { IsRecovered D.seen D.may_leave D.stale journal.old }

    ensures settled { OnOk result (IsRecovered D.seen D.may_leave D.stale journal.new) }
    ensures again { OnErr result (MayRecover D.seen D.may_leave D.stale journal.new.device) }
    ensures acknowledged { (entries : List EntryView) → entries_of (D.seen journal.old.device) ≡ Some entries
        → OnOk result (entries_of (D.seen journal.new.device) ≡ Some (entries ++ entries_of_append append)) }

    // A crash at any moment of the call leaves the entries from before it, with all of the new ones
    // or with none.
    ensures any_moment { (entries : List EntryView) → entries_of (D.seen journal.old.device) ≡ Some entries
        → LeavesOnly D.moment D.left_since journal.old.device journal.new.device (StandsForMoreOrNot entries (entries_of_append append)) }

    // So does a kill.
    ensures read { (entries : List EntryView) → entries_of (D.seen journal.old.device) ≡ Some entries
        → StandsForMoreOrNot entries (entries_of_append append) (D.seen journal.new.device) }

    // Once an intent is put, and nothing after it in the append opens it, each crash leaves a
    // journal by which its line is closed, whatever the other journals hold.
    ensures closes { (count : ℕ) (findings : List FindingView) (before after : List (List AttemptView)) (serial line : ℕ) (entries : List EntryView)
        → HasIntent serial line (entries_of_append append) → entries_of (D.seen journal.old.device) ≡ Some entries → is_undone findings (length before + 1) serial ≡ false
        → OnOk result ((c : List ℕ) → D.may_leave journal.new.device c → IsClosedIn count findings before after line c) }

    // It stays closed at each crash during later calls, unless what is put opens it.
    ensures keeps_closed { (count : ℕ) (findings : List FindingView) (before after : List (List AttemptView)) (serial line : ℕ) (entries : List EntryView)
        → entries_of (D.seen journal.old.device) ≡ Some entries → HasIntent serial line entries → NoneOpens serial (entries_of_append append)
        → is_undone findings (length before + 1) serial ≡ false
        → LeavesOnly D.moment D.left_since journal.old.device journal.new.device (IsClosedIn count findings before after line) }

    // Each of these files is read: none of them looks damaged.
    ensures log { LeavesOnly D.moment D.left_since journal.old.device journal.new.device
        (HasOneMoreOrNot journal.old.first.digits (records_in (D.seen journal.old.device)) (text_of_append append)) }

    // It fails only if the disk failed.
    ensures failed { IsErrOf result (AppendError.Device DeviceError.Failed) → D.faults journal.old.device < D.faults journal.new.device }
    ensures too_long { IsErrOf result AppendError.TooLong → ((2 ^ 60 ≤ journal.old.gate) ⊎ (longest < length (text_of_append append) + 11)) × (journal.new ≡ journal.old) }
{
    let Ok(text) = append.print(alloc) else {
        return Err(AppendError::Device(DeviceError::Memory));
    };
    journal.append(alloc, text.as_bytes())
}

/// Adds a finding to a journal of findings that was recovered. At `Ok` it is acknowledged: from
/// then on each crash leaves a file that has it. It doesn't check that the finding is in place; see
/// `first_misplaced`.
///
/// # Errors
///
/// `TooLong` if the journal or the append is too long; then nothing changed. `Device` if the device
/// failed, or if there was no memory. Then the journal must be recovered before anything else is
/// put. Until then the finding is there or not.
pub fn append_finding<D: Device>(
    journal: &mut Journal<D>,
    alloc: Global,
    finding: Finding,
) -> Result<(), AppendError>
    requires { IsRecovered D.seen D.may_leave D.stale journal.old }

    ensures settled { OnOk result (IsRecovered D.seen D.may_leave D.stale journal.new) }
    ensures again { OnErr result (MayRecover D.seen D.may_leave D.stale journal.new.device) }
    ensures acknowledged { (findings : List FindingView) → findings_of (D.seen journal.old.device) ≡ Some findings
        → OnOk result (findings_of (D.seen journal.new.device) ≡ Some (findings ++ finding ∷ [])) }

    // A crash at any moment of the call leaves the findings from before it, with the new one or
    // without.
    ensures any_moment { (findings : List FindingView) → findings_of (D.seen journal.old.device) ≡ Some findings
        → LeavesOnly D.moment D.left_since journal.old.device journal.new.device (SaysOneMoreOrNot findings finding) }

    // So does a kill.
    ensures read { (findings : List FindingView) → findings_of (D.seen journal.old.device) ≡ Some findings
        → SaysOneMoreOrNot findings finding (D.seen journal.new.device) }

    // Each of these files is read: none of them looks damaged.
    ensures log { LeavesOnly D.moment D.left_since journal.old.device journal.new.device
        (HasOneMoreOrNot journal.old.first.digits (records_in (D.seen journal.old.device)) (text_of_finding finding)) }

    // It fails only if the disk failed.
    ensures failed { IsErrOf result (AppendError.Device DeviceError.Failed) → D.faults journal.old.device < D.faults journal.new.device }
    ensures too_long { IsErrOf result AppendError.TooLong → ((2 ^ 60 ≤ journal.old.gate) ⊎ (longest < length (text_of_finding finding) + 11)) × (journal.new ≡ journal.old) }
{
    let Ok(text) = finding.print(alloc) else {
        return Err(AppendError::Device(DeviceError::Memory));
    };
    journal.append(alloc, text.as_bytes())
}
