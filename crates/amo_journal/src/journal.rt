//! A journal whose appends checksums chain: to recover it, and to append to it.
ghost use Rattle.std.specs.Prelude.{◌≡◌, ◌⊎◌, ◌+◌, ◌<◌, ◌≤◌, ◌^◌, ◌++◌, [], ◌∷◌, List, ℕ, length, IfOk, IfErr, OnOk, OnErr, IsErrOf};
ghost use Rattle.amo_journal.specs.Appends.{longest, records_in, IsLog};
ghost use Rattle.amo_journal.specs.Device.{LeavesOnly};
ghost use Rattle.amo_journal.specs.Faults.{IsCause, IsDamage};
ghost use Rattle.amo_journal.specs.Journal.{AllWhole, HasAllOrNotTheLast, HasOneMoreOrNot, IsRecovered, MayRecover};
ghost use Rattle.amo_journal.specs.Logs.{checksums_from, checksums_of, records_of};
ghost use Rattle.amo_journal.specs.Texts.{IsOneLine};
ghost use Rattle.amo_journal.specs.declared.journal.AppendError.TheVariants.{Device as AppendDevice};
ghost use Rattle.amo_journal.specs.declared.journal.RecoverError.TheVariants.{Device as RecoverDevice};

use crate::checksum::Checksum;
use crate::log::{DamageKind, LINE_END, LONGEST, Log, ReadError};
use crate::steps::{append_line, recover_file};
use crate::{Device, DeviceError};
use std::alloc::{AllocError, Global};
use thiserror::Error;

/// A file is too long if its appends have so many bytes.
const MAX_BYTES: usize = 1 << 60;

/// The most bytes of the records of an append.
const MAX_RECORDS: usize = LONGEST - LINE_END - 2;

/// Why a journal wasn't recovered.
#[derive(Clone, Copy, Debug, PartialEq, Eq, Drop, Error)]
pub enum RecoverError {
    /// The device failed, or there was no memory. The journal may be recovered again.
    #[error("{0}")]
    Device(DeviceError),
    /// The journal is damaged at the append of this number, counted from 1. Nothing was written.
    #[error("append {number}: {kind}")]
    Damaged { number: usize, kind: DamageKind },
}

impl From<DeviceError> for RecoverError {
    ghost from_gives = { λ fault e. e ≡ RecoverDevice fault };

    fn from(fault: DeviceError) -> Self {
        RecoverError::Device(fault)
    }
}

impl From<ReadError> for RecoverError {
    ghost use Rattle.amo_journal.specs.Faults.{recover_error_of};

    ghost from_gives = { λ fault e. e ≡ recover_error_of fault };

    fn from(fault: ReadError) -> Self {
        match fault {
            ReadError::Memory => RecoverError::Device(DeviceError::Memory),
            ReadError::Damaged { number, kind } => RecoverError::Damaged { number, kind },
        }
    }
}

/// Why records weren't appended.
#[derive(Clone, Copy, Debug, PartialEq, Eq, Drop, Error)]
pub enum AppendError {
    /// The device failed, or there was no memory. The records may stand in the journal or not:
    /// recover it.
    #[error("the journal can't be written: {0}")]
    Device(DeviceError),
    /// The records have more than 1,013 bytes, or the file 2^60 or more. Nothing was done.
    #[error("the journal is too long")]
    TooLong,
}

impl From<DeviceError> for AppendError {
    ghost from_gives = { λ fault e. e ≡ AppendDevice fault };

    fn from(fault: DeviceError) -> Self {
        AppendError::Device(fault)
    }
}

/// A journal over the file of a device: appends, each of which a checksum chains to all before it.
#[derive(Drop)]
pub struct Journal<D: Device> {
    /// The file.
    pub device: D,
    /// The checksum that stands before the first append.
    pub first: Checksum,
    /// The place of the closed commit byte, once the journal is recovered.
    pub gate: usize,
    /// The checksum of the last append, or else `first`, once the journal is recovered.
    pub last: Checksum,
}

impl<D: Device> Journal<D> {
    /// Returns a journal over a file. It must be recovered before anything is appended.
    pub fn new(device: D, first: Checksum) -> Self
        ensures device { result.device ≡ device }
        ensures first { result.first ≡ first }
    {
        Journal {
            device,
            first,
            gate: 0,
            last: first,
        }
    }

    /// Reads the journal, makes sure that what it read is on the disk, and returns the appends.
    /// After a kill, or a sync that failed, the last commit byte may be open in memory and closed
    /// on the disk. So this call writes that byte again, and syncs. It cuts what follows the
    /// appends, and syncs. It closes the commit byte after them, and syncs.
    ///
    /// # Errors
    ///
    /// `Damaged` if the file isn't appends and then at most what a crash may leave; the file is
    /// left as it was. `Device` if the device failed, or if there was no memory; then the journal
    /// may be recovered again.
    pub fn recover(&mut self, alloc: Global) -> Result<Log, RecoverError>
        requires { MayRecover D.seen D.may_leave D.stale self.old.device }

        ensures log { IfOk result (λ log. IsLog self.old.first.digits (records_of log.records.items) (D.seen self.old.device)) }
        ensures checksums { IfOk result (λ log. checksums_of log.checksums.items ≡ checksums_from self.old.first.digits (records_of log.records.items)) }
        ensures recovered { OnOk result (IsRecovered D.seen D.may_leave D.stale self.new) }

        // A damaged file is refused, and left as it was.
        ensures refused { IfErr result (λ error. IsCause error self.old.first.digits (D.seen self.old.device)) }
        ensures untouched { IfErr result (λ error. IsDamage error → (D.seen self.new.device ≡ D.seen self.old.device)
            × ((c : List ℕ) → D.may_leave self.new.device c → D.may_leave self.old.device c)) }

        ensures same { records_in (D.seen self.new.device) ≡ records_in (D.seen self.old.device) }
        ensures first { self.new.first ≡ self.old.first }

        // A file that has a byte keeps one.
        ensures some { 1 ≤ length (D.seen self.old.device) → 1 ≤ length (D.seen self.new.device) }

        // A crash at any moment leaves the appends, or all but the last one, and they are read, if
        // each crash before would have left a file that is read.
        ensures any_moment { (all : List (List ℕ)) → IsLog self.old.first.digits all (D.seen self.old.device) → AllWhole (D.may_leave self.old.device)
            → LeavesOnly D.moment D.left_since self.old.device self.new.device (HasAllOrNotTheLast self.old.first.digits all) }

        // The last one, too, if each crash before would have left it.
        ensures stays { (all : List (List ℕ)) → IsLog self.old.first.digits all (D.seen self.old.device)
            → ((c : List ℕ) → D.may_leave self.old.device c → IsLog self.old.first.digits all c)
            → LeavesOnly D.moment D.left_since self.old.device self.new.device (IsLog self.old.first.digits all) }

        ensures again { OnErr result (MayRecover D.seen D.may_leave D.stale self.new.device) }
        ensures whole { AllWhole (D.may_leave self.old.device) → AllWhole (D.may_leave self.new.device) }
        ensures failed { IsErrOf result (RecoverError.Device DeviceError.Failed) → D.faults self.old.device < D.faults self.new.device }
    {
        let log = recover_file(&mut self.device, alloc, &self.first)?;
        self.gate = log.end;
        self.last = log.last_checksum(self.first);
        Ok(log)
    }

    /// Appends records, in one line. At `Ok` they are acknowledged: from then on each crash leaves
    /// a file that has them.
    ///
    /// # Errors
    ///
    /// `Device` if the device failed, or if there was no memory: the journal must be recovered
    /// before anything else is appended, and until then the records are there or not. `TooLong` if
    /// the records have more than 1,013 bytes, or the file has 2^60 bytes: nothing was done.
    pub fn append(&mut self, alloc: Global, records: &[u8]) -> Result<(), AppendError>
        requires recovered { IsRecovered D.seen D.may_leave D.stale self.old }
        requires one_line { IsOneLine records.now }

        ensures recovered { OnOk result (IsRecovered D.seen D.may_leave D.stale self.new) }
        ensures acknowledged { OnOk result (records_in (D.seen self.new.device) ≡ records_in (D.seen self.old.device) ++ records.now ∷ []) }
        ensures first { self.new.first ≡ self.old.first }

        // A crash at any moment of the call leaves the appends from before it, with the new one or
        // without, and they are read.
        ensures any_moment { LeavesOnly D.moment D.left_since self.old.device self.new.device
            (HasOneMoreOrNot self.old.first.digits (records_in (D.seen self.old.device)) records.now) }

        // So does a kill, and the journal can be recovered: each crash then leaves a file that is
        // read.
        ensures read { HasOneMoreOrNot self.old.first.digits (records_in (D.seen self.old.device)) records.now (D.seen self.new.device) }
        ensures again { OnErr result (MayRecover D.seen D.may_leave D.stale self.new.device) }
        ensures whole { AllWhole (D.may_leave self.new.device) }

        // It fails only if the disk failed.
        ensures failed { IsErrOf result (AppendError.Device DeviceError.Failed) → D.faults self.old.device < D.faults self.new.device }
        ensures too_long { IsErrOf result AppendError.TooLong
            → ((2 ^ 60 ≤ self.old.gate) ⊎ (longest < length records.now + 11)) × (self.new ≡ self.old) }
    {
        if self.gate >= MAX_BYTES || records.len() > MAX_RECORDS {
            return Err(AppendError::TooLong);
        }
        let next = self.last.next(records);
        let line = line_of(alloc, records, &next)?;
        append_line(&mut self.device, alloc, self.gate, &line)?;
        self.gate += line.len() + 2;
        self.last = next;
        Ok(())
    }
}

/// Returns the line of an append: its records, a blank, its checksum.
fn line_of(alloc: Global, records: &[u8], checksum: &Checksum) -> Result<Vec<u8>, DeviceError>
    ensures bytes { IfOk result (λ line. line.items ≡ records.now ++ 32 ∷ checksum.now.digits) }
    ensures memory { IsErrOf result DeviceError.Failed → ⊥ }
{
    let mut line = records.to_vec(alloc)?;
    line.push(b' ')?;
    line.extend_from_slice(checksum.digits())?;
    Ok(line)
}
