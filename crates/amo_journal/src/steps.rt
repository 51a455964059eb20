//! The steps of a journal on its device. Each write or cut is synced at once.
ghost use Rattle.std.specs.Prelude.{◌≡◌, ◌≢◌, ◌⊎◌, ◌+◌, ◌<◌, ◌≤◌, ◌^◌, ◌++◌, [], ◌∷◌, List, ℕ, length, map, take, IfOk, IfErr, IfSome, IfNone, OnOk, OnErr, IsErrOf};
ghost use Rattle.std.specs.List.{slice_get};
ghost use Rattle.amo_journal.specs.Appends.{longest, IsLog};
ghost use Rattle.amo_journal.specs.Device.{AgreesBut, Cut, CutFrom, Differs, HasCause, Holds, IsOutside, LeavesOnly, TornFrom, WritesFront};
ghost use Rattle.amo_journal.specs.Faults.{IsCause, IsDamage};
ghost use Rattle.amo_journal.specs.Journal.{AllWhole, HasLast, IsAtRest, IsBeforeOrAfter, IsShut, IsUnsure, IsWhole, MayRecover, StaysNear};
ghost use Rattle.amo_journal.specs.Logs.{checksums_from, checksums_of, records_of};
ghost use Rattle.amo_journal.specs.Texts.{blocks, texts_in, IsOneLine};

use crate::checksum::Checksum;
use crate::journal::RecoverError;
use crate::log::{Log, read_log};
use crate::{Device, DeviceError};
use std::alloc::Global;

/// Writes, and syncs.
pub(crate) fn write_and_sync<D: Device>(
    device: &mut D,
    at: usize,
    bytes: &[u8],
) -> Result<(), DeviceError>
    requires { at ≤ length (D.seen device.old) }
    ensures written { OnOk result (Holds (D.seen device.old) at bytes.now (D.seen device.new)) }
    ensures front { WritesFront (D.seen device.old) at bytes.now (D.seen device.new) }
    ensures crash { (c : List ℕ) → D.may_leave device.new c → TornFrom at (length bytes.now) (D.seen device.new) (D.may_leave device.old) c }
    ensures durable { OnOk result ((c : List ℕ) → D.may_leave device.new c
        → AgreesBut (λ i. D.stale device.old i × IsOutside at (length bytes.now) i) (D.seen device.new) c) }
    ensures fresh { OnOk result ((i : ℕ) → D.stale device.new i → D.stale device.old i × IsOutside at (length bytes.now) i) }
    ensures stale { (i : ℕ) → D.stale device.new i
        → (D.stale device.old i) ⊎ (Differs (TornFrom at (length bytes.now) (D.seen device.new) (D.may_leave device.old)) (D.seen device.new) i) }
    ensures any_moment { LeavesOnly D.moment D.left_since device.old device.new
        (TornFrom at (length bytes.now) (D.seen device.new) (D.may_leave device.old)) }
    ensures cause { HasCause (D.faults device.old) (D.faults device.new) result }
{
    device.write_at(at, bytes)?;
    device.sync()
}

/// Cuts to a length, and syncs.
pub(crate) fn cut_and_sync<D: Device>(device: &mut D, len: usize) -> Result<(), DeviceError>
    requires { len ≤ length (D.seen device.old) }
    ensures cut { OnOk result (D.seen device.new ≡ take len (D.seen device.old)) }
    ensures front { Cut len (D.seen device.old) (D.seen device.new) }
    ensures crash { (c : List ℕ) → D.may_leave device.new c → CutFrom len (D.may_leave device.old) c }
    ensures durable { OnOk result ((c : List ℕ) → D.may_leave device.new c
        → AgreesBut (λ i. D.stale device.old i × (i < len)) (D.seen device.new) c) }
    ensures fresh { OnOk result ((i : ℕ) → D.stale device.new i → D.stale device.old i × (i < len)) }
    ensures stale { (i : ℕ) → D.stale device.new i
        → (D.stale device.old i) ⊎ (Differs (CutFrom len (D.may_leave device.old)) (D.seen device.new) i) }
    ensures any_moment { LeavesOnly D.moment D.left_since device.old device.new (CutFrom len (D.may_leave device.old)) }
    ensures cause { HasCause (D.faults device.old) (D.faults device.new) result }
{
    device.cut(len)?;
    device.sync()
}

/// Adds a line after the closed gate, and opens that gate. At `Ok` each crash leaves a file that
/// has the line.
pub(crate) fn append_line<D: Device>(
    device: &mut D,
    alloc: Global,
    gate: usize,
    line: &[u8],
) -> Result<(), DeviceError>
    requires at_rest { IsAtRest D.seen D.may_leave D.stale device.old }
    requires gate { gate ≡ length (blocks (texts_in (D.seen device.old))) }
    requires one_line { IsOneLine line.now }
    requires short { length line.now + 2 ≤ longest }
    requires fits { gate < 2 ^ 60 }
    ensures at_rest { OnOk result (IsAtRest D.seen D.may_leave D.stale device.new) }
    ensures acknowledged { OnOk result (texts_in (D.seen device.new) ≡ texts_in (D.seen device.old) ++ line.now ∷ []) }
    ensures any_moment { LeavesOnly D.moment D.left_since device.old device.new (IsBeforeOrAfter (texts_in (D.seen device.old)) line.now) }
    ensures read { IsBeforeOrAfter (texts_in (D.seen device.old)) line.now (D.seen device.new) }
    ensures again { OnErr result (MayRecover D.seen D.may_leave D.stale device.new) }
    ensures whole { LeavesOnly D.moment D.left_since device.old device.new IsWhole }
    ensures whole_after { AllWhole (D.may_leave device.new) }
    ensures whole_read { IsWhole (D.seen device.new) }
    ensures failed { IsErrOf result DeviceError.Failed → D.faults device.old < D.faults device.new }
{
    let behind = behind_gate(alloc, line)?;
    write_and_sync(device, gate + 1, &behind)?;
    write_and_sync(device, gate, b"+")
}

/// Returns the bytes that are written after a closed gate: the line, its line feed, and the next
/// closed gate.
pub(crate) fn behind_gate(alloc: Global, line: &[u8]) -> Result<Vec<u8>, DeviceError>
    ensures bytes { IfOk result (λ bytes. bytes.items ≡ line.now ++ 10 ∷ 45 ∷ []) }
    ensures memory { IsErrOf result DeviceError.Failed → ⊥ }
{
    let mut bytes = line.to_vec(alloc)?;
    bytes.extend_from_slice(b"\n-")?;
    Ok(bytes)
}

/// Writes the last gate again, the same byte, and syncs, if there is a text. `last` is the length
/// of the last one. From then on each crash leaves the texts.
pub(crate) fn open_again<D: Device>(
    device: &mut D,
    last: Option<usize>,
    end: usize,
) -> Result<(), DeviceError>
    requires settle { MayRecover D.seen D.may_leave D.stale device.old }
    requires last { IfSome last (λ n. HasLast n (texts_in (D.seen device.old))) }
    requires none { IfNone last (texts_in (D.seen device.old) ≡ []) }
    requires end { end ≡ length (blocks (texts_in (D.seen device.old))) }
    ensures seen { D.seen device.new ≡ D.seen device.old }
    ensures kept { OnOk result ((c : List ℕ) → D.may_leave device.new c → texts_in c ≡ texts_in (D.seen device.old)) }
    ensures fresh { OnOk result ((i : ℕ) → D.stale device.new i → length (blocks (texts_in (D.seen device.old))) ≤ i) }
    ensures again { MayRecover D.seen D.may_leave D.stale device.new }
    ensures any_moment { LeavesOnly D.moment D.left_since device.old device.new
        (StaysNear (D.may_leave device.old) (texts_in (D.seen device.old))) }
    ensures whole { AllWhole (D.may_leave device.old) → LeavesOnly D.moment D.left_since device.old device.new IsWhole × AllWhole (D.may_leave device.new) }
    ensures cause { HasCause (D.faults device.old) (D.faults device.new) result }
{
    let Some(last) = last else {
        return Ok(());
    };
    write_and_sync(device, end - (last + 2), b"+")
}

/// Returns how many bytes of a file a cut keeps: those of its blocks, and one more if there is one.
fn kept_len(end: usize, len: usize) -> usize
    ensures near { end ≤ len → (end ≤ result) × (result ≤ end + 1) }
    ensures within { result ≤ len }
    ensures some { 1 ≤ len → 1 ≤ result }
{
    if end < len { end + 1 } else { len }
}

/// Cuts the bytes after the blocks, and closes the gate there. The cut must be on the disk first:
/// if the gate were torn open, those bytes would count. A byte in the place of that gate stays
/// until it is written over, so that the file is never left without one.
pub(crate) fn close_end<D: Device>(
    device: &mut D,
    end: usize,
    len: usize,
) -> Result<(), DeviceError>
    requires kept { (c : List ℕ) → D.may_leave device.old c → texts_in c ≡ texts_in (D.seen device.old) }
    requires fresh { (i : ℕ) → D.stale device.old i → length (blocks (texts_in (D.seen device.old))) ≤ i }
    requires end { end ≡ length (blocks (texts_in (D.seen device.old))) }
    requires len { len ≡ length (D.seen device.old) }
    ensures same { texts_in (D.seen device.new) ≡ texts_in (D.seen device.old) }
    ensures some { 1 ≤ length (D.seen device.old) → 1 ≤ length (D.seen device.new) }
    ensures at_rest { OnOk result (IsAtRest D.seen D.may_leave D.stale device.new) }
    ensures again { OnErr result (MayRecover D.seen D.may_leave D.stale device.new) }
    ensures any_moment { LeavesOnly D.moment D.left_since device.old device.new (λ c. texts_in c ≡ texts_in (D.seen device.old)) }
    ensures whole { IsWhole (D.seen device.old) → AllWhole (D.may_leave device.old)
        → LeavesOnly D.moment D.left_since device.old device.new IsWhole × AllWhole (D.may_leave device.new) }
    ensures cause { HasCause (D.faults device.old) (D.faults device.new) result }
{
    cut_and_sync(device, kept_len(end, len))?;
    write_and_sync(device, end, b"-")
}

/// Recovers a file, and returns its appends and their end, the place of the closed gate. A file
/// that is damaged is left as it is.
pub(crate) fn recover_file<D: Device>(
    device: &mut D,
    alloc: Global,
    first: &Checksum,
) -> Result<Log, RecoverError>
    requires { MayRecover D.seen D.may_leave D.stale device.old }
    ensures log { IfOk result (λ log. IsLog first.now.digits (records_of log.records.items) (D.seen device.old)) }
    ensures checksums { IfOk result (λ log. checksums_of log.checksums.items ≡ checksums_from first.now.digits (records_of log.records.items)) }
    ensures end { IfOk result (λ log. log.end ≡ length (blocks (texts_in (D.seen device.old)))) }
    ensures refused { IfErr result (λ error. IsCause error first.now.digits (D.seen device.old)) }
    ensures untouched { IfErr result (λ error. IsDamage error → (D.seen device.new ≡ D.seen device.old)
        × ((c : List ℕ) → D.may_leave device.new c → D.may_leave device.old c)) }
    ensures same { texts_in (D.seen device.new) ≡ texts_in (D.seen device.old) }
    ensures some { 1 ≤ length (D.seen device.old) → 1 ≤ length (D.seen device.new) }
    ensures at_rest { OnOk result (IsAtRest D.seen D.may_leave D.stale device.new) }
    ensures again { OnErr result (MayRecover D.seen D.may_leave D.stale device.new) }
    ensures any_moment { LeavesOnly D.moment D.left_since device.old device.new
        (StaysNear (D.may_leave device.old) (texts_in (D.seen device.old))) }
    ensures whole { AllWhole (D.may_leave device.old) → LeavesOnly D.moment D.left_since device.old device.new IsWhole × AllWhole (D.may_leave device.new) }
    ensures failed { IsErrOf result (RecoverError.Device DeviceError.Failed) → D.faults device.old < D.faults device.new }
{
    let bytes = device.read(alloc)?;
    let log = read_log(alloc, first, &bytes)?;
    open_again(device, log.last_line(), log.end)?;
    close_end(device, log.end, bytes.len())?;
    Ok(log)
}
