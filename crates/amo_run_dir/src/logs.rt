//! Reading of the journals of a run: each by its checksums, and by what the last round's header
//! counts.
use crate::files::opened_to_read;
use crate::identity::first_checksum;
use crate::round::record_of;
use amo_journal::{Checksum, Log, Place};
use amo_run_faults::{Fault, Item, Loss, Setting, had};
use amo_run_files::{Count, Extent, RoundFile};
use amo_run_journals::{Unread, checked_log, extent_in};
use amo_system_calls::SystemCalls;
use std::alloc::Global;

/// How often a journal is read again if it looks damaged and its writer goes on meanwhile.
pub(crate) const LOOKS: u32 = 100;

/// Reads a journal, which was made with the run's id. `last` is the file of the last round, which
/// the caller has read before. A writer may be at work: so a journal that would be refused is read
/// again. It is refused if the next read gives the same reason and begins with the same bytes, or
/// after `LOOKS` more reads.
///
/// # Errors
/// `Missing` if it isn't there, or if it has appends and no round was begun. `Empty` if it has no
/// byte. `Damaged` if it is damaged. `Lost` if appends are gone that were on the disk when the last
/// round began.
pub fn log_of<S: SystemCalls>(
    system: &mut S,
    setting: &Setting<'_>,
    item: Item,
    last: Option<&RoundFile>,
) -> Result<Log, Fault> {
    let first = first_checksum(system, setting, item)?;
    let counted = counted_in(system.alloc(), item, last)?;
    match look_at_log(system, setting, item, first, counted)? {
        Look::Read(log, _) => begun(system, setting, last, log),
        Look::Refused(why, _) => Err(fault_of(item, why, counted, last)),
    }
}

/// Reads a journal as [`log_of`] does, by a handle of its file. `last` is the file of the last
/// round, which the caller has read before. Returns the place of its last append too, from which it
/// is read on.
///
/// # Errors
/// As [`log_of`], but `Missing` only of the round's file.
pub(crate) fn log_in<S: SystemCalls>(
    system: &mut S,
    setting: &Setting<'_>,
    item: Item,
    last: Option<&RoundFile>,
    file: &S::Handle,
) -> Result<(Log, Place), Fault> {
    let first = first_checksum(system, setting, item)?;
    let counted = counted_in(system.alloc(), item, last)?;
    match look_in(system, item, file, first, counted)? {
        Look::Read(log, place) => Ok((begun(system, setting, last, log)?, place)),
        Look::Refused(why, _) => Err(fault_of(item, why, counted, last)),
    }
}

/// The result of a look at a journal.
#[derive(Drop)]
pub enum Look {
    /// It was read. The place is that of its last append.
    Read(Log, Place),
    /// It isn't read, for this reason; these are its bytes.
    Refused(Unread, Vec<u8>),
}

/// Reads a journal, and once more as long as it would be refused and shows other bytes. `first` is
/// the checksum that stands before its first append, and `counted` what the file of the last round
/// counts of it.
///
/// # Errors
/// `Missing` if it isn't there, `Empty` if it has no byte, and `Read`.
pub fn look_at_log<S: SystemCalls>(
    system: &mut S,
    setting: &Setting<'_>,
    item: Item,
    first: Checksum,
    counted: Option<Count>,
) -> Result<Look, Fault> {
    match opened_to_read(system, setting, item)? {
        Some(file) => look_in(system, item, &file, first, counted),
        None => Err(Fault::Missing(item)),
    }
}

/// Reads a journal as [`look_at_log`] does, by a handle of its file.
///
/// # Errors
/// `Empty` if it has no byte, and `Read`.
fn look_in<S: SystemCalls>(
    system: &mut S,
    item: Item,
    file: &S::Handle,
    first: Checksum,
    counted: Option<Count>,
) -> Result<Look, Fault> {
    let mut bytes = whole_of(system, item, file)?;
    let mut read = checked_log(system.alloc(), first, counted, &bytes);
    for _look in 0..LOOKS {
        let Err(why) = read else {
            break;
        };
        let again = whole_of(system, item, file)?;
        let next = checked_log(system.alloc(), first, counted, &again);
        if is_same(&bytes, why, &again, &next) {
            break;
        }
        bytes = again;
        read = next;
    }
    match read {
        Ok((log, place)) => Ok(Look::Read(log, place)),
        Err(why) => Ok(Look::Refused(why, bytes)),
    }
}

/// Returns the log, unless it has appends and no round was begun. Reads the round's file again
/// before it refuses: the first round may have been begun meanwhile.
fn begun<S: SystemCalls>(
    system: &mut S,
    setting: &Setting<'_>,
    last: Option<&RoundFile>,
    log: Log,
) -> Result<Log, Fault> {
    if last.is_some() || log.records.is_empty() || record_of(system, setting)?.is_some() {
        return Ok(log);
    }
    Err(Fault::Missing(Item::Record))
}

/// Returns what the file of the last round counts of a journal, if there is a round.
///
/// # Errors
/// `Refused` if it counts nothing of it, and `Memory`.
pub fn counted_in(
    alloc: Global,
    item: Item,
    last: Option<&RoundFile>,
) -> Result<Option<Count>, Fault> {
    let Some(last) = last else {
        return Ok(None);
    };
    let name = format!(in alloc; "{item}")?;
    let Some(extent) = extent_in(&last.extents, name.as_bytes()) else {
        return Err(Fault::Refused(Item::Record));
    };
    match extent.count() {
        Some(count) => Ok(Some(count)),
        None => Err(Fault::Refused(Item::Record)),
    }
}

/// Returns how much of a journal with these checksums is on the disk, whatever a crash takes from
/// now on: all appends but the last.
pub(crate) fn extent_of<S: SystemCalls>(
    system: &mut S,
    setting: &Setting<'_>,
    item: Item,
    checksums: &[Checksum],
) -> Result<Extent, Fault> {
    let first = first_checksum(system, setting, item)?;
    let name = format!(in system.alloc(); "{item}")?;
    let count = Count::of(first, checksums);
    Ok(Extent::of_count(system.alloc(), name.as_bytes(), &count)?)
}

/// Returns true if a second read of a journal was refused as the first one was, and shows the same
/// bytes.
fn is_same(bytes: &[u8], why: Unread, again: &[u8], next: &Result<(Log, Place), Unread>) -> bool {
    match next {
        Err(other) => *other == why && again.starts_with(bytes),
        Ok(_) => false,
    }
}

/// Returns the fault of a journal that isn't read for this reason. `last` is the file of the last
/// round, and `counted` what it counts of the journal.
pub fn fault_of(
    item: Item,
    why: Unread,
    counted: Option<Count>,
    last: Option<&RoundFile>,
) -> Fault {
    let (counted, round) = match (counted, last) {
        (Some(count), Some(last)) => (count.appends, last.header.round),
        _ => (0, 0),
    };
    match why {
        Unread::Memory => Fault::Memory,
        Unread::Damaged(number, kind) => Fault::Damaged(item, number, kind),
        Unread::Fewer(has) => Fault::Lost(
            item,
            Loss::Fewer {
                has,
                counted,
                round,
            },
        ),
        Unread::Other => Fault::Lost(
            item,
            Loss::Other {
                number: counted,
                round,
            },
        ),
    }
}

/// Returns the bytes of a journal.
///
/// # Errors
/// `Empty` if the file has no byte, and `Read`.
fn whole_of<S: SystemCalls>(
    system: &mut S,
    item: Item,
    file: &S::Handle,
) -> Result<Vec<u8>, Fault> {
    let bytes = had(item, system.read_from(file, 0))?;
    if bytes.is_empty() {
        return Err(Fault::Empty(item));
    }
    Ok(bytes)
}
