//! Reading of a journal from its bytes: by its checksums, and by what the last round's header
//! counts.
ghost use Rattle.std.specs.Prelude.{◌≡◌, ◌<◌, ◌≤◌, IfNone, IfSome, IfOk, IfErr, option_map};
ghost use Rattle.amo_journal.specs.Appends.{IsLog};
ghost use Rattle.amo_journal.specs.Following.{IsPlace};
ghost use Rattle.amo_journal.specs.Logs.{checksums_from, checksums_of, records_of};
ghost use Rattle.amo_run_journals.specs.Extents.{extent_named};
ghost use Rattle.amo_run_journals.specs.Logs.{IsKept, IsWhyLost, IsWhyUnread, Keeps};
ghost use Rattle.amo_run_journals.specs.declared.logs.Unread.TheVariants.{Fewer, Other};

use amo_journal::{Checksum, DamageKind, Log, Place, ReadError, read_whole};
use amo_run_files::{Count, Extent};
use std::alloc::Global;

/// Why a journal isn't read.
#[derive(Clone, Copy, PartialEq, Eq)]
pub enum Unread {
    /// There was no memory.
    Memory,
    /// It is damaged at the append of this number, from 1.
    Damaged(usize, DamageKind),
    /// It has so many appends, and fewer than were counted.
    Fewer(usize),
    /// The last append that was counted is another one.
    Other,
}

/// Returns the extent of the file of this name, if there is one.
pub fn extent_in<'a>(extents: &'a [Extent], name: &[u8]) -> Option<&'a Extent>
    ensures { option_map (λ extent. extent.now) result ≡ extent_named name.now extents.now }
{
    for extent in extents {
        if extent.name.as_slice() == name {
            return Some(extent);
        }
    }
    None
}

/// Reads a journal from its bytes, and compares it with what was counted. Returns the place of its
/// last append too. `first` is the checksum that stands before its first append.
///
/// # Errors
/// `Damaged` with the number of the append that is damaged, `Fewer` or `Other` if the journal lacks
/// an append that was counted, and `Memory`.
pub fn checked_log(
    alloc: Global,
    first: Checksum,
    counted: Option<Count>,
    bytes: &[u8],
) -> Result<(Log, Place), Unread>
    ensures log { IfOk result (λ read. IsLog first.digits (records_of read.0.records.items) bytes.now) }
    ensures checksums { IfOk result (λ read. checksums_of read.0.checksums.items ≡ checksums_from first.digits (records_of read.0.records.items)) }
    ensures place { IfOk result (λ read. IsPlace first.digits (records_of read.0.records.items) read.1) }
    ensures kept { IfOk result (λ read. Keeps counted first.digits (records_of read.0.records.items)) }
    ensures refused { IfErr result (λ why. IsWhyUnread why counted first.digits bytes.now) }
{
    let (log, place) = match read_whole(alloc, &first, bytes) {
        Ok(both) => both,
        Err(ReadError::Memory) => return Err(Unread::Memory),
        Err(ReadError::Damaged { number, kind }) => return Err(Unread::Damaged(number, kind)),
    };
    match loss_in(first, counted, &log.checksums) {
        Some(why) => Err(why),
        None => Ok((log, place)),
    }
}

/// Returns the reason why a journal with these checksums isn't read, if it lacks a counted append.
pub fn loss_in(first: Checksum, counted: Option<Count>, checksums: &[Checksum]) -> Option<Unread>
    ensures none { IfNone result (IsKept counted first.digits (checksums_of checksums.now)) }
    ensures some { IfSome result (λ why. IsWhyLost why counted first.digits (checksums_of checksums.now)) }
{
    match counted {
        Some(count) if !count.is_kept_by(first, checksums) => {
            Some(loss_of(&count, checksums.len()))
        }
        _ => None,
    }
}

/// Returns the loss of a journal of so many appends that doesn't keep a count.
fn loss_of(count: &Count, appends: usize) -> Unread
    ensures fewer { appends < count.now.appends → result ≡ Fewer appends }
    ensures other { count.now.appends ≤ appends → result ≡ Other }
{
    if (appends as u64) < count.appends {
        Unread::Fewer(appends)
    } else {
        Unread::Other
    }
}
