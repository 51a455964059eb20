//! Reading on in a journal that other processes append to.
//!
//! The last append that was read can vanish after a failed sync, and another one of the same length
//! can take its place. So a reader reads it once more before it reads on. The length of a file says
//! nothing of that.
ghost use Rattle.std.specs.Prelude.{◌≡◌, ◌≢◌, ◌⊎◌, ◌≤◌, ◌<◌, ◌+◌, ◌^◌, ◌++◌, [], ℕ, List, true, false, length, IfOk, IfErr, IfSome, IfNone};
ghost use Rattle.amo_journal.specs.Appends.{appends, IsLog};
ghost use Rattle.amo_journal.specs.Following.{error_behind, file_with, IsPlace, IsReasonThere, NumberFits};
ghost use Rattle.amo_journal.specs.Logs.{checksums_from, checksums_of, records_of, IsReason};

use crate::checksum::Checksum;
use crate::log::{DamageKind, Log, ReadError, read_log};
use std::alloc::{AllocError, AllocFailed, Global};
use thiserror::Error;

/// The place of a reader in a journal: at the last append that it read.
#[derive(Drop)]
pub struct Place {
    /// How many appends were read.
    count: usize,
    /// Where the last of them begins, in bytes.
    start: usize,
    /// Its bytes, from its commit byte to its line feed. Empty if no append was read.
    append: Vec<u8>,
    /// Its checksum, or else that before the first append.
    checksum: Checksum,
}

/// Why a journal wasn't read on.
#[derive(Clone, Copy, Debug, PartialEq, Eq, Drop, Error)]
pub enum ReadOnError {
    /// There was no memory.
    #[error("out of memory")]
    Memory,
    /// The file has more bytes than 64 bits can count.
    #[error("the file is too long")]
    TooLong,
    /// The last append that was read stands there no longer.
    #[error("the last append that was read has changed")]
    Changed,
    /// The journal is damaged at the append of this number, counted from 1.
    #[error("append {number}: {kind}")]
    Damaged { number: usize, kind: DamageKind },
}

impl From<AllocError> for ReadOnError {
    ghost use Rattle.amo_journal.specs.declared.follow.ReadOnError.TheVariants.{Memory};

    ghost from_gives = { λ _ e. e ≡ Memory };

    fn from(_: AllocError) -> Self {
        ReadOnError::Memory
    }
}

impl<T: Drop> From<AllocFailed<T>> for ReadOnError {
    ghost use Rattle.amo_journal.specs.declared.follow.ReadOnError.TheVariants.{Memory};

    ghost from_gives = { λ _ e. e ≡ Memory };

    fn from(_: AllocFailed<T>) -> Self {
        ReadOnError::Memory
    }
}

impl Place {
    /// Returns the place before the first append. `first` is the checksum that stands there.
    pub fn new(alloc: Global, first: &Checksum) -> Self
        ensures { IsPlace first.now.digits [] result }
    {
        Place {
            count: 0,
            start: 0,
            append: Vec::new(alloc),
            checksum: *first,
        }
    }

    /// Returns the number of bytes before the last append. The file is read on from there.
    pub fn start(&self) -> usize
        ensures { result ≡ self.now.start }
    {
        self.start
    }

    /// Returns true if 64 bits can count so many bytes from here on.
    fn can_count(&self, bytes: usize) -> bool
        ensures yes { result ≡ true → (self.now.start + bytes < 2 ^ 64) × (self.now.count + bytes < 2 ^ 64) }
        ensures no { result ≡ false → (2 ^ 64 ≤ self.now.start + bytes) ⊎ (2 ^ 64 ≤ self.now.count + bytes) }
    {
        self.start.checked_add(bytes).is_some() && self.count.checked_add(bytes).is_some()
    }

    /// Returns the place of the last append once these bytes, which follow the append of this
    /// place, were read as this log.
    fn moved(&self, alloc: Global, log: &Log, rest: &[u8]) -> Result<Place, AllocError>
        requires is { IsLog self.now.checksum.digits (records_of log.now.records.items) rest.now }
        requires checksums { checksums_of log.now.checksums.items ≡ checksums_from self.now.checksum.digits (records_of log.now.records.items) }
        requires end { log.now.end ≡ length (appends self.now.checksum.digits (records_of log.now.records.items)) }
        requires start { self.now.start + (length self.now.append.items + length rest.now) < 2 ^ 64 }
        requires count { self.now.count + length rest.now < 2 ^ 64 }
        ensures { IfOk result (λ place. (first : List ℕ) (all : List (List ℕ)) → IsPlace first all self.now → IsPlace first (all ++ records_of log.now.records.items) place) }
    {
        let Some(line) = log.last_line() else {
            return Ok(Place {
                count: self.count,
                start: self.start,
                append: self.append.to_vec(alloc)?,
                checksum: self.checksum,
            });
        };
        let at = log.end - (line + 2);
        Ok(Place {
            count: self.count + log.records.len(),
            start: self.start + self.append.len() + at,
            append: rest[at..log.end].to_vec(alloc)?,
            checksum: log.last_checksum(self.checksum),
        })
    }
}

/// Reads a whole journal as `read_log` does. It returns the place of the last append too.
///
/// # Errors
///
/// The errors of `read_log`.
pub fn read_whole(alloc: Global, first: &Checksum, bytes: &[u8]) -> Result<(Log, Place), ReadError>
    ensures exact { IfOk result (λ read. IsLog first.now.digits (records_of read.0.records.items) bytes.now) }
    ensures checksums { IfOk result (λ read. checksums_of read.0.checksums.items ≡ checksums_from first.now.digits (records_of read.0.records.items)) }
    ensures end { IfOk result (λ read. read.0.end ≡ length (appends first.now.digits (records_of read.0.records.items))) }
    ensures place { IfOk result (λ read. IsPlace first.now.digits (records_of read.0.records.items) read.1) }
    ensures refused { IfErr result (λ error. IsReason error first.now.digits bytes.now) }
{
    let log = read_log(alloc, first, bytes)?;
    let place = Place::new(alloc, first).moved(alloc, &log, bytes)?;
    Ok((log, place))
}

/// Reads on: returns the appends after a place, and the place of the last append then. `bytes` are
/// those of the file from the start of the place on. The log's end counts from the file's first
/// byte.
///
/// # Errors
///
/// `Changed` if the bytes don't begin with the append of that place. `Damaged` if what follows is
/// not appends and then at most what a crash may leave. It names the first append of the file that
/// can't be read. `TooLong` if 64 bits can't count the file's bytes. `Memory` if there was no
/// memory.
pub fn read_on(alloc: Global, place: &Place, bytes: &[u8]) -> Result<(Log, Place), ReadOnError>
    ensures exact { IfOk result (λ read. (first : List ℕ) (all : List (List ℕ)) → IsPlace first all place.now → IsLog first (all ++ records_of read.0.records.items) (file_with first all bytes.now)) }
    ensures checksums { IfOk result (λ read. checksums_of read.0.checksums.items ≡ checksums_from place.now.checksum.digits (records_of read.0.records.items)) }
    ensures end { IfOk result (λ read. (first : List ℕ) (all : List (List ℕ)) → IsPlace first all place.now → read.0.end ≡ length (appends first (all ++ records_of read.0.records.items))) }
    ensures place { IfOk result (λ read. (first : List ℕ) (all : List (List ℕ)) → IsPlace first all place.now → IsPlace first (all ++ records_of read.0.records.items) read.1) }
    ensures refused { IfErr result (λ error. IsReasonThere error place.now bytes.now) }
{
    if !place.can_count(bytes.len()) {
        return Err(ReadOnError::TooLong);
    }
    let Some(rest) = behind(&place.append, bytes) else {
        return Err(ReadOnError::Changed);
    };
    let log = match read_log(alloc, &place.checksum, rest) {
        Ok(log) => log,
        Err(error) => return Err(error_there(place.count, error)),
    };
    let next = place.moved(alloc, &log, rest)?;
    let end = place.start + place.append.len() + log.end;
    Ok((
        Log {
            records: log.records,
            checksums: log.checksums,
            end,
        },
        next,
    ))
}

/// Returns the bytes after this append, if they begin with it.
fn behind<'a>(append: &[u8], bytes: &'a [u8]) -> Option<&'a [u8]>
    ensures found { IfSome result (λ rest. bytes.now ≡ append.now ++ rest.now) }
    ensures none { IfNone result ((rest : List ℕ) → bytes.now ≢ append.now ++ rest) }
{
    bytes.strip_prefix(append)
}

/// Returns the error of a file of which so many appends were read before.
fn error_there(count: usize, error: ReadError) -> ReadOnError
    requires { NumberFits count error }
    ensures { result ≡ error_behind count error }
{
    match error {
        ReadError::Memory => ReadOnError::Memory,
        ReadError::Damaged { number, kind } => ReadOnError::Damaged {
            number: count + number,
            kind,
        },
    }
}
