//! Reading the appends of a journal from its bytes. It writes nothing.
ghost use Rattle.std.specs.Prelude.{◌≡◌, ◌≢◌, ◌+◌, [], ◌∷◌, ◌++◌, ◌<◌, ◌^◌, ℕ, List, true, false, length, IfOk, IfErr, IfSome, IfNone};
ghost use Rattle.amo_journal.specs.Appends.{appends, line_of, next_checksum, IsCutOff, IsCutOffAppend, IsLog, IsNextByte, IsWrong};
ghost use Rattle.amo_journal.specs.Logs.{checksums_from, checksums_of, records_of, IsReason};
ghost use Rattle.amo_journal.specs.Texts.{IsOneLine};
ghost use Rattle.amo_journal.specs.declared.log.ReadError.TheVariants.{Damaged};

use crate::checksum::Checksum;
use crate::reading::{first_block, first_line};
use std::alloc::{AllocError, AllocFailed, Global};
use thiserror::Error;

/// The kind of damage that a journal has.
#[derive(Clone, Copy, Debug, PartialEq, Eq, Error)]
pub enum DamageKind {
    /// The byte before the append is no commit byte.
    #[error("the byte before it is no commit byte")]
    CommitByte,
    /// The append is committed, and isn't whole.
    #[error("it is committed, and isn't whole")]
    Unfinished,
    /// The append's checksum doesn't continue that of the append before.
    #[error("its checksum doesn't fit")]
    Checksum,
    /// More follows the closed commit byte than an append that a crash cut off.
    #[error("more follows than an append that was cut off")]
    Surplus,
}

/// Why a journal wasn't read.
#[derive(Clone, Copy, Debug, PartialEq, Eq, Drop, Error)]
pub enum ReadError {
    /// There was no memory.
    #[error("out of memory")]
    Memory,
    /// The journal is damaged at the append of this number, counted from 1.
    #[error("append {number}: {kind}")]
    Damaged { number: usize, kind: DamageKind },
}

impl From<AllocError> for ReadError {
    ghost use Rattle.amo_journal.specs.declared.log.ReadError.TheVariants.{Memory};

    ghost from_gives = { λ _ e. e ≡ Memory };

    fn from(_: AllocError) -> Self {
        ReadError::Memory
    }
}

impl<T: Drop> From<AllocFailed<T>> for ReadError {
    ghost use Rattle.amo_journal.specs.declared.log.ReadError.TheVariants.{Memory};

    ghost from_gives = { λ _ e. e ≡ Memory };

    fn from(_: AllocFailed<T>) -> Self {
        ReadError::Memory
    }
}

/// The appends of a journal, and their end.
#[derive(Drop)]
pub struct Log {
    /// The records of each append, the first append first: one line, without its checksum.
    pub records: Vec<Vec<u8>>,
    /// The checksum of each append.
    pub checksums: Vec<Checksum>,
    /// How many bytes the appends have. At most what a crash left of one more follows.
    pub end: usize,
}

impl Log {
    /// Returns how many bytes the line of the last append has, if there is an append.
    pub(crate) fn last_line(&self) -> Option<usize>
        ensures some { IfSome result (λ n. (before : List (List ℕ)) × (last : List ℕ) × (records_of self.now.records.items ≡ before ++ last ∷ []) × (n ≡ length last + 9)) }
        ensures none { IfNone result (records_of self.now.records.items ≡ []) }
    {
        match self.records.last() {
            Some(records) => Some(records.len() + LINE_END),
            None => None,
        }
    }

    /// Returns the checksum of the last append, or else that before the first one.
    pub(crate) fn last_checksum(&self, first: Checksum) -> Checksum
        ensures some { (before : List (List ℕ)) (last : List ℕ) → checksums_of self.now.checksums.items ≡ before ++ last ∷ [] → result.digits ≡ last }
        ensures none { checksums_of self.now.checksums.items ≡ [] → result.digits ≡ first.digits }
    {
        match self.checksums.last() {
            Some(checksum) => *checksum,
            None => first,
        }
    }
}

/// The most bytes of an append after its commit byte, with its line feed and the commit byte that
/// is written with it.
pub(crate) const LONGEST: usize = 1024;

/// How many bytes a line has after its records: a blank, and the checksum.
pub(crate) const LINE_END: usize = 9;

/// Reads the appends of a journal from its bytes. `first` is the checksum that stands before the
/// first one.
///
/// # Errors
///
/// `Damaged` if the bytes are not appends and then at most what a crash may leave. It names the
/// first append that can't be read. `Memory` if there was no memory.
pub fn read_log(alloc: Global, first: &Checksum, bytes: &[u8]) -> Result<Log, ReadError>
    ensures exact { IfOk result (λ log. IsLog first.now.digits (records_of log.records.items) bytes.now) }
    ensures checksums { IfOk result (λ log. checksums_of log.checksums.items ≡ checksums_from first.now.digits (records_of log.records.items)) }
    ensures end { IfOk result (λ log. log.end ≡ length (appends first.now.digits (records_of log.records.items))) }
    ensures refused { IfErr result (λ error. IsReason error first.now.digits bytes.now) }
{
    let mut all = Vec::new(alloc);
    let mut checksums = Vec::new(alloc);
    let mut last = *first;
    let mut rest = bytes;
    while let Some((line, behind)) = first_block(rest) {
        let Some((records, next)) = records_in(&last, line) else {
            return Err(damaged(all.len(), DamageKind::Checksum));
        };
        all.push(records.to_vec(alloc)?)?;
        checksums.push(next)?;
        last = next;
        rest = behind;
    }
    match wrong_end(rest) {
        Some(kind) => Err(damaged(all.len(), kind)),
        None => Ok(Log {
            end: bytes.len() - rest.len(),
            records: all,
            checksums,
        }),
    }
}

/// Returns the error of a journal that is damaged after so many appends.
fn damaged(appends: usize, kind: DamageKind) -> ReadError
    requires { appends < 2 ^ 63 }
    ensures { result ≡ Damaged (appends + 1) kind }
{
    ReadError::Damaged {
        number: appends + 1,
        kind,
    }
}

/// Returns the records of a line, and its checksum, if that continues the one before.
fn records_in<'a>(before: &Checksum, line: &'a [u8]) -> Option<(&'a [u8], Checksum)>
    ensures found { IfSome result (λ x. line.now ≡ line_of before.now.digits x.0.now) }
    ensures checksum { IfSome result (λ x. x.1.digits ≡ next_checksum before.now.digits x.0.now) }
    ensures none { IfNone result ((records : List ℕ) → line.now ≢ line_of before.now.digits records) }
{
    if line.len() < LINE_END {
        return None;
    }
    let at = line.len() - LINE_END;
    let records = &line[..at];
    let next = before.next(records);
    if line[at] == b' ' && &line[at + 1..] == next.digits() {
        Some((records, next))
    } else {
        None
    }
}

/// Returns the kind of damage in the bytes that follow the last append, if there is damage.
fn wrong_end(rest: &[u8]) -> Option<DamageKind>
    requires { (line : List ℕ) → rest.now ≡ 43 ∷ line → IsOneLine line }
    ensures none { IfNone result (IsCutOff rest.now) }
    ensures some { IfSome result (λ kind. (checksum : List ℕ) → IsWrong kind checksum rest.now) }
{
    match rest {
        [b'+', ..] => Some(DamageKind::Unfinished),
        [] | [_] => None,
        [b'-', behind @ ..] if is_cut_off_append(behind) => None,
        [b'-', ..] => Some(DamageKind::Surplus),
        _ => Some(DamageKind::CommitByte),
    }
}

/// Returns true if a crash may have left these bytes after a closed commit byte.
#[tactic(auto, using(crate::proofs::Splits::next_of))]
fn is_cut_off_append(bytes: &[u8]) -> bool
    ensures yes { result ≡ true → IsCutOffAppend bytes.now }
    ensures no { result ≡ false → IsCutOffAppend bytes.now → ⊥ }
{
    let ends = match first_line(bytes) {
        None => true,
        Some((_, next)) => is_next_byte(next),
    };
    ends && bytes.len() <= LONGEST
}

/// Returns true if a crash may have left these bytes of the commit byte after an append.
fn is_next_byte(next: &[u8]) -> bool
    ensures yes { result ≡ true → IsNextByte next.now }
    ensures no { result ≡ false → IsNextByte next.now → ⊥ }
{
    matches!(next, [] | [b'-' | 0])
}
