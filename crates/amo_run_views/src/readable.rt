//! The view of a run that is refused: the readable part of each file, and its fault. It writes
//! nothing, and takes nothing for granted but the run's id.
ghost use Rattle.std.specs.Prelude.{◌≡◌, ◌≢◌, ◌⊎◌, ◌-◌, ◌≤◌, ◌==◌, [], Ok, Err, Some, None, true, false, count_by, length, slice_get, take};
ghost use Rattle.amo_run_faults.specs.declared.error.Fault.{Fault as FaultView};
ghost use Rattle.amo_run_faults.specs.declared.error.Fault.TheVariants.{Memory};
ghost use Rattle.amo_run_views.specs.Wrong.{IsWell};

use amo_journal::{Checksum, read_log};
use amo_params::MAX_WORKERS;
use amo_run_dir::{
    Look, counted_in, fault_of, first_checksum, known, len_of, look_at_log, record_of,
};
use amo_run_faults::{Fault, Item, Setting};
use amo_run_files::{Jobs, RoundFile};
use amo_run_journals::Unread;
use amo_system_calls::SystemCalls;
use std::alloc::Global;

/// The readable part of the files of a run.
#[derive(Drop)]
pub(crate) struct DamagedRun {
    /// The fault of the file of the last round, if it has one.
    pub wrong_record: Option<Fault>,
    /// The lines, if they can be read.
    pub jobs: Option<Jobs>,
    /// The fault of the lines' file, if it has one.
    pub wrong_jobs: Option<Fault>,
    /// The operators' answers.
    pub answers: ReadableLog,
    /// The journals of the workers 1, 2 and so on.
    pub journals: Vec<ReadableLog>,
}

/// The readable part of a journal.
#[derive(Drop)]
pub(crate) struct ReadableLog {
    /// The records of each append that can be read.
    pub records: Vec<Vec<u8>>,
    /// The fault of the file, if it has one.
    pub wrong: Option<Fault>,
}

impl DamagedRun {
    /// Returns true if something is wrong with one of the files.
    pub(crate) fn is_damaged(&self) -> bool
        ensures well { result ≡ false → IsWell self.now }
        ensures wrong { result ≡ true → IsWell self.now → ⊥ }
    {
        let is_journal = self.journals.iter().any(|log| log.wrong.is_some());
        is_journal
            || self.answers.wrong.is_some()
            || self.wrong_record.is_some()
            || self.wrong_jobs.is_some()
    }
}

/// Reads what can be read of a run's files: the file of the last round first, then the answers, the
/// journals and the jobs. A process may be at work: so what looks damaged is read once more.
///
/// # Errors
/// `NoId` if the folder has no id, `Refused` if it is malformed, `Memory`.
pub(crate) fn look_for_damage<S: SystemCalls>(
    system: &mut S,
    setting: &Setting<'_>,
) -> Result<DamagedRun, Fault> {
    first_checksum(system, setting, Item::Record)?;
    let (last, mut wrong_record) = parted(record_of(system, setting))?;
    let last = last.flatten();
    let answers = readable_log(system, setting, Item::Answers, last.as_ref())?;
    let mut journals = Vec::new(system.alloc());
    for worker in 1..=MAX_WORKERS as u64 {
        let item = Item::Journal(worker);
        journals.push(readable_log(system, setting, item, last.as_ref())?)?;
    }
    let has_records = !answers.records.is_empty()
        || journals.iter().any(|log| !log.records.is_empty());
    if has_records && last.is_none() && wrong_record.is_none() {
        wrong_record = Some(Fault::Missing(Item::Record));
    }
    let is_begun = last.is_some() || wrong_record.is_some();
    let (jobs, wrong_jobs) = parted(readable_jobs(system, setting, last.as_ref(), is_begun))?;
    Ok(DamagedRun {
        wrong_record,
        jobs,
        wrong_jobs,
        answers,
        journals,
    })
}

/// Reads the lines, which must be there if a round was begun.
fn readable_jobs<S: SystemCalls>(
    system: &mut S,
    setting: &Setting<'_>,
    last: Option<&RoundFile>,
    is_begun: bool,
) -> Result<Jobs, Fault> {
    if is_begun && len_of(system, setting, Item::Known)?.is_none() {
        return Err(Fault::Missing(Item::Known));
    }
    known(system, setting, last)
}

/// Returns the value, or the reason without one.
///
/// # Errors
///
/// `Memory` if that was the reason.
fn parted<T: Drop>(given: Result<T, Fault>) -> Result<(Option<T>, Option<Fault>), Fault>
    ensures value { (value : T) → given ≡ Ok value → result ≡ Ok (Some value, None) }
    ensures memory { given ≡ Err Memory → result ≡ Err Memory }
    ensures fault { (fault : FaultView) → given ≡ Err fault → fault ≢ Memory → result ≡ Ok (None, Some fault) }
{
    match given {
        Ok(value) => Ok((Some(value), None)),
        Err(Fault::Memory) => Err(Fault::Memory),
        Err(fault) => Ok((None, Some(fault))),
    }
}

/// Reads what can be read of a journal. `last` is the file of the last round, if it can be read.
fn readable_log<S: SystemCalls>(
    system: &mut S,
    setting: &Setting<'_>,
    item: Item,
    last: Option<&RoundFile>,
) -> Result<ReadableLog, Fault> {
    let first = first_checksum(system, setting, item)?;
    let counted = counted_in(system.alloc(), item, last)?;
    let (look, wrong) = parted(look_at_log(system, setting, item, first, counted))?;
    match look {
        None => Ok(ReadableLog {
            records: Vec::new(system.alloc()),
            wrong,
        }),
        Some(Look::Read(log, _)) => Ok(ReadableLog {
            records: log.records,
            wrong: None,
        }),
        Some(Look::Refused(why, bytes)) => Ok(ReadableLog {
            records: front_of(system.alloc(), first, &bytes, why)?,
            wrong: Some(fault_of(item, why, counted, last)),
        }),
    }
}

/// Returns the records of the appends that can be read of a journal that isn't read for this
/// reason.
///
/// # Errors
/// `Memory`.
fn front_of(
    alloc: Global,
    first: Checksum,
    bytes: &[u8],
    why: Unread,
) -> Result<Vec<Vec<u8>>, Fault> {
    let front = match why {
        Unread::Memory => return Err(Fault::Memory),
        Unread::Damaged(number, _) => first_lines(bytes, number.saturating_sub(1)),
        Unread::Fewer(_) | Unread::Other => bytes,
    };
    match read_log(alloc, &first, front) {
        Ok(log) => Ok(log.records),
        Err(_) => Err(Fault::Memory),
    }
}

/// Returns the first lines of a file, so many of them, each with its line feed.
fn first_lines(bytes: &[u8], count: usize) -> &[u8]
    ensures front { result.now ≡ take (length result.now) bytes.now }
    ensures most { count_by (λ b. b == 10) result.now ≤ count }
    ensures whole { result.now ≢ bytes.now → count_by (λ b. b == 10) result.now ≡ count }
    ensures lines { result.now ≢ bytes.now → (result.now ≡ []) ⊎ (slice_get bytes.now (length result.now - 1) ≡ Some 10) }
{
    let mut left = count;
    for (i, byte) in bytes.iter().enumerate() {
        if left == 0 {
            return &bytes[..i];
        }
        if *byte == b'\n' {
            left -= 1;
        }
    }
    bytes
}
