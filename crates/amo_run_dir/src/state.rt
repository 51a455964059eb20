//! The lines that a run knows: its file `jobs`.
ghost use Rattle.std.specs.Prelude.{◌≡◌, true, false, IfErr, IfOk, OnOk};
ghost use Rattle.amo_run_log.specs.Texts.{ended};
ghost use Rattle.amo_run_files.specs.Lines.{lines_in};
ghost use Rattle.amo_run_files.specs.Refusals.{IsTaken};
ghost use Rattle.amo_run_dir.specs.Known.{counts_jobs, IsWhyUncounted, IsWhyUnknown};

use crate::files::bytes_of;
use amo_run_faults::{Fault, Item, Setting};
use amo_run_files::{HashedJobs, Jobs, JobsFault, RoundFile};
use amo_run_journals::extent_in;
use amo_system_calls::SystemCalls;
use std::alloc::{AllocError, Global};

/// Returns the lines that the run knows. `last` is the file of the last round, which the caller has
/// read before.
///
/// # Errors
/// `Missing` if they aren't there and a round was begun. `Refused` if they don't begin with what
/// they were when that round began, or if they are no lines.
pub fn known<S: SystemCalls>(
    system: &mut S,
    setting: &Setting<'_>,
    last: Option<&RoundFile>,
) -> Result<Jobs, Fault> {
    let bytes = match (bytes_of(system, setting, Item::Known)?, last) {
        (Some(bytes), _) => bytes,
        (None, None) => Vec::new(system.alloc()),
        (None, Some(_)) => return Err(Fault::Missing(Item::Known)),
    };
    if !is_as_counted(&bytes, last) {
        return Err(Fault::Refused(Item::Known));
    }
    match Jobs::read(system.alloc(), bytes, false) {
        Ok(jobs) => Ok(jobs),
        Err(JobsFault::Memory) => Err(Fault::Memory),
        Err(JobsFault::Refused(..)) => Err(Fault::Refused(Item::Known)),
    }
}

/// Reads the lines that the run knows again, once a round was begun. `last` is the file of the last
/// round, which the caller has read before. Lines that `jobs` has already are compared with the
/// file's, and neither checked nor hashed again.
///
/// # Errors
/// `Missing` if they aren't there. `Refused` if they don't begin with what they were when that
/// round began, or if they are no lines.
pub fn known_again<S: SystemCalls>(
    system: &mut S,
    setting: &Setting<'_>,
    last: &RoundFile,
    jobs: &mut HashedJobs,
) -> Result<(), Fault> {
    match bytes_of(system, setting, Item::Known)? {
        Some(bytes) => take_known(system.alloc(), jobs, bytes, last),
        None => Err(Fault::Missing(Item::Known)),
    }
}

/// Takes the bytes of the file `jobs`. `last` is the file of the last round.
fn take_known(
    alloc: Global,
    jobs: &mut HashedJobs,
    bytes: Vec<u8>,
    last: &RoundFile,
) -> Result<(), Fault>
    // The jobs are the lines of the file, all of it, and it begins with what that round counts.
    ensures lines { OnOk result (jobs.new ≡ lines_in bytes.items) }
    ensures whole { OnOk result (ended jobs.new ≡ bytes.items) }
    ensures taken { OnOk result (IsTaken bytes.items false) }
    ensures counted { OnOk result (counts_jobs last.now.extents.items bytes.items ≡ true) }
    ensures refused { IfErr result (λ fault. IsWhyUnknown fault last.now.extents.items bytes.items) }
{
    match jobs.read_again(alloc, bytes, false) {
        Ok(()) => check_counted(jobs, last),
        Err(JobsFault::Memory) => Err(Fault::Memory),
        Err(JobsFault::Refused(..)) => Err(Fault::Refused(Item::Known)),
    }
}

/// Refuses jobs that don't begin with those that this round counts.
fn check_counted(jobs: &mut HashedJobs, last: &RoundFile) -> Result<(), Fault>
    ensures counted { OnOk result (counts_jobs last.now.extents.items (ended jobs.old) ≡ true) }
    ensures refused { IfErr result (λ fault. IsWhyUncounted fault last.now.extents.items (ended jobs.old)) }
    ensures same { jobs.new ≡ jobs.old }
{
    if has_lines_of(jobs, last)? {
        Ok(())
    } else {
        Err(Fault::Refused(Item::Known))
    }
}

/// Returns true if these lines begin with those that the run knew when this round began. They were
/// read before, so the file `jobs` needs no other look.
///
/// # Errors
/// `AllocError` if there was no memory.
fn has_lines_of(jobs: &mut HashedJobs, round: &RoundFile) -> Result<bool, AllocError>
    ensures exact { IfOk result (λ has. has ≡ counts_jobs round.now.extents.items (ended jobs.old)) }
    ensures same { jobs.new ≡ jobs.old }
{
    match extent_in(&round.extents, b"jobs") {
        Some(extent) => jobs.begin_with(extent),
        None => Ok(false),
    }
}

/// Returns true if the lines begin with those of the last round, if there was one.
fn is_as_counted(bytes: &[u8], last: Option<&RoundFile>) -> bool {
    let Some(last) = last else {
        return true;
    };
    match extent_in(&last.extents, b"jobs") {
        Some(extent) => extent.is_front_of(bytes),
        None => false,
    }
}
