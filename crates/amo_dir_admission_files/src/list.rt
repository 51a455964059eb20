//! The check of the jobs' file before a worker begins.
ghost use Rattle.std.specs.Prelude.{◌≡◌, IfErr, IfOk};
ghost use Rattle.amo_run_log.specs.Texts.{ended};
ghost use Rattle.amo_run_files.specs.Lines.{lines_in, BeginsWith};
ghost use Rattle.amo_run_files.specs.Refusals.{IsTaken};
ghost use Rattle.amo_dir_admission_files.specs.Grown.{IsWhyNotGrown};

use amo_fs::read_existing;
use amo_run_dir::{known, record_of};
use amo_run_faults::{Fault, Item, Setting, had};
use amo_run_files::{Jobs, JobsFault, first_difference};
use amo_system_calls::SystemCalls;
use std::alloc::Global;

/// Checks that the jobs' file of this path can be that of this run.
///
/// # Errors
///
/// The fault of a jobs' file that can't be, or of a file that can't be read.
pub(crate) fn check_jobs<S: SystemCalls>(
    system: &mut S,
    setting: &Setting<'_>,
    list: &str,
) -> Result<(), Fault> {
    let list = had(Item::List, read_existing(system, list))?;
    let last = record_of(system, setting)?;
    let known = known(system, setting, last.as_ref())?;
    grown(system.alloc(), &known, &list, last.is_some())?;
    Ok(())
}

/// Returns the jobs of a list, which begins with what the run knows. If `cut` is true, a last line
/// without its end is left out: its writer may be at it.
///
/// # Errors
/// `Changed` if the list doesn't begin with what the run knows. `List` if a line of it is refused.
fn grown(alloc: Global, known: &Jobs, list: &[u8], cut: bool) -> Result<Jobs, Fault>
    ensures front { IfOk result (λ _. BeginsWith (ended known.now) list.now) }
    ensures taken { IfOk result (λ _. IsTaken list.now cut) }
    ensures lines { IfOk result (λ jobs. jobs ≡ lines_in list.now) }
    ensures refused { IfErr result (λ fault. IsWhyNotGrown fault (ended known.now) list.now cut) }
{
    if let Some(line) = first_difference(known.bytes(), list) {
        return Err(Fault::Changed(line));
    }
    match Jobs::read(alloc, list.to_vec(alloc)?, cut) {
        Ok(jobs) => Ok(jobs),
        Err(JobsFault::Memory) => Err(Fault::Memory),
        Err(JobsFault::Refused(line, why)) => Err(Fault::List(line, why)),
    }
}
