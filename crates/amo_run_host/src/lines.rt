//! The lines that a run knows, as a worker reads them again.
use amo_run_dir::{known, known_again};
use amo_run_faults::{Fault, Setting};
use amo_run_files::{HashedJobs, RoundFile};
use amo_system_calls::SystemCalls;

/// Reads the lines that the run knows, and takes them in place of those in `jobs`.
pub(crate) fn read_known<S: SystemCalls>(
    system: &mut S,
    setting: &Setting<'_>,
    last: Option<&RoundFile>,
    jobs: &mut HashedJobs,
) -> Result<(), Fault> {
    match last {
        Some(file) => known_again(system, setting, file, jobs),
        None => {
            *jobs = HashedJobs::new(known(system, setting, None)?);
            Ok(())
        }
    }
}
