//! Tests the names and the sums of the jobs.
ghost use Rattle.std.specs.Prelude.{◌≡◌, [], map, IfOk, length};
ghost use Rattle.std.specs.List.{list_all};
ghost use Rattle.amo_plan.specs.Passing.{Gives};
ghost use Rattle.amo_plan.specs.Jobs.{is_name_byte, is_name, fine_job, fine_jobs};

use crate::fault::PlanFault;
use crate::job::Job;
use crate::limits::MOST_IN_NAME;
use crate::ordinal::ordinal_of;
use crate::task::Task;
use crate::text::Text;
use std::alloc::{AllocError, Global};
use std::collections::BTreeMap;

/// The byte may stand in a name.
fn is_name_byte(b: u8) -> bool
    ensures { result ≡ is_name_byte b }
{
    (b'A' <= b && b <= b'Z')
        || (b'a' <= b && b <= b'z')
        || (b'0' <= b && b <= b'9')
        || b == b'_'
        || b == b'-'
        || b == b'.'
}

/// All bytes may.
fn has_name_bytes(name: &[u8]) -> bool
    ensures { result ≡ list_all is_name_byte name.now }
{
    name.iter().all(|b| is_name_byte(*b))
}

/// The name is a proper one.
fn is_name(name: &str) -> bool
    ensures { result ≡ is_name name.now }
{
    1 <= name.len() && name.len() <= MOST_IN_NAME && has_name_bytes(name.as_bytes())
}

/// The job in this place, whose name may be taken by an earlier one, has a proper name of its own
/// and a task that fits.
#[tactic(auto, unfolding(crate::specs::Jobs::fine_job))]
fn check_job(is_taken: bool, place: u32, job: &Job) -> Result<(), PlanFault>
    ensures { Gives (λ x. x) result (fine_job is_taken place job.now) }
{
    if !is_name(job.name.as_str()) {
        return Err(PlanFault::BadName(place));
    }
    if is_taken {
        return Err(PlanFault::TwoNames(place));
    }
    if !job.task.fits() {
        return Err(PlanFault::SumTooLarge(place));
    }
    Ok(())
}

/// Each job has a proper name that no earlier job has, and a task that fits.
pub(crate) fn check_jobs(alloc: Global, jobs: &[Job]) -> Result<(), PlanFault>
    ensures { Gives (λ x. x) result (fine_jobs [] 1 jobs.now) }
{
    let mut names = BTreeMap::new(alloc);
    for (i, job) in jobs.iter().enumerate() {
        let name = job.name.as_str();
        let other = names.insert(name, ())?;
        check_job(other.is_some(), ordinal_of(i), job)?;
    }
    Ok(())
}

/// The names and the tasks of the jobs, apart.
pub(crate) fn part_jobs(alloc: Global, jobs: Vec<Job>) -> Result<(Vec<Text>, Vec<Task>), AllocError>
    ensures names { IfOk result (λ p. p.0.items ≡ map (λ job. job.name) jobs.items) }
    ensures tasks { IfOk result (λ p. p.1.items ≡ map (λ job. job.task) jobs.items) }
{
    let mut names = Vec::with_capacity(alloc, jobs.len())?;
    let mut tasks = Vec::with_capacity(alloc, jobs.len())?;
    for job in jobs {
        let Job { name, task } = job;
        names.push(name)?;
        tasks.push(task)?;
    }
    Ok((names, tasks))
}
