//! The jobs of a plan, each read on its own.
ghost use Rattle.std.specs.Prelude.{◌≡◌, map, codes};
ghost use Rattle.toml.specs.Data.{get_member};
ghost use Rattle.toml.specs.View.{view, table_view};
ghost use Rattle.amo_plan.specs.declared.task.Task.TheVariants.{Say, Add};
ghost use Rattle.amo_plan.specs.Passing.{Gives, or_fault};
ghost use Rattle.amo_plan.specs.Tree.{is_known, each_key, naturals_in};
ghost use Rattle.amo_plan.specs.Jobs.{job_keys, task_of, job_at, read_jobs};

use crate::fault::PlanFault;
use crate::items::Items;
use crate::ordinal::ordinal_of;
use crate::task::Task;
use crate::text::Text;
use crate::tree::{has_key, naturals, text_at, value_at};
use std::alloc::Global;
use toml::{Table, Value};

/// A job, of which only the kinds of its values are tested yet.
#[derive(Debug, Drop)]
pub(crate) struct Job {
    /// The name, which isn't tested yet.
    pub(crate) name: Text,
    /// The task, which isn't tested yet.
    pub(crate) task: Task,
}

/// The key is one of a job.
fn is_job_key(key: &str) -> bool
    ensures { result ≡ is_known job_keys key.now }
{
    (key == "name") | (key == "say") | (key == "add")
}

/// Each key is one of a job.
fn has_job_keys(table: &Table) -> bool
    ensures { result ≡ each_key (is_known job_keys) (table_view table.now) }
{
    for key in table.keys() {
        if !is_job_key(key.as_str()) {
            return false;
        }
    }
    true
}

/// The task that adds the numbers of an array up, or a wrong kind in this place.
fn read_add(alloc: Global, place: u32, value: &Value) -> Result<Task, PlanFault>
    ensures { Gives (λ t. t) result (or_fault (task_of None (Some (view value.now))) (PlanFault.WrongKind place)) }
{
    match value.as_array() {
        Some(items) => Ok(Task::Add(Items::new(naturals(
            alloc,
            items,
            PlanFault::WrongKind(place),
        )?))),
        None => Err(PlanFault::WrongKind(place)),
    }
}

/// The task that says a text, or a wrong kind in this place.
fn read_say(alloc: Global, place: u32, value: &Value) -> Result<Task, PlanFault>
    ensures { Gives (λ t. t) result (or_fault (task_of (Some (view value.now)) None) (PlanFault.WrongKind place)) }
{
    match value.as_str() {
        Some(text) => Ok(Task::Say(Text::from_str(alloc, text)?)),
        None => Err(PlanFault::WrongKind(place)),
    }
}

/// The task of a job, which has either text or numbers.
fn read_task(alloc: Global, place: u32, table: &Table) -> Result<Task, PlanFault>
    ensures { Gives (λ t. t) result
        (or_fault (task_of (get_member (codes "say") (table_view table.now)) (get_member (codes "add") (table_view table.now))) (PlanFault.WrongKind place)) }
{
    match (value_at(table, "say"), value_at(table, "add")) {
        (Some(value), None) => read_say(alloc, place, value),
        (None, Some(value)) => read_add(alloc, place, value),
        _ => Err(PlanFault::WrongKind(place)),
    }
}

/// The job in this place.
#[tactic(auto, unfolding(crate::specs::Jobs::job_at))]
fn read_job(alloc: Global, place: u32, table: &Table) -> Result<Job, PlanFault>
    ensures { Gives (λ j. j) result (job_at place (table_view table.now)) }
{
    if !has_job_keys(table) {
        return Err(PlanFault::UnknownKey(place));
    }
    if !(has_key(table, "name") && (has_key(table, "say") || has_key(table, "add"))) {
        return Err(PlanFault::MissingKey(place));
    }
    let name = text_at(table, "name").ok_or(PlanFault::WrongKind(place))?;
    let task = read_task(alloc, place, table)?;
    let name = Text::from_str(alloc, name)?;
    Ok(Job { name, task })
}

/// The jobs, one after the other.
#[tactic(auto, using(crate::proofs::PassingLemmas::each_more, crate::proofs::PassingLemmas::each_stop, crate::proofs::PassingLemmas::each_all, crate::proofs::PassingLemmas::each_none))]
pub(crate) fn read_jobs(alloc: Global, tables: &[&Table]) -> Result<Vec<Job>, PlanFault>
    ensures { Gives (λ v. v.items) result (read_jobs (map (λ t. table_view t.now) tables.now)) }
{
    let mut jobs = Vec::with_capacity(alloc, tables.len())?;
    for (i, table) in tables.iter().enumerate() {
        let job = read_job(alloc, ordinal_of(i), table)?;
        jobs.push(job)?;
    }
    Ok(jobs)
}
