//! Writes the results of the performed jobs.
ghost use Rattle.std.specs.Prelude.{◌≡◌, ◌++◌, ◌+◌, ◌<◌, ◌^◌, true, OnOk, IsTrue, string_bytes, length, take, drop};
ghost use Rattle.std.specs.List.{list_all};
ghost use Rattle.amo_plan.specs.Results.{fits, result_text};
ghost use Rattle.amo_plan.specs.Keeps.{all_fit};
ghost use Rattle.amo_render.specs.Results.{result_line, result_lines, jobs_before, in_block, block_results, done_results};

use crate::escaped::push_escaped;
use amo_kk::Event;
use amo_plan::{Task, Text, result_of};
use std::alloc::{AllocError, Global};

/// Appends the line of a result.
#[tactic(auto, unfolding(crate::specs::Results::result_line))]
fn push_result(out: &mut String, job: usize, name: &str, text: &[u8]) -> Result<(), AllocError>
    ensures { OnOk result (string_bytes out.new ≡ string_bytes out.old ++ result_line job name.now text.now) }
{
    write!(out, "result {job} {name} ")?;
    push_escaped(out, text)?;
    writeln!(out)
}

/// Appends the line of a task's result.
fn push_task(
    alloc: Global,
    out: &mut String,
    job: usize,
    name: &Text,
    task: &Task,
) -> Result<(), AllocError>
    requires { IsTrue (fits task.now) }
    ensures { OnOk result (string_bytes out.new ≡ string_bytes out.old ++ result_line job name.now (result_text task.now)) }
{
    let text = result_of(alloc, task)?;
    push_result(out, job, name.as_str(), text.as_bytes())
}

/// Appends the results of jobs that are numbered from `before + 1`.
fn push_tasks(
    alloc: Global,
    out: &mut String,
    before: usize,
    names: &[Text],
    tasks: &[Task],
) -> Result<(), AllocError>
    requires fit { all_fit tasks.now ≡ true }
    requires as_many { length tasks.now ≡ length names.now }
    requires few { before + length names.now < 2 ^ 64 }
    ensures { OnOk result (string_bytes out.new ≡ string_bytes out.old ++ result_lines (before + 1) names.now tasks.now) }
{
    for (i, name) in names.iter().enumerate() {
        push_task(alloc, out, before + i + 1, name, &tasks[i])?;
    }
    Ok(())
}

/// Returns `count` items of a slice that has an item for each job, after `before` others.
fn part<T>(items: &[T], before: usize, count: usize) -> &[T]
    ensures { result.now ≡ take count (drop before items.now) }
{
    let (_, rest) = items.split_at(before.min(items.len()));
    let (part, _) = rest.split_at(count.min(rest.len()));
    part
}

/// Appends the results of the jobs of block `number`.
#[tactic(auto, unfolding(crate::specs::Results::block_results), using(crate::proofs::Blocks::all_fit_part))]
fn push_block_results(
    alloc: Global,
    out: &mut String,
    block: u32,
    names: &[Text],
    tasks: &[Task],
    number: u32,
) -> Result<(), AllocError>
    requires fit { all_fit tasks.now ≡ true }
    requires as_many { length tasks.now ≡ length names.now }
    ensures { OnOk result (string_bytes out.new ≡ string_bytes out.old ++ block_results block names.now tasks.now number) }
{
    let before = (number as usize).saturating_sub(1) * block as usize;
    let names = part(names, before, block as usize);
    let tasks = part(tasks, before, block as usize);
    push_tasks(alloc, out, before, names, tasks)
}

/// Appends the results of each block that the history performs.
///
/// # Errors
///
/// `AllocError` if there was no memory.
pub fn push_results(
    alloc: Global,
    out: &mut String,
    block: u32,
    names: &[Text],
    tasks: &[Task],
    history: &[Event],
) -> Result<(), AllocError>
    requires fit { all_fit tasks.now ≡ true }
    requires as_many { length tasks.now ≡ length names.now }
    ensures { OnOk result (string_bytes out.new ≡ string_bytes out.old ++ done_results block names.now tasks.now history.now) }
{
    for event in history {
        if let Event::Done(_, number) = event {
            push_block_results(alloc, out, block, names, tasks, *number)?;
        }
    }
    Ok(())
}
