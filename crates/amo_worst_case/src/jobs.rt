//! Writes the jobs of a plan.
ghost use Rattle.std.specs.Prelude.{◌≡◌, ◌++◌, OnOk, string_bytes, length};
ghost use Rattle.std.specs.List.{flat_map};
ghost use Rattle.amo_worst_case.specs.Text.{after_comma, listed, say_lines, add_lines, job_lines, all_job_lines};

use crate::quoted::Quoted;
use amo_plan::{Task, Text};
use std::alloc::AllocError;

/// Appends each of these numbers after a comma.
fn push_after_commas(out: &mut String, numbers: &[u64]) -> Result<(), AllocError>
    ensures { OnOk result (string_bytes out.new ≡ string_bytes out.old ++ flat_map after_comma numbers.now) }
{
    for number in numbers {
        write!(out, ", {number}")?;
    }
    Ok(())
}

/// Appends these numbers, with commas between.
fn push_listed(out: &mut String, numbers: &[u64]) -> Result<(), AllocError>
    ensures { OnOk result (string_bytes out.new ≡ string_bytes out.old ++ listed numbers.now) }
{
    match numbers.split_first() {
        None => Ok(()),
        Some((first, others)) => {
            write!(out, "{first}")?;
            push_after_commas(out, others)
        }
    }
}

/// Appends the lines of a job that says this text.
#[tactic(auto, unfolding(crate::specs::Text::say_lines))]
fn push_say(out: &mut String, name: &str, text: &str) -> Result<(), AllocError>
    ensures { OnOk result (string_bytes out.new ≡ string_bytes out.old ++ say_lines name.now text.now) }
{
    let name = Quoted { text: name };
    let text = Quoted { text };
    writeln!(out, "\n[[job]]\nname = {name}\nsay = {text}")
}

/// Appends the lines of a job that adds these numbers.
#[tactic(auto, unfolding(crate::specs::Text::add_lines))]
fn push_add(out: &mut String, name: &str, numbers: &[u64]) -> Result<(), AllocError>
    ensures { OnOk result (string_bytes out.new ≡ string_bytes out.old ++ add_lines name.now numbers.now) }
{
    let name = Quoted { text: name };
    out.push_str("\n[[job]]\nadd = [")?;
    push_listed(out, numbers)?;
    writeln!(out, "]\nname = {name}")
}

/// Appends the lines of a job.
fn push_job(out: &mut String, name: &str, task: &Task) -> Result<(), AllocError>
    ensures { OnOk result (string_bytes out.new ≡ string_bytes out.old ++ job_lines name.now task.now) }
{
    match task {
        Task::Say(text) => push_say(out, name, text.as_str()),
        Task::Add(numbers) => push_add(out, name, numbers.as_slice()),
    }
}

/// Appends the lines of each job.
pub(crate) fn push_jobs(out: &mut String, names: &[Text], tasks: &[Task]) -> Result<(), AllocError>
    requires { length tasks.now ≡ length names.now }
    ensures { OnOk result (string_bytes out.new ≡ string_bytes out.old ++ all_job_lines names.now tasks.now) }
{
    for (i, name) in names.iter().enumerate() {
        push_job(out, name.as_str(), &tasks[i])?;
    }
    Ok(())
}
