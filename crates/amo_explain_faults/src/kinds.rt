//! Values of another kind than their keys have.
use crate::document::{Document, natural};
use crate::walk::Form;
use crate::wording::{kind_of, push_count, push_line};
use amo_plan::MOST_IN_BLOCK;
use std::alloc::AllocError;
use toml::Value;

/// Appends the fault of a value that must be a whole number, and not negative.
fn push_no_natural(out: &mut String, value: &Value) -> Result<(), AllocError> {
    match value {
        Value::Integer(number) => write!(out, "is {number}, and may not be negative."),
        _ => {
            let kind = kind_of(value);
            write!(out, "is {kind}, and has to be a whole number.")
        }
    }
}

/// Appends that the value at a key of the top level is no whole number, and how it is written, as
/// in the example.
fn push_number(
    out: &mut String,
    document: &Document<'_>,
    key: &str,
    value: &Value,
    example: &str,
) -> Result<(), AllocError> {
    push_line(out, document.line_of(0, key))?;
    write!(out, "`{key}` ")?;
    push_no_natural(out, value)?;
    write!(out, " Write it as `{example}`.\n")
}

/// Returns the value at a key, if it is no whole number.
fn no_natural<'a>(document: &'a Document<'_>, key: &str) -> Option<&'a Value> {
    let value = document.value(key)?;
    match natural(value) {
        Some(_) => None,
        None => Some(value),
    }
}

/// Appends that there is no such version, if so.
fn push_version(out: &mut String, document: &Document<'_>) -> Result<bool, AllocError> {
    let Some(Value::Integer(version)) = document.value("version") else {
        return Ok(false);
    };
    if *version == 1 || *version == 2 {
        return Ok(false);
    }
    push_line(out, document.line_of(0, "version"))?;
    write!(
        out,
        "`version` is {version}, and the versions are 1 and 2. Write `version = 1`, or `version = 2` for blocks of jobs.\n"
    )?;
    Ok(true)
}

/// Appends that a block may not have so many jobs, if so.
fn push_block(out: &mut String, document: &Document<'_>) -> Result<bool, AllocError> {
    let Some(Value::Integer(block)) = document.value("block") else {
        return Ok(false);
    };
    if 1 <= *block && *block <= MOST_IN_BLOCK as i64 {
        return Ok(false);
    }
    push_line(out, document.line_of(0, "block"))?;
    write!(
        out,
        "`block` is {block}, and has to be 1 to {MOST_IN_BLOCK}. Write how many jobs make a block, as `block = 4`, or leave it out.\n"
    )?;
    Ok(true)
}

/// Returns true if the text has a header `[job]`.
fn has_table_of_job(document: &Document<'_>) -> bool {
    document.names.iter().any(|name| name.form == Form::Table
        && name.job == 0
        && name.key.as_str() == "job")
}

/// Appends that the jobs are no list of tables, if so.
fn push_jobs(out: &mut String, document: &Document<'_>) -> Result<bool, AllocError> {
    let Some(value) = document.value("job") else {
        return Ok(false);
    };
    let line = document.line_of(0, "job");
    if let Value::Array(jobs) = value {
        for (i, job) in jobs.iter().enumerate() {
            if !matches!(job, Value::Table(_)) {
                let (place, kind) = (i.saturating_add(1), kind_of(job));
                push_line(out, line)?;
                write!(
                    out,
                    "`job` has {kind} in place {place}, and each has to be a table. Write `[[job]]` above the keys of each job.\n"
                )?;
                return Ok(true);
            }
        }
        return Ok(false);
    }
    push_line(out, line)?;
    if has_table_of_job(document) {
        out.push_str(
            "`[job]` is a single table, and jobs are a list. Write `[[job]]`, with two brackets on each side.\n",
        )?;
    } else {
        let kind = kind_of(value);
        write!(
            out,
            "`job` is {kind}, and has to be a list of tables. Write `[[job]]` above the keys of each job.\n"
        )?;
    }
    Ok(true)
}

/// Appends that the schedule isn't a text, if so.
fn push_schedule(out: &mut String, document: &Document<'_>) -> Result<bool, AllocError> {
    let Some(value) = document.value("schedule") else {
        return Ok(false);
    };
    if matches!(value, Value::String(_)) {
        return Ok(false);
    }
    let kind = kind_of(value);
    push_line(out, document.line_of(0, "schedule"))?;
    write!(
        out,
        "`schedule` is {kind}, and has to be a text. Write it in quotes, its words parted by spaces, as `schedule = \"1*5 2\"`.\n"
    )?;
    Ok(true)
}

/// Appends which member of a list is no whole number, if one isn't.
fn push_member(out: &mut String, members: &[Value]) -> Result<bool, AllocError> {
    for (i, member) in members.iter().enumerate() {
        if natural(member).is_none() {
            let place = i.saturating_add(1);
            match member {
                Value::Integer(number) => {
                    write!(
                        out,
                        " has {number} in place {place}, and none may be negative.\n"
                    )?;
                }
                _ => {
                    let kind = kind_of(member);
                    write!(
                        out,
                        " has {kind} in place {place}, and each has to be a whole number.\n"
                    )?;
                }
            }
            return Ok(true);
        }
    }
    Ok(false)
}

/// Appends the fault of the budgets.
fn push_budgets(out: &mut String, document: &Document<'_>) -> Result<(), AllocError> {
    let Some(value) = document.value("budgets") else {
        return Ok(());
    };
    push_line(out, document.line_of(0, "budgets"))?;
    out.push_str("`budgets`")?;
    let Value::Array(budgets) = value else {
        let kind = kind_of(value);
        return write!(
            out,
            " is {kind}, and has to be a list, with a number for each worker. Write it as `budgets = [100, 100]`.\n"
        );
    };
    if push_member(out, budgets)? {
        return Ok(());
    }
    out.push_str(" has ")?;
    push_count(out, budgets.len() as u64, "number", "numbers")?;
    out.push_str(", and there ")?;
    let workers = document.natural("workers").unwrap_or(0);
    out.push_str(if workers == 1 { "is " } else { "are " })?;
    push_count(out, workers, "worker", "workers")?;
    out.push_str(". Write one number for each.\n")
}

/// Appends which value of the top level is of another kind.
fn push_kind_at_top(out: &mut String, document: &Document<'_>) -> Result<(), AllocError> {
    if push_version(out, document)? {
        return Ok(());
    }
    if let Some(value) = no_natural(document, "version") {
        return push_number(out, document, "version", value, "version = 1");
    }
    if push_block(out, document)? {
        return Ok(());
    }
    for (key, example) in [
        ("block", "block = 4"),
        ("workers", "workers = 2"),
        ("beta", "beta = 2"),
    ] {
        if let Some(value) = no_natural(document, key) {
            return push_number(out, document, key, value, example);
        }
    }
    if push_jobs(out, document)? || push_schedule(out, document)? {
        return Ok(());
    }
    match no_natural(document, "rounds") {
        Some(value) => push_number(out, document, "rounds", value, "rounds = 10"),
        None => push_budgets(out, document),
    }
}

/// Appends the key of a job, and what its value is.
fn push_key_of_job(
    out: &mut String,
    document: &Document<'_>,
    job: u32,
    key: &str,
    value: &Value,
) -> Result<(), AllocError> {
    let kind = kind_of(value);
    push_line(out, document.line_of(job, key))?;
    write!(out, "`{key}` of ")?;
    document.push_job(out, job)?;
    write!(out, " is {kind}")
}

/// Appends the fault of the numbers of a job.
fn push_add(
    out: &mut String,
    document: &Document<'_>,
    job: u32,
    value: &Value,
) -> Result<(), AllocError> {
    let Value::Array(numbers) = value else {
        push_key_of_job(out, document, job, "add", value)?;
        return out.push_str(
            ", and has to be a list. Write its numbers in brackets, as `add = [1, 2]`.\n",
        );
    };
    push_line(out, document.line_of(job, "add"))?;
    out.push_str("`add` of ")?;
    document.push_job(out, job)?;
    push_member(out, numbers)?;
    Ok(())
}

/// Appends which value of a job is of another kind.
fn push_kind_in_job(out: &mut String, document: &Document<'_>, job: u32) -> Result<(), AllocError> {
    if let Some(name) = document.value_of_job(job, "name") {
        if !matches!(name, Value::String(_)) {
            push_key_of_job(out, document, job, "name", name)?;
            return out.push_str(", and has to be a text. Write it in quotes, as `name = \"a\"`.\n");
        }
    }
    let say = document.value_of_job(job, "say");
    let add = document.value_of_job(job, "add");
    match (say, add) {
        (Some(_), Some(_)) => {
            push_line(out, document.line_of(job, "add"))?;
            out.push_str("`add` stands beside `say` in ")?;
            document.push_job(out, job)?;
            out.push_str(", and a job has one of them alone. Leave one out.\n")
        }
        (Some(value), None) => {
            push_key_of_job(out, document, job, "say", value)?;
            out.push_str(", and has to be a text. Write it in quotes, as `say = \"one\"`.\n")
        }
        (None, Some(value)) => push_add(out, document, job, value),
        (None, None) => Ok(()),
    }
}

/// Appends which value is of another kind than its key has, in a job, or at the top level for 0.
pub(crate) fn push_wrong_kind(
    out: &mut String,
    document: &Document<'_>,
    job: u32,
) -> Result<(), AllocError> {
    if job == 0 {
        push_kind_at_top(out, document)
    } else {
        push_kind_in_job(out, document, job)
    }
}
