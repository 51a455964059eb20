//! Keys that a plan doesn't have, and keys that are missing.
use crate::document::Document;
use crate::walk::{Form, Named};
use crate::wording::{push_line, push_quoted};
use std::alloc::{AllocError, Global};
use strsim::osa_distance;

/// The keys of the top level, of which version 1 hasn't the last.
const TOP_KEYS: [&str; 8] = [
    "version", "workers", "beta", "job", "schedule", "rounds", "budgets", "block",
];

/// The keys of a job.
const JOB_KEYS: [&str; 3] = ["name", "say", "add"];

/// A longer key is near none.
const LONGEST_NEAR: usize = 40;

/// Returns true if these keys have the key.
fn has(keys: &[&str], key: &str) -> bool {
    keys.iter().any(|known| *known == key)
}

/// Returns the keys of a job, or of the top level for 0.
fn keys_of(job: u32) -> &'static [&'static str] {
    if job == 0 { &TOP_KEYS } else { &JOB_KEYS }
}

/// Returns true if the key is one there, in the version of the document.
fn is_key(document: &Document<'_>, job: u32, key: &str) -> bool {
    has(keys_of(job), key) && (key != "block" || document.natural("version") == Some(2))
}

/// Returns the first key that the text names there and that no plan has.
fn unknown_name<'a>(document: &'a Document<'_>, job: u32) -> Option<&'a Named> {
    let table = document.table(job)?;
    for name in document.names.iter() {
        let key = name.key.as_str();
        if name.job == job && !is_key(document, job, key) && table.get(key).is_some() {
            return Some(name);
        }
    }
    None
}

/// Returns a key of the tree there that no plan has.
fn unknown_key<'a>(document: &'a Document<'_>, job: u32) -> Option<&'a str> {
    for key in document.table(job)?.keys() {
        if !is_key(document, job, key.as_str()) {
            return Some(key.as_str());
        }
    }
    None
}

/// Returns the nearest of these keys, if one is near, whatever letters are capitals.
fn nearest(
    alloc: Global,
    keys: &'static [&'static str],
    key: &str,
) -> Result<Option<&'static str>, AllocError> {
    if key.len() > LONGEST_NEAR {
        return Ok(None);
    }
    let small = key.to_ascii_lowercase(alloc)?;
    let mut found = None;
    let mut least = 3;
    for known in keys.iter() {
        let distance = osa_distance(alloc, small.as_str(), known)?;
        let most = if known.len() > 5 { 2 } else { 1 };
        if distance <= most && distance < least {
            found = Some(*known);
            least = distance;
        }
    }
    Ok(found)
}

/// Appends a key as it stands in the text.
fn push_as_written(
    out: &mut String,
    alloc: Global,
    key: &str,
    form: Form,
) -> Result<(), AllocError> {
    match form {
        Form::Pair | Form::Member => push_quoted(out, key),
        Form::Table => {
            let written = format!(in alloc; "[{key}]")?;
            push_quoted(out, written.as_str())
        }
        Form::List => {
            let written = format!(in alloc; "[[{key}]]")?;
            push_quoted(out, written.as_str())
        }
    }
}

/// Appends which key was meant, or which ones there are.
fn push_meant(
    alloc: Global,
    out: &mut String,
    job: u32,
    key: &str,
    form: Form,
) -> Result<(), AllocError> {
    match nearest(alloc, keys_of(job), key)? {
        Some(meant) => {
            out.push_str(" Did you mean ")?;
            let form = if meant == "job" {
                Form::List
            } else {
                Form::Pair
            };
            push_as_written(out, alloc, meant, form)?;
            out.push_str("?\n")
        }
        None if job == 0 => out.push_str(
            " Its keys are `version`, `workers`, `beta`, `job`, `schedule`, `rounds` and `budgets`, and in version 2 `block`.\n",
        ),
        None if form == Form::Pair => out.push_str(" A job has a `name`, and `say` or `add`.\n"),
        None => out.push_str(" A job has no tables.\n"),
    }
}

/// Appends the fault of a key of the top level.
fn push_unknown_at_top(
    alloc: Global,
    out: &mut String,
    key: &str,
    form: Form,
) -> Result<(), AllocError> {
    push_as_written(out, alloc, key, form)?;
    if key == "block" {
        return out.push_str(
            " is a key of version 2 alone. Write `version = 2`, or leave it out.\n",
        );
    }
    if has(&JOB_KEYS, key) {
        return out.push_str(
            " is a key of a job, and stands above the first. Write it below a line `[[job]]`.\n",
        );
    }
    out.push_str(" is no key of the top level.")?;
    push_meant(alloc, out, 0, key, form)
}

/// Appends the fault of a key of a job.
fn push_unknown_in_job(
    alloc: Global,
    out: &mut String,
    document: &Document<'_>,
    job: u32,
    key: &str,
    form: Form,
) -> Result<(), AllocError> {
    push_quoted(out, key)?;
    if has(&TOP_KEYS, key) {
        out.push_str(" stands below a `[[job]]`, so it is a key of ")?;
        document.push_job(out, job)?;
        return out.push_str(". Move it above the first `[[job]]`.\n");
    }
    out.push_str(" in ")?;
    document.push_job(out, job)?;
    out.push_str(" is no key of a job.")?;
    push_meant(alloc, out, job, key, form)
}

/// Appends which key no plan has, in a job, or at the top level for 0.
pub(crate) fn push_unknown_key(
    alloc: Global,
    out: &mut String,
    document: &Document<'_>,
    job: u32,
) -> Result<(), AllocError> {
    let named = unknown_name(document, job);
    let (key, form) = match named {
        Some(name) => (name.key.as_str(), name.form),
        None => (unknown_key(document, job).unwrap_or(""), Form::Pair),
    };
    if let Some(name) = named {
        push_line(out, Some(document.line_at(name.left)))?;
    }
    if job == 0 {
        push_unknown_at_top(alloc, out, key, form)
    } else {
        push_unknown_in_job(alloc, out, document, job, key, form)
    }
}

/// Appends which keys the top level lacks, a line for each.
fn push_missing_at_top(out: &mut String, document: &Document<'_>) -> Result<(), AllocError> {
    if document.value("version").is_none() {
        out.push_str(
            "`version` is missing: write `version = 1` at the top, the version of this format.\n",
        )?;
    }
    if document.value("workers").is_none() {
        out.push_str(
            "`workers` is missing: write `workers = 2` at the top, how many workers share the jobs.\n",
        )?;
    }
    if document.value("beta").is_none() {
        let workers = document.natural("workers").unwrap_or(2);
        write!(
            out,
            "`beta` is missing: write `beta = {workers}` at the top, the number of free jobs below which a worker ends, at least as large as `workers`.\n"
        )?;
    }
    Ok(())
}

/// Appends which key is missing in a job, or at the top level for 0.
pub(crate) fn push_missing_key(
    out: &mut String,
    document: &Document<'_>,
    job: u32,
) -> Result<(), AllocError> {
    if job == 0 {
        return push_missing_at_top(out, document);
    }
    push_line(out, document.line_of_job(job))?;
    if document.value_of_job(job, "name").is_none() {
        return write!(
            out,
            "`name` is missing in job {job}. Write one that no other job has, as `name = \"job{job}\"`.\n"
        );
    }
    out.push_str("`say` and `add` are missing in ")?;
    document.push_job(out, job)?;
    out.push_str(
        ". Write one of them: a text, as `say = \"one\"`, or numbers, as `add = [1, 2]`.\n",
    )
}
