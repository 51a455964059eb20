//! The faults of the name or the sum of a job.
use crate::document::Document;
use crate::wording::{push_line, push_quoted};
use std::alloc::AllocError;

/// The rule for names.
const NAME_RULE: &str =
    " A name has 1 to 64 characters: letters from a to z and A to Z, digits, `_`, `-` and `.`.\n";

/// Returns the first job before this one that has its name.
fn namesake(document: &Document<'_>, job: u32) -> Option<u32> {
    let name = document.name_of_job(job)?;
    for other in 1..job {
        if document.name_of_job(other) == Some(name) {
            return Some(other);
        }
    }
    None
}

/// Appends that a job has the name of an earlier one.
pub(crate) fn push_two_names(
    out: &mut String,
    document: &Document<'_>,
    job: u32,
) -> Result<(), AllocError> {
    let other = namesake(document, job).unwrap_or(0);
    push_line(out, document.line_of(job, "name"))?;
    push_quoted(out, document.name_of_job(job).unwrap_or(""))?;
    write!(out, " is the name of job {job}, and of job {other} too")?;
    if let Some(line) = document.line_of(other, "name") {
        write!(out, ", in line {line}")?;
    }
    out.push_str(". Give each job a name of its own.\n")
}

/// Returns true if the character may stand in a name.
fn is_of_name(c: char) -> bool {
    c.is_ascii_alphanumeric() || c == '_' || c == '-' || c == '.'
}

/// Appends the fault of a name that isn't empty.
fn push_flaw(out: &mut String, name: &str) -> Result<(), AllocError> {
    for c in name.chars() {
        if c == ' ' {
            return out.push_str("has a space in it.");
        }
        if !is_of_name(c) {
            out.push_str("has a character that no name has: ")?;
            return push_wrong(out, c);
        }
    }
    let length = name.len();
    write!(out, "has {length} characters.")
}

/// Appends a character that no name has.
fn push_wrong(out: &mut String, c: char) -> Result<(), AllocError> {
    let mut text = [0u8; 4];
    push_quoted(out, c.encode_utf8(&mut text))?;
    out.push_str(".")
}

/// Appends the fault of the name of a job.
pub(crate) fn push_bad_name(
    out: &mut String,
    document: &Document<'_>,
    job: u32,
) -> Result<(), AllocError> {
    let name = document.name_of_job(job).unwrap_or("");
    push_line(out, document.line_of(job, "name"))?;
    if name.is_empty() {
        write!(out, "`name` of job {job} is empty.")?;
    } else {
        push_quoted(out, name)?;
        write!(out, ", the name of job {job}, ")?;
        push_flaw(out, name)?;
    }
    out.push_str(NAME_RULE)
}

/// Appends that the numbers of a job add up to too much.
pub(crate) fn push_large_sum(
    out: &mut String,
    document: &Document<'_>,
    job: u32,
) -> Result<(), AllocError> {
    push_line(out, document.line_of(job, "add"))?;
    out.push_str("`add` of ")?;
    document.push_job(out, job)?;
    out.push_str(
        " adds up to more than 18446744073709551615, the largest sum. Take smaller numbers, or share them among jobs.\n",
    )
}
