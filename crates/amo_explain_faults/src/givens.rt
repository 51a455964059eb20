//! The reasons why numbers of jobs and workers and a threshold are outside their limits.
use crate::document::Document;
use crate::wording::push_line;
use amo_params::{GivensFault, MAX_BETA, MAX_JOBS, MAX_WORKERS};
use std::alloc::AllocError;

/// Appends the key of a number, and its value.
fn push_number(out: &mut String, document: &Document<'_>, key: &str) -> Result<(), AllocError> {
    let number = document.natural(key).unwrap_or(0);
    push_line(out, document.line_of(0, key))?;
    write!(out, "`{key}` is {number}")
}

/// Appends that there are too many jobs, or blocks of them, and how many jobs a block has to have.
fn push_many_jobs(out: &mut String, document: &Document<'_>) -> Result<(), AllocError> {
    let jobs = document.jobs().len() as u64;
    let block = jobs.div_ceil(MAX_JOBS as u64);
    if document.natural("version") == Some(2) {
        write!(
            out,
            "{jobs} jobs make more than {MAX_JOBS} blocks, the most that a plan has. Write `block = {block}`, or more.\n"
        )
    } else {
        write!(
            out,
            "There are {jobs} jobs, and a plan has at most {MAX_JOBS}. In version 2 a block of jobs counts as one: write `version = 2` and `block = {block}`.\n"
        )
    }
}

/// Appends the reason why the givens are outside their limits.
pub(crate) fn push_bad_givens(
    out: &mut String,
    document: &Document<'_>,
    fault: GivensFault,
) -> Result<(), AllocError> {
    match fault {
        GivensFault::TooManyJobs => push_many_jobs(out, document),
        GivensFault::NoWorkers | GivensFault::TooManyWorkers => {
            push_number(out, document, "workers")?;
            write!(out, ", and a plan has 1 to {MAX_WORKERS} workers.\n")
        }
        GivensFault::BetaLow => {
            let workers = document.natural("workers").unwrap_or(0);
            push_number(out, document, "beta")?;
            write!(
                out,
                ", and has to be at least as large as `workers`, which is {workers}. Write `beta = {workers}`, or more.\n"
            )
        }
        GivensFault::BetaHigh => {
            push_number(out, document, "beta")?;
            write!(out, ", and may be at most {MAX_BETA}.\n")
        }
    }
}
