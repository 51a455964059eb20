//! The request of a plan, in words.
use crate::wording::push_count;
use amo_plan::Heads;
use std::alloc::{AllocError, Global};

/// Appends the jobs of a plan, and the blocks that they make.
fn push_jobs(out: &mut String, heads: &Heads) -> Result<(), AllocError> {
    let jobs = heads.names.as_slice().len() as u64;
    push_count(out, jobs, "job", "jobs")?;
    if heads.version == 1 {
        return Ok(());
    }
    out.push_str(" in ")?;
    push_count(out, heads.givens.jobs as u64, "block", "blocks")?;
    let block = heads.block;
    write!(out, " of up to {block}")
}

/// Returns the request of a plan: its version, jobs, workers, threshold, moves and rounds.
pub(crate) fn asked_of(alloc: Global, heads: &Heads) -> Result<String, AllocError> {
    let mut out = String::new(alloc);
    let version = heads.version;
    let beta = heads.givens.beta;
    write!(out, "A plan of version {version}: ")?;
    push_jobs(&mut out, heads)?;
    out.push_str(" for ")?;
    push_count(&mut out, heads.givens.workers as u64, "worker", "workers")?;
    write!(out, ", with threshold {beta}. The schedule has ")?;
    push_count(
        &mut out,
        heads.moves.as_slice().len() as u64,
        "move",
        "moves",
    )?;
    out.push_str(", followed by ")?;
    push_count(&mut out, heads.rounds as u64, "round", "rounds")?;
    out.push_str(".\n")?;
    Ok(out)
}
