//! Writes the numbers with which a text begins.
ghost use Rattle.std.specs.Prelude.{◌≡◌, ◌++◌, OnOk, string_bytes, length};
ghost use Rattle.amo_render.specs.Numbers.{block_part, numbers_part, first_words, first_line};

use amo_params::Givens;
use amo_plan::Heads;
use std::alloc::AllocError;

/// Appends the words on blocks: nothing in version 1.
#[tactic(auto, unfolding(crate::specs::Numbers::block_part))]
fn push_block(out: &mut String, version: u32, block: u32, givens: Givens) -> Result<(), AllocError>
    ensures { OnOk result (string_bytes out.new ≡ string_bytes out.old ++ block_part version block givens) }
{
    if version == 1 {
        return Ok(());
    }
    let blocks = givens.jobs;
    write!(out, " block {block} blocks {blocks}")
}

/// Appends the numbers of jobs and workers and the threshold.
///
/// # Errors
///
/// `AllocError` if there was no memory.
#[tactic(auto, unfolding(crate::specs::Numbers::numbers_part))]
pub fn push_numbers(out: &mut String, heads: &Heads) -> Result<(), AllocError>
    ensures { OnOk result (string_bytes out.new ≡ string_bytes out.old
        ++ numbers_part heads.now.version heads.now.block (length heads.now.names) heads.now.givens) }
{
    let jobs = heads.names.as_slice().len();
    let workers = heads.givens.workers;
    let beta = heads.givens.beta;
    write!(out, "jobs {jobs}")?;
    push_block(out, heads.version, heads.block, heads.givens)?;
    write!(out, " workers {workers} beta {beta}")
}

/// Appends the words of the first line of a report: these numbers and the bound.
///
/// # Errors
///
/// `AllocError` if there was no memory. The text may have any content then, and the caller must
/// drop it.
#[tactic(auto, unfolding(crate::specs::Numbers::first_words))]
pub fn push_first_words(out: &mut String, heads: &Heads) -> Result<(), AllocError>
    ensures { OnOk result (string_bytes out.new ≡ string_bytes out.old
        ++ first_words heads.now.version heads.now.block (length heads.now.names) heads.now.givens) }
{
    let bound = heads.givens.bound();
    push_numbers(out, heads)?;
    write!(out, " bound {bound}")
}

/// Appends the first line of a report.
///
/// # Errors
///
/// `AllocError` if there was no memory. The text may have any content then, and the caller must
/// drop it.
#[tactic(auto, unfolding(crate::specs::Numbers::first_line))]
pub fn push_first_line(out: &mut String, heads: &Heads) -> Result<(), AllocError>
    ensures { OnOk result (string_bytes out.new ≡ string_bytes out.old
        ++ first_line heads.now.version heads.now.block (length heads.now.names) heads.now.givens) }
{
    push_first_words(out, heads)?;
    out.push_str("\n")
}
