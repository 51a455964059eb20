//! Reading of a plan.
ghost use Rattle.std.specs.Prelude.{◌≡◌, ◌<◌, true, map, length, Err, IfOk, IfSome};
ghost use Rattle.std.specs.Int.{div_ceil};
ghost use Rattle.toml.specs.View.{table_view};
ghost use Rattle.amo_plan.specs.declared.fault.PlanFault.TheVariants.{TooLong};
ghost use Rattle.amo_plan.specs.declared.limits.TheConstants.{MOST_BYTES};
ghost use Rattle.amo_plan.specs.Passing.{Gives};
ghost use Rattle.amo_plan.specs.Keeps.{is_form};
ghost use Rattle.amo_plan.specs.Plan.{document, or_bad_givens, plan_with, plan_in, plan_of};
ghost use Rattle.amo_plan.specs.Seen.{top_seen};
ghost use Rattle.amo_plan.specs.PlanSeen.{plan_seen};
ghost use Rattle.amo_params.specs.Givens.{givens_of};

use crate::fault::PlanFault;
use crate::items::Items;
use crate::job::{Job, read_jobs};
use crate::limits::{MOST_BYTES, budgets_within};
use crate::naming::{check_jobs, part_jobs};
use crate::plan::{Heads, Plan};
use crate::schedule::read_schedule;
use crate::top::{Top, read_top};
use amo_params::Givens;
use std::alloc::Global;
use toml::Table;

/// The tree of a text.
#[tactic(auto, using(crate::proofs::PlanLemmas::document_ok, crate::proofs::PlanLemmas::document_refused))]
fn document(alloc: Global, bytes: &[u8]) -> Result<Table, PlanFault>
    ensures { Gives (λ t. table_view t) result (document bytes.now) }
{
    match toml::table_from_slice(alloc, bytes) {
        Ok(table) => Ok(table),
        Err(error) if error.is_memory() => Err(PlanFault::NoMemory),
        Err(_) => Err(PlanFault::NotToml),
    }
}

/// Returns the givens of so many jobs in blocks, or their fault.
fn block_givens(jobs: usize, block: u32, workers: u64, beta: u64) -> Result<Givens, PlanFault>
    requires { 0 < block }
    ensures { Gives (λ g. g) result (or_bad_givens (givens_of (div_ceil jobs block) workers beta)) }
{
    let blocks = (jobs as u64).div_ceil(block as u64);
    match Givens::try_new(blocks, workers, beta) {
        Ok(givens) => Ok(givens),
        Err(fault) => Err(PlanFault::BadGivens(fault)),
    }
}

/// The plan of these givens and jobs.
#[tactic(auto, unfolding(crate::specs::Plan::plan_with))]
fn plan_with(
    alloc: Global,
    givens: Givens,
    top: &Top<'_>,
    jobs: Vec<Job>,
) -> Result<Plan, PlanFault>
    requires form { is_form top.now.form.version top.now.form.block ≡ true }
    requires blocks { givens.jobs ≡ div_ceil (length jobs.items) top.now.form.block }
    requires workers { givens.workers ≡ top.now.workers }
    requires budgets { IfSome top.now.more.budgets (λ v. length v.items ≡ top.now.workers) }
    ensures { Gives plan_seen result (plan_with (top_seen top.now) givens jobs.items) }
{
    check_jobs(alloc, &jobs)?;
    let moves = read_schedule(alloc, top.form.version, givens.workers, top.more.schedule)?;
    let budgets = budgets_within(alloc, givens.workers, top.more.rounds, &top.more.budgets)?;
    let (names, tasks) = part_jobs(alloc, jobs)?;
    Ok(Plan {
        heads: Heads {
            version: top.form.version,
            block: top.form.block,
            givens,
            names: Items::new(names),
            moves: Items::new(moves),
            rounds: top.more.rounds as u32,
            budgets: Items::new(budgets),
        },
        tasks: Items::new(tasks),
    })
}

/// The plan of a tree.
#[tactic(auto, unfolding(crate::specs::Plan::plan_in))]
fn plan_in(alloc: Global, table: &Table) -> Result<Plan, PlanFault>
    ensures { Gives plan_seen result (plan_in (table_view table.now)) }
{
    let top = read_top(alloc, table)?;
    let jobs = read_jobs(alloc, &top.jobs)?;
    let givens = block_givens(jobs.len(), top.form.block, top.workers, top.beta)?;
    plan_with(alloc, givens, &top, jobs)
}

/// Returns the plan of a text. The contract is exact: a plan comes only if `plan_of` gives exactly
/// that plan.
///
/// # Errors
///
/// The first test that the text fails, as `plan_of` gives it; or `NoMemory` if memory is refused. A
/// text that is too long is refused before any memory is taken. After an error nothing is left
/// behind.
///
/// # Examples
///
/// ```
/// use amo_params::Move;
/// use amo_plan::{PlanFault, read_plan};
///
/// let text = "version = 1
/// workers = 1
/// beta = 1
/// schedule = \"1*2 x1\"
/// job = [{name = \"a\", say = \"hi\"}]
/// ";
/// let plan = read_plan(rt.alloc(), text.as_bytes())?;
/// assert!(rt; plan.heads.givens.jobs() == 1 && plan.tasks.as_slice().len() == 1);
/// let moves = [Move::Turn(1), Move::Turn(1), Move::Halt(1)];
/// assert!(rt; plan.heads.moves.as_slice() == moves.as_slice());
/// let cut = read_plan(rt.alloc(), "version = 1\nworkers = 1\n".as_bytes());
/// assert!(rt; matches!(cut, Err(PlanFault::MissingKey(0))));
/// ```
#[tactic(auto, unfolding(crate::specs::Plan::plan_of))]
pub fn read_plan(alloc: Global, bytes: &[u8]) -> Result<Plan, PlanFault>
    ensures plan { Gives plan_seen result (plan_of bytes.now) }
    ensures long { MOST_BYTES < length bytes.now → result ≡ Err TooLong }
{
    if bytes.len() > MOST_BYTES {
        return Err(PlanFault::TooLong);
    }
    let table = document(alloc, bytes)?;
    plan_in(alloc, &table)
}
