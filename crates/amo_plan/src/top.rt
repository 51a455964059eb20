//! The top level of a plan, and how it is read.
ghost use Rattle.std.specs.Prelude.{◌≡◌, true, false, map, codes, option_copied, option_map, length, IfOk, IfSome};
ghost use Rattle.std.specs.List.{list_all};
ghost use Rattle.toml.specs.Data.{get_member};
ghost use Rattle.toml.specs.View.{view, table_view};
ghost use Rattle.amo_plan.specs.Keeps.{is_form};
ghost use Rattle.amo_plan.specs.Passing.{Gives, or_fault, is_between};
ghost use Rattle.amo_plan.specs.Tree.{each_key};
ghost use Rattle.amo_plan.specs.Top.{version_of, is_two, is_top_key, known_block, block_in, block_of, jobs_of, text_of, rounds_of, budgets_of, form_of, more_values, top_values, top_of};
ghost use Rattle.amo_plan.specs.declared.limits.TheConstants.{NEWEST_VERSION, MOST_IN_BLOCK};
ghost use Rattle.amo_plan.specs.Seen.{top_seen, more_seen};

use crate::fault::PlanFault;
use crate::limits::{MOST_IN_BLOCK, NEWEST_VERSION};
use crate::tree::{has_key, natural, natural_at, naturals, tables, value_at};
use std::alloc::Global;
use toml::{Table, Value};

/// The version, and how many jobs make a block.
#[derive(Clone, Copy, Debug, PartialEq, Eq)]
pub(crate) struct Form {
    /// The version, 1 or 2.
    pub(crate) version: u32,
    /// How many jobs make a block, 1 to `MOST_IN_BLOCK`.
    pub(crate) block: u32,
}

/// The values that may be absent, but for the jobs.
#[derive(Drop)]
pub(crate) struct More<'a> {
    /// The text of the schedule, empty if the key is absent.
    pub(crate) schedule: &'a str,
    /// The number of passes, 0 if the key is absent. Its limit isn't tested yet.
    pub(crate) rounds: u64,
    /// As many budgets as workers; `None` if the key is absent. Their limit isn't tested yet.
    pub(crate) budgets: Option<Vec<u64>>,
}

/// The values of the top level.
#[derive(Drop)]
pub(crate) struct Top<'a> {
    /// The version, and how many jobs make a block.
    pub(crate) form: Form,
    /// The number of workers. No limit is tested yet.
    pub(crate) workers: u64,
    /// The threshold. No limit is tested yet.
    pub(crate) beta: u64,
    /// The tables of the jobs, empty if the key is absent.
    pub(crate) jobs: Vec<&'a Table>,
    /// The values that may be absent, but for the jobs.
    pub(crate) more: More<'a>,
}

/// Returns the version, if it is 1 to `NEWEST_VERSION`.
fn version(table: &Table) -> Option<u32>
    ensures version { result ≡ version_of (table_view table.now) }
    ensures within { IfSome result (λ v. is_between 1 NEWEST_VERSION v ≡ true) }
{
    let number = natural_at(table, "version")?;
    if 1 <= number && number <= NEWEST_VERSION {
        Some(number as u32)
    } else {
        None
    }
}

/// Returns true if the key is one of the top level. `block` is one if `with_block` is true.
fn is_top_key(with_block: bool, key: &str) -> bool
    ensures { result ≡ is_top_key with_block key.now }
{
    (key == "version")
        | (key == "workers")
        | (key == "beta")
        | (key == "job")
        | (key == "schedule")
        | (key == "rounds")
        | (key == "budgets")
        | (with_block & (key == "block"))
}

/// Each key is one of the top level.
fn has_top_keys(with_block: bool, table: &Table) -> bool
    ensures { result ≡ each_key (is_top_key with_block) (table_view table.now) }
{
    for key in table.keys() {
        if !is_top_key(with_block, key.as_str()) {
            return false;
        }
    }
    true
}

/// Returns the number of jobs in a block of version 2, in which the key may be absent.
fn block_in(value: Option<&Value>) -> Option<u32>
    ensures within { IfSome result (λ b. is_between 1 MOST_IN_BLOCK b ≡ true) }
    ensures block { result ≡ block_in (option_map (λ v. view v.now) value.entry) }
{
    let Some(value) = value else {
        return Some(1);
    };
    let block = natural(value)?;
    if 1 <= block && block <= MOST_IN_BLOCK {
        Some(block as u32)
    } else {
        None
    }
}

/// How many jobs make a block in this version.
fn block(version: u32, table: &Table) -> Option<u32>
    requires { is_between 1 NEWEST_VERSION version ≡ true }
    ensures block { result ≡ block_of version (table_view table.now) }
    ensures form { IfSome result (λ b. is_form version b ≡ true) }
{
    if version == 2 {
        block_in(value_at(table, "block"))
    } else {
        Some(1)
    }
}

/// The version, and how many jobs make a block.
#[tactic(auto, unfolding(crate::specs::Top::form_of))]
fn read_form(table: &Table) -> Result<Form, PlanFault>
    ensures form { Gives (λ f. f) result (form_of (table_view table.now)) }
    ensures fine { IfOk result (λ f. is_form f.version f.block ≡ true) }
{
    let version = version(table).ok_or(PlanFault::WrongKind(0))?;
    let block = block(version, table).ok_or(PlanFault::WrongKind(0))?;
    Ok(Form { version, block })
}

/// The jobs, of which there may be none.
fn jobs(alloc: Global, table: &Table) -> Result<Vec<&Table>, PlanFault>
    ensures { Gives (λ v. map (λ t. table_view t.now) v.items) result
        (or_fault (jobs_of (get_member (codes "job") (table_view table.now))) (PlanFault.WrongKind 0)) }
{
    match value_at(table, "job") {
        None => Ok(Vec::new(alloc)),
        Some(value) => match value.as_array() {
            Some(items) => tables(alloc, items),
            None => Err(PlanFault::WrongKind(0)),
        },
    }
}

/// The schedule, which may be absent.
fn schedule(table: &Table) -> Option<&str>
    ensures { option_copied result ≡ text_of (get_member (codes "schedule") (table_view table.now)) }
{
    match value_at(table, "schedule") {
        None => Some(""),
        Some(value) => value.as_str(),
    }
}

/// The rounds, which may be absent.
fn rounds(table: &Table) -> Option<u64>
    ensures { result ≡ rounds_of (get_member (codes "rounds") (table_view table.now)) }
{
    match value_at(table, "rounds") {
        None => Some(0),
        Some(value) => natural(value),
    }
}

/// The budgets, which may be absent.
fn budgets(alloc: Global, workers: u64, table: &Table) -> Result<Option<Vec<u64>>, PlanFault>
    ensures count { IfOk result (λ o. IfSome o (λ v. length v.items ≡ workers)) }
    ensures budgets { Gives (λ o. option_map (λ v. v.items) o) result
        (or_fault (budgets_of workers (get_member (codes "budgets") (table_view table.now))) (PlanFault.WrongKind 0)) }
{
    let Some(value) = value_at(table, "budgets") else {
        return Ok(None);
    };
    let Some(items) = value.as_array() else {
        return Err(PlanFault::WrongKind(0));
    };
    let budgets = naturals(alloc, items, PlanFault::WrongKind(0))?;
    if budgets.len() as u64 != workers {
        return Err(PlanFault::WrongKind(0));
    }
    Ok(Some(budgets))
}

/// The values that may be absent, each of its kind.
#[tactic(auto, unfolding(crate::specs::Top::more_values))]
fn read_more(alloc: Global, workers: u64, table: &Table) -> Result<More<'_>, PlanFault>
    ensures count { IfOk result (λ m. IfSome m.budgets (λ v. length v.items ≡ workers)) }
    ensures more { Gives more_seen result (more_values workers (table_view table.now)) }
{
    let schedule = schedule(table).ok_or(PlanFault::WrongKind(0))?;
    let rounds = rounds(table).ok_or(PlanFault::WrongKind(0))?;
    let budgets = budgets(alloc, workers, table)?;
    Ok(More {
        schedule,
        rounds,
        budgets,
    })
}

/// The values, each of its kind.
#[tactic(auto, unfolding(crate::specs::Top::top_values))]
fn read_values(alloc: Global, table: &Table) -> Result<Top<'_>, PlanFault>
    ensures count { IfOk result (λ t. IfSome t.more.budgets (λ v. length v.items ≡ t.workers)) }
    ensures fine { IfOk result (λ t. is_form t.form.version t.form.block ≡ true) }
    ensures top { Gives top_seen result (top_values (table_view table.now)) }
{
    let form = read_form(table)?;
    let workers = natural_at(table, "workers").ok_or(PlanFault::WrongKind(0))?;
    let beta = natural_at(table, "beta").ok_or(PlanFault::WrongKind(0))?;
    let jobs = jobs(alloc, table)?;
    let more = read_more(alloc, workers, table)?;
    Ok(Top {
        form,
        workers,
        beta,
        jobs,
        more,
    })
}

/// The top level: no other keys, each that is needed, and each of its kind.
#[tactic(auto, unfolding(crate::specs::Top::top_of))]
pub(crate) fn read_top(alloc: Global, table: &Table) -> Result<Top<'_>, PlanFault>
    ensures count { IfOk result (λ t. IfSome t.more.budgets (λ v. length v.items ≡ t.workers)) }
    ensures fine { IfOk result (λ t. is_form t.form.version t.form.block ≡ true) }
    ensures top { Gives top_seen result (top_of (table_view table.now)) }
{
    if !has_top_keys(version(table) == Some(2), table) {
        return Err(PlanFault::UnknownKey(0));
    }
    if !(has_key(table, "version") && has_key(table, "workers") && has_key(table, "beta")) {
        return Err(PlanFault::MissingKey(0));
    }
    read_values(alloc, table)
}
