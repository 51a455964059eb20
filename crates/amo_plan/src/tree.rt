//! The values in the tree of a document, by their keys.
ghost use Rattle.std.specs.Prelude.{◌≡◌, option_map, option_copied, is_some, map};
ghost use Rattle.toml.specs.Data.{get_member};
ghost use Rattle.toml.specs.View.{view, table_view, items_view};
ghost use Rattle.amo_plan.specs.Passing.{Gives, or_fault};
ghost use Rattle.amo_plan.specs.Tree.{has, natural, natural_at, text_at, tables_of, naturals_of};

use crate::fault::PlanFault;
use std::alloc::Global;
use toml::{Table, Value};

/// The value at a key.
pub(crate) fn value_at<'a>(table: &'a Table, key: &str) -> Option<&'a Value>
    ensures { option_map (λ v. view v.now) result ≡ get_member key.now (table_view table.now) }
{
    table.get(key)
}

/// The table has this key.
pub(crate) fn has_key(table: &Table, key: &str) -> bool
    ensures { result ≡ has key.now (table_view table.now) }
{
    value_at(table, key).is_some()
}

/// An integer that is not negative.
pub(crate) fn natural(value: &Value) -> Option<u64>
    ensures { result ≡ natural (view value.now) }
{
    u64::try_from(value.as_integer()?).ok()
}

/// Returns the integer at a key, if it is one that is not negative.
pub(crate) fn natural_at(table: &Table, key: &str) -> Option<u64>
    ensures { result ≡ natural_at key.now (table_view table.now) }
{
    natural(value_at(table, key)?)
}

/// The text at a key.
pub(crate) fn text_at<'a>(table: &'a Table, key: &str) -> Option<&'a str>
    ensures { option_copied result ≡ text_at key.now (table_view table.now) }
{
    value_at(table, key)?.as_str()
}

/// The items as tables, if each is one, or a wrong kind at the top level.
pub(crate) fn tables(alloc: Global, items: &[Value]) -> Result<Vec<&Table>, PlanFault>
    ensures { Gives (λ v. map (λ t. table_view t.now) v.items) result
        (or_fault (tables_of (items_view items.now)) (PlanFault.WrongKind 0)) }
{
    let mut tables = Vec::with_capacity(alloc, items.len())?;
    for item in items {
        match item.as_table() {
            Some(table) => tables.push(table)?,
            None => return Err(PlanFault::WrongKind(0)),
        }
    }
    Ok(tables)
}

/// The items as integers that are not negative, if each is one, or the fault.
pub(crate) fn naturals(
    alloc: Global,
    items: &[Value],
    fault: PlanFault,
) -> Result<Vec<u64>, PlanFault>
    ensures { Gives (λ v. v.items) result (or_fault (naturals_of (items_view items.now)) fault) }
{
    let mut numbers = Vec::with_capacity(alloc, items.len())?;
    for item in items {
        match natural(item) {
            Some(number) => numbers.push(number)?,
            None => return Err(fault),
        }
    }
    Ok(numbers)
}
