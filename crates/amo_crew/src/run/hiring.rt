//! How a crew is hired.
ghost use Rattle.std.specs.Prelude.{◌≡◌, ◌+◌, ◌≤◌, length, vec_len, IfOk};
ghost use Rattle.amo_crew.specs.Hired.{AreHired};

use crate::kit::Kit;
use crate::plan::StopPlan;
use crate::run::member::Member;
use amo_claims::begin;
use amo_words::{Book, Floor, HireFault};
use std::alloc::Global;

/// Hires the worker of the last outlet.
fn hire_one<P: Drop, Out: Drop>(
    alloc: Global,
    floor: &Floor<P>,
    book: &mut Book<P>,
    plan: &StopPlan,
    kit: &mut Kit<P, Out>,
) -> Result<(), HireFault>
    requires hired { AreHired floor.now.table_id plan.now.givens book.old.view.payloads plan.now.budgets book.old kit.old }
    requires more { 1 ≤ vec_len kit.old.outlets }
    ensures payloads { book.new.view.payloads ≡ book.old.view.payloads }
    ensures hired { AreHired floor.now.table_id plan.now.givens book.new.view.payloads plan.now.budgets book.new kit.new }
    ensures fewer { IfOk result (λ _. vec_len kit.new.outlets + 1 ≡ vec_len kit.old.outlets) }
{
    let p = kit.outlets.len() as u32;
    let worker = book.hire(alloc, floor, p)?;
    let budget = plan.budget(p);
    let Some(outlet) = kit.outlets.pop() else {
        unreachable!()
    };
    kit.crew.push_reserved(Member {
        after: begin(worker),
        outlet,
        budget,
    });
    Ok(())
}

/// Hires each worker that is still to be hired, the last first.
pub(crate) fn hire_all<P: Drop, Out: Drop>(
    alloc: Global,
    floor: &Floor<P>,
    book: &mut Book<P>,
    plan: &StopPlan,
    kit: &mut Kit<P, Out>,
) -> Result<(), HireFault>
    requires hired { AreHired floor.now.table_id plan.now.givens book.old.view.payloads plan.now.budgets book.old kit.old }
    ensures payloads { book.new.view.payloads ≡ book.old.view.payloads }
    ensures hired { AreHired floor.now.table_id plan.now.givens book.new.view.payloads plan.now.budgets book.new kit.new }
    ensures all { IfOk result (λ _. length kit.new.crew.items ≡ plan.now.givens.workers) }
{
    while !kit.outlets.is_empty() {
        hire_one(alloc, floor, book, plan, kit)?;
    }
    Ok(())
}
