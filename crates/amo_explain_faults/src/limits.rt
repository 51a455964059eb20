//! Limits that a plan is above.
use crate::document::{Document, natural};
use crate::schedule::moves_in;
use crate::wording::push_line;
use amo_params::MAX_STEPS;
use amo_plan::{MOST_MOVES, MOST_ROUNDS};
use std::alloc::AllocError;
use toml::Value;

/// Returns the first budget above the limit, and the worker that it is for.
fn large_budget(document: &Document<'_>) -> Option<(usize, u64)> {
    let Some(Value::Array(budgets)) = document.value("budgets") else {
        return None;
    };
    for (i, value) in budgets.iter().enumerate() {
        let budget = natural(value)?;
        if budget > MAX_STEPS {
            return Some((i.saturating_add(1), budget));
        }
    }
    None
}

/// Appends that a budget is above the limit.
fn push_large_budget(out: &mut String, document: &Document<'_>) -> Result<(), AllocError> {
    let Some((worker, budget)) = large_budget(document) else {
        return Ok(());
    };
    push_line(out, document.line_of(0, "budgets"))?;
    write!(
        out,
        "`budgets` has {budget} for worker {worker}, and each may be at most {MAX_STEPS}.\n"
    )
}

/// Appends which limit the plan of a document is above.
pub(crate) fn push_too_long(out: &mut String, document: &Document<'_>) -> Result<(), AllocError> {
    let moves = moves_in(document.text_at("schedule"));
    let rounds = document.natural("rounds").unwrap_or(0);
    if moves > MOST_MOVES {
        push_line(out, document.line_of(0, "schedule"))?;
        write!(
            out,
            "`schedule` has {moves} moves, and may have at most {MOST_MOVES}. Each of up to {MOST_ROUNDS} `rounds` is a turn of every worker more.\n"
        )
    } else if rounds > MOST_ROUNDS {
        push_line(out, document.line_of(0, "rounds"))?;
        write!(
            out,
            "`rounds` is {rounds}, and may be at most {MOST_ROUNDS}.\n"
        )
    } else {
        push_large_budget(out, document)
    }
}
