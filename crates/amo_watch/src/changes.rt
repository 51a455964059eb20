//! The attempts of a journal that have changed since they were shown.
ghost use Rattle.std.specs.Prelude.{◌≡◌, ◌++◌, drop, IfOk, OnOk};
ghost use Rattle.amo_status.specs.States.{is, number_of};
ghost use Rattle.amo_watch.specs.Changes.{changed, kind_of, same_attempt, same_outcome, same_row, unless_first};

use crate::outcome::{code_in, time_in};
use crate::row::AttemptRow;
use amo_run_log::Outcome;
use amo_status::State;
use std::alloc::{AllocError, Global};

/// Returns the rows, in order, that the shown rows don't have at their places. If a reader puts
/// them at the places of their worker and serial number, it has all rows.
///
/// # Errors
///
/// `AllocError` if there was no memory.
pub fn changed(
    alloc: Global,
    shown: &[AttemptRow],
    rows: &[AttemptRow],
) -> Result<Vec<AttemptRow>, AllocError>
    ensures { IfOk result (λ found. found.items ≡ changed shown.now rows.now) }
{
    let mut found = Vec::new(alloc);
    for (i, row) in rows.iter().enumerate() {
        push_unless_shown(&mut found, shown, i, row)?;
    }
    Ok(found)
}

/// Adds the row unless it stands at this place.
fn push_unless_shown(
    found: &mut Vec<AttemptRow>,
    shown: &[AttemptRow],
    i: usize,
    row: &AttemptRow,
) -> Result<(), AllocError>
    ensures { OnOk result (found.new.items ≡ found.old.items ++ unless_first (drop i shown.now) row.now) }
{
    if i < shown.len() && same_row(&shown[i], row) {
        return Ok(());
    }
    found.push(*row)?;
    Ok(())
}

/// Returns true if two rows are the same.
fn same_row(a: &AttemptRow, b: &AttemptRow) -> bool
    ensures { result ≡ same_row a.now b.now }
{
    same_attempt(a, b) && (same_outcome(a.outcome, b.outcome) && same_state(a.state, b.state))
}

/// Returns true if two rows show the same attempt.
fn same_attempt(a: &AttemptRow, b: &AttemptRow) -> bool
    ensures { result ≡ same_attempt a.now b.now }
{
    a.worker == b.worker && (a.serial == b.serial && (a.line == b.line && a.begun == b.begun))
}

/// Returns true if two outcomes are the same.
fn same_outcome(a: Option<Outcome>, b: Option<Outcome>) -> bool
    ensures { result ≡ same_outcome a b }
{
    kind_of(a) == kind_of(b) && (code_in(a) == code_in(b) && time_in(a) == time_in(b))
}

/// Returns the kind of an outcome, by its place among all.
fn kind_of(outcome: Option<Outcome>) -> u8
    ensures { result ≡ kind_of outcome }
{
    match outcome {
        None => 0,
        Some(Outcome::Done { .. }) => 1,
        Some(Outcome::Doubt { .. }) => 2,
        Some(Outcome::Unbegun) => 3,
        Some(Outcome::Untouched { .. }) => 4,
    }
}

/// Returns true if two states are the same.
fn same_state(a: State, b: State) -> bool
    ensures { result ≡ is a b }
{
    number_of(a) == number_of(b)
}

/// Returns the place of a state among all.
fn number_of(state: State) -> u8
    ensures { result ≡ number_of state }
{
    match state {
        State::Open => 0,
        State::Done => 1,
        State::Failed => 2,
        State::Doubt => 3,
        State::Untouched => 4,
        State::Running => 5,
    }
}
