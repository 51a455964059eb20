//! Lines as they are listed, a row each.
ghost use Rattle.std.specs.Prelude.{◌≡◌, ◌≤◌, ◌<◌, ◌++◌, [], length, map, slice_index_or, string_bytes, IfOk, OnOk};
ghost use Rattle.amo_status.specs.declared.rows.Form.TheVariants.{Doubts};
ghost use Rattle.amo_status.specs.Rows.{is_listed, is_listed_in, kind_head, row_head, row_of, row_tail, rows_from, state_word, status_head};

use crate::age::{age_of, age_word};
use crate::standing::LineStatus;
use crate::state::{State, is};
use std::alloc::{AllocError, Global};

/// The lines that are listed, and the form of their rows.
#[derive(Clone, Copy, Debug, PartialEq, Eq)]
pub(crate) enum Form {
    /// The lines in doubt, untouched or running, by state, intent and line.
    Status,
    /// The lines in doubt, with the time at which they were begun, and how long ago they ended by a
    /// clock that shows this.
    Doubts(u64),
    /// The lines of this status, by intent and line.
    Kind(State),
}

/// Adds the rows of these lines. The text of the line k + 1 stands at k.
pub(crate) fn push_rows(
    text: &mut Vec<u8>,
    alloc: Global,
    form: Form,
    standings: &[LineStatus],
    texts: &[&[u8]],
) -> Result<(), AllocError>
    requires { length standings.now ≤ length texts.now }
    ensures { OnOk result (text.new.items ≡ text.old.items ++ rows_from (row_of form) 0 standings.now (map (λ t. t.now) texts.now)) }
{
    for (i, standing) in standings.iter().enumerate() {
        let job = text_at(texts, i);
        push_row(text, alloc, form, i as u64 + 1, standing, job)?;
    }
    Ok(())
}

/// Returns the text at this index.
pub(crate) fn text_at<'a>(texts: &[&'a [u8]], i: usize) -> &'a [u8]
    requires { i < length texts.now }
    ensures { result.now ≡ slice_index_or (map (λ t. t.now) texts.now) i [] }
{
    texts[i]
}

/// Adds the row of this line, if it is listed.
fn push_row(
    text: &mut Vec<u8>,
    alloc: Global,
    form: Form,
    line: u64,
    standing: &LineStatus,
    job: &[u8],
) -> Result<(), AllocError>
    ensures { OnOk result (text.new.items ≡ text.old.items ++ row_of form line standing.now job.now) }
{
    if !is_listed_in(form, standing.state) {
        return Ok(());
    }
    let head = row_head(alloc, form, line, standing)?;
    let tail = row_tail(alloc, form, standing)?;
    push_parts(text, head.as_bytes(), job, tail.as_bytes())
}

/// Returns true if a line of this status is listed in this form.
fn is_listed_in(form: Form, state: State) -> bool
    ensures { result ≡ is_listed_in form state }
{
    match form {
        Form::Status => is_listed(state),
        Form::Doubts(_) => is(State::Doubt, state),
        Form::Kind(kind) => is(kind, state),
    }
}

/// Returns the part of a row before the line's text.
fn row_head(
    alloc: Global,
    form: Form,
    line: u64,
    standing: &LineStatus,
) -> Result<String, AllocError>
    ensures { IfOk result (λ head. string_bytes head ≡ row_head form line standing.now) }
{
    match form {
        Form::Status | Form::Doubts(_) => status_head(alloc, line, standing),
        Form::Kind(_) => kind_head(alloc, line, standing),
    }
}

/// Returns the part of a row after the line's text.
fn row_tail(alloc: Global, form: Form, standing: &LineStatus) -> Result<String, AllocError>
    ensures { IfOk result (λ tail. string_bytes tail ≡ row_tail form standing.now) }
{
    match form {
        Form::Doubts(now) => doubt_tail(alloc, now, standing),
        Form::Status | Form::Kind(_) => String::from_str(alloc, "\n"),
    }
}

/// Returns the end of the row of a doubt, with its times.
fn doubt_tail(alloc: Global, now: u64, standing: &LineStatus) -> Result<String, AllocError>
    ensures { IfOk result (λ tail. string_bytes tail ≡ row_tail (Doubts now) standing.now) }
{
    let time = standing.time;
    let age = age_word(alloc, age_of(now, standing.ended))?;
    format!(in alloc; " {time} {age}\n")
}

/// Returns the part of a row before the line's text, by state, intent and line.
fn status_head(alloc: Global, line: u64, standing: &LineStatus) -> Result<String, AllocError>
    ensures { IfOk result (λ head. string_bytes head ≡ status_head line standing.now) }
{
    let word = state_word(standing.state);
    let worker = standing.worker;
    let serial = standing.serial;
    format!(in alloc; "{word} {worker}.{serial} {line} ")
}

/// Returns the part of a row before the line's text, by intent and line.
fn kind_head(alloc: Global, line: u64, standing: &LineStatus) -> Result<String, AllocError>
    ensures { IfOk result (λ head. string_bytes head ≡ kind_head line standing.now) }
{
    if is(State::Open, standing.state) {
        return format!(in alloc; "-\t{line}\t");
    }
    let worker = standing.worker;
    let serial = standing.serial;
    format!(in alloc; "{worker}.{serial}\t{line}\t")
}

/// Adds these three.
pub(crate) fn push_parts(
    text: &mut Vec<u8>,
    head: &[u8],
    middle: &[u8],
    tail: &[u8],
) -> Result<(), AllocError>
    ensures { OnOk result (text.new.items ≡ text.old.items ++ (head.now ++ (middle.now ++ tail.now))) }
{
    text.extend_from_slice(head)?;
    text.extend_from_slice(middle)?;
    text.extend_from_slice(tail)
}

/// Returns the word of a state.
pub(crate) fn state_word(state: State) -> &'static str
    ensures { result.now ≡ state_word state }
{
    match state {
        State::Open => "open",
        State::Done => "done",
        State::Failed => "failed",
        State::Doubt => "doubt",
        State::Untouched => "untouched",
        State::Running => "running",
    }
}

/// Returns true if the status lists a line of this status.
pub(crate) fn is_listed(state: State) -> bool
    ensures { result ≡ is_listed state }
{
    match state {
        State::Open | State::Done | State::Failed => false,
        State::Doubt | State::Untouched | State::Running => true,
    }
}
