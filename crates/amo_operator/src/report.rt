//! The texts that a command prints, by what is known of the run.
ghost use Rattle.std.specs.Prelude.{◌≡◌, ◌≤◌, length, map, IfOk};
ghost use Rattle.amo_operator.specs.Reports.{doubts_in, doubts_of, lines_stand, status_in, status_of};
ghost use Rattle.amo_operator.specs.Views.{known_of};

use crate::model::Form;
use crate::probing::Seen;
use amo_run_files::Jobs;
use amo_status::{
    LineStatus, counts, doubts_json, doubts_text, lines_text, standings, status_json, status_text,
};
use std::alloc::{AllocError, Global};

/// Returns the status of the run.
pub(crate) fn status_of(alloc: Global, form: Form, seen: &Seen) -> Result<Vec<u8>, AllocError>
    ensures { IfOk result (λ text. text.items ≡ status_of form (known_of seen.now)) }
{
    let standings = lines_stand(alloc, seen)?;
    let texts = texts_of(alloc, &seen.jobs)?;
    status_in(alloc, form, &seen.alive, &standings, &texts)
}

/// Returns the doubts of the run, by a clock that shows this time.
pub(crate) fn doubts_of(
    alloc: Global,
    form: Form,
    seen: &Seen,
    time: u64,
) -> Result<Vec<u8>, AllocError>
    ensures { IfOk result (λ text. text.items ≡ doubts_of form (known_of seen.now) time) }
{
    let standings = lines_stand(alloc, seen)?;
    let texts = texts_of(alloc, &seen.jobs)?;
    doubts_in(alloc, form, time, &standings, &texts)
}

/// Returns how each line of the run stands.
fn lines_stand(alloc: Global, seen: &Seen) -> Result<Vec<LineStatus>, AllocError>
    ensures exact { IfOk result (λ found. found.items ≡ lines_stand (known_of seen.now)) }
    ensures len { IfOk result (λ found. length found.items ≡ length (known_of seen.now).lines) }
{
    let found = standings(alloc, &seen.log(), seen.jobs.count() as usize)?;
    Ok(found)
}

/// Returns the text of each line.
fn texts_of(alloc: Global, jobs: &Jobs) -> Result<Vec<&[u8]>, AllocError>
    ensures { IfOk result (λ texts. map (λ t. t.now) texts.items ≡ jobs.now) }
{
    let mut texts = Vec::new(alloc);
    for k in 0..jobs.count() {
        texts.push(jobs.line(k + 1).unwrap_or(b""))?;
    }
    Ok(texts)
}

/// Returns the status of these lines, in this form.
fn status_in(
    alloc: Global,
    form: Form,
    alive: &[u64],
    standings: &[LineStatus],
    texts: &[&[u8]],
) -> Result<Vec<u8>, AllocError>
    requires { length standings.now ≤ length texts.now }
    ensures { IfOk result (λ text. text.items ≡ status_in form alive.now standings.now (map (λ t. t.now) texts.now)) }
{
    let counts = counts(standings);
    match form {
        Form::Text => status_text(alloc, &counts, alive, standings, texts),
        Form::Json => status_json(alloc, &counts, alive, standings, texts),
        Form::Lines(kind) => lines_text(alloc, kind, standings, texts),
    }
}

/// Returns the doubts among these lines, in this form.
fn doubts_in(
    alloc: Global,
    form: Form,
    time: u64,
    standings: &[LineStatus],
    texts: &[&[u8]],
) -> Result<Vec<u8>, AllocError>
    requires { length standings.now ≤ length texts.now }
    ensures { IfOk result (λ text. text.items ≡ doubts_in form time standings.now (map (λ t. t.now) texts.now)) }
{
    match form {
        Form::Json => doubts_json(alloc, time, standings, texts),
        Form::Text | Form::Lines(_) => doubts_text(alloc, time, standings, texts),
    }
}
