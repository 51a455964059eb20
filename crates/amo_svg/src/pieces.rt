//! Writes the paths of a picture of jobs, in which each transition of a kind has its piece.
ghost use Rattle.std.specs.Prelude.{◌≡◌, ◌++◌, ◌≤◌, OnOk, string_bytes};
ghost use Rattle.amo_svg.specs.Pieces.{is_drawn, piece_x, piece_y, next_filing, mark_end, piece_end, piece_in, pieces, path, worker_class};
ghost use Rattle.amo_svg.specs.Scale.{last_number};

use crate::elements::{push_place, push_stroke_start};
use crate::marks::{is_claim, is_filing, until_filing};
use crate::scale::{at, band, end_of, last_number, narrow_lane, place};
use amo_trace::{Transition, job_of, transition_at};
use std::alloc::AllocError;

/// The kind of a path's pieces.
#[derive(Clone, Copy, Debug)]
pub(crate) enum Kind {
    /// The jobs that were performed, grey from then on.
    Columns,
    /// How long a worker had each of its jobs in hand, in the jobs' columns.
    Holds,
    /// A worker's failed attempts, in the jobs' columns.
    Failures,
    /// A worker's claims, in its lane of the band.
    Shares,
    /// A worker's claims, next to its lane.
    Ticks,
    /// A worker's failed attempts, next to its lane.
    Crosses,
}

/// Returns true if the transition has a piece of this kind.
fn is_drawn(kind: Kind, worker: u32, transition: &Transition) -> bool
    ensures { result ≡ is_drawn kind worker transition.now }
{
    match kind {
        Kind::Columns => is_filing(transition),
        Kind::Holds | Kind::Shares | Kind::Ticks => transition.worker == worker
            && is_claim(transition),
        Kind::Failures | Kind::Crosses => transition.worker == worker && transition.fails(),
    }
}

/// Returns how far to the right the piece is.
fn piece_x(kind: Kind, jobs: u32, worker: u32, transition: &Transition) -> u128
    requires { 1 ≤ jobs }
    ensures { result ≡ piece_x kind jobs worker transition.now }
{
    match kind {
        Kind::Columns | Kind::Holds | Kind::Failures | Kind::Shares => {
            place(jobs, job_of(transition.before))
        }
        Kind::Ticks => narrow_lane(worker) - 12,
        Kind::Crosses => narrow_lane(worker) + 2,
    }
}

/// Returns how far down the piece is.
fn piece_y(kind: Kind, last: usize, worker: u32, transition: &Transition) -> u128
    requires { 1 ≤ last }
    ensures { result ≡ piece_y kind last worker transition.now }
{
    match kind {
        Kind::Shares => band(worker),
        Kind::Columns | Kind::Holds | Kind::Failures | Kind::Ticks | Kind::Crosses => {
            at(last, transition.number)
        }
    }
}

/// Returns the first of these transitions in which the worker stores a performance.
fn next_filing(worker: u32, rest: &[Transition]) -> Option<Transition>
    ensures { result ≡ next_filing worker rest.now }
{
    transition_at(rest, until_filing(worker, rest))
}

/// Returns how a mark in the band goes on, by the performance of its job.
fn mark_end(filing: Option<Transition>) -> &'static str
    ensures { result.now ≡ mark_end filing }
{
    match filing {
        None => "v-4",
        Some(_) => "v-10",
    }
}

/// Appends how a piece goes on, the transitions after its own being these.
#[tactic(auto, unfolding(crate::specs::Pieces::piece_end))]
fn push_piece_end(
    out: &mut String,
    kind: Kind,
    last: usize,
    worker: u32,
    rest: &[Transition],
) -> Result<(), AllocError>
    requires { 1 ≤ last }
    ensures { OnOk result (string_bytes out.new ≡ string_bytes out.old ++ piece_end kind last worker rest.now) }
{
    match kind {
        Kind::Columns => out.push_str("V1032"),
        Kind::Holds => {
            let end = end_of(last, 2, next_filing(worker, rest));
            write!(out, "V{end}")
        }
        Kind::Failures => out.push_str("v3"),
        Kind::Shares => out.push_str(mark_end(next_filing(worker, rest))),
        Kind::Ticks | Kind::Crosses => out.push_str("h10"),
    }
}

/// Appends the piece of a transition that has one.
#[tactic(auto, unfolding(crate::specs::Pieces::piece))]
fn push_piece_in(
    out: &mut String,
    kind: Kind,
    jobs: u32,
    last: usize,
    worker: u32,
    transition: &Transition,
    rest: &[Transition],
) -> Result<(), AllocError>
    requires jobs { 1 ≤ jobs }
    requires last { 1 ≤ last }
    ensures { OnOk result (string_bytes out.new ≡ string_bytes out.old ++ piece_in kind jobs last worker transition.now rest.now) }
{
    if !is_drawn(kind, worker, transition) {
        return Ok(());
    }
    let x = piece_x(kind, jobs, worker, transition);
    push_place(out, x, piece_y(kind, last, worker, transition))?;
    push_piece_end(out, kind, last, worker, rest)
}

/// Appends the pieces of these rows.
fn push_pieces(
    out: &mut String,
    kind: Kind,
    jobs: u32,
    last: usize,
    worker: u32,
    rows: &[Transition],
) -> Result<(), AllocError>
    requires jobs { 1 ≤ jobs }
    requires last { 1 ≤ last }
    ensures { OnOk result (string_bytes out.new ≡ string_bytes out.old ++ pieces kind jobs last worker rows.now) }
{
    for (i, transition) in rows.iter().enumerate() {
        push_piece_in(out, kind, jobs, last, worker, transition, &rows[i + 1..])?;
    }
    Ok(())
}

/// Appends the path of these rows, of this kind and width.
#[tactic(auto, unfolding(crate::specs::Pieces::path))]
pub(crate) fn push_path(
    out: &mut String,
    class: &str,
    width: u128,
    kind: Kind,
    jobs: u32,
    worker: u32,
    rows: &[Transition],
) -> Result<(), AllocError>
    requires { 1 ≤ jobs }
    ensures { OnOk result (string_bytes out.new ≡ string_bytes out.old ++ path class.now width kind jobs worker rows.now) }
{
    push_stroke_start(out, class, width)?;
    push_pieces(out, kind, jobs, last_number(rows), worker, rows)?;
    out.push_str("\"/>\n")
}

/// Returns the colour of a worker.
pub(crate) fn worker_class(worker: u32) -> &'static str
    ensures { result.now ≡ worker_class worker }
{
    if worker % 2 == 1 { "c" } else { "i" }
}
