//! The marks of transitions in a picture.
ghost use Rattle.std.specs.Prelude.{◌≡◌, ◌++◌, ◌+◌, ◌<◌, ◌≤◌, ◌^◌, ◌&&◌, ◌==◌, OnOk, IfOk, string_bytes, length};
ghost use Rattle.std.specs.List.{position_or_len};
ghost use Rattle.amo_kk.specs.Record.{is_over};
ghost use Rattle.amo_svg.specs.declared.picturing.TheConstants.{MOST_ROWS};
ghost use Rattle.amo_svg.specs.Marks.{mark_of_load, mark_of_want, mark_of_act, mark_of, class_of, loaded_word, sees_more, sees, ends, label_of, lane, row, until, is_announcement, is_claim, is_filing, loaded_of, seen_at, line_start, level_to, line_to, apart, lead_at, shape_at};

use crate::elements::{
    push_area, push_dotted_start, push_place, push_straight, push_stroke, push_stroke_start,
};
use amo_kk::Want;
use amo_trace::{Act, Transition, job_of, push_done, push_equals, push_next};
use std::alloc::{AllocError, Global};

/// The mark of a transition.
#[derive(Clone, Copy, Debug)]
pub(crate) enum Mark {
    /// It is stopped.
    Stop,
    /// The attempt on this job has failed.
    Fail(u32),
    /// A load that gives 0.
    Zero(Want),
    /// A load that gives its own job.
    Own(Want, u32),
    /// A load that gives another job.
    Other(Want, u32),
    /// It leaves.
    Leave,
    /// It announces this job.
    Announcement(u32),
    /// It claims this job.
    Claim(u32),
    /// The performance of this job is stored.
    Filing(u32),
    /// Nothing changes.
    Still,
}

/// Returns the mark of a load that gives this value, by the worker's own job.
fn mark_of_load(job: u32, want: Want, value: u32) -> Mark
    ensures { result ≡ mark_of_load job want value }
{
    if value == 0 {
        Mark::Zero(want)
    } else if value == job {
        Mark::Own(want, value)
    } else {
        Mark::Other(want, value)
    }
}

/// Returns the mark of a load or store.
fn mark_of_want(job: u32, want: Want, value: u32) -> Mark
    ensures { result ≡ mark_of_want job want value }
{
    match want {
        Want::StoreNext(j) => Mark::Announcement(j),
        Want::LoadNext(_) | Want::LoadDone(_, _) => mark_of_load(job, want, value),
        Want::StoreClaim(_, j) => Mark::Claim(j),
        Want::StoreDone(_, j) => Mark::Filing(j),
        Want::Nothing => Mark::Still,
    }
}

/// Returns the mark of an act, by the worker's own job.
fn mark_of_act(job: u32, act: Act) -> Mark
    ensures { result ≡ mark_of_act job act }
{
    match act {
        Act::Turned(want, value) => mark_of_want(job, want, value),
        Act::Leaves => Mark::Leave,
        Act::Stops => Mark::Stop,
        Act::Stays | Act::Idles => Mark::Still,
    }
}

/// Returns the mark of a transition.
pub(crate) fn mark_of(transition: &Transition) -> Mark
    ensures { result ≡ mark_of transition.now }
{
    let job = job_of(transition.before);
    if transition.fails() {
        return Mark::Fail(job);
    }
    mark_of_act(job, transition.act)
}

/// Returns the colour of a mark's words.
pub(crate) fn class_of(mark: Mark) -> &'static str
    ensures { result.now ≡ class_of mark }
{
    match mark {
        Mark::Fail(_) | Mark::Own(_, _) => "x",
        Mark::Zero(_) | Mark::Other(_, _) => "f",
        Mark::Claim(_) | Mark::Filing(_) => "c",
        Mark::Stop | Mark::Leave | Mark::Announcement(_) | Mark::Still => "i",
    }
}

/// Appends the word that is loaded.
fn push_loaded(out: &mut String, want: Want) -> Result<(), AllocError>
    ensures { OnOk result (string_bytes out.new ≡ string_bytes out.old ++ loaded_word want) }
{
    match want {
        Want::LoadNext(q) => push_next(out, q),
        Want::LoadDone(q, k) => push_done(out, q, k),
        Want::StoreNext(_) | Want::StoreClaim(_, _) | Want::StoreDone(_, _) | Want::Nothing => {
            Ok(())
        }
    }
}

/// Returns the words after a value that was loaded.
fn sees_more(want: Want) -> &'static str
    ensures { result.now ≡ sees_more want }
{
    match want {
        Want::LoadDone(_, _) => " done",
        Want::LoadNext(_)
        | Want::StoreNext(_)
        | Want::StoreClaim(_, _)
        | Want::StoreDone(_, _)
        | Want::Nothing => "",
    }
}

/// Appends the value that was loaded.
fn push_sees(out: &mut String, want: Want, value: u32) -> Result<(), AllocError>
    ensures { OnOk result (string_bytes out.new ≡ string_bytes out.old ++ sees want value) }
{
    write!(out, "sees {value}")?;
    out.push_str(sees_more(want))
}

/// Returns the words after those that may be the last of a worker.
fn ends(over: bool) -> &'static str
    ensures { result.now ≡ ends over }
{
    if over { ", ends" } else { "" }
}

/// Appends the words of a mark. `over` is true if the worker has ended.
#[tactic(auto, unfolding(crate::specs::Marks::label_of))]
pub(crate) fn push_label(out: &mut String, mark: Mark, over: bool) -> Result<(), AllocError>
    ensures { OnOk result (string_bytes out.new ≡ string_bytes out.old ++ label_of mark over) }
{
    match mark {
        Mark::Stop => out.push_str("is stopped"),
        Mark::Fail(j) => {
            write!(out, "fails at {j}")?;
            out.push_str(ends(over))
        }
        Mark::Zero(want) => {
            push_loaded(out, want)?;
            push_equals(out, 0)
        }
        Mark::Own(want, value) | Mark::Other(want, value) => push_sees(out, want, value),
        Mark::Leave => out.push_str("leaves"),
        Mark::Announcement(j) => write!(out, "announces {j}"),
        Mark::Claim(j) => write!(out, "claims {j}"),
        Mark::Filing(j) => {
            write!(out, "has done {j}")?;
            out.push_str(ends(over))
        }
        Mark::Still => Ok(()),
    }
}

/// The number of rows after which the heads of the lanes are drawn again.
pub(crate) const RULED_ROWS: usize = 50;

/// Returns how far down a row is.
pub(crate) fn row(number: usize) -> u128
    ensures value { result ≡ row number }
    ensures near { result < 2 ^ 80 }
{
    let heads = number.saturating_sub(1) / RULED_ROWS;
    72 + 18 * (number as u128 + heads as u128)
}

/// Returns the place of a worker's lifeline.
pub(crate) fn lane(worker: u32) -> u128
    ensures value { result ≡ lane worker }
    ensures near { result < 2 ^ 40 }
{
    (176 * worker as u128).saturating_sub(100)
}

/// Returns true if the transition stores to the worker's announcement.
pub(crate) fn is_announcement(transition: &Transition) -> bool
    ensures { result ≡ is_announcement (mark_of transition.now) }
{
    matches!(mark_of(transition), Mark::Announcement(_) | Mark::Leave)
}

/// Returns true if the transition stores a claim.
pub(crate) fn is_claim(transition: &Transition) -> bool
    ensures { result ≡ is_claim (mark_of transition.now) }
{
    matches!(mark_of(transition), Mark::Claim(_))
}

/// Returns true if the transition stores a performance.
pub(crate) fn is_filing(transition: &Transition) -> bool
    ensures { result ≡ is_filing (mark_of transition.now) }
{
    matches!(mark_of(transition), Mark::Filing(_))
}

/// Returns true if the transition is the worker's, and stores to its announcement.
fn announces(worker: u32, transition: &Transition) -> bool
    ensures { result ≡ ((transition.now.worker == worker) && is_announcement (mark_of transition.now)) }
{
    transition.worker == worker && is_announcement(transition)
}

/// Returns true if the transition is the worker's, and stores a performance.
fn files(worker: u32, transition: &Transition) -> bool
    ensures { result ≡ ((transition.now.worker == worker) && is_filing (mark_of transition.now)) }
{
    transition.worker == worker && is_filing(transition)
}

/// Returns how many of these transitions come before the worker's next store to its announcement.
fn until_announcement(worker: u32, rest: &[Transition]) -> usize
    ensures value { result ≡ position_or_len (λ s. (s.worker == worker) && is_announcement (mark_of s)) rest.now }
    ensures few { result ≤ length rest.now }
{
    rest.iter()
        .take_while(|transition| !announces(worker, transition))
        .count()
}

/// Returns how many of these transitions come before the worker's next performance.
pub(crate) fn until_filing(worker: u32, rest: &[Transition]) -> usize
    ensures value { result ≡ position_or_len (λ s. (s.worker == worker) && is_filing (mark_of s)) rest.now }
    ensures few { result ≤ length rest.now }
{
    rest.iter()
        .take_while(|transition| !files(worker, transition))
        .count()
}

/// Returns the worker whose word is loaded.
fn loaded_of(want: Want) -> u32
    ensures { result ≡ loaded_of want }
{
    match want {
        Want::LoadNext(q) | Want::LoadDone(q, _) => q,
        Want::StoreNext(_) | Want::StoreClaim(_, _) | Want::StoreDone(_, _) | Want::Nothing => 0,
    }
}

/// Returns the place of the word that is loaded.
fn seen_at(want: Want) -> u128
    ensures { result ≡ seen_at want }
{
    match want {
        Want::LoadNext(q) => lane(q).saturating_sub(12),
        Want::LoadDone(q, _) => lane(q),
        Want::StoreNext(_) | Want::StoreClaim(_, _) | Want::StoreDone(_, _) | Want::Nothing => 0,
    }
}

/// Returns the beginning of the line of a load.
fn line_start(worker: u32, want: Want, label: &str) -> u128
    ensures { result ≡ line_start worker want label.now }
{
    let x = lane(worker);
    if loaded_of(want) < worker {
        return x;
    }
    x + 14 + 8 * label.len() as u128
}

/// Appends a level line to a place.
#[tactic(auto, unfolding(crate::specs::Marks::level_to))]
fn push_level(out: &mut String, end: u128) -> Result<(), AllocError>
    ensures { OnOk result (string_bytes out.new ≡ string_bytes out.old ++ level_to end) }
{
    write!(out, "H{end}m0 -5v10\"/>\n")
}

/// Appends the line of a load, to the word.
fn push_line(
    out: &mut String,
    worker: u32,
    y: u128,
    want: Want,
    label: &str,
) -> Result<(), AllocError>
    ensures { OnOk result (string_bytes out.new ≡ string_bytes out.old ++ line_to worker y want label.now) }
{
    push_place(out, line_start(worker, want, label), y)?;
    push_level(out, seen_at(want))
}

/// Returns the distance between a row and the row so many rows below it.
fn apart(number: usize, rows: usize) -> u128
    requires number { number ≤ MOST_ROWS }
    requires rows { rows ≤ MOST_ROWS + 1 }
    ensures { result ≡ apart number rows }
{
    row(number + rows).saturating_sub(row(number))
}

/// Appends what leads up to a mark in the row with this number, the transitions after it being
/// these.
#[tactic(auto, unfolding(crate::specs::Marks::lead_at))]
pub(crate) fn push_lead(
    out: &mut String,
    worker: u32,
    number: usize,
    label: &str,
    rest: &[Transition],
    mark: Mark,
) -> Result<(), AllocError>
    requires few { number ≤ MOST_ROWS }
    requires short { length rest.now ≤ MOST_ROWS }
    ensures { OnOk result (string_bytes out.new ≡ string_bytes out.old ++ lead_at worker number label.now rest.now mark) }
{
    let x = lane(worker);
    let y = row(number);
    match mark {
        Mark::Own(want, _) => {
            push_stroke_start(out, "x", 2)?;
            push_line(out, worker, y, want, label)
        }
        Mark::Other(want, _) => {
            push_dotted_start(out, "f")?;
            push_line(out, worker, y, want, label)
        }
        Mark::Announcement(_) => {
            let far = apart(number, until_announcement(worker, rest) + 1).saturating_sub(3);
            push_straight(
                out,
                "b",
                6,
                x.saturating_sub(12),
                y.saturating_sub(5),
                "v",
                far,
            )
        }
        Mark::Claim(_) => {
            let far = apart(number, until_filing(worker, rest) + 1);
            push_straight(out, "c", 4, x, y, "v", far)
        }
        Mark::Stop | Mark::Fail(_) | Mark::Zero(_) | Mark::Leave | Mark::Filing(_) | Mark::Still =>
            { Ok(()) }
    }
}

/// Appends the shape of a mark.
#[tactic(auto, unfolding(crate::specs::Marks::shape_at))]
pub(crate) fn push_shape(out: &mut String, x: u128, y: u128, mark: Mark) -> Result<(), AllocError>
    ensures { OnOk result (string_bytes out.new ≡ string_bytes out.old ++ shape_at x y mark) }
{
    match mark {
        Mark::Stop => push_stroke(out, "i", 3, x, y, "m-6 -6l12 12m0 -12l-12 12"),
        Mark::Fail(_) => push_stroke(out, "x", 2, x, y, "m-5 -5l10 10m0 -10l-10 10"),
        Mark::Leave => push_stroke(out, "i", 2, x, y, "m-6 -2h12m0 5h-12"),
        Mark::Zero(_) => push_area(out, "f", x, y, "m-2 -2h4v4h-4z"),
        Mark::Own(_, _) => push_area(out, "x", x, y, "m-5 0l5 -5l5 5l-5 5z"),
        Mark::Other(_, _) => push_area(out, "f", x, y, "m-5 0l5 -5l5 5l-5 5z"),
        Mark::Announcement(_) => push_area(out, "i", x, y, "m-5 0a5 5 0 0 0 10 0a5 5 0 0 0 -10 0z"),
        Mark::Claim(_) | Mark::Filing(_) => push_area(out, "c", x, y, "m-5 -5h10v10h-10z"),
        Mark::Still => Ok(()),
    }
}
