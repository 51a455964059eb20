//! Writes the rows of a picture.
ghost use Rattle.std.specs.Prelude.{◌≡◌, ◌++◌, ◌≤◌, ◌<◌, ◌^◌, ◌&&◌, ◌==◌, OnOk, IfOk, string_bytes, length};
ghost use Rattle.std.specs.List.{position_or_len};
ghost use Rattle.amo_svg.specs.declared.picturing.TheConstants.{MOST_ROWS};
ghost use Rattle.amo_svg.specs.Rows.{acts, end_mark, row_title, label_in, row_drawn, row_text, head_text, heads_again, rows_width, ruler, ruler_below, row_texts, lane_head, lane_heads};

use crate::elements::{push_number_before, push_straight, push_stroke, push_text, push_text_start};
use crate::marks::{RULED_ROWS, class_of, lane, mark_of, push_label, push_lead, push_shape, row};
use amo_trace::{Act, Transition, push_transition};
use std::alloc::{AllocError, Global};

/// Returns true if the transition changes something.
pub(crate) fn changes(transition: &Transition) -> bool
    ensures { result ≡ acts transition.now.act }
{
    !matches!(transition.act, Act::Stays | Act::Idles)
}

/// Appends the words below the mark of the last transition of a worker that has ended.
fn push_end_mark(out: &mut String, worker: u32, y: u128, over: bool) -> Result<(), AllocError>
    requires { y < 2 ^ 100 }
    ensures { OnOk result (string_bytes out.new ≡ string_bytes out.old ++ end_mark worker y over) }
{
    if over {
        return push_stroke(out, "i", 2, lane(worker), y + 8, "m-8 0h16");
    }
    Ok(())
}

/// Appends the line of the trace, as the title of a row.
#[tactic(auto, unfolding(crate::specs::Rows::row_title))]
fn push_row_title(out: &mut String, transition: &Transition) -> Result<(), AllocError>
    ensures { OnOk result (string_bytes out.new ≡ string_bytes out.old ++ row_title transition.now) }
{
    out.push_str("<g><title>")?;
    push_transition(out, transition)?;
    out.push_str("</title>\n")
}

/// Returns the words of a transition. Fails if there was no memory.
fn label_in(alloc: Global, transition: &Transition) -> Result<String, AllocError>
    ensures { IfOk result (λ s. string_bytes s ≡ label_in transition.now) }
{
    let mut label = String::new(alloc);
    push_label(&mut label, mark_of(transition), transition.after.is_over())?;
    Ok(label)
}

/// Appends the marks of a transition in the row with this number, and these words.
#[tactic(auto, unfolding(crate::specs::Rows::row_drawn))]
fn push_row_drawn(
    out: &mut String,
    number: usize,
    label: &str,
    transition: &Transition,
    rest: &[Transition],
) -> Result<(), AllocError>
    requires few { number ≤ MOST_ROWS }
    requires short { length rest.now ≤ MOST_ROWS }
    ensures { OnOk result (string_bytes out.new ≡ string_bytes out.old ++ row_drawn number label.now transition.now rest.now) }
{
    let y = row(number);
    let mark = mark_of(transition);
    let worker = transition.worker;
    push_lead(out, worker, number, label, rest, mark)?;
    push_shape(out, lane(worker), y, mark)?;
    push_end_mark(out, worker, y, transition.after.is_over())?;
    push_text(out, class_of(mark), lane(worker) + 14, y + 4, label)
}

/// Appends a row.
#[tactic(auto, unfolding(crate::specs::Rows::row_text))]
fn push_row(
    alloc: Global,
    out: &mut String,
    number: usize,
    transition: &Transition,
    rest: &[Transition],
) -> Result<(), AllocError>
    requires few { number ≤ MOST_ROWS }
    requires short { length rest.now ≤ MOST_ROWS }
    ensures { OnOk result (string_bytes out.new ≡ string_bytes out.old ++ row_text number transition.now rest.now) }
{
    let label = label_in(alloc, transition)?;
    push_row_title(out, transition)?;
    push_number_before(out, "f", 44, row(number) + 4, transition.number as u128)?;
    push_row_drawn(out, number, label.as_str(), transition, rest)?;
    out.push_str("</g>\n")
}

/// Appends the words of a worker's head at a place.
#[tactic(auto, unfolding(crate::specs::Rows::head_text))]
fn push_head_text(out: &mut String, x: u128, y: u128, worker: u32) -> Result<(), AllocError>
    ensures { OnOk result (string_bytes out.new ≡ string_bytes out.old ++ head_text x y worker) }
{
    push_text_start(out, "i", x, y)?;
    write!(out, "worker {worker}</text>\n")
}

/// Appends the heads of the lanes of so many workers once more, at this height.
fn push_heads_again(out: &mut String, y: u128, workers: u32) -> Result<(), AllocError>
    requires { y < 2 ^ 100 }
    ensures { OnOk result (string_bytes out.new ≡ string_bytes out.old ++ heads_again y workers) }
{
    for before in 0..workers {
        push_head_text(out, lane(before + 1) + 14, y + 4, before + 1)?;
    }
    Ok(())
}

/// Returns how wide a picture of rows is.
pub(crate) fn rows_width(workers: u32) -> u128
    ensures { result ≡ rows_width workers }
{
    56 + 176 * workers.max(3) as u128
}

/// Appends a ruler at this height, below the row of the move with this number.
#[tactic(auto, unfolding(crate::specs::Rows::ruler))]
fn push_ruler(out: &mut String, workers: u32, y: u128, number: usize) -> Result<(), AllocError>
    requires { y < 2 ^ 100 }
    ensures { OnOk result (string_bytes out.new ≡ string_bytes out.old ++ ruler workers y number) }
{
    let far = rows_width(workers).saturating_sub(32);
    push_straight(out, "b", 1, 16, y + 9, "h", far)?;
    push_number_before(out, "i", 44, y + 4, number as u128)?;
    push_heads_again(out, y, workers)
}

/// Appends the ruler below the row with this number, if it has one.
fn push_ruler_below(
    out: &mut String,
    workers: u32,
    number: usize,
    transition: &Transition,
) -> Result<(), AllocError>
    ensures { OnOk result (string_bytes out.new ≡ string_bytes out.old ++ ruler_below workers number transition.now) }
{
    if number % RULED_ROWS != 0 {
        return Ok(());
    }
    push_ruler(out, workers, row(number) + 18, transition.number)
}

/// Appends a row for each transition, and the rulers between them, across the lanes of so many
/// workers.
pub(crate) fn push_rows(
    alloc: Global,
    out: &mut String,
    workers: u32,
    rows: &[Transition],
) -> Result<(), AllocError>
    requires { length rows.now ≤ MOST_ROWS }
    ensures { OnOk result (string_bytes out.new ≡ string_bytes out.old ++ row_texts workers 1 rows.now) }
{
    for (i, transition) in rows.iter().enumerate() {
        push_row(alloc, out, i + 1, transition, &rows[i + 1..])?;
        push_ruler_below(out, workers, i + 1, transition)?;
    }
    Ok(())
}

/// Returns true if the transition is the worker's, which is gone after it.
fn goes(worker: u32, transition: &Transition) -> bool
    ensures { result ≡ ((transition.now.worker == worker) && transition.now.gone) }
{
    transition.worker == worker && transition.gone
}

/// Returns how many of these transitions come before the one after which the worker is gone.
pub(crate) fn until_gone(worker: u32, rows: &[Transition]) -> usize
    ensures value { result ≡ position_or_len (λ s. (s.worker == worker) && s.gone) rows.now }
    ensures few { result ≤ length rows.now }
{
    rows.iter()
        .take_while(|transition| !goes(worker, transition))
        .count()
}

/// Appends the head of a worker's lane.
#[tactic(auto, unfolding(crate::specs::Rows::lane_head))]
fn push_lane_head(out: &mut String, rows: &[Transition], worker: u32) -> Result<(), AllocError>
    requires { length rows.now ≤ MOST_ROWS }
    ensures { OnOk result (string_bytes out.new ≡ string_bytes out.old ++ lane_head rows.now worker) }
{
    let x = lane(worker);
    let far = row(until_gone(worker, rows) + 1).saturating_sub(64);
    push_head_text(out, x.saturating_sub(20), 56, worker)?;
    push_straight(out, "f", 1, x, 64, "v", far)
}

/// Appends the heads of the lanes of so many workers.
pub(crate) fn push_lane_heads(
    out: &mut String,
    rows: &[Transition],
    workers: u32,
) -> Result<(), AllocError>
    requires { length rows.now ≤ MOST_ROWS }
    ensures { OnOk result (string_bytes out.new ≡ string_bytes out.old ++ lane_heads rows.now workers) }
{
    for before in 0..workers {
        push_lane_head(out, rows, before + 1)?;
    }
    Ok(())
}
