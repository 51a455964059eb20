//! The counts at the head of a status.
ghost use Rattle.std.specs.Prelude.{◌≡◌, ◌++◌, string_bytes, IfOk, OnOk};
ghost use Rattle.amo_status.specs.Headings.{counts_back, counts_front, counts_text};

use crate::count::Counts;
use std::alloc::{AllocError, Global};

/// The form in which the counts are written.
#[derive(Clone, Copy, Debug, PartialEq, Eq)]
pub(crate) enum Style {
    /// Each after its word.
    Words,
    /// As members of a JSON object.
    Members,
}

/// Adds the counts.
pub(crate) fn push_counts(
    text: &mut Vec<u8>,
    alloc: Global,
    style: Style,
    counts: &Counts,
) -> Result<(), AllocError>
    ensures { OnOk result (text.new.items ≡ text.old.items ++ counts_text style counts.now) }
{
    let front = counts_front(alloc, style, counts)?;
    let back = counts_back(alloc, style, counts)?;
    text.extend_from_slice(front.as_bytes())?;
    text.extend_from_slice(back.as_bytes())
}

/// Returns how many lines there are, and how many are done, failed and in doubt.
fn counts_front(alloc: Global, style: Style, counts: &Counts) -> Result<String, AllocError>
    ensures { IfOk result (λ text. string_bytes text ≡ counts_front style counts.now) }
{
    let lines = counts.lines;
    let done = counts.done;
    let failed = counts.failed;
    let doubt = counts.doubt;
    match style {
        Style::Words => format!(in alloc;
            "lines {lines} done {done} failed {failed} doubt {doubt}"
        ),
        Style::Members => format!(in alloc;
            "\"lines\":{lines},\"done\":{done},\"failed\":{failed},\"doubt\":{doubt}"
        ),
    }
}

/// Returns how many lines are running, untouched and open.
fn counts_back(alloc: Global, style: Style, counts: &Counts) -> Result<String, AllocError>
    ensures { IfOk result (λ text. string_bytes text ≡ counts_back style counts.now) }
{
    let running = counts.running;
    let untouched = counts.untouched;
    let opened = counts.open;
    match style {
        Style::Words => format!(in alloc; " running {running} untouched {untouched} open {opened}"),
        Style::Members => format!(in alloc;
            ",\"running\":{running},\"untouched\":{untouched},\"open\":{opened}"
        ),
    }
}
