//! The reasons why a text is not a plan, fault by fault.
use crate::broken::push_broken;
use crate::document::Document;
use crate::givens::push_bad_givens;
use crate::jobs::{push_bad_name, push_large_sum, push_two_names};
use crate::keys::{push_missing_key, push_unknown_key};
use crate::kinds::push_wrong_kind;
use crate::limits::push_too_long;
use crate::schedule::{push_bad_word, push_no_worker};
use amo_plan::{MOST_BYTES, PlanFault};
use std::alloc::{AllocError, Global};

/// Appends the reason why a document is not a plan.
fn push_reason(
    alloc: Global,
    out: &mut String,
    document: &Document<'_>,
    fault: &PlanFault,
) -> Result<(), AllocError> {
    match *fault {
        PlanFault::UnknownKey(job) => push_unknown_key(alloc, out, document, job),
        PlanFault::MissingKey(job) => push_missing_key(out, document, job),
        PlanFault::WrongKind(job) => push_wrong_kind(out, document, job),
        PlanFault::BadGivens(fault) => push_bad_givens(out, document, fault),
        PlanFault::TwoNames(job) => push_two_names(out, document, job),
        PlanFault::BadName(job) => push_bad_name(out, document, job),
        PlanFault::SumTooLarge(job) => push_large_sum(out, document, job),
        PlanFault::BadScheduleWord(place) => push_bad_word(alloc, out, document, place),
        PlanFault::NoSuchWorker(place) => push_no_worker(out, document, place),
        PlanFault::TooLong => push_too_long(out, document),
        PlanFault::NotToml | PlanFault::NoMemory => Ok(()),
    }
}

/// Returns the reason why these bytes are not a plan, in the words of this fault.
pub(crate) fn reason_of(
    alloc: Global,
    bytes: &[u8],
    fault: &PlanFault,
) -> Result<String, AllocError> {
    let mut out = String::new(alloc);
    let size = bytes.len();
    if size > MOST_BYTES {
        write!(
            out,
            "The text has {size} bytes, and a plan has at most {MOST_BYTES}.\n"
        )?;
        return Ok(out);
    }
    if *fault == PlanFault::NotToml {
        push_broken(alloc, &mut out, bytes)?;
        return Ok(out);
    }
    if let Some(document) = Document::read(alloc, bytes)? {
        push_reason(alloc, &mut out, &document, fault)?;
    }
    Ok(out)
}
