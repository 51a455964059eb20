//! The check of each line against the lines before it.
ghost use Rattle.std.specs.Prelude.{◌≡◌, ◌++◌, ◌∷◌, [], ℕ, List, IfOk, IfErr, OnOk, IfNone};
ghost use Rattle.std.specs.Str.{is_utf8};
ghost use Rattle.amo_run_files.specs.Known.{HasJust};
ghost use Rattle.amo_run_files.specs.Lines.{lines_in, remainder_in, ends_of};
ghost use Rattle.amo_run_files.specs.Refusals.{wrong_with, why_not, why_remainder, MayStand, IsFirstRefused, IsTaken, IsRefused};

use crate::fault::{JobsFault, Why};
use crate::lines::{line_at, remainder_of};
use std::alloc::{AllocError, Global};
use std::collections::BTreeSet;
use std::str;

/// A line with more bytes is refused.
pub(crate) const MAX_LINE: usize = 100_000;

/// Refuses the first line that may not follow those before it. It also refuses bytes after the last
/// line feed, unless they are cut off.
pub(crate) fn check(alloc: Global, bytes: &[u8], ends: &[usize], cut: bool) -> Result<(), JobsFault>
    requires { ends.now ≡ ends_of 0 (lines_in bytes.now) }
    ensures taken { OnOk result (IsTaken bytes.now cut) }
    ensures refused { IfErr result (IsRefused bytes.now cut) }
{
    let mut known = known_lines(alloc, bytes, ends)?;
    match why_remainder(&mut known, remainder_of(bytes, ends), cut)? {
        None => Ok(()),
        Some(why) => Err(JobsFault::Refused(ends.len() + 1, why)),
    }
}

/// Returns the lines, if each may follow those before it. They are kept in order, not by a hash: so
/// no list of lines makes it slow.
fn known_lines<'a>(
    alloc: Global,
    bytes: &'a [u8],
    ends: &[usize],
) -> Result<BTreeSet<&'a [u8]>, JobsFault>
    requires { ends.now ≡ ends_of 0 (lines_in bytes.now) }
    ensures known { IfOk result (λ known. HasJust known (lines_in bytes.now)) }
    ensures stand { OnOk result (MayStand (lines_in bytes.now)) }
    ensures refused { IfErr result (IsFirstRefused (lines_in bytes.now)) }
{
    let mut known = BTreeSet::new(alloc);
    for i in 0..ends.len() {
        let line = line_at(bytes, ends, i);
        if let Some(why) = why_not(&mut known, line)? {
            return Err(JobsFault::Refused(i + 1, why));
        }
    }
    Ok(known)
}

/// Returns the reason that the bytes after the last line feed are refused, if they are.
fn why_remainder<'a>(
    known: &mut BTreeSet<&'a [u8]>,
    rest: &'a [u8],
    cut: bool,
) -> Result<Option<Why>, AllocError>
    ensures { (lines : List (List ℕ)) → HasJust known.old lines → IfOk result (λ why. why ≡ why_remainder lines rest.now cut) }
{
    if cut || rest.is_empty() {
        return Ok(None);
    }
    let why = why_not(known, rest)?;
    Ok(why.or(Some(Why::NoEnd)))
}

/// Returns the reason that the line may not follow the known lines, if it may not. If it may, it is
/// known from now on.
fn why_not<'a>(known: &mut BTreeSet<&'a [u8]>, line: &'a [u8]) -> Result<Option<Why>, AllocError>
    ensures exact { (before : List (List ℕ)) → HasJust known.old before → IfOk result (λ why. why ≡ why_not before line.now) }
    ensures known { (before : List (List ℕ)) → HasJust known.old before
        → IfOk result (λ why. IfNone why (HasJust known.new (before ++ line.now ∷ []))) }
{
    if let Some(why) = wrong_with(line) {
        return Ok(Some(why));
    }
    let added = known.insert(line)?;
    if !added {
        return Ok(Some(Why::Repeated));
    }
    Ok(None)
}

/// Returns the fault of the line, whatever lines stand before it.
fn wrong_with(line: &[u8]) -> Option<Why>
    ensures { result ≡ wrong_with line.now }
{
    if line.is_empty() {
        return Some(Why::Empty);
    }
    if line.contains(&0) {
        return Some(Why::Nul);
    }
    if line.contains(&b'\r') {
        return Some(Why::CarriageReturn);
    }
    if !is_text(line) {
        return Some(Why::NotText);
    }
    if line.len() > MAX_LINE {
        return Some(Why::TooLong);
    }
    None
}

fn is_text(bytes: &[u8]) -> bool
    ensures { result ≡ is_utf8 bytes.now }
{
    str::from_utf8(bytes).is_ok()
}
