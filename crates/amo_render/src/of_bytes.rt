//! From all bytes of a source to the bytes of a text of them.
ghost use Rattle.std.specs.Prelude.{◌≡◌, ℕ, List, false, OnOk, IfOk, IfErr, string_bytes};
ghost use Rattle.std.specs.Io.KnownBytes.{IsAtEnd};
ghost use Rattle.amo_plan.specs.declared.fault.PlanFault.{PlanFault};
ghost use Rattle.amo_render.specs.OfBytes.{RefusesOf, WritesOf};
ghost use Rattle.amo_render.specs.Written.{IsNoText, is_failed_read, is_failed_write};

use crate::reading::{MOST_READ, read_all};
use crate::writing::{ReplayFault, write_text};
use amo_io::{ReadFault, Sink, Source};
use amo_plan::PlanFault;
use std::alloc::Global;

/// A text that is made of bytes.
pub trait BytesText {
    /// The second bytes are the text of the first.
    ghost is_of: { Self → List ℕ → List ℕ → Type 0 };

    /// The bytes have no such text, for this fault of a plan.
    ghost is_refused: { Self → List ℕ → PlanFault → Type 0 };

    /// Returns the text of these bytes.
    ///
    /// # Errors
    ///
    /// `Plan(f)` only if the bytes have no text for the fault f. `NoMemory` if there was no memory.
    fn make(&self, alloc: Global, bytes: &[u8]) -> Result<String, ReplayFault>
        ensures text { IfOk result (λ s. is_of self.now bytes.now (string_bytes s)) }
        ensures refused { IfErr result (λ e. IsNoText (is_refused self.now bytes.now) e) };
}

/// Reads to the end of the reader, and writes the text that is made of all its bytes and nothing
/// else. Neither stream may have failed.
///
/// # Errors
///
/// `Plan(f)` only if the bytes have no such text for the fault f. It is `TooLong` if they are more
/// than 1,048,576. `ReplayFault` states for each fault which state it leaves.
#[tactic(auto, using(crate::proofs::OfBytes::all_read, crate::proofs::OfBytes::too_many, crate::proofs::OfBytes::written_of, crate::proofs::OfBytes::front_of, crate::proofs::OfBytes::refused_of))]
pub fn write_of_bytes<T: BytesText, R: Source, W: Sink>(
    alloc: Global,
    text: &T,
    reader: &mut R,
    writer: &mut W,
) -> Result<(), ReplayFault>
    requires reader { R.failed reader.old ≡ false }
    requires writer { W.failed writer.old ≡ false }
    ensures end { OnOk result (IsAtEnd (R.remaining reader.new)) }
    ensures text { OnOk result (WritesOf (T.is_of text.now) (R.remaining reader.old) (W.contents writer.old) (W.contents writer.new)) }
    ensures passed { OnOk result (W.waiting writer.new ≡ false) }
    ensures source { R.failed reader.new ≡ is_failed_read result }
    ensures sink { W.failed writer.new ≡ is_failed_write result }
    ensures refused { IfErr result (λ e. RefusesOf (T.is_of text.now) (T.is_refused text.now) e (R.remaining reader.old) (W.contents writer.old) (W.contents writer.new)) }
{
    let bytes = match read_all(alloc, reader) {
        Ok(bytes) => bytes,
        Err(ReadFault::Failed) => return Err(ReplayFault::Read),
        Err(ReadFault::NoMemory) => return Err(ReplayFault::NoMemory),
    };
    if bytes.len() == MOST_READ {
        return Err(ReplayFault::Plan(PlanFault::TooLong));
    }
    let made = text.make(alloc, &bytes)?;
    write_text(writer, &made)
}
