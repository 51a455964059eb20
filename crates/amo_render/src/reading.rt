//! Reading of the text of a plan or of a history, up to the limit of both.
ghost use Rattle.std.specs.Prelude.{◌≡◌, ◌<◌, ◌≤◌, ◌||◌, IfOk, IfErr, OnOk, vec_len};
ghost use Rattle.std.specs.Io.KnownBytes.{Consumes, IsAtEnd};
ghost use Rattle.amo_io.specs.ReadFaults.{is_failure};

use amo_io::{ReadFault, Source, read_at_most};
use amo_plan::MOST_BYTES;
use std::alloc::Global;

/// The most bytes that are read of a source: one more than a plan may have.
pub const MOST_READ: usize = MOST_BYTES + 1;

/// Reads to the end of the source, or `MOST_READ` bytes if it has so many.
///
/// # Errors
/// `Failed` if the source failed, `NoMemory` if memory was refused. Some bytes may be taken from
/// the source then.
pub fn read_all<R: Source>(alloc: Global, reader: &mut R) -> Result<Vec<u8>, ReadFault>
    ensures ok { IfOk result (λ v. Consumes (R.remaining reader.old) (R.remaining reader.new) v.items) }
    ensures most { IfOk result (λ v. vec_len v ≤ MOST_READ) }
    ensures end { IfOk result (λ v. vec_len v < MOST_READ → IsAtEnd (R.remaining reader.new)) }
    ensures calm { OnOk result (R.failed reader.new ≡ R.failed reader.old) }
    ensures fails { IfErr result (λ e. R.failed reader.new ≡ (R.failed reader.old || is_failure e)) }
{
    read_at_most(alloc, reader, MOST_READ)
}
