//! From the bytes of a plan to the bytes of its report.
ghost use Rattle.std.specs.Prelude.{◌≡◌, false, Ok, OnOk, IfErr};
ghost use Rattle.std.specs.Io.KnownBytes.{IsAtEnd};
ghost use Rattle.amo_render.specs.Written.{Refuses, Writes, is_failed_read, is_failed_write};
ghost use Rattle.amo_report.specs.Texts.{report_of};

use crate::wanted::Wanted;
use amo_io::{Sink, Source};
use amo_render::{ReplayFault, write_of};
use std::alloc::Global;

/// Reads a plan to the end of the source, runs its schedule and its passes in the opening world,
/// and writes the report. It writes nothing else, and nothing before the report is whole. Neither
/// stream may have failed before.
///
/// # Errors
///
/// A `ReplayFault`: the source failed, the sink failed (then a beginning of the report was
/// written), the plan has a fault, or memory was refused.
///
/// # Examples
///
/// ```
/// use amo_report::{Bytes, Room, replay};
///
/// let plan = "version = 1
/// workers = 1
/// beta = 1
/// schedule = \"1*3\"
/// job = [{name = \"a\", say = \"hi\"}]
/// ";
/// let report = "jobs 1 workers 1 beta 1 bound 1
/// 1 claimed 1 1
/// 2 done 1 1
/// 3 ended 1
/// worker 1 ended turns 3 claimed 1 done 1
/// result 1 a hi
/// performed 1
/// unclaimed
/// ";
/// let mut out = Room::new(rt.alloc(), 500)?;
/// let answer = replay(rt.alloc(), &mut Bytes::new(plan.as_bytes()), &mut out);
/// assert!(rt; answer.is_ok());
/// assert!(rt; out.as_slice() == report.as_bytes());
/// ```
pub fn replay<R: Source, W: Sink>(
    alloc: Global,
    reader: &mut R,
    writer: &mut W,
) -> Result<(), ReplayFault>
    requires reader { R.failed reader.old ≡ false }
    requires writer { W.failed writer.old ≡ false }
    ensures end { OnOk result (IsAtEnd (R.remaining reader.new)) }
    ensures text { OnOk result (Writes (λ p. Ok (report_of p)) (R.remaining reader.old) (W.contents writer.old) (W.contents writer.new)) }
    ensures passed { OnOk result (W.waiting writer.new ≡ false) }
    ensures source { R.failed reader.new ≡ is_failed_read result }
    ensures sink { W.failed writer.new ≡ is_failed_write result }
    ensures refused { IfErr result (λ e. Refuses (λ p. Ok (report_of p)) e (R.remaining reader.old) (W.contents writer.old) (W.contents writer.new)) }
{
    write_of(alloc, &Wanted::Report, reader, writer)
}
