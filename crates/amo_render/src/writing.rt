//! From the bytes of a plan to the bytes of a text of it.
ghost use Rattle.std.specs.Prelude.{◌≡◌, false, Ok, OnOk, OnErr, IfOk, IfErr, IfSome, string_bytes};
ghost use Rattle.std.specs.Io.KnownBytes.{Appends, IsAtEnd};
ghost use Rattle.amo_plan.specs.Keeps.{Keeps};
ghost use Rattle.amo_plan.specs.Plan.{plan_of};
ghost use Rattle.amo_plan.specs.PlanSeen.{plan_seen};
ghost use Rattle.amo_io.specs.Streams.{AppendsFront};
ghost use Rattle.amo_render.specs.Written.{IsNoPlan, IsNotMade, Refuses, Writes, is_failed_read, is_failed_write};
ghost use Rattle.amo_render.specs.declared.writing.ReplayFault.TheVariants.{Write, NoMemory};

use crate::reading::read_all;
use crate::text::PlanText;
use amo_io::{Failed, ReadFault, Sink, Source, write_all};
use amo_plan::laws::plans_keep_their_rules;
use amo_plan::{Plan, PlanFault, read_plan};
use std::alloc::{AllocError, Global};

/// Why the text of a plan was not written, or not all of it.
#[derive(Clone, Copy, Debug, PartialEq, Eq)]
pub enum ReplayFault {
    /// The bytes of the source have no such text, for this fault, which isn't out of memory. They
    /// are not a plan, or a plan that the text refuses, or too many. Nothing was written.
    Plan(PlanFault),
    /// The source failed. Nothing was written.
    Read,
    /// A write or the flush failed. A beginning of the text was written.
    Write,
    /// Memory was refused. Nothing was written.
    NoMemory,
}

impl From<AllocError> for ReplayFault {
    ghost from_gives = { λ _ e. e ≡ NoMemory };

    fn from(_e: AllocError) -> ReplayFault {
        ReplayFault::NoMemory
    }
}

/// Returns the plan that these bytes are. The plan keeps what each plan keeps.
///
/// # Errors
///
/// `Plan(f)` exactly if the bytes give the fault f, unless f is want of memory. `NoMemory` if there
/// was no memory.
pub fn plan_of_bytes(alloc: Global, bytes: &[u8]) -> Result<Plan, ReplayFault>
    ensures plan { IfOk result (λ p. plan_of bytes.now ≡ Ok (plan_seen p)) }
    ensures kept { IfOk result (λ p. Keeps (plan_seen p)) }
    ensures refused { IfErr result (λ e. IsNotMade e (plan_of bytes.now)) }
{
    plans_keep_their_rules();
    match read_plan(alloc, bytes) {
        Ok(plan) => Ok(plan),
        Err(fault) if fault.is_memory() => Err(ReplayFault::NoMemory),
        Err(fault) => Err(ReplayFault::Plan(fault)),
    }
}

/// Reads a plan from all bytes of a source that has not failed. The plan keeps what each plan
/// keeps.
///
/// # Errors
///
/// `Plan(f)` exactly if the bytes give the fault f, unless f is want of memory. `Read` exactly if
/// the source has failed. `NoMemory` if there was no memory. It never returns `Write`.
#[tactic(auto, using(crate::proofs::Whole::at_end, crate::proofs::Whole::no_plan))]
pub fn read_source<R: Source>(alloc: Global, reader: &mut R) -> Result<Plan, ReplayFault>
    requires { R.failed reader.old ≡ false }
    ensures plan { IfOk result (λ p. IfSome (R.remaining reader.old) (λ bytes. plan_of bytes ≡ Ok (plan_seen p))) }
    ensures kept { IfOk result (λ p. Keeps (plan_seen p)) }
    ensures end { OnOk result (IsAtEnd (R.remaining reader.new)) }
    ensures source { R.failed reader.new ≡ is_failed_read result }
    ensures refused { IfErr result (λ e. IsNoPlan e (R.remaining reader.old)) }
{
    let bytes = match read_all(alloc, reader) {
        Ok(bytes) => bytes,
        Err(ReadFault::Failed) => return Err(ReplayFault::Read),
        Err(ReadFault::NoMemory) => return Err(ReplayFault::NoMemory),
    };
    let plan = plan_of_bytes(alloc, &bytes)?;
    Ok(plan)
}

/// Writes a text and flushes the sink.
///
/// # Errors
///
/// `Write` exactly if the sink has failed. A beginning of the text was written then.
pub fn write_text<W: Sink>(writer: &mut W, text: &String) -> Result<(), ReplayFault>
    requires { W.failed writer.old ≡ false }
    ensures ok { OnOk result (Appends (W.contents writer.old) (W.contents writer.new) (string_bytes text.now)) }
    ensures passed { OnOk result (W.waiting writer.new ≡ false) }
    ensures sink { W.failed writer.new ≡ is_failed_write result }
    ensures fault { IfErr result (λ e. e ≡ Write) }
    ensures front { OnErr result (AppendsFront (W.contents writer.old) (W.contents writer.new) (string_bytes text.now)) }
{
    match write_all(writer, text.as_bytes()) {
        Ok(()) => Ok(()),
        Err(Failed) => Err(ReplayFault::Write),
    }
}

/// Reads a plan to the end of the reader, and writes the text that is made of it and nothing else.
/// The text's numbers must be within their ranges, and neither stream may have failed.
///
/// # Errors
///
/// The fault of the read, the plan or the write. `ReplayFault` states for each fault which state it
/// leaves.
pub fn write_of<T: PlanText, R: Source, W: Sink>(
    alloc: Global,
    text: &T,
    reader: &mut R,
    writer: &mut W,
) -> Result<(), ReplayFault>
    requires ranges { T.fits text.now }
    requires reader { R.failed reader.old ≡ false }
    requires writer { W.failed writer.old ≡ false }
    ensures end { OnOk result (IsAtEnd (R.remaining reader.new)) }
    ensures text { OnOk result (Writes (T.made text.now) (R.remaining reader.old) (W.contents writer.old) (W.contents writer.new)) }
    ensures passed { OnOk result (W.waiting writer.new ≡ false) }
    ensures source { R.failed reader.new ≡ is_failed_read result }
    ensures sink { W.failed writer.new ≡ is_failed_write result }
    ensures refused { IfErr result (λ e. Refuses (T.made text.now) e (R.remaining reader.old) (W.contents writer.old) (W.contents writer.new)) }
{
    let plan = read_source(alloc, reader)?;
    let made = text.make(alloc, &plan)?;
    write_text(writer, &made)
}
