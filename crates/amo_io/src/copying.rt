//! Reading of a source to its end, and writing of a whole text.
ghost use Rattle.std.specs.Prelude.{◌≡◌, ◌<◌, ◌≤◌, ◌||◌, IfOk, IfErr, OnOk, OnErr, is_err, false, vec_len, length};
ghost use Rattle.std.specs.Io.KnownBytes.{Appends, Consumes, IsAtEnd};
ghost use Rattle.amo_io.specs.Streams.{AppendsFront};
ghost use Rattle.amo_io.specs.ReadFaults.{is_failure};

use crate::streams::{Failed, Sink, Source};
use std::alloc::{AllocError, Global};

/// `ReadFault`: the reason why a source wasn't read.
#[derive(Clone, Copy, Debug, PartialEq, Eq)]
pub enum ReadFault {
    /// The source failed.
    Failed,
    /// Memory for its bytes was refused.
    NoMemory,
}

/// Reads to the end of the source, or `limit` bytes if it has so many. The source may be longer if
/// so many bytes are returned.
///
/// # Errors
/// `Failed` if the source failed, `NoMemory` if memory was refused. Some bytes may be taken from
/// the source then.
pub fn read_at_most<R: Source>(
    alloc: Global,
    reader: &mut R,
    limit: usize,
) -> Result<Vec<u8>, ReadFault>
    ensures ok { IfOk result (λ v. Consumes (R.remaining reader.old) (R.remaining reader.new) v.items) }
    ensures most { IfOk result (λ v. vec_len v ≤ limit) }
    ensures end { IfOk result (λ v. vec_len v < limit → IsAtEnd (R.remaining reader.new)) }
    ensures calm { OnOk result (R.failed reader.new ≡ R.failed reader.old) }
    ensures fails { IfErr result (λ e. R.failed reader.new ≡ (R.failed reader.old || is_failure e)) }
{
    let mut bytes = Vec::new(alloc);
    let mut buf = [0u8; 4096];
    'reading: while bytes.len() < limit {
        let room = buf.len().min(limit - bytes.len());
        let front = &mut buf[..room];
        let count = match reader.read(front) {
            Ok(count) => count,
            Err(Failed) => return Err(ReadFault::Failed),
        };
        if count == 0 {
            break;
        }
        match bytes.extend_from_slice(&buf[..count]) {
            Ok(()) => {}
            Err(AllocError) => return Err(ReadFault::NoMemory),
        }
    }
    Ok(bytes)
}

/// Writes all of the bytes and flushes the sink.
///
/// # Errors
/// `Failed` if a write or the flush fails: then a beginning of the bytes was taken.
pub fn write_all<W: Sink>(writer: &mut W, bytes: &[u8]) -> Result<(), Failed>
    ensures ok { OnOk result (Appends (W.contents writer.old) (W.contents writer.new) bytes.now) }
    ensures passed { OnOk result (W.waiting writer.new ≡ false) }
    ensures front { OnErr result (AppendsFront (W.contents writer.old) (W.contents writer.new) bytes.now) }
    ensures fails { W.failed writer.new ≡ (W.failed writer.old || is_err result) }
{
    let mut at = 0;
    'writing: while at < bytes.len() {
        let (_, rest) = bytes.split_at(at);
        at += writer.write(rest)?;
    }
    writer.flush()
}
