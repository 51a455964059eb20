//! The calls of a disk, and the bytes that are read after each.
ghost use Rattle.std.specs.Prelude.{◌≡◌, IfOk};
ghost use Rattle.amo_sim_disk.specs.Calls.{cut_call, has_failed, read_after, read_call, sync_call, with_bytes, write_call};

use std::alloc::{AllocError, Global};

/// A call of a disk, and whether the disk failed at it.
#[derive(Debug, PartialEq, Eq, Drop)]
pub enum Call {
    /// All the bytes were read.
    Read,
    /// Nothing was read.
    FailedRead,
    /// Bytes were written over the old ones, from the byte of this number on, and past the end.
    Write {
        at: usize,
        bytes: Vec<u8>,
    },
    /// Only so many of these bytes, the first of them, were written.
    FailedWrite {
        at: usize,
        bytes: Vec<u8>,
        front: usize,
    },
    /// The file was cut to this length, in bytes.
    Cut {
        len: usize,
    },
    /// Nothing was cut that is read, but a crash may leave the file cut to this length, or to some
    /// length above.
    FailedCut {
        len: usize,
    },
    /// The bytes that are read came to the disk, but for stale places.
    Sync,
    /// Nothing came to the disk. Each place at which it may have another byte than is read is stale
    /// from then on.
    FailedSync,
}

impl Call {
    /// Returns true if the disk failed at it.
    pub fn has_failed(&self) -> bool
        ensures { result ≡ has_failed self.now }
    {
        match self {
            Call::FailedRead
            | Call::FailedWrite { .. }
            | Call::FailedCut { .. }
            | Call::FailedSync => true,
            Call::Read | Call::Write { .. } | Call::Cut { .. } | Call::Sync => false,
        }
    }

    /// Returns the bytes that are read after the call, if these were read before it.
    pub(crate) fn read_after(&self, alloc: Global, bytes: &[u8]) -> Result<Vec<u8>, AllocError>
        ensures { IfOk result (λ after. after.items ≡ read_after self.now bytes.now) }
    {
        match self {
            Call::Write { at, bytes: new } => written_over(alloc, bytes, *at, new),
            Call::FailedWrite {
                at,
                bytes: new,
                front,
            } => written_over(alloc, bytes, *at, &new[..(*front).min(new.len())]),
            Call::Cut { len } => bytes[..(*len).min(bytes.len())].to_vec(alloc),
            Call::Read
            | Call::FailedRead
            | Call::FailedCut { .. }
            | Call::Sync
            | Call::FailedSync => bytes.to_vec(alloc),
        }
    }
}

/// Returns the bytes with others written over them, or after them if they don't reach so far.
pub(crate) fn written_over(
    alloc: Global,
    bytes: &[u8],
    at: usize,
    new: &[u8],
) -> Result<Vec<u8>, AllocError>
    ensures { IfOk result (λ after. after.items ≡ with_bytes at new.now bytes.now) }
{
    let start = at.min(bytes.len());
    let mut after = bytes[..start].to_vec(alloc)?;
    after.extend_from_slice(new)?;
    if new.len() < bytes.len() - start {
        after.extend_from_slice(&bytes[start + new.len()..])?;
    }
    Ok(after)
}

/// Returns a read, which fails or doesn't.
pub(crate) fn read_call(fails: bool) -> Call
    ensures call { result ≡ read_call fails }
    ensures failed { has_failed result ≡ fails }
{
    if fails { Call::FailedRead } else { Call::Read }
}

/// Returns a write. If it fails, it writes half the bytes.
pub(crate) fn write_call(fails: bool, at: usize, bytes: Vec<u8>) -> Call
    ensures call { result ≡ write_call fails at bytes }
    ensures failed { has_failed result ≡ fails }
{
    if fails {
        let front = bytes.len() / 2;
        Call::FailedWrite { at, bytes, front }
    } else {
        Call::Write { at, bytes }
    }
}

/// Returns a cut. If it fails, it cuts nothing.
pub(crate) fn cut_call(fails: bool, len: usize) -> Call
    ensures call { result ≡ cut_call fails len }
    ensures failed { has_failed result ≡ fails }
{
    if fails {
        Call::FailedCut { len }
    } else {
        Call::Cut { len }
    }
}

/// Returns a sync. If it fails, it leaves stale places.
pub(crate) fn sync_call(fails: bool) -> Call
    ensures call { result ≡ sync_call fails }
    ensures failed { has_failed result ≡ fails }
{
    if fails { Call::FailedSync } else { Call::Sync }
}
