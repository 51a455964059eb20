//! The images that a crash may leave, call by call.
ghost use Rattle.std.specs.Prelude.{◌≡◌, ◌<◌, ℕ, Some, length, slice_get, IfOk};
ghost use Rattle.amo_journal.specs.Device.{Cut, Torn};
ghost use Rattle.amo_sim_disk.specs.Tearing.{IsOldOrNew};
ghost use Rattle.amo_sim_disk.specs.Replay.{OutcomeIn, Story, noted, read_in};

use crate::call::{Call, written_over};
use std::alloc::{AllocError, Global};

/// Returns an image that a crash after the call may leave. These bytes were read before the call,
/// and a crash might have left this image then.
pub(crate) fn image_of(
    alloc: Global,
    call: &Call,
    read: &[u8],
    image: &[u8],
    came: &[u8],
) -> Result<Vec<u8>, AllocError>
    ensures { IfOk result (λ after. (story : Story) → read_in story ≡ read.now → OutcomeIn story image.now
        → OutcomeIn (noted call.now story) after.items) }
{
    let next = call.read_after(alloc, read)?;
    match call {
        Call::Write { at, bytes } => torn(alloc, *at, bytes.len(), &next, image, came),
        Call::FailedWrite { at, bytes, .. } => torn(alloc, *at, bytes.len(), &next, image, came),
        Call::Cut { len } => cut_short(alloc, *len, image, came.len()),
        Call::FailedCut { len } => cut_short(alloc, *len, image, came.len()),
        Call::Sync => Ok(next),
        Call::Read | Call::FailedRead | Call::FailedSync => image.to_vec(alloc),
    }
}

/// Returns an image that a write of so many bytes may leave. This is read after the write, and
/// these bytes came.
fn torn(
    alloc: Global,
    at: usize,
    len: usize,
    read: &[u8],
    image: &[u8],
    came: &[u8],
) -> Result<Vec<u8>, AllocError>
    ensures { IfOk result (λ after. Torn at len read.now image.now after.items) }
{
    if at > image.len() {
        return image.to_vec(alloc);
    }
    let came = &came[..came.len().min(len)];
    let reads = &read[at.min(read.len())..];
    let bytes = came_over(alloc, came, &image[at..], reads)?;
    written_over(alloc, image, at, &bytes)
}

/// Returns the bytes of a range after a write. A byte that came stands if it is the one that is
/// read from then on. Otherwise the old byte stands, or 0 past the image's end.
fn came_over(alloc: Global, came: &[u8], stood: &[u8], reads: &[u8]) -> Result<Vec<u8>, AllocError>
    ensures count { IfOk result (λ bytes. length bytes.items ≡ length came.now) }
    ensures each { IfOk result (λ bytes. (i b : ℕ) → slice_get bytes.items i ≡ Some b → IsOldOrNew (slice_get stood.now i) (slice_get reads.now i) b) }
{
    let mut bytes = Vec::new(alloc);
    for (i, byte) in came.iter().enumerate() {
        bytes.push(byte_over(*byte, stood.get(i).copied(), reads.get(i).copied()))?;
    }
    Ok(bytes)
}

/// Returns the byte that came if it is the one that is read; else the one that stood there; else 0.
fn byte_over(came: u8, stood: Option<u8>, read: Option<u8>) -> u8
    ensures { IsOldOrNew stood read result }
{
    if read == Some(came) {
        return came;
    }
    match stood {
        Some(stands) => stands,
        None => 0,
    }
}

/// Returns the image cut to a length, but for so many bytes after it.
fn cut_short(alloc: Global, len: usize, image: &[u8], behind: usize) -> Result<Vec<u8>, AllocError>
    ensures { IfOk result (λ after. Cut len image.now after.items) }
{
    if image.len() <= len {
        return image.to_vec(alloc);
    }
    image[..len + behind.min(image.len() - len)].to_vec(alloc)
}
