//! A disk that tears and fails.
ghost use Rattle.std.specs.Prelude.{◌≡◌, ◌≤◌, ℕ, [], List, length, IfOk};
ghost use Rattle.amo_sim_disk.specs.Calls.{FailsAsPlanned, IsWrite, cut_call, has_failed, read_call, sync_call};
ghost use Rattle.amo_sim_disk.specs.Replay.{Leaves, LeavesNoted, OutcomeIn, StaleIn, call_count, fails_next, fault_count, read_in, story_of};

use crate::call::{Call, cut_call, read_call, sync_call, write_call};
use crate::tearing::image_of;
use amo_journal::{Device, DeviceError};
use std::alloc::{AllocError, Global};

/// `Disk`: a disk in memory that tears and fails, for tests. A read returns what was written. A
/// crash may leave any image that a device may leave after these calls. One call may be planned to
/// fail. Then a read reads nothing, a write writes half its bytes, rounded down, a cut cuts nothing
/// that is read, and a sync leaves stale places.
#[derive(Drop)]
pub struct Disk {
    alloc: Global,
    first: Vec<u8>,
    calls: Vec<Call>,
    bytes: Vec<u8>,
    failing: Option<usize>,
    ghost current: { bytes.items ≡ read_in (story_of first.items failing calls.items) },
    ghost planned: { FailsAsPlanned failing calls.items },
}

impl Disk {
    ghost use Rattle.amo_journal.specs.Device.{Only};
    ghost use Rattle.amo_sim_disk.specs.Disk.{disk_calls, disk_failing, disk_story, disk_story_after};

    /// Returns a disk that has these bytes and no others. The call with the number `failing` fails.
    /// The first call has the number 0, and reads, writes, cuts and syncs count alike. A call that
    /// fails for want of memory doesn't count, and changes nothing.
    ///
    /// # Errors
    ///
    /// `AllocError` if there was no memory.
    pub fn new(alloc: Global, bytes: &[u8], failing: Option<usize>) -> Result<Self, AllocError>
        ensures read { IfOk result (λ disk. read_in (disk_story disk) ≡ bytes.now) }
        ensures durable { IfOk result (λ disk. Only bytes.now (OutcomeIn (disk_story disk))) }
        ensures fresh { IfOk result (λ disk. (i : ℕ) → StaleIn (disk_story disk) i → ⊥) }
        ensures calls { IfOk result (λ disk. disk_calls disk ≡ []) }
        ensures failing { IfOk result (λ disk. disk_failing disk ≡ failing) }
    {
        Ok(Disk {
            alloc,
            first: bytes.to_vec(alloc)?,
            calls: Vec::new(alloc),
            bytes: bytes.to_vec(alloc)?,
            failing,
        })
    }

    /// Returns the bytes that are read. A crash may leave just these.
    pub fn bytes(&self) -> &[u8]
        ensures read { result.now ≡ read_in (disk_story self.now) }
        ensures possible { OutcomeIn (disk_story self.now) result.now }
    {
        &self.bytes
    }

    /// Returns the calls that were made, in their order. That of the number which was given failed,
    /// and no other.
    pub fn calls(&self) -> &[Call]
        ensures calls { result.now ≡ disk_calls self.now }
        ensures failed { FailsAsPlanned (disk_failing self.now) result.now }
    {
        &self.calls
    }

    /// Returns an image that a crash might have left after the first `calls` calls, or after all if
    /// there were fewer. `came` says which bytes had come to the disk.
    ///
    /// - At the number of a write it has bytes for the first of those to be written. A byte that is
    ///   right came to the disk. For any other byte the old one stands, or 0 past the image's end.
    ///   Nothing comes if the image ends before the place of the write.
    /// - At the number of a cut it has as many bytes as stay after the length.
    /// - A sync that succeeded leaves what is read.
    /// - Past the end of `came`, no byte comes or stays.
    ///
    /// # Errors
    ///
    /// `AllocError` if there was no memory.
    pub fn image_after(
        &self,
        alloc: Global,
        calls: usize,
        came: &[&[u8]],
    ) -> Result<Vec<u8>, AllocError>
        ensures { IfOk result (λ image. OutcomeIn (disk_story_after calls self.now) image.items) }
    {
        let made = &self.calls[..calls.min(self.calls.len())];
        let mut read = self.first.to_vec(alloc)?;
        let mut image = self.first.to_vec(alloc)?;
        for (i, call) in made.iter().enumerate() {
            let bytes = came.get(i).copied().unwrap_or(&[]);
            image = image_of(alloc, call, &read, &image, bytes)?;
            read = call.read_after(alloc, &read)?;
        }
        Ok(image)
    }

    /// Returns true if the next call is the one that fails.
    fn fails_next(&self) -> bool
        ensures { result ≡ fails_next (disk_story self.now) }
    {
        match self.failing {
            None => false,
            Some(number) => number == self.calls.len(),
        }
    }

    /// Makes a call and notes it.
    fn make(&mut self, call: Call) -> Result<(), DeviceError>
        requires { has_failed call ≡ fails_next (disk_story self.old) }
        ensures { LeavesNoted call (disk_story self.old) (disk_story self.new) result }
    {
        let bytes = call.read_after(self.alloc, &self.bytes)?;
        let failed = call.has_failed();
        self.calls.push(call)?;
        self.bytes = bytes;
        if failed {
            Err(DeviceError::Failed)
        } else {
            Ok(())
        }
    }
}

impl Device for Disk {
    ghost use Rattle.amo_journal.specs.Device.{WritesFront};
    ghost use Rattle.amo_sim_disk.specs.Disk.{disk_story};
    ghost use Rattle.amo_sim_disk.specs.Moments.{GoesOn, LeftSince, now_alone, now_counts};

    ghost seen = { λ disk. read_in (disk_story disk) };

    ghost may_leave = { λ disk. OutcomeIn (disk_story disk) };

    ghost stale = { λ disk. StaleIn (disk_story disk) };

    ghost moment = { λ disk. call_count (disk_story disk) };

    ghost left_since = { λ disk. LeftSince (disk_story disk) };

    ghost faults = { λ disk. fault_count (disk_story disk) };

    ghost counts_now = { λ disk. now_counts (disk_story disk) };

    ghost only_now = { λ disk. now_alone (disk_story disk) };

    // These clauses imply the clauses of a device: each states what the call leaves, and that time
    // goes on.

    fn read(&mut self, alloc: Global) -> Result<Vec<u8>, DeviceError>
        ensures ends { Leaves (λ fails call. call ≡ read_call fails) (disk_story self.old) (disk_story self.new) result }
        ensures bytes { IfOk result (λ bytes. bytes.items ≡ read_in (disk_story self.old)) }
        ensures time { GoesOn (disk_story self.old) (disk_story self.new) }
    {
        let bytes = self.bytes.to_vec(alloc)?;
        let call = read_call(self.fails_next());
        self.make(call)?;
        Ok(bytes)
    }

    fn write_at(&mut self, at: usize, bytes: &[u8]) -> Result<(), DeviceError>
        requires { at ≤ length (read_in (disk_story self.old)) }
        ensures ends { Leaves (IsWrite at bytes.now) (disk_story self.old) (disk_story self.new) result }
        ensures front { WritesFront (read_in (disk_story self.old)) at bytes.now (read_in (disk_story self.new)) }
        ensures time { GoesOn (disk_story self.old) (disk_story self.new) }
    {
        let given = bytes.to_vec(self.alloc)?;
        let call = write_call(self.fails_next(), at, given);
        self.make(call)
    }

    fn cut(&mut self, len: usize) -> Result<(), DeviceError>
        requires { len ≤ length (read_in (disk_story self.old)) }
        ensures ends { Leaves (λ fails call. call ≡ cut_call fails len) (disk_story self.old) (disk_story self.new) result }
        ensures time { GoesOn (disk_story self.old) (disk_story self.new) }
    {
        let call = cut_call(self.fails_next(), len);
        self.make(call)
    }

    fn sync(&mut self) -> Result<(), DeviceError>
        ensures ends { Leaves (λ fails call. call ≡ sync_call fails) (disk_story self.old) (disk_story self.new) result }
        ensures time { GoesOn (disk_story self.old) (disk_story self.new) }
    {
        let call = sync_call(self.fails_next());
        self.make(call)
    }
}
