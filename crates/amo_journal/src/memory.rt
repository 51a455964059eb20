//! A device without a disk.
ghost use Rattle.std.specs.Prelude.{◌≡◌, ◌⊎◌, [], ◌∷◌, ◌++◌, length, drop, ◌≤◌, IfOk, OnOk, OnErr};
ghost use Rattle.std.proofs.Common.{inl};
ghost use Rattle.amo_journal.specs.Device.{Holds};
ghost use Rattle.amo_journal.specs.Past.{HadBeen, only_bytes};

use crate::{Device, DeviceError};
use std::alloc::{AllocError, Global};

/// A file in memory. Each call is done at once, so a crash leaves what a read returns. It fails
/// only for want of memory, and takes memory at each write and cut.
#[derive(Drop)]
pub struct MemoryDevice {
    alloc: Global,
    bytes: Vec<u8>,
    /// The content of the file before each change, the oldest first.
    past: Vec<Vec<u8>>,
}

impl MemoryDevice {
    ghost use Rattle.amo_journal.specs.Memory.{memory_bytes};

    /// Returns a file with these bytes, all of them on the disk.
    pub fn new(alloc: Global, bytes: Vec<u8>) -> Self
        ensures { memory_bytes result ≡ bytes.items }
    {
        MemoryDevice {
            alloc,
            bytes,
            past: Vec::new(alloc),
        }
    }

    /// Returns the bytes that the file holds. It takes no memory and leaves all as it is.
    pub fn bytes(&self) -> &[u8]
        ensures { result.now ≡ memory_bytes self.now }
    {
        &self.bytes
    }
}

/// Puts other bytes in the place of those that are there, which it keeps.
fn replace(
    alloc: Global,
    bytes: &mut Vec<u8>,
    past: &mut Vec<Vec<u8>>,
    next: Vec<u8>,
) -> Result<(), AllocError>
    ensures ok { OnOk result (bytes.new.items ≡ next.items) }
    ensures err { OnErr result (bytes.new.items ≡ bytes.old.items) }
    ensures past { OnOk result ((v : _) × (v.items ≡ bytes.old.items) × (past.new.items ≡ past.old.items ++ v ∷ [])) }
    ensures past_err { OnErr result (past.new.items ≡ past.old.items) }
{
    past.push(bytes.to_vec(alloc)?)?;
    *bytes = next;
    Ok(())
}

/// Returns the bytes with others written over them.
fn written_over(alloc: Global, bytes: &[u8], at: usize, new: &[u8]) -> Result<Vec<u8>, AllocError>
    requires { at ≤ length bytes.now }
    ensures { IfOk result (λ v. Holds bytes.now at new.now v.items) }
{
    let mut next = bytes[..at].to_vec(alloc)?;
    next.extend_from_slice(new)?;
    if new.len() < bytes.len() - at {
        next.extend_from_slice(&bytes[at + new.len()..])?;
    }
    Ok(next)
}

impl Device for MemoryDevice {
    ghost seen = { λ m. m.bytes.items };

    ghost may_leave = { λ m c. c ≡ m.bytes.items };

    ghost moment = { λ m. length m.past.items };

    ghost left_since = { λ m t c. (c ≡ m.bytes.items) ⊎ HadBeen (drop t m.past.items) c };

    ghost stale = { λ m i. ⊥ };

    ghost faults = { λ m. 0 };

    ghost counts_now = { λ m t c le now. inl now };

    ghost only_now = { λ m c left. only_bytes m.past.items m.bytes.items c left };

    fn read(&mut self, alloc: Global) -> Result<Vec<u8>, DeviceError> {
        Ok(self.bytes.to_vec(alloc)?)
    }

    fn write_at(&mut self, at: usize, bytes: &[u8]) -> Result<(), DeviceError> {
        let next = written_over(self.alloc, &self.bytes, at, bytes)?;
        Ok(replace(self.alloc, &mut self.bytes, &mut self.past, next)?)
    }

    fn cut(&mut self, len: usize) -> Result<(), DeviceError> {
        let next = self.bytes[..len].to_vec(self.alloc)?;
        Ok(replace(self.alloc, &mut self.bytes, &mut self.past, next)?)
    }

    fn sync(&mut self) -> Result<(), DeviceError> {
        Ok(())
    }
}
