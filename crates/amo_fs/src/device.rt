//! A file of the system as a device.
ghost use Rattle.std.specs.Prelude.{◌≡◌, ◌+◌, ◌≤◌, ◌<◌, length};
ghost use Rattle.amo_journal.specs.Device.{Holds};
ghost use Rattle.amo_journal.specs.declared.device.DeviceError.TheVariants.{Failed};

use amo_journal::{Device, DeviceError};
use amo_system_calls::DiskFile;
use std::alloc::Global;
use std::fs::File;
use std::io;
use std::io::Read;

/// `FileDevice`: a file of the system, open to read and write, that nobody else writes. It keeps in
/// memory the bytes that were read as it was opened, and those that were written since. A read
/// returns them. The contents that a crash may leave are those of its [`DiskFile`]. We assume its
/// clauses of files of the system, so the device over such a file states nothing of crashes.
#[derive(Drop)]
pub struct FileDevice<F = File> {
    file: F,
    bytes: Vec<u8>,
    faults: u64,
}

impl<F: Read + Drop> FileDevice<F> {
    /// Returns the device over a file, all of which it reads.
    ///
    /// # Errors
    ///
    /// The system's error, or one of the kind `OutOfMemory`.
    pub fn open(alloc: Global, mut file: F) -> io::Result<FileDevice<F>> {
        let mut bytes = Vec::new(alloc);
        file.read_to_end(&mut bytes)?;
        Ok(FileDevice {
            file,
            bytes,
            faults: 0,
        })
    }
}

impl<F> FileDevice<F> {
    /// Counts a fault of the disk, and returns its error. After 2^64 - 1 faults it returns the
    /// error for want of memory.
    fn failed(&mut self) -> DeviceError
        ensures file { self.new.file ≡ self.old.file }
        ensures bytes { self.new.bytes ≡ self.old.bytes }
        ensures later { self.old.faults ≤ self.new.faults }
        ensures cause { result ≡ Failed → self.old.faults < self.new.faults }
    {
        match self.faults.checked_add(1) {
            Some(faults) => {
                self.faults = faults;
                DeviceError::Failed
            }
            None => DeviceError::Memory,
        }
    }
}

/// Writes over some of the bytes.
fn write_within(bytes: &mut Vec<u8>, at: usize, new: &[u8])
    requires { at + length new.now ≤ length bytes.old.items }
    ensures { Holds bytes.old.items at new.now bytes.new.items }
{
    let end = at + new.len();
    bytes[at..end].copy_from_slice(new);
}

impl<F: DiskFile> Device for FileDevice<F> {
    ghost seen = { λ d. d.bytes.items };

    ghost may_leave = { λ d. F.may_leave d.file };

    ghost stale = { λ d. F.stale d.file };

    ghost moment = { λ d. F.moment d.file };

    ghost left_since = { λ d. F.left_since d.file };

    ghost faults = { λ d. d.faults };

    ghost counts_now = { λ d. F.counts_now d.file };

    ghost only_now = { λ d. F.only_now d.file };

    fn read(&mut self, alloc: Global) -> Result<Vec<u8>, DeviceError> {
        Ok(self.bytes.to_vec(alloc)?)
    }

    fn write_at(&mut self, at: usize, bytes: &[u8]) -> Result<(), DeviceError> {
        let before = self.bytes.len();
        let inside = bytes.len().min(before - at);
        self.bytes.extend_from_slice(&bytes[inside..])?;
        let count = match self.file.write_front(at, bytes, &self.bytes[..before]) {
            Ok(count) => count,
            Err(_) => {
                self.bytes.truncate(before);
                return Err(self.failed());
            }
        };
        self.bytes.truncate(before.max(at + count));
        write_within(&mut self.bytes, at, &bytes[..inside.min(count)]);
        if count < bytes.len() {
            return Err(self.failed());
        }
        Ok(())
    }

    fn cut(&mut self, len: usize) -> Result<(), DeviceError> {
        if self.file.cut_to(len).is_err() {
            return Err(self.failed());
        }
        self.bytes.truncate(len);
        Ok(())
    }

    fn sync(&mut self) -> Result<(), DeviceError> {
        if self.file.sync_bytes(&self.bytes).is_err() {
            return Err(self.failed());
        }
        Ok(())
    }
}
