//! A file over a disk in memory.
ghost use Rattle.std.specs.Prelude.{◌≡◌, ℕ, [], IfOk};
ghost use Rattle.amo_journal.specs.Device.{Only};
ghost use Rattle.amo_sim_disk.specs.Disk.{disk_calls, disk_failing, disk_story};
ghost use Rattle.amo_sim_disk.specs.Replay.{OutcomeIn, StaleIn, read_in};

use amo_fs::DiskFile;
use amo_journal::Device;
use amo_sim_disk::Disk;
use std::alloc::{AllocError, Global};
use std::io;
use std::io::{ErrorKind, Read};

/// `SimFile`: a file in memory that tears, is cut short and fails, for tests. Its bytes lie on a
/// [`Disk`], so a crash may leave any image that the disk may leave. One call may be planned to
/// fail. Then a write writes nothing, a cut cuts nothing that is read, and a sync leaves stale
/// places. One write may be planned to be cut short.
#[derive(Drop)]
pub struct SimFile {
    disk: Disk,
    failing: Option<usize>,
    short: Option<usize>,
    place: usize,
    ghost planned: { disk_failing disk ≡ failing },
}

impl SimFile {
    ghost use Rattle.amo_sim_file.specs.File.{file_disk};

    /// Returns a file that has these bytes and no others, and that is read from its start on. The
    /// call with the number `failing` fails. A write with the number `short` writes half its bytes,
    /// rounded down. The first call has the number 0. Writes, cuts and syncs count alike. A write
    /// that fails doesn't count, so each write fails until a cut or a sync has failed.
    ///
    /// # Errors
    ///
    /// `AllocError` if there was no memory.
    pub fn new(
        alloc: Global,
        bytes: &[u8],
        failing: Option<usize>,
        short: Option<usize>,
    ) -> Result<Self, AllocError>
        ensures read { IfOk result (λ file. read_in (disk_story (file_disk file)) ≡ bytes.now) }
        ensures durable { IfOk result (λ file. Only bytes.now (OutcomeIn (disk_story (file_disk file)))) }
        ensures fresh { IfOk result (λ file. (i : ℕ) → StaleIn (disk_story (file_disk file)) i → ⊥) }
        ensures calls { IfOk result (λ file. disk_calls (file_disk file) ≡ []) }
        ensures failing { IfOk result (λ file. disk_failing (file_disk file) ≡ failing) }
    {
        let disk = Disk::new(alloc, bytes, failing)?;
        Ok(SimFile {
            disk,
            failing,
            short,
            place: 0,
        })
    }

    /// Returns the disk on which its bytes lie.
    pub fn disk(&self) -> &Disk
        ensures { result.now ≡ file_disk self.now }
    {
        &self.disk
    }
}

impl Read for SimFile {
    fn read(&mut self, buf: &mut [u8]) -> io::Result<usize> {
        let bytes = self.disk.bytes();
        let start = self.place.min(bytes.len());
        let count = buf.len().min(bytes.len() - start);
        buf[..count].copy_from_slice(&bytes[start..start + count]);
        self.place = start + count;
        Ok(count)
    }
}

impl DiskFile for SimFile {
    ghost use Rattle.amo_sim_disk.specs.Moments.{LeftSince, now_alone, now_counts};
    ghost use Rattle.amo_sim_disk.specs.Replay.{call_count};

    ghost may_leave = { λ file. OutcomeIn (disk_story file.disk) };

    ghost stale = { λ file. StaleIn (disk_story file.disk) };

    ghost moment = { λ file. call_count (disk_story file.disk) };

    ghost left_since = { λ file. LeftSince (disk_story file.disk) };

    ghost counts_now = { λ file. now_counts (disk_story file.disk) };

    ghost only_now = { λ file. now_alone (disk_story file.disk) };

    fn write_front(&mut self, at: usize, bytes: &[u8], before: &[u8]) -> io::Result<usize> {
        let number = self.disk.calls().len();
        if self.failing == Some(number) || before.len() < at || before != self.disk.bytes() {
            return Err(io::Error::from(ErrorKind::StorageFull));
        }
        let count = if self.short == Some(number) {
            bytes.len() / 2
        } else {
            bytes.len()
        };
        match self.disk.write_at(at, &bytes[..count]) {
            Ok(()) => Ok(count),
            Err(_) => Err(io::Error::from(ErrorKind::OutOfMemory)),
        }
    }

    fn cut_to(&mut self, len: usize) -> io::Result<()> {
        if self.disk.bytes().len() < len {
            return Err(io::Error::from(ErrorKind::InvalidInput));
        }
        match self.disk.cut(len) {
            Ok(()) => Ok(()),
            Err(_) => Err(io::Error::from(ErrorKind::Other)),
        }
    }

    fn sync_bytes(&mut self, shown: &[u8]) -> io::Result<()> {
        if shown != self.disk.bytes() {
            return Err(io::Error::from(ErrorKind::InvalidInput));
        }
        match self.disk.sync() {
            Ok(()) => Ok(()),
            Err(_) => Err(io::Error::from(ErrorKind::Other)),
        }
    }
}
