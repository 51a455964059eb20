//! A journal that is read on while its writer appends to it.
ghost use Rattle.std.specs.Prelude.{◌≡◌, ◌+◌, ◌<◌, OnOk};

use crate::files::{opened_to_read, path_of};
use crate::identity::first_checksum;
use crate::logs::{LOOKS, counted_in, extent_of, fault_of, log_in};
use amo_journal::{Checksum, Log, Place, ReadOnError, read_on};
use amo_run_faults::{Fault, Item, Later, Setting, had, written};
use amo_run_files::{Extent, RoundFile};
use amo_run_journals::loss_in;
use amo_system_calls::SystemCalls;

/// A journal, the handle by which it is read, and what was read of it.
#[derive(Drop)]
pub(crate) struct Follower<H> {
    item: Item,
    path: String,
    file: H,
    /// The place of the last append that was read.
    place: Place,
    /// The checksum of each append that was read.
    checksums: Vec<Checksum>,
    /// How often the file was read on. By this number contracts state that a call reads on.
    reads: u64,
}

impl<H: Drop> Follower<H> {
    /// Opens a journal, and reads it from its beginning. `last` is the file of the round, which the
    /// caller has read before. `own` is the handle that is taken in place of a new one.
    ///
    /// # Errors
    /// As [`log_in`]. `Missing` if it isn't there, and `Later` if `own` is of another file than
    /// the one of that name.
    pub(crate) fn open<S: SystemCalls<Handle = H>>(
        system: &mut S,
        setting: &Setting<'_>,
        last: Option<&RoundFile>,
        item: Item,
        own: Option<&H>,
    ) -> Result<(Follower<H>, Log), Fault> {
        let path = path_of(system.alloc(), setting, item)?;
        let file = match own {
            Some(guard) => written(item, system.copy(guard))?,
            None => match opened_to_read(system, setting, item)? {
                Some(file) => file,
                None => return Err(Fault::Missing(item)),
            },
        };
        check_name(system, item, &file, path.as_str())?;
        let (log, place) = log_in(system, setting, item, last, &file)?;
        let follower = Follower {
            item,
            path,
            file,
            place,
            checksums: log.checksums.to_vec(system.alloc())?,
            reads: 1,
        };
        Ok((follower, log))
    }

    /// Reads on, and returns the appends that were not read before. If they can't be read, they are
    /// read once more, as long as the file shows other bytes: its writer may be at work.
    ///
    /// # Errors
    /// `Later` if the file can't be read on: the last append that was read, or the file itself, was
    /// replaced, or what follows is damaged.
    pub(crate) fn more<S: SystemCalls<Handle = H>>(&mut self, system: &mut S) -> Result<Log, Fault>
        ensures read { OnOk result (self.old.reads < self.new.reads) }
    {
        check_name(system, self.item, &self.file, self.path.as_str())?;
        let mut bytes = self.rest(system)?;
        let mut read = read_on(system.alloc(), &self.place, &bytes);
        for _look in 0..LOOKS {
            if read.is_ok() {
                break;
            }
            let again = self.rest(system)?;
            let is_same = again.as_slice() == bytes.as_slice();
            bytes = again;
            if is_same {
                break;
            }
            read = read_on(system.alloc(), &self.place, &bytes);
        }
        match read {
            Ok((log, place)) => {
                self.checksums.extend_from_slice(&log.checksums)?;
                self.place = place;
                Ok(log)
            }
            Err(ReadOnError::Memory) => Err(Fault::Memory),
            Err(_) => Err(Fault::Later(Later::Changed(self.item))),
        }
    }

    /// Compares what was read with what the file of a later round counts of this journal. The
    /// caller has read on since it read that file.
    ///
    /// # Errors
    /// `Lost` if fewer appends were read than were counted, or another one is the last of those.
    /// `Refused` if the file counts nothing of this journal.
    pub(crate) fn check<S: SystemCalls<Handle = H>>(
        &self,
        system: &mut S,
        setting: &Setting<'_>,
        last: Option<&RoundFile>,
    ) -> Result<(), Fault> {
        let first = first_checksum(system, setting, self.item)?;
        let counted = counted_in(system.alloc(), self.item, last)?;
        match loss_in(first, counted, &self.checksums) {
            Some(why) => Err(fault_of(self.item, why, counted, last)),
            None => Ok(()),
        }
    }

    /// Returns how much of this journal is on the disk, by what was read: all appends but the last.
    pub(crate) fn extent<S: SystemCalls<Handle = H>>(
        &self,
        system: &mut S,
        setting: &Setting<'_>,
    ) -> Result<Extent, Fault> {
        extent_of(system, setting, self.item, &self.checksums)
    }

    /// Returns the bytes of the file from the last append on that was read.
    ///
    /// # Errors
    /// `Read`, and `Later` if the file was read on more often than 64 bits can count.
    fn rest<S: SystemCalls<Handle = H>>(&mut self, system: &mut S) -> Result<Vec<u8>, Fault>
        ensures { OnOk result (self.new.reads ≡ self.old.reads + 1) }
    {
        let Some(reads) = self.reads.checked_add(1) else {
            return Err(Fault::Later(Later::Changed(self.item)));
        };
        let bytes = had(
            self.item,
            system.read_from(&self.file, self.place.start() as u64),
        )?;
        self.reads = reads;
        Ok(bytes)
    }
}

/// Refuses a file that has this name no longer.
///
/// # Errors
/// `Later` if another file has it, or none.
fn check_name<S: SystemCalls>(
    system: &mut S,
    item: Item,
    file: &S::Handle,
    path: &str,
) -> Result<(), Fault> {
    if had(item, system.is_at(file, path))? {
        Ok(())
    } else {
        Err(Fault::Later(Later::Changed(item)))
    }
}
