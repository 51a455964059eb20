//! Reading of a run's answers and journals while others append to them.
use crate::follower::Follower;
use amo_params::MAX_WORKERS;
use amo_run_faults::{Fault, Item, Setting};
use amo_run_files::{Extent, RoundFile};
use amo_system_calls::SystemCalls;
use std::alloc::Global;

/// The handles by which a process reads the answers and the journals of a run on. It opens the
/// answers first, and then the journals of the workers 1, 2 and so on.
#[derive(Drop)]
pub struct FollowedFiles<H> {
    files: Vec<Follower<H>>,
}

impl<H: Drop> FollowedFiles<H> {
    /// Returns no handles yet.
    pub fn new(alloc: Global) -> FollowedFiles<H> {
        FollowedFiles {
            files: Vec::new(alloc),
        }
    }

    /// Reads the answers or a journal: from the beginning if they were not opened before, else on
    /// from the last append that was read. Returns the records of the appends that were not read
    /// before, and how much of the file is on the disk, whatever a crash takes. `last` is the file
    /// of the last round, which the caller has read before. `own` is the handle that is taken in
    /// place of a new one.
    ///
    /// # Errors
    /// As `Follower::open` and `Follower::more`. `Lost` if `last` counts more appends than were
    /// read, or another last one. `NoWay` if there is no such file, or if it isn't this one's turn
    /// to be opened.
    pub fn read<S: SystemCalls<Handle = H>>(
        &mut self,
        system: &mut S,
        setting: &Setting<'_>,
        last: Option<&RoundFile>,
        item: Item,
        own: Option<&H>,
    ) -> Result<(Vec<Vec<u8>>, Extent), Fault> {
        let place = place_of(item)?;
        if place == self.files.len() {
            let (file, log) = Follower::open(system, setting, last, item, own)?;
            let extent = file.extent(system, setting)?;
            self.files.push(file)?;
            return Ok((log.records, extent));
        }
        if place > self.files.len() {
            return Err(Fault::NoWay);
        }
        let records = self.files[place].more(system)?.records;
        self.files[place].check(system, setting, last)?;
        Ok((records, self.files[place].extent(system, setting)?))
    }

    /// Reads the answers or a journal on, and returns the records of the appends that were not read
    /// before.
    ///
    /// # Errors
    /// As `Follower::more`, and `NoWay` if the file was not opened.
    pub fn read_on<S: SystemCalls<Handle = H>>(
        &mut self,
        system: &mut S,
        item: Item,
    ) -> Result<Vec<Vec<u8>>, Fault> {
        let place = place_of(item)?;
        if place >= self.files.len() {
            return Err(Fault::NoWay);
        }
        Ok(self.files[place].more(system)?.records)
    }
}

/// Returns the place of a file among those that are followed.
///
/// # Errors
/// `NoWay` if it isn't followed.
fn place_of(item: Item) -> Result<usize, Fault> {
    match item {
        Item::Answers => Ok(0),
        Item::Journal(worker) if worker >= 1 && worker <= MAX_WORKERS as u64 => Ok(worker as usize),
        _ => Err(Fault::NoWay),
    }
}
