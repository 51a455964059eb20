//! The operating system, as a worker's process has it: the files of its run, its runner, the clock.
ghost use Rattle.std.specs.Prelude.{◌≡◌};

use crate::boot::boot_id;
use crate::lines::read_known;
use crate::registers::{front_of, load_word, open_words, store_word};
use amo_fs::FileDevice;
use amo_host::{Failed, Hold, Host, LogFile, LogPart, Registers, RunLock};
use amo_host_parts::{LastFault, appended, exchange, item_of_log, shown};
use amo_journal::AppendError;
use amo_run_dir::{
    FollowedFiles, check_kept, check_number, lock_of, record_of, recovered, replace_record,
    replaced, replaced_unsynced, sync, synced_bytes,
};
use amo_run_faults::{Fault, Item, ListSettings, Setting};
use amo_run_files::{HashedJobs, RoundFile};
use amo_run_journals::OpenJournal;
use amo_run_log::{AttemptId, Entry};
use amo_system_calls::{LockMode, Os, SystemCalls};
use std::alloc::AllocError;
use std::fs::File;
use std::rt::HostRuntime;

/// The pause between two tries of a lock, in milliseconds.
const PAUSE: u64 = 20;

/// The files of a run and the runner, as the worker's process has them open. After a call has
/// failed, `take_fault` says why.
#[derive(Drop)]
pub struct RunHost<'a> {
    system: Os,
    setting: Setting<'a>,
    /// The path of the user's list.
    list: &'a str,
    worker: u64,
    /// The handle that has the lock on the worker's journal.
    guard: Option<File>,
    /// The handle that has the lock of the round.
    round: Option<File>,
    /// `None` before it was recovered, and after an append has failed.
    journal: Option<OpenJournal<FileDevice>>,
    registers: Option<File>,
    logs: FollowedFiles<File>,
    /// The runner's last line, without its line feed.
    said: Vec<u8>,
    fault: LastFault,
}

impl<'a> RunHost<'a> {
    /// Returns a host that has nothing open yet.
    pub fn new(
        rt: HostRuntime,
        setting: &Setting<'a>,
        jobs: &ListSettings<'a>,
        worker: u64,
    ) -> RunHost<'a> {
        RunHost {
            system: Os::new(rt),
            setting: *setting,
            list: jobs.list,
            worker,
            guard: None,
            round: None,
            journal: None,
            registers: None,
            logs: FollowedFiles::new(rt.alloc()),
            said: Vec::new(rt.alloc()),
            fault: LastFault::none(),
        }
    }

    /// Returns which log the worker's own journal is.
    pub fn own_log(&self) -> LogFile {
        LogFile::Journal(self.worker)
    }

    /// Returns why a call has failed, if one has.
    pub fn take_fault(&mut self) -> Option<Fault> {
        self.fault.take()
    }

    /// Returns the runner's last line as a text to print.
    ///
    /// # Errors
    ///
    /// `AllocError` if there was no memory.
    pub fn reply_text(&self) -> Result<String, AllocError> {
        shown(self.system.alloc(), &self.said)
    }

    /// Takes the journal, for one call. After a call has failed it is gone.
    fn take_journal(&mut self) -> Result<OpenJournal<FileDevice>, Failed> {
        match self.journal.take() {
            Some(journal) => Ok(journal),
            None => self
                .fault
                .told(Err(Fault::Journal(Item::Journal(self.worker)))),
        }
    }

    /// Keeps the journal that a call has returned.
    fn keep(&mut self, given: Result<OpenJournal<FileDevice>, AppendError>) -> Result<(), Failed> {
        let journal = appended(Item::Journal(self.worker), given);
        self.journal = Some(self.fault.told(journal)?);
        Ok(())
    }

    /// Takes a lock, and returns the handle that has it. Returns `None` if another process has one
    /// that excludes it.
    fn locked(&mut self, lock: RunLock, hold: Hold) -> Result<Option<File>, Fault> {
        let mode = match hold {
            Hold::Shared => LockMode::Shared,
            Hold::Exclusive => LockMode::Exclusive,
        };
        lock_of(
            &mut self.system,
            &self.setting,
            item_of_run_lock(lock),
            mode,
        )
    }

    /// Recovers the worker's journal, and keeps it.
    fn recovered(&mut self, last: Option<&RoundFile>) -> Result<Vec<Vec<u8>>, Fault> {
        let item = Item::Journal(self.worker);
        let Some(guard) = &self.guard else {
            return Err(Fault::NoWay);
        };
        let (journal, texts) = recovered(&mut self.system, &self.setting, item, last, guard)?;
        self.journal = Some(journal);
        Ok(texts)
    }

    /// Opens the registers, and keeps them.
    fn opened(&mut self, front: usize) -> Result<Option<Registers>, Fault> {
        let Some(file) = open_words(&mut self.system, &self.setting)? else {
            return Ok(None);
        };
        let mut bytes = vec![in self.system.alloc(); 0u8; front]?;
        let Some(len) = front_of(&mut self.system, &file, &mut bytes)? else {
            return Ok(None);
        };
        self.registers = Some(file);
        Ok(Some(Registers { len, front: bytes }))
    }

    /// Says a line to the runner, and keeps the reply, to be shown if it is invalid.
    fn asked(&mut self, line: &[u8]) -> Result<Option<Vec<u8>>, Fault> {
        let heard = exchange(&mut self.system, line)?;
        if let Some(said) = &heard {
            self.said = said.to_vec(self.system.alloc())?;
        }
        Ok(heard)
    }

    /// Reads a log, from its beginning or on.
    fn part_of(&mut self, log: LogFile, last: Option<&RoundFile>) -> Result<LogPart, Fault> {
        let item = item_of_log(log);
        let own = guard_of(&self.guard, log == LogFile::Journal(self.worker));
        let (texts, counted) = self
            .logs
            .read(&mut self.system, &self.setting, last, item, own)?;
        Ok(LogPart { texts, counted })
    }
}

/// Returns the file whose lock a worker's process takes.
fn item_of_run_lock(lock: RunLock) -> Item {
    match lock {
        RunLock::Guard(worker) => Item::Journal(worker),
        RunLock::Round => Item::Round,
    }
}

/// Returns the handle of a guard if it is wanted.
fn guard_of(guard: &Option<File>, is_wanted: bool) -> Option<&File> {
    if is_wanted { guard.as_ref() } else { None }
}

impl<'a> Host for RunHost<'a> {
    ghost stands = { λ _ _. Unit {0} };

    fn try_lock(&mut self, lock: RunLock, hold: Hold) -> Result<bool, Failed> {
        let locked = self.locked(lock, hold);
        let handle = self.fault.told(locked)?;
        let got = handle.is_some();
        match lock {
            RunLock::Guard(_) => self.guard = handle,
            RunLock::Round => self.round = handle,
        }
        Ok(got)
    }

    fn unlock(&mut self, lock: RunLock) {
        match lock {
            RunLock::Guard(_) => self.guard = None,
            RunLock::Round => self.round = None,
        }
    }

    fn check_folder(&mut self) -> Result<(), Failed> {
        let checked = match &self.guard {
            Some(guard) => check_number(&mut self.system, &self.setting, self.worker, guard),
            None => check_kept(&mut self.system, &self.setting),
        };
        self.fault.told(checked)
    }

    fn sync_folder(&mut self) -> Result<(), Failed> {
        let synced = sync(&mut self.system, &self.setting);
        self.fault.told(synced)
    }

    fn read_boot(&mut self) -> Result<Vec<u8>, Failed> {
        let boot = boot_id(&mut self.system, self.setting.boot);
        self.fault.told(boot)
    }

    fn read_round(&mut self) -> Result<Option<RoundFile>, Failed> {
        let last = record_of(&mut self.system, &self.setting);
        self.fault.told(last)
    }

    fn recover(&mut self, last: Option<&RoundFile>) -> Result<Vec<Vec<u8>>, Failed> {
        let texts = self.recovered(last);
        self.fault.told(texts)
    }

    fn read_jobs(&mut self, last: Option<&RoundFile>, jobs: &mut HashedJobs) -> Result<(), Failed> {
        let read = read_known(&mut self.system, &self.setting, last, jobs);
        self.fault.told(read)
    }

    fn open_registers(&mut self, front: usize) -> Result<Option<Registers>, Failed> {
        let opened = self.opened(front);
        self.fault.told(opened)
    }

    fn read_log(&mut self, log: LogFile, last: Option<&RoundFile>) -> Result<LogPart, Failed> {
        let part = self.part_of(log, last);
        self.fault.told(part)
    }

    fn read_list(&mut self) -> Result<Vec<u8>, Failed> {
        let bytes = synced_bytes(&mut self.system, Item::List, self.list);
        self.fault.told(bytes)
    }

    fn make_jobs(&mut self, bytes: &[u8]) -> Result<(), Failed> {
        let made = replaced(&mut self.system, &self.setting, Item::Known, bytes);
        self.fault.told(made)
    }

    fn make_round(&mut self, file: &RoundFile) -> Result<(), Failed> {
        let made = replace_record(&mut self.system, &self.setting, file);
        self.fault.told(made)
    }

    fn make_registers(&mut self, bytes: &[u8]) -> Result<(), Failed> {
        let made = replaced_unsynced(&mut self.system, &self.setting, Item::Words, bytes);
        self.fault.told(made)
    }

    fn load(&mut self, register: u64) -> Result<u64, Failed> {
        let loaded = match &self.registers {
            Some(file) => load_word(&mut self.system, file, register),
            None => Err(Fault::NoWay),
        };
        self.fault.told(loaded)
    }

    fn store(&mut self, register: u64, value: u64) -> Result<(), Failed> {
        let stored = match &self.registers {
            Some(file) => store_word(&mut self.system, file, register, value),
            None => Err(Fault::NoWay),
        };
        self.fault.told(stored)
    }

    fn pass_over(&mut self, _job: u32) -> Result<(), Failed> {
        Ok(())
    }

    fn put(&mut self, entry: Entry) -> Result<(), Failed> {
        let journal = self.take_journal()?;
        let given = journal.put(self.system.alloc(), entry);
        self.keep(given)
    }

    fn owe(&mut self, entry: Entry) -> Result<(), Failed> {
        let journal = self.take_journal()?;
        let given = journal.owe(self.system.alloc(), entry);
        self.keep(given)
    }

    fn pay(&mut self) -> Result<(), Failed> {
        let journal = self.take_journal()?;
        let given = journal.pay(self.system.alloc());
        self.keep(given)
    }

    fn read_on(&mut self, log: LogFile) -> Result<Vec<Vec<u8>>, Failed> {
        let read = self.logs.read_on(&mut self.system, item_of_log(log));
        self.fault.told(read)
    }

    fn say(&mut self, line: &[u8]) -> Result<Option<Vec<u8>>, Failed> {
        let heard = self.asked(line);
        self.fault.told(heard)
    }

    fn pause(&self) {
        self.system.pause(PAUSE);
    }

    fn now(&self) -> u64 {
        self.system.now()
    }

    fn tell_taken(&self, line: u64, other: AttemptId) {
        let (worker, serial) = (other.worker, other.serial);
        if let Ok(text) = format!(in self.system.alloc();
            "amo_worker: line {line}: attempt {worker}.{serial} stands against it; not started"
        ) {
            self.system.tell(text.as_str());
        }
    }
}
