//! The operating system, as an operator's command has it: the files of a run, the clock, and
//! standard output.
ghost use Rattle.std.specs.Prelude.{◌≡◌};

use crate::old::old_texts_of;
use amo_fs::FileDevice;
use amo_host::{Failed, LogFile};
use amo_host_parts::{LastFault, appended, item_of_log, print};
use amo_journal::AppendError;
use amo_operator::{OperatorHost, OperatorLock};
use amo_run_dir::{
    Age, Tried, check_id, check_kept, known, lock_of, log_of, path_of, record_of, recovered, sync,
    try_lock_of,
};
use amo_run_faults::{Fault, Item, Setting, had};
use amo_run_files::{Jobs, RoundFile};
use amo_run_journals::OpenJournal;
use amo_run_log::{Entry, Finding, Outcome};
use amo_status::AttemptId;
use amo_system_calls::{LockMode, Os, SystemCalls};
use std::fs::File;
use std::rt::HostRuntime;

/// The pause between two tries of a lock, in milliseconds.
const PAUSE: u64 = 50;

/// A lock that this process has, with the handle that has it.
#[derive(Drop)]
struct HeldLock {
    lock: OperatorLock,
    handle: File,
}

/// A log that this process has recovered, so that it may append to it.
#[derive(Drop)]
struct RecoveredLog {
    log: LogFile,
    journal: OpenJournal<FileDevice>,
}

/// The files of a run, as an operator's command has them open. In a folder of version 0.1.0 nothing
/// is made or written. After a call has failed, `take_fault` says why.
#[derive(Drop)]
pub struct OperatorFiles<'a> {
    system: Os,
    setting: Setting<'a>,
    age: Age,
    held: Vec<HeldLock>,
    /// After an append to a log has failed, that log is gone.
    logs: Vec<RecoveredLog>,
    fault: LastFault,
}

impl<'a> OperatorFiles<'a> {
    /// Returns a host that has nothing open yet. `age` says how the folder was made.
    pub fn new(rt: HostRuntime, setting: &Setting<'a>, age: Age) -> OperatorFiles<'a> {
        OperatorFiles {
            system: Os::new(rt),
            setting: *setting,
            age,
            held: Vec::new(rt.alloc()),
            logs: Vec::new(rt.alloc()),
            fault: LastFault::none(),
        }
    }

    /// Returns why a call has failed, if one has.
    pub fn take_fault(&mut self) -> Option<Fault> {
        self.fault.take()
    }

    /// Tries a lock, and returns true if this process has got it.
    fn locked(&mut self, lock: OperatorLock) -> Result<bool, Fault> {
        if self.age == Age::Old || may_be_missing(lock) {
            return self.locked_if_there(lock);
        }
        let item = item_of_lock(lock);
        match lock_of(&mut self.system, &self.setting, item, LockMode::Exclusive)? {
            Some(handle) => {
                self.held.push(HeldLock { lock, handle })?;
                Ok(true)
            }
            None => Ok(false),
        }
    }

    /// Tries the lock of a file that may be missing, and makes nothing. Returns true if this
    /// process has got the lock, or if there is no such file. A file that was removed or replaced
    /// after it was opened counts as locked by another process.
    fn locked_if_there(&mut self, lock: OperatorLock) -> Result<bool, Fault> {
        let item = item_of_lock(lock);
        let handle = match try_lock_of(&mut self.system, &self.setting, item)? {
            Tried::Got(handle) => handle,
            Tried::Held => return Ok(false),
            Tried::Missing => return Ok(true),
        };
        let path = path_of(self.system.alloc(), &self.setting, item)?;
        let is_there = had(item, self.system.is_at(&handle, path.as_str()))?;
        self.held.push(HeldLock { lock, handle })?;
        Ok(is_there)
    }

    /// Checks the folder, as the host's `check_folder` does.
    fn checked(&mut self, kept: bool) -> Result<(), Fault> {
        match self.age {
            Age::Old => Ok(()),
            Age::Now if kept => check_kept(&mut self.system, &self.setting),
            Age::Now => check_id(&mut self.system, &self.setting),
        }
    }

    /// Returns the file of the last round, if there is one. A round of version 0.1.0 counts
    /// nothing, so it isn't read.
    fn last_round(&mut self) -> Result<Option<RoundFile>, Fault> {
        match self.age {
            Age::Now => record_of(&mut self.system, &self.setting),
            Age::Old => Ok(None),
        }
    }

    /// Returns the texts of a log, as the host's `read_log` does.
    fn texts_of(&mut self, log: LogFile, last: Option<&RoundFile>) -> Result<Vec<Vec<u8>>, Fault> {
        let item = item_of_log(log);
        match self.age {
            Age::Now => Ok(log_of(&mut self.system, &self.setting, item, last)?.records),
            Age::Old => old_texts_of(&mut self.system, &self.setting, item),
        }
    }

    /// Recovers a log whose lock this process has, syncs the folder, and keeps the log. One of
    /// version 0.1.0 is only read.
    fn recovered(&mut self, log: LogFile, last: Option<&RoundFile>) -> Result<Vec<Vec<u8>>, Fault> {
        if self.age == Age::Old {
            return self.texts_of(log, last);
        }
        let Some(handle) = handle_of(&self.held, lock_of_log(log)) else {
            return Err(Fault::NoWay);
        };
        let item = item_of_log(log);
        let (journal, texts) = recovered(&mut self.system, &self.setting, item, last, handle)?;
        sync(&mut self.system, &self.setting)?;
        self.logs.push(RecoveredLog { log, journal })?;
        Ok(texts)
    }

    /// Takes a log that was recovered, for one append.
    fn take_log(&mut self, log: LogFile) -> Result<OpenJournal<FileDevice>, Failed> {
        match self.logs.iter().position(|it| it.log == log) {
            Some(place) => Ok(self.logs.remove(place).journal),
            None => self.fault.told(Err(Fault::Journal(item_of_log(log)))),
        }
    }

    /// Keeps the log that an append has returned.
    fn keep_log(
        &mut self,
        log: LogFile,
        given: Result<OpenJournal<FileDevice>, AppendError>,
    ) -> Result<(), Fault> {
        let journal = appended(item_of_log(log), given)?;
        self.logs.push(RecoveredLog { log, journal })?;
        Ok(())
    }
}

/// Returns the file whose lock an operator's command takes.
fn item_of_lock(lock: OperatorLock) -> Item {
    match lock {
        OperatorLock::Answers => Item::Answers,
        OperatorLock::Journal(worker) => Item::Journal(worker),
        OperatorLock::Runner(worker) => Item::Runner(worker),
        OperatorLock::Command(worker, serial) => Item::Command(worker, serial),
    }
}

/// Returns true if the file of this lock may be missing.
fn may_be_missing(lock: OperatorLock) -> bool {
    match lock {
        OperatorLock::Command(..) => true,
        OperatorLock::Answers | OperatorLock::Journal(_) | OperatorLock::Runner(_) => false,
    }
}

/// Returns the lock of this log.
fn lock_of_log(log: LogFile) -> OperatorLock {
    match log {
        LogFile::Answers => OperatorLock::Answers,
        LogFile::Journal(worker) => OperatorLock::Journal(worker),
    }
}

/// Returns the handle that has this lock, if one has it.
fn handle_of(held: &[HeldLock], lock: OperatorLock) -> Option<&File> {
    for it in held {
        if it.lock == lock {
            return Some(&it.handle);
        }
    }
    None
}

impl<'a> OperatorHost for OperatorFiles<'a> {
    ghost stands = { λ _ _. Unit {0} };

    fn try_lock(&mut self, lock: OperatorLock) -> Result<bool, Failed> {
        let is_got = self.locked(lock);
        self.fault.told(is_got)
    }

    fn unlock(&mut self, worker: u64) {
        self.logs.retain(|it| it.log != LogFile::Journal(worker));
        self.held
            .retain(|it| it.lock != OperatorLock::Journal(worker));
    }

    fn unlock_all(&mut self) {
        self.logs.clear();
        self.held.clear();
    }

    fn check_folder(&mut self, kept: bool) -> Result<(), Failed> {
        let checked = self.checked(kept);
        self.fault.told(checked)
    }

    fn read_round(&mut self) -> Result<Option<RoundFile>, Failed> {
        let last = self.last_round();
        self.fault.told(last)
    }

    fn read_log(&mut self, log: LogFile, last: Option<&RoundFile>) -> Result<Vec<Vec<u8>>, Failed> {
        let texts = self.texts_of(log, last);
        self.fault.told(texts)
    }

    fn recover(&mut self, log: LogFile, last: Option<&RoundFile>) -> Result<Vec<Vec<u8>>, Failed> {
        let texts = self.recovered(log, last);
        self.fault.told(texts)
    }

    fn read_jobs(&mut self, last: Option<&RoundFile>) -> Result<Jobs, Failed> {
        let jobs = known(&mut self.system, &self.setting, last);
        self.fault.told(jobs)
    }

    fn read_clock(&mut self) -> u64 {
        self.system.now()
    }

    fn put_doubt(&mut self, attempt: AttemptId, time: u64) -> Result<(), Failed> {
        let log = LogFile::Journal(attempt.worker);
        let journal = self.take_log(log)?;
        let entry = Entry::Answer {
            serial: attempt.serial,
            answer: Outcome::Doubt { time },
        };
        let given = journal.put(self.system.alloc(), entry);
        let kept = self.keep_log(log, given);
        self.fault.told(kept)
    }

    fn remove_command_file(&mut self, attempt: AttemptId) {
        let item = Item::Command(attempt.worker, attempt.serial);
        if let Ok(path) = path_of(self.system.alloc(), &self.setting, item) {
            let _ = self.system.remove(path.as_str());
        }
    }

    fn put_answer(&mut self, answer: Finding) -> Result<(), Failed> {
        let journal = self.take_log(LogFile::Answers)?;
        let given = journal.put_finding(self.system.alloc(), answer);
        let kept = self.keep_log(LogFile::Answers, given);
        self.fault.told(kept)
    }

    fn print(&mut self, text: &[u8]) -> Result<(), Failed> {
        let printed = print(&mut self.system, text);
        self.fault.told(printed)
    }

    fn pause(&self) {
        self.system.pause(PAUSE);
    }
}
