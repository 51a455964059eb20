//! A host whose calls are noted in a log, if the environment names one.
ghost use Rattle.std.specs.Prelude.{◌≡◌};

use amo_call_log::{Call, CallLog, Came, End, ended, heard, recovered};
use amo_host::{Failed, Hold, Host, LogFile, LogPart, Registers, RunLock};
use amo_run_files::{HashedJobs, RoundFile};
use amo_run_host::RunHost;
use amo_run_log::{AttemptId, Entry};
use std::fs::File;

/// The files of a run and the runner, and the log of the calls on them. The log has those calls
/// that write the journal, look for clearance, and speak with the runner.
#[derive(Drop)]
pub(crate) struct LoggedHost<'a> {
    pub inner: RunHost<'a>,
    log: Option<CallLog<File>>,
}

impl<'a> LoggedHost<'a> {
    /// Returns this host, with this log.
    pub(crate) fn new(inner: RunHost<'a>, log: Option<CallLog<File>>) -> LoggedHost<'a> {
        LoggedHost { inner, log }
    }

    /// Returns why the log has failed, if it has.
    pub(crate) fn take_failure(&mut self) -> Option<End> {
        match &mut self.log {
            Some(log) => log.take_failure(),
            None => None,
        }
    }

    /// Notes a call before it is made. Fails if the log has failed, so that the process ends.
    fn before(&mut self, call: Call<'_>) -> Result<(), Failed> {
        match &mut self.log {
            Some(log) => log.before(call),
            None => Ok(()),
        }
    }

    /// Notes what came of a call. Fails if the log has failed, so that the process ends.
    fn after(&mut self, call: Call<'_>, came: Came<'_>) -> Result<(), Failed> {
        match &mut self.log {
            Some(log) => log.after(call, came),
            None => Ok(()),
        }
    }
}

impl<'a> Host for LoggedHost<'a> {
    ghost stands = { λ _ _. Unit {0} };

    fn try_lock(&mut self, lock: RunLock, hold: Hold) -> Result<bool, Failed> {
        self.inner.try_lock(lock, hold)
    }

    fn unlock(&mut self, lock: RunLock) {
        self.inner.unlock(lock);
    }

    fn check_folder(&mut self) -> Result<(), Failed> {
        self.inner.check_folder()
    }

    fn sync_folder(&mut self) -> Result<(), Failed> {
        self.inner.sync_folder()
    }

    fn read_boot(&mut self) -> Result<Vec<u8>, Failed> {
        self.inner.read_boot()
    }

    fn read_round(&mut self) -> Result<Option<RoundFile>, Failed> {
        self.inner.read_round()
    }

    fn recover(&mut self, last: Option<&RoundFile>) -> Result<Vec<Vec<u8>>, Failed> {
        let log = self.inner.own_log();
        let call = Call::Recover(log);
        self.before(call)?;
        let appends = self.inner.recover(last);
        self.after(call, recovered(log, &appends))?;
        appends
    }

    fn read_jobs(&mut self, last: Option<&RoundFile>, jobs: &mut HashedJobs) -> Result<(), Failed> {
        self.inner.read_jobs(last, jobs)
    }

    fn open_registers(&mut self, front: usize) -> Result<Option<Registers>, Failed> {
        self.inner.open_registers(front)
    }

    fn read_log(&mut self, log: LogFile, last: Option<&RoundFile>) -> Result<LogPart, Failed> {
        self.inner.read_log(log, last)
    }

    fn read_list(&mut self) -> Result<Vec<u8>, Failed> {
        self.inner.read_list()
    }

    fn make_jobs(&mut self, bytes: &[u8]) -> Result<(), Failed> {
        self.inner.make_jobs(bytes)
    }

    fn make_round(&mut self, file: &RoundFile) -> Result<(), Failed> {
        self.inner.make_round(file)
    }

    fn make_registers(&mut self, bytes: &[u8]) -> Result<(), Failed> {
        self.inner.make_registers(bytes)
    }

    fn load(&mut self, register: u64) -> Result<u64, Failed> {
        self.inner.load(register)
    }

    fn store(&mut self, register: u64, value: u64) -> Result<(), Failed> {
        self.inner.store(register, value)
    }

    fn pass_over(&mut self, job: u32) -> Result<(), Failed> {
        self.inner.pass_over(job)
    }

    fn put(&mut self, entry: Entry) -> Result<(), Failed> {
        let call = Call::Put(entry);
        self.before(call)?;
        let done = self.inner.put(entry);
        self.after(call, ended(&done))?;
        done
    }

    fn owe(&mut self, entry: Entry) -> Result<(), Failed> {
        let call = Call::Owe(entry);
        self.before(call)?;
        let done = self.inner.owe(entry);
        self.after(call, ended(&done))?;
        done
    }

    fn pay(&mut self) -> Result<(), Failed> {
        let call = Call::Pay;
        self.before(call)?;
        let done = self.inner.pay();
        self.after(call, ended(&done))?;
        done
    }

    fn read_on(&mut self, log: LogFile) -> Result<Vec<Vec<u8>>, Failed> {
        let call = Call::ReadOn(log);
        self.before(call)?;
        let texts = self.inner.read_on(log);
        self.after(call, ended(&texts))?;
        texts
    }

    fn say(&mut self, line: &[u8]) -> Result<Option<Vec<u8>>, Failed> {
        let call = Call::Say(line);
        self.before(call)?;
        let reply = self.inner.say(line);
        self.after(call, heard(&reply))?;
        reply
    }

    fn pause(&self) {
        self.inner.pause();
    }

    fn now(&self) -> u64 {
        self.inner.now()
    }

    fn tell_taken(&self, line: u64, other: AttemptId) {
        self.inner.tell_taken(line, other);
    }
}
