//! An operator's files whose calls are noted in a log, if the environment names one.
ghost use Rattle.std.specs.Prelude.{◌≡◌};

use amo_call_log::{Call, CallLog, Came, End, ended, recovered};
use amo_host::{Failed, LogFile};
use amo_operator::{OperatorHost, OperatorLock};
use amo_operator_files::OperatorFiles;
use amo_run_files::{Jobs, RoundFile};
use amo_run_log::Finding;
use amo_status::AttemptId;
use std::fs::File;

/// The files of a run, and the log of the calls by which an operator's command writes them.
#[derive(Drop)]
pub(crate) struct LoggedFiles<'a> {
    pub inner: OperatorFiles<'a>,
    log: Option<CallLog<File>>,
}

impl<'a> LoggedFiles<'a> {
    /// Returns these files, with this log.
    pub(crate) fn new(inner: OperatorFiles<'a>, log: Option<CallLog<File>>) -> LoggedFiles<'a> {
        LoggedFiles { inner, log }
    }

    /// Returns why the log has failed, if it has.
    pub(crate) fn take_failure(&mut self) -> Option<End> {
        match &mut self.log {
            Some(log) => log.take_failure(),
            None => None,
        }
    }

    /// Notes a call before it is made. Fails if the log has failed, so that the process ends.
    fn before(&mut self, call: Call<'_>) -> Result<(), Failed> {
        match &mut self.log {
            Some(log) => log.before(call),
            None => Ok(()),
        }
    }

    /// Notes what came of a call. Fails if the log has failed, so that the process ends.
    fn after(&mut self, call: Call<'_>, came: Came<'_>) -> Result<(), Failed> {
        match &mut self.log {
            Some(log) => log.after(call, came),
            None => Ok(()),
        }
    }
}

impl<'a> OperatorHost for LoggedFiles<'a> {
    ghost stands = { λ _ _. Unit {0} };

    fn try_lock(&mut self, lock: OperatorLock) -> Result<bool, Failed> {
        self.inner.try_lock(lock)
    }

    fn unlock(&mut self, worker: u64) {
        self.inner.unlock(worker);
    }

    fn unlock_all(&mut self) {
        self.inner.unlock_all();
    }

    fn check_folder(&mut self, kept: bool) -> Result<(), Failed> {
        self.inner.check_folder(kept)
    }

    fn read_round(&mut self) -> Result<Option<RoundFile>, Failed> {
        self.inner.read_round()
    }

    fn read_log(&mut self, log: LogFile, last: Option<&RoundFile>) -> Result<Vec<Vec<u8>>, Failed> {
        self.inner.read_log(log, last)
    }

    fn recover(&mut self, log: LogFile, last: Option<&RoundFile>) -> Result<Vec<Vec<u8>>, Failed> {
        let call = Call::Recover(log);
        self.before(call)?;
        let appends = self.inner.recover(log, last);
        self.after(call, recovered(log, &appends))?;
        appends
    }

    fn read_jobs(&mut self, last: Option<&RoundFile>) -> Result<Jobs, Failed> {
        self.inner.read_jobs(last)
    }

    fn read_clock(&mut self) -> u64 {
        self.inner.read_clock()
    }

    fn put_doubt(&mut self, attempt: AttemptId, time: u64) -> Result<(), Failed> {
        let call = Call::PutDoubt(attempt.serial, time);
        self.before(call)?;
        let done = self.inner.put_doubt(attempt, time);
        self.after(call, ended(&done))?;
        done
    }

    fn remove_command_file(&mut self, attempt: AttemptId) {
        self.inner.remove_command_file(attempt);
    }

    fn put_answer(&mut self, answer: Finding) -> Result<(), Failed> {
        let call = Call::PutAnswer(answer);
        self.before(call)?;
        let done = self.inner.put_answer(answer);
        self.after(call, ended(&done))?;
        done
    }

    fn print(&mut self, text: &[u8]) -> Result<(), Failed> {
        self.inner.print(text)
    }

    fn pause(&self) {
        self.inner.pause();
    }
}
