//! The command `work`: the life of a worker's process over the files of its run.
ghost use Rattle.std.specs.Prelude.{◌≡◌};

use crate::holder::holder;
use crate::logged_host::LoggedHost;
use amo_call_log::{End, begin};
use amo_driver::Stop;
use amo_host::RunLock;
use amo_host_parts::item_of_log;
use amo_run_faults::{Fault, Item, Later, ListSettings, Setting};
use amo_run_files::{HashedJobs, Jobs, JobsFault, Why};
use amo_run_host::RunHost;
use amo_run_log::ReadLogs;
use amo_status::{Counts, RunLog, counts, standings};
use amo_worker_life::{Ending, Halt, Sharing, Worker, live};
use std::alloc::Global;
use std::rt::HostRuntime;

/// Lives as this worker, as [`live`] does, over the files of its run. Returns how all lines stand
/// once none is open. The caller has checked that a worker may begin in the folder.
///
/// # Errors
/// Each other end: `Later` if there is more to do, `Log` if the log of calls has failed.
pub fn work(
    rt: HostRuntime,
    setting: &Setting<'_>,
    jobs: &ListSettings<'_>,
    worker: u64,
) -> Result<Counts, End> {
    let sharing = Sharing {
        workers: jobs.workers,
        beta: jobs.beta,
    };
    let log = begin(rt, worker, setting.run)?;
    let host = LoggedHost::new(RunHost::new(rt, setting, jobs, worker), log);
    let process = Worker::new(host, rt.alloc(), worker, no_jobs(rt.alloc())?);
    let (process, ending) = live(process, sharing);
    let mut process = process;
    if let Some(end) = process.host.take_failure() {
        return Err(end);
    }
    Ok(counts_after(rt, setting, ending, &mut process)?)
}

/// Returns how all lines stand, if none is open by this ending.
///
/// # Errors
/// The fault that each other ending comes to.
fn counts_after(
    rt: HostRuntime,
    setting: &Setting<'_>,
    ending: Ending,
    process: &mut Worker<LoggedHost<'_>>,
) -> Result<Counts, Fault> {
    match ending {
        Ending::NothingOpen(len) => counts_of(process, len),
        Ending::Left => Err(Fault::Left),
        Ending::Closed => Err(Fault::Closed),
        Ending::Over => Err(Fault::Later(Later::Over)),
        Ending::InvalidReply => Err(invalid(process)),
        Ending::Stopped(stop) => Err(fault_of(rt, setting, stop, process)),
        Ending::TooManyRounds => Err(Fault::NoWay),
    }
}

/// Returns no lines: a process knows none before it has read them.
fn no_jobs(alloc: Global) -> Result<HashedJobs, Fault> {
    match Jobs::read(alloc, Vec::new(alloc), false) {
        Ok(jobs) => Ok(HashedJobs::new(jobs)),
        Err(JobsFault::Memory) => Err(Fault::Memory),
        Err(JobsFault::Refused(..)) => Err(Fault::NoWay),
    }
}

/// Returns how many lines stand where, once none is open. The list has so many bytes. Nobody has an
/// attempt that is pending here, but its command may run.
///
/// # Errors
/// `List` if the list has a last line without its end: nobody waits for it.
fn counts_of(process: &Worker<LoggedHost<'_>>, len: usize) -> Result<Counts, Fault> {
    let jobs = process.jobs.jobs();
    if len > jobs.bytes().len() {
        let line = (jobs.count() as usize).saturating_add(1);
        return Err(Fault::List(line, Why::NoEnd));
    }
    match &process.logs {
        Some(logs) => counts_in(process.alloc, logs, jobs.count()),
        None => Err(Fault::NoWay),
    }
}

/// Returns how many of so many lines stand where, by what was read.
fn counts_in(alloc: Global, logs: &ReadLogs, count: u64) -> Result<Counts, Fault> {
    let log = RunLog {
        findings: logs.findings(),
        journals: logs.journals(),
        finals: &[],
    };
    let all = standings(alloc, &log, count as usize)?;
    Ok(counts(&all))
}

/// Returns the fault that the runner's last line is no reply.
fn invalid(process: &Worker<LoggedHost<'_>>) -> Fault {
    match process.host.inner.reply_text() {
        Ok(text) => Fault::NoAnswer(text),
        Err(_) => Fault::Memory,
    }
}

/// Returns the fault of a stop.
fn fault_of(
    rt: HostRuntime,
    setting: &Setting<'_>,
    stop: Stop,
    process: &mut Worker<LoggedHost<'_>>,
) -> Fault {
    match stop {
        Stop::Failed => fault_behind(rt, setting, process),
        Stop::NoMemory => Fault::Memory,
        Stop::NoSuchNumber(word, value) => Fault::NoSuchNumber(word, value),
        Stop::NoAnswer(_) | Stop::OtherAnswer(..) => invalid(process),
        Stop::NoSerial | Stop::TooLong => Fault::NoWay,
    }
}

/// Returns why a call of this process has failed.
fn fault_behind(
    rt: HostRuntime,
    setting: &Setting<'_>,
    process: &mut Worker<LoggedHost<'_>>,
) -> Fault {
    let Some(halt) = process.halt else {
        return Fault::NoWay;
    };
    match halt {
        Halt::Host => process.host.inner.take_fault().unwrap_or(Fault::NoWay),
        Halt::Memory => Fault::Memory,
        Halt::NoLine => Fault::NoWay,
        Halt::Unread(log) => Fault::Later(Later::Changed(item_of_log(log))),
        Halt::Held(RunLock::Guard(worker)) => {
            Fault::Later(holder(rt, setting, Item::Journal(worker)))
        }
        Halt::Held(RunLock::Round) => Fault::Later(Later::Beginning),
        Halt::Entry(number) => Fault::Entry(Item::Journal(process.number), number),
        Halt::Changed(line) => Fault::Changed(line),
        Halt::List(line, why) => Fault::List(line, why),
        Halt::Misplaced(number) => Fault::Entry(Item::Answers, number),
        Halt::OtherRound => Fault::Later(Later::OtherRound),
        Halt::BadRound => Fault::Refused(Item::Record),
    }
}
