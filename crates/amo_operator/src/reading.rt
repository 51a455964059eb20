//! How a command reads the logs of a run: first all of them as they are, so that nothing is written
//! if one is damaged, and then each journal under its lock.
ghost use Rattle.std.specs.Prelude.{◌≡◌, ◌≤◌, ◌+◌, ◌∷◌, [], Some, None, map, IfErr, IfOk, OnOk};
ghost use Rattle.amo_operator.specs.Halting.{Because, Halts};
ghost use Rattle.amo_operator.specs.Knowing.{all_workers, and_journal, pends, with_journal, workers_since};
ghost use Rattle.amo_operator.specs.Phase.{Checked, Reads, Checks, Looks, Behind, Pends};
ghost use Rattle.amo_operator.specs.Protocol.{has_read, only_looks, reads_to, Lives};
ghost use Rattle.amo_operator.specs.Views.{texts_of};

use crate::entering::only_looks;
use crate::halt::Halt;
use crate::host::OperatorHost;
use crate::model::{Command, OperatorLock};
use crate::probing::{records_doubts, seen_in};
use amo_host::LogFile;
use amo_params::MAX_WORKERS;
use amo_run_files::RoundFile;
use amo_run_log::{Fault, pending, read_attempts};
use std::alloc::{AllocError, Global};

/// The logs of a run, as a command has read them.
#[derive(Drop)]
pub(crate) struct Survey {
    /// The file of the last round.
    pub(crate) last: Option<RoundFile>,
    pub(crate) answers: Vec<Vec<u8>>,
    /// The journals of the workers 1, 2 and so on.
    pub(crate) journals: Vec<Vec<Vec<u8>>>,
    /// The workers whose journals other processes have locked.
    pub(crate) alive: Vec<u64>,
    /// The workers whose journals have a pending attempt, and of which the locks of journal and
    /// runner are held.
    pub(crate) idle: Vec<u64>,
}

impl Survey {
    /// Adds the texts of the next journal.
    fn add(&mut self, texts: Vec<Vec<u8>>) -> Result<(), AllocError>
        ensures texts { OnOk result (texts_of self.new ≡ and_journal (texts_of self.old) (map (λ text. text.items) texts.items)) }
        ensures last { self.new.last ≡ self.old.last }
    {
        self.journals.push(texts)?;
        Ok(())
    }

    /// Puts these texts in the place of those of the worker's journal.
    fn replace(&mut self, worker: u64, texts: Vec<Vec<u8>>)
        requires some { 1 ≤ worker }
        ensures texts { texts_of self.new ≡ with_journal (texts_of self.old) worker (map (λ text. text.items) texts.items) }
        ensures last { self.new.last ≡ self.old.last }
    {
        if let Some(journal) = self.journals.get_mut((worker - 1) as usize) {
            *journal = texts;
        }
    }
}

/// Reads the logs of the run. Those of idle workers, and of who appends answers, are recovered.
///
/// # Errors
/// `Host` if a call failed, `Memory`, `Entry` if the appends of a log can't follow each other or
/// are of a line that the run doesn't know, and `Misplaced`.
pub(crate) fn read_logs<H: OperatorHost>(
    host: &mut H,
    alloc: Global,
    command: &Command,
) -> Result<Survey, Halt>
    requires checked { H.stands host.old (Checked command.now) }
    ensures looked { IfOk result (λ s. H.stands host.new (Looks command.now s.last (texts_of s) [])) }
    ensures halts { IfErr result (λ halt. Halts (H.stands host.new) command.now halt) }
    ensures lives { Lives (H.stands host.new) }
{
    let survey = read_all(host, alloc, command)?;
    check(host, alloc, command, &survey)?;
    let mut survey = settle(host, command, survey)?;
    for p in 0..MAX_WORKERS as u64 {
        look_at(host, alloc, command, p + 1, &mut survey)?;
    }
    Ok(survey)
}

/// Reads answers and journals, in this order, so that none of the answers is to an attempt that
/// isn't read.
///
/// # Errors
/// `Host` if a call failed, and `Memory`.
fn read_all<H: OperatorHost>(host: &mut H, alloc: Global, command: &Command) -> Result<Survey, Halt>
    requires checked { H.stands host.old (Checked command.now) }
    ensures read { IfOk result (λ s. H.stands host.new (Checks command.now s.last (texts_of s))) }
    ensures halts { IfErr result (λ halt. Halts (H.stands host.new) command.now halt) }
    ensures lives { Lives (H.stands host.new) }
{
    let Ok(last) = host.read_round() else {
        return Err(Halt::Host);
    };
    let Ok(answers) = host.read_log(LogFile::Answers, last.as_ref()) else {
        return Err(Halt::Host);
    };
    let mut survey = Survey {
        last,
        answers,
        journals: Vec::new(alloc),
        alive: Vec::new(alloc),
        idle: Vec::new(alloc),
    };
    for p in 0..MAX_WORKERS as u64 {
        read_journal(host, command, p + 1, &mut survey)?;
    }
    Ok(survey)
}

/// Checks that no log is damaged, before anything is written: by the lines that the run knows, all
/// that they say can be.
///
/// # Errors
/// `Host` if the call failed, `Memory`, `Entry` if what a log says can't be, and `Misplaced`.
fn check<H: OperatorHost>(
    host: &mut H,
    alloc: Global,
    command: &Command,
    survey: &Survey,
) -> Result<(), Halt>
    requires read { H.stands host.old (Checks command.now survey.now.last (texts_of survey.now)) }
    ensures sound { OnOk result (H.stands host.new (has_read command.now survey.now.last (texts_of survey.now) (only_looks command.now))) }
    ensures halts { IfErr result (λ halt. Halts (H.stands host.new) command.now halt) }
    ensures lives { Lives (H.stands host.new) }
{
    let Ok(jobs) = host.read_jobs(survey.last.as_ref()) else {
        return Err(Halt::Host);
    };
    let _seen = seen_in(alloc, jobs, survey, records_doubts(command))?;
    Ok(())
}

/// Reads the journal of this worker, the next one.
///
/// # Errors
/// `Host` if the call failed, and `Memory`.
fn read_journal<H: OperatorHost>(
    host: &mut H,
    command: &Command,
    worker: u64,
    survey: &mut Survey,
) -> Result<(), Halt>
    requires left { H.stands host.old (Reads command.now survey.old.last (texts_of survey.old) (worker ∷ workers_since (worker + 1))) }
    ensures read { OnOk result (H.stands host.new (reads_to command.now survey.new.last (texts_of survey.new) (workers_since (worker + 1)))) }
    ensures halts { IfErr result (λ halt. Halts (H.stands host.new) command.now halt) }
    ensures lives { Lives (H.stands host.new) }
{
    let Ok(texts) = host.read_log(LogFile::Journal(worker), survey.last.as_ref()) else {
        return Err(Halt::Host);
    };
    survey.add(texts)?;
    Ok(())
}

/// Recovers the answers, unless the command only looks.
///
/// # Errors
/// `Host` if the call failed.
fn settle<H: OperatorHost>(host: &mut H, command: &Command, survey: Survey) -> Result<Survey, Halt>
    requires read { H.stands host.old (has_read command.now survey.last (texts_of survey) (only_looks command.now)) }
    ensures looks { IfOk result (λ s. H.stands host.new (Looks command.now s.last (texts_of s) all_workers)) }
    ensures halts { IfErr result (λ halt. Halts (H.stands host.new) command.now halt) }
    ensures lives { Lives (H.stands host.new) }
{
    let mut survey = survey;
    if only_looks(command) {
        return Ok(survey);
    }
    let Ok(answers) = host.recover(LogFile::Answers, survey.last.as_ref()) else {
        return Err(Halt::Host);
    };
    survey.answers = answers;
    Ok(survey)
}

/// Reads the journal of this worker, the next one, under its lock, so that nobody is that worker.
/// If another process has the lock, the worker is alive.
///
/// # Errors
/// `Host` if a call failed, `Memory`, and `Entry` if the journal's appends can't follow each other.
fn look_at<H: OperatorHost>(
    host: &mut H,
    alloc: Global,
    command: &Command,
    worker: u64,
    survey: &mut Survey,
) -> Result<(), Halt>
    requires some { 1 ≤ worker }
    requires left { H.stands host.old (Looks command.now survey.old.last (texts_of survey.old) (worker ∷ workers_since (worker + 1))) }
    ensures looked { OnOk result (H.stands host.new (Looks command.now survey.new.last (texts_of survey.new) (workers_since (worker + 1)))) }
    ensures halts { IfErr result (λ halt. Halts (H.stands host.new) command.now halt) }
    ensures lives { Lives (H.stands host.new) }
{
    let Ok(is_got) = host.try_lock(OperatorLock::Journal(worker)) else {
        return Err(Halt::Host);
    };
    if is_got {
        look_behind(host, alloc, command, worker, survey)
    } else {
        survey.alive.push(worker)?;
        Ok(())
    }
}

/// Reads the journal under its lock, which this process has. If an attempt is pending and nobody
/// runs the worker, the locks of journal and runner are kept. The journal is recovered then, so
/// that all that was read of it is on the disk.
///
/// # Errors
/// `Host` if a call failed, `Memory`, and `Entry` if the journal's appends can't follow each other.
fn look_behind<H: OperatorHost>(
    host: &mut H,
    alloc: Global,
    command: &Command,
    worker: u64,
    survey: &mut Survey,
) -> Result<(), Halt>
    requires some { 1 ≤ worker }
    requires behind { H.stands host.old (Behind command.now survey.old.last (texts_of survey.old) worker (workers_since (worker + 1))) }
    ensures looked { OnOk result (H.stands host.new (Looks command.now survey.new.last (texts_of survey.new) (workers_since (worker + 1)))) }
    ensures halts { IfErr result (λ halt. Halts (H.stands host.new) command.now halt) }
    ensures lives { Lives (H.stands host.new) }
{
    let Ok(texts) = host.read_log(LogFile::Journal(worker), survey.last.as_ref()) else {
        return Err(Halt::Host);
    };
    let is_pending = pends(alloc, worker, &texts)?;
    survey.replace(worker, texts);
    if is_pending {
        hold(host, command, worker, survey)
    } else {
        host.unlock(worker);
        Ok(())
    }
}

/// Takes the lock of the worker's runner, and recovers the journal. If another process has that
/// lock, it is the runner: its command may still run, and the journal is unlocked.
///
/// # Errors
/// `Host` if a call failed, and `Memory`.
fn hold<H: OperatorHost>(
    host: &mut H,
    command: &Command,
    worker: u64,
    survey: &mut Survey,
) -> Result<(), Halt>
    requires some { 1 ≤ worker }
    requires pends { H.stands host.old (Pends command.now survey.old.last (texts_of survey.old) worker (workers_since (worker + 1))) }
    ensures looked { OnOk result (H.stands host.new (Looks command.now survey.new.last (texts_of survey.new) (workers_since (worker + 1)))) }
    ensures halts { IfErr result (λ halt. Halts (H.stands host.new) command.now halt) }
    ensures lives { Lives (H.stands host.new) }
{
    let Ok(is_got) = host.try_lock(OperatorLock::Runner(worker)) else {
        return Err(Halt::Host);
    };
    if !is_got {
        host.unlock(worker);
        return Ok(());
    }
    let Ok(texts) = host.recover(LogFile::Journal(worker), survey.last.as_ref()) else {
        return Err(Halt::Host);
    };
    survey.replace(worker, texts);
    survey.idle.push(worker)?;
    Ok(())
}

/// Returns true if an attempt of the journal has no outcome.
///
/// # Errors
/// `Entry` if the appends can't follow each other, and `Memory`.
fn pends(alloc: Global, worker: u64, texts: &[Vec<u8>]) -> Result<bool, Halt>
    ensures pending { IfOk result (λ is_pending. pends (map (λ text. text.items) texts.now) ≡ Some is_pending) }
    ensures refused { IfErr result (λ halt. Because halt (pends (map (λ text. text.items) texts.now) ≡ None)) }
{
    match read_attempts(alloc, u64::MAX, texts) {
        Ok(attempts) => Ok(!pending(alloc, &attempts)?.is_empty()),
        Err(Fault::Memory) => Err(Halt::Memory),
        Err(Fault::Refused(number)) => Err(Halt::Entry(LogFile::Journal(worker), number)),
    }
}
