//! How a command finds out which pending attempts are final, once it has read all logs.
ghost use Rattle.std.specs.Prelude.{◌≡◌, ◌<◌, ◌+◌, ◌-◌, ◌++◌, [], Some, None, true, false, drop, length, map, slice_get, slice_index_or, IfErr, IfOk, IfNone, IfSome, OnOk};
ghost use Rattle.amo_run_log.specs.Findings.{findings_in};
ghost use Rattle.amo_operator.specs.Halting.{Because, Halts};
ghost use Rattle.amo_operator.specs.Knowing.{are_in_place, are_readable, doubted, doubted_of, journals_in, known_in, pending_in, pending_of};
ghost use Rattle.amo_operator.specs.Phase.{Looks, Probes, Finds};
ghost use Rattle.amo_operator.specs.Protocol.{records_doubts, Lives};
ghost use Rattle.amo_operator.specs.Views.{known_of, texts_of};

use crate::halt::Halt;
use crate::host::OperatorHost;
use crate::model::{Command, OperatorLock};
use crate::reading::Survey;
use amo_host::LogFile;
use amo_run_files::Jobs;
use amo_run_log::{
    Attempt, Fault, Finding, Outcome, first_misplaced, pending, read_attempts, read_findings,
};
use amo_status::{AttemptId, RunLog};
use std::alloc::{AllocError, Global};

/// A run as a command knows it.
#[derive(Drop)]
pub(crate) struct Seen {
    pub(crate) jobs: Jobs,
    /// The findings of operators.
    pub(crate) findings: Vec<Finding>,
    /// The attempts of the workers 1, 2 and so on.
    pub(crate) journals: Vec<Vec<Attempt>>,
    /// The workers whose journals other processes have locked.
    pub(crate) alive: Vec<u64>,
    /// The attempts that nobody can report any more.
    pub(crate) finals: Vec<AttemptId>,
    /// True if attempts that are found final are recorded as in doubt.
    pub(crate) records: bool,
}

impl Seen {
    /// Returns the attempts and findings of the run, and which attempts are final.
    pub(crate) fn log(&self) -> RunLog<'_>
        ensures findings { result.findings.now ≡ self.now.findings.items }
        ensures journals { result.journals.now ≡ self.now.journals.items }
        ensures finals { result.finals.now ≡ self.now.finals.items }
    {
        RunLog {
            findings: self.findings.as_slice(),
            journals: self.journals.as_slice(),
            finals: self.finals.as_slice(),
        }
    }
}

/// Reads the lines that the run knows, and looks at each pending attempt of an idle worker. If
/// nothing of its command is left, the attempt is final.
///
/// # Errors
/// `Host` if a call failed, `Memory`, `Entry` if what a log says can't be, and `Misplaced`.
pub(crate) fn probe_all<H: OperatorHost>(
    host: &mut H,
    alloc: Global,
    command: &Command,
    survey: Survey,
) -> Result<Seen, Halt>
    requires looked { H.stands host.old (Looks command.now survey.last (texts_of survey) []) }
    ensures probed { IfOk result (λ seen. H.stands host.new (Probes command.now (known_of seen) [])) }
    ensures halts { IfErr result (λ halt. Halts (H.stands host.new) command.now halt) }
    ensures lives { Lives (H.stands host.new) }
{
    let (seen, left) = know(host, alloc, command, &survey)?;
    let mut seen = seen;
    for k in 0..left.len() {
        probe(host, command, &left, k, &mut seen)?;
    }
    Ok(seen)
}

/// Reads the lines that the run knows. Returns the run, and the pending attempts of idle workers.
///
/// # Errors
/// `Host` if the call failed, `Memory`, `Entry` if what a log says can't be, and `Misplaced`.
fn know<H: OperatorHost>(
    host: &mut H,
    alloc: Global,
    command: &Command,
    survey: &Survey,
) -> Result<(Seen, Vec<AttemptId>), Halt>
    requires looked { H.stands host.old (Looks command.now survey.now.last (texts_of survey.now) []) }
    ensures known { IfOk result (λ r. H.stands host.new (Probes command.now (known_of r.0) r.1.items)) }
    ensures halts { IfErr result (λ halt. Halts (H.stands host.new) command.now halt) }
    ensures lives { Lives (H.stands host.new) }
{
    let Ok(jobs) = host.read_jobs(survey.last.as_ref()) else {
        return Err(Halt::Host);
    };
    let seen = seen_in(alloc, jobs, survey, records_doubts(command))?;
    let left = pending_of(alloc, &survey.idle, &seen.journals)?;
    Ok((seen, left))
}

/// Returns true if a command records the attempts that it finds final as in doubt.
pub(crate) fn records_doubts(command: &Command) -> bool
    ensures { result ≡ records_doubts command.now }
{
    match command {
        Command::Doubts(_) | Command::Answer(..) => true,
        Command::Status(_) | Command::Again => false,
    }
}

/// Returns the run of these lines, by the texts that were read.
///
/// # Errors
/// `Entry` if what a log says can't be, `Misplaced` and `Memory`.
pub(crate) fn seen_in(
    alloc: Global,
    jobs: Jobs,
    survey: &Survey,
    records: bool,
) -> Result<Seen, Halt>
    ensures known { IfOk result (λ seen. known_in (length jobs) jobs (texts_of survey.now) records ≡ Some (known_of seen)) }
    ensures refused { IfErr result (λ halt. Because halt (known_in (length jobs) jobs (texts_of survey.now) records ≡ None)) }
{
    let journals = match journals_in(alloc, jobs.count(), &survey.journals) {
        Ok(journals) => journals,
        Err(halt) => return Err(halt),
    };
    let findings = match findings_in(alloc, &survey.answers) {
        Ok(findings) => findings,
        Err(halt) => return Err(halt),
    };
    if let Some(number) = misplaced(&journals, &findings) {
        return Err(Halt::Misplaced(number));
    }
    Ok(Seen {
        jobs,
        findings,
        journals,
        alive: survey.alive.clone()?,
        finals: Vec::new(alloc),
        records,
    })
}

/// Returns the findings that these texts say.
///
/// # Errors
/// `Entry` if one says none, and `Memory`.
fn findings_in(alloc: Global, answers: &[Vec<u8>]) -> Result<Vec<Finding>, Halt>
    ensures exact { IfOk result (λ findings. findings_in (map (λ text. text.items) answers.now) ≡ Some findings.items) }
    ensures refused { IfErr result (λ halt. Because halt (findings_in (map (λ text. text.items) answers.now) ≡ None)) }
{
    match read_findings(alloc, answers) {
        Ok(findings) => Ok(findings),
        Err(Fault::Memory) => Err(Halt::Memory),
        Err(Fault::Refused(number)) => Err(Halt::Entry(LogFile::Answers, number)),
    }
}

/// Returns the number of the first finding that is out of place, if there is one.
#[tactic(auto, using(crate::proofs::Placing::placed))]
fn misplaced(journals: &[Vec<Attempt>], findings: &[Finding]) -> Option<usize>
    ensures none { IfNone result (are_in_place (map (λ journal. journal.items) journals.now) [] findings.now ≡ true) }
    ensures found { IfSome result (λ number. are_in_place (map (λ journal. journal.items) journals.now) [] findings.now ≡ false) }
{
    first_misplaced(journals, findings)
}

/// Returns the attempts of each of these journals, in a run of so many lines.
///
/// # Errors
/// `Entry` if the appends of one can't follow each other, and `Memory`.
fn journals_in(
    alloc: Global,
    count: u64,
    journals: &[Vec<Vec<u8>>],
) -> Result<Vec<Vec<Attempt>>, Halt>
    ensures readable { OnOk result (are_readable count (map (λ journal. map (λ text. text.items) journal.items) journals.now) ≡ true) }
    ensures refused { IfErr result (λ halt. Because halt (are_readable count (map (λ journal. map (λ text. text.items) journal.items) journals.now) ≡ false)) }
    ensures exact { IfOk result (λ read. map (λ journal. journal.items) read.items ≡ journals_in count (map (λ journal. map (λ text. text.items) journal.items) journals.now)) }
{
    let mut read = Vec::new(alloc);
    for (i, texts) in journals.iter().enumerate() {
        match read_attempts(alloc, count, texts) {
            Ok(attempts) => read.push(attempts)?,
            Err(Fault::Memory) => return Err(Halt::Memory),
            Err(Fault::Refused(number)) => {
                return Err(Halt::Entry(LogFile::Journal(i as u64 + 1), number));
            }
        }
    }
    Ok(read)
}

/// Returns the pending attempts of these workers, by all journals.
fn pending_of(
    alloc: Global,
    workers: &[u64],
    journals: &[Vec<Attempt>],
) -> Result<Vec<AttemptId>, AllocError>
    ensures { IfOk result (λ left. left.items ≡ pending_of workers.now (map (λ journal. journal.items) journals.now)) }
{
    let mut left = Vec::new(alloc);
    for worker in workers {
        push_pending(alloc, &mut left, *worker, attempts_of(journals, *worker))?;
    }
    Ok(left)
}

/// Returns the attempts of this worker. One that has no journal has none.
fn attempts_of(journals: &[Vec<Attempt>], worker: u64) -> &[Attempt]
    ensures { result.now ≡ slice_index_or (map (λ journal. journal.items) journals.now) (worker - 1) [] }
{
    match journals.get(worker.saturating_sub(1) as usize) {
        Some(attempts) => attempts.as_slice(),
        None => &[],
    }
}

/// Adds the pending attempts of this worker, whose attempts these are.
fn push_pending(
    alloc: Global,
    left: &mut Vec<AttemptId>,
    worker: u64,
    attempts: &[Attempt],
) -> Result<(), AllocError>
    ensures { OnOk result (left.new.items ≡ left.old.items ++ pending_in worker attempts.now) }
{
    for (serial, _line) in pending(alloc, attempts)? {
        left.push(AttemptId { worker, serial })?;
    }
    Ok(())
}

/// Looks at the attempt at place k: if the lock of its command is got, nothing of the command is
/// left. It is recorded as in doubt, if that is asked for.
///
/// # Errors
/// `Host` if a call failed but an append, and `Memory`.
fn probe<H: OperatorHost>(
    host: &mut H,
    command: &Command,
    left: &[AttemptId],
    k: usize,
    seen: &mut Seen,
) -> Result<(), Halt>
    requires within { k < length left.now }
    requires left { H.stands host.old (Probes command.now (known_of seen.old) (drop k left.now)) }
    ensures probed { OnOk result (H.stands host.new (Probes command.now (known_of seen.new) (drop (k + 1) left.now))) }
    ensures halts { IfErr result (λ halt. Halts (H.stands host.new) command.now halt) }
    ensures lives { Lives (H.stands host.new) }
{
    let attempt = left[k];
    let lock = OperatorLock::Command(attempt.worker, attempt.serial);
    let Ok(is_got) = host.try_lock(lock) else {
        return Err(Halt::Host);
    };
    if !is_got {
        return Ok(());
    }
    seen.finals.push(attempt)?;
    if seen.records {
        record(host, command, left, k, attempt, seen);
    }
    Ok(())
}

/// Records the attempt, the one at place k, as in doubt, with the time, and removes the file that
/// its command had locked: no runner asks for it any more. If the disk doesn't take that, it is
/// shown all the same, and nothing more is recorded.
fn record<H: OperatorHost>(
    host: &mut H,
    command: &Command,
    left: &[AttemptId],
    k: usize,
    attempt: AttemptId,
    seen: &mut Seen,
)
    requires found { H.stands host.old (Finds command.now (known_of seen.old) attempt (drop (k + 1) left.now)) }
    ensures { H.stands host.new (Probes command.now (known_of seen.new) (drop (k + 1) left.now)) }
{
    let time = host.read_clock();
    match host.put_doubt(attempt, time) {
        Ok(()) => {
            host.remove_command_file(attempt);
            note_doubt(&mut seen.journals, attempt, time);
        }
        Err(_) => seen.records = false,
    }
}

/// Notes in the journals that this attempt is in doubt.
fn note_doubt(journals: &mut Vec<Vec<Attempt>>, attempt: AttemptId, time: u64)
    ensures { map (λ journal. journal.items) journals.new.items ≡ doubted_of (map (λ journal. journal.items) journals.old.items) attempt time (slice_get (map (λ journal. journal.items) journals.old.items) (attempt.worker - 1)) }
{
    if let Some(attempts) = journals.get_mut(attempt.worker.saturating_sub(1) as usize) {
        note_doubt_in(attempts, attempt.serial, time);
    }
}

/// Notes in a journal that the attempt of this serial number is in doubt.
fn note_doubt_in(attempts: &mut Vec<Attempt>, serial: u64, time: u64)
    ensures { attempts.new.items ≡ doubted attempts.old.items serial time (slice_get attempts.old.items (serial - 1)) }
{
    if let Some(attempt) = attempts.get_mut(serial.saturating_sub(1) as usize) {
        attempt.answer = Some(Outcome::Doubt { time });
    }
}
