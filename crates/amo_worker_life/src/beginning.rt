//! How a worker begins a round: under the lock of the round, which it has alone, it reads all that
//! there is, and makes the files of a round of the open lines.
ghost use Rattle.std.specs.Prelude.{◌≡◌, ◌≤◌, ◌∷◌, nat_lt, length, take, option_map, Ok, IfErr, IfOk, OnErr, OnOk};
ghost use Rattle.amo_params.specs.declared.limits.TheConstants.{MAX_JOBS, MAX_WORKERS, MAX_BETA};
ghost use Rattle.amo_run_files.specs.Lines.{lines_in, BeginsWith};
ghost use Rattle.amo_run_files.specs.Refusals.{IsTaken};
ghost use Rattle.amo_run_files.specs.Rounds.{givens_of};
ghost use Rattle.amo_run_log.specs.Findings.{AreInPlace};
ghost use Rattle.amo_run_log.specs.Open.{open_lines};
ghost use Rattle.amo_run_log.specs.Texts.{ended};
ghost use Rattle.amo_host.specs.Beginning.{open_by, round_after, AreCounted, AreNew, IsNext};
ghost use Rattle.amo_host.specs.Phase.{Begins, LockedAlone, HasLast, KnowsJobs, KnowsAll, RoundMade, RegistersMade};
ghost use Rattle.amo_host.specs.Protocol.{Lives};
ghost use Rattle.amo_host.specs.Reading.{has_all};
ghost use Rattle.amo_worker_life.specs.Begin.{locks_if, IsBegun, IsMade, IsWhyNoneOpen, IsWhyNotTaken, MayMake};
ghost use Rattle.amo_worker_life.specs.Halting.{Halts, IsWhyNoRegisters};
ghost use Rattle.amo_worker_life.specs.Reading.{logs_of};
ghost use Rattle.amo_worker_life.specs.Where.{idle_at, me_of};
ghost use Rattle.amo_worker_life.specs.declared.beginning.Begun.TheVariants.{Elsewhere};
ghost use Rattle.amo_worker_life.specs.declared.halt.Health.TheVariants.{Fine};

use crate::halt::Halt;
use crate::reading::logs_before;
use crate::worker::Worker;
use amo_driver::Failed;
use amo_host::{Hold, Host, RunLock};
use amo_params::{MAX_JOBS, MAX_WORKERS};
use amo_run_files::{
    Extent, HashedJobs, JobsFault, RoundFile, RoundHeader, first_difference, givens_of, head_of,
    words_len,
};
use amo_run_log::{ReadLogs, first_misplaced, open_lines};
use std::alloc::{AllocError, Global};

/// How many workers may share a round, and with which threshold.
#[derive(Clone, Copy)]
pub struct Sharing {
    /// How many workers there may be, 1 to 16.
    pub workers: u64,
    /// The threshold that is asked for, 1 to 65535.
    pub beta: u64,
    ghost in_range: { (1 ≤ workers) × (workers ≤ MAX_WORKERS) × (1 ≤ beta) × (beta ≤ MAX_BETA) },
}

/// The result of a try to begin a round.
#[derive(Clone, Copy, Debug, PartialEq, Eq)]
pub enum Begun {
    /// A round was begun.
    Round,
    /// None was, since another process is in a round or begins one.
    Elsewhere,
    /// None was, since no line is open. The list has so many bytes.
    NothingOpen(usize),
}

/// The boot and the last round, which a worker reads first to begin a round.
#[derive(Drop)]
struct Last {
    boot: Vec<u8>,
    /// The file of the last round, if one was begun.
    file: Option<RoundFile>,
}

/// The list and the logs, which a worker reads then to begin a round.
#[derive(Drop)]
struct AllRead {
    /// How many bytes the list has.
    len: usize,
    /// True if the list has more lines than the run knew.
    more: bool,
    logs: ReadLogs,
    /// How many appends of each log stay on the disk.
    counts: Vec<Extent>,
    /// The open lines.
    lines: Vec<u64>,
}

/// Begins a round of the open lines, if nobody is in a round.
///
/// The worker has the lock of the round, and no other process has. It reads the boot id, the header
/// of the last round, the known lines, the list, the answers and all 16 journals. The list must
/// begin with the known lines, and each answer must be of an attempt that was read. The new header
/// has the next number, this boot, and what was read of each file. Its jobs are the first 4096 open
/// lines. It is made after the file of the lines, and before the registers, which are all 0.
///
/// `NothingOpen` comes exactly if no line is open, by what was read.
///
/// # Errors
/// `Failed`, and the worker's `halt` says why.
pub fn begin<H: Host>(worker: &mut Worker<H>, sharing: Sharing) -> Result<Begun, Failed>
    requires idle { H.stands worker.old.host (idle_at (me_of worker.old.number worker.old.jobs) (option_map logs_of worker.old.logs)) }
    requires fine { worker.old.health ≡ Fine }
    ensures idle { IfOk result (λ begun. H.stands worker.new.host (idle_at (me_of worker.new.number worker.new.jobs) (option_map logs_of worker.new.logs))) }
    ensures begun { IfOk result (λ begun. IsBegun begun (me_of worker.new.number worker.new.jobs) (option_map logs_of worker.new.logs)) }
    ensures elsewhere { result ≡ Ok Elsewhere → worker.new.logs ≡ worker.old.logs }
    ensures halts { OnErr result (Halts (H.stands worker.new.host) (me_of worker.new.number worker.new.jobs) (option_map logs_of worker.new.logs) worker.new.halt) }
    ensures lives { Lives (H.stands worker.new.host) }
    ensures fine { IfOk result (λ begun. worker.new.health ≡ Fine) }
{
    if !worker.lock_round()? {
        return Ok(Begun::Elsewhere);
    }
    let last = worker.read_last()?;
    worker.read_known(&last)?;
    let read = worker.read_all(&last)?;
    worker.know_all(&last, &read)?;
    worker.make_next(sharing, &last, read)
}

impl<H: Host> Worker<H> {
    /// Tries once to lock the round alone, and returns whether it has the lock.
    ///
    /// # Errors
    /// `Failed` if the call failed.
    fn lock_round(&mut self) -> Result<bool, Failed>
        requires idle { H.stands self.old.host (idle_at (me_of self.old.number self.old.jobs) (option_map logs_of self.old.logs)) }
        ensures locks { IfOk result (λ got. H.stands self.new.host (locks_if got (me_of self.new.number self.new.jobs) (option_map logs_of self.new.logs))) }
        ensures logs { IfOk result (λ got. self.new.logs ≡ self.old.logs) }
        ensures halts { OnErr result (Halts (H.stands self.new.host) (me_of self.new.number self.new.jobs) (option_map logs_of self.new.logs) self.new.halt) }
        ensures lives { Lives (H.stands self.new.host) }
        ensures health { IfOk result (λ got. self.new.health ≡ self.old.health) }
    {
        match self.host.try_lock(RunLock::Round, Hold::Exclusive) {
            Ok(got) => Ok(got),
            Err(_) => Err(self.fails(Halt::Host)),
        }
    }

    /// Returns the boot id and the file of the last round.
    ///
    /// # Errors
    /// `Failed` if a call failed.
    fn read_last(&mut self) -> Result<Last, Failed>
        requires locked { H.stands self.old.host (Begins (me_of self.old.number self.old.jobs) (LockedAlone (option_map logs_of self.old.logs))) }
        ensures last { IfOk result (λ last. H.stands self.new.host (Begins (me_of self.new.number self.new.jobs) (HasLast (option_map logs_of self.new.logs) last.boot.items last.file))) }
        ensures halts { OnErr result (Halts (H.stands self.new.host) (me_of self.new.number self.new.jobs) (option_map logs_of self.new.logs) self.new.halt) }
        ensures lives { Lives (H.stands self.new.host) }
        ensures health { IfOk result (λ last. self.new.health ≡ self.old.health) }
    {
        let Ok(boot) = self.host.read_boot() else {
            return Err(self.fails(Halt::Host));
        };
        let Ok(file) = self.host.read_round() else {
            return Err(self.fails(Halt::Host));
        };
        Ok(Last { boot, file })
    }

    /// Reads the lines that the run knows, as the last round counts them.
    ///
    /// # Errors
    /// `Failed` if the call failed.
    fn read_known(&mut self, last: &Last) -> Result<(), Failed>
        requires last { H.stands self.old.host (Begins (me_of self.old.number self.old.jobs) (HasLast (option_map logs_of self.old.logs) last.now.boot.items last.now.file)) }
        ensures jobs { OnOk result (H.stands self.new.host (Begins (me_of self.new.number self.new.jobs) (KnowsJobs (option_map logs_of self.new.logs) last.now.boot.items last.now.file))) }
        ensures halts { OnErr result (Halts (H.stands self.new.host) (me_of self.new.number self.new.jobs) (option_map logs_of self.new.logs) self.new.halt) }
        ensures lives { Lives (H.stands self.new.host) }
        ensures health { OnOk result (self.new.health ≡ self.old.health) }
    {
        match self.host.read_jobs(last.file.as_ref(), &mut self.jobs) {
            Ok(()) => Ok(()),
            Err(_) => Err(self.fails(Halt::Host)),
        }
    }

    /// Reads the list, whose lines are the worker's from then on, and the answers and all journals.
    ///
    /// # Errors
    /// `Failed` if a call failed, if there was no memory, if the list has not just grown, or if a
    /// line of it is refused.
    fn read_all(&mut self, last: &Last) -> Result<AllRead, Failed>
        requires jobs { H.stands self.old.host (Begins (me_of self.old.number self.old.jobs) (KnowsJobs (option_map logs_of self.old.logs) last.now.boot.items last.now.file)) }
        ensures all { IfOk result (λ read. H.stands self.new.host (Begins (me_of self.new.number self.new.jobs) (has_all read.more last.now.boot.items last.now.file (logs_of read.logs) read.counts.items))) }
        ensures lines { IfOk result (λ read. read.lines.items ≡ open_by (me_of self.new.number self.new.jobs) (logs_of read.logs)) }
        ensures placed { IfOk result (λ read. AreInPlace (logs_of read.logs).journals (logs_of read.logs).findings) }
        ensures halts { OnErr result (Halts (H.stands self.new.host) (me_of self.new.number self.new.jobs) (option_map logs_of self.new.logs) self.new.halt) }
        ensures lives { Lives (H.stands self.new.host) }
        ensures health { IfOk result (λ read. self.new.health ≡ self.old.health) }
    {
        let Ok(list) = self.host.read_list() else {
            return Err(self.fails(Halt::Host));
        };
        let len = list.len();
        let more = match take_list(self.alloc, &mut self.jobs, list, last.file.is_some()) {
            Ok(more) => more,
            Err(halt) => return Err(self.fails(halt)),
        };
        let count = self.jobs.jobs().count();
        let Ok(mut logs) = logs_before(self.alloc, count, self.logs.take()) else {
            return Err(self.fails(Halt::Memory));
        };
        let counts = self.read_logs(last.file.as_ref(), &mut logs)?;
        match open_of(self.alloc, &logs, count) {
            Ok(lines) => Ok(AllRead {
                len,
                more,
                logs,
                counts,
                lines,
            }),
            Err(halt) => Err(self.fails(halt)),
        }
    }

    /// Has the run know all lines of the list.
    ///
    /// # Errors
    /// `Failed` if a call failed.
    fn know_all(&mut self, last: &Last, read: &AllRead) -> Result<(), Failed>
        requires all { H.stands self.old.host (Begins (me_of self.old.number self.old.jobs) (has_all read.now.more last.now.boot.items last.now.file (logs_of read.now.logs) read.now.counts.items)) }
        ensures knows { OnOk result (H.stands self.new.host (Begins (me_of self.new.number self.new.jobs) (KnowsAll last.now.boot.items last.now.file (logs_of read.now.logs) read.now.counts.items))) }
        ensures halts { OnErr result (Halts (H.stands self.new.host) (me_of self.new.number self.new.jobs) (option_map logs_of self.new.logs) self.new.halt) }
        ensures lives { Lives (H.stands self.new.host) }
        ensures health { OnOk result (self.new.health ≡ self.old.health) }
        ensures number { self.new.number ≡ self.old.number }
        ensures jobs { self.new.jobs ≡ self.old.jobs }
    {
        if !read.more {
            return Ok(());
        }
        match self.host.make_jobs(self.jobs.jobs().bytes()) {
            Ok(()) => Ok(()),
            Err(_) => Err(self.fails(Halt::Host)),
        }
    }

    /// Makes the files of the next round, if a line is open, and unlocks the round.
    ///
    /// # Errors
    /// `Failed` if a call failed, if there was no memory, or if the round has impossible numbers.
    fn make_next(&mut self, sharing: Sharing, last: &Last, read: AllRead) -> Result<Begun, Failed>
        requires knows { H.stands self.old.host (Begins (me_of self.old.number self.old.jobs) (KnowsAll last.now.boot.items last.now.file (logs_of read.logs) read.counts.items)) }
        requires lines { read.lines.items ≡ open_by (me_of self.old.number self.old.jobs) (logs_of read.logs) }
        requires placed { AreInPlace (logs_of read.logs).journals (logs_of read.logs).findings }
        ensures idle { IfOk result (λ begun. H.stands self.new.host (idle_at (me_of self.new.number self.new.jobs) (option_map logs_of self.new.logs))) }
        ensures begun { IfOk result (λ begun. IsMade begun (me_of self.new.number self.new.jobs) (option_map logs_of self.new.logs)) }
        ensures halts { OnErr result (Halts (H.stands self.new.host) (me_of self.new.number self.new.jobs) (option_map logs_of self.new.logs) self.new.halt) }
        ensures lives { Lives (H.stands self.new.host) }
        ensures health { IfOk result (λ begun. self.new.health ≡ self.old.health) }
    {
        let AllRead {
            len,
            logs,
            counts,
            lines,
            ..
        } = read;
        if lines.is_empty() {
            self.host.unlock(RunLock::Round);
            self.logs = Some(logs);
            return Ok(Begun::NothingOpen(len));
        }
        let (alloc, first) = (self.alloc, self.number);
        let Ok(file) = next_file(alloc, sharing, first, last, &lines, &mut self.jobs, counts) else {
            return Err(self.fails(Halt::Memory));
        };
        self.make_files(&file, &logs)?;
        self.host.unlock(RunLock::Round);
        self.logs = Some(logs);
        Ok(Begun::Round)
    }

    /// Makes the file of a round and its registers, in this order.
    ///
    /// # Errors
    /// `Failed` if a call failed, if there was no memory, or if the round has impossible numbers.
    fn make_files(&mut self, file: &RoundFile, logs: &ReadLogs) -> Result<(), Failed>
        requires next { MayMake (H.stands self.old.host) (me_of self.old.number self.old.jobs) (logs_of logs.now) file.now }
        ensures made { OnOk result (H.stands self.new.host (Begins (me_of self.new.number self.new.jobs) (RegistersMade (logs_of logs.now)))) }
        ensures halts { OnErr result (Halts (H.stands self.new.host) (me_of self.new.number self.new.jobs) (option_map logs_of self.new.logs) self.new.halt) }
        ensures lives { Lives (H.stands self.new.host) }
        ensures health { OnOk result (self.new.health ≡ self.old.health) }
        ensures number { self.new.number ≡ self.old.number }
        ensures jobs { self.new.jobs ≡ self.old.jobs }
    {
        let registers = match new_registers(self.alloc, &file.header) {
            Ok(registers) => registers,
            Err(halt) => return Err(self.fails(halt)),
        };
        self.make_file(file, logs)?;
        match self.host.make_registers(&registers) {
            Ok(()) => Ok(()),
            Err(_) => Err(self.fails(Halt::Host)),
        }
    }

    /// Makes the file of a round. `logs` is what was read before.
    ///
    /// # Errors
    /// `Failed` if the call failed.
    fn make_file(&mut self, file: &RoundFile, logs: &ReadLogs) -> Result<(), Failed>
        requires next { MayMake (H.stands self.old.host) (me_of self.old.number self.old.jobs) (logs_of logs.now) file.now }
        ensures made { OnOk result (H.stands self.new.host (Begins (me_of self.new.number self.new.jobs) (RoundMade file.now (logs_of logs.now)))) }
        ensures halts { OnErr result (Halts (H.stands self.new.host) (me_of self.new.number self.new.jobs) (option_map logs_of self.new.logs) self.new.halt) }
        ensures lives { Lives (H.stands self.new.host) }
        ensures health { OnOk result (self.new.health ≡ self.old.health) }
        ensures number { self.new.number ≡ self.old.number }
        ensures jobs { self.new.jobs ≡ self.old.jobs }
    {
        match self.host.make_round(file) {
            Ok(()) => Ok(()),
            Err(_) => Err(self.fails(Halt::Host)),
        }
    }
}

/// Takes the list in place of the lines that the run knows, and returns true if it has more lines
/// than those. If `cut` is true, a last line without its end is left out: its writer may be at it.
///
/// # Errors
/// `Changed` if the list doesn't begin with what the run knows, `List` if a line of it is refused,
/// `Memory` if there was no memory.
fn take_list(alloc: Global, jobs: &mut HashedJobs, list: Vec<u8>, cut: bool) -> Result<bool, Halt>
    // The list begins with what the run knows, byte for byte, and no line of it is refused.
    ensures front { IfOk result (λ _. BeginsWith (ended jobs.old) list.items) }
    ensures taken { IfOk result (λ _. IsTaken list.items cut) }
    ensures lines { IfOk result (λ _. jobs.new ≡ lines_in list.items) }
    ensures more { IfOk result (λ more. more ≡ nat_lt (length (ended jobs.old)) (length (ended jobs.new))) }
    ensures refused { IfErr result (λ halt. IsWhyNotTaken halt (ended jobs.old) list.items cut) }
{
    let known = jobs.jobs().bytes();
    if let Some(line) = first_difference(known, &list) {
        return Err(Halt::Changed(line));
    }
    let len = known.len();
    match jobs.read_again(alloc, list, cut) {
        Ok(()) => Ok(jobs.jobs().bytes().len() > len),
        Err(JobsFault::Memory) => Err(Halt::Memory),
        Err(JobsFault::Refused(line, why)) => Err(Halt::List(line, why)),
    }
}

/// Returns the open lines of so many.
///
/// # Errors
/// `Misplaced` if an answer is of no attempt, or of one that an earlier answer is of. `Memory` if
/// there was no memory.
fn open_of(alloc: Global, logs: &ReadLogs, count: u64) -> Result<Vec<u64>, Halt>
    ensures lines { IfOk result (λ lines. lines.items ≡ open_lines (logs_of logs.now).findings (logs_of logs.now).journals count) }
    ensures placed { IfOk result (λ lines. AreInPlace (logs_of logs.now).journals (logs_of logs.now).findings) }
    ensures refused { IfErr result (λ halt. IsWhyNoneOpen halt (logs_of logs.now).journals (logs_of logs.now).findings) }
{
    let (findings, journals) = (logs.findings(), logs.journals());
    if let Some(number) = first_misplaced(journals, findings) {
        return Err(Halt::Misplaced(number));
    }
    match open_lines(alloc, findings, journals, count as usize) {
        Ok(lines) => Ok(lines),
        Err(_) => Err(Halt::Memory),
    }
}

/// Returns the file of the next round, of the first of these open lines, which this worker begins.
fn next_file(
    alloc: Global,
    sharing: Sharing,
    first: u64,
    last: &Last,
    lines: &[u64],
    jobs: &mut HashedJobs,
    counts: Vec<Extent>,
) -> Result<RoundFile, AllocError>
    ensures next { IfOk result (λ file. IsNext first last.now.boot.items last.now.file lines.now file.header) }
    ensures shared { IfOk result (λ file. file.header.givens ≡ givens_of (length file.header.lines.items) sharing.workers sharing.beta) }
    ensures workers { IfOk result (λ file. file.header.workers ≡ sharing.workers) }
    ensures counted { IfOk result (λ file. AreCounted jobs.old counts.items file.extents.items) }
    ensures same { jobs.new ≡ jobs.old }
{
    let lines = first_lines(alloc, lines)?;
    let header = RoundHeader {
        round: round_after(&last.file),
        boot: last.boot.to_vec(alloc)?,
        givens: givens_of(lines.len() as u64, sharing.workers, sharing.beta),
        workers: sharing.workers,
        first,
        lines,
    };
    let extents = all_extents(alloc, jobs.extent(alloc)?, counts)?;
    Ok(RoundFile { header, extents })
}

/// Returns the number of the round after the last one.
fn round_after(last: &Option<RoundFile>) -> u64
    ensures { result ≡ round_after last.now }
{
    match last {
        Some(file) if file.header.round == u64::MAX => u64::MAX,
        Some(file) => file.header.round + 1,
        None => 1,
    }
}

/// Returns the first of the open lines, as many as a round may have jobs.
fn first_lines(alloc: Global, lines: &[u64]) -> Result<Vec<u64>, AllocError>
    ensures { IfOk result (λ first. first.items ≡ take MAX_JOBS lines.now) }
{
    let most = MAX_JOBS as usize;
    if lines.len() <= most {
        lines.to_vec(alloc)
    } else {
        lines[..most].to_vec(alloc)
    }
}

/// Returns how much of the jobs is on the disk, and behind that these extents.
fn all_extents(alloc: Global, of_jobs: Extent, logs: Vec<Extent>) -> Result<Vec<Extent>, AllocError>
    ensures { IfOk result (λ extents. extents.items ≡ of_jobs ∷ logs.items) }
{
    let mut extents = Vec::new(alloc);
    extents.push(of_jobs)?;
    for extent in logs {
        extents.push(extent)?;
    }
    Ok(extents)
}

/// Returns the bytes of the registers of a round to which nobody has stored: a head, and 0 for each
/// register.
///
/// # Errors
/// `Memory` if there was no memory, `BadRound` if the round has impossible numbers.
fn new_registers(alloc: Global, header: &RoundHeader) -> Result<Vec<u8>, Halt>
    ensures new { IfOk result (λ bytes. AreNew header.now bytes.items) }
    ensures refused { IfErr result (λ halt. IsWhyNoRegisters halt header.now) }
{
    let givens = header.givens;
    if givens.jobs > MAX_JOBS as u64 || givens.workers > MAX_WORKERS as u64 {
        return Err(Halt::BadRound);
    }
    let Ok(head) = head_of(alloc, header) else {
        return Err(Halt::Memory);
    };
    let Some(mut bytes) = head else {
        return Err(Halt::BadRound);
    };
    match bytes.resize(words_len(&givens) as usize, 0) {
        Ok(()) => Ok(bytes),
        Err(_) => Err(Halt::Memory),
    }
}
