//! How a worker joins a round: under the lock of the round, which it shares, it reads the round's
//! file, opens its registers, and reads the answers and all journals. If it takes no part in the
//! round, it unlocks it once it has read that file.
ghost use Rattle.std.specs.Prelude.{◌≡◌, ◌≤◌, true, [], map, option_map, Some, IfErr, IfOk, OnOk, OnErr};
ghost use Rattle.amo_params.specs.declared.limits.TheConstants.{MAX_JOBS, MAX_WORKERS};
ghost use Rattle.amo_params.specs.Givens.{givens_of, IsWorker};
ghost use Rattle.amo_run_files.specs.Heads.{head_of};
ghost use Rattle.amo_run_files.specs.Records.{said_by};
ghost use Rattle.amo_run_files.specs.Rounds.{seat_of};
ghost use Rattle.amo_host.specs.Joining.{are_of};
ghost use Rattle.amo_host.specs.Logs.{all_logs, next_serial};
ghost use Rattle.amo_host.specs.Opened.{file_of};
ghost use Rattle.amo_host.specs.Phase.{Joins, Over, Reads, Locked, HasHeader, HasJobs, Seated, ToWork};
ghost use Rattle.amo_host.specs.Protocol.{Lives};
ghost use Rattle.amo_worker_life.specs.Halting.{Halts, IsWhyNoSeat};
ghost use Rattle.amo_worker_life.specs.Join.{has_joined, has_no_seat, takes_no_part, HasJoined, IsSeated};
ghost use Rattle.amo_worker_life.specs.Reading.{logs_of};
ghost use Rattle.amo_worker_life.specs.Where.{idle_at, me_of, IsAt};
ghost use Rattle.amo_worker_life.specs.declared.halt.Health.TheVariants.{Fine};

use crate::halt::Halt;
use crate::reading::logs_before;
use crate::start::TRIES;
use crate::worker::Worker;
use amo_driver::Failed;
use amo_host::{Hold, Host, Registers, RunLock};
use amo_params::{Givens, MAX_WORKERS};
use amo_run_files::{RoundFile, RoundHeader, head_of, seat_of, words_len};
use amo_run_log::{Attempt, ReadLogs};

/// A seat in a round.
#[derive(Drop)]
pub struct Seat {
    /// The file of the round.
    pub file: RoundFile,
    pub givens: Givens,
    /// As which of the round's participants the worker acts.
    pub participant: u32,
}

/// The result of a try to join a round.
#[derive(Drop)]
pub enum Joined {
    /// The worker takes part in it: its seat, and the answers and journals that were read.
    TakesPart(Seat, ReadLogs),
    /// It takes no part, and has unlocked the round.
    PassesBy,
}

/// Joins the round that was begun last. The worker passes by a round in which it has no seat, and
/// one that it has joined before: its part of that round is over.
///
/// The worker shares the lock of the round, and has the seat that the header gives it. The header
/// must be of this boot. The registers must have the head of that round, and its length. The worker
/// syncs the folder before it reads the answers and all 16 journals, and its attempts go on from
/// those in its own journal.
///
/// # Errors
/// `Failed`, and the worker's `halt` says why.
pub fn join<H: Host>(worker: &mut Worker<H>) -> Result<Joined, Failed>
    requires idle { H.stands worker.old.host (idle_at (me_of worker.old.number worker.old.jobs) (option_map logs_of worker.old.logs)) }
    requires fine { worker.old.health ≡ Fine }
    ensures joined { IfOk result (λ joined. HasJoined joined (H.stands worker.new.host) (me_of worker.new.number worker.new.jobs) (option_map logs_of worker.new.logs) worker.new.serial) }
    ensures seat { IfOk result IsSeated }
    ensures halts { OnErr result (Halts (H.stands worker.new.host) (me_of worker.new.number worker.new.jobs) (option_map logs_of worker.new.logs) worker.new.halt) }
    ensures lives { Lives (H.stands worker.new.host) }
    ensures fine { IfOk result (λ joined. worker.new.health ≡ Fine) }
{
    worker.share_round()?;
    let file = worker.read_header()?;
    if takes_no_part(worker.number, worker.joined, &file.header) {
        worker.pass_by(&file)?;
        return Ok(Joined::PassesBy);
    }
    worker.read_jobs_of(&file)?;
    let seat = worker.take_seat(file)?;
    let mut logs = worker.begin_to_read(&seat)?;
    worker.read_logs(Some(&seat.file), &mut logs)?;
    worker.serial = next_serial(logs.journals(), worker.number);
    worker.joined = Some(seat.file.header.round);
    Ok(Joined::TakesPart(seat, logs))
}

impl<H: Host> Worker<H> {
    /// Shares the lock of the round.
    ///
    /// # Errors
    /// `Failed` if a call failed, or if another process has the lock alone, however often it is
    /// tried.
    fn share_round(&mut self) -> Result<(), Failed>
        requires idle { H.stands self.old.host (idle_at (me_of self.old.number self.old.jobs) (option_map logs_of self.old.logs)) }
        ensures locked { OnOk result (H.stands self.new.host (Joins (me_of self.new.number self.new.jobs) (Locked (option_map logs_of self.new.logs)))) }
        ensures halts { OnErr result (Halts (H.stands self.new.host) (me_of self.new.number self.new.jobs) (option_map logs_of self.new.logs) self.new.halt) }
        ensures lives { Lives (H.stands self.new.host) }
        ensures health { OnOk result (self.new.health ≡ self.old.health) }
    {
        for _try in 0..TRIES {
            match self.host.try_lock(RunLock::Round, Hold::Shared) {
                Ok(true) => return Ok(()),
                Ok(false) => self.host.pause(),
                Err(_) => return Err(self.fails(Halt::Host)),
            }
        }
        Err(self.fails(Halt::Held(RunLock::Round)))
    }

    /// Returns the file of the last round, which is of this boot.
    ///
    /// # Errors
    /// `Failed` if a call failed, or if no round of this boot was begun.
    fn read_header(&mut self) -> Result<RoundFile, Failed>
        requires locked { H.stands self.old.host (Joins (me_of self.old.number self.old.jobs) (Locked (option_map logs_of self.old.logs))) }
        ensures header { IfOk result (λ file. H.stands self.new.host (Joins (me_of self.new.number self.new.jobs) (HasHeader (option_map logs_of self.new.logs) file))) }
        ensures halts { OnErr result (Halts (H.stands self.new.host) (me_of self.new.number self.new.jobs) (option_map logs_of self.new.logs) self.new.halt) }
        ensures lives { Lives (H.stands self.new.host) }
        ensures health { IfOk result (λ file. self.new.health ≡ self.old.health) }
    {
        let Ok(boot) = self.host.read_boot() else {
            return Err(self.fails(Halt::Host));
        };
        let Ok(last) = self.host.read_round() else {
            return Err(self.fails(Halt::Host));
        };
        let Some(file) = last else {
            return Err(self.fails(Halt::OtherRound));
        };
        if file.header.boot.as_slice() != boot.as_slice() {
            return Err(self.fails(Halt::OtherRound));
        }
        Ok(file)
    }

    /// Unlocks the round of this file, in which the worker takes no part. The worker keeps the
    /// answers and journals that it has read.
    ///
    /// # Errors
    /// `Failed` if there was no memory.
    fn pass_by(&mut self, file: &RoundFile) -> Result<(), Failed>
        requires header { H.stands self.old.host (Joins (me_of self.old.number self.old.jobs) (HasHeader (option_map logs_of self.old.logs) file.now)) }
        requires no_part { takes_no_part self.old.number self.old.joined file.now.header ≡ true }
        ensures over { OnOk result (IsAt (H.stands self.new.host) (Over (me_of self.new.number self.new.jobs)) (option_map logs_of self.new.logs)) }
        ensures halts { OnErr result (Halts (H.stands self.new.host) (me_of self.new.number self.new.jobs) (option_map logs_of self.new.logs) self.new.halt) }
        ensures lives { Lives (H.stands self.new.host) }
        ensures health { OnOk result (self.new.health ≡ self.old.health) }
    {
        let count = self.jobs.jobs().count();
        let Ok(logs) = logs_before(self.alloc, count, self.logs.take()) else {
            return Err(self.fails(Halt::Memory));
        };
        self.host.unlock(RunLock::Round);
        self.logs = Some(logs);
        Ok(())
    }

    /// Reads the lines that the run knows, as this round counts them.
    ///
    /// # Errors
    /// `Failed` if the call failed.
    fn read_jobs_of(&mut self, file: &RoundFile) -> Result<(), Failed>
        requires header { H.stands self.old.host (Joins (me_of self.old.number self.old.jobs) (HasHeader (option_map logs_of self.old.logs) file.now)) }
        ensures jobs { OnOk result (H.stands self.new.host (Joins (me_of self.new.number self.new.jobs) (HasJobs (option_map logs_of self.new.logs) file.now))) }
        ensures halts { OnErr result (Halts (H.stands self.new.host) (me_of self.new.number self.new.jobs) (option_map logs_of self.new.logs) self.new.halt) }
        ensures lives { Lives (H.stands self.new.host) }
        ensures health { OnOk result (self.new.health ≡ self.old.health) }
    {
        match self.host.read_jobs(Some(file), &mut self.jobs) {
            Ok(()) => Ok(()),
            Err(_) => Err(self.fails(Halt::Host)),
        }
    }

    /// Opens the registers of this round, and takes the worker's seat in it.
    ///
    /// # Errors
    /// `Failed` if a call failed, if there was no memory, if the round has impossible numbers, or
    /// if the registers are those of another round.
    fn take_seat(&mut self, file: RoundFile) -> Result<Seat, Failed>
        requires jobs { H.stands self.old.host (Joins (me_of self.old.number self.old.jobs) (HasJobs (option_map logs_of self.old.logs) file)) }
        ensures seated { IfOk result (λ seat. H.stands self.new.host (Joins (me_of self.new.number self.new.jobs) (Seated (option_map logs_of self.new.logs) seat.file seat.givens seat.participant))) }
        ensures participant { IfOk result (λ seat. IsWorker seat.givens seat.participant) }
        ensures halts { OnErr result (Halts (H.stands self.new.host) (me_of self.new.number self.new.jobs) (option_map logs_of self.new.logs) self.new.halt) }
        ensures lives { Lives (H.stands self.new.host) }
        ensures health { IfOk result (λ seat. self.new.health ≡ self.old.health) }
    {
        let (givens, participant) = match seat_in(&file.header, self.number) {
            Ok(seat) => seat,
            Err(halt) => return Err(self.fails(halt)),
        };
        let Ok(Some(head)) = head_of(self.alloc, &file.header) else {
            return Err(self.fails(Halt::Memory));
        };
        let Ok(registers) = self.host.open_registers(head.len()) else {
            return Err(self.fails(Halt::Host));
        };
        if !are_of(&file.header, &head, &registers) {
            return Err(self.fails(Halt::OtherRound));
        }
        Ok(Seat {
            file,
            givens,
            participant,
        })
    }

    /// Syncs the folder, since the process that made the files of the round may have been killed
    /// before it did that. Returns the answers and journals that were read in earlier rounds.
    ///
    /// # Errors
    /// `Failed` if the call failed, or if there was no memory.
    fn begin_to_read(&mut self, seat: &Seat) -> Result<ReadLogs, Failed>
        requires seated { H.stands self.old.host (Joins (me_of self.old.number self.old.jobs) (Seated (option_map logs_of self.old.logs) seat.now.file seat.now.givens seat.now.participant)) }
        ensures reads { IfOk result (λ logs. H.stands self.new.host (Reads (me_of self.new.number self.new.jobs) (ToWork seat.now.file seat.now.givens seat.now.participant) (logs_of logs) [] all_logs)) }
        ensures halts { OnErr result (Halts (H.stands self.new.host) (me_of self.new.number self.new.jobs) (option_map logs_of self.new.logs) self.new.halt) }
        ensures lives { Lives (H.stands self.new.host) }
        ensures health { IfOk result (λ logs. self.new.health ≡ self.old.health) }
    {
        if self.host.sync_folder().is_err() {
            return Err(self.fails(Halt::Host));
        }
        let count = self.jobs.jobs().count();
        match logs_before(self.alloc, count, self.logs.take()) {
            Ok(logs) => Ok(logs),
            Err(_) => Err(self.fails(Halt::Memory)),
        }
    }
}

/// Returns true if a worker takes no part in the round of this header: it has no seat there, or the
/// round is the one that it has joined last.
fn takes_no_part(worker: u64, joined: Option<u64>, header: &RoundHeader) -> bool
    ensures { result ≡ takes_no_part worker joined header.now }
{
    has_joined(joined, header.round) || has_no_seat(worker, header)
}

/// Returns true if this round is the one that a worker has joined last.
fn has_joined(joined: Option<u64>, round: u64) -> bool
    ensures { result ≡ has_joined joined round }
{
    match joined {
        Some(last) => last == round,
        None => false,
    }
}

/// Returns true if the header gives this worker no seat. A header with impossible numbers is
/// refused later.
fn has_no_seat(worker: u64, header: &RoundHeader) -> bool
    ensures { result ≡ has_no_seat worker header.now }
{
    let (first, workers) = (header.first, header.workers);
    if first == 0 || first > workers || workers > MAX_WORKERS as u64 {
        return false;
    }
    match seat_of(worker, first, workers, header.givens.workers) {
        Some(_) => false,
        None => true,
    }
}

/// Returns the givens of a round, and as which of its participants this worker acts.
///
/// # Errors
/// `BadRound` if the round has impossible numbers, or no seat for the worker.
fn seat_in(header: &RoundHeader, worker: u64) -> Result<(Givens, u32), Halt>
    ensures seat { IfOk result (λ found. seat_of worker header.now.first header.now.workers header.now.givens.workers ≡ Some found.1) }
    ensures givens { IfOk result (λ found. givens_of header.now.givens.jobs header.now.givens.workers header.now.givens.beta ≡ Ok found.0) }
    ensures participant { IfOk result (λ found. IsWorker found.0 found.1) }
    ensures few_jobs { IfOk result (λ found. header.now.givens.jobs ≤ MAX_JOBS) }
    ensures few_workers { IfOk result (λ found. header.now.givens.workers ≤ MAX_WORKERS) }
    ensures refused { IfErr result (λ halt. IsWhyNoSeat halt worker header.now) }
{
    let (first, workers) = (header.first, header.workers);
    if first < 1 || first > workers || workers > MAX_WORKERS as u64 {
        return Err(Halt::BadRound);
    }
    let sizes = header.givens;
    let Ok(givens) = Givens::try_new(sizes.jobs, sizes.workers, sizes.beta) else {
        return Err(Halt::BadRound);
    };
    match seat_of(worker, first, workers, sizes.workers) {
        Some(seat) if seat >= 1 && seat <= sizes.workers => Ok((givens, seat as u32)),
        _ => Err(Halt::BadRound),
    }
}

/// Returns true if the registers are those of the round of this header, which begin with this head.
fn are_of(header: &RoundHeader, head: &[u8], registers: &Option<Registers>) -> bool
    requires head { head_of (said_by header.now) ≡ Some head.now }
    requires few_jobs { header.now.givens.jobs ≤ MAX_JOBS }
    requires few_workers { header.now.givens.workers ≤ MAX_WORKERS }
    ensures { result ≡ are_of header.now (file_of registers.now) }
{
    match registers {
        Some(found) => found.len == words_len(&header.givens) && found.front.as_slice() == head,
        None => false,
    }
}

/// Returns the serial number of the next attempt of a worker, by the journals of the workers 1, 2
/// and so on.
fn next_serial(journals: &[Vec<Attempt>], worker: u64) -> u64
    ensures { result ≡ next_serial (map (λ journal. journal.items) journals.now) worker }
{
    if worker >= 1 && worker as usize <= journals.len() {
        journals[worker as usize - 1].len() as u64 + 1
    } else {
        1
    }
}
