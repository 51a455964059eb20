//! The operating system, and the calls of an operator's command on it.
ghost use Rattle.std.specs.Prelude.{map, option_map, IfOk, OnOk, OnErr};
ghost use Rattle.amo_operator.specs.Calls.{TryLock, Unlock, UnlockAll, CheckFolder, ReadRound, ReadLog, Recover, ReadJobs, ReadClock, PutDoubt, RemoveCommandFile, PutAnswer, Print};
ghost use Rattle.amo_operator.specs.Calls.{Tried, HasUnlocked, HasUnlockedAll, FolderIsKept, RoundIs, LogIs, Recovered, JobsAre, TimeIs, HasPutDoubt, HasRemoved, HasPutAnswer, HasPrinted, Fell};
ghost use Rattle.amo_operator.specs.Phase.{Phase};
ghost use Rattle.amo_operator.specs.Protocol.{MayCall, Moves};

use crate::model::OperatorLock;
use amo_host::{Failed, LogFile};
use amo_run_files::{Jobs, RoundFile};
use amo_run_log::Finding;
use amo_status::AttemptId;

/// The operating system, as an operator's command has it. Each method is one call. It requires a
/// phase that allows the call: so a process that is killed in a call was doing what it might. It
/// ensures the phase after the call.
pub trait OperatorHost {
    /// The process may be in this phase, by all that it has called. If nothing records its calls,
    /// it may be in any phase.
    ghost stands: { Self → Phase → Type 0 };

    /// Tries an exclusive lock once, by a new handle, and returns whether this process has got it.
    /// The lock's file must still have its name then. The process keeps the lock until it ends, or
    /// until it unlocks. A runner's file is made if it is missing. The lock on a missing file of a
    /// command counts as got: such a file is removed only once its lock was got.
    fn try_lock(&mut self, lock: OperatorLock) -> Result<bool, Failed>
        requires { MayCall (stands self.old) (TryLock lock) }
        ensures done { IfOk result (λ got. Moves (stands self.old) (stands self.new) (Tried lock got)) }
        ensures fails { OnErr result (Moves (stands self.old) (stands self.new) (Fell (TryLock lock))) };

    /// Unlocks the journal of a worker.
    fn unlock(&mut self, worker: u64)
        requires { MayCall (stands self.old) (Unlock worker) }
        ensures { Moves (stands self.old) (stands self.new) (HasUnlocked worker) };

    /// Unlocks all that this process has locked.
    fn unlock_all(&mut self)
        requires { MayCall (stands self.old) UnlockAll }
        ensures { Moves (stands self.old) (stands self.new) HasUnlockedAll };

    /// Checks that the folder is still the run's, and if `kept` is true, that the run was not given
    /// up.
    fn check_folder(&mut self, kept: bool) -> Result<(), Failed>
        requires { MayCall (stands self.old) (CheckFolder kept) }
        ensures done { OnOk result (Moves (stands self.old) (stands self.new) (FolderIsKept kept)) }
        ensures fails { OnErr result (Moves (stands self.old) (stands self.new) (Fell (CheckFolder kept))) };

    /// Returns the content of the file of the last round, which has its seal. Returns `None` if no
    /// round was begun.
    fn read_round(&mut self) -> Result<Option<RoundFile>, Failed>
        requires { MayCall (stands self.old) ReadRound }
        ensures done { IfOk result (λ last. Moves (stands self.old) (stands self.new) (RoundIs last)) }
        ensures fails { OnErr result (Moves (stands self.old) (stands self.new) (Fell ReadRound)) };

    /// Reads answers or a journal from their beginning, compares them with what the file of the
    /// last round counts, and returns the texts of all appends. Nothing is written.
    fn read_log(&mut self, log: LogFile, last: Option<&RoundFile>) -> Result<Vec<Vec<u8>>, Failed>
        requires { MayCall (stands self.old) (ReadLog log (option_map (λ file. file.now) last)) }
        ensures done { IfOk result (λ texts. Moves (stands self.old) (stands self.new) (LogIs log (option_map (λ file. file.now) last.entry) (map (λ text. text.items) texts.items))) }
        ensures fails { OnErr result (Moves (stands self.old) (stands self.new) (Fell (ReadLog log (option_map (λ file. file.now) last.entry)))) };

    /// Compares answers or a journal with what the file of the last round counts of them, recovers
    /// them, syncs the folder, and returns the texts of all appends. Nothing is written if they are
    /// refused.
    fn recover(&mut self, log: LogFile, last: Option<&RoundFile>) -> Result<Vec<Vec<u8>>, Failed>
        requires { MayCall (stands self.old) (Recover log (option_map (λ file. file.now) last)) }
        ensures done { IfOk result (λ texts. Moves (stands self.old) (stands self.new) (Recovered log (option_map (λ file. file.now) last.entry) (map (λ text. text.items) texts.items))) }
        ensures fails { OnErr result (Moves (stands self.old) (stands self.new) (Fell (Recover log (option_map (λ file. file.now) last.entry)))) };

    /// Returns the lines that the run knows, compared with what the file of the last round counts.
    fn read_jobs(&mut self, last: Option<&RoundFile>) -> Result<Jobs, Failed>
        requires { MayCall (stands self.old) (ReadJobs (option_map (λ file. file.now) last)) }
        ensures done { IfOk result (λ jobs. Moves (stands self.old) (stands self.new) (JobsAre (option_map (λ file. file.now) last.entry) jobs)) }
        ensures fails { OnErr result (Moves (stands self.old) (stands self.new) (Fell (ReadJobs (option_map (λ file. file.now) last.entry)))) };

    /// Returns the time in seconds since 1970, or 0 if the clock can't be read.
    fn read_clock(&mut self) -> u64
        requires { MayCall (stands self.old) ReadClock }
        ensures { Moves (stands self.old) (stands self.new) (TimeIs result) };

    /// Appends to the journal of the attempt's worker that the attempt is in doubt, and ended at
    /// this time. Every crash from now on leaves it there.
    fn put_doubt(&mut self, attempt: AttemptId, time: u64) -> Result<(), Failed>
        requires { MayCall (stands self.old) (PutDoubt attempt time) }
        ensures done { OnOk result (Moves (stands self.old) (stands self.new) (HasPutDoubt attempt time)) }
        ensures fails { OnErr result (Moves (stands self.old) (stands self.new) (Fell (PutDoubt attempt time))) };

    /// Removes the file of the command of an attempt, if it is there and that can be done.
    fn remove_command_file(&mut self, attempt: AttemptId)
        requires { MayCall (stands self.old) (RemoveCommandFile attempt) }
        ensures { Moves (stands self.old) (stands self.new) (HasRemoved attempt) };

    /// Appends an answer to the answers, so that every crash from now on leaves it there.
    fn put_answer(&mut self, answer: Finding) -> Result<(), Failed>
        requires { MayCall (stands self.old) (PutAnswer answer) }
        ensures done { OnOk result (Moves (stands self.old) (stands self.new) (HasPutAnswer answer)) }
        ensures fails { OnErr result (Moves (stands self.old) (stands self.new) (Fell (PutAnswer answer))) };

    /// Prints a text on standard output, all of it.
    fn print(&mut self, text: &[u8]) -> Result<(), Failed>
        requires { MayCall (stands self.old) (Print text.now) }
        ensures done { OnOk result (Moves (stands self.old) (stands self.new) (HasPrinted text.now)) }
        ensures fails { OnErr result (Moves (stands self.old) (stands self.new) (Fell (Print text.now))) };

    /// Waits for a moment, before a lock is tried again. The protocol doesn't speak of it.
    fn pause(&self);
}
