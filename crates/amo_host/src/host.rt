//! The operating system, and the calls of a process of the run on it.
ghost use Rattle.std.specs.Prelude.{◌≡◌, List, map, option_map, IfOk, OnOk, OnErr};
ghost use Rattle.amo_host.specs.Calls.{TryLock, Unlock, CheckFolder, SyncFolder, ReadBoot, ReadRound, Recover, ReadJobs, OpenRegisters, ReadLog, ReadList, MakeJobs, MakeRound, MakeRegisters, LoadRegister, StoreRegister, PassOver, Put, Owe, Pay, ReadOn, Say};
ghost use Rattle.amo_host.specs.Calls.{Tried, HasUnlocked, FolderIsKept, FolderIsSynced, BootIs, RoundIs, Recovered, JobsAre, RegistersAre, LogIs, ListIs, JobsAreMade, RoundIsMade, RegistersAreMade, Loaded, Stored, PassedOver, HasPut, HasOwed, HasPaid, HasRead, Heard, Fell};
ghost use Rattle.amo_host.specs.Opened.{file_of};
ghost use Rattle.amo_host.specs.Phase.{Phase};
ghost use Rattle.amo_host.specs.Protocol.{MayCall, Moves};

use crate::model::{Hold, LogFile, LogPart, Registers, RunLock};
use amo_run_files::{HashedJobs, RoundFile};
use amo_run_log::{AttemptId, Entry};

/// A call has failed. The host knows why.
#[derive(Clone, Copy, Debug, PartialEq, Eq)]
pub struct Failed;

/// The operating system, as one process of a run has it. Each method is one call. It requires a
/// phase that allows the call: so a process that is killed in a call was doing what it might. It
/// ensures the phase after the call.
pub trait Host {
    /// The process may be in this phase, by all that it has called. If nothing records its calls,
    /// it may be in any phase.
    ghost stands: { Self → Phase → Type 0 };

    /// Tries a lock once, by a new handle, and returns whether this process has got it. The lock's
    /// file must still have its name then. The process keeps the lock until it ends, or until
    /// `unlock`.
    fn try_lock(&mut self, lock: RunLock, hold: Hold) -> Result<bool, Failed>
        requires { MayCall (stands self.old) (TryLock lock hold) }
        ensures done { IfOk result (λ got. Moves (stands self.old) (stands self.new) (Tried lock hold got)) }
        ensures fails { OnErr result (Moves (stands self.old) (stands self.new) (Fell (TryLock lock hold))) };

    /// Unlocks what this process has locked.
    fn unlock(&mut self, lock: RunLock)
        requires { MayCall (stands self.old) (Unlock lock) }
        ensures { Moves (stands self.old) (stands self.new) (HasUnlocked lock) };

    /// Checks that the folder is still the run's, that the run was not given up, and that the
    /// journal whose guard this process has still has its name.
    fn check_folder(&mut self) -> Result<(), Failed>
        requires { MayCall (stands self.old) CheckFolder }
        ensures done { OnOk result (Moves (stands self.old) (stands self.new) FolderIsKept) }
        ensures fails { OnErr result (Moves (stands self.old) (stands self.new) (Fell CheckFolder)) };

    /// Syncs the folder: each name in it is on the disk then.
    fn sync_folder(&mut self) -> Result<(), Failed>
        requires { MayCall (stands self.old) SyncFolder }
        ensures done { OnOk result (Moves (stands self.old) (stands self.new) FolderIsSynced) }
        ensures fails { OnErr result (Moves (stands self.old) (stands self.new) (Fell SyncFolder)) };

    /// Returns the id that the machine has had since it was started: one line, without its end.
    fn read_boot(&mut self) -> Result<Vec<u8>, Failed>
        requires { MayCall (stands self.old) ReadBoot }
        ensures done { IfOk result (λ boot. Moves (stands self.old) (stands self.new) (BootIs boot.items)) }
        ensures fails { OnErr result (Moves (stands self.old) (stands self.new) (Fell ReadBoot)) };

    /// Returns the content of the file of the last round, which has its seal. Returns `None` if no
    /// round was begun.
    fn read_round(&mut self) -> Result<Option<RoundFile>, Failed>
        requires { MayCall (stands self.old) ReadRound }
        ensures done { IfOk result (λ last. Moves (stands self.old) (stands self.new) (RoundIs last)) }
        ensures fails { OnErr result (Moves (stands self.old) (stands self.new) (Fell ReadRound)) };

    /// Compares this worker's journal with what the file of the last round counts of it, recovers
    /// it, and returns the texts of its appends. Nothing is written if the journal is refused.
    fn recover(&mut self, last: Option<&RoundFile>) -> Result<Vec<Vec<u8>>, Failed>
        requires { MayCall (stands self.old) (Recover (option_map (λ file. file.now) last)) }
        ensures done { IfOk result (λ texts. Moves (stands self.old) (stands self.new) (Recovered (option_map (λ file. file.now) last.entry) (map (λ text. text.items) texts.items))) }
        ensures fails { OnErr result (Moves (stands self.old) (stands self.new) (Fell (Recover (option_map (λ file. file.now) last.entry)))) };

    /// Reads the lines that the run knows, compares them with what the file of the last round
    /// counts, and takes them in place of those in `jobs`. Lines that `jobs` has already are
    /// neither checked nor hashed again.
    fn read_jobs(&mut self, last: Option<&RoundFile>, jobs: &mut HashedJobs) -> Result<(), Failed>
        requires { MayCall (stands self.old) (ReadJobs (option_map (λ file. file.now) last)) }
        ensures done { OnOk result (Moves (stands self.old) (stands self.new) (JobsAre (option_map (λ file. file.now) last.entry) jobs.new)) }
        ensures fails { OnErr result (Moves (stands self.old) (stands self.new) (Fell (ReadJobs (option_map (λ file. file.now) last.entry)))) };

    /// Opens the registers of the last round, and returns how many bytes their file has, and so
    /// many from its front. Returns `None` if the file is missing or shorter.
    fn open_registers(&mut self, front: usize) -> Result<Option<Registers>, Failed>
        requires { MayCall (stands self.old) (OpenRegisters front) }
        ensures done { IfOk result (λ registers. Moves (stands self.old) (stands self.new) (RegistersAre front (file_of registers))) }
        ensures fails { OnErr result (Moves (stands self.old) (stands self.new) (Fell (OpenRegisters front))) };

    /// Reads answers or a journal: from their beginning if this process hasn't read them before,
    /// else on from the last append that it has read. Compares what was read with what the file of
    /// the last round counts. Returns the texts of the appends that were not read before, and how
    /// many of all appends stay on the disk, whatever a crash takes.
    fn read_log(&mut self, log: LogFile, last: Option<&RoundFile>) -> Result<LogPart, Failed>
        requires { MayCall (stands self.old) (ReadLog log (option_map (λ file. file.now) last)) }
        ensures done { IfOk result (λ part. Moves (stands self.old) (stands self.new) (LogIs log (option_map (λ file. file.now) last.entry) (map (λ text. text.items) part.texts.items) part.counted)) }
        ensures fails { OnErr result (Moves (stands self.old) (stands self.new) (Fell (ReadLog log (option_map (λ file. file.now) last.entry)))) };

    /// Returns the bytes of the user's list, all of which are on the disk.
    fn read_list(&mut self) -> Result<Vec<u8>, Failed>
        requires { MayCall (stands self.old) ReadList }
        ensures done { IfOk result (λ bytes. Moves (stands self.old) (stands self.new) (ListIs bytes.items)) }
        ensures fails { OnErr result (Moves (stands self.old) (stands self.new) (Fell ReadList)) };

    /// Puts a file with these bytes in the place of the lines that the run knows. A crash leaves
    /// the one or the other, and after the return it leaves the new one.
    fn make_jobs(&mut self, bytes: &[u8]) -> Result<(), Failed>
        requires { MayCall (stands self.old) (MakeJobs bytes.now) }
        ensures done { OnOk result (Moves (stands self.old) (stands self.new) (JobsAreMade bytes.now)) }
        ensures fails { OnErr result (Moves (stands self.old) (stands self.new) (Fell (MakeJobs bytes.now))) };

    /// Puts the file of a round in the place of that of the last one. A crash leaves the one or the
    /// other, and after the return it leaves the new one.
    fn make_round(&mut self, file: &RoundFile) -> Result<(), Failed>
        requires { MayCall (stands self.old) (MakeRound file.now) }
        ensures done { OnOk result (Moves (stands self.old) (stands self.new) (RoundIsMade file.now)) }
        ensures fails { OnErr result (Moves (stands self.old) (stands self.new) (Fell (MakeRound file.now))) };

    /// Puts a file with these bytes in the place of the registers. It is not synced: registers
    /// count within one boot alone.
    fn make_registers(&mut self, bytes: &[u8]) -> Result<(), Failed>
        requires { MayCall (stands self.old) (MakeRegisters bytes.now) }
        ensures done { OnOk result (Moves (stands self.old) (stands self.new) (RegistersAreMade bytes.now)) }
        ensures fails { OnErr result (Moves (stands self.old) (stands self.new) (Fell (MakeRegisters bytes.now))) };

    /// Loads a register of the round.
    fn load(&mut self, register: u64) -> Result<u64, Failed>
        requires { MayCall (stands self.old) (LoadRegister register) }
        ensures done { IfOk result (λ value. Moves (stands self.old) (stands self.new) (Loaded register value)) }
        ensures fails { OnErr result (Moves (stands self.old) (stands self.new) (Fell (LoadRegister register))) };

    /// Stores to a register of the round.
    fn store(&mut self, register: u64, value: u64) -> Result<(), Failed>
        requires { MayCall (stands self.old) (StoreRegister register value) }
        ensures done { OnOk result (Moves (stands self.old) (stands self.new) (Stored register value)) }
        ensures fails { OnErr result (Moves (stands self.old) (stands self.new) (Fell (StoreRegister register value))) };

    /// Notes, for a log alone, that the registers show this job claimed and not recorded as done.
    /// It is passed over. Either its attempt was asked for before the round was joined, or the line
    /// was certainly not started.
    fn pass_over(&mut self, job: u32) -> Result<(), Failed>
        requires { MayCall (stands self.old) (PassOver job) }
        ensures done { OnOk result (Moves (stands self.old) (stands self.new) (PassedOver job)) }
        ensures fails { OnErr result (Moves (stands self.old) (stands self.new) (Fell (PassOver job))) };

    /// Appends an entry to this worker's journal, in one append with what is owed, so that every
    /// crash from now on leaves it there.
    fn put(&mut self, entry: Entry) -> Result<(), Failed>
        requires { MayCall (stands self.old) (Put entry) }
        ensures done { OnOk result (Moves (stands self.old) (stands self.new) (HasPut entry)) }
        ensures fails { OnErr result (Moves (stands self.old) (stands self.new) (Fell (Put entry))) };

    /// Owes an entry to this worker's journal: the next append takes it along.
    fn owe(&mut self, entry: Entry) -> Result<(), Failed>
        requires { MayCall (stands self.old) (Owe entry) }
        ensures done { OnOk result (Moves (stands self.old) (stands self.new) (HasOwed entry)) }
        ensures fails { OnErr result (Moves (stands self.old) (stands self.new) (Fell (Owe entry))) };

    /// Appends what is owed, if something is.
    fn pay(&mut self) -> Result<(), Failed>
        requires { MayCall (stands self.old) Pay }
        ensures done { OnOk result (Moves (stands self.old) (stands self.new) HasPaid) }
        ensures fails { OnErr result (Moves (stands self.old) (stands self.new) (Fell Pay)) };

    /// Reads answers or a journal on from the last append that was read, and returns the texts of
    /// those after it.
    fn read_on(&mut self, log: LogFile) -> Result<Vec<Vec<u8>>, Failed>
        requires { MayCall (stands self.old) (ReadOn log) }
        ensures done { IfOk result (λ texts. Moves (stands self.old) (stands self.new) (HasRead log (map (λ text. text.items) texts.items))) }
        ensures fails { OnErr result (Moves (stands self.old) (stands self.new) (Fell (ReadOn log))) };

    /// Says a line to the runner, and waits for its reply, which is returned without its end.
    /// Returns `None` if no whole line comes any more.
    fn say(&mut self, line: &[u8]) -> Result<Option<Vec<u8>>, Failed>
        requires { MayCall (stands self.old) (Say line.now) }
        ensures done { IfOk result (λ reply. Moves (stands self.old) (stands self.new) (Heard line.now (option_map (λ line. line.items) reply))) }
        ensures fails { OnErr result (Moves (stands self.old) (stands self.new) (Fell (Say line.now))) };

    /// Waits for a moment, before a lock is tried again. The protocol doesn't speak of it.
    fn pause(&self);

    /// Returns the time in seconds since 1970, or 0 if the clock can't be read. It is recorded for
    /// persons, and the protocol doesn't speak of it.
    fn now(&self) -> u64;

    /// Reports to a person that a line isn't handed over, and which attempt stands against it. The
    /// protocol leaves it out.
    fn tell_taken(&self, line: u64, other: AttemptId);
}
