//! The faults that end a command before its work is done.
ghost use Rattle.std.specs.Prelude.{◌≡◌, Ok, Err, IfOk, IfErr};
ghost use Rattle.std.specs.IoError.{error_kind};
ghost use Rattle.std.specs.declared.io.ErrorKind.TheVariants.{OutOfMemory};
ghost use Rattle.amo_run_faults.specs.Statuses.{status_of};
ghost use Rattle.amo_run_faults.specs.declared.error.Fault.TheVariants.{Memory, Read, Write};

use crate::disk::Disk;
use crate::layout::Item;
use crate::loss::Loss;
use amo_journal::DamageKind;
use amo_run_files::Why;
use amo_status::{EarlyAnswers, Refusal};
use std::alloc::{AllocError, AllocFailed};
use std::io;
use thiserror::Error;

/// Why a folder is refused.
#[derive(Debug, Drop, Error)]
pub enum Door {
    /// Its name is a link, or it isn't a folder.
    #[error("it is a file, or a link; name the folder itself")]
    NoFolder,
    /// It belongs to another user.
    #[error("it belongs to another user; run this as that user, or name a folder of your own")]
    Foreign,
    /// Its file system is refused.
    #[error("{0}")]
    Disk(Disk),
    /// Its record is of another version of this program.
    #[error("its `record` is of another version of amo; go on with that version, or use another folder")]
    Version,
}

/// Why the same command may succeed later.
#[derive(Clone, Copy, Debug, Error)]
pub enum Later {
    /// Another process has this number.
    #[error("another process has this number; wait for its end, or start another worker")]
    Taken,
    /// Another process has this number: the one of this id.
    #[error("process {0} has this number; wait for its end, or start another worker")]
    TakenBy(u64),
    /// A lock's file was removed or replaced while it was taken.
    #[error("the file of a lock was replaced meanwhile; start again")]
    Replaced,
    /// A round is being begun.
    #[error("another worker is beginning a round; start again in a second")]
    Beginning,
    /// Another process makes the run's files in this folder.
    #[error("another process is making the run's files; start again in a second")]
    Making,
    /// Record and words are of another boot, or not of each other, while others are at work.
    #[error("the current round cannot be joined; start again when all of its workers have ended")]
    OtherRound,
    /// The worker has done its part of the round. The next round is begun once no worker is left in
    /// this one.
    #[error("this round is over for this worker; start again to join the next one")]
    Over,
    /// This file can't be read on: its last append, or the file itself, was replaced, or what
    /// follows is damaged.
    #[error("it was changed while it was read; start again, to read it from its beginning")]
    Changed(Item),
    /// Another process holds the lock of the answers.
    #[error("another process is answering; start again in a second")]
    Answering,
    /// The answer of this number, from 1, is to an attempt that runs or may still be begun.
    #[error("answer {0}: its attempt may still run; answer once `doubts` lists it")]
    Running(usize),
}

impl Later {
    /// Returns the file or folder that the message is about, if it is about one.
    fn item(&self) -> Option<Item> {
        match self {
            Later::Answering => Some(Item::Answers),
            Later::Changed(item) => Some(*item),
            Later::Running(_) => None,
            _ => Some(Item::Run),
        }
    }
}

/// The reason that a command ends before its work is done. The message is a problem and a remedy.
/// The program prints the path of [`Fault::item`] before it.
#[derive(Debug, Drop, Error)]
pub enum Fault {
    /// There was no memory.
    #[error("out of memory; free some memory, then start again")]
    Memory,
    /// The line of this number of the list can't be one of a run's.
    #[error("line {0} {1}")]
    List(usize, Why),
    /// The line of this number is not what it was when the run first knew it.
    #[error("line {0} is not the line that the run knows; restore it from the run's file `jobs`, and add lines only at the end")]
    Changed(usize),
    /// The append of this number, from 1, can't come after those before it.
    #[error("append {1} is damaged, or was edited; undo the edit, or give up this run (with an older copy lines would be performed twice)")]
    Entry(Item, usize),
    /// The journal is damaged at the append of this number, from 1.
    #[error("append {1}: {2}; leave the file as it is, and read docs/guide/operating.md, `A journal is refused`")]
    Damaged(Item, usize, DamageKind),
    /// The journal has lost appends that were on the disk when the last round began.
    #[error("{1}; leave the file as it is, and read docs/guide/operating.md, `A journal is refused`")]
    Lost(Item, Loss),
    /// Something is wrong with the files of the run, as `status --damaged` has printed.
    #[error("damaged; keep it as it is, and read docs/guide/operating.md, `A journal is refused`")]
    DamagedRun,
    /// A file of the run holds something that the run never writes.
    #[error("{remedy}", remedy = self.remedy())]
    Refused(Item),
    /// The answer of this number, from 1, is refused.
    #[error("answer {0}: {1}")]
    Answer(usize, Refusal),
    /// Some answers come too early. The same call may be taken later.
    #[error("{0}")]
    Early(EarlyAnswers),
    /// Some answers come too early, and of one of their attempts nobody knows when it ended.
    #[error("{0}")]
    Untimed(EarlyAnswers),
    /// The answer of this number, from 1, can't be read, or has another text than the line.
    #[error("answer {0}: it must be P.S, LINE, TEXT and done or not-done, of one line of the run; copy the first three from `doubts` or `status`")]
    NoAnswerOf(usize),
    /// The runner said so.
    #[error("runner: it told this worker to leave; start the worker again to go on")]
    Left,
    /// Nothing more comes from the runner.
    #[error("runner: it has ended, or closed its pipe; start both again to go on")]
    Closed,
    /// This word holds this value, which doesn't fit the values of the others.
    #[error("word {0} has the impossible value {1}; stop all workers, and the next round starts with new words")]
    NoSuchNumber(u64, u64),
    /// The words or the numbers of a round are such that no worker goes on.
    #[error("this round has impossible numbers; stop all workers, and the next round starts with new words")]
    NoWay,
    /// A file of the run is missing.
    #[error("this file is missing; put it back, or give up this run (without it nobody knows which lines were performed)")]
    Missing(Item),
    /// A file of the run has no byte, though it was made with one.
    #[error("this file is empty; put its bytes back, or give up this run (without them nobody knows which lines were performed)")]
    Empty(Item),
    /// The folder is missing, though a run was named.
    #[error("no folder is there; mount the file system that holds it, or name the path that it has now")]
    NoRun,
    /// The folder has no id.
    #[error("it has no `id`, so it is not a run's folder; name one, or make one (amo_worker door RUN --workers M JOBS)")]
    NoId,
    /// The folder has no id, but the record of a run.
    #[error("made by amo 0.1.0, without an `id`; start a new run of its open lines (amo_worker status RUN --lines open) in a new folder")]
    OldRun,
    /// The folder is another run's than the one that was named.
    #[error("its `id` is not the one of --id; name the folder of that run")]
    OtherId,
    /// The folder has an id, and a new one was to be made.
    #[error("it already has an `id`, and --into makes a new run; name another folder, or go on with this run without --into")]
    HasId,
    /// The folder has no id, but this file, which a run has.
    #[error("it has `{0}` and no `id`, so no run can be made there; name another folder")]
    NotNew(String),
    /// The run was given up.
    #[error("this run was given up, since `forgotten` is there; start a new run in another folder")]
    Forgotten,
    /// A file can't be made, written, synced or locked.
    #[error("cannot be written: {1}; {remedy}", remedy = self.remedy())]
    Write(Item, io::Error),
    /// A journal can't be written.
    #[error("cannot be written; check the disk and its space, then start again")]
    Journal(Item),
    /// A file can't be read.
    #[error("cannot be read: {1}; {remedy}", remedy = self.remedy())]
    Read(Item, io::Error),
    /// The command may succeed later.
    #[error("{0}")]
    Later(Later),
    /// The runner sent this, which is not a reply to the question.
    #[error("runner: its reply `{0}` is invalid; docs/protocol.md lists the replies")]
    NoAnswer(String),
    /// The folder is refused.
    #[error("{0}")]
    Door(Door),
}

impl Fault {
    /// Returns the file or folder that the message is about, if it is about one.
    pub fn item(&self) -> Option<Item> {
        match self {
            Fault::List(..) | Fault::Changed(_) => Some(Item::List),
            Fault::Entry(item, _) | Fault::Damaged(item, ..) => Some(*item),
            Fault::Lost(item, _) => Some(*item),
            Fault::Refused(item) => Some(*item),
            Fault::NoSuchNumber(..) => Some(Item::Words),
            Fault::Missing(item) => Some(*item),
            Fault::Empty(item) => Some(*item),
            Fault::Write(item, _) => Some(*item),
            Fault::Journal(item) => Some(*item),
            Fault::Read(item, _) => Some(*item),
            Fault::NoWay | Fault::NoRun | Fault::NoId | Fault::OldRun => Some(Item::Run),
            Fault::OtherId | Fault::HasId | Fault::NotNew(_) => Some(Item::Run),
            Fault::Forgotten | Fault::DamagedRun | Fault::Door(_) => Some(Item::Run),
            Fault::Later(later) => later.item(),
            Fault::Memory | Fault::Answer(..) | Fault::NoAnswerOf(_) => None,
            Fault::Early(_) | Fault::Untimed(_) => None,
            Fault::Left | Fault::Closed | Fault::NoAnswer(_) => None,
        }
    }

    /// Returns the part of the message that depends on the file or on the system's error.
    fn remedy(&self) -> &'static str {
        match self {
            Fault::Write(_, error) => remedy_of(error),
            Fault::Read(_, error) => remedy_of(error),
            Fault::Refused(Item::Boot) => {
                "it must be one line of 1 to 200 bytes; name another file with --boot-id"
            }
            Fault::Refused(Item::Random) => "it is not a UUID; mount /proc, then start again",
            Fault::Refused(Item::Record | Item::Known) => {
                "it is damaged, or was edited; leave it as it is, and read docs/guide/operating.md, `A journal is refused`"
            }
            _ => "it is damaged, or was edited; undo the edit, or give up this run",
        }
    }

    /// Returns the status with which the program ends.
    pub fn status(&self) -> u8
        ensures { result ≡ status_of self.now }
    {
        match self {
            Fault::List(..) | Fault::Changed(_) | Fault::Entry(..) | Fault::Refused(_) => 65,
            Fault::Damaged(..) | Fault::Lost(..) | Fault::DamagedRun => 65,
            Fault::Answer(..) | Fault::Untimed(_) | Fault::NoAnswerOf(_) => 65,
            Fault::Missing(_) | Fault::Empty(_) | Fault::NoRun | Fault::NoId => 65,
            Fault::OldRun | Fault::OtherId | Fault::HasId | Fault::NotNew(_) => 65,
            Fault::Forgotten => 65,
            Fault::Left | Fault::Closed => 69,
            Fault::NoSuchNumber(..) | Fault::NoWay => 70,
            Fault::Memory => 71,
            Fault::Write(..) | Fault::Journal(_) => 73,
            Fault::Read(..) => 74,
            Fault::Early(_) | Fault::Later(_) => 75,
            Fault::NoAnswer(_) => 76,
            Fault::Door(_) => 77,
        }
    }
}

impl From<AllocError> for Fault {
    ghost from_gives = { λ _ e. e ≡ Memory };

    fn from(_: AllocError) -> Self {
        Fault::Memory
    }
}

impl<T: Drop> From<AllocFailed<T>> for Fault {
    ghost from_gives = { λ _ e. e ≡ Memory };

    fn from(_: AllocFailed<T>) -> Self {
        Fault::Memory
    }
}

/// Returns what to do after a call of the system has failed.
fn remedy_of(error: &io::Error) -> &'static str {
    match error.kind() {
        io::ErrorKind::NotFound | io::ErrorKind::NotADirectory => "check the path",
        io::ErrorKind::IsADirectory | io::ErrorKind::FilesystemLoop => "check the path",
        io::ErrorKind::InvalidFilename => "choose a shorter path",
        io::ErrorKind::PermissionDenied => {
            "change its mode or owner, or run this as a user who may"
        }
        io::ErrorKind::ReadOnlyFilesystem => "choose a place where files can be made",
        io::ErrorKind::StorageFull | io::ErrorKind::QuotaExceeded => "make room, then start again",
        io::ErrorKind::BrokenPipe => "keep its reader open",
        _ => "check the disk, then start again",
    }
}

/// Returns the result of a call that writes a file.
///
/// # Errors
///
/// `Memory` if the system had none for the call, else `Write`.
pub fn written<T>(item: Item, given: io::Result<T>) -> Result<T, Fault>
    ensures done { IfOk given (λ value. result ≡ Ok value) }
    ensures memory { IfErr given (λ error. error_kind error ≡ OutOfMemory → result ≡ Err Memory) }
    ensures fails { IfErr given (λ error. (error_kind error ≡ OutOfMemory → ⊥) → result ≡ Err (Write item error)) }
{
    match given {
        Ok(value) => Ok(value),
        Err(error) if error.kind() == io::ErrorKind::OutOfMemory => Err(Fault::Memory),
        Err(error) => Err(Fault::Write(item, error)),
    }
}

/// Returns the result of a call that reads a file.
///
/// # Errors
///
/// `Memory` if the system had none for the call, else `Read`.
pub fn had<T>(item: Item, given: io::Result<T>) -> Result<T, Fault>
    ensures done { IfOk given (λ value. result ≡ Ok value) }
    ensures memory { IfErr given (λ error. error_kind error ≡ OutOfMemory → result ≡ Err Memory) }
    ensures fails { IfErr given (λ error. (error_kind error ≡ OutOfMemory → ⊥) → result ≡ Err (Read item error)) }
{
    match given {
        Ok(value) => Ok(value),
        Err(error) if error.kind() == io::ErrorKind::OutOfMemory => Err(Fault::Memory),
        Err(error) => Err(Fault::Read(item, error)),
    }
}
