//! The files that a worker reads and writes, and how a message names them.
ghost use Rattle.std.specs.Prelude.{Some};
ghost use Rattle.amo_run_faults.specs.Names.{name_of};

use std::fmt;
use std::fmt::{Display, Formatter};

/// A file, or a stream.
#[derive(Clone, Copy, Debug)]
pub enum Item {
    /// The folder that the processes of a run share.
    Run,
    /// Which run it is: 32 hexadecimal digits and a line feed. Made last, and never replaced.
    Id,
    /// There if the run was given up.
    Forgotten,
    /// The journal of a worker, whose lock is the guard of its number.
    Journal(u64),
    /// Locked, shared, by each worker from before it reads the record to its end, and by the worker
    /// that begins a round.
    Round,
    /// The record of the last round.
    Record,
    /// The lines that the run knows.
    Known,
    /// The words of the last round.
    Words,
    /// Locked by the runner of a worker as long as it lives.
    Runner(u64),
    /// Of a worker's intent of this serial number: locked as long as its command runs.
    Command(u64, u64),
    /// The answers of operators.
    Answers,
    /// The jobs' file, outside of the folder.
    List,
    /// The file that `answer --from` names.
    Sheet,
    /// The boot id.
    Boot,
    /// Where the kernel gives random numbers.
    Random,
    /// Which file systems are mounted.
    Mounts,
    /// The system's text about an open handle.
    Handle,
    /// The system's texts about file systems of the types ext3 and ext4.
    Ext4,
    /// Standard output.
    Output,
}

impl Item {
    /// Returns whether this is a file in the run's folder.
    pub fn is_in_run(self) -> bool {
        match self {
            Item::Id | Item::Forgotten | Item::Journal(_) | Item::Round => true,
            Item::Record | Item::Known | Item::Words | Item::Runner(_) => true,
            Item::Command(..) | Item::Answers => true,
            Item::Run | Item::List | Item::Sheet | Item::Boot | Item::Random => false,
            Item::Mounts | Item::Handle | Item::Ext4 | Item::Output => false,
        }
    }
}

impl Display for Item {
    ghost output = { λ item. Some (name_of item) };

    fn fmt<W: fmt::Write>(&self, f: &mut Formatter<W>) -> fmt::Result {
        match *self {
            Item::Run => write!(f, "the run's folder"),
            Item::Id => write!(f, "id"),
            Item::Forgotten => write!(f, "forgotten"),
            Item::Journal(worker) => write!(f, "journal.{worker}"),
            Item::Round => write!(f, "lock.round"),
            Item::Record => write!(f, "record"),
            Item::Known => write!(f, "jobs"),
            Item::Words => write!(f, "words"),
            Item::Runner(worker) => write!(f, "runner.{worker}"),
            Item::Command(worker, serial) => write!(f, "command.{worker}.{serial}"),
            Item::Answers => write!(f, "answers"),
            Item::List => write!(f, "the jobs' file"),
            Item::Sheet => write!(f, "the file of answers"),
            Item::Boot => write!(f, "the boot id"),
            Item::Random => write!(f, "/proc/sys/kernel/random/uuid"),
            Item::Mounts => write!(f, "/proc/self/mountinfo"),
            Item::Handle => write!(f, "/proc/self/fdinfo"),
            Item::Ext4 => write!(f, "/proc/fs/ext4"),
            Item::Output => write!(f, "standard output"),
        }
    }
}
