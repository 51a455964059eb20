//! The calls that a log has, and what comes of them.
ghost use Rattle.std.specs.Prelude.{◌≡◌, is_ok};
ghost use Rattle.amo_call_log.specs.Lines.{words_after, words_of_end, words_of_recovery, words_of_reply};

use amo_host::{Failed, LogFile};
use amo_run_log::{Entry, Finding};

/// A call that has a line before it and a line after it.
#[derive(Clone, Copy)]
pub enum Call<'a> {
    /// A process recovers this log.
    Recover(LogFile),
    /// A worker puts this entry into its journal.
    Put(Entry),
    /// A worker notes this entry, which it puts later.
    Owe(Entry),
    /// A worker puts what it has noted so.
    Pay,
    /// A worker reads this log on.
    ReadOn(LogFile),
    /// A worker says this line to its runner.
    Say(&'a [u8]),
    /// A command puts down that the attempt of this serial number is in doubt since this time.
    PutDoubt(u64, u64),
    /// A command puts this answer of an operator.
    PutAnswer(Finding),
}

/// The result of a call, as far as its line shows it.
#[derive(Clone, Copy)]
pub enum Came<'a> {
    /// The call was made.
    Made,
    /// The call has failed.
    Fell,
    /// The journal has these appends.
    Attempts(&'a [Vec<u8>]),
    /// The runner's reply is this line.
    Reply(&'a [u8]),
    /// The runner makes no reply.
    NoReply,
}

/// Returns whether the call was made or has failed.
pub fn ended<'a, T>(done: &Result<T, Failed>) -> Came<'a>
    ensures { words_after result ≡ words_of_end (is_ok done.now) }
{
    match done {
        Ok(_) => Came::Made,
        Err(_) => Came::Fell,
    }
}

/// Returns what came of the recovery of this log: of a journal the appends that it has, and of the
/// answers that it was made.
pub fn recovered<'a>(log: LogFile, appends: &'a Result<Vec<Vec<u8>>, Failed>) -> Came<'a>
    ensures { words_after result ≡ words_of_recovery log appends.now }
{
    match appends {
        Ok(appends) => match log {
            LogFile::Answers => Came::Made,
            LogFile::Journal(_) => Came::Attempts(appends),
        },
        Err(_) => Came::Fell,
    }
}

/// Returns the runner's reply.
pub fn heard<'a>(reply: &'a Result<Option<Vec<u8>>, Failed>) -> Came<'a>
    ensures { words_after result ≡ words_of_reply reply.now }
{
    match reply {
        Ok(Some(line)) => Came::Reply(line),
        Ok(None) => Came::NoReply,
        Err(_) => Came::Fell,
    }
}
