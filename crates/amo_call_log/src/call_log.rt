//! A log of calls, for tests. The environment variable AMO_CALLS names its file. Each call that
//! decides whether a line is performed twice has a line before it and a line after it. Start with
//! [`begin`]. docs/dev/tests.md explains the lines.
ghost use Rattle.std.specs.Prelude.{◌≡◌, true, false, is_err, is_some, string_bytes, IfOk, OnOk};
ghost use Rattle.std.specs.Io.KnownBytes.{Appends};
ghost use Rattle.amo_call_log.specs.Lines.{line_after, line_before, line_of_begin};

use crate::call::{Call, Came};
use crate::end::End;
use crate::line::{line_after, line_before, line_of_begin};
use amo_host::Failed;
use amo_run_faults::Fault;
use std::alloc::{AllocError, Global};
use std::env::{VarError, var};
use std::fs::{File, OpenOptions};
use std::io::Write;
use std::marker::Model;
use std::os::unix::fs::OpenOptionsExt;
use std::rt::HostRuntime;
use std::{io, process};

/// The environment variable that names the file.
pub const VARIABLE: &str = "AMO_CALLS";

/// A log of calls. Other processes append to its file at the same time. Contracts see the writer,
/// the process with its worker, and whether a line could not be written.
#[derive(Drop)]
pub struct CallLog<W> {
    alloc: Global,
    out: W,
    process: u32,
    /// The number of the worker that calls; 0 for an operator's command.
    worker: u64,
    /// Why a line could not be written. The log has a gap then, and the process ends.
    failure: Option<End>,
}

impl<W> Model for CallLog<W> {
    ghost use Rattle.std.specs.Prelude.{is_some};
    ghost use Rattle.amo_call_log.specs.Seen.{LogSeen};

    ghost Value = { LogSeen W };

    ghost view = { λ log. record { out = log.out; process = log.process; worker = log.worker; has_failed = is_some log.failure } };
}

impl<W: Write + Drop> CallLog<W> {
    /// Appends the line of a process that begins, of this worker of this run, by one call of the
    /// writer. Returns the log over the writer.
    ///
    /// # Errors
    /// `Log` if the line can't be written, and `Memory`.
    pub fn over(
        alloc: Global,
        out: W,
        process: u32,
        worker: u64,
        run: &str,
    ) -> Result<CallLog<W>, End>
        ensures line { IfOk result (λ log. Appends (W.contents out) (W.contents log.out) (line_of_begin process worker run.now)) }
        ensures begun { IfOk result (λ log. log ≡ record { out = log.out; process = process; worker = worker; has_failed = false }) }
    {
        let line = line_of_begin(alloc, process, worker, run)?;
        let mut out = out;
        append(&mut out, line.as_bytes())?;
        Ok(CallLog {
            alloc,
            out,
            process,
            worker,
            failure: None,
        })
    }

    /// Appends the line before this call, by one call of the writer.
    ///
    /// # Errors
    /// `Failed` if the line can't be written, or if an earlier one couldn't be: then the log stays
    /// as it is. `take_failure` says why.
    pub fn before(&mut self, call: Call<'_>) -> Result<(), Failed>
        ensures line { OnOk result (Appends (W.contents self.old.out) (W.contents self.new.out) (line_before self.old.process self.old.worker call.entry)) }
        ensures fails { is_err result ≡ self.new.has_failed }
        ensures stays { self.old.has_failed ≡ true → self.new ≡ self.old }
        ensures process { self.new.process ≡ self.old.process }
        ensures worker { self.new.worker ≡ self.old.worker }
    {
        if self.failure.is_some() {
            return Err(Failed);
        }
        let line = line_before(self.alloc, self.process, self.worker, call);
        self.append(line)
    }

    /// Appends the line after this call, by which it is said what came of it, by one call of the
    /// writer.
    ///
    /// # Errors
    /// `Failed` if the line can't be written, or if an earlier one couldn't be: then the log stays
    /// as it is. `take_failure` says why.
    pub fn after(&mut self, call: Call<'_>, came: Came<'_>) -> Result<(), Failed>
        ensures line { OnOk result (Appends (W.contents self.old.out) (W.contents self.new.out) (line_after self.old.process self.old.worker call.entry came.entry)) }
        ensures fails { is_err result ≡ self.new.has_failed }
        ensures stays { self.old.has_failed ≡ true → self.new ≡ self.old }
        ensures process { self.new.process ≡ self.old.process }
        ensures worker { self.new.worker ≡ self.old.worker }
    {
        if self.failure.is_some() {
            return Err(Failed);
        }
        let line = line_after(self.alloc, self.process, self.worker, call, came);
        self.append(line)
    }

    /// Appends a line, and remembers why it could not be written, if it couldn't be.
    fn append(&mut self, line: Result<String, AllocError>) -> Result<(), Failed>
        ensures line { OnOk result (IfOk line (λ line. Appends (W.contents self.old.out) (W.contents self.new.out) (string_bytes line))) }
        ensures made { OnOk result (is_err line ≡ false) }
        ensures fails { is_err result ≡ true → self.new.has_failed ≡ true }
        ensures passes { is_err result ≡ false → self.new.has_failed ≡ self.old.has_failed }
        ensures process { self.new.process ≡ self.old.process }
        ensures worker { self.new.worker ≡ self.old.worker }
    {
        let appended = match line {
            Ok(line) => append(&mut self.out, line.as_bytes()),
            Err(AllocError) => Err(End::Fault(Fault::Memory)),
        };
        match appended {
            Ok(()) => Ok(()),
            Err(end) => {
                self.failure = Some(end);
                Err(Failed)
            }
        }
    }

    /// Returns why a line could not be written, if one couldn't be, and forgets it.
    pub fn take_failure(&mut self) -> Option<End>
        ensures taken { is_some result ≡ self.old.has_failed }
        ensures forgotten { self.new ≡ record self.old { has_failed = false } }
    {
        self.failure.take()
    }
}

/// Appends a line by one call. Its line feed comes first and its dot last. So the line of a process
/// that was killed within the call is known by its lack of a dot.
fn append<W: Write>(out: &mut W, line: &[u8]) -> Result<(), End>
    ensures { OnOk result (Appends (W.contents out.old) (W.contents out.new) line.now) }
{
    if out.write(line)? < line.len() {
        return Err(End::Log(io::Error::from(io::ErrorKind::WriteZero)));
    }
    Ok(())
}

/// Opens the log that the environment names, for this worker of this run. Returns `None` if the
/// environment names no log.
///
/// # Errors
/// `Log` if the log can't be opened or written, and `Memory`.
pub fn begin(rt: HostRuntime, worker: u64, run: &str) -> Result<Option<CallLog<File>>, End> {
    let Some(path) = path_of(rt)? else {
        return Ok(None);
    };
    let mut options = OpenOptions::new();
    options.append(true).create(true).mode(0o600);
    let file = options.open(&rt, path.as_str())?;
    let process = process::id(rt.process());
    Ok(Some(CallLog::over(rt.alloc(), file, process, worker, run)?))
}

/// Returns the path that the environment names, if it names one.
fn path_of(rt: HostRuntime) -> Result<Option<String>, End> {
    match var(&rt, VARIABLE) {
        Ok(path) => Ok(Some(path)),
        Err(VarError::NotPresent) => Ok(None),
        Err(VarError::OutOfMemory) => Err(End::Fault(Fault::Memory)),
        Err(VarError::NotUnicode) => {
            Err(End::Log(io::Error::from(io::ErrorKind::InvalidFilename)))
        }
    }
}
