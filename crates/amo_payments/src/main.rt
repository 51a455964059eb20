//! The program `amo_payments`: it makes the payments of a day, each at most once.
//!
//! `amo_payments JOURNAL BANK < DAY` reads them from standard input, keeps their journal in the
//! file JOURNAL, and writes to standard output what became of each. BANK is a file that stands for
//! a bank: each payment that is given adds a line to it. The work itself is in
//! `amo_example_payments`.
#![tactic(auto)]

ghost use Rattle.std.specs.Prelude.{◌≡◌, ◌≤◌};
ghost use Rattle.std.specs.Io.KnownBytes.{Keeps};
ghost use Rattle.std.specs.Process.{exit_status};
ghost use Rattle.amo_journal.specs.Journal.{MayRecover};
ghost use Rattle.amo_example_payments.specs.Reports.{IsServed, IsBegun};

use amo_example_payments::serve;
use amo_fs::{FileDevice, open_existing, sync_folder};
use amo_journal::Device;
use amo_system_calls::{LockMode, Mode, Os, SystemCalls};
use std::alloc::Global;
use std::fs::{File, OpenOptions};
use std::io::{Read, Write};
use std::os::unix::fs::OpenOptionsExt;
use std::process::ExitCode;
use std::rt::HostRuntime;
use std::sync::Wait;
use std::thread::Threads;
use std::time::Clock;
use std::{env, fs};

/// Why no day is begun.
#[derive(Debug, Drop)]
enum Refusal {
    /// A standard stream is closed: the first file that is opened would take its place, and a
    /// report come into the journal.
    Streams,
    /// There are other words than two files.
    Words,
    /// The journal can't be opened, locked or read, or its folder can't be synced.
    Journal,
    /// Another process has the journal.
    Held,
    /// The file that stands for the bank can't be opened.
    Bank,
}

/// Serves a day on these streams and files, and returns the program's exit status. It is 0 if all
/// of its report was written. Otherwise it is 1, after a line of the fault to `err`. If this line
/// can't be written, nothing else changes.
fn serve_streams<
    B: Read,
    D: Device + Drop + Send,
    S: Write + Drop + Send,
    O: Write,
    E: Write,
    R: Threads + Wait + Clock + Sync,
>(rt: &R, alloc: Global, input: &mut B, device: D, orders: S, out: &mut O, err: &mut E) -> ExitCode
    requires { MayRecover D.seen D.may_leave D.stale device }
    ensures whole { exit_status result ≡ 0 → IsServed (B.remaining input.old) (D.seen device) (O.contents out.old) (O.contents out.new) }
    ensures silent { exit_status result ≡ 0 → Keeps (E.contents err.old) (E.contents err.new) }
    ensures front { 1 ≤ exit_status result → IsBegun (B.remaining input.old) (D.seen device) (O.contents out.old) (O.contents out.new) }
    ensures status { exit_status result ≤ 1 }
{
    match serve(rt, alloc, input, device, orders, out) {
        Ok(_) => ExitCode::SUCCESS,
        Err(fault) => {
            let _ = writeln!(err, "fault {fault:?}");
            ExitCode::FAILURE
        }
    }
}

/// Returns true if the standard streams are open, all three.
fn has_streams(rt: HostRuntime) -> bool {
    let streams = ["/proc/self/fd/0", "/proc/self/fd/1", "/proc/self/fd/2"];
    streams
        .iter()
        .all(|path| fs::symlink_metadata(&rt, path).is_ok())
}

/// Returns the two words after the program's name.
fn two_words(rt: HostRuntime) -> Option<(String, String)> {
    let mut words = env::args(&rt).ok()?;
    let _ = words.next()?;
    let journal = words.next()?;
    let bank = words.next()?;
    if words.next().is_some() {
        return None;
    }
    Some((journal, bank))
}

/// Returns the folder of a path.
fn folder_of(path: &str) -> &str {
    match path.rsplit_once('/') {
        Some(("", _)) => "/",
        Some((folder, _)) => folder,
        None => ".",
    }
}

/// Opens the journal, and makes it if it is missing. Takes its lock, which is kept until the
/// process ends.
fn open_journal(rt: HostRuntime, path: &str) -> Result<FileDevice, Refusal> {
    let mut system = Os::new(rt);
    let opened = open_existing(&mut system, path, Mode::MakeOrReadWrite);
    let file = opened.map_err(|_| Refusal::Journal)?;
    let locked = system.try_lock(&file, LockMode::Exclusive);
    if !locked.map_err(|_| Refusal::Journal)? {
        return Err(Refusal::Held);
    }
    // A process that made the file may have been killed before the file's name was on the disk.
    sync_folder(&mut system, folder_of(path)).map_err(|_| Refusal::Journal)?;
    FileDevice::open(rt.alloc(), file).map_err(|_| Refusal::Journal)
}

/// Opens the file that stands for a bank, to write at its end.
fn open_bank(rt: HostRuntime, path: &str) -> Result<File, Refusal> {
    let mut options = OpenOptions::new();
    options.append(true).create(true).mode(0o600);
    options.open(&rt, path).map_err(|_| Refusal::Bank)
}

/// Returns the files that the words name.
fn open_files(rt: HostRuntime) -> Result<(FileDevice, File), Refusal> {
    if !has_streams(rt) {
        return Err(Refusal::Streams);
    }
    let (journal, bank) = two_words(rt).ok_or(Refusal::Words)?;
    let device = open_journal(rt, journal.as_str())?;
    Ok((device, open_bank(rt, bank.as_str())?))
}

fn main(rt: HostRuntime) -> ExitCode {
    let mut err = rt.stderr();
    let (device, orders) = match open_files(rt) {
        Ok(files) => files,
        Err(refusal) => {
            let _ = writeln!(err, "fault {refusal:?}");
            return ExitCode::FAILURE;
        }
    };
    let mut input = rt.stdin();
    let mut out = rt.stdout();
    serve_streams(
        &rt,
        rt.alloc(),
        &mut input,
        device,
        orders,
        &mut out,
        &mut err,
    )
}
