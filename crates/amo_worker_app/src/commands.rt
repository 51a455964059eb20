//! The whole program: its commands, its messages, and the statuses with which it ends.
use amo_call_log::{End, VARIABLE};
use amo_dir_admission_files::{enter, look_at_folder, look_to_read, look_to_write, open};
use amo_operator::Command;
use amo_operator_commands::{carry_out, said_by, said_in};
use amo_run_dir::Age;
use amo_run_faults::{Fault, Item, ListSettings, Setting, written};
use amo_run_views::{follow, show_damage};
use amo_status::{Counts, Said, status_text};
use amo_work_commands::{work, work_by_lines};
use amo_worker_args::{Misuse, Request, asked};
use clap::Error;
use std::alloc::AllocError;
use std::env::Args;
use std::io;
use std::io::Write;
use std::process::ExitCode;
use std::rt::HostRuntime;

/// Carries out a command line, the program's name first. The status is 0 if it was done, 64 for a
/// usage error, else that of the fault. A fault is a line on standard error, with object, problem
/// and remedy.
pub fn serve(rt: HostRuntime, words: io::Result<Args>) -> ExitCode {
    let status = match words {
        Ok(words) => match listed(rt, words) {
            Ok(words) => serve_words(rt, &words),
            Err(AllocError) => tell_fault(rt, &Fault::Memory),
        },
        Err(_) => tell_fault(rt, &Fault::Memory),
    };
    ExitCode::from(status)
}

fn listed(rt: HostRuntime, words: Args) -> Result<Vec<String>, AllocError> {
    let mut list = Vec::new(rt.alloc());
    for word in words {
        list.push(word)?;
    }
    Ok(list)
}

fn texts_of<'a>(rt: HostRuntime, words: &'a [String]) -> Result<Vec<&'a str>, AllocError> {
    let mut texts = Vec::new(rt.alloc());
    for word in words {
        texts.push(word.as_str())?;
    }
    Ok(texts)
}

/// Prints a fault that is about no file, and returns its status.
fn tell_fault(rt: HostRuntime, fault: &Fault) -> u8 {
    let _ = eprintln!(rt; "amo_worker: {fault}");
    fault.status()
}

/// Returns the file outside of the run's folder that a request names, if it names one: the list, or
/// the file of answers.
fn file_of<'a>(request: &Request<'a>) -> &'a str {
    match request {
        Request::Door(jobs, _) => jobs.list,
        Request::Work(jobs, _) => jobs.list,
        Request::AnswerFrom(sheet, _) => *sheet,
        _ => "",
    }
}

/// Prints a fault with the path that it is about, and returns its status.
fn tell_fault_of(rt: HostRuntime, setting: &Setting<'_>, file: &str, fault: &Fault) -> u8 {
    let (run, boot) = (setting.run, setting.boot);
    match fault.item() {
        Some(item) if !run.is_empty() => match item {
            Item::Run => {
                let _ = eprintln!(rt; "amo_worker: folder `{run}`: {fault}");
            }
            Item::List => {
                let _ = eprintln!(rt; "amo_worker: list `{file}`: {fault}");
            }
            Item::Sheet => {
                let _ = eprintln!(rt; "amo_worker: answers `{file}`: {fault}");
            }
            Item::Boot => {
                let _ = eprintln!(rt; "amo_worker: boot id `{boot}`: {fault}");
            }
            _ if item.is_in_run() => {
                let _ = eprintln!(rt; "amo_worker: `{run}/{item}`: {fault}");
            }
            Item::Output => {
                let _ = eprintln!(rt; "amo_worker: {item}: {fault}");
            }
            _ => {
                let _ = eprintln!(rt; "amo_worker: `{item}`: {fault}");
            }
        },
        _ => {
            let _ = eprintln!(rt; "amo_worker: {fault}");
        }
    }
    fault.status()
}

fn serve_words(rt: HostRuntime, words: &[String]) -> u8 {
    let Ok(texts) = texts_of(rt, words) else {
        return tell_fault(rt, &Fault::Memory);
    };
    match asked(rt.alloc(), &texts) {
        Ok((setting, request)) => {
            let file = file_of(&request);
            match done(rt, &setting, request) {
                Ok(()) => 0,
                Err(End::Fault(fault)) => tell_fault_of(rt, &setting, file, &fault),
                Err(End::Log(error)) => tell_log(rt, &error),
            }
        }
        Err(misuse) => tell_misuse(rt, &misuse),
    }
}

/// Prints that the log of calls can't be written, and returns the status.
fn tell_log(rt: HostRuntime, error: &io::Error) -> u8 {
    let _ = eprintln!(rt;
        "amo_worker: `{VARIABLE}`: cannot be written: {error}; name a file that can be written, or unset the variable"
    );
    73
}

/// Prints why a command line is no request, or the help that it asks for, and returns the status.
fn tell_misuse(rt: HostRuntime, misuse: &Misuse) -> u8 {
    match misuse {
        Misuse::Memory => return tell_fault(rt, &Fault::Memory),
        Misuse::Words(error) => return tell_words(rt, error),
        Misuse::Number(name, low, high) => {
            let _ = eprintln!(rt;
                "amo_worker: `{name}`: it must be a whole number from {low} to {high}; see amo_worker --help"
            );
        }
        Misuse::Word(name, what) => {
            let _ = eprintln!(rt; "amo_worker: `{name}`: it must be {what}; see amo_worker --help");
        }
        Misuse::Protocol => {
            let _ = eprintln!(rt;
                "amo_worker: `--protocol`: it must be 2, since a runner of protocol 1 doesn't answer `clear`; see docs/guide/stores.md, then give --protocol 2"
            );
        }
    }
    64
}

/// Prints the help that was requested, or the fault of the words, and returns the status.
fn tell_words(rt: HostRuntime, error: &Error) -> u8 {
    let mut shown = error.print(&rt);
    if error.exit_code() != 0 {
        return 64;
    }
    if shown.is_ok() {
        shown = rt.stdout().flush();
    }
    match written(Item::Output, shown) {
        Ok(()) => 0,
        Err(fault) => {
            let _ = eprintln!(rt; "amo_worker: {}: {fault}", Item::Output);
            fault.status()
        }
    }
}

/// Does a request.
fn done(rt: HostRuntime, setting: &Setting<'_>, request: Request<'_>) -> Result<(), End> {
    match request {
        Request::Door(jobs, into) => ended(open(rt, setting, &jobs, into)),
        Request::Work(jobs, worker) => work_and_tell(rt, setting, &jobs, worker),
        Request::Lines(asked) => ended(work_by_lines(rt, asked)),
        Request::Damaged => ended(show_folder(rt, setting)),
        Request::Follow(is_once) => ended(follow_folder(rt, setting, is_once)),
        Request::Status(form) => look(rt, setting, &Command::Status(form)),
        Request::Doubts(form) => look(rt, setting, &Command::Doubts(form)),
        Request::Answer(intent, line, text, verdict, quiet) => {
            ended(look_to_write(rt, setting))?;
            answer(rt, setting, said_by(rt, intent, line, text, verdict), quiet)
        }
        Request::AnswerFrom(sheet, quiet) => {
            ended(look_to_write(rt, setting))?;
            answer(rt, setting, said_in(rt, sheet), quiet)
        }
        Request::Again => again(rt, setting),
    }
}

/// Returns how a command ends that keeps no log of calls.
fn ended(done: Result<(), Fault>) -> Result<(), End> {
    match done {
        Ok(()) => Ok(()),
        Err(fault) => Err(End::Fault(fault)),
    }
}

/// Runs a worker, and prints on standard error how all lines stand once none is open.
fn work_and_tell(
    rt: HostRuntime,
    setting: &Setting<'_>,
    jobs: &ListSettings<'_>,
    worker: u64,
) -> Result<(), End> {
    enter(rt, setting)?;
    let counts = work(rt, setting, jobs, worker)?;
    ended(tell_all_done(rt, &counts))
}

/// Prints what can be read of a run that is refused.
fn show_folder(rt: HostRuntime, setting: &Setting<'_>) -> Result<(), Fault> {
    look_at_folder(rt, setting)?;
    show_damage(rt, setting)
}

/// Prints how a run stands, again and again.
fn follow_folder(rt: HostRuntime, setting: &Setting<'_>, is_once: bool) -> Result<(), Fault> {
    if look_to_read(rt, setting)? == Age::Old {
        return Err(Fault::OldRun);
    }
    follow(rt, setting, is_once)
}

/// Carries out a command that only looks at the run, or records what is in doubt.
fn look(rt: HostRuntime, setting: &Setting<'_>, command: &Command) -> Result<(), End> {
    let age = look_to_read(rt, setting)?;
    carry_out(rt, setting, age, command)
}

/// Opens untouched lines again.
fn again(rt: HostRuntime, setting: &Setting<'_>) -> Result<(), End> {
    look_to_write(rt, setting)?;
    carry_out(rt, setting, Age::Now, &Command::Again)
}

/// Takes these answers, if they could be read.
fn answer(
    rt: HostRuntime,
    setting: &Setting<'_>,
    said: Result<Vec<Said>, Fault>,
    quiet: Option<u64>,
) -> Result<(), End> {
    carry_out(rt, setting, Age::Now, &Command::Answer(said?, quiet))
}

/// Prints on standard error that no line is open, with the counts.
fn tell_all_done(rt: HostRuntime, counts: &Counts) -> Result<(), Fault> {
    let text = status_text(rt.alloc(), counts, &[], &[], &[])?;
    let mut lines = text.as_slice().split(|b| *b == b'\n');
    let line = std::str::from_utf8(lines.next().unwrap_or(b"")).unwrap_or("");
    let _ = eprintln!(rt; "amo_worker: all done: {line}");
    Ok(())
}
