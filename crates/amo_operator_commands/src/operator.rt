//! The commands of an operator, over the files of a run.
use crate::logged_files::LoggedFiles;
use amo_call_log::{End, begin};
use amo_fs::read_existing;
use amo_host_parts::item_of_log;
use amo_operator::{Command, Halt, run};
use amo_operator_files::OperatorFiles;
use amo_run_dir::Age;
use amo_run_faults::{Fault, Item, Later, Setting, had};
use amo_run_log::Fault as Misread;
use amo_status::{EarlyAnswers, Said, read_answers, read_one};
use amo_system_calls::Os;
use std::rt::HostRuntime;

/// Carries out an operator's command on a run. `age` says how its folder was made.
///
/// # Errors
/// The fault of the call that failed, or of what the run has written down, or of an answer that is
/// refused. `Later` if another process is answering, or an answer is to an attempt that may still
/// run. `Log` if the log of calls has failed.
pub fn carry_out(
    rt: HostRuntime,
    setting: &Setting<'_>,
    age: Age,
    command: &Command,
) -> Result<(), End> {
    let log = begin(rt, 0, setting.run)?;
    let mut files = LoggedFiles::new(OperatorFiles::new(rt, setting, age), log);
    let ran = run(&mut files, rt.alloc(), command);
    ended(ran, &mut files)
}

/// Returns how a command ends that has called all that it calls.
fn ended(ran: Result<(), Halt>, files: &mut LoggedFiles<'_>) -> Result<(), End> {
    if let Some(end) = files.take_failure() {
        return Err(end);
    }
    match ran {
        Ok(()) => Ok(()),
        Err(halt) => Err(End::Fault(fault_of(halt, files))),
    }
}

/// Returns the fault that a halt comes to.
fn fault_of(halt: Halt, files: &mut LoggedFiles<'_>) -> Fault {
    match halt {
        Halt::Host => files.inner.take_fault().unwrap_or(Fault::NoWay),
        Halt::Memory => Fault::Memory,
        Halt::Held => Fault::Later(Later::Answering),
        Halt::Entry(log, number) => Fault::Entry(item_of_log(log), number),
        Halt::Misplaced(number) => Fault::Entry(Item::Answers, number),
        Halt::OtherText(number) => Fault::NoAnswerOf(number),
        Halt::Refused(number, why) => Fault::Answer(number, why),
        Halt::Early(early) => early_fault(early),
        Halt::Running(number) => Fault::Later(Later::Running(number)),
    }
}

/// Returns the fault of answers that come too early.
fn early_fault(early: EarlyAnswers) -> Fault {
    if early.are_timed() {
        Fault::Early(early)
    } else {
        Fault::Untimed(early)
    }
}

/// Returns the answer that the words of a command line give.
///
/// # Errors
/// `NoAnswerOf` if it can't be read, and `Memory`.
pub fn said_by(
    rt: HostRuntime,
    intent: &str,
    line: &str,
    text: &str,
    verdict: &str,
) -> Result<Vec<Said>, Fault> {
    let Some((intent, line, verdict)) = read_one(intent, line, verdict) else {
        return Err(Fault::NoAnswerOf(1));
    };
    let said = Said {
        worker: intent.worker,
        serial: intent.serial,
        line,
        text: text.as_bytes().to_vec(rt.alloc())?,
        verdict,
    };
    Ok(vec![in rt.alloc(); said]?)
}

/// Returns the answers that the file of this path gives, a line each.
///
/// # Errors
/// `Read` if the file can't be read, `NoAnswerOf` for the first line that is invalid, and `Memory`.
pub fn said_in(rt: HostRuntime, sheet: &str) -> Result<Vec<Said>, Fault> {
    let bytes = had(Item::Sheet, read_existing(&mut Os::new(rt), sheet))?;
    match read_answers(rt.alloc(), &bytes) {
        Ok(all) => Ok(all),
        Err(Misread::Memory) => Err(Fault::Memory),
        Err(Misread::Refused(number)) => Err(Fault::NoAnswerOf(number)),
    }
}
