//! How an operator's command is carried out.
ghost use Rattle.std.specs.Prelude.{◌+◌, ◌<◌, [], Some, false, drop, length, IfErr, IfOk, OnErr, OnOk};
ghost use Rattle.amo_operator.specs.Halting.{Halts};
ghost use Rattle.amo_operator.specs.Phase.{Ended, Enters, Probes, Puts, Reports};
ghost use Rattle.amo_operator.specs.Protocol.{decides, ends_as, Lives};
ghost use Rattle.amo_operator.specs.Views.{judged_of, known_of};

use crate::deciding::{Judgement, again_at, judge_all};
use crate::entering::{TRIES, enter};
use crate::halt::Halt;
use crate::host::OperatorHost;
use crate::model::Command;
use crate::probing::{Seen, probe_all};
use crate::reading::read_logs;
use crate::report::{doubts_of, status_of};
use amo_host::Failed;
use amo_run_log::Finding;
use amo_status::EarlyAnswers;
use std::alloc::Global;

/// Carries out an operator's command over a host that has called nothing yet. If an answer is to an
/// attempt that may still run, and none is refused, all locks are released and the command is
/// carried out anew. A worker that begins has its number before it records the outcomes of its
/// earlier attempts, so such an attempt may be over soon.
///
/// The protocol states these rules, and the call keeps them, wherever the process is killed:
///
/// - Nothing is recovered before the folder was checked, and the header, the answers, all journals
///   and the lines were read. None of them may be damaged.
/// - A journal is recovered under its lock and that of its runner, if an attempt is pending in it.
///   The answers are recovered under their lock, and only by a command that appends to them.
/// - An attempt is final only if it was pending in a recovered journal, and the lock of its command
///   was got then. A doubt is recorded of such an attempt alone. Its time is read after that lock
///   was got. `Status` and `Again` record none.
/// - An answer is appended only if it and each other answer of the command is taken, by what was
///   read under the locks. It has the text of its line, and the time of the clock.
/// - The text is printed once, after all locks were released.
///
/// # Errors
/// Each reason of `Halt`: nothing was printed then, and no answer was appended but those before a
/// call that failed.
pub fn run<H: OperatorHost>(host: &mut H, alloc: Global, command: &Command) -> Result<(), Halt>
    requires begins { H.stands host.old (Enters command.now false) }
    ensures done { OnOk result (H.stands host.new (Puts [])) }
    ensures halts { IfErr result (λ halt. Halts (H.stands host.new) command.now halt) }
    ensures lives { Lives (H.stands host.new) }
{
    let mut running = 1;
    for _try in 0..TRIES {
        match run_once(host, alloc, command)? {
            None => return Ok(()),
            Some(number) => running = number,
        }
        host.unlock_all();
        host.pause();
    }
    Err(Halt::Running(running))
}

/// Carries out the command, unless an answer is to an attempt that may still run. Returns the
/// number of the first such answer, from 1.
///
/// # Errors
/// As [`run`], but `Running`.
fn run_once<H: OperatorHost>(
    host: &mut H,
    alloc: Global,
    command: &Command,
) -> Result<Option<usize>, Halt>
    requires begins { H.stands host.old (Enters command.now false) }
    ensures ends { IfOk result (λ running. H.stands host.new (ends_as command.now running)) }
    ensures halts { IfErr result (λ halt. Halts (H.stands host.new) command.now halt) }
    ensures lives { Lives (H.stands host.new) }
{
    enter(host, command)?;
    let survey = read_logs(host, alloc, command)?;
    let seen = probe_all(host, alloc, command, survey)?;
    act(host, alloc, command, &seen)
}

/// Does what is asked for, once all is known.
///
/// # Errors
/// `Host` if a call failed, `Memory`, and each reason for which an answer is refused.
fn act<H: OperatorHost>(
    host: &mut H,
    alloc: Global,
    command: &Command,
    seen: &Seen,
) -> Result<Option<usize>, Halt>
    requires probed { H.stands host.old (Probes command.now (known_of seen.now) []) }
    ensures ends { IfOk result (λ running. H.stands host.new (ends_as command.now running)) }
    ensures halts { IfErr result (λ halt. Halts (H.stands host.new) command.now halt) }
    ensures lives { Lives (H.stands host.new) }
{
    let time = host.read_clock();
    match command {
        Command::Status(form) => {
            let text = status_of(alloc, *form, seen)?;
            if report(host, &text).is_err() {
                return Err(Halt::Host);
            }
            Ok(None)
        }
        Command::Doubts(form) => {
            let text = doubts_of(alloc, *form, seen, time)?;
            if report(host, &text).is_err() {
                return Err(Halt::Host);
            }
            Ok(None)
        }
        Command::Answer(all, quiet) => {
            let judged = judge_all(alloc, seen, *quiet, time, all)?;
            answer(host, command, judged)
        }
        Command::Again => {
            let findings = again_at(alloc, seen, time)?;
            if put_all(host, &findings).is_err() {
                return Err(Halt::Host);
            }
            Ok(None)
        }
    }
}

/// Prints a text. All locks are released before: who reads may take their time.
///
/// # Errors
/// `Failed` if the call failed.
fn report<H: OperatorHost>(host: &mut H, text: &[u8]) -> Result<(), Failed>
    requires reports { H.stands host.old (Reports text.now) }
    ensures done { OnOk result (H.stands host.new (Puts [])) }
    ensures fails { OnErr result (H.stands host.new Ended) }
{
    host.unlock_all();
    host.print(text)
}

/// Appends the answers that are taken, if none comes too early and none is to an attempt that may
/// still run. Returns the number of the first that is to such an attempt.
///
/// # Errors
/// `Early` if answers come too early, and `Host` if a call failed.
fn answer<H: OperatorHost>(
    host: &mut H,
    command: &Command,
    judged: Judgement,
) -> Result<Option<usize>, Halt>
    requires judged { H.stands host.old (decides command.now (Some (judged_of judged))) }
    ensures ends { IfOk result (λ running. H.stands host.new (ends_as command.now running)) }
    ensures halts { IfErr result (λ halt. Halts (H.stands host.new) command.now halt) }
    ensures lives { Lives (H.stands host.new) }
{
    let Judgement {
        fresh,
        early,
        running,
        ..
    } = judged;
    if !early.is_empty() {
        return Err(Halt::Early(EarlyAnswers { answers: early }));
    }
    if running.is_some() {
        return Ok(running);
    }
    match put_all(host, &fresh) {
        Ok(()) => Ok(None),
        Err(_) => Err(Halt::Host),
    }
}

/// Appends these answers, one after the other.
///
/// # Errors
/// `Failed` if a call failed. Those after it are not tried.
fn put_all<H: OperatorHost>(host: &mut H, answers: &[Finding]) -> Result<(), Failed>
    requires puts { H.stands host.old (Puts answers.now) }
    ensures done { OnOk result (H.stands host.new (Puts [])) }
    ensures fails { OnErr result (H.stands host.new Ended) }
{
    for k in 0..answers.len() {
        put(host, answers, k)?;
    }
    Ok(())
}

/// Appends the answer at place k.
///
/// # Errors
/// `Failed` if the call failed.
fn put<H: OperatorHost>(host: &mut H, answers: &[Finding], k: usize) -> Result<(), Failed>
    requires within { k < length answers.now }
    requires puts { H.stands host.old (Puts (drop k answers.now)) }
    ensures put { OnOk result (H.stands host.new (Puts (drop (k + 1) answers.now))) }
    ensures fails { OnErr result (H.stands host.new Ended) }
{
    host.put_answer(answers[k])
}
