//! The program on the words and the three streams of the system.
ghost use Rattle.std.specs.Prelude.{◌≡◌, ◌≤◌, Some, None, false, map, OnErr, IfOk, string_bytes};
ghost use Rattle.std.specs.Process.{exit_status};
ghost use Rattle.std.specs.Vec.Iter.{into_iter_items};
ghost use Rattle.amo_cli.specs.Endings.{Tells, change};
ghost use Rattle.amo_cli.specs.Statuses.{Ends};
ghost use Rattle.amo_cli.specs.declared.fault.Fault.TheVariants.{NoMemory};

use crate::command::Command;
use crate::fault::Fault;
use crate::telling::refuse;
use crate::words::listed;
use amo_io::{Sink, Source};
use std::alloc::{AllocError, Global};
use std::env::Args;
use std::io;
use std::process::ExitCode;

/// Does a command whose numbers are within their ranges, and returns the exit status of the
/// program. It is 0 if the command was done, 1 if the plan was refused, 3 if memory or a thread was
/// refused, 4 if a read or a write failed. With each but 0 one line is written to `err` and passed
/// on; if that fails, nothing else changes. Neither `reader` nor `out` may have failed. It returns
/// if the command's `R` does.
fn status_of_command<R: Sync, C: Command<R>, S: Source, W: Sink, E: Sink>(
    rt: &R,
    alloc: Global,
    command: &C,
    reader: &mut S,
    out: &mut W,
    err: &mut E,
) -> u8
    requires ranges { C.fits command.now }
    requires reader { S.failed reader.old ≡ false }
    requires out { W.failed out.old ≡ false }
    ensures ends { Ends C.writes C.refuses C.others (Some command.now)
        (change (S.remaining reader.old) (S.remaining reader.new) (S.failed reader.new))
        (change (W.contents out.old) (W.contents out.new) (W.failed out.new)) (W.waiting out.new)
        (change (E.contents err.old) (E.contents err.new) (E.failed err.new)) result }
    ensures passed { result ≡ 0 → W.waiting out.new ≡ false }
    ensures heard { 1 ≤ result → E.failed err.new ≡ false → E.waiting err.new ≡ false }
{
    match command.carry_out(rt, alloc, reader, out) {
        Ok(()) => 0,
        Err(fault) => refuse(alloc, err, fault),
    }
}

/// Does the command that these words ask for, the program's name first, and returns the exit
/// status. It is 2 if the words are no command. Then nothing is read or written to `out`.
fn status_of_words<R: Sync, C: Command<R>, S: Source, W: Sink, E: Sink>(
    rt: &R,
    alloc: Global,
    words: &[String],
    reader: &mut S,
    out: &mut W,
    err: &mut E,
) -> u8
    requires reader { S.failed reader.old ≡ false }
    requires out { W.failed out.old ≡ false }
    ensures ends { Ends C.writes C.refuses C.others (C.asked (map string_bytes words.now))
        (change (S.remaining reader.old) (S.remaining reader.new) (S.failed reader.new))
        (change (W.contents out.old) (W.contents out.new) (W.failed out.new)) (W.waiting out.new)
        (change (E.contents err.old) (E.contents err.new) (E.failed err.new)) result }
    ensures passed { result ≡ 0 → W.waiting out.new ≡ false }
    ensures heard { 1 ≤ result → E.failed err.new ≡ false → E.waiting err.new ≡ false }
    ensures untouched { C.asked (map string_bytes words.now) ≡ None → (reader.new ≡ reader.old) × (out.new ≡ out.old) }
{
    match C::of_words(alloc, words) {
        Ok(command) => status_of_command(rt, alloc, &command, reader, out, err),
        Err(fault) => refuse(alloc, err, fault),
    }
}

/// Does the command of the system's words, the program's name first, and returns the exit status.
/// It returns if the commands' `R` does.
///
/// - 0: the command was done.
/// - 1: the plan was refused.
/// - 2: the words are no command. Nothing is read or written to `out`.
/// - 3: memory or a thread was refused. It is also returned, before anything is read, if the system
///   can't give the words, since memory for them is refused or one of them isn't UTF-8.
/// - 4: a read or a write failed.
///
/// With each but 0 one line is written to `err` and passed on. If that fails, nothing else changes.
/// Neither `reader` nor `out` may have failed before.
pub fn serve_words<R: Sync, C: Command<R>, S: Source, W: Sink, E: Sink>(
    rt: &R,
    alloc: Global,
    words: io::Result<Args>,
    reader: &mut S,
    out: &mut W,
    err: &mut E,
) -> ExitCode
    requires reader { S.failed reader.old ≡ false }
    requires out { W.failed out.old ≡ false }
    ensures ends { IfOk words (λ all. Ends C.writes C.refuses C.others (C.asked (map string_bytes (into_iter_items all)))
        (change (S.remaining reader.old) (S.remaining reader.new) (S.failed reader.new))
        (change (W.contents out.old) (W.contents out.new) (W.failed out.new)) (W.waiting out.new)
        (change (E.contents err.old) (E.contents err.new) (E.failed err.new)) (exit_status result)) }
    ensures passed { exit_status result ≡ 0 → W.waiting out.new ≡ false }
    ensures heard { 1 ≤ exit_status result → E.failed err.new ≡ false → E.waiting err.new ≡ false }
    ensures untouched { IfOk words (λ all. C.asked (map string_bytes (into_iter_items all)) ≡ None
        → (reader.new ≡ reader.old) × (out.new ≡ out.old)) }
    ensures no_words { OnErr words (Tells NoMemory (change (E.contents err.old) (E.contents err.new) (E.failed err.new)) (exit_status result)) }
    ensures no_words_untouched { OnErr words ((reader.new ≡ reader.old) × (out.new ≡ out.old)) }
{
    let status = match words {
        Ok(words) => match listed(alloc, words) {
            Ok(words) => status_of_words::<R, C, S, W, E>(rt, alloc, &words, reader, out, err),
            Err(AllocError) => refuse(alloc, err, Fault::NoMemory),
        },
        Err(_) => refuse(alloc, err, Fault::NoMemory),
    };
    ExitCode::from(status)
}
