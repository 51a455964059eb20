//! The commands of a program over plans.
ghost use denote.Param.Send.{IsSync};
ghost use Rattle.std.specs.Prelude.{◌≡◌, ◌≢◌, ℕ, List, Option, Some, OnOk, IfOk, IfErr, false, map, string_bytes};
ghost use Rattle.std.specs.Io.KnownBytes.{Keeps};
ghost use Rattle.amo_plan.specs.declared.fault.PlanFault.{PlanFault};
ghost use Rattle.amo_render.specs.declared.writing.ReplayFault.{ReplayFault};
ghost use Rattle.amo_render.specs.declared.writing.ReplayFault.TheVariants.{Plan, NoMemory};
ghost use Rattle.amo_cli.specs.Endings.{change};
ghost use Rattle.amo_cli.specs.Statuses.{Left, IsAsked, IsDone, IsFault, IsPassedOn};

use crate::fault::Fault;
use amo_io::{Sink, Source};
use std::alloc::Global;

/// A command of a program, which reads a plan and writes one text. `R` gives it threads: a command
/// that starts no thread takes any type.
pub trait Command<R: Sync>: Drop + Sized {
    /// The command of all words of a command line, the program's name first, or nothing if they are
    /// no command.
    ghost asked: { List (List ℕ) → Option Self };

    /// Its numbers are within their ranges.
    ghost fits: { Self → Type 0 };

    /// Its effect on the streams if it is done.
    ghost writes: { Self → Left };

    /// Its effect on the streams if a fault of its text came.
    ghost refuses: { Self → ReplayFault → Left };

    /// Its effect on the streams if a thread was refused.
    ghost others: { Self → Left };

    /// Returns the command of these words, the program's name first.
    ///
    /// # Errors
    ///
    /// `NoCommand` if the words are no command with numbers within their ranges. `NoMemory` if
    /// memory was refused.
    fn of_words(alloc: Global, words: &[String]) -> Result<Self, Fault>
        ensures answer { IsAsked (asked (map string_bytes words.now)) result }
        ensures ranges { IfOk result (λ c. fits c) };

    /// Does the command. This method has the bound that threads may share `R`, since a trait's
    /// method can't get it from elsewhere.
    fn carry_out<S: Source, W: Sink>(
        &self,
        rt: &R,
        alloc: Global,
        reader: &mut S,
        out: &mut W,
    ) -> Result<(), Fault>
        requires shared { IsSync R.row }
        requires ranges { fits self.now }
        requires reader { S.failed reader.old ≡ false }
        requires out { W.failed out.old ≡ false }
        ensures done { OnOk result (IsDone writes (Some self.now)
            (change (S.remaining reader.old) (S.remaining reader.new) (S.failed reader.new))
            (change (W.contents out.old) (W.contents out.new) (W.failed out.new))) }
        ensures passed { OnOk result (W.waiting out.new ≡ false) }
        ensures fault { IfErr result (λ fault. IsFault refuses others fault (Some self.now)
            (change (S.remaining reader.old) (S.remaining reader.new) (S.failed reader.new))
            (change (W.contents out.old) (W.contents out.new) (W.failed out.new))) }
        ensures passed_on { IfErr result (λ fault. IsPassedOn fault (W.waiting out.new)) };

    /// Nothing was written if the plan was refused.
    ghost plan_keeps: { (c : Self) (f : PlanFault) (known old new : Option (List ℕ)) → refuses c (Plan f) known old new → Keeps old new };
}
