//! The commands of `amo_show`, and how they are done.
ghost use Rattle.std.specs.Prelude.{◌≡◌, map, string_bytes};
ghost use Rattle.std.specs.Option.{ok_or};
ghost use Rattle.amo_cli.specs.declared.fault.Fault.TheVariants.{NoCommand};
ghost use Rattle.amo_show_commands.specs.Words.{command_asked, option_asked, asked_after_name};

use crate::shown::Shown;
use crate::told::Told;
use amo_cli::{Command, Fault};
use amo_io::{Sink, Source};
use amo_render::{write_of, write_of_bytes};
use amo_state_space::AllWorlds;
use amo_worst_case::Worst;
use std::alloc::Global;

/// A command of `amo_show`.
#[derive(Clone, Copy, Debug, PartialEq, Eq)]
pub enum Show {
    /// Write this text of the run of the plan that is read.
    Run(Shown),
    /// Write the request of the plan that is read, or its fault.
    Explain,
    /// Write the verdict on the history that is read.
    Judge,
    /// Write the verdict on the log of a run that is read.
    JudgeRun,
    /// Write the plan that leaves the fewest jobs of the one that is read performed.
    Worst,
    /// Write the results of all worlds that the jobs and workers of the plan that is read can
    /// reach.
    All,
}

/// Returns the command of one word.
fn command_asked(word: &str) -> Option<Show>
    ensures { result ≡ command_asked word.now }
{
    match word {
        "trace" => Some(Show::Run(Shown::Trace)),
        "picture" => Some(Show::Run(Shown::Picture)),
        "explain" => Some(Show::Explain),
        "judge" => Some(Show::Judge),
        "worst" => Some(Show::Worst),
        "all" => Some(Show::All),
        _ => None,
    }
}

/// Returns the command of a word and its option.
fn option_asked(word: &str, option: &str) -> Option<Show>
    ensures { result ≡ option_asked word.now option.now }
{
    if word == "judge" && option == "--run" {
        return Some(Show::JudgeRun);
    }
    None
}

/// Returns the command of all words of a command line, the program's name first.
fn asked(words: &[String]) -> Option<Show>
    ensures { result ≡ asked_after_name (map string_bytes words.now) }
{
    match words {
        [_, word] => command_asked(word.as_str()),
        [_, word, option] => option_asked(word.as_str(), option.as_str()),
        _ => None,
    }
}

impl<R: Sync> Command<R> for Show {
    ghost use Rattle.amo_show_commands.specs.Words.{asked_after_name};
    ghost use Rattle.amo_show_commands.specs.Shows.{writes, refuses, others, plan_keeps};

    ghost asked = { asked_after_name };

    ghost fits = { λ _. Unit {0} };

    ghost writes = { writes };

    ghost refuses = { refuses };

    ghost others = { others };

    /// Returns the command of the words. It takes no memory, and so never returns `NoMemory`.
    ///
    /// # Errors
    ///
    /// `NoCommand` if the words are no command.
    fn of_words(_alloc: Global, words: &[String]) -> Result<Show, Fault>
        ensures { result ≡ ok_or (asked_after_name (map string_bytes words.now)) NoCommand }
    {
        asked(words).ok_or(Fault::NoCommand)
    }

    #[tactic(auto, using(amo_cli::proofs::Endings::of_text, crate::proofs::Endings::memory_keeps, amo_cli::proofs::Endings::texts_pass))]
    fn carry_out<S: Source, W: Sink>(
        &self,
        _rt: &R,
        alloc: Global,
        reader: &mut S,
        out: &mut W,
    ) -> Result<(), Fault> {
        match self {
            Show::Run(shown) => Ok(write_of(alloc, shown, reader, out)?),
            Show::Explain => Ok(write_of_bytes(alloc, &Told::Explanation, reader, out)?),
            Show::Judge => Ok(write_of_bytes(alloc, &Told::Judgement, reader, out)?),
            Show::JudgeRun => Ok(write_of_bytes(alloc, &Told::RunJudgement, reader, out)?),
            Show::Worst => Ok(write_of(alloc, &Worst, reader, out)?),
            Show::All => Ok(write_of_bytes(alloc, &AllWorlds, reader, out)?),
        }
    }

    ghost plan_keeps = { plan_keeps };
}
