//! The work of the program, over any source and any two sinks.
ghost use Rattle.std.specs.Prelude.{◌≡◌, map, string_bytes, IfOk};

use amo_args::{Request, asked};
use amo_cli::{Command, Fault};
use amo_io::{Sink, Source};
use amo_render::write_of;
use amo_run_plan::{Started, run_plan};
use std::alloc::{AllocError, Global};
use std::sync::Wait;
use std::thread::Threads;

/// Returns the texts of the words.
fn texts_of<'a>(alloc: Global, words: &'a [String]) -> Result<Vec<&'a str>, AllocError>
    ensures { IfOk result (λ texts. map (λ t. t.now) texts.items ≡ map string_bytes words.now) }
{
    let mut texts = Vec::with_capacity(alloc, words.len())?;
    for word in words {
        texts.push(word.as_str())?;
    }
    Ok(texts)
}

/// A command of `amo`: it does what a request asks for. The implementation of `Command` must stand
/// in the crate of this type, and it needs the executor, which `Request` does without.
#[derive(Clone, Copy, Debug, PartialEq, Eq)]
pub struct AmoCommand {
    /// The request that it fulfils.
    pub request: Request,
}

impl<R: Threads + Wait + Sync> Command<R> for AmoCommand {
    ghost use Rattle.amo_commands.specs.Requests.{asked_command, IsWithinRanges, writes, refuses, others, plan_keeps};

    ghost asked = { asked_command };

    ghost fits = { IsWithinRanges };

    ghost writes = { writes };

    ghost refuses = { refuses };

    ghost others = { others };

    fn of_words(alloc: Global, words: &[String]) -> Result<AmoCommand, Fault> {
        let texts = texts_of(alloc, words)?;
        let rest = texts.get(1..).unwrap_or(&[]);
        let request = asked(alloc, rest)?;
        Ok(AmoCommand { request })
    }

    /// Texts are written by calls that are proved to return.
    #[tactic(auto, using(amo_cli::proofs::Endings::of_text, crate::proofs::Endings::memory_keeps, amo_cli::proofs::Endings::texts_pass))]
    fn carry_out<S: Source, W: Sink>(
        &self,
        rt: &R,
        alloc: Global,
        reader: &mut S,
        out: &mut W,
    ) -> Result<(), Fault> {
        match self.request {
            Request::Write(wanted) => Ok(write_of(alloc, &wanted, reader, out)?),
            Request::Run => match run_plan(rt, alloc, reader, out)? {
                Started::All => Ok(()),
                Started::NotAll => Err(Fault::Thread),
            },
        }
    }

    ghost plan_keeps = { plan_keeps };
}
