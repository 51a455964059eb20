//! The program `amo`: it reads a plan from standard input, and writes one text about it.
//!
//! - `amo replay`: the report of the plan's replay.
//! - `amo run`: the outcome of its jobs, performed by workers in threads.
//! - `amo check`: its check text.
//! - `amo explore FROM COUNT LENGTH`: the results of numbered schedules of one length.
//! - `amo stops P`: the results of a stop of worker P after each of its first moves.
#![tactic(auto)]

use amo_cli::serve_words;
use amo_commands::AmoCommand;
use amo_io::Streamed;
use std::process::ExitCode;

fn main(rt: HostRuntime) -> ExitCode {
    let words = std::env::args(&rt);
    let mut reader = Streamed::new(rt.stdin());
    let mut out = Streamed::new(rt.stdout());
    let mut err = Streamed::new(rt.stderr());
    serve_words::<_, AmoCommand, _, _, _>(&rt, rt.alloc(), words, &mut reader, &mut out, &mut err)
}
