//! The program `amo_show`: it reads a plan, a history or a log from standard input, and writes one
//! text about it.
//!
//! - `amo_show trace`: a line for each move of the plan's run.
//! - `amo_show picture`: a picture of the run.
//! - `amo_show explain`: the plan's request, or its fault.
//! - `amo_show worst`: the plan that leaves the fewest of its jobs performed.
//! - `amo_show all`: the results of all orders of turns and stops.
//! - `amo_show judge`: whether a history is a run; with `--run` whether a log of a run is one.
#![tactic(auto)]

use amo_cli::serve_words;
use amo_io::Streamed;
use amo_show_commands::Show;
use std::process::ExitCode;

fn main(rt: HostRuntime) -> ExitCode {
    let words = std::env::args(&rt);
    let mut reader = Streamed::new(rt.stdin());
    let mut out = Streamed::new(rt.stdout());
    let mut err = Streamed::new(rt.stderr());
    serve_words::<_, Show, _, _, _>(&rt, rt.alloc(), words, &mut reader, &mut out, &mut err)
}
