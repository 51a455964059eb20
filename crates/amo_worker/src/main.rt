//! The program `amo_worker`: one worker's process of a run.
//!
//! `amo_worker work RUN P --workers M JOBS` lives as worker P over the folder RUN. Its partner, on
//! standard input and output, performs each line of JOBS at most once. `door` makes the folder
//! before that. `status`, `doubts`, `answer` and `again` are for persons.
#![tactic(auto)]

use amo_worker_app::serve;
use std::process::ExitCode;

fn main(rt: HostRuntime) -> ExitCode {
    serve(rt, std::env::args(&rt))
}
