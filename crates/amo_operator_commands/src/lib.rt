//! The commands `status`, `doubts`, `answer` and `again` of `amo_worker`, over the files of a run.
//! Start at [`carry_out`].
#![tactic(auto)]

mod logged_files;
mod operator;

pub use operator::{carry_out, said_by, said_in};
