//! The commands `work` and `lines` of `amo_worker`: the life of a worker's process over the files of
//! its run, or over the lines of a runner that keeps registers and journals too. Start at [`work`].
#![tactic(auto)]

mod holder;
mod logged_host;
mod remote;
mod worker;

pub use remote::work_by_lines;
pub use worker::work;
