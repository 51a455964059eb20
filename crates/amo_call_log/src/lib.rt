//! A log of calls on files and pipes, for tests: a host notes each call before and after it. Start
//! with [`begin`] and [`CallLog`].
#![tactic(auto)]

mod call;
mod call_log;
mod end;
mod line;
mod shown;

pub use call::{Call, Came, ended, heard, recovered};
pub use call_log::{CallLog, VARIABLE, begin};
pub use end::End;
