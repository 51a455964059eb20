//! The judge of logs of runs: whether a text of events is a run by clearance.
//!
//! Start at [`run_judgement`]. If an event may not follow those before it, the verdict names the
//! first such event and the reason. The theorems stand in the module [`laws`].
#![tactic(auto)]

mod event;
mod journal;
mod judging;
pub mod laws;
mod lines;
mod reading;
mod reason;
mod rules;
mod site;
mod telling;
mod verdict;

pub use event::{Attempt, Event, Handing};
pub use judging::judge_run;
pub use reading::read_log;
pub use reason::{Reason, Verdict};
pub use telling::run_judgement;
pub use verdict::{Refusal, Wrong};
