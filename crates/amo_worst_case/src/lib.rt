//! The plan that has the jobs of another and leaves as few of them performed as any schedule and
//! stops can.
//!
//! Start at [`worst_text`]. The module [`laws`] has the theorems: the moves of the plan are such
//! moves, and its schedule is read as these moves.
#![tactic(auto)]

mod answer;
mod counts;
mod jobs;
pub mod laws;
mod quoted;
mod schedule;
mod texts;

pub use answer::{Worst, worst_text};
pub use counts::fewest;
pub use schedule::worst_schedule;
