//! The texts of the commands `amo replay`, `check`, `explore` and `stops`, as functions of a plan.
//!
//! Start at [`replay`], which leads from the bytes of a plan to those of its report, over any
//! source and sink of `amo_io`. The other functions return one text each.
//!
//! | here | in the glossary |
//! |---|---|
//! | p | a worker |
#![tactic(auto)]

mod checking;
mod explorer;
pub mod laws;
mod replaying;
mod report;
mod running;
mod stops;
mod summary;
mod wanted;

pub use amo_io::{Bytes, Failed, ReadFault, Room, Sink, Source, Streamed, write_all};
pub use amo_plan::{MOST_COUNT, MOST_FIRST, MOST_TURNS};
pub use amo_render::{MOST_READ, ReplayFault, fault_text, read_all};
pub use checking::check_text;
pub use explorer::explore;
pub use replaying::replay;
pub use report::report_text;
pub use running::all_turns;
pub use stops::{MOST_STOPS, stops_text};
pub use wanted::Wanted;
