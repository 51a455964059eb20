//! The files of a round: its header, the job list that the run knows, and the layout of the
//! register file.
//!
//! Start at [`RoundFile`] and [`Jobs`]. The header has the givens, the open lines and the workers.
//! It also counts how much of each file was on the disk when the round began. The theorems stand in
//! the module [`laws`].
//!
//! | here | in the glossary |
//! |---|---|
//! | record | round header |
//! | seat | participant number |
//! | words | registers |
//! | jobs | job list |
#![tactic(auto)]

mod count;
mod difference;
mod extent;
mod fault;
mod hashed_jobs;
mod head;
mod header;
mod jobs;
mod known;
pub mod laws;
mod lines;
mod round_file;
mod seats;
mod words;

pub use count::Count;
pub use difference::first_difference;
pub use extent::{Extent, jobs_digest};
pub use fault::{JobsFault, Why};
pub use hashed_jobs::HashedJobs;
pub use head::head_of;
pub use header::RoundHeader;
pub use jobs::Jobs;
pub use round_file::RoundFile;
pub use seats::{RoundParams, givens_of, seat_of};
pub use words::{offset_of, words_len};
