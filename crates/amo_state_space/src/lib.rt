//! All worlds that turns lead to, and stops of all workers but one: for few jobs and workers, by an
//! exhaustive search.
//!
//! Start at [`all_text`]. It returns how many worlds there are, how few jobs are performed in the
//! end, and how long a run may be. The module [`laws`] has the theorems over the runs that are
//! shown.
#![tactic(auto)]

mod answer;
mod known;
pub mod laws;
mod longest;
mod search;

pub use answer::{AllWorlds, MOST_ALONE, all_text};
