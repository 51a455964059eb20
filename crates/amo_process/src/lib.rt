//! A worker as a process of its own, which may die at any point. Another process then goes on as
//! the same worker, from the worker's registers alone.
//!
//! Start at [`Process`]: it returns the next load or store as a function of the values that the
//! process has read since it began. `standing_of` computes the same from the list of these values,
//! and `items_of` returns a whole batch of accesses. The modules `laws` and `batch_laws` have the
//! theorems. The registers must be sequentially consistent, and at most one process of a worker may
//! live at a time. No contract can state either.
//!
//! | here | in the glossary |
//! |---|---|
//! | p, q | a worker, another worker |
//! | j | a job |
#![tactic(auto)]

mod access;
mod batch;
pub mod batch_laws;
pub mod laws;
mod model;
mod process;
mod stage;
mod standing;

pub use access::Access;
pub use batch::{Item, items_of};
pub use model::Happening;
pub use process::{Process, access_for};
pub use standing::{NoSuchNumber, Standing, done_word, standing_of};
