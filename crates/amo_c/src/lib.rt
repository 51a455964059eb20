//! Workers for programs in C, as a static library: the next load or store of a worker, by the list
//! of values that its process has read.
//!
//! Start at `amo_next`, and at `examples/c/amo.h`, the header for C. No call keeps anything. The
//! module `laws` has the theorems.
//!
//! | here | in the glossary |
//! |---|---|
//! | p | a worker |
#![tactic(auto)]

mod codes;
mod exports;
mod item;
pub mod laws;
mod told;
mod worker;

pub use codes::{AccessCode, FaultCode, PhaseCode};
pub use exports::{
    amo_announcement_word, amo_batch, amo_bound, amo_claims_word, amo_entry_word, amo_leave,
    amo_next, amo_words,
};
pub use item::AmoItem;
pub use told::{AmoGivens, AmoNext};

#[cfg(test)]
mod tests;
