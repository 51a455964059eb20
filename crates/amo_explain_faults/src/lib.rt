//! Explanations of plans, and of texts that should be plans, in plain words.
//!
//! Start at [`explanation`]. Its text begins with the line `taken`, or with the line of the fault;
//! that is proved. The sentences below that line name the place and the word that the fault leaves
//! out. This crate searches for them again in the tree and in the text. They are only tested.
#![tactic(auto)]

mod asked;
mod broken;
mod document;
mod explained;
mod givens;
mod jobs;
mod keys;
mod kinds;
pub mod laws;
mod limits;
mod reasons;
mod schedule;
mod walk;
mod wording;

pub use explained::explanation;
