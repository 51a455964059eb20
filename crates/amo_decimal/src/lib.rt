//! Numbers below 2 to the 64 in a text, each written in one way: digits alone, and no 0 before
//! others.
//!
//! Start at [`number`]. The theorem stands in the module [`laws`].
#![tactic(auto)]

pub mod laws;
mod numbers;

pub use numbers::{number, number_of_bytes};
