//! Tests of the memory that `amo_crew` requests, or promises not to request.
//!
//! The other tests of that crate stand in `tests/amo_algorithm_tests`.
#![tactic(auto)]

#[cfg(test)]
mod memory;
#[cfg(test)]
mod outcomes;
#[cfg(test)]
mod queues;
