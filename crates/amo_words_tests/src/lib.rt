//! Tests of the memory that `amo_words` requests, or promises not to request; floors of all sizes.
//!
//! The other tests of that crate stand in `tests/amo_algorithm_tests`. The floors of all sizes are
//! too many for `tools/tests`, which checks each access to memory as the tests run.
#![tactic(auto)]

#[cfg(test)]
mod floors;
#[cfg(test)]
mod memory;
#[cfg(test)]
mod sizes;
