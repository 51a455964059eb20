//! Tests of `amo_driver`: the memory that it requests, and lives of workers whose power is cut
//! anywhere.
//!
//! The other tests of that crate stand in `tests/amo_worker_tests`. The cuts of the power are too
//! many for `tools/tests`, which checks each access to memory as the tests run.
#![tactic(auto)]

#[cfg(test)]
mod crashes;
#[cfg(test)]
mod tests;
