//! Tests of the memory that `amo_sets`, `amo_kk`, `amo_process`, `amo_io` and `amo_world` request, or
//! promise not to request; worlds of all sizes.
//!
//! The other tests of these crates stand in `tests/amo_algorithm_tests` and `tests/amo_worker_tests`.
//! The worlds of all sizes are too many for `tools/tests`, which checks each access to memory as the
//! tests run.
#![tactic(auto)]

#[cfg(test)]
mod io;
#[cfg(test)]
mod kk;
#[cfg(test)]
mod process;
#[cfg(test)]
mod sets;
#[cfg(test)]
mod world;
