//! Tests of `amo_world`.
mod memory;
mod sizes;
mod worlds;
