//! Tests of `amo_kk`.
mod locals;
mod memory;
