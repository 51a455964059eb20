//! The final accounting: workers are collected after their threads, or called off before them.
mod calling_off;
mod collecting;
mod unsettled;

pub(crate) use calling_off::call_off;
pub(crate) use collecting::{Collected, collect_all};
pub use unsettled::Unsettled;
pub(crate) use unsettled::conclude;
