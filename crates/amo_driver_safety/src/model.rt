//! The values of which the definitions speak. No code makes one.
use amo_driver::{Deed, Try};

/// `Moment`: one event among the processes. The first number is the worker's.
#[derive(Clone, Copy, Debug, PartialEq, Eq)]
pub enum Moment {
    /// The process of the worker has done this, and knows it. Where it fell, it has not come about.
    Does(u32, Deed),
    /// The try of the worker's process comes about, and the process never learns of it: the call
    /// fails, or it dies in it.
    Loses(u32, Try),
    /// The process of the worker, if there was one, is dead, and another begins, which has done
    /// nothing. The second number is the serial number of its first intent.
    Begins(u32, u64),
}
