//! The parts of a run before its final accounting.
ghost use Rattle.std.specs.Prelude.{◌≡◌};

use crate::outcome::End;
use crate::settle::unsettled::Unsettled;
use amo_mailbox::Output;
use std::fmt;
use std::fmt::{Debug, Formatter};

impl<P: Drop, Out> Unsettled<P, Out> {
    /// Returns the end of each worker's thread, in the order of the workers.
    pub fn ends(&self) -> &[End]
        ensures ends { result.now ≡ self.now.ends }
    {
        self.ends.as_slice()
    }

    /// Returns the answers of all done jobs of the workers whose threads ran.
    pub fn outputs(&self) -> &[Output<Out>]
        ensures outputs { result.now ≡ self.now.outputs }
    {
        self.outputs.as_slice()
    }

    /// Returns worker, job and payload of each job that was claimed and not performed, by rising
    /// worker.
    pub fn in_hand(&self) -> &[(u32, u32, P)]
        ensures in_hand { result.now ≡ self.now.in_hand }
    {
        self.in_hand.as_slice()
    }
}

/// Prints the ends, and how many answers and payloads in hand there are. It prints no payload, so
/// that none needs `Debug`.
impl<P: Drop, Out> Debug for Unsettled<P, Out> {
    fn fmt<W: fmt::Write>(&self, f: &mut Formatter<W>) -> fmt::Result {
        f.debug_struct("Unsettled")
            .field("ends", &self.ends)
            .field("outputs", &self.outputs.len())
            .field("in_hand", &self.in_hand.len())
            .finish_non_exhaustive()
    }
}
