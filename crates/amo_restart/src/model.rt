//! The values of which the definitions speak. No code makes one.
use amo_kk::{Event, Process};
use amo_params::Move;
use std::collections::LinkedList;

/// `Act`: one element of a schedule with restarts.
#[derive(Clone, Copy, Debug, PartialEq, Eq)]
pub enum Act {
    /// A turn, a halt or a leave.
    Moves(Move),
    /// This worker begins again from its own words, whatever became of it before.
    Returns(u32),
}

/// An entry of a story.
#[derive(Clone, Copy, Debug, PartialEq, Eq)]
pub enum Entry {
    /// An event of a worker.
    Shown(Event),
    /// This worker began again, with this job in its hand and in doubt, or with 0.
    Returned(u32, u32),
}

/// `Tale`, a restart trace: all workers, from 1, and the story of what they have shown.
pub struct Tale {
    /// The workers in the order of their numbers.
    pub processes: LinkedList<Process>,
    /// The entries, in their order.
    pub entries: LinkedList<Entry>,
}
