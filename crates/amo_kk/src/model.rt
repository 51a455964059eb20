//! The values that definitions and contracts speak of. No code makes one: contracts see the code's
//! own types as these.
use crate::event::Event;
use crate::phase::Phase;
use std::collections::LinkedList;

/// `Object`: a state of the sequential object with which histories are compared.
pub struct Object {
    /// The unclaimed jobs, in rising order.
    pub unclaimed: LinkedList<u32>,
    /// For each worker the job in its hand, or 0.
    pub in_hand: LinkedList<u32>,
    /// The done pairs of worker and job, in their order.
    pub performed: LinkedList<(u32, u32)>,
    /// For each worker true if it is gone.
    pub gone: LinkedList<bool>,
}

/// `Record`: the contents of a worker's state machine.
pub struct Record {
    /// The phase: the access that the worker makes next.
    pub phase: Phase,
    /// The jobs that it knows to be done, in rising order. The article calls the set DONE.
    pub known: LinkedList<u32>,
    /// The jobs that it saw announced in this attempt, in rising order. The article calls the set
    /// TRY.
    pub tried: LinkedList<u32>,
    /// For each worker how many entries of its row were read.
    pub fronts: LinkedList<u32>,
    /// The claimed jobs, in their order.
    pub claimed: LinkedList<u32>,
    /// The done jobs, in their order.
    pub dones: LinkedList<u32>,
    /// How many steps it has taken, a leave included.
    pub steps: u64,
}

/// `Process`: a worker's state machine with the registers that it alone writes.
pub struct Process {
    /// The contents of the state machine.
    pub local: Record,
    /// The announcement: a job, or 0.
    pub next: u32,
    /// How many jobs it has claimed, as its register says.
    pub claim: u32,
    /// The row: the done jobs in their order, then zeros.
    pub row: LinkedList<u32>,
    /// True once it has ended, crashed or left.
    pub gone: bool,
}

/// `World`: all workers with their registers after a list of moves, and the history.
pub struct World {
    /// The workers in the order of their numbers.
    pub processes: LinkedList<Process>,
    /// The events, in their order.
    pub history: LinkedList<Event>,
}
