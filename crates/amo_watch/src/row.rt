//! An attempt as a watcher is shown it.
use amo_run_log::Outcome;
use amo_status::State;

/// An attempt as its records say, and how it stands by them. Times are in seconds since 1970, and 0
/// stands for one that is not known.
#[derive(Clone, Copy, Debug, PartialEq, Eq)]
pub struct AttemptRow {
    /// The worker whose journal has it, from 1.
    pub worker: u64,
    /// Its place in that journal, from 1.
    pub serial: u64,
    /// The line of the list, from 1.
    pub line: u64,
    pub begun: u64,
    /// The record of its end. `None` if it is pending.
    pub outcome: Option<Outcome>,
    /// How it stands by that and by the operators' answers. `Running` if it is pending: it may also
    /// be in doubt, since nobody has looked.
    pub state: State,
}
