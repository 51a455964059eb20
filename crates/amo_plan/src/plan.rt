//! A plan as a value.
ghost use Rattle.std.specs.Prelude.{◌≡◌, true, length};
ghost use Rattle.std.specs.Int.{div_ceil};
ghost use Rattle.amo_params.specs.Moves.{are_in_range};
ghost use Rattle.amo_plan.specs.Keeps.{is_form, all_fit};

use crate::items::Items;
use crate::task::Task;
use crate::text::Text;
use amo_params::{Givens, Move};

/// `Heads`: a plan without its tasks.
#[derive(Debug, Drop)]
pub struct Heads {
    /// The version of the format, 1 or 2.
    pub version: u32,
    /// The number of jobs in a block, which is claimed and performed as one: 1 in version 1,
    /// otherwise 1 to 4096.
    pub block: u32,
    /// The givens of the algorithm. Its jobs are the blocks.
    pub givens: Givens,
    /// The names of the jobs.
    pub names: Items<Text>,
    /// The moves of the schedule.
    pub moves: Items<Move>,
    /// The number of passes after the schedule, at most 10,000. In each pass each worker has one
    /// turn.
    pub rounds: u32,
    /// The step budget of each worker in threads, at most 10,000,000.
    pub budgets: Items<u64>,
}

/// `Plan`: jobs with names and tasks, and the order in which workers take turns. It has as many
/// names as tasks, and a budget for each worker. Its moves are of its own workers, its tasks fit,
/// and its givens have as many jobs as there are blocks.
#[derive(Debug, Drop)]
pub struct Plan {
    /// The plan without its tasks.
    pub heads: Heads,
    /// The tasks of the jobs, in their order.
    pub tasks: Items<Task>,
    pub ghost form: { is_form heads.version heads.block ≡ true },
    pub ghost blocks: { div_ceil (length heads.names) heads.block ≡ heads.givens.jobs },
    pub ghost tasked: { length tasks ≡ length heads.names },
    pub ghost fitting: { all_fit tasks ≡ true },
    pub ghost budgeted: { length heads.budgets ≡ heads.givens.workers },
    pub ghost within: { are_in_range heads.givens heads.moves ≡ true },
}
