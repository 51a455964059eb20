//! The limits of a plan and of what is computed from one.
ghost use Rattle.std.specs.Prelude.{◌≡◌, ◌≤◌, IfOk, IfSome, length, option_map};
ghost use Rattle.std.specs.List.{list_all};
ghost use Rattle.amo_plan.specs.Passing.{Gives};
ghost use Rattle.amo_plan.specs.Limits.{is_small, budgets_within};
ghost use Rattle.amo_plan.specs.declared.limits.TheConstants.{MOST_ROUNDS};

use crate::fault::PlanFault;
use amo_params::{MAX_STEPS, MAX_TEXT};
use std::alloc::Global;

/// The newest version of the format, 2.
pub const NEWEST_VERSION: u64 = 2;

/// The most bytes of a plan, 1,048,576.
pub const MOST_BYTES: usize = MAX_TEXT;

/// The most moves of a schedule, 100,000.
pub const MOST_MOVES: u64 = 100_000;

/// The most passes after the schedule, 10,000.
pub const MOST_ROUNDS: u64 = 10_000;

/// The most jobs of a block, 4096.
pub const MOST_IN_BLOCK: u64 = 4096;

/// The most bytes of a job's name.
pub(crate) const MOST_IN_NAME: usize = 64;

/// The step budget of each worker if the plan names no budgets, 1,000,000.
pub const USUAL_BUDGET: u64 = 1_000_000;

/// The highest number in a word of a schedule, 999,999.
pub const HIGHEST_IN_WORD: u64 = 999_999;

/// The highest number that is read from digits, 1,000,000,000,000.
pub const HIGHEST_NUMBER: u64 = 1_000_000_000_000;

/// The highest number of a schedule with which an exploration begins.
pub const MOST_FIRST: u64 = 1_000_000_000_000;

/// The most schedules of one exploration, 1000.
pub const MOST_COUNT: u32 = 1000;

/// The most turns of an explored schedule, 10,000.
pub const MOST_TURNS: u32 = 10_000;

/// No budget is above `MAX_STEPS`.
fn are_small(budgets: &[u64]) -> bool
    ensures { result ≡ list_all is_small budgets.now }
{
    budgets.iter().all(|budget| *budget <= MAX_STEPS)
}

/// Returns the budgets of the workers if passes and budgets keep their limits: `USUAL_BUDGET` steps
/// each if the plan names none.
#[tactic(auto, unfolding(crate::specs::Limits::budgets_within))]
pub(crate) fn budgets_within(
    alloc: Global,
    workers: u32,
    rounds: u64,
    budgets: &Option<Vec<u64>>,
) -> Result<Vec<u64>, PlanFault>
    requires { IfSome budgets.now (λ v. length v.items ≡ workers) }
    ensures budgets { Gives (λ v. v.items) result (budgets_within workers rounds (option_map (λ v. v.items) budgets.now)) }
    ensures rounds { IfOk result (λ _. rounds ≤ MOST_ROUNDS) }
    ensures count { IfOk result (λ v. length v.items ≡ workers) }
{
    if rounds > MOST_ROUNDS {
        return Err(PlanFault::TooLong);
    }
    match budgets {
        None => Ok(vec![in alloc; USUAL_BUDGET; workers as usize]?),
        Some(budgets) => {
            if !are_small(budgets) {
                return Err(PlanFault::TooLong);
            }
            Ok(Vec::from_slice(alloc, budgets)?)
        }
    }
}
