//! The choice of a text, and that text.
ghost use Rattle.std.specs.Prelude.{◌≡◌, ◌≤◌, Ok, IfOk, IfErr, string_bytes};
ghost use Rattle.amo_plan.specs.PlanSeen.{plan_seen};
ghost use Rattle.amo_render.specs.Written.{IsNotMade};
ghost use Rattle.amo_report.specs.Stops.{stops_in};
ghost use Rattle.amo_report.specs.Texts.{report_of};

use crate::checking::check_text;
use crate::explorer::explore;
use crate::report::report_text;
use crate::running::simulate;
use crate::stops::{MOST_STOPS, stops_text};
use amo_plan::{Plan, PlanFault};
use amo_render::{PlanText, ReplayFault};
use std::alloc::{AllocError, Global};

/// `Wanted`: the text of a plan that the caller chooses.
#[derive(Clone, Copy, Debug, PartialEq, Eq)]
pub enum Wanted {
    /// The report of its replay.
    Report,
    /// The line of a check.
    Check,
    /// The text of the explorer.
    Explored {
        /// The number of the first schedule, at most `MOST_FIRST`.
        from: u64,
        /// How many schedules, 1 to `MOST_COUNT`.
        count: u32,
        /// How many turns each of them has, at most `MOST_TURNS`.
        turns: u32,
    },
    /// The text of stops.
    Stops {
        /// The worker, from 1. The plan may have fewer.
        worker: u32,
    },
}

/// Returns the report of a plan, in the world after its schedule and its passes. Fails if there was
/// no memory.
fn plan_report(alloc: Global, plan: &Plan) -> Result<String, AllocError>
    ensures { IfOk result (λ s. string_bytes s ≡ report_of (plan_seen plan.now)) }
{
    let world = simulate(alloc, plan)?;
    report_text(alloc, plan, &world)
}

/// Returns the text of stops of worker p. The error is `Plan(NoSuchWorker(0))` if the plan has no
/// such worker, then `Plan(TooLong)` if it has more than `MOST_STOPS` moves, or out of memory.
#[tactic(auto, unfolding(crate::specs::Stops::stops_in))]
fn plan_stops(alloc: Global, plan: &Plan, p: u32) -> Result<String, ReplayFault>
    requires { 1 ≤ p }
    ensures text { IfOk result (λ s. stops_in (plan_seen plan.now) p ≡ Ok (string_bytes s)) }
    ensures refused { IfErr result (λ e. IsNotMade e (stops_in (plan_seen plan.now) p)) }
{
    if p > plan.heads.givens.workers {
        return Err(ReplayFault::Plan(PlanFault::NoSuchWorker(0)));
    }
    if plan.heads.moves.as_slice().len() > MOST_STOPS {
        return Err(ReplayFault::Plan(PlanFault::TooLong));
    }
    Ok(stops_text(alloc, plan, p)?)
}

impl PlanText for Wanted {
    ghost use Rattle.amo_report.specs.Wanted.{text_of, IsWithinRanges};

    ghost fits = { IsWithinRanges };

    ghost made = { text_of };

    /// Returns the text. For stops the error is `Plan(NoSuchWorker(0))` if the plan has no such
    /// worker, then `Plan(TooLong)` if it has more than `MOST_STOPS` moves. The only other error is
    /// out of memory.
    fn make(&self, alloc: Global, plan: &Plan) -> Result<String, ReplayFault> {
        match *self {
            Wanted::Report => Ok(plan_report(alloc, plan)?),
            Wanted::Check => Ok(check_text(alloc, plan)?),
            Wanted::Explored { from, count, turns } => {
                let text = explore(alloc, plan, from, count, turns)?;
                Ok(text)
            }
            Wanted::Stops { worker } => plan_stops(alloc, plan, worker),
        }
    }
}
