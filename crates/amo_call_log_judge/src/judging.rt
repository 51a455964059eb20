//! The judge of events.
ghost use Rattle.std.specs.Prelude.{IfOk, map};
ghost use Rattle.amo_call_log_judge.specs.Against.{IsVerdictOn};
ghost use Rattle.amo_call_log_judge.specs.Events.{event_of};
ghost use Rattle.amo_call_log_judge.specs.Grammar.{MayAllStand};

use crate::event::Event;
use crate::reason::Verdict;
use crate::site::Site;
use std::alloc::{AllocError, Global};

/// Returns the verdict on these events. A run by clearance has the number of lines that were
/// performed. In other events it has the first one that may not follow, and the reason.
///
/// # Errors
/// Out of memory.
pub fn judge_run(alloc: Global, events: &[Event]) -> Result<Verdict, AllocError>
    requires { MayAllStand (map event_of events.now) }
    ensures { IfOk result (IsVerdictOn (map event_of events.now)) }
{
    let mut site = Site::new(alloc)?;
    for index in 0..events.len() {
        let event = events[index];
        if let Some(reason) = site.against(event) {
            return Ok(Verdict::NoRun { index, reason });
        }
        site.apply(alloc, event)?;
    }
    let performed = site.performed.len();
    Ok(Verdict::Run { performed })
}
