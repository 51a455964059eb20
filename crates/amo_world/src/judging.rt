//! The judge of lists of events.
ghost use Rattle.std.specs.Prelude.{◌≡◌, ◌↔◌, ℕ, IfOk};
ghost use Rattle.amo_kk.specs.Object.{first_object};
ghost use Rattle.amo_kk.specs.Run.{IsRun, IsFirstBad};
ghost use Rattle.amo_world.specs.Answer.{verdict};

use crate::answer::Verdict;
use crate::state::State;
use amo_kk::Event;
use amo_params::Givens;
use std::alloc::{AllocError, Global};

/// Returns the verdict on a history of any system: `Lawful` if the events are a run of the
/// sequential object, the set of unclaimed jobs, from its first state. Otherwise it returns the
/// place of the first event that is no step. Events may name any numbers. An event of a worker or a
/// job outside the givens is never a step.
///
/// # Errors
///
/// `AllocError` if memory for one state is refused.
///
/// # Examples
///
/// ```
/// use amo_params::Givens;
/// use amo_world::{Event, Verdict, judge};
///
/// let givens = Givens::try_new(2, 2, 2)?;
/// let good = [Event::Claimed(1, 1), Event::Done(1, 1), Event::Claimed(2, 2)];
/// assert!(rt; judge(rt.alloc(), givens, &good)? == Verdict::Lawful);
/// let twice = [Event::Claimed(1, 1), Event::Claimed(2, 1)];
/// assert!(rt; judge(rt.alloc(), givens, &twice)? == Verdict::FirstBad(2));
/// ```
pub fn judge(alloc: Global, givens: Givens, events: &[Event]) -> Result<Verdict, AllocError>
    ensures verdict { IfOk result (λ v. v ≡ verdict givens events.now) }
    ensures run { IfOk result (λ v. (v ≡ Verdict.Lawful) ↔ IsRun givens (first_object givens) events.now) }
    ensures bad { IfOk result (λ v. (i : ℕ) → v ≡ Verdict.FirstBad i → IsFirstBad givens (first_object givens) events.now i) }
{
    let mut state = State::new(alloc, givens)?;
    let mut place: u32 = 0;
    for event in events {
        place += 1;
        if !state.allows(*event) {
            return Ok(Verdict::FirstBad(place));
        }
        state.follow(*event)?;
    }
    Ok(Verdict::Lawful)
}
