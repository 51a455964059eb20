//! A run whose final accounting was refused memory.
ghost use Rattle.amo_crew.specs.Unsettling.{UnsettledView};

use crate::outcome::End;
use amo_mailbox::Output;
use amo_words::ClosedFloor;
use std::marker::Model;

mod settling;
mod showing;

pub(crate) use settling::conclude;

/// `Unsettled`: a run whose final accounting was refused memory. It has the closed floor, the ends
/// of the threads, the outputs, and the jobs in hand. `settle` does the final accounting later.
///
/// # Examples
///
/// ```
/// use amo_crew::{Outcome, StopPlan, Unsettled, Work, execute, ExecFault};
/// use amo_params::{Givens, MAX_STEPS};
///
/// struct Sum;
///
/// impl Work<u32> for Sum {
///     ghost use Rattle.std.specs.Prelude.{◌≡◌};
///
///     type Out = u32;
///
///     ghost related = { λ _ _ _ number out. out ≡ number };
///
///     fn perform(&self, _worker: u32, _job: u32, number: u32) -> u32 {
///         number
///     }
/// }
///
/// /// Does the final accounting of a run, and tries a second time if memory is refused.
/// fn settled(rest: Unsettled<u32, u32>, alloc: std::alloc::Global) -> Option<Outcome<u32, u32>> {
///     match rest.settle(alloc) {
///         Ok(outcome) => Some(outcome),
///         Err(rest) => rest.settle(alloc).ok(),
///     }
/// }
///
/// let givens = Givens::try_new(2, 1, 1)?;
/// let plan = StopPlan::try_new(rt.alloc(), givens, &[MAX_STEPS])?;
/// let numbers = vec![in rt.alloc(); 7, 8]?;
/// let outcome = match execute(&rt, rt.alloc(), givens, numbers, &Sum, &plan) {
///     Ok(outcome) => Some(outcome),
///     Err(ExecFault::Unsettled(rest)) => {
///         assert!(rt; rest.ends().len() == 1 && rest.in_hand().is_empty());
///         assert!(rt; rest.outputs().len() <= 2);
///         settled(rest, rt.alloc())
///     }
///     Err(fault) => return Err(Fail::from(fault)),
/// };
/// assert!(rt; outcome.is_some());
/// ```
#[derive(Drop)]
pub struct Unsettled<P: Drop, Out> {
    floor: ClosedFloor<P>,
    ends: Vec<End>,
    outputs: Vec<Output<Out>>,
    in_hand: Vec<(u32, u32, P)>,
}

impl<P: Drop, Out> Model for Unsettled<P, Out> {
    ghost Value = { UnsettledView P Out };

    ghost view = { λ u. record { floor = u.floor; ends = u.ends.items; outputs = u.outputs.items; in_hand = u.in_hand.items } };
}
