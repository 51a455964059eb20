//! How the final accounting of a run is done.
ghost use Rattle.std.specs.Prelude.{◌≡◌, IfOk, IfErr, true};
ghost use Rattle.amo_crew.specs.Outcomes.{AllStarted};
ghost use Rattle.amo_crew.specs.Unsettling.{IsSettledOf};
ghost use Rattle.amo_crew.specs.Refusing.{Concludes, is_refused, any_refused};

use crate::fault::ExecFault;
use crate::outcome::{End, Outcome};
use crate::settle::unsettled::Unsettled;
use amo_mailbox::Output;
use amo_words::ClosedFloor;
use std::alloc::Global;

impl<P: Drop, Out> Unsettled<P, Out> {
    /// Returns a run whose final accounting is to be done.
    pub(crate) fn new(
        floor: ClosedFloor<P>,
        ends: Vec<End>,
        outputs: Vec<Output<Out>>,
        in_hand: Vec<(u32, u32, P)>,
    ) -> Unsettled<P, Out>
        ensures { result ≡ record { floor = floor; ends = ends.items; outputs = outputs.items; in_hand = in_hand.items } }
    {
        Unsettled {
            floor,
            ends,
            outputs,
            in_hand,
        }
    }

    /// Does the final accounting of the run, from the registers as they stand.
    ///
    /// # Errors
    ///
    /// If memory is refused, the run comes back unchanged. You may call it again, as often as you
    /// like.
    pub fn settle(self, alloc: Global) -> Result<Outcome<P, Out>, Unsettled<P, Out>>
        ensures settled { IfOk result (IsSettledOf self) }
        ensures refused { IfErr result (λ u. u ≡ self) }
    {
        let Unsettled {
            floor,
            ends,
            outputs,
            in_hand,
        } = self;
        match floor.settle(alloc) {
            Ok(settlement) => Ok(Outcome {
                settlement,
                ends,
                outputs,
                in_hand,
            }),
            Err(floor) => Err(Unsettled {
                floor,
                ends,
                outputs,
                in_hand,
            }),
        }
    }
}

/// Returns true if some thread could not be started.
fn has_refused(ends: &[End]) -> bool
    ensures { result ≡ any_refused ends.now }
{
    ends.iter().any(
        |end| -> bool
            ensures { result ≡ is_refused end.now }
        { matches!(end, End::NotStarted) },
    )
}

/// Does the final accounting of the run, and returns a refusal if a thread could not be started.
pub(crate) fn conclude<P: Drop, Out: Drop>(
    alloc: Global,
    rest: Unsettled<P, Out>,
) -> Result<Outcome<P, Out>, ExecFault<P, Out>>
    ensures done { IfOk result (λ o. IsSettledOf rest o × AllStarted o.ends.items) }
    ensures refused { IfErr result (Concludes rest) }
{
    match rest.settle(alloc) {
        Ok(outcome) => {
            if has_refused(outcome.ends.as_slice()) {
                Err(ExecFault::ThreadRefused(outcome))
            } else {
                Ok(outcome)
            }
        }
        Err(rest) => Err(ExecFault::Unsettled(rest)),
    }
}
