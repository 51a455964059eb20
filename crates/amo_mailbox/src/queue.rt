//! The queue, its rule, and how its passes are made.
use crate::output::Output;
use crate::pass_state::PassState;
use crossbeam_queue::protocol::{Join, Lesson, Outcome, Protocol, Split};
use crossbeam_queue::{Pass, RuledArrayQueue};

/// The rule: for each worker, the outputs that the inlet took and then those that stand in the
/// queue are the ones that its outlet sent, in order.
pub(crate) struct InOrder;

impl<Out> Protocol<Output<Out>, PassState<Out>> for InOrder {
    ghost use Rattle.std.specs.Prelude.{[]};
    ghost use Rattle.amo_mailbox.specs.Mailbox.{Delivers};
    ghost use Rattle.amo_mailbox.specs.declared.pass_state.PassState.TheVariants.{Gets};

    ghost holds = { Delivers };

    ghost first = { Gets [] 0 [] };
}

/// How passes are made and come back: the inlet's makes an outlet's, an outlet's moves whole, the
/// inlet's takes it in.
pub(crate) struct Passes;

impl<Out> Split<PassState<Out>> for Passes {
    ghost use Rattle.amo_mailbox.specs.Mailbox.{stays, goes};

    ghost left = { stays };

    ghost right = { goes };
}

impl<Out> Join<PassState<Out>> for Passes {
    ghost use Rattle.amo_mailbox.specs.Mailbox.{joined};
    ghost use Rattle.amo_mailbox.specs.declared.pass_state.PassState.TheVariants.{Spent};

    ghost both = { joined };

    ghost spent = { Spent };
}

/// The change of an outlet's pass by a put. From a full queue it learns nothing.
pub(crate) struct Puts;

impl<Out> Outcome<Output<Out>, PassState<Out>> for Puts {
    ghost use Rattle.amo_mailbox.specs.Mailbox.{Adds};

    ghost then = { Adds };
}

impl<Out> Lesson<Output<Out>, PassState<Out>> for Puts {
    ghost fact = { λ v items. Unit {0} };
}

/// The change of the inlet's pass by a take, and the fact that it learns from an empty queue.
pub(crate) struct Takes;

impl<Out> Outcome<Output<Out>, PassState<Out>> for Takes {
    ghost use Rattle.amo_mailbox.specs.Mailbox.{Takes};

    ghost then = { Takes };
}

impl<Out> Lesson<Output<Out>, PassState<Out>> for Takes {
    ghost use Rattle.amo_mailbox.specs.Mailbox.{Tells};

    ghost fact = { Tells };
}

/// The queue of the library, under the rule.
pub(crate) type Ring<Out> = RuledArrayQueue<Output<Out>, PassState<Out>, InOrder>;

/// The right of an inlet or an outlet to use the queue.
pub(crate) type Port<Out> = Pass<Output<Out>, PassState<Out>>;

/// The number of places of a queue.
pub(crate) const PLACES: usize = 64;

/// `Queue`: outputs on their way, in 64 places. It has an inlet and outlets of its own, which are
/// made with it.
///
/// Between any two steps of any threads this holds for each worker: the inlet has taken, or the
/// queue has, just what the outlet has sent, in order. The outlet has sent the first of the outputs
/// that were put into it, and keeps the others.
#[derive(Drop)]
pub struct Queue<Out> {
    pub(crate) ring: Ring<Out>,
}
