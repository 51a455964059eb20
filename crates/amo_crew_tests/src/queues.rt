//! Outputs are put into a queue, and taken from it.
//!
//! `tests/amo_algorithm_tests` has a link to this file, so that both crates use it.
ghost use Rattle.std.specs.Prelude.{◌≡◌};
ghost use Rattle.amo_mailbox.specs.Endpoints.{IsOutletOf, IsInletOf};

use amo_crew::{Inlet, Outlet, Output, Queue};
use std::sync::Wait;

/// Puts outputs of these jobs, as far as there is room.
pub(super) fn put_jobs<R: Wait>(
    rt: &R,
    queue: &Queue<u32>,
    outlet: &mut Outlet<u32>,
    from: u32,
    to: u32,
)
    requires { IsOutletOf queue.now outlet.old }
    ensures belong { IsOutletOf queue.now outlet.new }
    ensures worker { outlet.new.worker ≡ outlet.old.worker }
{
    for job in from..to {
        if outlet.has_room() {
            let output = Output {
                worker: outlet.worker(),
                job,
                out: job,
            };
            outlet.put(rt, queue, output);
        }
    }
}

/// Takes until there is no more, or this many were taken. Returns how many.
pub(super) fn take_jobs<R: Wait>(
    rt: &R,
    queue: &Queue<u32>,
    inlet: &mut Inlet<u32>,
    most: u32,
) -> u32
    requires { IsInletOf queue.now inlet.old }
    ensures belong { IsInletOf queue.now inlet.new }
    ensures room { inlet.new.room ≡ inlet.old.room }
{
    for n in 0..most {
        if !inlet.take(rt, queue) {
            return n;
        }
    }
    most
}
