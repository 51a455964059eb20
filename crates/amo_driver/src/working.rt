//! The work of a process, from its beginning on.
ghost use Rattle.std.specs.Prelude.{IfOk, IfErr};
ghost use Rattle.amo_params.specs.Givens.{IsWorker};
ghost use Rattle.amo_driver.specs.Course.{first_stage};
ghost use Rattle.amo_driver.specs.Stops.{EndsAt, StopsAt};

use crate::life::Life;
use crate::outside::Outside;
use crate::stop::{LifeEnd, Stop};
use amo_params::Givens;
use std::alloc::Global;

/// Does the whole work of a process that begins as worker p, in whose journal the next intent has
/// this serial number. It reads its own words first, and goes on from there to its end. Each call
/// outside is the one that is due by the results of the calls before it.
///
/// A job is performed only if the process is to perform it: once, right after its claim was stored,
/// its intent put and the job found clear. The job is filed after its result was noted. The result
/// is recorded at the latest with the next intent, or when the caller ends its work. A job that is
/// taken is never performed: its intent is noted as not begun, and the job is filed.
///
/// # Errors
///
/// The reason to stop: a call failed, or a number was impossible. No call is made after that.
pub fn work<O: Outside>(
    alloc: Global,
    givens: Givens,
    p: u32,
    serial: u64,
    outside: &mut O,
) -> Result<LifeEnd, Stop>
    requires worker { IsWorker givens p }
    requires begins { O.stands outside.old (first_stage givens p serial) }
    ensures ends { IfOk result (λ end. EndsAt (O.stands outside.new) end) }
    ensures stops { IfErr result (λ e. StopsAt (first_stage givens p serial) (O.stands outside.new) (O.has_done outside.old) (O.has_done outside.new) e) }
{
    let Ok(mut life) = Life::new(alloc, givens, p, serial) else {
        return Err(Stop::NoMemory);
    };
    for _turn in 0..u64::MAX {
        if let Some(end) = life.turn(outside)? {
            return Ok(end);
        }
    }
    Err(Stop::TooLong)
}
