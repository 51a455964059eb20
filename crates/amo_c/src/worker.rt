//! The worker to which a call belongs.
ghost use Rattle.std.specs.Prelude.{◌≡◌, ◌≢◌, ◌+◌, ◌<◌, ◌≤◌, Ok, Err, IfOk, IfErr};
ghost use Rattle.amo_params.specs.Givens.{IsWorker};
ghost use Rattle.amo_kk.specs.Choice.{first_record};
ghost use Rattle.amo_process.specs.Heard.{IsOf};
ghost use Rattle.amo_c.specs.Reply.{givens_in, worker_in, standing_in};
ghost use Rattle.amo_c.specs.declared.codes.FaultCode.TheVariants.{NoMemory};

use crate::codes::FaultCode;
use crate::told::AmoGivens;
use amo_kk::Local;
use amo_params::Givens;
use amo_process::{NoSuchNumber, Standing, standing_of};
use std::alloc::Global;

/// A worker of these givens.
#[derive(Clone, Copy, Drop)]
pub(crate) struct Worker {
    /// The givens.
    pub(crate) givens: Givens,
    /// The number, from 1.
    pub(crate) number: u32,
}

/// Returns the givens of these three numbers, or the first limit that they break.
pub(crate) fn givens_of(numbers: &AmoGivens) -> Result<Givens, FaultCode>
    ensures { result ≡ givens_in numbers.now }
{
    match Givens::try_new(numbers.jobs, numbers.workers, numbers.beta) {
        Ok(givens) => Ok(givens),
        Err(fault) => Err(FaultCode::of(fault)),
    }
}

/// Returns worker p of these givens, or the first fault.
pub(crate) fn worker_of(numbers: &AmoGivens, p: u64) -> Result<Worker, FaultCode>
    ensures worker { result ≡ worker_in (givens_in numbers.now) p }
    ensures is { IfOk result (λ w. IsWorker w.givens w.number) }
{
    let givens = givens_of(numbers)?;
    if p < 1 || p > givens.workers as u64 {
        return Err(FaultCode::NoSuchWorker);
    }
    Ok(Worker {
        givens,
        number: p as u32,
    })
}

/// Returns the standing of the worker whose process has read these values. It takes memory before
/// it reads the list.
pub(crate) fn standing_after(
    alloc: Global,
    worker: Worker,
    heard: &[u64],
) -> Result<Standing, FaultCode>
    requires { IsWorker worker.givens worker.number }
    ensures standing { IfOk result (λ s. standing_in worker heard.now ≡ Ok s) }
    ensures fault { IfErr result (λ e. e ≢ NoMemory → standing_in worker heard.now ≡ Err e) }
    ensures of { IfOk result (λ s. IsOf worker.givens worker.number s) }
{
    let Ok(local) = Local::new(alloc, worker.givens, worker.number) else {
        return Err(FaultCode::NoMemory);
    };
    standing_of_new(worker, local, heard)
}

/// Returns the standing of the worker of this new machine, after its process has read these values.
/// It takes no memory, so an impossible list is never reported as a want of memory.
///
/// # Errors
///
/// `NoSuchNumber`, if no process can read these values.
fn standing_of_new(worker: Worker, local: Local, heard: &[u64]) -> Result<Standing, FaultCode>
    requires new { local ≡ record { givens = worker.givens; number = worker.number; state = first_record worker.givens worker.number } }
    ensures standing { IfOk result (λ s. standing_in worker heard.now ≡ Ok s) }
    ensures fault { IfErr result (λ e. standing_in worker heard.now ≡ Err e) }
    ensures of { IfOk result (λ s. IsOf worker.givens worker.number s) }
{
    match standing_of(local, heard) {
        Ok(standing) => Ok(standing),
        Err(NoSuchNumber) => Err(FaultCode::NoSuchNumber),
    }
}
