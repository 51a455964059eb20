//! The life of a worker by lines: its partner, on standard input and output, has the words and the
//! journal too.
ghost use Rattle.std.specs.Prelude.{◌≡◌};

use amo_driver::{Failed, LifeEnd, Stop, Try, work};
use amo_host_parts::{exchange, shown};
use amo_params::Givens;
use amo_run_faults::Fault;
use amo_runner_protocol::{Lines, Wire, text_of};
use amo_system_calls::{Os, SystemCalls};
use amo_worker_args::ByLines;
use std::rt::HostRuntime;

/// The partner, and why a call has failed.
#[derive(Drop)]
struct Streams {
    /// The partner is on standard input and output.
    system: Os,
    fault: Option<Fault>,
}

impl Wire for Streams {
    ghost stands = { λ _ _. Unit {0} };

    ghost has_said = { λ _ _. Unit {0} };

    fn ask(&mut self, asked: Try) -> Result<Option<Vec<u8>>, Failed> {
        let Ok(line) = text_of(self.system.alloc(), asked) else {
            self.fault = Some(Fault::Memory);
            return Err(Failed);
        };
        match exchange(&mut self.system, &line) {
            Ok(heard) => Ok(heard),
            Err(fault) => {
                self.fault = Some(fault);
                Err(Failed)
            }
        }
    }
}

/// Works as this worker to the end of this process. Each load, store, intent, question for
/// clearance, job and note is a line to the partner. Returns `Ok` if the worker wants nothing more.
///
/// # Errors
/// `Left`, `Closed` or `NoAnswer` by the partner's last line, `NoSuchNumber` for an impossible
/// word, `Memory`, and `NoWay`.
pub fn work_by_lines(rt: HostRuntime, asked: ByLines) -> Result<(), Fault> {
    let Ok(givens) = Givens::try_new(asked.jobs, asked.workers, asked.beta) else {
        return Err(Fault::NoWay);
    };
    if asked.worker < 1 || asked.worker > givens.workers as u64 {
        return Err(Fault::NoWay);
    }
    let mut lines = Lines::new(Streams {
        system: Os::new(rt),
        fault: None,
    });
    match work(rt.alloc(), givens, asked.worker as u32, 1, &mut lines) {
        Ok(LifeEnd::Over) => Ok(()),
        Ok(LifeEnd::Left) => Err(Fault::Left),
        Ok(LifeEnd::Cut(_)) => Err(Fault::Closed),
        Err(stop) => Err(fault_of(rt, stop, lines)),
    }
}

/// Returns the fault of a stop.
fn fault_of(rt: HostRuntime, stop: Stop, lines: Lines<Streams>) -> Fault {
    let Lines { wire, said } = lines;
    let Streams { fault, .. } = wire;
    match stop {
        Stop::Failed => match fault {
            Some(fault) => fault,
            None => odd(rt, said),
        },
        Stop::NoMemory => Fault::Memory,
        Stop::NoSuchNumber(word, value) => Fault::NoSuchNumber(word, value),
        Stop::NoAnswer(_) | Stop::OtherAnswer(..) => odd(rt, said),
        Stop::NoSerial | Stop::TooLong => Fault::NoWay,
    }
}

/// Returns the fault of an invalid or missing line.
fn odd(rt: HostRuntime, said: Option<Vec<u8>>) -> Fault {
    match said {
        Some(line) => match shown(rt.alloc(), &line) {
            Ok(text) => Fault::NoAnswer(text),
            Err(_) => Fault::Memory,
        },
        None => Fault::Closed,
    }
}
