//! The lines of faults.
ghost use Rattle.std.specs.Prelude.{◌≡◌, IfOk, string_bytes};
ghost use Rattle.amo_render.specs.FaultTexts.{givens_fault_name, fault_line};

use amo_params::GivensFault;
use amo_plan::PlanFault;
use std::alloc::{AllocError, Global};

/// Returns the number and the name of a fault of the givens.
fn givens_fault_name(fault: GivensFault) -> &'static str
    ensures { result.now ≡ givens_fault_name fault }
{
    match fault {
        GivensFault::TooManyJobs => "1 TooManyJobs",
        GivensFault::NoWorkers => "2 NoWorkers",
        GivensFault::TooManyWorkers => "3 TooManyWorkers",
        GivensFault::BetaLow => "4 BetaLow",
        GivensFault::BetaHigh => "5 BetaHigh",
    }
}

/// Returns the line of a plan's fault: the word `fault`, its number, its name and its fields.
///
/// # Errors
///
/// `AllocError` if there was no memory.
pub fn fault_text(alloc: Global, fault: &PlanFault) -> Result<String, AllocError>
    ensures { IfOk result (λ s. string_bytes s ≡ fault_line fault.now) }
{
    match *fault {
        PlanFault::NotToml => String::from_str(alloc, "fault 1 NotToml\n"),
        PlanFault::UnknownKey(job) => format!(in alloc; "fault 2 UnknownKey {job}\n"),
        PlanFault::MissingKey(job) => format!(in alloc; "fault 3 MissingKey {job}\n"),
        PlanFault::WrongKind(job) => format!(in alloc; "fault 4 WrongKind {job}\n"),
        PlanFault::BadGivens(fault) => {
            let name = givens_fault_name(fault);
            format!(in alloc; "fault 5 BadGivens {name}\n")
        }
        PlanFault::TwoNames(job) => format!(in alloc; "fault 6 TwoNames {job}\n"),
        PlanFault::BadName(job) => format!(in alloc; "fault 7 BadName {job}\n"),
        PlanFault::SumTooLarge(job) => format!(in alloc; "fault 8 SumTooLarge {job}\n"),
        PlanFault::BadScheduleWord(word) => {
            format!(in alloc; "fault 9 BadScheduleWord {word}\n")
        }
        PlanFault::NoSuchWorker(word) => format!(in alloc; "fault 10 NoSuchWorker {word}\n"),
        PlanFault::TooLong => String::from_str(alloc, "fault 11 TooLong\n"),
        PlanFault::NoMemory => String::from_str(alloc, "fault 12 NoMemory\n"),
    }
}
