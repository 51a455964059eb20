//! The ends of a command before its work is done.
use amo_run_faults::Fault;
use std::alloc::AllocError;
use std::io;

/// The reason that a command ends before its work is done.
#[derive(Drop)]
pub enum End {
    Fault(Fault),
    /// The log of calls can't be opened or written.
    Log(io::Error),
}

impl From<Fault> for End {
    fn from(fault: Fault) -> Self {
        End::Fault(fault)
    }
}

impl From<io::Error> for End {
    fn from(error: io::Error) -> Self {
        End::Log(error)
    }
}

impl From<AllocError> for End {
    fn from(_: AllocError) -> Self {
        End::Fault(Fault::Memory)
    }
}
