//! The codes that C sees for kinds of access, phases and faults.
ghost use Rattle.std.specs.Prelude.{◌≡◌};
ghost use Rattle.amo_c.specs.Codes.{access_code, phase_code, fault_code, kind_of, phase_of, fault_of};

use amo_kk::Phase;
use amo_params::GivensFault;
use amo_process::Access;

/// `AccessCode`: the kind of an access.
#[derive(Clone, Copy, Debug, PartialEq, Eq)]
pub enum AccessCode {
    /// No access.
    Nothing = 0,
    /// Load the word.
    Load = 1,
    /// Store the value to the word.
    Store = 2,
    /// Load the word and those after it, one after the other, up to the first that is 0.
    LoadRow = 3,
}

impl AccessCode {
    /// Returns the kind of this access.
    pub(crate) fn of(access: Access) -> AccessCode
        ensures { result ≡ kind_of access }
    {
        match access {
            Access::Load(_) => AccessCode::Load,
            Access::Store(_, _) => AccessCode::Store,
            Access::Nothing => AccessCode::Nothing,
        }
    }

    /// Returns the number that C sees.
    pub(crate) fn number(self) -> u32
        ensures { result ≡ access_code self }
    {
        self as u32
    }
}

/// `PhaseCode`: what a worker is about to do.
#[derive(Clone, Copy, Debug, PartialEq, Eq)]
pub enum PhaseCode {
    /// Its process loads its own registers.
    Beginning = 0,
    /// It announces a job next.
    Announcing = 1,
    /// It reads the announcements of the others.
    Trying = 2,
    /// It reads the rows of the others.
    Reading = 3,
    /// It claims the job next.
    Claiming = 4,
    /// The job is claimed and in its hand. It records the job as done next.
    Holding = 5,
    /// It has ended by its own choice.
    Over = 6,
    /// It has left: the store of `amo_leave` is its last access.
    Left = 7,
}

impl PhaseCode {
    /// Returns the code of a worker in this phase.
    pub(crate) fn of(phase: Phase) -> PhaseCode
        ensures { result ≡ phase_of phase }
    {
        match phase {
            Phase::Announcing(_) => PhaseCode::Announcing,
            Phase::Trying(_, _) => PhaseCode::Trying,
            Phase::Reading(_, _) => PhaseCode::Reading,
            Phase::Claiming(_) => PhaseCode::Claiming,
            Phase::Holding(_) => PhaseCode::Holding,
            Phase::Over => PhaseCode::Over,
            Phase::Left => PhaseCode::Left,
        }
    }

    /// Returns the number that C sees.
    pub(crate) fn number(self) -> u32
        ensures { result ≡ phase_code self }
    {
        self as u32
    }
}

/// `FaultCode`: the reason why a call fails. A call that succeeds returns 0, which stands for no
/// fault.
#[derive(Clone, Copy, Debug, PartialEq, Eq)]
pub enum FaultCode {
    /// There are more than 4096 jobs.
    TooManyJobs = 1,
    /// There are 0 workers.
    NoWorkers = 2,
    /// There are more than 16 workers.
    TooManyWorkers = 3,
    /// The threshold is below the number of workers.
    BetaLow = 4,
    /// The threshold is above 65535.
    BetaHigh = 5,
    /// The number of the worker isn't within `1..=workers`.
    NoSuchWorker = 6,
    /// A value of the list is impossible in its place: the registers or the list are damaged. Stop
    /// all processes.
    NoSuchNumber = 7,
    /// Memory was refused. Nothing has changed, and the call may be made again.
    NoMemory = 8,
    /// The worker may not leave: its process loads its own registers, or it has a job in its hand,
    /// or it has ended.
    MayNotLeave = 9,
}

impl FaultCode {
    /// Returns the code of this fault of the givens.
    pub(crate) fn of(fault: GivensFault) -> FaultCode
        ensures { result ≡ fault_of fault }
    {
        match fault {
            GivensFault::TooManyJobs => FaultCode::TooManyJobs,
            GivensFault::NoWorkers => FaultCode::NoWorkers,
            GivensFault::TooManyWorkers => FaultCode::TooManyWorkers,
            GivensFault::BetaLow => FaultCode::BetaLow,
            GivensFault::BetaHigh => FaultCode::BetaHigh,
        }
    }

    /// Returns the number that C sees.
    pub(crate) fn number(self) -> u32
        ensures { result ≡ fault_code self }
    {
        self as u32
    }
}
