//! The values that C gives and gets.
ghost use Rattle.std.specs.Prelude.{◌≡◌, ◌<◌, ◌+◌, Ok, IfOk};
ghost use Rattle.amo_params.specs.Givens.{IsWorker};
ghost use Rattle.amo_kk.specs.Record.{job_in_hand};
ghost use Rattle.amo_kk.specs.Words.{word_count};
ghost use Rattle.amo_process.specs.Heard.{IsOf};
ghost use Rattle.amo_process.specs.declared.standing.Standing.TheVariants.{Going};
ghost use Rattle.amo_c.specs.Told.{told_of, next_of, leave_by};

use crate::codes::{AccessCode, FaultCode, PhaseCode};
use crate::worker::Worker;
use amo_kk::{Local, Phase};
use amo_process::{Access, Standing, access_for};

/// `AmoGivens`: the three numbers of a run.
#[repr(C)]
#[derive(Clone, Copy, Drop)]
pub struct AmoGivens {
    /// The number of jobs, 0 to 4096. Jobs are numbered from 1.
    pub jobs: u64,
    /// The number of workers, 1 to 16. Workers are numbered from 1.
    pub workers: u64,
    /// The threshold, at least `workers` and at most 65535.
    pub beta: u64,
}

/// `AmoNext`: the next access of a worker, with the state of the worker.
#[repr(C)]
#[derive(Clone, Copy, Drop)]
pub struct AmoNext {
    /// The kind of the access: the number of an `AccessCode`, never that of `LoadRow`.
    pub access: u32,
    /// The state of the worker: the number of a `PhaseCode`.
    pub phase: u32,
    /// The place of the word, from 0; 0 if there is no access.
    pub word: u64,
    /// The value to store; 0 if the access isn't a store.
    pub value: u64,
    /// The job that is performed now, before the access; 0 if there is no such job.
    pub perform: u32,
    /// The job in doubt, or 0. Never perform it: the store records it as done.
    pub doubt: u32,
    /// How many jobs the worker has claimed; 0 while its process loads its own registers.
    pub claims: u64,
    /// How many jobs it has recorded as done; 0 while its process loads its own registers.
    pub dones: u64,
}

/// Returns the job in hand, or 0.
fn job_in_hand(phase: Phase) -> u32
    ensures { result ≡ job_in_hand phase }
{
    match phase {
        Phase::Holding(j) => j,
        Phase::Announcing(_)
        | Phase::Trying(_, _)
        | Phase::Reading(_, _)
        | Phase::Claiming(_)
        | Phase::Over
        | Phase::Left => 0,
    }
}

/// Returns the reply for a worker that makes this access, and has no job in its hand.
fn told_of(access: Access, phase: PhaseCode) -> AmoNext
    ensures { result ≡ told_of access phase }
{
    let (word, value) = match access {
        Access::Load(word) => (word, 0),
        Access::Store(word, value) => (word, value),
        Access::Nothing => (0, 0),
    };
    AmoNext {
        access: AccessCode::of(access).number(),
        phase: phase.number(),
        word,
        value,
        perform: 0,
        doubt: 0,
        claims: 0,
        dones: 0,
    }
}

/// Returns the reply for a worker that goes on. It is fresh if it has made no access since it
/// began.
fn going(worker: Worker, local: &Local, fresh: bool) -> AmoNext
    requires givens { local.now.givens ≡ worker.givens }
    requires number { local.now.number ≡ worker.number }
    ensures told { result ≡ next_of worker (Going local.now fresh) }
    ensures within { result.word < word_count worker.givens }
{
    let phase = local.phase();
    let job = job_in_hand(phase);
    AmoNext {
        perform: if fresh { 0 } else { job },
        doubt: if fresh { job } else { 0 },
        claims: local.claims().len() as u64,
        dones: local.dones().len() as u64,
        ..told_of(
            access_for(local.givens(), local.number(), local.want()),
            PhaseCode::of(phase),
        )
    }
}

/// Returns the reply for a worker in this standing.
pub(crate) fn next_of(worker: Worker, standing: &Standing) -> AmoNext
    requires { IsOf worker.givens worker.number standing.now }
    ensures told { result ≡ next_of worker standing.now }
    ensures within { result.word < word_count worker.givens }
{
    match standing {
        Standing::Beginning(word) => told_of(Access::Load(*word), PhaseCode::Beginning),
        Standing::Going(local, fresh) => going(worker, local, *fresh),
    }
}

/// Returns the store by which a worker in this standing leaves. The error is `MayNotLeave`.
pub(crate) fn leave_by(worker: Worker, standing: &Standing) -> Result<AmoNext, FaultCode>
    requires { IsWorker worker.givens worker.number }
    ensures told { result ≡ leave_by worker standing.now }
    ensures within { IfOk result (λ n. n.word < word_count worker.givens) }
{
    match standing {
        Standing::Going(local, _) if local.can_leave() => Ok(AmoNext {
            claims: local.claims().len() as u64,
            dones: local.dones().len() as u64,
            ..told_of(Access::Store(worker.number as u64, 0), PhaseCode::Left)
        }),
        Standing::Going(_, _) | Standing::Beginning(_) => Err(FaultCode::MayNotLeave),
    }
}
