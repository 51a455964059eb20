//! The jobs that a worker knows, and the choice that follows from them.
ghost use Rattle.std.specs.Prelude.{◌≡◌, ◌≤◌, ◌+◌, [], IfOk, length, if◌then◌else◌};
ghost use Rattle.amo_sets.specs.Rank.{count};
ghost use Rattle.amo_sets.specs.Bits.{is_without};
ghost use Rattle.amo_sets.specs.Sets.{has, with_number};
ghost use Rattle.amo_params.specs.Givens.{IsJob, IsWorker};
ghost use Rattle.amo_kk.specs.Choice.{chosen_rank, record_after_choice, record_after_check};
ghost use Rattle.amo_kk.specs.Step.{with_announced, record_at_row, record_at_announcement};
ghost use Rattle.amo_kk.specs.Knowledge.{LeadsTo};

use crate::phase::{Phase, next_other};
use amo_params::Givens;
use amo_sets::JobSet;
use std::alloc::{AllocError, Global};
use std::marker::Model;

/// `Knowledge`: the jobs that a worker knows to be done, and those that it saw announced in this
/// attempt. A job that isn't known is free. A free job that wasn't seen announced is open. The
/// number of open jobs is kept, so that the threshold is tested without a walk.
#[derive(Drop)]
pub(crate) struct Knowledge {
    free: JobSet,
    tried: JobSet,
    open_count: u32,
}

impl Model for Knowledge {
    ghost use Rattle.std.specs.Prelude.{◌≡◌, length};
    ghost use Rattle.amo_sets.specs.Sets.{set_of_bits};
    ghost use Rattle.amo_sets.specs.Rank.{count};
    ghost use Rattle.amo_sets.specs.Bits.{is_without};
    ghost use Rattle.amo_kk.specs.Knowledge.{KnowledgeView, numbers_without};

    ghost Value = { KnowledgeView };

    ghost view = { λ k. record { range = length k.free; known = numbers_without k.free; tried = set_of_bits k.tried } };

    ghost invariant = { λ k. record { same_range : length k.tried ≡ length k.free; opens : k.open_count ≡ count (length k.free) (is_without k.free k.tried) } };
}

/// Returns the rank, among the open jobs, of the job that worker p wants if so many jobs are free.
/// The workers are spread evenly over the jobs if there is room.
fn wanted_rank(givens: Givens, p: u32, free: u32) -> u32
    requires worker { IsWorker givens p }
    requires free { free ≤ givens.jobs }
    ensures { result ≡ chosen_rank givens p free }
{
    let spread = free.saturating_sub(givens.workers - 1);
    if spread >= givens.workers {
        (p - 1) * spread / givens.workers + 1
    } else {
        p
    }
}

/// Returns how many jobs stay open once j is open no more.
#[tactic(auto, using(crate::proofs::OpenJobs::some_open))]
fn open_without(free: &JobSet, tried: &JobSet, open_count: u32, j: u32) -> u32
    requires low { 1 ≤ j }
    requires free { j ≤ length free.now }
    requires tried { length tried.now ≡ length free.now }
    requires count { open_count ≡ count (length free.now) (is_without free.now tried.now) }
    ensures { result + (if is_without free.now tried.now j then 1 else 0) ≡ open_count }
{
    if free.has(j) && !tried.has(j) {
        open_count - 1
    } else {
        open_count
    }
}

impl Knowledge {
    /// Returns the knowledge of a worker that has seen nothing yet. Fails if there was no memory.
    pub(crate) fn new(alloc: Global, jobs: u32) -> Result<Knowledge, AllocError>
        ensures { IfOk result (λ k. k ≡ record { range = jobs; known = []; tried = [] }) }
    {
        let free = JobSet::full(alloc, jobs)?;
        let tried = JobSet::empty(alloc, jobs)?;
        Ok(Knowledge {
            free,
            tried,
            open_count: jobs,
        })
    }

    /// Returns true if j is known to be performed.
    pub(crate) fn knows(&self, j: u32) -> bool
        requires low { 1 ≤ j }
        requires high { j ≤ self.now.range }
        ensures { result ≡ has self.now.known j }
    {
        !self.free.has(j)
    }

    /// Returns true if j was seen announced in this attempt.
    pub(crate) fn tried(&self, j: u32) -> bool
        requires low { 1 ≤ j }
        requires high { j ≤ self.now.range }
        ensures { result ≡ has self.now.tried j }
    {
        self.tried.has(j)
    }

    /// Notes a loaded announcement; 0 announces no job.
    pub(crate) fn note(&mut self, announced: u32)
        requires { announced ≤ self.old.range }
        ensures { self.new ≡ record self.old { tried = with_announced announced self.old.tried } }
    {
        if announced == 0 {
            return;
        }
        self.open_count = open_without(&self.free, &self.tried, self.open_count, announced);
        self.tried.add(announced);
    }

    /// Notes that j is done.
    pub(crate) fn learn(&mut self, j: u32)
        requires low { 1 ≤ j }
        requires high { j ≤ self.old.range }
        ensures { self.new ≡ record self.old { known = with_number j self.old.known } }
    {
        self.open_count = open_without(&self.free, &self.tried, self.open_count, j);
        self.free.take_out(j);
    }

    /// Makes the choice of worker p, and returns its next phase. The worker has ended if fewer than
    /// `beta` jobs are open. Otherwise it announces an open job, and a new attempt begins: no job
    /// counts as seen announced any more.
    pub(crate) fn choose(&mut self, givens: Givens, p: u32) -> Phase
        requires worker { IsWorker givens p }
        requires range { self.old.range ≡ givens.jobs }
        ensures choice { LeadsTo self.old (record_after_choice givens p) result self.new.tried }
        ensures stays { self.new ≡ record self.old { tried = self.new.tried } }
    {
        if self.open_count < givens.beta {
            return Phase::Over;
        }
        let rank = wanted_rank(givens, p, self.free.len());
        // The job of that rank exists: `laws::choice_finds_a_job`.
        let job = self.free.rank_without(&self.tried, rank).unwrap_or(0);
        self.tried.clear();
        self.open_count = self.free.len();
        Phase::Announcing(job)
    }

    /// Makes the check of j by worker p, and returns its next phase. If j is open, it is claimed
    /// next. Otherwise there is a new choice.
    fn check(&mut self, givens: Givens, p: u32, j: u32) -> Phase
        requires worker { IsWorker givens p }
        requires job { IsJob givens j }
        requires range { self.old.range ≡ givens.jobs }
        ensures check { LeadsTo self.old (record_after_check givens p j) result self.new.tried }
        ensures stays { self.new ≡ record self.old { tried = self.new.tried } }
    {
        if self.knows(j) || self.tried(j) {
            return self.choose(givens, p);
        }
        Phase::Claiming(j)
    }

    /// Returns the phase in an attempt on j at the row of q, or that after the check if there are
    /// only q - 1 workers.
    pub(crate) fn to_row(&mut self, givens: Givens, p: u32, j: u32, q: u32) -> Phase
        requires worker { IsWorker givens p }
        requires job { IsJob givens j }
        requires range { self.old.range ≡ givens.jobs }
        ensures row { LeadsTo self.old (record_at_row givens p j q) result self.new.tried }
        ensures stays { self.new ≡ record self.old { tried = self.new.tried } }
    {
        if q > givens.workers {
            return self.check(givens, p, j);
        }
        Phase::Reading(j, q)
    }

    /// Returns the phase in an attempt on j at the announcement of q, or that at the first row if
    /// there are only q - 1 workers.
    pub(crate) fn to_announcement(&mut self, givens: Givens, p: u32, j: u32, q: u32) -> Phase
        requires worker { IsWorker givens p }
        requires job { IsJob givens j }
        requires range { self.old.range ≡ givens.jobs }
        ensures announcement { LeadsTo self.old (record_at_announcement givens p j q) result self.new.tried }
        ensures stays { self.new ≡ record self.old { tried = self.new.tried } }
    {
        if q > givens.workers {
            return self.to_row(givens, p, j, next_other(p, 0));
        }
        Phase::Trying(j, q)
    }
}
