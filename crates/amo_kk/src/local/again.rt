//! A worker that restarts from its own registers alone.
ghost use Rattle.std.specs.Prelude.{◌≡◌, ◌≤◌, ◌<◌, ◌+◌, ◌++◌, ◌∷◌, ◌&&◌, [], true, false, not, IfOk, IfErr, length};
ghost use Rattle.std.specs.Vec.{vec_capacity};
ghost use Rattle.amo_sets.specs.Sets.{has};
ghost use Rattle.amo_params.specs.Givens.{IsJob, IsWorker, is_within};
ghost use Rattle.amo_kk.specs.Choice.{first_record, record_after_choice};
ghost use Rattle.amo_kk.specs.Again.{set_of, are_new, are_own_words, record_of_dones, record_again};
ghost use Rattle.amo_kk.specs.Machine.{record_of, IsHeld, IsTakenUp};
ghost use Rattle.amo_kk.specs.declared.phase.Phase.{Phase};
ghost use Rattle.amo_kk.specs.declared.phase.Phase.TheVariants.{Holding};

use crate::knowledge::Knowledge;
use crate::local::Local;
use crate::phase::Phase;
use amo_params::Givens;
use thiserror::Error;

/// `NoSuchWords`: the error for own registers whose values no worker can have left.
#[derive(Clone, Copy, Debug, PartialEq, Eq, Error)]
#[error("own words: impossible values; stop all workers, and start a new round")]
pub struct NoSuchWords;

/// Returns true if j is a job that isn't known.
fn is_new(givens: Givens, knowledge: &Knowledge, j: u64) -> bool
    requires { knowledge.now.range ≡ givens.jobs }
    ensures { result ≡ (is_within givens.jobs j && not (has knowledge.now.known j)) }
{
    j >= 1 && j <= givens.jobs as u64 && !knowledge.knows(j as u32)
}

/// Notes the entries of a row as claimed, done and known, if no job is known yet. It returns false
/// if they can't be those of a row.
fn take_row(
    givens: Givens,
    knowledge: &mut Knowledge,
    claims: &mut Vec<u32>,
    dones: &mut Vec<u32>,
    row: &[u64],
) -> bool
    requires range { knowledge.old.range ≡ givens.jobs }
    requires unknown { knowledge.old.known ≡ [] }
    requires no_claims { claims.old.items ≡ [] }
    requires no_dones { dones.old.items ≡ [] }
    requires claims_room { length row.now ≤ vec_capacity claims.old }
    requires dones_room { length row.now ≤ vec_capacity dones.old }
    ensures answer { result ≡ are_new givens [] row.now }
    ensures knows { result ≡ true → knowledge.new ≡ record knowledge.old { known = set_of row.now } }
    ensures claims { result ≡ true → claims.new.items ≡ row.now }
    ensures dones { result ≡ true → dones.new.items ≡ row.now }
    ensures claims_stay { vec_capacity claims.new ≡ vec_capacity claims.old }
    ensures dones_stay { vec_capacity dones.new ≡ vec_capacity dones.old }
{
    for entry in row {
        if !is_new(givens, knowledge, *entry) {
            return false;
        }
        let job = *entry as u32;
        knowledge.learn(job);
        claims.push_reserved(job);
        dones.push_reserved(job);
    }
    true
}

impl Local {
    /// Restarts a worker from its own registers: its announcement, its count of claims, and the
    /// entries of its row up to the first 0. The machine must be new, before its first step. If one
    /// claim more was counted than the row has entries, the announced job is in the worker's hand,
    /// and in doubt: nobody can know whether it was performed. **Never perform it**; record it as
    /// done. It takes no memory.
    ///
    /// # Errors
    ///
    /// [`NoSuchWords`] if no worker can have left these values. The machine is then dropped.
    ///
    /// # Examples
    ///
    /// ```
    /// use amo_kk::{Givens, Local, Want};
    ///
    /// let givens = Givens::try_new(5, 2, 2)?;
    /// let local = Local::new(rt.alloc(), givens, 2)?.again(4, 2, &[2])?;
    /// assert!(rt; local.in_hand() == Some(4)); // in doubt
    /// assert!(rt; local.want() == Want::StoreDone(2, 4));
    /// let wrong = Local::new(rt.alloc(), givens, 2)?.again(4, 3, &[2]);
    /// assert!(rt; wrong.is_err());
    /// ```
    pub fn again(self, announced: u64, counted: u64, row: &[u64]) -> Result<Local, NoSuchWords>
        requires new { self.state ≡ first_record self.givens self.number }
        ensures machine { IfOk result (λ l. l ≡ record self { state = record_again self.givens self.number announced counted row.now }) }
        ensures words { IfOk result (λ _. are_own_words self.givens announced counted row.now ≡ true) }
        ensures refused { IfErr result (λ _. are_own_words self.givens announced counted row.now ≡ false) }
    {
        let Local {
            givens,
            number,
            mut knowledge,
            fronts,
            mut claims,
            mut dones,
            ..
        } = self;
        if announced > givens.jobs as u64 {
            return Err(NoSuchWords);
        }
        if row.len() > givens.jobs as usize {
            return Err(NoSuchWords);
        }
        if !take_row(givens, &mut knowledge, &mut claims, &mut dones, row) {
            return Err(NoSuchWords);
        }
        let entries = row.len() as u64;
        if counted == entries {
            return Ok(Local::rested(givens, number, knowledge, fronts, claims, dones));
        }
        if counted != entries + 1 || !is_new(givens, &knowledge, announced) {
            return Err(NoSuchWords);
        }
        let job = announced as u32;
        Ok(Local::in_doubt(givens, number, knowledge, fronts, claims, dones, job))
    }

    /// Returns the machine that has done these jobs, after a new choice.
    pub(super) fn rested(
        givens: Givens,
        p: u32,
        mut knowledge: Knowledge,
        fronts: Vec<u32>,
        claims: Vec<u32>,
        dones: Vec<u32>,
    ) -> Local
        requires taken_up { IsTakenUp givens p knowledge fronts.items claims.items dones.items (vec_capacity fronts) (vec_capacity claims) (vec_capacity dones) }
        ensures { result ≡ record { givens = givens; number = p; state = record_after_choice givens p (record_of_dones givens dones.items) } }
    {
        let phase = knowledge.choose(givens, p);
        Local::of_parts(givens, p, phase, knowledge, fronts, claims, dones)
    }

    /// Returns the machine that has done these jobs, with one more in its hand.
    fn in_doubt(
        givens: Givens,
        p: u32,
        knowledge: Knowledge,
        fronts: Vec<u32>,
        mut claims: Vec<u32>,
        dones: Vec<u32>,
        job: u32,
    ) -> Local
        requires taken_up { IsTakenUp givens p knowledge fronts.items claims.items dones.items (vec_capacity fronts) (vec_capacity claims) (vec_capacity dones) }
        requires job { IsJob givens job }
        requires fresh { has (set_of dones.items) job ≡ false }
        ensures { result ≡ record { givens = givens; number = p; state = record (record_of_dones givens dones.items) { phase = Holding job; claimed = dones.items ++ job ∷ [] } } }
    {
        claims.push_reserved(job);
        let phase = Phase::Holding(job);
        Local::of_parts(givens, p, phase, knowledge, fronts, claims, dones)
    }

    /// Returns the machine of these parts, before its first step.
    fn of_parts(
        givens: Givens,
        number: u32,
        phase: Phase,
        knowledge: Knowledge,
        fronts: Vec<u32>,
        claims: Vec<u32>,
        dones: Vec<u32>,
    ) -> Local
        requires held { IsHeld givens number (record_of phase knowledge fronts.items claims.items dones.items 0) knowledge.range (vec_capacity fronts) (vec_capacity claims) (vec_capacity dones) }
        ensures { result ≡ record { givens = givens; number = number; state = record_of phase knowledge fronts.items claims.items dones.items 0 } }
    {
        Local {
            givens,
            number,
            phase,
            knowledge,
            fronts,
            claims,
            dones,
            steps: 0,
        }
    }
}
