//! The state of a worker, as callers see it. None of these calls takes memory.
ghost use Rattle.std.specs.Prelude.{◌≡◌, ◌↔◌, true};
ghost use Rattle.std.specs.Option.{option_to_list};
ghost use Rattle.amo_params.specs.Givens.{IsWorker};
ghost use Rattle.amo_kk.specs.Record.{is_over, jobs_in_hand};
ghost use Rattle.amo_kk.specs.Lawful.{IsSoundRecord};
ghost use Rattle.amo_kk.specs.declared.phase.Phase.{Phase};
ghost use Rattle.amo_words.specs.Faces.{machine};

use crate::floor::Worker;

impl<P> Worker<P> {
    /// Returns the worker's number, from 1. Its contract also gives callers that the worker's
    /// record is sound.
    pub fn number(&self) -> u32
        ensures number { result ≡ (machine self.now).number }
        ensures worker { IsWorker self.now.view.givens result }
        ensures givens { (machine self.now).givens ≡ self.now.view.givens }
        ensures sound { IsSoundRecord self.now.view.givens result (machine self.now).state }
    {
        self.local.number()
    }

    /// Returns how many steps the worker has taken, a leave included. The count stops at
    /// 18446744073709551615.
    pub fn steps(&self) -> u64
        ensures { result ≡ (machine self.now).state.steps }
    {
        self.local.steps()
    }

    /// Returns the job in the worker's hand: claimed, and not recorded as done.
    pub fn in_hand(&self) -> Option<u32>
        ensures { option_to_list result ≡ jobs_in_hand (machine self.now).state.phase }
    {
        self.local.in_hand()
    }

    /// Returns true if the worker has left. It then takes no further step.
    pub fn has_left(&self) -> bool
        ensures { result ≡ true ↔ (machine self.now).state.phase ≡ Phase.Left }
    {
        self.local.has_left()
    }

    /// Returns true if the worker has ended by its own choice. It then takes no further step.
    pub fn ended(&self) -> bool
        ensures { result ≡ is_over (machine self.now).state.phase }
    {
        self.local.ended()
    }

    /// Returns the jobs that the worker has claimed, in the order of its claims.
    pub fn claims(&self) -> &[u32]
        ensures { result.now ≡ (machine self.now).state.claimed }
    {
        self.local.claims()
    }

    /// Returns the jobs that the worker has done, in the order in which it recorded them.
    pub fn dones(&self) -> &[u32]
        ensures { result.now ≡ (machine self.now).state.dones }
    {
        self.local.dones()
    }
}
