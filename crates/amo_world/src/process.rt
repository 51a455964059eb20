//! One worker with the registers that it alone writes.
ghost use Rattle.std.specs.Prelude.{◌≡◌, ◌≤◌, ◌<◌, ◌+◌, length, true, false, ℕ, IfOk};
ghost use Rattle.std.specs.Vec.{vec_capacity};
ghost use Rattle.amo_kk.specs.declared.phase.Want.{Want};
ghost use Rattle.amo_params.specs.Givens.{IsWorker};
ghost use Rattle.amo_kk.specs.Record.{wants_nothing, can_leave};
ghost use Rattle.amo_kk.specs.Step.{want, is_load, record_after_leave, shown, MayLoad};
ghost use Rattle.amo_kk.specs.World.{process_after, first_process};
ghost use Rattle.amo_world.specs.Processes.{process_of, process_after_step, IsSameWorker};

use amo_kk::{Local, Shown, Want};
use amo_params::Givens;
use amo_sets::filled;
use std::alloc::{AllocError, Global};

/// A worker's state machine, its announcement, its count of claims and its row, and whether it is
/// gone.
#[derive(Drop)]
pub(crate) struct SimProcess {
    pub(crate) local: Local,
    pub(crate) next: u32,
    pub(crate) claim: u32,
    pub(crate) row: Vec<u32>,
    pub(crate) gone: bool,
}

impl SimProcess {
    /// Worker p before its first step. Its room is made here.
    pub(crate) fn new(alloc: Global, givens: Givens, p: u32) -> Result<SimProcess, AllocError>
        requires { IsWorker givens p }
        ensures process { IfOk result (λ s. process_of s ≡ first_process givens p) }
        ensures givens { IfOk result (λ s. s.local.givens ≡ givens) }
        ensures number { IfOk result (λ s. s.local.number ≡ p) }
        ensures room { IfOk result (λ s. vec_capacity s.row ≡ givens.jobs + 1) }
    {
        let local = Local::new(alloc, givens, p)?;
        let row = filled(alloc, givens.jobs as usize + 1, 0u32)?;
        let gone = local.phase().wants_nothing();
        Ok(SimProcess {
            local,
            next: 0,
            claim: 0,
            row,
            gone,
        })
    }

    /// The step of a load that gave this value.
    fn load(&mut self, value: u32) -> Shown
        requires load { is_load (want self.old.local.state) ≡ true }
        requires hears { MayLoad self.old.local.givens value (want self.old.local.state) }
        ensures process { process_of self.new ≡ process_after_step self.old value }
        ensures same { IsSameWorker self.old self.new }
        ensures shown { result ≡ shown self.old.local.state.phase self.new.local.state.phase }
    {
        let shown = self.local.told(value as u64);
        self.gone = self.local.phase().wants_nothing();
        shown
    }

    /// The announcement of j is stored.
    fn store_next(&mut self, j: u32) -> Shown
        requires { want self.old.local.state ≡ Want.StoreNext j }
        ensures process { process_of self.new ≡ process_after_step self.old 0 }
        ensures same { IsSameWorker self.old self.new }
        ensures shown { result ≡ shown self.old.local.state.phase self.new.local.state.phase }
    {
        let shown = self.local.stored();
        self.next = j;
        self.gone = self.local.phase().wants_nothing();
        shown
    }

    /// The claim of j is stored, as the worker's c-th.
    fn store_claim(&mut self, c: u32, j: u32) -> Shown
        requires { want self.old.local.state ≡ Want.StoreClaim c j }
        ensures process { process_of self.new ≡ process_after_step self.old 0 }
        ensures same { IsSameWorker self.old self.new }
        ensures shown { result ≡ shown self.old.local.state.phase self.new.local.state.phase }
    {
        let shown = self.local.stored();
        self.claim = c;
        self.gone = self.local.phase().wants_nothing();
        shown
    }

    /// Job j is filed as performed, as entry k of the row.
    fn store_done(&mut self, k: u32, j: u32) -> Shown
        requires want { want self.old.local.state ≡ Want.StoreDone k j }
        requires low { 1 ≤ k }
        requires high { k ≤ length self.old.row.items }
        ensures process { process_of self.new ≡ process_after_step self.old 0 }
        ensures same { IsSameWorker self.old self.new }
        ensures shown { result ≡ shown self.old.local.state.phase self.new.local.state.phase }
    {
        let shown = self.local.stored();
        self.row[k as usize - 1] = j;
        self.gone = self.local.phase().wants_nothing();
        shown
    }

    /// Takes the next step of the worker. The value is that of its load, and 0 for a store.
    pub(crate) fn act(&mut self, value: u32) -> Shown
        requires going { wants_nothing self.old.local.state.phase ≡ false }
        requires hears { MayLoad self.old.local.givens value (want self.old.local.state) }
        requires stores { is_load (want self.old.local.state) ≡ false → value ≡ 0 }
        requires row { length self.old.local.state.dones < length self.old.row.items }
        ensures process { process_of self.new ≡ process_after_step self.old value }
        ensures same { IsSameWorker self.old self.new }
        ensures shown { result ≡ shown self.old.local.state.phase self.new.local.state.phase }
    {
        match self.local.want() {
            Want::LoadNext(_) | Want::LoadDone(_, _) => self.load(value),
            Want::StoreNext(j) => self.store_next(j),
            Want::StoreClaim(c, j) => self.store_claim(c, j),
            Want::StoreDone(k, j) => self.store_done(k, j),
            Want::Nothing => Shown::Quiet,
        }
    }

    /// The worker takes its announcement back and is gone.
    pub(crate) fn leave(&mut self)
        requires { can_leave self.old.local.state.phase ≡ true }
        ensures process { process_of self.new ≡ process_after (Want.StoreNext 0) (process_of self.old) (record_after_leave self.old.local.state) }
        ensures same { IsSameWorker self.old self.new }
    {
        let _shown = self.local.leave();
        self.next = 0;
        self.gone = true;
    }
}
