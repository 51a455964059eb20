//! The theorems on what C sees: it is what the processes of the definitions do. Nothing here runs.
ghost use Rattle.std.specs.Prelude.{◌≡◌, ◌≢◌, ◌+◌, ◌++◌, ◌∷◌, [], ℕ, true, Bool, List, Some, Ok, Err};
ghost use Rattle.amo_params.specs.Givens.{IsWorker};
ghost use Rattle.amo_kk.specs.Record.{job_in_hand};
ghost use Rattle.amo_kk.specs.Machine.{LocalView};
ghost use Rattle.amo_process.specs.Batch.{items_of, left_after_all};
ghost use Rattle.amo_process.specs.Heard.{standing_of, to_perform, in_doubt};
ghost use Rattle.amo_process.specs.Stepped.{has_ended};
ghost use Rattle.amo_process.specs.Shared.{Shared, standing_at, shared_after, with_new_process};
ghost use Rattle.amo_process.specs.declared.batch.Item.{Item};
ghost use Rattle.amo_process.specs.declared.model.Happening.TheVariants.{Steps, Leaves};
ghost use Rattle.amo_process.specs.declared.standing.Standing.{Standing};
ghost use Rattle.amo_process.specs.declared.standing.Standing.TheVariants.{Going};
ghost use Rattle.amo_c.specs.Batch.{item_told, Tells};
ghost use Rattle.amo_c.specs.Codes.{access_code, phase_code};
ghost use Rattle.amo_c.specs.Told.{next_of, leave_by};
ghost use Rattle.amo_c.specs.Carried.{carried_out};
ghost use Rattle.amo_c.specs.declared.codes.AccessCode.TheVariants.{Nothing, Load};
ghost use Rattle.amo_c.specs.declared.codes.FaultCode.{FaultCode};
ghost use Rattle.amo_c.specs.declared.codes.PhaseCode.TheVariants.{Over};
ghost use Rattle.amo_c.specs.declared.told.AmoNext.{AmoNext};
ghost use Rattle.amo_c.specs.declared.worker.Worker.{Worker};

/// States that to carry out the access of `amo_next` is the step of the worker's process. To carry
/// out the store of `amo_leave` is its leave. If it may not leave, a leave changes nothing.
pub fn what_is_told_is_done()
    ensures steps { (w : Worker) (s : Shared) (t : Standing) → standing_at w.givens s w.number ≡ Some t
        → shared_after w.givens s (Steps w.number) ≡ carried_out s w.number (next_of w t) }
    ensures leaves { (w : Worker) (s : Shared) (t : Standing) (n : AmoNext) → standing_at w.givens s w.number ≡ Some t → leave_by w t ≡ Ok n
        → shared_after w.givens s (Leaves w.number) ≡ with_new_process s w.number (carried_out s w.number n).words }
    ensures stays { (w : Worker) (s : Shared) (t : Standing) (e : FaultCode) → standing_at w.givens s w.number ≡ Some t → leave_by w t ≡ Err e
        → shared_after w.givens s (Leaves w.number) ≡ s }
{}

/// States that a job in a worker's hand is the job to perform or the job in doubt, and never both.
/// Both are those of the definitions.
pub fn a_job_in_hand_is_told()
    ensures performs { (w : Worker) (t : Standing) → (next_of w t).perform ≡ to_perform t }
    ensures doubts { (w : Worker) (t : Standing) → (next_of w t).doubt ≡ in_doubt t }
    ensures in_hand { (w : Worker) (l : LocalView) (fresh : Bool)
        → (next_of w (Going l fresh)).perform + (next_of w (Going l fresh)).doubt ≡ job_in_hand l.state.phase }
{}

/// States that C sees the phase `Over` exactly if the worker has ended by its own choice. Then it
/// has no access to make.
pub fn an_end_is_told()
    ensures told { (w : Worker) (t : Standing) → (next_of w t).phase ≡ phase_code Over → has_ended (Some t) ≡ true }
    ensures ended { (w : Worker) (t : Standing) → has_ended (Some t) ≡ true
        → ((next_of w t).phase ≡ phase_code Over) × ((next_of w t).access ≡ access_code Nothing) }
{}

/// States that a process by batches makes the accesses of `amo_next`. Take a part of a batch, and
/// any values for it. `amo_next` then returns the first access of the first item that is left. If
/// nothing is left, it returns no load.
pub fn a_batch_tells_what_next_tells()
    ensures rest { (w : Worker) (heard more : List ℕ) (s t : Standing) (item : Item) (rest : List Item) → IsWorker w.givens w.number
        → standing_of w.givens w.number heard ≡ Some s → left_after_all (items_of w.givens w.number s) more ≡ Some (item ∷ rest)
        → standing_of w.givens w.number (heard ++ more) ≡ Some t → Tells (next_of w t) (item_told item) }
    ensures end { (w : Worker) (heard more : List ℕ) (s t : Standing) → IsWorker w.givens w.number
        → standing_of w.givens w.number heard ≡ Some s → left_after_all (items_of w.givens w.number s) more ≡ Some []
        → standing_of w.givens w.number (heard ++ more) ≡ Some t → (next_of w t).access ≢ access_code Load }
{}
