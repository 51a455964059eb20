//! The theorems over processes. Nothing here runs: each function's contract is a theorem.
ghost use Rattle.std.specs.Prelude.{◌≡◌, ◌≤◌, ◌++◌, ℕ, true, Bool, List, Some};
ghost use Rattle.amo_params.specs.Givens.{bound, IsWorker};
ghost use Rattle.amo_kk.specs.Record.{is_over};
ghost use Rattle.amo_kk.specs.Machine.{LocalView};
ghost use Rattle.amo_params.specs.declared.givens.Givens.{Givens};
ghost use Rattle.amo_restart.specs.Return.{tale_of, filed_in};
ghost use Rattle.amo_process.specs.declared.model.Happening.{Happening};
ghost use Rattle.amo_process.specs.declared.standing.Standing.TheVariants.{Going};
ghost use Rattle.amo_process.specs.Heard.{standing_of};
ghost use Rattle.amo_process.specs.Stepped.{new_process, process_after_all, access_of};
ghost use Rattle.amo_process.specs.Shared.{Shared, shared_of, shared_after_step, shared_after_access, shared_after_all, standing_at, acts_of, told_to_perform, Shows, AreOfWorkers, HasNoStep};

/// States that processes over one list of registers are a restart trace of the algorithm. The
/// registers are 0 at first. Each process knows only what it has read since it began. Their
/// accesses may come in any order, and processes may die, restart or leave anywhere. The trace has
/// their registers, and each worker's record in it is that of its list of values.
pub fn processes_are_a_tale()
    ensures { (g : Givens) (hs : List Happening) → AreOfWorkers g hs → Shows g (shared_of g hs) (tale_of g (acts_of g hs)) }
{}

/// States that the access that `want` returns is the step of the process: it changes the registers
/// and the list of values as that load or store does.
pub fn an_access_is_a_step()
    ensures { (g : Givens) (s : Shared) (p : ℕ)
        → shared_after_step g s p (standing_at g s p) ≡ shared_after_access s p (access_of g p (standing_at g s p)) }
{}

/// States that a `Process` that was given these values one by one is in the standing of the whole
/// list.
pub fn a_stepped_process_stands_by_its_list()
    ensures { (g : Givens) (p : ℕ) (heard : List ℕ) → (process_after_all (new_process g p) heard).standing ≡ standing_of g p heard }
{}

/// States that each job is handed to one process, between two of its accesses. If a job is handed
/// to p, and later to q, then p is q. In between it made no access, and no process began as p.
pub fn a_job_is_told_once()
    ensures { (g : Givens) (hs more : List Happening) (p q j : ℕ) → AreOfWorkers g hs → AreOfWorkers g more → IsWorker g p → IsWorker g q → 1 ≤ j
        → told_to_perform g (shared_of g hs) p ≡ j → told_to_perform g (shared_after_all g (shared_of g hs) more) q ≡ j
        → (p ≡ q) × HasNoStep p more }
{}

/// States that once a worker has ended by its own choice, the registers show at least `bound` jobs
/// as done.
pub fn ends_are_told_late()
    ensures { (g : Givens) (hs : List Happening) (p : ℕ) (l : LocalView) (fresh : Bool) → AreOfWorkers g hs → IsWorker g p
        → standing_at g (shared_of g hs) p ≡ Some (Going l fresh) → is_over l.state.phase ≡ true
        → bound g ≤ filed_in g (shared_of g hs).words }
{}
