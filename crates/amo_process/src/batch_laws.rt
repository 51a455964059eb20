//! The theorems over batches. Nothing here runs: each function's contract is a theorem.
ghost use Rattle.std.specs.Prelude.{◌≡◌, ◌≤◌, ◌+◌, ◌*◌, ◌++◌, ◌∷◌, [], ℕ, List, Some, length, if◌then◌else◌};
ghost use Rattle.amo_sets.specs.Lists.{numbered};
ghost use Rattle.amo_params.specs.Givens.{IsWorker};
ghost use Rattle.amo_params.specs.declared.givens.Givens.{Givens};
ghost use Rattle.amo_process.specs.declared.model.Happening.{Happening};
ghost use Rattle.amo_process.specs.declared.model.Happening.TheVariants.{Steps};
ghost use Rattle.amo_process.specs.declared.standing.Standing.{Standing};
ghost use Rattle.amo_process.specs.declared.batch.Item.{Item};
ghost use Rattle.amo_process.specs.Heard.{standing_of};
ghost use Rattle.amo_process.specs.Stepped.{standing_after};
ghost use Rattle.amo_process.specs.Shared.{Shared, shared_after, shared_of, standing_at, told_to_perform, AreOfWorkers, HasNoStep};
ghost use Rattle.amo_process.specs.Batch.{items_of, items_to_filing, files, left_after_all, WantsLeft, IsAtEnd, HasNoJob, AreWithin, StoresFirst, carried_out};
ghost use Rattle.amo_process.specs.Batched.{batched_of};

/// States that a process by batches is a process by single accesses. Take a part of a batch, and
/// any values for it. The worker then wants exactly what is left of the batch. So a process that
/// asks again in the middle of a batch gets the rest of it. If nothing is left, the next access is
/// no load.
pub fn batches_are_accesses()
    ensures { (g : Givens) (p : ℕ) (heard more : List ℕ) (s t : Standing) (rest : List Item) → IsWorker g p
        → standing_of g p heard ≡ Some s → left_after_all (items_of g p s) more ≡ Some rest → standing_of g p (heard ++ more) ≡ Some t
        → WantsLeft g p t rest }
{}

/// States that a batch is as long as it can be. It ends before the first access that depends on a
/// loaded value, before a job that is to be performed, and before a claim of a worker alone.
pub fn a_batch_ends_late()
    ensures { (g : Givens) (p : ℕ) (heard more : List ℕ) (s t : Standing) → IsWorker g p
        → standing_of g p heard ≡ Some s → left_after_all (items_of g p s) more ≡ Some [] → standing_of g p (heard ++ more) ≡ Some t
        → IsAtEnd p (items_of g p s) t }
{}

/// States that to carry out the first access of the rest of a batch is the step of the process.
pub fn items_are_steps()
    ensures { (g : Givens) (s : Shared) (p : ℕ) (heard more : List ℕ) (from t : Standing) (item : Item) (rest : List Item) → IsWorker g p
        → numbered [] s.lists p ≡ heard ++ more → standing_of g p heard ≡ Some from → left_after_all (items_of g p from) more ≡ Some (item ∷ rest)
        → standing_at g s p ≡ Some t → shared_after g s (Steps p) ≡ carried_out s p item }
{}

/// States that a job is to be performed, or is in doubt, before the first access of a batch, and
/// never between two accesses of it.
pub fn a_batch_tells_its_job_first()
    ensures { (g : Givens) (p : ℕ) (heard : List ℕ) (v : ℕ) (more : List ℕ) (s t : Standing) (rest : List Item) → IsWorker g p
        → standing_of g p heard ≡ Some s → left_after_all (items_of g p s) (v ∷ more) ≡ Some rest → standing_of g p (heard ++ v ∷ more) ≡ Some t
        → HasNoJob t rest }
{}

/// States that each word of a batch is a register of the round.
pub fn batches_are_within()
    ensures { (g : Givens) (p : ℕ) (heard : List ℕ) (s : Standing) → IsWorker g p → standing_of g p heard ≡ Some s → AreWithin g (items_of g p s) }
{}

/// States that the batch of a standing is that of a stepped process. After a job is recorded as
/// done, the batch of a standing goes on with what comes next.
pub fn a_batch_goes_on_behind_a_filing()
    ensures { (g : Givens) (p : ℕ) (s : Standing)
        → items_of g p s ≡ items_to_filing g p (Some s) ++ (if files s then items_to_filing g p (standing_after g p 0 [] (Some s)) else []) }
{}

/// States that a batch has at most two items for each worker, and one more.
pub fn batches_are_short()
    ensures { (g : Givens) (p : ℕ) (s : Standing) → IsWorker g p → length (items_of g p s) ≤ 2 * g.workers + 1 }
{}

/// States that all stores of a batch come before its loads. So nothing is stored in it after an
/// impossible value.
pub fn a_batch_stores_first()
    ensures { (g : Givens) (p : ℕ) (s : Standing) → StoresFirst (items_of g p s) }
{}

/// States that processes that ask for batches change the registers, and read, exactly as processes
/// do that ask before each access. The accesses may come in any order, and processes may die,
/// restart or leave anywhere.
pub fn batched_processes_are_processes()
    ensures { (g : Givens) (hs : List Happening) → AreOfWorkers g hs → (batched_of g hs).shared ≡ shared_of g hs }
{}

/// States that each job is handed to one process that asks for batches, between two of its
/// accesses. By `a_batch_tells_its_job_first` no job is handed out in the middle of a batch.
pub fn a_job_is_told_once_in_batches()
    ensures { (g : Givens) (hs more : List Happening) (p q j : ℕ) → AreOfWorkers g hs → AreOfWorkers g more → IsWorker g p → IsWorker g q → 1 ≤ j
        → told_to_perform g (batched_of g hs).shared p ≡ j → told_to_perform g (batched_of g (hs ++ more)).shared q ≡ j
        → (p ≡ q) × HasNoStep p more }
{}
