//! The theorems on workers that restart. Nothing here runs: each function's contract is a theorem.
//! Start at `tale_is_a_story`.
ghost use Rattle.std.specs.Prelude.{◌≡◌, ◌≢◌, ◌≤◌, ◌+◌, ℕ, true, false, List, ◌∷◌, ◌++◌, length, map};
ghost use Rattle.amo_sets.specs.Sets.{has, AreDistinct};
ghost use Rattle.amo_params.specs.Givens.{bound, IsWorker};
ghost use Rattle.amo_kk.specs.Record.{job_in_hand};
ghost use Rattle.amo_params.specs.Moves.{worker_of};
ghost use Rattle.amo_kk.specs.World.{process, done_count, world_of};
ghost use Rattle.amo_kk.specs.Words.{words_of};
ghost use Rattle.amo_kk.specs.Object.{first_object};
ghost use Rattle.amo_kk.specs.Run.{claimed_jobs, has_claimed};
ghost use Rattle.amo_kk.specs.Lawful.{IsLawful, Agrees};
ghost use Rattle.amo_params.specs.declared.givens.Givens.{Givens};
ghost use Rattle.amo_kk.specs.declared.model.World.{World};
ghost use Rattle.amo_kk.specs.declared.event.Event.TheVariants.{Done, Ended};
ghost use Rattle.amo_params.specs.declared.moves.Move.{Move};
ghost use Rattle.amo_kk.specs.declared.model.Process.{Process};
ghost use Rattle.amo_restart.specs.declared.model.Act.{Act};
ghost use Rattle.amo_restart.specs.declared.model.Act.TheVariants.{Moves};
ghost use Rattle.amo_restart.specs.declared.model.Entry.{Entry};
ghost use Rattle.amo_restart.specs.declared.model.Entry.TheVariants.{Shown, Returned};
ghost use Rattle.amo_restart.specs.declared.model.Tale.{Tale};
ghost use Rattle.amo_kk.specs.Again.{entries_of, doubt};
ghost use Rattle.amo_restart.specs.Return.{process_after_return, tale_of, tale_after_move, tale_after_return, filed_in, world_of_tale, entries_for};
ghost use Rattle.amo_restart.specs.Story.{IsStory, object_after_entries, events_in, doubted_jobs, returns_in_doubt, filed_jobs, sure_jobs, may_perform, HasNoDeed};

/// States that the entries of every list of turns, halts, leaves and returns are a story of the one
/// sequential object. All that holds of every world holds. The state that the story leaves agrees
/// with the workers. This is the main theorem, for all givens.
pub fn tale_is_a_story()
    ensures lawful { (g : Givens) (acts : List Act) → IsLawful g (world_of_tale (tale_of g acts)) }
    ensures story { (g : Givens) (acts : List Act) → IsStory g (first_object g) (tale_of g acts).entries }
    ensures agrees { (g : Givens) (acts : List Act)
        → Agrees g (process (world_of_tale (tale_of g acts))) (object_after_entries (first_object g) (tale_of g acts).entries) }
{}

/// States that over all returns no job is claimed twice, and none is filed twice. Each job that is
/// filed, or in doubt at a return, was claimed before by the same worker. A job in doubt is not
/// filed. These are the consequences of a story in plain words.
pub fn stories_claim_once()
    ensures claims { (g : Givens) (xs : List Entry) → IsStory g (first_object g) xs → AreDistinct (claimed_jobs (events_in xs)) }
    ensures filed { (g : Givens) (xs : List Entry) → IsStory g (first_object g) xs → AreDistinct (filed_jobs xs) }
    ensures claimed_before { (g : Givens) (before after : List Entry) (p j : ℕ)
        → IsStory g (first_object g) (before ++ Shown (Done p j) ∷ after) → has_claimed (events_in before) p j ≡ true }
    ensures doubt_was_claimed { (g : Givens) (before after : List Entry) (p j : ℕ)
        → IsStory g (first_object g) (before ++ Returned p j ∷ after) → 1 ≤ j
        → (has_claimed (events_in before) p j ≡ true) × (has (filed_jobs before) j ≡ false) }
{}

/// States that a job is performed at most once. The moments at which it may be performed are one
/// stretch, of one worker, after its claim. No claim, filing or return of that worker stands in
/// between.
pub fn jobs_have_one_stretch()
    ensures { (g : Givens) (before more : List Entry) (p q j : ℕ) → IsStory g (first_object g) (before ++ more) → 1 ≤ j
        → may_perform p 0 before ≡ j → may_perform q 0 (before ++ more) ≡ j → (p ≡ q) × HasNoDeed p more }
{}

/// States that if a worker has ended by its own choice, at least `bound` jobs are filed. The jobs
/// performed for certain are fewer, by at most the jobs that were in doubt at a return. These are
/// no more than the returns that found a job in doubt.
pub fn stories_end_late()
    ensures filed { (g : Givens) (before after : List Entry) (p : ℕ)
        → IsStory g (first_object g) (before ++ Shown (Ended p) ∷ after) → bound g ≤ length (filed_jobs before) }
    ensures sure { (g : Givens) (before after : List Entry) (p : ℕ)
        → IsStory g (first_object g) (before ++ Shown (Ended p) ∷ after) → bound g ≤ length (sure_jobs before) + length (doubted_jobs before) }
    ensures doubts { (xs : List Entry) → length (doubted_jobs xs) ≤ returns_in_doubt xs }
{}

/// States that in every lawful world the words of a worker show all that matters of it. Its row
/// shows what it has done. The count of its claims shows whether a job is in its hand, and its
/// announcement shows which. So the claims, too, are as they were. The entries of all rows are as
/// many as the jobs that are filed.
pub fn words_tell_claims()
    ensures dones { (g : Givens) (w : World) (p : ℕ) → IsLawful g w → IsWorker g p
        → entries_of (process w p).row ≡ (process w p).local.dones }
    ensures in_hand { (g : Givens) (w : World) (p : ℕ) → IsLawful g w → IsWorker g p
        → doubt (process w p).next (process w p).claim (entries_of (process w p).row) ≡ job_in_hand (process w p).local.phase }
    ensures claims { (g : Givens) (w : World) (p : ℕ) → IsLawful g w → IsWorker g p
        → (process_after_return g p (process w p)).local.claimed ≡ (process w p).local.claimed }
    ensures filed { (g : Givens) (w : World) → IsLawful g w → filed_in g (words_of w.processes) ≡ done_count w }
{}

/// States that a return stores nothing, and depends on the worker's own words alone. So a return
/// that was cut off may begin again, and one more return changes nothing. It may stand before or
/// after a move of another worker, so its loads are as good as one.
pub fn returns_touch_no_word()
    ensures words { (g : Givens) (t : Tale) (p : ℕ) → words_of (tale_after_return g t p).processes ≡ words_of t.processes }
    ensures own { (g : Givens) (p : ℕ) (a b : Process) → a.next ≡ b.next → a.claim ≡ b.claim → a.row ≡ b.row
        → process_after_return g p a ≡ process_after_return g p b }
    ensures again { (g : Givens) (p : ℕ) (a : Process) → process_after_return g p (process_after_return g p a) ≡ process_after_return g p a }
    ensures any_moment { (g : Givens) (t : Tale) (p : ℕ) (m : Move) → length t.processes ≡ g.workers → worker_of m ≢ p
        → (tale_after_move g (tale_after_return g t p) m).processes ≡ (tale_after_return g (tale_after_move g t m) p).processes }
{}

/// States that without returns nothing is new: the tale of some moves has the workers of their
/// world, and its history.
pub fn tales_without_returns()
    ensures workers { (g : Givens) (moves : List Move)
        → (tale_of g (map (λ (m : Move). Moves m) moves)).processes ≡ (world_of g moves).processes }
    ensures history { (g : Givens) (moves : List Move)
        → (tale_of g (map (λ (m : Move). Moves m) moves)).entries ≡ entries_for (world_of g moves).history }
{}
