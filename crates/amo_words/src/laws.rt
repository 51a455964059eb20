//! The theorems over the shared state and the registry, for the crates above. Nothing here runs:
//! each function's contract is a theorem.
ghost use Rattle.std.specs.Prelude.{◌≡◌, ◌≢◌, ◌≤◌, ◌++◌, ℕ, List, [], get_or, true, false, Option};
ghost use mathlib.Core.Option.{some};
ghost use lib.ListN.{get_elem?};
ghost use Rattle.atomic_table.specs.Table.{State};
ghost use Rattle.amo_sets.specs.Sets.{has};
ghost use Rattle.amo_params.specs.Givens.{IsWorker, bound};
ghost use Rattle.amo_kk.specs.Record.{is_over};
ghost use Rattle.amo_kk.specs.World.{done_count, world_of};
ghost use Rattle.amo_kk.specs.Words.{words_of, claim_word, done_word};
ghost use Rattle.amo_words.specs.Faces.{ClosedView};
ghost use Rattle.amo_words.specs.Settling.{IsReadFrom, row_in, hand_in_words, settled_claims, settled_dones};
ghost use Rattle.amo_kk.specs.Lawful.{IsLawful};
ghost use Rattle.amo_kk.specs.Machine.{LocalView};
ghost use Rattle.amo_params.specs.declared.givens.Givens.{Givens};
ghost use Rattle.amo_params.specs.declared.moves.Move.{Move};
ghost use Rattle.amo_words.specs.declared.rule.Spot.{Spot};
ghost use Rattle.amo_words.specs.declared.rule.Role.{Role};
ghost use Rattle.amo_words.specs.declared.floor.settling.Settlement.{Settlement};
ghost use Rattle.amo_words.specs.declared.rule.Key.{Key};
ghost use Rattle.amo_words.specs.declared.rule.View.{View};
ghost use Rattle.amo_words.specs.Logs.{machine_after, moves_of, AreOwn, StartsWith};
ghost use Rattle.amo_words.specs.Rule.{AllStand, Has, HasWhole, IsOpen, SlotsFit, spent_view};
ghost use Rattle.amo_words.specs.Looking.{IsBack, back_count};

/// States that at each moment the shared registers are those of a lawful world, reached by a list
/// of turns and leaves. Some handle has seen that whole list, or got it from a worker. Any other
/// has seen a beginning of it. Each worker's machine is in the view of one handle alone, as it is
/// in that world. A worker that is out has seen all its own moves. All views but spent ones have
/// the floor's givens and payloads, and got a beginning of the list. A job's slot has its payload
/// exactly until the job is claimed.
pub fn floors_show_worlds<P>()
    ensures world { (k : Key P) (s : State (Option P) (View P)) (h : IsOpen k s)
        → (s.words ≡ words_of (world_of k.givens h.log).processes) × IsLawful k.givens (world_of k.givens h.log) × AreOwn k.givens h.log }
    ensures list { (k : Key P) (s : State (Option P) (View P)) (h : IsOpen k s)
        → HasWhole h.log s.views × ((id : ℕ) (v : View P) → get_elem? s.views id ≡ some v → v ≢ spent_view → StartsWith h.log v.seen) }
    ensures found { (k : Key P) (s : State (Option P) (View P)) (h : IsOpen k s) (p : ℕ) → IsWorker k.givens p
        → (v : View P) × (get_elem? s.views (h.seat p) ≡ some v) × Has v.role (machine_after k.givens h.log p) }
    ensures only { (k : Key P) (s : State (Option P) (View P)) (h : IsOpen k s) (p id : ℕ) (v : View P) → IsWorker k.givens p
        → get_elem? s.views id ≡ some v → Has v.role (machine_after k.givens h.log p) → h.seat p ≡ id }
    ensures out { (k : Key P) (s : State (Option P) (View P)) (h : IsOpen k s) (id : ℕ) (v : View P) (l : LocalView) → get_elem? s.views id ≡ some v
        → v.role ≡ Role.Working l → (l ≡ machine_after k.givens h.log l.number) × (moves_of l.number h.log ≡ moves_of l.number v.seen) }
    ensures book { (k : Key P) (s : State (Option P) (View P)) (h : IsOpen k s) (id : ℕ) (v : View P) (spots : List Spot) → get_elem? s.views id ≡ some v
        → v.role ≡ Role.Keeping spots → AllStand k.givens h.log spots }
    ensures known { (k : Key P) (s : State (Option P) (View P)) (h : IsOpen k s) (id : ℕ) (v : View P) → get_elem? s.views id ≡ some v
        → v ≢ spent_view → (v.givens ≡ k.givens) × (v.payloads ≡ k.payloads.value.items) × StartsWith h.log v.moves }
    ensures slots { (k : Key P) (s : State (Option P) (View P)) (h : IsOpen k s) → SlotsFit (world_of k.givens h.log) k.payloads.value.items s.homes }
{}

/// States that the workers that were collected stand in one lawful world, in which no job is
/// claimed by two of them.
pub fn met_workers_agree()
    ensures lawful { (g : Givens) (log : List Move) → IsLawful g (world_of g log) }
    ensures stand { (g : Givens) (log : List Move) (spots : List Spot) (p : ℕ) (l : LocalView)
        → AllStand g log spots → IsBack spots p l → l ≡ machine_after g log p }
    ensures worker { (g : Givens) (log : List Move) (spots : List Spot) (p : ℕ) (l : LocalView)
        → AllStand g log spots → IsBack spots p l → IsWorker g p }
    ensures distinct { (g : Givens) (log : List Move) (spots : List Spot) (p q j : ℕ) (l m : LocalView)
        → AllStand g log spots → IsBack spots p l → IsBack spots q m → q ≢ p → has l.state.claimed j ≡ true → has m.state.claimed j ≡ false }
{}

/// States that the workers that were collected have together done at most as many jobs as there
/// are.
pub fn met_workers_do_each_job_once()
    ensures { (g : Givens) (log : List Move) (spots : List Spot) → AllStand g log spots → back_count spots ≤ g.jobs }
{}

/// States that if a collected worker had ended by its own choice, all workers together have done at
/// least `bound` jobs.
pub fn met_ends_come_late()
    ensures { (g : Givens) (log : List Move) (spots : List Spot) (p : ℕ) (l : LocalView)
        → AllStand g log spots → IsBack spots p l → is_over l.state.phase ≡ true → bound g ≤ done_count (world_of g log) }
{}

/// States that the moves that a collected worker had seen are a beginning of the moves that the
/// registry has seen from then on. So the steps of all collected workers stand in the registry's
/// list, each in the order in which its worker saw them. Each beginning of a list of turns and
/// leaves is such a list, as is the one with which a final accounting begins.
pub fn seen_lists_begin()
    ensures later { (log seen first : List Move) → StartsWith log seen → StartsWith seen first → StartsWith log first }
    ensures turns { (g : Givens) (log seen : List Move) → AreOwn g log → StartsWith log seen → AreOwn g seen }
{}

/// States that the final accounting of a closed floor repeats the registers as they stood. Of a
/// lost worker it has the row up to the first 0, and its announcement as a claim if its count of
/// claims is one more. It has no job of a worker whose registers are 0.
pub fn settlements_say_what_words_say<P>()
    ensures dones { (c : ClosedView P) (s : Settlement P) (p : ℕ) → IsReadFrom c s → IsWorker c.givens p → settled_dones s p ≡ row_in c.givens c.words p }
    ensures claims { (c : ClosedView P) (s : Settlement P) (p : ℕ) → IsReadFrom c s → IsWorker c.givens p
        → settled_claims s p ≡ row_in c.givens c.words p ++ hand_in_words c.givens c.words p }
    ensures idle { (c : ClosedView P) (s : Settlement P) (p : ℕ) → IsReadFrom c s → IsWorker c.givens p
        → get_or c.words (done_word c.givens p 1) 0 ≡ 0 → get_or c.words (claim_word c.givens p) 0 ≡ 0 → (settled_claims s p ≡ []) × (settled_dones s p ≡ []) }
{}
