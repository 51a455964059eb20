//! The theorems over the definitions of `specs`. Nothing here runs: each function's contract is a
//! theorem, on which the crates above stand.
//!
//! Start at `history_is_a_run`. Proofs of other crates may also cite the lemmas in these files,
//! which `proofs/Lib.antt` makes public:
//!
//! - worlds and runs: `Worlds` and `Kept` (what stays lawful), `Runs` and `Steps` (a history is a
//!   run that agrees), `Claims`, `Counts` and `Room` (consequences of a run), `Shows` (results of
//!   calls), `Ends` (an end comes late), `RowSums` (all rows together have at most as many entries
//!   as there are jobs);
//! - a step or a move: `Choice` and `FirstChoice`, `Fit` and `Holding` (facts about one record),
//!   `Wants` and `Loads` (the wanted register and its value), `Growth` (claimed jobs), `Moves`
//!   (lists of moves), `OwnTurns`, `Words` and `Bits`;
//! - a worker alone: `Alone` and `Attempts`.
ghost use Rattle.std.specs.Prelude.{◌≡◌, ◌<◌, ◌≤◌, ◌↔◌, ◌+◌, ◌*◌, ℕ, suc, true, false, List, [], ◌∷◌, ◌++◌, length, slice_index, None};
ghost use Rattle.amo_sets.specs.Sets.{has, AreDistinct};
ghost use Rattle.amo_sets.specs.Rank.{count, has_rank};
ghost use Rattle.amo_params.specs.Limits.{AreWithinLimits, first_fault};
ghost use Rattle.amo_params.specs.Givens.{bound, IsJob, IsWorker, IsOther, lone_bound};
ghost use Rattle.amo_kk.specs.Object.{first_object};
ghost use Rattle.amo_kk.specs.Run.{IsRun, first_bad, IsFirstBad, claimed_jobs, done_jobs, has_claimed};
ghost use Rattle.amo_kk.specs.Record.{can_leave, is_free, is_open, is_over, wants_nothing, jobs_in_hand};
ghost use Rattle.amo_kk.specs.Choice.{chosen_rank, chosen_job, first_record};
ghost use Rattle.amo_kk.specs.Step.{want, events_of};
ghost use Rattle.amo_params.specs.Moves.{has_halt};
ghost use Rattle.amo_kk.specs.World.{process, loaded_value, world_after_turn, world_after_leave, world_after_move, done_count, world_of};
ghost use Rattle.amo_kk.specs.Words.{words_of, loaded_word, words_after};
ghost use Rattle.amo_kk.specs.Answer.{turn_shown, leave_answer};
ghost use Rattle.amo_kk.specs.Alone.{IsFirstToClaimOrEnd, FitsThreeAttempts};
ghost use Rattle.amo_kk.specs.Lawful.{IsLawful, Agrees, object_of, GoesOn};
ghost use Rattle.amo_params.specs.declared.givens.Givens.{Givens};
ghost use Rattle.amo_params.specs.declared.moves.Move.{Move};
ghost use Rattle.amo_kk.specs.declared.event.Event.{Event};
ghost use Rattle.amo_kk.specs.declared.event.Event.TheVariants.{Done, Ended, Left};
ghost use Rattle.amo_kk.specs.declared.event.Leaving.TheVariants.{Left as LeftNow, InHand, Gone};
ghost use Rattle.amo_kk.specs.declared.model.Record.{Record};
ghost use Rattle.amo_kk.specs.declared.model.World.{World};
ghost use Rattle.amo_kk.specs.declared.model.Object.{Object};
ghost use Rattle.amo_kk.specs.declared.phase.Want.TheVariants.{StoreNext};
ghost use Rattle.amo_kk.specs.declared.phase.Phase.TheVariants.{Announcing, Holding, Over};

/// States that after every list of turns, halts and leaves the world is lawful, and its history is
/// a run of the one sequential object. The state that the run leaves agrees with the world. This is
/// the main theorem, for all givens.
pub fn history_is_a_run()
    ensures lawful { (g : Givens) (moves : List Move) → IsLawful g (world_of g moves) }
    ensures run { (g : Givens) (moves : List Move)
        → IsRun g (first_object g) (world_of g moves).history }
    ensures agrees { (g : Givens) (moves : List Move)
        → Agrees g (process (world_of g moves)) (object_of g (world_of g moves)) }
{}

/// States that each turn, halt and leave leads from a lawful world to a lawful world. It is one
/// step of the main theorem. And the run goes on: take any state that agrees with the world before.
/// The events that the move adds are a run from that state, and the state after them agrees with
/// the world after.
pub fn moves_keep_worlds_lawful()
    ensures lawful { (g : Givens) (w : World) (m : Move) → IsLawful g w → IsLawful g (world_after_move g w m) }
    ensures run { (g : Givens) (s : Object) (w : World) (m : Move) → IsLawful g w → Agrees g (process w) s
        → GoesOn g s w (world_after_move g w m) }
{}

/// States that in a run no job is claimed twice, and none is done twice. Each job is done after a
/// claim of the same worker. A worker ends only after at least `bound` jobs are done. These are the
/// consequences of a run in plain words.
pub fn runs_claim_once()
    ensures claims { (g : Givens) (events : List Event) → IsRun g (first_object g) events → AreDistinct (claimed_jobs events) }
    ensures dones { (g : Givens) (events : List Event) → IsRun g (first_object g) events → AreDistinct (done_jobs events) }
    ensures claimed_before { (g : Givens) (before after : List Event) (p j : ℕ)
        → IsRun g (first_object g) (before ++ Done p j ∷ after) → has_claimed before p j ≡ true }
    ensures late_end { (g : Givens) (before after : List Event) (p : ℕ)
        → IsRun g (first_object g) (before ++ Ended p ∷ after) → bound g ≤ length (done_jobs before) }
{}

/// States that in a lawful world in which a worker has ended by its own choice, all workers
/// together have done at least `bound` jobs.
pub fn ends_come_late()
    ensures { (g : Givens) (w : World) (p : ℕ) → IsLawful g w → IsWorker g p → is_over (process w p).local.phase ≡ true
        → bound g ≤ done_count w }
{}

/// States that a run has at most two events for each job and one for each worker.
pub fn runs_are_short()
    ensures { (g : Givens) (events : List Event) → IsRun g (first_object g) events → length events ≤ 2 * g.jobs + g.workers }
{}

/// States that `first_bad` is 0 exactly for runs, and otherwise the number of the first event that
/// is no step of the object.
pub fn first_bad_is_the_first()
    ensures run { (g : Givens) (s : Object) (events : List Event) → first_bad g s events ≡ 0 ↔ IsRun g s events }
    ensures bad { (g : Givens) (s : Object) (events : List Event) (i : ℕ)
        → first_bad g s events ≡ suc i → IsFirstBad g s events (suc i) }
{}

/// States that in every lawful world a worker that isn't gone, and moves alone, claims a job or
/// ends within `lone_bound` turns: `6 * workers + jobs`.
pub fn alone_claims_or_ends_soon()
    ensures { (g : Givens) (w : World) (p : ℕ) → IsLawful g w → (process w p).gone ≡ false
        → (i : ℕ) × (i < lone_bound g) × IsFirstToClaimOrEnd g w p i }
{}

/// States that a worker that moves alone claims a job or ends in at most three attempts. One that
/// was under way before counts. Each attempt stores at most one announcement, and reads at most
/// `workers - 1` announcements and at most `workers - 1` zeros. No entry of a row is read twice.
pub fn alone_takes_three_attempts()
    ensures { (g : Givens) (w : World) (p i : ℕ) → IsLawful g w → (process w p).gone ≡ false
        → IsFirstToClaimOrEnd g w p i → FitsThreeAttempts g w p i }
{}

/// States that the registers behave as one list of words. A turn loads the wanted word, and makes
/// exactly its one store. A leave stores 0 to the announcement.
pub fn words_are_laid_out()
    ensures loads { (g : Givens) (w : World) (p : ℕ) → IsLawful g w → IsWorker g p
        → loaded_value w (want (process w p).local) ≡ slice_index (words_of w.processes) (loaded_word g (want (process w p).local)) }
    ensures stores { (g : Givens) (w : World) (p : ℕ) → IsLawful g w → (process w p).gone ≡ false
        → words_of (world_after_turn g w p).processes ≡ words_after g p (want (process w p).local) (words_of w.processes) }
    ensures leaves { (g : Givens) (w : World) (p : ℕ) → IsLawful g w → (process w p).gone ≡ false → can_leave (process w p).local.phase ≡ true
        → words_of (world_after_leave w p).processes ≡ words_after g p (StoreNext 0) (words_of w.processes) }
{}

/// States that the result of a turn or a leave is what the move adds to the history. A worker that
/// doesn't leave changes nothing by the request.
pub fn answers_are_history()
    ensures turn { (g : Givens) (w : World) (p : ℕ) → (process w p).gone ≡ false
        → (world_after_turn g w p).history ≡ w.history ++ events_of p (turn_shown g w p) }
    ensures idle { (g : Givens) (w : World) (p : ℕ) → (process w p).gone ≡ true → world_after_turn g w p ≡ w }
    ensures left { (w : World) (p : ℕ) → leave_answer w p ≡ LeftNow → (world_after_leave w p).history ≡ w.history ++ Left p ∷ [] }
    ensures in_hand { (w : World) (p j : ℕ) → leave_answer w p ≡ InHand j
        → ((process w p).local.phase ≡ Holding j) × (world_after_leave w p ≡ w) }
    ensures gone { (w : World) (p : ℕ) → leave_answer w p ≡ Gone → world_after_leave w p ≡ w }
{}

/// States that three numbers are within the limits exactly if they break no limit.
pub fn faults_are_limits()
    ensures { (jobs workers beta : ℕ) → first_fault jobs workers beta ≡ None ↔ AreWithinLimits jobs workers beta }
{}

/// States that if the choice goes on, a job of the wanted rank exists, and it is neither known nor
/// tried.
pub fn choice_finds_a_job()
    ensures { (g : Givens) (p : ℕ) (r : Record) → IsWorker g p → length r.tried < g.workers → g.beta ≤ count g.jobs (is_open r)
        → IsJob g (chosen_job g p r)
        × (has_rank (is_open r) (chosen_rank g p (count g.jobs (is_free r))) (chosen_job g p r) ≡ true)
        × (has r.known (chosen_job g p r) ≡ false) × (has r.tried (chosen_job g p r) ≡ false) }
{}

/// States that if there are at least `beta` jobs, the first choice of worker p is the job whose
/// number is the rank that p wants among all. These jobs rise strictly with p. If there are fewer
/// jobs, p has ended from birth.
pub fn first_choices_differ()
    ensures first { (g : Givens) (p : ℕ) → IsWorker g p → g.beta ≤ g.jobs → (first_record g p).phase ≡ Announcing (chosen_rank g p g.jobs) }
    ensures rise { (g : Givens) (p q : ℕ) → IsWorker g p → IsWorker g q → p < q → chosen_rank g p g.jobs < chosen_rank g q g.jobs }
    ensures none { (g : Givens) (p : ℕ) → g.jobs < g.beta → (first_record g p).phase ≡ Over }
{}

/// States that in every lawful world the claimed jobs of a worker are its done jobs and then the
/// job in its hand, each once.
pub fn claims_are_dones_and_in_hand()
    ensures list { (g : Givens) (w : World) (p : ℕ) → IsLawful g w → IsWorker g p
        → (process w p).local.claimed ≡ (process w p).local.dones ++ jobs_in_hand (process w p).local.phase }
    ensures distinct { (g : Givens) (w : World) (p : ℕ) → IsLawful g w → IsWorker g p → AreDistinct (process w p).local.claimed }
{}

/// States that in every lawful world no job is claimed by two workers.
pub fn claims_are_apart()
    ensures { (g : Givens) (w : World) (p q j : ℕ) → IsLawful g w → IsWorker g p → IsOther g p q
        → has (process w p).local.claimed j ≡ true → has (process w q).local.claimed j ≡ false }
{}

/// States that after moves without a halt the workers that are gone are exactly those that have
/// ended or left.
pub fn gone_without_stops()
    ensures { (g : Givens) (moves : List Move) (p : ℕ) → has_halt moves ≡ false
        → (process (world_of g moves) p).gone
        ≡ wants_nothing (process (world_of g moves) p).local.phase }
{}
