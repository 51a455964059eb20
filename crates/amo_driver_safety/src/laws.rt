//! The theorems over the definitions. Nothing here runs: each function's contract is a law.
ghost use Rattle.std.specs.Prelude.{◌≡◌, ◌⊎◌, ℕ, true, false, List, [], ◌∷◌, ◌++◌, Some, None};
ghost use Rattle.amo_sets.specs.Sets.{has, AreDistinct};
ghost use Rattle.amo_params.specs.Givens.{IsWorker};
ghost use Rattle.amo_params.specs.declared.givens.Givens.{Givens};
ghost use Rattle.amo_driver.specs.declared.answer.JobResult.{JobResult};
ghost use Rattle.amo_driver.specs.declared.answer.Reply.{Reply};
ghost use Rattle.amo_driver.specs.Course.{try_of, due, stage_after_all, AreDue, first_stage};
ghost use Rattle.amo_driver.specs.Stage.{Stage};
ghost use Rattle.amo_driver.specs.Standing.{MayCall, Moves};
ghost use Rattle.amo_driver.specs.declared.model.Deed.{Deed};
ghost use Rattle.amo_driver.specs.declared.model.Deed.TheVariants.{Intended, Cleared, Performed, Fell};
ghost use Rattle.amo_driver.specs.declared.model.Try.{Try};
ghost use Rattle.amo_driver.specs.declared.model.Try.TheVariants.{Find, Intend, Clear, Perform, Note};
ghost use Rattle.amo_driver_safety.specs.Course.{handed_by_deeds, HasJustCleared, HasJustAnswered, HasJustFoundTaken, tells_to_leave, TakesLeave, PassesOver};
ghost use Rattle.amo_driver_safety.specs.Log.{Stands, Log, log_of, StandsBy};
ghost use Rattle.amo_driver_safety.specs.Scene.{stage_at, scene_of, IsTrue, MayBe, IsHistory, handed_jobs};
ghost use Rattle.amo_driver_safety.specs.Tries.{worker_of, tried_in, NoneBegins};
ghost use Rattle.amo_driver_safety.specs.declared.model.Moment.{Moment};
ghost use Rattle.amo_driver_safety.specs.declared.model.Moment.TheVariants.{Does, Loses};

/// States that jobs are performed once, over any number of processes, which die at any point and
/// begin again. Their accesses are interleaved in any way over one list of words. Each job is
/// handed to a partner at most once, whether the partner replies, the call fails, or the process
/// dies in it. So it is performed at most once.
pub fn jobs_are_performed_once()
    ensures { (g : Givens) (ms : List Moment) → IsHistory g ms → AreDistinct (handed_jobs ms) }
{}

/// States that at most one intent of each job is tried, whether it comes about or not, and none
/// once the job was handed over. The process that has tried the intent hands the job over, by that
/// very intent. No later process of that worker does so, and no other worker.
pub fn a_job_is_handed_over_by_its_intent()
    ensures one { (g : Givens) (before mid : List Moment) (x y : Moment) (n m j : ℕ) → IsHistory g (before ++ x ∷ mid ++ y ∷ [])
        → tried_in x ≡ Some (Intend n j) → tried_in y ≡ Some (Intend m j) → ⊥ }
    ensures before { (g : Givens) (before mid : List Moment) (x y : Moment) (n m j : ℕ) → IsHistory g (before ++ x ∷ mid ++ y ∷ [])
        → tried_in x ≡ Some (Perform n j) → tried_in y ≡ Some (Intend m j) → ⊥ }
    ensures its { (g : Givens) (before mid : List Moment) (x y : Moment) (n m j : ℕ) → IsHistory g (before ++ x ∷ mid ++ y ∷ [])
        → tried_in x ≡ Some (Intend n j) → tried_in y ≡ Some (Perform m j) → (worker_of x ≡ worker_of y) × (n ≡ m) × NoneBegins (worker_of x) mid }
{}

/// States that the stage of a process in a history is the one that its deeds since it began lead
/// to. Each of these deeds was due.
pub fn stages_are_courses()
    ensures { (g : Givens) (ms : List Moment) (p : ℕ) → IsHistory g ms → IsWorker g p → StandsBy g p (log_of p ms) (stage_at (scene_of g ms) p) }
{}

/// States that a process that records its deeds is at the stage after them. Each further deed that
/// was due moves it on, as `Outside` and `Past` ensure of each call.
pub fn records_tell_where_it_stands()
    ensures { (first : Stage) (ds : List Deed) (d : Deed) → Moves (Stands first ds) (Stands first (ds ++ d ∷ [])) d }
{}

/// States that the contract of `work` says of a log as much as a history asks of its worker. A call
/// that it may make, by its log, may come about, also if the process dies in it. A deed that was
/// due, and is true of the words, may be done.
pub fn workers_do_right()
    ensures calls { (g : Givens) (ms : List Moment) (p : ℕ) (l : Log) (t : Try) → IsHistory g ms → IsWorker g p → log_of p ms ≡ Some l
        → MayCall (Stands (first_stage g p l.serial) l.deeds) t → MayBe g (scene_of g ms) (Loses p t) }
    ensures deeds { (g : Givens) (ms : List Moment) (p : ℕ) (l : Log) (d : Deed) → IsHistory g ms → IsWorker g p → log_of p ms ≡ Some l
        → AreDue (first_stage g p l.serial) (l.deeds ++ d ∷ []) → IsTrue (scene_of g ms).words d → MayBe g (scene_of g ms) (Does p d) }
{}

/// States that histories exist in which jobs are performed. In them one job is handed to a partner
/// while its process dies. A store comes about of which its process never learns. A job is found
/// taken, and another job is performed.
pub fn histories_there_are()
    ensures handed { (g : Givens) × (ms : List Moment) × IsHistory g ms × (handed_jobs ms ≡ 1 ∷ 2 ∷ []) }
    ensures taken { (g : Givens) × (before : List Moment) × (after : List Moment) × IsHistory g (before ++ Does 1 (Cleared 1 1 false) ∷ after)
        × (handed_jobs (before ++ Does 1 (Cleared 1 1 false) ∷ after) ≡ 2 ∷ []) }
{}

/// States that nothing follows a failure, or a stage at which nothing is due. So nothing follows an
/// impossible number, a reply that wasn't awaited, or a leave.
pub fn courses_end_there()
    ensures ended { (s : Stage) (before after : List Deed) → AreDue s (before ++ after) → due (stage_after_all s before) ≡ None → after ≡ [] }
    ensures fell { (s : Stage) (before after : List Deed) (t : Try) → AreDue s (before ++ Fell t ∷ after) → after ≡ [] }
{}

/// States that in one course no job is handed to the partner twice, whether the partner has replied
/// or the call has failed. It holds whatever the loads of the course have given: nothing is assumed
/// of the other workers.
pub fn courses_perform_once()
    ensures { (g : Givens) (p s : ℕ) (deeds : List Deed) → IsWorker g p → AreDue (first_stage g p s) deeds → AreDistinct (handed_by_deeds deeds) }
{}

/// States that three deeds come right before a job is handed to the partner, in this order: its
/// claim is stored, its intent is put, and it is found clear. It holds also if the handing over
/// fails. The store is that of the worker's count of claims, in its place, which the machine
/// wanted. It is one of this course: a claim that a former process has left isn't enough.
pub fn performances_follow_intents()
    ensures { (g : Givens) (p s n j : ℕ) (before after : List Deed) (d : Deed) → try_of d ≡ Perform n j
        → AreDue (first_stage g p s) (before ++ d ∷ after) → HasJustCleared g p (first_stage g p s) before n j }
{}

/// States that a job that was found claimed and not filed isn't performed again. The worker's own
/// words show it when its process begins. It isn't handed to the partner in this course, neither
/// before it is reported nor after that, also if the report fails. So a job that a former process
/// of the worker may have had performed isn't performed again in it.
pub fn what_is_found_is_not_performed()
    ensures { (g : Givens) (p s j : ℕ) (before after : List Deed) (d : Deed) → IsWorker g p → try_of d ≡ Find j
        → AreDue (first_stage g p s) (before ++ d ∷ after) → has (handed_by_deeds (before ++ d ∷ after)) j ≡ false }
{}

/// States that a job is handed to the partner only right after it was found clear, whatever
/// happens. The process asks for that only right after the intent of the job was put. No other deed
/// is between them.
pub fn the_driver_hands_over_only_what_is_clear()
    ensures clear { (g : Givens) (p s n j : ℕ) (before after : List Deed) (d : Deed) → try_of d ≡ Perform n j
        → AreDue (first_stage g p s) (before ++ d ∷ after) → (earlier : List Deed) × (before ≡ earlier ++ Intended n j ∷ Cleared n j true ∷ []) }
    ensures asked { (g : Givens) (p s n j : ℕ) (before after : List Deed) (d : Deed) → try_of d ≡ Clear n j
        → AreDue (first_stage g p s) (before ++ d ∷ after) → (earlier : List Deed) × (before ≡ earlier ++ Intended n j ∷ []) }
{}

/// States that after a job was found taken, the process notes that the job wasn't begun, and files
/// the job at its place of the row. It does so in this order, and as far as the process comes. So a
/// taken intent is noted before anything else is intended, unless the process ends.
pub fn what_is_taken_is_noted_as_unbegun()
    ensures { (g : Givens) (p s n j : ℕ) (before after : List Deed) → AreDue (first_stage g p s) (before ++ Cleared n j false ∷ after)
        → PassesOver g p (first_stage g p s) before n j after }
{}

/// States that nobody hands over a job that was found taken, neither before nor after that. This
/// holds for the process that found it, for each later process of its worker, and for each other
/// worker.
pub fn what_is_taken_is_not_performed()
    ensures before { (g : Givens) (before mid : List Moment) (x : Moment) (p n m j : ℕ) → IsHistory g (before ++ x ∷ mid ++ Does p (Cleared m j false) ∷ [])
        → tried_in x ≡ Some (Perform n j) → ⊥ }
    ensures after { (g : Givens) (before mid : List Moment) (y : Moment) (p n m j : ℕ) → IsHistory g (before ++ Does p (Cleared n j false) ∷ mid ++ y ∷ [])
        → tried_in y ≡ Some (Perform m j) → ⊥ }
{}

/// States that a note, also one that fails, is the reply that the partner gave right before, to
/// that very intent. The one exception is the note that a job wasn't begun, if the job was found
/// taken right before, and its intent put right before that. So of a job that was handed over
/// nothing is noted that wasn't a reply in this course, and no reply is noted twice.
pub fn notes_say_what_was_answered()
    ensures { (g : Givens) (p s n : ℕ) (a : JobResult) (before after : List Deed) (d : Deed) → try_of d ≡ Note n a
        → AreDue (first_stage g p s) (before ++ d ∷ after) → HasJustAnswered before n a ⊎ HasJustFoundTaken before n a }
{}

/// States that after a reply that asks the worker to leave, the process only notes the reply, files
/// the job and takes the worker's announcement back. Each of these comes at most once, in this
/// order, and as far as the process comes. The reply is noted unless the job still runs, and the
/// job is filed at its place of the row. The process loads nothing any more, claims nothing, and
/// hands over no other job.
pub fn who_is_told_to_leave_leaves()
    ensures { (g : Givens) (p s n j : ℕ) (reply : Reply) (before after : List Deed) → tells_to_leave reply ≡ true
        → AreDue (first_stage g p s) (before ++ Performed n j reply ∷ after) → TakesLeave g p (first_stage g p s) before n j reply after }
{}
