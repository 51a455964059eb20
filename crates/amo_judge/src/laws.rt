//! The theorems on the judge: the first line of each verdict, and the reasons in it. Nothing here
//! runs: each function's contract is a theorem. Start at `lawful_is_a_run`.
ghost use Rattle.std.specs.Prelude.{◌≡◌, ◌≢◌, ◌<◌, ◌↔◌, ◌⊎◌, ◌++◌, ℕ, true, false, not, List, [], length, Some, codes};
ghost use Rattle.std.specs.Fmt.{decimal};
ghost use Rattle.std.specs.Option.{is_some};
ghost use Rattle.amo_sets.specs.Lists.{numbered};
ghost use Rattle.amo_sets.specs.Sets.{has};
ghost use Rattle.amo_params.specs.Givens.{bound, IsJob, IsWorker};
ghost use Rattle.amo_kk.specs.Object.{first_object, is_here, has_in_hand, is_step};
ghost use Rattle.amo_kk.specs.Run.{object_after_all, done_jobs};
ghost use Rattle.amo_kk.specs.declared.event.Event.{Event};
ghost use Rattle.amo_kk.specs.declared.event.Event.TheVariants.{Claimed, Done, Ended, Halted, Left};
ghost use Rattle.amo_params.specs.declared.givens.Givens.{Givens as GivensView};
ghost use Rattle.amo_judge.specs.History.{HistoryView};
ghost use Rattle.amo_judge.specs.Judgement.{judgement, unlawful_lines};
ghost use Rattle.amo_judge.specs.Places.{event_at};
ghost use Rattle.amo_judge.specs.Telling.{event_text, worker_of};
ghost use Rattle.amo_judge.specs.Verdicts.{BeginsWith, Tells, IsLawfulText, IsUnlawfulText};
ghost use Rattle.amo_judge.specs.Why.{end_of, claim_of, hand_of, hand_job, reason_of, reason_text};
ghost use Rattle.amo_judge.specs.declared.reasons.Reason.{Reason};
ghost use Rattle.amo_judge.specs.declared.reasons.Reason.TheVariants.{NoWorker, Gone, NoJob, InHand, NotInHand, ClaimedBefore, Early};

/// States that the verdict begins with the line `lawful` exactly if the text is a history, by its
/// lines, whose events are a run.
pub fn lawful_is_a_run()
    ensures { (text : List ℕ) → BeginsWith (codes "lawful\n") (judgement text) ↔ IsLawfulText text }
{}

/// States that the verdict on a history whose events aren't a run begins with the line `unlawful
/// I`. `I` is the number of the first event that is no step.
pub fn unlawful_tells_the_first()
    ensures { (text : List ℕ) (number : ℕ) → IsUnlawfulText text number → BeginsWith (codes "unlawful " ++ decimal number ++ codes "\n") (judgement text) }
{}

/// States that the events of a history are a run, or have a first one that is no step.
pub fn a_history_is_one_of_two()
    ensures { (text : List ℕ) (h : HistoryView) → Tells text h → IsLawfulText text ⊎ ((number : ℕ) × IsUnlawfulText text number) }
{}

/// States that the verdict begins with the line `refused` exactly if the text isn't a history.
pub fn what_is_no_history_is_refused()
    ensures { (text : List ℕ) → BeginsWith (codes "refused\n") (judgement text) ↔ ((h : HistoryView) → Tells text h → ⊥) }
{}

/// States that a reason of an unlawful verdict tests the same state as a step. It looks for it in
/// the events before. The state says who is gone, which job is in whose hand, which jobs are
/// unclaimed, and how many are performed. For each event that is no step there is a reason.
pub fn why_tests_the_state()
    ensures gone { (g : GivensView) (before : List Event) (p : ℕ) → IsWorker g p → numbered true (object_after_all (first_object g) before).gone p ≡ is_some (end_of p before) }
    ensures hand { (g : GivensView) (before : List Event) (p : ℕ) → IsWorker g p → numbered 0 (object_after_all (first_object g) before).in_hand p ≡ hand_job (hand_of p before) }
    ensures unclaimed { (g : GivensView) (before : List Event) (j : ℕ) → IsJob g j → has (object_after_all (first_object g) before).unclaimed j ≡ not (is_some (claim_of j before)) }
    ensures performed { (g : GivensView) (before : List Event) → length (object_after_all (first_object g) before).performed ≡ length (done_jobs before) }
    ensures found { (g : GivensView) (before : List Event) (event : Event) → is_step g (object_after_all (first_object g) before) event ≡ false → is_some (reason_of g before (worker_of event) event) ≡ true }
{}

/// States that the verdict on a history whose events aren't a run names the first event that is no
/// step, and the reason that is found for it. The next theorems state, for each reason, that it
/// holds.
pub fn unlawful_tells_the_reason()
    ensures { (text : List ℕ) (number : ℕ) (t : IsUnlawfulText text number) → (reason : Reason)
        × (reason_of t.history.givens t.bad.before (worker_of t.bad.bad) t.bad.bad ≡ Some reason)
        × (judgement text ≡ unlawful_lines number (event_text t.history number t.bad.bad) (reason_text t.history reason)) }
{}

/// States that a worker or a job that a verdict calls unknown is the one of the event, and outside
/// the givens.
pub fn who_is_not_there_is_none()
    ensures worker { (g : GivensView) (before : List Event) (event : Event) (p : ℕ)
        → reason_of g before (worker_of event) event ≡ Some (NoWorker p)
        → (worker_of event ≡ p) × (IsWorker g p → ⊥) }
    ensures job { (g : GivensView) (before : List Event) (event : Event) (j : ℕ)
        → reason_of g before (worker_of event) event ≡ Some (NoJob j)
        → ((event ≡ Claimed (worker_of event) j) ⊎ (event ≡ Done (worker_of event) j)) × (IsJob g j → ⊥) }
{}

/// States that a worker that a verdict calls gone had ended, was halted or had left in the event
/// whose number the verdict names. It is the worker of the event that is refused.
pub fn who_was_gone_went_in_that_event()
    ensures { (g : GivensView) (before : List Event) (event end : Event) (p i : ℕ)
        → reason_of g before (worker_of event) event ≡ Some (Gone p end i)
        → (worker_of event ≡ p) × (event_at before i ≡ Some end) × ((end ≡ Ended p) ⊎ ((end ≡ Halted p) ⊎ (end ≡ Left p))) }
{}

/// States that a worker that a verdict calls busy has the named job in its hand, in the state that
/// the events before leave. It is the worker of the event. It claimed this job in the event whose
/// number the verdict names. No later event of those before is a claim or a done of it.
pub fn what_is_in_hand_was_claimed_in_that_event()
    ensures hand { (g : GivensView) (before : List Event) (event : Event) (p j i : ℕ)
        → reason_of g before (worker_of event) event ≡ Some (InHand p j i)
        → (worker_of event ≡ p) × (numbered 0 (object_after_all (first_object g) before).in_hand p ≡ j) }
    ensures claim { (g : GivensView) (before : List Event) (event : Event) (p j i : ℕ)
        → reason_of g before (worker_of event) event ≡ Some (InHand p j i)
        → event_at before i ≡ Some (Claimed p j) }
    ensures later { (g : GivensView) (before : List Event) (event : Event) (p j i : ℕ)
        → reason_of g before (worker_of event) event ≡ Some (InHand p j i)
        → (later job : ℕ) → i < later → (event_at before later ≢ Some (Claimed p job)) × (event_at before later ≢ Some (Done p job)) }
{}

/// States that a job that a verdict calls claimed was claimed in the event whose number the verdict
/// names, by the worker that it names. It is the job that the refused event claims.
pub fn what_was_claimed_was_claimed_in_that_event()
    ensures { (g : GivensView) (before : List Event) (event : Event) (j q i : ℕ)
        → reason_of g before (worker_of event) event ≡ Some (ClaimedBefore j q i)
        → (event ≡ Claimed (worker_of event) j) × (event_at before i ≡ Some (Claimed q j)) }
{}

/// States that if a verdict refuses an event since the job isn't in the worker's hand, the worker
/// has another job in its hand, or none. This is in the state that the events before leave. The
/// event is a done of this job by this worker.
pub fn what_is_not_in_hand_is_not_there()
    ensures { (g : GivensView) (before : List Event) (event : Event) (p j : ℕ)
        → is_step g (object_after_all (first_object g) before) event ≡ false
        → reason_of g before (worker_of event) event ≡ Some (NotInHand p j)
        → (event ≡ Done p j) × (numbered 0 (object_after_all (first_object g) before).in_hand p ≢ j) }
{}

/// States that if a verdict refuses an event as an early end, fewer jobs than the bound are
/// performed in the state that the events before leave. The verdict names both numbers. The event
/// is an end by the worker's own choice.
pub fn who_ends_early_ends_below_the_bound()
    ensures { (g : GivensView) (before : List Event) (event : Event) (performed least : ℕ)
        → is_step g (object_after_all (first_object g) before) event ≡ false
        → reason_of g before (worker_of event) event ≡ Some (Early performed least)
        → (event ≡ Ended (worker_of event)) × (length (object_after_all (first_object g) before).performed ≡ performed) × (least ≡ bound g) × (performed < least) }
{}

/// States that a verdict has the first reason that holds, in the order of the table of
/// docs/formats.md. The worker exists if any reason but an unknown worker is given, and isn't gone
/// if a later reason is given. Then the job exists, and then the worker has nothing in its hand.
pub fn no_reason_before_it_holds()
    ensures gone { (g : GivensView) (before : List Event) (event end : Event) (p i : ℕ)
        → reason_of g before (worker_of event) event ≡ Some (Gone p end i)
        → IsWorker g p }
    ensures job { (g : GivensView) (before : List Event) (event : Event) (j : ℕ)
        → reason_of g before (worker_of event) event ≡ Some (NoJob j)
        → is_here g (object_after_all (first_object g) before) (worker_of event) ≡ true }
    ensures in_hand { (g : GivensView) (before : List Event) (event : Event) (p j i : ℕ)
        → reason_of g before (worker_of event) event ≡ Some (InHand p j i)
        → (is_here g (object_after_all (first_object g) before) p ≡ true) × ((job : ℕ) → event ≡ Claimed p job → IsJob g job) }
    ensures not_in_hand { (g : GivensView) (before : List Event) (event : Event) (p j : ℕ)
        → reason_of g before (worker_of event) event ≡ Some (NotInHand p j)
        → (is_here g (object_after_all (first_object g) before) p ≡ true) × IsJob g j }
    ensures claimed { (g : GivensView) (before : List Event) (event : Event) (j q i : ℕ)
        → reason_of g before (worker_of event) event ≡ Some (ClaimedBefore j q i)
        → (is_here g (object_after_all (first_object g) before) (worker_of event) ≡ true) × IsJob g j × (has_in_hand (object_after_all (first_object g) before) (worker_of event) 0 ≡ true) }
    ensures early { (g : GivensView) (before : List Event) (event : Event) (performed least : ℕ)
        → reason_of g before (worker_of event) event ≡ Some (Early performed least)
        → (is_here g (object_after_all (first_object g) before) (worker_of event) ≡ true) × (has_in_hand (object_after_all (first_object g) before) (worker_of event) 0 ≡ true) }
{}
