//! The theorems of this crate, runs that they speak of, and runs in which a premise fails. The
//! contract of each function states a theorem, and no function does anything when it runs.
ghost use Rattle.amo_safety_by_journals.specs.Model.{AreDistinct, Event as ModelEvent, Handing, IsOneOf};
ghost use Rattle.amo_safety_by_journals.specs.Runs.{Clearance, IsRun as IsModelRun, site_of};
ghost use Rattle.amo_params.specs.declared.limits.TheConstants.{MAX_WORKERS};
ghost use Rattle.amo_host.specs.Calls.{Put};
ghost use Rattle.amo_host.specs.declared.model.LogFile.TheVariants.{Journal};
ghost use Rattle.amo_operator.specs.Calls.{PutDoubt};
ghost use Rattle.amo_operator.specs.Phase.{Known, Probes};
ghost use Rattle.amo_operator.specs.declared.model.Command.{Command};
ghost use Rattle.amo_program_safety.specs.Finality.{HasEndedHere, IsFinalHere};
ghost use Rattle.amo_program_safety.specs.Lists.{AllReadLinesOf, AreDistinctTexts, HasFewLines, HasNoTwoEqual, texts_handed};
ghost use Rattle.amo_program_safety.specs.Machine.{Happens, Machine, Operator, Records, Step};
ghost use Rattle.amo_program_safety.specs.Runs.{IsRun, world_of};
ghost use Rattle.amo_program_safety.specs.Steps.{AreOfNoCommand, IsRun as IsRunOfAll, RunnersEnd, machine_of};
ghost use Rattle.amo_program_safety.specs.Texts.{entries_of};
ghost use Rattle.amo_program_safety.specs.Without.{AnswersFollowIntents, AppendsAreKept, AppendsAreWritten, AttemptsPerformOnce, CommandsLock, HeldAreNotAnswered, IsRunWithout, LinesComeOnce, LiveAreNotAnswered, LiveAreNotDenied, LocksExclude, OperatorsAreTruthful, PerformedAreNotAnswered, PerformedAreNotDenied, ReadsAreCurrent, RunnersAreHonest};
ghost use Rattle.amo_program_safety.specs.World.{Event, HandsOver, Stops, Writes};
ghost use Rattle.amo_run_files.specs.Jobs.{line_of};
ghost use Rattle.amo_run_log.specs.Entries.{append_in};
ghost use Rattle.amo_run_log.specs.declared.entry.Entry.TheVariants.{Answer as Answered, Intent};
ghost use Rattle.amo_run_log.specs.declared.entry.Outcome.{Outcome};
ghost use Rattle.amo_status.specs.declared.state.AttemptId.{AttemptId};
ghost use Rattle.std.specs.Prelude.{◌≡◌, ◌++◌, ◌∷◌, ℕ, List, Some, map, [], codes};

use amo_safety_by_journals::laws::lines_are_performed_once_by_journals_alone;

/// States that each line is performed at most once, in every run of processes of `work` and
/// operators' commands that keep their protocols. The processes and commands may be killed in any
/// call, and started again. Calls may fail, and the machine may stop. We assume that the kernel,
/// the disk, the runners and the operators keep the rules of `Runs` and `Steps`.
pub fn programs_and_commands_perform_each_line_at_most_once()
    ensures { (steps : List Step) → IsRunOfAll steps → AreDistinct (map (λ h. h.line) (machine_of steps).world.performed) }
{
    lines_are_performed_once_by_journals_alone();
}

/// States that each text is performed at most once, and that a runner gets the text of its line. We
/// assume that all reads of the lines that a run knows give lines of one list, and that no two
/// lines of the list are equal. The rules of `Runs` and `Steps` are assumed too. They have line
/// numbers alone.
pub fn programs_and_commands_perform_each_text_at_most_once()
    ensures handed { (list : List (List ℕ)) (steps more : List Step) (process serial line : ℕ) (text : List ℕ) → HasFewLines list
        → IsRunOfAll (steps ++ Happens (HandsOver process serial line text) ∷ more)
        → AllReadLinesOf list (steps ++ Happens (HandsOver process serial line text) ∷ more) → line_of list line ≡ Some text }
    ensures performed { (list : List (List ℕ)) (steps : List Step) → HasFewLines list → IsRunOfAll steps → AllReadLinesOf list steps
        → (h : Handing) → IsOneOf (machine_of steps).world.performed h → (text : List ℕ) × (line_of list h.line ≡ Some text) }
    ensures once { (list : List (List ℕ)) (steps : List Step) → HasFewLines list → HasNoTwoEqual list → IsRunOfAll steps → AllReadLinesOf list steps
        → AreDistinctTexts (map (λ h. line_of list h.line) (machine_of steps).world.performed) }
{
    programs_and_commands_perform_each_line_at_most_once();
}

/// States that there is a run in which two processes read different lists, and a text is performed
/// twice, by attempts at two lines.
pub fn without_one_list_a_text_is_performed_twice()
    ensures { (es : List Event) × IsRun es × (texts_handed es ≡ codes "a" ∷ codes "a" ∷ []) × (map (λ h. h.line) (world_of es).performed ≡ 2 ∷ 1 ∷ []) }
{}

/// States that each run of processes of `work` and operators' commands is a run of the model by
/// journals alone, in which the same attempts perform their lines. So what the short theorem of
/// that model says of its runs holds for the programs.
pub fn programs_and_commands_run_by_journals_alone()
    ensures { (steps : List Step) → IsRunOfAll steps → (es : List ModelEvent) × IsModelRun Clearance MAX_WORKERS es × ((site_of es).performed ≡ (machine_of steps).world.performed) }
{}

/// States that an attempt that a command finds final is final on this machine. No process may hand
/// it over, no runner has it, and nothing of its command is left. If the command records that the
/// attempt is in doubt, it stays so in all that follows. A request that was sent before may still
/// arrive.
pub fn listed_lines_are_final_here()
    ensures found { (steps : List Step) (process : ℕ) (o : Operator) (command : Command) (known : Known) (left : List AttemptId)
        → IsRunOfAll steps → (machine_of steps).operator process ≡ Some o → o.phase ≡ Probes command known left
        → (i : AttemptId) → IsOneOf known.finals i → IsFinalHere (machine_of steps) i.worker i.serial }
    ensures recorded { (steps more : List Step) (process : ℕ) (i : AttemptId) (time : ℕ)
        → IsRunOfAll (steps ++ Records process (PutDoubt i time) ∷ more)
        → IsFinalHere (machine_of (steps ++ Records process (PutDoubt i time) ∷ more)) i.worker i.serial }
{}

/// States that an attempt whose outcome is on the disk, in the journal of its worker, is final on
/// this machine. An outcome may also be written and not yet be on the disk. Then no runner has the
/// attempt, and nothing of its command is left. Its process may still be in the call by which it
/// gives the attempt up. For this theorem alone, we also assume the rule `RunnersEnd`: a runner
/// reports an outcome only after the attempt has ended.
pub fn recorded_outcomes_are_final_here()
    ensures kept { (steps : List Step) (worker serial : ℕ) (outcome : Outcome) (text : List ℕ) → IsRunOfAll steps → RunnersEnd steps
        → IsOneOf ((machine_of steps).world.logs (Journal worker)).kept text
        → IsOneOf (entries_of (append_in text)) (Answered serial outcome) → IsFinalHere (machine_of steps) worker serial }
    ensures written { (steps : List Step) (worker serial : ℕ) (outcome : Outcome) (text : List ℕ) → IsRunOfAll steps → RunnersEnd steps
        → IsOneOf (((machine_of steps).world.logs (Journal worker)).kept ++ ((machine_of steps).world.logs (Journal worker)).rest) text
        → IsOneOf (entries_of (append_in text)) (Answered serial outcome) → HasEndedHere (machine_of steps) worker serial }
{}

/// States that there is a run in which runners keep the rule `RunnersEnd`, and in which an outcome
/// is recorded.
pub fn an_outcome_is_recorded()
    ensures { (steps : List Step) × IsRunOfAll steps × RunnersEnd steps
        × (((machine_of steps).world.logs (Journal 1)).kept ≡ codes "intent 1 1 0" ∷ codes "done 1 0 0" ∷ []) }
{}

/// States that if a runner reports an outcome of an attempt that it still has, the outcome is
/// recorded, and the attempt is not final.
pub fn without_runners_that_end_an_attempt_is_left()
    ensures { (steps : List Step) × IsRunOfAll steps
        × (((machine_of steps).world.logs (Journal 1)).kept ≡ codes "intent 1 1 0" ∷ codes "done 1 0 0" ∷ [])
        × (map (λ h. h.serial) (machine_of steps).waiting ≡ 1 ∷ []) }
{}

/// States that each line is performed at most once, in every run of processes of `work` alone. Here
/// operators' commands are events: a doubt is recorded while no process has the lock on the
/// journal. An operator answers `not-done` only to an attempt that is over. We assume that the
/// kernel, the disk, the runners and the operators keep the rules of `Runs`.
pub fn programs_perform_each_line_at_most_once()
    ensures { (es : List Event) → IsRun es → AreDistinct (map (λ h. h.line) (world_of es).performed) }
{
    lines_are_performed_once_by_journals_alone();
}

/// States that each run of processes of `work` without operators' commands is a run of both, with
/// the same world.
pub fn workers_run_without_commands()
    ensures { (es : List Event) → IsRun es → AreOfNoCommand es → IsRunOfAll (map Happens es) × ((machine_of (map Happens es)).world ≡ world_of es) }
{}

/// States that there is a run in which a line is performed.
pub fn a_line_is_performed()
    ensures { (es : List Event) × IsRun es × (map (λ h. h.line) (world_of es).performed ≡ 1 ∷ []) }
{}

/// States that there is a run in which the machine stops while an intent is appended, and takes it,
/// and the line is performed then.
pub fn a_line_is_performed_after_a_stop_in_an_append()
    ensures { (before : List Event) × (after : List Event)
        × IsRun (before ++ Writes 1 (Put (Intent 1 1 0)) ∷ Stops (λ log. 0) ∷ after)
        × (map (λ h. h.line) (world_of (before ++ Writes 1 (Put (Intent 1 1 0)) ∷ Stops (λ log. 0) ∷ after)).performed ≡ 1 ∷ []) }
{}

/// States that there is a run in which the machine stops while an intent is appended, and leaves
/// it, and the line is performed then. The next process asks for the attempt, and performs the line
/// by another one.
pub fn a_line_is_performed_after_a_stop_that_leaves_an_append()
    ensures { (before : List Event) × (after : List Event)
        × IsRun (before ++ Writes 1 (Put (Intent 1 1 0)) ∷ Stops (λ log. 1) ∷ after)
        × (map (λ h. h.serial) (world_of (before ++ Writes 1 (Put (Intent 1 1 0)) ∷ Stops (λ log. 1) ∷ after)).handed ≡ 2 ∷ [])
        × (map (λ h. h.line) (world_of (before ++ Writes 1 (Put (Intent 1 1 0)) ∷ Stops (λ log. 1) ∷ after)).performed ≡ 1 ∷ []) }
{}

/// States that there is a run in which a process dies once its attempt is handed over, and the next
/// one learns from the runner that it is done. The next process records that.
pub fn an_attempt_of_a_dead_process_is_asked_for()
    ensures { (es : List Event) × IsRun es × (map (λ h. h.line) (world_of es).performed ≡ 1 ∷ [])
        × (((world_of es).logs (Journal 1)).kept ≡ codes "intent 1 1 0" ∷ codes "done 1 0 0" ∷ []) }
{}

/// States that there is a run in which an attempt is handed over and does nothing, and another
/// worker performs the line. Before that the process of the attempt dies, and an operator answers
/// that it is not done.
pub fn an_attempt_that_did_nothing_is_tried_again()
    ensures { (es : List Event) × IsRun es × (map (λ h. h.line) (world_of es).handed ≡ 1 ∷ 1 ∷ []) × (map (λ h. h.line) (world_of es).performed ≡ 1 ∷ []) }
{}

/// States that there is a run in which a runner replies that an attempt was not started, and
/// another worker then performs the line.
pub fn an_attempt_that_was_not_started_is_tried_again()
    ensures { (es : List Event) × IsRun es × (map (λ h. h.line) (world_of es).performed ≡ 1 ∷ []) × (map (λ h. h.line) (world_of es).handed ≡ 1 ∷ 1 ∷ []) }
{}

/// States that if two processes get the lock of one journal, they perform a line twice.
pub fn without_locks_that_exclude_a_line_is_performed_twice()
    ensures { (es : List Event) × IsRunWithout LocksExclude es × (map (λ h. h.line) (world_of es).performed ≡ 1 ∷ 1 ∷ []) }
{}

/// States that if a read misses what is kept of a journal, two workers perform a line twice.
pub fn without_current_reads_a_line_is_performed_twice()
    ensures { (es : List Event) × IsRunWithout ReadsAreCurrent es × (map (λ h. h.line) (world_of es).performed ≡ 1 ∷ 1 ∷ []) }
{}

/// States that if a recovery takes away what was kept of a journal, two workers perform a line
/// twice.
pub fn without_kept_appends_a_line_is_performed_twice()
    ensures { (es : List Event) × IsRunWithout AppendsAreKept es × (map (λ h. h.line) (world_of es).performed ≡ 1 ∷ 1 ∷ []) }
{}

/// States that if a process learns that its intent is on the disk, although it was not written, two
/// workers perform a line twice.
pub fn without_written_appends_a_line_is_performed_twice()
    ensures { (es : List Event) × IsRunWithout AppendsAreWritten es × (map (λ h. h.line) (world_of es).performed ≡ 1 ∷ 1 ∷ []) }
{}

/// States that if a command recovers the journal of a living process, two workers perform a line
/// twice.
pub fn without_commands_that_lock_a_line_is_performed_twice()
    ensures { (es : List Event) × IsRunWithout CommandsLock es × (map (λ h. h.line) (world_of es).performed ≡ 1 ∷ 1 ∷ []) }
{}

/// States that if a runner replies that an attempt was not started, and performs it then, a line is
/// performed twice.
pub fn without_honest_runners_a_line_is_performed_twice()
    ensures { (es : List Event) × IsRunWithout RunnersAreHonest es × (map (λ h. h.line) (world_of es).performed ≡ 1 ∷ 1 ∷ []) }
{}

/// States that if a runner replies that an attempt was not started while it is under way, a line is
/// performed twice.
pub fn if_live_attempts_are_denied_a_line_is_performed_twice()
    ensures { (es : List Event) × IsRunWithout LiveAreNotDenied es × (map (λ h. h.line) (world_of es).performed ≡ 1 ∷ 1 ∷ []) }
{}

/// States that if a runner replies that an attempt was not started that has performed its line, the
/// line is performed twice.
pub fn if_performed_attempts_are_denied_a_line_is_performed_twice()
    ensures { (es : List Event) × IsRunWithout PerformedAreNotDenied es × (map (λ h. h.line) (world_of es).performed ≡ 1 ∷ 1 ∷ []) }
{}

/// States that if a line comes to a runner again after an operator has answered its attempt, the
/// line is performed twice.
pub fn without_lines_that_come_once_a_line_is_performed_twice()
    ensures { (es : List Event) × IsRunWithout LinesComeOnce es × (map (λ h. h.line) (world_of es).performed ≡ 1 ∷ 1 ∷ []) }
{}

/// States that if an attempt performs its line again, the line is performed twice.
pub fn without_attempts_that_perform_once_a_line_is_performed_twice()
    ensures { (es : List Event) × IsRunWithout AttemptsPerformOnce es × (map (λ h. h.line) (world_of es).performed ≡ 1 ∷ 1 ∷ []) }
{}

/// States that if an operator answers `not-done` to an attempt that a runner has, a line is
/// performed twice.
pub fn without_truthful_operators_a_line_is_performed_twice()
    ensures { (es : List Event) × IsRunWithout OperatorsAreTruthful es × (map (λ h. h.line) (world_of es).performed ≡ 1 ∷ 1 ∷ []) }
{}

/// States that if an operator answers `not-done` to an attempt before its intent is on the disk, a
/// line is performed twice.
pub fn if_attempts_without_intents_are_answered_a_line_is_performed_twice()
    ensures { (es : List Event) × IsRunWithout AnswersFollowIntents es × (map (λ h. h.line) (world_of es).performed ≡ 1 ∷ 1 ∷ []) }
{}

/// States that if an operator answers `not-done` to an attempt that a process is about to hand
/// over, a line is performed twice.
pub fn if_held_attempts_are_answered_a_line_is_performed_twice()
    ensures { (es : List Event) × IsRunWithout HeldAreNotAnswered es × (map (λ h. h.line) (world_of es).performed ≡ 1 ∷ 1 ∷ []) }
{}

/// States that if an operator answers `not-done` to an attempt that is under way, a line is
/// performed twice.
pub fn if_live_attempts_are_answered_a_line_is_performed_twice()
    ensures { (es : List Event) × IsRunWithout LiveAreNotAnswered es × (map (λ h. h.line) (world_of es).performed ≡ 1 ∷ 1 ∷ []) }
{}

/// States that if an operator answers `not-done` to an attempt that has performed its line, the
/// line is performed twice.
pub fn if_performed_attempts_are_answered_a_line_is_performed_twice()
    ensures { (es : List Event) × IsRunWithout PerformedAreNotAnswered es × (map (λ h. h.line) (world_of es).performed ≡ 1 ∷ 1 ∷ []) }
{}
