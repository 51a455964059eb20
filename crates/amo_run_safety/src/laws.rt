//! The theorems over the definitions. Nothing here runs: each function's contract is a law.
ghost use Rattle.std.specs.Prelude.{◌≡◌, ◌⊎◌, ◌≤◌, ◌+◌, ℕ, Bool, true, false, List, [], ◌∷◌, ◌++◌, Some, length};
ghost use Rattle.amo_sets.specs.Sets.{AreDistinct};
ghost use Rattle.amo_driver.specs.Course.{AreDue, first_stage};
ghost use Rattle.amo_driver.specs.declared.model.Deed.{Deed};
ghost use Rattle.amo_driver.specs.declared.model.Deed.TheVariants.{Intended, Cleared};
ghost use Rattle.amo_driver.specs.declared.model.Try.{Try};
ghost use Rattle.amo_driver.specs.Stage.{Stage, Asking};
ghost use Rattle.amo_driver.specs.Standing.{MayCall};
ghost use Rattle.amo_driver_safety.specs.Log.{Stands, Log, log_of};
ghost use Rattle.amo_driver_safety.specs.Scene.{scene_of, IsTrue, IsHistory};
ghost use Rattle.amo_journal.specs.Device.{LeavesOnly};
ghost use Rattle.amo_journal.specs.Appends.{records_in, IsLog};
ghost use Rattle.amo_journal.specs.Journal.{IsAtRest, HasAllOrNotTheLast};
ghost use Rattle.amo_run_log.specs.declared.append.Append.{Append};
ghost use Rattle.amo_run_log.specs.declared.entry.Outcome.TheVariants.{Done};
ghost use Rattle.amo_run_log.specs.declared.entry.Entry.{Entry};
ghost use Rattle.amo_run_log.specs.declared.entry.Entry.TheVariants.{Intent, Answer};
ghost use Rattle.amo_run_log.specs.declared.finding.Finding.{Finding};
ghost use Rattle.amo_run_log.specs.declared.journal.Attempt.{Attempt};
ghost use Rattle.amo_run_log.specs.Entries.{appends_in, entries_of_append, entries_of_appends};
ghost use Rattle.amo_run_log.specs.Puts.{entries_of, findings_of, StandsForMoreOrNot, SaysOneMoreOrNot};
ghost use Rattle.amo_run_safety.specs.File.{read_of, with_unheard, with_unread, after_stop};
ghost use Rattle.amo_run_safety.specs.Shown.{all_kept, IsShownBy};
ghost use Rattle.amo_run_safety.specs.Asked.{Asker, asker_of};
ghost use Rattle.amo_run_safety.specs.Site.{Before, Inside, Round, Event, Dies, Starts, Acts, Pays, is_inside};
ghost use Rattle.amo_run_safety.specs.Run.{left_in, MayAct, MayMiss, IsRun, site_of, Handing, handings_by, handings, openings, is_among, AreUnperformed, performed_lines, IsOneOf, names_of, AreDifferent, common, names_of_line, IsKept};
ghost use Rattle.amo_run_safety.specs.Commands.{Action, Happens, Sends, Arrives, Lists, IsOver, AreActionsBy, AreActions, yard_of, said_in, IsTruthful, IsPatient, lines_in, events_of};
ghost use Rattle.amo_run_safety.specs.Fewer.{IsOverButForProcesses, IsOverButForRunners, IsOverButForCommands, IsOverButForAsking};

use amo_journal::Device;

/// States that each line of the jobs' file is performed at most once, if no intent was performed
/// that is noted as not begun or called not done. Rounds may be begun as often as you like, any
/// processes may die at any points, and the machine may stop at any time.
pub fn each_line_is_performed_at_most_once()
    ensures { (performed : ℕ → ℕ → Bool) (es : List Event) → IsRun es → AreUnperformed performed (openings es)
        → AreDistinct (performed_lines performed (handings es)) }
{}

/// States that no line is handed to a partner again, unless each intent by which it was handed over
/// before is noted as not begun or not done. Nothing is assumed of these notes.
pub fn a_line_is_handed_over_again_only_when_opened()
    ensures { (before after : List Event) (e : Event) (earlier later : Handing) → IsRun (before ++ e ∷ after)
        → IsOneOf (handings before) earlier → IsOneOf (handings_by (site_of before) e) later → earlier.line ≡ later.line
        → is_among (openings before) earlier.worker earlier.serial ≡ true }
{}

/// States that a line is handed over at most once more than intents by which it was handed over are
/// noted as not begun or not done. Nothing is assumed of these notes.
pub fn a_line_is_handed_over_once_more_than_opened()
    ensures { (es : List Event) (line : ℕ) → IsRun es
        → length (names_of_line line (handings es)) ≤ length (common (names_of_line line (handings es)) (openings es)) + 1 }
{}

/// States that the intent by which a line was handed over stays in its journal from then on: no
/// stop of the machine takes it.
pub fn what_is_handed_over_is_kept()
    ensures { (es : List Event) (handing : Handing) → IsRun es → IsOneOf (handings es) handing → IsKept (site_of es) handing }
{}

/// States that no intent is handed over twice, and that no two that are ever handed over have one
/// worker and one serial number. So a note on an intent is on one command at most. The number of an
/// intent is given again only if a stop has taken the intent while it was put, before it was handed
/// over.
pub fn an_intent_is_handed_over_once()
    ensures { (es : List Event) → IsRun es → AreDifferent (names_of (handings es)) }
{}

/// States that the events in a round are a history of its workers over one list of words. So each
/// theorem on histories is one on rounds.
pub fn rounds_are_histories()
    ensures { (es : List Event) (k : ℕ) (r : Round) → IsRun es → (site_of es).rounds k ≡ Some r → IsHistory r.givens r.moments }
{}

/// States that no two processes act as one worker of a round.
pub fn no_two_have_one_seat()
    ensures { (es : List Event) (p o k q : ℕ) → IsRun es → (site_of es).whereabouts p ≡ Inside k q → (site_of es).whereabouts o ≡ Inside k q → p ≡ o }
{}

/// States that a process that is in a round is in the last one that was begun. So nobody works in a
/// round while another is begun, or afterwards.
pub fn nobody_is_in_a_former_round()
    ensures { (es : List Event) (p k q : ℕ) → IsRun es → (site_of es).whereabouts p ≡ Inside k q → k ≡ (site_of es).last }
{}

/// States that there is a run in which a line is handed over again and performed once. The machine
/// stops while an intent is put, and the intent is lost. A process dies while its partner has a
/// line. A person says that the line wasn't done, and a process of another worker hands it over
/// again, in another round. All that is assumed of these notes holds.
pub fn runs_there_are()
    ensures { (performed : ℕ → ℕ → Bool) × (es : List Event) × IsRun es × AreUnperformed performed (openings es)
        × (names_of (handings es) ≡ (1, 1) ∷ (2, 1) ∷ []) × (performed_lines performed (handings es) ≡ 1 ∷ []) }
{}

/// States that an outcome that a process in a round has noted is owed until it is appended. If the
/// process dies before, the outcome is lost. Then the attempt is pending, and the next process asks
/// for it and notes the reply. The outcome is kept if it is appended alone, or in one append with
/// the next intent.
pub fn outcomes_are_owed_until_they_are_appended()
    ensures lost { (before : List Event) × (attempt : Attempt) × (after : List Event) × IsRun (before ++ Dies 1 ∷ Starts 1 (attempt ∷ []) ∷ after)
        × ((site_of before).owed 1 ≡ Answer 1 (Done 0 20) ∷ [])
        × ((site_of (before ++ Dies 1 ∷ Starts 1 (attempt ∷ []) ∷ [])).whereabouts 1 ≡ Before (Asking (record { serial = 1; line = 1 } ∷ [])))
        × (read_of ((site_of (before ++ Dies 1 ∷ Starts 1 (attempt ∷ []) ∷ after)).journals 1) ≡ Intent 1 1 20 ∷ Answer 1 (Done 0 30) ∷ []) }
    ensures alone { (before : List Event) × (attempt : Attempt) × IsRun (before ++ Pays 1 ∷ Dies 1 ∷ Starts 1 (attempt ∷ []) ∷ [])
        × ((site_of before).owed 1 ≡ Answer 1 (Done 0 20) ∷ [])
        × ((site_of (before ++ Pays 1 ∷ Dies 1 ∷ Starts 1 (attempt ∷ []) ∷ [])).whereabouts 1 ≡ Before (Asking [])) }
    ensures next { (before : List Event) × IsRun (before ++ Acts 1 30 (Intended 2 2) ∷ [])
        × ((site_of before).owed 1 ≡ Answer 1 (Done 0 20) ∷ [])
        × (((site_of before).journals 1).kept ≡ Intent 1 1 20 ∷ [])
        × (((site_of (before ++ Acts 1 30 (Intended 2 2) ∷ [])).journals 1).kept ≡ Intent 1 1 20 ∷ Answer 1 (Done 0 20) ∷ Intent 2 2 30 ∷ []) }
{}

/// States that a process owes one outcome at most, so an append has two entries at most. A process
/// that is in no round owes nothing: it appends what it owes before it leaves, or loses it.
pub fn one_outcome_is_owed_at_most()
    ensures few { (es : List Event) (p : ℕ) → IsRun es → length ((site_of es).owed p) ≤ 1 }
    ensures outside { (es : List Event) (p : ℕ) → IsRun es → is_inside ((site_of es).whereabouts p) ≡ false → (site_of es).owed p ≡ [] }
{}

/// States that commands perform each line of the list at most once, if each note that an intent was
/// not begun or not done is true and not too early. True means that its line wasn't performed until
/// then. Not too early means that the intent is over then, and that no request of it is under way.
/// Rounds may be begun as often as you like, any processes, runners and commands may die, and the
/// machine may stop at any time. A command performs its line by a request, which may arrive at any
/// later time. We don't assume that nothing performs the line afterwards: it follows. And no
/// command begins twice, whatever is noted.
pub fn commands_perform_each_line_at_most_once()
    ensures lines { (actions : List Action) → AreActions actions → IsTruthful actions → IsPatient actions → AreDistinct (lines_in (yard_of actions).performed) }
    ensures commands { (actions : List Action) → AreActions actions → AreDifferent (names_of (yard_of actions).begun) }
{}

/// States that once an intent was listed as in doubt, no command of its line may begin here,
/// nothing of one is left here, and none sends a request. Only a request that was sent before may
/// still arrive. It stays so until somebody notes that intent as `not-done` or `unbegun`.
pub fn a_listed_doubt_is_final()
    ensures here { (p n line : ℕ) (before after : List Action) (h : Handing) → AreActions (before ++ Lists p n line ∷ after)
        → IsOneOf ((yard_of (before ++ Lists p n line ∷ after)).waiting ++ (yard_of (before ++ Lists p n line ∷ after)).running) h → h.line ≡ line
        → is_among (said_in (before ++ Lists p n line ∷ after)) p n ≡ true }
    ensures sends { (p n line : ℕ) (before mid after : List Action) (h : Handing) → AreActions (before ++ Lists p n line ∷ mid ++ Sends h ∷ after) → h.line ≡ line
        → is_among (said_in (before ++ Lists p n line ∷ mid)) p n ≡ true }
    ensures arrives { (p n line : ℕ) (before mid after : List Action) (h : Handing) → AreActions (before ++ Lists p n line ∷ mid ++ Arrives h ∷ after) → h.line ≡ line
        → (is_among (said_in (before ++ Lists p n line ∷ mid)) p n ≡ true) ⊎ IsOneOf (yard_of before).sent h }
{}

/// States that once the job of an intent was found taken, the intent is over, whatever happens
/// then. No command of it has begun, has sent a request or has performed its line, and none begins.
/// So the note that it wasn't begun is true, and nothing is assumed for it.
pub fn a_taken_intent_is_over()
    ensures { (p n time j : ℕ) (before after : List Action) → AreActions (before ++ Happens (Acts p time (Cleared n j false)) ∷ after)
        → IsOver (yard_of (before ++ Happens (Acts p time (Cleared n j false)) ∷ after)) p n
        × (is_among (names_of (yard_of (before ++ Happens (Acts p time (Cleared n j false)) ∷ after)).begun) p n ≡ false)
        × (is_among (names_of (yard_of (before ++ Happens (Acts p time (Cleared n j false)) ∷ after)).sent) p n ≡ false)
        × (is_among (names_of (yard_of (before ++ Happens (Acts p time (Cleared n j false)) ∷ after)).performed) p n ≡ false) }
{}

/// States that a run with runners and commands is a run without them. So each theorem on runs is
/// one on these.
pub fn commands_stand_over_runs()
    ensures { (actions : List Action) → AreActions actions → IsRun (events_of actions) × ((yard_of actions).site ≡ site_of (events_of actions)) }
{}

/// States that there is a run with runners and commands in which a line is performed. It is the run
/// of `runs_there_are`, in which the first command begins and does nothing. Its intent is listed as
/// in doubt, and a person says truly that it wasn't done. Then another worker's command sends its
/// request and ends, the machine stops, and the request arrives.
pub fn commands_there_are()
    ensures { (actions : List Action) × AreActions actions × IsTruthful actions × IsPatient actions × (names_of (yard_of actions).begun ≡ (1, 1) ∷ (2, 1) ∷ [])
        × (names_of (yard_of actions).performed ≡ (2, 1) ∷ []) }
{}

/// States that each of the three locks is needed: by any two of them a line is performed twice. All
/// notes are true then when they are made, and no request is under way. It isn't enough either that
/// no process is about to hand the line over: a process that may still ask whether it may do so
/// hands it over later. By all three locks a line is performed twice if a person calls a line not
/// done that was performed. So the truth is needed too.
pub fn each_lock_is_needed()
    ensures journal { (actions : List Action) × AreActionsBy IsOverButForProcesses actions × IsTruthful actions × IsPatient actions × (lines_in (yard_of actions).performed ≡ 1 ∷ 1 ∷ []) }
    ensures runner { (actions : List Action) × AreActionsBy IsOverButForRunners actions × IsTruthful actions × IsPatient actions × (lines_in (yard_of actions).performed ≡ 1 ∷ 1 ∷ []) }
    ensures command { (actions : List Action) × AreActionsBy IsOverButForCommands actions × IsTruthful actions × IsPatient actions × (lines_in (yard_of actions).performed ≡ 1 ∷ 1 ∷ []) }
    ensures asking { (actions : List Action) × AreActionsBy IsOverButForAsking actions × IsTruthful actions × IsPatient actions × (lines_in (yard_of actions).performed ≡ 1 ∷ 1 ∷ []) }
    ensures truth { (actions : List Action) × AreActions actions × IsPatient actions × (lines_in (yard_of actions).performed ≡ 1 ∷ 1 ∷ []) }
{}

/// States that a line is performed twice if a request is under way when its intent is called not
/// done. The first command sends its request and ends. Its intent is over, it is listed as in
/// doubt, and a person says truly that it wasn't done. Another worker performs the line. Then the
/// first request arrives.
pub fn a_request_on_its_way_performs_a_line_twice()
    ensures { (before : List Action) × (after : List Action) × AreActions (before ++ Lists 1 1 1 ∷ after) × IsTruthful (before ++ Lists 1 1 1 ∷ after)
        × (lines_in (yard_of (before ++ Lists 1 1 1 ∷ after)).performed ≡ 1 ∷ 1 ∷ []) }
{}

/// States that the contract of `work` says of a log what a run asks of a process that is in a
/// round. A call that it may make may come about, also if the process dies in it. A deed that was
/// due, and is true of the words, may be done.
pub fn processes_do_right()
    ensures calls { (es : List Event) (p k q : ℕ) (r : Round) (l : Log) (t : Try) → IsRun es → (site_of es).whereabouts p ≡ Inside k q → (site_of es).rounds k ≡ Some r
        → log_of q r.moments ≡ Some l → MayCall (Stands (first_stage r.givens q l.serial) l.deeds) t → MayMiss (site_of es).rounds (Inside k q) t }
    ensures deeds { (es : List Event) (p k q : ℕ) (r : Round) (l : Log) (d : Deed) → IsRun es → (site_of es).whereabouts p ≡ Inside k q → (site_of es).rounds k ≡ Some r
        → log_of q r.moments ≡ Some l → AreDue (first_stage r.givens q l.serial) (l.deeds ++ d ∷ []) → IsTrue (scene_of r.givens r.moments).words d
        → MayAct (site_of es).rounds (Inside k q) d }
{}

/// States that the stage of a process that is in no round is the one that its deeds since it began
/// lead to, each of which was due. So the contract of `ask_pending` says what a run asks of the
/// process: it has begun with all intents that are pending in its journal.
pub fn who_asks_does_right()
    ensures { (es : List Event) (p : ℕ) (s : Stage) (a : Asker) → IsRun es → (site_of es).whereabouts p ≡ Before s → asker_of p es ≡ Some a
        → Stands (Asking (left_in a.attempts)) a.deeds s }
{}

/// States that a journal that is settled has all its entries kept: the bytes that are read say
/// them, and so do the bytes that each crash leaves.
pub fn settled_journals_are_kept<D: Device>()
    ensures { (device : _) (entries : List Entry) → IsAtRest D.seen D.may_leave D.stale device → entries_of (D.seen device) ≡ Some entries
        → IsShownBy D.seen D.may_leave device (all_kept entries) }
{}

/// States that by the contracts of `append_entries` and `append_finding`, a crash at any moment of
/// a call leaves what a stop leaves if nobody has learned of the append. An append has one entry or
/// two. A crash leaves all of them or none; a stop may leave the first one alone, which is more.
pub fn puts_are_there_or_not()
    ensures entries { (entries more : List Entry) (file : List ℕ) → StandsForMoreOrNot entries more file
        → (n : ℕ) × (entries_of file ≡ Some (read_of (after_stop n (with_unheard (all_kept entries) more)))) }
    ensures finding { (findings : List Finding) (finding : Finding) (file : List ℕ) → SaysOneMoreOrNot findings finding file
        → (n : ℕ) × (findings_of file ≡ Some (read_of (after_stop n (with_unheard (all_kept findings) (finding ∷ []))))) }
{}

/// States that once `append_entries` has ended, whatever it returns, the journal shows what an
/// event leaves. By the contract of `append_entries` there are three cases. The entries are kept,
/// as the theorem above states of a settled journal. Or they aren't read, and a stop may leave
/// them. Or they are read, and a stop may take them.
pub fn ended_puts_are_events<D: Device>()
    ensures { (old new : _) (entries more : List Entry) → StandsForMoreOrNot entries more (D.seen new)
        → LeavesOnly D.moment D.left_since old new (StandsForMoreOrNot entries more)
        → IsShownBy D.seen D.may_leave new (with_unread (all_kept entries) more)
        ⊎ IsShownBy D.seen D.may_leave new (with_unheard (all_kept entries) more) }
{}

/// States that by the contract of `Journal::recover`, a crash at any moment of a call leaves what a
/// stop leaves of the journal as it was read. It is all of it, if each crash before would have left
/// all. Otherwise it is all, or all but the last append.
pub fn settling_takes_what_a_stop_takes<D: Device>()
    ensures kept { (old new : _) (first : List ℕ) (all : List (List ℕ)) (entries : List Entry) (left : List ℕ)
        → IsLog first all (D.seen old) → entries_of (D.seen old) ≡ Some entries
        → LeavesOnly D.moment D.left_since old new (IsLog first all) → D.left_since new (D.moment old) left
        → (n : ℕ) × (entries_of left ≡ Some (read_of (after_stop n (all_kept entries)))) }
    ensures loose { (old new : _) (first : List ℕ) (all : List (List ℕ)) (appends : List Append) (append : Append) (left : List ℕ)
        → IsLog first all (D.seen old) → appends_in (records_in (D.seen old)) ≡ Some (appends ++ append ∷ [])
        → LeavesOnly D.moment D.left_since old new (HasAllOrNotTheLast first all) → D.left_since new (D.moment old) left
        → (n : ℕ) × (entries_of left ≡ Some (read_of (after_stop n (with_unheard (all_kept (entries_of_appends appends)) (entries_of_append append))))) }
{}
