//! The theorems on texts, journals and open lines. Nothing here runs: each function's contract is a
//! theorem. Start at `what_is_open`.
ghost use Rattle.std.specs.Prelude.{◌≡◌, ◌≤◌, ◌<◌, ◌+◌, ◌^◌, ◌++◌, [], ◌∷◌, ℕ, true, false, List, Some, codes, length, map};
ghost use Rattle.std.specs.Fmt.{decimal};
ghost use Rattle.std.specs.List.{AllByRecursion};
ghost use Rattle.amo_run_log.specs.declared.append.Append.{Append as AppendView};
ghost use Rattle.amo_run_log.specs.declared.clearance.AttemptId.{AttemptId as AttemptIdView};
ghost use Rattle.amo_run_log.specs.declared.entry.Entry.{Entry as EntryView};
ghost use Rattle.amo_run_log.specs.declared.entry.Entry.TheVariants.{Answer as Answered, Intent};
ghost use Rattle.amo_run_log.specs.declared.entry.Outcome.TheVariants.{Doubt, Untouched};
ghost use Rattle.amo_run_log.specs.declared.finding.Finding.{Finding as FindingView};
ghost use Rattle.amo_run_log.specs.declared.journal.Attempt.{Attempt as AttemptView};
ghost use Rattle.amo_run_log.specs.Clearance.{IsClear, IsNoIntentAt, IsStanding};
ghost use Rattle.amo_run_log.specs.Entries.{text_of, Fits, FitsAppend, entries_in, entries_of_appends, entry_in, text_of_append};
ghost use Rattle.amo_run_log.specs.Findings.{text_of_finding, FitsFinding, findings_in, is_undone};
ghost use Rattle.amo_run_log.specs.Grammar.{IsJournal};
ghost use Rattle.amo_run_log.specs.Journals.{noted, journal_from, journal_of};
ghost use Rattle.amo_run_log.specs.OldAnswers.{with_time};
ghost use Rattle.amo_run_log.specs.Open.{is_open, IsOpen, HasIntent, OpensNone, IsAnswer, IsOfLine, NoneOpens, serial_of};

/// States that each list of appends is read back as itself, and that a text that is read was
/// printed so. Its entries are those of all appends, in order.
pub fn entries_are_read_back()
    ensures back { (appends : List AppendView) → AllByRecursion FitsAppend appends → entries_in (map text_of_append appends) ≡ Some (entries_of_appends appends) }
    ensures printed { (texts : List (List ℕ)) (entries : List EntryView) → entries_in texts ≡ Some entries
        → (appends : List AppendView) × (map text_of_append appends ≡ texts) × (entries_of_appends appends ≡ entries) }
    // Two lists of appends have the same texts only if they are the same.
    ensures once { (appends others : List AppendView) → AllByRecursion FitsAppend appends → AllByRecursion FitsAppend others
        → map text_of_append appends ≡ map text_of_append others → appends ≡ others }
{}

/// States that an outcome that version 0.1.0 wrote without a time is read with the time 0. An entry
/// of today stays as it is.
pub fn old_answers_are_read()
    ensures doubt { (serial : ℕ) → serial < 2 ^ 64
        → entry_in (with_time (codes "doubt " ++ decimal serial)) ≡ Some (Answered serial (Doubt 0)) }
    ensures untouched { (serial code : ℕ) → serial < 2 ^ 64 → code < 2 ^ 8
        → entry_in (with_time (codes "untouched " ++ (decimal serial ++ (codes " " ++ decimal code)))) ≡ Some (Answered serial (Untouched code 0)) }
    ensures entry { (entry : EntryView) → Fits entry → with_time (text_of entry) ≡ text_of entry }
{}

/// States that each list of findings is read back as itself, and that a text that is read was
/// printed so.
pub fn findings_are_read_back()
    ensures back { (findings : List FindingView) → AllByRecursion FitsFinding findings → findings_in (map text_of_finding findings) ≡ Some findings }
    ensures printed { (texts : List (List ℕ)) (findings : List FindingView) → findings_in texts ≡ Some findings → map text_of_finding findings ≡ texts }
{}

/// States that entries are a journal exactly if each may follow those before it.
pub fn what_is_a_journal()
    ensures is { (count : ℕ) (entries : List EntryView) (attempts : List AttemptView) → journal_of count entries ≡ Some attempts → IsJournal count entries }
    ensures only { (count : ℕ) (entries : List EntryView) → IsJournal count entries → (attempts : List AttemptView) × (journal_of count entries ≡ Some attempts) }
{}

/// States that a line is open exactly if each intent of it, in each journal, has an outcome that
/// opens it, or was found not done.
pub fn what_is_open()
    ensures is { (findings : List FindingView) (journals : List (List AttemptView)) (line : ℕ)
        → is_open findings journals line ≡ true → IsOpen findings journals line }
    ensures only { (findings : List FindingView) (journals : List (List AttemptView)) (line : ℕ)
        → IsOpen findings journals line → is_open findings journals line ≡ true }
{}

/// States that closing wins: one more journal opens no line.
pub fn a_journal_opens_none()
    ensures { (findings : List FindingView) (journals more : List (List AttemptView)) (line : ℕ)
        → is_open findings (journals ++ more) line ≡ true → is_open findings journals line ≡ true }
{}

/// States that in one journal an intent more opens no line, nor does an outcome other than that it
/// was not begun. So closing wins there too.
pub fn an_intent_opens_none()
    ensures { (count : ℕ) (findings : List FindingView) (before after : List (List AttemptView)) (attempts next : List AttemptView) (line : ℕ) (entry : EntryView)
        → OpensNone entry → noted count attempts entry ≡ Some next
        → is_open findings (before ++ next ∷ after) line ≡ true → is_open findings (before ++ attempts ∷ after) line ≡ true }
{}

/// States that an entry opens at most the line of its own intent.
pub fn an_answer_opens_its_own()
    ensures { (count : ℕ) (findings : List FindingView) (before after : List (List AttemptView)) (attempts next : List AttemptView) (line : ℕ) (entry : EntryView)
        → noted count attempts entry ≡ Some next
        → is_open findings (before ++ attempts ∷ after) line ≡ false → is_open findings (before ++ next ∷ after) line ≡ true
        → IsOfLine attempts (serial_of entry) line }
{}

/// States that a reader that misses outcomes at the end of a journal takes no closed line for open.
pub fn missed_answers_open_none()
    ensures { (count : ℕ) (findings : List FindingView) (before after : List (List AttemptView)) (attempts next : List AttemptView) (line : ℕ) (answers : List EntryView)
        → AllByRecursion IsAnswer answers → journal_from count attempts answers ≡ Some next
        → is_open findings (before ++ attempts ∷ after) line ≡ true → is_open findings (before ++ next ∷ after) line ≡ true }
{}

/// States that after its intent a line is closed, whatever else is noted, there and in other
/// journals. It stays so until that very intent gets an outcome that opens it, or a person finds it
/// not done.
pub fn an_intent_closes()
    ensures { (count : ℕ) (findings : List FindingView) (before after : List (List AttemptView)) (attempts mid next : List AttemptView) (serial line time : ℕ) (entries : List EntryView)
        → noted count attempts (Intent serial line time) ≡ Some mid → NoneOpens serial entries → journal_from count mid entries ≡ Some next
        → is_undone findings (length before + 1) serial ≡ false
        → is_open findings (before ++ next ∷ after) line ≡ false }
{}

/// States that a reader that misses findings takes no closed line for open.
pub fn missed_findings_open_none()
    ensures { (findings more : List FindingView) (journals : List (List AttemptView)) (line : ℕ)
        → is_open findings journals line ≡ true → is_open (findings ++ more) journals line ≡ true }
{}

/// States that an intent that was put closes its line. It goes on to do so while the entries after
/// it don't open it.
pub fn an_intent_stays()
    ensures first { (entries : List EntryView) (serial line time : ℕ) → HasIntent serial line (entries ++ Intent serial line time ∷ []) }
    ensures later { (entries more : List EntryView) (serial line : ℕ)
        → HasIntent serial line entries → NoneOpens serial more → HasIntent serial line (entries ++ more) }
{}

/// States that a line is clear for an attempt exactly if no other attempt at it stands.
pub fn clearance_is_of_each_other_attempt()
    ensures is { (findings : List FindingView) (journals : List (List AttemptView)) (own other : AttemptIdView) (line : ℕ)
        → IsClear findings journals own line → IsStanding findings journals own line other → ⊥ }
    ensures only { (findings : List FindingView) (journals : List (List AttemptView)) (own : AttemptIdView) (line : ℕ)
        → ((other : AttemptIdView) → IsStanding findings journals own line other → ⊥) → IsClear findings journals own line }
{}

/// States that a line is clear for an intent that was just noted exactly if it is open without that
/// intent.
pub fn a_clear_line_is_open_but_for_itself()
    ensures is { (count : ℕ) (findings : List FindingView) (before after : List (List AttemptView)) (attempts next : List AttemptView) (serial line time : ℕ)
        → noted count attempts (Intent serial line time) ≡ Some next
        → IsClear findings (before ++ next ∷ after) (record { worker = length before + 1; serial = serial }) line
        → is_open findings (before ++ attempts ∷ after) line ≡ true }
    ensures only { (count : ℕ) (findings : List FindingView) (before after : List (List AttemptView)) (attempts next : List AttemptView) (serial line time : ℕ)
        → noted count attempts (Intent serial line time) ≡ Some next
        → is_open findings (before ++ attempts ∷ after) line ≡ true
        → IsClear findings (before ++ next ∷ after) (record { worker = length before + 1; serial = serial }) line }
{}

/// States that a line that is clear stays so until another intent at it is noted. So a reader that
/// misses findings or outcomes takes no line for clear that isn't.
pub fn what_is_opened_stays_clear()
    ensures findings { (findings more : List FindingView) (journals : List (List AttemptView)) (own : AttemptIdView) (line : ℕ)
        → IsClear findings journals own line → IsClear (findings ++ more) journals own line }
    ensures entries { (count : ℕ) (findings : List FindingView) (before after : List (List AttemptView)) (attempts next : List AttemptView) (own : AttemptIdView) (line : ℕ) (entry : EntryView)
        → IsNoIntentAt line entry → noted count attempts entry ≡ Some next
        → IsClear findings (before ++ attempts ∷ after) own line → IsClear findings (before ++ next ∷ after) own line }
{}
