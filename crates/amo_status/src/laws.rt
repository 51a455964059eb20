//! The theorems on lines and answers. Nothing here runs: each function's contract is a theorem.
ghost use Rattle.std.specs.List.{AllByRecursion};
ghost use Rattle.std.specs.Prelude.{◌≡◌, ◌≢◌, ◌+◌, ◌++◌, ℕ, true, false, List, Option, Some, map, slice_get};
ghost use Rattle.amo_run_log.specs.declared.finding.Finding.{Finding as FindingView};
ghost use Rattle.amo_run_log.specs.declared.finding.Resolution.{Resolution as VerdictView};
ghost use Rattle.amo_run_log.specs.declared.finding.Resolution.TheVariants.{Done as FoundDone, NotDone};
ghost use Rattle.amo_run_log.specs.declared.journal.Attempt.{Attempt as AttemptView};
ghost use Rattle.amo_run_log.specs.Findings.{word_of};
ghost use Rattle.amo_run_log.specs.Numbers.{read_all};
ghost use Rattle.amo_run_log.specs.Open.{closes, is_open};
ghost use Rattle.amo_run_log.specs.Texts.{ended};
ghost use Rattle.amo_status.specs.declared.answering.Quiet.{Quiet as QuietView};
ghost use Rattle.amo_status.specs.declared.refusal.Refusal.TheVariants.{AnsweredOtherwise, AnsweredSo};
ghost use Rattle.amo_status.specs.declared.standing.LineStatus.{LineStatus as StandingView};
ghost use Rattle.amo_status.specs.declared.state.AttemptId.{AttemptId as IntentView};
ghost use Rattle.amo_status.specs.declared.state.State.{State as StateView};
ghost use Rattle.amo_status.specs.declared.state.State.TheVariants.{Open, Done, Running};
ghost use Rattle.amo_status.specs.Answers.{contrary, is_closed_by, refusal_now, with_answer, MayBeTaken};
ghost use Rattle.amo_status.specs.Rows.{kind_row, line_end, tab};
ghost use Rattle.amo_status.specs.Said.{SaidView, FitsSaid, lines_in, said_in, said_text};
ghost use Rattle.amo_status.specs.Standings.{open_standing, standing_of, IsByIntent};
ghost use Rattle.amo_status.specs.States.{is, state_of};

/// States that a closed line has its status by an intent of it that closes it, and by a running one
/// if there is one. An open line has it by no intent.
pub fn by_which_intent_a_line_stands()
    ensures closed { (findings : List FindingView) (journals : List (List AttemptView)) (finals : List IntentView) (line : ℕ)
        → is_open findings journals line ≡ false → IsByIntent findings journals finals line (standing_of findings journals finals line) }
    ensures opened { (findings : List FindingView) (journals : List (List AttemptView)) (finals : List IntentView) (line : ℕ)
        → is_open findings journals line ≡ true → standing_of findings journals finals line ≡ open_standing }
    ensures running { (findings : List FindingView) (journals : List (List AttemptView)) (finals : List IntentView) (line p s : ℕ) (es : List AttemptView) (e : AttemptView)
        → slice_get journals p ≡ Some es → slice_get es s ≡ Some e → closes findings (p + 1) (s + 1) e line ≡ true → is Running (state_of findings finals (p + 1) (s + 1) e.answer) ≡ true
        → is Running (standing_of findings journals finals line).state ≡ true }
{}

/// States that once an answer that may be taken is noted, its line is done by that intent, or the
/// intent no longer closes the line. The same answer again is refused as one that was given, and
/// the contrary one as one that was given otherwise.
pub fn an_answer_settles()
    ensures done { (findings : List FindingView) (journals : List (List AttemptView)) (finals : List IntentView) (worker serial line time : ℕ)
        → MayBeTaken findings journals finals worker serial line
        → standing_of (with_answer findings FoundDone worker serial time) journals finals line ≡ record (standing_of findings journals finals line) { state = Done } }
    ensures not_done { (findings : List FindingView) (journals : List (List AttemptView)) (finals : List IntentView) (worker serial line time : ℕ)
        → MayBeTaken findings journals finals worker serial line
        → is_closed_by (with_answer findings NotDone worker serial time) journals finals worker serial line ≡ false }
    ensures so { (quiet : Option QuietView) (findings : List FindingView) (journals : List (List AttemptView)) (finals : List IntentView) (worker serial line time : ℕ) (verdict : VerdictView)
        → MayBeTaken findings journals finals worker serial line
        → refusal_now quiet (with_answer findings verdict worker serial time) journals finals worker serial line verdict ≡ Some AnsweredSo }
    ensures otherwise { (quiet : Option QuietView) (findings : List FindingView) (journals : List (List AttemptView)) (finals : List IntentView) (worker serial line time : ℕ) (verdict : VerdictView)
        → MayBeTaken findings journals finals worker serial line
        → refusal_now quiet (with_answer findings verdict worker serial time) journals finals worker serial line (contrary verdict) ≡ Some AnsweredOtherwise }
{}

/// States that answers that are written a line each are read back as themselves, and that a text
/// that is read was written so.
pub fn answers_are_read_back()
    ensures back { (answers : List SaidView) → AllByRecursion FitsSaid answers → AllByRecursion (λ s. AllByRecursion (λ b. b ≢ 10) s.text) answers
        → read_all said_in (lines_in (ended (map said_text answers))) ≡ Some answers }
    ensures written { (file : List ℕ) (answers : List SaidView) → read_all said_in (lines_in file) ≡ Some answers → map said_text answers ≡ lines_in file }
{}

/// States that the row of a closed line among those of its kind, with a tab and a verdict after it,
/// is an answer to its intent.
pub fn rows_are_answers()
    ensures { (kind : StateView) (line : ℕ) (s : StandingView) (text : List ℕ) (v : VerdictView) → is Open s.state ≡ false → is kind s.state ≡ true
        → (row : List ℕ) × (kind_row kind line s text ≡ row ++ line_end)
        × (row ++ (tab ++ word_of v) ≡ said_text (record { worker = s.worker; serial = s.serial; line = line; text = text; verdict = v })) }
{}
