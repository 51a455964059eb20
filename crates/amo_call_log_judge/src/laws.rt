//! The theorems over the definitions. Nothing here runs: each function's contract is a law.
ghost use Rattle.std.specs.Prelude.{◌≡◌, ℕ, List, map};
ghost use Rattle.amo_safety_by_journals.specs.Model.{AreDistinct, Event, Site};
ghost use Rattle.amo_safety_by_journals.specs.Runs.{site_of, Clearance, IsRun, MayFollow};
ghost use Rattle.amo_params.specs.declared.limits.TheConstants.{MAX_WORKERS};
ghost use Rattle.amo_call_log_judge.specs.Against.{Against};
ghost use Rattle.amo_call_log_judge.specs.Grammar.{IsLog};
ghost use Rattle.amo_call_log_judge.specs.Judgement.{outcome_text, IsARun, IsAnswer, IsOutcomeOf};
ghost use Rattle.amo_call_log_judge.specs.declared.reason.Reason.{Reason};

use amo_safety_by_journals::laws::lines_are_performed_once_by_journals_alone;

/// States that if a reason is so at a site, the event may not come next there.
pub fn a_reason_is_against_the_rule()
    ensures { (w : Site) (e : Event) (reason : Reason) → Against w e reason → MayFollow Clearance MAX_WORKERS w e → ⊥ }
{}

/// States that a text is the log of at most one list of events.
pub fn a_text_is_the_log_of_one_list()
    ensures { (text : List ℕ) (es fs : List Event) → IsLog text es → IsLog text fs → es ≡ fs }
{}

/// States that if a text is the log of a run, the answer is that it is a run, and no other.
pub fn a_run_is_called_a_run()
    ensures { (text answer : List ℕ) (es : List Event) → IsLog text es → IsRun Clearance MAX_WORKERS es → IsAnswer text answer → answer ≡ outcome_text (IsARun es) }
{}

/// States that in a log of a run no line is performed twice.
pub fn a_run_performs_no_line_twice()
    ensures { (text : List ℕ) (es : List Event) → IsOutcomeOf text (IsARun es) → AreDistinct (map (λ h. h.line) (site_of es).performed) }
{
    lines_are_performed_once_by_journals_alone();
}
