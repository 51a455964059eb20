//! The theorems over the definitions. Nothing here runs: each function's contract is a law.
ghost use Rattle.std.specs.Prelude.{◌≡◌, ◌∷◌, [], ℕ, List, map};
ghost use Rattle.amo_safety_by_journals.specs.Model.{AreDistinct, Event};
ghost use Rattle.amo_safety_by_journals.specs.Runs.{ButTheLast, Clearance, EarlyClearance, IsRun, NoClearance, OthersAlone, PendingOpens, site_of};

/// States that each line is performed at most once, if workers hand over by clearance. Workers may
/// attempt any line at any time, die in any call, and begin again. Appends may fail, and come about
/// later. A text that was read may be lost again if it was not acknowledged. The machine may stop,
/// and operators may answer, at any time. We assume four things. A journal keeps what it
/// acknowledged. One process at a time has a journal. A read gives what stands in the file. An
/// attempt that is opened is over, and has not performed its line.
pub fn lines_are_performed_once_by_journals_alone()
    ensures { (n : ℕ) (es : List Event) → IsRun Clearance n es → AreDistinct (map (λ h. h.line) (site_of es).performed) }
{}

/// States that without clearance two workers perform a line twice.
pub fn without_clearance_a_line_is_performed_twice()
    ensures { (es : List Event) × IsRun NoClearance 2 es × (map (λ h. h.line) (site_of es).performed ≡ 7 ∷ 7 ∷ []) }
{}

/// States that if a worker doesn't look at its own earlier attempts, it performs a line twice.
pub fn without_its_own_journal_a_worker_performs_a_line_twice()
    ensures { (es : List Event) × IsRun OthersAlone 2 es × (map (λ h. h.line) (site_of es).performed ≡ 7 ∷ 7 ∷ []) }
{}

/// States that if one journal is skipped, two workers perform a line twice.
pub fn without_one_journal_a_line_is_performed_twice()
    ensures { (es : List Event) × IsRun ButTheLast 2 es × (map (λ h. h.line) (site_of es).performed ≡ 7 ∷ 7 ∷ []) }
{}

/// States that if an attempt without an outcome counts as opened, two workers perform a line twice.
pub fn if_pending_attempts_open_a_line_is_performed_twice()
    ensures { (es : List Event) × IsRun PendingOpens 2 es × (map (λ h. h.line) (site_of es).performed ≡ 7 ∷ 7 ∷ []) }
{}

/// States that with clearance before the intent two workers perform a line twice.
pub fn clearance_before_the_intent_is_too_early()
    ensures { (es : List Event) × IsRun EarlyClearance 2 es × (map (λ h. h.line) (site_of es).performed ≡ 7 ∷ 7 ∷ []) }
{}
