//! The theorems over the definitions. Nothing here runs: each function's contract is a theorem, on
//! which the crates above stand.
ghost use Rattle.std.specs.Prelude.{◌≡◌, ◌<◌, ◌≤◌, ◌↔◌, ◌^◌, ℕ, List, Some, Ok};
ghost use Rattle.std.specs.Fmt.{decimal};
ghost use Rattle.amo_decimal.specs.Numbers.{number_in};
ghost use Rattle.amo_plan.specs.Digits.{within};
ghost use Rattle.amo_plan.specs.Keeps.{Keeps};
ghost use Rattle.amo_plan.specs.declared.limits.TheConstants.{HIGHEST_IN_WORD};
ghost use Rattle.amo_plan.specs.Plan.{PlanSeen, plan_of};
ghost use Rattle.amo_plan.specs.Schedule.{number_of};

/// States that a text is read as a number of at most 64 bits, or as one of a range, exactly if it
/// is what printing that number gives.
pub fn digits_are_decimal()
    ensures number { (text : List ℕ) (k : ℕ) → k < 2 ^ 64 → number_in text ≡ Some k ↔ text ≡ decimal k }
    ensures range { (low high : ℕ) (text : List ℕ) (k : ℕ) → high < 2 ^ 64
        → within low high (number_in text) ≡ Some k ↔ (text ≡ decimal k) × (low ≤ k) × (k ≤ high) }
{}

/// States that a number in a word of a schedule is read as k exactly if it is k in decimal digits,
/// and k is within 1 and `HIGHEST_IN_WORD`.
pub fn schedule_numbers_are_decimal()
    ensures { (text : List ℕ) (k : ℕ) → number_of text ≡ Some k ↔ (text ≡ decimal k) × (1 ≤ k) × (k ≤ HIGHEST_IN_WORD) }
{}

/// States that each plan that is read has proper names that all differ, tasks that fit, as many
/// budgets as workers, and moves of workers that exist. It keeps all limits.
pub fn plans_keep_their_rules()
    ensures { (bytes : List ℕ) (p : PlanSeen) → plan_of bytes ≡ Ok p → Keeps p }
{}
