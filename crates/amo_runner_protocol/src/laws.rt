//! The theorems on the lines to the partner. Nothing here runs: each function's contract is a
//! theorem.
ghost use Rattle.std.specs.Prelude.{◌≡◌, ◌≢◌, ◌<◌, ◌^◌, ℕ, List};
ghost use Rattle.amo_journal.specs.Texts.{IsOneLine};
ghost use Rattle.amo_runner_protocol.specs.Sayings.{over_text, perform_text, was_text, IsOneEndedLine};

/// States that two equal lines to the partner have the same word, serial number, line number and
/// text.
pub fn lines_are_told_apart()
    ensures perform { (serial line other_serial other_line : ℕ) (text other : List ℕ) → serial < 2 ^ 64 → line < 2 ^ 64 → other_serial < 2 ^ 64 → other_line < 2 ^ 64
        → perform_text serial line text ≡ perform_text other_serial other_line other → (serial ≡ other_serial) × (line ≡ other_line) × (text ≡ other) }
    ensures was { (serial line other_serial other_line : ℕ) (text other : List ℕ) → serial < 2 ^ 64 → line < 2 ^ 64 → other_serial < 2 ^ 64 → other_line < 2 ^ 64
        → was_text serial line text ≡ was_text other_serial other_line other → (serial ≡ other_serial) × (line ≡ other_line) × (text ≡ other) }
    ensures words { (serial line other_serial other_line : ℕ) (text other : List ℕ) → perform_text serial line text ≢ was_text other_serial other_line other }
    ensures over { (serial line : ℕ) (text : List ℕ) → (perform_text serial line text ≢ over_text) × (was_text serial line text ≢ over_text) }
{}

/// States that the messages `perform`, `was` and `over` are each one line, if the job's text is
/// one.
pub fn one_line_is_told_in_one()
    ensures perform { (serial line : ℕ) (text : List ℕ) → serial < 2 ^ 64 → line < 2 ^ 64 → IsOneLine text → IsOneEndedLine (perform_text serial line text) }
    ensures was { (serial line : ℕ) (text : List ℕ) → serial < 2 ^ 64 → line < 2 ^ 64 → IsOneLine text → IsOneEndedLine (was_text serial line text) }
    ensures over { IsOneEndedLine over_text }
{}
