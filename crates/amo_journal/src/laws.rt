//! The theorems on journals. Nothing here runs: each function's contract is a theorem.
ghost use Rattle.std.specs.Prelude.{◌≡◌, ◌⊎◌, ◌++◌, ℕ, List};
ghost use Rattle.amo_journal.specs.Appends.{IsDamagedAt, IsLog};
ghost use Rattle.amo_journal.specs.Following.{file_with, IsPlace, IsReasonThere};
ghost use Rattle.amo_journal.specs.declared.follow.Place.{Place as PlaceView};
ghost use Rattle.amo_journal.specs.declared.follow.ReadOnError.{ReadOnError as ReadOnErrorView};
ghost use Rattle.amo_journal.specs.declared.follow.ReadOnError.TheVariants.{Memory, TooLong};
ghost use Rattle.amo_journal.specs.declared.log.DamageKind.{DamageKind as DamageKindView};

/// States that a file has one list of appends, or is damaged, and not both.
pub fn a_log_is_not_damaged()
    ensures one { (checksum : List ℕ) (all others : List (List ℕ)) (file : List ℕ)
        → IsLog checksum all file → IsLog checksum others file → all ≡ others }
    ensures whole { (checksum : List ℕ) (all records : List (List ℕ)) (kind : DamageKindView) (file : List ℕ)
        → IsLog checksum all file → IsDamagedAt checksum records kind file → ⊥ }
{}

/// States that a file that goes on from a place is refused only for want of memory, or if 64 bits
/// can't count its bytes.
pub fn what_goes_on_is_read_on()
    ensures { (first : List ℕ) (all more : List (List ℕ)) (place : PlaceView) (bytes : List ℕ) (error : ReadOnErrorView)
        → IsPlace first all place → IsLog first (all ++ more) (file_with first all bytes)
        → IsReasonThere error place bytes → (error ≡ Memory) ⊎ (error ≡ TooLong) }
{}
