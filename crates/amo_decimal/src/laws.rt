//! The theorem on number texts. Nothing here runs: the function's contract is the theorem.
ghost use Rattle.std.specs.Prelude.{◌≡◌, ◌<◌, ◌↔◌, ◌^◌, ℕ, List, Some};
ghost use Rattle.std.specs.Fmt.{decimal};
ghost use Rattle.amo_decimal.specs.Numbers.{number_in};

/// States that a text says a number exactly if it is what printing that number gives, and the
/// number is below 2 to the 64. So what is printed is read back, and nothing else is read.
pub fn numbers_are_decimal()
    ensures { (text : List ℕ) (k : ℕ) → number_in text ≡ Some k ↔ (text ≡ decimal k) × (k < 2 ^ 64) }
{}
