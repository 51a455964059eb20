//! The ordinals of jobs and words in faults.
ghost use Rattle.std.specs.Prelude.{◌≡◌, ◌+◌};
ghost use Rattle.amo_plan.specs.Passing.{capped};

/// The ordinal of an index, from 1; those that have more than 32 bits have the last of them.
pub(crate) fn ordinal_of(index: usize) -> u32
    ensures { result ≡ capped (index + 1) }
{
    match u32::try_from(index) {
        Ok(index) => index.saturating_add(1),
        Err(_) => u32::MAX,
    }
}
