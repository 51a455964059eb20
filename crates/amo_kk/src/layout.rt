//! The places of the registers in one list of words.
//!
//! This layout holds in memory, in a file and in a store. Word 0 belongs to no worker. In
//! threads the registry loads it when a worker is hired or collected.
ghost use Rattle.std.specs.Prelude.{◌≡◌, ◌≤◌, ◌+◌};
ghost use Rattle.amo_params.specs.Givens.{IsWorker};
ghost use Rattle.amo_kk.specs.Words.{word_count, next_word, claim_word, done_word};

use amo_params::Givens;

/// Returns how many words there are: word 0, and for each worker its announcement, its count of
/// claims and its row of `jobs + 1` entries.
///
/// # Examples
///
/// ```
/// use amo_kk::Givens;
/// use amo_kk::layout::{claim_word, done_word, next_word, word_count};
///
/// let givens = Givens::try_new(5, 2, 2)?;
/// assert_eq!(rt; next_word(2), 2);
/// assert_eq!(rt; claim_word(givens, 2), 4);
/// assert_eq!(rt; done_word(givens, 2, 1), 11);
/// assert_eq!(rt; word_count(givens), 17);
/// ```
pub fn word_count(givens: Givens) -> usize
    ensures { result ≡ word_count givens }
{
    (givens.workers * (givens.jobs + 3) + 1) as usize
}

/// Returns the place of the announcement of worker p.
pub fn next_word(p: u32) -> usize
    ensures { result ≡ next_word p }
{
    p as usize
}

/// Returns the place of the count of claims of worker p.
pub fn claim_word(givens: Givens, p: u32) -> usize
    requires { IsWorker givens p }
    ensures { result ≡ claim_word givens p }
{
    (givens.workers + p) as usize
}

/// Returns the place of the k-th entry of the row of worker p, for k from 1 to `jobs + 1`. The last
/// entry is always 0.
pub fn done_word(givens: Givens, p: u32, k: u32) -> usize
    requires worker { IsWorker givens p }
    requires place { k ≤ givens.jobs + 1 }
    ensures { result ≡ done_word givens p k }
{
    (2 * givens.workers + (p - 1) * (givens.jobs + 1) + k) as usize
}
