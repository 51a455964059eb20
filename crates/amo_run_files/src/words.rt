//! The places of a round's words in their file.
ghost use Rattle.std.specs.Prelude.{◌≡◌, ◌+◌, ◌*◌, ◌^◌, ◌<◌, ◌≤◌};
ghost use Rattle.amo_params.specs.declared.limits.TheConstants.{MAX_JOBS, MAX_WORKERS};
ghost use Rattle.amo_run_files.specs.Words.{offset_of, word_count, words_len};
ghost use Rattle.amo_run_files.specs.declared.head.TheConstants.{HEAD_LEN};

use crate::head::HEAD_LEN;
use crate::seats::RoundParams;

/// Returns how many bytes the file of the words has: the head, and 8 for each word.
#[tactic(auto, using(crate::proofs::Counts::few_words))]
pub fn words_len(givens: &RoundParams) -> u64
    requires few_jobs { givens.now.jobs ≤ MAX_JOBS }
    requires few_workers { givens.now.workers ≤ MAX_WORKERS }
    ensures { result ≡ words_len givens.now }
{
    offset_of(givens.workers * (givens.jobs + 3) + 1)
}

/// Returns the place in the file of the word of this number, from 0.
pub fn offset_of(word: u64) -> u64
    requires { HEAD_LEN + 8 * word < 2 ^ 64 }
    ensures { result ≡ offset_of word }
{
    HEAD_LEN as u64 + 8 * word
}
