//! The words that the system gives a program.
ghost use Rattle.std.specs.Prelude.{◌≡◌, IfOk};
ghost use Rattle.std.specs.Vec.Iter.{into_iter_items};

use std::alloc::{AllocError, Global};
use std::env::Args;

/// Returns the words, as a list, the program's own name first. Fails if there was no memory.
/// the system can't give the words.
pub(crate) fn listed(alloc: Global, words: Args) -> Result<Vec<String>, AllocError>
    ensures { IfOk result (λ list. list.items ≡ into_iter_items words) }
{
    let mut list = Vec::with_capacity(alloc, words.len())?;
    for word in words {
        list.push(word)?;
    }
    Ok(list)
}
