//! Lists that have no more room than they need.
ghost use Rattle.std.specs.Prelude.{◌≡◌, IfOk, replicate, vec_len};
ghost use Rattle.std.specs.Vec.{vec_capacity};

use std::alloc::{AllocError, Global};

/// Returns a list that has `item` `count` times, and room for no more. It takes memory once.
///
/// # Errors
///
/// `AllocError` if memory is refused.
///
/// # Examples
///
/// ```
/// use amo_sets::filled;
///
/// let list = filled(rt.alloc(), 3, 7u64)?;
/// assert_eq!(rt; list.as_slice(), [7, 7, 7].as_slice());
/// ```
pub fn filled<T: Copy>(alloc: Global, count: usize, item: T) -> Result<Vec<T>, AllocError>
    ensures items { IfOk result (λ v. v.items ≡ replicate count item) }
    ensures len { IfOk result (λ v. vec_len v ≡ count) }
    ensures room { IfOk result (λ v. vec_capacity v ≡ count) }
{
    let mut list = Vec::with_capacity(alloc, count)?;
    while list.len() < count {
        list.push_reserved(item);
    }
    Ok(list)
}
