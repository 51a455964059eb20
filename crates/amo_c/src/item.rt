//! The items of a batch, as C sees them.
ghost use Rattle.std.specs.Prelude.{◌≡◌, ◌≤◌, map, take, drop, length};
ghost use Rattle.amo_c.specs.Batch.{item_told};

use crate::codes::AccessCode;
use amo_process::Item;

/// `AmoItem`: one access of a batch, or the loads of a row. The process notes each loaded value,
/// and 0 for a store.
#[repr(C)]
#[derive(Clone, Copy, Drop)]
pub struct AmoItem {
    /// The number of an `AccessCode`, never that of `Nothing`.
    pub access: u64,
    /// The place of the word, from 0. For a row it is the place of the first word that is loaded.
    pub word: u64,
    /// The value to store. For a row it is the place of its last word, which is always 0. Otherwise
    /// 0.
    pub value: u64,
}

/// Returns an item as C sees it.
fn item_told(item: Item) -> AmoItem
    ensures { result ≡ item_told item }
{
    let (access, word, value) = match item {
        Item::Store(word, value) => (AccessCode::Store, word, value),
        Item::Load(word) => (AccessCode::Load, word, 0),
        Item::LoadUntilZero(word, last) => (AccessCode::LoadRow, word, last),
    };
    AmoItem {
        access: access.number() as u64,
        word,
        value,
    }
}

/// Writes the first items of the batch, as many as there are places, and returns their number.
/// Other places stay as they were.
pub(crate) fn write_items(places: &mut [AmoItem], batch: &[Item]) -> usize
    ensures count { result ≤ length places.new }
    ensures told { take result places.new ≡ take (length places.old) (map item_told batch.now) }
    ensures beyond { drop result places.new ≡ drop result places.old }
{
    let count = places.len().min(batch.len());
    for k in 0..count {
        places[k] = item_told(batch[k]);
    }
    count
}
