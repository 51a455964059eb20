//! Batches: all accesses that are known in advance.
ghost use Rattle.std.specs.Prelude.{◌≡◌, ◌+◌, ◌*◌, ◌<◌, ◌≤◌, ◌++◌, ◌∷◌, [], IfOk, length};
ghost use Rattle.std.specs.Vec.{vec_capacity};
ghost use Rattle.amo_params.specs.Givens.{IsWorker};
ghost use Rattle.amo_kk.specs.Step.{want};
ghost use Rattle.amo_process.specs.Heard.{IsOf};
ghost use Rattle.amo_process.specs.Batch.{items_of, items_from, items_wanted, items_beginning, loads_above, rows_above, last_word};

use crate::standing::{Standing, done_word};
use amo_kk::{Local, Want};
use amo_params::Givens;
use std::alloc::{AllocError, Global};

/// `Item`: one access of a batch, or several loads. Give the process each value that was loaded,
/// and 0 for a store, in order.
#[derive(Clone, Copy, Debug, PartialEq, Eq)]
pub enum Item {
    /// Store the value (second) at this place (first).
    Store(u64, u64),
    /// Load the word at this place.
    Load(u64),
    /// Load the word at this place (first) and those after it, one after the other, up to the first
    /// that is 0. The word at the last place (second) is always 0.
    LoadUntilZero(u64, u64),
}

/// Returns an empty list with room for a batch.
pub(crate) fn room_for(alloc: Global, givens: Givens) -> Result<Vec<Item>, AllocError>
    ensures none { IfOk result (λ v. v.items ≡ []) }
    ensures room { IfOk result (λ v. vec_capacity v ≡ 2 * givens.workers + 2) }
{
    Vec::with_capacity(alloc, 2 * givens.workers as usize + 2)
}

/// Returns the item that loads the row of q from this place on.
fn row_from(givens: Givens, q: u32, word: u64) -> Item
    ensures { result ≡ Item.LoadUntilZero word (last_word givens q) }
{
    Item::LoadUntilZero(word, done_word(givens, q, givens.jobs + 1))
}

/// Adds loads of the announcements of the workers after q, leaving out p.
fn add_loads(items: &mut Vec<Item>, givens: Givens, p: u32, q: u32)
    requires within { q ≤ givens.workers }
    requires room { length items.old.items + givens.workers ≤ vec_capacity items.old }
    ensures items { items.new.items ≡ items.old.items ++ loads_above givens p q }
    ensures few { length items.new.items ≤ length items.old.items + givens.workers }
    ensures room { vec_capacity items.new ≡ vec_capacity items.old }
{
    for other in q + 1..givens.workers + 1 {
        if other != p {
            items.push_reserved(Item::Load(other as u64));
        }
    }
}

/// Adds loads of the rows of the other workers after q, each after the entries that the machine has
/// read.
fn add_rows(items: &mut Vec<Item>, local: &Local, q: u32)
    requires within { q ≤ local.now.givens.workers }
    requires room { length items.old.items + local.now.givens.workers ≤ vec_capacity items.old }
    ensures items { items.new.items ≡ items.old.items ++ rows_above local.now.givens local.now.number local.now.state.fronts q }
    ensures few { length items.new.items ≤ length items.old.items + local.now.givens.workers }
    ensures room { vec_capacity items.new ≡ vec_capacity items.old }
{
    let (givens, p) = (local.givens(), local.number());
    for other in q + 1..givens.workers + 1 {
        if other != p {
            let word = done_word(givens, other, local.read_of(other)) + 1;
            items.push_reserved(row_from(givens, other, word));
        }
    }
}

/// Adds the access that the machine wants, and the rest of its pass.
pub(crate) fn add_wanted(items: &mut Vec<Item>, local: &Local)
    requires room { length items.old.items + 2 * local.now.givens.workers + 1 ≤ vec_capacity items.old }
    ensures { items.new.items ≡ items.old.items ++ items_wanted local.now.givens local.now.number local.now.state.fronts (want local.now.state) }
{
    let (givens, p) = (local.givens(), local.number());
    match local.want() {
        Want::StoreNext(j) => {
            items.push_reserved(Item::Store(p as u64, j as u64));
            add_loads(items, givens, p, 0);
            add_rows(items, local, 0);
        }
        Want::LoadNext(q) => {
            items.push_reserved(Item::Load(q as u64));
            add_loads(items, givens, p, q);
            add_rows(items, local, 0);
        }
        Want::LoadDone(q, k) => {
            items.push_reserved(row_from(givens, q, done_word(givens, q, k)));
            add_rows(items, local, q);
        }
        Want::StoreClaim(c, _) => {
            items.push_reserved(Item::Store(givens.workers as u64 + p as u64, c as u64));
        }
        Want::StoreDone(k, j) => {
            items.push_reserved(Item::Store(done_word(givens, p, k), j as u64));
        }
        Want::Nothing => {}
    }
}

/// Returns the batch of a machine that goes on.
fn items_going(mut local: Local, mut items: Vec<Item>) -> Vec<Item>
    requires none { items.items ≡ [] }
    requires room { 2 * local.givens.workers + 2 ≤ vec_capacity items }
    ensures { result.items ≡ items_from local.givens local.number local.state (want local.state) }
{
    if let Want::StoreDone(k, j) = local.want() {
        let word = done_word(local.givens(), local.number(), k);
        items.push_reserved(Item::Store(word, j as u64));
        let _shown = local.stored();
    }
    add_wanted(&mut items, &local);
    items
}

/// Returns loads of the own registers of worker p, from this place on.
pub(crate) fn items_beginning(givens: Givens, p: u32, word: u64, mut items: Vec<Item>) -> Vec<Item>
    requires none { items.items ≡ [] }
    requires room { 4 ≤ vec_capacity items }
    ensures { result.items ≡ items_beginning givens p word }
{
    let announced = p as u64;
    let counted = givens.workers as u64 + p as u64;
    let row = done_word(givens, p, 1);
    if word == announced {
        items.push_reserved(Item::Load(word));
        items.push_reserved(Item::Load(counted));
        items.push_reserved(row_from(givens, p, row));
    } else if word == counted {
        items.push_reserved(Item::Load(word));
        items.push_reserved(row_from(givens, p, row));
    } else {
        items.push_reserved(row_from(givens, p, word));
    }
    items
}

/// Returns the batch of worker p in this standing: all accesses that are known before another value
/// is read. It takes memory once, for at most `2 * workers + 2` items.
///
/// # Errors
///
/// `AllocError` if memory is refused. The standing is then dropped.
///
/// # Examples
///
/// ```
/// use amo_kk::{Givens, Local};
/// use amo_process::{Item, items_of, standing_of};
///
/// let givens = Givens::try_new(3, 2, 2)?;
/// let new = Local::new(rt.alloc(), givens, 1)?;
/// let standing = standing_of(new, &[0, 0, 0])?; // its own registers are all 0
/// let items = items_of(rt.alloc(), givens, 1, standing)?;
/// let wanted = [Item::Store(1, 1), Item::Load(2), Item::LoadUntilZero(9, 12)];
/// assert!(rt; items.as_slice() == wanted.as_slice());
/// ```
pub fn items_of(
    alloc: Global,
    givens: Givens,
    p: u32,
    standing: Standing,
) -> Result<Vec<Item>, AllocError>
    requires { IsOf givens p standing }
    ensures { IfOk result (λ v. v.items ≡ items_of givens p standing) }
{
    let items = room_for(alloc, givens)?;
    Ok(match standing {
        Standing::Beginning(word) => items_beginning(givens, p, word, items),
        Standing::Going(local, _) => items_going(local, items),
    })
}
