//! The functions that C calls.
//!
//! Pointers are aligned and not null, that of an empty list included. The places to which they
//! point are apart, and nobody else changes it during the call. `amo_next`, `amo_batch` and
//! `amo_leave` take memory from `malloc`, and give it back before they return. The other functions
//! take none. No call blocks.
//!
//! `examples/c/amo.h` declares these functions for C, with a loop for each way to call them.
ghost use Rattle.std.specs.Prelude.{◌≡◌, ◌≢◌, ◌<◌, ◌≤◌, true, Ok, Err, IfOk, IfErr, IsOkAnd, map, take, drop, length};
ghost use Rattle.std.specs.List.{All};
ghost use Rattle.amo_c.specs.Batch.{items_reply, item_told, IsBelow};
ghost use Rattle.amo_c.specs.Codes.{fault_code};
ghost use Rattle.amo_c.specs.Reply.{givens_in, worker_in, next_reply, leave_reply, code_of, has_worker, words_in, bound_in, announcement_in, claims_in, entry_in};
ghost use Rattle.amo_c.specs.declared.codes.FaultCode.TheVariants.{NoMemory};

use crate::codes::FaultCode;
use crate::item::{AmoItem, write_items};
use crate::told::{AmoGivens, AmoNext, leave_by, next_of};
use crate::worker::{givens_of, standing_after, worker_of};
use amo_process::{Item, done_word, items_of};
use std::alloc::Global;

/// The code of a call that succeeds.
const NO_FAULT: u32 = 0;

/// Returns the next access of worker p whose process has read these values.
fn next_after(
    alloc: Global,
    numbers: &AmoGivens,
    p: u64,
    heard: &[u64],
) -> Result<AmoNext, FaultCode>
    ensures told { IfOk result (λ n. next_reply numbers.now p heard.now ≡ Ok n) }
    ensures fault { IfErr result (λ e. e ≢ NoMemory → next_reply numbers.now p heard.now ≡ Err e) }
    ensures memory { IfErr result (λ e. e ≡ NoMemory → has_worker numbers.now p ≡ true) }
    ensures within { IfOk result (λ n. n.word < words_in (givens_in numbers.now)) }
{
    let worker = worker_of(numbers, p)?;
    let standing = standing_after(alloc, worker, heard)?;
    Ok(next_of(worker, &standing))
}

/// The next access of a worker, and its batch.
#[derive(Drop)]
struct Batch {
    next: AmoNext,
    items: Vec<Item>,
}

/// Returns the next access of worker p whose process has read these values, and its batch.
fn batch_after(
    alloc: Global,
    numbers: &AmoGivens,
    p: u64,
    heard: &[u64],
) -> Result<Batch, FaultCode>
    ensures told { IfOk result (λ b. next_reply numbers.now p heard.now ≡ Ok b.next) }
    ensures fault { IfErr result (λ e. e ≢ NoMemory → next_reply numbers.now p heard.now ≡ Err e) }
    ensures memory { IfErr result (λ e. e ≡ NoMemory → has_worker numbers.now p ≡ true) }
    ensures within { IfOk result (λ b. b.next.word < words_in (givens_in numbers.now)) }
    ensures items { IfOk result (λ b. items_reply numbers.now p heard.now ≡ Ok (map item_told b.items.items)) }
    ensures below { IfOk result (λ b. All (IsBelow (words_in (givens_in numbers.now))) (map item_told b.items.items)) }
{
    let worker = worker_of(numbers, p)?;
    let standing = standing_after(alloc, worker, heard)?;
    let next = next_of(worker, &standing);
    let Ok(items) = items_of(alloc, worker.givens, worker.number, standing) else {
        return Err(FaultCode::NoMemory);
    };
    Ok(Batch { next, items })
}

/// Returns the store by which worker p leaves whose process has read these values.
fn leaving_after(
    alloc: Global,
    numbers: &AmoGivens,
    p: u64,
    heard: &[u64],
) -> Result<AmoNext, FaultCode>
    ensures told { IfOk result (λ n. leave_reply numbers.now p heard.now ≡ Ok n) }
    ensures fault { IfErr result (λ e. e ≢ NoMemory → leave_reply numbers.now p heard.now ≡ Err e) }
    ensures memory { IfErr result (λ e. e ≡ NoMemory → has_worker numbers.now p ≡ true) }
    ensures within { IfOk result (λ n. n.word < words_in (givens_in numbers.now)) }
{
    let worker = worker_of(numbers, p)?;
    let standing = standing_after(alloc, worker, heard)?;
    leave_by(worker, &standing)
}

/// Writes the next access of worker p to `next`. `heard` has the values that its process has read
/// since it began: the value of each load and 0 for each store, in order. It takes time in
/// proportion to the list.
///
/// # Errors
///
/// The result is 0 if `next` was written, and otherwise the number of a [`FaultCode`]. `NoMemory`
/// doesn't depend on the list, since memory is taken before the list is read.
#[unsafe(no_mangle)]
pub extern "C" fn amo_next(
    alloc: Global,
    givens: &AmoGivens,
    p: u64,
    heard: &[u64],
    next: &mut AmoNext,
) -> u32
    ensures code { result ≢ fault_code NoMemory → result ≡ code_of (next_reply givens.now p heard.now) }
    ensures memory { result ≡ fault_code NoMemory → has_worker givens.now p ≡ true }
    ensures told { result ≡ 0 → next_reply givens.now p heard.now ≡ Ok next.new }
    ensures within { result ≡ 0 → next.new.word < words_in (givens_in givens.now) }
    ensures unchanged { result ≢ 0 → next.new ≡ next.old }
{
    match next_after(alloc, givens, p, heard) {
        Ok(told) => {
            *next = told;
            NO_FAULT
        }
        Err(fault) => fault.number(),
    }
}

/// Writes the next access as `amo_next` does, and the worker's batch: all accesses that are known
/// before another value is read, in order. It writes the first items, as many as there are places,
/// and their number to `count`. Other places stay as they were. `2 * workers + 1` places are enough
/// for any batch.
///
/// # Errors
///
/// The result is 0 if `next`, `count` and items were written, and otherwise the number of a
/// [`FaultCode`].
#[unsafe(no_mangle)]
pub extern "C" fn amo_batch(
    alloc: Global,
    givens: &AmoGivens,
    p: u64,
    heard: &[u64],
    items: &mut [AmoItem],
    count: &mut u64,
    next: &mut AmoNext,
) -> u32
    ensures code { result ≢ fault_code NoMemory → result ≡ code_of (next_reply givens.now p heard.now) }
    ensures memory { result ≡ fault_code NoMemory → has_worker givens.now p ≡ true }
    ensures told { result ≡ 0 → next_reply givens.now p heard.now ≡ Ok next.new }
    ensures within { result ≡ 0 → next.new.word < words_in (givens_in givens.now) }
    ensures items { result ≡ 0 → IsOkAnd (items_reply givens.now p heard.now) (λ all. take count.new items.new ≡ take (length items.old) all) }
    ensures below { result ≡ 0 → All (IsBelow (words_in (givens_in givens.now))) (take count.new items.new) }
    ensures count { result ≡ 0 → count.new ≤ length items.old }
    ensures beyond { result ≡ 0 → drop count.new items.new ≡ drop count.new items.old }
    ensures unchanged { result ≢ 0 → (next.new ≡ next.old) × (items.new ≡ items.old) × (count.new ≡ count.old) }
{
    match batch_after(alloc, givens, p, heard) {
        Ok(batch) => {
            *count = write_items(items, &batch.items) as u64;
            *next = batch.next;
            NO_FAULT
        }
        Err(fault) => fault.number(),
    }
}

/// Writes the store by which worker p leaves to `next`. `heard` is the list that `amo_next` takes.
/// It is the last access of this process. Don't call with this list again. Another process may
/// begin as the worker later.
///
/// # Errors
///
/// The result is 0 if `next` was written, and otherwise the number of a [`FaultCode`]:
/// `MayNotLeave` among them.
#[unsafe(no_mangle)]
pub extern "C" fn amo_leave(
    alloc: Global,
    givens: &AmoGivens,
    p: u64,
    heard: &[u64],
    next: &mut AmoNext,
) -> u32
    ensures code { result ≢ fault_code NoMemory → result ≡ code_of (leave_reply givens.now p heard.now) }
    ensures memory { result ≡ fault_code NoMemory → has_worker givens.now p ≡ true }
    ensures told { result ≡ 0 → leave_reply givens.now p heard.now ≡ Ok next.new }
    ensures within { result ≡ 0 → next.new.word < words_in (givens_in givens.now) }
    ensures unchanged { result ≢ 0 → next.new ≡ next.old }
{
    match leaving_after(alloc, givens, p, heard) {
        Ok(told) => {
            *next = told;
            NO_FAULT
        }
        Err(fault) => fault.number(),
    }
}

/// Returns how many registers there are, or 0 if the numbers break a limit. All are 0 at first, and
/// the word at place 0 always is.
#[unsafe(no_mangle)]
pub extern "C" fn amo_words(givens: &AmoGivens) -> u64
    ensures { result ≡ words_in (givens_in givens.now) }
{
    match givens_of(givens) {
        Ok(givens) => givens.workers as u64 * (givens.jobs as u64 + 3) + 1,
        Err(_) => 0,
    }
}

/// Returns how many jobs are done at least once a worker has ended, or 0 if the numbers break a
/// limit.
#[unsafe(no_mangle)]
pub extern "C" fn amo_bound(givens: &AmoGivens) -> u64
    ensures { result ≡ bound_in (givens_in givens.now) }
{
    match givens_of(givens) {
        Ok(givens) => givens.bound() as u64,
        Err(_) => 0,
    }
}

/// Returns the place of worker p's announcement, or 0 if p isn't a worker of these givens.
#[unsafe(no_mangle)]
pub extern "C" fn amo_announcement_word(givens: &AmoGivens, p: u64) -> u64
    ensures { result ≡ announcement_in (worker_in (givens_in givens.now) p) }
{
    match worker_of(givens, p) {
        Ok(worker) => worker.number as u64,
        Err(_) => 0,
    }
}

/// Returns the place of worker p's count of claims, or 0 if p isn't a worker of these givens.
#[unsafe(no_mangle)]
pub extern "C" fn amo_claims_word(givens: &AmoGivens, p: u64) -> u64
    ensures { result ≡ claims_in (worker_in (givens_in givens.now) p) }
{
    match worker_of(givens, p) {
        Ok(worker) => worker.givens.workers as u64 + worker.number as u64,
        Err(_) => 0,
    }
}

/// Returns the place of the k-th entry of worker p's row, or 0 if the givens have no such place.
/// Entries go from 1 to `jobs + 1`, and the last of them is always 0.
#[unsafe(no_mangle)]
pub extern "C" fn amo_entry_word(givens: &AmoGivens, p: u64, k: u64) -> u64
    ensures { result ≡ entry_in (worker_in (givens_in givens.now) p) k }
{
    match worker_of(givens, p) {
        Ok(worker) if k >= 1 && k <= worker.givens.jobs as u64 + 1 => {
            done_word(worker.givens, worker.number, k as u32)
        }
        Ok(_) | Err(_) => 0,
    }
}
