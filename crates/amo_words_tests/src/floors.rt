//! Floors, workers on them, looks at their books and words, and expected settlements.
//!
//! `tests/amo_algorithm_tests` has a link to this file, so that both crates use it.
ghost use Rattle.std.specs.Prelude.{◌≡◌};

use amo_params::Givens;
use amo_words::{Book, ClosedFloor, Filed, Floor, Place, Settlement, Step, Worker, WorkerEnd};
use std::alloc::{AllocError, Global};
use std::process::Abort;

/// The letters from `a`, one for each job.
pub(super) fn letters(alloc: Global, count: u32) -> Result<Vec<char>, AllocError> {
    let mut payloads = Vec::new(alloc);
    for letter in "abcdefgh".chars() {
        if payloads.len() < count as usize {
            let Ok(()) = payloads.push(letter) else {
                return Err(AllocError);
            };
        }
    }
    Ok(payloads)
}

/// The numbers from 1, one for each job.
pub(super) fn numbers(alloc: Global, count: u32) -> Result<Vec<u32>, AllocError> {
    let mut payloads = Vec::new(alloc);
    for before in 0..count {
        payloads.push(before.wrapping_add(1))?;
    }
    Ok(payloads)
}

/// A floor for these givens and payloads, and its book.
pub(super) fn open<P: Drop>(
    rt: &impl Abort,
    alloc: Global,
    givens: Givens,
    payloads: Vec<P>,
) -> (Floor<P>, Book<P>)
    ensures table { result.1.table_id ≡ result.0.table_id }
    ensures givens { result.1.view.givens ≡ givens }
{
    let Ok((floor, book)) = Floor::try_new(alloc, givens, payloads) else {
        panic!(rt; "the floor was not opened")
    };
    (floor, book)
}

/// Hires worker p, which is at home.
pub(super) fn hire<P: Drop>(
    rt: &impl Abort,
    alloc: Global,
    floor: &Floor<P>,
    book: &mut Book<P>,
    p: u32,
) -> Worker<P>
    requires { book.old.table_id ≡ floor.now.table_id }
    ensures book { book.new.table_id ≡ book.old.table_id }
    ensures givens { book.new.view.givens ≡ book.old.view.givens }
    ensures worker { result.table_id ≡ book.old.table_id }
{
    let Ok(worker) = book.hire(alloc, floor, p) else {
        panic!(rt; "worker {p} was not hired")
    };
    worker
}

/// Makes one access of the worker, and files at once what it claims. Returns true if it goes on.
pub(super) fn access<P: Drop>(floor: &Floor<P>, worker: &mut Worker<P>) -> bool
    requires { worker.old.table_id ≡ floor.now.table_id }
    ensures { worker.new.table_id ≡ worker.old.table_id }
{
    match worker.in_hand() {
        Some(_) => matches!(worker.file(floor), Filed::More),
        None => matches!(worker.step(floor), Step::Moved | Step::Claimed(_, _)),
    }
}

/// Makes this number of accesses of the worker.
pub(super) fn run<P: Drop>(floor: &Floor<P>, worker: &mut Worker<P>, accesses: u32)
    requires { worker.old.table_id ≡ floor.now.table_id }
    ensures { worker.new.table_id ≡ worker.old.table_id }
{
    for _ in 0..accesses {
        access(floor, worker);
    }
}

/// Accesses of the worker until it has claimed and done so many jobs.
pub(super) fn perform<P: Drop>(
    floor: &Floor<P>,
    worker: &mut Worker<P>,
    claims: usize,
    dones: usize,
)
    requires { worker.old.table_id ≡ floor.now.table_id }
    ensures { worker.new.table_id ≡ worker.old.table_id }
{
    for _ in 0..100_000 {
        if worker.claims().len() >= claims && worker.dones().len() >= dones {
            break;
        }
        access(floor, worker);
    }
}

/// Closes the floor.
pub(super) fn settle<P: Drop>(
    rt: &impl Abort,
    alloc: Global,
    floor: Floor<P>,
    book: Book<P>,
) -> Settlement<P>
    requires { book.table_id ≡ floor.table_id }
{
    let Ok(end) = floor.settle(alloc, book) else {
        panic!(rt; "the floor was not settled")
    };
    end
}

/// An expected settlement: claims, dones, ends and free jobs.
#[derive(Drop)]
pub(super) struct Expected<'a> {
    pub(super) claims: &'a [&'a [u32]],
    pub(super) dones: &'a [&'a [u32]],
    pub(super) ends: &'a [WorkerEnd],
    pub(super) free: &'a [(u32, char)],
}

impl Expected<'_> {
    /// The floor settles so.
    pub(super) fn holds(&self, rt: &impl Abort, alloc: Global, floor: Floor<char>, book: Book<char>)
        requires { book.table_id ≡ floor.table_id }
    {
        self.is(rt, settle(rt, alloc, floor, book));
    }

    /// The settlement is this.
    pub(super) fn is(&self, rt: &impl Abort, end: Settlement<char>) {
        expect_lists(rt, &end.claims, self.claims);
        expect_lists(rt, &end.dones, self.dones);
        assert!(rt; end.ends.as_slice() == self.ends);
        assert!(rt; end.free.as_slice() == self.free);
    }
}

/// Checks that the lists are the wanted ones.
fn expect_lists(rt: &impl Abort, found: &[Vec<u32>], wanted: &[&[u32]]) {
    assert_eq!(rt; found.len(), wanted.len());
    for (list, want) in found.iter().zip(wanted.iter()) {
        assert!(rt; list.as_slice() == *want);
    }
}

/// Returns what the book has of worker p if it is back: its steps, whether it has ended, and how
/// many jobs it has claimed and done.
pub(super) fn look(givens: Givens, book: &Book<char>, p: u32) -> Option<(u64, bool, usize, usize)>
    requires { book.now.view.givens ≡ givens }
{
    if p == 0 || p > givens.workers() {
        return None;
    }
    match book.place_of(p) {
        Place::Back => Some((
            book.steps_of(p),
            book.ended_of(p),
            book.claims_of(p).len(),
            book.dones_of(p).len(),
        )),
        Place::Home | Place::Out => None,
    }
}

/// The announcement, the count of claims and the first entry of the row of worker p, as they stood.
pub(super) fn words_of(closed: &ClosedFloor<char>, p: u32) -> Option<(u64, u64, u64)> {
    if p == 0 || p > closed.givens().workers() {
        return None;
    }
    Some((
        closed.announcement(p),
        closed.claim_count(p),
        closed.entry(p, 1),
    ))
}
