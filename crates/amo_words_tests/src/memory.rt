//! Out of memory, and the calls that take no memory.
ghost use Rattle.std.specs.Prelude.{◌≡◌, IfSome};

use super::floors::{Expected, hire, letters, look, open, perform, run, words_of};
use amo_kk::Leaving;
use amo_params::Givens;
use amo_words::{Book, ClosedFloor, Floor, HireFault, OpenFault, Worker, WorkerEnd};
use std::alloc::Global;
use std::process::Abort;
use std::test::Fail;

/// Returns true if a request for memory is granted. If one was refused and this one isn't, the call
/// that was refused has to succeed now.
fn has_memory(alloc: Global) -> bool {
    Vec::<u32>::with_capacity(alloc, 1).is_ok()
}

/// Hires worker 1 after a refusal: nobody while there is no memory.
fn hire_again(
    rt: &impl Abort,
    alloc: Global,
    floor: &Floor<char>,
    book: &mut Book<char>,
) -> Option<Worker<char>>
    requires { book.old.table_id ≡ floor.now.table_id }
    ensures book { book.new.table_id ≡ book.old.table_id }
    ensures worker { IfSome result (λ w. w.table_id ≡ book.old.table_id) }
{
    if has_memory(alloc) {
        return Some(hire(rt, alloc, floor, book, 1));
    }
    assert!(rt; matches!(book.hire(alloc, floor, 1), Err(HireFault::NoMemory)));
    None
}

/// Settles after a refusal: not while there is no memory.
fn settle_again(
    rt: &impl Abort,
    alloc: Global,
    floor: Floor<char>,
    book: Book<char>,
    expected: &Expected<'_>,
)
    requires { book.table_id ≡ floor.table_id }
{
    if has_memory(alloc) {
        expected.holds(rt, alloc, floor, book);
    } else {
        assert!(rt; floor.settle(alloc, book).is_err());
    }
}

#[test]
fn refused_floor(rt: HostRuntime) -> Result<(), Fail> {
    let givens = Givens::try_new(3, 2, 2)?;
    let Ok(payloads) = letters(rt.alloc(), 3) else {
        return Ok(());
    };
    let (floor, mut book) = match Floor::try_new(rt.alloc(), givens, payloads) {
        Ok(made) => made,
        Err(OpenFault::NoMemory(back)) => {
            assert!(rt; back.as_slice() == ['a', 'b', 'c'].as_slice());
            return Ok(());
        }
        Err(OpenFault::WrongCount(_)) => panic!(rt; "there are three payloads"),
    };
    let mut first = match book.hire(rt.alloc(), &floor, 1) {
        Ok(first) => first,
        Err(HireFault::NoMemory) => {
            let Some(first) = hire_again(&rt, rt.alloc(), &floor, &mut book) else {
                return Ok(());
            };
            first
        }
        Err(HireFault::NotInBook) => panic!(rt; "worker 1 was at home"),
    };
    run(&floor, &mut first, 4);
    book.collect(&floor, first);
    let expected = Expected {
        claims: &[&[1], &[]],
        dones: &[&[], &[]],
        ends: &[WorkerEnd::Stopped(4), WorkerEnd::NeverHired],
        free: &[(2, 'b'), (3, 'c')],
    };
    match floor.settle(rt.alloc(), book) {
        Ok(end) => expected.is(&rt, end),
        Err((floor, book)) => settle_again(&rt, rt.alloc(), floor, book, &expected),
    }
    Ok(())
}

/// Settles a closed floor after a refusal: not while there is no memory.
fn settle_closed_again(
    rt: &impl Abort,
    alloc: Global,
    closed: ClosedFloor<char>,
    expected: &Expected<'_>,
) {
    let granted = has_memory(alloc);
    match closed.settle(alloc) {
        Ok(end) => expected.is(rt, end),
        Err(_) => assert!(rt; !granted),
    }
}

#[test]
fn refused_closed_floor(rt: HostRuntime) -> Result<(), Fail> {
    let givens = Givens::try_new(3, 2, 2)?;
    let Ok(payloads) = letters(rt.alloc(), 3) else {
        return Ok(());
    };
    let Ok((floor, mut book)) = Floor::try_new(rt.alloc(), givens, payloads) else {
        return Ok(());
    };
    let Ok(mut first) = book.hire(rt.alloc(), &floor, 1) else {
        return Ok(());
    };
    run(&floor, &mut first, 4);
    drop(first);
    let expected = Expected {
        claims: &[&[1], &[]],
        dones: &[&[], &[]],
        ends: &[WorkerEnd::Lost, WorkerEnd::NeverHired],
        free: &[(2, 'b'), (3, 'c')],
    };
    match floor.close(book).settle(rt.alloc()) {
        Ok(end) => expected.is(&rt, end),
        Err(closed) => settle_closed_again(&rt, rt.alloc(), closed, &expected),
    }
    Ok(())
}

/// Opens a floor and hires its two workers. If they are used, both make each call that takes no
/// memory: one does a job, holds another and is collected, the other leaves and is collected. Then
/// the test looks at all that the book shows, closes the floor, and looks at its words.
fn use_floor(rt: &impl Abort, alloc: Global, used: bool) -> Result<(), Fail> {
    let givens = Givens::try_new(5, 2, 2)?;
    let (floor, mut book) = open(rt, alloc, givens, letters(alloc, 5)?);
    let mut first = hire(rt, alloc, &floor, &mut book, 1);
    let mut second = hire(rt, alloc, &floor, &mut book, 2);
    if used {
        perform(&floor, &mut first, 2, 1);
        let held = first.leave(&floor);
        assert!(rt; held == Leaving::InHand(2) && first.in_hand() == Some(2));
        assert!(rt; second.leave(&floor) == Leaving::Left && second.has_left() && !second.ended());
        assert!(rt; first.number() == 1 && first.steps() == 9 && second.steps() == 1);
        book.collect(&floor, first);
        book.collect(&floor, second);
        assert!(rt; look(givens, &book, 1) == Some((9, false, 2, 1)));
        let closed = floor.close(book);
        assert!(rt; words_of(&closed, 1) == Some((2, 2, 1)));
    }
    Ok(())
}

/// Opens 100 floors, of which so many are used.
fn use_floors(rt: &impl Abort, alloc: Global, count: u32) -> Result<(), Fail> {
    for i in 0..100 {
        use_floor(rt, alloc, i < count)?;
    }
    Ok(())
}

#[test]
fn calls_take_no_memory_once(rt: HostRuntime) -> Result<(), Fail> {
    use_floors(&rt, rt.alloc(), 1)
}

#[test]
fn calls_take_no_memory_often(rt: HostRuntime) -> Result<(), Fail> {
    use_floors(&rt, rt.alloc(), 100)
}
