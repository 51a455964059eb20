//! The places of moves, jobs and workers in a picture of jobs.
ghost use Rattle.std.specs.Prelude.{◌≡◌, ◌≤◌, ◌<◌, ◌^◌};
ghost use Rattle.amo_svg.specs.Scale.{last_number, at, end_of, place, wide, power, grid_step, narrow_lane, band};

use amo_trace::Transition;

/// Returns the number of the last row, at least 1.
pub(crate) fn last_number(rows: &[Transition]) -> usize
    ensures value { result ≡ last_number rows.now }
    ensures some { 1 ≤ result }
{
    match rows.last() {
        Some(transition) => transition.number.max(1),
        None => 1,
    }
}

/// Returns how far down a move is.
pub(crate) fn at(last: usize, number: usize) -> u128
    requires { 1 ≤ last }
    ensures value { result ≡ at last number }
    ensures near { result < 2 ^ 100 }
{
    72 + 960 * number as u128 / last as u128
}

/// Returns how far down the end of a transition goes: so far below its move, or to the foot without
/// a transition.
pub(crate) fn end_of(last: usize, below: u128, end: Option<Transition>) -> u128
    requires last { 1 ≤ last }
    requires near { below ≤ 2 }
    ensures { result ≡ end_of last below end }
{
    match end {
        Some(transition) => at(last, transition.number) + below,
        None => 1032,
    }
}

/// Returns how far to the right the middle of a job's column is.
pub(crate) fn place(jobs: u32, job: u32) -> u128
    requires { 1 ≤ jobs }
    ensures { result ≡ place jobs job }
{
    72 + 768 * (2 * job as u128).saturating_sub(1) / (2 * jobs as u128)
}

/// Returns how wide a column is.
pub(crate) fn wide(jobs: u32) -> u128
    requires { 1 ≤ jobs }
    ensures value { result ≡ wide jobs }
    ensures narrow { result < 1000 }
{
    (768 / jobs + 1) as u128
}

/// Returns the greatest power of ten that is at most this number, from 1 to 10000.
fn power(number: usize) -> usize
    ensures value { result ≡ power number }
    ensures some { 1 ≤ result }
    ensures few { result ≤ 10000 }
{
    if number < 10 {
        1
    } else if number < 100 {
        10
    } else if number < 1000 {
        100
    } else if number < 10000 {
        1000
    } else {
        10000
    }
}

/// Returns how far apart the numbers on an axis are that goes up to this one.
pub(crate) fn grid_step(last: usize) -> u128
    ensures value { result ≡ grid_step last }
    ensures some { 1 ≤ result }
{
    let power = power(last / 8);
    (last / 8 / power) as u128 * power as u128 + power as u128
}

/// Returns the place of a worker's lane.
pub(crate) fn narrow_lane(worker: u32) -> u128
    ensures value { result ≡ narrow_lane worker }
    ensures wide { 848 ≤ result }
    ensures near { result < 2 ^ 40 }
{
    848 + 36 * worker as u128
}

/// Returns how far down the marks of the jobs of this worker stand. The marks of jobs without a
/// claim follow those of the last worker.
pub(crate) fn band(worker: u32) -> u128
    ensures value { result ≡ band worker }
    ensures near { result < 2 ^ 40 }
{
    1052 + 14 * worker as u128
}
