//! Searches in a list of events: for a worker, and for a job.
ghost use Rattle.std.specs.Prelude.{◌≡◌, length};
ghost use Rattle.amo_kk.specs.Run.{done_jobs};
ghost use Rattle.amo_judge.specs.Why.{is_end_of, is_claim_of, end_of, claim_of, hand_of};

use amo_kk::Event;

/// Returns true if worker p is gone by this event.
fn is_end_of(p: u32, event: Event) -> bool
    ensures { result ≡ is_end_of p event }
{
    match event {
        Event::Claimed(_, _) | Event::Done(_, _) => false,
        Event::Ended(q) | Event::Halted(q) | Event::Left(q) => q == p,
    }
}

/// Returns true if job j is claimed by this event.
fn is_claim_of(j: u32, event: Event) -> bool
    ensures { result ≡ is_claim_of j event }
{
    match event {
        Event::Claimed(_, i) => i == j,
        _ => false,
    }
}

/// Returns the event by which worker p is gone, and its number from 1.
pub(crate) fn end_of(p: u32, events: &[Event]) -> Option<(usize, Event)>
    ensures { result ≡ end_of p events.now }
{
    for (i, event) in events.iter().enumerate() {
        if is_end_of(p, *event) {
            return Some((i + 1, *event));
        }
    }
    None
}

/// Returns the event by which job j is claimed, and its number from 1.
pub(crate) fn claim_of(j: u32, events: &[Event]) -> Option<(usize, Event)>
    ensures { result ≡ claim_of j events.now }
{
    for (i, event) in events.iter().enumerate() {
        if is_claim_of(j, *event) {
            return Some((i + 1, *event));
        }
    }
    None
}

/// Returns the job that worker p has in its hand, and the number of the event since which it is
/// there.
pub(crate) fn hand_of(p: u32, events: &[Event]) -> Option<(u32, usize)>
    ensures { result ≡ hand_of p events.now }
{
    let mut hand = None;
    for (i, event) in events.iter().enumerate() {
        match *event {
            Event::Claimed(q, j) if q == p => hand = Some((j, i + 1)),
            Event::Done(q, _) if q == p => hand = None,
            _ => {}
        }
    }
    hand
}

/// Returns the number of jobs that the events perform.
pub(crate) fn performed(events: &[Event]) -> usize
    ensures { result ≡ length (done_jobs events.now) }
{
    let mut count: usize = 0;
    for event in events {
        if let Event::Done(_, _) = event {
            count += 1;
        }
    }
    count
}
