//! Tests with values that were worked out by hand. They stand here, since no crate can stand on a
//! static library. With 3 jobs and 2 workers the announcements are words 1 and 2, the counts of
//! claims 3 and 4, the rows 5 to 8 and 9 to 12.
use crate::exports::{
    amo_announcement_word, amo_batch, amo_bound, amo_claims_word, amo_entry_word, amo_leave,
    amo_next, amo_words,
};
use crate::item::AmoItem;
use crate::told::{AmoGivens, AmoNext};
use std::alloc::Global;
use std::process::Abort;
use std::test::Fail;

const SMALL: AmoGivens = AmoGivens {
    jobs: 3,
    workers: 2,
    beta: 2,
};

fn givens_of(jobs: u64, workers: u64, beta: u64) -> AmoGivens {
    AmoGivens {
        jobs,
        workers,
        beta,
    }
}

/// The values of a reply that wasn't written.
const UNTOLD: [u64; 8] = [9; 8];

const UNTOLD_ITEM: AmoItem = AmoItem {
    access: 9,
    word: 9,
    value: 9,
};

fn untold() -> AmoNext {
    AmoNext {
        access: 9,
        phase: 9,
        word: 9,
        value: 9,
        perform: 9,
        doubt: 9,
        claims: 9,
        dones: 9,
    }
}

fn fields(next: AmoNext) -> [u64; 8] {
    [
        next.access as u64,
        next.phase as u64,
        next.word,
        next.value,
        next.perform as u64,
        next.doubt as u64,
        next.claims,
        next.dones,
    ]
}

/// Calls `amo_next`, and returns its code and its reply.
fn next(alloc: Global, givens: AmoGivens, p: u64, heard: &[u64]) -> (u32, [u64; 8]) {
    let mut next = untold();
    let code = amo_next(alloc, &givens, p, heard, &mut next);
    (code, fields(next))
}

/// Calls `amo_leave`, and returns its code and its reply.
fn leave(alloc: Global, givens: AmoGivens, p: u64, heard: &[u64]) -> (u32, [u64; 8]) {
    let mut next = untold();
    let code = amo_leave(alloc, &givens, p, heard, &mut next);
    (code, fields(next))
}

/// Calls `amo_batch` with these places for items, and returns its code, the count and its reply.
fn batch_into(
    alloc: Global,
    givens: AmoGivens,
    p: u64,
    heard: &[u64],
    places: &mut [AmoItem],
) -> (u32, u64, AmoNext) {
    let (mut count, mut next) = (99, untold());
    let code = amo_batch(alloc, &givens, p, heard, places, &mut count, &mut next);
    (code, count, next)
}

/// Asserts that `amo_batch` writes these items, as many as there are places, and returns its reply.
fn batch(
    rt: &impl Abort,
    alloc: Global,
    givens: AmoGivens,
    p: u64,
    heard: &[u64],
    items: &[(u64, u64, u64)],
) -> [u64; 8] {
    let mut places = [UNTOLD_ITEM; 33];
    let (code, count, next) = batch_into(alloc, givens, p, heard, &mut places);
    assert!(rt; code == 0 && count == items.len() as u64);
    for (k, (place, item)) in places.iter().zip(items).enumerate() {
        assert!(rt;
            (place.access, place.word, place.value) == *item,
            "item {k}"
        );
    }
    fields(next)
}

#[test]
fn a_process_is_told_what_was_worked_out(rt: HostRuntime) {
    let rows: [(u64, &[u64], [u64; 8]); 12] = [
        (2, &[], [1, 0, 2, 0, 0, 0, 0, 0]),
        (2, &[3], [1, 0, 4, 0, 0, 0, 0, 0]),
        (2, &[3, 2], [1, 0, 9, 0, 0, 0, 0, 0]),
        (2, &[3, 2, 2], [1, 0, 10, 0, 0, 0, 0, 0]),
        (2, &[3, 2, 2, 0], [2, 5, 10, 3, 0, 3, 2, 1]),
        (1, &[0; 3], [2, 1, 1, 1, 0, 0, 0, 0]),
        (1, &[0; 4], [1, 2, 2, 0, 0, 0, 0, 0]),
        (1, &[0; 5], [1, 3, 9, 0, 0, 0, 0, 0]),
        (1, &[0; 6], [2, 4, 3, 1, 0, 0, 0, 0]),
        (1, &[0; 7], [2, 5, 5, 1, 1, 0, 1, 0]),
        (1, &[0; 8], [2, 1, 1, 2, 0, 0, 1, 1]),
        (1, &[2, 2, 1, 2, 0], [0, 6, 0, 0, 0, 0, 2, 2]),
    ];
    for (p, heard, told) in rows {
        let answer = next(rt.alloc(), SMALL, p, heard);
        assert!(&rt; answer == (0, told), "{p} {heard:?}");
    }
}

#[test]
fn a_worker_leaves_where_it_may(rt: HostRuntime) {
    let rows: [(&[u64], u32, [u64; 8]); 5] = [
        (&[0; 2], 9, UNTOLD),
        (&[0; 4], 0, [2, 7, 1, 0, 0, 0, 0, 0]),
        (&[0; 7], 9, UNTOLD),
        (&[0; 8], 0, [2, 7, 1, 0, 0, 0, 1, 1]),
        (&[2, 2, 1, 2, 0], 9, UNTOLD),
    ];
    for (heard, code, told) in rows {
        let answer = leave(rt.alloc(), SMALL, 1, heard);
        assert!(&rt; answer == (code, told), "{heard:?}");
    }
}

#[test]
fn what_is_wrong_has_its_code(rt: HostRuntime) {
    let rows: [(u64, u64, u64, u64, &[u64], u32); 11] = [
        (4097, 1, 1, 1, &[], 1),
        (3, 0, 2, 1, &[], 2),
        (3, 17, 17, 1, &[], 3),
        (3, 2, 1, 1, &[], 4),
        (3, 2, 65536, 1, &[], 5),
        (3, 2, 2, 0, &[], 6),
        (3, 2, 2, 3, &[], 6),
        (3, 2, 2, 2, &[2, 2, 2, 0], 7),
        (3, 2, 2, 2, &[0, 2, 2, 0], 7),
        (3, 2, 2, 2, &[0, 0, 2, 0], 7),
        (3, 2, 2, 2, &[0, 1, 4, 0], 7),
    ];
    for (jobs, workers, beta, p, heard, code) in rows {
        let givens = givens_of(jobs, workers, beta);
        let mut places = [UNTOLD_ITEM; 2];
        let (batch_code, count, told) = batch_into(rt.alloc(), givens, p, heard, &mut places);
        assert!(&rt;
            next(rt.alloc(), givens, p, heard) == (code, UNTOLD),
            "{code}"
        );
        assert!(&rt;
            leave(rt.alloc(), givens, p, heard) == (code, UNTOLD),
            "{code}"
        );
        assert!(&rt;
            batch_code == code && count == 99 && places[0].access == 9,
            "{code}"
        );
        assert!(&rt; fields(told) == UNTOLD, "{code}");
    }
}

#[test]
fn words_have_their_places(rt: HostRuntime) {
    let none = givens_of(3, 2, 1);
    assert!(&rt; amo_words(&SMALL) == 13 && amo_words(&none) == 0);
    assert!(&rt; amo_bound(&SMALL) == 1 && amo_bound(&none) == 0);
    let rows = [(0, 0, 0), (1, 1, 3), (2, 2, 4), (3, 0, 0)];
    for (p, announcement, claims) in rows {
        assert!(&rt; amo_announcement_word(&SMALL, p) == announcement, "{p}");
        assert!(&rt; amo_claims_word(&SMALL, p) == claims, "{p}");
    }
    let entries = [
        (1, 0, 0),
        (1, 1, 5),
        (2, 1, 9),
        (2, 4, 12),
        (2, 5, 0),
        (3, 1, 0),
    ];
    for (p, k, place) in entries {
        assert!(&rt; amo_entry_word(&SMALL, p, k) == place, "{p} {k}");
    }
}

#[test]
fn a_batch_is_a_whole_pass(rt: HostRuntime) {
    let rows: [(u64, &[u64], &[(u64, u64, u64)]); 9] = [
        (1, &[], &[(1, 1, 0), (1, 3, 0), (3, 5, 8)]),
        (1, &[0], &[(1, 3, 0), (3, 5, 8)]),
        (2, &[0, 2, 3], &[(3, 10, 12)]),
        (1, &[0; 3], &[(2, 1, 1), (1, 2, 0), (3, 9, 12)]),
        (1, &[0, 0, 0, 0, 3, 3], &[(3, 10, 12)]),
        (1, &[0; 6], &[(2, 3, 1)]),
        (1, &[0; 7], &[(2, 5, 1), (2, 1, 2), (1, 2, 0), (3, 9, 12)]),
        (2, &[3, 2, 2, 0], &[(2, 10, 3)]),
        (1, &[2, 2, 1, 2, 0], &[]),
    ];
    for (p, heard, items) in rows {
        let told = batch(&rt, rt.alloc(), SMALL, p, heard, items);
        assert!(&rt;
            next(rt.alloc(), SMALL, p, heard) == (0, told),
            "{p} {heard:?}"
        );
    }
}

#[test]
fn a_batch_is_cut_where_there_is_no_room(rt: HostRuntime) {
    let mut places = [UNTOLD_ITEM; 3];
    let (code, count, _) = batch_into(rt.alloc(), SMALL, 1, &[0; 3], &mut places[..2]);
    assert!(&rt; code == 0 && count == 2 && places[1].access == 1 && places[2].access == 9);
}

#[test]
fn the_longest_lists_are_taken(rt: HostRuntime) -> Result<(), Fail> {
    // worker 16 has filed 4095, 4094, .. 1, and has claimed 4096
    let crowd = givens_of(4096, 16, 65535);
    let mut heard = Vec::from_slice(rt.alloc(), &[4096, 4096])?;
    for entry in (0..4096).rev() {
        heard.push(entry)?;
    }
    let told = batch(&rt, rt.alloc(), crowd, 16, &heard, &[(2, 65583, 4096)]);
    assert!(&rt; told == [2, 5, 65583, 4096, 0, 4096, 4096, 4095]);
    assert!(&rt; next(rt.alloc(), crowd, 16, &heard) == (0, told));
    assert!(&rt; leave(rt.alloc(), crowd, 16, &heard) == (9, UNTOLD));
    // a worker alone, which stores three times for each job
    let alone = givens_of(4096, 1, 1);
    let zeros = Vec::from_elem(rt.alloc(), 0, 3 + 3 * 4096)?;
    assert!(&rt; next(rt.alloc(), alone, 1, &zeros) == (0, [0, 6, 0, 0, 0, 0, 4096, 4096]));
    Ok(())
}

#[test]
fn a_batch_of_16_workers_is_whole(rt: HostRuntime) {
    let crowd = givens_of(4096, 16, 16);
    // worker 16 has loaded its own words, and then announced, passed 15 announcements and 15 rows,
    // and claimed job 15 * 4081 / 16 + 1; next is job 15 * 4080 / 16 + 1 of those that are left
    let mut places = [UNTOLD_ITEM; 33];
    let (code, count, told) = batch_into(rt.alloc(), crowd, 16, &[0; 35], &mut places);
    assert!(&rt; code == 0 && count == 32 && told.perform == 3826);
    let items = [
        (places[0], 2, 61488, 3826),
        (places[1], 2, 16, 3827),
        (places[2], 1, 1, 0),
        (places[31], 3, 57391, 61487),
    ];
    for (place, access, word, value) in items {
        assert!(&rt;
            (place.access, place.word, place.value) == (access, word, value),
            "{word}"
        );
    }
}
