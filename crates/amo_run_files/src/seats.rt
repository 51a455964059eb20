//! The givens of a round, and the participant numbers of its workers.
ghost use Rattle.std.specs.Prelude.{◌≡◌, ◌+◌, ◌*◌, ◌<◌, ◌≤◌, ◌^◌};
ghost use Rattle.amo_run_files.specs.Rounds.{bound_of, givens_of, turn_of, seat_of, threshold};

/// The givens of a round: so many jobs, the workers that share them, and the threshold at which a
/// worker ends.
#[derive(Clone, Copy, Debug, PartialEq, Eq)]
pub struct RoundParams {
    pub jobs: u64,
    pub workers: u64,
    pub beta: u64,
}

/// Returns the givens of a round of these jobs, of at most so many workers, with this threshold if
/// it fits.
pub fn givens_of(jobs: u64, workers: u64, beta: u64) -> RoundParams
    requires some_worker { 1 ≤ workers }
    requires few_workers { workers < 2 ^ 32 }
    requires small_beta { beta < 2 ^ 32 }
    ensures exact { result ≡ givens_of jobs workers beta }
    ensures fit { (1 ≤ result.workers) × (result.workers ≤ workers) × (result.workers ≤ result.beta) }
    // A round that comes to its end leaves at most half of its jobs,
    ensures half { jobs ≤ 2 * bound_of result }
    // and none if it is one worker's.
    ensures alone { result.workers ≡ 1 → bound_of result ≡ jobs }
    // The threshold that was asked for is taken if it can be.
    ensures asked { 1 < result.workers → result.workers ≤ beta → 2 * (beta + result.workers) ≤ jobs + 4 → result.beta ≡ beta }
{
    let shared = workers.min(jobs / 4 + 1);
    RoundParams {
        jobs,
        workers: shared,
        beta: threshold(jobs, shared, beta),
    }
}

fn threshold(jobs: u64, shared: u64, beta: u64) -> u64
    requires some_worker { 1 ≤ shared }
    requires few_workers { shared < 2 ^ 32 }
    requires small_beta { beta < 2 ^ 32 }
    ensures { result ≡ threshold jobs shared beta }
{
    if shared > 1 && 2 * (beta + shared - 2) <= jobs {
        beta.max(shared)
    } else {
        shared
    }
}

/// Returns the participant number of a worker in a round that worker `first` began, of at most
/// `workers`, and that `shared` of them share. Returns `None` if it has no part in this round.
pub fn seat_of(worker: u64, first: u64, workers: u64, shared: u64) -> Option<u64>
    requires first_in_round { (1 ≤ first) × (first ≤ workers) }
    requires few { workers < 2 ^ 32 }
    ensures { result ≡ seat_of worker first workers shared }
{
    if worker == 0 || worker > workers {
        return None;
    }
    let turn = turn_of(worker, first, workers);
    if turn > shared {
        return None;
    }
    Some(turn)
}

/// Returns how many workers the circle has from the first to this one, both with it.
fn turn_of(worker: u64, first: u64, workers: u64) -> u64
    requires in_round { (1 ≤ worker) × (worker ≤ workers) }
    requires first_in_round { (1 ≤ first) × (first ≤ workers) }
    requires few { workers < 2 ^ 32 }
    ensures { result ≡ turn_of worker first workers }
{
    if worker >= first {
        worker - first + 1
    } else {
        worker + workers - first + 1
    }
}
