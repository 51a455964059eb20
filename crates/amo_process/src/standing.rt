//! The standing of a worker whose process knows only what it has read.
ghost use Rattle.std.specs.Prelude.{◌≡◌, ◌+◌, ◌<◌, ◌≤◌, Some, None, true, false, IfOk, IfErr, IfSome, IfNone, length, take, drop};
ghost use Rattle.amo_params.specs.Givens.{IsWorker};
ghost use Rattle.amo_kk.specs.Choice.{first_record};
ghost use Rattle.amo_kk.specs.Step.{want, record_after};
ghost use Rattle.amo_kk.specs.Again.{entries_of};
ghost use Rattle.amo_kk.specs.Words.{done_word, word_count};
ghost use Rattle.amo_process.specs.Heard.{can_hear, record_after_all, rest_of, standing_in, standing_of, IsOf};

use amo_kk::{Local, NoSuchWords, Want};
use amo_params::Givens;
use thiserror::Error;

/// `Standing`: the state of a worker, computed from the values that its process has read.
#[derive(Drop)]
pub enum Standing {
    /// It loads its own registers, the one at this place next.
    Beginning(u64),
    /// Its own registers were loaded, and its machine goes on. The flag is true if it has made no
    /// access since.
    Going(Local, bool),
}

/// `NoSuchNumber`: the error for a value that no worker can have stored there.
#[derive(Clone, Copy, Debug, PartialEq, Eq, Error)]
#[error("loaded number: impossible in this state; stop all workers, and start a new round")]
pub struct NoSuchNumber;

impl From<NoSuchWords> for NoSuchNumber {
    fn from(_fault: NoSuchWords) -> NoSuchNumber {
        NoSuchNumber
    }
}

/// Returns true if this load or store can have given v.
fn can_hear(givens: Givens, v: u64, want: Want) -> bool
    ensures { result ≡ can_hear givens v want }
{
    match want {
        Want::StoreNext(_) | Want::StoreClaim(_, _) | Want::StoreDone(_, _) => v == 0,
        Want::LoadNext(_) => v <= givens.jobs as u64,
        Want::LoadDone(_, k) => v <= givens.jobs as u64 && !(k == givens.jobs + 1 && v != 0),
        Want::Nothing => false,
    }
}

/// Gives the machine the value v. It returns false, and changes nothing, if v is impossible.
pub(crate) fn hear(local: &mut Local, v: u64) -> bool
    ensures answer { result ≡ can_hear local.old.givens v (want local.old.state) }
    ensures heard { result ≡ true → local.new ≡ record local.old { state = record_after local.old.givens local.old.number v local.old.state } }
    ensures stays { result ≡ false → local.new ≡ local.old }
{
    let want = local.want();
    if !can_hear(local.givens(), v, want) {
        return false;
    }
    let _shown = match want {
        Want::LoadNext(_) | Want::LoadDone(_, _) => local.told(v),
        Want::StoreNext(_) | Want::StoreClaim(_, _) | Want::StoreDone(_, _) | Want::Nothing => {
            local.stored()
        }
    };
    true
}

/// Gives the machine these values, one after the other. It returns false if one is impossible.
fn hear_all(local: &mut Local, heard: &[u64]) -> bool
    ensures heard { result ≡ true → record_after_all local.old.givens local.old.number local.old.state heard.now ≡ Some local.new.state }
    ensures stays { result ≡ true → local.new ≡ record local.old { state = local.new.state } }
    ensures refused { result ≡ false → record_after_all local.old.givens local.old.number local.old.state heard.now ≡ None }
{
    for v in heard {
        if !hear(local, *v) {
            return false;
        }
    }
    true
}

/// Returns how many entries stand before the first 0 of a row; `None` if it has no 0.
fn row_end(row: &[u64]) -> Option<usize>
    ensures none { IfNone result (rest_of row.now ≡ None) }
    ensures entries { IfSome result (λ k. entries_of row.now ≡ take k row.now) }
    ensures rest { IfSome result (λ k. rest_of row.now ≡ Some (drop (k + 1) row.now)) }
    ensures within { IfSome result (λ k. k < length row.now) }
{
    for (k, entry) in row.iter().enumerate() {
        if *entry == 0 {
            return Some(k);
        }
    }
    None
}

/// Returns the place of the k-th entry of the row of worker q.
///
/// # Examples
///
/// ```
/// use amo_kk::Givens;
/// use amo_process::done_word;
///
/// let givens = Givens::try_new(5, 2, 2)?;
/// assert_eq!(rt; done_word(givens, 1, 1), 5);
/// assert_eq!(rt; done_word(givens, 2, 6), 16);
/// ```
pub fn done_word(givens: Givens, q: u32, k: u32) -> u64
    ensures place { result ≡ done_word givens q k }
    ensures within { IsWorker givens q → k ≤ givens.jobs + 1 → result < word_count givens }
{
    let (jobs, workers) = (givens.jobs as u64, givens.workers as u64);
    2 * workers + (q as u64).saturating_sub(1) * (jobs + 1) + k as u64
}

/// Returns the standing of the worker of this machine, after it has loaded its announcement, its
/// count of claims, and then this.
fn standing_in(
    local: Local,
    announced: u64,
    counted: u64,
    row: &[u64],
) -> Result<Standing, NoSuchNumber>
    requires new { local.state ≡ first_record local.givens local.number }
    ensures standing { IfOk result (λ s. standing_in local.givens local.number announced counted row.now (rest_of row.now) ≡ Some s) }
    ensures refused { IfErr result (λ _. standing_in local.givens local.number announced counted row.now (rest_of row.now) ≡ None) }
    ensures of { IfOk result (λ s. IsOf local.givens local.number s) }
{
    let Some(end) = row_end(row) else {
        let givens = local.givens();
        if row.len() > givens.jobs as usize {
            return Err(NoSuchNumber);
        }
        return Ok(Standing::Beginning(done_word(givens, local.number(), row.len() as u32 + 1)));
    };
    let rest = &row[end + 1..];
    let mut local = local.again(announced, counted, &row[..end])?;
    if !hear_all(&mut local, rest) {
        return Err(NoSuchNumber);
    }
    Ok(Standing::Going(local, rest.is_empty()))
}

/// Returns the standing of a worker whose process has read these values since it began, in order:
/// the value of each load, and 0 for each store. The machine must be new. It takes time in
/// proportion to the list.
///
/// # Errors
///
/// [`NoSuchNumber`] if one of the values is impossible. The machine is dropped in each case but
/// `Going`.
///
/// # Examples
///
/// ```
/// use amo_kk::{Givens, Local};
/// use amo_process::{Standing, standing_of};
///
/// let givens = Givens::try_new(5, 2, 2)?;
/// let new = Local::new(rt.alloc(), givens, 2)?;
/// let in_hand = match standing_of(new, &[4, 2, 2, 0])? {
///     Standing::Going(local, true) => local.in_hand(),
///     Standing::Going(_, false) | Standing::Beginning(_) => None,
/// };
/// assert!(rt; in_hand == Some(4)); // it is in doubt
/// ```
pub fn standing_of(local: Local, heard: &[u64]) -> Result<Standing, NoSuchNumber>
    requires new { local.state ≡ first_record local.givens local.number }
    ensures standing { IfOk result (λ s. standing_of local.givens local.number heard.now ≡ Some s) }
    ensures refused { IfErr result (λ _. standing_of local.givens local.number heard.now ≡ None) }
    ensures of { IfOk result (λ s. IsOf local.givens local.number s) }
{
    match heard {
        [] => Ok(Standing::Beginning(local.number() as u64)),
        [_] => Ok(Standing::Beginning(local.givens().workers as u64 + local.number() as u64)),
        [announced, counted, row @ ..] => standing_in(local, *announced, *counted, row),
    }
}
