//! A process that is stepped: it keeps the state machine, and not the list of the values that it
//! read.
ghost use Rattle.std.specs.Prelude.{◌≡◌, ◌<◌, ◌≤◌, ◌+◌, true, false, IfOk, IfErr, option_to_list};
ghost use Rattle.amo_params.specs.Givens.{IsWorker};
ghost use Rattle.amo_kk.specs.Fits.{WantFits};
ghost use Rattle.amo_kk.specs.Record.{job_in_hand};
ghost use Rattle.amo_kk.specs.Words.{next_word, word_count};
ghost use Rattle.amo_process.specs.Heard.{own_word, told_by, doubted_by};
ghost use Rattle.amo_process.specs.Stepped.{new_process, process_after, access_for, access_of, is_store, may_leave, has_ended, is_refused, one_or_none, IsWord};
ghost use Rattle.amo_process.specs.Batch.{items_to_filing};
ghost use Rattle.amo_process.specs.declared.access.Access.TheVariants.{Store};

use crate::access::Access;
use crate::batch::{Item, add_wanted, items_beginning, room_for};
use crate::stage::Stage;
use crate::standing::{NoSuchNumber, done_word};
use amo_kk::{Local, Want};
use amo_params::Givens;
use std::alloc::{AllocError, Global};
use std::marker::Model;
use std::mem;

/// `Process`: a resumable worker. Its first accesses load the worker's own registers, so it
/// restarts from them.
///
/// Call `to_perform`, then `want`, make that access, and call `told` or `stored`. Only `new` and
/// `batch` take memory. No call blocks.
///
/// # Examples
///
/// ```
/// use amo_kk::Givens;
/// use amo_process::{Access, Process};
///
/// let givens = Givens::try_new(2, 1, 1)?;
/// let mut process = Process::new(rt.alloc(), givens, 1)?;
/// let mut words = [0u64; 6]; // the registers: in a file, or in a store
/// let mut jobs = Vec::new(rt.alloc());
/// while !process.has_ended() {
///     if let Some(job) = process.to_perform() {
///         jobs.push(job)?; // perform it here
///     }
///     match process.want() {
///         Access::Load(place) => process.told(words[place as usize])?,
///         Access::Store(place, value) => {
///             words[place as usize] = value;
///             process.stored();
///         }
///         Access::Nothing => {}
///     }
/// }
/// assert_eq!(rt; jobs.as_slice(), [1, 2].as_slice());
/// ```
#[derive(Drop)]
pub struct Process {
    givens: Givens,
    number: u32,
    own: Vec<u64>,
    stage: Stage,
}

impl Model for Process {
    ghost use Rattle.std.specs.Vec.{vec_capacity};
    ghost use Rattle.amo_process.specs.Stepped.{ProcessView};
    ghost use Rattle.amo_process.specs.Stage.{standing_in_stage, IsHeld};

    ghost Value = { ProcessView };

    ghost view = { λ a. record {
      givens = a.givens;
      number = a.number;
      own = a.own.items;
      standing = standing_in_stage a.givens a.number a.own.items a.stage;
    } };

    ghost invariant = { λ a. IsHeld a.givens a.number a.own.items (vec_capacity a.own) a.stage };
}

impl Process {
    /// Returns a process of worker p that has read nothing. It takes memory twice: for the state
    /// machine, and for the values of the own registers.
    ///
    /// # Errors
    ///
    /// `AllocError` if memory is refused.
    ///
    /// # Examples
    ///
    /// ```
    /// use amo_kk::Givens;
    /// use amo_process::{Access, Process};
    ///
    /// let givens = Givens::try_new(5, 2, 2)?;
    /// let process = Process::new(rt.alloc(), givens, 2)?;
    /// assert!(rt; process.givens() == givens && process.number() == 2);
    /// assert!(rt; process.want() == Access::Load(2));
    /// ```
    pub fn new(alloc: Global, givens: Givens, p: u32) -> Result<Process, AllocError>
        requires worker { IsWorker givens p }
        ensures { IfOk result (λ a. a ≡ new_process givens p) }
    {
        let local = Local::new(alloc, givens, p)?;
        let own = Vec::with_capacity(alloc, givens.jobs as usize + 3)?;
        Ok(Process {
            givens,
            number: p,
            own,
            stage: Stage::Loading(local),
        })
    }

    /// Returns the givens with which the process was made.
    pub fn givens(&self) -> Givens
        ensures { result ≡ self.now.givens }
    {
        self.givens
    }

    /// Returns the worker's number, from 1.
    pub fn number(&self) -> u32
        ensures number { result ≡ self.now.number }
        ensures worker { IsWorker self.now.givens result }
    {
        self.number
    }

    /// Returns the next access. If a job is to be performed, perform it before this access.
    pub fn want(&self) -> Access
        ensures access { result ≡ access_of self.now.givens self.now.number self.now.standing }
        ensures within { IsWord self.now.givens result }
    {
        match &self.stage {
            Stage::Loading(_) => Access::Load(own_word(self.givens, self.number, self.own.len())),
            Stage::Stepping(local, _) => access_for(self.givens, self.number, local.want()),
            Stage::Refused => Access::Nothing,
        }
    }

    /// Returns the accesses that are known in advance, as far as the next store that records a job
    /// as done. After such a store call `stored`, and ask for the next batch: both may be carried
    /// out together. It takes memory once.
    ///
    /// # Errors
    ///
    /// `AllocError` if memory is refused. The process stays as it is.
    ///
    /// # Examples
    ///
    /// ```
    /// use amo_kk::Givens;
    /// use amo_process::{Item, Process};
    ///
    /// let givens = Givens::try_new(3, 2, 2)?;
    /// let process = Process::new(rt.alloc(), givens, 1)?;
    /// let items = process.batch(rt.alloc())?;
    /// let wanted = [Item::Load(1), Item::Load(3), Item::LoadUntilZero(5, 8)];
    /// assert!(rt; items.as_slice() == wanted.as_slice());
    /// ```
    pub fn batch(&self, alloc: Global) -> Result<Vec<Item>, AllocError>
        ensures { IfOk result (λ v. v.items ≡ items_to_filing self.now.givens self.now.number self.now.standing) }
    {
        let mut items = room_for(alloc, self.givens)?;
        match &self.stage {
            Stage::Loading(_) => {
                let word = own_word(self.givens, self.number, self.own.len());
                return Ok(items_beginning(self.givens, self.number, word, items));
            }
            Stage::Stepping(local, _) => add_wanted(&mut items, local),
            Stage::Refused => {}
        }
        Ok(items)
    }

    /// `told`: gives the process the value of its next access, which was made: the value of a load,
    /// or 0 after a store.
    ///
    /// # Errors
    ///
    /// [`NoSuchNumber`] if no worker can have stored this value there. From then on the process
    /// wants no access, and refuses each value. Stop all workers then: the registers are damaged.
    pub fn told(&mut self, v: u64) -> Result<(), NoSuchNumber>
        ensures process { self.new ≡ process_after self.old v }
        ensures goes_on { IfOk result (λ _. is_refused self.new.standing ≡ false) }
        ensures refused { IfErr result (λ _. is_refused self.new.standing ≡ true) }
    {
        let stage = mem::replace(&mut self.stage, Stage::Refused);
        self.stage = stage.after(self.givens, self.number, &mut self.own, v);
        match &self.stage {
            Stage::Loading(_) | Stage::Stepping(_, _) => Ok(()),
            Stage::Refused => Err(NoSuchNumber),
        }
    }

    /// `stored`: notes that the store that is the next access was made.
    pub fn stored(&mut self)
        requires { is_store (access_of self.old.givens self.old.number self.old.standing) ≡ true }
        ensures process { self.new ≡ process_after self.old 0 }
        ensures goes_on { is_refused self.new.standing ≡ false }
    {
        let _told = self.told(0);
    }

    /// Returns the job that the caller performs now, before the next access. It is `None` if there
    /// is no such job.
    pub fn to_perform(&self) -> Option<u32>
        ensures { option_to_list result ≡ one_or_none (told_by self.now.standing) }
    {
        match &self.stage {
            Stage::Stepping(local, false) => in_hand(local),
            Stage::Stepping(_, true) | Stage::Loading(_) | Stage::Refused => None,
        }
    }

    /// Returns the job in doubt, if the own registers show one: claimed, and not recorded as done.
    /// Nobody can know whether it was performed. **Never perform it.** The next access records it
    /// as done.
    ///
    /// # Examples
    ///
    /// ```
    /// use amo_kk::Givens;
    /// use amo_process::{Access, Process};
    ///
    /// let givens = Givens::try_new(5, 2, 2)?;
    /// let mut process = Process::new(rt.alloc(), givens, 2)?;
    /// for value in [4, 2, 2, 0] {
    ///     process.told(value)?; // announced job 4, counted 2 claims, recorded job 2
    /// }
    /// assert!(rt; process.in_doubt() == Some(4) && process.to_perform() == None);
    /// assert!(rt; process.want() == Access::Store(12, 4) && !process.may_leave());
    /// process.stored();
    /// assert!(rt; process.may_leave());
    /// assert!(rt; process.leave() == Access::Store(2, 0)); // make this store, and exit
    /// ```
    pub fn in_doubt(&self) -> Option<u32>
        ensures { option_to_list result ≡ one_or_none (doubted_by self.now.standing) }
    {
        match &self.stage {
            Stage::Stepping(local, true) => in_hand(local),
            Stage::Stepping(_, false) | Stage::Loading(_) | Stage::Refused => None,
        }
    }

    /// Returns true if the worker has ended by its own choice.
    pub fn has_ended(&self) -> bool
        ensures { result ≡ has_ended self.now.standing }
    {
        match &self.stage {
            Stage::Stepping(local, _) => local.ended(),
            Stage::Loading(_) | Stage::Refused => false,
        }
    }

    /// Returns true if the worker may leave: its own registers were read, it isn't gone, and it has
    /// nothing in its hand.
    pub fn may_leave(&self) -> bool
        ensures { result ≡ may_leave self.now.standing }
    {
        match &self.stage {
            Stage::Stepping(local, _) => local.can_leave(),
            Stage::Loading(_) | Stage::Refused => false,
        }
    }

    /// Ends the process, and returns the store that the caller makes as the last access. Another
    /// process of the worker may begin later.
    pub fn leave(self) -> Access
        requires { may_leave self.standing ≡ true }
        ensures { result ≡ Store (next_word self.number) 0 }
    {
        Access::Store(self.number as u64, 0)
    }
}

/// Returns the job in the hand of the machine.
fn in_hand(local: &Local) -> Option<u32>
    ensures { option_to_list result ≡ one_or_none (job_in_hand local.now.state.phase) }
{
    match local.want() {
        Want::StoreDone(_, j) => Some(j),
        Want::StoreNext(_)
        | Want::LoadNext(_)
        | Want::LoadDone(_, _)
        | Want::StoreClaim(_, _)
        | Want::Nothing => None,
    }
}

/// Returns the place of the own register that is loaded next, after so many of them.
fn own_word(givens: Givens, p: u32, loaded: usize) -> u64
    requires worker { IsWorker givens p }
    requires few { loaded ≤ givens.jobs + 2 }
    ensures place { result ≡ own_word givens p loaded }
    ensures within { result < word_count givens }
{
    match loaded {
        0 => p as u64,
        1 => givens.workers as u64 + p as u64,
        _ => done_word(givens, p, loaded as u32 - 1),
    }
}

/// Returns the access of worker p for this wish of its state machine.
///
/// # Examples
///
/// ```
/// use amo_kk::{Givens, Want};
/// use amo_process::{Access, access_for};
///
/// let givens = Givens::try_new(5, 2, 2)?;
/// assert!(rt; access_for(givens, 2, Want::LoadDone(1, 6)) == Access::Load(10));
/// assert!(rt; access_for(givens, 2, Want::StoreClaim(3, 4)) == Access::Store(4, 3));
/// ```
pub fn access_for(givens: Givens, p: u32, want: Want) -> Access
    requires worker { IsWorker givens p }
    requires fits { WantFits givens p want }
    ensures access { result ≡ access_for givens p want }
    ensures within { IsWord givens result }
{
    match want {
        Want::StoreNext(j) => Access::Store(p as u64, j as u64),
        Want::LoadNext(q) => Access::Load(q as u64),
        Want::LoadDone(q, k) => Access::Load(done_word(givens, q, k)),
        Want::StoreClaim(c, _) => Access::Store(givens.workers as u64 + p as u64, c as u64),
        Want::StoreDone(k, j) => Access::Store(done_word(givens, p, k), j as u64),
        Want::Nothing => Access::Nothing,
    }
}
