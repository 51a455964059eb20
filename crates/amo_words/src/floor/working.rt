//! The steps of a worker: one load or store a call.
ghost use Rattle.std.specs.Prelude.{◌≡◌, ◌≤◌, ◌-◌, ◌<◌, [], ◌∷◌, ℕ, List, true, false, Option, Some, slice_get};
ghost use Rattle.atomic_table.specs.Table.{rest};
ghost use Rattle.amo_kk.specs.Record.{can_leave, jobs_in_hand};
ghost use Rattle.amo_kk.specs.Step.{want, is_load, shown};
ghost use Rattle.amo_kk.specs.Words.{loaded_word};
ghost use Rattle.amo_kk.specs.Answer.{leaving};
ghost use Rattle.amo_kk.specs.declared.phase.Want.{Want as Wanted};
ghost use Rattle.amo_words.specs.Plays.{HasTurned, HasLeft};
ghost use Rattle.amo_words.specs.Faces.{machine};
ghost use Rattle.amo_words.specs.Answers.{quiet_step, Stepped, filed, LeftIf};

use crate::floor::{Floor, Worker};
use crate::plays::{Claim, Load, Store, TakeBack};
use crate::rule::{TableSeat, Words};
use crate::slots::exchange;
use amo_kk::layout::{claim_word, done_word, next_word};
use amo_kk::{Leaving, Shown, Want};

/// `Step`: the result of one step of a worker.
#[derive(Drop)]
pub enum Step<P> {
    /// The worker has made one load or store, and goes on.
    Moved,
    /// The worker has claimed the job, and hands over its payload as it was put in. The job is in
    /// its hand until it is recorded as done.
    Claimed(u32, P),
    /// With this step the worker has ended by its own choice.
    Ended,
    /// The worker had ended or left before, and nothing changed.
    Idle,
}

/// `Filed`: the result of recording a job as done.
#[derive(Clone, Copy, Debug, PartialEq, Eq)]
pub enum Filed {
    /// The worker goes on.
    More,
    /// With this step the worker has ended by its own choice.
    Ended,
}

/// Takes the payload of j out of its slot, which the handle has taken last.
fn take_out<P>(words: &Words<P>, seat: &mut TableSeat<P>, j: u32) -> P
    requires table { seat.old.table_id ≡ words.now.table_id }
    requires job { 1 ≤ j }
    requires full { (x : P) × (seat.old.me.1 ≡ (j - 1, Some x) ∷ rest seat.old.me.1) }
    ensures seat { (seat.new.table_id ≡ seat.old.table_id) × (seat.new.id ≡ seat.old.id) × (seat.new.me.0 ≡ seat.old.me.0) }
    ensures payload { (out : List (ℕ × Option P)) (x : P) → seat.old.me.1 ≡ (j - 1, Some x) ∷ out → x ≡ result }
{
    let Some(payload) = exchange(words, seat, j as usize - 1, None) else {
        unreachable!()
    };
    payload
}

/// Returns the result of a step that claims nothing.
fn moved<P>(shown: Shown) -> Step<P>
    ensures { result ≡ quiet_step shown }
{
    match shown {
        Shown::Ended => Step::Ended,
        Shown::Quiet | Shown::Claimed(_) | Shown::Done(_) | Shown::DoneEnded(_) | Shown::Left => {
            Step::Moved
        }
    }
}

impl<P> Worker<P> {
    /// Stores the announcement of j.
    fn announce(&mut self, words: &Words<P>, j: u32) -> Shown
        requires table { self.old.table_id ≡ words.now.table_id }
        requires wants { want (machine self.old).state ≡ Wanted.StoreNext j }
        ensures table { self.new.table_id ≡ self.old.table_id }
        ensures seat { self.new.id ≡ self.old.id }
        ensures turn { HasTurned self.old.view (machine self.old) 0 self.new.view }
        ensures shows { result ≡ shown (machine self.old).state.phase (machine self.new).state.phase }
    {
        let word = next_word(self.local.number());
        words.store::<Store>(&mut self.seat, word, j as u64);
        self.local.stored()
    }

    /// Loads the register that the machine wants.
    fn hear(&mut self, words: &Words<P>, word: usize) -> Shown
        requires table { self.old.table_id ≡ words.now.table_id }
        requires inside { word < words.now.table_id.words }
        requires wants { is_load (want (machine self.old).state) ≡ true }
        requires word { word ≡ loaded_word (machine self.old).givens (want (machine self.old).state) }
        ensures table { self.new.table_id ≡ self.old.table_id }
        ensures seat { self.new.id ≡ self.old.id }
        ensures turn { (n : ℕ) × HasTurned self.old.view (machine self.old) n self.new.view }
        ensures shows { result ≡ shown (machine self.old).state.phase (machine self.new).state.phase }
    {
        let found = words.load::<Load>(&mut self.seat, word);
        self.local.told(found)
    }

    /// Stores the count of claims, which takes the slot of j, and takes the payload out of it. No
    /// other worker can have taken it. After this store the world is lawful, and in such a world no
    /// job is claimed by two.
    fn claim(&mut self, words: &Words<P>, count: u32, j: u32) -> P
        requires table { self.old.table_id ≡ words.now.table_id }
        requires wants { want (machine self.old).state ≡ Wanted.StoreClaim count j }
        ensures table { self.new.table_id ≡ self.old.table_id }
        ensures seat { self.new.id ≡ self.old.id }
        ensures turn { HasTurned self.old.view (machine self.old) 0 self.new.view }
        ensures payload { slice_get self.old.view.payloads (j - 1) ≡ Some result }
    {
        let word = claim_word(self.local.givens(), self.local.number());
        words.store::<Claim>(&mut self.seat, word, count as u64);
        self.local.stored();
        take_out(words, &mut self.seat, j)
    }

    /// Records j as done, at place k of the worker's row.
    fn store_done(&mut self, words: &Words<P>, k: u32, j: u32) -> Shown
        requires table { self.old.table_id ≡ words.now.table_id }
        requires wants { want (machine self.old).state ≡ Wanted.StoreDone k j }
        ensures table { self.new.table_id ≡ self.old.table_id }
        ensures seat { self.new.id ≡ self.old.id }
        ensures turn { HasTurned self.old.view (machine self.old) 0 self.new.view }
        ensures shows { result ≡ shown (machine self.old).state.phase (machine self.new).state.phase }
    {
        let word = done_word(self.local.givens(), self.local.number(), k);
        words.store::<Store>(&mut self.seat, word, j as u64);
        self.local.stored()
    }

    /// Stores 0 to the announcement.
    fn take_back(&mut self, words: &Words<P>)
        requires table { self.old.table_id ≡ words.now.table_id }
        requires may { can_leave (machine self.old).state.phase ≡ true }
        ensures table { self.new.table_id ≡ self.old.table_id }
        ensures seat { self.new.id ≡ self.old.id }
        ensures left { HasLeft self.old.view (machine self.old) self.new.view }
    {
        let word = next_word(self.local.number());
        words.store::<TakeBack>(&mut self.seat, word, 0);
        self.local.leave();
    }
}

impl<P: Drop> Worker<P> {
    /// Takes one step of the worker, which has nothing in its hand: the one load or store that its
    /// state machine wants. It doesn't block, and takes no memory. Threads may share the floor,
    /// which must be the worker's own.
    pub fn step(&mut self, floor: &Floor<P>) -> Step<P>
        requires table { self.old.table_id ≡ floor.now.table_id }
        requires empty { jobs_in_hand (machine self.old).state.phase ≡ [] }
        ensures table { self.new.table_id ≡ self.old.table_id }
        ensures seat { self.new.id ≡ self.old.id }
        ensures stepped { Stepped self.old.view (machine self.old) result self.new.view }
    {
        let words = &floor.board.shared;
        match self.local.want() {
            Want::StoreNext(j) => moved(self.announce(words, j)),
            Want::LoadNext(q) => moved(self.hear(words, next_word(q))),
            Want::LoadDone(q, k) => {
                let word = done_word(self.local.givens(), q, k);
                moved(self.hear(words, word))
            }
            Want::StoreClaim(count, j) => Step::Claimed(j, self.claim(words, count, j)),
            Want::StoreDone(_, _) | Want::Nothing => Step::Idle,
        }
    }

    /// Records the job in the worker's hand as done, by one store. The caller has performed it. It
    /// doesn't block, and takes no memory. The floor must be the worker's own.
    pub fn file(&mut self, floor: &Floor<P>) -> Filed
        requires table { self.old.table_id ≡ floor.now.table_id }
        requires in_hand { (j : ℕ) × (jobs_in_hand (machine self.old).state.phase ≡ j ∷ []) }
        ensures table { self.new.table_id ≡ self.old.table_id }
        ensures seat { self.new.id ≡ self.old.id }
        ensures turn { HasTurned self.old.view (machine self.old) 0 self.new.view }
        ensures answers { result ≡ filed (shown (machine self.old).state.phase (machine self.new).state.phase) }
    {
        let Want::StoreDone(k, j) = self.local.want() else {
            unreachable!()
        };
        match self.store_done(&floor.board.shared, k, j) {
            Shown::DoneEnded(_) | Shown::Ended | Shown::Left => Filed::Ended,
            Shown::Quiet | Shown::Claimed(_) | Shown::Done(_) => Filed::More,
        }
    }

    /// Asks the worker to leave. It takes back its announcement by one store, so that the job which
    /// it had announced is free to others. If it has a job in its hand (`InHand`), or had ended or
    /// left before (`Gone`), it makes no access and nothing changes. It takes no memory. The floor
    /// must be the worker's own.
    pub fn leave(&mut self, floor: &Floor<P>) -> Leaving
        requires table { self.old.table_id ≡ floor.now.table_id }
        ensures table { self.new.table_id ≡ self.old.table_id }
        ensures seat { self.new.id ≡ self.old.id }
        ensures answers { result ≡ leaving (machine self.old).state.phase }
        ensures left { LeftIf result self.old.view (machine self.old) self.new.view }
    {
        if let Some(j) = self.local.in_hand() {
            return Leaving::InHand(j);
        }
        if !self.local.can_leave() {
            return Leaving::Gone;
        }
        self.take_back(&floor.board.shared);
        Leaving::Left
    }
}
