//! The world: all workers, and the history.
ghost use Rattle.std.specs.Prelude.{◌≡◌, ◌≤◌, ◌<◌, ◌+◌, ◌*◌, ◌++◌, ◌∷◌, [], ℕ, true, false, not, List, length, map, IfOk, if◌then◌else◌, nat_lt};
ghost use Rattle.std.specs.Vec.{vec_capacity};
ghost use Rattle.amo_sets.specs.Lists.{table};
ghost use Rattle.amo_sets.specs.Sets.{has, AreDistinct};
ghost use Rattle.amo_params.specs.Givens.{bound, IsJob, IsWorker};
ghost use Rattle.amo_kk.specs.Object.{first_object};
ghost use Rattle.amo_kk.specs.Run.{IsRun, claimed_jobs, done_jobs, has_claimed};
ghost use Rattle.amo_params.specs.Moves.{worker_of, are_in_range};
ghost use Rattle.amo_kk.specs.World.{process, loaded_value, first_process, opening_world, world_after_turn, world_after_halt, world_after_leave, world_after_move, world_after_moves};
ghost use Rattle.amo_kk.specs.Fits.{WantFits};
ghost use Rattle.amo_kk.specs.Step.{want, events_of};
ghost use Rattle.amo_kk.specs.Answer.{leave_answer};
ghost use Rattle.amo_kk.specs.Lawful.{IsLawful, Agrees, object_of};
ghost use Rattle.amo_kk.specs.declared.event.Event.{Event};
ghost use Rattle.amo_world.specs.Answer.{turned, turn_answer};
ghost use Rattle.amo_world.specs.Resting.{RunsAlone};
ghost use Rattle.amo_world.specs.Views.{WorldView};
ghost use Rattle.amo_world.specs.Processes.{process_of, world_of_processes, AreInOrder};

use crate::answer::{Alone, Turned};
use crate::process::SimProcess;
use crate::tally::{count, has_claim};
use amo_kk::{Event, Leaving, Local, Shown, Want};
use amo_params::{Givens, Move};
use std::alloc::{AllocError, Global};
use std::marker::Model;

/// `World`: all workers of some givens with their registers, and the history. Only `new` takes
/// memory. Workers and jobs are numbered from 1, and each call needs numbers of the givens.
///
/// # Examples
///
/// ```
/// use amo_params::{Givens, Move};
/// use amo_world::{Alone, Event, Turned, World};
///
/// let givens = Givens::try_new(5, 2, 2)?;
/// let mut world = World::new(rt.alloc(), givens)?;
/// assert!(rt; world.turn(2) == Turned::Moved); // it announces job 3
/// assert!(rt; world.halt(2) && !world.halt(2)); // it crashes, once
/// assert!(rt; world.run_alone(1) == Alone::Claimed(1));
/// assert!(rt; world.turn(1) == Turned::Done(1));
/// assert!(rt; world.turns_of(1) == 5 && world.turns_of(2) == 1);
/// let wanted = [Event::Halted(2), Event::Claimed(1, 1), Event::Done(1, 1)];
/// assert!(rt; world.history() == wanted.as_slice());
/// assert!(rt; world.unclaimed_len() == 4 && world.performed_len() == 1);
/// assert!(rt; world.is_unclaimed(3) && world.announced(2) == 3);
/// let moves = [Move::Turn(1), Move::Leave(1)];
/// assert!(rt; world.in_range(&moves));
/// world.run(&moves);
/// assert!(rt; world.is_gone(1) && world.givens() == givens);
/// ```
#[derive(Drop)]
pub struct World {
    givens: Givens,
    processes: Vec<SimProcess>,
    history: Vec<Event>,
}

impl Model for World {
    ghost use Rattle.std.specs.Vec.{vec_capacity};
    ghost use Rattle.amo_world.specs.Views.{WorldView};
    ghost use Rattle.amo_world.specs.Processes.{world_of_processes, IsKept};

    ghost Value = { WorldView };

    ghost view = { λ w. record { givens = w.givens; world = world_of_processes w.processes.items w.history.items } };

    ghost invariant = { λ w. IsKept w.givens w.processes.items w.history.items (vec_capacity w.processes) (vec_capacity w.history) };
}

impl World {
    /// Returns the opening world of these givens, in which no worker has taken a step. If there are
    /// fewer jobs than the threshold, each worker has ended, and the history begins with these
    /// ends. It takes all memory that the world ever needs.
    ///
    /// # Errors
    ///
    /// `AllocError` if memory is refused.
    pub fn new(alloc: Global, givens: Givens) -> Result<World, AllocError>
        ensures { IfOk result (λ w. w ≡ record { givens = givens; world = opening_world givens }) }
    {
        let processes = first_processes(alloc, givens)?;
        let history = first_history(alloc, givens)?;
        Ok(World {
            givens,
            processes,
            history,
        })
    }

    /// Takes the next step of worker p, and returns its result: `Idle` if p is gone, and then
    /// nothing changes. The history gets the claim, the done job and the end that the result names,
    /// in this order.
    pub fn turn(&mut self, p: u32) -> Turned
        requires { IsWorker self.old.givens p }
        ensures answer { result ≡ turn_answer self.old.givens self.old.world p }
        ensures world { self.new ≡ record { givens = self.old.givens; world = world_after_turn self.old.givens self.old.world p } }
    {
        if self.is_gone(p) {
            return Turned::Idle;
        }
        self.act(p)
    }

    /// Takes the next step of worker p, which isn't gone, and returns its result.
    // Apart from `turn`, so that a turn of a worker that is gone costs no more than the look at it.
    #[inline(never)]
    fn act(&mut self, p: u32) -> Turned
        requires worker { IsWorker self.old.givens p }
        requires here { (process self.old.world p).gone ≡ false }
        ensures answer { result ≡ turn_answer self.old.givens self.old.world p }
        ensures world { self.new ≡ record { givens = self.old.givens; world = world_after_turn self.old.givens self.old.world p } }
    {
        let value = self.heard(p);
        let shown = self.processes[p as usize - 1].act(value);
        add_shown(&mut self.history, p, shown);
        turned(shown)
    }

    /// Halts worker p: it takes no further step. It returns true, and the history gets `Halted`, if
    /// p wasn't gone. Otherwise nothing changes.
    pub fn halt(&mut self, p: u32) -> bool
        requires { IsWorker self.old.givens p }
        ensures answer { result ≡ not (process self.old.world p).gone }
        ensures world { self.new ≡ record { givens = self.old.givens; world = world_after_halt self.old.world p } }
    {
        if self.is_gone(p) {
            return false;
        }
        self.processes[p as usize - 1].gone = true;
        add_event(&mut self.history, Event::Halted(p));
        true
    }

    /// Asks worker p to leave. It takes its announcement back and is gone, and the history gets
    /// `Left`. If it has a job in its hand, or is gone already, nothing changes.
    ///
    /// # Examples
    ///
    /// ```
    /// use amo_params::Givens;
    /// use amo_kk::Leaving;
    /// use amo_world::World;
    ///
    /// let givens = Givens::try_new(5, 2, 2)?;
    /// let mut world = World::new(rt.alloc(), givens)?;
    /// assert!(rt; world.leave(2) == Leaving::Left && world.leave(2) == Leaving::Gone);
    /// world.run_alone(1);
    /// assert!(rt; world.leave(1) == Leaving::InHand(1));
    /// assert!(rt; world.local(1).in_hand() == Some(1) && world.heard(1) == 0);
    /// ```
    pub fn leave(&mut self, p: u32) -> Leaving
        requires { IsWorker self.old.givens p }
        ensures answer { result ≡ leave_answer self.old.world p }
        ensures world { self.new ≡ record { givens = self.old.givens; world = world_after_leave self.old.world p } }
    {
        if self.is_gone(p) {
            return Leaving::Gone;
        }
        let answer = self.local(p).phase().leaving();
        if self.local(p).can_leave() {
            self.processes[p as usize - 1].leave();
            add_event(&mut self.history, Event::Left(p));
        }
        answer
    }

    /// Gives turns to worker p alone, which isn't gone, until one claims a job or ends p. There are
    /// at most `lone_bound` of them, in at most three attempts.
    pub fn run_alone(&mut self, p: u32) -> Alone
        requires { (process self.old.world p).gone ≡ false }
        ensures givens { self.new.givens ≡ self.old.givens }
        ensures alone { RunsAlone self.old.givens self.old.world p self.new.world result }
    {
        let mut left = self.givens.lone_bound();
        loop {
            left -= 1;
            match self.turn(p) {
                Turned::Claimed(j) => return Alone::Claimed(j),
                Turned::Ended | Turned::DoneEnded(_) => return Alone::Ended,
                Turned::Moved | Turned::Done(_) | Turned::Idle => {}
            }
        }
    }

    /// Makes these moves, in order. Check `in_range` first. The results of the moves aren't kept;
    /// the history has the events.
    pub fn run(&mut self, moves: &[Move])
        requires { are_in_range self.old.givens moves.now ≡ true }
        ensures { self.new ≡ record { givens = self.old.givens; world = world_after_moves self.old.givens self.old.world moves.now } }
    {
        for one in moves {
            self.make(*one);
        }
    }

    /// Makes a move.
    fn make(&mut self, one: Move)
        requires { IsWorker self.old.givens (worker_of one) }
        ensures { self.new ≡ record { givens = self.old.givens; world = world_after_move self.old.givens self.old.world one } }
    {
        match one {
            Move::Turn(p) => {
                let _turned = self.turn(p);
            }
            Move::Halt(p) => {
                let _halted = self.halt(p);
            }
            Move::Leave(p) => {
                let _leaving = self.leave(p);
            }
        }
    }

    /// Returns true if the worker of each move is one of the givens.
    pub fn in_range(&self, moves: &[Move]) -> bool
        ensures { result ≡ are_in_range self.now.givens moves.now }
    {
        for one in moves {
            let p = one.worker();
            if p < 1 || p > self.givens.workers {
                return false;
            }
        }
        true
    }

    /// Returns the givens of the world.
    pub fn givens(&self) -> Givens
        ensures { result ≡ self.now.givens }
    {
        self.givens
    }

    /// Returns worker p with its registers.
    fn process(&self, p: u32) -> &SimProcess
        requires { IsWorker self.now.givens p }
        ensures process { process_of result.now ≡ process self.now.world p }
        ensures givens { result.now.local.givens ≡ self.now.givens }
        ensures number { result.now.local.number ≡ p }
        ensures row { length result.now.row.items ≡ self.now.givens.jobs + 1 }
    {
        &self.processes[p as usize - 1]
    }

    /// Returns the value of the load that worker p makes next, or 0 if it makes no load next.
    pub fn heard(&self, p: u32) -> u32
        requires { IsWorker self.now.givens p }
        ensures { result ≡ loaded_value self.now.world (want (process self.now.world p).local) }
    {
        self.loaded(self.process(p).local.want())
    }

    /// Returns the value of this load, or 0 for a store.
    fn loaded(&self, want: Want) -> u32
        requires { (p : ℕ) × WantFits self.now.givens p want }
        ensures { result ≡ loaded_value self.now.world want }
    {
        match want {
            Want::LoadNext(q) => self.process(q).next,
            Want::LoadDone(q, k) => self.process(q).row[k as usize - 1],
            Want::StoreNext(_) | Want::StoreClaim(_, _) | Want::StoreDone(_, _) | Want::Nothing => {
                0
            }
        }
    }

    /// Returns true if worker p is gone: it has ended, was halted or has left.
    pub fn is_gone(&self, p: u32) -> bool
        requires { IsWorker self.now.givens p }
        ensures { result ≡ (process self.now.world p).gone }
    {
        self.process(p).gone
    }

    /// Returns the job that worker p has announced last, or 0.
    pub fn announced(&self, p: u32) -> u32
        requires { IsWorker self.now.givens p }
        ensures { result ≡ (process self.now.world p).next }
    {
        self.process(p).next
    }

    /// Returns the state machine of worker p.
    pub fn local(&self, p: u32) -> &Local
        requires { IsWorker self.now.givens p }
        ensures { result.now ≡ record { givens = self.now.givens; number = p; state = (process self.now.world p).local } }
    {
        &self.process(p).local
    }

    /// Returns how many steps worker p has taken, a leave included. An `Idle` turn isn't counted.
    pub fn turns_of(&self, p: u32) -> u64
        requires { IsWorker self.now.givens p }
        ensures { result ≡ (process self.now.world p).local.steps }
    {
        self.process(p).local.steps()
    }

    /// Returns the history, in order. It is a run of the sequential object, whose last state agrees
    /// with all workers. So no job is claimed or done twice, and each job is done after a claim of
    /// the same worker. If a worker has ended, at least `bound` jobs were done before.
    pub fn history(&self) -> &[Event]
        ensures events { result.now ≡ self.now.world.history }
        ensures lawful { IsLawful self.now.givens self.now.world }
        ensures run { IsRun self.now.givens (first_object self.now.givens) self.now.world.history }
        ensures agrees { Agrees self.now.givens (process self.now.world) (object_of self.now.givens self.now.world) }

        ensures claims { AreDistinct (claimed_jobs self.now.world.history) }
        ensures dones { AreDistinct (done_jobs self.now.world.history) }
        ensures claimed_before { (before after : List Event) (p j : ℕ)
            → self.now.world.history ≡ before ++ Event.Done p j ∷ after → has_claimed before p j ≡ true }
        ensures late_end { (before after : List Event) (p : ℕ)
            → self.now.world.history ≡ before ++ Event.Ended p ∷ after → bound self.now.givens ≤ length (done_jobs before) }
    {
        &self.history
    }

    /// Returns true if no worker has claimed job j.
    pub fn is_unclaimed(&self, j: u32) -> bool
        requires { IsJob self.now.givens j }
        ensures { result ≡ has (object_of self.now.givens self.now.world).unclaimed j }
    {
        !has_claim(&self.history, j)
    }

    /// Returns how many jobs no worker has claimed.
    pub fn unclaimed_len(&self) -> u32
        ensures { result ≡ length (object_of self.now.givens self.now.world).unclaimed }
    {
        let jobs = self.givens.jobs;
        jobs - count(&self.history).claimed
    }

    /// Returns how many jobs were done.
    pub fn performed_len(&self) -> u32
        ensures { result ≡ length (object_of self.now.givens self.now.world).performed }
    {
        count(&self.history).performed
    }
}

/// Returns the result of a turn that shows this.
fn turned(shown: Shown) -> Turned
    ensures { result ≡ turned shown }
{
    match shown {
        Shown::Quiet | Shown::Left => Turned::Moved,
        Shown::Claimed(j) => Turned::Claimed(j),
        Shown::Done(j) => Turned::Done(j),
        Shown::DoneEnded(j) => Turned::DoneEnded(j),
        Shown::Ended => Turned::Ended,
    }
}

/// The processes of all workers before their first steps.
fn first_processes(alloc: Global, givens: Givens) -> Result<Vec<SimProcess>, AllocError>
    ensures processes { IfOk result (λ v. map process_of v.items ≡ table givens.workers (first_process givens)) }
    ensures in_order { IfOk result (λ v. AreInOrder givens givens.workers v.items) }
    ensures room { IfOk result (λ v. vec_capacity v ≡ givens.workers) }
{
    let mut processes = Vec::with_capacity(alloc, givens.workers as usize)?;
    for p in 0..givens.workers {
        let process = SimProcess::new(alloc, givens, p + 1)?;
        processes.push_reserved(process);
    }
    Ok(processes)
}

/// The history of the opening world, with room for all events of a run and no more.
fn first_history(alloc: Global, givens: Givens) -> Result<Vec<Event>, AllocError>
    ensures events { IfOk result (λ v. v.items ≡ (if nat_lt givens.jobs givens.beta then table givens.workers (λ p. Event.Ended p) else [])) }
    ensures room { IfOk result (λ v. vec_capacity v ≡ 2 * givens.jobs + givens.workers) }
{
    let mut history = Vec::with_capacity(alloc, (2 * givens.jobs + givens.workers) as usize)?;
    if givens.jobs < givens.beta {
        for p in 0..givens.workers {
            history.push_reserved(Event::Ended(p + 1));
        }
    }
    Ok(history)
}

/// Adds an event to a history that has room for it.
fn add_event(history: &mut Vec<Event>, event: Event)
    requires { length history.old.items < vec_capacity history.old }
    ensures items { history.new.items ≡ history.old.items ++ event ∷ [] }
    ensures room { vec_capacity history.new ≡ vec_capacity history.old }
{
    history.push_reserved(event);
}

/// Adds the events that a step of worker p shows to a history that has room for them.
fn add_shown(history: &mut Vec<Event>, p: u32, shown: Shown)
    requires { length history.old.items + length (events_of p shown) ≤ vec_capacity history.old }
    ensures items { history.new.items ≡ history.old.items ++ events_of p shown }
    ensures room { vec_capacity history.new ≡ vec_capacity history.old }
{
    match shown {
        Shown::Quiet => {}
        Shown::Claimed(j) => add_event(history, Event::Claimed(p, j)),
        Shown::Done(j) => add_event(history, Event::Done(p, j)),
        Shown::DoneEnded(j) => {
            add_event(history, Event::Done(p, j));
            add_event(history, Event::Ended(p));
        }
        Shown::Ended => add_event(history, Event::Ended(p)),
        Shown::Left => add_event(history, Event::Left(p)),
    }
}
