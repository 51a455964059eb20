//! The transitions of a plan.
ghost use Rattle.std.specs.Prelude.{◌≡◌, ◌++◌, true, OnOk, IfOk};
ghost use Rattle.amo_params.specs.Givens.{IsWorker};
ghost use Rattle.amo_params.specs.Moves.{worker_of, are_in_range};
ghost use Rattle.amo_kk.specs.World.{world_after_move, world_after_moves, round};
ghost use Rattle.amo_plan.specs.PlanSeen.{plan_seen};
ghost use Rattle.amo_report.specs.Texts.{moves_of, plan_world};
ghost use Rattle.amo_trace.specs.Transitions.{act_here, act_of, all_gone, transition_of, transitions, transitions_of};

use crate::transition::{Act, Transition};
use amo_params::Move;
use amo_plan::Plan;
use amo_world::World;
use std::alloc::{AllocError, Global};

/// Returns true if all workers are gone.
fn all_gone(world: &World) -> bool
    ensures { result ≡ all_gone world.now.givens world.now.world }
{
    for before in 0..world.givens().workers {
        if !world.is_gone(before + 1) {
            return false;
        }
    }
    true
}

/// Returns the act of a move's worker if it isn't gone.
fn act_here(world: &World, one: Move) -> Act
    requires { IsWorker world.now.givens (worker_of one) }
    ensures { result ≡ act_here world.now.world one }
{
    match one {
        Move::Turn(p) => Act::Turned(world.local(p).want(), world.heard(p)),
        Move::Halt(_) => Act::Stops,
        Move::Leave(p) if world.local(p).can_leave() => Act::Leaves,
        Move::Leave(_) => Act::Stays,
    }
}

/// Returns the act of a move's worker.
fn act_of(world: &World, one: Move) -> Act
    requires { IsWorker world.now.givens (worker_of one) }
    ensures { result ≡ act_of world.now.world one }
{
    if world.is_gone(one.worker()) {
        return Act::Idles;
    }
    act_here(world, one)
}

/// Makes the move with this number, and answers its transition.
fn make_move(world: &mut World, number: usize, one: Move) -> Transition
    requires { IsWorker world.old.givens (worker_of one) }
    ensures transition { result ≡ transition_of world.old.givens world.old.world number one }
    ensures world { world.new ≡ record { givens = world.old.givens; world = world_after_move world.old.givens world.old.world one } }
{
    let worker = one.worker();
    let act = act_of(world, one);
    let before = world.local(worker).phase();
    world.run(&[one]);
    let after = world.local(worker).phase();
    let gone = world.is_gone(worker);
    Transition {
        number,
        worker,
        act,
        before,
        after,
        gone,
    }
}

/// Makes these moves until all workers are gone, since moves change nothing after that. Returns
/// their transitions. Fails if there was no memory.
fn make_moves(
    alloc: Global,
    world: &mut World,
    moves: &[Move],
) -> Result<Vec<Transition>, AllocError>
    requires { are_in_range world.old.givens moves.now ≡ true }
    ensures transitions { IfOk result (λ v. v.items ≡ transitions world.old.givens world.old.world 1 moves.now) }
    ensures world { OnOk result (world.new ≡ record { givens = world.old.givens; world = world_after_moves world.old.givens world.old.world moves.now }) }
{
    let mut transitions = Vec::new(alloc);
    for (i, one) in moves.iter().enumerate() {
        if all_gone(world) {
            return Ok(transitions);
        }
        let transition = make_move(world, i + 1, *one);
        transitions.push(transition)?;
    }
    Ok(transitions)
}

/// Appends a round: a turn of each worker.
fn push_round(moves: &mut Vec<Move>, workers: u32) -> Result<(), AllocError>
    ensures { OnOk result (moves.new.items ≡ moves.old.items ++ round workers) }
{
    for before in 0..workers {
        moves.push(Move::Turn(before + 1))?;
    }
    Ok(())
}

/// Returns all moves of a plan: its schedule, then its rounds. Fails if there was no memory.
fn moves_of(alloc: Global, plan: &Plan) -> Result<Vec<Move>, AllocError>
    ensures { IfOk result (λ v. v.items ≡ moves_of (plan_seen plan.now)) }
{
    let mut moves = Vec::new(alloc);
    moves.extend_from_slice(plan.heads.moves.as_slice())?;
    for _done in 0..plan.heads.rounds {
        push_round(&mut moves, plan.heads.givens.workers)?;
    }
    Ok(moves)
}

/// The run of a plan.
#[derive(Drop)]
pub struct TracedRun {
    /// Its transitions.
    pub transitions: Vec<Transition>,
    /// The world to which its moves lead.
    pub world: World,
}

/// Makes the moves of a plan, until all workers are gone.
///
/// # Errors
///
/// `AllocError` if there was no memory.
pub fn run_of(alloc: Global, plan: &Plan) -> Result<TracedRun, AllocError>
    ensures transitions { IfOk result (λ r. r.transitions.items ≡ transitions_of (plan_seen plan.now)) }
    ensures world { IfOk result (λ r. r.world ≡ record { givens = (plan_seen plan.now).givens; world = plan_world (plan_seen plan.now) }) }
{
    let moves = moves_of(alloc, plan)?;
    let mut world = World::new(alloc, plan.heads.givens)?;
    let transitions = make_moves(alloc, &mut world, &moves)?;
    Ok(TracedRun { transitions, world })
}

/// Returns the transitions of a plan: the effect of each move of its schedule and its rounds, until
/// all workers are gone.
///
/// # Errors
///
/// `AllocError` if there was no memory.
pub fn transitions_of(alloc: Global, plan: &Plan) -> Result<Vec<Transition>, AllocError>
    ensures { IfOk result (λ v. v.items ≡ transitions_of (plan_seen plan.now)) }
{
    Ok(run_of(alloc, plan)?.transitions)
}
