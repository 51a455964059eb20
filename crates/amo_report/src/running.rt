//! Simulates a plan: makes its moves on one thread.
ghost use Rattle.std.specs.Prelude.{◌≡◌, IfOk};
ghost use Rattle.amo_sets.specs.Lists.{table};
ghost use Rattle.amo_kk.specs.World.{world_after_moves, round, rounds};
ghost use Rattle.amo_plan.specs.PlanSeen.{plan_seen};
ghost use Rattle.amo_report.specs.Texts.{plan_world, turns_of};

use amo_plan::Plan;
use amo_world::World;
use std::alloc::{AllocError, Global};

/// One turn of each worker, in the order of their numbers.
fn run_round(world: &mut World)
    ensures { world.new ≡ record { givens = world.old.givens; world = world_after_moves world.old.givens world.old.world (round world.old.givens.workers) } }
{
    let workers = world.givens().workers;
    for before in 0..workers {
        let _turned = world.turn(before + 1);
    }
}

/// Runs passes, `count` of them: in each pass each worker takes one turn.
pub(crate) fn run_rounds(world: &mut World, count: u32)
    ensures { world.new ≡ record { givens = world.old.givens; world = world_after_moves world.old.givens world.old.world (rounds world.old.givens.workers count) } }
{
    for _done in 0..count {
        run_round(world);
    }
}

/// Returns the world of a plan, after its schedule and its passes. Fails if there was no memory.
pub(crate) fn simulate(alloc: Global, plan: &Plan) -> Result<World, AllocError>
    ensures { IfOk result (λ w. w ≡ record { givens = (plan_seen plan.now).givens; world = plan_world (plan_seen plan.now) }) }
{
    let mut world = World::new(alloc, plan.heads.givens)?;
    world.run(plan.heads.moves.as_slice());
    run_rounds(&mut world, plan.heads.rounds);
    Ok(world)
}

/// Returns how many turns each worker has taken, in the order of the workers.
///
/// # Errors
///
/// `AllocError` if memory is refused.
pub fn all_turns(alloc: Global, world: &World) -> Result<Vec<u64>, AllocError>
    ensures { IfOk result (λ v. v.items ≡ turns_of world.now.givens world.now.world) }
{
    let workers = world.givens().workers;
    let mut turns = Vec::with_capacity(alloc, workers as usize)?;
    for before in 0..workers {
        turns.push(world.turns_of(before + 1))?;
    }
    Ok(turns)
}
