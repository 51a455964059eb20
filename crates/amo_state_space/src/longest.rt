//! The longest run, along the worlds that the search has found.
ghost use Rattle.std.specs.Prelude.{◌≡◌, ◌<◌, map, IfOk};
ghost use Rattle.amo_params.specs.declared.moves.Move.TheVariants.{Turn};
ghost use Rattle.amo_state_space.specs.Runs.{IsWholeRun};
ghost use Rattle.amo_state_space.specs.Search.{IsNext};

use crate::search::Search;
use amo_params::Givens;
use amo_world::World;
use std::alloc::{AllocError, Global};

/// How many worlds there are, and whose turns a longest run has, in their order.
#[derive(Drop)]
pub(crate) struct Found {
    pub(crate) worlds: usize,
    pub(crate) turns: Vec<u32>,
}

/// Returns the first worker that isn't gone.
fn first_here(world: &World) -> Option<u32>
    ensures { IsNext world.now.givens world.now.world result }
{
    for before in 0..world.givens().workers {
        if !world.is_gone(before + 1) {
            return Some(before + 1);
        }
    }
    None
}

/// Returns the worker of the next turn on a longest way from a world that the search looked at, or
/// `None` if all are gone.
fn next_turn(alloc: Global, search: &Search, world: &World) -> Result<Option<u32>, AllocError>
    ensures { IfOk result (λ next. IsNext world.now.givens world.now.world next) }
{
    match search.first_turn(alloc, world)? {
        Some(p) if 1 <= p && p <= world.givens().workers && !world.is_gone(p) => Ok(Some(p)),
        _ => Ok(first_here(world)),
    }
}

/// Returns the workers of the turns of a longest run.
fn longest_turns(alloc: Global, search: &Search, givens: Givens) -> Result<Vec<u32>, AllocError>
    ensures { IfOk result (λ v. IsWholeRun givens (map Turn v.items)) }
{
    let mut world = World::new(alloc, givens)?;
    let mut turns = Vec::new(alloc);
    while let Some(p) = next_turn(alloc, search, &world)? {
        turns.push(p)?;
        let _turned = world.turn(p);
    }
    Ok(turns)
}

/// Returns the results of a search from the opening world of these givens. With fewer jobs than the
/// threshold, all workers have ended from birth, so there is no other world. Fails if there was no
/// memory.
pub(crate) fn find(alloc: Global, givens: Givens) -> Result<Found, AllocError>
    ensures whole { IfOk result (λ found. IsWholeRun givens (map Turn found.turns.items)) }
    ensures one { IfOk result (λ found. givens.jobs < givens.beta → found.worlds ≡ 1) }
{
    if givens.jobs < givens.beta {
        return Ok(Found {
            worlds: 1,
            turns: Vec::new(alloc),
        });
    }
    let mut search = Search::new(alloc, givens)?;
    let _longest = search.look(alloc, 0)?;
    let turns = longest_turns(alloc, &search, givens)?;
    Ok(Found {
        worlds: search.count(),
        turns,
    })
}
