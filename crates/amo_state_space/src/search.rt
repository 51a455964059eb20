//! The search through all worlds, each of which is looked at once.
ghost use Rattle.std.specs.Prelude.{◌≡◌, ◌≤◌, ◌<◌, ◌+◌, ◌*◌, ◌++◌, ◌∷◌, [], length, take, if◌then◌else◌, IfOk, OnOk};
ghost use Rattle.amo_params.specs.Givens.{IsWorker};
ghost use Rattle.amo_params.specs.Moves.{is_halt, worker_of};
ghost use Rattle.amo_kk.specs.World.{world_of};
ghost use Rattle.amo_bounds.specs.Fewest.{stopped};
ghost use Rattle.amo_state_space.specs.Search.{SearchView, is_allowed};

use crate::known::key_of;
use amo_params::{Givens, Move};
use amo_world::World;
use std::alloc::{AllocError, Global};
use std::collections::HashMap;
use std::marker::Model;

/// The longest way from a world on, over turns.
#[derive(Clone, Copy)]
pub(crate) struct Longest {
    /// How many turns it has.
    turns: u32,
    /// The worker of the first of them, or `None` if all are gone.
    first: Option<u32>,
}

impl Longest {
    /// Returns this way, or the one that begins with this turn and goes on so, whichever is longer.
    /// A stop is no turn, and makes no way longer: a worker that is stopped could as well wait
    /// until all others are gone.
    fn or_after(self, one: Move, after: Longest) -> Longest {
        match one {
            Move::Turn(p) if self.turns <= after.turns => Longest {
                turns: after.turns.saturating_add(1),
                first: Some(p),
            },
            Move::Turn(_) | Move::Halt(_) | Move::Leave(_) => self,
        }
    }
}

/// A world, with the moves that led to it, and the facts on the worlds that were looked at.
#[derive(Drop)]
pub(crate) struct Search {
    world: World,
    moves: Vec<Move>,
    known: HashMap<Vec<u32>, Longest>,
}

impl Model for Search {
    ghost use Rattle.amo_state_space.specs.Search.{SearchView, IsSearch};

    ghost Value = { SearchView };

    ghost view = { λ s. record { givens = s.world.givens; moves = s.moves.items } };

    ghost invariant = { λ s. IsSearch s.world s.moves.items };
}

impl Search {
    /// Returns the opening world of these givens, and nothing known. Fails if there was no memory.
    pub(crate) fn new(alloc: Global, givens: Givens) -> Result<Search, AllocError>
        ensures { IfOk result (λ s. s ≡ record { givens = givens; moves = [] }) }
    {
        Ok(Search {
            world: World::new(alloc, givens)?,
            moves: Vec::new(alloc),
            known: HashMap::new(alloc),
        })
    }

    /// Returns the moves in a row: a turn of each worker, and a stop of each.
    fn move_at(&self, before: u32) -> Move
        requires { before < 2 * self.now.givens.workers }
        ensures { IsWorker self.now.givens (worker_of result) }
    {
        let workers = self.world.givens().workers;
        if before < workers {
            Move::Turn(before + 1)
        } else {
            Move::Halt(before - workers + 1)
        }
    }

    /// Returns true if this move is a turn of a worker that isn't gone, or its stop and fewer were
    /// stopped than all others.
    fn allows(&self, one: Move, stops: u32) -> bool
        requires worker { IsWorker self.now.givens (worker_of one) }
        requires few { stops ≤ 15 }
        ensures { result ≡ is_allowed self.now.givens (world_of self.now.givens self.now.moves) stops one }
    {
        match one {
            Move::Turn(p) => !self.world.is_gone(p),
            Move::Halt(p) => !self.world.is_gone(p) && stops + 1 < self.world.givens().workers,
            Move::Leave(_) => false,
        }
    }

    /// Makes a move.
    fn make(&mut self, one: Move) -> Result<(), AllocError>
        requires { IsWorker self.old.givens (worker_of one) }
        ensures { OnOk result (self.new ≡ record { givens = self.old.givens; moves = self.old.moves ++ one ∷ [] }) }
    {
        self.moves.push(one)?;
        self.world.run(&[one]);
        Ok(())
    }

    /// Goes back to the world after so many moves.
    fn back(&mut self, alloc: Global, count: usize) -> Result<(), AllocError>
        requires { count ≤ length self.old.moves }
        ensures { OnOk result (self.new ≡ record { givens = self.old.givens; moves = take count self.old.moves }) }
    {
        let mut world = World::new(alloc, self.world.givens())?;
        let (kept, _back) = self.moves.as_slice().split_at(count);
        world.run(kept);
        self.moves.truncate(count);
        self.world = world;
        Ok(())
    }

    /// Returns how many worlds are known.
    pub(crate) fn count(&self) -> usize {
        self.known.len()
    }

    /// Returns the worker of the first turn on the longest way on from a known world.
    pub(crate) fn first_turn(
        &self,
        alloc: Global,
        world: &World,
    ) -> Result<Option<u32>, AllocError> {
        let key = key_of(alloc, world)?;
        Ok(self.known.get(&key).and_then(|longest| longest.first))
    }

    /// Returns the longest way on from this world, over turns, once each world that turns lead to,
    /// and stops while not all others are stopped, is known. So many were stopped so far.
    pub(crate) fn look(&mut self, alloc: Global, stops: u32) -> Result<Longest, AllocError>
        requires stops { length (stopped self.old.moves) ≡ stops }
        requires few { stops ≤ 15 }
        ensures { OnOk result (self.new ≡ self.old) }
    {
        let key = key_of(alloc, &self.world)?;
        if let Some(known) = self.known.get(&key) {
            return Ok(*known);
        }
        let count = self.moves.len();
        let mut longest = Longest {
            turns: 0,
            first: None,
        };
        for before in 0..2 * self.world.givens().workers {
            let one = self.move_at(before);
            if self.allows(one, stops) {
                self.make(one)?;
                let after = self.look(alloc, stops_after(one, stops))?;
                self.back(alloc, count)?;
                longest = longest.or_after(one, after);
            }
        }
        self.known.insert(key, longest)?;
        Ok(longest)
    }
}

/// Returns the stops so far and the one that this move may be.
fn stops_after(one: Move, stops: u32) -> u32
    requires { stops ≤ 15 }
    ensures { result ≡ (if is_halt one then stops + 1 else stops) }
{
    match one {
        Move::Halt(_) => stops + 1,
        Move::Turn(_) | Move::Leave(_) => stops,
    }
}
