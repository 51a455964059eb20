//! The state of the registry, as callers see it. None of these calls takes memory.
ghost use Rattle.std.specs.Prelude.{◌≡◌, ◌-◌, ◌<◌, slice_get, Some};
ghost use Rattle.amo_params.specs.Givens.{IsWorker};
ghost use Rattle.amo_kk.specs.Record.{is_over};
ghost use Rattle.amo_kk.specs.Machine.{LocalView};
ghost use Rattle.amo_words.specs.declared.rule.Spot.{Spot};
ghost use Rattle.amo_words.specs.declared.rule.Spot.TheVariants.{Back};
ghost use Rattle.amo_words.specs.Faces.{spots};
ghost use Rattle.amo_words.specs.Looking.{where_is, HasSpotOf, IsBack};

use crate::floor::Book;
use crate::rule::Spot;
use amo_kk::Local;

/// `Place`: the slot state of a worker.
#[derive(Clone, Copy, Debug, PartialEq, Eq)]
pub enum Place {
    /// It was never hired.
    Home,
    /// It was hired, and not collected: it is at work, or was dropped.
    Out,
    /// It was collected, and the registry has its machine.
    Back,
}

impl<P> Book<P> {
    /// Returns the machine of worker p, which was collected.
    fn back(&self, p: u32) -> &Local
        requires { (l : LocalView) × IsBack (spots self.now) p l }
        ensures { (l : LocalView) → IsBack (spots self.now) p l → result.now ≡ l }
    {
        match &self.spots[p as usize - 1] {
            Spot::Back(local) => local,
            Spot::Home | Spot::Out => unreachable!(),
        }
    }

    /// Returns the slot state of worker p. The other questions need `Back`.
    pub fn place_of(&self, p: u32) -> Place
        requires { IsWorker self.now.view.givens p }
        ensures { (x : Spot) × HasSpotOf (spots self.now) p x × (result ≡ where_is x) }
    {
        match &self.spots[p as usize - 1] {
            Spot::Home => Place::Home,
            Spot::Out => Place::Out,
            Spot::Back(_) => Place::Back,
        }
    }

    /// Returns how many steps worker p has taken, which was collected.
    pub fn steps_of(&self, p: u32) -> u64
        requires { (l : LocalView) × IsBack (spots self.now) p l }
        ensures { (l : LocalView) → IsBack (spots self.now) p l → result ≡ l.state.steps }
    {
        self.back(p).steps()
    }

    /// Returns true if worker p, which was collected, has ended by its own choice.
    pub fn ended_of(&self, p: u32) -> bool
        requires { (l : LocalView) × IsBack (spots self.now) p l }
        ensures { (l : LocalView) → IsBack (spots self.now) p l → result ≡ is_over l.state.phase }
    {
        self.back(p).ended()
    }

    /// Returns the jobs that worker p has claimed, which was collected, in the order of its claims.
    pub fn claims_of(&self, p: u32) -> &[u32]
        requires { (l : LocalView) × IsBack (spots self.now) p l }
        ensures { (l : LocalView) → IsBack (spots self.now) p l → result.now ≡ l.state.claimed }
    {
        self.back(p).claims()
    }

    /// Returns the jobs that worker p has done, which was collected, in the order in which it
    /// recorded them.
    pub fn dones_of(&self, p: u32) -> &[u32]
        requires { (l : LocalView) × IsBack (spots self.now) p l }
        ensures { (l : LocalView) → IsBack (spots self.now) p l → result.now ≡ l.state.dones }
    {
        self.back(p).dones()
    }
}
