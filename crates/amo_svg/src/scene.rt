//! The content of a picture.
use amo_plan::Plan;
use amo_trace::Transition;
use amo_world::World;

/// The run that a picture shows, and the numbers that it needs.
#[derive(Clone, Copy)]
pub(crate) struct Scene<'a> {
    /// The plan.
    pub(crate) plan: &'a Plan,
    /// The world to which its moves lead.
    pub(crate) world: &'a World,
    /// The jobs that nobody has claimed in it.
    pub(crate) unclaimed: &'a [u32],
    /// The transitions that change something.
    pub(crate) rows: &'a [Transition],
}
