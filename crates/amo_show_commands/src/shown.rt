//! The texts that show a run.
use amo_plan::Plan;
use amo_render::{PlanText, ReplayFault};
use amo_svg::picture_text;
use amo_trace::trace_text;
use std::alloc::Global;

/// Which text of the run of a plan is wanted.
#[derive(Clone, Copy, Debug, PartialEq, Eq)]
pub enum Shown {
    /// Its trace.
    Trace,
    /// Its picture.
    Picture,
}

impl PlanText for Shown {
    ghost use Rattle.amo_show_commands.specs.Shown.{text_of};

    ghost fits = { λ _. Unit {0} };

    ghost made = { text_of };

    /// Returns the text. Fails if there was no memory.
    fn make(&self, alloc: Global, plan: &Plan) -> Result<String, ReplayFault> {
        match *self {
            Shown::Trace => Ok(trace_text(alloc, plan)?),
            Shown::Picture => Ok(picture_text(alloc, plan)?),
        }
    }
}
