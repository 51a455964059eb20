//! The texts on any bytes.
use amo_call_log_judge::run_judgement;
use amo_explain_faults::explanation;
use amo_judge::judgement;
use amo_render::{BytesText, ReplayFault};
use std::alloc::Global;

/// A text on bytes, whatever they are.
pub(crate) enum Told {
    /// The request of a plan, or its fault.
    Explanation,
    /// The verdict of the judge on a history.
    Judgement,
    /// The answer to the log of a run.
    RunJudgement,
}

impl BytesText for Told {
    ghost use Rattle.amo_show_commands.specs.Shows.{IsTold};

    ghost is_of = { IsTold };

    ghost is_refused = { λ _ _ _. ⊥ };

    fn make(&self, alloc: Global, bytes: &[u8]) -> Result<String, ReplayFault> {
        match self {
            Told::Explanation => Ok(explanation(alloc, bytes)?),
            Told::Judgement => Ok(judgement(alloc, bytes)?),
            Told::RunJudgement => Ok(run_judgement(alloc, bytes)?),
        }
    }
}
