//! The work of a run.
ghost use Rattle.amo_run_plan.specs.Runs.{AreAnswers};

use amo_crew::Work;
use amo_plan::{Answer, Block, answer_block};

/// Answers blocks of tasks: a task that doesn't fit, which no plan has, by the largest number.
pub(crate) struct BlockWork;

impl Work<Block> for BlockWork {
    type Out = Vec<Answer>;

    ghost related = { λ work. AreAnswers };

    fn perform(&self, _worker: u32, _job: u32, block: Block) -> Vec<Answer> {
        answer_block(block)
    }
}
