//! Plans: a text that names jobs and a schedule, and the results of its jobs.
//!
//! Start at [`read_plan`], which returns the plan of a text, or the first test that the text fails.
//! The definition `plan_of` in `specs/Plan.antt` is a function of the bytes: it says which texts
//! are plans, and the order of the tests. The module `laws` has the theorems over the definitions.
#![tactic(auto)]

mod answer;
mod block;
mod digits;
mod fault;
mod items;
mod job;
pub mod laws;
mod limits;
mod naming;
mod ordinal;
mod plan;
mod reading;
mod result;
mod schedule;
mod schedule_word;
mod task;
mod text;
mod top;
mod tree;

pub use answer::{Answer, answer_of};
pub use block::{Block, answer_block, blocks_of};
pub use digits::number_within;
pub use fault::PlanFault;
pub use items::Items;
pub use limits::{
    HIGHEST_IN_WORD, HIGHEST_NUMBER, MOST_BYTES, MOST_COUNT, MOST_FIRST, MOST_IN_BLOCK, MOST_MOVES,
    MOST_ROUNDS, MOST_TURNS, NEWEST_VERSION, USUAL_BUDGET,
};
pub use plan::{Heads, Plan};
pub use reading::read_plan;
pub use result::result_of;
pub use task::Task;
pub use text::Text;
