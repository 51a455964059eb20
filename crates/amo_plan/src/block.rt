//! Blocks of tasks, which are claimed and performed as one.
ghost use Rattle.std.specs.Prelude.{◌≡◌, ◌≤◌, ◌++◌, [], map, length, take, drop, IfOk, OnOk, vec_len, vec_capacity};
ghost use Rattle.std.specs.Int.{div_ceil};
ghost use Rattle.std.specs.Vec.Iter.{into_iter_items};
ghost use Rattle.amo_plan.specs.Results.{capped_answer};
ghost use Rattle.amo_plan.specs.Blocks.{blocks_of};
ghost use Rattle.amo_plan.specs.declared.limits.TheConstants.{MOST_IN_BLOCK};

use crate::answer::{Answer, capped_answer};
use crate::task::Task;
use std::alloc::{AllocError, Global};
use std::marker::Model;
use std::vec::IntoIter;

/// `Block`: tasks that are claimed and performed as one. Contracts see it as the list of its tasks.
/// It has room for as many results.
#[derive(Debug, Drop)]
pub struct Block {
    tasks: Vec<Task>,
    answers: Vec<Answer>,
}

impl Model for Block {
    ghost use Rattle.std.specs.Prelude.{◌≡◌, ◌≤◌, List, [], vec_len, vec_capacity};
    ghost use Rattle.amo_plan.specs.declared.task.Task.{Task};

    ghost Value = { List Task };

    ghost view = { λ b. b.tasks.items };

    ghost invariant = { λ b. (vec_len b.tasks ≤ vec_capacity b.answers) × (b.answers.items ≡ []) };
}

impl Block {
    /// Returns a block of these tasks. Fails if there was no memory for the results.
    fn new(alloc: Global, tasks: Vec<Task>) -> Result<Block, AllocError>
        ensures { IfOk result (λ b. b ≡ tasks.items) }
    {
        let answers = Vec::with_capacity(alloc, tasks.len())?;
        Ok(Block { tasks, answers })
    }

    /// Returns its tasks, in their order.
    pub fn tasks(&self) -> &[Task]
        ensures { result.now ≡ self.now }
    {
        self.tasks.as_slice()
    }
}

/// Takes the next tasks, `count` of them, or fewer if there are no more.
fn take_tasks(
    alloc: Global,
    tasks: &mut IntoIter<Task>,
    count: u32,
) -> Result<Vec<Task>, AllocError>
    ensures taken { IfOk result (λ v. v.items ≡ take count (into_iter_items tasks.old)) }
    ensures rest { OnOk result (into_iter_items tasks.new ≡ drop count (into_iter_items tasks.old)) }
{
    let mut taken = Vec::new(alloc);
    for _i in 0..count {
        match tasks.next() {
            Some(task) => taken.push(task)?,
            None => return Ok(taken),
        }
    }
    Ok(taken)
}

/// Returns the tasks in blocks of `block` tasks each. The last block may have fewer. No tasks give
/// no blocks.
///
/// # Errors
///
/// `AllocError` if memory is refused. The tasks are then dropped.
///
/// # Examples
///
/// ```
/// use amo_plan::{Answer, Task, Text, answer_block, blocks_of};
///
/// let mut tasks = Vec::new(rt.alloc());
/// for word in ["one", "two", "three"] {
///     tasks.push(Task::Say(Text::from_str(rt.alloc(), word)?))?;
/// }
/// let mut blocks = blocks_of(rt.alloc(), tasks, 2)?;
/// assert!(rt; blocks.len() == 2 && blocks[1].tasks().len() == 1);
/// let Some(last) = blocks.pop() else {
///     panic!(rt; "there are two blocks")
/// };
/// let answers = answer_block(last);
/// let is_three = match &answers[0] {
///     Answer::Text(text) => text.as_str() == "three",
///     Answer::Number(_) => false,
/// };
/// assert!(rt; is_three);
/// ```
pub fn blocks_of(alloc: Global, tasks: Vec<Task>, block: u32) -> Result<Vec<Block>, AllocError>
    requires some { 1 ≤ block }
    requires few { block ≤ MOST_IN_BLOCK }
    ensures { IfOk result (λ v. v.items ≡ blocks_of block tasks.items) }
{
    let count = tasks.len().div_ceil(block as usize);
    let mut tasks = tasks.into_iter();
    let mut blocks = Vec::new(alloc);
    for _i in 0..count {
        let taken = take_tasks(alloc, &mut tasks, block)?;
        blocks.push(Block::new(alloc, taken)?)?;
    }
    Ok(blocks)
}

/// Returns the result of each task of the block, in order. A task that doesn't fit gives the
/// largest number. It takes no memory.
pub fn answer_block(block: Block) -> Vec<Answer>
    ensures { result.items ≡ map capped_answer block }
{
    let Block { tasks, mut answers } = block;
    for task in tasks {
        answers.push(capped_answer(task)).unwrap();
    }
    answers
}
