//! The results of tasks as values.
ghost use Rattle.std.specs.Prelude.{◌≡◌, ◌≤◌, IsTrue, sum};
ghost use Rattle.amo_plan.specs.Results.{fits, answer_of, capped_answer};
ghost use Rattle.amo_plan.specs.declared.answer.Answer.TheVariants.{Number};

use crate::task::Task;
use crate::text::Text;

/// `Answer`: the result of a task.
#[derive(Debug, Drop)]
pub enum Answer {
    /// The text of a task that says one.
    Text(Text),
    /// The sum of a task that adds numbers.
    Number(u64),
}

/// The sum of numbers that fit.
fn sum_of(numbers: &[u64]) -> u64
    requires { sum numbers.now ≤ 18446744073709551615 }
    ensures { result ≡ sum numbers.now }
{
    numbers.iter().sum()
}

/// Returns the result of the task: its text, or the sum of its numbers. The task must fit, as each
/// task of a plan does. It takes no memory.
pub fn answer_of(task: Task) -> Answer
    requires { IsTrue (fits task) }
    ensures { result ≡ answer_of task }
{
    match task {
        Task::Say(text) => Answer::Text(text),
        Task::Add(numbers) => Answer::Number(sum_of(numbers.as_slice())),
    }
}

/// Returns the result of the task, or the largest number if the task doesn't fit. It takes no
/// memory.
pub(crate) fn capped_answer(task: Task) -> Answer
    ensures { result ≡ capped_answer task }
{
    if task.fits() {
        answer_of(task)
    } else {
        Answer::Number(u64::MAX)
    }
}
