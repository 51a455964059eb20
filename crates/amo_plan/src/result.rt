//! The results of tasks as texts.
ghost use Rattle.std.specs.Prelude.{◌≡◌, ◌≤◌, IfOk, IsTrue, sum, string_bytes};
ghost use Rattle.std.specs.Fmt.{decimal};
ghost use Rattle.amo_plan.specs.Results.{fits, result_text};

use crate::task::Task;
use std::alloc::{AllocError, Global};

/// Returns the sum in decimal digits. Fails if there was no memory.
fn sum_text(alloc: Global, numbers: &[u64]) -> Result<String, AllocError>
    requires { sum numbers.now ≤ 18446744073709551615 }
    ensures { IfOk result (λ s. string_bytes s ≡ decimal (sum numbers.now)) }
{
    let total: u64 = numbers.iter().sum();
    total.to_string(alloc)
}

/// Returns the result of a task as a text: the text that it says, or its sum in decimal digits. The
/// task must fit, as each task of a plan does.
///
/// # Errors
///
/// `AllocError` if memory is refused.
///
/// # Examples
///
/// ```
/// use amo_plan::{Answer, Items, Task, answer_of, result_of};
///
/// let task = Task::Add(Items::new(vec![in rt.alloc(); 2u64, 40]?));
/// assert!(rt; task.fits());
/// assert_eq!(rt; result_of(rt.alloc(), &task)?.as_str(), "42");
/// assert!(rt; matches!(answer_of(task), Answer::Number(42)));
/// ```
pub fn result_of(alloc: Global, task: &Task) -> Result<String, AllocError>
    requires { IsTrue (fits task.now) }
    ensures { IfOk result (λ s. string_bytes s ≡ result_text task.now) }
{
    match task {
        Task::Say(text) => String::from_str(alloc, text.as_str()),
        Task::Add(numbers) => sum_text(alloc, numbers.as_slice()),
    }
}
