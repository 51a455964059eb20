//! The tasks of jobs.
ghost use Rattle.std.specs.Prelude.{◌≡◌, ◌≤◌, sum, is_some};
ghost use Rattle.std.specs.Option.{SomeIff};
ghost use Rattle.amo_plan.specs.Results.{fits};

use crate::items::Items;
use crate::text::Text;

/// `Task`: the work of a job.
#[derive(Debug, Drop)]
pub enum Task {
    /// Say this text.
    Say(Text),
    /// Add these numbers.
    Add(Items<u64>),
}

impl Task {
    /// Returns true if the result has room: a sum is at most 18446744073709551615. A text always
    /// fits.
    pub fn fits(&self) -> bool
        ensures { result ≡ fits self.now }
    {
        match self {
            Task::Say(_) => true,
            Task::Add(numbers) => total(numbers.as_slice()).is_some(),
        }
    }
}

/// The sum, if it has at most 64 bits.
fn total(numbers: &[u64]) -> Option<u64>
    ensures { SomeIff result (sum numbers.now ≤ 18446744073709551615) (sum numbers.now) }
{
    let mut total = 0u64;
    for number in numbers {
        match total.checked_add(*number) {
            Some(more) => total = more,
            None => return None,
        }
    }
    Some(total)
}
