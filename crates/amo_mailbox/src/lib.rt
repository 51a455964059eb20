//! A queue of outputs, from one outlet for each worker to one inlet.
//!
//! Start at [`outlets`]. The outputs of one outlet come in their order. The queue has 64 places. If
//! it is full, an outlet keeps the output, and `gather` returns all of them at the end. `put`,
//! `take` and `gather` may wait for another thread that is inside the queue. They take no memory.
//!
//! # Examples
//!
//! ```
//! use amo_params::Givens;
//! use amo_mailbox::{Output, outlets};
//!
//! let givens = Givens::try_new(3, 2, 2)?;
//! let (queue, mut inlet, mut ends) = outlets(rt.alloc(), givens)?;
//! assert!(rt; ends.len() == 2 && ends[1].worker() == 2 && inlet.room() == 3);
//! for (job, out) in [(3, 'c'), (2, 'b')] {
//!     assert!(rt; ends[1].has_room());
//!     ends[1].put(&rt, &queue, Output { worker: 2, job, out });
//! }
//! assert!(rt; ends[1].put_count() == 2 && ends[1].kept().is_empty());
//! assert!(rt; inlet.take(&rt, &queue));
//! assert_eq!(rt; inlet.taken()[0].out, 'c');
//! let all = inlet.gather(&rt, queue, ends);
//! assert!(rt; all.len() == 2 && all[1].job == 2);
//! ```
#![tactic(auto)]

mod gather;
mod inlet;
mod make;
mod outlet;
mod output;
mod pass_state;
mod queue;

pub use inlet::Inlet;
pub use make::outlets;
pub use outlet::Outlet;
pub use output::Output;
pub use queue::Queue;
