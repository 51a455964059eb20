//! The work of one worker that is a process of its own: the order of its calls on registers,
//! journal and partner.
//!
//! Start at [`work`]. All calls outside are behind one trait, [`Outside`]. So the contracts on the
//! order hold whatever each call returns. [`ask_pending`] settles the intents that former processes
//! of the worker left.
//!
//! | here | in the glossary |
//! |---|---|
//! | partner | runner |
//! | words | registers |
//! | deed, try | effect, attempted effect |
//! | course | driver |
//! | p | a worker |
//! | j | a job |
#![tactic(auto)]

mod answer;
mod life;
mod model;
mod outside;
mod past;
mod stop;
mod working;

pub use answer::{JobResult, Reply, Way};
pub use model::{Deed, Try};
pub use outside::{Failed, Outside};
pub use past::{Asked, Intent, Past, ask_pending};
pub use stop::{LifeEnd, Stop};
pub use working::work;
