//! The algorithm KK-beta of Kentros and Kiayias, as a worker's state machine.
//!
//! Start at [`Local`], the state machine of one worker: it says which register to load or store
//! next, and takes the value of each load. [`layout`] has the places of the registers. The module
//! `laws` has the theorems over all orders of steps. The types of `model` are for contracts alone.
//! The parameters of a run come from `amo_params`, and are exported again here.
//!
//! | here | in the article on KK-beta |
//! |---|---|
//! | `jobs`, `workers`, `beta` | n, m and beta |
//! | `p`, `q`, `j` | a process, another process, a job |
//! | `known`, `tried`, free | DONE, TRY and FREE |
//! | announcement, row | the shared `next` and `done` of a process |
#![tactic(auto)]

mod event;
mod knowledge;
pub mod laws;
pub mod layout;
mod local;
mod model;
mod phase;

pub use amo_params::{Givens, GivensFault, MAX_BETA, MAX_JOBS, MAX_STEPS, MAX_WORKERS, Move};
pub use event::{Event, Leaving, Shown};
pub use local::{Local, NoSuchWords};
pub use model::{Object, Process, Record, World};
pub use phase::{Phase, Want};
