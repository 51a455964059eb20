//! An operator's command on a run: it shows how the lines stand, lists what is in doubt, takes
//! answers, or has lines tried again. All of it runs over one trait, `OperatorHost`, each method of
//! which is one call on the operating system. A written protocol (`specs/Protocol`) says which
//! calls each phase of a command allows, and each call that is made is allowed by it.
#![tactic(auto)]

mod deciding;
mod entering;
mod halt;
mod host;
pub mod laws;
mod model;
mod probing;
mod reading;
mod report;
mod running;

pub use halt::Halt;
pub use host::OperatorHost;
pub use model::{Command, Form, OperatorLock};
pub use running::run;
