//! The admission check of a run's folder, and the making of one, over one trait, [`DoorHost`], each
//! method of which is one call on the operating system. Start at [`open`], which makes a folder
//! that is missing, and at [`enter`], which makes nothing.
//!
//! A written protocol (`specs/Protocol`) says which calls each phase allows, and each call that is
//! made is allowed by it. The glossary's admission check is also called the door.
#![tactic(auto)]

mod checking;
mod filling;
mod halt;
mod host;
pub mod laws;
mod locking;
mod making;
mod model;
mod names;
mod opening;
mod version;

pub use checking::{enter, look_at_folder, look_to_read, look_to_write};
pub use halt::{Halt, Refusal};
pub use host::{DoorHost, Failed};
pub use model::{Asked, Place, Purpose, RunFile};
pub use names::{FolderFile, is_first};
pub use opening::open;
