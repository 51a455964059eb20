//! Two views of a run that make nothing and take no lock: a line of JSON a second, and what can be
//! read of a run that is refused. Start with [`follow`] and [`show_damage`].
#![tactic(auto)]

mod damage;
mod live;
mod readable;

pub use damage::show_damage;
pub use live::follow;
