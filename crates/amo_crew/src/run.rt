//! One worker's run: it is hired, runs in a thread of its own, and comes back with its end.
mod hiring;
mod member;
mod running;
mod threads;

pub(crate) use hiring::hire_all;
pub(crate) use member::{Finish, Member, Ran};
pub(crate) use threads::run_all;
