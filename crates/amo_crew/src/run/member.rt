//! A worker before its thread, and after it.
use crate::outcome::End;
use amo_claims::{After, Gone};
use amo_mailbox::Outlet;

mod finishing;

pub(crate) use finishing::finish_of;

/// A worker before its thread, in its first state, with its outlet and its budget.
#[derive(Drop)]
pub(crate) struct Member<P, Out> {
    pub after: After<P>,
    pub outlet: Outlet<Out>,
    pub budget: u64,
}

/// The worker that comes back from its thread.
#[derive(Drop)]
pub(crate) struct Ran<P, Out> {
    pub gone: Gone<P>,
    pub end: End,
    pub outlet: Outlet<Out>,
    pub in_hand: Option<(u32, P)>,
}

/// The end of a member.
#[derive(Drop)]
pub(crate) enum Finish<P, Out> {
    /// Its thread ran.
    Ran(Ran<P, Out>),
    /// Its thread could not be started.
    NotStarted(Uncalled),
}

/// A member's run came back without having been called. `finish_of` alone makes one, of that run.
#[derive(Drop)]
pub(crate) struct Uncalled(());
