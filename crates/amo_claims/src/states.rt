//! The states of a worker. Each call takes the state that it is called on.
ghost use Rattle.amo_words.specs.Faces.{Seated};
ghost use Rattle.amo_claims.specs.States.{HeldView, PerformedView, IsReady, Holds, HoldsJob};

use amo_words::Worker;
use std::marker::Model;

mod collecting;
mod filing;
mod going;
mod holding;

pub use going::begin;

/// `Ready`: a worker that may take its next step, with nothing in its hand.
#[derive(Drop)]
pub struct Ready<P> {
    worker: Worker<P>,
}

impl<P> Model for Ready<P> {
    ghost Value = { Seated P };

    ghost view = { λ r. r.worker };

    ghost invariant = { λ r. IsReady r.worker };
}

/// `Held`: a worker with a job in its hand, and that job's payload as it was put in. The job isn't
/// performed yet.
#[derive(Drop)]
pub struct Held<P> {
    worker: Worker<P>,
    job: u32,
    payload: P,
}

impl<P> Model for Held<P> {
    ghost Value = { HeldView P };

    ghost view = { λ h. record { worker = h.worker; job = h.job; payload = h.payload } };

    ghost invariant = { λ h. Holds h.worker h.job h.payload };
}

/// `Performed`: a worker with a job in its hand that was performed, and the answer. The job isn't
/// recorded as done yet.
#[derive(Drop)]
pub struct Performed<P, Out> {
    worker: Worker<P>,
    job: u32,
    out: Out,
}

impl<P, Out> Model for Performed<P, Out> {
    ghost Value = { PerformedView P Out };

    ghost view = { λ h. record { worker = h.worker; job = h.job; out = h.out } };

    ghost invariant = { λ h. HoldsJob h.worker h.job };
}

/// `Gone`: a worker that takes no further step. It has ended or left, or was halted.
#[derive(Drop)]
pub struct Gone<P> {
    worker: Worker<P>,
}

impl<P> Model for Gone<P> {
    ghost Value = { Seated P };

    ghost view = { λ g. g.worker };
}

/// `Go`: the result of a step of a ready worker.
#[derive(Drop)]
pub enum Go<P> {
    /// The worker goes on.
    More(Ready<P>),
    /// The step has claimed a job.
    Got(Held<P>),
    /// With this step the worker has ended by its own choice.
    Over(Gone<P>),
}

/// `After`: a worker with nothing in its hand.
#[derive(Drop)]
pub enum After<P> {
    /// The worker goes on.
    More(Ready<P>),
    /// The worker has ended by its own choice, or it has left.
    Over(Gone<P>),
}
