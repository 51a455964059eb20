//! Writes the lines of a trace.
ghost use Rattle.std.specs.Prelude.{◌≡◌, ◌++◌, OnOk, string_bytes};
ghost use Rattle.amo_params.specs.Givens.{IsWorker};
ghost use Rattle.amo_kk.specs.World.{process};
ghost use Rattle.amo_trace.specs.Trace.{next_word, claim_word, done_word, equals, wanted_word, want_words, act_words, fact_words, phase_words, state_words, opening_line, opening_lines, transition_words, transition_lines};

use crate::transition::{Act, Fact, Transition};
use amo_kk::{Phase, Want};
use amo_world::World;
use std::alloc::AllocError;

/// Appends the name of a worker's announcement.
///
/// # Errors
///
/// `AllocError` if there was no memory.
#[tactic(auto, unfolding(crate::specs::Trace::next_word))]
pub fn push_next(out: &mut String, worker: u32) -> Result<(), AllocError>
    ensures { OnOk result (string_bytes out.new ≡ string_bytes out.old ++ next_word worker) }
{
    write!(out, "next[{worker}]")
}

/// Appends the name of a worker's count of claims.
#[tactic(auto, unfolding(crate::specs::Trace::claim_word))]
fn push_claim(out: &mut String, worker: u32) -> Result<(), AllocError>
    ensures { OnOk result (string_bytes out.new ≡ string_bytes out.old ++ claim_word worker) }
{
    write!(out, "claim[{worker}]")
}

/// Appends the name of a place in a worker's row.
///
/// # Errors
///
/// `AllocError` if there was no memory.
#[tactic(auto, unfolding(crate::specs::Trace::done_word))]
pub fn push_done(out: &mut String, worker: u32, place: u32) -> Result<(), AllocError>
    ensures { OnOk result (string_bytes out.new ≡ string_bytes out.old ++ done_word worker place) }
{
    write!(out, "done[{worker}][{place}]")
}

/// Appends the value of a word.
///
/// # Errors
///
/// `AllocError` if there was no memory.
#[tactic(auto, unfolding(crate::specs::Trace::equals))]
pub fn push_equals(out: &mut String, value: u32) -> Result<(), AllocError>
    ensures { OnOk result (string_bytes out.new ≡ string_bytes out.old ++ equals value) }
{
    write!(out, " = {value}")
}

/// Appends the name of the word that a worker loads or stores, if any.
#[tactic(auto, unfolding(crate::specs::Trace::wanted_word))]
fn push_wanted_word(out: &mut String, worker: u32, want: Want) -> Result<(), AllocError>
    ensures { OnOk result (string_bytes out.new ≡ string_bytes out.old ++ wanted_word worker want) }
{
    match want {
        Want::StoreNext(_) => push_next(out, worker),
        Want::LoadNext(q) => push_next(out, q),
        Want::LoadDone(q, k) => push_done(out, q, k),
        Want::StoreClaim(_, _) => push_claim(out, worker),
        Want::StoreDone(k, _) => push_done(out, worker, k),
        Want::Nothing => Ok(()),
    }
}

/// Appends the store of a worker, or its load, which gives this value.
#[tactic(auto, unfolding(crate::specs::Trace::want_words, crate::specs::Trace::wanted_word))]
fn push_want(out: &mut String, worker: u32, want: Want, value: u32) -> Result<(), AllocError>
    ensures { OnOk result (string_bytes out.new ≡ string_bytes out.old ++ want_words worker want value) }
{
    match want {
        Want::StoreNext(stored) | Want::StoreClaim(stored, _) | Want::StoreDone(_, stored) => {
            out.push_str("stores ")?;
            push_wanted_word(out, worker, want)?;
            push_equals(out, stored)
        }
        Want::LoadNext(_) | Want::LoadDone(_, _) => {
            out.push_str("loads ")?;
            push_wanted_word(out, worker, want)?;
            push_equals(out, value)
        }
        Want::Nothing => out.push_str("idles"),
    }
}

/// Appends the act of a worker.
fn push_act(out: &mut String, worker: u32, act: Act) -> Result<(), AllocError>
    ensures { OnOk result (string_bytes out.new ≡ string_bytes out.old ++ act_words worker act) }
{
    match act {
        Act::Turned(want, value) => push_want(out, worker, want, value),
        Act::Leaves => push_want(out, worker, Want::StoreNext(0), 0),
        Act::Stops => out.push_str("stops"),
        Act::Stays => out.push_str("stays"),
        Act::Idles => out.push_str("idles"),
    }
}

/// Appends the further effect of a transition.
#[tactic(auto, unfolding(crate::specs::Trace::fact_words))]
fn push_fact(out: &mut String, fact: Fact) -> Result<(), AllocError>
    ensures { OnOk result (string_bytes out.new ≡ string_bytes out.old ++ fact_words fact) }
{
    match fact {
        Fact::Plain => Ok(()),
        Fact::Tried(j) => write!(out, " tried {j}"),
        Fact::Known(j) => write!(out, " known {j}"),
        Fact::Failed(j) => write!(out, " failed {j}"),
        Fact::Claimed(j) => write!(out, " claimed {j}"),
        Fact::Done(j) => write!(out, " done {j}"),
    }
}

/// Appends the state of a worker that isn't stopped.
#[tactic(auto, unfolding(crate::specs::Trace::phase_words))]
fn push_phase(out: &mut String, phase: Phase) -> Result<(), AllocError>
    ensures { OnOk result (string_bytes out.new ≡ string_bytes out.old ++ phase_words phase) }
{
    match phase {
        Phase::Announcing(j) => write!(out, "announcing {j}"),
        Phase::Trying(j, q) => write!(out, "trying {j} at {q}"),
        Phase::Reading(j, q) => write!(out, "reading {j} at {q}"),
        Phase::Claiming(j) => write!(out, "claiming {j}"),
        Phase::Holding(j) => write!(out, "holding {j}"),
        Phase::Over => out.push_str("ended"),
        Phase::Left => out.push_str("left"),
    }
}

/// Appends the state of a worker, which is gone or isn't.
fn push_state(out: &mut String, phase: Phase, gone: bool) -> Result<(), AllocError>
    ensures { OnOk result (string_bytes out.new ≡ string_bytes out.old ++ state_words phase gone) }
{
    if gone && !phase.wants_nothing() {
        return out.push_str("halted");
    }
    push_phase(out, phase)
}

/// Appends the line of a worker that opens.
#[tactic(auto, unfolding(crate::specs::Trace::opening_line))]
fn push_opening(out: &mut String, world: &World, worker: u32) -> Result<(), AllocError>
    requires { IsWorker world.now.givens worker }
    ensures { OnOk result (string_bytes out.new ≡ string_bytes out.old ++ opening_line worker (process world.now.world worker)) }
{
    write!(out, "0 worker {worker} opens now ")?;
    push_state(out, world.local(worker).phase(), world.is_gone(worker))?;
    out.push_str("\n")
}

/// Appends the opening line of each worker.
///
/// # Errors
///
/// `AllocError` if there was no memory.
pub fn push_openings(out: &mut String, world: &World) -> Result<(), AllocError>
    ensures { OnOk result (string_bytes out.new ≡ string_bytes out.old ++ opening_lines world.now.world world.now.givens.workers) }
{
    for before in 0..world.givens().workers {
        push_opening(out, world, before + 1)?;
    }
    Ok(())
}

/// Appends the line of a transition, without its end.
///
/// # Errors
///
/// `AllocError` if there was no memory.
#[tactic(auto, unfolding(crate::specs::Trace::transition_words))]
pub fn push_transition(out: &mut String, transition: &Transition) -> Result<(), AllocError>
    ensures { OnOk result (string_bytes out.new ≡ string_bytes out.old ++ transition_words transition.now) }
{
    let number = transition.number;
    let worker = transition.worker;
    write!(out, "{number} worker {worker} ")?;
    push_act(out, worker, transition.act)?;
    push_fact(out, transition.fact())?;
    out.push_str(" now ")?;
    push_state(out, transition.after, transition.gone)
}

/// Appends a line for each transition.
///
/// # Errors
///
/// `AllocError` if there was no memory.
pub fn push_transitions(out: &mut String, transitions: &[Transition]) -> Result<(), AllocError>
    ensures { OnOk result (string_bytes out.new ≡ string_bytes out.old ++ transition_lines transitions.now) }
{
    for transition in transitions {
        push_transition(out, transition)?;
        out.push_str("\n")?;
    }
    Ok(())
}
