//! The events that may follow.
ghost use Rattle.std.specs.Prelude.{◌≡◌, ◌+◌, length};
ghost use Rattle.std.specs.List.{list_any};
ghost use Rattle.amo_safety_by_journals.specs.Model.{Site as SiteShown};
ghost use Rattle.amo_params.specs.declared.limits.TheConstants.{MAX_WORKERS};
ghost use Rattle.amo_call_log_judge.specs.Events.{event_of};
ghost use Rattle.amo_call_log_judge.specs.Grammar.{MayStand};
ghost use Rattle.amo_call_log_judge.specs.Rules.{intent_reason, is_of, is_same, look_reason, open_reason, perform_reason, process_reason, IsHandOverReason};
ghost use Rattle.amo_call_log_judge.specs.Seen.{IsReason, Shows};

use crate::event::{Attempt, Event, Handing};
use crate::journal::{Journal, Stage};
use crate::reason::Reason;
use crate::site::Site;
use std::collections::VecDeque;

/// Returns why a process may not begin, or an intent may not land, if it may not.
fn against_a_process(stage: Stage) -> Option<Reason>
    ensures { result ≡ process_reason stage }
{
    match stage {
        Stage::Away => None,
        Stage::Free | Stage::Clearing { .. } => Some(Reason::HasProcess),
    }
}

/// Returns why the process may not intend a line, if it may not.
fn against_an_intent(stage: Stage) -> Option<Reason>
    ensures { result ≡ intent_reason stage }
{
    match stage {
        Stage::Away => Some(Reason::NoProcess),
        Stage::Free => None,
        Stage::Clearing { .. } => Some(Reason::HasIntent),
    }
}

/// Returns why the worker may not look at the journal of the other one, if it may not.
fn against_a_look(worker: u64, other: u64, stage: Stage, looked_at: &Journal) -> Option<Reason>
    ensures { result ≡ look_reason worker other stage looked_at.now.kept.items }
{
    match stage {
        Stage::Away | Stage::Free => Some(Reason::NoIntent),
        Stage::Clearing { serial, line } => {
            let own = Attempt { worker, serial };
            let serial = looked_at.standing(other, own, line)?;
            Some(Reason::Taken { serial, line })
        }
    }
}

/// Returns why the process may not hand its attempt over, if it may not.
fn against_handing_over(journal: &Journal) -> Option<Reason>
    ensures { IsHandOverReason journal.now.stage journal.now.seen.items result }
{
    match journal.stage {
        Stage::Away | Stage::Free => Some(Reason::NoIntent),
        Stage::Clearing { .. } => {
            let other = journal.unseen()?;
            Some(Reason::NotSeen { other })
        }
    }
}

/// Returns true if this is one of them.
fn has_handing(handings: &VecDeque<Handing>, handing: Handing) -> bool
    ensures { result ≡ list_any (is_same handing) handings.now.items }
{
    handings.contains(&handing)
}

/// Returns true if the handing over is that of this attempt.
fn is_of(attempt: Attempt, handing: Handing) -> bool
    ensures { result ≡ is_of attempt handing }
{
    handing.worker == attempt.worker && handing.serial == attempt.serial
}

/// Returns true if one of them is of this attempt.
fn has_attempt(handings: &VecDeque<Handing>, attempt: Attempt) -> bool
    ensures { result ≡ list_any (is_of attempt) handings.now.items }
{
    handings.iter().any(|handing| is_of(attempt, *handing))
}

/// Returns why the line of the attempt may not be performed, if it may not.
fn against_performing(
    alive: &VecDeque<Handing>,
    performed: &VecDeque<Handing>,
    handing: Handing,
) -> Option<Reason>
    ensures { result ≡ perform_reason alive.now.items performed.now.items handing }
{
    if !has_handing(alive, handing) {
        return Some(Reason::NotAlive);
    }
    if has_handing(performed, handing) {
        return Some(Reason::PerformedBefore);
    }
    None
}

/// Returns why the attempt may not be opened, if it may not. The journal is that of its worker.
fn against_opening(
    journal: &Journal,
    alive: &VecDeque<Handing>,
    performed: &VecDeque<Handing>,
    attempt: Attempt,
) -> Option<Reason>
    ensures { result ≡ open_reason (length journal.now.kept.items) journal.now.stage alive.now.items performed.now.items attempt }
{
    if !journal.has(attempt.serial) {
        return Some(Reason::NotKept);
    }
    if journal.holds(attempt.serial) {
        return Some(Reason::Held);
    }
    if has_attempt(alive, attempt) {
        return Some(Reason::Alive);
    }
    if has_attempt(performed, attempt) {
        return Some(Reason::Performed);
    }
    None
}

impl Site {
    /// Returns why the event may not come next, if it may not.
    pub(crate) fn against(&self, event: Event) -> Option<Reason>
        requires workers { length self.now.journals.items ≡ MAX_WORKERS + 1 }
        requires stands { MayStand (event_of event) }
        ensures { (w : SiteShown) → Shows self.now w → IsReason w (event_of event) result }
    {
        match event {
            Event::Begins { worker } => {
                let begun = self.journal(worker);
                against_a_process(begun.stage)
            }
            Event::Lands { worker, .. } => {
                let landed = self.journal(worker);
                against_a_process(landed.stage)
            }
            Event::Intends { worker, .. } => {
                let intended = self.journal(worker);
                against_an_intent(intended.stage)
            }
            Event::Looks { worker, other } => {
                let looking = self.journal(worker);
                let looked_at = self.journal(other);
                against_a_look(worker, other, looking.stage, looked_at)
            }
            Event::HandsOver { worker } => {
                let handing = self.journal(worker);
                against_handing_over(handing)
            }
            Event::Performs(handing) => against_performing(&self.alive, &self.performed, handing),
            Event::Opens(attempt) => {
                let opened = self.journal(attempt.worker);
                against_opening(opened, &self.alive, &self.performed, attempt)
            }
            Event::Dies { .. } | Event::Ends { .. } => None,
        }
    }
}
