//! A history while it is read: its givens, the names of workers and jobs, and its events.
ghost use Rattle.std.specs.Prelude.{◌≡◌, ◌≤◌, Ok, Err, IfOk, OnOk, length, map};
ghost use Rattle.amo_judge.specs.Results.{found_or};
ghost use Rattle.amo_judge.specs.History.{first_history, due_in, worker_in, job_in, worker_due, pair_due, has_word, event_in, with_event, with_line};

use crate::first_line::Opening;
use crate::lines::{says_at, words_of};
use crate::refusal::Wrong;
use crate::roll::Roll;
use amo_decimal::number_of_bytes;
use amo_kk::Event;
use amo_params::Givens;
use std::alloc::{AllocError, Global};
use std::marker::Model;

/// The events so far, and the names that came in them.
#[derive(Drop)]
pub(crate) struct History<'a> {
    givens: Givens,
    workers: Roll<'a>,
    jobs: Roll<'a>,
    events: Vec<Event>,
}

impl<'a> Model for History<'a> {
    ghost use Rattle.amo_judge.specs.History.{HistoryView};

    ghost Value = { HistoryView };

    ghost view = { λ h. record { givens = h.givens; workers = h.workers; jobs = h.jobs; events = h.events.items } };
}

/// Returns the number of the event that is due, if the word says it.
fn due_in(due: usize, word: &[u8]) -> Result<u64, Wrong>
    ensures { result ≡ due_in due word.now }
{
    let number = number_of_bytes(word).ok_or(Wrong::NoEvent)?;
    if number != due as u64 {
        return Err(Wrong::NotDue(due));
    }
    Ok(number)
}

/// Returns true if there are so many words, and the second is this one.
fn has_word(words: &[&[u8]], count: usize, word: &[u8]) -> bool
    requires { 2 ≤ count }
    ensures { result ≡ has_word count word.now (map (λ word. word.now) words.now) }
{
    words.len() == count && says_at(words, 1, word)
}

impl<'a> History<'a> {
    /// Returns a history without events.
    pub(crate) fn new(alloc: Global, opening: Opening) -> History<'a>
        ensures { result ≡ first_history opening }
    {
        History {
            givens: opening.givens,
            workers: Roll::new(alloc, opening.named),
            jobs: Roll::new(alloc, opening.named),
            events: Vec::new(alloc),
        }
    }

    fn worker_in(&self, word: &[u8]) -> Result<u32, Wrong>
        ensures { result ≡ worker_in self.now word.now }
    {
        let workers = self.givens.workers;
        self.workers
            .number_on(workers, Wrong::WorkerBeyond(workers), word)
    }

    fn job_in(&self, word: &[u8]) -> Result<u32, Wrong>
        ensures { result ≡ job_in self.now word.now }
    {
        let jobs = self.givens.jobs;
        self.jobs.number_on(jobs, Wrong::JobBeyond(jobs), word)
    }
    /// Returns the worker of an event whose number is due.
    fn worker_due(&self, words: &[&[u8]]) -> Result<u32, Wrong>
        requires { 3 ≤ length words.now }
        ensures { result ≡ worker_due self.now (map (λ word. word.now) words.now) }
    {
        due_in(self.events.len() + 1, words[0])?;
        self.worker_in(words[2])
    }

    /// Returns the worker and the job of an event whose number is due.
    fn pair_due(&self, words: &[&[u8]]) -> Result<(u32, u32), Wrong>
        requires { 4 ≤ length words.now }
        ensures { result ≡ pair_due self.now (map (λ word. word.now) words.now) }
    {
        let worker = self.worker_due(words)?;
        let job = self.job_in(words[3])?;
        Ok((worker, job))
    }

    /// Returns the event of a line of these words.
    fn event_in(&self, words: &[&[u8]]) -> Result<Event, Wrong>
        ensures { result ≡ event_in self.now (map (λ word. word.now) words.now) }
    {
        if has_word(words, 4, b"claimed") {
            let (worker, job) = self.pair_due(words)?;
            return Ok(Event::Claimed(worker, job));
        }
        if has_word(words, 4, b"done") {
            let (worker, job) = self.pair_due(words)?;
            return Ok(Event::Done(worker, job));
        }
        if has_word(words, 3, b"ended") {
            return Ok(Event::Ended(self.worker_due(words)?));
        }
        if has_word(words, 3, b"halted") {
            return Ok(Event::Halted(self.worker_due(words)?));
        }
        if has_word(words, 3, b"left") {
            return Ok(Event::Left(self.worker_due(words)?));
        }
        Err(Wrong::NoEvent)
    }

    /// Notes the event of a line of these words.
    fn note(&mut self, words: &[&'a [u8]], event: Event) -> Result<(), AllocError>
        requires { 3 ≤ length words.now }
        ensures { OnOk result (self.new ≡ with_event self.old (map (λ word. word.now) words.now) event) }
    {
        self.workers.note(words[2])?;
        if words.len() == 4 {
            self.jobs.note(words[3])?;
        }
        self.events.push(event)?;
        Ok(())
    }

    /// Adds the event of a line, or returns the fault of the line.
    pub(crate) fn add(&mut self, alloc: Global, line: &'a [u8]) -> Result<Option<Wrong>, AllocError>
        ensures { IfOk result (λ wrong. with_line self.old line.now ≡ found_or wrong (λ w. Err w) (Ok self.new)) }
    {
        let words = words_of(alloc, line)?;
        match self.event_in(&words) {
            Err(wrong) => Ok(Some(wrong)),
            Ok(event) => {
                self.note(&words, event)?;
                Ok(None)
            }
        }
    }

    /// Returns the givens.
    pub(crate) fn givens(&self) -> Givens
        ensures { result ≡ self.now.givens }
    {
        self.givens
    }

    /// Returns the events, in their order.
    pub(crate) fn events(&self) -> &[Event]
        ensures { result.now ≡ self.now.events }
    {
        self.events.as_slice()
    }

    /// Returns the names of the workers.
    pub(crate) fn workers(&self) -> &Roll<'a>
        ensures { result.now ≡ self.now.workers }
    {
        &self.workers
    }

    /// Returns the names of the jobs.
    pub(crate) fn jobs(&self) -> &Roll<'a>
        ensures { result.now ≡ self.now.jobs }
    {
        &self.jobs
    }
}
