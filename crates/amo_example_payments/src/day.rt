//! A day: its payments, and the workers that pay them.
ghost use Rattle.std.specs.Prelude.{◌≡◌, true, false, [], Err, map, IfOk, IfErr, IfSome, OnOk};
ghost use Rattle.std.specs.Str.Lines.{lines};
ghost use Rattle.amo_example_payments.specs.Days.{IsDay, IsDayOf, IsDayWith, has_broken_line, is_ended};
ghost use Rattle.amo_example_payments.specs.Faults.{IsOfReading};
ghost use Rattle.amo_example_payments.specs.Rounds.{is_fit};
ghost use Rattle.amo_example_payments.specs.declared.day.Day.{Day as DayView};
ghost use Rattle.amo_example_payments.specs.declared.fault.Fault.TheVariants.{Line as BrokenLine, Input as NoInput, Crew as UnfitCrew};

use crate::fault::Fault;
use crate::line::{Line, line_of};
use crate::rounds::Crew;
use amo_params::MAX_STEPS;
use std::alloc::{AllocError, Global};
use std::io::Read;

mod payment;

pub(crate) use payment::Payment;

/// A day, as its input says it.
#[derive(Drop)]
pub(crate) struct Day {
    /// The workers that pay in each round.
    pub(crate) crew: Crew,
    /// After so many payments the workers of the second floor are asked to stop.
    pub(crate) limit: u64,
    /// The payments, numbered from 1 in their order, so that the journal can name them.
    pub(crate) payments: Vec<Payment>,
}

impl Day {
    /// Returns a day without payments, with one worker and no limit.
    pub(crate) fn new(alloc: Global) -> Day
        ensures { IsDay [] result }
    {
        Day {
            crew: Crew {
                workers: 1,
                steps: MAX_STEPS,
            },
            limit: u64::MAX,
            payments: Vec::new(alloc),
        }
    }

    /// Adds one line of the input. If memory is refused, the day is of no use.
    pub(crate) fn add(&mut self, line: Line) -> Result<(), AllocError>
        ensures { OnOk result (IsDayWith self.old line self.new) }
    {
        match line {
            Line::Workers(workers) => self.crew.workers = workers,
            Line::Steps(steps) => self.crew.steps = steps,
            Line::Limit(limit) => self.limit = limit,
            Line::Pay(account, cents) => {
                let id = self.payments.len() as u64 + 1;
                self.payments.push(Payment::new(id, account, cents))?;
            }
        }
        Ok(())
    }
}

/// Returns the lines of a text.
fn lines_of(alloc: Global, text: &str) -> Result<Vec<&str>, AllocError>
    ensures { IfOk result (λ all. map (λ line. line.now) all.items ≡ lines text.now) }
{
    text.lines().collect(alloc)
}

/// Returns true if the last line of the text has its end.
fn is_ended(text: &str) -> bool
    ensures { result ≡ is_ended text.now }
{
    text.is_empty() || text.ends_with('\n')
}

/// Returns the day that a text says. An invalid line, or a last line without its end, refuses the
/// whole day. It may be half a payment, and the journal knows payments by their places among the
/// others.
fn day_of(alloc: Global, text: &str) -> Result<Day, Fault>
    ensures day { IfOk result (IsDayOf text.now) }
    ensures line { result ≡ Err BrokenLine → has_broken_line text.now ≡ true }
    ensures input { result ≡ Err NoInput → ⊥ }
    ensures crew { result ≡ Err UnfitCrew → ⊥ }
    ensures fault { IfErr result IsOfReading }
{
    if !is_ended(text) {
        return Err(Fault::Line);
    }
    let lines = lines_of(alloc, text)?;
    let mut day = Day::new(alloc);
    for words in &lines {
        let Some(line) = line_of(words) else {
            return Err(Fault::Line);
        };
        day.add(line)?;
    }
    Ok(day)
}

/// Reads all of the input, and returns the day that it says.
///
/// # Errors
///
/// `Input` if the input can't be read, or isn't UTF-8. `Line` if a line is invalid, or the last one
/// lacks its end. `Crew` if the crew is outside its ranges. `Memory` if memory was refused.
pub(crate) fn read_day<B: Read>(alloc: Global, input: &mut B) -> Result<Day, Fault>
    ensures day { IfOk result (λ day. IfSome (B.remaining input.old) (λ text. IsDayOf text day)) }
    ensures fit { IfOk result (λ day. is_fit day.crew ≡ true) }
    ensures line { result ≡ Err BrokenLine → IfSome (B.remaining input.old) (λ text. has_broken_line text ≡ true) }
    ensures crew { result ≡ Err UnfitCrew → IfSome (B.remaining input.old) (λ text. (day : DayView) × IsDayOf text day × (is_fit day.crew ≡ false)) }
    ensures fault { IfErr result IsOfReading }
{
    let mut text = String::new(alloc);
    if input.read_to_string(&mut text).is_err() {
        return Err(Fault::Input);
    }
    let day = day_of(alloc, text.as_str())?;
    if !day.crew.is_fit() {
        return Err(Fault::Crew);
    }
    Ok(day)
}
