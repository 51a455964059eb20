//! A day from its input to its report.
ghost use Rattle.std.specs.Prelude.{◌≡◌, ◌<◌, ℕ, true, false, [], Err, length, vec_len, IfOk, IfErr, IfSome, OnOk, OnErr};
ghost use Rattle.std.specs.Io.KnownBytes.{Keeps};
ghost use Rattle.amo_journal.specs.Journal.{MayRecover};
ghost use Rattle.amo_example_payments.specs.declared.day.Day.{Day as DayView};
ghost use Rattle.amo_example_payments.specs.declared.fault.Fault.TheVariants.{Line as BrokenLine, Crew as UnfitCrew, Entry as NoEntry};
ghost use Rattle.amo_example_payments.specs.Days.{IsDayOf, has_broken_line};
ghost use Rattle.amo_example_payments.specs.Faults.{is_early, IsOfPaying, IsRefusedIn};
ghost use Rattle.amo_example_payments.specs.Rounds.{is_fit};
ghost use Rattle.amo_example_payments.specs.Reports.{ArePaid, AreTried, TellsPart, TellsNext, Reports, ReportsFront, IsServed, IsBegun};

use crate::bank::Bank;
use crate::day::{Day, Payment, read_day};
use crate::fault::Fault;
use crate::ledger::Ledger;
use crate::restarting::part;
use crate::rounds::{Crew, add_free, next_round, pay_round};
use crate::second::run_alone;
use crate::telling::{tell_answers, tell_each, tell_round};
use amo_journal::Device;
use std::alloc::Global;
use std::io::{Read, Write};
use std::sync::Wait;
use std::sync::atomic::AtomicBool;
use std::thread::Threads;
use std::time::Clock;

impl<D: Device + Drop + Send, S: Write + Drop + Send, R: Threads + Wait + Clock + Sync> Bank<
    '_,
    D,
    S,
    R,
> {
    /// Pays one round off the payments, writes the certain results, and adds the payments that
    /// nobody began to the list.
    fn pay_next<O: Write>(
        &self,
        out: &mut O,
        crew: Crew,
        payments: &mut Vec<Payment>,
        free: &mut Vec<Payment>,
    ) -> Result<(), Fault>
        ensures told { OnOk result (TellsNext (ArePaid crew) payments.old.items payments.new.items free.old.items free.new.items (O.contents out.old) (O.contents out.new)) }
        ensures fewer { OnOk result (0 < vec_len payments.old → vec_len payments.new < vec_len payments.old) }
        ensures part { OnErr result (TellsPart (ArePaid crew) payments.old.items (O.contents out.old) (O.contents out.new)) }
        ensures fault { IfErr result IsOfPaying }
    {
        let round = next_round(payments)?;
        let sorted = pay_round(self.rt, self.alloc, self, crew, round)?;
        tell_round(self.alloc, out, &sorted)?;
        add_free(sorted.free, free)?;
        Ok(())
    }

    /// Pays all in rounds, and returns the payments that nobody began.
    fn pay_all<O: Write>(
        &self,
        out: &mut O,
        crew: Crew,
        mut payments: Vec<Payment>,
    ) -> Result<Vec<Payment>, Fault>
        ensures told { IfOk result (λ free. TellsNext (ArePaid crew) payments.items [] [] free.items (O.contents out.old) (O.contents out.new)) }
        ensures part { OnErr result (TellsPart (ArePaid crew) payments.items (O.contents out.old) (O.contents out.new)) }
        ensures fault { IfErr result IsOfPaying }
    {
        let mut free = Vec::new(self.alloc);
        'paying: while !payments.is_empty() {
            self.pay_next(out, crew, &mut payments, &mut free)?;
        }
        Ok(free)
    }

    /// Opens one floor of one worker for payments off the list, writes what it made, and adds what
    /// it has not begun to the other list.
    fn try_next<O: Write>(
        &self,
        out: &mut O,
        payments: &mut Vec<Payment>,
        left: &mut Vec<Payment>,
    ) -> Result<(), Fault>
        ensures told { OnOk result (TellsNext AreTried payments.old.items payments.new.items left.old.items left.new.items (O.contents out.old) (O.contents out.new)) }
        ensures fewer { OnOk result (0 < vec_len payments.old → vec_len payments.new < vec_len payments.old) }
        ensures part { OnErr result (TellsPart AreTried payments.old.items (O.contents out.old) (O.contents out.new)) }
        ensures fault { IfErr result IsOfPaying }
    {
        let round = next_round(payments)?;
        let rest = run_alone(self.alloc, self.stop, self, round)?;
        tell_answers(self.alloc, out, &rest.outputs)?;
        add_free(rest.free, left)?;
        Ok(())
    }

    /// Pays on floors of one worker until the flag is set, and returns the payments that are left.
    fn try_all<O: Write>(
        &self,
        out: &mut O,
        mut payments: Vec<Payment>,
    ) -> Result<Vec<Payment>, Fault>
        ensures told { IfOk result (λ left. TellsNext AreTried payments.items [] [] left.items (O.contents out.old) (O.contents out.new)) }
        ensures part { OnErr result (TellsPart AreTried payments.items (O.contents out.old) (O.contents out.new)) }
        ensures fault { IfErr result IsOfPaying }
    {
        let mut left = Vec::new(self.alloc);
        'trying: while !payments.is_empty() {
            self.try_next(out, &mut payments, &mut left)?;
        }
        Ok(left)
    }
}

/// Pays the payments that the journal doesn't name, and writes what became of each. Rounds come
/// first. The payments that nobody began there go onto floors of one worker, until the flag is set.
fn pay_day<
    D: Device + Drop + Send,
    S: Write + Drop + Send,
    O: Write,
    R: Threads + Wait + Clock + Sync,
>(rt: &R, alloc: Global, ledger: Ledger<D>, orders: S, out: &mut O, day: Day) -> Result<D, Fault>
    ensures whole { OnOk result (Reports day ledger.attempts.items (O.contents out.old) (O.contents out.new)) }
    ensures front { OnErr result (ReportsFront day ledger.attempts.items (O.contents out.old) (O.contents out.new)) }
    ensures fault { IfErr result IsOfPaying }
{
    let parts = part(alloc, day.payments, ledger.attempts())?;
    tell_each(alloc, out, "before", &parts.made)?;
    tell_each(alloc, out, "doubt", &parts.in_doubt)?;
    let stop = AtomicBool::new(day.limit == 0);
    let bank = Bank::new(rt, alloc, ledger, orders, day.limit, &stop);
    let free = bank.pay_all(out, day.crew, parts.untried)?;
    let left = bank.try_all(out, free)?;
    tell_each(alloc, out, "free", &left)?;
    Ok(bank.into_device())
}

/// Reads a day and its journal, and pays the payments that the journal doesn't name. The journal is
/// a file that nobody else writes. It writes the orders to `orders`, and to `out` what became of
/// each payment. It may wait. It gives back the file.
///
/// If the input isn't a day, or the file isn't a journal of it, nothing is written and nothing is
/// paid. After another fault a beginning of the report was written, and the journal alone has what
/// was paid. No contract of `serve` states what the journal has at the end. The contracts of the
/// private type `Ledger` state it of each call.
///
/// # Errors
///
/// The fault that ended the day early.
pub fn serve<
    B: Read,
    D: Device + Drop + Send,
    S: Write + Drop + Send,
    O: Write,
    R: Threads + Wait + Clock + Sync,
>(rt: &R, alloc: Global, input: &mut B, device: D, orders: S, out: &mut O) -> Result<D, Fault>
    // A crash may have left the last append with its commit byte open or closed.
    requires { MayRecover D.seen D.may_leave D.stale device }

    ensures whole { OnOk result (IsServed (B.remaining input.old) (D.seen device) (O.contents out.old) (O.contents out.new)) }
    ensures front { OnErr result (IsBegun (B.remaining input.old) (D.seen device) (O.contents out.old) (O.contents out.new)) }
    ensures early { IfErr result (λ fault. is_early fault ≡ true → Keeps (O.contents out.old) (O.contents out.new)) }
    ensures line { result ≡ Err BrokenLine → IfSome (B.remaining input.old) (λ text. has_broken_line text ≡ true) }
    ensures crew { result ≡ Err UnfitCrew → IfSome (B.remaining input.old) (λ text. (day : DayView) × IsDayOf text day × (is_fit day.crew ≡ false)) }
    ensures entry { (n : ℕ) → result ≡ Err (NoEntry n)
        → IfSome (B.remaining input.old) (λ text. (day : DayView) × IsDayOf text day × IsRefusedIn (length day.payments.items) (D.seen device) n) }
{
    let day = read_day(alloc, input)?;
    let ledger = Ledger::open(alloc, device, day.payments.len() as u64)?;
    pay_day(rt, alloc, ledger, orders, out, day)
}
