//! The report on payments, a line for each.
ghost use Rattle.std.specs.Prelude.{◌≡◌, ◌++◌, true, Err, IfErr, OnOk, OnErr, string_bytes};
ghost use Rattle.std.specs.Io.KnownBytes.{Appends, Keeps};
ghost use Rattle.amo_example_payments.specs.Faults.{IsOfTelling};
ghost use Rattle.amo_io.specs.Streams.{AppendsFront};
ghost use Rattle.amo_example_payments.specs.Reports.{lines_of, answer_lines, done_lines, doubt_lines, round_text};
ghost use Rattle.amo_example_payments.specs.declared.fault.Fault.TheVariants.{Output as NoOutput, Memory as NoMemory};

use crate::bank::BankReply;
use crate::day::Payment;
use crate::fault::Fault;
use crate::sorting::Sorted;
use crate::writing::{push_line, write_text};
use amo_crew::Output;
use std::alloc::{AllocError, Global};
use std::io::Write;

/// Writes all of the text. If the writer fails, it took a beginning of it.
fn write_out<O: Write>(out: &mut O, text: &str) -> Result<(), Fault>
    ensures whole { OnOk result (Appends (O.contents out.old) (O.contents out.new) text.now) }
    ensures front { OnErr result (AppendsFront (O.contents out.old) (O.contents out.new) text.now) }
    ensures fault { IfErr result (λ fault. fault ≡ NoOutput) }
{
    if write_text(out, text) {
        Ok(())
    } else {
        Err(Fault::Output)
    }
}

/// Appends a line of this word for each payment.
fn push_each(text: &mut String, word: &str, payments: &[Payment]) -> Result<(), AllocError>
    ensures { OnOk result (string_bytes text.new ≡ string_bytes text.old ++ lines_of word.now payments.now) }
{
    for payment in payments {
        push_line(text, word, payment.id())?;
    }
    Ok(())
}

/// Appends a line for each answer: `done` with a receipt, and `doubt` without.
fn push_answers(text: &mut String, outputs: &[Output<BankReply>]) -> Result<(), AllocError>
    ensures { OnOk result (string_bytes text.new ≡ string_bytes text.old ++ answer_lines outputs.now) }
{
    for output in outputs {
        match &output.out {
            BankReply::Paid(receipt) => push_line(text, "done", receipt.id())?,
            BankReply::Unpaid(payment) => push_line(text, "doubt", payment.id())?,
        }
    }
    Ok(())
}

/// Appends a line for each answer with a receipt.
fn push_done(text: &mut String, outputs: &[Output<BankReply>]) -> Result<(), AllocError>
    ensures { OnOk result (string_bytes text.new ≡ string_bytes text.old ++ done_lines outputs.now) }
{
    for output in outputs {
        if let BankReply::Paid(receipt) = &output.out {
            push_line(text, "done", receipt.id())?;
        }
    }
    Ok(())
}

/// Appends a line for each job in doubt, with its payment's number.
fn push_doubts(text: &mut String, in_doubt: &[(u32, u64)]) -> Result<(), AllocError>
    ensures { OnOk result (string_bytes text.new ≡ string_bytes text.old ++ doubt_lines in_doubt.now) }
{
    for (_, id) in in_doubt {
        push_line(text, "doubt", *id)?;
    }
    Ok(())
}

/// Writes a line of this word for each payment. If memory is refused, nothing is written.
pub(crate) fn tell_each<O: Write>(
    alloc: Global,
    out: &mut O,
    word: &str,
    payments: &[Payment],
) -> Result<(), Fault>
    ensures whole { OnOk result (Appends (O.contents out.old) (O.contents out.new) (lines_of word.now payments.now)) }
    ensures front { OnErr result (AppendsFront (O.contents out.old) (O.contents out.new) (lines_of word.now payments.now)) }
    ensures memory { result ≡ Err NoMemory → Keeps (O.contents out.old) (O.contents out.new) }
    ensures fault { IfErr result IsOfTelling }
{
    let mut text = String::new(alloc);
    push_each(&mut text, word, payments)?;
    write_out(out, text.as_str())
}

/// Writes a line for each answer: `done` with a receipt, and `doubt` without. If memory is refused,
/// nothing is written.
pub(crate) fn tell_answers<O: Write>(
    alloc: Global,
    out: &mut O,
    outputs: &[Output<BankReply>],
) -> Result<(), Fault>
    ensures whole { OnOk result (Appends (O.contents out.old) (O.contents out.new) (answer_lines outputs.now)) }
    ensures front { OnErr result (AppendsFront (O.contents out.old) (O.contents out.new) (answer_lines outputs.now)) }
    ensures memory { result ≡ Err NoMemory → Keeps (O.contents out.old) (O.contents out.new) }
    ensures fault { IfErr result IsOfTelling }
{
    let mut text = String::new(alloc);
    push_answers(&mut text, outputs)?;
    write_out(out, text.as_str())
}

/// Writes a line for each payment of a round that is not free: `done` with a receipt, and `doubt`
/// without. If memory is refused, nothing is written.
pub(crate) fn tell_round<O: Write>(alloc: Global, out: &mut O, sorted: &Sorted) -> Result<(), Fault>
    ensures whole { OnOk result (Appends (O.contents out.old) (O.contents out.new) (round_text sorted.now)) }
    ensures front { OnErr result (AppendsFront (O.contents out.old) (O.contents out.new) (round_text sorted.now)) }
    ensures memory { result ≡ Err NoMemory → Keeps (O.contents out.old) (O.contents out.new) }
    ensures fault { IfErr result IsOfTelling }
{
    let mut text = String::new(alloc);
    push_done(&mut text, &sorted.answers)?;
    push_doubts(&mut text, &sorted.in_doubt)?;
    write_out(out, text.as_str())
}
