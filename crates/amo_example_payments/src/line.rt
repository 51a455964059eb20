//! The lines of the input.
ghost use Rattle.std.specs.Prelude.{◌≡◌};
ghost use Rattle.amo_example_payments.specs.Lines.{payment_in, line_of_word, line_in};

use amo_decimal::number;

/// A line of the input.
#[derive(Clone, Copy, Debug, PartialEq, Eq)]
pub(crate) enum Line {
    /// How many workers there are.
    Workers(u64),
    /// The number of steps after which each worker is halted, in a round.
    Steps(u64),
    /// The number of payments after which the workers of the second floor are asked to stop.
    Limit(u64),
    /// An account, and the amount that it gets.
    Pay(u64, u64),
}

/// Returns the payment of two numbers, with a blank between them.
fn pay(text: &str) -> Option<Line>
    ensures { result ≡ payment_in text.now }
{
    let (account, cents) = text.split_once(' ')?;
    Some(Line::Pay(number(account)?, number(cents)?))
}

/// Returns the line of this word and this rest.
fn line_of_word(word: &str, rest: &str) -> Option<Line>
    ensures { result ≡ line_of_word word.now rest.now }
{
    match word {
        "workers" => Some(Line::Workers(number(rest)?)),
        "steps" => Some(Line::Steps(number(rest)?)),
        "limit" => Some(Line::Limit(number(rest)?)),
        "pay" => pay(rest),
        _ => None,
    }
}

/// Returns what the line says, or `None` if it is invalid. The caller must then stop: the line may
/// be a broken payment, and each one after it would get another number than the journal gives it.
pub(crate) fn line_of(text: &str) -> Option<Line>
    ensures { result ≡ line_in text.now }
{
    let (word, rest) = text.split_once(' ')?;
    line_of_word(word, rest)
}
