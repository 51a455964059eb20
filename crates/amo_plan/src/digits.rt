//! Numbers of a range in decimal digits.
ghost use Rattle.std.specs.Prelude.{◌≡◌, ◌≤◌, IfSome};
ghost use Rattle.amo_decimal.specs.Numbers.{number_in};
ghost use Rattle.amo_plan.specs.Digits.{within};
ghost use Rattle.amo_plan.specs.declared.limits.TheConstants.{HIGHEST_NUMBER};

use amo_decimal::number_of_bytes;

/// Returns the number that a text is in decimal digits, if it is within `low..=high`. A number
/// doesn't begin with a zero, except 0.
///
/// # Examples
///
/// ```
/// use amo_plan::number_within;
///
/// assert!(rt; number_within(1, 16, "12".as_bytes()) == Some(12));
/// assert!(rt; number_within(1, 16, "17".as_bytes()) == None);
/// assert!(rt; number_within(0, 16, "07".as_bytes()) == None);
/// ```
pub fn number_within(low: u64, high: u64, text: &[u8]) -> Option<u64>
    requires { high ≤ HIGHEST_NUMBER }
    ensures value { result ≡ within low high (number_in text.now) }
    ensures range { IfSome result (λ n. (low ≤ n) × (n ≤ high)) }
{
    let value = number_of_bytes(text)?;
    if value > high {
        return None;
    }
    if value < low { None } else { Some(value) }
}
