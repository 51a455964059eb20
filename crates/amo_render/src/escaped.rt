//! Writes bytes as they are printed.
ghost use Rattle.std.specs.Prelude.{◌≡◌, ◌++◌, ◌<◌, OnOk, string_bytes};
ghost use Rattle.amo_render.specs.Escaped.{is_plain, hex_digit, escaped_byte, escaped};

use std::alloc::AllocError;

/// Returns true if a byte is printed as it is.
fn is_plain(byte: u8) -> bool
    ensures { result ≡ is_plain byte }
{
    32 <= byte && byte <= 126 && byte != b'\\'
}

/// Returns the lower-case hexadecimal digit of a number below 16.
fn hex_digit(number: u8) -> u8
    requires { number < 16 }
    ensures digit { result ≡ hex_digit number }
    ensures ascii { result < 128 }
{
    if number < 10 {
        48 + number
    } else {
        87 + number
    }
}

/// Appends a byte as it is printed.
#[tactic(auto, unfolding(crate::specs::Escaped::escaped_byte))]
fn push_byte(out: &mut String, byte: u8) -> Result<(), AllocError>
    ensures { OnOk result (string_bytes out.new ≡ string_bytes out.old ++ escaped_byte byte) }
{
    if is_plain(byte) {
        return out.push(byte as char);
    }
    out.push('\\')?;
    out.push('x')?;
    out.push(hex_digit(byte / 16) as char)?;
    out.push(hex_digit(byte % 16) as char)
}

/// Appends the bytes of a text as they are printed.
///
/// # Errors
///
/// `AllocError` if there was no memory. Some of the bytes may have been appended.
pub fn push_escaped(out: &mut String, text: &[u8]) -> Result<(), AllocError>
    ensures { OnOk result (string_bytes out.new ≡ string_bytes out.old ++ escaped text.now) }
{
    for byte in text {
        push_byte(out, *byte)?;
    }
    Ok(())
}
