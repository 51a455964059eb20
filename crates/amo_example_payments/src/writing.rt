//! Writing of text. If a writer fails, it took a beginning of the text.
ghost use Rattle.std.specs.Prelude.{◌≡◌, ◌++◌, true, false, OnOk, string_bytes};
ghost use Rattle.std.specs.Io.KnownBytes.{Appends};
ghost use Rattle.amo_io.specs.Streams.{AppendsFront};
ghost use Rattle.amo_example_payments.specs.Lines.{line};

use std::alloc::AllocError;
use std::io::Write;

/// Writes all of the text, and returns true. If the writer fails, it took a beginning of it, and
/// this returns false.
pub(crate) fn write_text<O: Write>(out: &mut O, text: &str) -> bool
    ensures whole { result ≡ true → Appends (O.contents out.old) (O.contents out.new) text.now }
    ensures front { result ≡ false → AppendsFront (O.contents out.old) (O.contents out.new) text.now }
{
    let bytes = text.as_bytes();
    let mut at = 0;
    'writing: while at < bytes.len() {
        let (_, rest) = bytes.split_at(at);
        match out.write(rest) {
            Ok(0) | Err(_) => return false,
            Ok(count) => at += count,
        }
    }
    true
}

/// Appends the line of a word and a number.
pub(crate) fn push_line(text: &mut String, word: &str, id: u64) -> Result<(), AllocError>
    ensures { OnOk result (string_bytes text.new ≡ string_bytes text.old ++ line word.now id) }
{
    writeln!(text, "{word} {id}")
}
