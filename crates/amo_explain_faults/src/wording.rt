//! Words that the sentences have in common.
use std::alloc::AllocError;
use toml::Value;

/// How many characters of a text are shown.
const SHOWN: usize = 40;

/// Appends a character: a control character by its number, as TOML escapes it.
fn push_char(out: &mut String, c: char) -> Result<(), AllocError> {
    if c.is_control() {
        let number = c as u32;
        write!(out, "\\u{number:04x}")
    } else {
        out.push(c)
    }
}

/// Appends a text between backticks, the front of a long one.
pub(crate) fn push_quoted(out: &mut String, text: &str) -> Result<(), AllocError> {
    out.push('`')?;
    for (i, c) in text.chars().enumerate() {
        if i == SHOWN {
            out.push_str("..")?;
            break;
        }
        push_char(out, c)?;
    }
    out.push('`')
}

/// Appends the line of a place, if it was found.
pub(crate) fn push_line(out: &mut String, line: Option<usize>) -> Result<(), AllocError> {
    match line {
        Some(line) => write!(out, "Line {line}: "),
        None => Ok(()),
    }
}

/// Appends a number and the word for the counted things.
pub(crate) fn push_count(
    out: &mut String,
    count: u64,
    one: &str,
    many: &str,
) -> Result<(), AllocError> {
    let word = if count == 1 { one } else { many };
    write!(out, "{count} {word}")
}

/// Returns the word for the kind of this value.
pub(crate) fn kind_of(value: &Value) -> &'static str {
    match value {
        Value::String(_) => "a text",
        Value::Integer(_) => "an integer",
        Value::Float(_) => "a number with a point",
        Value::Boolean(_) => "a boolean",
        Value::Datetime(_) => "a date",
        Value::Array(_) => "a list",
        Value::Table(_) => "a table",
    }
}
