//! The place at which TOML doesn't read a text, and the reason.
use crate::wording::push_quoted;
use std::alloc::{AllocError, Global};
use toml_parser::ErrorKind;

/// A description of the lines of a plan.
const LINES: &str = " A plan is TOML: each line has a key, `=` and a value, as `version = 1`.\n";

/// The kinds of fault whose sentences say more than the reader of TOML does.
const KINDS: [ErrorKind; 13] = [
    ErrorKind::Key,
    ErrorKind::MissingEquals,
    ErrorKind::UnclosedTable,
    ErrorKind::UnclosedArrayTable,
    ErrorKind::EndOfLine,
    ErrorKind::Array,
    ErrorKind::InlineTable,
    ErrorKind::String,
    ErrorKind::Escape,
    ErrorKind::Value,
    ErrorKind::Overflow,
    ErrorKind::DuplicateKey,
    ErrorKind::Extend,
];

/// Returns the line and the column, both from 1, of the byte with this index. A column counts
/// characters.
fn place_of(bytes: &[u8], index: usize) -> (usize, usize) {
    let mut line = 1usize;
    let mut column = 1usize;
    for (i, byte) in bytes.iter().enumerate() {
        if i >= index {
            break;
        }
        if *byte == b'\n' {
            line = line.saturating_add(1);
            column = 1;
        } else if *byte & 0xC0 != 0x80 {
            column = column.saturating_add(1);
        }
    }
    (line, column)
}

/// Returns the kind that has this description, if it is one of these.
fn kind_of(message: &str) -> Option<ErrorKind> {
    for kind in KINDS {
        if kind.description() == message {
            return Some(kind);
        }
    }
    None
}

/// Returns true if the character is a word of its own.
fn is_mark(c: char) -> bool {
    matches!(c, '{' | '}' | '[' | ']' | ',' | '=' | ':' | '#')
}

/// Returns the front of a text, up to this index.
fn front(text: &str, index: usize) -> &str {
    match text.split_at_checked(index) {
        Some((front, _)) => front,
        None => text,
    }
}

/// Returns the first word of a text, or its first character if that is a mark.
fn first_word(text: &str) -> &str {
    for (i, c) in text.char_indices() {
        if i == 0 && is_mark(c) {
            return front(text, 1);
        }
        if c.is_whitespace() || is_mark(c) {
            return front(text, i);
        }
    }
    text
}

/// Returns the part of a line before its `=`, or all of it.
fn key_in(text: &str) -> &str {
    for (i, c) in text.char_indices() {
        if c == '=' || c == '\n' || c == '\r' {
            return front(text, i).trim();
        }
    }
    text
}

/// Appends what stands at the front of this text, where something else has to.
fn push_found(out: &mut String, rest: &str, wanted: &str) -> Result<(), AllocError> {
    if rest.is_empty() {
        return write!(out, "the text ends where {wanted} has to stand.");
    }
    if rest.starts_with("\n") || rest.starts_with("\r") {
        return write!(out, "the line ends where {wanted} has to stand.");
    }
    push_quoted(out, first_word(rest))?;
    write!(out, " stands where {wanted} has to.")
}

/// Appends the fault within a text in quotes.
fn push_text_fault(out: &mut String, rest: &str) -> Result<(), AllocError> {
    if rest.is_empty() {
        return out.push_str("the plan ends within a text in quotes. Write the quote at its end.\n");
    }
    if rest.starts_with("\n") || rest.starts_with("\r") {
        return out.push_str("the line ends within a text in quotes. Write the quote at its end.\n");
    }
    out.push_str(
        "a text in quotes has a control character in it. Write it by its number, as `\\u0007`.\n",
    )
}

/// Appends that there is no value.
fn push_no_value(out: &mut String, rest: &str) -> Result<(), AllocError> {
    let word = first_word(rest);
    if word.is_empty() {
        push_found(out, rest, "a value")?;
        return out.push_str("\n");
    }
    push_quoted(out, word)?;
    if word.bytes().all(|byte| byte.is_ascii_digit()) {
        return out.push_str(
            " and what follows it are no value. The members of a list are parted by commas, as `[1, 2]`.\n",
        );
    }
    out.push_str(
        " is no value. Write a text in quotes, as `say = \"one\"`, and a number in digits.\n",
    )
}

/// Returns the token that a fault of this kind wanted instead, and the words on it.
fn wanted_at(kind: ErrorKind) -> Option<(&'static str, &'static str)> {
    match kind {
        ErrorKind::Key => Some(("a key", LINES)),
        ErrorKind::MissingEquals => Some(("`=`", LINES)),
        ErrorKind::UnclosedTable | ErrorKind::UnclosedArrayTable => {
            Some(("`]`", " A job begins with the line `[[job]]`.\n"))
        }
        ErrorKind::Array => Some((
            "`,` or `]`",
            " The members of a list are parted by commas, as `[1, 2]`.\n",
        )),
        ErrorKind::InlineTable => Some((
            "`,` or `}`",
            " The keys of such a table are parted by commas.\n",
        )),
        _ => None,
    }
}

/// Appends why TOML doesn't read what stands at the front of this text, for a kind of fault.
fn push_kind(out: &mut String, rest: &str, kind: ErrorKind) -> Result<(), AllocError> {
    if let Some((wanted, hint)) = wanted_at(kind) {
        push_found(out, rest, wanted)?;
        return out.push_str(hint);
    }
    match kind {
        ErrorKind::String => push_text_fault(out, rest),
        ErrorKind::Escape => out.push_str(
            "a `\\` in a text begins an escape, and this is none. Write `\\\\` for the character itself, or the text in single quotes.\n",
        ),
        ErrorKind::EndOfLine => {
            push_quoted(out, first_word(rest))?;
            out.push_str(
                " stands where the line has to end. Write one key and its value on each line.\n",
            )
        }
        ErrorKind::Overflow => {
            push_quoted(out, first_word(rest))?;
            out.push_str(" is out of range. An integer is at most 9223372036854775807.\n")
        }
        ErrorKind::DuplicateKey => {
            push_quoted(out, key_in(rest))?;
            out.push_str(" is given a second time. Leave one of the two out.\n")
        }
        ErrorKind::Extend => {
            push_quoted(out, key_in(rest))?;
            out.push_str(" has a value already, to which no key can be added.\n")
        }
        _ => push_no_value(out, rest),
    }
}

/// Appends that a byte is no UTF-8.
fn push_no_utf8(out: &mut String, bytes: &[u8], index: usize) -> Result<(), AllocError> {
    if bytes.starts_with(&[0xff, 0xfe]) || bytes.starts_with(&[0xfe, 0xff]) {
        return out.push_str("the text is in UTF-16. Save it as UTF-8.\n");
    }
    let byte = bytes.get(index).copied().unwrap_or(0);
    write!(
        out,
        "the byte 0x{byte:02x} is no UTF-8. Save the text as UTF-8.\n"
    )
}

/// Appends why TOML doesn't read these bytes from this index on, of which its reader says this.
fn push_why(out: &mut String, bytes: &[u8], index: usize, message: &str) -> Result<(), AllocError> {
    let Ok(text) = std::str::from_utf8(bytes) else {
        return push_no_utf8(out, bytes, index);
    };
    let rest = match text.split_at_checked(index) {
        Some((_, rest)) => rest,
        None => "",
    };
    if rest.starts_with("\0") {
        return out.push_str(
            "the byte 0x00 stands here, which no text has. Leave it out, or save the text as UTF-8.\n",
        );
    }
    match kind_of(message) {
        Some(kind) => push_kind(out, rest, kind),
        None => write!(out, "{message}.\n"),
    }
}

/// Appends where and why TOML doesn't read these bytes.
pub(crate) fn push_broken(alloc: Global, out: &mut String, bytes: &[u8]) -> Result<(), AllocError> {
    let error = match toml::table_from_slice(alloc, bytes) {
        Ok(_) => return Ok(()),
        Err(error) => error,
    };
    let Some(span) = error.span() else {
        return Err(AllocError);
    };
    let (line, column) = place_of(bytes, span.start);
    write!(out, "Line {line}, column {column}: ")?;
    push_why(out, bytes, span.start, error.message())
}
