//! The keys that a text names, and their places.
use std::alloc::{AllocError, Global};
use toml_parser::text::{byte_at, first, skip, skip_blank, skip_ws};
use toml_parser::{Key, ParseError, dotted_key, quoted, starts_string};

/// How a key stands in the text.
#[derive(Clone, Copy, Debug, PartialEq, Eq)]
pub(crate) enum Form {
    /// `key = value`.
    Pair,
    /// `[key]`.
    Table,
    /// `[[key]]`.
    List,
    /// It isn't written: a table within a list of them has it.
    Member,
}

/// A key that the text names.
#[derive(Debug, Drop)]
pub(crate) struct Named {
    /// The job that it is a key of, from 1, or 0 for the top level.
    pub(crate) job: u32,
    /// The key.
    pub(crate) key: String,
    /// How it stands there.
    pub(crate) form: Form,
    /// How many bytes of the text are left at its place.
    pub(crate) left: usize,
}

/// The owner of the keys that come next.
#[derive(Clone, Copy, Debug, PartialEq, Eq)]
enum Place {
    /// The top level.
    Top,
    /// The job that a header has begun.
    Job,
    /// A table that no plan has.
    Elsewhere,
    /// None: members of the list of jobs.
    List,
    /// The job that is a member of that list.
    Member,
}

/// Returns the text after the first character, if that is an ASCII one, or else an empty text.
fn after_byte(text: &str) -> &str {
    let byte = first(text);
    if 0 < byte && byte < 128 {
        skip(text, 1)
    } else {
        ""
    }
}

/// Returns the text after a byte order mark, if one stands at the front.
fn after_mark(text: &str) -> &str {
    text.strip_prefix("\u{feff}").unwrap_or(text)
}

/// Returns the text after a text in quotes. It is empty if that has no end.
fn after_text(alloc: Global, text: &str) -> Result<&str, AllocError> {
    if !starts_string(text) {
        return Ok("");
    }
    match quoted(alloc, text) {
        Ok((_, rest)) => Ok(rest),
        Err(ParseError::OutOfMemory) => Err(AllocError),
        Err(ParseError::At(_, _, _)) => Ok(""),
    }
}

/// Returns true if the byte ends a value that no bracket is open in. 0 stands for the end of the
/// text.
fn ends_value(byte: u8) -> bool {
    matches!(byte, 0 | b'\n' | b'\r' | b',' | b']' | b'}' | b'#')
}

/// Returns how many brackets are open after this byte.
fn depth_after(depth: usize, byte: u8) -> usize {
    match byte {
        b'[' | b'{' => depth.saturating_add(1),
        b']' | b'}' => depth.saturating_sub(1),
        _ => depth,
    }
}

/// Returns the text after a value.
fn after_value(alloc: Global, text: &str) -> Result<&str, AllocError> {
    let mut rest = text;
    let mut depth = 0usize;
    for _step in 0..text.len() {
        let byte = first(rest);
        if depth == 0 && ends_value(byte) {
            return Ok(rest);
        }
        if byte == b'#' {
            rest = skip_blank(rest, true);
        } else if byte == b'"' || byte == b'\'' {
            rest = after_text(alloc, rest)?;
        } else {
            depth = depth_after(depth, byte);
            rest = after_byte(rest);
        }
    }
    Ok(rest)
}

/// Returns a key and what follows it, if one stands at the front.
fn key_at(alloc: Global, text: &str) -> Result<Option<(Key, &str)>, AllocError> {
    match dotted_key(alloc, text) {
        Ok((key, rest)) => Ok(Some((key, rest))),
        Err(ParseError::OutOfMemory) => Err(AllocError),
        Err(ParseError::At(_, _, _)) => Ok(None),
    }
}

/// Returns the first part of a key that may have dots.
fn first_part(key: &Key) -> &str {
    match key.path.first() {
        Some(part) => part.as_str(),
        None => key.last.as_str(),
    }
}

/// Returns the second part.
fn second_part(key: &Key) -> Option<&str> {
    if key.path.is_empty() {
        return None;
    }
    match key.path.get(1) {
        Some(part) => Some(part.as_str()),
        None => Some(key.last.as_str()),
    }
}

/// Returns the text after the brackets at the front: two around the name of a list, else one.
fn after_brackets(text: &str, form: Form) -> &str {
    let rest = after_byte(text);
    if form == Form::List {
        after_byte(rest)
    } else {
        rest
    }
}

/// A walk over a text. It has the keys that it came by, the owner of the keys that come next, the
/// number of jobs that have begun, and the rest of the text.
#[derive(Drop)]
struct Walk<'a> {
    alloc: Global,
    names: Vec<Named>,
    place: Place,
    job: u32,
    rest: &'a str,
}

impl<'a> Walk<'a> {
    /// Returns the walk before its first key.
    fn new(alloc: Global, text: &'a str) -> Walk<'a> {
        Walk {
            alloc,
            names: Vec::new(alloc),
            place: Place::Top,
            job: 0,
            rest: after_mark(text),
        }
    }

    /// Notes a key that stands here.
    fn note(&mut self, job: u32, key: &str, form: Form) -> Result<(), AllocError> {
        let key = String::from_str(self.alloc, key)?;
        let left = self.rest.len();
        self.names.push(Named {
            job,
            key,
            form,
            left,
        })?;
        Ok(())
    }

    /// Notes that a job begins here, whose keys come next.
    fn begin_job(&mut self, form: Form, place: Place) -> Result<(), AllocError> {
        self.note(0, "job", form)?;
        self.job = self.job.saturating_add(1);
        self.place = place;
        Ok(())
    }

    /// Goes over a key and its value.
    fn pass_pair(&mut self) -> Result<(), AllocError> {
        let Some((key, after)) = key_at(self.alloc, self.rest)? else {
            self.rest = "";
            return Ok(());
        };
        let value = skip_ws(after_byte(after));
        let part = first_part(&key);
        let job = if self.place == Place::Top {
            0
        } else {
            self.job
        };
        if self.place != Place::Elsewhere {
            self.note(job, part, Form::Pair)?;
        }
        if self.place == Place::Top && part == "job" && first(value) == b'[' {
            self.place = Place::List;
            self.rest = after_byte(value);
        } else {
            self.rest = after_value(self.alloc, value)?;
        }
        Ok(())
    }

    /// Notes the key of a header.
    fn note_header(&mut self, key: &Key, form: Form) -> Result<(), AllocError> {
        let part = first_part(key);
        match second_part(key) {
            None if part == "job" && form == Form::List => {
                return self.begin_job(form, Place::Job);
            }
            Some(second) if part == "job" => self.note(self.job, second, form)?,
            _ => self.note(0, part, form)?,
        }
        self.place = Place::Elsewhere;
        Ok(())
    }

    /// Goes over a header.
    fn pass_header(&mut self) -> Result<(), AllocError> {
        let is_list = byte_at(self.rest, 1) == b'[';
        let form = if is_list { Form::List } else { Form::Table };
        let inner = skip_ws(after_brackets(self.rest, form));
        let Some((key, after)) = key_at(self.alloc, inner)? else {
            self.rest = "";
            return Ok(());
        };
        self.note_header(&key, form)?;
        self.rest = after_brackets(after, form);
        Ok(())
    }

    /// Goes over a part of the list of jobs.
    fn pass_member(&mut self) -> Result<(), AllocError> {
        match first(self.rest) {
            b'{' => self.begin_job(Form::Member, Place::Member)?,
            b']' => self.place = Place::Top,
            b',' | b'}' => {}
            _ => {
                self.rest = after_value(self.alloc, self.rest)?;
                return Ok(());
            }
        }
        self.rest = after_byte(self.rest);
        Ok(())
    }

    /// Goes over one key, or over a bracket or comma between keys.
    fn pass_one(&mut self) -> Result<(), AllocError> {
        if self.place == Place::List {
            return self.pass_member();
        }
        match first(self.rest) {
            b'}' => self.place = Place::List,
            b',' | b']' => {}
            b'[' => return self.pass_header(),
            _ => return self.pass_pair(),
        }
        self.rest = after_byte(self.rest);
        Ok(())
    }
}

/// Returns the keys that a text names, in its order. A text that TOML doesn't read is walked over
/// as far as it can be.
pub(crate) fn names_in(alloc: Global, text: &str) -> Result<Vec<Named>, AllocError> {
    let mut walk = Walk::new(alloc, text);
    for _step in 0..text.len() {
        walk.rest = skip_blank(walk.rest, true);
        if walk.rest.is_empty() {
            break;
        }
        walk.pass_one()?;
    }
    Ok(walk.names)
}
