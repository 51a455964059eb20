//! The entries of one append, as its text.
ghost use Rattle.std.specs.Prelude.{◌≡◌, ◌==◌, true, false, IfOk, IfSome, IfNone, string_bytes};
ghost use Rattle.amo_run_log.specs.Entries.{text_of_append, FitsAppend, append_in, entry_after_blank};
ghost use Rattle.amo_run_log.specs.declared.append.Append.{Append as AppendView};

use crate::entry::Entry;
use crate::numbers::split_at_byte;
use crate::reading::FromText;
use std::alloc::{AllocError, Global};

/// The entries of an append, in order: all of them are in the journal, or none.
#[derive(Clone, Copy, Debug, PartialEq, Eq)]
pub enum Append {
    One(Entry),
    Two(Entry, Entry),
}

impl Append {
    /// Returns the text of the append, without an end: its entries, and `; ` between two.
    ///
    /// # Errors
    ///
    /// An error if there was no memory.
    pub fn print(&self, alloc: Global) -> Result<String, AllocError>
        ensures text { IfOk result (λ text. string_bytes text ≡ text_of_append self.now) }
        ensures fits { FitsAppend self.now }
    {
        match *self {
            Append::One(entry) => entry.print(alloc),
            Append::Two(first, second) => {
                let first = first.print(alloc);
                let second = second.print(alloc);
                let mut text = first?;
                text.push_str("; ")?;
                text.push_str(second?.as_str())?;
                Ok(text)
            }
        }
    }

    /// Returns the append that these bytes say, if they say one.
    pub fn read(bytes: &[u8]) -> Option<Append>
        ensures exact { result ≡ append_in bytes.now }
        // The append that is read has this text.
        ensures found { IfSome result (λ append. text_of_append append ≡ bytes.now) }
        // The text of an append is read.
        ensures none { IfNone result ((append : AppendView) → FitsAppend append → text_of_append append ≡ bytes.now → ⊥) }
    {
        append_of_bytes(bytes)
    }
}

impl FromText for Append {
    ghost said = { append_in };

    fn from_text(text: &[u8]) -> Option<Append> {
        Append::read(text)
    }
}

fn append_of_bytes(bytes: &[u8]) -> Option<Append>
    ensures { result ≡ append_in bytes.now }
{
    match split_at_byte(bytes, b';') {
        Some((first, rest)) => {
            let first = Entry::read(first)?;
            let second = entry_after_blank(rest)?;
            Some(Append::Two(first, second))
        }
        None => {
            let entry = Entry::read(bytes)?;
            Some(Append::One(entry))
        }
    }
}

/// Returns the entry that stands after one blank.
fn entry_after_blank(bytes: &[u8]) -> Option<Entry>
    ensures { result ≡ entry_after_blank bytes.now }
{
    let (first, rest) = bytes.split_first()?;
    if *first == b' ' {
        Entry::read(rest)
    } else {
        None
    }
}
