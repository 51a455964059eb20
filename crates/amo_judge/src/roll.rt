//! The names of workers or jobs: their numbers, or words that are numbered as they first come.
ghost use Rattle.std.specs.Prelude.{◌≡◌, IfOk, OnOk, string_bytes, map, option_map};
ghost use Rattle.amo_judge.specs.Roll.{empty_roll, small_number_in, text_in, name_in, place_in, number_on, with_word, called};

use crate::refusal::Wrong;
use amo_decimal::number_of_bytes;
use std::alloc::{AllocError, Global};
use std::marker::Model;
use std::str;

/// The most bytes of a name.
const LONGEST_NAME: usize = 64;

/// The words that came so far, if there are names.
#[derive(Drop)]
pub(crate) struct Roll<'a> {
    named: bool,
    words: Vec<&'a str>,
}

impl<'a> Model for Roll<'a> {
    ghost use Rattle.std.specs.Prelude.{map};
    ghost use Rattle.amo_judge.specs.Roll.{RollView};

    ghost Value = { RollView };

    ghost view = { λ r. record { named = r.named; words = map (λ word. word.now) r.words.items } };
}

/// Returns the number below 2 to the 32 that a word says.
fn small_number_in(word: &[u8]) -> Option<u32>
    ensures { result ≡ small_number_in word.now }
{
    let number = number_of_bytes(word)?;
    if number > u32::MAX as u64 {
        return None;
    }
    Some(number as u32)
}

/// Returns the bytes as text, if they are text.
fn text_in(bytes: &[u8]) -> Option<&str>
    ensures { option_map (λ text. text.now) result ≡ text_in bytes.now }
{
    match str::from_utf8(bytes) {
        Ok(text) => Some(text),
        Err(_) => None,
    }
}

/// Returns the word as a name, if it may be one.
fn name_in(word: &[u8]) -> Option<&str>
    ensures { option_map (λ name. name.now) result ≡ name_in word.now }
{
    if word.is_empty() || word.len() > LONGEST_NAME {
        return None;
    }
    text_in(word)
}

/// Returns the place of the name among these, or their number if it isn't there.
fn place_in(words: &[&str], name: &str) -> usize
    ensures { result ≡ place_in name.now (map (λ word. word.now) words.now) }
{
    for (i, word) in words.iter().enumerate() {
        if name == *word {
            return i;
        }
    }
    words.len()
}

impl<'a> Roll<'a> {
    /// Returns a roll without words.
    pub(crate) fn new(alloc: Global, named: bool) -> Roll<'a>
        ensures { result ≡ empty_roll named }
    {
        Roll {
            named,
            words: Vec::new(alloc),
        }
    }

    /// Returns the number for which a word stands, if there are at most so many.
    pub(crate) fn number_on(&self, most: u32, beyond: Wrong, word: &[u8]) -> Result<u32, Wrong>
        ensures { result ≡ number_on self.now most beyond word.now }
    {
        if !self.named {
            return small_number_in(word).ok_or(Wrong::NoEvent);
        }
        let name = name_in(word).ok_or(Wrong::NoEvent)?;
        let place = place_in(self.words.as_slice(), name);
        if place >= most as usize {
            return Err(beyond);
        }
        Ok(place as u32 + 1)
    }

    /// Notes that a word came. After an error the roll may have any content, and the caller must
    /// drop it.
    pub(crate) fn note(&mut self, word: &'a [u8]) -> Result<(), AllocError>
        ensures { OnOk result (self.new ≡ with_word self.old word.now) }
    {
        if !self.named {
            return Ok(());
        }
        let Some(name) = name_in(word) else {
            return Ok(());
        };
        if place_in(self.words.as_slice(), name) == self.words.len() {
            self.words.push(name)?;
        }
        Ok(())
    }

    /// Returns the name of the worker or job of this number.
    pub(crate) fn called(&self, alloc: Global, number: u32) -> Result<String, AllocError>
        ensures { IfOk result (λ name. string_bytes name ≡ called self.now number) }
    {
        if !self.named {
            return format!(in alloc; "{number}");
        }
        let place = (number as usize).saturating_sub(1);
        match self.words.get(place) {
            Some(name) => format!(in alloc; "{name}"),
            None => Ok(String::new(alloc)),
        }
    }
}
