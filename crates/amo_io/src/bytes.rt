//! A source over memory.
ghost use Rattle.std.specs.Prelude.{◌≡◌, false, Some, Ok, min, length};
ghost use Rattle.std.specs.Io.{ReadsAtMost};
ghost use Rattle.std.specs.Io.KnownBytes.{ReadConsumes};

use crate::streams::{Failed, Source};
use std::marker::Model;

/// `Bytes`: a source over memory, which never fails. Contracts see it as the bytes that are left.
#[derive(Drop)]
pub struct Bytes<'a> {
    rest: &'a [u8],
}

impl<'a> Model for Bytes<'a> {
    ghost use Rattle.std.specs.Prelude.{ℕ, List};

    ghost Value = { List ℕ };

    ghost view = { λ s. s.rest.now };
}

impl<'a> Bytes<'a> {
    /// Returns the source that gives exactly these bytes.
    pub fn new(bytes: &'a [u8]) -> Bytes<'a>
        ensures { result ≡ bytes.entry.now }
    {
        Bytes { rest: bytes }
    }
}

impl Source for Bytes<'_> {
    ghost remaining = { λ s. Some s };

    ghost failed = { λ _. false };

    /// Reads as many bytes as there are and as the buffer has room for. It takes no memory and
    /// never fails.
    fn read(&mut self, buf: &mut [u8]) -> Result<usize, Failed>
        ensures bound { ReadsAtMost result buf.new }
        ensures bytes { ReadConsumes (Some self.old) (Some self.new) result buf.new }
        ensures count { result ≡ Ok (min (length buf.new) (length self.old)) }
    {
        let count = buf.len().min(self.rest.len());
        let (front, rest) = self.rest.split_at(count);
        buf[..count].copy_from_slice(front);
        self.rest = rest;
        Ok(count)
    }
}
