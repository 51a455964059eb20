//! A source or a sink over a reader or a writer of std.
ghost use Rattle.std.specs.Prelude.{◌≡◌, ◌<◌, ◌||◌, false, Ok, IfOk, OnOk, OnErr, is_ok, is_err, length};
ghost use Rattle.std.specs.Io.{ReadsAtMost, WritesAtMost};
ghost use Rattle.std.specs.Io.KnownBytes.{Keeps, ReadConsumes, WriteAppends};

use crate::streams::{Failed, Sink, Source};
use std::io;
use std::io::{Read, Write};
use std::marker::Model;

/// `Streamed`: a reader or a writer of std, with two marks. One is set while written bytes wait for
/// a flush. The other is set once it has failed: any of its errors is a failure, as is a write that
/// takes none of some bytes. Contracts see the reader or the writer, and the marks.
#[derive(Drop)]
pub struct Streamed<S> {
    inner: S,
    waiting: bool,
    failed: bool,
}

impl<S> Model for Streamed<S> {
    ghost use Rattle.amo_io.specs.StreamedSeen.{StreamedSeen};

    ghost Value = { StreamedSeen S };

    ghost view = { λ s. record { inner = s.inner; waiting = s.waiting; failed = s.failed } };
}

impl<S> Streamed<S> {
    /// Returns the source or sink over this reader or writer. Nothing waits, and it has not failed.
    pub fn new(inner: S) -> Streamed<S>
        ensures { result ≡ record { inner = inner; waiting = false; failed = false } }
    {
        Streamed {
            inner,
            waiting: false,
            failed: false,
        }
    }

    /// Returns the reader or the writer.
    pub fn into_inner(self) -> S
        ensures { result ≡ self.inner }
    {
        let Streamed {
            inner,
            waiting: _,
            failed: _,
        } = self;
        inner
    }

    /// Returns the result of a call on the reader or the writer as that of a source or sink. It has
    /// failed exactly if that result is an error.
    fn answered<T>(&mut self, answer: io::Result<T>) -> Result<T, Failed>
        ensures value { IfOk result (λ x. answer ≡ Ok x) }
        ensures fails { is_err result ≡ is_err answer }
        ensures mark { self.new ≡ record self.old { failed = (self.old.failed || is_err answer) } }
    {
        match answer {
            Ok(value) => Ok(value),
            Err(_) => {
                self.failed = true;
                Err(Failed)
            }
        }
    }
}

impl<S: Read> Source for Streamed<S> {
    ghost remaining = { λ s. S.remaining s.inner };

    ghost failed = { λ s. s.failed };

    /// Reads, and leaves the bytes that wait for a flush.
    fn read(&mut self, buf: &mut [u8]) -> Result<usize, Failed>
        ensures bound { ReadsAtMost result buf.new }
        ensures bytes { ReadConsumes (S.remaining self.old.inner) (S.remaining self.new.inner) result buf.new }
        ensures waits { self.new.waiting ≡ self.old.waiting }
        ensures fails { self.new.failed ≡ (self.old.failed || is_err result) }
    {
        let answer = self.inner.read(buf);
        self.answered(answer)
    }
}

impl<S: Write> Sink for Streamed<S> {
    ghost contents = { λ s. S.contents s.inner };

    ghost waiting = { λ s. s.waiting };

    ghost failed = { λ s. s.failed };

    /// After a write that doesn't fail, something waits for a flush.
    fn write(&mut self, buf: &[u8]) -> Result<usize, Failed>
        ensures bound { WritesAtMost result buf.now }
        ensures some { IfOk result (λ n. 0 < length buf.now → 0 < n) }
        ensures bytes { WriteAppends (S.contents self.old.inner) (S.contents self.new.inner) result buf.now }
        ensures waits { self.new.waiting ≡ (self.old.waiting || is_ok result) }
        ensures fails { self.new.failed ≡ (self.old.failed || is_err result) }
    {
        let answer = self.inner.write(buf);
        let count = self.answered(answer)?;
        if count == 0 && !buf.is_empty() {
            self.failed = true;
            return Err(Failed);
        }
        self.waiting = true;
        Ok(count)
    }

    /// Nothing waits any more, unless the flush fails: then what waited still does.
    fn flush(&mut self) -> Result<(), Failed>
        ensures bytes { Keeps (S.contents self.old.inner) (S.contents self.new.inner) }
        ensures passed { OnOk result (self.new.waiting ≡ false) }
        ensures waits { OnErr result (self.new.waiting ≡ self.old.waiting) }
        ensures fails { self.new.failed ≡ (self.old.failed || is_err result) }
    {
        let answer = self.inner.flush();
        self.answered(answer)?;
        self.waiting = false;
        Ok(())
    }
}
