//! The traits of sources and sinks.
ghost use Rattle.std.specs.Prelude.{◌≡◌, ◌<◌, ◌||◌, ℕ, List, Option, Bool, false, IfOk, OnOk, is_err, length};
ghost use Rattle.std.specs.Io.{ReadsAtMost, WritesAtMost};
ghost use Rattle.std.specs.Io.KnownBytes.{Keeps, ReadConsumes, WriteAppends};

/// `Failed`: the error of a read, a write or a flush.
#[derive(Clone, Copy, Debug, PartialEq, Eq)]
pub struct Failed;

/// `Source`: a value that gives bytes.
pub trait Source {
    /// The bytes that reads will give from here on, if they are known.
    ghost remaining: { Self → Option (List ℕ) };

    /// True once a read has failed.
    ghost failed: { Self → Bool };

    /// Reads some bytes into the front of the buffer, and returns how many: none only at the end,
    /// or if the buffer has no room.
    ///
    /// # Errors
    ///
    /// `Failed` if the read fails. No byte is then taken from those that remain.
    fn read(&mut self, buf: &mut [u8]) -> Result<usize, Failed>
        ensures bound { ReadsAtMost result buf.new }
        ensures bytes { ReadConsumes (remaining self.old) (remaining self.new) result buf.new }
        ensures fails { failed self.new ≡ (failed self.old || is_err result) };
}

/// `Sink`: a value that takes bytes.
pub trait Sink {
    /// The bytes that it holds, if they are known.
    ghost contents: { Self → Option (List ℕ) };

    /// True while some bytes wait for a flush.
    ghost waiting: { Self → Bool };

    /// True once a write or a flush has failed.
    ghost failed: { Self → Bool };

    /// Takes bytes from the front of the buffer, and returns how many: at least one if the buffer
    /// has one.
    ///
    /// # Errors
    ///
    /// `Failed` if the write fails. No byte is then taken.
    fn write(&mut self, buf: &[u8]) -> Result<usize, Failed>
        ensures bound { WritesAtMost result buf.now }
        ensures some { IfOk result (λ n. 0 < length buf.now → 0 < n) }
        ensures bytes { WriteAppends (contents self.old) (contents self.new) result buf.now }
        ensures fails { failed self.new ≡ (failed self.old || is_err result) };

    /// Passes on the bytes that were taken.
    ///
    /// # Errors
    ///
    /// `Failed` if the flush fails. Its bytes stay, as after a success.
    fn flush(&mut self) -> Result<(), Failed>
        ensures bytes { Keeps (contents self.old) (contents self.new) }
        ensures passed { OnOk result (waiting self.new ≡ false) }
        ensures fails { failed self.new ≡ (failed self.old || is_err result) };
}
