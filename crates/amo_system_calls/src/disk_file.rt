//! The calls by which a journal's file is written, and what we assume of a crash.
ghost use Rattle.std.specs.Prelude.{◌≡◌, ◌⊎◌, ◌≤◌, ◌<◌, List, ℕ, length, take, IfOk, OnOk, OnErr};
ghost use Rattle.amo_journal.specs.Device.{AgreesBut, Cut, Differs, Elapses, Follows, Holds, IsOutside, Torn};

use std::io;

/// `DiskFile`: one file, open to read and write, that nobody else writes. Its clauses are what we
/// assume of a file on a disk, and of what the loss of power leaves of it. If a write is under way
/// then, each place has the old byte, the new one, or, past the old end, 0. A write that fails has
/// written nothing. If it is cut short, it returns how many bytes it has written. A sync that
/// succeeds has put all of them on the disk.
pub trait DiskFile {
    /// The contents that a crash at this moment may leave.
    ghost may_leave: { Self → List ℕ → Type 0 };

    /// The places at which the disk may have another byte than a read returns, though no sync is
    /// going to write it.
    ghost stale: { Self → ℕ → Type 0 };

    /// The moment, as a number that doesn't fall.
    ghost moment: { Self → ℕ };

    /// The contents that a crash at some moment from that one on might have left.
    ghost left_since: { Self → ℕ → List ℕ → Type 0 };

    /// Writes a front of these bytes over the old ones, and past the end, and returns how many. A
    /// read returned `before` until now. Only contracts need that.
    ///
    /// # Errors
    /// The system's error. Nothing is written then.
    fn write_front(&mut self, at: usize, bytes: &[u8], before: &[u8]) -> io::Result<usize>
        ensures count { IfOk result (λ n. n ≤ length bytes.now) }
        ensures crash { IfOk result (λ n. (after : List ℕ) → Holds before.now at (take n bytes.now) after → Follows (Torn at (length bytes.now) after) (may_leave self.old) (may_leave self.new)) }
        ensures nothing { OnErr result ((c : List ℕ) → may_leave self.new c → may_leave self.old c) }
        ensures stale { (i : ℕ) → stale self.new i → stale self.old i }
        ensures fresh { IfOk result (λ n. (i : ℕ) → stale self.new i → IsOutside at n i) }
        ensures time { Elapses (moment self.old) (moment self.new) (left_since self.old) (left_since self.new) (may_leave self.new) };

    /// Cuts the file to a length.
    ///
    /// # Errors
    /// The system's error. A read returns what it returned before.
    fn cut_to(&mut self, len: usize) -> io::Result<()>
        ensures crash { Follows (Cut len) (may_leave self.old) (may_leave self.new) }
        ensures stale { (i : ℕ) → stale self.new i → stale self.old i }
        ensures fresh { OnOk result ((i : ℕ) → stale self.new i → i < len) }
        ensures time { Elapses (moment self.old) (moment self.new) (left_since self.old) (left_since self.new) (may_leave self.new) };

    /// Syncs the file: from then on a crash leaves what a read returns, but for stale places. A
    /// read returns `shown`. Only contracts need that.
    ///
    /// # Errors
    /// The system's error. Each place at which the disk may have another byte may be stale then.
    fn sync_bytes(&mut self, shown: &[u8]) -> io::Result<()>
        ensures durable { OnOk result ((c : List ℕ) → may_leave self.new c → AgreesBut (stale self.old) shown.now c) }
        ensures crash { (c : List ℕ) → may_leave self.new c → may_leave self.old c }
        ensures fresh { OnOk result ((i : ℕ) → stale self.new i → stale self.old i) }
        ensures stale { OnErr result ((i : ℕ) → stale self.new i → (stale self.old i) ⊎ (Differs (may_leave self.old) shown.now i)) }
        ensures time { Elapses (moment self.old) (moment self.new) (left_since self.old) (left_since self.new) (may_leave self.new) };

    /// This moment is one of those since an earlier one.
    ghost counts_now: { (file : Self) (t : ℕ) (c : List ℕ) → t ≤ moment file → may_leave file c → left_since file t c };

    /// Since this moment there is no other.
    ghost only_now: { (file : Self) (c : List ℕ) → left_since file (moment file) c → may_leave file c };
}
