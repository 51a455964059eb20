//! The file of a journal: the bytes that a read returns, and those that a crash may leave.
ghost use Rattle.std.specs.Prelude.{◌≡◌, ◌⊎◌, ◌≤◌, ◌<◌, List, ℕ, length, take, IfOk, OnOk, OnErr};
ghost use Rattle.amo_journal.specs.declared.device.DeviceError.TheVariants.{Memory};
ghost use Rattle.amo_journal.specs.Device.{AgreesBut, Cut, Differs, Elapses, Follows, HasCause, Holds, IsOutside, Torn, WritesFront};

use std::alloc::{AllocError, AllocFailed, Global};
use thiserror::Error;

/// The reason that a device didn't do a call.
#[derive(Clone, Copy, Debug, PartialEq, Eq, Drop, Error)]
pub enum DeviceError {
    /// There was no memory.
    #[error("out of memory")]
    Memory,
    /// The disk failed.
    #[error("the disk failed")]
    Failed,
}

impl From<AllocError> for DeviceError {
    ghost from_gives = { λ _ e. e ≡ Memory };

    fn from(_: AllocError) -> Self {
        DeviceError::Memory
    }
}

impl<T: Drop> From<AllocFailed<T>> for DeviceError {
    ghost from_gives = { λ _ e. e ≡ Memory };

    fn from(_: AllocFailed<T>) -> Self {
        DeviceError::Memory
    }
}

/// `Device`: one file of a disk. A read returns what was written, whether the disk keeps it or not.
/// A crash, which is the loss of power, leaves one of the contents that are possible at its moment.
/// A kill leaves what a read returns.
pub trait Device {
    /// The bytes that a read returns.
    ghost seen: { Self → List ℕ };

    /// The contents that a crash at this moment may leave.
    ghost may_leave: { Self → List ℕ → Type 0 };

    /// The places at which the disk may have another byte than a read returns, though no sync is
    /// going to write it. A sync failed, here or in a process before. A write there ends that.
    ghost stale: { Self → ℕ → Type 0 };

    /// The moment, as a number that doesn't fall.
    ghost moment: { Self → ℕ };

    /// The contents that a crash at some moment from that one on might have left, during a call or
    /// between two.
    ghost left_since: { Self → ℕ → List ℕ → Type 0 };

    /// How often the disk has failed.
    ghost faults: { Self → ℕ };

    /// Returns all the bytes.
    fn read(&mut self, alloc: Global) -> Result<Vec<u8>, DeviceError>
        ensures bytes { IfOk result (λ bytes. bytes.items ≡ seen self.old) }
        ensures seen { seen self.new ≡ seen self.old }
        ensures crash { (c : List ℕ) → may_leave self.new c → may_leave self.old c }
        ensures stale { (i : ℕ) → stale self.new i → stale self.old i }
        ensures time { Elapses (moment self.old) (moment self.new) (left_since self.old) (left_since self.new) (may_leave self.new) }
        ensures cause { HasCause (faults self.old) (faults self.new) result };

    /// Writes these bytes over the old ones, and past the end. Until a sync, a crash may leave at
    /// each place in the range the old byte, the new one, or, past the file's old end on the disk,
    /// 0.
    ///
    /// # Errors
    ///
    /// The disk failed, or there was no memory. A front of the bytes is written then, or none.
    fn write_at(&mut self, at: usize, bytes: &[u8]) -> Result<(), DeviceError>
        requires { at ≤ length (seen self.old) }
        ensures written { OnOk result (Holds (seen self.old) at bytes.now (seen self.new)) }
        ensures front { WritesFront (seen self.old) at bytes.now (seen self.new) }
        ensures crash { Follows (Torn at (length bytes.now) (seen self.new)) (may_leave self.old) (may_leave self.new) }
        ensures stale { (i : ℕ) → stale self.new i → stale self.old i }
        ensures fresh { OnOk result ((i : ℕ) → stale self.new i → IsOutside at (length bytes.now) i) }
        ensures time { Elapses (moment self.old) (moment self.new) (left_since self.old) (left_since self.new) (may_leave self.new) }
        ensures cause { HasCause (faults self.old) (faults self.new) result };

    /// Cuts the file to a length. At an error it may be cut to a greater one.
    fn cut(&mut self, len: usize) -> Result<(), DeviceError>
        requires { len ≤ length (seen self.old) }
        ensures cut { OnOk result (seen self.new ≡ take len (seen self.old)) }
        ensures front { Cut len (seen self.old) (seen self.new) }
        ensures crash { Follows (Cut len) (may_leave self.old) (may_leave self.new) }
        ensures stale { (i : ℕ) → stale self.new i → stale self.old i }
        ensures fresh { OnOk result ((i : ℕ) → stale self.new i → i < len) }
        ensures time { Elapses (moment self.old) (moment self.new) (left_since self.old) (left_since self.new) (may_leave self.new) }
        ensures cause { HasCause (faults self.old) (faults self.new) result };

    /// Syncs the file: from then on a crash leaves what a read returns, but for stale places.
    ///
    /// # Errors
    ///
    /// The disk failed, or there was no memory. Each place at which the disk may have another byte
    /// may be stale from then on.
    fn sync(&mut self) -> Result<(), DeviceError>
        ensures durable { OnOk result ((c : List ℕ) → may_leave self.new c → AgreesBut (stale self.old) (seen self.old) c) }
        ensures seen { seen self.new ≡ seen self.old }
        ensures crash { (c : List ℕ) → may_leave self.new c → may_leave self.old c }
        ensures fresh { OnOk result ((i : ℕ) → stale self.new i → stale self.old i) }
        ensures stale { OnErr result ((i : ℕ) → stale self.new i → (stale self.old i) ⊎ (Differs (may_leave self.old) (seen self.old) i)) }
        ensures time { Elapses (moment self.old) (moment self.new) (left_since self.old) (left_since self.new) (may_leave self.new) }
        ensures cause { HasCause (faults self.old) (faults self.new) result };

    /// This moment is one of those since an earlier one.
    ghost counts_now: { (file : Self) (t : ℕ) (c : List ℕ) → t ≤ moment file → may_leave file c → left_since file t c };

    /// Since this moment there is no other.
    ghost only_now: { (file : Self) (c : List ℕ) → left_since file (moment file) c → may_leave file c };
}
