//! A sink over memory.
ghost use Rattle.std.specs.Prelude.{◌≡◌, ◌<◌, ◌≤◌, ◌+◌, ◌-◌, ◌||◌, ◌↔◌, ◌++◌, min, [], false, Some, IfOk, OnErr, OnOk, IsErr, IsOk, is_err, length, vec_len, vec_capacity};
ghost use Rattle.std.specs.Io.{WritesAtMost};
ghost use Rattle.std.specs.Io.KnownBytes.{WriteAppends};
ghost use Rattle.amo_io.specs.RoomSeen.{HasNoRoomFor};

use crate::streams::{Failed, Sink};
use std::alloc::{AllocError, Global};
use std::marker::Model;

/// `Room`: a sink over a vector of fixed room, which fails exactly if it is full. Contracts see its
/// bytes, its room, and whether a write has failed.
#[derive(Drop)]
pub struct Room {
    bytes: Vec<u8>,
    room: usize,
    failed: bool,
}

impl Model for Room {
    ghost use Rattle.std.specs.Prelude.{◌≡◌, ◌≤◌, vec_len, vec_capacity};
    ghost use Rattle.amo_io.specs.RoomSeen.{RoomSeen};

    ghost Value = { RoomSeen };

    ghost view = { λ r. record { bytes = r.bytes.items; room = r.room; failed = r.failed } };

    ghost invariant = { λ r. (vec_len r.bytes ≤ r.room) × (vec_capacity r.bytes ≡ r.room) };
}

impl Room {
    /// Returns an empty sink with room for so many bytes.
    ///
    /// # Errors
    ///
    /// `AllocError` if memory for them is refused.
    pub fn new(alloc: Global, room: usize) -> Result<Room, AllocError>
        ensures { IfOk result (λ r. r ≡ record { bytes = []; room = room; failed = false }) }
    {
        let bytes = Vec::with_capacity(alloc, room)?;
        Ok(Room {
            bytes,
            room,
            failed: false,
        })
    }

    /// Returns the bytes that were written.
    pub fn as_slice(&self) -> &[u8]
        ensures { result.now ≡ self.now.bytes }
    {
        self.bytes.as_slice()
    }
}

/// Appends bytes that there is room for, and takes no memory.
fn push_all(bytes: &mut Vec<u8>, more: &[u8])
    requires { vec_len bytes.old + length more.now ≤ vec_capacity bytes.old }
    ensures items { bytes.new.items ≡ bytes.old.items ++ more.now }
    ensures capacity { vec_capacity bytes.new ≡ vec_capacity bytes.old }
{
    for byte in more {
        bytes.push_reserved(*byte);
    }
}

impl Sink for Room {
    ghost contents = { λ s. Some s.bytes };

    ghost waiting = { λ _. false };

    ghost failed = { λ s. s.failed };

    /// Takes as many bytes as there is room for. It takes no memory, and fails exactly if it is
    /// full and is given some bytes.
    fn write(&mut self, buf: &[u8]) -> Result<usize, Failed>
        ensures bound { WritesAtMost result buf.now }
        ensures some { IfOk result (λ n. 0 < length buf.now → 0 < n) }
        ensures bytes { WriteAppends (Some self.old.bytes) (Some self.new.bytes) result buf.now }
        ensures count { IfOk result (λ n. n ≡ min (length buf.now) (self.old.room - length self.old.bytes)) }
        ensures room { self.new.room ≡ self.old.room }
        ensures fails { self.new.failed ≡ (self.old.failed || is_err result) }
        ensures full { IsErr result ↔ HasNoRoomFor self.old buf.now }
    {
        let count = buf.len().min(self.room - self.bytes.len());
        if count == 0 && !buf.is_empty() {
            self.failed = true;
            return Err(Failed);
        }
        push_all(&mut self.bytes, &buf[..count]);
        Ok(count)
    }

    /// Nothing is passed on, and nothing changes. It takes no memory and never fails.
    fn flush(&mut self) -> Result<(), Failed>
        ensures unchanged { self.new ≡ self.old }
        ensures succeeds { IsOk result }
    {
        Ok(())
    }
}
