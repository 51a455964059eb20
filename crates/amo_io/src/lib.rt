//! Sources and sinks of bytes, in memory and over the readers and writers of std.
//!
//! Start at [`Source`] and [`Sink`]. Contracts state their bytes, also after a failure, as far as
//! these are known.
#![tactic(auto)]

mod bytes;
mod copying;
mod room;
mod streamed;
mod streams;

pub use bytes::Bytes;
pub use copying::{ReadFault, read_at_most, write_all};
pub use room::Room;
pub use streamed::Streamed;
pub use streams::{Failed, Sink, Source};
