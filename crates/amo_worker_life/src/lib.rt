//! The life of a worker's process over a host. It takes its number, asks what became of earlier
//! attempts, begins a round or joins one, works in it, and stays for the next one. The protocol
//! allows each call that it makes, however the calls before it turned out.
#![tactic(auto)]

mod beginning;
mod halt;
mod joining;
mod life;
mod outcome;
mod part;
mod reading;
mod round;
mod start;
mod worker;

pub use beginning::{Begun, Sharing, begin};
pub use halt::{Halt, Health};
pub use joining::{Joined, Seat, join};
pub use life::{Ending, live};
pub use part::{OverReply, ask_past, leave, stay, take_part};
pub use round::InRound;
pub use start::take_number;
pub use worker::Worker;
