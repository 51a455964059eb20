//! The wire format between a worker and its runner, one line a message.
//!
//! Start at [`perform_text`] and [`reply_in`]. [`Lines`] is for a runner that keeps registers and
//! journal too: it is the driver's outside over such lines alone. The theorems stand in the module
//! [`laws`]: a message is one line, and different messages are different lines.
//!
//! | here | in the glossary |
//! |---|---|
//! | partner | runner |
//! | words | registers |
#![tactic(auto)]

pub mod laws;
mod remote;
mod remote_texts;
mod replies;
mod requests;
mod wire;

pub use remote::Lines;
pub use remote_texts::text_of;
pub use replies::{over_reply_in, reply_in};
pub use requests::{over_text, perform_text, was_text};
pub use wire::{Wire, whole_line};
