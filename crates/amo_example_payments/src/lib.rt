//! A day of payments to accounts, each made at most once: a small example of a caller that embeds
//! the executor.
//!
//! Start at [`serve`]. It reads the payments of a day, and its journal, which is a file. It pays
//! the payments that have no intent there, in rounds of at most 4096. It puts an intent into the
//! journal before each payment and a receipt after it, and writes what became of each payment. It
//! may wait.
//!
//! docs/guide/rattle.md goes through all of it, to be copied. No other caller needs its parts, so
//! they stay private.
//!
//! | here | in the glossary |
//! |---|---|
//! | to put | to append to the journal |
//! | gate | commit byte |
//! | floor | shared state |
//! | j | a job |
#![tactic(auto)]

mod bank;
mod day;
mod fault;
mod ledger;
mod line;
mod restarting;
mod rounds;
mod second;
mod serving;
mod sorting;
mod stopping;
mod telling;
mod writing;

pub use fault::Fault;
pub use serving::serve;
