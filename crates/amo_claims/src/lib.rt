//! The states of a worker as types: a job that was claimed is performed before it is recorded as
//! done, and nothing else is recorded.
//!
//! Start at [`begin`], which takes a worker of `amo_words`. Each call takes the state that it is
//! called on, so no state is used twice. A [`Ready`] worker takes a step, leaves, or is halted. A
//! worker that has claimed a job is [`Held`], with the job's payload. Only to perform that payload
//! makes it [`Performed`], the one state that can be recorded as done. A worker that takes no
//! further step is [`Gone`], and the registry collects it. No call blocks or takes memory; your own
//! [`Work`] may.
//!
//! # Examples
//!
//! ```
//! use amo_claims::{After, Go, Work, begin};
//! use amo_kk::Givens;
//! use amo_words::Floor;
//!
//! struct Post;
//!
//! impl Work<char> for Post {
//!     ghost use Rattle.std.specs.Prelude.{◌≡◌};
//!
//!     type Out = char;
//!
//!     ghost related = { λ _ _ _ letter sent. sent ≡ letter };
//!
//!     fn perform(&self, _worker: u32, _job: u32, letter: char) -> char {
//!         letter // the effect on the world comes here
//!     }
//! }
//!
//! let givens = Givens::try_new(2, 1, 1)?;
//! let letters = vec![in rt.alloc(); 'a', 'b']?;
//! let (floor, mut book) = Floor::try_new(rt.alloc(), givens, letters)?;
//! let mut after = begin(book.hire(rt.alloc(), &floor, 1)?);
//! let mut sent = Vec::with_capacity(rt.alloc(), 2)?;
//! for _ in 0..4 {
//!     after = match after {
//!         After::Over(gone) => After::Over(gone),
//!         After::More(ready) => match ready.go(&floor) {
//!             Go::More(ready) => After::More(ready),
//!             Go::Over(gone) => After::Over(gone),
//!             Go::Got(held) => {
//!                 let (after, letter) = held.perform(&Post).file(&floor);
//!                 sent.push(letter)?;
//!                 after
//!             }
//!         },
//!     };
//! }
//! let After::Over(gone) = after else {
//!     panic!(rt; "it has ended")
//! };
//! assert!(rt; gone.steps() == 6 && sent.as_slice() == ['a', 'b'].as_slice());
//! gone.collect(&floor, &mut book);
//! assert_eq!(rt; book.dones_of(1), [1, 2].as_slice());
//! ```
//!
//! # A proved caller
//!
//! The contract of `send_all` states that no more letters are sent than the worker has recorded as
//! done. In a function with a clause, put the loop into a function that takes `&Floor`: beside an
//! owned floor an invariant sees only `floor-inside`. The prover accepted the crate `claims_caller`
//! with these two files (`rattle check`, 2026-11-30). It stands on `amo_claims`, `amo_words`,
//! `amo_kk` and `amo_params`. The first file is `src/lib.rt`:
//!
//! ```rust
//! #![tactic(auto)]
//! //! One worker sends letters, each at most once.
//!
//! ghost use Rattle.std.specs.Prelude.{◌≡◌, ◌+◌, ◌≤◌, IfSome, length, vec_len};
//! ghost use Rattle.amo_words.specs.Faces.{machine};
//! ghost use Rattle.amo_claims.specs.Calls.{worker_in};
//!
//! use amo_claims::{After, Go, Gone, Ready, Work, begin};
//! use amo_params::{Givens, MAX_STEPS};
//! use amo_words::Floor;
//! use std::alloc::Global;
//!
//! #[derive(Clone, Copy)]
//! pub struct Post;
//!
//! impl Work<char> for Post {
//!     ghost use Rattle.std.specs.Prelude.{◌≡◌};
//!
//!     type Out = char;
//!
//!     ghost related = { λ _ _ _ letter sent. sent ≡ letter };
//!
//!     fn perform(&self, _worker: u32, _job: u32, letter: char) -> char {
//!         letter // the effect on the world comes here
//!     }
//! }
//!
//! /// The letters that were sent, in their order, and the worker that sent them.
//! pub type Sent = (Vec<char>, Gone<char>);
//!
//! /// Opens a floor, and sends its letters by worker 1. No more letters are sent than the worker
//! /// has recorded as done.
//! pub fn send_all(alloc: Global, givens: Givens, letters: Vec<char>) -> Option<Sent>
//!     ensures recorded { IfSome result (λ t. vec_len t.0 ≤ length (machine t.1).state.dones) }
//! {
//!     let Ok(opened) = Floor::try_new(alloc, givens, letters) else {
//!         return None;
//!     };
//!     let (floor, mut book) = opened;
//!     let Ok(worker) = book.hire(alloc, &floor, 1) else {
//!         return None;
//!     };
//!     send(alloc, &floor, begin(worker))
//! }
//!
//! /// Lets a worker of this floor send letters until it has ended.
//! fn send(alloc: Global, floor: &Floor<char>, first: After<char>) -> Option<Sent>
//!     requires { (worker_in first).table_id ≡ floor.now.table_id }
//!     ensures recorded { IfSome result (λ t. vec_len t.0 ≤ length (machine t.1).state.dones) }
//! {
//!     let mut after = first;
//!     let mut sent = Vec::new(alloc);
//!     'steps: for _ in 0..MAX_STEPS {
//!         let ready = match after {
//!             After::Over(gone) => return Some((sent, gone)),
//!             After::More(ready) => ready,
//!         };
//!         let (next, letter) = advance(ready, floor);
//!         after = next;
//!         if let Some(letter) = letter {
//!             let Ok(()) = sent.push(letter) else {
//!                 return None;
//!             };
//!         }
//!     }
//!     match after {
//!         After::Over(gone) => Some((sent, gone)),
//!         After::More(ready) => Some((sent, ready.halt())),
//!     }
//! }
//!
//! /// Takes one step. If it claims a job, the job is performed and recorded as done.
//! fn advance(ready: Ready<char>, floor: &Floor<char>) -> (After<char>, Option<char>)
//!     requires { ready.table_id ≡ floor.now.table_id }
//!     ensures table { (worker_in result.0).table_id ≡ floor.now.table_id }
//!     ensures kept { length (machine ready).state.dones
//!         ≤ length (machine (worker_in result.0)).state.dones }
//!     ensures one { IfSome result.1 (λ _. length (machine (worker_in result.0)).state.dones
//!         ≡ length (machine ready).state.dones + 1) }
//! {
//!     match ready.go(floor) {
//!         Go::More(ready) => (After::More(ready), None),
//!         Go::Over(gone) => (After::Over(gone), None),
//!         Go::Got(held) => {
//!             let (after, letter) = held.perform(&Post).file(floor);
//!             (after, Some(letter))
//!         }
//!     }
//! }
//! ```
//!
//! The second file is `proofs/send/Invariants.antt`. It has the invariant of the loop `'steps` in
//! `send`:
//!
//! ```antt
//! use Rattle.std.proofs.Common.{◌≡◌, ◌≤◌, length, vec_len}
//! use Rattle.amo_claims.specs.Calls.{worker_in}
//! use Rattle.amo_words.specs.Faces.{machine}
//! use Rattle.claims_caller.proofs.send.Given as goal
//!
//! abbrev pub invariant-steps : goal.invariant-steps
//! invariant-steps l = record {
//!   table : (worker_in l.after).table_id ≡ l.floor.table_id;
//!   recorded : vec_len l.sent ≤ length (machine (worker_in l.after)).state.dones;
//! }
//! ```
#![tactic(auto)]

mod states;
mod work;

pub use states::{After, Go, Gone, Held, Performed, Ready, begin};
pub use work::Work;
