//! The picture of a plan's run as an SVG text.
//!
//! Start at [`picture_text`].
//!
//! | here | in the glossary |
//! |---|---|
//! | p | a worker |
//! | j | a job |
//! | q | another worker |
#![tactic(auto)]

mod band;
mod elements;
mod feet;
mod frame;
mod jobs;
mod marks;
mod picturing;
mod pieces;
mod rows;
mod scale;
mod scene;
mod unclaimed;
mod wording;

pub use picturing::picture_text;
