//! Bounds of the algorithm KK-beta: how few jobs are done once a worker has ended, and how many
//! turns are taken until everyone rests.
//!
//! Nothing here runs. The theorems stand in the module [`laws`]; start at `everyone_rests`. They
//! hold for every order of turns and whoever is halted.
//!
//! | here | in the glossary |
//! |---|---|
//! | n, m | the numbers of jobs and workers |
//! | p, q | a worker, another worker |
//! | j | a job |
#![tactic(auto)]

pub mod laws;
