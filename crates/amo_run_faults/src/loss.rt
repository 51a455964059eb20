//! The appends that a journal has lost since a round began.
use std::fmt;
use std::fmt::{Display, Formatter};

/// The difference between a journal and the part of it that was on the disk when a round began.
#[derive(Clone, Copy, Debug)]
pub enum Loss {
    /// It has `has` appends, and `counted` were on the disk, which are more.
    Fewer {
        has: usize,
        counted: u64,
        round: u64,
    },
    /// The append of this number, from 1, is another one.
    Other {
        number: u64,
        round: u64,
    },
}

impl Display for Loss {
    fn fmt<W: fmt::Write>(&self, f: &mut Formatter<W>) -> fmt::Result {
        match *self {
            Loss::Fewer {
                has: 1,
                counted,
                round,
            } => write!(
                f,
                "it has 1 append, and {counted} were on the disk when round {round} began"
            ),
            Loss::Fewer {
                has,
                counted: 1,
                round,
            } => write!(
                f,
                "it has {has} appends, and 1 was on the disk when round {round} began"
            ),
            Loss::Fewer {
                has,
                counted,
                round,
            } => write!(
                f,
                "it has {has} appends, and {counted} were on the disk when round {round} began"
            ),
            Loss::Other { number, round } => write!(
                f,
                "append {number} is another one than when round {round} began"
            ),
        }
    }
}
