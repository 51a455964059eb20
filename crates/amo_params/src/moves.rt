//! The moves of a schedule.
ghost use Rattle.std.specs.Prelude.{◌≡◌};

/// `Move`: one choice of a schedule. The number is that of the worker, from 1.
///
/// # Examples
///
/// ```
/// use amo_params::Move;
///
/// for one in [Move::Turn(3), Move::Halt(3), Move::Leave(3)] {
///     assert_eq!(rt; one.worker(), 3);
/// }
/// ```
#[derive(Clone, Copy, Debug, PartialEq, Eq)]
pub enum Move {
    /// The worker takes its next step. If it is gone, nothing happens.
    Turn(u32),
    /// The worker crashes: it takes no further step. If it is gone, nothing happens.
    Halt(u32),
    /// The worker leaves. If it is gone, or has a job in its hand, nothing happens.
    Leave(u32),
}

impl Move {
    ghost use Rattle.amo_params.specs.Moves.{worker_of};

    /// Returns the number of the worker that moves.
    pub fn worker(self) -> u32
        ensures { result ≡ worker_of self }
    {
        match self {
            Move::Turn(p) | Move::Halt(p) | Move::Leave(p) => p,
        }
    }
}
