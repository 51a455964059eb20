//! A worker's outside, by lines.
ghost use Rattle.std.specs.Prelude.{◌≡◌, true, false, OnOk, OnErr, option_map};
ghost use Rattle.amo_runner_protocol.specs.Lines.{is_agreed, clear_in};

use crate::replies::reply_in;
use crate::wire::Wire;
use amo_decimal::number_of_bytes;
use amo_driver::{Failed, JobResult, Outside, Reply, Try};

/// The words, the journal and the partner of a worker, all at the other end of a wire.
#[derive(Drop)]
pub struct Lines<W: Wire> {
    /// Where its lines go.
    pub wire: W,
    /// The line that came last, without its end. `None` if nothing more came, or a line that was
    /// cut.
    pub said: Option<Vec<u8>>,
}

impl<W: Wire> Lines<W> {
    /// Returns a worker's outside over a wire to which nothing was said.
    pub fn new(wire: W) -> Lines<W>
        ensures { result.wire ≡ wire }
    {
        Lines { wire, said: None }
    }

    /// Returns an error unless the line agrees, as it must.
    fn agreed(&mut self, heard: Option<Vec<u8>>) -> Result<(), Failed>
        ensures wire { self.new.wire ≡ self.old.wire }
        ensures agrees { OnOk result (is_agreed (option_map (λ line. line.items) heard) ≡ true) }
        ensures refuses { OnErr result (is_agreed (option_map (λ line. line.items) heard) ≡ false) }
    {
        let agrees = match &heard {
            Some(line) => line.as_slice() == b"ok".as_slice(),
            None => false,
        };
        self.said = heard;
        if agrees { Ok(()) } else { Err(Failed) }
    }
}

impl<W: Wire> Outside for Lines<W> {
    ghost stands = { λ lines. W.stands lines.wire };

    ghost has_done = { λ lines. W.has_said lines.wire };

    fn load(&mut self, word: u64) -> Result<u64, Failed> {
        let heard = self.wire.ask(Try::Load(word))?;
        let value = match &heard {
            Some(line) => number_of_bytes(line),
            None => None,
        };
        self.said = heard;
        value.ok_or(Failed)
    }

    fn store(&mut self, word: u64, value: u64) -> Result<(), Failed> {
        let heard = self.wire.ask(Try::Store(word, value))?;
        self.agreed(heard)
    }

    fn found(&mut self, job: u32) -> Result<(), Failed> {
        let heard = self.wire.ask(Try::Find(job))?;
        self.agreed(heard)
    }

    fn intend(&mut self, serial: u64, job: u32) -> Result<(), Failed> {
        let heard = self.wire.ask(Try::Intend(serial, job))?;
        self.agreed(heard)
    }

    fn clear(&mut self, serial: u64, job: u32) -> Result<bool, Failed> {
        let heard = self.wire.ask(Try::Clear(serial, job))?;
        let clear = match &heard {
            Some(line) => clear_in(line),
            None => None,
        };
        self.said = heard;
        clear.ok_or(Failed)
    }

    fn perform(&mut self, serial: u64, job: u32) -> Result<Reply, Failed> {
        let heard = self.wire.ask(Try::Perform(serial, job))?;
        let reply = match &heard {
            Some(line) => reply_in(line),
            None => Reply::Closed,
        };
        self.said = heard;
        Ok(reply)
    }

    fn note(&mut self, serial: u64, answer: JobResult) -> Result<(), Failed> {
        let heard = self.wire.ask(Try::Note(serial, answer))?;
        self.agreed(heard)
    }
}

/// Returns true for the line that a job may be handed over, false for the line that the job is
/// taken, and `None` for any other line.
fn clear_in(line: &[u8]) -> Option<bool>
    ensures { result ≡ clear_in line.now }
{
    if line == b"clear".as_slice() {
        Some(true)
    } else if line == b"taken".as_slice() {
        Some(false)
    } else {
        None
    }
}
