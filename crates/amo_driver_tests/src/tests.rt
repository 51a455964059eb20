//! One worker's work, out of memory.
ghost use Rattle.std.specs.Prelude.{⊤};

use amo_driver::{Failed, JobResult, LifeEnd, Outside, Reply, Stop, Way, work};
use amo_params::Givens;

/// Returns the job of this intent has ended with code 7.
fn done(serial: u64) -> Reply {
    Reply::Answered(serial, JobResult::Done(7), Way::Go)
}

/// Words in memory, of which nothing is written down.
#[derive(Drop)]
struct Silent {
    words: [u64; 6],
    calls: u64,
}

impl Outside for Silent {
    ghost stands = { λ _ _. ⊤ };

    ghost has_done = { λ _ _. ⊤ };

    fn load(&mut self, word: u64) -> Result<u64, Failed> {
        self.calls = self.calls.saturating_add(1);
        if word < 6 {
            Ok(self.words[word as usize])
        } else {
            Err(Failed)
        }
    }

    fn store(&mut self, word: u64, value: u64) -> Result<(), Failed> {
        self.calls = self.calls.saturating_add(1);
        if word >= 6 {
            return Err(Failed);
        }
        self.words[word as usize] = value;
        Ok(())
    }

    fn found(&mut self, _job: u32) -> Result<(), Failed> {
        Ok(())
    }

    fn intend(&mut self, _serial: u64, _job: u32) -> Result<(), Failed> {
        Ok(())
    }

    fn clear(&mut self, _serial: u64, _job: u32) -> Result<bool, Failed> {
        Ok(true)
    }

    fn perform(&mut self, serial: u64, _job: u32) -> Result<Reply, Failed> {
        Ok(done(serial))
    }

    fn note(&mut self, _serial: u64, _answer: JobResult) -> Result<(), Failed> {
        Ok(())
    }
}

#[test]
fn refused_work(rt: HostRuntime) {
    if let Ok(givens) = Givens::try_new(2, 1, 1) {
        assert_eq!(rt; givens.workers(), 1);
        let mut silent = Silent {
            words: [0, 0, 0, 0, 0, 0],
            calls: 0,
        };
        match work(rt.alloc(), givens, 1, 1, &mut silent) {
            Ok(end) => assert!(rt; end == LifeEnd::Over && silent.words == [0, 2, 2, 1, 2, 0]),
            Err(stop) => assert!(rt; stop == Stop::NoMemory && silent.calls == 0),
        }
    }
}
