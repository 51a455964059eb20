//! How a worker reads the answers and all journals, to work in a round or to begin one.
ghost use Rattle.std.specs.Prelude.{◌≡◌, [], option_map, Some, IfOk, OnErr};
ghost use Rattle.amo_host.specs.Calls.{ReadLog};
ghost use Rattle.amo_host.specs.Logs.{logs_before};
ghost use Rattle.amo_host.specs.Protocol.{Lives, MayCall};
ghost use Rattle.amo_worker_life.specs.Halting.{Halts, IsWhyUnread};
ghost use Rattle.amo_worker_life.specs.declared.halt.Halt.{Halt};
ghost use Rattle.amo_worker_life.specs.Reading.{logs_of, MayReadAll, ReadsLog, ReadsTo};
ghost use Rattle.amo_worker_life.specs.Where.{me_of};

use crate::halt::Halt;
use crate::round::add;
use crate::worker::Worker;
use amo_driver::Failed;
use amo_host::{Host, LogFile};
use amo_params::MAX_WORKERS;
use amo_run_files::{Extent, RoundFile};
use amo_run_log::ReadLogs;
use std::alloc::{AllocError, Global};

impl<H: Host> Worker<H> {
    /// Reads the answers and all journals, in this order, and returns how many appends of each stay
    /// on the disk. `last` is the file of the last round.
    ///
    /// # Errors
    /// `Failed` if a call failed, if there was no memory, or if what was read of a log can't follow
    /// what was read before.
    pub(crate) fn read_logs(
        &mut self,
        last: Option<&RoundFile>,
        logs: &mut ReadLogs,
    ) -> Result<Vec<Extent>, Failed>
        requires may { MayReadAll (H.stands self.old.host) (me_of self.old.number self.old.jobs) (option_map (λ file. file.now) last) (logs_of logs.old) }
        ensures all { IfOk result (λ counts. ReadsTo (H.stands self.old.host) (H.stands self.new.host) (me_of self.old.number self.old.jobs) (option_map (λ file. file.now) last.entry) (logs_of logs.old) (logs_of logs.new) counts.items []) }
        ensures halts { OnErr result (Halts (H.stands self.new.host) (me_of self.new.number self.new.jobs) (option_map logs_of self.new.logs) self.new.halt) }
        ensures lives { Lives (H.stands self.new.host) }
        ensures health { IfOk result (λ counts. self.new.health ≡ self.old.health) }
        ensures number { self.new.number ≡ self.old.number }
        ensures jobs { self.new.jobs ≡ self.old.jobs }
    {
        let mut counts = Vec::new(self.alloc);
        self.read_log(last, LogFile::Answers, logs, &mut counts)?;
        for p in 0..MAX_WORKERS as u64 {
            self.read_log(last, LogFile::Journal(p + 1), logs, &mut counts)?;
        }
        Ok(counts)
    }

    /// Reads one log, adds what was read to `logs`, and how many of its appends stay on the disk to
    /// `counts`.
    ///
    /// # Errors
    /// `Failed` if the call failed, if there was no memory, or if what was read can't follow what
    /// was read before.
    fn read_log(
        &mut self,
        last: Option<&RoundFile>,
        log: LogFile,
        logs: &mut ReadLogs,
        counts: &mut Vec<Extent>,
    ) -> Result<(), Failed>
        requires { MayCall (H.stands self.old.host) (ReadLog log (option_map (λ file. file.now) last)) }
        ensures read { IfOk result (λ _. ReadsLog (H.stands self.old.host) (H.stands self.new.host) (option_map (λ file. file.now) last.entry) log (logs_of logs.old) (logs_of logs.new) counts.old.items counts.new.items) }
        ensures halts { OnErr result ((why : Halt) × (self.new.halt ≡ Some why) × IsWhyUnread why (H.stands self.old.host) (H.stands self.new.host) (option_map (λ file. file.now) last.entry) log (logs_of logs.old)) }
        ensures lives { Lives (H.stands self.new.host) }
        ensures health { IfOk result (λ _. self.new.health ≡ self.old.health) }
        ensures number { self.new.number ≡ self.old.number }
        ensures jobs { self.new.jobs ≡ self.old.jobs }
    {
        let Ok(part) = self.host.read_log(log, last) else {
            return Err(self.fails(Halt::Host));
        };
        let Ok(added) = add(logs, log, &part.texts) else {
            return Err(self.fails(Halt::Memory));
        };
        if !added {
            return Err(self.fails(Halt::Unread(log)));
        }
        match counts.push(part.counted) {
            Ok(()) => Ok(()),
            Err(_) => Err(self.fails(Halt::Memory)),
        }
    }
}

/// Returns what was read of the logs in earlier rounds, once the run knows so many lines.
pub(crate) fn logs_before(
    alloc: Global,
    count: u64,
    prior: Option<ReadLogs>,
) -> Result<ReadLogs, AllocError>
    ensures { IfOk result (λ logs. logs_of logs ≡ logs_before count (option_map logs_of prior)) }
{
    match prior {
        None => ReadLogs::new(alloc, MAX_WORKERS as usize, count),
        Some(logs) => {
            let mut logs = logs;
            logs.grow(alloc, count)?;
            Ok(logs)
        }
    }
}
