//! Following of a run: it prints a line of JSON a second, without any lock. Nothing is recovered,
//! made or written. Start with [`follow`].
use amo_host_parts::print;
use amo_params::MAX_WORKERS;
use amo_run_dir::{FollowedFiles, bytes_of, known, record_of};
use amo_run_faults::{Fault, Item, Setting};
use amo_run_files::RoundFile;
use amo_run_log::{ReadLogs, first_misplaced};
use amo_status::{Counts, RunLog, counts, standings};
use amo_system_calls::{Os, SystemCalls};
use amo_watch::{AttemptRow, Head, attempt_rows, changed, watch_line};
use std::alloc::Global;
use std::fs::File;
use std::mem;
use std::rt::HostRuntime;

/// The pause between two lines, in milliseconds.
const PAUSE: u64 = 1000;

/// The answers or a journal, as far as it was read and shown.
#[derive(Drop)]
struct FollowedLog {
    item: Item,
    /// The appends that were read last, and not taken yet.
    texts: Vec<Vec<u8>>,
    /// How many appends were taken.
    appends: usize,
    /// The attempts that were shown.
    shown: Vec<AttemptRow>,
}

/// A run, as far as it was read and shown.
#[derive(Drop)]
struct FollowedRun<'a> {
    system: Os,
    setting: Setting<'a>,
    id: Vec<u8>,
    /// The file of the last round.
    last: Option<RoundFile>,
    files: FollowedFiles<File>,
    /// The answers, and then the journals of the workers 1, 2 and so on.
    parts: Vec<FollowedLog>,
    logs: ReadLogs,
    /// How many lines the run knows.
    lines: u64,
}

/// Prints how a run stands, as one line, and then a line a second with what has changed, until the
/// output is closed. With `is_once` it ends after the first line. The caller has checked that the
/// folder can be read as a run's, and that version 0.1.0 hasn't made it.
///
/// # Errors
/// `Later` if a journal can't be read on: then the same command begins anew. `Write` if the output
/// is closed. Else the fault of a file that is damaged or can't be read, and `Memory`.
pub fn follow(rt: HostRuntime, setting: &Setting<'_>, is_once: bool) -> Result<(), Fault> {
    let mut run = FollowedRun::new(rt, setting)?;
    run.read()?;
    let mut found = run.count()?;
    let rows = run.fresh_rows()?;
    run.show(&found, &rows)?;
    if is_once {
        return Ok(());
    }
    for _line in 0..u64::MAX {
        run.system.pause(PAUSE);
        let mut rows = Vec::new(rt.alloc());
        if run.read()? {
            found = run.count()?;
            rows = run.fresh_rows()?;
        }
        run.show(&found, &rows)?;
    }
    Ok(())
}

impl<'a> FollowedRun<'a> {
    /// Returns a run of which only the file of the last round was read.
    ///
    /// # Errors
    /// As [`record_of`], and `NoId`.
    fn new(rt: HostRuntime, setting: &Setting<'a>) -> Result<FollowedRun<'a>, Fault> {
        let mut system = Os::new(rt);
        let alloc = system.alloc();
        let Some(mut id) = bytes_of(&mut system, setting, Item::Id)? else {
            return Err(Fault::NoId);
        };
        id.pop();
        let mut parts = Vec::new(alloc);
        parts.push(FollowedLog::new(alloc, Item::Answers))?;
        for worker in 1..=MAX_WORKERS as u64 {
            parts.push(FollowedLog::new(alloc, Item::Journal(worker)))?;
        }
        let last = record_of(&mut system, setting)?;
        Ok(FollowedRun {
            system,
            setting: *setting,
            id,
            last,
            files: FollowedFiles::new(alloc),
            parts,
            logs: ReadLogs::new(alloc, MAX_WORKERS as usize, 0)?,
            lines: 0,
        })
    }

    /// Reads on, and returns true if there was more. The lines are read after the journals, so each
    /// line that an attempt names is known.
    ///
    /// # Errors
    /// As [`FollowedFiles::read`], [`record_of`] and [`known`]. `Entry` if an append can't follow
    /// those before it.
    fn read(&mut self) -> Result<bool, Fault> {
        for part in self.parts.iter_mut() {
            let last = self.last.as_ref();
            let (texts, _) = self
                .files
                .read(&mut self.system, &self.setting, last, part.item, None)?;
            part.texts = texts;
        }
        let mut is_more = self.read_lines()?;
        for part in self.parts.iter_mut() {
            is_more = part.take(self.system.alloc(), &mut self.logs)? || is_more;
        }
        if is_more {
            self.check_answers()?;
        }
        Ok(is_more)
    }

    /// Reads the file of the last round, and if that is another round, the lines that the run
    /// knows. Returns true if there are more lines.
    ///
    /// # Errors
    /// As [`record_of`] and [`known`].
    fn read_lines(&mut self) -> Result<bool, Fault> {
        let last = record_of(&mut self.system, &self.setting)?;
        if self.lines > 0 && round_of(&last) == round_of(&self.last) {
            self.last = last;
            return Ok(false);
        }
        let before = self.lines;
        self.lines = known(&mut self.system, &self.setting, last.as_ref())?.count();
        self.logs.grow(self.system.alloc(), self.lines)?;
        self.last = last;
        Ok(self.lines > before)
    }

    /// Refuses an answer that is of no attempt, or of one that an earlier answer is of.
    fn check_answers(&self) -> Result<(), Fault> {
        match first_misplaced(self.logs.journals(), self.logs.findings()) {
            Some(number) => Err(Fault::Entry(Item::Answers, number)),
            None => Ok(()),
        }
    }

    /// Returns the number of lines of each status. A pending attempt counts as running: nobody has
    /// looked.
    fn count(&self) -> Result<Counts, Fault> {
        let log = RunLog {
            findings: self.logs.findings(),
            journals: self.logs.journals(),
            finals: &[],
        };
        Ok(counts(&standings(self.system.alloc(), &log, self.lines as usize)?))
    }

    /// Returns the attempts that are new or have changed, and counts them as shown.
    fn fresh_rows(&mut self) -> Result<Vec<AttemptRow>, Fault> {
        let alloc = self.system.alloc();
        let mut fresh = Vec::new(alloc);
        let findings = self.logs.findings();
        for (k, journal) in self.logs.journals().iter().enumerate() {
            if let Some(part) = self.parts.get_mut(k + 1) {
                let rows = attempt_rows(alloc, findings, k as u64 + 1, journal)?;
                fresh.extend_from_slice(&changed(alloc, &part.shown, &rows)?)?;
                part.shown = rows;
            }
        }
        Ok(fresh)
    }

    /// Prints a line.
    ///
    /// # Errors
    /// `Write` if the output is closed.
    fn show(&mut self, counts: &Counts, rows: &[AttemptRow]) -> Result<(), Fault> {
        let (round, workers) = match &self.last {
            Some(last) => (last.header.round, last.header.workers),
            None => (0, 0),
        };
        let head = Head {
            time: self.system.now(),
            id: std::str::from_utf8(&self.id).unwrap_or(""),
            round,
            workers,
        };
        let line = watch_line(self.system.alloc(), &head, counts, rows)?;
        print(&mut self.system, &line)
    }
}

impl FollowedLog {
    /// Returns a log of which nothing was read.
    fn new(alloc: Global, item: Item) -> FollowedLog {
        FollowedLog {
            item,
            texts: Vec::new(alloc),
            appends: 0,
            shown: Vec::new(alloc),
        }
    }

    /// Takes the appends that were read last, and returns true if there are any.
    ///
    /// # Errors
    /// `Entry` for the first that can't follow those before it, and `Memory`.
    fn take(&mut self, alloc: Global, logs: &mut ReadLogs) -> Result<bool, Fault> {
        let texts = mem::replace(&mut self.texts, Vec::new(alloc));
        for k in 0..texts.len() {
            let text = &texts[k..k + 1];
            let is_read = match self.item {
                Item::Journal(worker) => logs.read_journal(worker, text)?,
                _ => logs.read_answers(text)?,
            };
            self.appends = self.appends.saturating_add(1);
            if !is_read {
                return Err(Fault::Entry(self.item, self.appends));
            }
        }
        Ok(!texts.is_empty())
    }
}

/// Returns the number of a round, or 0 before the first one.
fn round_of(file: &Option<RoundFile>) -> u64 {
    match file {
        Some(file) => file.header.round,
        None => 0,
    }
}
