//! Lives of three workers over eight lines, in three rounds. Each is killed at some call. The power
//! is cut at one call of a disk, and tears the bytes that were written or cut since the last sync.
//! The tests count the performances, and read the files by eye.
ghost use Rattle.std.specs.Prelude.{⊤};

use amo_driver::{
    Failed, Intent, JobResult as Became, Outside, Past, Reply, Way, ask_pending, work,
};
use amo_journal::{Checksum, Journal, read_log};
use amo_params::Givens;
use amo_run_files::givens_of;
use amo_run_log::{
    Append, Attempt, Entry, Outcome, append_entries, open_lines, pending, read_attempts,
};
use amo_sim_disk::{Call, Disk};
use std::alloc::{AllocError, Global};
use std::test::Fail;
use std::{mem, str};

const WORKERS: u64 = 3;

const LINES: u64 = 8;

/// Numbers as by chance, the same from the same seed.
#[derive(Drop)]
struct Chance {
    state: u64,
}

impl Chance {
    /// One of the numbers 0 to 255.
    fn next(&mut self) -> u64 {
        self.state = self
            .state
            .wrapping_mul(6_364_136_223_846_793_005)
            .wrapping_add(1_442_695_040_888_963_407);
        (self.state >> 33) & 255
    }

    /// Returns true if it is heads.
    fn coin(&mut self) -> bool {
        self.next() < 128
    }
}

/// The fate of a call.
#[derive(Clone, Copy, PartialEq, Eq)]
enum Fate {
    /// The call is made, and the process gets its result.
    Heard,
    /// The call is made, and the process is killed before it gets the result.
    Unheard,
    /// The process is killed before it is made.
    Unmade,
}

impl Fate {
    /// Returns what the process gets of a call that is made.
    fn heard<T: Drop>(self, value: T) -> Result<T, Failed> {
        match self {
            Fate::Heard => Ok(value),
            Fate::Unheard | Fate::Unmade => Err(Failed),
        }
    }
}

/// The journals of all workers, the words of the round, and the true performances.
#[derive(Drop)]
struct Run {
    alloc: Global,
    chance: Chance,
    /// The file of each worker's journal, as it is read.
    files: Vec<Vec<u8>>,
    /// The shared words. The list is empty once the power was cut.
    words: Vec<u64>,
    /// The line of each job of the round.
    lines: Vec<u64>,
    /// Each performance: whose it was, the serial number of its intent, and the line.
    performed: Vec<(u64, u64, u64)>,
    /// The worker that is at work, from 1.
    worker: u64,
    /// How many calls it makes before it is killed.
    calls_left: u64,
    /// How many calls of disks were made.
    disk_calls: u64,
    /// The call of a disk at which the power is cut, once, counted from 0.
    cut_at: u64,
    /// True if an intent is put when it is asked for, as it must be. False if it is put only after
    /// its performance.
    is_prompt: bool,
    /// The intent that is still to be put.
    late: Option<Entry>,
    /// The answer that the next append takes along.
    owed: Option<Entry>,
}

impl Run {
    fn new(alloc: Global, seed: u64, cut_at: u64, is_prompt: bool) -> Result<Run, AllocError> {
        let mut files = Vec::new(alloc);
        for _ in 0..WORKERS {
            files.push(Vec::new(alloc))?;
        }
        Ok(Run {
            alloc,
            chance: Chance { state: seed },
            files,
            words: Vec::new(alloc),
            lines: Vec::new(alloc),
            performed: Vec::new(alloc),
            worker: 1,
            calls_left: 0,
            disk_calls: 0,
            cut_at,
            is_prompt,
            late: None,
            owed: None,
        })
    }

    /// Returns the fate of the next call.
    fn fate(&mut self) -> Fate {
        if self.calls_left > 0 {
            self.calls_left -= 1;
            return Fate::Heard;
        }
        if self.chance.coin() {
            Fate::Unheard
        } else {
            Fate::Unmade
        }
    }

    /// Puts an entry, and before it the outcome that is owed, into the journal of the worker at
    /// work. It opens the journal for that.
    fn put(&mut self, entry: Entry) -> Result<(), Failed> {
        let at = self.worker.saturating_sub(1) as usize;
        if at >= self.files.len() {
            return Err(Failed);
        }
        let failing = self.cut_at.saturating_sub(self.disk_calls) as usize;
        let file = mem::replace(&mut self.files[at], Vec::new(self.alloc));
        let Ok(disk) = Disk::new(self.alloc, &file, Some(failing)) else {
            return Err(Failed);
        };
        let append = match self.owed.take() {
            Some(owed) => Append::Two(owed, entry),
            None => Append::One(entry),
        };
        let mut journal = Journal::new(disk, first());
        let is_put = journal.recover(self.alloc).is_ok()
            && append_entries(&mut journal, self.alloc, append).is_ok();
        let disk = journal.device;
        self.disk_calls = self.disk_calls.saturating_add(disk.calls().len() as u64);
        if is_put {
            self.files[at] = disk.bytes().to_vec(self.alloc).map_err(|_| Failed)?;
            return Ok(());
        }
        self.cut_at = u64::MAX;
        self.words.clear();
        if let Ok(left) = torn(self.alloc, &disk, &mut self.chance) {
            self.files[at] = left;
        }
        Err(Failed)
    }

    /// Puts the intent that is still to be put, if there is one.
    fn put_late(&mut self) -> Result<(), Failed> {
        match self.late.take() {
            Some(intent) => self.put(intent),
            None => Ok(()),
        }
    }

    /// Returns the line of a job, or 0.
    fn line_of(&self, job: u32) -> u64 {
        match self.lines.get(job.saturating_sub(1) as usize) {
            Some(line) => *line,
            None => 0,
        }
    }

    /// Returns true if the intent of this serial number was performed.
    fn was_performed(&self, serial: u64) -> bool {
        self.performed.iter().any(|(worker, one, _)| *worker == self.worker && *one == serial)
    }

    fn way(&mut self) -> Way {
        if self.chance.next() < 16 {
            Way::Leave
        } else {
            Way::Go
        }
    }
}

impl Outside for Run {
    ghost stands = { λ _ _. ⊤ };

    ghost has_done = { λ _ _. ⊤ };

    fn load(&mut self, word: u64) -> Result<u64, Failed> {
        let fate = self.fate();
        if word >= self.words.len() as u64 {
            return Err(Failed);
        }
        fate.heard(self.words[word as usize])
    }

    fn store(&mut self, word: u64, value: u64) -> Result<(), Failed> {
        let fate = self.fate();
        if fate == Fate::Unmade || word >= self.words.len() as u64 {
            return Err(Failed);
        }
        self.words[word as usize] = value;
        fate.heard(())
    }

    fn found(&mut self, _job: u32) -> Result<(), Failed> {
        self.fate().heard(())
    }

    fn intend(&mut self, serial: u64, job: u32) -> Result<(), Failed> {
        let fate = self.fate();
        if fate == Fate::Unmade {
            return Err(Failed);
        }
        let line = self.line_of(job);
        self.put_late()?;
        self.late = Some(Entry::Intent {
            serial,
            line,
            time: 0,
        });
        if self.is_prompt {
            self.put_late()?;
        }
        fate.heard(())
    }

    // About one job in sixteen is taken.
    fn clear(&mut self, _serial: u64, _job: u32) -> Result<bool, Failed> {
        let fate = self.fate();
        let clear = self.chance.next() >= 16;
        fate.heard(clear)
    }

    fn perform(&mut self, serial: u64, job: u32) -> Result<Reply, Failed> {
        let fate = self.fate();
        if fate == Fate::Unmade {
            return Err(Failed);
        }
        let line = self.line_of(job);
        let way = self.way();
        let (is_performed, reply) = match self.chance.next() / 32 {
            0 => (false, Reply::Answered(serial, Became::Unbegun, way)),
            1 => (false, Reply::Answered(serial, Became::Doubt, way)),
            2 => (true, Reply::Answered(serial, Became::Doubt, way)),
            3 => (true, Reply::Running(serial, way)),
            4 => (self.chance.coin(), Reply::Closed),
            _ => (true, Reply::Answered(serial, Became::Done(0), way)),
        };
        if is_performed && self.performed.push((self.worker, serial, line)).is_err() {
            return Err(Failed);
        }
        fate.heard(reply)
    }

    fn note(&mut self, serial: u64, answer: Became) -> Result<(), Failed> {
        let fate = self.fate();
        if fate == Fate::Unmade {
            return Err(Failed);
        }
        self.put_late()?;
        self.owed = Some(answer_entry(serial, answer));
        fate.heard(())
    }
}

impl Past for Run {
    ghost stands = { λ _ _. ⊤ };

    fn was(&mut self, serial: u64, _line: u64) -> Result<Reply, Failed> {
        let fate = self.fate();
        let answer = if self.chance.next() < 64 {
            Became::Doubt
        } else if self.was_performed(serial) {
            Became::Done(0)
        } else {
            Became::Unbegun
        };
        let way = self.way();
        fate.heard(Reply::Answered(serial, answer, way))
    }

    fn note(&mut self, serial: u64, answer: Became) -> Result<(), Failed> {
        let fate = self.fate();
        if fate == Fate::Unmade {
            return Err(Failed);
        }
        self.put(answer_entry(serial, answer))?;
        fate.heard(())
    }
}

/// Returns the entry of an answer.
fn answer_entry(serial: u64, answer: Became) -> Entry {
    let answer = match answer {
        Became::Done(code) => Outcome::Done { code, time: 0 },
        Became::Doubt => Outcome::Doubt { time: 0 },
        Became::Unbegun => Outcome::Unbegun,
        Became::Untouched(code) => Outcome::Untouched { code, time: 0 },
    };
    Entry::Answer { serial, answer }
}

impl Run {
    /// Puts the answer that is owed at the end of a life, alone, unless the process is killed
    /// before.
    fn pay(&mut self) {
        if let Some(answer) = self.owed.take() {
            if self.fate() != Fate::Unmade {
                let _ = self.put(answer);
            }
        }
    }

    /// Begins a round over the lines that are open, with new words.
    fn begin_round(&mut self) -> Result<Givens, Fail> {
        self.lines = open_by(self.alloc, &self.files)?;
        self.words = vec![in self.alloc; 0u64; 40]?;
        let round = givens_of(self.lines.len() as u64, WORKERS, WORKERS);
        Ok(Givens::try_new(round.jobs, round.workers, round.beta)?)
    }

    /// One life of some worker: it asks what became of its pending intents, and works.
    fn live(&mut self, givens: Givens) -> Result<(), Fail> {
        self.late = None;
        self.owed = None;
        self.worker = 1 + self.chance.next() % WORKERS;
        self.calls_left = self.chance.next() / 4;
        let worker = self.worker as u32;
        if worker > givens.workers() || self.words.is_empty() {
            return Ok(());
        }
        let Some(file) = self.files.get((self.worker - 1) as usize) else {
            return Ok(());
        };
        let attempts = attempts_in(self.alloc, file)?;
        let mut intents = Vec::new(self.alloc);
        for (serial, line) in pending(self.alloc, &attempts)? {
            intents.push(Intent { serial, line })?;
        }
        if ask_pending(&intents, self).is_ok() && !self.words.is_empty() {
            let end = work(self.alloc, givens, worker, attempts.len() as u64 + 1, self);
            if end.is_ok() {
                self.pay();
            }
        }
        Ok(())
    }

    /// Returns true if no line was performed twice, and the ledger agrees with the files as the eye
    /// reads them.
    fn is_sound(&self) -> Result<bool, Fail> {
        let mut open = Vec::new(self.alloc);
        for line in 1..=LINES {
            if self
                .performed
                .iter()
                .filter(|(_, _, one)| *one == line)
                .count()
                > 1
            {
                return Ok(false);
            }
            let mut is_open = true;
            for file in &self.files {
                is_open = is_open && is_open_by_eye(self.alloc, file, line)?;
            }
            if is_open {
                open.push(line)?;
            }
        }
        for file in &self.files {
            let attempts = attempts_in(self.alloc, file)?;
            if pending(self.alloc, &attempts)?.len() != pending_by_eye(self.alloc, file)? {
                return Ok(false);
            }
        }
        Ok(open == open_by(self.alloc, &self.files)?)
    }
}

/// Returns the checksum that stands before the first append of each journal.
fn first() -> Checksum {
    Checksum::first(b"run", b"journal")
}

/// Returns the journal that a file holds.
fn attempts_in(alloc: Global, file: &[u8]) -> Result<Vec<Attempt>, Fail> {
    let log = read_log(alloc, &first(), file)?;
    Ok(read_attempts(alloc, LINES, &log.records)?)
}

/// Returns the lines that are open by these files.
fn open_by(alloc: Global, files: &[Vec<u8>]) -> Result<Vec<u64>, Fail> {
    let mut journals = Vec::new(alloc);
    for file in files {
        journals.push(attempts_in(alloc, file)?)?;
    }
    Ok(open_lines(alloc, &[], &journals, LINES as usize)?)
}

/// Returns the entries in a file, as texts without checksums, up to the first gate that is closed.
fn texts_by_eye<'a>(alloc: Global, file: &'a [u8]) -> Result<Vec<&'a str>, Fail> {
    let mut texts = Vec::new(alloc);
    for line in str::from_utf8(file)?.split_inclusive('\n') {
        match line.strip_prefix('+') {
            Some(text) if text.ends_with('\n') => match text.trim_end().rsplit_once(' ') {
                Some((records, _)) => {
                    for text in records.split("; ") {
                        texts.push(text)?;
                    }
                }
                None => break,
            },
            _ => break,
        }
    }
    Ok(texts)
}

/// Returns how many intents in a file have no answer: each answer is of one.
fn pending_by_eye(alloc: Global, file: &[u8]) -> Result<usize, Fail> {
    let texts = texts_by_eye(alloc, file)?;
    let intents = texts
        .iter()
        .filter(|text| text.starts_with("intent "))
        .count();
    Ok((2 * intents).saturating_sub(texts.len()))
}

/// Returns true if each intent of this line in a file was answered as not begun.
fn is_open_by_eye(alloc: Global, file: &[u8], line: u64) -> Result<bool, Fail> {
    let texts = texts_by_eye(alloc, file)?;
    let line = format!(in alloc; "{line}")?;
    for text in &texts {
        let mut words = text.split(' ');
        if words.next() != Some("intent") {
            continue;
        }
        let Some(serial) = words.next() else {
            return Ok(false);
        };
        let opens = format!(in alloc; "unbegun {serial}")?;
        if words.next() == Some(line.as_str()) && !texts.iter().any(|one| *one == opens.as_str()) {
            return Ok(false);
        }
    }
    Ok(true)
}

/// Returns the bytes that a cut of the power leaves of a disk.
fn torn(alloc: Global, disk: &Disk, chance: &mut Chance) -> Result<Vec<u8>, AllocError> {
    let mut came = Vec::new(alloc);
    for call in disk.calls() {
        came.push(came_of(alloc, call, chance)?)?;
    }
    let mut fronts = Vec::new(alloc);
    for bytes in &came {
        fronts.push(bytes.as_slice())?;
    }
    disk.image_after(alloc, disk.calls().len(), &fronts)
}

/// Returns the bytes of a call that came to the disk before a sync: a front of its bytes, and gates
/// in the places of some.
fn came_of(alloc: Global, call: &Call, chance: &mut Chance) -> Result<Vec<u8>, AllocError> {
    let mut came = Vec::new(alloc);
    let bytes = match call {
        Call::Write { bytes, .. } | Call::FailedWrite { bytes, .. } => bytes.as_slice(),
        Call::Cut { .. } | Call::FailedCut { .. } => b"some".as_slice(),
        Call::Read | Call::FailedRead | Call::Sync | Call::FailedSync => b"".as_slice(),
    };
    for byte in bytes {
        match chance.next() / 32 {
            0 => return Ok(came),
            1 => came.push(b'+')?,
            2 => came.push(b'-')?,
            _ => came.push(*byte)?,
        }
    }
    Ok(came)
}

/// Returns a whole run: three rounds of six lives each.
fn three_rounds(alloc: Global, seed: u64, cut_at: u64, is_prompt: bool) -> Result<Run, Fail> {
    let mut run = Run::new(alloc, seed, cut_at, is_prompt)?;
    for _ in 0..3 {
        let givens = run.begin_round()?;
        for _ in 0..6 {
            run.live(givens)?;
        }
    }
    Ok(run)
}

// Each call of a disk in 200 runs is one at which the power is cut, in a run that goes on after it.
#[test]
fn no_line_is_performed_twice_wherever_the_power_is_cut(rt: HostRuntime) -> Result<(), Fail> {
    let mut performed = 0u64;
    for seed in 0..200u64 {
        let whole = three_rounds(rt.alloc(), seed, u64::MAX, true)?;
        assert!(rt; whole.is_sound()?, "run {seed}");
        performed = performed.saturating_add(whole.performed.len() as u64);
        for cut_at in 0..whole.disk_calls {
            let cut = three_rounds(rt.alloc(), seed, cut_at, true)?;
            assert!(rt; cut.is_sound()?, "run {seed}, cut at {cut_at}");
        }
    }
    assert!(rt; performed > 400, "{performed} lines were performed");
    Ok(())
}

// The control of the audit: if an intent is put only after its performance, lines are performed
// twice.
#[test]
fn late_intents_let_lines_be_performed_twice(rt: HostRuntime) -> Result<(), Fail> {
    let mut unsound = 0u64;
    for seed in 0..200u64 {
        if !three_rounds(rt.alloc(), seed, u64::MAX, false)?.is_sound()? {
            unsound = unsound.saturating_add(1);
        }
    }
    assert!(rt; unsound > 20, "{unsound} runs");
    Ok(())
}
