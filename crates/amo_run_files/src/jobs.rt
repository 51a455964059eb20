//! The jobs that a run knows: the lines of a jobs' file.
ghost use Rattle.std.specs.Prelude.{◌≡◌, ◌++◌, ◌<◌, ℕ, List, false, length, option_map, IfOk, IfErr, OnOk, All, AllPairs, ◌≢◌, IsTrue};
ghost use Rattle.amo_run_log.specs.Texts.{ended};
ghost use Rattle.amo_run_files.specs.Jobs.{line_of, AreJobs};
ghost use Rattle.amo_run_files.specs.Lines.{lines_in, remainder_in};
ghost use Rattle.amo_run_files.specs.Refusals.{IsTaken, IsRefused};
ghost use Rattle.amo_run_files.specs.Again.{is_all_of, has_no_line};

use crate::fault::JobsFault;
use crate::known::check;
use crate::lines::{ends_in, last_end, line_at};
use std::alloc::Global;
use std::marker::Model;

/// The jobs that a run knows, a line each. A contract sees the list of the lines, without their
/// ends.
#[derive(Debug, Drop)]
pub struct Jobs {
    /// The lines, each with its line feed.
    bytes: Vec<u8>,
    /// The end of each line, after its line feed.
    ends: Vec<usize>,
}

impl Model for Jobs {
    ghost use Rattle.std.specs.Prelude.{ℕ, List};
    ghost use Rattle.amo_run_files.specs.Lines.{lines_in};
    ghost use Rattle.amo_run_files.specs.Jobs.{AreKept};

    ghost Value = { List (List ℕ) };

    ghost view = { λ a. lines_in a.bytes.items };

    ghost invariant = { λ a. AreKept a.bytes.items a.ends.items };
}

impl Jobs {
    /// Returns the jobs of a jobs' file. If `cut` is true, the bytes after its last line feed are
    /// left out. If it is false, a file with such bytes is refused.
    ///
    /// # Errors
    ///
    /// `Refused` with the number of the first refused line, and the reason. `Memory` if there was
    /// no memory.
    pub fn read(alloc: Global, mut bytes: Vec<u8>, cut: bool) -> Result<Jobs, JobsFault>
        // The file is taken exactly if no line is refused. Otherwise the fault names the first
        // refused line.
        ensures taken { OnOk result (IsTaken bytes.items cut) }
        ensures refused { IfErr result (IsRefused bytes.items cut) }

        // The jobs are all its lines. With their ends they are the file, without the bytes that
        // were left out.
        ensures lines { IfOk result (λ jobs. jobs ≡ lines_in bytes.items) }
        ensures front { IfOk result (λ jobs. ended jobs ++ remainder_in bytes.items ≡ bytes.items) }
        ensures whole { cut ≡ false → IfOk result (λ jobs. ended jobs ≡ bytes.items) }

        // No two of them are equal, and none is empty.
        ensures distinct { IfOk result (AllPairs (λ one other. one ≢ other)) }
        ensures none_empty { IfOk result (All (λ line. 0 < length line)) }
    {
        let ends = ends_in(alloc, &bytes)?;
        check(alloc, &bytes, &ends, cut)?;
        bytes.truncate(last_end(&ends));
        Ok(Jobs { bytes, ends })
    }

    /// Returns true if a file with these bytes has just these lines. If `cut` is true, more may
    /// follow its last line feed. No line is checked: the bytes are compared.
    pub(crate) fn are_all_of(&self, bytes: &[u8], cut: bool) -> bool
        ensures exact { result ≡ is_all_of (ended self.now) bytes.now cut }
        ensures taken { IsTrue result → IsTaken bytes.now cut }
        ensures lines { IsTrue result → lines_in bytes.now ≡ self.now }
        ensures whole { IsTrue result → cut ≡ false → ended self.now ≡ bytes.now }
    {
        is_all_of(&self.bytes, bytes, cut)
    }

    /// Returns how many there are.
    pub fn count(&self) -> u64
        ensures count { result ≡ length self.now }
        // The facts that hold of all jobs, wherever they were read.
        ensures jobs { AreJobs self.now }
    {
        self.ends.len() as u64
    }

    /// Returns the line of this number, from 1, without its end.
    pub fn line(&self, number: u64) -> Option<&[u8]>
        ensures { option_map (λ line. line.now) result ≡ line_of self.now number }
    {
        if number == 0 || number > self.ends.len() as u64 {
            return None;
        }
        Some(line_at(&self.bytes, &self.ends, (number - 1) as usize))
    }

    /// Returns the lines, each with its line feed.
    pub fn bytes(&self) -> &[u8]
        ensures { result.now ≡ ended self.now }
    {
        &self.bytes
    }
}

/// Returns true if a file is these lines with their ends, and nothing follows but bytes that are
/// cut off.
fn is_all_of(lines: &[u8], file: &[u8], cut: bool) -> bool
    ensures { result ≡ is_all_of lines.now file.now cut }
{
    if lines.len() > file.len() {
        return false;
    }
    let (front, rest) = file.split_at(lines.len());
    front == lines && has_no_line(rest, cut)
}

/// Returns true if nothing stands there. If it is cut off, nothing with an end may stand there.
fn has_no_line(rest: &[u8], cut: bool) -> bool
    ensures { result ≡ has_no_line rest.now cut }
{
    rest.is_empty() || (cut && !rest.contains(&b'\n'))
}
