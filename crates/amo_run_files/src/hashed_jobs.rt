//! Jobs with a hasher of SHA-256 that goes on as they grow.
ghost use Rattle.std.specs.Prelude.{◌≡◌, ◌≤◌, List, ℕ, true, false, length, take, IfErr, IfOk, OnErr, OnOk};
ghost use Rattle.sha2.specs.Hashers.{Holds256};
ghost use Rattle.amo_run_log.specs.Texts.{ended};
ghost use Rattle.amo_run_files.specs.Extents.{extent_said, digest_of, extent_of_jobs, is_front};
ghost use Rattle.amo_run_files.specs.Lines.{lines_in};
ghost use Rattle.amo_run_files.specs.Refusals.{IsTaken, IsRefused};

use crate::extent::{Extent, digits_of, jobs_digest};
use crate::fault::JobsFault;
use crate::jobs::Jobs;
use sha2::{Digest, Sha256};
use std::alloc::{AllocError, Global};
use std::marker::Model;

/// The jobs that a process knows, of which it doesn't check or hash a line again that it has
/// checked or hashed before. A contract sees the list of the lines, without their ends.
#[derive(Drop)]
pub struct HashedJobs {
    jobs: Jobs,
    /// How many bytes of the jobs the hasher holds.
    hashed: usize,
    hasher: Sha256,
}

impl Model for HashedJobs {
    ghost use Rattle.std.specs.Prelude.{◌≤◌, ℕ, List, length, take};
    ghost use Rattle.sha2.specs.Hashers.{Holds256};
    ghost use Rattle.amo_run_log.specs.Texts.{ended};

    ghost Value = { List (List ℕ) };

    ghost view = { λ a. a.jobs };

    ghost invariant = { λ a. (a.hashed ≤ length (ended a.jobs)) × Holds256 a.hasher (take a.hashed (ended a.jobs)) };
}

impl HashedJobs {
    /// Returns these jobs, none of which is hashed yet.
    pub fn new(jobs: Jobs) -> HashedJobs
        ensures { result ≡ jobs }
    {
        HashedJobs {
            jobs,
            hashed: 0,
            hasher: Sha256::new(),
        }
    }

    /// Returns the jobs.
    pub fn jobs(&self) -> &Jobs
        ensures { result.now ≡ self.now }
    {
        &self.jobs
    }

    /// Takes the jobs of a jobs' file as [`Jobs::read`] does, in place of those that it had. It
    /// checks lines only if the file has others than those. It hashes lines again only if the file
    /// doesn't begin with the bytes that it has hashed.
    ///
    /// # Errors
    ///
    /// The errors of [`Jobs::read`]. The jobs stay as they were.
    pub fn read_again(&mut self, alloc: Global, bytes: Vec<u8>, cut: bool) -> Result<(), JobsFault>
        // The file is taken exactly if no line is refused. The fault names the first refused line.
        ensures taken { OnOk result (IsTaken bytes.items cut) }
        ensures refused { IfErr result (IsRefused bytes.items cut) }

        // The jobs are all its lines. If nothing is cut off, with their ends they are the file.
        ensures lines { OnOk result (self.new ≡ lines_in bytes.items) }
        ensures whole { cut ≡ false → OnOk result (ended self.new ≡ bytes.items) }
        ensures same { OnErr result (self.new ≡ self.old) }
    {
        if self.jobs.are_all_of(&bytes, cut) {
            return Ok(());
        }
        let jobs = Jobs::read(alloc, bytes, cut)?;
        if !begins_with(jobs.bytes(), &self.jobs.bytes()[..self.hashed]) {
            self.hashed = 0;
            self.hasher = Sha256::new();
        }
        self.jobs = jobs;
        Ok(())
    }

    /// Returns the extent of these jobs. Bytes that were hashed before aren't hashed again.
    ///
    /// # Errors
    /// `AllocError` if there was no memory.
    pub fn extent(&mut self, alloc: Global) -> Result<Extent, AllocError>
        ensures extent { IfOk result (λ extent. extent_said extent ≡ extent_of_jobs (ended self.old)) }
        ensures same { self.new ≡ self.old }
    {
        let len = self.jobs.bytes().len();
        let digest = self.digest_of_front(len)?;
        Extent::with_digest(alloc, len as u64, &digest)
    }

    /// Returns true if the jobs begin with as many bytes as the extent has, and these have its
    /// digest. Bytes that were hashed before aren't hashed again, unless the extent has fewer.
    ///
    /// # Errors
    ///
    /// `AllocError` if there was no memory.
    pub fn begin_with(&mut self, extent: &Extent) -> Result<bool, AllocError>
        ensures exact { IfOk result (λ begin. begin ≡ is_front (extent_said extent.now) (ended self.old)) }
        ensures same { self.new ≡ self.old }
    {
        if extent.len > self.jobs.bytes().len() as u64 {
            return Ok(false);
        }
        let digest = self.digest_of_front(extent.len as usize)?;
        Ok(&digest[..] == extent.digest.as_slice())
    }

    /// Returns the digits of the SHA-256 of so many bytes of the jobs. The hasher goes on to there,
    /// unless it holds more already.
    fn digest_of_front(&mut self, len: usize) -> Result<[u8; 64], AllocError>
        requires { len ≤ length (ended self.old) }
        ensures digest { IfOk result (λ digits. digits ≡ digest_of (take len (ended self.old))) }
        ensures same { self.new ≡ self.old }
    {
        if len < self.hashed {
            return Ok(jobs_digest(&self.jobs.bytes()[..len]));
        }
        self.hasher.update(&self.jobs.bytes()[self.hashed..len]);
        self.hashed = len;
        Ok(digits_of(self.hasher.clone()?))
    }
}

/// Returns true if the bytes begin with this front.
fn begins_with(bytes: &[u8], front: &[u8]) -> bool
    ensures bound { result ≡ true → length front.now ≤ length bytes.now }
    ensures front { result ≡ true → take (length front.now) bytes.now ≡ front.now }
{
    bytes.len() >= front.len() && &bytes[..front.len()] == front
}
