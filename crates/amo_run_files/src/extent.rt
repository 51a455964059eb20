//! Extents: how much of a file was on the disk when a round began.
ghost use Rattle.std.specs.Prelude.{◌≡◌, ◌++◌, ◌∷◌, [], ◌<◌, ◌==◌, length, position, IfOk, IfSome, OnOk, option_map, codes, ℕ, List};
ghost use Rattle.sha2.specs.Hashers.{Holds256};
ghost use Rattle.amo_run_files.specs.Extents.{extent_said, text_of_extent, words_in, extent_in, digest_of, extent_of_jobs, is_front};
ghost use Rattle.amo_run_files.specs.Counted.{counted, extent_of_count, count_in};

use crate::count::Count;
use crate::header::push;
use amo_decimal::number_of_bytes;
use amo_journal::Checksum;
use sha2::{Digest, Sha256};
use std::alloc::{AllocError, Global};

/// How much of a file was on the disk when a round began, and a digest of it.
#[derive(Debug, PartialEq, Eq, Drop)]
pub struct Extent {
    /// The file's name, without a blank.
    pub name: Vec<u8>,
    /// The file's bytes, or the appends of a journal.
    pub len: u64,
    /// The digest of so much of the file, in one line.
    pub digest: Vec<u8>,
}

impl Extent {
    /// Returns the extent of these jobs: their length in bytes, and all digits of their SHA-256.
    ///
    /// # Errors
    ///
    /// `AllocError` if there was no memory.
    pub fn of_jobs(alloc: Global, bytes: &[u8]) -> Result<Extent, AllocError>
        ensures { IfOk result (λ extent. extent_said extent ≡ extent_of_jobs bytes.now) }
    {
        Extent::with_digest(alloc, bytes.len() as u64, &jobs_digest(bytes))
    }

    /// Returns the extent of jobs with so many bytes and this digest.
    pub(crate) fn with_digest(
        alloc: Global,
        len: u64,
        digest: &[u8; 64],
    ) -> Result<Extent, AllocError>
        ensures { IfOk result (λ extent. extent_said extent ≡ record { name = codes "jobs"; len = len; digest = digest.now }) }
    {
        let name = b"jobs".to_vec(alloc)?;
        let digest = digest.to_vec(alloc)?;
        Ok(Extent { name, len, digest })
    }

    /// Returns the extent of this file that says a count.
    ///
    /// # Errors
    ///
    /// `AllocError` if there was no memory.
    pub fn of_count(alloc: Global, name: &[u8], count: &Count) -> Result<Extent, AllocError>
        ensures { IfOk result (λ extent. extent_said extent ≡ extent_of_count name.now (counted count.now)) }
    {
        let name = name.to_vec(alloc)?;
        let digest = count.checksum.digits().to_vec(alloc)?;
        Ok(Extent {
            name,
            len: count.appends,
            digest,
        })
    }

    /// Returns the count that the extent says, if its digest is a checksum.
    pub fn count(&self) -> Option<Count>
        ensures { option_map counted result ≡ count_in (extent_said self.now) }
    {
        let checksum = Checksum::read(&self.digest)?;
        Some(Count {
            appends: self.len,
            checksum,
        })
    }

    /// Returns true if the bytes begin with as many bytes as the extent has, and these have its
    /// digest.
    pub fn is_front_of(&self, bytes: &[u8]) -> bool
        ensures { result ≡ is_front (extent_said self.now) bytes.now }
    {
        if self.len > bytes.len() as u64 {
            return false;
        }
        let digest = jobs_digest(&bytes[..self.len as usize]);
        &digest[..] == self.digest.as_slice()
    }

    /// Adds the line that says the extent, and its end.
    pub(crate) fn push_to(&self, alloc: Global, text: &mut Vec<u8>) -> Result<(), AllocError>
        ensures { OnOk result (text.new.items ≡ text.old.items ++ (text_of_extent (extent_said self.now) ++ 10 ∷ [])) }
    {
        let len = format!(in alloc; " {} ", self.len)?;
        text.extend_from_slice(&self.name)?;
        text.extend_from_slice(len.as_bytes())?;
        push(text, &self.digest)
    }

    /// Returns the extent that a text says, if it says one.
    pub(crate) fn read(alloc: Global, text: &[u8]) -> Result<Option<Extent>, AllocError>
        ensures { IfOk result (λ found. option_map extent_said found ≡ extent_in text.now) }
    {
        let Some((name, rest)) = word_and_rest(text) else {
            return Ok(None);
        };
        let Some((len, digest)) = word_and_rest(rest) else {
            return Ok(None);
        };
        let Some(len) = number_of_bytes(len) else {
            return Ok(None);
        };
        let name = name.to_vec(alloc)?;
        let digest = digest.to_vec(alloc)?;
        Ok(Some(Extent { name, len, digest }))
    }
}

/// Returns the hex digits of the SHA-256 of the jobs, in lower case.
pub fn jobs_digest(bytes: &[u8]) -> [u8; 64]
    ensures { result ≡ digest_of bytes.now }
{
    let mut hasher = Sha256::new();
    hasher.update(bytes);
    digits_of(hasher)
}

/// Returns the hex digits of the hasher's SHA-256, in lower case.
pub(crate) fn digits_of(hasher: Sha256) -> [u8; 64]
    ensures { (m : List ℕ) → Holds256 hasher m → result ≡ digest_of m }
{
    let digest = hasher.finalize();
    let mut digits = [0; 64];
    match hex::encode_to_slice(&digest[..], &mut digits) {
        Ok(()) | Err(_) => {}
    }
    digits
}

/// Returns what stands before the first blank, and what stands after it.
#[tactic(auto, using(crate::proofs::ExtentTexts::found, crate::proofs::ExtentTexts::missed))]
fn word_and_rest(text: &[u8]) -> Option<(&[u8], &[u8])>
    ensures { option_map (λ parts. (parts.0.now, parts.1.now)) result ≡ words_in text.now }
{
    let Some(at) = place_of_blank(text) else {
        return None;
    };
    Some((&text[..at], &text[at + 1..]))
}

/// Returns the index of the first blank.
fn place_of_blank(text: &[u8]) -> Option<usize>
    ensures place { result ≡ position (λ b. b == 32) text.now }
    ensures within { IfSome result (λ at. at < length text.now) }
{
    text.iter().position(|b| *b == b' ')
}
