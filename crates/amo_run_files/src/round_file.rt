//! The file `record` of a round: its header, how much of each file was on the disk when the round
//! began, and a seal.
ghost use Rattle.std.specs.Prelude.{◌≡◌, map, option_map, IfOk, IfSome, IfNone};
ghost use Rattle.amo_run_log.specs.Numbers.{read_all};
ghost use Rattle.amo_run_files.specs.Extents.{extent_said, extent_in};
ghost use Rattle.amo_run_files.specs.RoundFiles.{RoundFileView, IsRoundFile, file_said, text_of_round_file, seal_line, body_in, round_of, round_file_in};

use crate::extent::Extent;
use crate::header::{RoundHeader, record_of, texts_of};
use amo_journal::Checksum;
use std::alloc::{AllocError, Global};

/// How many extents a file has: of the jobs, the answers, and 16 journals.
pub(crate) const EXTENTS: usize = 18;

/// How many bytes the seal has, with its line feed.
pub(crate) const SEAL_LEN: usize = 9;

/// The content of the file `record` of a round.
#[derive(Debug, PartialEq, Eq, Drop)]
pub struct RoundFile {
    /// The round, its givens and its jobs.
    pub header: RoundHeader,
    /// How much of each file was on the disk when the round began.
    pub extents: Vec<Extent>,
}

impl RoundFile {
    /// Returns the text of the file. Its last line is the checksum that follows `first` at an
    /// append with the lines before it.
    ///
    /// # Errors
    ///
    /// `AllocError` if there was no memory.
    pub fn print(&self, alloc: Global, first: &Checksum) -> Result<Vec<u8>, AllocError>
        ensures { IfOk result (λ text. text.items ≡ text_of_round_file first.now.digits (file_said self.now)) }
    {
        let mut text = self.header.print(alloc)?;
        for extent in &self.extents {
            extent.push_to(alloc, &mut text)?;
        }
        let seal = seal_line(alloc, first, &text)?;
        text.extend_from_slice(&seal)?;
        Ok(text)
    }

    /// Returns the content of a file, if it has a record, an extent of each file, and the seal of
    /// these.
    ///
    /// # Errors
    ///
    /// `AllocError` if there was no memory.
    pub fn read(
        alloc: Global,
        first: &Checksum,
        bytes: &[u8],
    ) -> Result<Option<RoundFile>, AllocError>
        ensures exact { IfOk result (λ found. option_map file_said found ≡ round_file_in first.now.digits bytes.now) }
        // Each file that is read was printed so.
        ensures found { IfOk result (λ found. IfSome found (λ f. IsRoundFile (file_said f) × (text_of_round_file first.now.digits (file_said f) ≡ bytes.now))) }
        // Each file that was printed is read.
        ensures none { IfOk result (λ found. IfNone found ((f : RoundFileView) → IsRoundFile f → text_of_round_file first.now.digits f ≡ bytes.now → ⊥)) }
    {
        read_file(alloc, first, bytes)
    }
}

fn read_file(alloc: Global, first: &Checksum, bytes: &[u8]) -> Result<Option<RoundFile>, AllocError>
    ensures { IfOk result (λ found. option_map file_said found ≡ round_file_in first.now.digits bytes.now) }
{
    let Some(body) = body_of(alloc, first, bytes)? else {
        return Ok(None);
    };
    let Some(texts) = texts_of(alloc, body)? else {
        return Ok(None);
    };
    round_of(alloc, &texts)
}

/// Returns what stands before the seal, if the seal is that of it.
fn body_of<'a>(
    alloc: Global,
    first: &Checksum,
    bytes: &'a [u8],
) -> Result<Option<&'a [u8]>, AllocError>
    ensures { IfOk result (λ found. option_map (λ body. body.now) found ≡ body_in first.now.digits bytes.now) }
{
    let (body, end) = bytes.split_at(bytes.len().saturating_sub(SEAL_LEN));
    let seal = seal_line(alloc, first, body)?;
    if end == seal.as_slice() {
        Ok(Some(body))
    } else {
        Ok(None)
    }
}

/// Returns the line that seals this text.
fn seal_line(alloc: Global, first: &Checksum, body: &[u8]) -> Result<Vec<u8>, AllocError>
    ensures { IfOk result (λ line. line.items ≡ seal_line first.now.digits body.now) }
{
    let seal = first.next(body);
    let mut line = seal.digits().to_vec(alloc)?;
    line.push(b'\n')?;
    Ok(line)
}

/// Returns the content of these texts, the last `EXTENTS` of which are extents.
fn round_of(alloc: Global, texts: &[Vec<u8>]) -> Result<Option<RoundFile>, AllocError>
    ensures { IfOk result (λ found. option_map file_said found ≡ round_of (map (λ text. text.items) texts.now)) }
{
    let (front, back) = texts.split_at(texts.len().saturating_sub(EXTENTS));
    let Some(header) = record_of(alloc, front)? else {
        return Ok(None);
    };
    let Some(extents) = extents_of(alloc, back)? else {
        return Ok(None);
    };
    Ok(Some(RoundFile { header, extents }))
}

/// Returns the extents that the texts say, if each says one.
fn extents_of(alloc: Global, texts: &[Vec<u8>]) -> Result<Option<Vec<Extent>>, AllocError>
    ensures { IfOk result (λ found. option_map (λ extents. map extent_said extents.items) found ≡ read_all extent_in (map (λ text. text.items) texts.now)) }
{
    let mut extents = Vec::new(alloc);
    for text in texts {
        let Some(extent) = Extent::read(alloc, text)? else {
            return Ok(None);
        };
        extents.push(extent)?;
    }
    Ok(Some(extents))
}
