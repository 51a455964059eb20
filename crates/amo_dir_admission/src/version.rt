//! The version that has written a folder's record.
ghost use Rattle.std.specs.Prelude.{◌≡◌, option_map};
ghost use Rattle.amo_dir_admission.specs.Versions.{begins_with, is_lost, lost_id, version_of};

use crate::halt::Refusal;

/// How the record of a run of this version begins.
const THIS: &[u8] = b"amo-run 2\n";

/// How the record of a run of version 0.1.0 begins.
const OLD: &[u8] = b"amo-run 1\n";

/// How the record of a run of any version begins.
const ANY: &[u8] = b"amo-run ";

/// The version of a folder.
#[derive(Clone, Copy, Debug, PartialEq, Eq)]
pub(crate) enum Version {
    /// It has no record, or one of this version.
    Fits,
    /// It has a record of version 0.1.0.
    Old,
    /// It has a record of another version.
    Other,
}

/// Returns the version by a record, if there is one.
pub(crate) fn version_of(record_bytes: Option<Vec<u8>>) -> Version
    ensures { result ≡ version_of (option_map (λ bytes. bytes.items) record_bytes) }
{
    let Some(bytes) = record_bytes else {
        return Version::Fits;
    };
    if begins_with(&bytes, THIS) || !begins_with(&bytes, ANY) {
        Version::Fits
    } else if begins_with(&bytes, OLD) {
        Version::Old
    } else {
        Version::Other
    }
}

/// Returns why a folder that has no id and this record is refused.
pub(crate) fn lost_id(record_bytes: &[u8]) -> Refusal
    ensures { result ≡ lost_id record_bytes.now }
{
    if begins_with(record_bytes, THIS) {
        Refusal::LostId
    } else {
        Refusal::OldRun
    }
}

/// Returns true if a folder without an id has lost it, by its record if it has one.
pub(crate) fn is_lost(record_bytes: Option<Vec<u8>>) -> bool
    ensures { result ≡ is_lost (option_map (λ bytes. bytes.items) record_bytes) }
{
    match record_bytes {
        Some(bytes) => begins_with(&bytes, THIS),
        None => false,
    }
}

/// Returns true if the bytes begin with these.
fn begins_with(bytes: &[u8], front: &[u8]) -> bool
    ensures { result ≡ begins_with bytes.now front.now }
{
    bytes.starts_with(front)
}
