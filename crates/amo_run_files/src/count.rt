//! The count of a journal's appends when a round begins.
ghost use Rattle.std.specs.Prelude.{◌≡◌, ◌≤◌, length};
ghost use Rattle.amo_journal.specs.Logs.{checksums_of};
ghost use Rattle.amo_run_files.specs.Counted.{counted, checksum_at, count_of, is_kept};

use amo_journal::Checksum;

/// How many appends of a journal no crash takes away, and the checksum after them.
#[derive(Clone, Copy, Debug, PartialEq, Eq)]
pub struct Count {
    /// The number of appends.
    pub appends: u64,
    /// The checksum after them.
    pub checksum: Checksum,
}

impl Count {
    /// Returns the count of a journal with these checksums: all its appends but the last, which a
    /// crash may still take away.
    pub fn of(first: Checksum, checksums: &[Checksum]) -> Count
        ensures { counted result ≡ count_of first.digits (checksums_of checksums.now) }
    {
        let appends = checksums.len().saturating_sub(1);
        Count {
            appends: appends as u64,
            checksum: checksum_at(first, checksums, appends),
        }
    }

    /// Returns true if a journal with these checksums has at least so many appends, and has this
    /// checksum after them.
    pub fn is_kept_by(&self, first: Checksum, checksums: &[Checksum]) -> bool
        ensures { result ≡ is_kept (counted self.now) first.digits (checksums_of checksums.now) }
    {
        if self.appends > checksums.len() as u64 {
            return false;
        }
        let found = checksum_at(first, checksums, self.appends as usize);
        found.digits() == self.checksum.digits()
    }
}

/// Returns the checksum after so many appends.
fn checksum_at(first: Checksum, checksums: &[Checksum], appends: usize) -> Checksum
    requires { appends ≤ length checksums.now }
    ensures { result.digits ≡ checksum_at first.digits (checksums_of checksums.now) appends }
{
    if appends == 0 {
        first
    } else {
        checksums[appends - 1]
    }
}
