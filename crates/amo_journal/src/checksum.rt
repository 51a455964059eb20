//! Checksums that chain the appends of a journal.
ghost use Rattle.std.specs.Prelude.{◌≡◌, ◌∷◌, ◌++◌, take, option_map};
ghost use Rattle.hex.specs.Hex.{encode_lower};
ghost use Rattle.amo_journal.specs.Appends.{checksum_of, checksum_in, first_checksum, next_checksum};

use sha2::{Digest, Sha256};

/// The checksum of an append: the first 8 hex digits of a SHA-256, in lower case.
#[derive(Clone, Copy, Debug, PartialEq, Eq)]
pub struct Checksum {
    digits: [u8; 8],
}

impl Checksum {
    /// Returns the checksum that stands before the first append of a journal: that of the run's id,
    /// a blank and the file's name.
    pub fn first(id: &[u8], name: &[u8]) -> Self
        ensures { result.digits ≡ first_checksum id.now name.now }
    {
        let mut hasher = Sha256::new();
        hasher.update(id);
        hasher.update(b" ");
        hasher.update(name);
        Checksum {
            digits: first_digits(hasher.finalize()),
        }
    }

    /// Returns the checksum of an append with these records after one with this checksum.
    pub fn next(&self, records: &[u8]) -> Self
        ensures { result.digits ≡ next_checksum self.now.digits records.now }
    {
        let mut hasher = Sha256::new();
        hasher.update(&self.digits[..]);
        hasher.update(records);
        Checksum {
            digits: first_digits(hasher.finalize()),
        }
    }

    /// Returns the checksum that has these digits, if they are 8 bytes.
    pub fn read(digits: &[u8]) -> Option<Self>
        ensures { option_map (λ checksum. checksum.digits) result ≡ checksum_in digits.now }
    {
        let digits = <[u8; 8]>::try_from(digits).ok()?;
        Some(Checksum { digits })
    }

    /// Returns the 8 digits, as bytes.
    pub fn digits(&self) -> &[u8]
        ensures { result.now ≡ self.now.digits }
    {
        &self.digits
    }
}

/// Returns the first 8 hex digits of a digest.
fn first_digits(digest: [u8; 32]) -> [u8; 8]
    ensures { result ≡ take 8 (encode_lower digest) }
{
    let mut digits = [0; 64];
    match hex::encode_to_slice(&digest[..], &mut digits) {
        Ok(()) | Err(_) => {}
    }
    [
        digits[0], digits[1], digits[2], digits[3], digits[4], digits[5], digits[6], digits[7],
    ]
}
