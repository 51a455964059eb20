//! The text of a run's id.
ghost use Rattle.std.specs.Prelude.{◌≡◌};
ghost use Rattle.amo_run_faults.specs.Id.{is_hex, is_id};

/// Returns true if this is the text of an id: 32 hexadecimal digits, no letter a capital.
pub fn is_id(text: &[u8]) -> bool
    ensures { result ≡ is_id text.now }
{
    for (i, byte) in text.iter().enumerate() {
        if !is_hex(*byte) {
            return false;
        }
    }
    text.len() == 32
}

fn is_hex(byte: u8) -> bool
    ensures { result ≡ is_hex byte }
{
    (b'0' <= byte && byte <= b'9') || (b'a' <= byte && byte <= b'f')
}
