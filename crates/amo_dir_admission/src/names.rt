//! The names of a run's files.
ghost use Rattle.std.specs.Prelude.{◌≡◌, option_map};
ghost use Rattle.amo_dir_admission.specs.Names.{behind, behind_digits, first_refused, fits, is_beside, is_digit, is_first, is_high_journal, is_low_journal, is_numbered, is_plain, is_refused, kind_of};

/// The kind of a name in a folder.
#[derive(Clone, Copy, PartialEq, Eq)]
pub(crate) enum Kind {
    /// The user's, or `door.X.new`, which a door that was cut off leaves.
    Free,
    /// A file that a door makes before it makes the id.
    First,
    /// Any other file that amo makes.
    Later,
}

/// A file in a folder.
#[derive(Debug, Drop)]
pub struct FolderFile {
    pub name: String,
    /// How many bytes it has, if it is a plain file whose name is one of the first files. Else it
    /// is `None`.
    pub len: Option<u64>,
}

/// Returns the kind of a name in a folder.
fn kind_of(name: &[u8]) -> Kind
    ensures { result ≡ kind_of name.now }
{
    if is_first(name) {
        Kind::First
    } else if is_plain(name) || is_beside(name) || is_numbered(name) {
        Kind::Later
    } else {
        Kind::Free
    }
}

/// Returns true if a door makes a file of this name before it makes the id.
pub fn is_first(name: &[u8]) -> bool
    ensures { result ≡ is_first name.now }
{
    name == b"lock.round".as_slice()
        || name == b"answers".as_slice()
        || is_low_journal(name)
        || is_high_journal(name)
}

/// Returns true if this is the name of the journal of a worker, 1 to 8.
fn is_low_journal(name: &[u8]) -> bool
    ensures { result ≡ is_low_journal name.now }
{
    name == b"journal.1".as_slice()
        || name == b"journal.2".as_slice()
        || name == b"journal.3".as_slice()
        || name == b"journal.4".as_slice()
        || name == b"journal.5".as_slice()
        || name == b"journal.6".as_slice()
        || name == b"journal.7".as_slice()
        || name == b"journal.8".as_slice()
}

/// Returns true if this is the name of the journal of a worker, 9 to 16.
fn is_high_journal(name: &[u8]) -> bool
    ensures { result ≡ is_high_journal name.now }
{
    name == b"journal.9".as_slice()
        || name == b"journal.10".as_slice()
        || name == b"journal.11".as_slice()
        || name == b"journal.12".as_slice()
        || name == b"journal.13".as_slice()
        || name == b"journal.14".as_slice()
        || name == b"journal.15".as_slice()
        || name == b"journal.16".as_slice()
}

/// Returns true if this is another name that amo gives, without a number.
fn is_plain(name: &[u8]) -> bool
    ensures { result ≡ is_plain name.now }
{
    name == b"id".as_slice()
        || name == b"forgotten".as_slice()
        || name == b"record".as_slice()
        || name == b"jobs".as_slice()
        || name == b"words".as_slice()
        || name == b"command".as_slice()
        || name == b"crew".as_slice()
}

/// Returns true if this is the name of a file that replaces another, or is locked.
fn is_beside(name: &[u8]) -> bool
    ensures { result ≡ is_beside name.now }
{
    name == b"shared".as_slice()
        || name == b"lock".as_slice()
        || name == b"record.new".as_slice()
        || name == b"jobs.new".as_slice()
        || name == b"words.new".as_slice()
        || name == b"command.new".as_slice()
}

/// Returns true if amo gives a file this name with one number or two.
fn is_numbered(name: &[u8]) -> bool
    ensures { result ≡ is_numbered name.now }
{
    fits(b"journal.#", name)
        || fits(b"runner.#", name)
        || fits(b"pace.#", name)
        || fits(b"command.#.#", name)
        || fits(b"out.#.#", name)
        || fits(b"err.#.#", name)
        || fits(b"chunk.#", name)
        || fits(b"chunk.#.new", name)
}

/// Returns true if the pattern has this name; `#` stands for one digit or more.
fn fits(pattern: &[u8], name: &[u8]) -> bool
    ensures { result ≡ fits pattern.now name.now }
{
    let mut rest = name;
    for (i, byte) in pattern.iter().enumerate() {
        let Some(next) = behind(*byte, rest) else {
            return false;
        };
        rest = next;
    }
    rest.is_empty()
}

/// Returns the bytes after one byte of a pattern.
fn behind(byte: u8, name: &[u8]) -> Option<&[u8]>
    ensures { option_map (λ rest. rest.now) result ≡ behind byte name.now }
{
    let [first, rest @ ..] = name else {
        return None;
    };
    if byte == b'#' {
        if is_digit(*first) {
            Some(behind_digits(rest))
        } else {
            None
        }
    } else if byte == *first {
        Some(rest)
    } else {
        None
    }
}

fn is_digit(byte: u8) -> bool
    ensures { result ≡ is_digit byte }
{
    b'0' <= byte && byte <= b'9'
}

/// Returns the bytes after the digits at the front.
fn behind_digits(name: &[u8]) -> &[u8]
    ensures { result.now ≡ behind_digits name.now }
{
    for (i, byte) in name.iter().enumerate() {
        if !is_digit(*byte) {
            return &name[i..];
        }
    }
    &[]
}

/// Returns the first file by which a folder can't be that of a new run. A door makes such a file
/// later than the others or never, or it is an earlier one that has more than a byte.
pub(crate) fn first_refused(found: &[FolderFile]) -> Option<&FolderFile>
    ensures { option_map (λ file. file.now) result ≡ first_refused found.now }
{
    for (i, file) in found.iter().enumerate() {
        if is_refused(kind_of(file.name.as_str().as_bytes()), file.len) {
            return Some(file);
        }
    }
    None
}

fn is_refused(kind: Kind, len: Option<u64>) -> bool
    ensures { result ≡ is_refused kind len }
{
    match (kind, len) {
        (Kind::Free, _) => false,
        (Kind::First, Some(len)) => 1 < len,
        (Kind::First, None) | (Kind::Later, _) => true,
    }
}
