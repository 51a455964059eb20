//! The words of a round, in a file: each is read and written whole, at its place.
ghost use Rattle.std.specs.Prelude.{◌≡◌, ◌∷◌, [], List, ℕ, length, IfOk, IfSome, IfNone, OnOk, OnErr};
ghost use Rattle.amo_system_calls.specs.Calls.{Did, Missed, Open, Measure, ReadFront, Load, Store, Makes, MakesSome};
ghost use Rattle.amo_system_calls.specs.declared.model.Mode.TheVariants.{ReadWrite};
ghost use Rattle.amo_run_faults.specs.declared.layout.Item.TheVariants.{Words as WordsFile};
ghost use Rattle.amo_run_faults.specs.Names.{path_in};
ghost use Rattle.amo_run_files.specs.Words.{offset_of};

use amo_params::{MAX_JOBS, MAX_WORKERS};
use amo_run_dir::path_of;
use amo_run_faults::{Fault, Item, Setting, had, written};
use amo_run_files::offset_of;
use amo_system_calls::{Mode, SystemCalls};

/// The number of the last word that a round may have. A round has word 0, and for each worker an
/// announcement, a claim, and a row with one entry more than it has jobs.
const MOST_WORDS: u64 = MAX_WORKERS as u64 * (MAX_JOBS as u64 + 3) + 1;

/// Opens the file of the words, if there is one.
///
/// # Errors
/// The fault of a file that can't be opened, and `Memory`.
pub(crate) fn open_words<S: SystemCalls>(
    system: &mut S,
    setting: &Setting<'_>,
) -> Result<Option<S::Handle>, Fault>
    ensures done { IfOk result (λ it. IfSome it (λ file. Makes (S.has_made system.old) (S.has_made system.new) (Did (Open (path_in setting.now.run.now WordsFile) ReadWrite) ∷ []))) }
    ensures path { IfOk result (λ it. IfSome it (λ file. S.opened_by file (path_in setting.now.run.now WordsFile))) }
    ensures missing { IfOk result (λ it. IfNone it (Makes (S.has_made system.old) (S.has_made system.new) (Missed (Open (path_in setting.now.run.now WordsFile) ReadWrite) ∷ []))) }
    ensures fails { OnErr result (MakesSome (S.has_made system.old) (S.has_made system.new) (Open (path_in setting.now.run.now WordsFile) ReadWrite ∷ [])) }
{
    let path = path_of(system.alloc(), setting, Item::Words)?;
    had(Item::Words, system.open(path.as_str(), Mode::ReadWrite))
}

/// Reads the first bytes of the file of the words into `front`, and returns the length of the file.
/// Returns `None` if the file is shorter than `front`.
///
/// # Errors
/// The fault of a file that can't be read.
pub(crate) fn front_of<S: SystemCalls>(
    system: &mut S,
    file: &S::Handle,
    front: &mut [u8],
) -> Result<Option<u64>, Fault>
    ensures done { IfOk result (λ len. IfSome len (λ _. (path : List ℕ) → S.opened_by file.now path → Makes (S.has_made system.old) (S.has_made system.new) (Did (Measure path) ∷ Did (ReadFront path (length front.old)) ∷ []))) }
    ensures short { IfOk result (λ len. IfNone len ((path : List ℕ) → S.opened_by file.now path → Makes (S.has_made system.old) (S.has_made system.new) (Did (Measure path) ∷ []))) }
    ensures fails { OnErr result ((path : List ℕ) → S.opened_by file.now path → MakesSome (S.has_made system.old) (S.has_made system.new) (Measure path ∷ ReadFront path (length front.old) ∷ [])) }
{
    let len = had(Item::Words, system.len(file))?;
    if len < front.len() as u64 {
        return Ok(None);
    }
    had(Item::Words, system.read_front(file, front))?;
    Ok(Some(len))
}

/// Returns the value of a word.
///
/// # Errors
/// The fault of a file that can't be read. `NoWay` if no round has so many words.
pub(crate) fn load_word<S: SystemCalls>(
    system: &mut S,
    file: &S::Handle,
    word: u64,
) -> Result<u64, Fault>
    ensures done { OnOk result ((path : List ℕ) → S.opened_by file.now path → Makes (S.has_made system.old) (S.has_made system.new) (Did (Load path (offset_of word)) ∷ [])) }
    ensures fails { OnErr result ((path : List ℕ) → S.opened_by file.now path → MakesSome (S.has_made system.old) (S.has_made system.new) (Load path (offset_of word) ∷ [])) }
{
    if word > MOST_WORDS {
        return Err(Fault::NoWay);
    }
    had(Item::Words, system.load(file, offset_of(word)))
}

/// Gives a word a value.
///
/// # Errors
/// The fault of a file that can't be written. `NoWay` if no round has so many words.
pub(crate) fn store_word<S: SystemCalls>(
    system: &mut S,
    file: &S::Handle,
    word: u64,
    value: u64,
) -> Result<(), Fault>
    ensures done { OnOk result ((path : List ℕ) → S.opened_by file.now path → Makes (S.has_made system.old) (S.has_made system.new) (Did (Store path (offset_of word) value) ∷ [])) }
    ensures fails { OnErr result ((path : List ℕ) → S.opened_by file.now path → MakesSome (S.has_made system.old) (S.has_made system.new) (Store path (offset_of word) value ∷ [])) }
{
    if word > MOST_WORDS {
        return Err(Fault::NoWay);
    }
    written(Item::Words, system.store(file, offset_of(word), value))
}
