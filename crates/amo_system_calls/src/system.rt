//! The system calls of a process, each as one method.
ghost use Rattle.std.specs.Prelude.{◌≡◌, ◌∷◌, [], List, ℕ, true, false, length, IfOk, IfSome, IfNone, OnOk, OnErr};
ghost use Rattle.amo_system_calls.specs.Calls.{Made, Did, Missed, Fell, Makes};
ghost use Rattle.amo_system_calls.specs.Calls.{Open, ReadFile, ReadFrom, ReadFront, Load, Store, Write, Sync, Lock, Compare, Measure, Copy as CopyHandle, Rename, Link, Remove, Look, MakeFolder, Names, RemoveFolder, Owner, Follow, Print, ReadLine};

use crate::disk_file::DiskFile;
use crate::model::{Found, LockMode, Mode};
use std::alloc::Global;
use std::io;
use std::io::Read;

/// The system calls of a process on files, folders and standard streams. Each method is one or two
/// calls, and ensures which call was made, on which path, and what came of it.
pub trait SystemCalls {
    /// An open file or folder. It is closed when it is dropped.
    type Handle: DiskFile + Read + Drop;

    /// The process may have made these calls, the newest first. If nothing records its calls, it
    /// may have made any.
    ghost has_made: { Self → List Made → Type 0 };

    /// The handle may have been opened by this path.
    ghost opened_by: { Self.Handle → List ℕ → Type 0 };

    /// Returns the memory from which results are taken.
    fn alloc(&self) -> Global;

    /// Opens a file or a folder. Returns `None` if nothing has this name.
    ///
    /// # Errors
    /// The system's error.
    fn open(&mut self, path: &str, mode: Mode) -> io::Result<Option<Self::Handle>>
        ensures done { IfOk result (λ file. IfSome file (λ handle. Makes (has_made self.old) (has_made self.new) (Did (Open path.now mode) ∷ []))) }
        ensures path { IfOk result (λ file. IfSome file (λ handle. opened_by handle path.now)) }
        ensures missing { IfOk result (λ file. IfNone file (Makes (has_made self.old) (has_made self.new) (Missed (Open path.now mode) ∷ []))) }
        ensures fails { OnErr result (Makes (has_made self.old) (has_made self.new) (Fell (Open path.now mode) ∷ [])) };

    /// Returns the content of a file, or `None` if nothing has this name.
    ///
    /// # Errors
    /// The system's error, also one for want of memory.
    fn read_file(&mut self, path: &str) -> io::Result<Option<Vec<u8>>>
        ensures done { IfOk result (λ bytes. IfSome bytes (λ _. Makes (has_made self.old) (has_made self.new) (Did (ReadFile path.now) ∷ []))) }
        ensures missing { IfOk result (λ bytes. IfNone bytes (Makes (has_made self.old) (has_made self.new) (Missed (ReadFile path.now) ∷ []))) }
        ensures fails { OnErr result (Makes (has_made self.old) (has_made self.new) (Fell (ReadFile path.now) ∷ [])) };

    /// Returns the bytes of an open file from this place on. The handle's own place stays.
    ///
    /// # Errors
    /// The system's error, also one for want of memory.
    fn read_from(&mut self, file: &Self::Handle, start: u64) -> io::Result<Vec<u8>>
        ensures done { OnOk result ((path : List ℕ) → opened_by file.now path → Makes (has_made self.old) (has_made self.new) (Did (ReadFrom path start) ∷ [])) }
        ensures fails { OnErr result ((path : List ℕ) → opened_by file.now path → Makes (has_made self.old) (has_made self.new) (Fell (ReadFrom path start) ∷ [])) };

    /// Fills `front` with the first bytes of an open file.
    ///
    /// # Errors
    /// The system's error, also if the file is shorter.
    fn read_front(&mut self, file: &Self::Handle, front: &mut [u8]) -> io::Result<()>
        ensures done { OnOk result ((path : List ℕ) → opened_by file.now path → Makes (has_made self.old) (has_made self.new) (Did (ReadFront path (length front.old)) ∷ [])) }
        ensures len { length front.new ≡ length front.old }
        ensures fails { OnErr result ((path : List ℕ) → opened_by file.now path → Makes (has_made self.old) (has_made self.new) (Fell (ReadFront path (length front.old)) ∷ [])) };

    /// Returns the number that the eight bytes at this place of an open file are, the lowest byte
    /// first. All of them are read by one call.
    ///
    /// # Errors
    /// The system's error, also if there are fewer bytes.
    fn load(&mut self, file: &Self::Handle, place: u64) -> io::Result<u64>
        ensures done { OnOk result ((path : List ℕ) → opened_by file.now path → Makes (has_made self.old) (has_made self.new) (Did (Load path place) ∷ [])) }
        ensures fails { OnErr result ((path : List ℕ) → opened_by file.now path → Makes (has_made self.old) (has_made self.new) (Fell (Load path place) ∷ [])) };

    /// Writes a number as the eight bytes at this place of an open file, the lowest byte first. All
    /// of them are written by one call.
    ///
    /// # Errors
    /// The system's error, also if it has written fewer bytes.
    fn store(&mut self, file: &Self::Handle, place: u64, value: u64) -> io::Result<()>
        ensures done { OnOk result ((path : List ℕ) → opened_by file.now path → Makes (has_made self.old) (has_made self.new) (Did (Store path place value) ∷ [])) }
        ensures fails { OnErr result ((path : List ℕ) → opened_by file.now path → Makes (has_made self.old) (has_made self.new) (Fell (Store path place value) ∷ [])) };

    /// Writes bytes to an open file, all of them.
    ///
    /// # Errors
    /// The system's error. Some of the bytes may be written then.
    fn write_all(&mut self, file: &mut Self::Handle, bytes: &[u8]) -> io::Result<()>
        ensures done { OnOk result ((path : List ℕ) → opened_by file.old path → Makes (has_made self.old) (has_made self.new) (Did (Write path bytes.now) ∷ [])) }
        ensures path { (path : List ℕ) → opened_by file.old path → opened_by file.new path }
        ensures fails { OnErr result ((path : List ℕ) → opened_by file.old path → Makes (has_made self.old) (has_made self.new) (Fell (Write path bytes.now) ∷ [])) };

    /// Syncs an open file or folder: what it has is on the disk then.
    ///
    /// # Errors
    /// The system's error.
    fn sync(&mut self, file: &Self::Handle) -> io::Result<()>
        ensures done { OnOk result ((path : List ℕ) → opened_by file.now path → Makes (has_made self.old) (has_made self.new) (Did (Sync path) ∷ [])) }
        ensures fails { OnErr result ((path : List ℕ) → opened_by file.now path → Makes (has_made self.old) (has_made self.new) (Fell (Sync path) ∷ [])) };

    /// Tries once to take a lock on an open file, and returns true if this handle has it now. It
    /// doesn't wait.
    ///
    /// # Errors
    /// The system's error.
    fn try_lock(&mut self, file: &Self::Handle, mode: LockMode) -> io::Result<bool>
        ensures got { IfOk result (λ got. got ≡ true → (path : List ℕ) → opened_by file.now path → Makes (has_made self.old) (has_made self.new) (Did (Lock path mode) ∷ [])) }
        ensures held { IfOk result (λ got. got ≡ false → (path : List ℕ) → opened_by file.now path → Makes (has_made self.old) (has_made self.new) (Missed (Lock path mode) ∷ [])) }
        ensures fails { OnErr result ((path : List ℕ) → opened_by file.now path → Makes (has_made self.old) (has_made self.new) (Fell (Lock path mode) ∷ [])) };

    /// Returns true if the open file is the one that has this name now. If it isn't, somebody has
    /// removed or replaced it, and a lock on it keeps nobody out.
    ///
    /// # Errors
    /// The system's error.
    fn is_at(&mut self, file: &Self::Handle, name: &str) -> io::Result<bool>
        ensures same { IfOk result (λ same. same ≡ true → (path : List ℕ) → opened_by file.now path → Makes (has_made self.old) (has_made self.new) (Did (Compare path name.now) ∷ [])) }
        ensures other { IfOk result (λ same. same ≡ false → (path : List ℕ) → opened_by file.now path → Makes (has_made self.old) (has_made self.new) (Missed (Compare path name.now) ∷ [])) }
        ensures fails { OnErr result ((path : List ℕ) → opened_by file.now path → Makes (has_made self.old) (has_made self.new) (Fell (Compare path name.now) ∷ [])) };

    /// Returns how many bytes an open file has.
    ///
    /// # Errors
    /// The system's error.
    fn len(&mut self, file: &Self::Handle) -> io::Result<u64>
        ensures done { OnOk result ((path : List ℕ) → opened_by file.now path → Makes (has_made self.old) (has_made self.new) (Did (Measure path) ∷ [])) }
        ensures fails { OnErr result ((path : List ℕ) → opened_by file.now path → Makes (has_made self.old) (has_made self.new) (Fell (Measure path) ∷ [])) };

    /// Returns a second handle of an open file. A lock that the first one has is on the second too.
    ///
    /// # Errors
    /// The system's error.
    fn copy(&mut self, file: &Self::Handle) -> io::Result<Self::Handle>
        ensures done { OnOk result ((path : List ℕ) → opened_by file.now path → Makes (has_made self.old) (has_made self.new) (Did (CopyHandle path) ∷ [])) }
        ensures path { IfOk result (λ handle. (path : List ℕ) → opened_by file.now path → opened_by handle path) }
        ensures fails { OnErr result ((path : List ℕ) → opened_by file.now path → Makes (has_made self.old) (has_made self.new) (Fell (CopyHandle path) ∷ [])) };

    /// Gives what has a name another one, in the place of what has that.
    ///
    /// # Errors
    /// The system's error.
    fn rename(&mut self, old: &str, new: &str) -> io::Result<()>
        ensures done { OnOk result (Makes (has_made self.old) (has_made self.new) (Did (Rename old.now new.now) ∷ [])) }
        ensures fails { OnErr result (Makes (has_made self.old) (has_made self.new) (Fell (Rename old.now new.now) ∷ [])) };

    /// Gives a file a second name. Returns false if something has that already.
    ///
    /// # Errors
    /// The system's error.
    fn link(&mut self, old: &str, new: &str) -> io::Result<bool>
        ensures done { IfOk result (λ made. made ≡ true → Makes (has_made self.old) (has_made self.new) (Did (Link old.now new.now) ∷ [])) }
        ensures taken { IfOk result (λ made. made ≡ false → Makes (has_made self.old) (has_made self.new) (Missed (Link old.now new.now) ∷ [])) }
        ensures fails { OnErr result (Makes (has_made self.old) (has_made self.new) (Fell (Link old.now new.now) ∷ [])) };

    /// Takes a file's name away.
    ///
    /// # Errors
    /// The system's error.
    fn remove(&mut self, path: &str) -> io::Result<()>
        ensures done { OnOk result (Makes (has_made self.old) (has_made self.new) (Did (Remove path.now) ∷ [])) }
        ensures fails { OnErr result (Makes (has_made self.old) (has_made self.new) (Fell (Remove path.now) ∷ [])) };

    /// Looks at what has a name, or, with `follow`, at what a link of that name leads to. Returns
    /// `None` if nothing has it.
    ///
    /// # Errors
    /// The system's error.
    fn look(&mut self, path: &str, follow: bool) -> io::Result<Option<Found>>
        ensures done { IfOk result (λ it. IfSome it (λ _. Makes (has_made self.old) (has_made self.new) (Did (Look path.now) ∷ []))) }
        ensures missing { IfOk result (λ it. IfNone it (Makes (has_made self.old) (has_made self.new) (Missed (Look path.now) ∷ []))) }
        ensures fails { OnErr result (Makes (has_made self.old) (has_made self.new) (Fell (Look path.now) ∷ [])) };

    /// Returns true if this process's user owns what has this name, and that isn't a link.
    ///
    /// # Errors
    /// The system's error.
    fn is_own(&mut self, path: &str) -> io::Result<bool>
        ensures done { OnOk result (Makes (has_made self.old) (has_made self.new) (Did (Owner path.now) ∷ [])) }
        ensures fails { OnErr result (Makes (has_made self.old) (has_made self.new) (Fell (Owner path.now) ∷ [])) };

    /// Makes a folder for its owner alone. Returns false if something has its name.
    ///
    /// # Errors
    /// The system's error.
    fn make_folder(&mut self, path: &str) -> io::Result<bool>
        ensures done { IfOk result (λ made. made ≡ true → Makes (has_made self.old) (has_made self.new) (Did (MakeFolder path.now) ∷ [])) }
        ensures taken { IfOk result (λ made. made ≡ false → Makes (has_made self.old) (has_made self.new) (Missed (MakeFolder path.now) ∷ [])) }
        ensures fails { OnErr result (Makes (has_made self.old) (has_made self.new) (Fell (MakeFolder path.now) ∷ [])) };

    /// Returns the names in a folder, in no order, without those that are no UTF-8.
    ///
    /// # Errors
    /// The system's error, also one for want of memory.
    fn names_in(&mut self, path: &str) -> io::Result<Vec<String>>
        ensures done { OnOk result (Makes (has_made self.old) (has_made self.new) (Did (Names path.now) ∷ [])) }
        ensures fails { OnErr result (Makes (has_made self.old) (has_made self.new) (Fell (Names path.now) ∷ [])) };

    /// Removes a folder with all that it has.
    ///
    /// # Errors
    /// The system's error. Some of it may be left then.
    fn remove_folder(&mut self, path: &str) -> io::Result<()>
        ensures done { OnOk result (Makes (has_made self.old) (has_made self.new) (Did (RemoveFolder path.now) ∷ [])) }
        ensures fails { OnErr result (Makes (has_made self.old) (has_made self.new) (Fell (RemoveFolder path.now) ∷ [])) };

    /// Returns the path to which the links in this one lead, or `None` if nothing has that.
    ///
    /// # Errors
    /// The system's error, also one for want of memory.
    fn follow(&mut self, path: &str) -> io::Result<Option<String>>
        ensures done { IfOk result (λ it. IfSome it (λ _. Makes (has_made self.old) (has_made self.new) (Did (Follow path.now) ∷ []))) }
        ensures missing { IfOk result (λ it. IfNone it (Makes (has_made self.old) (has_made self.new) (Missed (Follow path.now) ∷ []))) }
        ensures fails { OnErr result (Makes (has_made self.old) (has_made self.new) (Fell (Follow path.now) ∷ [])) };

    /// Writes to standard output, all of it.
    ///
    /// # Errors
    /// The system's error. Some of it may be written then.
    fn print(&mut self, bytes: &[u8]) -> io::Result<()>
        ensures done { OnOk result (Makes (has_made self.old) (has_made self.new) (Did (Print bytes.now) ∷ [])) }
        ensures fails { OnErr result (Makes (has_made self.old) (has_made self.new) (Fell (Print bytes.now) ∷ [])) };

    /// Waits for a line of standard input, and returns it with its line feed. Returns what is left
    /// without one if standard input ends.
    ///
    /// # Errors
    /// The system's error, also one for want of memory.
    fn read_line(&mut self) -> io::Result<Vec<u8>>
        ensures done { OnOk result (Makes (has_made self.old) (has_made self.new) (Did ReadLine ∷ [])) }
        ensures fails { OnErr result (Makes (has_made self.old) (has_made self.new) (Fell ReadLine ∷ [])) };

    /// Returns the number by which the system knows a handle. It is no call.
    fn number_of(&self, file: &Self::Handle) -> i32;

    /// Waits for so many milliseconds. The calls that are recorded leave it out.
    fn pause(&self, millis: u64);

    /// Returns the time in seconds since 1970, or 0 if the clock can't be read. It is recorded for
    /// persons, and decides nothing but from when on their answer `not-done` is taken. The calls
    /// that are recorded leave it out.
    fn now(&self) -> u64;

    /// Writes a line to standard error for a person, if that takes one. The calls that are recorded
    /// leave it out.
    fn tell(&self, line: &str);
}
