//! The operating system, and the calls of a door on it.
ghost use Rattle.std.specs.Prelude.{option_map, IfOk, OnOk, OnErr};
ghost use Rattle.amo_dir_admission.specs.Calls.{LookUp, AskFolder, AskOwner, CheckDisk, ReadRecord, ReadId, Measure, ListFiles, CheckList, DrawName, DrawId, MakeFolder, MakeBeside, MakeFile, SyncBeside, Rename, RemoveBeside, TryLock, Unlock, Put, Replace, SyncFolder, SyncAbove};
ghost use Rattle.amo_dir_admission.specs.Calls.{IsThere, IsFolder, IsOwn, DiskIsTaken, RecordIs, HasId, LenIs, FilesAre, ListIsTaken, NameIsDrawn, IdIs, FolderIsMade, BesideIsMade, FileIsMade, BesideIsSynced, HasRenamed, HasRemoved, Tried, HasUnlocked, HasPut, HasReplaced, FolderIsSynced, AboveIsSynced, Fell};
ghost use Rattle.amo_dir_admission.specs.Phase.{Phase};
ghost use Rattle.amo_dir_admission.specs.Protocol.{MayCall, Moves};

use crate::model::{Place, RunFile};
use crate::names::FolderFile;

/// A call has failed. The host knows why.
#[derive(Clone, Copy, Debug, PartialEq, Eq)]
pub struct Failed;

/// The operating system, as a door has it. Each method is one call. It requires a phase that allows
/// the call: so a process that is killed in a call was doing what it might. It ensures the phase
/// after the call.
pub trait DoorHost {
    /// The process may be in this phase, by all that it has called. If nothing records its calls,
    /// it may be in any phase.
    ghost stands: { Self → Phase → Type 0 };

    /// Returns true if something has the folder's name, a link that leads nowhere too.
    fn is_there(&mut self) -> Result<bool, Failed>
        requires { MayCall (stands self.old) LookUp }
        ensures done { IfOk result (λ there. Moves (stands self.old) (stands self.new) (IsThere there)) }
        ensures fails { OnErr result (Moves (stands self.old) (stands self.new) (Fell LookUp)) };

    /// Returns true if a folder has the name, and not a link. Fails if nothing has it.
    fn is_folder(&mut self) -> Result<bool, Failed>
        requires { MayCall (stands self.old) AskFolder }
        ensures done { IfOk result (λ it. Moves (stands self.old) (stands self.new) (IsFolder it)) }
        ensures fails { OnErr result (Moves (stands self.old) (stands self.new) (Fell AskFolder)) };

    /// Returns true if the folder is this process's user's.
    fn is_own(&mut self) -> Result<bool, Failed>
        requires { MayCall (stands self.old) AskOwner }
        ensures done { IfOk result (λ it. Moves (stands self.old) (stands self.new) (IsOwn it)) }
        ensures fails { OnErr result (Moves (stands self.old) (stands self.new) (Fell AskOwner)) };

    /// Checks that this folder is on a file system that is taken, and that its mount keeps synced
    /// data.
    fn check_disk(&mut self, place: Place) -> Result<(), Failed>
        requires { MayCall (stands self.old) (CheckDisk place) }
        ensures done { OnOk result (Moves (stands self.old) (stands self.new) (DiskIsTaken place)) }
        ensures fails { OnErr result (Moves (stands self.old) (stands self.new) (Fell (CheckDisk place))) };

    /// Returns the bytes of the folder's `record`, if it has one.
    fn read_record(&mut self) -> Result<Option<Vec<u8>>, Failed>
        requires { MayCall (stands self.old) ReadRecord }
        ensures done { IfOk result (λ found. Moves (stands self.old) (stands self.new) (RecordIs (option_map (λ bytes. bytes.items) found))) }
        ensures fails { OnErr result (Moves (stands self.old) (stands self.new) (Fell ReadRecord)) };

    /// Returns true if the folder has an id. Fails if the id is malformed, or another than the one
    /// that is named.
    fn has_id(&mut self) -> Result<bool, Failed>
        requires { MayCall (stands self.old) ReadId }
        ensures done { IfOk result (λ it. Moves (stands self.old) (stands self.new) (HasId it)) }
        ensures fails { OnErr result (Moves (stands self.old) (stands self.new) (Fell ReadId)) };

    /// Returns how many bytes a file of the run has, if it is there.
    fn len_of(&mut self, file: RunFile) -> Result<Option<u64>, Failed>
        requires { MayCall (stands self.old) (Measure file) }
        ensures done { IfOk result (λ len. Moves (stands self.old) (stands self.new) (LenIs file len)) }
        ensures fails { OnErr result (Moves (stands self.old) (stands self.new) (Fell (Measure file))) };

    /// Returns the files in the folder, whoever has made them.
    fn files(&mut self) -> Result<Vec<FolderFile>, Failed>
        requires { MayCall (stands self.old) ListFiles }
        ensures done { IfOk result (λ files. Moves (stands self.old) (stands self.new) (FilesAre files.items)) }
        ensures fails { OnErr result (Moves (stands self.old) (stands self.new) (Fell ListFiles)) };

    /// Checks that the user's list can be that of this run: no line of it is refused, and it begins
    /// with the lines that the run knows.
    fn check_list(&mut self) -> Result<(), Failed>
        requires { MayCall (stands self.old) CheckList }
        ensures done { OnOk result (Moves (stands self.old) (stands self.new) ListIsTaken) }
        ensures fails { OnErr result (Moves (stands self.old) (stands self.new) (Fell CheckList)) };

    /// Draws a name in this folder that nobody else has. A file or folder that is made there has
    /// that name first.
    fn draw_name(&mut self, place: Place) -> Result<(), Failed>
        requires { MayCall (stands self.old) (DrawName place) }
        ensures done { OnOk result (Moves (stands self.old) (stands self.new) (NameIsDrawn place)) }
        ensures fails { OnErr result (Moves (stands self.old) (stands self.new) (Fell (DrawName place))) };

    /// Returns an id that no other run has, with a line feed at its end.
    fn draw_id(&mut self) -> Result<Vec<u8>, Failed>
        requires { MayCall (stands self.old) DrawId }
        ensures done { IfOk result (λ id. Moves (stands self.old) (stands self.new) (IdIs id.items)) }
        ensures fails { OnErr result (Moves (stands self.old) (stands self.new) (Fell DrawId)) };

    /// Makes the run's folder, without files. If something has the name by now, it stays.
    fn make_folder(&mut self) -> Result<(), Failed>
        requires { MayCall (stands self.old) MakeFolder }
        ensures done { OnOk result (Moves (stands self.old) (stands self.new) FolderIsMade) }
        ensures fails { OnErr result (Moves (stands self.old) (stands self.new) (Fell MakeFolder)) };

    /// Makes a folder of the name that was drawn. Fails if something has that name.
    fn make_beside(&mut self) -> Result<(), Failed>
        requires { MayCall (stands self.old) MakeBeside }
        ensures done { OnOk result (Moves (stands self.old) (stands self.new) BesideIsMade) }
        ensures fails { OnErr result (Moves (stands self.old) (stands self.new) (Fell MakeBeside)) };

    /// Makes a file with these bytes in that folder, and syncs it. Fails if something has its name.
    fn make_file(&mut self, file: RunFile, bytes: &[u8]) -> Result<(), Failed>
        requires { MayCall (stands self.old) (MakeFile file bytes.now) }
        ensures done { OnOk result (Moves (stands self.old) (stands self.new) (FileIsMade file bytes.now)) }
        ensures fails { OnErr result (Moves (stands self.old) (stands self.new) (Fell (MakeFile file bytes.now))) };

    /// Syncs that folder: each name in it is on the disk then.
    fn sync_beside(&mut self) -> Result<(), Failed>
        requires { MayCall (stands self.old) SyncBeside }
        ensures done { OnOk result (Moves (stands self.old) (stands self.new) BesideIsSynced) }
        ensures fails { OnErr result (Moves (stands self.old) (stands self.new) (Fell SyncBeside)) };

    /// Gives that folder the name of the run's. Fails if a folder with files, or a file, has that
    /// name.
    fn rename(&mut self) -> Result<(), Failed>
        requires { MayCall (stands self.old) Rename }
        ensures done { OnOk result (Moves (stands self.old) (stands self.new) HasRenamed) }
        ensures fails { OnErr result (Moves (stands self.old) (stands self.new) (Fell Rename)) };

    /// Removes that folder with its files, if it is there and that can be done.
    fn remove_beside(&mut self)
        requires { MayCall (stands self.old) RemoveBeside }
        ensures { Moves (stands self.old) (stands self.new) HasRemoved };

    /// Tries the exclusive lock of `lock.round` once, by a new handle, and returns whether this
    /// process has got it. The file must still have its name then. The process keeps the lock until
    /// it ends, or until `unlock`.
    fn try_lock(&mut self) -> Result<bool, Failed>
        requires { MayCall (stands self.old) TryLock }
        ensures done { IfOk result (λ got. Moves (stands self.old) (stands self.new) (Tried got)) }
        ensures fails { OnErr result (Moves (stands self.old) (stands self.new) (Fell TryLock)) };

    /// Unlocks `lock.round`.
    fn unlock(&mut self)
        requires { MayCall (stands self.old) Unlock }
        ensures { Moves (stands self.old) (stands self.new) HasUnlocked };

    /// Makes a file of the run with these bytes, unless something has its name. The file is made
    /// whole and synced under the name that was drawn, and gets its own name by a link.
    fn put(&mut self, file: RunFile, bytes: &[u8]) -> Result<(), Failed>
        requires { MayCall (stands self.old) (Put file bytes.now) }
        ensures done { OnOk result (Moves (stands self.old) (stands self.new) (HasPut file bytes.now)) }
        ensures fails { OnErr result (Moves (stands self.old) (stands self.new) (Fell (Put file bytes.now))) };

    /// Puts a file with these bytes in the place of a file of the run. The new file is made whole
    /// and synced under the name that was drawn, and then renamed.
    fn replace(&mut self, file: RunFile, bytes: &[u8]) -> Result<(), Failed>
        requires { MayCall (stands self.old) (Replace file bytes.now) }
        ensures done { OnOk result (Moves (stands self.old) (stands self.new) (HasReplaced file bytes.now)) }
        ensures fails { OnErr result (Moves (stands self.old) (stands self.new) (Fell (Replace file bytes.now))) };

    /// Syncs the run's folder: each name in it is on the disk then.
    fn sync_folder(&mut self) -> Result<(), Failed>
        requires { MayCall (stands self.old) SyncFolder }
        ensures done { OnOk result (Moves (stands self.old) (stands self.new) FolderIsSynced) }
        ensures fails { OnErr result (Moves (stands self.old) (stands self.new) (Fell SyncFolder)) };

    /// Syncs the folder that holds the run's: the name of the run's folder is on the disk then.
    fn sync_above(&mut self) -> Result<(), Failed>
        requires { MayCall (stands self.old) SyncAbove }
        ensures done { OnOk result (Moves (stands self.old) (stands self.new) AboveIsSynced) }
        ensures fails { OnErr result (Moves (stands self.old) (stands self.new) (Fell SyncAbove)) };

    /// Waits for a moment, before a lock is tried again. The protocol doesn't speak of it.
    fn pause(&self);
}
