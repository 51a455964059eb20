//! The operating system, as a door has it: a run's folder, the folder above, and the user's list.
ghost use Rattle.std.specs.Prelude.{◌≡◌};

use crate::disk::check_file_system;
use crate::list::check_jobs;
use amo_dir_admission::{DoorHost, Failed, FolderFile, Halt, Place, Refusal, RunFile, is_first};
use amo_fs::{make_and_rename, make_file, make_if_missing, read_existing, sync_folder};
use amo_run_dir::{bytes_of, has_id, len_of, lock_of, path_of, sync};
use amo_run_faults::{Door, Fault, Item, Later, Setting, had, is_id, written};
use amo_system_calls::{Found, LockMode, Os, SystemCalls};
use std::fs::File;
use std::io;
use std::io::ErrorKind;
use std::rt::HostRuntime;

/// The pause between two tries of the lock, in milliseconds.
const PAUSE: u64 = 20;

/// The system's number of the error that nothing has a name.
const NO_SUCH_FILE: i32 = 2;

/// The files of a run's folder, as a door has them. After a call has failed, it knows why.
#[derive(Drop)]
pub(crate) struct DoorFiles<'a> {
    system: Os,
    setting: Setting<'a>,
    /// The path of the user's list. `None` for a check by which nothing is made.
    list: Option<&'a str>,
    /// The path that what is made has first.
    beside: String,
    /// The handle that has the lock of the round.
    lock: Option<File>,
    /// The fault of the last call that has failed.
    fault: Option<Fault>,
}

impl<'a> DoorFiles<'a> {
    /// Returns a host that has called nothing yet.
    pub(crate) fn new(
        rt: HostRuntime,
        setting: &Setting<'a>,
        list: Option<&'a str>,
    ) -> DoorFiles<'a> {
        DoorFiles {
            system: Os::new(rt),
            setting: *setting,
            list,
            beside: String::new(rt.alloc()),
            lock: None,
            fault: None,
        }
    }

    /// Returns what a command has returned that calls nothing any more, with the fault that a halt
    /// comes to.
    ///
    /// # Errors
    /// That fault.
    pub(crate) fn ended<T>(&mut self, given: Result<T, Halt>) -> Result<T, Fault> {
        match given {
            Ok(value) => Ok(value),
            Err(Halt::Host) => Err(self.fault.take().unwrap_or(Fault::NoWay)),
            Err(Halt::Memory) => Err(Fault::Memory),
            Err(Halt::Making) => Err(Fault::Later(Later::Making)),
            Err(Halt::NotNew(name)) => Err(Fault::NotNew(name)),
            Err(Halt::Refused(why)) => Err(fault_of(why)),
        }
    }

    /// Returns what a call has returned, and remembers why it has failed, if it has.
    fn told<T>(&mut self, given: Result<T, Fault>) -> Result<T, Failed> {
        match given {
            Ok(value) => Ok(value),
            Err(fault) => {
                self.fault = Some(fault);
                Err(Failed)
            }
        }
    }

    /// Returns true if something has the folder's name, as the host's `is_there` does.
    fn there(&mut self) -> Result<bool, Fault> {
        let found = had(Item::Run, self.system.look(self.setting.run, false))?;
        Ok(found.is_some())
    }

    /// Returns what has this name, which must be there. A link isn't followed.
    fn looked(&mut self, path: &str) -> Result<Found, Fault> {
        match had(Item::Run, self.system.look(path, false))? {
            Some(found) => Ok(found),
            None => {
                let missing = io::Error::from_raw_os_error(NO_SUCH_FILE);
                Err(Fault::Read(Item::Run, missing))
            }
        }
    }

    /// Returns true if a folder has the name, as the host's `is_folder` does.
    fn folder(&mut self) -> Result<bool, Fault> {
        Ok(self.looked(self.setting.run)?.is_folder)
    }

    /// Checks the list, as the host's `check_list` does.
    fn list_checked(&mut self) -> Result<(), Fault> {
        match self.list {
            Some(list) => check_jobs(&mut self.system, &self.setting, list),
            None => Err(Fault::NoWay),
        }
    }

    /// Returns the files in the folder, as the host's `files` does.
    fn listed(&mut self) -> Result<Vec<FolderFile>, Fault> {
        let mut files = Vec::new(self.system.alloc());
        for name in had(Item::Run, self.system.names_in(self.setting.run))? {
            let len = self.len_at(name.as_str())?;
            files.push(FolderFile { name, len })?;
        }
        Ok(files)
    }

    /// Returns how many bytes the file of this name has, if it is a plain file that a door makes
    /// before the id. Another file isn't looked at.
    fn len_at(&mut self, name: &str) -> Result<Option<u64>, Fault> {
        if !is_first(name.as_bytes()) {
            return Ok(None);
        }
        let path = format!(in self.system.alloc(); "{}/{name}", self.setting.run)?;
        let found = self.looked(path.as_str())?;
        if found.is_file {
            Ok(Some(found.len))
        } else {
            Ok(None)
        }
    }

    /// Returns a path in this folder that nobody else has.
    fn drawn(&mut self, place: Place) -> Result<String, Fault> {
        let random = random(&mut self.system)?;
        let run = self.setting.run;
        match place {
            Place::Above => Ok(format!(in self.system.alloc(); "{run}.new-{random}")?),
            Place::Run => Ok(format!(in self.system.alloc(); "{run}/door.{random}.new")?),
        }
    }

    /// Returns an id, as the host's `draw_id` does.
    fn id_drawn(&mut self) -> Result<Vec<u8>, Fault> {
        let random = random(&mut self.system)?;
        let id = format!(in self.system.alloc(); "{random}\n")?;
        Ok(id.into_bytes())
    }

    /// Makes the folder beside, as the host's `make_beside` does.
    fn folder_beside(&mut self) -> Result<(), Fault> {
        if written(Item::Run, self.system.make_folder(self.beside.as_str()))? {
            Ok(())
        } else {
            let taken = io::Error::from(ErrorKind::AlreadyExists);
            Err(Fault::Write(Item::Run, taken))
        }
    }

    /// Makes a file in the folder beside, as the host's `make_file` does.
    fn made_beside(&mut self, item: Item, bytes: &[u8]) -> Result<(), Fault> {
        let path = format!(in self.system.alloc(); "{}/{item}", self.beside)?;
        written(item, make_file(&mut self.system, path.as_str(), bytes))
    }

    /// Tries the lock of the round, and returns true if this process has got it.
    fn locked(&mut self) -> Result<bool, Fault> {
        match lock_of(
            &mut self.system,
            &self.setting,
            Item::Round,
            LockMode::Exclusive,
        )? {
            Some(handle) => {
                self.lock = Some(handle);
                Ok(true)
            }
            None => Ok(false),
        }
    }

    /// Makes a file of the run if it is missing, as the host's `put` does.
    fn made_within(&mut self, item: Item, bytes: &[u8]) -> Result<(), Fault> {
        let path = path_of(self.system.alloc(), &self.setting, item)?;
        let beside = self.beside.as_str();
        let made = make_if_missing(&mut self.system, path.as_str(), beside, bytes);
        written(item, made)?;
        Ok(())
    }

    /// Puts a file in the place of one of the run, as the host's `replace` does.
    fn replaced(&mut self, item: Item, bytes: &[u8]) -> Result<(), Fault> {
        let path = path_of(self.system.alloc(), &self.setting, item)?;
        let beside = self.beside.as_str();
        let made = make_and_rename(&mut self.system, path.as_str(), beside, bytes);
        written(item, made)
    }
}

impl<'a> DoorHost for DoorFiles<'a> {
    ghost stands = { λ _ _. Unit {0} };

    fn is_there(&mut self) -> Result<bool, Failed> {
        let there = self.there();
        self.told(there)
    }

    fn is_folder(&mut self) -> Result<bool, Failed> {
        let found = self.folder();
        self.told(found)
    }

    fn is_own(&mut self) -> Result<bool, Failed> {
        let found = had(Item::Run, self.system.is_own(self.setting.run));
        self.told(found)
    }

    fn check_disk(&mut self, place: Place) -> Result<(), Failed> {
        let path = match place {
            Place::Above => parent_of(self.setting.run),
            Place::Run => self.setting.run,
        };
        let checked = check_file_system(&mut self.system, &self.setting, path);
        self.told(checked)
    }

    fn read_record(&mut self) -> Result<Option<Vec<u8>>, Failed> {
        let bytes = bytes_of(&mut self.system, &self.setting, Item::Record);
        self.told(bytes)
    }

    fn has_id(&mut self) -> Result<bool, Failed> {
        let found = has_id(&mut self.system, &self.setting);
        self.told(found)
    }

    fn len_of(&mut self, file: RunFile) -> Result<Option<u64>, Failed> {
        let len = len_of(&mut self.system, &self.setting, item_of(file));
        self.told(len)
    }

    fn files(&mut self) -> Result<Vec<FolderFile>, Failed> {
        let files = self.listed();
        self.told(files)
    }

    fn check_list(&mut self) -> Result<(), Failed> {
        let checked = self.list_checked();
        self.told(checked)
    }

    fn draw_name(&mut self, place: Place) -> Result<(), Failed> {
        let drawn = self.drawn(place);
        self.beside = self.told(drawn)?;
        Ok(())
    }

    fn draw_id(&mut self) -> Result<Vec<u8>, Failed> {
        let drawn = self.id_drawn();
        self.told(drawn)
    }

    fn make_folder(&mut self) -> Result<(), Failed> {
        let made = written(Item::Run, self.system.make_folder(self.setting.run));
        self.told(made)?;
        Ok(())
    }

    fn make_beside(&mut self) -> Result<(), Failed> {
        let made = self.folder_beside();
        self.told(made)
    }

    fn make_file(&mut self, file: RunFile, bytes: &[u8]) -> Result<(), Failed> {
        let made = self.made_beside(item_of(file), bytes);
        self.told(made)
    }

    fn sync_beside(&mut self) -> Result<(), Failed> {
        let synced = written(
            Item::Run,
            sync_folder(&mut self.system, self.beside.as_str()),
        );
        self.told(synced)
    }

    fn rename(&mut self) -> Result<(), Failed> {
        let renamed = self.system.rename(self.beside.as_str(), self.setting.run);
        self.told(written(Item::Run, renamed))
    }

    fn remove_beside(&mut self) {
        let _ = self.system.remove_folder(self.beside.as_str());
    }

    fn try_lock(&mut self) -> Result<bool, Failed> {
        let is_got = self.locked();
        self.told(is_got)
    }

    fn unlock(&mut self) {
        self.lock = None;
    }

    fn put(&mut self, file: RunFile, bytes: &[u8]) -> Result<(), Failed> {
        let made = self.made_within(item_of(file), bytes);
        self.told(made)
    }

    fn replace(&mut self, file: RunFile, bytes: &[u8]) -> Result<(), Failed> {
        let replaced = self.replaced(item_of(file), bytes);
        self.told(replaced)
    }

    fn sync_folder(&mut self) -> Result<(), Failed> {
        let synced = sync(&mut self.system, &self.setting);
        self.told(synced)
    }

    fn sync_above(&mut self) -> Result<(), Failed> {
        let above = parent_of(self.setting.run);
        let synced = written(Item::Run, sync_folder(&mut self.system, above));
        self.told(synced)
    }

    fn pause(&self) {
        self.system.pause(PAUSE);
    }
}

/// Returns the file of the run as faults name it.
fn item_of(file: RunFile) -> Item {
    match file {
        RunFile::Round => Item::Round,
        RunFile::Answers => Item::Answers,
        RunFile::Journal(worker) => Item::Journal(worker),
        RunFile::Id => Item::Id,
        RunFile::Forgotten => Item::Forgotten,
    }
}

/// Returns the fault of a refused folder.
fn fault_of(why: Refusal) -> Fault {
    match why {
        Refusal::NoFolder => Fault::Door(Door::NoFolder),
        Refusal::Foreign => Fault::Door(Door::Foreign),
        Refusal::Version => Fault::Door(Door::Version),
        Refusal::NoRun => Fault::NoRun,
        Refusal::HasId => Fault::HasId,
        Refusal::NoId => Fault::NoId,
        Refusal::LostId => Fault::Missing(Item::Id),
        Refusal::OldRun => Fault::OldRun,
        Refusal::Missing(file) => Fault::Missing(item_of(file)),
        Refusal::Empty(file) => Fault::Empty(item_of(file)),
        Refusal::Forgotten => Fault::Forgotten,
    }
}

/// Returns the folder that holds what has this path.
fn parent_of(path: &str) -> &str {
    match path.rsplit_once('/') {
        Some(("", _)) => "/",
        Some((above, _)) => above,
        None => ".",
    }
}

/// Returns 32 hexadecimal digits that nobody else has.
fn random<S: SystemCalls>(system: &mut S) -> Result<String, Fault> {
    let path = "/proc/sys/kernel/random/uuid";
    let given = had(Item::Random, read_existing(system, path))?;
    let mut digits = String::new(system.alloc());
    for part in std::str::from_utf8(&given)
        .unwrap_or("")
        .trim_end()
        .split('-')
    {
        digits.push_str(part)?;
    }
    if is_id(digits.as_str().as_bytes()) {
        Ok(digits)
    } else {
        Err(Fault::Refused(Item::Random))
    }
}
