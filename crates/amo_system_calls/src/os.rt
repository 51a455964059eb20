//! The system calls over the standard library: each method is one or two calls there.
ghost use Rattle.std.specs.Prelude.{◌≡◌, Some, None, Ok, Err, IfOk, IfErr, true, false};

use crate::disk_file::DiskFile;
use crate::model::{Found, LockMode, Mode};
use crate::system::SystemCalls;
use std::alloc::Global;
use std::fs::{DirBuilder, File, Metadata, OpenOptions, TryLockError};
use std::io::{BufRead, ErrorKind, Input, Write};
use std::os::fd::AsRawFd;
use std::os::unix::fs::{DirBuilderExt, FileExt, MetadataExt, OpenOptionsExt};
use std::rt::HostRuntime;
use std::time::{Duration, SystemTime, UNIX_EPOCH};
use std::{fs, io, thread};

/// How many bytes of a file are read at once.
const CHUNK: usize = 4096;

/// The operating system, by the standard library. Nothing records its calls.
#[derive(Drop)]
pub struct Os {
    rt: HostRuntime,
    input: <HostRuntime as Input>::Reader,
}

impl Os {
    /// Returns the operating system.
    pub fn new(rt: HostRuntime) -> Os {
        Os {
            rt,
            input: rt.reader(),
        }
    }
}

/// Returns what a call has given, or `None` if nothing has the name that it was given.
fn unless_missing<T>(given: io::Result<T>) -> io::Result<Option<T>> {
    match given {
        Ok(value) => Ok(Some(value)),
        Err(error) if error.kind() == ErrorKind::NotFound => Ok(None),
        Err(error) => Err(error),
    }
}

/// Returns true if a call has made something, and false if something has its name already.
fn unless_taken(given: io::Result<()>) -> io::Result<bool> {
    match given {
        Ok(()) => Ok(true),
        Err(error) if error.kind() == ErrorKind::AlreadyExists => Ok(false),
        Err(error) => Err(error),
    }
}

fn found_of(data: Metadata) -> Found {
    Found {
        is_file: data.is_file(),
        is_folder: data.is_dir(),
        len: data.len(),
        inode: data.ino(),
    }
}

impl SystemCalls for Os {
    type Handle = File;

    ghost has_made = { λ _ _. Unit {0} };

    ghost opened_by = { λ _ _. Unit {0} };

    fn alloc(&self) -> Global {
        self.rt.alloc()
    }

    fn open(&mut self, path: &str, mode: Mode) -> io::Result<Option<File>> {
        let mut options = OpenOptions::new();
        match mode {
            Mode::Read => options.read(true),
            Mode::ReadWrite => options.read(true).write(true),
            Mode::MakeOrReadWrite => options.read(true).write(true).create(true).mode(0o600),
            Mode::MakeOrEmpty => options.write(true).create(true).truncate(true).mode(0o600),
            Mode::MakeNew => options.write(true).create_new(true).mode(0o600),
        };
        unless_missing(options.open(&self.rt, path))
    }

    fn read_file(&mut self, path: &str) -> io::Result<Option<Vec<u8>>> {
        unless_missing(fs::read(&self.rt, path))
    }

    fn read_from(&mut self, file: &File, start: u64) -> io::Result<Vec<u8>> {
        let mut bytes = Vec::new(self.rt.alloc());
        let mut chunk = [0u8; CHUNK];
        for _ in 0..u64::MAX {
            let at = start.saturating_add(bytes.len() as u64);
            let count = file.read_at(&mut chunk, at)?;
            if count == 0 || count > CHUNK {
                break;
            }
            bytes.extend_from_slice(&chunk[..count])?;
        }
        Ok(bytes)
    }

    fn read_front(&mut self, file: &File, front: &mut [u8]) -> io::Result<()> {
        file.read_exact_at(front, 0)
    }

    fn load(&mut self, file: &File, place: u64) -> io::Result<u64> {
        let mut bytes = [0u8; 8];
        for _ in 0..u64::MAX {
            match file.read_at(&mut bytes, place) {
                Ok(8) => return Ok(u64::from_le_bytes(bytes)),
                Ok(_) => return Err(io::Error::from(ErrorKind::UnexpectedEof)),
                Err(error) if error.kind() == ErrorKind::Interrupted => {}
                Err(error) => return Err(error),
            }
        }
        Err(io::Error::from(ErrorKind::Interrupted))
    }

    fn store(&mut self, file: &File, place: u64, value: u64) -> io::Result<()> {
        let bytes = value.to_le_bytes();
        for _ in 0..u64::MAX {
            match file.write_at(&bytes, place) {
                Ok(8) => return Ok(()),
                Ok(_) => return Err(io::Error::from(ErrorKind::WriteZero)),
                Err(error) if error.kind() == ErrorKind::Interrupted => {}
                Err(error) => return Err(error),
            }
        }
        Err(io::Error::from(ErrorKind::Interrupted))
    }

    fn write_all(&mut self, file: &mut File, bytes: &[u8]) -> io::Result<()> {
        file.write_all(bytes)
    }

    fn sync(&mut self, file: &File) -> io::Result<()> {
        file.sync_all()
    }

    fn try_lock(&mut self, file: &File, mode: LockMode) -> io::Result<bool> {
        let tried = match mode {
            LockMode::Shared => file.try_lock_shared(),
            LockMode::Exclusive => file.try_lock(),
        };
        match tried {
            Ok(()) => Ok(true),
            Err(TryLockError::WouldBlock) => Ok(false),
            Err(TryLockError::Error(error)) => Err(error),
        }
    }

    fn is_at(&mut self, file: &File, name: &str) -> io::Result<bool> {
        let open = file.metadata()?;
        match unless_missing(fs::metadata(&self.rt, name))? {
            Some(named) => Ok(named.ino() == open.ino() && named.dev() == open.dev()),
            None => Ok(false),
        }
    }

    fn len(&mut self, file: &File) -> io::Result<u64> {
        Ok(file.metadata()?.len())
    }

    fn copy(&mut self, file: &File) -> io::Result<File> {
        file.try_clone()
    }

    fn rename(&mut self, old: &str, new: &str) -> io::Result<()> {
        fs::rename(&self.rt, old, new)
    }

    fn link(&mut self, old: &str, new: &str) -> io::Result<bool> {
        unless_taken(fs::hard_link(&self.rt, old, new))
    }

    fn remove(&mut self, path: &str) -> io::Result<()> {
        fs::remove_file(&self.rt, path)
    }

    fn look(&mut self, path: &str, follow: bool) -> io::Result<Option<Found>> {
        let given = if follow {
            fs::metadata(&self.rt, path)
        } else {
            fs::symlink_metadata(&self.rt, path)
        };
        Ok(unless_missing(given)?.map(found_of))
    }

    fn is_own(&mut self, path: &str) -> io::Result<bool> {
        let found = fs::symlink_metadata(&self.rt, path)?;
        let own = fs::metadata(&self.rt, "/proc/self")?;
        Ok(!found.is_symlink() && found.uid() == own.uid())
    }

    fn make_folder(&mut self, path: &str) -> io::Result<bool> {
        let mut builder = DirBuilder::new();
        builder.mode(0o700);
        unless_taken(builder.create(&self.rt, path))
    }

    fn names_in(&mut self, path: &str) -> io::Result<Vec<String>> {
        let mut names = Vec::new(self.rt.alloc());
        for entry in fs::read_dir(&self.rt, path)? {
            match entry {
                Ok(entry) => names.push(String::from_str(self.rt.alloc(), entry.file_name())?)?,
                Err(error) if error.kind() == ErrorKind::InvalidFilename => {}
                Err(error) => return Err(error),
            }
        }
        Ok(names)
    }

    fn remove_folder(&mut self, path: &str) -> io::Result<()> {
        fs::remove_dir_all(&self.rt, path)
    }

    fn follow(&mut self, path: &str) -> io::Result<Option<String>> {
        match unless_missing(fs::canonicalize(&self.rt, path))? {
            Some(path) => Ok(Some(String::from_str(self.rt.alloc(), path.as_str())?)),
            None => Ok(None),
        }
    }

    fn print(&mut self, bytes: &[u8]) -> io::Result<()> {
        let mut out = self.rt.stdout();
        out.write_all(bytes)?;
        out.flush()
    }

    fn read_line(&mut self) -> io::Result<Vec<u8>> {
        let mut line = Vec::new(self.rt.alloc());
        self.input.read_until(b'\n', &mut line)?;
        Ok(line)
    }

    fn number_of(&self, file: &File) -> i32 {
        file.as_raw_fd()
    }

    fn pause(&self, millis: u64) {
        thread::sleep(&self.rt, Duration::from_millis(millis));
    }

    fn now(&self) -> u64 {
        match SystemTime::now(&self.rt) {
            Ok(time) => match time.duration_since(UNIX_EPOCH) {
                Ok(since) => since.as_secs(),
                Err(_) => 0,
            },
            Err(_) => 0,
        }
    }

    fn tell(&self, line: &str) {
        let _ = eprintln!(self.rt; "{line}");
    }
}

/// Nothing here states what a crash leaves of a file of the system. So we assume of each that it
/// keeps the clauses of `DiskFile`.
impl DiskFile for File {
    ghost may_leave = { λ file c. ⊥ };

    ghost stale = { λ file i. ⊥ };

    ghost moment = { λ file. 0 };

    ghost left_since = { λ file t c. ⊥ };

    ghost counts_now = { λ file t c le now. now };

    ghost only_now = { λ file c left. left };

    fn write_front(&mut self, at: usize, bytes: &[u8], _before: &[u8]) -> io::Result<usize> {
        for _ in 0..u64::MAX {
            match self.write_at(bytes, at as u64) {
                Err(error) if error.kind() == ErrorKind::Interrupted => {}
                result => return result,
            }
        }
        Err(io::Error::from(ErrorKind::Interrupted))
    }

    fn cut_to(&mut self, len: usize) -> io::Result<()> {
        self.set_len(len as u64)
    }

    fn sync_bytes(&mut self, _shown: &[u8]) -> io::Result<()> {
        self.sync_data()
    }
}
