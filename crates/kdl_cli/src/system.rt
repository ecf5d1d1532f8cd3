//! The files of the system, as a store.

use cli::store::Store;
use std::alloc::Global;
use std::cell::RefCell;
use std::fs::{File, Metadata, OpenOptions, Permissions, TryLockError};
use std::io::{ErrorKind, Read, Write};
use std::os::unix::fs::{MetadataExt, OpenOptionsExt, PermissionsExt, fchown};
use std::path::{Path, PathBuf};
use std::time::Duration;
use std::{fs, io, process, thread};

/// The greatest number of times that a file is opened, a millisecond apart, until no other program has locked it.
const LOCK_TRIES: u32 = 10_000;

/// The greatest number of names that are tried for a new file.
const NAME_TRIES: u32 = 100;

/// The greatest number of bytes of a file's name that are in the name of the new file.
const MAX_STEM: usize = 200;

/// The files of the system, and the standard input, which is the file `-`. A file that is called so is `./-`.
#[derive(Drop)]
pub struct System<'a, 'b> {
    rt: &'a HostRuntime,
    /// The names of the files that may be replaced.
    replaced: Vec<String>,
    lock: &'b Lock,
}

/// The last file that was read of those that may be replaced, until it is replaced.
pub type Lock = RefCell<Option<Held>>;

/// An open file, which stays locked as long as it is open, and what it was when it was locked.
#[derive(Drop)]
pub struct Held {
    file: File,
    version: Version,
}

/// Which file it is, its size, and when its bytes last changed, in seconds and nanoseconds since 1970.
#[derive(Clone, Copy, PartialEq, Eq)]
struct Version {
    device: u64,
    inode: u64,
    size: u64,
    seconds: i64,
    nanoseconds: i64,
}

impl<'a, 'b> System<'a, 'b> {
    /// The files that the runtime reaches, of which those with these names may be replaced.
    pub fn new(rt: &'a HostRuntime, replaced: Vec<String>, lock: &'b Lock) -> System<'a, 'b> {
        System { rt, replaced, lock }
    }
}

impl Store for System<'_, '_> {
    /// Reads the file to its end. The standard input is read from where it is: what one read has taken, another has not.
    ///
    /// A file that may be replaced is locked before it is read, and stays so until it is replaced or the next one is read.
    /// If another program has locked it, waits for about 10 seconds at most. It fails if it is no regular file.
    fn read(&self, alloc: Global, name: &str) -> io::Result<Vec<u8>> {
        let mut bytes = Vec::new(alloc);
        if name == "-" {
            self.rt.stdin().read_to_end(&mut bytes)?;
        } else if self.replaced.iter().any(|it| it.as_str() == name) {
            let _ = self.lock.try_replace(None);
            let mut held = hold(self.rt, name)?;
            held.file.read_to_end(&mut bytes)?;
            let _ = self.lock.try_replace(Some(held));
        } else {
            File::open(self.rt, name)?.read_to_end(&mut bytes)?;
        }
        Ok(bytes)
    }

    /// Writes a new file beside the file and renames it to the file, so that the file has its old bytes or the new ones
    /// at any time, also after a crash.
    ///
    /// - A symbolic link stays: the file that it leads to is replaced.
    /// - The new file has the permissions of the old one, and its owner and group as far as who runs the program may give
    ///   them. Another hard link to the old file keeps the old bytes.
    /// - It fails if the file was not read before, if it has changed since, or if it or its folder can't be written.
    fn replace(&mut self, name: &str, text: &str) -> io::Result<()> {
        let Ok(Some(held)) = self.lock.try_take() else {
            return Err(io::Error::new(ErrorKind::InvalidInput, "not read before"));
        };
        let target = fs::canonicalize(self.rt, name)?;
        let old = OpenOptions::new()
            .write(true)
            .open(self.rt, target.as_path())?
            .metadata()?;
        let (new, file) = create_beside(self.rt, target.as_path())?;
        let replaced = match fill(file, text, &old) {
            Ok(()) => rename(self.rt, new.as_path(), target.as_path(), held.version),
            Err(error) => Err(error),
        };
        if replaced.is_err() {
            let _ = fs::remove_file(self.rt, new.as_path());
        }
        replaced
    }
}

/// Opens and locks a regular file. A file of a file system without locks is only opened.
///
/// The lock is on what was opened. If another run has replaced that by a new file meanwhile, opens the new one.
fn hold(rt: &HostRuntime, name: &str) -> io::Result<Held> {
    for _ in 0..LOCK_TRIES {
        // A pipe is not opened, since that waits.
        if !fs::metadata(rt, name)?.is_file() {
            return Err(io::Error::new(ErrorKind::InvalidInput, "not a regular file"));
        }
        let file = File::open(rt, name)?;
        if !matches!(file.try_lock(), Err(TryLockError::WouldBlock)) {
            let version = Version::of(&file.metadata()?);
            if version == Version::of(&fs::metadata(rt, name)?) {
                return Ok(Held { file, version });
            }
        }
        thread::sleep(rt, Duration::from_millis(1));
    }
    Err(io::Error::new(ErrorKind::ResourceBusy, "locked by another program"))
}

impl Version {
    /// Returns the version of a file.
    fn of(file: &Metadata) -> Version {
        Version {
            device: file.dev(),
            inode: file.ino(),
            size: file.size(),
            seconds: file.mtime(),
            nanoseconds: file.mtime_nsec(),
        }
    }
}

/// Creates a file in the folder of another one, that only who runs the program may read. Its name contains that of the other
/// one, if that is not too long, and the number of the process.
fn create_beside(rt: &HostRuntime, other: Path<'_>) -> io::Result<(PathBuf, File)> {
    let folder = other.parent().unwrap_or(Path::new("/"));
    let stem = match other.file_name() {
        Some(name) if name.len() <= MAX_STEM => name,
        _ => "kdl",
    };
    let id = process::id(rt.process());
    for number in 0..NAME_TRIES {
        let name = format!(in rt.alloc(); ".{stem}.{id}-{number}.new")?;
        let path = folder.join(rt.alloc(), name.as_str())?;
        let file = OpenOptions::new()
            .write(true)
            .create_new(true)
            .mode(0o600)
            .open(rt, path.as_path());
        match file {
            Ok(file) => return Ok((path, file)),
            Err(error) if error.kind() == ErrorKind::AlreadyExists => {}
            Err(error) => return Err(error),
        }
    }
    Err(io::Error::from(ErrorKind::AlreadyExists))
}

/// Writes the text to the new file, and gives it the owner, the group and the permissions of the old one.
fn fill(mut file: File, text: &str, old: &Metadata) -> io::Result<()> {
    file.write_all(text.as_bytes())?;
    if fchown(&file, Some(old.uid()), Some(old.gid())).is_err() {
        // A user who is not root may have the right to give the group alone.
        let _ = fchown(&file, None, Some(old.gid()));
    }
    file.set_permissions(Permissions::from_mode(old.mode() & 0o777))?;
    file.sync_all()
}

/// Renames a file to another one, if that still has the version that it had.
fn rename(rt: &HostRuntime, from: Path<'_>, to: Path<'_>, version: Version) -> io::Result<()> {
    if Version::of(&fs::metadata(rt, to)?) != version {
        return Err(io::Error::other("changed by another program"));
    }
    match fs::rename(rt, from, to) {
        Err(error) if error.kind() == ErrorKind::ResourceBusy => Err(io::Error::new(
            ErrorKind::ResourceBusy,
            "a mount point can't be replaced: run without `-w`, and copy the output to it",
        )),
        renamed => renamed,
    }
}
