//! How a file is opened as a disk, or made.
ghost use Rattle.std.specs.Prelude.{◌≡◌, IfOk};

use crate::file_disk::{FileDisk, MOST_BYTES};
use off_disk::Disk;
use std::fs::{self, File, OpenOptions, TryLockError};
use std::io::{self, ErrorKind};
use std::os::fd::AsRawFd;
use std::os::unix::fs::{MetadataExt, OpenOptionsExt};
use std::path::PathBuf;

// Only the owner reads and writes a file that is made here: it has the secret of the site.
const MODE: u32 = 0o600;

/// Why a file is no disk.
#[derive(Clone, Copy, PartialEq, Eq)]
pub enum DiskErr {
    /// Memory was wanted, and refused.
    Memory,
    /// The file can't be opened or made, isn't a plain file of one name, or is in use.
    Refused,
}

impl From<io::Error> for DiskErr {
    fn from(error: io::Error) -> DiskErr {
        match error.kind() {
            ErrorKind::OutOfMemory => DiskErr::Memory,
            _ => DiskErr::Refused,
        }
    }
}

/// Opens the file at a path, or makes it, for this office alone. Who opens it meanwhile by this
/// call is refused, until the disk is dropped.
pub fn open_disk(rt: &HostRuntime, path: &str) -> Result<FileDisk, DiskErr>
    ensures { IfOk result (λ disk. (⟦<FileDisk as Disk>⟧.seen disk).faults ≡ 0) }
{
    // The file lies where a link leads, and its folder is the one to be synced.
    let real = resolve(rt, path)?;
    let file = open_or_make(rt, real.as_str())?;
    lock(rt, &file, real.as_str())?;
    settle(&file)?;
    sync_folder(rt, real)?;
    let size = file.metadata()?.len();
    if size > MOST_BYTES {
        return Err(DiskErr::Refused);
    }
    Ok(FileDisk::new(file, size))
}

// The path with no link in it. The file is made where it's missing.
fn resolve(rt: &HostRuntime, path: &str) -> io::Result<PathBuf> {
    match fs::canonicalize(rt, path) {
        Err(error) if error.kind() == ErrorKind::NotFound => {
            open_or_make(rt, path)?;
            fs::canonicalize(rt, path)
        }
        found => found,
    }
}

// A new file, or the plain file that stands there. No device or pipe is opened.
fn open_or_make(rt: &HostRuntime, path: &str) -> io::Result<File> {
    let mut options = OpenOptions::new();
    options.read(true).write(true);
    match options.create_new(true).mode(MODE).open(rt, path) {
        Err(error) if error.kind() == ErrorKind::AlreadyExists => {
            if !fs::symlink_metadata(rt, path)?.is_file() {
                return Err(ErrorKind::Unsupported.into());
            }
            OpenOptions::new().read(true).write(true).open(rt, path)
        }
        made => made,
    }
}

// Takes the file for this office, where it is a plain file that has this name and no other.
fn lock(rt: &HostRuntime, file: &File, path: &str) -> io::Result<()> {
    match file.try_lock() {
        Ok(()) => {}
        Err(TryLockError::WouldBlock) => return Err(ErrorKind::WouldBlock.into()),
        Err(TryLockError::Error(error)) => return Err(error),
    }
    let (found, named) = (file.metadata()?, fs::symlink_metadata(rt, path)?);
    let is_named = found.dev() == named.dev() && found.ino() == named.ino();
    if is_named && found.is_file() && found.nlink() == 1 {
        return Ok(());
    }
    Err(ErrorKind::Unsupported.into())
}

// Syncs what an earlier office has written, and drops the system's copies of it: behind a failed
// sync they may be other than what the disk has.
fn settle(file: &File) -> io::Result<()> {
    file.sync_all()?;
    let advised = libc::posix_fadvise(file.as_raw_fd(), 0, 0, libc::POSIX_FADV_DONTNEED);
    if advised != 0 {
        return Err(io::Error::from_raw_os_error(advised));
    }
    Ok(())
}

// Syncs the folder of a file, so that the file's name outlives a crash.
fn sync_folder(rt: &HostRuntime, file: PathBuf) -> io::Result<()> {
    let mut folder = file;
    folder.pop();
    File::open(rt, folder.as_str())?.sync_all()
}
