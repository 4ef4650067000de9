//! The tables in a file, which is a database of SQLite's format. Its rows are read when it's
//! opened, and are in memory from then on.

ghost use Rattle.std.specs.Prelude.{◌≡◌, ◌↔◌, IfOk};
ghost use Rattle.sqlite.specs.Files.{file_state, IsOpened};
ghost use Rattle.sqlite.specs.State.{HasCleanDisk};
ghost use Rattle.off_keepsql.specs.Begin.{BeginsOverFiles};
ghost use Rattle.off_store.specs.Begin.{BeginsInFront};

use off_cached::Cached;
use off_keepsql::{Cells, SqlCells, SqlKeeper};
use off_outside::{KeepErr, Keeper};
use sqlite::{Connection, Error, ErrorCode, File, FileStore, Options, Unknown};
use sqlite_disk::Disk;
use sqlite_std_file::{OpenError, open};
use std::fs::OpenOptions;
use std::hash::{BuildHasher, RandomState};
use std::io::ErrorKind;
use std::os::unix::fs::OpenOptionsExt;

// How many pages of 4,096 bytes are kept in memory. A file of 800,000 rows has 16,000, and opens a
// third sooner with all of them than with 2,000.
const CACHED_PAGES: usize = 20_000;

// Only the owner reads and writes a file that is made here: it has the secret of the site. The log
// beside it gets the file's mode.
const MODE: u32 = 0o600;

/// Why there is no store.
#[derive(Clone, Copy, PartialEq, Eq)]
pub enum StoreErr {
    /// Memory was wanted, and refused.
    Memory,
    /// The file can't be opened or made, isn't such a database, or is in use.
    Refused,
}

/// A keeper of the tables in a file, from which each row is read.
pub type StoredKeeper = SqlKeeper<SqlCells<FileStore<File>>>;

/// A keeper of the tables in a file, with all of their rows in memory.
pub type FileKeeper = Cached<StoredKeeper>;

/// Opens the file at a path, or makes it, with its table, and reads all of its rows. What the
/// keeper tells is what was read, whatever is told of the file. Where a row can't be read, each
/// call is the file's, so that the first that comes to this row fails.
pub fn open_store(rt: &HostRuntime, path: &str) -> Result<FileKeeper, StoreErr>
    ensures { IfOk result (λ keeper. BeginsInFront ⟦<File as Disk>⟧
        (λ (stored : _). ⟦<SqlCells<FileStore<File>> as Cells>⟧.seen stored.cells)
        ⟦<StoredKeeper as Keeper>⟧.seen keeper) }
{
    let stored = open_table(rt, path)?;
    Ok(Cached::over(rt.alloc(), stored))
}

// The same, with no row read.
fn open_table(rt: &HostRuntime, path: &str) -> Result<StoredKeeper, StoreErr>
    ensures { IfOk result (λ keeper. BeginsOverFiles ⟦<File as Disk>⟧
        (⟦<SqlCells<FileStore<File>> as Cells>⟧.seen keeper.cells)
        (⟦<StoredKeeper as Keeper>⟧.seen keeper)) }
{
    let conn = connect(rt, path)?;
    match SqlKeeper::begin(rt.alloc(), conn) {
        Ok(keeper) => Ok(keeper),
        Err(KeepErr::Memory) => Err(StoreErr::Memory),
        Err(KeepErr::Failed) => Err(StoreErr::Refused),
    }
}

// Opens the database at a path, or makes an empty one.
fn connect(rt: &HostRuntime, path: &str) -> Result<Connection<FileStore<File>>, StoreErr>
    ensures { IfOk result (λ conn. HasCleanDisk (file_state conn) → IsOpened conn) }
{
    let options = options(rt)?;
    make_private(rt, path)?;
    let files = match open(rt, path, Unknown) {
        Ok(files) => files,
        Err(error) => return Err(not_opened(&error)),
    };
    match Connection::open_files(rt.alloc(), files, options) {
        Ok(conn) => Ok(conn),
        Err((error, _files)) => Err(not_read(error)),
    }
}

// Makes an empty file at a path, for its owner alone, where there is none. The database would make
// it for others to read.
fn make_private(rt: &HostRuntime, path: &str) -> Result<(), StoreErr> {
    let mut options = OpenOptions::new();
    match options
        .write(true)
        .create_new(true)
        .mode(MODE)
        .open(rt, path)
    {
        Ok(_file) => Ok(()),
        Err(fault) if fault.kind() == ErrorKind::AlreadyExists => Ok(()),
        Err(fault) => Err(not_opened(&OpenError::Io(fault))),
    }
}

// How the database is held in memory. Its log is salted by a random number.
fn options(rt: &HostRuntime) -> Result<Options, StoreErr>
    ensures { IfOk result (λ options. options.cache_pages ≡ 20000) }
{
    match RandomState::new(rt) {
        Ok(state) => {
            let mut options = Options::new(state.hash_one(&0u8));
            options.cache_pages = CACHED_PAGES;
            Ok(options)
        }
        Err(_fault) => Err(StoreErr::Refused),
    }
}

// Why the files at a path can't be opened or made.
fn not_opened(error: &OpenError) -> StoreErr {
    match error {
        OpenError::OutOfMemory => StoreErr::Memory,
        OpenError::Io(fault) => match fault.kind() {
            ErrorKind::OutOfMemory => StoreErr::Memory,
            _ => StoreErr::Refused,
        },
        OpenError::Busy | OpenError::HotJournal => StoreErr::Refused,
    }
}

// Why the files of a database can't be read.
fn not_read(error: Error) -> StoreErr
    ensures { (result ≡ StoreErr.Memory) ↔ (error ≡ Error.SqliteFailure ErrorCode.OutOfMemory) }
{
    match error {
        Error::SqliteFailure(code) => match code {
            ErrorCode::OutOfMemory => StoreErr::Memory,
            _ => StoreErr::Refused,
        },
        _ => StoreErr::Refused,
    }
}
