//! One database of this machine, read into memory and opened there: no byte of its files is changed.
ghost use Rattle.std.specs.Prelude.{◌≡◌, Ok, IfOk, IfErr};
ghost use Rattle.sqlite.specs.WalFiles.{image_at};
ghost use Rattle.sqlite.specs.Files.{file_state};
ghost use Rattle.hall_sql.specs.Copied.{AreCopies};
ghost use Rattle.hall_sql.specs.Opened.{IsImageFound};
ghost use Rattle.hall_sql.specs.PathCalls.{IsUnopened};

use crate::copied::Copied;
use crate::sight::{is_journal, needs_file};
use os::RangeLock;
use sqlite::{Connection, Error, ErrorCode, FileStore, Files, Leftover, Options, Start};
use std::fs::{File, OpenOptions};
use std::hash::{BuildHasher, RandomState};
use std::io::{ErrorKind, Read};
use std::os::fd::AsRawFd;
use std::{fs, io};

/// Where SQLite's pending, reserved and shared locks stand.
const LOCKS: (u64, u64) = (1 << 30, 512);

/// The number of standard error, the last of the streams.
const LAST_STREAM: i32 = 2;

/// A database in copies of files of this machine, which held what `B` stands for.
pub(crate) type CopiedConnection<B> = Connection<FileStore<Copied<B>>>;

/// Why no database was opened, and what is left of the copies once they were.
type Unopened<B> = (Error, Option<Leftover<Copied<B>>>);

/// What was had of the files, or why it can't be, as a database tells it: none was opened.
fn had<T, B: Start>(found: io::Result<T>) -> Result<T, Unopened<B>>
    ensures found { IfOk result (λ it. found ≡ Ok it) }
    ensures refused { IfErr result (λ unopened. IsUnopened AreCopies unopened.1 unopened.0) }
{
    match found {
        Ok(it) => Ok(it),
        Err(error) => {
            let code = match error.kind() {
                ErrorKind::OutOfMemory => ErrorCode::OutOfMemory,
                ErrorKind::WouldBlock => ErrorCode::DatabaseBusy,
                _ => ErrorCode::CannotOpen,
            };
            Err((Error::SqliteFailure(code), None))
        }
    }
}

/// The file at the path, to be read, and the lock that it may have: one that keeps all others away needs a file that
/// may be written.
fn opened(rt: &HostRuntime, path: &str) -> io::Result<(File, RangeLock)> {
    needs_file(rt, path)?;
    match OpenOptions::new().read(true).write(true).open(rt, path) {
        Ok(file) => Ok((beside_streams(file)?, RangeLock::Exclusive)),
        Err(_) => Ok((File::open(rt, path)?, RangeLock::Shared)),
    }
}

/// The same file, where it has the number of a standard stream under another: what is meant for a stream that was
/// closed must not land in the database.
fn beside_streams(file: File) -> io::Result<File> {
    if file.as_raw_fd() <= LAST_STREAM {
        file.try_clone()
    } else {
        Ok(file)
    }
}

/// The file at the path, locked, so that no other program has it open as a database.
fn locked(rt: &HostRuntime, path: &str) -> io::Result<File> {
    let (file, lock) = opened(rt, path)?;
    let (from, count) = LOCKS;
    if os::try_lock_range(file.as_raw_fd(), lock, from, count) == 0 {
        Ok(file)
    } else {
        Err(io::Error::from_raw_os_error(os::errno()))
    }
}

/// The bytes of the file.
fn bytes_of(rt: &HostRuntime, mut file: &File) -> io::Result<Vec<u8>> {
    let mut bytes = Vec::new(rt.alloc());
    file.read_to_end(&mut bytes)?;
    Ok(bytes)
}

/// The bytes of the file at the path, with this ending: none where there is no file.
fn bytes_beside(rt: &HostRuntime, path: &str, ending: &str) -> io::Result<Vec<u8>> {
    let beside = format!(in rt.alloc(); "{path}{ending}")?;
    match needs_file(rt, beside.as_str()) {
        Ok(()) => fs::read(rt, beside.as_str()),
        Err(error) if error.kind() == ErrorKind::NotFound => Ok(Vec::new(rt.alloc())),
        Err(error) => Err(error),
    }
}

/// Copies of the database file at the path and of its log.
fn copies<B: Start>(rt: &HostRuntime, path: &str, file: &File) -> io::Result<Files<Copied<B>>>
    ensures { IfOk result AreCopies }
{
    if is_journal(rt, format!(in rt.alloc(); "{path}-journal")?.as_str())? {
        return Err(ErrorKind::Unsupported.into());
    }
    let log = bytes_beside(rt, path, "-wal")?;
    let db = bytes_of(rt, file)?;
    Ok(Files {
        log: Copied::new(rt.alloc(), log, true)?,
        db: Copied::new(rt.alloc(), db, false)?,
    })
}

/// A locked database file, and copies of it and its log.
fn read_files<B: Start>(rt: &HostRuntime, path: &str) -> io::Result<(File, Files<Copied<B>>)>
    ensures { IfOk result (λ it. AreCopies it.1) }
{
    // As in SQLite, the log lies where a link leads.
    let real = fs::canonicalize(rt, path)?;
    let file = locked(rt, real.as_str())?;
    let files = copies(rt, real.as_str(), &file)?;
    Ok((file, files))
}

/// The database in the copies.
fn open_copies<B: Start>(
    rt: &HostRuntime,
    files: Files<Copied<B>>,
) -> Result<CopiedConnection<B>, Unopened<B>>
    requires { AreCopies files }
    ensures found { IfOk result (λ conn. IsImageFound (image_at B.Start) (file_state conn)) }
    ensures refused { IfErr result (λ unopened. IsUnopened AreCopies unopened.1 unopened.0) }
{
    let seed = had::<RandomState, B>(RandomState::new(rt))?.hash_one(&0u8);
    match Connection::open_files(rt.alloc(), files, Options::new(seed)) {
        Ok(conn) => Ok(conn),
        Err((error, left)) => Err((error, Some(left))),
    }
}

/// The database at the path, in copies, and its file, which is locked.
pub(crate) fn read_database<B: Start>(
    rt: &HostRuntime,
    path: &str,
) -> Result<(File, CopiedConnection<B>), Unopened<B>>
    ensures found { IfOk result (λ it. IsImageFound (image_at B.Start) (file_state it.1)) }
    ensures refused { IfErr result (λ unopened. IsUnopened AreCopies unopened.1 unopened.0) }
{
    let (file, files) = had::<_, B>(read_files(rt, path))?;
    let conn = open_copies(rt, files)?;
    Ok((file, conn))
}
