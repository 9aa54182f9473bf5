//! The files of this machine at a path, opened as a database whose files are lost with a write that is refused.
ghost use Rattle.std.specs.Prelude.{IfOk, IfErr};
ghost use Rattle.sqlite.specs.WalFiles.{image_at};
ghost use Rattle.sqlite.specs.Files.{file_state};
ghost use Rattle.sqlite_std_file.specs.File.{IsFresh};
ghost use Rattle.hall_sql.specs.Opened.{IsImageFound};
ghost use Rattle.hall_sql.specs.PathCalls.{IsSystemRefusal, IsUnopened};
ghost use Rattle.hall_sql.specs.ServedFiles.{AreServed, IsServed};

use crate::losable::Losable;
use sqlite::{Connection, Error, ErrorCode, FileFrom, FileStore, Files, Leftover, Options, Start};
use sqlite_disk::{Disk, Modelled};
use sqlite_std_file::OpenError;
use std::hash::{BuildHasher, RandomState};
use std::io::ErrorKind;

/// A file of this machine, which held what `B` stands for, and is lost with the first write that is refused.
pub type ServedFile<B> = Modelled<Losable<FileFrom<B>>, B>;

/// A database in such files.
pub(crate) type ServedConnection<B> = Connection<FileStore<ServedFile<B>>>;

/// Why no database was opened, and what is left of the files once they were.
type Unopened<B> = (Error, Option<Leftover<ServedFile<B>>>);

/// The file, which was just opened, as it is served from.
fn served<B: Start>(file: FileFrom<B>, is_log: bool) -> ServedFile<B>
    requires { IsFresh is_log file }
    ensures { IsServed is_log result }
{
    let key = file.key();
    Modelled::new(Losable::new(file, key), is_log, key)
}

/// Why the system opened no files, as a database tells it.
fn refusal(error: &OpenError) -> Error
    ensures { IsSystemRefusal result }
{
    Error::SqliteFailure(match error {
        OpenError::OutOfMemory => ErrorCode::OutOfMemory,
        OpenError::Io(error) if error.kind() == ErrorKind::OutOfMemory => ErrorCode::OutOfMemory,
        OpenError::Busy => ErrorCode::DatabaseBusy,
        OpenError::Io(_) | OpenError::HotJournal => ErrorCode::CannotOpen,
    })
}

/// The log and the database file at the path, which are made where they are missing. Names of SQLite's own are none.
fn open_pair<B: Start>(
    rt: &HostRuntime,
    path: &str,
    start: B,
) -> Result<Files<ServedFile<B>>, Error>
    ensures opened { IfOk result AreServed }
    ensures refused { IfErr result IsSystemRefusal }
{
    if path == ":memory:" || path.starts_with("file:") {
        return Err(Error::SqliteFailure(ErrorCode::CannotOpen));
    }
    match sqlite_std_file::open(rt, path, start) {
        Ok(Files { log, db }) => Ok(Files {
            log: served(log, true),
            db: served(db, false),
        }),
        Err(error) => Err(refusal(&error)),
    }
}

/// What the places of a database are mixed with in memory.
fn seed(rt: &HostRuntime) -> Result<u64, Error>
    ensures { IfErr result IsSystemRefusal }
{
    match RandomState::new(rt) {
        Ok(state) => Ok(state.hash_one(&0u8)),
        Err(_) => Err(Error::SqliteFailure(ErrorCode::CannotOpen)),
    }
}

/// The database in the files.
fn open_over<B: Start>(
    rt: &HostRuntime,
    files: Files<ServedFile<B>>,
    seed: u64,
) -> Result<ServedConnection<B>, Unopened<B>>
    requires { AreServed files }
    ensures found { IfOk result (λ conn. IsImageFound (image_at B.Start) (file_state conn)) }
    ensures refused { IfErr result (λ unopened. IsUnopened AreServed unopened.1 unopened.0) }
{
    match Connection::open_files(rt.alloc(), files, Options::new(seed)) {
        Ok(conn) => Ok(conn),
        Err((error, left)) => Err((error, Some(left))),
    }
}

/// The database at the path.
pub(crate) fn open_served<B: Start>(
    rt: &HostRuntime,
    path: &str,
    start: B,
) -> Result<ServedConnection<B>, Unopened<B>>
    ensures found { IfOk result (λ conn. IsImageFound (image_at B.Start) (file_state conn)) }
    ensures refused { IfErr result (λ unopened. IsUnopened AreServed unopened.1 unopened.0) }
{
    let seed = match seed(rt) {
        Ok(seed) => seed,
        Err(error) => return Err((error, None)),
    };
    match open_pair(rt, path, start) {
        Ok(files) => open_over(rt, files, seed),
        Err(error) => Err((error, None)),
    }
}
