//! What is seen of a file that gives no database, and beside it.
ghost use Rattle.std.specs.Prelude.{◌≡◌};
ghost use Rattle.hall_sql.specs.Sight.{is_vacuumed, sight_of};

use std::fs::File;
use std::io::ErrorKind;
use std::os::unix::fs::FileExt;
use std::{fs, io};

/// The first of these that is so.
#[derive(Clone, Copy)]
pub enum Sight {
    /// It is no regular file: a pipe, a folder, a device.
    NoFile,
    /// A journal lies beside it, which SQLite alone can play back.
    Journal,
    /// It doesn't begin as a database of SQLite does.
    Other,
    /// It says that its texts are UTF-16.
    Utf16,
    /// It says that it is kept for `auto_vacuum`.
    Vacuumed,
    /// None of these is seen.
    Nothing,
}

/// How many bytes the header of a database has.
const HEADER: usize = 100;

/// The number of the greatest tree's root is kept.
fn is_vacuumed(header: &[u8; HEADER]) -> bool
    ensures { result ≡ is_vacuumed header.now }
{
    header[52] != 0 || header[53] != 0 || header[54] != 0 || header[55] != 0
}

/// What a header says.
fn sight_of(header: &[u8; HEADER]) -> Sight
    ensures { result ≡ sight_of header.now }
{
    if !header.starts_with(b"SQLite format 3") {
        return Sight::Other;
    }
    if header[59] == 2 || header[59] == 3 {
        return Sight::Utf16;
    }
    if is_vacuumed(header) {
        return Sight::Vacuumed;
    }
    Sight::Nothing
}

/// Refuses what is there but no regular file: a pipe would keep its reader waiting for ever.
pub(crate) fn needs_file(rt: &HostRuntime, path: &str) -> io::Result<()> {
    if fs::metadata(rt, path)?.is_file() {
        Ok(())
    } else {
        Err(ErrorKind::Unsupported.into())
    }
}

/// Whether a journal at the path is to be played back, or something else has its name.
pub(crate) fn is_journal(rt: &HostRuntime, path: &str) -> io::Result<bool> {
    match fs::symlink_metadata(rt, path) {
        Ok(found) if found.is_file() => {}
        Ok(_) => return Ok(true),
        Err(error) if error.kind() == ErrorKind::NotFound => return Ok(false),
        Err(error) => return Err(error),
    }
    let mut first = [0];
    Ok(File::open(rt, path)?.read_at(&mut first, 0)? == 1 && first[0] != 0)
}

/// What is seen of the file at the path, and beside it.
pub(crate) fn look_at(rt: &HostRuntime, path: &str) -> io::Result<Sight> {
    if !fs::metadata(rt, path)?.is_file() {
        return Ok(Sight::NoFile);
    }
    // As in SQLite, the journal lies where a link leads.
    let real = fs::canonicalize(rt, path)?;
    let journal = format!(in rt.alloc(); "{}-journal", real.as_str())?;
    if is_journal(rt, journal.as_str())? {
        return Ok(Sight::Journal);
    }
    let mut header = [0; HEADER];
    File::open(rt, real.as_str())?.read_at(&mut header, 0)?;
    Ok(sight_of(&header))
}
