//! What is told of a fault.
ghost use Rattle.std.specs.Prelude.{◌≡◌};
ghost use Rattle.hall_tool.specs.Advice.{code_lines, database_lines, fault_lines, form_lines, list_lines, open_lines};
ghost use Rattle.hall_tool.specs.Advice.{place_lines};

use crate::fault::{CommandFault, ToolFault};
use hall_sql::{OpenFault, Sight};
use hall_store::StoreFault;
use sqlite::{Error, ErrorCode};
use std::io::ErrorKind;

/// That there is a fault, on a line, and on the next one what to do.
macro_rules! told {
    ($advice:literal) => {
        concat!("fault\n", $advice, "\n")
    };
}

const NO_MEMORY: &str = told!("there is not enough memory: make room, and try again");

const NO_DEVICE: &str = told!("the input or the output failed: see where they lead");

const NO_STORE: &str = told!(
    "the database failed, or holds a row that is no record: see its disk, or put back a copy"
);

const NO_LIST: &str = told!("the entry list can't be read: see that the file is there");

const NO_FILE: &str = told!("there is no such database file: `hall init` makes one");

const IN_USE: &str = told!(
    "another program holds the lock of the database file: end it, or wait for it, and try again"
);

const OLD: &str = told!(
    "the database is of the first version: `hall migrate` copies its rows into one of the second"
);

const NO_DATABASE: &str = told!(
    "the file is no whole SQLite database: name another, or put back a copy"
);

const NO_REGULAR: &str = told!(
    "the path leads to no regular file, but to a pipe, a folder or a device: name a database file"
);

const JOURNAL: &str = told!(
    "a journal that SQLite left lies beside the file: read it once with sqlite3, and try again"
);

const UTF_16: &str = told!(
    "the file's texts are UTF-16, which no hall reads: `.dump` it with sqlite3 into a new file"
);

const VACUUMED: &str = told!(
    "the file has auto_vacuum, which no hall reads: `PRAGMA auto_vacuum = 0; VACUUM` ends it"
);

const ANALYZED: &str = told!(
    "the database has tables that `ANALYZE` made: drop them (sqlite_stat1) with sqlite3"
);

const NO_RULE: &str = told!(
    "a row or table breaks the file's own rules, as a lost reference: ask `PRAGMA foreign_key_check`"
);

const OTHER_TABLES: &str = told!(
    "the database holds other tables than the hall's, or can't be written: name another file"
);

const FULL: &str = told!("the disk is full: make room on it, and try again");

const UNREADABLE: &str = told!(
    "the database file can't be opened: see that it and its folder may be read and written"
);

const NO_PORT: &str = told!(
    "the port can't be listened on: end what listens there, or name another"
);

const NO_CLIENT: &str = told!(
    "no more connections come in: see what the system lacks, and start again"
);

/// That there is a fault, on a line, and on the next one what to do about it.
pub(crate) fn fault_lines(fault: &CommandFault) -> &'static str
    ensures { result.now ≡ fault_lines fault.now }
{
    match fault {
        CommandFault::Tool(ToolFault::Memory) => NO_MEMORY,
        CommandFault::Tool(ToolFault::Device) => NO_DEVICE,
        CommandFault::Tool(ToolFault::Store) => NO_STORE,
        CommandFault::List(error) => list_lines(error.kind()),
        CommandFault::Database(fault) => database_lines(fault),
        CommandFault::Port => NO_PORT,
        CommandFault::Client => NO_CLIENT,
    }
}

fn list_lines(kind: ErrorKind) -> &'static str
    ensures { result.now ≡ list_lines kind }
{
    match kind {
        ErrorKind::OutOfMemory => NO_MEMORY,
        _ => NO_LIST,
    }
}

fn database_lines(fault: &OpenFault) -> &'static str
    ensures { result.now ≡ database_lines fault.now }
{
    match fault {
        OpenFault::Missing => NO_FILE,
        OpenFault::Unopened(error, sight) => open_lines(error, *sight),
        OpenFault::Old => OLD,
        OpenFault::Analyzed => ANALYZED,
        OpenFault::Refused(StoreFault::Memory) => NO_MEMORY,
        OpenFault::Refused(StoreFault::Failed) => OTHER_TABLES,
    }
}

/// Of a database that can't be opened, by the error and by what is seen of its file.
fn open_lines(error: &Error, sight: Sight) -> &'static str
    ensures { result.now ≡ open_lines error.now sight }
{
    match error {
        Error::SqliteFailure(code) => code_lines(*code, sight),
        _ => UNREADABLE,
    }
}

fn code_lines(code: ErrorCode, sight: Sight) -> &'static str
    ensures { result.now ≡ code_lines code sight }
{
    match code {
        ErrorCode::DatabaseBusy => IN_USE,
        ErrorCode::CannotOpen => place_lines(sight),
        ErrorCode::DatabaseCorrupt => form_lines(sight, NO_DATABASE),
        ErrorCode::NotADatabase => form_lines(sight, NO_RULE),
        ErrorCode::DiskFull => FULL,
        ErrorCode::OutOfMemory => NO_MEMORY,
        _ => UNREADABLE,
    }
}

/// Of files that aren't opened, by what lies there.
fn place_lines(sight: Sight) -> &'static str
    ensures { result.now ≡ place_lines sight }
{
    match sight {
        Sight::NoFile => NO_REGULAR,
        Sight::Journal => JOURNAL,
        _ => UNREADABLE,
    }
}

/// Of files that hold no database, by what the header says; where it says nothing, as else.
fn form_lines(sight: Sight, other: &'static str) -> &'static str
    ensures { result.now ≡ form_lines sight other.now }
{
    match sight {
        Sight::Other => NO_DATABASE,
        Sight::Utf16 => UTF_16,
        Sight::Vacuumed => VACUUMED,
        _ => other,
    }
}
