//! The command `check`: whether a database file is a hall's, whole, and sane.
ghost use Rattle.std.specs.Prelude.{◌≡◌, ◌++◌, Err, IfOk, IfErr, IsErrOf, string_bytes};
ghost use Rattle.sqlite.specs.Held.{state};
ghost use Rattle.hall_store.specs.Store.{CanFailIn, Kept};
ghost use Rattle.hall_sql.specs.CanFail.{StoreCanFail};
ghost use Rattle.hall_sql.specs.Content.{content_of};
ghost use Rattle.hall_sql.specs.Standing.{KeptTablesIn};
ghost use Rattle.hall_sql.specs.Tables.{old_schema};
ghost use Rattle.hall_tool.specs.CheckRun.{CopyFails, CopyText, IsCheckAt, OldFails, OldFound, OldText, PresentText};
ghost use Rattle.hall_tool.specs.declared.check.TheConstants.{FIRST_VERSION};
ghost use Rattle.hall_tool.specs.Machine.{files_of};
ghost use Rattle.hall_tool.specs.Shown.{IsShownBy};
ghost use Rattle.hall_tool.specs.Status.{IsOfMemoryOrStore};
ghost use Rattle.hall_tool.specs.WorldText.{WorldText};

use crate::bad_text::bad_text;
use crate::ending::Ending;
use crate::fault::{CommandFault, ToolFault, told};
use crate::show::show;
use crate::task::command_end;
use crate::world_text::{BROKEN, world_text};
use hall_check::check;
use hall_grid::Counted;
use hall_sql::{
    FoundHall, Migrated, OldStore, PathFiles, SqlStore, give_back, is_whole, migrate,
    open_in_memory, open_to_read,
};
use hall_store::WholeStore;
use sqlite::Alter;
use std::alloc::{AllocError, Global};
use std::io::Write;

/// What is told of a file of the version before, ahead of all else.
const FIRST_VERSION: &str =
    "a file of the first version: `hall migrate` copies its rows into one that can be served\n";

/// What is written of the world that the store keeps, which stays.
fn world_ending<S: WholeStore>(
    alloc: Global,
    store: &mut S,
    budget: Option<u64>,
) -> Result<Ending, ToolFault>
    ensures kept { Kept (S.content store.old) (S.content store.new) }
    ensures text { IfOk result (λ ending. ((S.content store.new).honest → (S.content store.new).serves)
        × WorldText budget (S.content store.new).honest (S.content store.old).world (string_bytes ending.line)
        ending.status) }
    ensures fault { IsErrOf result ToolFault.Store → CanFailIn (S.content store.old) (S.content store.new) }
    ensures cause { IfErr result IsOfMemoryOrStore }
{
    match check(alloc, store, budget) {
        Ok(checked) => Ok(world_text(alloc, budget, &checked)?),
        Err(fault) => Err(told(fault)),
    }
}

/// What is written of the tables of the present version: the rows that are no record, or else of their world.
fn present_ending<S: Alter + Drop>(
    alloc: Global,
    store: &mut SqlStore<S>,
    budget: Option<u64>,
) -> Result<Ending, ToolFault>
    ensures kept { Kept (content_of (state S.Store store.old)) (content_of (state S.Store store.new)) }
    ensures text { IfOk result (λ ending. PresentText budget (state S.Store store.old) (state S.Store store.new)
        (string_bytes ending.line) ending.status) }
    ensures fault { IsErrOf result ToolFault.Store → StoreCanFail (state S.Store store.old) (state S.Store store.new) }
    ensures cause { IfErr result IsOfMemoryOrStore }
{
    // A row that is no record is told before any call that would fail at it.
    let bad = match store.bad_rows(alloc) {
        Ok(bad) => bad,
        Err(fault) => return Err(told(fault)),
    };
    if is_whole(&bad) {
        return world_ending(alloc, store, budget);
    }
    Ok(Ending {
        line: bad_text(alloc, &bad)?,
        status: BROKEN,
    })
}

/// What is written of the world of the tables of the version before, by a copy in memory.
fn copied_ending<S: Alter + Drop>(
    alloc: Global,
    store: &mut OldStore<S>,
    budget: Option<u64>,
) -> Result<Ending, ToolFault>
    ensures rested { KeptTablesIn old_schema (state S.Store store.old) (state S.Store store.new) }
    ensures text { IfOk result (λ ending. CopyText budget (state S.Store store.old) (state S.Store store.new)
        (string_bytes ending.line) ending.status) }
    ensures fault { IsErrOf result ToolFault.Store → CopyFails (state S.Store store.old) (state S.Store store.new) }
    ensures cause { IfErr result IsOfMemoryOrStore }
{
    store.in_old_hall();
    let mut copy = match open_in_memory(alloc) {
        Ok(copy) => copy,
        Err(fault) => return Err(told(fault)),
    };
    match migrate(alloc, store, &mut copy) {
        Ok(Migrated::Done(_)) => world_ending(alloc, &mut copy, budget),
        Ok(Migrated::Occupied) => Err(ToolFault::Store),
        Err(fault) => Err(told(fault)),
    }
}

/// What is found in the tables of the version before.
fn old_found<S: Alter + Drop>(
    alloc: Global,
    store: &mut OldStore<S>,
    budget: Option<u64>,
) -> Result<Ending, ToolFault>
    ensures rested { KeptTablesIn old_schema (state S.Store store.old) (state S.Store store.new) }
    ensures text { IfOk result (λ ending. OldFound budget (state S.Store store.old) (state S.Store store.new)
        (string_bytes ending.line) ending.status) }
    ensures fault { IsErrOf result ToolFault.Store → OldFails (state S.Store store.old) (state S.Store store.new) }
    ensures cause { IfErr result IsOfMemoryOrStore }
{
    let bad = match store.bad_rows(alloc) {
        Ok(bad) => bad,
        Err(fault) => return Err(told(fault)),
    };
    if is_whole(&bad) {
        return copied_ending(alloc, store, budget);
    }
    Ok(Ending {
        line: bad_text(alloc, &bad)?,
        status: BROKEN,
    })
}

/// The same, after a line that tells the version.
fn versioned(alloc: Global, found: &Ending) -> Result<Ending, AllocError>
    ensures line { IfOk result (λ ending. string_bytes ending.line
        ≡ FIRST_VERSION.now ++ string_bytes found.now.line) }
    ensures status { IfOk result (λ ending. ending.status ≡ found.now.status) }
{
    let line = format!(in alloc; "{FIRST_VERSION}{}", found.line.as_str())?;
    Ok(Ending {
        line,
        status: found.status,
    })
}

/// What is written of the tables of the version before.
fn old_ending<S: Alter + Drop>(
    alloc: Global,
    store: &mut OldStore<S>,
    budget: Option<u64>,
) -> Result<Ending, ToolFault>
    ensures rested { KeptTablesIn old_schema (state S.Store store.old) (state S.Store store.new) }
    ensures text { IfOk result (λ ending. OldText budget (state S.Store store.old) (state S.Store store.new)
        (string_bytes ending.line) ending.status) }
    ensures fault { IsErrOf result ToolFault.Store → OldFails (state S.Store store.old) (state S.Store store.new) }
    ensures cause { IfErr result IsOfMemoryOrStore }
{
    match old_found(alloc, store, budget) {
        Ok(found) => Ok(versioned(alloc, &found)?),
        Err(fault) => Err(fault),
    }
}

/// Writes what was found.
fn write_found<W: Write>(
    found: Result<Ending, ToolFault>,
    writer: &mut Counted<W>,
) -> Result<u8, ToolFault>
    ensures shown { IfOk found (λ ending.
        IsShownBy ending.status W.contents (string_bytes ending.line) writer.old writer.new result) }
    ensures fault { IfErr found (λ e. (result ≡ Err e) × (writer.new ≡ writer.old)) }
{
    match found {
        Ok(ending) => show(ending.line.as_str(), ending.status, writer),
        Err(fault) => Err(fault),
    }
}

/// Checks the database at the path, and writes what was found.
pub fn check_at<S: Alter + Drop, F: PathFiles<S>, W: Write>(
    alloc: Global,
    files: &mut F,
    db: &str,
    budget: Option<u64>,
    writer: &mut Counted<W>,
) -> Result<u8, CommandFault>
    ensures { IsCheckAt (files_of S.Store F.PathFiles) W.contents db.now budget files.old files.new
        writer.old writer.new result }
{
    match open_to_read(files, db) {
        Ok(FoundHall::Present(mut store)) => {
            let found = present_ending(alloc, &mut store, budget);
            give_back(files, store.into_connection());
            command_end(write_found(found, writer))
        }
        Ok(FoundHall::Old(mut store)) => {
            let found = old_ending(alloc, &mut store, budget);
            give_back(files, store.into_connection());
            command_end(write_found(found, writer))
        }
        Err(cause) => Err(CommandFault::Database(cause)),
    }
}
