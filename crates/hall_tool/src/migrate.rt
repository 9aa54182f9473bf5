//! The command `migrate`: the rows of a database of the first version, copied into one of the second.
ghost use Rattle.std.specs.Prelude.{◌≡◌, ◌≤◌, [], string_bytes};
ghost use Rattle.std.specs.String.{string_capacity, string_len};
ghost use Rattle.hall_tool.specs.Machine.{all_files, copying, files_of};
ghost use Rattle.hall_tool.specs.Migrate.{IsMigrateAt, IsMigrateRun, IsMigratedTo, migrated_line, migrated_status};

use crate::ending::{Ending, ROOM, counted, push};
use crate::fault::{CommandFault, ToolFault, told};
use crate::show::show;
use crate::task::command_end;
use hall_grid::Counted;
use hall_http::write_all;
use hall_sql::{Migrated, OldStore, PathFiles, SqlStore, give_back, migrate, open_at, open_old};
use hall_store::ReadStore;
use sqlite::Alter;
use std::alloc::Global;
use std::io::Write;

/// What became of the migration, on the empty line that has room for it.
fn migrated_ending(mut line: String, migrated: Migrated) -> Ending
    requires empty { string_bytes line ≡ [] }
    requires begins { string_len line ≡ 0 }
    requires room { 64 ≤ string_capacity line }
    ensures line { string_bytes result.line ≡ migrated_line migrated }
    ensures status { result.status ≡ migrated_status migrated }
{
    match migrated {
        Migrated::Done(count) => counted(line, "migrated ", count),
        Migrated::Occupied => {
            push(&mut line, "refused target\n");
            Ending { line, status: 2 }
        }
    }
}

/// Copies the rows of the one store into the other, which has none, and writes on a line how many they were: 0 where
/// that one holds the same already. Where it holds others it stays, which is written. The result is the exit status: 0
/// where the target holds the rows of the source, 2 where it is refused. The source is never changed, and a row of
/// either that is no record is a fault.
pub fn migrate_run<S: Alter + Drop, T: Alter + Drop, W: Write>(
    alloc: Global,
    source: &mut OldStore<S>,
    target: &mut SqlStore<T>,
    writer: &mut Counted<W>,
) -> Result<u8, ToolFault>
    ensures { IsMigrateRun S.Store T.Store W.contents (copying source.old target.old writer.old)
        (copying source.new target.new writer.new) result }
{
    source.in_old_hall();
    target.in_hall();
    source.at_rest();
    target.at_rest();
    // The line's memory is taken first, so that a want of it leaves the target.
    let line = String::with_capacity(alloc, ROOM)?;
    let ended = migrate(alloc, source, target);
    source.at_rest();
    target.at_rest();
    match ended {
        Ok(migrated) => {
            let ending = migrated_ending(line, migrated);
            write_all(writer, ending.line.as_bytes())?;
            Ok(ending.status)
        }
        Err(fault) => Err(told(fault)),
    }
}

/// Copies the rows of the source into the database at the path, which is made where there is none.
fn migrate_into<S: Alter + Drop, T: Alter + Drop, F: PathFiles<T>, W: Write>(
    alloc: Global,
    files: &mut F,
    source: &mut OldStore<S>,
    to: &str,
    writer: &mut Counted<W>,
) -> Result<u8, CommandFault>
    ensures { IsMigratedTo S.Store (files_of T.Store F.PathFiles) W.contents to.now
        (copying source.old files.old writer.old) (copying source.new files.new writer.new) result }
{
    match open_at(files, to) {
        Ok(mut target) => {
            let ended = migrate_run(alloc, source, &mut target, writer);
            give_back(files, target.into_connection());
            command_end(ended)
        }
        Err(cause) => Err(CommandFault::Database(cause)),
    }
}

/// Copies the rows of the database of the first version at the path `from`, among the files of the source, into the one
/// at the path `to`. The source is asked for first: where it isn't there, or is of another version, that is written,
/// and no target is asked for or made. Where both paths lead to one file, nothing special is done: the source is held
/// open, so that files which lock what they open refuse the target as a database that another program has open.
pub fn migrate_at<S: Alter + Drop, E: PathFiles<S>, T: Alter + Drop, F: PathFiles<T>, W: Write>(
    alloc: Global,
    sources: &mut E,
    files: &mut F,
    from: &str,
    to: &str,
    writer: &mut Counted<W>,
) -> Result<u8, CommandFault>
    ensures { IsMigrateAt (all_files (files_of S.Store E.PathFiles) (files_of T.Store F.PathFiles)) W.contents
        from.now to.now (copying sources.old files.old writer.old) (copying sources.new files.new writer.new) result }
{
    match open_old(sources, from) {
        Ok(Some(mut source)) => {
            let ended = migrate_into(alloc, files, &mut source, to, writer);
            give_back(sources, source.into_connection());
            ended
        }
        Ok(None) => command_end(show("refused source\n", 2, writer)),
        Err(cause) => Err(CommandFault::Database(cause)),
    }
}
