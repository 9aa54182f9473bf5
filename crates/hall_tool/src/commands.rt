//! The commands over files: the entry list is asked for first, then the database, and the first that can't be had ends
//! the command.
ghost use Rattle.sqlite.specs.Held.{Held, state};
ghost use Rattle.hall_sql.specs.Standing.{IsHall};
ghost use Rattle.hall_tool.specs.Commands.{IsInitAt, IsReplayInMemory, IsTaskAt, tables};
ghost use Rattle.hall_tool.specs.Machine.{files_of, kinds, on_host, streams};

use crate::fault::{CommandFault, ToolFault};
use crate::task::{Init, Replay, Task};
use hall_desk::Desk;
use hall_grid::Counted;
use hall_sql::{PathFiles, SqlStore, give_back, open_at, open_in_memory, open_there};
use hall_store::{CachedStore, Store};
use sqlite::{Alter, MemStore};
use std::alloc::Global;
use std::io::{Read, Write};

/// Does the task with the hall that the store keeps, behind a cache, and gives the store back.
fn task_over<T: Store, N, K: Task<N>, R: Read, W: Write>(
    alloc: Global,
    host: &mut N,
    store: T,
    task: &K,
    reader: &mut Counted<R>,
    writer: &mut Counted<W>,
) -> (T, Result<u8, CommandFault>)
    ensures { K.does (kinds T.content (streams R.remaining W.contents)) task.now
        (on_host host.old store reader.old writer.old) (on_host host.new result.0 reader.new writer.new) result.1 }
{
    let mut desk = Desk::new(CachedStore::new(alloc, store));
    let ended = task.run(alloc, host, &mut desk, reader, writer);
    (desk.into_store().into_store(), ended)
}

/// Does the task with the hall in the tables, and gives the files their database back.
fn task_in<S: Alter + Drop, F: PathFiles<S>, N, K: Task<N>, R: Read, W: Write>(
    alloc: Global,
    files: &mut F,
    host: &mut N,
    store: SqlStore<S>,
    task: &K,
    reader: &mut Counted<R>,
    writer: &mut Counted<W>,
) -> Result<u8, CommandFault>
    ensures { (last : Held S) × F.closes files.old last files.new × IsHall (state S.Store last)
        × K.does (tables S.Store (streams R.remaining W.contents)) task.now
        (on_host host.old store reader.old writer.old) (on_host host.new last reader.new writer.new) result }
{
    let (left, ended) = task_over(alloc, host, store, task, reader, writer);
    give_back(files, left.into_connection());
    ended
}

/// Does the task with the hall in the database file at the path, which is there.
pub fn task_at<S: Alter + Drop, F: PathFiles<S>, N, K: Task<N>, R: Read, W: Write>(
    alloc: Global,
    files: &mut F,
    host: &mut N,
    db: &str,
    task: &K,
    reader: &mut Counted<R>,
    writer: &mut Counted<W>,
) -> Result<u8, CommandFault>
    ensures { IsTaskAt (files_of S.Store F.PathFiles)
        (K.does (tables S.Store (streams R.remaining W.contents)) task.now) db.now
        (on_host host.old files.old reader.old writer.old) (on_host host.new files.new reader.new writer.new) result }
{
    match open_there(files, db) {
        Ok(store) => task_in(alloc, files, host, store, task, reader, writer),
        Err(cause) => Err(CommandFault::Database(cause)),
    }
}

/// Imports the people of the entry list at the path `people` into the database file at the path `db`, made there where
/// there is none.
pub fn init_at<S: Alter + Drop, F: PathFiles<S>, N, R: Read, W: Write>(
    alloc: Global,
    files: &mut F,
    host: &mut N,
    db: &str,
    people: &str,
    reader: &mut Counted<R>,
    writer: &mut Counted<W>,
) -> Result<u8, CommandFault>
    ensures { IsInitAt (files_of S.Store F.PathFiles) (streams R.remaining W.contents) db.now people.now
        (on_host host.old files.old reader.old writer.old) (on_host host.new files.new reader.new writer.new) result }
{
    let list = match files.read(people) {
        Ok(list) => list,
        Err(withheld) => return Err(CommandFault::List(withheld)),
    };
    let task = Init {
        list: list.as_slice(),
    };
    match open_at(files, db) {
        Ok(store) => task_in(alloc, files, host, store, &task, reader, writer),
        Err(cause) => Err(CommandFault::Database(cause)),
    }
}

/// Answers the records of the reader over a hall in memory, with the people of the entry list at the path and nothing
/// else.
pub fn replay_in_memory<S: Alter, F: PathFiles<S>, N, R: Read, W: Write>(
    alloc: Global,
    files: &mut F,
    host: &mut N,
    people: &str,
    reader: &mut Counted<R>,
    writer: &mut Counted<W>,
) -> Result<u8, CommandFault>
    ensures { IsReplayInMemory (files_of S.Store F.PathFiles) (streams R.remaining W.contents) people.now
        (on_host host.old files.old reader.old writer.old) (on_host host.new files.new reader.new writer.new) result }
{
    let list = match files.read(people) {
        Ok(list) => list,
        Err(error) => return Err(CommandFault::List(error)),
    };
    let task = Replay {
        list: list.as_slice(),
    };
    match open_in_memory(alloc) {
        Ok(store) => {
            let (left, ended) = task_over(alloc, host, store, &task, reader, writer);
            drop(left);
            ended
        }
        Err(_) => Err(CommandFault::Tool(ToolFault::Memory)),
    }
}
