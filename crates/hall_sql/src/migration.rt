//! A hall of the version before, taken whole into tables with testers.
ghost use Rattle.std.specs.Prelude.{◌≡◌, IsTrue, IfOk};
ghost use Rattle.std.specs.FinMap.{empty};
ghost use Rattle.sqlite.specs.Held.{state};
ghost use Rattle.sqlite.specs.State.{HasCleanDisk};
ghost use Rattle.hall_policy.specs.World.{World};
ghost use Rattle.hall_store.specs.Store.{Fails, Served};
ghost use Rattle.hall_sql.specs.AllRead.{AreAllRead};
ghost use Rattle.hall_sql.specs.FillCause.{FillCountedFails, TablesFail, TakeFails};
ghost use Rattle.hall_sql.specs.Migrate.{IsFoundBeside, Leaves, StopsAtWorld, TargetTakes};
ghost use Rattle.hall_sql.specs.Standing.{IsHall, KeptTables};
ghost use Rattle.hall_sql.specs.Content.{content_of};
ghost use Rattle.hall_sql.specs.Tables.{hall_schema};
ghost use Rattle.hall_sql.specs.WholeRows.{AreRowsOf, IsEmptyIn};

use crate::fill::fill;
use crate::testers::has_testers;
use crate::whole::{Whole, read_rows};
use hall_store::StoreFault;
use sqlite::{Alter, Connection};
use std::alloc::Global;

/// What became of the target.
#[derive(Clone, Copy, Debug, PartialEq, Eq)]
pub enum Migrated {
    /// It holds the source's world, and so many rows were written.
    Done(u64),
    /// It holds another world, and is left.
    Occupied,
}

/// What a target holds beside the rows that it is to take.
#[derive(Clone, Copy)]
enum Found {
    Nothing,
    These,
    Others,
}

/// What the tables hold beside the rows.
fn compare<T: Alter>(
    conn: &mut Connection<T>,
    alloc: Global,
    rows: &Whole,
) -> Result<Found, StoreFault>
    requires hall { IsHall (state T.Store conn.old) }
    ensures rested { KeptTables (state T.Store conn.old) (state T.Store conn.new) }
    ensures served { Served (content_of (state T.Store conn.new)) result
        (λ held found. IsFoundBeside rows.now held found) }
    ensures whole { HasCleanDisk (state T.Store conn.new) → IfOk result (λ _.
        AreAllRead hall_schema (state T.Store conn.old).now.trees) }
    ensures cause { HasCleanDisk (state T.Store conn.new)
        → Fails (TablesFail hall_schema (state T.Store conn.old) (state T.Store conn.new)) result }
{
    let held = read_rows(conn, alloc)?;
    if has_testers(conn, alloc)? {
        Ok(Found::Others)
    } else if held.is_empty() {
        Ok(Found::Nothing)
    } else if held.is_same(rows) {
        Ok(Found::These)
    } else {
        Ok(Found::Others)
    }
}

/// Fills tables that hold nothing.
fn fill_counted<T: Alter>(
    conn: &mut Connection<T>,
    alloc: Global,
    rows: &Whole,
) -> Result<Migrated, StoreFault>
    requires hall { IsHall (state T.Store conn.old) }
    requires nothing { IsEmptyIn (state T.Store conn.old) }
    ensures hall { IsHall (state T.Store conn.new) }
    ensures leaves { Leaves (state T.Store conn.old) (state T.Store conn.new) result }
    ensures stops { (world : World) → AreRowsOf world rows.now → world.testers ≡ empty
        → IsTrue (state T.Store conn.old).is_open
        → StopsAtWorld world (state T.Store conn.old) (state T.Store conn.new) }
    ensures takes { (world : World) → AreRowsOf world rows.now → world.testers ≡ empty
        → TargetTakes world (state T.Store conn.old) (state T.Store conn.new) result }
    ensures cause { HasCleanDisk (state T.Store conn.new)
        → Fails (FillCountedFails rows.now (state T.Store conn.old) (state T.Store conn.new)) result }
{
    match rows.count() {
        Some(count) => {
            fill(conn, alloc, rows)?;
            Ok(Migrated::Done(count))
        }
        None => Err(StoreFault::Failed),
    }
}

/// Puts the rows in tables that hold nothing, and tells of tables that hold these or others.
pub(crate) fn take_rows<T: Alter>(
    conn: &mut Connection<T>,
    alloc: Global,
    rows: &Whole,
) -> Result<Migrated, StoreFault>
    requires hall { IsHall (state T.Store conn.old) }
    ensures hall { IsHall (state T.Store conn.new) }
    ensures leaves { Leaves (state T.Store conn.old) (state T.Store conn.new) result }
    ensures stops { (world : World) → AreRowsOf world rows.now → world.testers ≡ empty
        → StopsAtWorld world (state T.Store conn.old) (state T.Store conn.new) }
    ensures takes { (world : World) → AreRowsOf world rows.now → world.testers ≡ empty
        → TargetTakes world (state T.Store conn.old) (state T.Store conn.new) result }
    ensures cause { HasCleanDisk (state T.Store conn.new)
        → Fails (TakeFails rows.now (state T.Store conn.old) (state T.Store conn.new)) result }
{
    match compare(conn, alloc, rows)? {
        Found::Nothing => fill_counted(conn, alloc, rows),
        Found::These => Ok(Migrated::Done(0)),
        Found::Others => Ok(Migrated::Occupied),
    }
}
