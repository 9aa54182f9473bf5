//! The hall's tables, made on a database with none.
ghost use Rattle.std.specs.Prelude.{◌≡◌, false, [], IsTrue, OnOk};
ghost use Rattle.sqlite.specs.Held.{state};
ghost use Rattle.sqlite.specs.State.{HasCleanDisk};
ghost use Rattle.hall_sql.specs.Inside.{LeadsUncommitted};
ghost use Rattle.hall_sql.specs.Tables.{no_schema};
ghost use Rattle.hall_sql.specs.Standing.{MakesAtMost, Readies};
ghost use Rattle.hall_sql.specs.Made.{Awaits, MakesHallTable, HasGrown, schema_before};
ghost use Rattle.hall_sql.specs.Cause.{IsStoreCause};
ghost use Rattle.hall_store.specs.Store.{Fails};

use crate::calls::{fault_of, run_in};
use crate::tables::{ALL, HallTable, table_text};
use hall_store::StoreFault;
use sqlite::{Alter, Connection, Transaction};

/// Makes the table, with no rows.
fn make_table<S: Alter>(tx: &mut Transaction<'_, S>, table: HallTable) -> Result<(), StoreFault>
    ensures same_reference { tx.new.conn.ghost_name ≡ tx.old.conn.ghost_name }
    ensures carries { LeadsUncommitted (state S.Store tx.old.conn.now) (state S.Store tx.new.conn.now) }
    ensures done { HasCleanDisk (state S.Store tx.new.conn.now) → IsTrue (state S.Store tx.old.conn.now).in_transaction
        → OnOk result (MakesHallTable table (state S.Store tx.old.conn.now) (state S.Store tx.new.conn.now)) }
    ensures cause { HasCleanDisk (state S.Store tx.new.conn.now) → IsTrue (state S.Store tx.old.conn.now).in_transaction
        → tx.old.conn.now.schema ≡ schema_before table
        → Fails (IsStoreCause (state S.Store tx.old.conn.now) (state S.Store tx.new.conn.now)) result }
{
    run_in(tx, table_text(table), &[])?;
    Ok(())
}

/// Makes the tables, one after another.
fn make_tables<S: Alter>(
    tx: &mut Transaction<'_, S>,
    tables: &[HallTable],
) -> Result<(), StoreFault>
    ensures same_reference { tx.new.conn.ghost_name ≡ tx.old.conn.ghost_name }
    ensures carries { LeadsUncommitted (state S.Store tx.old.conn.now) (state S.Store tx.new.conn.now) }
    ensures done { HasCleanDisk (state S.Store tx.new.conn.now) → IsTrue (state S.Store tx.old.conn.now).in_transaction
        → OnOk result (HasGrown tables.now [] (state S.Store tx.old.conn.now) (state S.Store tx.new.conn.now)) }
    ensures cause { HasCleanDisk (state S.Store tx.new.conn.now) → IsTrue (state S.Store tx.old.conn.now).in_transaction
        → Awaits tables.now (state S.Store tx.old.conn.now).now
        → Fails (IsStoreCause (state S.Store tx.old.conn.now) (state S.Store tx.new.conn.now)) result }
{
    for table in tables {
        make_table(tx, *table)?;
    }
    Ok(())
}

/// Makes all seven tables or none.
pub(crate) fn make<S: Alter>(conn: &mut Connection<S>) -> Result<(), StoreFault>
    requires alone { conn.old.in_transaction ≡ false }
    requires settled { IsTrue (state S.Store conn.old).is_open
        → (state S.Store conn.old).now ≡ (state S.Store conn.old).committed }
    requires bare { conn.old.schema ≡ no_schema }
    ensures readies { Readies (state S.Store conn.old) (state S.Store conn.new) result }
    ensures stops { MakesAtMost (state S.Store conn.old) (state S.Store conn.new) }
    ensures cause { HasCleanDisk (state S.Store conn.new)
        → Fails (IsStoreCause (state S.Store conn.old) (state S.Store conn.new)) result }
{
    let mut tx = conn.transaction();
    make_tables(&mut tx, &ALL)?;
    match tx.commit() {
        Ok(()) => Ok(()),
        Err(error) => Err(fault_of(&error)),
    }
}
