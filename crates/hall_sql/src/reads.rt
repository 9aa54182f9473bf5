//! The records that a query of the tables answers.
ghost use Rattle.std.specs.Prelude.{◌≡◌, map, Some, None, IfOk};
ghost use Rattle.sqlite.specs.Values.{bound};
ghost use Rattle.sqlite.specs.Held.{state};
ghost use Rattle.sqlite.specs.State.{HasCleanDisk};
ghost use Rattle.hall_store.specs.Store.{Fails};
ghost use Rattle.hall_sql.specs.Standing.{IsHall, IsOver, KeptTables, KeptAnyTables};
ghost use Rattle.hall_sql.specs.Asked.{AsksOne, IsAsked, IsAskedIn};
ghost use Rattle.hall_sql.specs.Cause.{ReadFails, AreRead, IsFound};

use crate::calls::live;
use crate::looks::{Tell, look};
use crate::record::{Record, at_most_one};
use hall_store::StoreFault;
use sqlite::types::ValueRef;
use sqlite::{Alter, Connection, Row};
use std::alloc::Global;

impl<T: Record + Drop> Tell for Vec<T> {
    ghost tells = { λ rows records. map T.Record.read rows ≡ map Some records.items };

    ghost is_unread = { λ row. T.Record.read row ≡ None };

    fn tell(&mut self, alloc: Global, row: &Row) -> Result<(), StoreFault> {
        let one = T::from_row(alloc, row)?;
        if self.push(one).is_err() {
            return Err(StoreFault::Memory);
        }
        Ok(())
    }
}

/// All rows of the query as records, over the tables of any schema.
pub(crate) fn read_any<S: Alter, T: Record + Drop>(
    conn: &mut Connection<S>,
    alloc: Global,
    sql: &str,
    params: &[ValueRef<'_>],
) -> Result<Vec<T>, StoreFault>
    requires asks { IsOver (IsAskedIn sql.now (bound params.now)) (state S.Store conn.old) }
    ensures rested { KeptAnyTables (state S.Store conn.old) (state S.Store conn.new) }
    ensures read { HasCleanDisk (state S.Store conn.new) → IfOk result (λ records.
        AreRead T.Record.read sql.now (bound params.now) (state S.Store conn.old) (state S.Store conn.new)
        records.items) }
    ensures cause { HasCleanDisk (state S.Store conn.new) → Fails
        (ReadFails T.Record.read sql.now (bound params.now) (state S.Store conn.old) (state S.Store conn.new)) result }
{
    look(conn, alloc, sql, params, Vec::<T>::new(alloc))
}

/// All rows of the query as records, over the hall's tables.
pub(crate) fn read<S: Alter, T: Record + Drop>(
    conn: &mut Connection<S>,
    alloc: Global,
    sql: &str,
    params: &[ValueRef<'_>],
) -> Result<Vec<T>, StoreFault>
    requires asks { IsAsked sql.now (bound params.now) }
    requires hall { IsHall (state S.Store conn.old) }
    ensures rested { KeptTables (state S.Store conn.old) (state S.Store conn.new) }
    ensures read { HasCleanDisk (state S.Store conn.new) → IfOk result (λ records.
        AreRead T.Record.read sql.now (bound params.now) (state S.Store conn.old) (state S.Store conn.new)
        records.items) }
    ensures cause { HasCleanDisk (state S.Store conn.new) → Fails
        (ReadFails T.Record.read sql.now (bound params.now) (state S.Store conn.old) (state S.Store conn.new)) result }
{
    read_any(conn, alloc, sql, params)
}

/// The one row, as a record, of a query that answers no more than one.
pub(crate) fn find<S: Alter, T: Record + Drop>(
    conn: &mut Connection<S>,
    alloc: Global,
    sql: &str,
    params: &[ValueRef<'_>],
) -> Result<Option<T>, StoreFault>
    requires asks { IsAsked sql.now (bound params.now) }
    requires one { AsksOne S.Store sql.now (bound params.now) }
    requires hall { IsHall (state S.Store conn.old) }
    ensures rested { KeptTables (state S.Store conn.old) (state S.Store conn.new) }
    ensures found { HasCleanDisk (state S.Store conn.new) → IfOk result
        (IsFound T.Record.read sql.now (bound params.now) (state S.Store conn.old) (state S.Store conn.new)) }
    ensures cause { HasCleanDisk (state S.Store conn.new) → Fails
        (ReadFails T.Record.read sql.now (bound params.now) (state S.Store conn.old) (state S.Store conn.new)) result }
{
    live(conn);
    at_most_one(read(conn, alloc, sql, params)?)
}
