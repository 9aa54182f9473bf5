//! One statement each: what it leaves of the connection.
ghost use Rattle.std.specs.Prelude.{◌≡◌, ◌≢◌, true, IsTrue, Ok, IfOk, OnOk};
ghost use Rattle.sqlite.specs.Values.{bound};
ghost use Rattle.sqlite.specs.Held.{state};
ghost use Rattle.sqlite.specs.Given.{IsPlain};
ghost use Rattle.sqlite.specs.Listing.{understood};
ghost use Rattle.sqlite.specs.State.{HasCleanDisk, IsLive, Shown, Executes, FailsToQuery};
ghost use Rattle.sqlite.specs.declared.error.Error.{Error as Refusal};
ghost use Rattle.sqlite.specs.declared.error.Error.TheVariants.{SqliteFailure};
ghost use Rattle.sqlite.specs.declared.error.ErrorCode.TheVariants.{OutOfMemory};
ghost use Rattle.hall_store.specs.Store.{Fails};
ghost use Rattle.hall_store.specs.declared.fault.StoreFault.TheVariants.{Failed};
ghost use Rattle.hall_sql.specs.Standing.{IsHall, IsOver, KeptAnyTables};
ghost use Rattle.hall_sql.specs.Asked.{ReturnsNothing};
ghost use Rattle.hall_sql.specs.Inside.{LeadsUncommitted, RanInside};
ghost use Rattle.hall_sql.specs.WriteCause.{InsideFails, IsRun, IsWritten, RefusesInside, RefusesToAsk, RunFails};

use hall_store::StoreFault;
use sqlite::types::ValueRef;
use sqlite::{Alter, Connection, Error, ErrorCode, Row, Transaction};

/// Out of memory, or that the store failed.
pub(crate) fn fault_of(error: &Error) -> StoreFault
    ensures { result ≡ Failed → error.now ≢ SqliteFailure OutOfMemory }
{
    match error {
        Error::SqliteFailure(ErrorCode::OutOfMemory) => StoreFault::Memory,
        _ => StoreFault::Failed,
    }
}

/// Tells a proof that an open connection holds a database.
pub(crate) fn live<S: Alter>(conn: &Connection<S>)
    ensures { IsLive (state S.Store conn.now) }
{
    let _schema = conn.schema();
}

/// All rows of a query, which changes nothing.
pub(crate) fn ask<S: Alter>(
    conn: &mut Connection<S>,
    sql: &str,
    params: &[ValueRef<'_>],
) -> Result<Vec<Row>, StoreFault>
    requires plain { IsOver (λ schema. IsPlain (understood schema sql.now)) (state S.Store conn.old) }
    requires quiet { ReturnsNothing sql.now }
    ensures rested { KeptAnyTables (state S.Store conn.old) (state S.Store conn.new) }
    ensures serves { HasCleanDisk (state S.Store conn.new) → IfOk result
        (λ _. IsTrue (state S.Store conn.new).is_open) }
    ensures shown { HasCleanDisk (state S.Store conn.new) → IfOk result
        (λ rows. Shown sql.now (bound params.now) (state S.Store conn.old) (state S.Store conn.new) rows.items) }
    ensures cause { HasCleanDisk (state S.Store conn.new) → Fails ((e : Refusal) × (e ≢ SqliteFailure OutOfMemory)
        × FailsToQuery sql.now (bound params.now) (state S.Store conn.old) (state S.Store conn.new) e) result }
{
    match conn.query_all(sql, params) {
        Ok(rows) => Ok(rows),
        Err(error) => Err(fault_of(&error)),
    }
}

/// Runs a statement that writes rows. Refused, it changes nothing.
pub(crate) fn run<S: Alter>(
    conn: &mut Connection<S>,
    sql: &str,
    params: &[ValueRef<'_>],
) -> Result<(), StoreFault>
    requires hall { IsHall (state S.Store conn.old) }
    requires written { IsWritten sql.now (bound params.now) }
    ensures calls { IsRun sql.now (bound params.now) (state S.Store conn.old) (state S.Store conn.new) result }
    ensures cause { HasCleanDisk (state S.Store conn.new) → Fails (RunFails sql.now (bound params.now)
        (state S.Store conn.old) (state S.Store conn.new)) result }
{
    match conn.execute(sql, params) {
        Ok(_) => Ok(()),
        Err(error) => Err(fault_of(&error)),
    }
}

/// All rows of a query inside a transaction.
pub(crate) fn ask_in<S: Alter>(
    tx: &mut Transaction<'_, S>,
    sql: &str,
    params: &[ValueRef<'_>],
) -> Result<Vec<Row>, StoreFault>
    ensures same_reference { tx.new.conn.ghost_name ≡ tx.old.conn.ghost_name }
    ensures carries { LeadsUncommitted (state S.Store tx.old.conn.now) (state S.Store tx.new.conn.now) }
    ensures shown { HasCleanDisk (state S.Store tx.new.conn.now) → IfOk result (λ rows.
        Shown sql.now (bound params.now) (state S.Store tx.old.conn.now) (state S.Store tx.new.conn.now) rows.items) }
    ensures cause { HasCleanDisk (state S.Store tx.new.conn.now) → Fails (RefusesToAsk sql.now (bound params.now)
        (state S.Store tx.old.conn.now) (state S.Store tx.new.conn.now)) result }
{
    match tx.query_all(sql, params) {
        Ok(rows) => Ok(rows),
        Err(error) => Err(fault_of(&error)),
    }
}

/// Runs a statement that is no query inside a transaction.
pub(crate) fn run_in<S: Alter>(
    tx: &mut Transaction<'_, S>,
    sql: &str,
    params: &[ValueRef<'_>],
) -> Result<usize, StoreFault>
    ensures same_reference { tx.new.conn.ghost_name ≡ tx.old.conn.ghost_name }
    ensures carries { LeadsUncommitted (state S.Store tx.old.conn.now) (state S.Store tx.new.conn.now) }
    ensures mode { HasCleanDisk (state S.Store tx.new.conn.now) → IsTrue (state S.Store tx.old.conn.now).in_transaction
        → OnOk result ((state S.Store tx.new.conn.now).in_transaction ≡ true) }
    ensures runs { HasCleanDisk (state S.Store tx.new.conn.now) → IsTrue (state S.Store tx.old.conn.now).in_transaction
        → IfOk result (λ count. Executes sql.now (bound params.now)
        (state S.Store tx.old.conn.now) (state S.Store tx.new.conn.now) (Ok count)) }
    ensures cause { HasCleanDisk (state S.Store tx.new.conn.now) → IsTrue (state S.Store tx.old.conn.now).in_transaction
        → Fails (RefusesInside sql.now (bound params.now) (state S.Store tx.old.conn.now)
        (state S.Store tx.new.conn.now)) result }
{
    match tx.execute(sql, params) {
        Ok(count) => Ok(count),
        Err(error) => Err(fault_of(&error)),
    }
}

/// Runs a statement that writes rows inside a transaction.
pub(crate) fn write_in<S: Alter>(
    tx: &mut Transaction<'_, S>,
    sql: &str,
    params: &[ValueRef<'_>],
) -> Result<(), StoreFault>
    requires written { IsWritten sql.now (bound params.now) }
    ensures same_reference { tx.new.conn.ghost_name ≡ tx.old.conn.ghost_name }
    ensures carries { LeadsUncommitted (state S.Store tx.old.conn.now) (state S.Store tx.new.conn.now) }
    ensures ran { HasCleanDisk (state S.Store tx.new.conn.now) → IsTrue (state S.Store tx.old.conn.now).in_transaction
        → OnOk result (RanInside sql.now (bound params.now) (state S.Store tx.old.conn.now)
        (state S.Store tx.new.conn.now)) }
    ensures cause { InsideFails (state S.Store tx.old.conn.now) (state S.Store tx.new.conn.now)
        (RunFails sql.now (bound params.now) (state S.Store tx.old.conn.now) (state S.Store tx.new.conn.now)) result }
{
    run_in(tx, sql, params)?;
    Ok(())
}
