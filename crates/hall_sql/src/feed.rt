//! The rows of a query, given one at a time to what takes them.
ghost use Rattle.std.specs.Prelude.{◌≡◌, IfOk, OnOk, OnErr, Option, Some};
ghost use Rattle.sqlite.specs.Values.{bound};
ghost use Rattle.sqlite.specs.Held.{state};
ghost use Rattle.sqlite.specs.Order.{Row as Columns};
ghost use Rattle.sqlite.specs.State.{HasCleanDisk};
ghost use Rattle.hall_store.specs.Store.{Fails};
ghost use Rattle.hall_sql.specs.Asked.{IsAsked, IsAskedIn};
ghost use Rattle.hall_sql.specs.Cause.{FeedFails};
ghost use Rattle.hall_sql.specs.Standing.{AddsNoOutcome, IsHall, IsOver, KeptAnyTables, KeptOrRolledBack, KeptTables};
ghost use Rattle.hall_sql.specs.Standing.{LeadsConnection};
ghost use Rattle.hall_sql.specs.Feed.{Steps, StepFails, FedRows, IsTurnedAway};

use crate::calls::fault_of;
use crate::record::Record;
use hall_policy::Sink;
use hall_store::StoreFault;
use sqlite::types::ValueRef;
use sqlite::{Alter, Connection, Row, Rows};
use std::alloc::Global;
use std::marker::PhantomData;

/// How a row is given to what takes the rows.
pub(crate) trait Give<K, X> {
    // What the columns of a row are read as.
    ghost read: { Columns → Option X };

    // The taker before, what was read, the taker after.
    ghost takes: { K → X → K → Type 0 };

    ghost refuses: { K → X → Type 0 };

    /// Refused, the taker stays as it was.
    fn give(taker: &mut K, alloc: Global, row: &Row) -> Result<(), StoreFault>
        ensures took { OnOk result ((x : X) × (read row.now ≡ Some x) × takes taker.old x taker.new) }
        ensures same { OnErr result (taker.new ≡ taker.old) }
        ensures refused { Fails (IsTurnedAway read refuses taker.old row.now) result };
}

/// Rows that are read as records of a kind, and given to a sink.
struct Records<T> {
    kind: PhantomData<T>,
}

impl<K: Sink<T>, T: Record + Drop> Give<K, T> for Records<T> {
    ghost read = { T.Record.read };

    ghost takes = { K.takes };

    ghost refuses = { K.refuses };

    fn give(sink: &mut K, alloc: Global, row: &Row) -> Result<(), StoreFault> {
        let record = T::from_row(alloc, row)?;
        sink.take(&record)?;
        Ok(())
    }
}

/// Reads one row more, and gives it. False where there is none.
fn step<S: Alter, K, X, G: Give<K, X>>(
    rows: &mut Rows<'_, S>,
    alloc: Global,
    taker: &mut K,
) -> Result<bool, StoreFault>
    ensures same_reference { rows.new.conn.ghost_name ≡ rows.old.conn.ghost_name }
    ensures lasts { LeadsConnection (state S.Store rows.old.conn.now) (state S.Store rows.new.conn.now) }
    ensures stops { AddsNoOutcome (state S.Store rows.old.conn.now) (state S.Store rows.new.conn.now) }
    ensures rests { HasCleanDisk (state S.Store rows.new.conn.now) →
        KeptOrRolledBack (state S.Store rows.old.conn.now) (state S.Store rows.new.conn.now) }
    ensures stepped { IfOk result
        (Steps S.Store G.read G.takes rows.old.conn.now rows.new.conn.now taker.old taker.new) }
    ensures same { OnErr result (taker.new ≡ taker.old) }
    ensures cause { HasCleanDisk (state S.Store rows.new.conn.now) → Fails
        (StepFails S.Store G.read G.refuses rows.old.conn.now rows.new.conn.now taker.old) result }
{
    if let Err(error) = rows.advance() {
        return Err(fault_of(&error));
    }
    let Some(row) = rows.get() else {
        return Ok(false);
    };
    G::give(taker, alloc, row)?;
    Ok(true)
}

/// Gives the rows of a query over the tables of any schema, one after another.
pub(crate) fn feed_any<S: Alter, K, X, G: Give<K, X>>(
    conn: &mut Connection<S>,
    alloc: Global,
    sql: &str,
    params: &[ValueRef<'_>],
    taker: &mut K,
) -> Result<(), StoreFault>
    requires asks { IsOver (IsAskedIn sql.now (bound params.now)) (state S.Store conn.old) }
    ensures rested { KeptAnyTables (state S.Store conn.old) (state S.Store conn.new) }
    ensures fed { FedRows S.Store G.read G.takes sql.now (bound params.now)
        (state S.Store conn.old) (state S.Store conn.new) taker.old result taker.new }
    ensures cause { HasCleanDisk (state S.Store conn.new) → Fails (FeedFails G.read G.takes G.refuses sql.now
        (bound params.now) (state S.Store conn.old) (state S.Store conn.new) taker.old taker.new) result }
{
    let mut rows = match conn.query(sql, params) {
        Ok(rows) => rows,
        Err(error) => return Err(fault_of(&error)),
    };
    'feed: for _ in 0..u64::MAX {
        if !step::<S, K, X, G>(&mut rows, alloc, taker)? {
            return Ok(());
        }
    }
    // As many rows as the loop has rounds have no room anywhere.
    Err(StoreFault::Memory)
}

/// Gives the sink the records that the rows of a query are, one after another.
pub(crate) fn feed<S: Alter, K: Sink<T>, T: Record + Drop>(
    conn: &mut Connection<S>,
    alloc: Global,
    sql: &str,
    params: &[ValueRef<'_>],
    sink: &mut K,
) -> Result<(), StoreFault>
    requires asks { IsAsked sql.now (bound params.now) }
    requires hall { IsHall (state S.Store conn.old) }
    ensures rested { KeptTables (state S.Store conn.old) (state S.Store conn.new) }
    ensures fed { FedRows S.Store T.read K.takes sql.now (bound params.now)
        (state S.Store conn.old) (state S.Store conn.new) sink.old result sink.new }
    ensures cause { HasCleanDisk (state S.Store conn.new) → Fails (FeedFails T.read K.takes K.refuses sql.now
        (bound params.now) (state S.Store conn.old) (state S.Store conn.new) sink.old sink.new) result }
{
    feed_any::<S, K, T, Records<T>>(conn, alloc, sql, params, sink)
}
