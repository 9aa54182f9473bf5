//! What is told of all rows of a query, which are looked at one after another.
ghost use Rattle.std.specs.Prelude.{◌≡◌, ◌≢◌, ◌⊎◌, ◌++◌, ◌∷◌, [], List, true, IsTrue, Ok, Err, IfOk, OnOk, OnErr};
ghost use Rattle.std.specs.Prelude.{if◌then◌else◌};
ghost use Rattle.sqlite.specs.Values.{bound};
ghost use Rattle.sqlite.specs.Held.{state};
ghost use Rattle.sqlite.specs.Order.{Row as Columns};
ghost use Rattle.sqlite.specs.State.{HasCleanDisk, Shown};
ghost use Rattle.hall_store.specs.Store.{Fails};
ghost use Rattle.hall_store.specs.declared.fault.StoreFault.TheVariants.{Failed};
ghost use Rattle.hall_sql.specs.Asked.{IsAskedIn};
ghost use Rattle.hall_sql.specs.Cause.{IsStoreCause};
ghost use Rattle.hall_sql.specs.Feed.{IsAny, IsToldOf};
ghost use Rattle.hall_sql.specs.Standing.{IsOver, KeptAnyTables};

use crate::feed::{Give, feed_any};
use hall_store::StoreFault;
use http_server::Log;
use sqlite::types::ValueRef;
use sqlite::{Alter, Connection, Row};
use std::alloc::Global;
use std::marker::Model;

/// What is told of rows, one after another.
pub(crate) trait Tell {
    // The rows of which this is told.
    ghost tells: { List Columns → Self → Type 0 };

    // Of the row nothing can be told.
    ghost is_unread: { Columns → Type 0 };

    /// Tells of one row more. Refused, it tells of those before.
    fn tell(&mut self, alloc: Global, row: &Row) -> Result<(), StoreFault>
        ensures told { (rows : List Columns) → tells rows self.old →
            OnOk result (tells (rows ++ row.now ∷ []) self.new) }
        ensures same { (rows : List Columns) → tells rows self.old → OnErr result (tells rows self.new) }
        ensures unread { Fails (is_unread row.now) result };
}

/// Rows that were looked at; a contract sees them.
#[derive(Drop)]
struct Looked<C: Tell> {
    told: C,
    /// Whether of one of them nothing could be told. Those after it are looked at too: why a read fails is told of a
    /// whole answer.
    is_any_unread: bool,
    rows: Log<Row, ()>,
}

impl<C: Tell> Model for Looked<C> {
    ghost use Rattle.std.specs.Prelude.{List};
    ghost use Rattle.sqlite.specs.Order.{Row as Columns};
    ghost use Rattle.hall_sql.specs.Feed.{AreLooked, noted};

    ghost Value = { List Columns };

    ghost view = { λ l. noted l.rows.items };

    ghost invariant = { λ l. AreLooked C.tells C.is_unread (noted l.rows.items) l.is_any_unread l.told };
}

/// Whether nothing could be told of a row, which is no want of memory.
fn is_unread(told: Result<(), StoreFault>) -> Result<bool, StoreFault>
    ensures unread { IfOk result (λ unread. told ≡ (if unread then Err Failed else Ok tt)) }
    ensures other { OnErr result (told ≢ Ok tt) }
    ensures cause { Fails ⊥ result }
{
    match told {
        Ok(()) => Ok(false),
        Err(StoreFault::Failed) => Ok(true),
        Err(fault) => Err(fault),
    }
}

impl<C: Tell> Give<Looked<C>, Row> for Looked<C> {
    ghost use Rattle.std.specs.Prelude.{Some};
    ghost use Rattle.hall_sql.specs.Feed.{IsAdded};

    ghost read = { Some };

    ghost takes = { IsAdded };

    ghost refuses = { λ _ _. ⊥ };

    fn give(looked: &mut Looked<C>, alloc: Global, row: &Row) -> Result<(), StoreFault> {
        let unread = is_unread(looked.told.tell(alloc, row))?;
        looked.is_any_unread = looked.is_any_unread | unread;
        looked.rows = looked.rows.and(row, &());
        Ok(())
    }
}

/// What is told of all rows of the query, over the tables of any schema, where `told` tells of none.
pub(crate) fn look<S: Alter, C: Tell + Drop>(
    conn: &mut Connection<S>,
    alloc: Global,
    sql: &str,
    params: &[ValueRef<'_>],
    told: C,
) -> Result<C, StoreFault>
    requires asks { IsOver (IsAskedIn sql.now (bound params.now)) (state S.Store conn.old) }
    requires none { C.tells [] told }
    ensures rested { KeptAnyTables (state S.Store conn.old) (state S.Store conn.new) }
    ensures told { HasCleanDisk (state S.Store conn.new) → IfOk result
        (IsToldOf C.tells sql.now (bound params.now) (state S.Store conn.old) (state S.Store conn.new)) }
    ensures cause { HasCleanDisk (state S.Store conn.new) → Fails
        (IsStoreCause (state S.Store conn.old) (state S.Store conn.new) ⊎ ((rows : List Columns)
        × Shown sql.now (bound params.now) (state S.Store conn.old) (state S.Store conn.new) rows
        × IsAny C.is_unread rows)) result }
{
    let mut looked = Looked {
        told,
        is_any_unread: false,
        rows: Log::new(),
    };
    feed_any::<S, Looked<C>, Row, Looked<C>>(conn, alloc, sql, params, &mut looked)?;
    let Looked {
        told,
        is_any_unread,
        ..
    } = looked;
    if is_any_unread {
        return Err(StoreFault::Failed);
    }
    Ok(told)
}
