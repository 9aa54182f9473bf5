//! Whether the rowids of a table are integers, of which none stands twice.
ghost use Rattle.std.specs.Prelude.{◌≡◌, IsTrue, IfOk, OnOk, OnErr, [], ◌∷◌};
ghost use Rattle.sqlite.specs.Held.{state};
ghost use Rattle.sqlite.specs.State.{HasCleanDisk, IsUnchanged};
ghost use Rattle.std.specs.List.{AllByRecursion};
ghost use Rattle.hall_sql.specs.Versions.{HasTable};
ghost use Rattle.hall_sql.specs.Standing.{AddsNoOutcome, KeptOrRolledBack, LeadsConnection};
ghost use Rattle.hall_sql.specs.Scan.{IsAbove, Scanned, IsTableKeyed, AreScanned};
ghost use Rattle.hall_sql.specs.AdoptCause.{NextFails, ScanFails};
ghost use Rattle.hall_store.specs.Store.{Fails};

use crate::calls::fault_of;
use crate::tables::{HallTable, rowids_text};
use hall_store::StoreFault;
use sqlite::{Alter, Connection, Rows};

fn is_above(last: Option<i64>, id: i64) -> bool
    ensures is { IsTrue result → IsAbove last id }
    ensures only { IsAbove last id → IsTrue result }
{
    match last {
        None => true,
        Some(before) => before < id,
    }
}

/// The next rowid, which is above the last. Refused where it is not.
fn next_id<S: Alter>(rows: &mut Rows<'_, S>, last: Option<i64>) -> Result<Option<i64>, StoreFault>
    ensures same_reference { rows.new.conn.ghost_name ≡ rows.old.conn.ghost_name }
    ensures lasts { LeadsConnection (state S.Store rows.old.conn.now) (state S.Store rows.new.conn.now) }
    ensures stops { AddsNoOutcome (state S.Store rows.old.conn.now) (state S.Store rows.new.conn.now) }
    ensures rests { HasCleanDisk (state S.Store rows.new.conn.now)
        → KeptOrRolledBack (state S.Store rows.old.conn.now) (state S.Store rows.new.conn.now) }
    ensures scanned { HasCleanDisk (state S.Store rows.new.conn.now)
        → IfOk result (Scanned S.Store rows.old.conn.now rows.new.conn.now last) }
    ensures cause { HasCleanDisk (state S.Store rows.new.conn.now)
        → Fails (NextFails S.Store rows.old.conn.now rows.new.conn.now last) result }
{
    if let Err(error) = rows.advance() {
        return Err(fault_of(&error));
    }
    let Some(row) = rows.get() else {
        return Ok(None);
    };
    let id = match row.get::<i64>(0) {
        Ok(id) => id,
        Err(error) => return Err(fault_of(&error)),
    };
    if is_above(last, id) {
        Ok(Some(id))
    } else {
        Err(StoreFault::Failed)
    }
}

/// Refused where a rowid of the table is no integer or stands twice.
fn check_rowids<S: Alter>(conn: &mut Connection<S>, table: HallTable) -> Result<(), StoreFault>
    requires schema { HasCleanDisk (state S.Store conn.old) → HasTable conn.old.schema table }
    ensures lasts { LeadsConnection (state S.Store conn.old) (state S.Store conn.new) }
    ensures stops { AddsNoOutcome (state S.Store conn.old) (state S.Store conn.new) }
    ensures rests { HasCleanDisk (state S.Store conn.new)
        → KeptOrRolledBack (state S.Store conn.old) (state S.Store conn.new) }
    ensures scanned { HasCleanDisk (state S.Store conn.new)
        → OnOk result (IsUnchanged (state S.Store conn.old) (state S.Store conn.new)
        × IsTableKeyed (state S.Store conn.old) table) }
    ensures cause { HasCleanDisk (state S.Store conn.new)
        → Fails (ScanFails (table ∷ []) (state S.Store conn.old) (state S.Store conn.new)) result }
{
    let mut rows = match conn.query(rowids_text(table), &[]) {
        Ok(rows) => rows,
        Err(error) => return Err(fault_of(&error)),
    };
    let mut last = None;
    'scan: for _ in 0..u64::MAX {
        let Some(id) = next_id(&mut rows, last)? else {
            return Ok(());
        };
        last = Some(id);
    }
    // As many rows as the loop has rounds have no room anywhere.
    Err(StoreFault::Memory)
}

/// Refused where in one of the tables a rowid is no integer or stands twice.
pub(crate) fn check_all_rowids<S: Alter>(
    conn: &mut Connection<S>,
    tables: &[HallTable],
) -> Result<(), StoreFault>
    requires schema { HasCleanDisk (state S.Store conn.old) → AllByRecursion (HasTable conn.old.schema) tables.now }
    ensures lasts { LeadsConnection (state S.Store conn.old) (state S.Store conn.new) }
    ensures stops { AddsNoOutcome (state S.Store conn.old) (state S.Store conn.new) }
    ensures refused { HasCleanDisk (state S.Store conn.new)
        → OnErr result (KeptOrRolledBack (state S.Store conn.old) (state S.Store conn.new)) }
    ensures scanned { HasCleanDisk (state S.Store conn.new)
        → OnOk result (AreScanned tables.now (state S.Store conn.old) (state S.Store conn.new)) }
    ensures cause { HasCleanDisk (state S.Store conn.new)
        → Fails (ScanFails tables.now (state S.Store conn.old) (state S.Store conn.new)) result }
{
    for table in tables {
        check_rowids(conn, *table)?;
    }
    Ok(())
}
