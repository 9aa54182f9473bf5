//! Taking over an open connection.
ghost use Rattle.std.specs.Prelude.{◌≡◌, IsTrue, []};
ghost use Rattle.sqlite.specs.Held.{state};
ghost use Rattle.sqlite.specs.State.{HasCleanDisk};
ghost use Rattle.hall_store.specs.Store.{Fails};
ghost use Rattle.hall_sql.specs.Tables.{no_schema};
ghost use Rattle.hall_sql.specs.Standing.{AddsNoOutcome, Adopts, AdoptsOld, MakesAtMost, Readies, ReadiesOld};
ghost use Rattle.hall_sql.specs.AdoptCause.{AdoptFails, AdoptOldFails};

use crate::make::make;
use crate::scan::check_all_rowids;
use crate::schema::{is_hall_schema, is_old_schema};
use crate::tables::{ALL, OLD};
use hall_store::StoreFault;
use sqlite::{Alter, Connection};
use sqlite_schema::schema::Schema;

/// There is neither a table nor an index nor a view.
pub(crate) fn has_nothing(schema: &Schema) -> bool
    ensures is { IsTrue result → schema.now ≡ no_schema }
    ensures only { schema.now ≡ no_schema → IsTrue result }
{
    schema.tables.is_empty() && schema.indexes.is_empty() && schema.views.is_empty()
}

/// Makes the hall's tables where there is none, and looks through them where they stand.
fn ready<S: Alter>(conn: &mut Connection<S>) -> Result<(), StoreFault>
    ensures readies { Readies (state S.Store conn.old) (state S.Store conn.new) result }
    ensures stops { MakesAtMost (state S.Store conn.old) (state S.Store conn.new) }
    ensures cause { HasCleanDisk (state S.Store conn.new)
        → Fails (AdoptFails (state S.Store conn.old) (state S.Store conn.new)) result }
{
    if !conn.is_autocommit() {
        return Err(StoreFault::Failed);
    }
    if has_nothing(conn.schema()) {
        return make(conn);
    }
    if !is_hall_schema(conn.schema()) {
        return Err(StoreFault::Failed);
    }
    check_all_rowids(conn, &ALL)
}

/// Makes the hall's tables where there is none, and takes them over where they stand. Any other database is refused,
/// and so is an open transaction; a refused connection has the tables that it had. One that is taken over has no limit
/// on the steps of a query any more.
pub fn adopt<S: Alter>(conn: &mut Connection<S>) -> Result<(), StoreFault>
    ensures adopts { Adopts (state S.Store conn.old) (state S.Store conn.new) result }
    ensures stops { MakesAtMost (state S.Store conn.old) (state S.Store conn.new) }
    ensures cause { HasCleanDisk (state S.Store conn.new)
        → Fails (AdoptFails (state S.Store conn.old) (state S.Store conn.new)) result }
{
    match ready(conn) {
        Ok(()) => {
            conn.set_step_limit(None);
            Ok(())
        }
        Err(fault) => Err(fault),
    }
}

/// Looks through the tables of the version before, where they stand.
fn ready_old<S: Alter>(conn: &mut Connection<S>) -> Result<bool, StoreFault>
    ensures readies { ReadiesOld (state S.Store conn.old) (state S.Store conn.new) result }
    ensures stops { AddsNoOutcome (state S.Store conn.old) (state S.Store conn.new) }
    ensures cause { HasCleanDisk (state S.Store conn.new)
        → Fails (AdoptOldFails (state S.Store conn.old) (state S.Store conn.new)) result }
{
    if !conn.is_autocommit() {
        return Err(StoreFault::Failed);
    }
    if !is_old_schema(conn.schema()) {
        return Ok(false);
    }
    match check_all_rowids(conn, &OLD) {
        Ok(()) => Ok(true),
        Err(fault) => Err(fault),
    }
}

/// Takes over the tables of the version before, without testers, where they stand: false where the database has others.
/// An open transaction is refused. A connection that is not taken over has the tables that it had; one that is has no
/// limit on the steps of a query any more.
pub fn adopt_old<S: Alter>(conn: &mut Connection<S>) -> Result<bool, StoreFault>
    ensures adopts { AdoptsOld (state S.Store conn.old) (state S.Store conn.new) result }
    ensures stops { AddsNoOutcome (state S.Store conn.old) (state S.Store conn.new) }
    ensures cause { HasCleanDisk (state S.Store conn.new)
        → Fails (AdoptOldFails (state S.Store conn.old) (state S.Store conn.new)) result }
{
    match ready_old(conn) {
        Ok(true) => {
            conn.set_step_limit(None);
            Ok(true)
        }
        Ok(false) => Ok(false),
        Err(fault) => Err(fault),
    }
}
