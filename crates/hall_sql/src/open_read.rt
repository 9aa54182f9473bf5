//! A hall's tables of either version in the files at a path, to be read.
ghost use Rattle.std.specs.Prelude.{◌≡◌, IfOk, IfErr};
ghost use Rattle.sqlite.specs.Held.{state};
ghost use Rattle.sqlite.specs.State.{HasCleanDisk};
ghost use Rattle.hall_store.specs.declared.fault.StoreFault.TheVariants.{Failed};
ghost use Rattle.hall_sql.specs.OpenedRead.{IsCauseToRead, IsTakenToRead, OpensToRead, RefusesToRead, StartsToRead};
ghost use Rattle.hall_sql.specs.Standing.{AddsNoOutcome, HasDeclined};
ghost use Rattle.hall_sql.specs.Tables.{IsOldSchema};

use crate::adoption::has_nothing;
use crate::declined::Declined;
use crate::old_store::{OldStore, Taken};
use crate::open::{OpenFault, PathFiles, give_back, unopened};
use crate::schema::{is_analyzed, is_old_schema};
use crate::sql_store::SqlStore;
use hall_store::StoreFault;
use sqlite::{Alter, Connection};

/// A hall that was found in a database.
#[derive(Drop)]
pub enum FoundHall<S: Alter> {
    /// Its tables are those of the present version.
    Present(SqlStore<S>),
    /// They are those of the version before.
    Old(OldStore<S>),
}

/// Takes over a connection with the tables of the version before.
fn take_old<S: Alter + Drop>(conn: Connection<S>) -> Result<FoundHall<S>, Declined<S>>
    requires old { IsOldSchema (state S.Store conn).now.schema }
    ensures taken { IfOk result (IsTakenToRead S.Store conn) }
    ensures declined { IfErr result (λ declined. HasDeclined (state S.Store conn) (state S.Store declined.conn)) }
    ensures stops { IfErr result (λ declined. AddsNoOutcome (state S.Store conn) (state S.Store declined.conn)) }
    ensures cause { IfErr result (λ declined. HasCleanDisk (state S.Store declined.conn) → declined.fault ≡ Failed
        → RefusesToRead (state S.Store conn) (state S.Store declined.conn)) }
{
    match OldStore::over(conn) {
        Ok(Taken::Old(store)) => Ok(FoundHall::Old(store)),
        Ok(Taken::Other(conn)) => Err(Declined {
            conn,
            fault: StoreFault::Failed,
        }),
        Err(declined) => Err(declined),
    }
}

/// Takes over a connection with the hall's tables of either version. One without any table is handed back, and none is
/// made.
fn take<S: Alter + Drop>(conn: Connection<S>) -> Result<FoundHall<S>, Declined<S>>
    ensures taken { IfOk result (IsTakenToRead S.Store conn) }
    ensures declined { IfErr result (λ declined. HasDeclined (state S.Store conn) (state S.Store declined.conn)) }
    ensures stops { IfErr result (λ declined. AddsNoOutcome (state S.Store conn) (state S.Store declined.conn)) }
    ensures cause { IfErr result (λ declined. HasCleanDisk (state S.Store declined.conn) → declined.fault ≡ Failed
        → RefusesToRead (state S.Store conn) (state S.Store declined.conn)) }
{
    if is_old_schema(conn.schema()) {
        return take_old(conn);
    }
    if has_nothing(conn.schema()) {
        return Err(Declined {
            conn,
            fault: StoreFault::Failed,
        });
    }
    match SqlStore::over(conn) {
        Ok(store) => Ok(FoundHall::Present(store)),
        Err(declined) => Err(declined),
    }
}

/// The hall's tables of either version in the files at the path, which are there. A database without any table is
/// refused, and so is one with others.
pub fn open_to_read<S: Alter + Drop, F: PathFiles<S>>(
    files: &mut F,
    path: &str,
) -> Result<FoundHall<S>, OpenFault>
    ensures opened { IfOk result (λ found.
        OpensToRead S.Store F.image_at F.tells F.opens files.old path.now found files.new) }
    ensures starts { IfOk result (StartsToRead S.Store (F.image_at path.now)) }
    ensures cause { IfErr result
        (IsCauseToRead S.Store F.image_at F.tells F.refuses F.sees F.opens F.closes files.old path.now files.new) }
{
    if files.is_missing(path) {
        return Err(OpenFault::Missing);
    }
    let conn = match files.open(path) {
        Ok(conn) => conn,
        Err(error) => return Err(unopened(files, path, error)),
    };
    let is_analyzed = is_analyzed(conn.schema());
    match take(conn) {
        Ok(found) => Ok(found),
        Err(Declined { conn, fault }) => {
            give_back(files, conn);
            if is_analyzed {
                return Err(OpenFault::Analyzed);
            }
            Err(OpenFault::Refused(fault))
        }
    }
}
