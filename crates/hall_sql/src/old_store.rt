//! The tables of the version before, which had no testers.
ghost use Rattle.std.specs.Prelude.{◌≡◌, IfOk, IfErr};
ghost use Rattle.sqlite.specs.Held.{state};
ghost use Rattle.sqlite.specs.State.{HasCleanDisk};
ghost use Rattle.hall_store.specs.Store.{Fails, IsSettled, Served};
ghost use Rattle.hall_store.specs.declared.fault.StoreFault.TheVariants.{Failed};
ghost use Rattle.hall_sql.specs.AdoptCause.{AdoptOldFails};
ghost use Rattle.hall_sql.specs.AllRead.{AreAllRead};
ghost use Rattle.hall_sql.specs.BadRows.{AreNone, AreToldBad};
ghost use Rattle.hall_sql.specs.Cause.{IsStoreCause};
ghost use Rattle.hall_sql.specs.FillCause.{TablesFail};
ghost use Rattle.hall_sql.specs.Made.{old_tables};
ghost use Rattle.hall_sql.specs.Migrate.{Migrates, old_content_of};
ghost use Rattle.hall_sql.specs.OldStore.{IsStoreTaken};
ghost use Rattle.hall_sql.specs.Standing.{AddsNoOutcome, HasDeclined, IsTabled, KeptTablesIn};
ghost use Rattle.hall_sql.specs.Tables.{old_schema};
ghost use Rattle.hall_sql.specs.WholeRows.{AreRowsOf};

use crate::adoption::adopt_old;
use crate::bad_rows::{BadRows, bad_rows};
use crate::calls::live;
use crate::declined::Declined;
use crate::migration::Migrated;
use crate::sql_store::SqlStore;
use crate::tables::OLD;
use crate::whole::{Whole, read_rows};
use hall_store::StoreFault;
use sqlite::{Alter, Connection};
use std::alloc::Global;
use std::marker::Model;

/// The hall's world in the six tables that a hall of the version before kept, to be read.
#[derive(Drop)]
pub struct OldStore<S: Alter> {
    conn: Connection<S>,
}

/// What became of a connection that may have the tables of the version before.
#[derive(Drop)]
pub enum Taken<S: Alter> {
    /// It has them, and was taken over.
    Old(OldStore<S>),
    /// It has others, or none, and is handed back as it was.
    Other(Connection<S>),
}

impl<S: Alter> Model for OldStore<S> {
    ghost use Rattle.sqlite.specs.Held.{Held, held_code, state};
    ghost use Rattle.hall_sql.specs.Standing.{IsTabled};
    ghost use Rattle.hall_sql.specs.Tables.{old_schema};

    ghost Value = { Held S };

    ghost coded = { held_code S.code };

    ghost view = { λ s. s.conn };

    ghost invariant = { λ s. IsTabled old_schema (state S.Store s.conn) };
}

impl<S: Alter + Drop> OldStore<S> {
    /// Takes over a connection with the tables of the version before. One with others, or one that is refused, is
    /// handed back as it was.
    pub fn over(mut conn: Connection<S>) -> Result<Taken<S>, Declined<S>>
        ensures taken { IfOk result (IsStoreTaken S.Store conn) }
        ensures declined { IfErr result (λ declined. HasDeclined (state S.Store conn) (state S.Store declined.conn)) }
        ensures stops { IfErr result (λ declined. AddsNoOutcome (state S.Store conn) (state S.Store declined.conn)) }
        ensures cause { IfErr result (λ declined. HasCleanDisk (state S.Store declined.conn) → declined.fault ≡ Failed
            → AdoptOldFails (state S.Store conn) (state S.Store declined.conn)) }
    {
        match adopt_old(&mut conn) {
            Ok(true) => Ok(Taken::Old(OldStore { conn })),
            Ok(false) => Ok(Taken::Other(conn)),
            Err(fault) => Err(Declined { conn, fault }),
        }
    }

    /// The connection, as the last call left it: no transaction is open.
    pub fn into_connection(self) -> Connection<S>
        ensures same { result ≡ self }
        ensures old { IsTabled old_schema (state S.Store result) }
    {
        self.conn
    }

    /// Tells a proof that the tables are those of the version before.
    pub fn in_old_hall(&self)
        ensures { IsTabled old_schema (state S.Store self.now) }
    {
        let _conn = &self.conn;
    }

    /// Tells a proof that a stop leaves its world, while it serves.
    pub fn at_rest(&self)
        ensures { IsSettled (old_content_of (state S.Store self.now)) }
    {
        self.in_old_hall();
        live(&self.conn);
    }

    /// The rows of the tables that are no record, table by table.
    pub fn bad_rows(&mut self, alloc: Global) -> Result<Vec<BadRows>, StoreFault>
        ensures rested { KeptTablesIn old_schema (state S.Store self.old) (state S.Store self.new) }
        ensures bad { HasCleanDisk (state S.Store self.new) → IfOk result (λ bad.
            AreToldBad old_tables (state S.Store self.old) (state S.Store self.new) bad.items) }
        ensures whole { HasCleanDisk (state S.Store self.new) → IfOk result (λ bad.
            AreNone bad.items → AreAllRead old_schema (state S.Store self.old).now.trees) }
        ensures cause { HasCleanDisk (state S.Store self.new)
            → Fails (IsStoreCause (state S.Store self.old) (state S.Store self.new)) result }
    {
        bad_rows(&mut self.conn, alloc, &OLD)
    }

    /// All rows of the tables.
    pub(crate) fn read_rows(&mut self, alloc: Global) -> Result<Whole, StoreFault>
        ensures rested { KeptTablesIn old_schema (state S.Store self.old) (state S.Store self.new) }
        ensures served { Served (old_content_of (state S.Store self.new)) result (λ world rows. AreRowsOf world rows) }
        ensures whole { HasCleanDisk (state S.Store self.new) → IfOk result (λ _.
            AreAllRead old_schema (state S.Store self.old).now.trees) }
        ensures cause { HasCleanDisk (state S.Store self.new)
            → Fails (TablesFail old_schema (state S.Store self.old) (state S.Store self.new)) result }
    {
        read_rows(&mut self.conn, alloc)
    }
}

/// Takes the whole world of a hall of the version before into one that holds nothing, or that already.
///
/// The source is only read. Where the target holds another world it is left, and so it is after a fault. A row of
/// either that is no record is a fault.
pub fn migrate<S: Alter + Drop, T: Alter + Drop>(
    alloc: Global,
    old: &mut OldStore<S>,
    new: &mut SqlStore<T>,
) -> Result<Migrated, StoreFault>
    ensures { Migrates (state S.Store old.old) (state S.Store old.new)
        (state T.Store new.old) (state T.Store new.new) result }
{
    new.in_hall();
    let rows = old.read_rows(alloc)?;
    new.take_rows(alloc, &rows)
}
