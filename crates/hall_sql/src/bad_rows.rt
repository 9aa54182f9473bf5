//! The rows of the tables that are no record, by their rowids, and the tables that take no more rows.
ghost use Rattle.std.specs.Prelude.{◌≡◌, ◌≢◌, ◌↔◌, ◌++◌, IsTrue, IfOk, OnOk, OnErr, [], ◌∷◌, if◌then◌else◌};
ghost use Rattle.std.specs.Prelude.{false, is_some, None};
ghost use Rattle.sqlite.specs.declared.types.Value.TheVariants.{Int};
ghost use Rattle.sqlite.specs.Held.{state};
ghost use Rattle.sqlite.specs.State.{HasCleanDisk};
ghost use Rattle.sqlite_value.specs.Order.{column};
ghost use Rattle.hall_store.specs.Store.{Fails};
ghost use Rattle.hall_sql.specs.Asked.{IsAskedIn};
ghost use Rattle.hall_sql.specs.BadRows.{AreBadIn, AreNone, AreToldBad, FindsBad, HasTables, last_rowid};
ghost use Rattle.hall_sql.specs.BadRows.{rowid_in};
ghost use Rattle.hall_sql.specs.Cause.{IsAnyUnread, IsStoreCause, ReadFails};
ghost use Rattle.hall_sql.specs.Standing.{IsOver, KeptAnyTables};
ghost use Rattle.hall_sql.specs.Versions.{HasTable};
ghost use Rattle.hall_sql.specs.declared.tables.HallTable.TheVariants.{People, Puzzles, Rounds, Places, Answers};
ghost use Rattle.hall_sql.specs.declared.tables.HallTable.TheVariants.{Protests, Testers};

use crate::calls::fault_of;
use crate::looks::{Tell, look};
use crate::record::{Place, Record, Tester};
use crate::tables::HallTable;
use hall_policy::{AnswerRow, Person, ProtestRow, PuzzleRow, Round};
use hall_store::StoreFault;
use sqlite::{Alter, Connection, Row};
use std::alloc::Global;
use std::marker::PhantomData;

/// The rowids of those rows of a table that are no record, and whether a row has the greatest rowid that there is, so
/// that none can be added.
#[derive(Drop)]
pub struct BadRows {
    pub table: HallTable,
    pub rowids: Vec<i64>,
    pub is_full: bool,
}

const PEOPLE_ROWS: &str = "SELECT name, pass, roles, rowid FROM people ORDER BY rowid";

const PUZZLES_ROWS: &str =
    "SELECT author, label, body, state, solution, rowid FROM puzzles ORDER BY rowid";

const ROUNDS_ROWS: &str = concat!(
    "SELECT id, title, start, minutes, protest_minutes, mode, penalty, bonus, released, published, ",
    "rowid FROM rounds ORDER BY rowid"
);

const PLACES_ROWS: &str =
    "SELECT round, number, author, label, points, rowid FROM round_puzzles ORDER BY rowid";

const ANSWERS_ROWS: &str = concat!(
    "SELECT entrant, round, number, token, n, moment, answer, verdict, rowid FROM answers ",
    "ORDER BY rowid"
);

const PROTESTS_ROWS: &str = concat!(
    "SELECT entrant, round, token, number, body, ruling, points, rowid FROM protests ",
    "ORDER BY rowid"
);

const TESTERS_ROWS: &str = "SELECT round, name, rowid FROM testers ORDER BY rowid";

/// The rowid in the column.
fn rowid_at(row: &Row, at: usize) -> Result<i64, StoreFault>
    ensures id { IfOk result (λ id. column row.now at ≡ Int id) }
    ensures unread { Fails (rowid_in at row.now ≡ None) result }
{
    match row.get::<i64>(at) {
        Ok(id) => Ok(id),
        Err(error) => Err(fault_of(&error)),
    }
}

/// Whether the columns are a record of this kind.
fn is_record<T: Record + Drop>(alloc: Global, row: &Row) -> Result<bool, StoreFault>
    ensures is { IfOk result (λ is. is ≡ is_some (T.Record.read row.now)) }
    ensures cause { Fails ⊥ result }
{
    match T::from_row(alloc, row) {
        Ok(_record) => Ok(true),
        Err(StoreFault::Failed) => Ok(false),
        Err(fault) => Err(fault),
    }
}

/// The rowid behind those before, but for that of a record.
fn add_bad(ids: &mut Vec<i64>, id: i64, is_record: bool) -> Result<(), StoreFault>
    ensures added { OnOk result (ids.new.items ≡ ids.old.items ++ (if is_record then [] else id ∷ [])) }
    ensures same { OnErr result (ids.new.items ≡ ids.old.items) }
    ensures cause { Fails ⊥ result }
{
    if is_record {
        return Ok(());
    }
    if ids.push(id).is_err() {
        return Err(StoreFault::Memory);
    }
    Ok(())
}

/// Whether the table is full with one row more, of this rowid.
fn is_full_with(was_full: bool, id: i64) -> bool
    ensures { (result ≡ false) ↔ (was_full ≡ false) × (id ≢ last_rowid) }
{
    was_full || id == i64::MAX
}

/// The rowids of those rows that are no record, and whether one has the greatest: all show it in the column `AT`.
#[derive(Drop)]
struct Told<T, const AT: usize> {
    rowids: Vec<i64>,
    is_full: bool,
    kind: PhantomData<T>,
}

impl<T: Record + Drop, const AT: usize> Tell for Told<T, AT> {
    ghost use Rattle.hall_sql.specs.BadRows.{AreBadAmong};

    ghost tells = { λ rows told. AreBadAmong T.Record.read AT rows told.rowids.items told.is_full };

    ghost is_unread = { λ row. rowid_in AT row ≡ None };

    fn tell(&mut self, alloc: Global, row: &Row) -> Result<(), StoreFault> {
        let id = rowid_at(row, AT)?;
        let is_record = is_record::<T>(alloc, row)?;
        add_bad(&mut self.rowids, id, is_record)?;
        self.is_full = is_full_with(self.is_full, id);
        Ok(())
    }
}

/// What is told of those rows of the query that are no record of this kind, and of its rowids.
fn bad_in<S: Alter, T: Record + Drop, const AT: usize>(
    conn: &mut Connection<S>,
    alloc: Global,
    table: HallTable,
    sql: &str,
) -> Result<BadRows, StoreFault>
    requires asks { IsOver (IsAskedIn sql.now []) (state S.Store conn.old) }
    ensures rested { KeptAnyTables (state S.Store conn.old) (state S.Store conn.new) }
    ensures bad { HasCleanDisk (state S.Store conn.new) → IfOk result (λ bad.
        AreBadIn T.Record.read table AT sql.now (state S.Store conn.old) (state S.Store conn.new) bad) }
    ensures cause { HasCleanDisk (state S.Store conn.new) → Fails
        (ReadFails (rowid_in AT) sql.now [] (state S.Store conn.old) (state S.Store conn.new)) result }
{
    let none = Told::<T, AT> {
        rowids: Vec::new(alloc),
        is_full: false,
        kind: PhantomData,
    };
    let told = look(conn, alloc, sql, &[], none)?;
    Ok(BadRows {
        table,
        rowids: told.rowids,
        is_full: told.is_full,
    })
}

/// What is told of the table of people.
fn bad_people<S: Alter>(conn: &mut Connection<S>, alloc: Global) -> Result<BadRows, StoreFault>
    requires has { IsOver (λ schema. HasTable schema People) (state S.Store conn.old) }
    ensures { FindsBad People (state S.Store conn.old) (state S.Store conn.new) result }
{
    bad_in::<S, Person, 3>(conn, alloc, HallTable::People, PEOPLE_ROWS)
}

/// What is told of the table of puzzles.
fn bad_puzzles<S: Alter>(conn: &mut Connection<S>, alloc: Global) -> Result<BadRows, StoreFault>
    requires has { IsOver (λ schema. HasTable schema Puzzles) (state S.Store conn.old) }
    ensures { FindsBad Puzzles (state S.Store conn.old) (state S.Store conn.new) result }
{
    bad_in::<S, PuzzleRow, 5>(conn, alloc, HallTable::Puzzles, PUZZLES_ROWS)
}

/// What is told of the table of rounds.
fn bad_rounds<S: Alter>(conn: &mut Connection<S>, alloc: Global) -> Result<BadRows, StoreFault>
    requires has { IsOver (λ schema. HasTable schema Rounds) (state S.Store conn.old) }
    ensures { FindsBad Rounds (state S.Store conn.old) (state S.Store conn.new) result }
{
    bad_in::<S, Round, 10>(conn, alloc, HallTable::Rounds, ROUNDS_ROWS)
}

/// What is told of the table of places of rounds.
fn bad_places<S: Alter>(conn: &mut Connection<S>, alloc: Global) -> Result<BadRows, StoreFault>
    requires has { IsOver (λ schema. HasTable schema Places) (state S.Store conn.old) }
    ensures { FindsBad Places (state S.Store conn.old) (state S.Store conn.new) result }
{
    bad_in::<S, Place, 5>(conn, alloc, HallTable::Places, PLACES_ROWS)
}

/// What is told of the table of answers.
fn bad_answers<S: Alter>(conn: &mut Connection<S>, alloc: Global) -> Result<BadRows, StoreFault>
    requires has { IsOver (λ schema. HasTable schema Answers) (state S.Store conn.old) }
    ensures { FindsBad Answers (state S.Store conn.old) (state S.Store conn.new) result }
{
    bad_in::<S, AnswerRow, 8>(conn, alloc, HallTable::Answers, ANSWERS_ROWS)
}

/// What is told of the table of protests.
fn bad_protests<S: Alter>(conn: &mut Connection<S>, alloc: Global) -> Result<BadRows, StoreFault>
    requires has { IsOver (λ schema. HasTable schema Protests) (state S.Store conn.old) }
    ensures { FindsBad Protests (state S.Store conn.old) (state S.Store conn.new) result }
{
    bad_in::<S, ProtestRow, 7>(conn, alloc, HallTable::Protests, PROTESTS_ROWS)
}

/// What is told of the table of testers.
fn bad_testers<S: Alter>(conn: &mut Connection<S>, alloc: Global) -> Result<BadRows, StoreFault>
    requires has { IsOver (λ schema. HasTable schema Testers) (state S.Store conn.old) }
    ensures { FindsBad Testers (state S.Store conn.old) (state S.Store conn.new) result }
{
    bad_in::<S, Tester, 2>(conn, alloc, HallTable::Testers, TESTERS_ROWS)
}

/// What is told of the table.
fn bad_rows_of<S: Alter>(
    conn: &mut Connection<S>,
    alloc: Global,
    table: HallTable,
) -> Result<BadRows, StoreFault>
    requires has { IsOver (λ schema. HasTable schema table) (state S.Store conn.old) }
    ensures { FindsBad table (state S.Store conn.old) (state S.Store conn.new) result }
{
    match table {
        HallTable::People => bad_people(conn, alloc),
        HallTable::Puzzles => bad_puzzles(conn, alloc),
        HallTable::Rounds => bad_rounds(conn, alloc),
        HallTable::Places => bad_places(conn, alloc),
        HallTable::Answers => bad_answers(conn, alloc),
        HallTable::Protests => bad_protests(conn, alloc),
        HallTable::Testers => bad_testers(conn, alloc),
    }
}

/// One table more.
fn add(bad: &mut Vec<BadRows>, rows: BadRows) -> Result<(), StoreFault>
    ensures added { OnOk result (bad.new.items ≡ bad.old.items ++ rows ∷ []) }
    ensures cause { Fails ⊥ result }
{
    if bad.push(rows).is_err() {
        return Err(StoreFault::Memory);
    }
    Ok(())
}

/// What is told of each of the tables.
pub(crate) fn bad_rows<S: Alter>(
    conn: &mut Connection<S>,
    alloc: Global,
    tables: &[HallTable],
) -> Result<Vec<BadRows>, StoreFault>
    requires has { IsOver (HasTables tables.now) (state S.Store conn.old) }
    ensures rested { KeptAnyTables (state S.Store conn.old) (state S.Store conn.new) }
    ensures bad { HasCleanDisk (state S.Store conn.new) → IfOk result (λ bad.
        AreToldBad tables.now (state S.Store conn.old) (state S.Store conn.new) bad.items) }
    ensures cause { HasCleanDisk (state S.Store conn.new)
        → Fails (IsStoreCause (state S.Store conn.old) (state S.Store conn.new)) result }
{
    let mut bad = Vec::new(alloc);
    for table in tables {
        let rows = bad_rows_of(conn, alloc, *table)?;
        add(&mut bad, rows)?;
    }
    Ok(bad)
}

/// Whether no row is told, and no table as full.
pub fn is_whole(bad: &[BadRows]) -> bool
    ensures { IsTrue result ↔ AreNone bad.now }
{
    for rows in bad {
        if rows.is_full || !rows.rowids.is_empty() {
            return false;
        }
    }
    true
}
