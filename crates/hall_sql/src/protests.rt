//! The table of protests.
ghost use Rattle.std.specs.Prelude.{◌≡◌, ◌↔◌, IsTrue, IfOk, IfSome, Some, None, Contains, [], ◌∷◌};
ghost use Rattle.std.specs.FinMap.{get, values};
ghost use Rattle.sqlite.specs.Held.{state};
ghost use Rattle.sqlite.specs.State.{HasCleanDisk};
ghost use Rattle.hall_policy.specs.Ranges.{IsProtestRow, IsRuling};
ghost use Rattle.hall_policy.specs.World.{ruling_points};
ghost use Rattle.hall_store.specs.Store.{Served, Fails, IsProtestOpen, Asks, protests_in};
ghost use Rattle.hall_policy.specs.declared.record.ProtestRow.{ProtestRow};
ghost use Rattle.hall_store.specs.Change.{CanAddProtest};
ghost use Rattle.hall_store.specs.declared.change.Change.TheVariants.{AddProtest, RuleProtest};
ghost use Rattle.sqlite.specs.Values.{bound};
ghost use Rattle.hall_sql.specs.Fill.{AddsProtest};
ghost use Rattle.hall_sql.specs.Inside.{LeadsUncommitted, DoesInside};
ghost use Rattle.hall_sql.specs.Columns.{protest_params, ruling_code, ruling_params, IsAlone};
ghost use Rattle.hall_sql.specs.Standing.{IsHall};
ghost use Rattle.hall_sql.specs.Content.{MakesInTables, content_of};
ghost use Rattle.sqlite.specs.declared.types.Value.TheVariants.{Text};
ghost use Rattle.hall_sql.specs.Rows.{protest_in};
ghost use Rattle.hall_sql.specs.Reads.{ReadsRows, ReadsTable};
ghost use Rattle.hall_sql.specs.Whole.{AreRecords};
ghost use Rattle.hall_sql.specs.Versions.{IsAnyHall};
ghost use Rattle.hall_sql.specs.WriteCause.{InsideFails, RunFails, RuleFails};

use crate::calls::{run, write_in};
use crate::counts::count;
use crate::reads::{find, read, read_any};
use hall_policy::{ProtestKey, ProtestRow, RoundId, Ruling};
use hall_store::StoreFault;
use sqlite::types::{ToSql, ValueRef};
use sqlite::{Alter, Connection, Transaction, params};
use std::alloc::Global;

/// The protest under a key.
const PROTEST: &str = "SELECT entrant, round, token, number, body, ruling, points FROM protests \
    WHERE entrant = ?1 AND round = ?2 AND token = ?3";

/// The protest under the key.
pub(crate) fn protest<S: Alter>(
    conn: &mut Connection<S>,
    alloc: Global,
    key: &ProtestKey,
) -> Result<Option<ProtestRow>, StoreFault>
    requires hall { IsHall (state S.Store conn.old) }
    ensures reads { ReadsRows protest_in PROTEST.now
        (Text key.now.entrant ∷ Text key.now.round ∷ Text key.now.token ∷ []) (state S.Store conn.old)
        (state S.Store conn.new) result (λ world found. found ≡ get world.protests key.now) }
    ensures alone { HasCleanDisk (state S.Store conn.new) → IfOk result
        (λ found. IfSome found (IsAlone key.now (state S.Store conn.new))) }
{
    find(
        conn,
        alloc,
        PROTEST,
        params![key.entrant.as_str(), key.round.as_str(), key.token.as_str()],
    )
}

/// The entrant's protests in the round, by token.
pub(crate) const PROTESTS_OF: &str =
    "SELECT entrant, round, token, number, body, ruling, points FROM protests \
    WHERE round = ?2 AND entrant = ?1 ORDER BY entrant, round, token";

/// The protests of the round, by entrant, then token.
pub(crate) const PROTESTS_IN: &str =
    "SELECT entrant, round, token, number, body, ruling, points FROM protests \
    WHERE round = ?1 ORDER BY entrant, round, token";

/// The protests of the round, by entrant, then token.
pub(crate) fn protests_in<S: Alter>(
    conn: &mut Connection<S>,
    alloc: Global,
    round: &RoundId,
) -> Result<Vec<ProtestRow>, StoreFault>
    requires hall { IsHall (state S.Store conn.old) }
    ensures { ReadsRows protest_in PROTESTS_IN.now (Text round.now ∷ []) (state S.Store conn.old)
        (state S.Store conn.new) result (λ world rows. rows.items ≡ protests_in world round.now) }
{
    let _schema = conn.schema();
    read(conn, alloc, PROTESTS_IN, params![round.as_str()])
}

/// All protests, in the order of their keys.
const ALL_PROTESTS: &str =
    "SELECT entrant, round, token, number, body, ruling, points FROM protests \
    ORDER BY entrant, round, token";

/// All protests, in the order of their keys, of either version.
pub(crate) fn all_protests<S: Alter>(
    conn: &mut Connection<S>,
    alloc: Global,
) -> Result<Vec<ProtestRow>, StoreFault>
    requires hall { IsAnyHall (state S.Store conn.old) }
    ensures { ReadsTable protest_in ALL_PROTESTS.now (state S.Store conn.old) (state S.Store conn.new) result
        (λ world rows. rows.items ≡ values world.protests) }
{
    let _schema = conn.schema();
    read_any(conn, alloc, ALL_PROTESTS, &[])
}

/// Whether one of the protests is open.
fn is_any_open(rows: &[ProtestRow]) -> bool
    ensures { IsTrue result ↔ ((row : ProtestRow) × Contains rows.now row × (row.ruling ≡ None)) }
{
    for row in rows {
        if row.ruling.is_none() {
            return true;
        }
    }
    false
}

/// Whether a protest of the round is open. All of them are read, so that one that is no record isn't taken for ruled.
pub(crate) fn has_open_protest<S: Alter>(
    conn: &mut Connection<S>,
    alloc: Global,
    round: &RoundId,
) -> Result<bool, StoreFault>
    requires hall { IsHall (state S.Store conn.old) }
    ensures { ReadsRows protest_in PROTESTS_IN.now (Text round.now ∷ []) (state S.Store conn.old)
        (state S.Store conn.new) result (λ world found. IsTrue found ↔ IsProtestOpen world round.now) }
{
    let rows = protests_in(conn, alloc, round)?;
    Ok(is_any_open(&rows))
}

/// The code of a ruling; 0 while the protest is open.
fn ruling_code(ruling: &Option<Ruling>) -> u32
    ensures { result ≡ ruling_code ruling.now }
{
    match ruling {
        None => 0,
        Some(Ruling::Upheld(_)) => 1,
        Some(Ruling::Rejected) => 2,
    }
}

/// The points of a ruling, and 0 where it has none.
fn points_of(ruling: &Option<Ruling>) -> i32
    ensures value { result ≡ ruling_points ruling.now }
    ensures in_range { IfSome ruling.now IsRuling }
{
    match ruling {
        Some(Ruling::Upheld(points)) => i32::from(points.get()),
        Some(Ruling::Rejected) | None => 0,
    }
}

/// Tells a proof that the protest lies in the ranges of its types.
fn in_range(row: &ProtestRow)
    ensures { IsProtestRow row.now }
{
    let _entrant = row.key.entrant.as_str();
    let _round = row.key.round.as_str();
    let _token = row.key.token.as_str();
    let _number = row.number.get();
    let _text = row.text.as_str();
    let _points = points_of(&row.ruling);
}

/// One more protest.
const ADD_PROTEST: &str =
    "INSERT INTO protests (entrant, round, token, number, body, ruling, points) \
    VALUES (?1, ?2, ?3, ?4, ?5, ?6, ?7)";

/// The columns of a protest.
fn columns(row: &ProtestRow) -> [ValueRef<'_>; 7]
    ensures { bound result ≡ protest_params row.now }
{
    [
        row.key.entrant.as_str().to_sql(),
        row.key.round.as_str().to_sql(),
        row.key.token.as_str().to_sql(),
        (row.number.get() as u32).to_sql(),
        row.text.as_str().to_sql(),
        ruling_code(&row.ruling).to_sql(),
        points_of(&row.ruling).to_sql(),
    ]
}

/// Adds a protest under a new key, inside a transaction.
pub(crate) fn add_inside<S: Alter>(
    tx: &mut Transaction<'_, S>,
    row: &ProtestRow,
) -> Result<(), StoreFault>
    ensures same_reference { tx.new.conn.ghost_name ≡ tx.old.conn.ghost_name }
    ensures carries { LeadsUncommitted (state S.Store tx.old.conn.now) (state S.Store tx.new.conn.now) }
    ensures done { DoesInside (state S.Store tx.old.conn.now) (state S.Store tx.new.conn.now)
        (λ a b. AddsProtest a row.now b) result }
    ensures cause { InsideFails (state S.Store tx.old.conn.now) (state S.Store tx.new.conn.now)
        (RunFails ADD_PROTEST.now (protest_params row.now) (state S.Store tx.old.conn.now)
        (state S.Store tx.new.conn.now)) result }
{
    in_range(row);
    write_in(tx, ADD_PROTEST, &columns(row))
}

/// Stores one more protest.
pub(crate) fn add_protest<S: Alter>(
    conn: &mut Connection<S>,
    row: &ProtestRow,
) -> Result<(), StoreFault>
    requires hall { IsHall (state S.Store conn.old) }
    requires can { Asks (content_of (state S.Store conn.old)) (λ world. CanAddProtest world row.now) }
    ensures wrote { MakesInTables (AddProtest row.now) (state S.Store conn.old) (state S.Store conn.new) result }
    ensures cause { HasCleanDisk (state S.Store conn.new) → Fails (RunFails ADD_PROTEST.now
        (protest_params row.now) (state S.Store conn.old) (state S.Store conn.new)) result }
{
    in_range(row);
    run(conn, ADD_PROTEST, &columns(row))
}

/// The ruling of the protest under a key.
const RULE_PROTEST: &str = "UPDATE protests SET ruling = ?4, points = ?5 WHERE entrant = ?1 \
    AND round = ?2 AND token = ?3";

/// The columns of a ruling under a protest's key.
fn ruling_columns<'a>(key: &'a ProtestKey, ruling: &Option<Ruling>) -> [ValueRef<'a>; 5]
    ensures bound { bound result ≡ ruling_params key.now ruling.now }
    ensures in_range { IfSome ruling.now IsRuling }
{
    [
        key.entrant.as_str().to_sql(),
        key.round.as_str().to_sql(),
        key.token.as_str().to_sql(),
        ruling_code(ruling).to_sql(),
        points_of(ruling).to_sql(),
    ]
}

/// Rules the protest that stands alone under its key.
fn rule_found<S: Alter>(
    conn: &mut Connection<S>,
    key: &ProtestKey,
    row: &ProtestRow,
    ruling: Ruling,
) -> Result<(), StoreFault>
    requires hall { IsHall (state S.Store conn.old) }
    requires alone { HasCleanDisk (state S.Store conn.old) → IsAlone key.now (state S.Store conn.old) row.now }
    ensures wrote { MakesInTables (RuleProtest key.now ruling) (state S.Store conn.old) (state S.Store conn.new)
        result }
    ensures cause { HasCleanDisk (state S.Store conn.new) → Fails (RunFails RULE_PROTEST.now
        (ruling_params key.now (Some ruling)) (state S.Store conn.old) (state S.Store conn.new)) result }
{
    in_range(row);
    run(conn, RULE_PROTEST, &ruling_columns(key, &Some(ruling)))
}

/// Rules the protest under the key.
pub(crate) fn rule_protest<S: Alter>(
    conn: &mut Connection<S>,
    alloc: Global,
    key: &ProtestKey,
    ruling: Ruling,
) -> Result<(), StoreFault>
    requires hall { IsHall (state S.Store conn.old) }
    ensures wrote { MakesInTables (RuleProtest key.now ruling) (state S.Store conn.old) (state S.Store conn.new)
        result }
    ensures cause { HasCleanDisk (state S.Store conn.new) → Fails (RuleFails key.now ruling
        (state S.Store conn.old) (state S.Store conn.new)) result }
{
    match protest(conn, alloc, key)? {
        Some(row) => rule_found(conn, key, &row, ruling),
        None => Ok(()),
    }
}
