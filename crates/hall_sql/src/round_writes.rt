//! What is written to the tables of rounds, of their puzzles and of their testers.
ghost use Rattle.std.specs.Prelude.{◌≡◌, ◌≤◌, ◌⊎◌, [], ◌∷◌, length, IsTrue, IfOk, OnOk};
ghost use Rattle.std.specs.FinMap.{get};
ghost use Rattle.sqlite.specs.Held.{state};
ghost use Rattle.sqlite.specs.Values.{bound};
ghost use Rattle.sqlite.specs.State.{HasCleanDisk};
ghost use Rattle.hall_policy.specs.Limits.{most_entries, most_number};
ghost use Rattle.hall_policy.specs.Ranges.{IsRound, IsRoundId, IsWithin, IsEntry};
ghost use Rattle.hall_store.specs.Store.{Served};
ghost use Rattle.hall_store.specs.Change.{flagged};
ghost use Rattle.hall_store.specs.declared.change.Change.TheVariants.{PutRound, SetRoundFlag};
ghost use Rattle.hall_sql.specs.Inside.{LeadsUncommitted, MakesInside, Changes, DoesInside};
ghost use Rattle.hall_sql.specs.Fill.{AddsHead};
ghost use Rattle.hall_sql.specs.RoundColumns.{mode_code, head_params, place_params, IsHead};
ghost use Rattle.hall_sql.specs.RoundPuts.{CountsHeads, PutsHead, PutsHeadOver, DropsPlaces, PutsPlace, PutsPlaces};
ghost use Rattle.hall_sql.specs.RoundPuts.{PutsList, PutsRows};
ghost use Rattle.hall_sql.specs.Standing.{IsHall, KeptTables};
ghost use Rattle.hall_sql.specs.Content.{MakesInTables, content_of};
ghost use Rattle.sqlite.specs.declared.types.Value.TheVariants.{Text};
ghost use Rattle.hall_store.specs.Store.{Fails};
ghost use Rattle.hall_sql.specs.Cause.{IsStoreCause};
ghost use Rattle.hall_sql.specs.WriteCause.{RunFails, SetFlagFails, PutRoundFails, InsideFails};
ghost use Rattle.hall_sql.specs.WriteCause.{IsHeadRefused, PlaceIsRefused, ListIsRefused};

use crate::calls::{ask_in, fault_of, live, run, write_in};
use crate::rounds::head;
use crate::testers::put_tester_list;
use hall_policy::{Entry, Mode, Round, RoundId, RoundRow};
use hall_store::{RoundFlag, StoreFault};
use sqlite::types::{ToSql, ValueRef};
use sqlite::{Alter, Connection, Transaction, params};
use std::alloc::Global;

/// The code of a mode.
fn mode_code(mode: Mode) -> u32
    ensures { result ≡ mode_code mode }
{
    match mode {
        Mode::Instant => 0,
        Mode::Sealed => 1,
    }
}

/// Tells a proof that the round lies in the ranges of its types.
fn in_range(round: &Round)
    ensures { IsRound round.now }
{
    let _id = round.id.as_str();
    let _title = round.title.as_str();
    let _start = round.start.get();
    let _minutes = round.minutes.get();
    let _protest_minutes = round.protest_minutes.get();
    let _penalty = round.penalty.get();
    let _bonus = round.bonus.get();
}

/// The columns of a round.
fn columns(round: &Round) -> [ValueRef<'_>; 10]
    ensures { bound result ≡ head_params round.now }
{
    [
        round.id.as_str().to_sql(),
        round.title.as_str().to_sql(),
        (round.start.get() as u32).to_sql(),
        (round.minutes.get() as u32).to_sql(),
        (round.protest_minutes.get() as u32).to_sql(),
        mode_code(round.mode).to_sql(),
        (round.penalty.get() as u32).to_sql(),
        (round.bonus.get() as u32).to_sql(),
        round.released.to_sql(),
        round.published.to_sql(),
    ]
}

/// A round in the place of the one under its id.
const REPLACE_HEAD: &str =
    "UPDATE rounds SET title = ?2, start = ?3, minutes = ?4, protest_minutes = ?5, mode = ?6, \
    penalty = ?7, bonus = ?8, released = ?9, published = ?10 WHERE id = ?1";

/// The round with the flag set.
fn flagged(mut round: Round, flag: RoundFlag) -> Round
    ensures { result ≡ flagged flag round }
{
    match flag {
        RoundFlag::Released => round.released = true,
        RoundFlag::Published => round.published = true,
    }
    round
}

/// Sets the flag of the round that stands under its id.
fn set_flag<S: Alter>(
    conn: &mut Connection<S>,
    round: Round,
    flag: RoundFlag,
) -> Result<(), StoreFault>
    requires hall { IsHall (state S.Store conn.old) }
    requires found { HasCleanDisk (state S.Store conn.old) → IsHead round.id (state S.Store conn.old) round }
    ensures wrote { MakesInTables (SetRoundFlag round.id flag) (state S.Store conn.old) (state S.Store conn.new)
        result }
    ensures cause { HasCleanDisk (state S.Store conn.new) → Fails (RunFails REPLACE_HEAD.now
        (head_params (flagged flag round)) (state S.Store conn.old) (state S.Store conn.new)) result }
{
    let flagged = flagged(round, flag);
    in_range(&flagged);
    run(conn, REPLACE_HEAD, &columns(&flagged))
}

/// Sets a flag of the round.
pub(crate) fn set_round_flag<S: Alter>(
    conn: &mut Connection<S>,
    alloc: Global,
    id: &RoundId,
    flag: RoundFlag,
) -> Result<(), StoreFault>
    requires hall { IsHall (state S.Store conn.old) }
    ensures wrote { MakesInTables (SetRoundFlag id.now flag) (state S.Store conn.old) (state S.Store conn.new) result }
    ensures cause { HasCleanDisk (state S.Store conn.new) → Fails (SetFlagFails id.now flag
        (state S.Store conn.old) (state S.Store conn.new)) result }
{
    match head(conn, alloc, id)? {
        Some(round) => set_flag(conn, round, flag),
        None => Ok(()),
    }
}

/// The rows under a round's id.
const LOOK_HEAD: &str = "SELECT id FROM rounds WHERE id = ?1";

/// How many rows stand under the id: none or one.
fn look<S: Alter>(tx: &mut Transaction<'_, S>, id: &RoundId) -> Result<usize, StoreFault>
    ensures same_reference { tx.new.conn.ghost_name ≡ tx.old.conn.ghost_name }
    ensures carries { LeadsUncommitted (state S.Store tx.old.conn.now) (state S.Store tx.new.conn.now) }
    ensures done { HasCleanDisk (state S.Store tx.new.conn.now) → IsTrue (state S.Store tx.old.conn.now).in_transaction
        → IfOk result (λ count. MakesInside (CountsHeads id.now count) (state S.Store tx.old.conn.now)
        (state S.Store tx.new.conn.now)) }
    ensures cause { InsideFails (state S.Store tx.old.conn.now) (state S.Store tx.new.conn.now)
        (IsStoreCause (state S.Store tx.old.conn.now) (state S.Store tx.new.conn.now)) result }
{
    Ok(ask_in(tx, LOOK_HEAD, params![id.as_str()])?.len())
}

/// A round under a new id.
const ADD_HEAD: &str =
    "INSERT INTO rounds (id, title, start, minutes, protest_minutes, mode, penalty, bonus, released, published) \
    VALUES (?1, ?2, ?3, ?4, ?5, ?6, ?7, ?8, ?9, ?10)";

/// Stores the round's head under a new id.
pub(crate) fn put_new<S: Alter>(
    tx: &mut Transaction<'_, S>,
    round: &Round,
) -> Result<(), StoreFault>
    ensures same_reference { tx.new.conn.ghost_name ≡ tx.old.conn.ghost_name }
    ensures carries { LeadsUncommitted (state S.Store tx.old.conn.now) (state S.Store tx.new.conn.now) }
    ensures done { HasCleanDisk (state S.Store tx.new.conn.now) → IsTrue (state S.Store tx.old.conn.now).in_transaction
        → OnOk result (PutsHeadOver 0 round.now (state S.Store tx.old.conn.now)
        (state S.Store tx.new.conn.now)) }
    ensures added { DoesInside (state S.Store tx.old.conn.now) (state S.Store tx.new.conn.now)
        (λ a b. AddsHead a round.now b) result }
    ensures cause { InsideFails (state S.Store tx.old.conn.now) (state S.Store tx.new.conn.now)
        (RunFails ADD_HEAD.now (head_params round.now) (state S.Store tx.old.conn.now)
        (state S.Store tx.new.conn.now)) result }
{
    in_range(round);
    write_in(tx, ADD_HEAD, &columns(round))
}

/// Stores the round's head in the place of the one under its id.
fn put_over<S: Alter>(tx: &mut Transaction<'_, S>, round: &Round) -> Result<(), StoreFault>
    ensures same_reference { tx.new.conn.ghost_name ≡ tx.old.conn.ghost_name }
    ensures carries { LeadsUncommitted (state S.Store tx.old.conn.now) (state S.Store tx.new.conn.now) }
    ensures done { HasCleanDisk (state S.Store tx.new.conn.now) → IsTrue (state S.Store tx.old.conn.now).in_transaction
        → OnOk result (PutsHeadOver 1 round.now (state S.Store tx.old.conn.now)
        (state S.Store tx.new.conn.now)) }
    ensures cause { InsideFails (state S.Store tx.old.conn.now) (state S.Store tx.new.conn.now)
        (RunFails REPLACE_HEAD.now (head_params round.now) (state S.Store tx.old.conn.now)
        (state S.Store tx.new.conn.now)) result }
{
    in_range(round);
    write_in(tx, REPLACE_HEAD, &columns(round))
}

/// Stores the round's head, in the place of the one under its id.
fn put_head<S: Alter>(tx: &mut Transaction<'_, S>, round: &Round) -> Result<(), StoreFault>
    ensures same_reference { tx.new.conn.ghost_name ≡ tx.old.conn.ghost_name }
    ensures carries { LeadsUncommitted (state S.Store tx.old.conn.now) (state S.Store tx.new.conn.now) }
    ensures done { DoesInside (state S.Store tx.old.conn.now) (state S.Store tx.new.conn.now)
        (PutsHead round.now) result }
    ensures cause { InsideFails (state S.Store tx.old.conn.now) (state S.Store tx.new.conn.now)
        (IsStoreCause (state S.Store tx.old.conn.now) (state S.Store tx.new.conn.now)
        ⊎ IsHeadRefused round.now (state S.Store tx.old.conn.now).now) result }
{
    match look(tx, &round.id)? {
        0 => put_new(tx, round),
        1 => put_over(tx, round),
        _ => Err(StoreFault::Failed),
    }
}

/// The puzzles of a round are taken out.
const DROP_PLACES: &str = "DELETE FROM round_puzzles WHERE round = ?1";

/// Takes out the places of the round.
fn drop_places<S: Alter>(tx: &mut Transaction<'_, S>, id: &RoundId) -> Result<(), StoreFault>
    ensures same_reference { tx.new.conn.ghost_name ≡ tx.old.conn.ghost_name }
    ensures carries { LeadsUncommitted (state S.Store tx.old.conn.now) (state S.Store tx.new.conn.now) }
    ensures done { DoesInside (state S.Store tx.old.conn.now) (state S.Store tx.new.conn.now)
        (DropsPlaces id.now) result }
    ensures cause { InsideFails (state S.Store tx.old.conn.now) (state S.Store tx.new.conn.now)
        (RunFails DROP_PLACES.now (Text id.now ∷ []) (state S.Store tx.old.conn.now)
        (state S.Store tx.new.conn.now)) result }
{
    write_in(tx, DROP_PLACES, params![id.as_str()])
}

/// Tells a proof that the entry lies in the ranges of its types.
fn entry_in_range(entry: &Entry)
    ensures { IsEntry entry.now }
{
    let _author = entry.puzzle.author.as_str();
    let _label = entry.puzzle.label.as_str();
    let _points = entry.points.get();
}

/// One more puzzle of a round.
const ADD_PLACE: &str =
    "INSERT INTO round_puzzles (round, number, author, label, points) VALUES (?1, ?2, ?3, ?4, ?5)";

/// The columns of an entry at its place in the round.
fn place_columns<'a>(id: &'a RoundId, number: u32, entry: &'a Entry) -> [ValueRef<'a>; 5]
    ensures bound { bound result ≡ place_params id.now number entry.now }
    ensures in_range { IsRoundId id.now }
{
    [
        id.as_str().to_sql(),
        number.to_sql(),
        entry.puzzle.author.as_str().to_sql(),
        entry.puzzle.label.as_str().to_sql(),
        (entry.points.get() as u32).to_sql(),
    ]
}

/// Stores an entry at its place in the round.
pub(crate) fn put_place<S: Alter>(
    tx: &mut Transaction<'_, S>,
    id: &RoundId,
    number: u32,
    entry: &Entry,
) -> Result<(), StoreFault>
    requires numbered { IsWithin 1 most_number number }
    ensures same_reference { tx.new.conn.ghost_name ≡ tx.old.conn.ghost_name }
    ensures carries { LeadsUncommitted (state S.Store tx.old.conn.now) (state S.Store tx.new.conn.now) }
    ensures done { DoesInside (state S.Store tx.old.conn.now) (state S.Store tx.new.conn.now)
        (PutsPlace id.now number entry.now) result }
    ensures cause { InsideFails (state S.Store tx.old.conn.now) (state S.Store tx.new.conn.now)
        (RunFails ADD_PLACE.now (place_params id.now number entry.now)
        (state S.Store tx.old.conn.now) (state S.Store tx.new.conn.now)) result }
{
    entry_in_range(entry);
    write_in(tx, ADD_PLACE, &place_columns(id, number, entry))
}

/// Stores the entries of a round that has no places, numbered from 1.
fn put_places<S: Alter>(
    tx: &mut Transaction<'_, S>,
    id: &RoundId,
    entries: &[Entry],
) -> Result<(), StoreFault>
    requires few { length entries.now ≤ most_entries }
    ensures same_reference { tx.new.conn.ghost_name ≡ tx.old.conn.ghost_name }
    ensures carries { LeadsUncommitted (state S.Store tx.old.conn.now) (state S.Store tx.new.conn.now) }
    ensures done { DoesInside (state S.Store tx.old.conn.now) (state S.Store tx.new.conn.now)
        (PutsPlaces id.now entries.now) result }
    ensures cause { InsideFails (state S.Store tx.old.conn.now) (state S.Store tx.new.conn.now)
        (IsStoreCause (state S.Store tx.old.conn.now) (state S.Store tx.new.conn.now)
        ⊎ PlaceIsRefused id.now entries.now (state S.Store tx.old.conn.now).now) result }
{
    let mut number = 0u32;
    for entry in entries {
        number += 1;
        put_place(tx, id, number, entry)?;
    }
    Ok(())
}

/// Stores the round's list in the place of the one before.
fn put_list<S: Alter>(
    tx: &mut Transaction<'_, S>,
    id: &RoundId,
    entries: &[Entry],
) -> Result<(), StoreFault>
    requires few { length entries.now ≤ most_entries }
    ensures same_reference { tx.new.conn.ghost_name ≡ tx.old.conn.ghost_name }
    ensures carries { LeadsUncommitted (state S.Store tx.old.conn.now) (state S.Store tx.new.conn.now) }
    ensures done { DoesInside (state S.Store tx.old.conn.now) (state S.Store tx.new.conn.now)
        (PutsList id.now entries.now) result }
    ensures cause { InsideFails (state S.Store tx.old.conn.now) (state S.Store tx.new.conn.now)
        (IsStoreCause (state S.Store tx.old.conn.now) (state S.Store tx.new.conn.now)
        ⊎ ListIsRefused id.now entries.now (state S.Store tx.old.conn.now).now) result }
{
    drop_places(tx, id)?;
    put_places(tx, id, entries)
}

/// Stores the round's head, and its list and its testers in the place of those before.
fn put_inside<S: Alter>(tx: &mut Transaction<'_, S>, row: &RoundRow) -> Result<(), StoreFault>
    ensures same_reference { tx.new.conn.ghost_name ≡ tx.old.conn.ghost_name }
    ensures carries { LeadsUncommitted (state S.Store tx.old.conn.now) (state S.Store tx.new.conn.now) }
    ensures done { DoesInside (state S.Store tx.old.conn.now) (state S.Store tx.new.conn.now)
        (Changes (PutRound row.now)) result }
    ensures rows { DoesInside (state S.Store tx.old.conn.now) (state S.Store tx.new.conn.now)
        (PutsRows row.now) result }
    ensures cause { InsideFails (state S.Store tx.old.conn.now) (state S.Store tx.new.conn.now)
        (PutRoundFails row.now (state S.Store tx.old.conn.now) (state S.Store tx.new.conn.now)) result }
{
    put_head(tx, &row.round)?;
    put_list(tx, &row.round.id, row.puzzles.as_slice())?;
    put_tester_list(tx, &row.round.id, row.testers.as_slice())
}

/// Stores the round with its list and its testers, in the place of the one under its id: whole or not at all.
pub(crate) fn put_round<S: Alter>(
    conn: &mut Connection<S>,
    row: &RoundRow,
) -> Result<(), StoreFault>
    requires hall { IsHall (state S.Store conn.old) }
    ensures wrote { MakesInTables (PutRound row.now) (state S.Store conn.old) (state S.Store conn.new) result }
    ensures rows { HasCleanDisk (state S.Store conn.new) → OnOk result
        (PutsRows row.now (state S.Store conn.old).now (state S.Store conn.new).now) }
    ensures cause { HasCleanDisk (state S.Store conn.new) → Fails (PutRoundFails row.now
        (state S.Store conn.old) (state S.Store conn.new)) result }
{
    if !conn.is_autocommit() {
        return Err(StoreFault::Failed);
    }
    live(conn);
    let mut tx = conn.transaction();
    put_inside(&mut tx, row)?;
    match tx.commit() {
        Ok(()) => Ok(()),
        Err(error) => Err(fault_of(&error)),
    }
}
