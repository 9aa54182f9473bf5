//! Empty tables, filled with the records of others.
ghost use Rattle.std.specs.Prelude.{◌≡◌, IsTrue, OnOk, OnErr};
ghost use Rattle.sqlite.specs.Held.{state};
ghost use Rattle.sqlite.specs.State.{HasCleanDisk};
ghost use Rattle.hall_store.specs.Store.{Fails, Leads};
ghost use Rattle.hall_sql.specs.Fill.{AreFilled, AddsAnswer, AddsHead, AddsPlace, AddsProtest, AddsPuzzle, Fills};
ghost use Rattle.hall_sql.specs.Fill.{PutsPerson};
ghost use Rattle.hall_sql.specs.FillCause.{FillFails, RefusesToAddAnswer, RefusesToAddHead};
ghost use Rattle.hall_sql.specs.FillCause.{RefusesToAddPerson, RefusesToAddPlace, RefusesToAddProtest};
ghost use Rattle.hall_sql.specs.FillCause.{RefusesToAddPuzzle};
ghost use Rattle.hall_sql.specs.WriteCause.{InsideFails};
ghost use Rattle.hall_sql.specs.Inside.{LeadsUncommitted, DoesInside};
ghost use Rattle.hall_sql.specs.Standing.{AddsOutcomes, IsHall, KeptRows};
ghost use Rattle.hall_sql.specs.Content.{content_of};

use crate::added::{Added, add_each};
use crate::calls::{fault_of, live};
use crate::people::add_person;
use crate::record::Place;
use crate::round_writes::{put_new, put_place};
use crate::whole::Whole;
use crate::{answers, protests, puzzles};
use hall_policy::{AnswerRow, Person, ProtestRow, PuzzleRow, Round};
use hall_store::StoreFault;
use sqlite::{Alter, Connection, Transaction};
use std::alloc::Global;

impl Added for Person {
    ghost adds = { PutsPerson };

    ghost refuses = { RefusesToAddPerson };

    fn add<S: Alter>(&self, tx: &mut Transaction<'_, S>, alloc: Global) -> Result<(), StoreFault> {
        add_person(tx, self)
    }
}

impl Added for PuzzleRow {
    ghost adds = { AddsPuzzle };

    ghost refuses = { RefusesToAddPuzzle };

    fn add<S: Alter>(&self, tx: &mut Transaction<'_, S>, alloc: Global) -> Result<(), StoreFault> {
        puzzles::add_inside(tx, alloc, self)
    }
}

impl Added for Round {
    ghost adds = { AddsHead };

    ghost refuses = { RefusesToAddHead };

    fn add<S: Alter>(&self, tx: &mut Transaction<'_, S>, alloc: Global) -> Result<(), StoreFault> {
        put_new(tx, self)
    }
}

impl Added for Place {
    ghost adds = { AddsPlace };

    ghost refuses = { RefusesToAddPlace };

    fn add<S: Alter>(&self, tx: &mut Transaction<'_, S>, alloc: Global) -> Result<(), StoreFault> {
        put_place(tx, &self.0.round, self.0.number.get() as u32, &self.1)
    }
}

impl Added for AnswerRow {
    ghost adds = { AddsAnswer };

    ghost refuses = { RefusesToAddAnswer };

    fn add<S: Alter>(&self, tx: &mut Transaction<'_, S>, alloc: Global) -> Result<(), StoreFault> {
        answers::add_inside(tx, self)
    }
}

impl Added for ProtestRow {
    ghost adds = { AddsProtest };

    ghost refuses = { RefusesToAddProtest };

    fn add<S: Alter>(&self, tx: &mut Transaction<'_, S>, alloc: Global) -> Result<(), StoreFault> {
        protests::add_inside(tx, self)
    }
}

/// Adds all records, each after those to which it refers.
fn fill_inside<S: Alter>(
    tx: &mut Transaction<'_, S>,
    alloc: Global,
    rows: &Whole,
) -> Result<(), StoreFault>
    ensures same_reference { tx.new.conn.ghost_name ≡ tx.old.conn.ghost_name }
    ensures carries { LeadsUncommitted (state S.Store tx.old.conn.now) (state S.Store tx.new.conn.now) }
    ensures done { DoesInside (state S.Store tx.old.conn.now) (state S.Store tx.new.conn.now)
        (Fills rows.now) result }
    ensures cause { InsideFails (state S.Store tx.old.conn.now) (state S.Store tx.new.conn.now)
        (FillFails rows.now (state S.Store tx.old.conn.now) (state S.Store tx.new.conn.now)) result }
{
    add_each(tx, alloc, rows.people.as_slice())?;
    add_each(tx, alloc, rows.puzzles.as_slice())?;
    add_each(tx, alloc, rows.heads.as_slice())?;
    add_each(tx, alloc, rows.places.as_slice())?;
    add_each(tx, alloc, rows.answers.as_slice())?;
    add_each(tx, alloc, rows.protests.as_slice())?;
    Ok(())
}

/// Adds all records to tables that have none: all of them or none.
pub(crate) fn fill<S: Alter>(
    conn: &mut Connection<S>,
    alloc: Global,
    rows: &Whole,
) -> Result<(), StoreFault>
    requires hall { IsHall (state S.Store conn.old) }
    ensures hall { IsHall (state S.Store conn.new) }
    ensures leads { Leads (content_of (state S.Store conn.old)) (content_of (state S.Store conn.new)) }
    ensures filled { HasCleanDisk (state S.Store conn.new) → OnOk result (IsTrue (state S.Store conn.new).is_open
        × Fills rows.now (state S.Store conn.old).now (state S.Store conn.new).now) }
    ensures stops { IsTrue (state S.Store conn.old).is_open
        → AddsOutcomes (AreFilled rows.now (state S.Store conn.old).now) (state S.Store conn.old)
        (state S.Store conn.new) }
    ensures refused { OnErr result (KeptRows (state S.Store conn.old) (state S.Store conn.new)) }
    ensures cause { HasCleanDisk (state S.Store conn.new)
        → Fails (FillFails rows.now (state S.Store conn.old) (state S.Store conn.new)) result }
{
    if !conn.is_autocommit() {
        return Err(StoreFault::Failed);
    }
    live(conn);
    let mut tx = conn.transaction();
    fill_inside(&mut tx, alloc, rows)?;
    match tx.commit() {
        Ok(()) => Ok(()),
        Err(error) => Err(fault_of(&error)),
    }
}
