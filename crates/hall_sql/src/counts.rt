//! Rows that are counted: each is looked at as a record, and none is copied into one.
ghost use Rattle.std.specs.Prelude.{◌≡◌, ◌↔◌, IsTrue, Option, None, IfOk};
ghost use Rattle.sqlite.specs.Order.{Row as Columns};
ghost use Rattle.sqlite.specs.Values.{bound};
ghost use Rattle.sqlite.specs.Held.{state};
ghost use Rattle.sqlite.specs.State.{HasCleanDisk};
ghost use Rattle.sqlite_value.specs.Order.{column};
ghost use Rattle.sqlite_value.specs.Value.{owned};
ghost use Rattle.hall_policy.specs.Text.{IsOfKind};
ghost use Rattle.hall_store.specs.Store.{Fails};
ghost use Rattle.hall_sql.specs.Asked.{IsAsked};
ghost use Rattle.hall_sql.specs.Cause.{ReadFails, IsAnyUnread};
ghost use Rattle.hall_sql.specs.Counts.{IsRead, AreReadAs, AreSoMany};
ghost use Rattle.hall_sql.specs.Rows.{IsAnswerKeyIn, answer_in, protest_in};
ghost use Rattle.hall_policy.specs.declared.record.AnswerKey.{AnswerKey as KeyColumns};
ghost use Rattle.sqlite.specs.declared.types.Value.TheVariants.{Text};
ghost use Rattle.hall_sql.specs.Standing.{IsHall, KeptTables};
ghost use Rattle.hall_sql.specs.Values.{kind_in};

use crate::calls::ask;
use crate::record::{number_at, ruling_at, verdict_at};
use hall_policy::{
    AnswerNumber, AnswerRow, AnswerText, Checked, Moment, Name, ProtestRow, ProtestText,
    PuzzleNumber, RoundId, TextKind, Token,
};
use hall_store::StoreFault;
use sqlite::types::ValueRef;
use sqlite::{Alter, Connection, Row};
use std::marker::PhantomData;

/// Whether the bytes are a text of the kind.
fn is_of_kind<K: TextKind>(text: &[u8]) -> bool
    ensures { IsTrue result ↔ IsOfKind K.LEAST K.MOST K.allows text.now }
{
    if text.len() < K::LEAST || text.len() > K::MOST {
        return false;
    }
    text.iter().all(|byte| K::allows(*byte))
}

/// The kind of the text. Refused where it is none of the kind.
fn kind_of<K: TextKind>(text: &[u8]) -> Result<PhantomData<Checked<K>>, StoreFault>
    ensures text { IfOk result (λ _. IsRead (kind_in K.LEAST K.MOST K.allows (Text text.now))) }
    ensures unread { Fails (kind_in K.LEAST K.MOST K.allows (Text text.now) ≡ None) result }
{
    if is_of_kind::<K>(text) {
        Ok(PhantomData)
    } else {
        Err(StoreFault::Failed)
    }
}

/// The kind of the text that the value is.
fn kind_in<K: TextKind>(value: ValueRef<'_>) -> Result<PhantomData<Checked<K>>, StoreFault>
    ensures text { IfOk result (λ _. IsRead (kind_in K.LEAST K.MOST K.allows (owned value.entry))) }
    ensures unread { Fails (kind_in K.LEAST K.MOST K.allows (owned value.entry) ≡ None) result }
{
    match value {
        ValueRef::Text(text) => kind_of(text),
        _ => Err(StoreFault::Failed),
    }
}

/// The kind of the text in a column.
fn kind_at<K: TextKind>(row: &Row, at: usize) -> Result<PhantomData<Checked<K>>, StoreFault>
    ensures text { IfOk result (λ _. IsRead (kind_in K.LEAST K.MOST K.allows (column row.now at))) }
    ensures unread { Fails (kind_in K.LEAST K.MOST K.allows (column row.now at) ≡ None) result }
{
    match row.get_ref(at) {
        Ok(value) => kind_in(value),
        Err(_) => Err(StoreFault::Failed),
    }
}

/// A record that is counted.
pub(crate) trait Counted: Sized {
    // The record whose columns these are.
    ghost counts: { Columns → Option Self };

    /// Refused where the columns are no record of this kind.
    fn look(row: &Row) -> Result<(), StoreFault>
        ensures one { IfOk result (λ _. IsRead (counts row.now)) }
        ensures unread { Fails (counts row.now ≡ None) result };
}

/// Refused where the first four columns are no key of an answer.
fn look_at_key(row: &Row) -> Result<(), StoreFault>
    ensures key { IfOk result (λ _. (key : KeyColumns) × IsAnswerKeyIn row.now key) }
    ensures unread { Fails ((key : KeyColumns) → ¬ (IsAnswerKeyIn row.now key)) result }
{
    let _number: PuzzleNumber = number_at(row, 2)?;
    let _entrant: PhantomData<Name> = kind_at(row, 0)?;
    let _round: PhantomData<RoundId> = kind_at(row, 1)?;
    let _token: PhantomData<Token> = kind_at(row, 3)?;
    Ok(())
}

impl Counted for AnswerRow {
    ghost counts = { answer_in };

    fn look(row: &Row) -> Result<(), StoreFault> {
        let _n: AnswerNumber = number_at(row, 4)?;
        let _moment: Moment = number_at(row, 5)?;
        let _verdict = verdict_at(row, 7)?;
        let _answer: PhantomData<AnswerText> = kind_at(row, 6)?;
        look_at_key(row)
    }
}

impl Counted for ProtestRow {
    ghost counts = { protest_in };

    fn look(row: &Row) -> Result<(), StoreFault> {
        let _number: PuzzleNumber = number_at(row, 3)?;
        let _ruling = ruling_at(row, 5, 6)?;
        let _entrant: PhantomData<Name> = kind_at(row, 0)?;
        let _round: PhantomData<RoundId> = kind_at(row, 1)?;
        let _token: PhantomData<Token> = kind_at(row, 2)?;
        let _text: PhantomData<ProtestText> = kind_at(row, 4)?;
        Ok(())
    }
}

/// Refused where a row is no record.
fn look_at_all<T: Counted>(rows: &[Row]) -> Result<(), StoreFault>
    ensures all { IfOk result (λ _. AreReadAs T.counts rows.now) }
    ensures unread { Fails (IsAnyUnread T.counts rows.now) result }
{
    for row in rows {
        T::look(row)?;
    }
    Ok(())
}

/// How many rows the query has, where each is a record.
pub(crate) fn count<S: Alter, T: Counted>(
    conn: &mut Connection<S>,
    sql: &str,
    params: &[ValueRef<'_>],
) -> Result<u64, StoreFault>
    requires asks { IsAsked sql.now (bound params.now) }
    requires hall { IsHall (state S.Store conn.old) }
    ensures rested { KeptTables (state S.Store conn.old) (state S.Store conn.new) }
    ensures counted { HasCleanDisk (state S.Store conn.new) → IfOk result (λ count.
        AreSoMany T.Counted.counts sql.now (bound params.now) (state S.Store conn.old) (state S.Store conn.new) count) }
    ensures cause { HasCleanDisk (state S.Store conn.new) → Fails (ReadFails T.Counted.counts sql.now
        (bound params.now) (state S.Store conn.old) (state S.Store conn.new)) result }
{
    let rows = ask(conn, sql, params)?;
    look_at_all::<T>(&rows)?;
    Ok(rows.len() as u64)
}
