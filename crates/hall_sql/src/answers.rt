//! The table of answers.
ghost use Rattle.std.specs.Prelude.{◌≡◌, []};
ghost use Rattle.std.specs.FinMap.{values};
ghost use Rattle.sqlite.specs.Held.{state};
ghost use Rattle.hall_store.specs.Store.{Fails, Asks};
ghost use Rattle.hall_store.specs.Change.{CanAddAnswer, CanAddAnswers};
ghost use Rattle.hall_store.specs.declared.change.Change.TheVariants.{AddAnswer, AddAnswers};
ghost use Rattle.hall_policy.specs.Ranges.{IsAnswerRow};
ghost use Rattle.sqlite.specs.State.{HasCleanDisk};
ghost use Rattle.sqlite.specs.Values.{bound};
ghost use Rattle.hall_sql.specs.Columns.{answer_params};
ghost use Rattle.hall_sql.specs.Fill.{AddsAnswer};
ghost use Rattle.hall_sql.specs.FillCause.{AddAnswersFails};
ghost use Rattle.hall_sql.specs.Inside.{LeadsUncommitted, DoesInside};
ghost use Rattle.hall_sql.specs.Standing.{IsHall};
ghost use Rattle.hall_sql.specs.Content.{MakesInTables, content_of};
ghost use Rattle.hall_sql.specs.Rows.{answer_in};
ghost use Rattle.hall_sql.specs.Reads.{ReadsTable};
ghost use Rattle.hall_sql.specs.Versions.{IsAnyHall};
ghost use Rattle.hall_sql.specs.WriteCause.{InsideFails, RunFails};

use crate::added::add_each;
use crate::calls::{fault_of, live, run, write_in};
use crate::counts::count;
use crate::reads::read_any;
use hall_policy::AnswerRow;
use hall_store::{JointAnswers, StoreFault};
use sqlite::types::{ToSql, ValueRef};
use sqlite::{Alter, Connection, Transaction};
use std::alloc::Global;

/// The answer under a key.
pub(crate) const ANSWER: &str =
    "SELECT entrant, round, number, token, n, moment, answer, verdict FROM answers \
    WHERE entrant = ?1 AND round = ?2 AND number = ?3 AND token = ?4";

/// The entrant's answers in the round, in the order of listings.
pub(crate) const ANSWERS_OF: &str =
    "SELECT entrant, round, number, token, n, moment, answer, verdict FROM answers \
    WHERE round = ?2 AND entrant = ?1 ORDER BY entrant, number, n, token";

/// The answers of the round, in the order of listings.
pub(crate) const ANSWERS_IN: &str =
    "SELECT entrant, round, number, token, n, moment, answer, verdict FROM answers \
    WHERE round = ?1 ORDER BY entrant, number, n, token";

/// The answers of the round by entrants after one name and up to another, in the order of listings.
pub(crate) const ANSWERS_BETWEEN: &str =
    "SELECT entrant, round, number, token, n, moment, answer, verdict FROM answers \
    WHERE round = ?1 AND entrant > ?2 AND entrant <= ?3 ORDER BY entrant, number, n, token";

/// The entrant's answers to the round's puzzle of the number.
pub(crate) const ANSWERS_GIVEN: &str =
    "SELECT entrant, round, number, token, n, moment, answer, verdict FROM answers \
    WHERE entrant = ?1 AND round = ?2 AND number = ?3";

/// The entrant's n-th answer to the round's puzzle of the number.
pub(crate) const NUMBER_TAKEN: &str =
    "SELECT entrant, round, number, token, n, moment, answer, verdict FROM answers \
    WHERE entrant = ?1 AND round = ?2 AND number = ?3 AND n = ?4";

/// All answers, in the order of their keys.
const ALL_ANSWERS: &str =
    "SELECT entrant, round, number, token, n, moment, answer, verdict FROM answers \
    ORDER BY entrant, round, number, token";

/// All answers, in the order of their keys, of either version.
pub(crate) fn all_answers<S: Alter>(
    conn: &mut Connection<S>,
    alloc: Global,
) -> Result<Vec<AnswerRow>, StoreFault>
    requires hall { IsAnyHall (state S.Store conn.old) }
    ensures { ReadsTable answer_in ALL_ANSWERS.now (state S.Store conn.old) (state S.Store conn.new) result
        (λ world rows. rows.items ≡ values world.answers) }
{
    let _schema = conn.schema();
    read_any(conn, alloc, ALL_ANSWERS, &[])
}

/// Tells a proof that the answer lies in the ranges of its types.
fn in_range(row: &AnswerRow)
    ensures { IsAnswerRow row.now }
{
    let _entrant = row.key.entrant.as_str();
    let _round = row.key.round.as_str();
    let _number = row.key.number.get();
    let _token = row.key.token.as_str();
    let _n = row.n.get();
    let _moment = row.moment.get();
    let _answer = row.answer.as_str();
    let _verdict = row.verdict.bits();
}

/// One more answer.
const ADD_ANSWER: &str =
    "INSERT INTO answers (entrant, round, number, token, n, moment, answer, verdict) \
    VALUES (?1, ?2, ?3, ?4, ?5, ?6, ?7, ?8)";

/// The columns of an answer.
fn columns(row: &AnswerRow) -> [ValueRef<'_>; 8]
    ensures { bound result ≡ answer_params row.now }
{
    [
        row.key.entrant.as_str().to_sql(),
        row.key.round.as_str().to_sql(),
        (row.key.number.get() as u32).to_sql(),
        row.key.token.as_str().to_sql(),
        (row.n.get() as u32).to_sql(),
        (row.moment.get() as u32).to_sql(),
        row.answer.as_str().to_sql(),
        u32::from(row.verdict.bits()).to_sql(),
    ]
}

/// Adds an answer under a new key, inside a transaction.
pub(crate) fn add_inside<S: Alter>(
    tx: &mut Transaction<'_, S>,
    row: &AnswerRow,
) -> Result<(), StoreFault>
    ensures same_reference { tx.new.conn.ghost_name ≡ tx.old.conn.ghost_name }
    ensures carries { LeadsUncommitted (state S.Store tx.old.conn.now) (state S.Store tx.new.conn.now) }
    ensures done { DoesInside (state S.Store tx.old.conn.now) (state S.Store tx.new.conn.now)
        (λ a b. AddsAnswer a row.now b) result }
    ensures cause { InsideFails (state S.Store tx.old.conn.now) (state S.Store tx.new.conn.now)
        (RunFails ADD_ANSWER.now (answer_params row.now) (state S.Store tx.old.conn.now)
        (state S.Store tx.new.conn.now)) result }
{
    in_range(row);
    write_in(tx, ADD_ANSWER, &columns(row))
}

/// Stores one more answer.
pub(crate) fn add_answer<S: Alter>(
    conn: &mut Connection<S>,
    row: &AnswerRow,
) -> Result<(), StoreFault>
    requires hall { IsHall (state S.Store conn.old) }
    requires can { Asks (content_of (state S.Store conn.old)) (λ world. CanAddAnswer world row.now) }
    ensures wrote { MakesInTables (AddAnswer row.now) (state S.Store conn.old) (state S.Store conn.new) result }
    ensures cause { HasCleanDisk (state S.Store conn.new) → Fails (RunFails ADD_ANSWER.now
        (answer_params row.now) (state S.Store conn.old) (state S.Store conn.new)) result }
{
    in_range(row);
    run(conn, ADD_ANSWER, &columns(row))
}

/// Stores some more answers under new keys, one after another: all of them or none.
pub(crate) fn add_answers<S: Alter>(
    conn: &mut Connection<S>,
    alloc: Global,
    rows: &JointAnswers,
) -> Result<(), StoreFault>
    requires hall { IsHall (state S.Store conn.old) }
    requires can { Asks (content_of (state S.Store conn.old)) (λ world. CanAddAnswers world rows.now) }
    ensures wrote { MakesInTables (AddAnswers rows.now) (state S.Store conn.old) (state S.Store conn.new) result }
    ensures cause { HasCleanDisk (state S.Store conn.new) → Fails (AddAnswersFails rows.now
        (state S.Store conn.old) (state S.Store conn.new)) result }
{
    if !conn.is_autocommit() {
        return Err(StoreFault::Failed);
    }
    live(conn);
    let answers = rows.as_slice();
    let mut tx = conn.transaction();
    add_each(&mut tx, alloc, answers)?;
    match tx.commit() {
        Ok(()) => Ok(()),
        Err(error) => Err(fault_of(&error)),
    }
}
