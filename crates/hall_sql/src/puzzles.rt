//! The table of puzzles.
ghost use Rattle.std.specs.Prelude.{◌≡◌, ◌⊎◌, IsTrue, IfOk, OnOk, [], ◌∷◌};
ghost use Rattle.std.specs.FinMap.{get, values};
ghost use Rattle.sqlite.specs.Held.{state};
ghost use Rattle.hall_store.specs.Store.{Fails, puzzles_of};
ghost use Rattle.sqlite.specs.State.{HasCleanDisk};
ghost use Rattle.hall_grid.specs.Text.{SpellsText};
ghost use Rattle.hall_grid.specs.Canonical.{CanonicalText};
ghost use Rattle.hall_policy.specs.Ranges.{IsPuzzleKey, IsState};
ghost use Rattle.hall_store.specs.declared.change.Change.TheVariants.{PutPuzzle, SetState};
ghost use Rattle.sqlite.specs.Values.{bound};
ghost use Rattle.hall_sql.specs.Fill.{AddsPuzzle};
ghost use Rattle.hall_sql.specs.FillCause.{RefusesToAddPuzzle};
ghost use Rattle.hall_sql.specs.Inside.{LeadsUncommitted, DoesInside};
ghost use Rattle.hall_sql.specs.PuzzleText.{HasPuzzleRow, HasPuzzleState};
ghost use Rattle.hall_sql.specs.Columns.{puzzle_params, HasSoMany, state_code, solution_of};
ghost use Rattle.hall_sql.specs.Standing.{IsHall, KeptTables};
ghost use Rattle.hall_sql.specs.Content.{MakesInTables};
ghost use Rattle.sqlite.specs.declared.types.Value.TheVariants.{Text};
ghost use Rattle.hall_sql.specs.Rows.{puzzle_row_in};
ghost use Rattle.hall_sql.specs.Reads.{ReadsRows, ReadsTable};
ghost use Rattle.hall_sql.specs.Cause.{IsStoreCause};
ghost use Rattle.hall_sql.specs.Versions.{IsAnyHall};
ghost use Rattle.hall_sql.specs.WriteCause.{RunFails, PuzzleIsRefused, PutPuzzleFails};
ghost use Rattle.hall_sql.specs.WriteCause.{InsideFails, SetStateFails};

use crate::calls::{ask, live, run, write_in};
use crate::reads::{find, read, read_any};
use hall_grid::write_puzzle;
use hall_policy::{Name, PuzzleKey, PuzzleRow, PuzzleState};
use hall_store::StoreFault;
use sqlite::types::{ToSql, ValueRef};
use sqlite::{Alter, Connection, Transaction, params};
use std::alloc::Global;

/// The puzzle under a key.
const PUZZLE: &str =
    "SELECT author, label, body, state, solution FROM puzzles WHERE author = ?1 AND label = ?2";

/// The puzzle under the key.
pub(crate) fn puzzle<S: Alter>(
    conn: &mut Connection<S>,
    alloc: Global,
    key: &PuzzleKey,
) -> Result<Option<PuzzleRow>, StoreFault>
    requires hall { IsHall (state S.Store conn.old) }
    ensures { ReadsRows puzzle_row_in PUZZLE.now (Text key.now.author ∷ Text key.now.label ∷ [])
        (state S.Store conn.old) (state S.Store conn.new) result (λ world found. found ≡ get world.puzzles key.now) }
{
    find(
        conn,
        alloc,
        PUZZLE,
        params![key.author.as_str(), key.label.as_str()],
    )
}

/// All puzzles, in the order of their keys.
const ALL_PUZZLES: &str =
    "SELECT author, label, body, state, solution FROM puzzles ORDER BY author, label";

/// All puzzles, in the order of their keys, of either version.
pub(crate) fn all_puzzles<S: Alter>(
    conn: &mut Connection<S>,
    alloc: Global,
) -> Result<Vec<PuzzleRow>, StoreFault>
    requires hall { IsAnyHall (state S.Store conn.old) }
    ensures { ReadsTable puzzle_row_in ALL_PUZZLES.now (state S.Store conn.old) (state S.Store conn.new) result
        (λ world rows. rows.items ≡ values world.puzzles) }
{
    let _schema = conn.schema();
    read_any(conn, alloc, ALL_PUZZLES, &[])
}

/// The author's puzzles, in the order of their labels.
const PUZZLES_OF: &str =
    "SELECT author, label, body, state, solution FROM puzzles WHERE author = ?1 \
    ORDER BY author, label";

/// The author's puzzles, in the order of their labels.
pub(crate) fn puzzles_of<S: Alter>(
    conn: &mut Connection<S>,
    alloc: Global,
    author: &Name,
) -> Result<Vec<PuzzleRow>, StoreFault>
    requires hall { IsHall (state S.Store conn.old) }
    ensures { ReadsRows puzzle_row_in PUZZLES_OF.now (Text author.now ∷ []) (state S.Store conn.old)
        (state S.Store conn.new) result (λ world rows. rows.items ≡ puzzles_of world author.now) }
{
    let _schema = conn.schema();
    read(conn, alloc, PUZZLES_OF, params![author.as_str()])
}

/// The code of a state.
fn state_code(state: &PuzzleState) -> u32
    ensures { result ≡ state_code state.now }
{
    match state {
        PuzzleState::New => 0,
        PuzzleState::One(_) => 1,
        PuzzleState::NoSolution => 2,
        PuzzleState::More => 3,
        PuzzleState::GaveUp => 4,
    }
}

/// The solution of a state, and the empty text where it has none.
fn solution_of(state: &PuzzleState) -> &str
    ensures text { result.now ≡ solution_of state.now }
    ensures in_range { IsState state.now }
{
    match state {
        PuzzleState::One(solution) => solution.as_str(),
        PuzzleState::New | PuzzleState::NoSolution | PuzzleState::More | PuzzleState::GaveUp => "",
    }
}

/// Tells a proof that the key lies in the ranges of its types.
fn in_range(key: &PuzzleKey)
    ensures { IsPuzzleKey key.now }
{
    let _author = key.author.as_str();
    let _label = key.label.as_str();
}

/// The rows under a puzzle's key.
const LOOK_PUZZLE: &str = "SELECT author FROM puzzles WHERE author = ?1 AND label = ?2";

/// How many rows stand under the key: none or one.
fn look<S: Alter>(conn: &mut Connection<S>, key: &PuzzleKey) -> Result<usize, StoreFault>
    requires hall { IsHall (state S.Store conn.old) }
    ensures rested { KeptTables (state S.Store conn.old) (state S.Store conn.new) }
    ensures serves { HasCleanDisk (state S.Store conn.new) → IfOk result
        (λ _. IsTrue (state S.Store conn.new).is_open) }
    ensures found { HasCleanDisk (state S.Store conn.new) → IfOk result
        (HasSoMany key.now (state S.Store conn.new)) }
    ensures cause { HasCleanDisk (state S.Store conn.new) → Fails
        (IsStoreCause (state S.Store conn.old) (state S.Store conn.new)) result }
{
    Ok(ask(
        conn,
        LOOK_PUZZLE,
        params![key.author.as_str(), key.label.as_str()],
    )?
    .len())
}

/// A puzzle under a new key.
const ADD_PUZZLE: &str =
    "INSERT INTO puzzles (author, label, body, state, solution) VALUES (?1, ?2, ?3, ?4, ?5)";

/// A puzzle in the place of the one under its key.
const REPLACE_PUZZLE: &str =
    "UPDATE puzzles SET body = ?3, state = ?4, solution = ?5 WHERE author = ?1 AND label = ?2";

/// The columns of a puzzle that this text spells.
fn columns<'a>(row: &'a PuzzleRow, text: &'a str) -> [ValueRef<'a>; 5]
    ensures bound { bound result ≡ puzzle_params text.now row.now }
    ensures in_range { IsState row.now.state }
{
    let solution = solution_of(&row.state);
    [
        row.key.author.as_str().to_sql(),
        row.key.label.as_str().to_sql(),
        text.to_sql(),
        state_code(&row.state).to_sql(),
        solution.to_sql(),
    ]
}

/// Adds a puzzle under a new key, inside a transaction.
pub(crate) fn add_inside<S: Alter>(
    tx: &mut Transaction<'_, S>,
    alloc: Global,
    row: &PuzzleRow,
) -> Result<(), StoreFault>
    ensures same_reference { tx.new.conn.ghost_name ≡ tx.old.conn.ghost_name }
    ensures carries { LeadsUncommitted (state S.Store tx.old.conn.now) (state S.Store tx.new.conn.now) }
    ensures done { DoesInside (state S.Store tx.old.conn.now) (state S.Store tx.new.conn.now)
        (λ a b. AddsPuzzle a row.now b) result }
    ensures cause { InsideFails (state S.Store tx.old.conn.now) (state S.Store tx.new.conn.now)
        (IsStoreCause (state S.Store tx.old.conn.now) (state S.Store tx.new.conn.now)
        ⊎ RefusesToAddPuzzle row.now (state S.Store tx.old.conn.now).now) result }
{
    in_range(&row.key);
    let text = write_puzzle(alloc, &row.puzzle)?;
    write_in(tx, ADD_PUZZLE, &columns(row, text.as_str()))
}

/// Stores a puzzle under a new key.
fn put_new<S: Alter>(
    conn: &mut Connection<S>,
    row: &PuzzleRow,
    text: &str,
) -> Result<(), StoreFault>
    requires hall { IsHall (state S.Store conn.old) }
    requires spells { SpellsText text.now row.now.puzzle }
    requires canonical { CanonicalText text.now row.now.puzzle }
    requires found { HasCleanDisk (state S.Store conn.old) → HasSoMany row.now.key (state S.Store conn.old) 0 }
    ensures wrote { MakesInTables (PutPuzzle row.now) (state S.Store conn.old) (state S.Store conn.new) result }
    ensures text { HasCleanDisk (state S.Store conn.new)
        → OnOk result (HasPuzzleRow row.now (state S.Store conn.new).now) }
    ensures cause { HasCleanDisk (state S.Store conn.new) → Fails (RunFails ADD_PUZZLE.now
        (puzzle_params text.now row.now) (state S.Store conn.old) (state S.Store conn.new)) result }
{
    in_range(&row.key);
    run(conn, ADD_PUZZLE, &columns(row, text))
}

/// Stores a puzzle in the place of the one under its key.
fn put_over<S: Alter>(
    conn: &mut Connection<S>,
    row: &PuzzleRow,
    text: &str,
) -> Result<(), StoreFault>
    requires hall { IsHall (state S.Store conn.old) }
    requires spells { SpellsText text.now row.now.puzzle }
    requires canonical { CanonicalText text.now row.now.puzzle }
    requires found { HasCleanDisk (state S.Store conn.old) → HasSoMany row.now.key (state S.Store conn.old) 1 }
    ensures wrote { MakesInTables (PutPuzzle row.now) (state S.Store conn.old) (state S.Store conn.new) result }
    ensures text { HasCleanDisk (state S.Store conn.new)
        → OnOk result (HasPuzzleRow row.now (state S.Store conn.new).now) }
    ensures cause { HasCleanDisk (state S.Store conn.new) → Fails (RunFails REPLACE_PUZZLE.now
        (puzzle_params text.now row.now) (state S.Store conn.old) (state S.Store conn.new)) result }
{
    in_range(&row.key);
    run(conn, REPLACE_PUZZLE, &columns(row, text))
}

/// Stores the puzzle, whose text this is, under whose key so many rows stand.
fn put_found<S: Alter>(
    conn: &mut Connection<S>,
    row: &PuzzleRow,
    text: &str,
    count: usize,
) -> Result<(), StoreFault>
    requires hall { IsHall (state S.Store conn.old) }
    requires spells { SpellsText text.now row.now.puzzle }
    requires canonical { CanonicalText text.now row.now.puzzle }
    requires found { HasCleanDisk (state S.Store conn.old) → HasSoMany row.now.key (state S.Store conn.old) count }
    ensures wrote { MakesInTables (PutPuzzle row.now) (state S.Store conn.old) (state S.Store conn.new) result }
    ensures text { HasCleanDisk (state S.Store conn.new)
        → OnOk result (HasPuzzleRow row.now (state S.Store conn.new).now) }
    ensures cause { HasCleanDisk (state S.Store conn.new) → Fails (IsStoreCause (state S.Store conn.old)
        (state S.Store conn.new) ⊎ PuzzleIsRefused row.now count (state S.Store conn.old).now) result }
{
    live(conn);
    match count {
        0 => put_new(conn, row, text),
        1 => put_over(conn, row, text),
        _ => Err(StoreFault::Failed),
    }
}

/// Stores the puzzle, in the place of the one under its key.
pub(crate) fn put_puzzle<S: Alter>(
    conn: &mut Connection<S>,
    alloc: Global,
    row: &PuzzleRow,
) -> Result<(), StoreFault>
    requires hall { IsHall (state S.Store conn.old) }
    ensures wrote { MakesInTables (PutPuzzle row.now) (state S.Store conn.old) (state S.Store conn.new) result }
    ensures text { HasCleanDisk (state S.Store conn.new)
        → OnOk result (HasPuzzleRow row.now (state S.Store conn.new).now) }
    ensures cause { HasCleanDisk (state S.Store conn.new) → Fails (PutPuzzleFails row.now
        (state S.Store conn.old) (state S.Store conn.new)) result }
{
    let text = write_puzzle(alloc, &row.puzzle)?;
    let count = look(conn, &row.key)?;
    put_found(conn, row, text.as_str(), count)
}

/// Stores the puzzle in another state.
fn put_state<S: Alter>(
    conn: &mut Connection<S>,
    alloc: Global,
    row: PuzzleRow,
    known: PuzzleState,
) -> Result<(), StoreFault>
    requires hall { IsHall (state S.Store conn.old) }
    ensures wrote { MakesInTables (PutPuzzle (record row { state = known })) (state S.Store conn.old)
        (state S.Store conn.new)
        result }
    ensures text { HasCleanDisk (state S.Store conn.new)
        → OnOk result (HasPuzzleRow (record row { state = known }) (state S.Store conn.new).now) }
    ensures cause { HasCleanDisk (state S.Store conn.new) → Fails (PutPuzzleFails
        (record row { state = known }) (state S.Store conn.old) (state S.Store conn.new)) result }
{
    let row = PuzzleRow {
        key: row.key,
        puzzle: row.puzzle,
        state: known,
    };
    put_puzzle(conn, alloc, &row)
}

/// Sets the state of the puzzle under the key.
pub(crate) fn set_state<S: Alter>(
    conn: &mut Connection<S>,
    alloc: Global,
    key: &PuzzleKey,
    known: PuzzleState,
) -> Result<(), StoreFault>
    requires hall { IsHall (state S.Store conn.old) }
    ensures wrote { MakesInTables (SetState key.now known) (state S.Store conn.old) (state S.Store conn.new) result }
    ensures text { HasCleanDisk (state S.Store conn.new) → OnOk result
        (HasPuzzleState key.now known (state S.Store conn.old).now (state S.Store conn.new).now) }
    ensures cause { HasCleanDisk (state S.Store conn.new) → Fails (SetStateFails key.now known
        (state S.Store conn.old) (state S.Store conn.new)) result }
{
    match puzzle(conn, alloc, key)? {
        Some(row) => put_state(conn, alloc, row, known),
        None => Ok(()),
    }
}
