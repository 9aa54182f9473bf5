//! How a row of a table gives a record.
ghost use Rattle.std.specs.Prelude.{◌≡◌, ◌≢◌, ◌≤◌, ◌<◌, ℕ, ℤ, List, map, length, slice_get, Option, Some, None};
ghost use Rattle.std.specs.Prelude.{FitsSigned};
ghost use Rattle.std.specs.Prelude.{IfOk, IfErr, IfSome, IfNone};
ghost use Rattle.std.specs.Int.{w32};
ghost use Rattle.sqlite.specs.Order.{Row as Columns};
ghost use Rattle.sqlite_value.specs.Order.{column};
ghost use Rattle.sqlite_value.specs.Value.{owned};
ghost use Rattle.hall_sql.specs.Values.{board_of, number_in, kind_in, within, roles_in, puzzle_in, verdict_in};
ghost use Rattle.hall_sql.specs.Values.{unsolved_of, state_in, int_in, ruling_points_of, unpointed_of, ruling_in};
ghost use Rattle.hall_sql.specs.Values.{mode_in, flag_in};
ghost use Rattle.hall_grid.proofs.SpellsOrHasFault.{spells_or_fault};
ghost use Rattle.hall_sql.specs.Rows.{person_in, puzzle_row_in, IsAnswerKeyIn, answer_in, protest_in, round_in};
ghost use Rattle.hall_sql.specs.Rows.{place_in, tester_in};
ghost use Rattle.hall_sql.specs.Cause.{IsAnyUnread};
ghost use Rattle.hall_policy.specs.declared.record.AnswerKey.{AnswerKey as KeyColumns};
ghost use Rattle.hall_sql.specs.Values.{AreAscii};
ghost use Rattle.hall_store.specs.Store.{Fails};
ghost use Rattle.hall_store.specs.declared.fault.StoreFault.TheVariants.{Failed};
ghost use Rattle.hall_grid.specs.declared.fault.TextFault.TheVariants.{Memory as NoMemory};

use crate::calls::fault_of;
use hall_grid::{Broken, Puzzle, TextFault, parse_puzzle};
use hall_policy::{
    AnswerKey, AnswerRow, AnswerText, Checked, Entry, Mode, Person, PlaceKey, ProtestKey,
    ProtestRow, PuzzleKey, PuzzleRow, PuzzleState, Roles, Round, Ruling, RulingPoints, SomeRoles,
    TesterKey, TextKind, Within,
};
use hall_store::StoreFault;
use sqlite::Row;
use sqlite::types::ValueRef;
use std::alloc::Global;

/// A record that a row of a query gives.
pub(crate) trait Record: Sized {
    // The record whose columns these are.
    ghost read: { Columns → Option Self };

    /// Refused where the columns are no record of this kind.
    fn from_row(alloc: Global, row: &Row) -> Result<Self, StoreFault>
        ensures one { IfOk result (λ one. read row.now ≡ Some one) }
        ensures unread { Fails (read row.now ≡ None) result };
}

/// The text of a kind in a column.
#[tactic(auto, using(crate::proofs::ColumnLemmas::of_kind))]
fn text_at<K: TextKind>(row: &Row, at: usize) -> Result<Checked<K>, StoreFault>
    ensures text { IfOk result (λ text. kind_in K.LEAST K.MOST K.allows (column row.now at) ≡ Some text) }
    ensures unread { Fails (AreAscii K.allows → kind_in K.LEAST K.MOST K.allows (column row.now at) ≡ None) result }
{
    match row.get::<String>(at) {
        Ok(text) => Checked::new(text).ok_or(StoreFault::Failed),
        Err(error) => Err(fault_of(&error)),
    }
}

/// The number in a column.
pub(crate) fn number_at<const LEAST: u64, const MOST: u64>(
    row: &Row,
    at: usize,
) -> Result<Within<LEAST, MOST>, StoreFault>
    ensures number { IfOk result (λ number. within LEAST MOST (column row.now at) ≡ Some number) }
    ensures unread { Fails (MOST < 4294967296 → within LEAST MOST (column row.now at) ≡ None) result }
{
    match row.get::<u32>(at) {
        Ok(number) => Within::new(u64::from(number)).ok_or(StoreFault::Failed),
        Err(error) => Err(fault_of(&error)),
    }
}

/// The roles whose sum stands in a column.
fn roles_at(row: &Row, at: usize) -> Result<SomeRoles, StoreFault>
    ensures roles { IfOk result (λ roles. roles_in (column row.now at) ≡ Some roles) }
    ensures unread { Fails (roles_in (column row.now at) ≡ None) result }
{
    let sum = number_at::<1, 15>(row, at)?.get();
    let roles = Roles {
        director: sum % 2 == 1,
        author: sum / 2 % 2 == 1,
        referee: sum / 4 % 2 == 1,
        entrant: sum / 8 % 2 == 1,
    };
    SomeRoles::new(roles).ok_or(StoreFault::Failed)
}

/// Out of memory, or that the text spells no puzzle.
fn text_fault(fault: &TextFault) -> StoreFault
    ensures { result ≡ Failed → fault.now ≢ NoMemory }
{
    match fault {
        TextFault::Memory => StoreFault::Memory,
        _ => StoreFault::Failed,
    }
}

/// The puzzle that a text spells.
fn spelled(alloc: Global, text: &[u8]) -> Result<Puzzle, StoreFault>
    ensures puzzle { IfOk result (λ puzzle. board_of (spells_or_fault text.now) ≡ Some puzzle) }
    ensures unread { Fails (board_of (spells_or_fault text.now) ≡ None) result }
{
    match parse_puzzle(alloc, text) {
        Ok(puzzle) => Ok(puzzle),
        Err(fault) => Err(text_fault(&fault)),
    }
}

/// The puzzle whose text the value is.
fn puzzle_of(alloc: Global, value: ValueRef<'_>) -> Result<Puzzle, StoreFault>
    ensures puzzle { IfOk result (λ puzzle. puzzle_in (owned value.entry) ≡ Some puzzle) }
    ensures unread { Fails (puzzle_in (owned value.entry) ≡ None) result }
{
    match value {
        ValueRef::Text(text) => spelled(alloc, text),
        _ => Err(StoreFault::Failed),
    }
}

/// The puzzle whose text stands in a column.
fn puzzle_at(alloc: Global, row: &Row, at: usize) -> Result<Puzzle, StoreFault>
    ensures puzzle { IfOk result (λ puzzle. puzzle_in (column row.now at) ≡ Some puzzle) }
    ensures unread { Fails (puzzle_in (column row.now at) ≡ None) result }
{
    match row.get_ref(at) {
        Ok(value) => puzzle_of(alloc, value),
        Err(_) => Err(StoreFault::Failed),
    }
}

/// The code that stands in a column.
fn code_at(row: &Row, at: usize) -> Result<u32, StoreFault>
    ensures code { IfOk result (λ code. number_in (column row.now at) ≡ Some code) }
    ensures unread { Fails ((code : ℕ) → number_in (column row.now at) ≡ Some code → 4294967296 ≤ code) result }
{
    match row.get::<u32>(at) {
        Ok(code) => Ok(code),
        Err(error) => Err(fault_of(&error)),
    }
}

/// The state of a code that has no solution.
fn unsolved(code: u32) -> Option<PuzzleState>
    ensures { result ≡ unsolved_of code }
{
    match code {
        0 => Some(PuzzleState::New),
        2 => Some(PuzzleState::NoSolution),
        3 => Some(PuzzleState::More),
        4 => Some(PuzzleState::GaveUp),
        _ => None,
    }
}

/// The state whose code and solution stand in two columns.
fn state_at(row: &Row, code_at_place: usize, solution_at: usize) -> Result<PuzzleState, StoreFault>
    ensures state { IfOk result
        (λ state. state_in (column row.now code_at_place) (column row.now solution_at) ≡ Some state) }
    ensures unread { Fails (state_in (column row.now code_at_place) (column row.now solution_at) ≡ None) result }
{
    let code = code_at(row, code_at_place)?;
    let solution: AnswerText = text_at(row, solution_at)?;
    if code == 1 {
        return Ok(PuzzleState::One(solution));
    }
    if solution.as_str().len() != 0 {
        return Err(StoreFault::Failed);
    }
    unsolved(code).ok_or(StoreFault::Failed)
}

impl Record for Person {
    ghost read = { person_in };

    fn from_row(_: Global, row: &Row) -> Result<Person, StoreFault> {
        let name = text_at(row, 0)?;
        let key = text_at(row, 1)?;
        let roles = roles_at(row, 2)?;
        Ok(Person { name, key, roles })
    }
}

impl Record for PuzzleRow {
    ghost read = { puzzle_row_in };

    fn from_row(alloc: Global, row: &Row) -> Result<PuzzleRow, StoreFault> {
        let author = text_at(row, 0)?;
        let label = text_at(row, 1)?;
        let puzzle = puzzle_at(alloc, row, 2)?;
        let state = state_at(row, 3, 4)?;
        Ok(PuzzleRow {
            key: PuzzleKey { author, label },
            puzzle,
            state,
        })
    }
}

/// The key of an answer, in the first four columns.
fn answer_key_at(row: &Row) -> Result<AnswerKey, StoreFault>
    ensures key { IfOk result (IsAnswerKeyIn row.now) }
    ensures unread { Fails ((key : KeyColumns) → ¬ (IsAnswerKeyIn row.now key)) result }
{
    let number = number_at(row, 2)?;
    let entrant = text_at(row, 0)?;
    let round = text_at(row, 1)?;
    let token = text_at(row, 3)?;
    Ok(AnswerKey {
        entrant,
        round,
        number,
        token,
    })
}

/// The greatest verdict in a column.
const MOST_VERDICT: u64 = Broken::ALL_BITS as u64;

/// The verdict whose bits stand in a column.
pub(crate) fn verdict_at(row: &Row, at: usize) -> Result<Broken, StoreFault>
    ensures verdict { IfOk result (λ verdict. verdict_in (column row.now at) ≡ Some verdict) }
    ensures unread { Fails (verdict_in (column row.now at) ≡ None) result }
{
    Ok(Broken::from_bits(number_at::<0, MOST_VERDICT>(row, at)?.get() as u16))
}

impl Record for AnswerRow {
    ghost read = { answer_in };

    fn from_row(_: Global, row: &Row) -> Result<AnswerRow, StoreFault> {
        let n = number_at(row, 4)?;
        let moment = number_at(row, 5)?;
        let verdict = verdict_at(row, 7)?;
        let answer = text_at(row, 6)?;
        let key = answer_key_at(row)?;
        Ok(AnswerRow {
            key,
            n,
            moment,
            answer,
            verdict,
        })
    }
}

/// The points that stand in a column.
fn points_at(row: &Row, at: usize) -> Result<i32, StoreFault>
    ensures points { IfOk result (λ points. int_in (column row.now at) ≡ Some points) }
    ensures unread { Fails ((points : ℤ) → int_in (column row.now at) ≡ Some points → ¬ (FitsSigned w32 points))
        result }
{
    match row.get::<i32>(at) {
        Ok(points) => Ok(points),
        Err(error) => Err(fault_of(&error)),
    }
}

/// The points of a ruling, where they lie in its range.
fn ruling_points(points: i32) -> Option<RulingPoints>
    ensures some { IfSome result (λ some. ruling_points_of points ≡ Some some) }
    ensures none { IfNone result (ruling_points_of points ≡ None) }
{
    match i16::try_from(points) {
        Ok(points) => RulingPoints::new(points),
        Err(_) => None,
    }
}

/// The ruling of a code that has no points; none while the protest is open.
fn unpointed(code: u32) -> Option<Option<Ruling>>
    ensures { result ≡ unpointed_of code }
{
    match code {
        0 => Some(None),
        2 => Some(Some(Ruling::Rejected)),
        _ => None,
    }
}

/// The ruling whose code and points stand in two columns; none while the protest is open.
pub(crate) fn ruling_at(
    row: &Row,
    code_at_place: usize,
    points_at_place: usize,
) -> Result<Option<Ruling>, StoreFault>
    ensures ruling { IfOk result
        (λ ruling. ruling_in (column row.now code_at_place) (column row.now points_at_place) ≡ Some ruling) }
    ensures unread { Fails (ruling_in (column row.now code_at_place) (column row.now points_at_place) ≡ None) result }
{
    let code = code_at(row, code_at_place)?;
    let points = points_at(row, points_at_place)?;
    if code == 1 {
        return match ruling_points(points) {
            Some(points) => Ok(Some(Ruling::Upheld(points))),
            None => Err(StoreFault::Failed),
        };
    }
    if points != 0 {
        return Err(StoreFault::Failed);
    }
    unpointed(code).ok_or(StoreFault::Failed)
}

impl Record for ProtestRow {
    ghost read = { protest_in };

    fn from_row(_: Global, row: &Row) -> Result<ProtestRow, StoreFault> {
        let number = number_at(row, 3)?;
        let ruling = ruling_at(row, 5, 6)?;
        let entrant = text_at(row, 0)?;
        let round = text_at(row, 1)?;
        let token = text_at(row, 2)?;
        let text = text_at(row, 4)?;
        Ok(ProtestRow {
            key: ProtestKey {
                entrant,
                round,
                token,
            },
            number,
            text,
            ruling,
        })
    }
}

/// The mode whose code stands in a column.
fn mode_at(row: &Row, at: usize) -> Result<Mode, StoreFault>
    ensures mode { IfOk result (λ mode. mode_in (column row.now at) ≡ Some mode) }
    ensures unread { Fails (mode_in (column row.now at) ≡ None) result }
{
    match code_at(row, at)? {
        0 => Ok(Mode::Instant),
        1 => Ok(Mode::Sealed),
        _ => Err(StoreFault::Failed),
    }
}

/// The flag that stands in a column as 0 or 1.
fn flag_at(row: &Row, at: usize) -> Result<bool, StoreFault>
    ensures flag { IfOk result (λ flag. flag_in (column row.now at) ≡ Some flag) }
    ensures unread { Fails (flag_in (column row.now at) ≡ None) result }
{
    match code_at(row, at)? {
        0 => Ok(false),
        1 => Ok(true),
        _ => Err(StoreFault::Failed),
    }
}

impl Record for Round {
    ghost read = { round_in };

    fn from_row(_: Global, row: &Row) -> Result<Round, StoreFault> {
        let start = number_at(row, 2)?;
        let minutes = number_at(row, 3)?;
        let protest_minutes = number_at(row, 4)?;
        let mode = mode_at(row, 5)?;
        let penalty = number_at(row, 6)?;
        let bonus = number_at(row, 7)?;
        let released = flag_at(row, 8)?;
        let published = flag_at(row, 9)?;
        let id = text_at(row, 0)?;
        let title = text_at(row, 1)?;
        Ok(Round {
            id,
            title,
            start,
            minutes,
            protest_minutes,
            mode,
            penalty,
            bonus,
            released,
            published,
        })
    }
}

/// The place of a puzzle in a round, and the puzzle there.
pub(crate) type Place = (PlaceKey, Entry);

impl Record for Place {
    ghost read = { place_in };

    fn from_row(_: Global, row: &Row) -> Result<Place, StoreFault> {
        let number = number_at(row, 1)?;
        let points = number_at(row, 4)?;
        let round = text_at(row, 0)?;
        let author = text_at(row, 2)?;
        let label = text_at(row, 3)?;
        Ok((
            PlaceKey { round, number },
            Entry {
                puzzle: PuzzleKey { author, label },
                points,
            },
        ))
    }
}

/// A tester of a round under its key, beside which there is nothing to tell.
pub(crate) type Tester = (TesterKey, ());

impl Record for Tester {
    ghost read = { tester_in };

    fn from_row(_: Global, row: &Row) -> Result<Tester, StoreFault> {
        let round = text_at(row, 0)?;
        let name = text_at(row, 1)?;
        Ok((TesterKey { round, name }, ()))
    }
}

/// All rows as records.
pub(crate) fn read_all<T: Record + Drop>(alloc: Global, rows: &[Row]) -> Result<Vec<T>, StoreFault>
    ensures all { IfOk result (λ records. map T.Record.read rows.now ≡ map Some records.items) }
    ensures unread { Fails (IsAnyUnread T.Record.read rows.now) result }
{
    let mut records = Vec::new(alloc);
    for row in rows {
        let record = T::from_row(alloc, row)?;
        if records.push(record).is_err() {
            return Err(StoreFault::Memory);
        }
    }
    Ok(records)
}

/// The one record, if there is any. More than one under a key is refused.
pub(crate) fn at_most_one<T: Drop>(mut records: Vec<T>) -> Result<Option<T>, StoreFault>
    ensures one { IfOk result (λ one. (length records.items ≤ 1) × (one ≡ slice_get records.items 0)) }
    ensures more { IfErr result (λ _. 1 < length records.items) }
{
    if 1 < records.len() {
        return Err(StoreFault::Failed);
    }
    Ok(records.pop())
}
