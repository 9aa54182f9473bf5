//! Which values each cell may still have.
ghost use Rattle.std.specs.Prelude.{◌≡◌, ◌<◌, ◌≤◌, ℕ, Some, None, IfSome, IfNone, length, slice_index, slice_index_or};
ghost use Rattle.hall_grid.specs.Board.{cells};
ghost use Rattle.hall_solve.specs.Question.{IsPartial, IsHopeless, IsOpen, IsWhole};
ghost use Rattle.hall_sudoku.specs.Units.{units_question};
ghost use Rattle.hall_sudoku.specs.Settled.{Clashes, HaveNoClash};
ghost use Rattle.hall_sudoku.specs.Candidates.{AreTaken, AreAllTaken, IsLeft, AreCandidates, AreFilled};

use crate::failures::Urgency;
use crate::units::{MOST_UNITS, Units};
use crate::values::Values;
use hall_solve::Partial;

/// The values that stand in each row, column and box.
#[derive(Drop)]
struct Taken {
    rows: [Values; MOST_UNITS],
    columns: [Values; MOST_UNITS],
    boxes: [Values; MOST_UNITS],
}

/// The values that stand in each unit, `None` where one stands there twice.
fn taken_in(units: &[u8], partial: &Partial) -> Option<[Values; MOST_UNITS]>
    requires exact { length units.now ≡ length partial.now.places }
    requires units { (cell : ℕ) → cell < length units.now → slice_index units.now cell < MOST_UNITS }
    requires values { (cell v : ℕ) → slice_index_or partial.now.places cell None ≡ Some v → v < 32 }
    ensures size { IfSome result (λ t. length t ≡ MOST_UNITS) }
    ensures some { IfSome result (AreTaken (slice_index units.now) partial.now.places) }
    ensures apart { IfSome result (λ _. Clashes (slice_index units.now) partial.now.places → ⊥) }
    ensures none { IfNone result (Clashes (slice_index units.now) partial.now.places) }
{
    let mut taken = [Values::none(); MOST_UNITS];
    for (cell, unit) in units.iter().enumerate() {
        if let Some(value) = partial.get(cell) {
            let unit = *unit as usize;
            if taken[unit].contains(value) {
                return None;
            }
            taken[unit] = taken[unit].or(Values::of(value));
        }
    }
    Some(taken)
}

/// The values that the cell may still have.
fn left_at(units: &Units, taken: &Taken, partial: &Partial, cell: usize) -> Values
    requires partial { IsPartial (units_question units.now) partial.now.places }
    requires cell { cell < cells units.now }
    requires taken { AreAllTaken units.now partial.now.places taken.now }
    requires rows { length taken.now.rows ≡ MOST_UNITS }
    requires columns { length taken.now.columns ≡ MOST_UNITS }
    requires boxes { length taken.now.boxes ≡ MOST_UNITS }
    ensures { IsLeft units.now partial.now.places cell result }
{
    let side = units.side();
    match partial.get(cell) {
        Some(value) => Values::of(value),
        None => Values::below(side)
            .without(taken.rows[units.row(cell)])
            .without(taken.columns[units.column(cell)])
            .without(taken.boxes[units.box_number(cell)]),
    }
}

/// The values that each cell may still have, `None` where there is no solution.
pub(crate) fn candidates<const CELLS: usize>(
    units: &Units,
    partial: &Partial,
) -> Option<[Values; CELLS]>
    requires fits { cells units.now ≤ CELLS }
    requires few { CELLS ≤ 625 }
    requires partial { IsPartial (units_question units.now) partial.now.places }
    ensures room { IfSome result (λ c. cells units.now ≤ length c) }
    ensures some { IfSome result (AreCandidates units.now partial.now.places) }
    ensures filled { IfSome result (AreFilled units.now) }
    ensures apart { IfSome result (λ _. HaveNoClash units.now partial.now.places) }
    ensures none { IfNone result (IsHopeless (units_question units.now) partial.now.places) }
{
    let taken = Taken {
        rows: taken_in(units.rows(), partial)?,
        columns: taken_in(units.columns(), partial)?,
        boxes: taken_in(units.boxes(), partial)?,
    };
    let mut candidates = [Values::none(); CELLS];
    for cell in 0..partial.len() {
        let left = left_at(units, &taken, partial, cell);
        if left.is_empty() {
            return None;
        }
        candidates[cell] = left;
    }
    Some(candidates)
}

/// How much is known at a cell that may have one of the values: 1 where it is open, and more where it has two left.
fn tie(units: &Units, candidates: &[Values], partial: &Partial, values: Values, cell: usize) -> u32
    requires cell { cell < length partial.now.places }
    requires room { cell < length candidates.now }
{
    let left = candidates[cell];
    if partial.get(cell).is_some() || left.and(values).is_empty() {
        return 0;
    }
    if left.count() != 2 {
        1
    } else if units.side() > 16 {
        8
    } else {
        5
    }
}

/// How much is known round a cell: at the other cells of its units.
fn ties(units: &Units, candidates: &[Values], partial: &Partial, cell: usize) -> u32
    requires exact { length partial.now.places ≡ cells units.now }
    requires room { cells units.now ≤ length candidates.now }
    requires cell { cell < cells units.now }
{
    let (row, column) = (units.row(cell), units.column(cell));
    let values = candidates[cell];
    let mut ties: u32 = 0;
    for line in 0..usize::from(units.side()) {
        if line != column {
            let beside = units.at(row, line);
            ties = ties.saturating_add(tie(units, candidates, partial, values, beside));
        }
        if line != row {
            let below = units.at(line, column);
            ties = ties.saturating_add(tie(units, candidates, partial, values, below));
            if units.box_number(below) == units.box_number(cell) {
                ties = ties.saturating_add(ties_across(units, candidates, partial, cell, line));
            }
        }
    }
    ties
}

/// How much is known at the cells of the cell's box that stand in another row, and not below or above it.
fn ties_across(
    units: &Units,
    candidates: &[Values],
    partial: &Partial,
    cell: usize,
    row: usize,
) -> u32
    requires exact { length partial.now.places ≡ cells units.now }
    requires room { cells units.now ≤ length candidates.now }
    requires cell { cell < cells units.now }
    requires row { row < units.now.cols }
{
    let mut ties: u32 = 0;
    for column in 0..usize::from(units.side()) {
        let other = units.at(row, column);
        if column != units.column(cell) && units.box_number(other) == units.box_number(cell) {
            ties = ties.saturating_add(tie(units, candidates, partial, candidates[cell], other));
        }
    }
    ties
}

/// The open cell whose candidates, divided by one more than its failures, are fewest; of those the one round which most
/// is known.
pub(crate) fn fewest(
    units: &Units,
    candidates: &[Values],
    failures: &[u32],
    partial: &Partial,
) -> Option<usize>
    requires exact { length partial.now.places ≡ cells units.now }
    requires room { cells units.now ≤ length candidates.now }
    ensures unset { IfSome result (IsOpen partial.now.places) }
    ensures whole { IfNone result (IsWhole partial.now.places) }
{
    let mut best: Option<usize> = None;
    let mut urgency = Urgency::least();
    let mut most = 0;
    for cell in 0..partial.len() {
        if partial.get(cell).is_none() {
            let own = Urgency::of(candidates[cell].count(), failures, cell);
            if best.is_none() || !urgency.exceeds(own) {
                let ties = ties(units, candidates, partial, cell);
                if best.is_none() || own.exceeds(urgency) || ties > most {
                    best = Some(cell);
                    urgency = own;
                    most = ties;
                }
            }
        }
    }
    best
}
