//! Deductions: a cell with one value left, and a value with one cell left in a unit.
ghost use Rattle.std.specs.Prelude.{◌≡◌, ◌≤◌, ◌<◌, ℕ, false, IsTrue, IfSome, IfNone, length, slice_index};
ghost use Rattle.hall_grid.specs.Board.{cells};
ghost use Rattle.hall_solve.specs.Question.{IsPartial, IsHopeless};
ghost use Rattle.hall_solve.specs.Deduction.{HasAlways, IsDeduced};
ghost use Rattle.hall_solve.specs.Trail.{Grows};
ghost use Rattle.hall_sudoku.specs.Units.{units_question};
ghost use Rattle.hall_sudoku.specs.Settled.{HaveNoClash, IsBoardSettled};
ghost use Rattle.hall_sudoku.specs.Candidates.{AreCandidates, AreFilled, AreShared, AreAllShared, AreComplete};
ghost use Rattle.hall_sudoku.specs.Candidates.{AreAllComplete, IsMissing, Lacks, LacksNothing};
ghost use Rattle.hall_sudoku.specs.Candidates.{IsSole, HasNoSole, HaveNoSole};

use crate::candidates::candidates;
use crate::narrow::narrow;
use crate::pairs::leave_pairs;
use crate::seen_values::seen_and_shared;
use crate::units::{MOST_UNITS, Room, Units};
use crate::values::Values;
use hall_solve::{Deduce, Partial, Pass};
use std::alloc::{AllocError, Global};

/// The values that several cells of each row, column and box may have.
#[derive(Drop)]
struct Shared {
    rows: [Values; MOST_UNITS],
    columns: [Values; MOST_UNITS],
    boxes: [Values; MOST_UNITS],
}

/// Whether the set of some unit lacks a value below the side.
fn lacks_one(seen: &[Values], side: u8) -> bool
    requires side { side ≤ MOST_UNITS }
    requires units { length seen.now ≡ MOST_UNITS }
    ensures lacks { IsTrue result → Lacks side seen.now }
    ensures nothing { result ≡ false → LacksNothing side side seen.now }
{
    let all = Values::below(side);
    for unit in 0..side as usize {
        if all.without(seen[unit]).least().is_some() {
            return true;
        }
    }
    false
}

/// The values that several cells of each unit may have, `None` where no cell of a unit may have a value.
fn shared_in(units: &[u8], candidates: &[Values], side: u8) -> Option<[Values; MOST_UNITS]>
    requires cells { length units.now ≤ length candidates.now }
    requires units { (cell : ℕ) → cell < length units.now → slice_index units.now cell < MOST_UNITS }
    requires side { side ≤ MOST_UNITS }
    ensures size { IfSome result (λ s. length s ≡ MOST_UNITS) }
    ensures some { IfSome result (AreShared (slice_index units.now) (length units.now) candidates.now) }
    ensures complete { IfSome result (λ _. AreComplete (slice_index units.now) (length units.now) candidates.now side) }
    ensures none { IfNone result (IsMissing (slice_index units.now) (length units.now) candidates.now side) }
{
    let (seen, shared) = seen_and_shared(units, candidates);
    if lacks_one(&seen, side) {
        None
    } else {
        Some(shared)
    }
}

/// The values that several cells of each row, column and box may have, `None` where there is no solution.
fn all_shared(units: &Units, candidates: &[Values], partial: &Partial) -> Option<Shared>
    requires room { cells units.now ≤ length candidates.now }
    requires partial { IsPartial (units_question units.now) partial.now.places }
    requires candidates { AreCandidates units.now partial.now.places candidates.now }
    ensures rows { IfSome result (λ s. length s.rows ≡ MOST_UNITS) }
    ensures columns { IfSome result (λ s. length s.columns ≡ MOST_UNITS) }
    ensures boxes { IfSome result (λ s. length s.boxes ≡ MOST_UNITS) }
    ensures some { IfSome result (AreAllShared units.now candidates.now) }
    ensures complete { IfSome result (λ _. AreAllComplete units.now candidates.now) }
    ensures none { IfNone result (IsHopeless (units_question units.now) partial.now.places) }
{
    let side = units.side();
    Some(Shared {
        rows: shared_in(units.rows(), candidates, side)?,
        columns: shared_in(units.columns(), candidates, side)?,
        boxes: shared_in(units.boxes(), candidates, side)?,
    })
}

/// The value that follows at the cell.
fn sole_at(units: &Units, candidates: &[Values], shared: &Shared, cell: usize) -> Option<u8>
    requires room { cells units.now ≤ length candidates.now }
    requires cell { cell < cells units.now }
    requires filled { AreFilled units.now candidates.now }
    requires rows { length shared.now.rows ≡ MOST_UNITS }
    requires columns { length shared.now.columns ≡ MOST_UNITS }
    requires boxes { length shared.now.boxes ≡ MOST_UNITS }
    ensures some { IfSome result (IsSole units.now candidates.now shared.now cell) }
    ensures none { IfNone result (HasNoSole units.now candidates.now shared.now cell) }
{
    let left = candidates[cell];
    if let Some(value) = left.only() {
        return Some(value);
    }
    let in_row = shared.rows[units.row(cell)];
    let in_column = shared.columns[units.column(cell)];
    let in_box = shared.boxes[units.box_number(cell)];
    left.without(in_row.and(in_column).and(in_box)).least()
}

/// Sets each open cell whose value follows.
fn set_soles(units: &Units, candidates: &[Values], shared: &Shared, partial: &mut Partial) -> Pass
    requires room { cells units.now ≤ length candidates.now }
    requires partial { IsPartial (units_question units.now) partial.old.places }
    requires candidates { AreCandidates units.now partial.old.places candidates.now }
    requires filled { AreFilled units.now candidates.now }
    requires shared { AreAllShared units.now candidates.now shared.now }
    requires rows { length shared.now.rows ≡ MOST_UNITS }
    requires columns { length shared.now.columns ≡ MOST_UNITS }
    requires boxes { length shared.now.boxes ≡ MOST_UNITS }
    ensures deduced { IsDeduced (units_question units.now) partial.old.places partial.new.places result }
    ensures grows { Grows partial.old partial.new }
    ensures settled { result ≡ Pass.Settled → HaveNoSole units.now partial.old.places candidates.now shared.now }
{
    let mut pass = Pass::Settled;
    for cell in 0..units.cells() {
        if partial.get(cell).is_none() {
            if let Some(value) = sole_at(units, candidates, shared, cell) {
                partial.set(cell, value);
                pass = Pass::Advanced;
            }
        }
    }
    pass
}

/// Sets each open cell whose value follows from one cell or one unit, or finds that there is no solution.
fn soles(units: &Units, candidates: &[Values], partial: &mut Partial) -> Pass
    requires room { cells units.now ≤ length candidates.now }
    requires partial { IsPartial (units_question units.now) partial.old.places }
    requires candidates { AreCandidates units.now partial.old.places candidates.now }
    requires filled { AreFilled units.now candidates.now }
    requires apart { HaveNoClash units.now partial.old.places }
    ensures deduced { IsDeduced (units_question units.now) partial.old.places partial.new.places result }
    ensures grows { Grows partial.old partial.new }
    ensures settled { result ≡ Pass.Settled → IsBoardSettled units.now partial.new.places }
{
    match all_shared(units, candidates, partial) {
        Some(shared) => set_soles(units, candidates, &shared, partial),
        None => Pass::Dead,
    }
}

/// Sets each open cell whose value follows from one cell or one unit; where none does, also from the candidates that
/// pairs leave, which cost more than they bring up to side 9.
fn narrowed_soles<const CELLS: usize>(
    units: &Units,
    candidates: &mut [Values],
    partial: &mut Partial,
) -> Pass
    requires fits { cells units.now ≤ CELLS }
    requires few { CELLS ≤ 625 }
    requires room { cells units.now ≤ length candidates.old }
    requires partial { IsPartial (units_question units.now) partial.old.places }
    requires candidates { AreCandidates units.now partial.old.places candidates.old }
    requires filled { AreFilled units.now candidates.old }
    requires apart { HaveNoClash units.now partial.old.places }
    ensures deduced { IsDeduced (units_question units.now) partial.old.places partial.new.places result }
    ensures grows { Grows partial.old partial.new }
    ensures settled { result ≡ Pass.Settled → IsBoardSettled units.now partial.new.places }
{
    match soles(units, candidates, partial) {
        Pass::Settled if units.side() > 9 => {}
        pass => return pass,
    }
    if leave_pairs::<CELLS>(units, partial, candidates) {
        soles(units, candidates, partial)
    } else {
        Pass::Dead
    }
}

/// A pass over a board of at most so many cells.
fn pass_in<const CELLS: usize>(units: &Units, partial: &mut Partial) -> Pass
    requires fits { cells units.now ≤ CELLS }
    requires few { CELLS ≤ 625 }
    requires partial { IsPartial (units_question units.now) partial.old.places }
    ensures deduced { IsDeduced (units_question units.now) partial.old.places partial.new.places result }
    ensures grows { Grows partial.old partial.new }
    ensures settled { result ≡ Pass.Settled → IsBoardSettled units.now partial.new.places }
{
    let Some(mut candidates) = candidates::<CELLS>(units, partial) else {
        return Pass::Dead;
    };
    match soles(units, &candidates, partial) {
        Pass::Settled => {}
        pass => return pass,
    }
    if narrow::<CELLS>(units, partial, &mut candidates) {
        narrowed_soles::<CELLS>(units, &mut candidates, partial)
    } else {
        Pass::Dead
    }
}

impl Deduce for Units {
    type Scratch = ();

    ghost question = { units_question };

    ghost settled = { IsBoardSettled };

    fn pass(
        &self,
        _alloc: Global,
        partial: &mut Partial,
        _scratch: &mut (),
    ) -> Result<Pass, AllocError> {
        Ok(match self.room() {
            Room::Nine => pass_in::<81>(self, partial),
            Room::Sixteen => pass_in::<256>(self, partial),
            Room::Most => pass_in::<625>(self, partial),
        })
    }
}
