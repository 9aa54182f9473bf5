//! The units of all cells of a board, as tables.
ghost use Rattle.std.specs.Prelude.{◌≡◌, ◌↔◌, ◌<◌, ◌≤◌, ◌+◌, ◌*◌, ℕ, IfOk, IsTrue, length, slice_index};
ghost use Rattle.hall_grid.specs.Board.{cells, row, col, HasSize};
ghost use Rattle.hall_grid.specs.Sudoku.{box};
ghost use Rattle.hall_sudoku.specs.Unit.{unit_of};
ghost use Rattle.hall_sudoku.specs.Units.{IsDivision, Share, room_of};

use crate::unit::{Unit, unit_of};
use hall_grid::{Kind, Size};
use std::alloc::{AllocError, Global};
use std::marker::Model;

/// The largest side of a board, and so its most units of one sort.
pub(crate) const MOST_UNITS: usize = 25;

/// How many cells a board may have, for which a visit makes room.
#[derive(Clone, Copy)]
pub(crate) enum Room {
    /// At most 81.
    Nine,
    /// At most 256.
    Sixteen,
    /// At most 625, which are those of the largest board.
    Most,
}

/// The row, the column and the box of each cell of a board.
#[derive(Drop)]
pub(crate) struct Units {
    size: Size,
    rows: Vec<u8>,
    columns: Vec<u8>,
    boxes: Vec<u8>,
}

impl Model for Units {
    ghost use Rattle.hall_grid.specs.declared.board.Size.{Size};

    ghost Value = { Size };

    ghost use Rattle.hall_grid.specs.declared.board.Kind.TheVariants.{Sudoku};
    ghost use Rattle.hall_grid.specs.Board.{row, col, HasSize};
    ghost use Rattle.hall_grid.specs.Sudoku.{box};
    ghost use Rattle.hall_sudoku.specs.Units.{IsDivision};

    ghost view = { λ u. u.size };

    ghost invariant = { λ u. HasSize Sudoku u.size × IsDivision u.size (row u.size) u.rows.items
        × IsDivision u.size (col u.size) u.columns.items × IsDivision u.size (box u.size) u.boxes.items };
}

impl Units {
    /// The units of a board of this size.
    pub(crate) fn new(alloc: Global, size: Size) -> Result<Units, AllocError>
        requires { HasSize Kind.Sudoku size }
        ensures { IfOk result (λ u. u ≡ size) }
    {
        Ok(Units {
            size,
            rows: table(alloc, Unit::Row, size)?,
            columns: table(alloc, Unit::Column, size)?,
            boxes: table(alloc, Unit::Box, size)?,
        })
    }

    /// The side of the board.
    pub(crate) fn side(&self) -> u8
        ensures side { result ≡ self.now.cols }
        ensures small { result ≤ MOST_UNITS }
        ensures sudoku { HasSize Kind.Sudoku self.now }
    {
        self.size.cols as u8
    }

    /// How many cells the board has.
    pub(crate) fn cells(&self) -> usize
        ensures cells { result ≡ cells self.now }
        ensures sudoku { HasSize Kind.Sudoku self.now }
    {
        self.rows.len()
    }

    /// For how many cells a visit makes room.
    pub(crate) fn room(&self) -> Room
        ensures room { cells self.now ≤ room_of result }
        ensures sudoku { HasSize Kind.Sudoku self.now }
    {
        match self.size.cols {
            25 => Room::Most,
            16 => Room::Sixteen,
            _ => Room::Nine,
        }
    }

    /// The row of each cell.
    pub(crate) fn rows(&self) -> &[u8]
        ensures division { IsDivision self.now (row self.now) result.now }
        ensures sudoku { HasSize Kind.Sudoku self.now }
        ensures small { (cell : ℕ) → cell < length result.now → slice_index result.now cell < MOST_UNITS }
        ensures below { (cell : ℕ) → cell < length result.now → slice_index result.now cell < self.now.cols }
    {
        &self.rows
    }

    /// The column of each cell.
    pub(crate) fn columns(&self) -> &[u8]
        ensures division { IsDivision self.now (col self.now) result.now }
        ensures sudoku { HasSize Kind.Sudoku self.now }
        ensures small { (cell : ℕ) → cell < length result.now → slice_index result.now cell < MOST_UNITS }
        ensures below { (cell : ℕ) → cell < length result.now → slice_index result.now cell < self.now.cols }
    {
        &self.columns
    }

    /// The box of each cell.
    pub(crate) fn boxes(&self) -> &[u8]
        ensures division { IsDivision self.now (box self.now) result.now }
        ensures sudoku { HasSize Kind.Sudoku self.now }
        ensures small { (cell : ℕ) → cell < length result.now → slice_index result.now cell < MOST_UNITS }
        ensures below { (cell : ℕ) → cell < length result.now → slice_index result.now cell < self.now.cols }
    {
        &self.boxes
    }

    /// The cell's row.
    pub(crate) fn row(&self, cell: usize) -> usize
        requires { cell < cells self.now }
        ensures row { result ≡ row self.now cell }
        ensures small { result < MOST_UNITS }
        ensures below { result < self.now.cols }
    {
        self.rows[cell] as usize
    }

    /// The cell's column.
    pub(crate) fn column(&self, cell: usize) -> usize
        requires { cell < cells self.now }
        ensures column { result ≡ col self.now cell }
        ensures small { result < MOST_UNITS }
    {
        self.columns[cell] as usize
    }

    /// The number of the cell's box.
    pub(crate) fn box_number(&self, cell: usize) -> usize
        requires { cell < cells self.now }
        ensures number { result ≡ box self.now cell }
        ensures small { result < MOST_UNITS }
    {
        self.boxes[cell] as usize
    }

    /// The cell in the row and the column.
    pub(crate) fn at(&self, row: usize, column: usize) -> usize
        requires row { row < self.now.cols }
        requires column { column < self.now.cols }
        ensures cell { result ≡ row * self.now.cols + column }
        ensures board { result < cells self.now }
    {
        row * self.size.cols + column
    }

    /// Whether the cells have a unit in common.
    pub(crate) fn share(&self, cell: usize, other: usize) -> bool
        requires cell { cell < cells self.now }
        requires other { other < cells self.now }
        ensures share { IsTrue result ↔ Share self.now cell other }
        ensures sudoku { HasSize Kind.Sudoku self.now }
    {
        self.rows[cell] == self.rows[other]
            || self.columns[cell] == self.columns[other]
            || self.boxes[cell] == self.boxes[other]
    }
}

/// Each cell's unit.
fn table(alloc: Global, unit: Unit, size: Size) -> Result<Vec<u8>, AllocError>
    requires { HasSize Kind.Sudoku size }
    ensures { IfOk result (λ v. IsDivision size (unit_of unit size) v.items) }
{
    let cells = size.cells();
    let mut units = Vec::with_capacity(alloc, cells)?;
    for cell in 0..cells {
        units.push(unit_of(unit, size, cell) as u8)?;
    }
    Ok(units)
}
