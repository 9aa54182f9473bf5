//! Rows, columns and boxes.
ghost use Rattle.std.specs.Prelude.{◌≡◌, ◌<◌};
ghost use Rattle.hall_grid.specs.Board.{cells};
ghost use Rattle.hall_grid.specs.Sudoku.{box_cols, box_rows};
ghost use Rattle.hall_sudoku.specs.Unit.{unit_of};

use hall_grid::Size;

/// A way to divide the board into units.
#[derive(Clone, Copy)]
pub(crate) enum Unit {
    Row,
    Column,
    Box,
}

fn box_width(size: Size) -> usize
    ensures width { result ≡ box_cols size }
    ensures some { 0 < result }
{
    match size.cols {
        4 => 2,
        16 => 4,
        25 => 5,
        _ => 3,
    }
}

fn box_height(size: Size) -> usize
    ensures height { result ≡ box_rows size }
    ensures some { 0 < result }
{
    match size.cols {
        4 | 6 => 2,
        16 => 4,
        25 => 5,
        _ => 3,
    }
}

/// The number of the cell's unit.
pub(crate) fn unit_of(unit: Unit, size: Size, cell: usize) -> usize
    requires some { 0 < size.cols }
    requires board { cell < cells size }
    ensures { result ≡ unit_of unit size cell }
{
    let row = cell / size.cols;
    let col = cell % size.cols;
    match unit {
        Unit::Row => row,
        Unit::Column => col,
        Unit::Box => {
            let height = box_height(size);
            height * (row / height) + col / box_width(size)
        }
    }
}
