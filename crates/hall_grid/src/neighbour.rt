//! What stands beside a cell: cells, sides and dots.
ghost use Rattle.std.specs.Prelude.{◌≡◌, ℕ, ◌<◌, ◌↔◌, Contains, All, slice_index_or, None, Some};
ghost use Rattle.hall_grid.specs.Board.{cells, IsSize, Touch};
ghost use Rattle.hall_grid.specs.Beside.{IsAbove, IsNextLeft, IsNextRight, IsBelow, Holds};
ghost use Rattle.hall_grid.specs.Slither.{sides_of, all_sides, ends, dots};

use crate::board::Size;

fn above(size: Size, cell: usize) -> Option<usize>
    requires size { IsSize size }
    requires board { cell < cells size }
    ensures { Holds result (IsAbove size cell) }
{
    if cell >= size.cols {
        Some(cell - size.cols)
    } else {
        None
    }
}

fn left(size: Size, cell: usize) -> Option<usize>
    requires size { IsSize size }
    requires board { cell < cells size }
    ensures { Holds result (IsNextLeft size cell) }
{
    if cell % size.cols > 0 {
        Some(cell - 1)
    } else {
        None
    }
}

fn right(size: Size, cell: usize) -> Option<usize>
    requires size { IsSize size }
    requires board { cell < cells size }
    ensures { Holds result (IsNextRight size cell) }
{
    if cell % size.cols + 1 < size.cols {
        Some(cell + 1)
    } else {
        None
    }
}

fn below(size: Size, cell: usize) -> Option<usize>
    requires size { IsSize size }
    requires board { cell < cells size }
    ensures { Holds result (IsBelow size cell) }
{
    if cell / size.cols + 1 < size.rows {
        Some(cell + size.cols)
    } else {
        None
    }
}

/// The cells that touch the cell: up, left, right, down.
pub fn neighbours(size: Size, cell: usize) -> [Option<usize>; 4]
    requires size { IsSize size }
    requires board { cell < cells size }
    ensures up { Holds (slice_index_or result 0 None) (IsAbove size cell) }
    ensures left { Holds (slice_index_or result 1 None) (IsNextLeft size cell) }
    ensures right { Holds (slice_index_or result 2 None) (IsNextRight size cell) }
    ensures down { Holds (slice_index_or result 3 None) (IsBelow size cell) }
    ensures touching { (other : ℕ) → Contains result (Some other) ↔ ((other < cells size) × Touch size cell other) }
{
    [
        above(size, cell),
        left(size, cell),
        right(size, cell),
        below(size, cell),
    ]
}

/// The sides of the cell: top, left, right, bottom. Sides are numbered row by row, first the horizontal ones
/// and then the upright ones.
pub fn sides(size: Size, cell: usize) -> [usize; 4]
    requires size { IsSize size }
    requires board { cell < cells size }
    ensures sides { result ≡ sides_of size cell }
    ensures board { All (λ side. side < all_sides size) result }
{
    let row = cell / size.cols;
    let flat_sides = size.flat_sides();
    let left = flat_sides + cell + row;
    [cell, left, left + 1, cell + size.cols]
}

/// The two dots that the side joins, the left or the upper one first. Dots are numbered row by row, sides as in
/// `sides`.
pub fn dot_ends(size: Size, edge: usize) -> (usize, usize)
    requires size { IsSize size }
    requires board { edge < all_sides size }
    ensures ends { result ≡ ends size edge }
    ensures dots { (result.0 < dots size) × (result.1 < dots size) }
{
    let flat_sides = size.flat_sides();
    if edge < flat_sides {
        let dot = edge + edge / size.cols;
        (dot, dot + 1)
    } else {
        let dot = edge - flat_sides;
        (dot, dot + size.cols + 1)
    }
}
