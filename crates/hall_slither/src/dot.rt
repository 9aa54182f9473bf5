//! Dots, the sides at them and their degrees.
ghost use Rattle.std.specs.Prelude.{◌≡◌, ℕ, ◌+◌, ◌-◌, ◌*◌, ◌/◌, ◌%◌, ◌<◌, ◌≤◌, ◌⊎◌, length, IfSome, Contains};
ghost use Rattle.hall_grid.specs.Board.{IsSize};
ghost use Rattle.hall_grid.specs.Slither.{dots, all_sides, degree, is_line, ShareDot};
ghost use Rattle.hall_slither.specs.Dot.{sides_at, count_at};

use hall_grid::{Size, dot_ends};

/// How many dots the board has; they are numbered row by row, from 0.
pub(crate) fn dot_count(size: Size) -> usize
    requires { IsSize size }
    ensures { result ≡ dots size }
{
    (size.rows + 1) * (size.cols + 1)
}

/// The sides at a dot, where they are on the board: up, left, right, down.
pub(crate) fn sides_at(size: Size, dot: usize) -> [Option<usize>; 4]
    requires size { IsSize size }
    requires board { dot < dots size }
    ensures { result ≡ sides_at size dot }
{
    let row = dot / (size.cols + 1);
    let col = dot % (size.cols + 1);
    let flat_sides = size.flat_sides();
    let flat = row * size.cols + col;
    let up = if row > 0 {
        Some(flat_sides + (row - 1) * (size.cols + 1) + col)
    } else {
        None
    };
    let left = if col > 0 { Some(flat - 1) } else { None };
    let right = if col < size.cols { Some(flat) } else { None };
    let down = if row < size.rows {
        Some(flat_sides + row * (size.cols + 1) + col)
    } else {
        None
    };
    [up, left, right, down]
}

/// 1 where there is such a side and it is a line, else 0.
fn line_at(lines: &[u8], side: Option<usize>) -> usize
    requires { IfSome side (λ s. s < length lines.now) }
    ensures count { result ≡ count_at (is_line lines.now) side }
    ensures small { result ≤ 1 }
{
    match side {
        Some(side) if lines[side] == 1 => 1,
        _ => 0,
    }
}

/// How many lines are at a dot.
pub(crate) fn degree(size: Size, lines: &[u8], dot: usize) -> usize
    requires size { IsSize size }
    requires lines { length lines.now ≡ all_sides size }
    requires board { dot < dots size }
    ensures degree { result ≡ degree size lines.now dot }
    ensures small { result ≤ 4 }
{
    let [up, left, right, down] = sides_at(size, dot);
    line_at(lines, up) + line_at(lines, left) + line_at(lines, right) + line_at(lines, down)
}

/// The at most six other sides that share a dot with a side.
pub(crate) fn sides_beside(size: Size, side: usize) -> [Option<usize>; 6]
    requires size { IsSize size }
    requires board { side < all_sides size }
    ensures below { (other : ℕ) → Contains result (Some other) → other < all_sides size }
    ensures share { (other : ℕ) → Contains result (Some other) → ShareDot size side other }
    ensures all { (other : ℕ) → ShareDot size side other → other < all_sides size
        → (other ≡ side) ⊎ Contains result (Some other) }
{
    let (first, second) = dot_ends(size, side);
    let [up, left, right, down] = sides_at(size, first);
    let [other_up, other_left, other_right, other_down] = sides_at(size, second);
    if side < size.flat_sides() {
        [up, left, down, other_up, other_right, other_down]
    } else {
        [up, left, right, other_left, other_right, other_down]
    }
}
