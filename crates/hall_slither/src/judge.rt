//! The judge.
ghost use Rattle.std.specs.Prelude.{◌≡◌, ◌<◌, ◌↔◌, IsTrue, IfOk, length, All, count_by};
ghost use Rattle.hall_grid.specs.Board.{IsSize, Board};
ghost use Rattle.hall_grid.specs.Answer.{IsFilling, AreBroken};
ghost use Rattle.hall_grid.specs.Slither.{all_sides, is_line, HasNoLine, HasLooseEnd, HasCrossing, HasOtherCount};
ghost use Rattle.hall_slither.specs.Close.{with_line};

use crate::dot::{degree, dot_count};
use crate::lines::has_lines_apart;
use hall_grid::{Broken, Clue, Filling, Kind, Puzzle, Rule, Size, sides};
use std::alloc::{AllocError, Global};

/// Whether there is no line.
fn has_no_line(size: Size, lines: &[u8]) -> bool
    requires { length lines.now ≡ all_sides size }
    ensures { IsTrue result ↔ HasNoLine size lines.now }
{
    lines.iter().all(|line| *line != 1)
}

/// Whether a dot has one line.
fn has_loose_end(size: Size, lines: &[u8]) -> bool
    requires size { IsSize size }
    requires lines { length lines.now ≡ all_sides size }
    ensures { IsTrue result ↔ HasLooseEnd size lines.now }
{
    for dot in 0..dot_count(size) {
        if degree(size, lines, dot) == 1 {
            return true;
        }
    }
    false
}

/// Whether a dot has three or four lines.
fn has_crossing(size: Size, lines: &[u8]) -> bool
    requires size { IsSize size }
    requires lines { length lines.now ≡ all_sides size }
    ensures { IsTrue result ↔ HasCrossing size lines.now }
{
    for dot in 0..dot_count(size) {
        if degree(size, lines, dot) > 2 {
            return true;
        }
    }
    false
}

/// Whether the side is a line, or the one that is added.
fn is_line(lines: &[u8], more: Option<usize>, side: usize) -> bool
    requires { side < length lines.now }
    ensures { result ≡ is_line (with_line lines.now more) side }
{
    match more {
        Some(other) => side == other || lines[side] == 1,
        None => lines[side] == 1,
    }
}

/// How many of the sides are lines, with the one that is added.
fn count_lines(lines: &[u8], more: Option<usize>, sides: &[usize]) -> usize
    requires { All (λ side. side < length lines.now) sides.now }
    ensures { result ≡ count_by (is_line (with_line lines.now more)) sides.now }
{
    sides
        .iter()
        .filter(|side| is_line(lines, more, **side))
        .count()
}

/// Whether a number differs from the count of lines on its cell's four sides, with one added where it is given.
pub(crate) fn has_other_count(puzzle: &Puzzle, lines: &[u8], more: Option<usize>) -> bool
    requires kind { puzzle.now.kind ≡ Kind.Slither }
    requires lines { length lines.now ≡ all_sides puzzle.now.size }
    ensures { IsTrue result ↔ HasOtherCount puzzle.now (with_line lines.now more) }
{
    let size = puzzle.size();
    for cell in 0..puzzle.cells() {
        if let Clue::Number(number) = puzzle.clue(cell) {
            if count_lines(lines, more, &sides(size, cell)) != number as usize {
                return true;
            }
        }
    }
    false
}

/// The names of the rules that the filling breaks. The one error means out of memory.
///
/// S1: there is no line; S2: a dot has one line; S3: a dot has three or four; S4: a number isn't the count
/// of lines on its cell's four sides; S5: the lines aren't all joined.
pub fn broken(alloc: Global, puzzle: &Puzzle, filling: &Filling) -> Result<Broken, AllocError>
    requires kind { puzzle.now.kind ≡ Kind.Slither }
    requires filling { IsFilling puzzle.now filling.now }
    ensures { IfOk result (AreBroken puzzle.now filling.now) }
{
    let size = puzzle.size();
    let lines = filling.as_slice();
    let mut broken = Broken::new();
    broken.insert_if(Rule::S1, has_no_line(size, lines));
    broken.insert_if(Rule::S2, has_loose_end(size, lines));
    broken.insert_if(Rule::S3, has_crossing(size, lines));
    broken.insert_if(Rule::S4, has_other_count(puzzle, lines, None));
    broken.insert_if(Rule::S5, has_lines_apart(alloc, size, lines)?);
    Ok(broken)
}
