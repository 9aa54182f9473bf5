//! Open cells that would join a group of white cells to another.
ghost use Rattle.std.specs.Prelude.{◌≡◌, ◌<◌, IfOk, IfSome, Some, slice_set};
ghost use Rattle.hall_grid.specs.Board.{cells};
ghost use Rattle.hall_grid.specs.declared.board.Kind.TheVariants.{Nurikabe};
ghost use Rattle.hall_solve.specs.Question.{IsPartial, IsHopeless, IsOpen};
ghost use Rattle.hall_solve.specs.Deduction.{IsSound};
ghost use Rattle.hall_solve.specs.Puzzle.{question_of};

use crate::group::{Group, Room};
use crate::judge::{WALL, WHITE};
use crate::round::{look_at_cell, side_of};
use hall_grid::Puzzle;
use hall_solve::{Finding, Partial};
use std::alloc::AllocError;

/// How many sides a cell has.
pub(crate) const SIDES: usize = 4;

/// Whether the group has the cell.
fn is_member(group: &Group, cell: usize) -> bool {
    match group.places.get(cell) {
        None => false,
        Some(place) => group.cells.get(*place) == Some(&cell),
    }
}

/// Whether a white cell that isn't of the group stands beside the cell.
fn is_beside_another(puzzle: &Puzzle, partial: &Partial, group: &Group, cell: usize) -> bool
    requires cell { cell < cells puzzle.now.size }
    requires partial { IsPartial (question_of Nurikabe puzzle.now) partial.now.places }
{
    for side in 0..SIDES {
        if let Some(other) = side_of(puzzle.size(), cell, side) {
            if partial.get(other) == Some(WHITE) && !is_member(group, other) {
                return true;
            }
        }
    }
    false
}

/// The open cell on a side of a cell of the group, where it would join the group to another.
fn exit_between(puzzle: &Puzzle, partial: &Partial, group: &Group, at: usize) -> Option<usize>
    requires partial { IsPartial (question_of Nurikabe puzzle.now) partial.now.places }
    ensures { IfSome result (IsOpen partial.now.places) }
{
    let member = *group.cells.get(at / SIDES)?;
    if member >= puzzle.cells() {
        return None;
    }
    let exit = side_of(puzzle.size(), member, at % SIDES)?;
    if partial.get(exit).is_some() || !is_beside_another(puzzle, partial, group, exit) {
        return None;
    }
    Some(exit)
}

/// What follows for the group of the open cell where that is white. The partial filling stays as it was.
fn look_if_white(
    puzzle: &Puzzle,
    partial: &mut Partial,
    cell: usize,
    group: &mut Group,
) -> Result<Finding, AllocError>
    requires kind { puzzle.now.kind ≡ Nurikabe }
    requires partial { IsPartial (question_of Nurikabe puzzle.now) partial.old.places }
    requires cell { IsOpen partial.old.places cell }
    ensures dead { IfOk result (λ found. found ≡ Finding.Impossible
        → IsHopeless (question_of Nurikabe puzzle.now) (slice_set partial.old.places cell (Some 0))) }
    ensures kept { partial.new ≡ partial.old }
{
    let mark = partial.mark();
    partial.set(cell, WHITE);
    let found = look_at_cell(puzzle, partial, cell, group);
    partial.undo_to(mark);
    found
}

/// What follows for the open cell on a side of a cell of the group: where it would join the group to another, and what
/// comes of that leaves no solution, it is wall. The partial filling stays as it was.
pub(crate) fn look_at_exit(
    puzzle: &Puzzle,
    partial: &mut Partial,
    at: usize,
    room: &mut Room,
) -> Result<Finding, AllocError>
    requires kind { puzzle.now.kind ≡ Nurikabe }
    requires partial { IsPartial (question_of Nurikabe puzzle.now) partial.old.places }
    ensures sound { IfOk result (IsSound (question_of Nurikabe puzzle.now) partial.old.places) }
    ensures kept { partial.new ≡ partial.old }
{
    let Some(exit) = exit_between(puzzle, partial, &room.group, at) else {
        return Ok(Finding::Nothing);
    };
    let found = look_if_white(puzzle, partial, exit, &mut room.other)?;
    room.group.pay(&room.other);
    match found {
        Finding::Impossible => Ok(Finding::Must(exit, WALL)),
        _ => Ok(Finding::Nothing),
    }
}
