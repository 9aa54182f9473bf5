//! What follows for the group of one cell.
ghost use Rattle.std.specs.Prelude.{◌≡◌, ℕ, ◌<◌, Some, IsTrue, IfOk, IfSome, Contains, length, slice_get};
ghost use Rattle.hall_grid.specs.Board.{cells, IsSize};
ghost use Rattle.hall_grid.specs.declared.board.Clue.TheVariants.{Number};
ghost use Rattle.hall_grid.specs.declared.board.Kind.TheVariants.{Nurikabe};
ghost use Rattle.hall_solve.specs.Question.{Question, IsPartial};
ghost use Rattle.hall_solve.specs.Deduction.{IsSound};
ghost use Rattle.hall_solve.specs.Puzzle.{question_of};
ghost use Rattle.hall_nurikabe.specs.Group.{ArePlaced, HasOtherWall, IsGroup, IsOpenBeside, IsOwner, MustLeave};

use crate::blocks::look_at_block;
use crate::exits::Exits;
use crate::group::{Group, find, has};
use crate::island::is_number;
use crate::judge::{WALL, WHITE};
use crate::position::Position;
use hall_grid::{Clue, Puzzle, Size, neighbours};
use hall_solve::{Finding, Partial};
use std::alloc::AllocError;

/// Which cell of a group has a number.
pub(crate) enum Owner {
    Nobody,
    One(usize),
    Two,
}

/// Which of the cells has a number.
fn owner_of(puzzle: &Puzzle, members: &[usize]) -> Owner
    requires { (cell : ℕ) → Contains members.now cell → cell < cells puzzle.now.size }
    ensures { IsOwner puzzle.now members.now result }
{
    let mut owner: Option<usize> = None;
    for member in members {
        let cell = *member;
        if is_number(puzzle.clue(cell)) {
            match owner {
                Some(other) if other != cell => return Owner::Two,
                _ => owner = Some(cell),
            }
        }
    }
    match owner {
        None => Owner::Nobody,
        Some(cell) => Owner::One(cell),
    }
}

/// An open cell beside one of the cells.
fn open_beside(position: &Position, members: &[usize]) -> Option<usize>
    requires { (cell : ℕ) → Contains members.now cell → cell < cells position.now.puzzle.now.size }
    ensures { IfSome result (IsOpenBeside position.now.puzzle.now.size position.now.partial.now.places members.now) }
{
    for member in members {
        for place in neighbours(position.puzzle.size(), *member) {
            if let Some(other) = place {
                if position.partial.get(other).is_none() {
                    return Some(other);
                }
            }
        }
    }
    None
}

/// Whether a wall isn't in the group.
fn has_other_wall(partial: &Partial, group: &Group) -> bool
    requires exact { length group.now.places.items ≡ length partial.now.places }
    requires placed { ArePlaced group.now.places.items group.now.cells.items }
    ensures { IsTrue result → HasOtherWall partial.now.places group.now.cells.items }
{
    for cell in 0..partial.len() {
        if partial.get(cell) == Some(WALL) && !has(&group.cells, &group.places, cell) {
            return true;
        }
    }
    false
}

/// What follows where the group's cells aren't all that will be joined to it.
fn leave(position: &Position, group: &Group, value: u8) -> Finding
    requires value { value < 2 }
    requires group { (from : ℕ) × IsGroup position.now.puzzle.now.size position.now.partial.now.places value from
        group.now.places.items group.now.cells.items group.now.exits }
    requires leaves { MustLeave position.now.puzzle.now position.now.partial.now.places value group.now.cells.items }
    ensures { IsSound (question_of Nurikabe position.now.puzzle.now) position.now.partial.now.places result }
{
    match group.exits {
        Exits::Nowhere => Finding::Impossible,
        Exits::One(cell) => Finding::Must(cell, value),
        Exits::Many => Finding::Nothing,
    }
}

/// What follows for a group of white cells with a number: too many cells leave no solution, a whole island has walls
/// beside it, and another one grows.
fn look_at_numbered(position: &Position, group: &Group, given: usize) -> Finding
    requires group { (from : ℕ) × IsGroup position.now.puzzle.now.size position.now.partial.now.places 0 from
        group.now.places.items group.now.cells.items group.now.exits }
    requires given { (cell : ℕ) × Contains group.now.cells.items cell
        × (slice_get position.now.puzzle.now.clues cell ≡ Some (Number given)) }
    ensures { IsSound (question_of Nurikabe position.now.puzzle.now) position.now.partial.now.places result }
{
    let size = group.cells.len();
    if size > given {
        return Finding::Impossible;
    }
    if size < given {
        return leave(position, group, WHITE);
    }
    match open_beside(position, &group.cells) {
        None => Finding::Nothing,
        Some(cell) => Finding::Must(cell, WALL),
    }
}

/// What follows for a group of white cells.
fn look_at_white(position: &Position, group: &Group) -> Finding
    requires { (from : ℕ) × IsGroup position.now.puzzle.now.size position.now.partial.now.places 0 from
        group.now.places.items group.now.cells.items group.now.exits }
    ensures { IsSound (question_of Nurikabe position.now.puzzle.now) position.now.partial.now.places result }
{
    match owner_of(position.puzzle, &group.cells) {
        Owner::Two => Finding::Impossible,
        Owner::Nobody => leave(position, group, WHITE),
        Owner::One(cell) => match position.puzzle.clue(cell) {
            Clue::Number(given) => look_at_numbered(position, group, usize::from(given)),
            Clue::Unknown | Clue::Blank => Finding::Nothing,
        },
    }
}

/// What follows for a group of walls: where another wall stands elsewhere, it grows.
fn look_at_wall(position: &Position, group: &Group) -> Finding
    requires { (from : ℕ) × IsGroup position.now.puzzle.now.size position.now.partial.now.places 1 from
        group.now.places.items group.now.cells.items group.now.exits }
    ensures { IsSound (question_of Nurikabe position.now.puzzle.now) position.now.partial.now.places result }
{
    if group.exits.are_many() || !has_other_wall(position.partial, group) {
        return Finding::Nothing;
    }
    leave(position, group, WALL)
}

/// The same at a position.
fn look_at_group(position: &Position, cell: usize, group: &mut Group) -> Result<Finding, AllocError>
    requires { cell < cells position.now.puzzle.now.size }
    ensures { IfOk result
        (IsSound (question_of Nurikabe position.now.puzzle.now) position.now.partial.now.places) }
{
    match position.partial.get(cell) {
        Some(WHITE) => {
            find(position, WHITE, cell, false, group)?;
            Ok(look_at_white(position, group))
        }
        Some(WALL) => {
            find(position, WALL, cell, true, group)?;
            Ok(look_at_wall(position, group))
        }
        _ => Ok(Finding::Nothing),
    }
}

/// The cell on one of the four sides of the cell.
pub(crate) fn side_of(size: Size, cell: usize, side: usize) -> Option<usize>
    requires size { IsSize size }
    requires cell { cell < cells size }
    ensures { IfSome result (λ other. other < cells size) }
{
    if side >= 4 {
        return None;
    }
    let places = neighbours(size, cell);
    places[side]
}

/// The cell whose group a spot round the cell is for: the cell itself, or one beside it with another value.
fn cell_of(puzzle: &Puzzle, partial: &Partial, cell: usize, spot: usize) -> Option<usize>
    requires partial { IsPartial (question_of Nurikabe puzzle.now) partial.now.places }
    requires cell { cell < cells puzzle.now.size }
    ensures { IfSome result (λ other. other < cells puzzle.now.size) }
{
    if spot == OWN {
        return Some(cell);
    }
    let other = side_of(puzzle.size(), cell, spot.saturating_sub(BLOCKS))?;
    if partial.get(other) == partial.get(cell) {
        return None;
    }
    Some(other)
}

/// How many blocks a cell is in.
const BLOCKS: usize = 4;

/// The spot of a cell's own group.
const OWN: usize = 8;

/// How many spots there are round a cell: its blocks, what is beside it, and last its group.
pub(crate) const SPOTS: usize = 9;

/// What follows at one of the spots round the place of the trail.
pub(crate) fn look_round(
    puzzle: &Puzzle,
    partial: &Partial,
    at: usize,
    spot: usize,
    group: &mut Group,
) -> Result<Finding, AllocError>
    requires kind { puzzle.now.kind ≡ Nurikabe }
    requires partial { IsPartial (question_of Nurikabe puzzle.now) partial.now.places }
    ensures { IfOk result (IsSound (question_of Nurikabe puzzle.now) partial.now.places) }
{
    let Some(place) = partial.trail().get(at) else {
        return Ok(Finding::Nothing);
    };
    let cell = *place;
    if cell >= puzzle.cells() {
        return Ok(Finding::Nothing);
    }
    if spot < BLOCKS {
        return Ok(look_at_block(puzzle, partial, cell, spot));
    }
    let Some(other) = cell_of(puzzle, partial, cell, spot) else {
        return Ok(Finding::Nothing);
    };
    look_at_cell(puzzle, partial, other, group)
}

/// What follows for the group of the cell, if it is set.
pub(crate) fn look_at_cell(
    puzzle: &Puzzle,
    partial: &Partial,
    cell: usize,
    group: &mut Group,
) -> Result<Finding, AllocError>
    requires kind { puzzle.now.kind ≡ Nurikabe }
    requires partial { IsPartial (question_of Nurikabe puzzle.now) partial.now.places }
    ensures { IfOk result (IsSound (question_of Nurikabe puzzle.now) partial.now.places) }
{
    let cells = puzzle.cells();
    if cell >= cells {
        return Ok(Finding::Nothing);
    }
    let position = Position { puzzle, partial };
    look_at_group(&position, cell, group)
}
