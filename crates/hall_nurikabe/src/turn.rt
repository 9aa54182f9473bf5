//! Which cells a visit tries, and how much work it may still do.
ghost use Rattle.std.specs.Prelude.{◌≡◌, ◌<◌, IsTrue, IfOk, IfSome, length};
ghost use Rattle.hall_grid.specs.Board.{cells};
ghost use Rattle.hall_grid.specs.declared.board.Kind.TheVariants.{Nurikabe};
ghost use Rattle.hall_solve.specs.Question.{IsPartial, IsOpen};
ghost use Rattle.hall_solve.specs.Puzzle.{question_of};

use crate::group::Room;
use hall_grid::{Puzzle, neighbours};
use hall_solve::Partial;
use std::alloc::{AllocError, Global};

/// How much work a visit does.
pub(crate) const WORK: usize = 200_000;

/// How much of it is kept from trials.
pub(crate) const KEPT: usize = 100_000;

/// How many cells a visit tries round the board, besides those near what was set.
const MOST_ROUND: usize = 8;

/// What the deductions of one visit share.
#[derive(Drop)]
pub(crate) struct Turn {
    /// The cell where trials go on round the board.
    pub(crate) next: usize,
    /// How many cells it may still try so.
    pub(crate) round: usize,
    /// How long the trail was when all that follows round its places was set.
    pub(crate) followed: usize,
    /// How long the trail was when the cells near its places were listed.
    pub(crate) listed: usize,
    /// Cells near what was set, to be tried from the last one on.
    pub(crate) near: Vec<usize>,
    /// Which cells are among them.
    pub(crate) waits: Vec<bool>,
    /// The cell that was tried since a trial set one whose values set most.
    pub(crate) best: Option<usize>,
    /// What that is worth.
    pub(crate) most: usize,
    /// Room for groups, with the work that is left.
    pub(crate) room: Room,
}

impl Turn {
    /// The turn of a visit for which nothing was followed yet from this place of the trail on.
    pub(crate) fn new(
        alloc: Global,
        cells: usize,
        next: usize,
        from: usize,
        room: Room,
    ) -> Result<Turn, AllocError> {
        Ok(Turn {
            next,
            round: MOST_ROUND,
            followed: from,
            listed: from,
            near: Vec::new(alloc),
            waits: vec![in alloc; false; cells]?,
            best: None,
            most: 0,
            room,
        })
    }

    /// Keeps the cell as the best one, where its values set more cells than those of the others did.
    pub(crate) fn rate(&mut self, cell: usize, white: usize, wall: usize) {
        let worth = white
            .saturating_mul(wall)
            .saturating_mul(4)
            .saturating_add(white)
            .saturating_add(wall);
        if worth > self.most {
            self.most = worth;
            self.best = Some(cell);
        }
    }
}

/// Lists the cell to be tried, where it is open and isn't listed.
fn list(partial: &Partial, cell: usize, turn: &mut Turn) -> Result<(), AllocError>
    requires { cell < length partial.now.places }
{
    if partial.get(cell).is_some() || cell >= turn.waits.len() || turn.waits[cell] {
        return Ok(());
    }
    turn.waits[cell] = true;
    turn.near.push(cell)?;
    Ok(())
}

/// Lists the cells beside the cell to be tried, those that are open and aren't listed.
fn list_beside(
    puzzle: &Puzzle,
    partial: &Partial,
    cell: usize,
    turn: &mut Turn,
) -> Result<(), AllocError>
    requires cell { cell < cells puzzle.now.size }
    requires partial { IsPartial (question_of Nurikabe puzzle.now) partial.now.places }
{
    for place in neighbours(puzzle.size(), cell) {
        if let Some(other) = place {
            list(partial, other, turn)?;
        }
    }
    Ok(())
}

/// Lists the cells at most two steps from the cell to be tried, those that are open and aren't listed.
fn list_near(
    puzzle: &Puzzle,
    partial: &Partial,
    cell: usize,
    turn: &mut Turn,
) -> Result<(), AllocError>
    requires cell { cell < cells puzzle.now.size }
    requires partial { IsPartial (question_of Nurikabe puzzle.now) partial.now.places }
{
    for place in neighbours(puzzle.size(), cell) {
        if let Some(other) = place {
            list_beside(puzzle, partial, other, turn)?;
        }
    }
    list_beside(puzzle, partial, cell, turn)
}

/// Lists the cells near each place of the trail that is new since cells were listed.
fn list_news(puzzle: &Puzzle, partial: &Partial, turn: &mut Turn) -> Result<(), AllocError>
    requires partial { IsPartial (question_of Nurikabe puzzle.now) partial.now.places }
{
    let trail = partial.trail();
    for at in turn.listed..trail.len() {
        let cell = trail[at];
        if cell < puzzle.cells() {
            list_near(puzzle, partial, cell, turn)?;
        }
    }
    turn.listed = trail.len();
    Ok(())
}

/// Whether the cell is open and a cell beside it is set.
fn is_worth_trying(puzzle: &Puzzle, partial: &Partial, cell: usize) -> bool
    requires cell { cell < cells puzzle.now.size }
    requires partial { IsPartial (question_of Nurikabe puzzle.now) partial.now.places }
    ensures { IsTrue result → IsOpen partial.now.places cell }
{
    if partial.get(cell).is_some() {
        return false;
    }
    for place in neighbours(puzzle.size(), cell) {
        if let Some(other) = place {
            if partial.get(other).is_some() {
                return true;
            }
        }
    }
    false
}

/// The last of the listed cells that is open; the list ends before it.
fn next_listed(partial: &Partial, turn: &mut Turn) -> Option<usize>
    ensures { IfSome result (IsOpen partial.now.places) }
{
    'popping: while let Some(cell) = turn.near.pop() {
        if cell < turn.waits.len() {
            turn.waits[cell] = false;
        }
        if cell < partial.len() && partial.get(cell).is_none() {
            return Some(cell);
        }
    }
    None
}

/// The next cell round the board that is worth trying, as long as the visit may still try some.
fn next_round(puzzle: &Puzzle, partial: &Partial, turn: &mut Turn) -> Option<usize>
    requires partial { IsPartial (question_of Nurikabe puzzle.now) partial.now.places }
    ensures { IfSome result (IsOpen partial.now.places) }
{
    if turn.round == 0 {
        return None;
    }
    let count = puzzle.cells();
    for _ in 0..count {
        let cell = if turn.next < count { turn.next } else { 0 };
        turn.next = cell + 1;
        if is_worth_trying(puzzle, partial, cell) {
            turn.round = turn.round.saturating_sub(1);
            return Some(cell);
        }
    }
    None
}

/// The cell to try next: near what was set last, else round the board.
pub(crate) fn next_to_try(
    puzzle: &Puzzle,
    partial: &Partial,
    turn: &mut Turn,
) -> Result<Option<usize>, AllocError>
    requires partial { IsPartial (question_of Nurikabe puzzle.now) partial.now.places }
    ensures { IfOk result (λ cell. IfSome cell (IsOpen partial.now.places)) }
{
    list_news(puzzle, partial, turn)?;
    match next_listed(partial, turn) {
        Some(cell) => Ok(Some(cell)),
        None => Ok(next_round(puzzle, partial, turn)),
    }
}
