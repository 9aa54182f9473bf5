//! Open cells without which walls fall apart.
ghost use Rattle.std.specs.Prelude.{◌≡◌, ◌<◌, IsTrue, IfOk, IfSome, OnErr, Some, length, slice_set};
ghost use Rattle.hall_grid.specs.Board.{cells};
ghost use Rattle.hall_grid.specs.declared.board.Kind.TheVariants.{Nurikabe};
ghost use Rattle.hall_solve.specs.Question.{Question, IsPartial, IsHopeless, IsOpen, Narrows};
ghost use Rattle.hall_solve.specs.Deduction.{IsDeduced};
ghost use Rattle.hall_solve.specs.Trail.{Grows};
ghost use Rattle.hall_solve.specs.Puzzle.{question_of};

use crate::between::SIDES;
use crate::deduce::are_walls_apart;
use crate::judge::{WALL, WHITE};
use crate::position::Position;
use crate::round::side_of;
use hall_grid::Puzzle;
use hall_solve::{Finding, Look, Partial, Pass, sweep};
use std::alloc::{AllocError, Global};

/// What a walk knows of a cell: when it came there, from 1 on; the earliest cell beside those that it came to from
/// there; how many of these are walls; and to which side it goes next.
#[derive(Clone, Copy)]
struct Seen {
    order: usize,
    low: usize,
    walls: usize,
    side: usize,
}

/// How many cuts a walk lists at the most.
const MOST_CUTS: usize = 8;

/// A cell that a walk didn't come to.
const UNSEEN: Seen = Seen {
    order: 0,
    low: 0,
    walls: 0,
    side: 0,
};

/// A walk over the cells that aren't white. It goes on to a new cell where it can, and else back.
#[derive(Drop)]
struct Walk {
    seen: Vec<Seen>,
    /// The cells on the way to where it is.
    way: Vec<usize>,
    /// How many cells it came to.
    count: usize,
    /// Open cells that part walls from those where it began.
    cuts: Vec<usize>,
}

impl Walk {
    fn at(&self, cell: usize) -> Seen {
        match self.seen.get(cell) {
            Some(seen) => *seen,
            None => UNSEEN,
        }
    }

    fn put(&mut self, cell: usize, seen: Seen) {
        if cell < self.seen.len() {
            self.seen[cell] = seen;
        }
    }

    /// Comes to the cell for the first time.
    fn enter(&mut self, partial: &Partial, cell: usize) -> Result<(), AllocError>
        requires { cell < length partial.now.places }
    {
        self.count = self.count.saturating_add(1);
        let walls = if partial.get(cell) == Some(WALL) {
            1
        } else {
            0
        };
        let seen = Seen {
            order: self.count,
            low: self.count,
            walls,
            side: 0,
        };
        self.put(cell, seen);
        self.way.push(cell)?;
        Ok(())
    }

    /// Goes from the cell to the next side.
    fn go_on(&mut self, puzzle: &Puzzle, partial: &Partial, cell: usize) -> Result<(), AllocError>
        requires cell { cell < cells puzzle.now.size }
        requires partial { IsPartial (question_of Nurikabe puzzle.now) partial.now.places }
    {
        let seen = self.at(cell);
        let next = seen.side.saturating_add(1);
        self.put(cell, Seen { side: next, ..seen });
        let Some(other) = side_of(puzzle.size(), cell, seen.side) else {
            return Ok(());
        };
        if partial.get(other) == Some(WHITE) {
            return Ok(());
        }
        let order = self.at(other).order;
        if order == 0 {
            return self.enter(partial, other);
        }
        let low = seen.low.min(order);
        self.put(
            cell,
            Seen {
                side: next,
                low,
                ..seen
            },
        );
        Ok(())
    }

    /// Goes back from the cell, at the end of the way, to the one before. This one parts walls where no cell that the
    /// walk came to from there is beside an earlier one.
    fn go_back(&mut self, partial: &Partial, cell: usize) -> Result<(), AllocError> {
        let seen = self.at(cell);
        let _ = self.way.pop();
        let Some(place) = self.way.last() else {
            return Ok(());
        };
        let before = *place;
        let there = self.at(before);
        let parts = seen.walls > 0 && seen.low >= there.order;
        if parts && self.cuts.len() < MOST_CUTS && is_open(partial, before) {
            self.cuts.push(before)?;
        }
        let low = there.low.min(seen.low);
        let walls = there.walls.saturating_add(seen.walls);
        self.put(
            before,
            Seen {
                low,
                walls,
                ..there
            },
        );
        Ok(())
    }

    /// One step of the walk.
    fn step(&mut self, puzzle: &Puzzle, partial: &Partial) -> Result<(), AllocError>
        requires partial { IsPartial (question_of Nurikabe puzzle.now) partial.now.places }
    {
        let Some(place) = self.way.last() else {
            return Ok(());
        };
        let cell = *place;
        if cell < puzzle.cells() && self.at(cell).side < SIDES {
            self.go_on(puzzle, partial, cell)
        } else {
            self.go_back(partial, cell)
        }
    }
}

/// Whether the place is on the board and open.
fn is_open(partial: &Partial, place: usize) -> bool {
    place < partial.len() && partial.get(place).is_none()
}

/// A wall, if there is one.
fn first_wall(partial: &Partial) -> Option<usize>
    ensures { IfSome result (λ cell. cell < length partial.now.places) }
{
    for cell in 0..partial.len() {
        if partial.get(cell) == Some(WALL) {
            return Some(cell);
        }
    }
    None
}

/// At most how many steps a walk makes for each cell: one to each side, and one back.
const MOST_STEPS: usize = SIDES + 1;

/// The open cells that part walls from one another. No promise rests on it.
fn find_cuts(alloc: Global, puzzle: &Puzzle, partial: &Partial) -> Result<Vec<usize>, AllocError>
    requires partial { IsPartial (question_of Nurikabe puzzle.now) partial.now.places }
{
    let mut walk = Walk {
        seen: vec![in alloc; UNSEEN; puzzle.cells()]?,
        way: Vec::new(alloc),
        count: 0,
        cuts: Vec::new(alloc),
    };
    if let Some(wall) = first_wall(partial) {
        walk.enter(partial, wall)?;
    }
    for _ in 0..puzzle.cells().saturating_mul(MOST_STEPS) {
        if walk.way.is_empty() {
            return Ok(walk.cuts);
        }
        walk.step(puzzle, partial)?;
    }
    Ok(walk.cuts)
}

/// Whether two walls can't be joined any more.
fn are_apart(alloc: Global, puzzle: &Puzzle, partial: &Partial) -> Result<bool, AllocError>
    requires kind { puzzle.now.kind ≡ Nurikabe }
    requires partial { IsPartial (question_of Nurikabe puzzle.now) partial.now.places }
    ensures { IfOk result
        (λ apart. IsTrue apart → IsHopeless (question_of Nurikabe puzzle.now) partial.now.places) }
{
    if puzzle.cells() != partial.len() {
        return Ok(false);
    }
    let position = Position { puzzle, partial };
    are_walls_apart(alloc, &position)
}

/// Whether two walls can't be joined any more where the open cell is white. The partial filling stays as it was.
fn are_apart_without(
    alloc: Global,
    puzzle: &Puzzle,
    partial: &mut Partial,
    cell: usize,
) -> Result<bool, AllocError>
    requires kind { puzzle.now.kind ≡ Nurikabe }
    requires partial { IsPartial (question_of Nurikabe puzzle.now) partial.old.places }
    requires cell { IsOpen partial.old.places cell }
    ensures apart { IfOk result (λ apart. IsTrue apart
        → IsHopeless (question_of Nurikabe puzzle.now) (slice_set partial.old.places cell (Some 0))) }
    ensures kept { partial.new ≡ partial.old }
{
    let mark = partial.mark();
    partial.set(cell, WHITE);
    let apart = are_apart(alloc, puzzle, partial);
    partial.undo_to(mark);
    apart
}

/// Looks whether walls fall apart without those of the cells that are open.
#[derive(Drop)]
struct Cuts<'a> {
    puzzle: &'a Puzzle,
    cells: &'a [usize],
    ghost kind: { puzzle.now.kind ≡ Nurikabe },
}

impl Look for Cuts<'_> {
    ghost question = { λ cuts. question_of Nurikabe cuts.puzzle.now };

    ghost spots = { λ cuts. length cuts.cells.now };

    fn spots(&self) -> usize {
        self.cells.len()
    }

    fn look(
        &self,
        alloc: Global,
        partial: &mut Partial,
        spot: usize,
    ) -> Result<Finding, AllocError> {
        let cell = self.cells[spot];
        if cell >= partial.len() || partial.get(cell).is_some() {
            return Ok(Finding::Nothing);
        }
        if are_apart_without(alloc, self.puzzle, partial, cell)? {
            return Ok(Finding::Must(cell, WALL));
        }
        Ok(Finding::Nothing)
    }
}

/// Sets the open cells to wall without which walls fall apart.
pub(crate) fn wall_cuts(
    alloc: Global,
    puzzle: &Puzzle,
    partial: &mut Partial,
) -> Result<Pass, AllocError>
    requires kind { puzzle.now.kind ≡ Nurikabe }
    requires partial { IsPartial (question_of Nurikabe puzzle.now) partial.old.places }
    ensures deduced { IfOk result (IsDeduced (question_of Nurikabe puzzle.now) partial.old.places partial.new.places) }
    ensures err { OnErr result (Narrows (question_of Nurikabe puzzle.now) partial.old.places partial.new.places) }
    ensures grows { Grows partial.old partial.new }
{
    let cells = find_cuts(alloc, puzzle, partial)?;
    let cuts = Cuts {
        puzzle,
        cells: &cells,
    };
    sweep(alloc, &cuts, partial)
}
