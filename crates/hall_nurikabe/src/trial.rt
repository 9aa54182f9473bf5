//! Trials: of the two values of a cell, one that leaves no solution leaves the other.
ghost use Rattle.std.specs.Prelude.{◌≡◌, ◌<◌, None, Some, IfOk, OnErr, slice_set};
ghost use Rattle.hall_grid.specs.declared.board.Kind.TheVariants.{Nurikabe};
ghost use Rattle.hall_solve.specs.Question.{IsPartial, IsHopeless, IsOpen, Narrows};
ghost use Rattle.hall_solve.specs.Deduction.{IsDeduced, IsSound};
ghost use Rattle.hall_solve.specs.Trail.{Grows};
ghost use Rattle.hall_solve.specs.Puzzle.{question_of};

use crate::cut::wall_cuts;
use crate::deduce::Deductions;
use crate::follow::follow;
use crate::group::Room;
use crate::judge::{WALL, WHITE};
use crate::turn::{KEPT, Turn, next_to_try};
use hall_grid::Puzzle;
use hall_solve::{Deduce, Finding, Partial, Pass};
use std::alloc::{AllocError, Global};

/// How many cells a visit tries between two passes over the board at the most.
const MOST_TRIED: usize = 400;

/// The work for a cell in a pass over the board.
const PASS: usize = 8;

/// Sets the open cell to the value, and what follows round it. Tells how many cells that sets, or nothing where it
/// leaves no solution.
fn set_value(
    puzzle: &Puzzle,
    partial: &mut Partial,
    cell: usize,
    value: u8,
    room: &mut Room,
) -> Result<Option<usize>, AllocError>
    requires kind { puzzle.now.kind ≡ Nurikabe }
    requires partial { IsPartial (question_of Nurikabe puzzle.now) partial.old.places }
    requires cell { IsOpen partial.old.places cell }
    requires value { value < 2 }
    ensures dead { IfOk result (λ set. set ≡ None
        → IsHopeless (question_of Nurikabe puzzle.now) (slice_set partial.old.places cell (Some value))) }
    ensures grows { Grows partial.old partial.new }
{
    let from = partial.trail().len();
    partial.set(cell, value);
    match follow(puzzle, partial, from, KEPT, room)? {
        Pass::Dead => Ok(None),
        Pass::Settled | Pass::Advanced => Ok(Some(partial.trail().len().saturating_sub(from))),
    }
}

/// Tells how many cells it sets to give the open cell the value, or nothing where that leaves no solution. The partial
/// filling stays as it was.
fn try_value(
    puzzle: &Puzzle,
    partial: &mut Partial,
    cell: usize,
    value: u8,
    room: &mut Room,
) -> Result<Option<usize>, AllocError>
    requires kind { puzzle.now.kind ≡ Nurikabe }
    requires partial { IsPartial (question_of Nurikabe puzzle.now) partial.old.places }
    requires cell { IsOpen partial.old.places cell }
    requires value { value < 2 }
    ensures dead { IfOk result (λ set. set ≡ None
        → IsHopeless (question_of Nurikabe puzzle.now) (slice_set partial.old.places cell (Some value))) }
    ensures kept { partial.new ≡ partial.old }
{
    let mark = partial.mark();
    let set = set_value(puzzle, partial, cell, value, room);
    partial.undo_to(mark);
    set
}

/// Tries both values at the open cell. The partial filling stays as it was.
fn try_cell(
    puzzle: &Puzzle,
    partial: &mut Partial,
    cell: usize,
    turn: &mut Turn,
) -> Result<Finding, AllocError>
    requires kind { puzzle.now.kind ≡ Nurikabe }
    requires partial { IsPartial (question_of Nurikabe puzzle.now) partial.old.places }
    requires cell { IsOpen partial.old.places cell }
    ensures sound { IfOk result (IsSound (question_of Nurikabe puzzle.now) partial.old.places) }
    ensures kept { partial.new ≡ partial.old }
{
    let Some(white) = try_value(puzzle, partial, cell, WHITE, &mut turn.room)? else {
        return Ok(Finding::Must(cell, WALL));
    };
    let Some(wall) = try_value(puzzle, partial, cell, WALL, &mut turn.room)? else {
        return Ok(Finding::Must(cell, WHITE));
    };
    turn.rate(cell, white, wall);
    Ok(Finding::Nothing)
}

/// Sets what follows round the places of the trail from which nothing was followed yet.
fn follow_news(puzzle: &Puzzle, partial: &mut Partial, turn: &mut Turn) -> Result<Pass, AllocError>
    requires kind { puzzle.now.kind ≡ Nurikabe }
    requires partial { IsPartial (question_of Nurikabe puzzle.now) partial.old.places }
    ensures deduced { IfOk result (IsDeduced (question_of Nurikabe puzzle.now) partial.old.places partial.new.places) }
    ensures err { OnErr result (Narrows (question_of Nurikabe puzzle.now) partial.old.places partial.new.places) }
    ensures grows { Grows partial.old partial.new }
{
    let followed = follow(puzzle, partial, turn.followed, 0, &mut turn.room);
    if turn.room.group.left > 0 {
        turn.followed = partial.trail().len();
    }
    followed
}

/// Tries both values at the open cell, and sets the value that is left where the other leaves no solution, and what
/// follows round it.
fn settle_cell(
    puzzle: &Puzzle,
    partial: &mut Partial,
    cell: usize,
    turn: &mut Turn,
) -> Result<Pass, AllocError>
    requires kind { puzzle.now.kind ≡ Nurikabe }
    requires partial { IsPartial (question_of Nurikabe puzzle.now) partial.old.places }
    requires cell { IsOpen partial.old.places cell }
    ensures deduced { IfOk result (IsDeduced (question_of Nurikabe puzzle.now) partial.old.places partial.new.places) }
    ensures err { OnErr result (Narrows (question_of Nurikabe puzzle.now) partial.old.places partial.new.places) }
    ensures grows { Grows partial.old partial.new }
{
    match try_cell(puzzle, partial, cell, turn)? {
        Finding::Nothing => Ok(Pass::Settled),
        Finding::Impossible => Ok(Pass::Dead),
        Finding::Must(place, value) => {
            partial.set(place, value);
            turn.best = None;
            turn.most = 0;
            match follow_news(puzzle, partial, turn)? {
                Pass::Dead => Ok(Pass::Dead),
                _ => Ok(Pass::Advanced),
            }
        }
    }
}

/// Tries both values at one cell after another, as long as work may be done for it.
fn try_cells(puzzle: &Puzzle, partial: &mut Partial, turn: &mut Turn) -> Result<Pass, AllocError>
    requires kind { puzzle.now.kind ≡ Nurikabe }
    requires partial { IsPartial (question_of Nurikabe puzzle.now) partial.old.places }
    ensures deduced { IfOk result (IsDeduced (question_of Nurikabe puzzle.now) partial.old.places partial.new.places) }
    ensures err { OnErr result (Narrows (question_of Nurikabe puzzle.now) partial.old.places partial.new.places) }
    ensures grows { Grows partial.old partial.new }
{
    let mut pass = Pass::Settled;
    for _ in 0..MOST_TRIED {
        if turn.room.group.left <= KEPT {
            return Ok(pass);
        }
        let Some(cell) = next_to_try(puzzle, partial, turn)? else {
            return Ok(pass);
        };
        match settle_cell(puzzle, partial, cell, turn)? {
            Pass::Settled => {}
            Pass::Advanced => pass = Pass::Advanced,
            Pass::Dead => return Ok(Pass::Dead),
        }
    }
    Ok(pass)
}

/// What follows round the places that were set last, else all deductions, and else trials; nothing more where the work
/// of the visit is done.
#[derive(Drop)]
pub(crate) struct DeductionsAndTrials<'a> {
    pub(crate) puzzle: &'a Puzzle,
    pub(crate) ghost kind: { puzzle.now.kind ≡ Nurikabe },
}

impl Deduce for DeductionsAndTrials<'_> {
    type Scratch = Turn;

    ghost question = { λ deductions. question_of Nurikabe deductions.puzzle.now };

    fn pass(
        &self,
        alloc: Global,
        partial: &mut Partial,
        turn: &mut Turn,
    ) -> Result<Pass, AllocError> {
        if turn.room.group.left == 0 {
            return Ok(Pass::Settled);
        }
        match follow_news(self.puzzle, partial, turn)? {
            Pass::Settled => look_further(alloc, self.puzzle, partial, turn),
            pass => Ok(pass),
        }
    }
}

/// Takes the work for a pass over the board.
fn pay_pass(puzzle: &Puzzle, turn: &mut Turn) {
    let work = puzzle.cells().saturating_mul(PASS);
    turn.room.group.left = turn.room.group.left.saturating_sub(work);
}

/// All deductions about the whole board, and what is dearer where nothing follows from them.
fn look_further(
    alloc: Global,
    puzzle: &Puzzle,
    partial: &mut Partial,
    turn: &mut Turn,
) -> Result<Pass, AllocError>
    requires kind { puzzle.now.kind ≡ Nurikabe }
    requires partial { IsPartial (question_of Nurikabe puzzle.now) partial.old.places }
    ensures deduced { IfOk result (IsDeduced (question_of Nurikabe puzzle.now) partial.old.places partial.new.places) }
    ensures err { OnErr result (Narrows (question_of Nurikabe puzzle.now) partial.old.places partial.new.places) }
    ensures grows { Grows partial.old partial.new }
{
    pay_pass(puzzle, turn);
    match (Deductions { puzzle }).pass(alloc, partial, &mut ())? {
        Pass::Settled => cut_or_try(alloc, puzzle, partial, turn),
        pass => Ok(pass),
    }
}

/// Cells without which walls fall apart, and trials where there are none.
fn cut_or_try(
    alloc: Global,
    puzzle: &Puzzle,
    partial: &mut Partial,
    turn: &mut Turn,
) -> Result<Pass, AllocError>
    requires kind { puzzle.now.kind ≡ Nurikabe }
    requires partial { IsPartial (question_of Nurikabe puzzle.now) partial.old.places }
    ensures deduced { IfOk result (IsDeduced (question_of Nurikabe puzzle.now) partial.old.places partial.new.places) }
    ensures err { OnErr result (Narrows (question_of Nurikabe puzzle.now) partial.old.places partial.new.places) }
    ensures grows { Grows partial.old partial.new }
{
    match wall_cuts(alloc, puzzle, partial)? {
        Pass::Settled => try_cells(puzzle, partial, turn),
        pass => {
            pay_pass(puzzle, turn);
            Ok(pass)
        }
    }
}
