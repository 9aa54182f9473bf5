//! What follows from the places that were set last.
ghost use Rattle.std.specs.Prelude.{◌≡◌, IfOk, OnErr};
ghost use Rattle.hall_grid.specs.declared.board.Kind.TheVariants.{Nurikabe};
ghost use Rattle.hall_solve.specs.Question.{IsPartial, Narrows};
ghost use Rattle.hall_solve.specs.Deduction.{IsDeduced};
ghost use Rattle.hall_solve.specs.Trail.{Grows};
ghost use Rattle.hall_solve.specs.Puzzle.{question_of};

use crate::between::{SIDES, look_at_exit};
use crate::group::{Group, Room};
use crate::judge::WHITE;
use crate::round::{SPOTS, look_round};
use hall_grid::Puzzle;
use hall_solve::{Finding, Partial, Pass};
use std::alloc::AllocError;

/// Sets what follows round the place of the trail.
fn follow_place(
    puzzle: &Puzzle,
    partial: &mut Partial,
    at: usize,
    group: &mut Group,
) -> Result<Pass, AllocError>
    requires kind { puzzle.now.kind ≡ Nurikabe }
    requires partial { IsPartial (question_of Nurikabe puzzle.now) partial.old.places }
    ensures deduced { IfOk result (IsDeduced (question_of Nurikabe puzzle.now) partial.old.places partial.new.places) }
    ensures err { OnErr result (Narrows (question_of Nurikabe puzzle.now) partial.old.places partial.new.places) }
    ensures grows { Grows partial.old partial.new }
{
    let mut pass = Pass::Settled;
    for spot in 0..SPOTS {
        match look_round(puzzle, partial, at, spot, group)? {
            Finding::Nothing => {}
            Finding::Must(place, value) => {
                partial.set(place, value);
                pass = Pass::Advanced;
            }
            Finding::Impossible => return Ok(Pass::Dead),
        }
    }
    Ok(pass)
}

/// How many sides the cells of the group have, where the place of the trail is white.
fn sides_round(partial: &Partial, at: usize, group: &Group) -> usize {
    match partial.trail().get(at) {
        Some(cell) if *cell < partial.len() && partial.get(*cell) == Some(WHITE) => {
            group.cells.len().saturating_mul(SIDES)
        }
        _ => 0,
    }
}

/// Sets what follows for the cells beside the group of the place of the trail, which was found last.
fn follow_exits(
    puzzle: &Puzzle,
    partial: &mut Partial,
    at: usize,
    room: &mut Room,
) -> Result<Pass, AllocError>
    requires kind { puzzle.now.kind ≡ Nurikabe }
    requires partial { IsPartial (question_of Nurikabe puzzle.now) partial.old.places }
    ensures deduced { IfOk result (IsDeduced (question_of Nurikabe puzzle.now) partial.old.places partial.new.places) }
    ensures err { OnErr result (Narrows (question_of Nurikabe puzzle.now) partial.old.places partial.new.places) }
    ensures grows { Grows partial.old partial.new }
{
    let mut pass = Pass::Settled;
    for side in 0..sides_round(partial, at, &room.group) {
        match look_at_exit(puzzle, partial, side, room)? {
            Finding::Nothing => {}
            Finding::Must(place, value) => {
                partial.set(place, value);
                pass = Pass::Advanced;
            }
            Finding::Impossible => return Ok(Pass::Dead),
        }
    }
    Ok(pass)
}

/// How many steps there are at each place of the trail.
const STEPS: usize = 2;

/// The first step at a place of the trail is round it, the second beside its group.
fn follow_step(
    puzzle: &Puzzle,
    partial: &mut Partial,
    step: usize,
    room: &mut Room,
) -> Result<Pass, AllocError>
    requires kind { puzzle.now.kind ≡ Nurikabe }
    requires partial { IsPartial (question_of Nurikabe puzzle.now) partial.old.places }
    ensures deduced { IfOk result (IsDeduced (question_of Nurikabe puzzle.now) partial.old.places partial.new.places) }
    ensures err { OnErr result (Narrows (question_of Nurikabe puzzle.now) partial.old.places partial.new.places) }
    ensures grows { Grows partial.old partial.new }
{
    let at = step / STEPS;
    if step % STEPS == 0 {
        return follow_place(puzzle, partial, at, &mut room.group);
    }
    follow_exits(puzzle, partial, at, room)
}

/// Sets what follows at each place of the trail from this one on, also at those that are set meanwhile; only as long as
/// more than the `least` work is left.
pub(crate) fn follow(
    puzzle: &Puzzle,
    partial: &mut Partial,
    from: usize,
    least: usize,
    room: &mut Room,
) -> Result<Pass, AllocError>
    requires kind { puzzle.now.kind ≡ Nurikabe }
    requires partial { IsPartial (question_of Nurikabe puzzle.now) partial.old.places }
    ensures deduced { IfOk result (IsDeduced (question_of Nurikabe puzzle.now) partial.old.places partial.new.places) }
    ensures err { OnErr result (Narrows (question_of Nurikabe puzzle.now) partial.old.places partial.new.places) }
    ensures grows { Grows partial.old partial.new }
{
    let mut pass = Pass::Settled;
    for step in from.saturating_mul(STEPS)..puzzle.cells().saturating_mul(STEPS) {
        if step / STEPS >= partial.trail().len() || room.group.left <= least {
            return Ok(pass);
        }
        match follow_step(puzzle, partial, step, room)? {
            Pass::Settled => {}
            Pass::Advanced => pass = Pass::Advanced,
            Pass::Dead => return Ok(Pass::Dead),
        }
    }
    Ok(pass)
}
