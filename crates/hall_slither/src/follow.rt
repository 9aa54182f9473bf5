//! Counts and colours followed from what changed: a stack of the dots and cells that are still to look at.
ghost use Rattle.std.specs.Prelude.{◌≡◌, ◌≢◌, ℕ, ◌+◌, ◌<◌, ◌≤◌, All, IfOk, IfSome, OnOk, Some, None};
ghost use Rattle.std.specs.Prelude.{length, slice_index_or, slice_set};
ghost use Rattle.hall_grid.specs.Board.{IsSize};
ghost use Rattle.hall_grid.specs.Slither.{all_sides};
ghost use Rattle.hall_solve.specs.Question.{IsPartial, IsOpen, IsHopeless};
ghost use Rattle.hall_solve.specs.Deduction.{IsForced};
ghost use Rattle.hall_solve.specs.Puzzle.{question_of};
ghost use Rattle.hall_solve.specs.Trail.{Grows};
ghost use Rattle.hall_slither.specs.Colour.{AreColoured};
ghost use Rattle.hall_slither.specs.Dot.{AreBelow};
ghost use Rattle.hall_slither.specs.Count.{IsCentre, IsSilent, IsConsequenceTold, AreSilent};
ghost use Rattle.hall_slither.specs.Follow.{IsSamePosition, IsFollowed, AreSet, HasAll, work};

use crate::colour::{Colours, cells_by};
use crate::count::{Centre, Consequence, consequence_at, sides_round};
use crate::dot::dot_count;
use crate::position::Position;
use crate::setting::Setting;
use hall_grid::{Kind, Puzzle, Size, dot_ends};
use hall_solve::{Partial, Pass, Step};
use std::alloc::{AllocError, Global};

/// Puts the cell onto the stack where it is on the board.
fn push_cell(size: Size, cell: usize, stack: &mut Vec<Centre>) -> Result<(), AllocError>
    requires size { IsSize size }
    requires centres { All (IsCentre size) stack.old.items }
    ensures centres { All (IsCentre size) stack.new.items }
    ensures few { OnOk result (length stack.new.items ≤ length stack.old.items + 1) }
{
    if cell < size.cells() {
        stack.push(Centre::Cell(cell))?;
    }
    Ok(())
}

/// Puts the dots and the cells at a side onto the stack.
fn push_beside(size: Size, side: usize, stack: &mut Vec<Centre>) -> Result<(), AllocError>
    requires size { IsSize size }
    requires side { side < all_sides size }
    requires centres { All (IsCentre size) stack.old.items }
    ensures centres { All (IsCentre size) stack.new.items }
    ensures few { OnOk result (length stack.new.items ≤ length stack.old.items + 4) }
{
    let (first, second) = dot_ends(size, side);
    stack.push(Centre::Dot(first))?;
    stack.push(Centre::Dot(second))?;
    let (first, second) = cells_by(size, side);
    push_cell(size, first, stack)?;
    push_cell(size, second, stack)
}

/// Learns what a side that is set says of colours, and whether that contradicts what is known.
fn learn_side(puzzle: &Puzzle, partial: &Partial, colours: &mut Colours, setting: Setting) -> Step
    requires kind { puzzle.now.kind ≡ Kind.Slither }
    requires partial { IsPartial (question_of Kind.Slither puzzle.now) partial.now.places }
    requires coloured { AreColoured puzzle.now partial.now.places colours.old }
    requires set { slice_index_or partial.now.places setting.side None ≡ Some setting.value }
    ensures coloured { AreColoured puzzle.now partial.now.places colours.new }
    ensures dead { result ≡ Step.Dead → IsHopeless (question_of Kind.Slither puzzle.now) partial.now.places }
{
    let (first, second) = cells_by(puzzle.size(), setting.side);
    if colours.learn(first, second, setting.value == 1) {
        Step::Live
    } else {
        Step::Dead
    }
}

/// Sets an open side, learns what that says of colours, and puts the dots and cells at it onto the stack.
pub(crate) fn set_and_learn(position: &mut Position, setting: Setting) -> Result<Step, AllocError>
    requires side { IsOpen position.old.partial.now.places setting.side }
    requires value { setting.value < 2 }
    ensures same { IsSamePosition position.old position.new }
    ensures places { position.new.partial.now.places
        ≡ slice_set position.old.partial.now.places setting.side (Some setting.value) }
    ensures grows { Grows position.old.partial.now position.new.partial.now }
    ensures dead { IfOk result (λ step. step ≡ Step.Dead
        → IsHopeless (question_of Kind.Slither position.old.puzzle.now) position.new.partial.now.places) }
    ensures few { OnOk result (length position.new.stack.now.items ≤ length position.old.stack.now.items + 4) }
{
    position.partial.set(setting.side, setting.value);
    push_beside(position.puzzle.size(), setting.side, position.stack)?;
    Ok(learn_side(position.puzzle, position.partial, position.colours, setting))
}

/// Sets an open side to the value that every solution has there.
pub(crate) fn set_side(position: &mut Position, setting: Setting) -> Result<Pass, AllocError>
    requires { IsForced (question_of Kind.Slither position.old.puzzle.now) position.old.partial.now.places
        setting.side setting.value }
    ensures followed { IsFollowed position.old.puzzle.now position.old.partial.now position.new.partial.now result }
    ensures same { IsSamePosition position.old position.new }
    ensures advanced { IfOk result (λ pass. pass ≢ Pass.Settled) }
    ensures work { OnOk result (work position.new.partial.now.places position.new.stack.now.items
        ≤ work position.old.partial.now.places position.old.stack.now.items) }
{
    match set_and_learn(position, setting)? {
        Step::Live => Ok(Pass::Advanced),
        Step::Dead => Ok(Pass::Dead),
    }
}

/// Sets the open ones of the sides to the value that every solution has there.
fn set_open(position: &mut Position, sides: &[Option<usize>], value: u8) -> Result<Pass, AllocError>
    requires below { AreBelow (all_sides position.old.puzzle.now.size) sides.now }
    requires told { IsConsequenceTold (question_of Kind.Slither position.old.puzzle.now) position.old.partial.now.places
        sides.now
        (Consequence.AllBe value) }
    ensures followed { IsFollowed position.old.puzzle.now position.old.partial.now position.new.partial.now result }
    ensures same { IsSamePosition position.old position.new }
    ensures advanced { IfOk result (λ pass. pass ≢ Pass.Settled) }
    ensures work { OnOk result (work position.new.partial.now.places position.new.stack.now.items
        ≤ work position.old.partial.now.places position.old.stack.now.items) }
{
    let mut pass = Pass::Settled;
    for side in sides {
        if let Some(side) = *side {
            if position.partial.get(side).is_none() {
                match set_side(position, Setting { side, value })? {
                    Pass::Dead => return Ok(Pass::Dead),
                    Pass::Settled | Pass::Advanced => pass = Pass::Advanced,
                }
            }
        }
    }
    Ok(pass)
}

/// The first open one of the sides whose value the colours tell.
fn told_side(position: &Position, sides: &[Option<usize>]) -> Option<Setting>
    requires { AreBelow (all_sides position.now.puzzle.now.size) sides.now }
    ensures { IfSome result (λ s. IsForced (question_of Kind.Slither position.now.puzzle.now)
        position.now.partial.now.places s.side s.value) }
{
    let size = position.puzzle.size();
    for side in sides {
        if let Some(side) = *side {
            if position.partial.get(side).is_none() {
                let (first, second) = cells_by(size, side);
                if let Some(differs) = position.colours.differ(first, second) {
                    let value = if differs { 1 } else { 0 };
                    return Some(Setting { side, value });
                }
            }
        }
    }
    None
}

/// Sets what the count at a dot or a cell says; where it says nothing, one side that the colours tell.
fn follow_centre(position: &mut Position, centre: Centre) -> Result<Pass, AllocError>
    requires { IsCentre position.old.puzzle.now.size centre }
    ensures followed { IsFollowed position.old.puzzle.now position.old.partial.now position.new.partial.now result }
    ensures same { IsSamePosition position.old position.new }
    ensures silent { IfOk result (λ pass. pass ≡ Pass.Settled
        → IsSilent position.old.puzzle.now position.old.partial.now.places centre) }
    ensures still { IfOk result (λ pass. pass ≡ Pass.Settled
        → position.new.stack.now.items ≡ position.old.stack.now.items) }
    ensures work { OnOk result (work position.new.partial.now.places position.new.stack.now.items
        ≤ work position.old.partial.now.places position.old.stack.now.items) }
{
    let sides = sides_round(position.puzzle.size(), centre);
    match consequence_at(position.puzzle, position.partial, centre) {
        Consequence::Nothing => match told_side(position, &sides) {
            None => Ok(Pass::Settled),
            Some(setting) => set_side(position, setting),
        },
        Consequence::AllBe(value) => set_open(position, &sides, value),
        Consequence::Impossible => Ok(Pass::Dead),
    }
}

/// Puts all dots and cells of the board onto the stack.
fn push_all(size: Size, stack: &mut Vec<Centre>) -> Result<(), AllocError>
    requires size { IsSize size }
    requires centres { All (IsCentre size) stack.old.items }
    ensures centres { All (IsCentre size) stack.new.items }
    ensures all { OnOk result (HasAll size stack.new.items) }
{
    for dot in 0..dot_count(size) {
        stack.push(Centre::Dot(dot))?;
    }
    for cell in 0..size.cells() {
        stack.push(Centre::Cell(cell))?;
    }
    Ok(())
}

/// Sets what the counts and the colours at the dots and cells of the stack say, until they say no more; that is all
/// that any count says where all dots and cells are on the stack.
pub(crate) fn follow_stack(position: &mut Position) -> Result<Pass, AllocError>
    ensures silent { HasAll position.old.puzzle.now.size position.old.stack.now.items
        → IfOk result (λ pass. pass ≡ Pass.Settled
        → AreSilent position.old.puzzle.now position.new.partial.now.places) }
    ensures followed { IsFollowed position.old.puzzle.now position.old.partial.now position.new.partial.now result }
    ensures same { IsSamePosition position.old position.new }
{
    let mut pass = Pass::Settled;
    while let Some(centre) = position.stack.pop() {
        match follow_centre(position, centre)? {
            Pass::Settled => {}
            Pass::Advanced => pass = Pass::Advanced,
            Pass::Dead => return Ok(Pass::Dead),
        }
    }
    Ok(pass)
}

/// Sets what the counts and the colours at all dots and cells say, until they say no more.
pub(crate) fn follow_all(position: &mut Position) -> Result<Pass, AllocError>
    ensures silent { IfOk result (λ pass. pass ≡ Pass.Settled
        → AreSilent position.old.puzzle.now position.new.partial.now.places) }
    ensures followed { IsFollowed position.old.puzzle.now position.old.partial.now position.new.partial.now result }
    ensures same { IsSamePosition position.old position.new }
{
    push_all(position.puzzle.size(), position.stack)?;
    follow_stack(position)
}

/// Learns anew what the sides that are set say of colours, and whether they contradict each other.
pub(crate) fn learn_all(
    puzzle: &Puzzle,
    partial: &Partial,
    colours: &mut Colours,
) -> Result<Step, AllocError>
    requires kind { puzzle.now.kind ≡ Kind.Slither }
    requires partial { IsPartial (question_of Kind.Slither puzzle.now) partial.now.places }
    ensures coloured { OnOk result (AreColoured puzzle.now partial.now.places colours.new) }
    ensures dead { IfOk result (λ step. step ≡ Step.Dead
        → IsHopeless (question_of Kind.Slither puzzle.now) partial.now.places) }
{
    colours.start_over(puzzle.size().cells() + 1)?;
    for side in 0..partial.len() {
        if let Some(value) = partial.get(side) {
            match learn_side(puzzle, partial, colours, Setting { side, value }) {
                Step::Live => {}
                Step::Dead => return Ok(Step::Dead),
            }
        }
    }
    Ok(Step::Live)
}
