//! Sides that would close a loop beside another line: what lines lead back to is found by going along them.
ghost use Rattle.std.specs.Prelude.{◌≡◌, ◌≢◌, ◌⊎◌, ℕ, ◌<◌, true, false, IfOk, IfSome, IsTrue, OnOk, Some, Contains};
ghost use Rattle.std.specs.Prelude.{length};
ghost use Rattle.std.specs.Prelude.{slice_index_or};
ghost use Rattle.hall_grid.specs.Board.{IsSize};
ghost use Rattle.hall_grid.specs.Slither.{all_sides, dots, is_end};
ghost use Rattle.hall_solve.specs.Question.{IsPartial, IsOpen};
ghost use Rattle.hall_solve.specs.Puzzle.{question_of};
ghost use Rattle.hall_slither.specs.Dot.{AreBelow};
ghost use Rattle.hall_slither.specs.Early.{IsOnward, IsLoop};
ghost use Rattle.hall_slither.specs.Trial.{IsKnown, AreKnown};

use crate::dot::{dot_count, sides_at};
use crate::ends::LooseEnds;
use crate::setting::Setting;
use hall_grid::{Kind, Puzzle, Size, dot_ends};
use hall_solve::Partial;
use std::alloc::AllocError;

/// The first of the sides that is a line, other than the last one passed.
fn line_onward(partial: &Partial, sides: &[Option<usize>], last: usize) -> Option<usize>
    requires below { AreBelow (length partial.now.places) sides.now }
    ensures onward { IfSome result (IsOnward partial.now.places sides.now last) }
{
    for side in sides {
        if let Some(side) = *side {
            if side != last && partial.get(side) == Some(1) {
                return Some(side);
            }
        }
    }
    None
}

/// The end of the side that isn't the dot.
fn other_end(size: Size, side: usize, dot: usize) -> usize
    requires size { IsSize size }
    requires side { side < all_sides size }
    ensures end { is_end size result side ≡ true }
    ensures both { (d : ℕ) → is_end size dot side ≡ true → is_end size d side ≡ true → (d ≡ dot) ⊎ (d ≡ result) }
    ensures board { result < dots size }
{
    let (first, second) = dot_ends(size, side);
    if first == dot { second } else { first }
}

/// Goes along the lines from an end of an open side, and tells whether they lead to its other end. The sides passed are
/// put down, that one first.
fn leads_back(
    size: Size,
    partial: &Partial,
    side: usize,
    passed: &mut Vec<usize>,
) -> Result<bool, AllocError>
    requires size { IsSize size }
    requires exact { length partial.now.places ≡ all_sides size }
    requires side { IsOpen partial.now.places side }
    ensures closes { IfOk result (λ back. IsTrue back → IsLoop size partial.now.places side passed.new.items) }
{
    let (first, second) = dot_ends(size, side);
    let mut at = second;
    let mut last = side;
    passed.clear();
    passed.push(side)?;
    for _ in 0..partial.len() {
        let Some(next) = line_onward(partial, &sides_at(size, at), last) else {
            return Ok(false);
        };
        passed.push(next)?;
        at = other_end(size, next, at);
        last = next;
        if at == first {
            return Ok(true);
        }
    }
    Ok(false)
}

/// Whether the side is among these.
fn has_side(sides: &[usize], side: usize) -> bool
    ensures { result ≡ false → Contains sides.now side → ⊥ }
{
    for other in sides {
        if *other == side {
            return true;
        }
    }
    false
}

/// The open side that joins the two dots, where there is one.
fn open_between(size: Size, partial: &Partial, first: usize, second: usize) -> Option<usize>
    requires size { IsSize size }
    requires exact { length partial.now.places ≡ all_sides size }
    ensures unset { IfSome result (IsOpen partial.now.places) }
{
    if first >= dot_count(size) {
        return None;
    }
    for side in &sides_at(size, first) {
        if let Some(side) = *side {
            if side < partial.len() && partial.get(side).is_none() {
                let (one, other) = dot_ends(size, side);
                if one == second || other == second {
                    return Some(side);
                }
            }
        }
    }
    None
}

/// A line that ends another chain than that with these ends, where there is one.
fn line_besides(
    size: Size,
    partial: &Partial,
    ends: &LooseEnds,
    first: usize,
    second: usize,
) -> Option<usize>
    requires size { IsSize size }
    requires exact { length partial.now.places ≡ all_sides size }
    ensures line { IfSome result (λ s. slice_index_or partial.now.places s None ≡ Some 1) }
{
    let dot = ends.loose_besides(first, second)?;
    if dot >= dot_count(size) {
        return None;
    }
    for side in &sides_at(size, dot) {
        if let Some(side) = *side {
            if side < partial.len() && partial.get(side) == Some(1) {
                return Some(side);
            }
        }
    }
    None
}

/// The side that would make a chain with these ends a loop beside another line.
fn early_side(
    puzzle: &Puzzle,
    partial: &Partial,
    ends: &LooseEnds,
    passed: &mut Vec<usize>,
    pair: (usize, usize),
) -> Result<Option<usize>, AllocError>
    requires kind { puzzle.now.kind ≡ Kind.Slither }
    requires partial { IsPartial (question_of Kind.Slither puzzle.now) partial.now.places }
    ensures known { IfOk result (λ side. IfSome side
        (λ s. IsKnown (question_of Kind.Slither puzzle.now) partial.now.places (record { side = s; value = 0 }))) }
{
    let size = puzzle.size();
    let Some(side) = open_between(size, partial, pair.0, pair.1) else {
        return Ok(None);
    };
    let Some(line) = line_besides(size, partial, ends, pair.0, pair.1) else {
        return Ok(None);
    };
    let back = leads_back(size, partial, side, passed)?;
    if !back {
        return Ok(None);
    }
    if has_side(passed, line) {
        return Ok(None);
    }
    Ok(Some(side))
}

/// The sides that would close a loop beside another line, as far as the loose ends that changed tell of them.
pub(crate) fn find_early(
    puzzle: &Puzzle,
    partial: &Partial,
    ends: &LooseEnds,
    passed: &mut Vec<usize>,
    early: &mut Vec<Setting>,
) -> Result<(), AllocError>
    requires kind { puzzle.now.kind ≡ Kind.Slither }
    requires partial { IsPartial (question_of Kind.Slither puzzle.now) partial.now.places }
    ensures known { OnOk result
        (AreKnown (question_of Kind.Slither puzzle.now) partial.now.places early.new.items) }
{
    early.clear();
    for place in 0..ends.changes() {
        if let Some(pair) = ends.changed_pair(place) {
            if let Some(side) = early_side(puzzle, partial, ends, passed, pair)? {
                early.push(Setting { side, value: 0 })?;
            }
        }
    }
    Ok(())
}
