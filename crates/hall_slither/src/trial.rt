//! Trials: what follows from either value of a side, and so from both.
ghost use Rattle.std.specs.Prelude.{◌≡◌, ◌<◌, ◌≤◌, ◌+◌, ◌↔◌, All, IfOk, IsTrue, OnOk, Some, length, slice_set};
ghost use Rattle.hall_grid.specs.Slither.{all_sides};
ghost use Rattle.hall_solve.specs.Question.{IsPartial, IsOpen};
ghost use Rattle.hall_solve.specs.Puzzle.{question_of};
ghost use Rattle.hall_solve.specs.Trail.{Grows};
ghost use Rattle.hall_slither.specs.Colour.{AreColoured};
ghost use Rattle.hall_slither.specs.Follow.{IsSamePosition, IsFollowed};
ghost use Rattle.hall_slither.specs.Trial.{IsHeld, AreKnown, AreIn, IsStep, IsTried, step_after};

use crate::close::close_chains;
use crate::colour::Colours;
use crate::early::find_early;
use crate::ends::LooseEnds;
use crate::follow::{follow_stack, set_and_learn, set_side};
use crate::position::Position;
use crate::scratch::{Hints, Scratch, Trial};
use crate::setting::Setting;
use hall_grid::{Kind, Puzzle};
use hall_solve::{Mark, Partial, Pass, Step};
use std::alloc::{AllocError, Global};

/// Joins the lines since the mark, and notes whether they closed a loop.
fn join_since(puzzle: &Puzzle, partial: &Partial, mark: Mark, ends: &mut LooseEnds)
    requires kind { puzzle.now.kind ≡ Kind.Slither }
    requires exact { length partial.now.places ≡ all_sides puzzle.now.size }
    requires mark { mark ≤ length partial.now.trail }
{
    let size = puzzle.size();
    let mut closed = false;
    for side in partial.since(mark) {
        if *side < partial.len() && partial.get(*side) == Some(1) {
            if ends.join(size, *side) {
                closed = true;
            }
        }
    }
    ends.closed = closed;
}

/// What a pass says of a trial.
fn step_after(pass: Pass) -> Step
    ensures { result ≡ step_after pass }
{
    match pass {
        Pass::Settled | Pass::Advanced => Step::Live,
        Pass::Dead => Step::Dead,
    }
}

/// Sets an open side, and what follows from it.
fn follow_side(position: &mut Position, setting: Setting) -> Result<Step, AllocError>
    requires side { IsOpen position.old.partial.now.places setting.side }
    requires value { setting.value < 2 }
    ensures step { IfOk result (IsStep (question_of Kind.Slither position.old.puzzle.now)
        (slice_set position.old.partial.now.places setting.side (Some setting.value)) position.new.partial.now.places) }
    ensures grows { Grows position.old.partial.now position.new.partial.now }
    ensures same { IsSamePosition position.old position.new }
{
    match set_and_learn(position, setting)? {
        Step::Dead => Ok(Step::Dead),
        Step::Live => {
            let pass = follow_stack(position)?;
            Ok(step_after(pass))
        }
    }
}

/// Clears the sides that would close a loop too early with the lines since the mark, and sets what follows from that.
fn clear_found(position: &mut Position, hints: &mut Hints, mark: Mark) -> Result<Pass, AllocError>
    requires { mark ≤ length position.old.partial.now.trail }
    ensures followed { IsFollowed position.old.puzzle.now position.old.partial.now position.new.partial.now result }
    ensures same { IsSamePosition position.old position.new }
{
    let Hints {
        ends,
        passed,
        early,
        ..
    } = hints;
    join_since(position.puzzle, position.partial, mark, ends);
    let found = find_early(position.puzzle, position.partial, ends, passed, early);
    ends.undo();
    found?;
    set_and_follow(position, early)
}

/// Clears one side after another that would close a loop too early, until there is none.
fn clear_early(position: &mut Position, hints: &mut Hints, mark: Mark) -> Result<Pass, AllocError>
    requires { mark ≤ length position.old.partial.now.trail }
    ensures followed { IsFollowed position.old.puzzle.now position.old.partial.now position.new.partial.now result }
    ensures same { IsSamePosition position.old position.new }
{
    let mut pass = Pass::Settled;
    for _ in 0..u64::MAX {
        match clear_found(position, hints, mark)? {
            Pass::Settled => return Ok(pass),
            Pass::Advanced => pass = Pass::Advanced,
            Pass::Dead => return Ok(Pass::Dead),
        }
    }
    Ok(pass)
}

/// Sets an open side, what follows from it, and what follows from loops that its lines would close.
fn follow_early(
    position: &mut Position,
    hints: &mut Hints,
    setting: Setting,
) -> Result<Step, AllocError>
    requires side { IsOpen position.old.partial.now.places setting.side }
    requires value { setting.value < 2 }
    ensures step { IfOk result (IsStep (question_of Kind.Slither position.old.puzzle.now)
        (slice_set position.old.partial.now.places setting.side (Some setting.value)) position.new.partial.now.places) }
    ensures grows { Grows position.old.partial.now position.new.partial.now }
    ensures same { IsSamePosition position.old position.new }
{
    let mark = position.partial.mark();
    match follow_side(position, setting)? {
        Step::Dead => Ok(Step::Dead),
        Step::Live => {
            let pass = clear_early(position, hints, mark)?;
            Ok(step_after(pass))
        }
    }
}

/// Sets an open side and what follows from it, also from loops that its lines have closed.
fn follow_value(
    alloc: Global,
    puzzle: &Puzzle,
    partial: &mut Partial,
    trial: &mut Trial,
    setting: Setting,
) -> Result<Step, AllocError>
    requires kind { puzzle.now.kind ≡ Kind.Slither }
    requires partial { IsPartial (question_of Kind.Slither puzzle.now) partial.old.places }
    requires coloured { AreColoured puzzle.now partial.old.places trial.old.colours }
    requires side { IsOpen partial.old.places setting.side }
    requires value { setting.value < 2 }
    ensures step { IfOk result (IsStep (question_of Kind.Slither puzzle.now)
        (slice_set partial.old.places setting.side (Some setting.value)) partial.new.places) }
    ensures grows { Grows partial.old partial.new }
{
    let Trial {
        stack,
        colours,
        hints,
    } = trial;
    stack.clear();
    let mut position = Position {
        puzzle,
        partial,
        colours,
        stack,
    };
    match follow_early(&mut position, hints, setting)? {
        Step::Dead => return Ok(Step::Dead),
        Step::Live => {}
    }
    if !hints.ends.closed {
        return Ok(Step::Live);
    }
    hints.looks = hints.looks.saturating_add(1);
    let pass = close_chains(alloc, puzzle, partial)?;
    Ok(step_after(pass))
}

/// The settings since the mark.
fn copy_since(partial: &Partial, mark: Mark, settings: &mut Vec<Setting>) -> Result<(), AllocError>
    requires mark { mark ≤ length partial.now.trail }
    ensures held { OnOk result (All (IsHeld partial.now.places) settings.new.items) }
{
    settings.clear();
    for side in partial.since(mark) {
        if *side < partial.len() {
            if let Some(value) = partial.get(*side) {
                settings.push(Setting { side: *side, value })?;
            }
        }
    }
    Ok(())
}

/// What follows from a value of an open side; the partial filling stays as it was.
fn try_value(
    alloc: Global,
    puzzle: &Puzzle,
    partial: &mut Partial,
    colours_so_far: &Colours,
    trial: &mut Trial,
    settings: &mut Vec<Setting>,
    setting: Setting,
) -> Result<Step, AllocError>
    requires kind { puzzle.now.kind ≡ Kind.Slither }
    requires partial { IsPartial (question_of Kind.Slither puzzle.now) partial.old.places }
    requires coloured { AreColoured puzzle.now partial.old.places colours_so_far.now }
    requires side { IsOpen partial.old.places setting.side }
    requires value { setting.value < 2 }
    ensures tried { IfOk result (IsTried (question_of Kind.Slither puzzle.now)
        (slice_set partial.old.places setting.side (Some setting.value)) settings.new.items) }
    ensures kept { partial.new ≡ partial.old }
{
    trial.colours.copy_from(colours_so_far)?;
    let mark = partial.mark();
    let step = follow_value(alloc, puzzle, partial, trial, setting);
    let copied = copy_since(partial, mark, settings);
    partial.undo_to(mark);
    copied?;
    step
}

/// The settings that are in both lists. `index` is memory to work in.
fn agreed(
    first: &[Setting],
    second: &[Setting],
    index: &mut [usize],
    settings: &mut Vec<Setting>,
) -> Result<(), AllocError>
    ensures { OnOk result (AreIn first.now second.now settings.new.items) }
{
    settings.clear();
    for (place, setting) in first.iter().enumerate() {
        if setting.side < index.len() {
            index[setting.side] = place;
        }
    }
    for setting in second {
        if setting.side < index.len() {
            let place = index[setting.side];
            if place < first.len() && is_same(first[place], *setting) {
                settings.push(*setting)?;
            }
        }
    }
    Ok(())
}

fn is_same(one: Setting, other: Setting) -> bool
    ensures { IsTrue result ↔ (one ≡ other) }
{
    one.side == other.side && one.value == other.value
}

/// Tries both values at an open side: a value that fails leaves the other, and what follows from both is known.
fn try_both(
    alloc: Global,
    puzzle: &Puzzle,
    partial: &mut Partial,
    scratch: &mut Scratch,
    side: usize,
) -> Result<(), AllocError>
    requires kind { puzzle.now.kind ≡ Kind.Slither }
    requires partial { IsPartial (question_of Kind.Slither puzzle.now) partial.old.places }
    requires coloured { AreColoured puzzle.now partial.old.places scratch.old.colours }
    requires side { IsOpen partial.old.places side }
    ensures known { OnOk result
        (AreKnown (question_of Kind.Slither puzzle.now) partial.old.places scratch.new.known.items) }
    ensures kept { partial.new ≡ partial.old }
    ensures colours { scratch.new.colours ≡ scratch.old.colours }
{
    let line = Setting { side, value: 1 };
    let none = Setting { side, value: 0 };
    scratch.known.clear();
    scratch.without.clear();
    let Scratch {
        colours,
        trial,
        with_line,
        without,
        index,
        known,
        scores,
        ..
    } = scratch;
    match try_value(alloc, puzzle, partial, colours, trial, with_line, line)? {
        Step::Live => {}
        Step::Dead => {
            known.push(none)?;
            return Ok(());
        }
    }
    match try_value(alloc, puzzle, partial, colours, trial, without, none)? {
        Step::Live => {}
        Step::Dead => {
            known.push(line)?;
            return Ok(());
        }
    }
    rate(scores, side, with_line.len(), without.len());
    agreed(with_line, without, index, known)
}

/// Notes how much follows from each value of a side.
fn rate(scores: &mut [usize], side: usize, with_line: usize, without: usize) {
    if side < scores.len() {
        scores[side] = with_line.saturating_mul(without);
    }
}

/// Whether the side is open.
fn is_open_in(position: &Position, side: usize) -> bool
    ensures { IsTrue result → IsOpen position.now.partial.now.places side }
{
    side < position.partial.len() && position.partial.get(side).is_none()
}

/// Sets those that are open, and puts the dots and cells at them onto the stack.
fn set_known(position: &mut Position, known: &[Setting]) -> Result<Pass, AllocError>
    requires { AreKnown (question_of Kind.Slither position.old.puzzle.now) position.old.partial.now.places known.now }
    ensures followed { IsFollowed position.old.puzzle.now position.old.partial.now position.new.partial.now result }
    ensures same { IsSamePosition position.old position.new }
{
    let mut pass = Pass::Settled;
    for setting in known {
        if is_open_in(position, setting.side) {
            match set_side(position, *setting)? {
                Pass::Dead => return Ok(Pass::Dead),
                Pass::Settled | Pass::Advanced => pass = Pass::Advanced,
            }
        }
    }
    Ok(pass)
}

/// Sets what is known and open, and what follows from that.
fn set_and_follow(position: &mut Position, known: &[Setting]) -> Result<Pass, AllocError>
    requires { AreKnown (question_of Kind.Slither position.old.puzzle.now) position.old.partial.now.places known.now }
    ensures followed { IsFollowed position.old.puzzle.now position.old.partial.now position.new.partial.now result }
    ensures same { IsSamePosition position.old position.new }
{
    position.stack.clear();
    match set_known(position, known)? {
        Pass::Settled => return Ok(Pass::Settled),
        Pass::Dead => return Ok(Pass::Dead),
        Pass::Advanced => {}
    }
    match follow_stack(position)? {
        Pass::Dead => Ok(Pass::Dead),
        Pass::Settled | Pass::Advanced => Ok(Pass::Advanced),
    }
}

/// Tries both values at a side where it is open, and follows from what that tells; the sides beside what it set are
/// then to try.
fn try_side(
    alloc: Global,
    puzzle: &Puzzle,
    partial: &mut Partial,
    scratch: &mut Scratch,
    side: usize,
) -> Result<Pass, AllocError>
    requires kind { puzzle.now.kind ≡ Kind.Slither }
    requires partial { IsPartial (question_of Kind.Slither puzzle.now) partial.old.places }
    requires coloured { AreColoured puzzle.now partial.old.places scratch.old.colours }
    requires side { side < length partial.old.places }
    ensures followed { IsFollowed puzzle.now partial.old partial.new result }
    ensures coloured { AreColoured puzzle.now partial.new.places scratch.new.colours }
{
    if partial.get(side).is_some() {
        return Ok(Pass::Settled);
    }
    try_both(alloc, puzzle, partial, scratch, side)?;
    let mark = partial.mark();
    let Scratch {
        colours,
        trial,
        with_line,
        without,
        known,
        queue,
        ..
    } = scratch;
    queue.pay(with_line.len().saturating_add(without.len()));
    queue.pay_looks(trial.hints.looks);
    trial.hints.looks = 0;
    trial.stack.clear();
    let mut position = Position {
        puzzle,
        partial,
        colours,
        stack: &mut trial.stack,
    };
    let pass = set_and_follow(&mut position, known)?;
    queue.put_beside_all(puzzle.size(), partial.since(mark));
    join_since(puzzle, partial, mark, &mut trial.hints.ends);
    trial.hints.ends.keep();
    Ok(pass)
}

/// Tries both values at each side that waits, as long as work may be done, and follows at once from what each trial
/// tells.
pub(crate) fn try_waiting(
    alloc: Global,
    puzzle: &Puzzle,
    partial: &mut Partial,
    scratch: &mut Scratch,
) -> Result<Pass, AllocError>
    requires kind { puzzle.now.kind ≡ Kind.Slither }
    requires partial { IsPartial (question_of Kind.Slither puzzle.now) partial.old.places }
    requires coloured { AreColoured puzzle.now partial.old.places scratch.old.colours }
    ensures followed { IsFollowed puzzle.now partial.old partial.new result }
    ensures coloured { AreColoured puzzle.now partial.new.places scratch.new.colours }
{
    scratch.trial.hints.ends.start_over(puzzle.size(), partial);
    let mut pass = Pass::Settled;
    for _ in 0..u64::MAX {
        let Some(side) = scratch.queue.take() else {
            break;
        };
        if side < partial.len() {
            match try_side(alloc, puzzle, partial, scratch, side)? {
                Pass::Settled => {}
                Pass::Advanced => pass = Pass::Advanced,
                Pass::Dead => return Ok(Pass::Dead),
            }
        }
    }
    Ok(pass)
}
