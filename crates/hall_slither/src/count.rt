//! Counts of lines at dots and round cells, and what follows from them for the open sides.
ghost use Rattle.std.specs.Prelude.{◌≡◌, ℕ, ◌+◌, ◌*◌, ◌<◌, ◌≤◌, List, All, IfSome, OnOk, length};
ghost use Rattle.hall_grid.specs.Board.{IsSize, cells};
ghost use Rattle.hall_grid.specs.Slither.{all_sides, dots, is_line};
ghost use Rattle.hall_solve.specs.Question.{IsPartial};
ghost use Rattle.hall_slither.specs.Count.{IsCentre, sides_round, count_sides, has_line, is_place_unset};
ghost use Rattle.hall_slither.specs.Count.{Meets, Follows, IsConsequenceTold, demand_of, IsSilent};
ghost use Rattle.hall_slither.specs.Dot.{AreBelow};
ghost use Rattle.hall_solve.specs.Puzzle.{IsRight, question_of};

use crate::dot::{dot_count, sides_at};
use hall_grid::{Clue, Kind, Puzzle, Size, dot_ends, sides};
use hall_solve::Partial;
use std::alloc::{AllocError, Global};

/// A dot or a cell: the centre of at most four sides.
#[derive(Clone, Copy)]
pub(crate) enum Centre {
    Dot(usize),
    Cell(usize),
}

/// How many lines there must be at a centre.
#[derive(Clone, Copy)]
pub(crate) enum Demand {
    /// Any number.
    Any,
    /// None or two: a loop passes or doesn't.
    Through,
    /// This number.
    Exactly(u16),
}

/// What follows for the open sides at a centre.
#[derive(Clone, Copy)]
pub(crate) enum Consequence {
    Nothing,
    /// There are some, and all have this value.
    AllBe(u8),
    /// There is no solution.
    Impossible,
}

/// The sides at a centre, where they are on the board.
pub(crate) fn sides_round(size: Size, centre: Centre) -> [Option<usize>; 4]
    requires size { IsSize size }
    requires centre { IsCentre size centre }
    ensures sides { result ≡ sides_round size centre }
    ensures below { AreBelow (all_sides size) result }
{
    match centre {
        Centre::Dot(dot) => sides_at(size, dot),
        Centre::Cell(cell) => {
            let [top, left, right, bottom] = sides(size, cell);
            [Some(top), Some(left), Some(right), Some(bottom)]
        }
    }
}

/// How many lines a solution has at the centre.
pub(crate) fn demand_at(puzzle: &Puzzle, centre: Centre) -> Demand
    requires kind { puzzle.now.kind ≡ Kind.Slither }
    requires size { IsSize puzzle.now.size }
    requires centre { IsCentre puzzle.now.size centre }
    ensures demand { result ≡ demand_of puzzle.now centre }
    ensures meets { (f : List ℕ) → IsRight puzzle.now f
        → Meets result (count_sides (is_line f) (sides_round puzzle.now.size centre)) }
{
    match centre {
        Centre::Dot(_) => Demand::Through,
        Centre::Cell(cell) => match puzzle.clue(cell) {
            Clue::Number(number) => Demand::Exactly(number),
            Clue::Blank | Clue::Unknown => Demand::Any,
        },
    }
}

/// How many of the sides are lines, and how many are open.
pub(crate) fn lines_and_open(partial: &Partial, sides: &[Option<usize>]) -> (usize, usize)
    requires below { AreBelow (length partial.now.places) sides.now }
    requires few { length sides.now ≤ 4 }
    ensures lines { result.0 ≡ count_sides (has_line partial.now.places) sides.now }
    ensures unset { result.1 ≡ count_sides (is_place_unset partial.now.places) sides.now }
    ensures few { result.0 + result.1 ≤ 4 }
{
    let mut lines = 0;
    let mut unset = 0;
    for side in sides {
        if let Some(side) = *side {
            match partial.get(side) {
                Some(1) => lines += 1,
                Some(_) => {}
                None => unset += 1,
            }
        }
    }
    (lines, unset)
}

/// What the count of lines demands of the open sides.
pub(crate) fn consequence_of(demand: Demand, lines: usize, unset: usize) -> Consequence
    requires { lines + unset ≤ 4 }
    ensures { Follows demand lines unset result }
{
    match demand {
        Demand::Any => Consequence::Nothing,
        Demand::Through => match (lines, unset) {
            (0, 1) => Consequence::AllBe(0),
            (1, 0) => Consequence::Impossible,
            (1, 1) => Consequence::AllBe(1),
            (0 | 1, _) | (2, 0) => Consequence::Nothing,
            (2, _) => Consequence::AllBe(0),
            _ => Consequence::Impossible,
        },
        Demand::Exactly(number) => exact_consequence(number as usize, lines, unset),
    }
}

/// What the count of lines demands of the open sides, where it is a number.
fn exact_consequence(number: usize, lines: usize, unset: usize) -> Consequence
    requires { lines + unset ≤ 4 }
    ensures { Follows (Demand.Exactly number) lines unset result }
{
    if lines > number || lines + unset < number {
        Consequence::Impossible
    } else if unset == 0 {
        Consequence::Nothing
    } else if lines == number {
        Consequence::AllBe(0)
    } else if lines + unset == number {
        Consequence::AllBe(1)
    } else {
        Consequence::Nothing
    }
}

/// What follows for the open sides at the centre.
pub(crate) fn consequence_at(puzzle: &Puzzle, partial: &Partial, centre: Centre) -> Consequence
    requires kind { puzzle.now.kind ≡ Kind.Slither }
    requires partial { IsPartial (question_of Kind.Slither puzzle.now) partial.now.places }
    requires centre { IsCentre puzzle.now.size centre }
    ensures told { IsConsequenceTold (question_of Kind.Slither puzzle.now) partial.now.places
        (sides_round puzzle.now.size centre) result }
    ensures silent { result ≡ Consequence.Nothing → IsSilent puzzle.now partial.now.places centre }
{
    let (lines, unset) = lines_and_open(partial, &sides_round(puzzle.size(), centre));
    consequence_of(demand_at(puzzle, centre), lines, unset)
}
