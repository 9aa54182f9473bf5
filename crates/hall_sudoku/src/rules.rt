//! The rules of a Sudoku puzzle, as a search asks them.
ghost use Rattle.std.specs.Prelude.{◌≡◌, ◌≤◌, IfOk, IfSome, IfNone};
ghost use Rattle.hall_grid.specs.Board.{cells};
ghost use Rattle.hall_sudoku.specs.Units.{units_question};
ghost use Rattle.hall_grid.specs.Answer.{IsFilling};
ghost use Rattle.hall_solve.specs.Question.{IsPartial, IsOpen, IsWhole};

use crate::candidates::{candidates, fewest};
use crate::failures::Failures;
use crate::judge::broken;
use crate::narrow::narrow;
use crate::rival::has_rival;
use crate::units::{Room, Units};
use hall_grid::{Clue, Filling, Kind, Puzzle};
use hall_solve::{Partial, Rules, Step, settle};
use std::alloc::{AllocError, Global};
use std::marker::Model;

/// After how many visits for each cell of the board a search branches by failures too. Most are over before, and fare
/// better without.
const PATIENCE: u64 = 4;

/// The largest side on which it does. Larger boards take more visits so.
const LARGEST_BY_FAILURES: u8 = 16;

/// The rules of one puzzle, and counts of what a search asked.
#[derive(Drop)]
pub struct SudokuRules {
    puzzle: Puzzle,
    units: Units,
    visits: u64,
    asked: u64,
    failures: Failures,
}

impl Model for SudokuRules {
    ghost use Rattle.hall_solve.specs.Puzzle.{SearchView};

    ghost Value = { SearchView };

    ghost use Rattle.std.specs.Prelude.{◌≡◌};
    ghost use Rattle.hall_grid.specs.declared.board.Kind.TheVariants.{Sudoku};

    ghost view = { λ r. record { board = r.puzzle; visits = r.visits; asked = r.asked } };

    ghost invariant = { λ r. (r.puzzle.kind ≡ Sudoku) × (r.units ≡ r.puzzle.size) };
}

impl SudokuRules {
    ghost use Rattle.hall_solve.specs.Puzzle.{begun};

    /// The rules of the puzzle, with both counts 0.
    pub fn new(alloc: Global, puzzle: Puzzle) -> Result<SudokuRules, AllocError>
        requires { puzzle.kind ≡ Kind.Sudoku }
        ensures { IfOk result (λ r. r ≡ begun puzzle) }
    {
        let units = Units::new(alloc, puzzle.size())?;
        let failures = Failures::new(alloc, puzzle.cells())?;
        Ok(SudokuRules {
            puzzle,
            units,
            visits: 0,
            asked: 0,
            failures,
        })
    }

    /// How often values of each cell failed, once that is to count.
    fn failures(&self) -> &[u32] {
        let patience = (self.puzzle.cells() as u64).saturating_mul(PATIENCE);
        let to_count = self.visits > patience && self.units.side() <= LARGEST_BY_FAILURES;
        self.failures.counts(to_count)
    }
}

impl Rules for SudokuRules {
    ghost use Rattle.hall_grid.specs.declared.board.Kind.TheVariants.{Sudoku};
    ghost use Rattle.hall_solve.specs.Puzzle.{question_of};
    ghost use Rattle.hall_sudoku.specs.Settled.{IsBoardSettled};

    ghost question = { λ r. question_of Sudoku r.board };

    ghost settled = { λ r. IsBoardSettled r.board.size };

    ghost visits = { λ r. r.visits };

    ghost asked = { λ r. r.asked };

    fn cells(&self) -> usize {
        self.puzzle.cells()
    }

    fn values(&self) -> u8 {
        self.units.side()
    }

    fn visits(&self) -> u64 {
        self.visits
    }

    fn asked(&self) -> u64 {
        self.asked
    }

    fn propagate(&mut self, alloc: Global, partial: &mut Partial) -> Result<Step, AllocError> {
        self.visits += 1;
        let chosen = partial.trail().last().copied();
        let step = settle(alloc, &self.units, partial, &mut ());
        self.failures.note(chosen, &step);
        step
    }

    fn accepts(&mut self, _alloc: Global, filling: &Filling) -> Result<bool, AllocError> {
        self.asked += 1;
        Ok(broken(&self.puzzle, filling).is_empty())
    }

    fn branch_place(&self, partial: &Partial) -> Option<usize> {
        let failures = self.failures();
        match self.units.room() {
            Room::Nine => place_in::<81>(&self.units, failures, partial),
            Room::Sixteen => place_in::<256>(&self.units, failures, partial),
            Room::Most => place_in::<625>(&self.units, failures, partial),
        }
    }

    fn refuses(&self, partial: &Partial, place: usize) -> bool {
        has_rival(&self.units, partial, place)
    }
}

/// The place to try values at, on a board of at most so many cells.
fn place_in<const CELLS: usize>(units: &Units, failures: &[u32], partial: &Partial) -> Option<usize>
    requires fits { cells units.now ≤ CELLS }
    requires few { CELLS ≤ 625 }
    requires partial { IsPartial (units_question units.now) partial.now.places }
    ensures unset { IfSome result (IsOpen partial.now.places) }
    ensures whole { IfNone result (IsWhole partial.now.places) }
{
    match candidates::<CELLS>(units, partial) {
        Some(mut candidates) => {
            let _ = narrow::<CELLS>(units, partial, &mut candidates);
            fewest(units, &candidates, failures, partial)
        }
        None => partial.first_unset(),
    }
}
