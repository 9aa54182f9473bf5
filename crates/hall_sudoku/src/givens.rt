//! Where a search of a Sudoku starts.
ghost use Rattle.std.specs.Prelude.{◌≡◌, IfOk};
ghost use Rattle.hall_solve.specs.Question.{IsPartial};
ghost use Rattle.hall_solve.specs.Puzzle.{question_of, start_of, AllExtend};

use hall_grid::{Clue, Kind, Puzzle};
use hall_solve::Partial;
use std::alloc::{AllocError, Global};

/// The partial filling that has exactly the givens, each a number less 1.
pub fn start(alloc: Global, puzzle: &Puzzle) -> Result<Partial, AllocError>
    requires { puzzle.now.kind ≡ Kind.Sudoku }
    ensures givens { IfOk result (λ p. p.places ≡ start_of Kind.Sudoku puzzle.now) }
    ensures partial { IfOk result (λ p. IsPartial (question_of Kind.Sudoku puzzle.now) p.places) }
    ensures solutions { IfOk result (λ p. AllExtend Kind.Sudoku puzzle.now p.places) }
{
    let mut partial = Partial::new(alloc, puzzle.cells())?;
    for cell in 0..puzzle.cells() {
        if let Clue::Number(given) = puzzle.clue(cell) {
            partial.set(cell, (given - 1) as u8);
        }
    }
    Ok(partial)
}
