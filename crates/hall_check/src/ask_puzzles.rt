//! What is asked of puzzles.
ghost use Rattle.std.specs.Prelude.{◌↔◌, IsTrue, IfOk};
ghost use Rattle.hall_check.specs.Sentences.{HasSolution};

use crate::ask_rows::Asked;
use crate::counts::Asking;
use crate::sentence::Sentence;
use hall_desk::judge;
use hall_grid::Puzzle;
use hall_policy::{MOST_PUZZLES, PuzzleRow, PuzzleState};
use std::alloc::{AllocError, Global};

impl Asked for PuzzleRow {
    ghost use Rattle.hall_check.specs.Checks.{SaysOfPuzzle};

    ghost says = { SaysOfPuzzle };

    fn is_true(&self, asking: &Asking, sentence: Sentence) -> Result<bool, AllocError> {
        match sentence {
            Sentence::AuthorThere => Ok(asking.whole.person(&self.key.author).is_some()),
            Sentence::FewPuzzles => Ok(asking.puzzles_by(&self.key.author) <= MOST_PUZZLES),
            Sentence::SolutionRight => has_solution(asking.alloc, &self.puzzle, &self.state),
            _ => Ok(false),
        }
    }
}

/// Whether the solution of a state, if it has one, is a solution of the puzzle.
fn has_solution(alloc: Global, puzzle: &Puzzle, state: &PuzzleState) -> Result<bool, AllocError>
    ensures { IfOk result (λ told. IsTrue told ↔ HasSolution puzzle.now state.now) }
{
    match state {
        PuzzleState::One(text) => {
            let broken = judge(alloc, puzzle, text.as_str().as_bytes())?;
            Ok(broken.is_empty())
        }
        PuzzleState::New | PuzzleState::NoSolution | PuzzleState::More | PuzzleState::GaveUp => Ok(
            true,
        ),
    }
}
