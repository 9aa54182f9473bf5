//! The search that certifies a puzzle.
ghost use Rattle.std.specs.Prelude.{◌≡◌, ◌≤◌, IfOk};
ghost use Rattle.hall_solve.specs.Question.{plain_tree, open_places};
ghost use Rattle.hall_solve.specs.Answer.{fewest_visits};
ghost use Rattle.hall_solve.specs.Puzzle.{OutcomeOfPuzzle, question_of, start_of};
ghost use Rattle.hall_solve.specs.Searched.{visits_made, outcome_of, visits_of, IsSpent};

use crate::puzzle_search::{Certifying, PuzzleSearch};
use hall_grid::Puzzle;
use hall_solve::Searched;
use std::alloc::{AllocError, Global};

/// What a search of the puzzle finds in at most `budget` visits: no solution, one and no other, two different ones, or
/// that it gave up; and the visits that the same search made: no fewer than what it found takes, no more than a plain
/// search of the puzzle, and where it gave up, the whole budget.
pub fn certify(alloc: Global, puzzle: &Puzzle, budget: u64) -> Result<Searched, AllocError>
    ensures outcome { IfOk result (λ searched. OutcomeOfPuzzle puzzle.now budget (outcome_of searched)) }
    ensures spent { IfOk result (IsSpent budget) }
    ensures took { IfOk result (λ searched. fewest_visits (outcome_of searched) ≤ visits_made (visits_of searched)) }
    ensures frugal { IfOk result (λ searched. visits_made (visits_of searched)
        ≤ plain_tree (question_of puzzle.now.kind puzzle.now).values
        (open_places (start_of puzzle.now.kind puzzle.now))) }
{
    let search = PuzzleSearch::new(alloc, puzzle.clone()?, budget)?;
    match search.go_on(alloc, budget)? {
        Certifying::Found(finding) => Ok(finding.into_searched()),
        Certifying::Paused(_) => unreachable!(),
    }
}
