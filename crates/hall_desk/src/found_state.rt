//! What a search finds of a puzzle, as its state.
ghost use Rattle.std.specs.Prelude.{◌≡◌, IfOk};
ghost use Rattle.hall_grid.specs.Answer.{AnswerText as Says, IsFilling};
ghost use Rattle.hall_desk.specs.Step.{is_open, IsFound};
ghost use Rattle.hall_desk.specs.Plans.{HasSpent};
ghost use Rattle.hall_desk.specs.Shown.{state_name};
ghost use Rattle.hall_solve.specs.Puzzle.{OutcomeOfPuzzle};
ghost use Rattle.hall_solve.specs.Searched.{outcome_of, IsSpent};

use crate::reply::Reply;
use crate::search::certify;
use hall_grid::{Filling, Puzzle, write_answer};
use hall_policy::{AnswerText, PuzzleState};
use hall_solve::{Outcome, Searched, Visits};
use std::alloc::{AllocError, Global};

/// What a search found, as a state, and the visits that it made.
#[derive(Drop)]
pub struct FoundState {
    pub state: PuzzleState,
    pub visits: Visits,
}

/// Whether the puzzle was never searched, or the search came to no end.
pub fn is_open(state: &PuzzleState) -> bool
    ensures { result ≡ is_open state.now }
{
    match state {
        PuzzleState::New => true,
        PuzzleState::One(_) => false,
        PuzzleState::NoSolution => false,
        PuzzleState::More => false,
        PuzzleState::GaveUp => true,
    }
}

/// What the search of the puzzle finds in at most `budget` visits.
pub fn find_state(alloc: Global, puzzle: &Puzzle, budget: u64) -> Result<FoundState, AllocError>
    ensures state { IfOk result (λ found. IsFound puzzle.now budget found.state) }
    ensures spent { IfOk result (λ found. HasSpent budget (Reply.Certify (state_name found.state)) found.visits) }
{
    let searched = certify(alloc, puzzle, budget)?;
    state_of(alloc, puzzle, budget, searched)
}

/// What a search of the puzzle found, as a state.
pub(crate) fn state_of(
    alloc: Global,
    puzzle: &Puzzle,
    budget: u64,
    searched: Searched,
) -> Result<FoundState, AllocError>
    requires outcome { OutcomeOfPuzzle puzzle.now budget (outcome_of searched) }
    requires spent { IsSpent budget searched }
    ensures state { IfOk result (λ found. IsFound puzzle.now budget found.state) }
    ensures spent { IfOk result (λ found. HasSpent budget (Reply.Certify (state_name found.state)) found.visits) }
{
    // The clauses alone speak of it.
    let _ = budget;
    let visits = searched.visits();
    match searched.outcome() {
        Outcome::None => Ok(FoundState {
            state: PuzzleState::NoSolution,
            visits,
        }),
        Outcome::One(solution) => Ok(FoundState {
            state: PuzzleState::One(solution_text(alloc, puzzle, &solution)?),
            visits,
        }),
        Outcome::More(_first, _second) => Ok(FoundState {
            state: PuzzleState::More,
            visits,
        }),
        Outcome::GaveUp => Ok(FoundState {
            state: PuzzleState::GaveUp,
            visits,
        }),
    }
}

/// The solution as an answer text.
fn solution_text(
    alloc: Global,
    puzzle: &Puzzle,
    solution: &Filling,
) -> Result<AnswerText, AllocError>
    requires { IsFilling puzzle.now solution.now }
    ensures { IfOk result (λ text. Says puzzle.now text solution.now) }
{
    let text = write_answer(alloc, puzzle, solution)?;
    match AnswerText::new(text) {
        Some(text) => Ok(text),
        None => unreachable!(),
    }
}
