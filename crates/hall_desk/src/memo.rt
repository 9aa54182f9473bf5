//! What a search found before its request came to be planned.
ghost use Rattle.std.specs.Prelude.{◌≡◌, ◌↔◌, IfOk, IsTrue};
ghost use Rattle.hall_desk.specs.Memo.{HasFound, Remembers};

use crate::found_state::{FoundState, state_of};
use crate::search_outcome::Finding;
use hall_grid::Puzzle;
use hall_policy::PuzzleState;
use hall_solve::Visits;
use std::alloc::{AllocError, Global};
use std::marker::Model;

/// A puzzle, a budget, the state that a search of the puzzle within the budget found, and the visits that it made.
#[derive(Drop)]
pub(crate) struct Memo {
    puzzle: Puzzle,
    budget: u64,
    state: PuzzleState,
    visits: Visits,
}

impl Model for Memo {
    ghost use Rattle.hall_desk.specs.Memo.{MemoView, IsMemo};

    ghost Value = { MemoView };

    ghost view = { λ m. record { puzzle = m.puzzle; budget = m.budget; state = m.state; visits = m.visits } };

    ghost invariant = { λ m. IsMemo m.puzzle m.budget m.state m.visits };
}

impl Memo {
    /// What was found, as a state.
    pub(crate) fn of(alloc: Global, finding: Finding) -> Result<Memo, AllocError>
        ensures puzzle { IfOk result (λ memo. memo.puzzle ≡ finding.puzzle) }
        ensures budget { IfOk result (λ memo. memo.budget ≡ finding.budget) }
    {
        let (puzzle, budget, searched) = finding.into_parts();
        let FoundState { state, visits } = state_of(alloc, &puzzle, budget, searched)?;
        Ok(Memo {
            puzzle,
            budget,
            state,
            visits,
        })
    }

    /// Whether it is of this puzzle and this budget.
    pub(crate) fn is_of(&self, puzzle: &Puzzle, budget: u64) -> bool
        ensures puzzle { IsTrue result → self.now.puzzle ≡ puzzle.now }
        ensures budget { IsTrue result → self.now.budget ≡ budget }
        ensures both { self.now.puzzle ≡ puzzle.now → self.now.budget ≡ budget → IsTrue result }
    {
        self.puzzle.is_same(puzzle) && self.budget == budget
    }

    /// What was found of this puzzle within this budget.
    pub(crate) fn found(
        &self,
        puzzle: &Puzzle,
        budget: u64,
    ) -> Result<Option<FoundState>, AllocError>
        ensures { IfOk result (HasFound puzzle.now budget) }
    {
        if self.is_of(puzzle, budget) {
            Ok(Some(FoundState {
                state: self.state.clone()?,
                visits: self.visits,
            }))
        } else {
            Ok(None)
        }
    }
}

/// Whether it is remembered what a search of the puzzle within the budget found.
pub(crate) fn is_remembered(memo: &Option<Memo>, puzzle: &Puzzle, budget: u64) -> bool
    ensures { IsTrue result ↔ Remembers memo.now puzzle.now budget }
{
    match memo {
        Some(memo) => memo.is_of(puzzle, budget),
        None => false,
    }
}
