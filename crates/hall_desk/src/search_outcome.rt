//! What the search of a puzzle found.
ghost use Rattle.std.specs.Prelude.{◌≡◌};
ghost use Rattle.hall_desk.specs.Finding.{FindingView};

use hall_grid::Puzzle;
use hall_solve::Searched;
use std::marker::Model;

/// A puzzle, a budget, and what a search of that puzzle within that budget found. A search alone makes one of these.
#[derive(Drop)]
pub struct Finding {
    pub(crate) puzzle: Puzzle,
    pub(crate) budget: u64,
    pub(crate) searched: Searched,
}

impl Model for Finding {
    ghost use Rattle.hall_desk.specs.Finding.{FindingView, IsFoundBy};

    ghost Value = { FindingView };

    ghost view = { λ f. record { puzzle = f.puzzle; budget = f.budget; searched = f.searched } };

    ghost invariant = { λ f. IsFoundBy f.puzzle f.budget f.searched };
}

impl Finding {
    ghost use Rattle.hall_desk.specs.Finding.{IsFoundBy};

    /// The puzzle, the budget, and what was found.
    pub(crate) fn into_parts(self) -> (Puzzle, u64, Searched)
        ensures found { IsFoundBy result.0 result.1 result.2 }
        ensures puzzle { result.0 ≡ self.puzzle }
        ensures budget { result.1 ≡ self.budget }
    {
        (self.puzzle, self.budget, self.searched)
    }

    /// What was found, and the visits that were made.
    pub(crate) fn into_searched(self) -> Searched
        ensures same { result ≡ self.searched }
        ensures found { IsFoundBy self.puzzle self.budget result }
    {
        self.searched
    }
}
