//! The search of a puzzle, by the rules of its kind.
ghost use Rattle.std.specs.Prelude.{◌≡◌, ◌↔◌, IfOk, IsTrue};
ghost use Rattle.hall_desk.specs.Certifying.{IsGoneOn};
ghost use Rattle.hall_desk.specs.Underway.{IsUnderWayOf, visits_of_kind};
ghost use Rattle.hall_desk.specs.Finding.{IsFoundBy};

use crate::search_outcome::Finding;
use hall_grid::{Kind, Puzzle};
use hall_nurikabe::NurikabeRules;
use hall_slither::SlitherRules;
use hall_solve::{Search, Searched, Searching};
use hall_sudoku::SudokuRules;
use std::alloc::{AllocError, Global};
use std::marker::Model;

/// The rules of a kind, and the search by them.
#[derive(Drop)]
pub(crate) enum ByKind {
    Sudoku(SudokuRules, Search),
    Slither(SlitherRules, Search),
    Nurikabe(NurikabeRules, Search),
}

/// The search of a puzzle within a budget, under way; a contract sees the puzzle, the budget and the visits so far.
#[derive(Drop)]
pub struct PuzzleSearch {
    puzzle: Puzzle,
    budget: u64,
    by_kind: ByKind,
}

impl Model for PuzzleSearch {
    ghost use Rattle.hall_desk.specs.Underway.{SearchOf, IsUnderWayOf, visits_of_kind};

    ghost Value = { SearchOf };

    ghost view = { λ s. record { puzzle = s.puzzle; budget = s.budget; visits = visits_of_kind s.by_kind } };

    ghost invariant = { λ s. IsUnderWayOf s.puzzle s.budget s.by_kind };
}

/// What came of going on with it.
#[derive(Drop)]
pub enum Certifying {
    /// It is at its end.
    Found(Finding),
    /// It made as many visits as it was given, and may go on.
    Paused(PuzzleSearch),
}

impl PuzzleSearch {
    /// The search of the puzzle, before its first visit.
    pub fn new(alloc: Global, puzzle: Puzzle, budget: u64) -> Result<PuzzleSearch, AllocError>
        ensures puzzle { IfOk result (λ search. search.puzzle ≡ puzzle) }
        ensures budget { IfOk result (λ search. search.budget ≡ budget) }
        ensures visits { IfOk result (λ search. search.visits ≡ 0) }
    {
        let by_kind = match puzzle.kind() {
            Kind::Sudoku => {
                let rules = SudokuRules::new(alloc, puzzle.clone()?)?;
                let search = Search::new(
                    alloc,
                    &rules,
                    hall_sudoku::start(alloc, &puzzle)?,
                    budget,
                )?;
                ByKind::Sudoku(rules, search)
            }
            Kind::Slither => {
                let rules = SlitherRules::new(puzzle.clone()?);
                let search = Search::new(
                    alloc,
                    &rules,
                    hall_slither::start(alloc, &puzzle)?,
                    budget,
                )?;
                ByKind::Slither(rules, search)
            }
            Kind::Nurikabe => {
                let rules = NurikabeRules::new(puzzle.clone()?);
                let search = Search::new(
                    alloc,
                    &rules,
                    hall_nurikabe::start(alloc, &puzzle)?,
                    budget,
                )?;
                ByKind::Nurikabe(rules, search)
            }
        };
        Ok(PuzzleSearch {
            puzzle,
            budget,
            by_kind,
        })
    }

    /// Whether it is of this puzzle.
    pub(crate) fn is_of_puzzle(&self, puzzle: &Puzzle) -> bool
        ensures { IsTrue result ↔ self.now.puzzle ≡ puzzle.now }
    {
        self.puzzle.is_same(puzzle)
    }

    /// Whether it is of this puzzle, within this budget.
    pub(crate) fn is_of(&self, puzzle: &Puzzle, budget: u64) -> bool
        ensures puzzle { IsTrue result → self.now.puzzle ≡ puzzle.now }
        ensures budget { IsTrue result → self.now.budget ≡ budget }
        ensures both { self.now.puzzle ≡ puzzle.now → self.now.budget ≡ budget → IsTrue result }
    {
        self.is_of_puzzle(puzzle) && self.budget == budget
    }

    /// Goes on until it is at its end, or has made so many more visits. Refused, it is gone.
    pub fn go_on(self, alloc: Global, most: u64) -> Result<Certifying, AllocError>
        ensures { IfOk result (IsGoneOn self most) }
    {
        let PuzzleSearch {
            puzzle,
            budget,
            by_kind,
        } = self;
        match by_kind {
            ByKind::Sudoku(mut rules, search) => match search.go_on(alloc, &mut rules, most)? {
                Searching::Ended(searched) => Ok(found(puzzle, budget, searched)),
                Searching::Paused(search) => {
                    Ok(paused(puzzle, budget, ByKind::Sudoku(rules, search)))
                }
            },
            ByKind::Slither(mut rules, search) => match search.go_on(alloc, &mut rules, most)? {
                Searching::Ended(searched) => Ok(found(puzzle, budget, searched)),
                Searching::Paused(search) => {
                    Ok(paused(puzzle, budget, ByKind::Slither(rules, search)))
                }
            },
            ByKind::Nurikabe(mut rules, search) => match search.go_on(alloc, &mut rules, most)? {
                Searching::Ended(searched) => Ok(found(puzzle, budget, searched)),
                Searching::Paused(search) => {
                    Ok(paused(puzzle, budget, ByKind::Nurikabe(rules, search)))
                }
            },
        }
    }
}

/// It ended so.
fn found(puzzle: Puzzle, budget: u64, searched: Searched) -> Certifying
    requires { IsFoundBy puzzle budget searched }
    ensures { result ≡ Certifying.Found (record { puzzle = puzzle; budget = budget; searched = searched }) }
{
    Certifying::Found(Finding {
        puzzle,
        budget,
        searched,
    })
}

/// It paused so.
fn paused(puzzle: Puzzle, budget: u64, by_kind: ByKind) -> Certifying
    requires { IsUnderWayOf puzzle budget by_kind }
    ensures { result
        ≡ Certifying.Paused (record { puzzle = puzzle; budget = budget; visits = visits_of_kind by_kind }) }
{
    Certifying::Paused(PuzzleSearch {
        puzzle,
        budget,
        by_kind,
    })
}
