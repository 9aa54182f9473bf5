//! The rules of a Nurikabe puzzle, as a search asks them.
ghost use Rattle.std.specs.Prelude.{◌≡◌, IfOk};

use crate::branch::next_cell;
use crate::group::Room;
use crate::judge::broken;
use crate::trial::DeductionsAndTrials;
use crate::turn::{Turn, WORK};
use hall_grid::{Filling, Kind, Puzzle};
use hall_solve::{Partial, Rules, Step, settle};
use std::alloc::{AllocError, Global};
use std::marker::Model;

/// The rules of one puzzle, the cell to try next, how long the trail was when the deductions left nothing to find, the
/// cell where trials go on, room for groups, and counts of what a search asked.
#[derive(Drop)]
pub struct NurikabeRules {
    puzzle: Puzzle,
    next: Option<usize>,
    settled: usize,
    turn: usize,
    room: Option<Room>,
    visits: u64,
    asked: u64,
}

impl Model for NurikabeRules {
    ghost use Rattle.hall_solve.specs.Puzzle.{SearchView};

    ghost Value = { SearchView };

    ghost use Rattle.std.specs.Prelude.{◌≡◌};
    ghost use Rattle.hall_grid.specs.declared.board.Kind.TheVariants.{Nurikabe};

    ghost view = { λ r. record { board = r.puzzle; visits = r.visits; asked = r.asked } };

    ghost invariant = { λ r. r.puzzle.kind ≡ Nurikabe };
}

impl NurikabeRules {
    ghost use Rattle.hall_solve.specs.Puzzle.{begun};

    /// The rules of the puzzle, with both counts 0.
    pub fn new(puzzle: Puzzle) -> NurikabeRules
        requires { puzzle.kind ≡ Kind.Nurikabe }
        ensures { result ≡ begun puzzle }
    {
        NurikabeRules {
            puzzle,
            next: None,
            settled: 0,
            turn: 0,
            room: None,
            visits: 0,
            asked: 0,
        }
    }
}

impl Rules for NurikabeRules {
    ghost use Rattle.hall_grid.specs.declared.board.Kind.TheVariants.{Nurikabe};
    ghost use Rattle.hall_solve.specs.Puzzle.{question_of};

    ghost question = { λ r. question_of Nurikabe r.board };

    ghost visits = { λ r. r.visits };

    ghost asked = { λ r. r.asked };

    fn cells(&self) -> usize {
        self.puzzle.cells()
    }

    fn values(&self) -> u8 {
        2
    }

    fn visits(&self) -> u64 {
        self.visits
    }

    fn asked(&self) -> u64 {
        self.asked
    }

    fn propagate(&mut self, alloc: Global, partial: &mut Partial) -> Result<Step, AllocError> {
        self.visits += 1;
        let mut room = match self.room.take() {
            Some(room) => room,
            None => Room::new(alloc),
        };
        room.group.left = WORK;
        // A search sets one place between two visits, and takes back what it set since a visit that left nothing to
        // find.
        let from = self.settled.min(partial.trail().len().saturating_sub(1));
        let mut turn = Turn::new(alloc, self.puzzle.cells(), self.turn, from, room)?;
        let deductions = DeductionsAndTrials {
            puzzle: &self.puzzle,
        };
        let step = settle(alloc, &deductions, partial, &mut turn)?;
        self.turn = turn.next;
        self.settled = turn.followed;
        self.room = Some(turn.room);
        match step {
            Step::Dead => Ok(Step::Dead),
            Step::Live => {
                self.next = next_cell(alloc, &self.puzzle, partial, turn.best)?;
                Ok(Step::Live)
            }
        }
    }

    fn accepts(&mut self, alloc: Global, filling: &Filling) -> Result<bool, AllocError> {
        self.asked += 1;
        let broken = broken(alloc, &self.puzzle, filling)?;
        Ok(broken.is_empty())
    }

    fn branch_place(&self, partial: &Partial) -> Option<usize> {
        match self.next {
            Some(cell) if cell < partial.len() && partial.get(cell).is_none() => Some(cell),
            _ => partial.first_unset(),
        }
    }
}
