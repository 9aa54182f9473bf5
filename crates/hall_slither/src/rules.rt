//! The rules of a Slitherlink puzzle, as a search asks them.
ghost use Rattle.std.specs.Prelude.{◌≡◌, ◌<◌, IsTrue, IfOk, OnErr, Some, slice_set};
ghost use Rattle.hall_grid.specs.declared.board.Kind.TheVariants.{Slither};
ghost use Rattle.hall_solve.specs.Question.{IsPartial, IsOpen, Narrows};
ghost use Rattle.hall_solve.specs.Deduction.{IsDeduced};
ghost use Rattle.hall_solve.specs.Puzzle.{question_of, start_of, AllExtend};
ghost use Rattle.hall_solve.specs.Trail.{Grows};
ghost use Rattle.hall_slither.specs.Count.{AreSilent};

use crate::close::close_chains;
use crate::follow::{follow_all, learn_all};
use crate::judge::broken;
use crate::position::Position;
use crate::scratch::{Scratch, best_open, note_failure};
use crate::trial::try_waiting;
use hall_grid::{Filling, Kind, Puzzle};
use hall_solve::{Deduce, Partial, Pass, Rules, Step, settle};
use std::alloc::{AllocError, Global};
use std::marker::Model;

/// All deductions about a puzzle.
#[derive(Drop)]
struct Deductions<'a> {
    puzzle: &'a Puzzle,
    ghost kind: { puzzle.now.kind ≡ Slither },
}

impl Deduce for Deductions<'_> {
    type Scratch = Scratch;

    ghost question = { λ deductions. question_of Slither deductions.puzzle.now };

    ghost settled = { λ deductions. AreSilent deductions.puzzle.now };

    fn pass(
        &self,
        alloc: Global,
        partial: &mut Partial,
        scratch: &mut Scratch,
    ) -> Result<Pass, AllocError> {
        let mark = partial.mark();
        scratch.queue.pay_looks(1);
        let pass = deduce(alloc, self.puzzle, partial, scratch)?;
        if let Pass::Advanced = pass {
            scratch
                .queue
                .put_beside_all(self.puzzle.size(), partial.since(mark));
        }
        Ok(pass)
    }
}

/// Counts and colours at all dots and cells, then loops, then trials of the sides that wait.
fn deduce(
    alloc: Global,
    puzzle: &Puzzle,
    partial: &mut Partial,
    scratch: &mut Scratch,
) -> Result<Pass, AllocError>
    requires kind { puzzle.now.kind ≡ Kind.Slither }
    requires partial { IsPartial (question_of Kind.Slither puzzle.now) partial.old.places }
    ensures deduced { IfOk result
        (IsDeduced (question_of Kind.Slither puzzle.now) partial.old.places partial.new.places) }
    ensures silent { IfOk result (λ pass. pass ≡ Pass.Settled → AreSilent puzzle.now partial.new.places) }
    ensures err { OnErr result (Narrows (question_of Kind.Slither puzzle.now) partial.old.places partial.new.places) }
    ensures grows { Grows partial.old partial.new }
{
    match learn_all(puzzle, partial, &mut scratch.colours)? {
        Step::Live => {}
        Step::Dead => return Ok(Pass::Dead),
    }
    scratch.trial.stack.clear();
    let mut position = Position {
        puzzle,
        partial,
        colours: &mut scratch.colours,
        stack: &mut scratch.trial.stack,
    };
    match follow_all(&mut position)? {
        Pass::Settled => {}
        pass => return Ok(pass),
    }
    match close_chains(alloc, puzzle, partial)? {
        Pass::Settled => try_waiting(alloc, puzzle, partial, scratch),
        pass => Ok(pass),
    }
}

/// The rules of one puzzle, and counts of what a search asked.
#[derive(Drop)]
pub struct SlitherRules {
    puzzle: Puzzle,
    visits: u64,
    asked: u64,
    scratch: Option<Scratch>,
}

impl Model for SlitherRules {
    ghost use Rattle.hall_solve.specs.Puzzle.{SearchView};

    ghost Value = { SearchView };

    ghost use Rattle.std.specs.Prelude.{◌≡◌};
    ghost use Rattle.hall_grid.specs.declared.board.Kind.TheVariants.{Slither};

    ghost view = { λ r. record { board = r.puzzle; visits = r.visits; asked = r.asked } };

    ghost invariant = { λ r. r.puzzle.kind ≡ Slither };
}

impl SlitherRules {
    ghost use Rattle.hall_solve.specs.Puzzle.{begun};

    /// The rules of the puzzle, with both counts 0.
    pub fn new(puzzle: Puzzle) -> SlitherRules
        requires { puzzle.kind ≡ Kind.Slither }
        ensures { result ≡ begun puzzle }
    {
        SlitherRules {
            puzzle,
            visits: 0,
            asked: 0,
            scratch: None,
        }
    }
}

impl Rules for SlitherRules {
    ghost question = { λ r. question_of Slither r.board };

    ghost settled = { λ r. AreSilent r.board };

    ghost visits = { λ r. r.visits };

    ghost asked = { λ r. r.asked };

    fn cells(&self) -> usize {
        self.puzzle.size().all_sides()
    }

    fn values(&self) -> u8 {
        2
    }

    fn visits(&self) -> u64 {
        self.visits
    }

    fn asked(&self) -> u64 {
        self.asked
    }

    fn propagate(&mut self, alloc: Global, partial: &mut Partial) -> Result<Step, AllocError> {
        self.visits += 1;
        let mut scratch = match self.scratch.take() {
            Some(scratch) => scratch,
            None => Scratch::new(alloc, &self.puzzle)?,
        };
        let chosen = partial.trail().last().copied();
        scratch.queue.start_over(self.puzzle.size(), partial);
        let deductions = Deductions {
            puzzle: &self.puzzle,
        };
        let step = settle(alloc, &deductions, partial, &mut scratch);
        if matches!(step, Ok(Step::Dead)) {
            note_failure(&mut scratch.failures, chosen);
        }
        scratch.queue.end(partial);
        self.scratch = Some(scratch);
        step
    }

    fn accepts(&mut self, alloc: Global, filling: &Filling) -> Result<bool, AllocError> {
        self.asked += 1;
        Ok(broken(alloc, &self.puzzle, filling)?.is_empty())
    }

    fn branch_place(&self, partial: &Partial) -> Option<usize> {
        match &self.scratch {
            Some(scratch) => best_open(scratch, partial),
            None => partial.first_unset(),
        }
    }
}

/// The partial filling where a search begins: no side is given.
pub fn start(alloc: Global, puzzle: &Puzzle) -> Result<Partial, AllocError>
    requires { puzzle.now.kind ≡ Kind.Slither }
    ensures start { IfOk result (λ p. p.places ≡ start_of Kind.Slither puzzle.now) }
    ensures partial { IfOk result (λ p. IsPartial (question_of Kind.Slither puzzle.now) p.places) }
    ensures solutions { IfOk result (λ p. AllExtend Kind.Slither puzzle.now p.places) }
{
    Partial::new(alloc, puzzle.size().all_sides())
}
