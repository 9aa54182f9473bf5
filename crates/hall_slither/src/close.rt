//! Loops: a side that would close one too early has no line, and beside a loop there is no other line.
ghost use Rattle.std.specs.Prelude.{◌≡◌, ◌<◌, ◌↔◌, ℕ, IsTrue, IfOk, OnErr, List, Option, length};
ghost use Rattle.hall_grid.specs.Slither.{all_sides};
ghost use Rattle.hall_solve.specs.Question.{IsPartial, IsHopeless, Narrows};
ghost use Rattle.hall_solve.specs.Deduction.{IsDeduced};
ghost use Rattle.hall_solve.specs.Puzzle.{question_of};
ghost use Rattle.hall_solve.specs.Trail.{Grows};
ghost use Rattle.hall_slither.specs.Close.{HasLoop};

use crate::chain::{Ends, chain_ends, first_line, lines_so_far};
use crate::dot::sides_at;
use crate::judge::has_other_count;
use crate::lines::line_labels;
use hall_grid::{Kind, Puzzle, Size, dot_ends, labels_differ};
use hall_solve::{Finding, Look, Partial, Pass, sweep};
use std::alloc::{AllocError, Global};
use std::marker::Model;

/// The chains of a puzzle's lines so far.
#[derive(Drop)]
struct Chains<'a> {
    puzzle: &'a Puzzle,
    lines: Vec<u8>,
    labels: Vec<Option<usize>>,
    ends: Vec<Ends>,
    /// Whether there are several chains.
    apart: bool,
    /// Whether a chain is a loop.
    closed: bool,
}

impl<'a> Model for Chains<'a> {
    ghost use Rattle.hall_slither.specs.Close.{Layout};

    ghost Value = { Layout };

    ghost use Rattle.hall_slither.specs.Close.{IsLayout, layout_of};

    ghost view = { λ c. layout_of c.puzzle.now c.lines.items c.labels.items c.ends.items c.apart c.closed };

    ghost invariant = { λ c.
        IsLayout (layout_of c.puzzle.now c.lines.items c.labels.items c.ends.items c.apart c.closed) };
}

/// Whether a chain is a loop.
fn has_loop(labels: &[Option<usize>], ends: &[Ends]) -> bool
    requires { length ends.now ≡ length labels.now }
    ensures { IsTrue result ↔ HasLoop labels.now ends.now }
{
    for label in 0..labels.len() {
        if labels[label] == Some(label) && matches!(ends[label], Ends::Closed) {
            return true;
        }
    }
    false
}

impl<'a> Chains<'a> {
    ghost use Rattle.hall_slither.specs.Close.{Closes, HasWrongLoop, layout_question};
    ghost use Rattle.hall_slither.specs.Chain.{AreLines};

    fn new(alloc: Global, puzzle: &'a Puzzle, partial: &Partial) -> Result<Chains<'a>, AllocError>
        requires kind { puzzle.now.kind ≡ Kind.Slither }
        requires partial { IsPartial (question_of Kind.Slither puzzle.now) partial.now.places }
        ensures board { IfOk result (λ c. c.board ≡ puzzle.now) }
        ensures lines { IfOk result (λ c. AreLines partial.now.places c.lines) }
    {
        let size = puzzle.size();
        let lines = lines_so_far(alloc, partial)?;
        let labels = line_labels(alloc, size, &lines)?;
        let ends = chain_ends(alloc, size, &lines, &labels)?;
        let apart = labels_differ(&labels);
        let closed = has_loop(&labels, &ends);
        Ok(Chains {
            puzzle,
            lines,
            labels,
            ends,
            apart,
            closed,
        })
    }

    /// Whether there is a loop that isn't all of a solution: beside another chain, or with a number that
    /// differs from the count of lines.
    fn has_wrong_loop(&self) -> bool
        ensures wrong { IsTrue result ↔ HasWrongLoop self.now }
        ensures hopeless { IsTrue result → (p : List (Option ℕ)) → IsHopeless (layout_question self.now) p }
    {
        self.closed && (self.apart || has_other_count(self.puzzle, &self.lines, None))
    }

    /// Whether the side joins the two ends of one chain.
    fn closes(&self, side: usize) -> bool
        requires { side < all_sides self.now.board.size }
        ensures { IsTrue result → Closes self.now side }
    {
        let size = self.puzzle.size();
        let (first, second) = dot_ends(size, side);
        let Some(line) = first_line(&self.lines, &sides_at(size, first)) else {
            return false;
        };
        let Some(label) = self.labels[line] else {
            return false;
        };
        match self.ends[label] {
            Ends::Two(a, b) if a == first && b == second => true,
            Ends::Two(a, b) if a == second && b == first => true,
            _ => false,
        }
    }
}

impl<'a> Look for Chains<'a> {
    ghost use Rattle.hall_slither.specs.Close.{layout_question};

    ghost question = { layout_question };

    ghost spots = { λ c. all_sides c.board.size };

    fn spots(&self) -> usize {
        self.lines.len()
    }

    fn look(
        &self,
        _alloc: Global,
        partial: &mut Partial,
        spot: usize,
    ) -> Result<Finding, AllocError> {
        if partial.get(spot).is_some() || self.lines[spot] == 1 {
            return Ok(Finding::Nothing);
        }
        if self.closed {
            return Ok(Finding::Must(spot, 0));
        }
        if !self.closes(spot) {
            return Ok(Finding::Nothing);
        }
        if self.apart || has_other_count(self.puzzle, &self.lines, Some(spot)) {
            return Ok(Finding::Must(spot, 0));
        }
        Ok(Finding::Nothing)
    }
}

/// Clears sides that would close a loop too early, and all sides beside a loop, which must be all of a solution.
pub(crate) fn close_chains(
    alloc: Global,
    puzzle: &Puzzle,
    partial: &mut Partial,
) -> Result<Pass, AllocError>
    requires kind { puzzle.now.kind ≡ Kind.Slither }
    requires partial { IsPartial (question_of Kind.Slither puzzle.now) partial.old.places }
    ensures deduced { IfOk result
        (IsDeduced (question_of Kind.Slither puzzle.now) partial.old.places partial.new.places) }
    ensures err { OnErr result (Narrows (question_of Kind.Slither puzzle.now) partial.old.places partial.new.places) }
    ensures grows { Grows partial.old partial.new }
{
    let chains = Chains::new(alloc, puzzle, partial)?;
    if chains.has_wrong_loop() {
        return Ok(Pass::Dead);
    }
    sweep(alloc, &chains, partial)
}
