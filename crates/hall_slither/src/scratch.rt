//! The memory that a search works in, kept from visit to visit.
ghost use Rattle.std.specs.Prelude.{◌≡◌, IfSome, IfNone};
ghost use Rattle.hall_solve.specs.Question.{IsOpen, IsWhole};

use crate::colour::Colours;
use crate::count::Centre;
use crate::ends::LooseEnds;
use crate::queue::Queue;
use crate::setting::Setting;
use hall_grid::{Kind, Puzzle};
use hall_solve::Partial;
use std::alloc::{AllocError, Global};

/// What is kept to find sides that would close a loop too early.
#[derive(Drop)]
pub(crate) struct Hints {
    /// The loose ends of the chains of lines.
    pub(crate) ends: LooseEnds,
    /// The sides that were passed on the way along a chain.
    pub(crate) passed: Vec<usize>,
    /// The sides that would close a loop too early.
    pub(crate) early: Vec<Setting>,
    /// How often all chains were labelled since that was asked.
    pub(crate) looks: usize,
}

/// What a trial works in.
#[derive(Drop)]
pub(crate) struct Trial {
    /// The dots and cells that are still to look at.
    pub(crate) stack: Vec<Centre>,
    /// What is known of colours where the tried value stands.
    pub(crate) colours: Colours,
    pub(crate) hints: Hints,
}

/// What a search works in.
#[derive(Drop)]
pub(crate) struct Scratch {
    /// What is known of colours.
    pub(crate) colours: Colours,
    pub(crate) trial: Trial,
    /// What followed from a line at a side.
    pub(crate) with_line: Vec<Setting>,
    /// What followed from none.
    pub(crate) without: Vec<Setting>,
    /// Where a side may stand in the first of these.
    pub(crate) index: Vec<usize>,
    /// What is so known.
    pub(crate) known: Vec<Setting>,
    /// The sides that are still to try.
    pub(crate) queue: Queue,
    /// How much followed from the values of each side when it was last tried.
    pub(crate) scores: Vec<usize>,
    /// How often a value that the search chose for each side was found to fail.
    pub(crate) failures: Vec<usize>,
}

impl Scratch {
    pub(crate) fn new(alloc: Global, puzzle: &Puzzle) -> Result<Scratch, AllocError>
        requires { puzzle.now.kind ≡ Kind.Slither }
    {
        let size = puzzle.size();
        let sides = size.all_sides();
        Ok(Scratch {
            colours: Colours::new(alloc),
            trial: Trial {
                stack: Vec::new(alloc),
                colours: Colours::new(alloc),
                hints: Hints {
                    ends: LooseEnds::new(alloc, size)?,
                    passed: Vec::new(alloc),
                    early: Vec::new(alloc),
                    looks: 0,
                },
            },
            with_line: Vec::new(alloc),
            without: Vec::new(alloc),
            index: vec![in alloc; 0; sides]?,
            known: Vec::new(alloc),
            queue: Queue::new(alloc, sides)?,
            scores: vec![in alloc; 0; sides]?,
            failures: vec![in alloc; 0; sides]?,
        })
    }
}

/// Notes that a value of the side failed, where there is one.
pub(crate) fn note_failure(failures: &mut [usize], side: Option<usize>) {
    if let Some(side) = side {
        if side < failures.len() {
            failures[side] = failures[side].saturating_add(1);
        }
    }
}

/// How much a side is worth to branch at: its score, times one more than its failures.
fn worth(scores: &[usize], failures: &[usize], side: usize) -> usize {
    if side < scores.len() && side < failures.len() {
        scores[side].saturating_mul(failures[side].saturating_add(1))
    } else {
        0
    }
}

/// The open side that is worth most.
pub(crate) fn best_open(scratch: &Scratch, partial: &Partial) -> Option<usize>
    ensures unset { IfSome result (IsOpen partial.now.places) }
    ensures whole { IfNone result (IsWhole partial.now.places) }
{
    let mut best: Option<usize> = None;
    let mut greatest = 0;
    for side in 0..partial.len() {
        if partial.get(side).is_none() {
            let worth = worth(&scratch.scores, &scratch.failures, side);
            if best.is_none() || worth > greatest {
                best = Some(side);
                greatest = worth;
            }
        }
    }
    best
}
