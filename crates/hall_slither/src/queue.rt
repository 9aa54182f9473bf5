//! Sides that are still to try. Nothing is proved from it.
ghost use Rattle.std.specs.Prelude.{◌≡◌, ◌<◌, length};
ghost use Rattle.hall_grid.specs.Board.{IsSize};
ghost use Rattle.hall_grid.specs.Slither.{all_sides};
ghost use Rattle.hall_slither.specs.Count.{IsCentre};

use crate::colour::cells_by;
use crate::count::{Centre, sides_round};
use hall_grid::{Size, dot_ends};
use hall_solve::Partial;
use std::alloc::{AllocError, Global};

/// How much work a visit does for trials.
const WORK: usize = 26_000;

/// The work for the trials of one side besides that for the sides that they set, which is 1 for each.
const TRIAL: usize = 20;

/// To look at the whole board is the work of one for so many sides.
const SIDES_A_WORK: usize = 2;

/// The sides that wait to be tried. In `sides` each stands once at the most; the memory is taken at once.
#[derive(Drop)]
pub(crate) struct Queue {
    sides: Vec<usize>,
    /// Whether a side stands in it.
    waits: Vec<bool>,
    /// All sides below this one wait too, until none else does.
    rest: usize,
    /// Of each visit on the way to this one: how long the trail was at its end, and `rest` then.
    left: Vec<(usize, usize)>,
    /// How much work the visit may still do for trials.
    work: usize,
}

impl Queue {
    /// An empty one for a board of so many sides.
    pub(crate) fn new(alloc: Global, sides: usize) -> Result<Queue, AllocError> {
        Ok(Queue {
            sides: Vec::with_capacity(alloc, sides)?,
            waits: vec![in alloc; false; sides]?,
            rest: 0,
            left: Vec::with_capacity(alloc, sides)?,
            work: 0,
        })
    }

    /// Begins with the sides beside the one that was set last, and with what the visit before left; with all sides
    /// where there was none.
    pub(crate) fn start_over(&mut self, size: Size, partial: &Partial)
        requires { IsSize size }
    {
        self.work = WORK;
        self.sides.clear();
        for side in 0..self.waits.len() {
            self.waits[side] = false;
        }
        self.rest = 0;
        let trail = partial.trail();
        if let Some(side) = trail.last() {
            self.put_beside_all(size, &[*side]);
        }
        self.rest = self.left_before(trail.len());
    }

    /// What the last visit left whose trail was shorter than this: the one from which a search went on.
    fn left_before(&mut self, length: usize) -> usize {
        for _ in 0..self.left.len() {
            if let Some((ended, rest)) = self.left.last().copied() {
                if ended < length {
                    return rest;
                }
            }
            let _ = self.left.pop();
        }
        self.waits.len()
    }

    /// Keeps what a visit leaves that ends so.
    pub(crate) fn end(&mut self, partial: &Partial) {
        let _ = self.left.push((partial.trail().len(), self.rest));
    }

    /// Takes the work for the trials of a side that set so many sides.
    pub(crate) fn pay(&mut self, set: usize) {
        self.work = self.work.saturating_sub(set.saturating_add(TRIAL));
    }

    /// Takes the work for so many looks at the whole board.
    pub(crate) fn pay_looks(&mut self, looks: usize) {
        let work = looks.saturating_mul(self.waits.len() / SIDES_A_WORK);
        self.work = self.work.saturating_sub(work);
    }

    /// Puts a side into it.
    pub(crate) fn put(&mut self, side: usize) {
        if side >= self.rest && side < self.waits.len() && !self.waits[side] {
            self.waits[side] = true;
            let _ = self.sides.push(side);
        }
    }

    /// Takes a side out of it, as long as work may be done.
    pub(crate) fn take(&mut self) -> Option<usize> {
        if self.work == 0 {
            return None;
        }
        if let Some(side) = self.sides.pop() {
            if side < self.waits.len() {
                self.waits[side] = false;
            }
            return Some(side);
        }
        if self.rest == 0 {
            return None;
        }
        self.rest -= 1;
        Some(self.rest)
    }

    /// Puts all sides at a dot or a cell into it.
    fn put_round(&mut self, size: Size, centre: Centre)
        requires size { IsSize size }
        requires centre { IsCentre size centre }
    {
        for side in &sides_round(size, centre) {
            if let Some(side) = *side {
                self.put(side);
            }
        }
    }

    /// Puts the sides into it that share a dot or a cell with a side.
    fn put_beside(&mut self, size: Size, side: usize)
        requires size { IsSize size }
        requires side { side < all_sides size }
    {
        let (first, second) = dot_ends(size, side);
        self.put_round(size, Centre::Dot(first));
        self.put_round(size, Centre::Dot(second));
        let (first, second) = cells_by(size, side);
        if first < size.cells() {
            self.put_round(size, Centre::Cell(first));
        }
        if second < size.cells() {
            self.put_round(size, Centre::Cell(second));
        }
    }

    /// Puts the sides into it that share a dot or a cell with one of these.
    pub(crate) fn put_beside_all(&mut self, size: Size, sides: &[usize])
        requires size { IsSize size }
    {
        for side in sides {
            if *side < size.all_sides() {
                self.put_beside(size, *side);
            }
        }
    }
}
