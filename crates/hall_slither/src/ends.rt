//! Loose ends of chains, kept as lines come and go: a hint where a loop may have closed.
//!
//! Nothing is proved from it; what it points at is looked at anew.
ghost use Rattle.std.specs.Prelude.{◌≡◌, ◌<◌, length};
ghost use Rattle.hall_grid.specs.Board.{IsSize};
ghost use Rattle.hall_grid.specs.Slither.{all_sides};

use crate::dot::dot_count;
use hall_grid::{Size, dot_ends};
use hall_solve::Partial;
use std::alloc::{AllocError, Global};

/// For each dot at the end of a chain its other end, and for one with no line itself.
#[derive(Drop)]
pub(crate) struct LooseEnds {
    other: Vec<usize>,
    /// What was there before the lines that may go again.
    before: Vec<(usize, usize)>,
    /// Whether the lines that were joined last closed a loop.
    pub(crate) closed: bool,
}

impl LooseEnds {
    /// The memory for a board of this size; [`LooseEnds::start_over`] comes first.
    pub(crate) fn new(alloc: Global, size: Size) -> Result<LooseEnds, AllocError>
        requires { IsSize size }
    {
        Ok(LooseEnds {
            other: vec![in alloc; 0; dot_count(size)]?,
            before: Vec::with_capacity(alloc, 2 * size.all_sides())?,
            closed: false,
        })
    }

    /// The lines that a partial filling has, and no others.
    pub(crate) fn start_over(&mut self, size: Size, partial: &Partial)
        requires size { IsSize size }
        requires exact { length partial.now.places ≡ all_sides size }
    {
        for dot in 0..self.other.len() {
            self.other[dot] = dot;
        }
        for side in 0..partial.len() {
            if partial.get(side) == Some(1) {
                self.join(size, side);
            }
        }
        self.keep();
    }

    /// One more line; whether it joined the two ends of one chain.
    pub(crate) fn join(&mut self, size: Size, side: usize) -> bool
        requires size { IsSize size }
        requires side { side < all_sides size }
    {
        let (first, second) = dot_ends(size, side);
        let count = self.other.len();
        if first >= count || second >= count {
            return false;
        }
        let start = self.other[first];
        let end = self.other[second];
        if start == second {
            return true;
        }
        self.replace(start, end);
        self.replace(end, start);
        false
    }

    fn replace(&mut self, dot: usize, end: usize) {
        if dot < self.other.len() {
            let _ = self.before.push((dot, self.other[dot]));
            self.other[dot] = end;
        }
    }

    /// The lines so far stay.
    pub(crate) fn keep(&mut self) {
        self.before.clear();
    }

    /// The lines since the last that stay go again.
    pub(crate) fn undo(&mut self) {
        while let Some((dot, end)) = self.before.pop() {
            if dot < self.other.len() {
                self.other[dot] = end;
            }
        }
    }

    /// How many ends changed by the lines that may go again; none where they closed a loop.
    pub(crate) fn changes(&self) -> usize {
        if self.closed { 0 } else { self.before.len() }
    }

    /// Whether the dot is an end of a chain, and the other end of that one's other end.
    fn is_loose(&self, dot: usize) -> bool {
        if dot >= self.other.len() {
            return false;
        }
        let end = self.other[dot];
        end != dot && end < self.other.len() && self.other[end] == dot
    }

    /// Both ends of the chain whose lesser end changed in this place, as long as they are.
    pub(crate) fn changed_pair(&self, place: usize) -> Option<(usize, usize)> {
        if place >= self.before.len() {
            return None;
        }
        let (dot, _) = self.before[place];
        if !self.is_loose(dot) || dot >= self.other.len() {
            return None;
        }
        let end = self.other[dot];
        if dot < end { Some((dot, end)) } else { None }
    }

    /// An end of another chain than that with these ends.
    pub(crate) fn loose_besides(&self, first: usize, second: usize) -> Option<usize> {
        for dot in 0..self.other.len() {
            if dot != first && dot != second && self.is_loose(dot) {
                return Some(dot);
            }
        }
        None
    }
}
