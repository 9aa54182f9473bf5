//! Chains of lines and their loose ends.
ghost use Rattle.std.specs.Prelude.{◌≡◌, ◌<◌, ◌≤◌, ℕ, slice_index, IfOk, IfSome, IfNone, Some, Contains, length};
ghost use Rattle.hall_grid.specs.Board.{IsSize};
ghost use Rattle.hall_grid.specs.Slither.{all_sides, dots, degree};
ghost use Rattle.hall_slither.specs.Dot.{AreBelow};
ghost use Rattle.hall_slither.specs.Chain.{AreChains, AreLines, Touches, HaveEnds, with_end};

use crate::dot::{degree, dot_count, sides_at};
use hall_grid::Size;
use hall_solve::Partial;
use std::alloc::{AllocError, Global};

/// The dots where a chain has one line.
#[derive(Clone, Copy)]
pub(crate) enum Ends {
    /// There is none: the chain is a loop.
    Closed,
    One(usize),
    Two(usize, usize),
    Many,
}

impl Ends {
    /// One end more.
    fn with(self, dot: usize) -> Ends
        ensures { result ≡ with_end self dot }
    {
        match self {
            Ends::Closed => Ends::One(dot),
            Ends::One(first) => Ends::Two(first, dot),
            Ends::Two(_, _) | Ends::Many => Ends::Many,
        }
    }
}

/// The lines so far: 1 for a line, 0 for none and for an open side.
pub(crate) fn lines_so_far(alloc: Global, partial: &Partial) -> Result<Vec<u8>, AllocError>
    ensures { IfOk result (λ lines. AreLines partial.now.places lines.items) }
{
    let mut lines = vec![in alloc; 0; partial.len()]?;
    for side in 0..partial.len() {
        if partial.get(side) == Some(1) {
            lines[side] = 1;
        }
    }
    Ok(lines)
}

/// The first of the sides that is a line.
pub(crate) fn first_line(lines: &[u8], sides: &[Option<usize>]) -> Option<usize>
    requires { AreBelow (length lines.now) sides.now }
    ensures found { IfSome result (λ s. Contains sides.now (Some s) × (slice_index lines.now s ≡ 1)) }
    ensures none { IfNone result ((s : ℕ) → Contains sides.now (Some s) → slice_index lines.now s ≡ 1 → ⊥) }
{
    for side in sides {
        if let Some(side) = *side {
            if lines[side] == 1 {
                return Some(side);
            }
        }
    }
    None
}

/// The label of the chain that has one line at the dot, where there is one.
fn label_ending_at(size: Size, lines: &[u8], labels: &[Option<usize>], dot: usize) -> Option<usize>
    requires size { IsSize size }
    requires lines { length lines.now ≡ all_sides size }
    requires labels { AreChains size lines.now labels.now }
    requires board { dot < dots size }
    ensures some { IfSome result (λ label. (label < length labels.now) × Touches size labels.now label dot) }
    ensures none { IfNone result ((label : ℕ) → Touches size labels.now label dot → 2 ≤ degree size lines.now dot) }
{
    if degree(size, lines, dot) != 1 {
        return None;
    }
    let Some(side) = first_line(lines, &sides_at(size, dot)) else {
        return None;
    };
    labels[side]
}

/// The ends of each chain, by its label.
pub(crate) fn chain_ends(
    alloc: Global,
    size: Size,
    lines: &[u8],
    labels: &[Option<usize>],
) -> Result<Vec<Ends>, AllocError>
    requires size { IsSize size }
    requires lines { length lines.now ≡ all_sides size }
    requires labels { AreChains size lines.now labels.now }
    ensures { IfOk result (λ ends. HaveEnds size lines.now labels.now (dots size) ends.items) }
{
    let mut ends = vec![in alloc; Ends::Closed; labels.len()]?;
    for dot in 0..dot_count(size) {
        if let Some(label) = label_ending_at(size, lines, labels, dot) {
            ends[label] = ends[label].with(dot);
        }
    }
    Ok(ends)
}
