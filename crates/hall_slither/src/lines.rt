//! The graph of lines: two sides that share a dot are next to each other.
ghost use Rattle.std.specs.Prelude.{◌≡◌, ◌↔◌, ◌⊎◌, ◌<◌, ℕ, IsTrue, IfOk, length, Contains};
ghost use Rattle.hall_grid.specs.Board.{IsSize};
ghost use Rattle.hall_grid.specs.Slither.{all_sides, IsLine, ShareDot, HasLinesApart};
ghost use Rattle.hall_slither.specs.Chain.{AreChains};

use crate::dot::sides_beside;
use hall_grid::{Graph, Size, components, labels_differ};
use std::alloc::{AllocError, Global};

/// The sides of a board, of which the lines are members.
#[derive(Drop)]
struct Lines<'a> {
    size: Size,
    lines: &'a [u8],
    ghost limits: { IsSize size },
    ghost exact: { length lines.now ≡ all_sides size },
}

impl Graph for Lines<'_> {
    ghost nodes = { λ graph. all_sides graph.size };

    ghost IsMember = { λ graph side. IsLine graph.size graph.lines.now side };

    ghost IsNext = { λ graph a b. ShareDot graph.size a b };

    ghost member_below = { λ graph side line. line.0 };

    ghost symmetric = { λ graph a b shared. (shared.0, shared.2, shared.1) };

    fn nodes(&self) -> usize {
        self.lines.len()
    }

    fn is_member(&self, node: usize) -> bool {
        self.lines[node] == 1
    }

    fn next_to(&self, node: usize) -> [Option<usize>; 6] {
        sides_beside(self.size, node)
    }
}

/// For each line a label of its chain, the same for all lines that are joined.
pub(crate) fn line_labels(
    alloc: Global,
    size: Size,
    lines: &[u8],
) -> Result<Vec<Option<usize>>, AllocError>
    requires size { IsSize size }
    requires lines { length lines.now ≡ all_sides size }
    ensures { IfOk result (λ labels. AreChains size lines.now labels.items) }
{
    components(alloc, &Lines { size, lines })
}

/// Whether there are two lines with no chain of lines from the one to the other.
pub(crate) fn has_lines_apart(alloc: Global, size: Size, lines: &[u8]) -> Result<bool, AllocError>
    requires size { IsSize size }
    requires lines { length lines.now ≡ all_sides size }
    ensures { IfOk result (λ apart. IsTrue apart ↔ HasLinesApart size lines.now) }
{
    let labels = line_labels(alloc, size, lines)?;
    Ok(labels_differ(&labels))
}
