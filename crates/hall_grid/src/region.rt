//! Cells that walks by sides over allowed cells join.
ghost use Rattle.std.specs.Prelude.{◌≡◌, ℕ, ◌<◌, ◌↔◌, ◌⊎◌, IsTrue, IfOk, length, Contains};
ghost use Rattle.hall_grid.specs.Board.{cells, IsSize, Touch};
ghost use Rattle.hall_grid.specs.Component.{AreComponents};
ghost use Rattle.hall_grid.specs.Reached.{IsMarked, IsReach};
ghost use Rattle.hall_grid.specs.RegionLaws.{Touch-turn, marked_below};

use crate::board::Size;
use crate::graph::{Graph, components, reached};
use crate::neighbour::neighbours;
use std::alloc::{AllocError, Global};

/// The allowed cells of a board, next to one another where they touch.
#[derive(Drop)]
struct Region<'a> {
    size: Size,
    allowed: &'a [bool],
    ghost limits: { IsSize size },
    ghost exact: { length allowed.now ≡ cells size },
}

impl Graph for Region<'_> {
    ghost nodes = { λ region. cells region.size };

    ghost IsMember = { λ region. IsMarked region.allowed.now };

    ghost IsNext = { λ region. Touch region.size };

    ghost member_below = { λ region cell. marked_below region.allowed.now cell (cells region.size) region.exact };

    ghost symmetric = { λ region. Touch-turn region.size };

    fn nodes(&self) -> usize {
        self.allowed.len()
    }

    fn is_member(&self, node: usize) -> bool {
        self.allowed[node]
    }

    fn next_to(&self, node: usize) -> [Option<usize>; 6] {
        let [up, left, right, down] = neighbours(self.size, node);
        [up, left, right, down, None, None]
    }
}

/// The cells that a walk by sides over allowed cells alone reaches from a cell, none where that cell isn't allowed.
pub fn reach(
    alloc: Global,
    size: Size,
    from: usize,
    allowed: &[bool],
) -> Result<Vec<bool>, AllocError>
    requires size { IsSize size }
    requires from { from < cells size }
    requires allowed { length allowed.now ≡ cells size }
    ensures { IfOk result (λ marks. IsReach (cells size) (Touch size) (IsMarked allowed.now) from marks.items) }
{
    reached(alloc, &Region { size, allowed }, from)
}

/// The greatest sets of allowed cells joined by sides: for each allowed cell the number of one cell of its set,
/// the same for all of them.
pub fn regions(
    alloc: Global,
    size: Size,
    allowed: &[bool],
) -> Result<Vec<Option<usize>>, AllocError>
    requires size { IsSize size }
    requires allowed { length allowed.now ≡ cells size }
    ensures { IfOk result (λ labels. AreComponents (cells size) (Touch size) (IsMarked allowed.now) labels.items) }
{
    components(alloc, &Region { size, allowed })
}
